//! The parts of a world, and what each step does to one of them.
ghost use Rattle.std.specs.Prelude.{◌≡◌, ◌<◌, ◌^◌, ◌&&◌, not, nat_lt, true, Some, IfOk, OnOk, length, option_map, slice_get, set};
ghost use Rattle.loglet_api.specs.Step.{CanBegin};
ghost use Rattle.legal_journal.specs.Shown.{is_within, end_of};
ghost use Rattle.world_steps.specs.Parts.{node_at, given_under, fresh};
ghost use Rattle.world_steps.specs.Guards.{may_begin as may_begin_by, may_follow as may_follow_by, changed as changed_by};
ghost use Rattle.world_steps.specs.Logs.{reach_in, entries_in, log_at as log_by};
ghost use Rattle.world_steps.specs.Steps.{begin_answer, done, moves_inside, begins_op, takes_answer, forgets_op, reads, asked, writes, stops_writing, mends, stays_down, next_entry, applies, stops_node, restarts_node, world_step, world_with, followed, torn_world};
ghost use Rattle.world_steps.specs.Laws.{WorldLaw, BringsSpelled, any_append, any_trim};

use crate::cell::WorldCell;
use crate::events::{copy, is_owner, was_sealed_at};
use crate::node::NodeState;
use crate::register::{RegisterState, changed, last_id};
use crate::step::{ChainChange, WorldStep};
use delos_types::chain::{Chain, Segment};
use delos_types::entry::Entry;
use delos_types::numbers::Ticket;
use legal_journal::events::{Event, FabricAnswer, FabricCall};
use loglet_api::call::Op;
use std::alloc::{AllocError, Global};
use std::marker::Model;
use striped_cells::cell::AnyCell;
use striped_cells::motion::Motion;

/// The parts of a world.
#[derive(Drop)]
pub struct Parts {
    pub cells: Vec<WorldCell>,
    pub register: RegisterState,
    pub nodes: Vec<NodeState>,
    pub events: Vec<Event>,
}

impl Model for Parts {
    ghost use Rattle.world_steps.specs.Parts.{World};

    ghost Value = { World };

    ghost view = { λ p. record { cells = p.cells.items; register = p.register; nodes = p.nodes.items; events = p.events.items } };
}

impl Parts {
    /// A copy of them.
    pub fn copied(&self, alloc: Global) -> Result<Parts, AllocError>
        ensures { IfOk result (λ made. made ≡ self.now) }
    {
        let cells = copied_cells(alloc, self.cells.as_slice())?;
        let register = self.register.clone()?;
        let nodes = self.nodes.clone()?;
        let events = copied_events(alloc, self.events.as_slice())?;
        Ok(Parts {
            cells,
            register,
            nodes,
            events,
        })
    }

    /// A client asked this, and was told that.
    fn tell(&mut self, who: u32, call: FabricCall, answer: FabricAnswer) -> Result<(), AllocError>
        ensures { OnOk result (self.new ≡ world_with self.old who call answer) }
    {
        self.events.push(Event { who, call, answer })?;
        Ok(())
    }

    /// Takes one step, which keeps the law of worlds. After an error a part of it may have been
    /// done.
    pub fn take_step(&mut self, alloc: Global, step: &WorldStep) -> Result<(), AllocError>
        requires law { WorldLaw any_append any_trim self.old }
        requires brings { BringsSpelled step.now }
        ensures after { OnOk result (self.new ≡ world_step self.old step.now) }
        ensures law { OnOk result (WorldLaw any_append any_trim self.new) }
    {
        self.make(alloc, step)
    }

    fn make(&mut self, alloc: Global, step: &WorldStep) -> Result<(), AllocError>
        requires law { WorldLaw any_append any_trim self.old }
        requires brings { BringsSpelled step.now }
        ensures { OnOk result (self.new ≡ world_step self.old step.now) }
    {
        match step {
            WorldStep::Inside { cell, path, motion } => {
                self.move_inside(alloc, *cell, path.as_slice(), motion)
            }
            WorldStep::Begin { who, cell, op } => self.begin(alloc, *who, *cell, op),
            WorldStep::Take { who, cell, ticket } => self.take(alloc, *who, *cell, *ticket),
            WorldStep::Forget { who, cell, ticket } => self.forget(alloc, *who, *cell, *ticket),
            WorldStep::ReadChain(who) => self.read(*who),
            WorldStep::WriteChain {
                who,
                expected,
                change,
            } => self.write(alloc, *who, *expected, *change),
            WorldStep::WriteStops {
                who,
                expected,
                change,
            } => self.stop_writing(alloc, *who, *expected, *change),
            WorldStep::MendRegister { who, kept } => self.mend(*who, *kept),
            WorldStep::MendFails(who) => self.stay_down(*who),
            WorldStep::Apply(node) => self.apply(*node),
            WorldStep::StopNode(node) => self.stop_node(*node),
            WorldStep::RestartNode { node, kept } => self.restart_node(*node, *kept),
        }
    }
}

fn copied_cells(alloc: Global, cells: &[WorldCell]) -> Result<Vec<WorldCell>, AllocError>
    ensures { IfOk result (λ made. made.items ≡ cells.now) }
{
    let mut made = Vec::new(alloc);
    for cell in cells {
        made.push(cell.copied(alloc)?)?;
    }
    Ok(made)
}

fn copied_events(alloc: Global, events: &[Event]) -> Result<Vec<Event>, AllocError>
    ensures { IfOk result (λ made. made.items ≡ events.now) }
{
    let mut made = Vec::new(alloc);
    for event in events {
        made.push(copy(event)?)?;
    }
    Ok(made)
}

// Cells.
impl Parts {
    fn has_cell(&self, cell: u32) -> bool
        ensures { result ≡ nat_lt cell (length self.now.cells) }
    {
        (cell as u64) < self.cells.len() as u64
    }

    fn move_inside(
        &mut self,
        alloc: Global,
        cell: u32,
        path: &[u32],
        motion: &Motion,
    ) -> Result<(), AllocError>
        requires { WorldLaw any_append any_trim self.old }
        ensures { OnOk result (self.new ≡ done self.old (moves_inside self.old cell path.now motion.now)) }
    {
        if !self.has_cell(cell) {
            return Ok(());
        }
        self.cells[cell as usize].stir(alloc, path, motion)
    }

    /// The last cell isn't sealed, and a trim of a cell lets go of what is trimmed in the log.
    fn may_begin(&self, cell: u32, op: &Op) -> bool
        ensures { result ≡ may_begin_by self.now cell op.now }
    {
        match op {
            Op::Seal => (cell as u64) + 1 < self.cells.len() as u64,
            Op::Trim(n) => self.register.is_trimmed(cell, *n),
            _ => true,
        }
    }

    fn begin(&mut self, alloc: Global, who: u32, cell: u32, op: &Op) -> Result<(), AllocError>
        requires law { WorldLaw any_append any_trim self.old }
        requires can { CanBegin op.now }
        ensures { OnOk result (self.new ≡ done self.old (begins_op self.old who cell op.now)) }
    {
        if !(self.has_cell(cell) && self.may_begin(cell, op)) {
            return Ok(());
        }
        let answer = answer_to_begin(&self.cells[cell as usize], op);
        let own_op = op.clone()?;
        self.cells[cell as usize].begin(alloc, op)?;
        self.tell(who, FabricCall::Begin(cell, own_op), answer)
    }

    fn take(&mut self, alloc: Global, who: u32, cell: u32, ticket: Ticket) -> Result<(), AllocError>
        requires { WorldLaw any_append any_trim self.old }
        ensures { OnOk result (self.new ≡ done self.old (takes_answer self.old who cell ticket)) }
    {
        if !(self.has_cell(cell) && is_owner(self.events.as_slice(), who, cell, ticket)) {
            return Ok(());
        }
        let Some(answer) = self.cells[cell as usize].answer(ticket)? else {
            return Ok(());
        };
        self.cells[cell as usize].take(alloc, ticket)?;
        self.tell(
            who,
            FabricCall::Carry(cell, ticket, 0),
            FabricAnswer::Done(answer),
        )
    }

    fn forget(
        &mut self,
        alloc: Global,
        who: u32,
        cell: u32,
        ticket: Ticket,
    ) -> Result<(), AllocError>
        requires { WorldLaw any_append any_trim self.old }
        ensures { OnOk result (self.new ≡ done self.old (forgets_op self.old who cell ticket)) }
    {
        if !(self.has_cell(cell) && is_owner(self.events.as_slice(), who, cell, ticket)) {
            return Ok(());
        }
        if !self.cells[cell as usize].is_open(ticket) {
            return Ok(());
        }
        self.cells[cell as usize].forget(alloc, ticket)?;
        self.tell(who, FabricCall::Forget(cell, ticket), FabricAnswer::Gone)
    }
}

/// What the client of an operation that begins is told.
fn answer_to_begin(cell: &WorldCell, op: &Op) -> FabricAnswer
    ensures { result ≡ begin_answer cell.now op.now }
{
    if cell.is_full(op) {
        FabricAnswer::Full
    } else {
        FabricAnswer::Begun(Ticket::new(cell.begun()))
    }
}

// The register.
impl Parts {
    fn read(&mut self, who: u32) -> Result<(), AllocError>
        ensures { OnOk result (self.new ≡ reads self.old who) }
    {
        if !self.register.is_up() {
            return self.tell(who, FabricCall::ReadChain, FabricAnswer::Down);
        }
        let version = self.register.version();
        let chain = self.register.chain().clone()?;
        self.register.give()?;
        self.tell(who, FabricCall::ReadChain, FabricAnswer::At(version, chain))
    }

    /// The last segment is closed at a sealed tail that its cell told, where there is a next cell; or
    /// the trim is raised.
    fn may_follow(&self, chain: &Chain, change: ChainChange) -> bool
        ensures { result ≡ may_follow_by self.now chain.now change }
    {
        match change {
            ChainChange::Extend(tail) => {
                let last = last_id(chain);
                (last as u64) + 1 < self.cells.len() as u64
                    && was_sealed_at(self.events.as_slice(), last, tail)
            }
            ChainChange::Raise(trim) => chain.trim < trim && trim <= 1 << 38,
        }
    }

    /// The chain that follows, by this change, the one that was given under a version; None where
    /// none may.
    fn following(
        &self,
        alloc: Global,
        expected: u64,
        change: ChainChange,
    ) -> Result<Option<Chain>, AllocError>
        requires { WorldLaw any_append any_trim self.now }
        ensures { IfOk result (λ chain. chain ≡ followed self.now change (given_under self.now.register expected)) }
    {
        let Some(old) = self.register.given_under(expected) else {
            return Ok(None);
        };
        if !self.may_follow(old, change) {
            return Ok(None);
        }
        Ok(Some(changed(alloc, old, change)?))
    }

    fn write(
        &mut self,
        alloc: Global,
        who: u32,
        expected: u64,
        change: ChainChange,
    ) -> Result<(), AllocError>
        requires { WorldLaw any_append any_trim self.old }
        ensures { OnOk result (self.new ≡ writes self.old who expected change (given_under self.old.register expected)) }
    {
        match self.following(alloc, expected, change)? {
            Some(chain) => self.ask(who, expected, chain),
            None => Ok(()),
        }
    }

    /// A write of this chain comes to the register.
    fn ask(&mut self, who: u32, expected: u64, chain: Chain) -> Result<(), AllocError>
        requires { self.old.register.version < 2 ^ 48 }
        ensures { OnOk result (self.new ≡ asked self.old who expected chain) }
    {
        let own_chain = chain.clone()?;
        let call = FabricCall::WriteChain(expected, own_chain);
        if !self.register.is_up() {
            return self.tell(who, call, FabricAnswer::Down);
        }
        let version = self.register.version();
        if expected != version {
            let standing = self.register.chain().clone()?;
            self.register.give()?;
            return self.tell(who, call, FabricAnswer::Conflict(version, standing));
        }
        self.register.replace(chain)?;
        self.tell(who, call, FabricAnswer::Written(version + 1))
    }

    fn stop_writing(
        &mut self,
        alloc: Global,
        who: u32,
        expected: u64,
        change: ChainChange,
    ) -> Result<(), AllocError>
        requires { WorldLaw any_append any_trim self.old }
        ensures { OnOk result (self.new ≡ stops_writing self.old who expected change (given_under self.old.register expected)) }
    {
        if !(self.register.is_up() && expected == self.register.version()) {
            return Ok(());
        }
        match self.following(alloc, expected, change)? {
            Some(chain) => self.tear(who, expected, chain),
            None => Ok(()),
        }
    }

    /// The register stops inside a write of this chain.
    fn tear(&mut self, who: u32, expected: u64, chain: Chain) -> Result<(), AllocError>
        ensures { OnOk result (self.new ≡ torn_world self.old who expected chain) }
    {
        let own_chain = chain.clone()?;
        self.register.tear(chain);
        self.tell(
            who,
            FabricCall::WriteChain(expected, own_chain),
            FabricAnswer::MetaFault,
        )
    }

    fn mend(&mut self, who: u32, kept: bool) -> Result<(), AllocError>
        requires { WorldLaw any_append any_trim self.old }
        ensures { OnOk result (self.new ≡ mends self.old who kept) }
    {
        if self.register.is_up() {
            return Ok(());
        }
        self.register.mend(kept);
        self.tell(who, FabricCall::MendMeta(0), FabricAnswer::Set(true))
    }

    fn stay_down(&mut self, who: u32) -> Result<(), AllocError>
        ensures { OnOk result (self.new ≡ stays_down self.old who) }
    {
        if self.register.is_up() {
            return Ok(());
        }
        self.tell(who, FabricCall::MendMeta(0), FabricAnswer::Set(false))
    }
}

// Nodes, and the log that they apply.
impl Parts {
    /// How far the answers of a cell reach.
    fn reach_of(&self, cell: u32) -> u64
        ensures { result ≡ reach_in self.now cell }
    {
        match self.cells.get(cell as usize) {
            Some(cell) => cell.reach(),
            None => 0,
        }
    }

    /// The entry of a cell at a place.
    fn entry_of(&self, cell: u32, place: u64) -> Option<&Entry>
        requires { WorldLaw any_append any_trim self.now }
        ensures { option_map (λ entry. entry.now) result ≡ slice_get (entries_in self.now cell) place }
    {
        match self.cells.get(cell as usize) {
            Some(cell) => cell.entry(place),
            None => None,
        }
    }

    fn holds(&self, segment: &Segment, pos: u64) -> bool
        ensures { result ≡ is_within segment.now.start (end_of (reach_in self.now) segment.now) pos }
    {
        if pos < segment.start {
            return false;
        }
        match segment.end {
            Some(end) => pos < end,
            None => pos - segment.start < self.reach_of(segment.id),
        }
    }

    /// The entry at a position of the log.
    pub fn log_at(&self, pos: u64) -> Option<&Entry>
        requires { WorldLaw any_append any_trim self.now }
        ensures { option_map (λ entry. entry.now) result ≡ log_by self.now pos }
    {
        let chain = self.register.last_given();
        if pos < chain.trim {
            return None;
        }
        for segment in chain.segments.as_slice() {
            if self.holds(segment, pos) {
                return self.entry_of(segment.id, pos - segment.start);
            }
        }
        None
    }

    /// The entry that a node applies next.
    fn next_entry(&self, node: &NodeState) -> Result<Option<Entry>, AllocError>
        requires { WorldLaw any_append any_trim self.now }
        ensures { IfOk result (λ entry. entry ≡ next_entry self.now node.now) }
    {
        match self.log_at(node.cursor()) {
            Some(entry) => Ok(Some(entry.clone()?)),
            None => Ok(None),
        }
    }

    fn apply(&mut self, node: u32) -> Result<(), AllocError>
        requires { WorldLaw any_append any_trim self.old }
        ensures { OnOk result (self.new ≡ applies self.old node) }
    {
        let Some(state) = self.nodes.get(node as usize) else {
            return Ok(());
        };
        if !state.is_up() {
            return Ok(());
        }
        let entry = self.next_entry(state)?;
        self.nodes[node as usize].apply(entry)
    }

    fn stop_node(&mut self, node: u32) -> Result<(), AllocError>
        requires { WorldLaw any_append any_trim self.old }
        ensures { OnOk result (self.new ≡ stops_node self.old node) }
    {
        let Some(state) = self.nodes.get(node as usize) else {
            return Ok(());
        };
        if !state.is_up() {
            return Ok(());
        }
        let entry = self.next_entry(state)?;
        self.nodes[node as usize].stop(entry);
        Ok(())
    }

    fn restart_node(&mut self, node: u32, kept: bool) -> Result<(), AllocError>
        ensures { OnOk result (self.new ≡ restarts_node self.old node kept) }
    {
        let Some(state) = self.nodes.get(node as usize) else {
            return Ok(());
        };
        if state.is_up() {
            return Ok(());
        }
        self.nodes[node as usize].restart(kept)
    }
}
