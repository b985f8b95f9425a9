//! A shelf of loglets, the register of their chain, and the journal of all events.
ghost use Rattle.std.specs.Prelude.{◌≡◌, ℕ, ◌<◌, ◌≤◌, [], length, map, slice_get, All, false, IfOk, IfErr, Some};
ghost use Rattle.chain_map.specs.Chain.{first_chain};
ghost use Rattle.loglet_api.specs.View.{LogletView, IsFresh};
ghost use Rattle.loglet_api.specs.Sound.{IsSound};
ghost use Rattle.legal_journal.specs.Journal.{IsLegal, state_of, log_at, trim_of, tail_of};
ghost use Rattle.legal_journal.specs.Turns.{MayCall};
ghost use Rattle.register_api.specs.View as view;
ghost use Rattle.fabric_core.specs.Log.{virtual_log_at, virtual_tail};
ghost use Rattle.fabric_core.specs.Runs.{HasRun, HasRegisterRun};
ghost use Rattle.fabric_core.specs.Fabric.{Keeps, IsRegisterAsTold};

use crate::cell::{begin_in, carry_in, forget_in};
use crate::chain::{arm_in, read_in, reopen_in, write_in};
use crate::server::{mend_in, stop_in, stray_in};
use delos_types::chain::Chain;
use delos_types::numbers::Ticket;
use legal_journal::events::{Event, FabricAnswer, FabricCall};
use legal_journal::rules::Rules;
use loglet_api::call::Op;
use loglet_api::loglet::Loglet;
use register_api::Register;
use std::alloc::{AllocError, Global};
use std::marker::{Model, PhantomData};

/// A shelf of loglets, the register of the chain that joins them, and the journal of all events.
/// Cell i of the shelf is the loglet of segment id i.
#[derive(Drop)]
pub struct Fabric<L: Loglet, R: Register, P: Rules> {
    alloc: Global,
    cells: Vec<L>,
    /// By cell, by ticket: whether it is open.
    marks: Vec<Vec<bool>>,
    register: R,
    journal: Vec<Event>,
    rules: PhantomData<P>,
}

impl<L: Loglet, R: Register, P: Rules> Model for Fabric<L, R, P> {
    ghost use Rattle.std.specs.Prelude.{map};
    ghost use Rattle.fabric_core.specs.Fabric.{FabricView, FabricOk};

    ghost Value = { FabricView };

    ghost view = { λ f. record { cells = map L.view f.cells.items; serving = map L.serving f.cells.items; register = R.view f.register; journal = f.journal.items } };

    ghost invariant = { λ f. FabricOk P.law P.kinds (record { cells = map L.view f.cells.items; serving = map L.serving f.cells.items; register = R.view f.register; journal = f.journal.items })
        (map (λ m. m.items) f.marks.items) };
}

/// The parts of a fabric.
#[derive(Drop)]
pub struct Parts<L, R> {
    pub cells: Vec<L>,
    pub register: R,
}

/// No tickets, for so many cells.
fn no_marks(alloc: Global, cells: usize) -> Result<Vec<Vec<bool>>, AllocError>
    ensures count { IfOk result (λ m. length m.items ≡ cells) }
    ensures none { IfOk result (λ m. All (λ marks. marks.items ≡ []) m.items) }
{
    let mut marks = Vec::with_capacity(alloc, cells)?;
    'cell: for _ in 0..cells {
        marks.push(Vec::new(alloc))?;
    }
    Ok(marks)
}

impl<L: Loglet, R: Register, P: Rules> Fabric<L, R, P> {
    /// A fabric of fresh loglets, 1 to 64, and a fresh register, with no event. Without memory it
    /// hands the parts back.
    pub fn new(alloc: Global, cells: Vec<L>, register: R) -> Result<Self, Parts<L, R>>
        requires least { 0 < length cells.items }
        requires most { length cells.items ≤ 64 }
        requires shelf { map (λ v. v.servers) (map L.view cells.items) ≡ P.law.shelf }
        requires kinds { map (λ v. v.kind) (map L.view cells.items) ≡ P.kinds }
        requires fresh { All (λ l. IsFresh (L.view l)) cells.items }
        requires sound { All (λ l. IsSound (L.view l)) cells.items }
        requires register { view.IsFresh (R.view register) }
        ensures ok { IfOk result (λ f. f ≡ record { cells = map L.view cells.items; serving = map L.serving cells.items; register = R.view register; journal = [] }) }
        ensures err { IfErr result (λ p. (p.cells ≡ cells) × (p.register ≡ register)) }
    {
        let Ok(marks) = no_marks(alloc, cells.len()) else {
            return Err(Parts { cells, register });
        };
        Ok(Fabric {
            alloc,
            cells,
            marks,
            register,
            journal: Vec::new(alloc),
            rules: PhantomData,
        })
    }

    /// The parts, as they are now. Takes no memory.
    pub fn into_parts(self) -> Parts<L, R>
        ensures cells { map L.view result.cells.items ≡ self.cells }
        ensures serving { map L.serving result.cells.items ≡ self.serving }
        ensures register { R.view result.register ≡ self.register }
    {
        let Fabric {
            alloc: _,
            cells,
            marks: _,
            register,
            journal: _,
            rules: _,
        } = self;
        Parts { cells, register }
    }

    /// How many loglets the shelf has.
    pub fn shelf_len(&self) -> u32
        ensures len { result ≡ length P.law.shelf }
        ensures range { (0 < result) × (result ≤ 64) }
    {
        self.cells.len() as u32
    }

    /// The journal of all events so far. It is legal, and of each cell it is a run of its loglet.
    pub fn journal(&self) -> &[Event]
        ensures value { result.now ≡ self.now.journal }
        ensures legal { IsLegal P.law self.now.journal }
        ensures runs { (i : ℕ) (v : LogletView) → slice_get self.now.cells i ≡ Some v → HasRun i self.now.journal v }
        ensures shelf { map (λ v. v.servers) self.now.cells ≡ P.law.shelf }
        ensures kinds { map (λ v. v.kind) self.now.cells ≡ P.kinds }

        // The register's events are a run of it, and what it shows is what the journal tells.
        ensures register_runs { HasRegisterRun self.now.journal self.now.register }
        ensures register { IsRegisterAsTold (state_of self.now.journal).register self.now.register }

        // What the loglets show is what the journal tells.
        ensures shows { (pos : ℕ) → trim_of (state_of self.now.journal) ≤ pos
            → virtual_log_at (state_of self.now.journal).register.chain self.now.cells pos ≡ log_at (state_of self.now.journal) pos }
        ensures tail { virtual_tail (state_of self.now.journal).register.chain self.now.cells ≡ tail_of (state_of self.now.journal) }
    {
        self.journal.as_slice()
    }

    fn begin(&mut self, who: u32, cell: u32, op: Op) -> FabricAnswer
        requires { MayCall (state_of self.old.journal) P.law who (FabricCall.Begin cell op) }
        ensures { Keeps P.law self.old who (FabricCall.Begin cell op) result self.new }
    {
        let i = cell as usize;
        begin_in(
            &mut self.cells[i],
            &mut self.marks[i],
            &mut self.journal,
            who,
            cell,
            op,
        )
    }

    fn carry(&mut self, who: u32, cell: u32, ticket: Ticket, word: u64) -> FabricAnswer
        requires { MayCall (state_of self.old.journal) P.law who (FabricCall.Carry cell ticket word) }
        ensures { Keeps P.law self.old who (FabricCall.Carry cell ticket word) result self.new }
    {
        let i = cell as usize;
        carry_in(
            &mut self.cells[i],
            &mut self.marks[i],
            &mut self.journal,
            who,
            cell,
            ticket,
            word,
        )
    }

    fn forget(&mut self, who: u32, cell: u32, ticket: Ticket) -> FabricAnswer
        requires { MayCall (state_of self.old.journal) P.law who (FabricCall.Forget cell ticket) }
        ensures { Keeps P.law self.old who (FabricCall.Forget cell ticket) result self.new }
    {
        let i = cell as usize;
        forget_in(
            &mut self.cells[i],
            &mut self.marks[i],
            &mut self.journal,
            who,
            cell,
            ticket,
        )
    }

    fn read_chain(&mut self, who: u32) -> FabricAnswer
        ensures { Keeps P.law self.old who FabricCall.ReadChain result self.new }
    {
        read_in(self.alloc, &mut self.register, &mut self.journal, who)
    }

    fn write_chain(&mut self, who: u32, expected: u64, chain: Chain) -> FabricAnswer
        requires { MayCall (state_of self.old.journal) P.law who (FabricCall.WriteChain expected chain) }
        ensures { Keeps P.law self.old who (FabricCall.WriteChain expected chain) result self.new }
    {
        write_in(
            self.alloc,
            &mut self.register,
            &mut self.journal,
            who,
            expected,
            chain,
        )
    }

    fn stop(&mut self, who: u32, cell: u32, server: u32, after: u64) -> FabricAnswer
        requires { MayCall (state_of self.old.journal) P.law who (FabricCall.Stop cell server after) }
        ensures { Keeps P.law self.old who (FabricCall.Stop cell server after) result self.new }
    {
        let loglet = &mut self.cells[cell as usize];
        stop_in(loglet, &mut self.journal, who, cell, server, after)
    }

    fn mend(&mut self, who: u32, cell: u32, server: u32, word: u64) -> FabricAnswer
        requires { MayCall (state_of self.old.journal) P.law who (FabricCall.Mend cell server word) }
        ensures { Keeps P.law self.old who (FabricCall.Mend cell server word) result self.new }
    {
        let loglet = &mut self.cells[cell as usize];
        mend_in(loglet, &mut self.journal, who, cell, server, word)
    }

    fn stray(&mut self, who: u32, cell: u32, word: u64) -> FabricAnswer
        requires { MayCall (state_of self.old.journal) P.law who (FabricCall.Stray cell word) }
        ensures { Keeps P.law self.old who (FabricCall.Stray cell word) result self.new }
    {
        let loglet = &mut self.cells[cell as usize];
        stray_in(loglet, &mut self.journal, who, cell, word)
    }

    fn stop_meta(&mut self, who: u32, after: u64) -> FabricAnswer
        ensures { Keeps P.law self.old who (FabricCall.StopMeta after) result self.new }
    {
        arm_in(&mut self.register, &mut self.journal, who, after)
    }

    fn mend_meta(&mut self, who: u32, word: u64) -> FabricAnswer
        ensures { Keeps P.law self.old who (FabricCall.MendMeta word) result self.new }
    {
        reopen_in(&mut self.register, &mut self.journal, who, word)
    }

    /// Makes one event. With `Memory` it makes none, but for a `Carry` whose event has that answer, and nothing changes but
    /// what a disk did before memory was wanting: writes that it took, or a reopening.
    ///
    /// Cost: that of the loglet's or the register's calls, and O(1) beside them, amortized. A chain
    /// that the register gives is copied, of 64 segments at most.
    pub fn apply(&mut self, who: u32, call: FabricCall) -> FabricAnswer
        requires { MayCall (state_of self.old.journal) P.law who call }
        ensures { Keeps P.law self.old who call result self.new }
    {
        match call {
            FabricCall::Begin(cell, op) => self.begin(who, cell, op),
            FabricCall::Carry(cell, ticket, word) => self.carry(who, cell, ticket, word),
            FabricCall::Forget(cell, ticket) => self.forget(who, cell, ticket),
            FabricCall::ReadChain => self.read_chain(who),
            FabricCall::WriteChain(expected, chain) => { self.write_chain(who, expected, chain) }
            FabricCall::Stop(cell, server, after) => self.stop(who, cell, server, after),
            FabricCall::Mend(cell, server, word) => self.mend(who, cell, server, word),
            FabricCall::Stray(cell, word) => self.stray(who, cell, word),
            FabricCall::StopMeta(after) => self.stop_meta(who, after),
            FabricCall::MendMeta(word) => self.mend_meta(who, word),
        }
    }
}
