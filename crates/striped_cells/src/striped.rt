//! A cell in stripes.
ghost use Rattle.std.specs.Prelude.{◌≡◌, ℕ, ◌*◌, ◌%◌, ◌^◌, ◌<◌, ◌≤◌, ◌++◌, ◌∷◌, [], length, set, IfOk, OnOk, option_map, slice_get, true, None, Some};
ghost use Rattle.loglet_api.specs.View.{LogletView};
ghost use Rattle.loglet_api.specs.Step.{CanBegin};
ghost use Rattle.striped_cells.specs.Pursuits.{Pursuit, open_at};
ghost use Rattle.striped_cells.specs.Ways.{numbers_of};
ghost use Rattle.striped_cells.specs.Striped.{shape_like as shape_by, kind_like as kind_by, begun_marks, AreSmall, pursuit_of, put_operation, appended, admit, asks, hears, IsLawfulStriped, MayStripe, stripes_like, striped_ways};

use crate::cell::{AnyCell, Numbers};
use crate::motion::Motion;
use crate::pursuit::PursuitState;
use crate::stripes::{alike, begin_on, copied, counts, entry_of, sealed, take_from};
use cell_steps::cell::CellState;
use delos_types::entry::Entry;
use delos_types::numbers::Ticket;
use loglet_api::call::{Answer, Kind, Op};
use std::alloc::{AllocError, Global};
use std::marker::Model;
use stripe_rule::stripe_of;
use striped_loglet::marks::Marks;
use striped_loglet::pending::Course;
use striped_loglet::plan::{Asked, Plan};
use striped_loglet::shape::Shape;
use striped_loglet::stripe::Inner;

/// A cell in stripes: of m stripes, position p is index p / m of stripe p % m.
#[derive(Drop)]
pub struct StripedState<C: AnyCell> {
    shape: Shape,
    stripes: Vec<C>,
    marks: Marks,
    /// By ticket: the closed ones too.
    operations: Vec<PursuitState>,
}

impl<C: AnyCell> Model for StripedState<C> {
    ghost use Rattle.striped_cells.specs.Striped.{Striped};

    ghost Value = { Striped C };

    ghost view = { λ c. record { shape = c.shape; stripes = c.stripes.items; marks = c.marks; operations = c.operations.items } };
}

impl<C: AnyCell> StripedState<C> {
    /// A cell of 2 to 8 stripes, each like this fresh one, with at most 64 servers and room for at
    /// most 2^32 entries in all. It takes a quarter of the operations of one.
    pub fn new(alloc: Global, count: u8, one: &C) -> Result<StripedState<C>, AllocError>
        requires { MayStripe C.ways count one.now }
        ensures { IfOk result (λ made. made ≡ stripes_like C.ways count one.now) }
    {
        let stripes = alike(alloc, count, one)?;
        Ok(StripedState {
            shape: shape_like(count, one.numbers()),
            stripes,
            marks: Marks::new(),
            operations: Vec::new(alloc),
        })
    }

    /// The operation of a ticket, where it is open.
    fn open(&self, ticket: Ticket) -> Option<&PursuitState>
        ensures { option_map (λ operation. operation.now) result ≡ open_at self.now.operations ticket }
    {
        let Some(operation) = self.operations.get(ticket.number() as usize) else {
            return None;
        };
        if operation.closed {
            return None;
        }
        Some(operation)
    }

    /// What is noted of an operation as it begins.
    fn pursuit(&self, alloc: Global, op: &Op) -> Result<PursuitState, AllocError>
        requires { IsLawfulStriped C.ways self.now }
        ensures { IfOk result (λ made. made ≡ pursuit_of C.ways self.now op.now None) }
    {
        let numbers = self.numbers();
        let sealed_before = sealed(alloc, self.stripes.as_slice())?;
        Ok(PursuitState {
            asked: Asked {
                task: op.task(),
                size: self.marks.size,
                reach: self.marks.reach,
                firm: self.marks.firm,
                faults: numbers.faults,
                down: numbers.down,
            },
            sealed_before,
            plan: Plan::new(op.task()),
            inner: None,
            answer: None,
            closed: false,
        })
    }

    /// An operation has begun.
    fn note(&mut self, op: &Op, operation: PursuitState) -> Result<(), AllocError>
        requires { AreSmall self.old.marks }
        ensures { OnOk result (self.new ≡ record self.old { marks = begun_marks self.old.marks op.now; operations = self.old.operations ++ operation ∷ [] }) }
    {
        self.operations.push(operation)?;
        self.marks = self.marks.begun(op);
        Ok(())
    }

    /// An Append begins, on the stripe that has the next position.
    fn append(&mut self, alloc: Global, op: &Op) -> Result<(), AllocError>
        requires lawful { IsLawfulStriped C.ways self.old }
        requires can { CanBegin op.now }
        ensures { let i = self.old.marks.size % length self.old.stripes in OnOk result (self.new ≡ appended C.ways self.old op.now i (slice_get self.old.stripes i)) }
    {
        let operation = self.pursuit(alloc, op)?;
        let stripe = stripe_of(self.marks.size, self.stripes.len() as u64);
        let inner = begin_on(alloc, &mut self.stripes, stripe, op)?;
        self.note(op, operation.on(inner))
    }

    /// All else begins nothing yet.
    fn admit(&mut self, alloc: Global, op: &Op) -> Result<(), AllocError>
        requires lawful { IsLawfulStriped C.ways self.old }
        requires can { CanBegin op.now }
        ensures { OnOk result (self.new ≡ admit C.ways self.old op.now) }
    {
        if op.is_append() {
            return self.append(alloc, op);
        }
        let operation = self.pursuit(alloc, op)?;
        self.note(op, operation)
    }

    /// The operation of a ticket has got so far now.
    fn go_on(&mut self, ticket: Ticket, plan: Plan, inner: Option<Inner>, answer: Option<Answer>)
        requires { ticket < length self.old.operations }
        ensures { (p : Pursuit) → slice_get self.old.operations ticket ≡ Some p
            → self.new ≡ put_operation C.ways self.old ticket (record p { plan = plan; inner = inner; answer = answer }) }
    {
        self.operations[ticket.number() as usize].go_on(plan, inner, answer);
    }

    /// The operation of a ticket is closed.
    fn close(&mut self, ticket: Ticket)
        requires { ticket < length self.old.operations }
        ensures { (p : Pursuit) → slice_get self.old.operations ticket ≡ Some p → self.new ≡ put_operation C.ways self.old ticket (record p { closed = true }) }
    {
        self.operations[ticket.number() as usize].close();
    }

    /// An open operation asks the next stripe.
    fn ask(&mut self, alloc: Global, ticket: Ticket) -> Result<(), AllocError>
        requires { IsLawfulStriped C.ways self.old }
        ensures { OnOk result (self.new ≡ asks C.ways self.old ticket (open_at self.old.operations ticket)) }
    {
        let Some(operation) = self.open(ticket) else {
            return Ok(());
        };
        if !operation.is_waiting() {
            return Ok(());
        }
        let Course { asked, plan } = operation.course();
        if asked.is_unspoken() {
            self.go_on(ticket, plan, None, Some(Answer::Beyond(asked.firm)));
            return Ok(());
        }
        let count = self.stripes.len() as u64;
        let stripe = asked.target(plan, count);
        let op = asked.op_of(plan, self.marks.cut, stripe, count);
        let inner = begin_on(alloc, &mut self.stripes, stripe, &op)?;
        self.go_on(ticket, plan.behind(asked.task, count), Some(inner), None);
        Ok(())
    }

    /// An open operation hears what came of what it asked a stripe.
    fn hear(&mut self, alloc: Global, ticket: Ticket) -> Result<(), AllocError>
        requires { IsLawfulStriped C.ways self.old }
        ensures { OnOk result (self.new ≡ hears C.ways self.old ticket (open_at self.old.operations ticket)) }
    {
        let Some(operation) = self.open(ticket) else {
            return Ok(());
        };
        if operation.answer.is_some() {
            return Ok(());
        }
        let Some(inner) = operation.inner else {
            return Ok(());
        };
        let Course { asked, plan } = operation.course();
        let Some(answer) = take_from(alloc, &mut self.stripes, inner.stripe, inner.ticket)? else {
            return Ok(());
        };
        let count = self.stripes.len() as u64;
        let heard = asked.heard(plan, inner.stripe, count, answer);
        self.operations[ticket.number() as usize].hear(heard);
        Ok(())
    }
}

/// The numbers of a cell of so many stripes that show these.
fn shape_like(count: u8, one: Numbers) -> Shape
    requires count { (2 ≤ count) × (count ≤ 8) }
    requires servers { count * one.servers ≤ 64 }
    requires rounds { one.rounds ≤ 2 ^ 24 }
    requires room { count * one.room ≤ 2 ^ 32 }
    ensures { (v : LogletView) → one ≡ numbers_of v → result ≡ shape_by count v }
{
    let turn = one.rounds as u64 + 2;
    Shape {
        kind: kind_like(count, one.kind),
        servers: count as u32 * one.servers,
        room: count as u64 * one.room,
        turn,
        rounds: ((3 * count as u64 + 1) * turn) as u32,
        limit: one.limit / 4,
    }
}

/// Two striped cells make a nested one.
fn kind_like(count: u8, one: Kind) -> Kind
    ensures { result ≡ kind_by count one }
{
    match one {
        Kind::Striped(_) if count == 2 => Kind::Nested,
        _ => Kind::Striped(count),
    }
}

impl<C: AnyCell> AnyCell for StripedState<C> {
    ghost ways = { striped_ways C.ways };

    fn copied(&self, alloc: Global) -> Result<StripedState<C>, AllocError> {
        let stripes = copied(alloc, self.stripes.as_slice())?;
        let operations = self.operations.clone()?;
        Ok(StripedState {
            shape: self.shape,
            stripes,
            marks: self.marks,
            operations,
        })
    }

    fn numbers(&self) -> Numbers {
        let counts = counts(self.stripes.as_slice());
        Numbers {
            kind: self.shape.kind,
            servers: self.shape.servers,
            room: self.shape.room,
            rounds: self.shape.rounds,
            limit: self.shape.limit,
            shut: counts.shut,
            faults: counts.faults.saturating_add(self.marks.refusals),
            down: counts.down,
        }
    }

    fn begun(&self) -> u64 {
        self.marks.begun
    }

    fn reach(&self) -> u64 {
        self.marks.reach
    }

    fn entry(&self, place: u64) -> Option<&Entry> {
        if self.marks.size <= place {
            return None;
        }
        entry_of(self.stripes.as_slice(), place)
    }

    fn is_full(&self, op: &Op) -> bool {
        let no_room = self.marks.size == self.shape.room;
        op.is_append() && no_room || self.marks.begun == self.shape.limit
    }

    fn begin(&mut self, alloc: Global, op: &Op) -> Result<(), AllocError> {
        if self.is_full(op) {
            self.marks = self.marks.refused();
            return Ok(());
        }
        self.admit(alloc, op)
    }

    fn left(&self, ticket: Ticket) -> (u32, u64) {
        let count = self.stripes.len() as u64;
        match self.open(ticket) {
            Some(operation) => operation.left(count, self.shape.turn),
            None => (0, 0),
        }
    }

    fn answer(&self, ticket: Ticket) -> Result<Option<Answer>, AllocError> {
        match self.open(ticket) {
            Some(operation) => operation.told(self.marks.cut),
            None => Ok(None),
        }
    }

    fn take(&mut self, alloc: Global, ticket: Ticket) -> Result<(), AllocError> {
        let _ = alloc;
        let Some(operation) = self.open(ticket) else {
            return Ok(());
        };
        let Some(answer) = operation.told(self.marks.cut)? else {
            return Ok(());
        };
        let length = operation.asked.task.wanted(operation.asked.size);
        self.marks = self.marks.told(&answer, length);
        self.close(ticket);
        Ok(())
    }

    fn is_open(&self, ticket: Ticket) -> bool {
        self.open(ticket).is_some()
    }

    fn forget(&mut self, alloc: Global, ticket: Ticket) -> Result<(), AllocError> {
        let Some(operation) = self.open(ticket) else {
            return Ok(());
        };
        if let Some(inner) = operation.inner {
            self.stripes[inner.stripe as usize].forget(alloc, inner.ticket)?;
            self.close(ticket);
            return Ok(());
        }
        self.close(ticket);
        Ok(())
    }

    fn stir(&mut self, alloc: Global, path: &[u32], motion: &Motion) -> Result<(), AllocError> {
        if let Some((stripe, path)) = path.split_first() {
            return match self.stripes.get_mut(*stripe as usize) {
                Some(stripe) => stripe.stir(alloc, path, motion),
                None => Ok(()),
            };
        }
        match motion {
            Motion::Servers(_) => Ok(()),
            Motion::Ask(ticket) => self.ask(alloc, *ticket),
            Motion::Hear(ticket) => self.hear(alloc, *ticket),
        }
    }

    fn quorum_at(&self, path: &[u32]) -> Option<&CellState> {
        match path.split_first() {
            Some((stripe, path)) => self.stripes.get(*stripe as usize)?.quorum_at(path),
            None => None,
        }
    }
}
