//! A loglet in stripes.
ghost use Rattle.std.specs.Prelude.{◌≡◌, ℕ, ◌+◌, ◌*◌, ◌/◌, ◌^◌, ◌<◌, ◌≤◌, map, length, slice_get, Some, true, IfSome, []};
ghost use Rattle.loglet_api.specs.View.{LogletView, IsFresh, IsOpen};
ghost use Rattle.loglet_api.specs.Sound.{IsSound};
ghost use Rattle.loglet_api.specs.Step.{CanBegin, CanCall, LogletStep};
ghost use Rattle.loglet_api.specs.Servers.{Serves};
ghost use Rattle.loglet_api.specs.Answers.{begin_answer, carry_answer, stray_answer, restart_answer};
ghost use Rattle.striped_loglet.specs.Views.{total, least_of};
ghost use Rattle.striped_loglet.specs.Shapes.{kind_by, most_of};
ghost use Rattle.striped_loglet.specs.Plans.{heard_by, told_tail};
ghost use Rattle.striped_loglet.specs.Calls.{CallsServer, Strays, Starts, Hears, CarriesInner, BeginsNext};
ghost use Rattle.striped_loglet.specs.Servings.{ServesServer, ServesStray, CarriesAt, CarriesFor};
ghost use Rattle.striped_loglet.specs.State.{work_at, inner_of};
ghost use Rattle.striped_loglet.specs.Striped.{serving_of, CountsFaults};
ghost use Rattle.striped_loglet.specs.Works.{BeginsBy, CarriesWork, TakesWork, ForgetsWork};

use crate::given::Given;
use crate::marks::Marks;
use crate::pending::{Course, Decided, Pending, put, set, take_decided};
use crate::plan::{Asked, Heard, Plan, told};
use crate::shape::{Shape, down_of, faults_of, picked, place_of, shape_of};
use crate::stripe::{Inner, Outcome, begin_on, carry_on, forget_on, restart_on, stray_on};
use delos_types::numbers::Ticket;
use loglet_api::call::{Answer, Kind, LogletAnswer, LogletCall, Op, Refused};
use loglet_api::loglet::Loglet;
use std::alloc::Global;
use std::collections::HashMap;
use std::marker::Model;
use std::snapshot::Snapshot;
use stripe_rule::stripe_of;

/// A loglet whose positions stand in several loglets in turn: of m stripes, position p is index
/// p / m of stripe p % m. Contracts see what every loglet shows, and what its stripes show.
///
/// It is shut where a stripe is.
#[derive(Drop)]
pub struct StripedLoglet<L: Loglet> {
    shape: Shape,
    stripes: Vec<L>,
    marks: Marks,
    /// The open operations, by ticket.
    pending: HashMap<u64, Pending<L>>,
    given: Given,
}

impl<L: Loglet> Model for StripedLoglet<L> {
    ghost use Rattle.std.specs.Prelude.{◌≡◌, map, length};
    ghost use Rattle.striped_loglet.specs.State.{state_of};
    ghost use Rattle.striped_loglet.specs.Going.{IsStriped};
    ghost use Rattle.striped_loglet.specs.Servings.{states_of};
    ghost use Rattle.striped_loglet.specs.Striped.{StripedView, striped_view};

    ghost Value = { StripedView };

    ghost view = { λ a. striped_view L.view L.serving a.shape a.stripes.items a.marks a.pending a.given };

    ghost invariant = { λ a. IsStriped (state_of L.view a.shape a.stripes.items a.marks a.pending) × (length (states_of (map L.serving a.stripes.items)) ≡ a.shape.servers) };
}

impl<L: Loglet> StripedLoglet<L> {
    /// A loglet of 2 to 8 fresh stripes of equal room, with at most 64 servers and 2^24 rounds in
    /// all. Its room is that of all of them, at most 2^32; it takes a quarter of the operations of
    /// the stripe that takes the fewest.
    pub fn new(alloc: Global, inner: Vec<L>) -> StripedLoglet<L>
        requires count { (2 ≤ length inner.items) × (length inner.items ≤ 8) }
        requires fresh { (i : ℕ) (v : LogletView) → slice_get (map L.view inner.items) i ≡ Some v → IsFresh v }
        requires sound { (i : ℕ) (v : LogletView) → slice_get (map L.view inner.items) i ≡ Some v → IsSound v }
        requires servers { total (λ v. v.servers) (map L.view inner.items) ≤ 64 }
        requires rounds { total (λ v. v.rounds) (map L.view inner.items) ≤ 2 ^ 24 }
        requires room { (i j : ℕ) (v w : LogletView) → slice_get (map L.view inner.items) i ≡ Some v → slice_get (map L.view inner.items) j ≡ Some w → v.room ≡ w.room }
        requires small { (i : ℕ) (v : LogletView) → slice_get (map L.view inner.items) i ≡ Some v → length inner.items * v.room ≤ 2 ^ 32 }
        ensures fresh { IsFresh result.loglet }
        ensures kind { result.loglet.kind ≡ kind_by (map L.view inner.items) }
        ensures servers { result.loglet.servers ≡ total (λ v. v.servers) (map L.view inner.items) }
        ensures quorum { result.loglet.quorum ≡ least_of (map (λ v. v.quorum) (map L.view inner.items)) }
        ensures rounds { result.loglet.rounds ≡ (3 * length inner.items + 1) * (most_of (λ v. v.rounds) (map L.view inner.items) + 2) }
        ensures limit { result.loglet.limit ≡ least_of (map (λ v. v.limit) (map L.view inner.items)) / 4 }
        ensures stripes { result.stripes ≡ map L.view inner.items }
        ensures servings { result.servings ≡ map L.serving inner.items }
        ensures works { result.works ≡ [] }
        ensures refusals { result.refusals ≡ 0 }
        ensures given { result.given ≡ record { told = 0; carries = 0; strays = 0 } }
        ensures faults { CountsFaults result }
        ensures room { (i : ℕ) (v : LogletView) → slice_get (map L.view inner.items) i ≡ Some v → result.loglet.room ≡ length inner.items * v.room }
    {
        StripedLoglet {
            shape: shape_of(inner.as_slice()),
            stripes: inner,
            marks: Marks::new(),
            pending: HashMap::new(alloc),
            given: Given::new(),
        }
    }
}

impl<L: Loglet> Loglet for StripedLoglet<L> {
    ghost view = { λ v. v.loglet };

    ghost serving = { serving_of };

    fn kind(&self) -> Kind {
        self.shape.kind
    }

    fn servers(&self) -> u32 {
        self.shape.servers
    }

    fn room(&self) -> u64 {
        self.shape.room
    }

    fn rounds(&self) -> u32 {
        self.shape.rounds
    }

    fn limit(&self) -> u64 {
        self.shape.limit
    }

    fn faults(&self) -> u64 {
        faults_of(self.stripes.as_slice()).saturating_add(self.marks.refusals)
    }

    fn down(&self) -> u32 {
        down_of(self.stripes.as_slice())
    }

    fn begin(&mut self, op: Op) -> Result<Ticket, Refused>
        requires { CanCall self.old.loglet (LogletCall.Begin op) }
        ensures step { LogletStep self.old.loglet (LogletCall.Begin op) (begin_answer result) self.new.loglet }
        ensures serves { Serves (serving_of self.old) (LogletCall.Begin op) (begin_answer result) (serving_of self.new) }
        ensures stripe { BeginsBy self.old op result self.new }
        ensures faults { CountsFaults self.new }
    {
        if self.marks.is_full(&op, self.shape.room, self.shape.limit) {
            self.marks = self.marks.refused();
            return Err(Refused::Full);
        }
        let number = self.marks.begun;
        let asked = Asked {
            task: op.task(),
            size: self.marks.size,
            reach: self.marks.reach,
            firm: self.marks.firm,
            faults: self.faults(),
            down: self.down(),
        };
        let marks = self.marks.begun(&op);
        let before = Snapshot::of(&self.stripes);
        let Ok(()) = self.pending.reserve(1) else {
            return Err(Refused::Memory);
        };
        let Ok(inner) = start(&mut self.stripes, op, asked.size) else {
            return Err(Refused::Memory);
        };
        let plan = Plan::new(asked.task);
        put(
            &mut self.pending,
            number,
            Pending {
                asked,
                before,
                plan,
                inner,
                answer: None,
            },
        );
        self.marks = marks;
        Ok(Ticket::new(number))
    }

    fn carry(&mut self, ticket: Ticket, word: u64) -> Result<(), Refused>
        requires { CanCall self.old.loglet (LogletCall.Carry ticket word) }
        ensures step { LogletStep self.old.loglet (LogletCall.Carry ticket word) (carry_answer result) self.new.loglet }
        ensures serves { Serves (serving_of self.old) (LogletCall.Carry ticket word) (carry_answer result) (serving_of self.new) }
        ensures work { CarriesWork self.old ticket word result self.new }
        ensures handed { CarriesFor self.old.servings (inner_of (work_at self.old.works ticket)) word (carry_answer result) self.new.servings }
        ensures faults { CountsFaults self.new }
    {
        let number = ticket.number();
        let course = self.pending[&number].course();
        match self.pending[&number].inner {
            Some(inner) => {
                let stripes = &mut self.stripes;
                match carry_inner(stripes, &mut self.pending, number, &course, inner, word) {
                    Ok(()) => {
                        self.given = self.given.carried(word);
                        Ok(())
                    }
                    Err(refused) => Err(refused),
                }
            }
            None => {
                let cut = self.marks.cut;
                match begin_next(&mut self.stripes, &mut self.pending, number, &course, cut) {
                    Ok(()) => {
                        self.given = self.given.carried(word);
                        Ok(())
                    }
                    Err(refused) => Err(refused),
                }
            }
        }
    }

    fn take(&mut self, ticket: Ticket) -> Option<Answer>
        requires { CanCall self.old.loglet (LogletCall.Take ticket) }
        ensures step { LogletStep self.old.loglet (LogletCall.Take ticket) (LogletAnswer.Taken result) self.new.loglet }
        ensures serves { Serves (serving_of self.old) (LogletCall.Take ticket) (LogletAnswer.Taken result) (serving_of self.new) }
        ensures work { TakesWork self.old ticket result self.new }
        ensures rest { self.new ≡ record self.old { loglet = self.new.loglet; works = self.new.works } }
        ensures faults { CountsFaults self.new }
    {
        let Decided { task, size, answer } = take_decided(&mut self.pending, ticket.number())?;
        let answer = told(task, self.marks.cut, answer);
        self.marks = self.marks.told(&answer, task.wanted(size));
        Some(answer)
    }

    fn forget(&mut self, ticket: Ticket)
        requires { CanCall self.old.loglet (LogletCall.Forget ticket) }
        ensures step { LogletStep self.old.loglet (LogletCall.Forget ticket) LogletAnswer.Forgotten self.new.loglet }
        ensures serves { Serves (serving_of self.old) (LogletCall.Forget ticket) LogletAnswer.Forgotten (serving_of self.new) }
        ensures work { ForgetsWork self.old ticket self.new }
        ensures faults { CountsFaults self.new }
    {
        let number = ticket.number();
        if let Some(inner) = self.pending[&number].inner {
            forget_on(&mut self.stripes[inner.stripe as usize], inner);
            let _ = self.pending.remove(&number);
            return;
        }
        let _ = self.pending.remove(&number);
    }

    fn left(&self, ticket: Ticket) -> (u32, u64) {
        let count = self.stripes.len() as u64;
        self.pending[&ticket.number()].left(count, self.shape.turn)
    }

    fn stray(&mut self, word: u64) -> Result<(), Refused>
        ensures step { LogletStep self.old.loglet (LogletCall.Stray word) (stray_answer result) self.new.loglet }
        ensures serves { Serves (serving_of self.old) (LogletCall.Stray word) (stray_answer result) (serving_of self.new) }
        ensures stripe { Strays self.old.stripes word (stray_answer result) self.new.stripes }
        ensures handed { ServesStray self.old.servings word (stray_answer result) self.new.servings }
        ensures rest { self.new ≡ record self.old { loglet = self.new.loglet; stripes = self.new.stripes; servings = self.new.servings; given = self.new.given } }
        ensures faults { CountsFaults self.new }
    {
        let count = self.stripes.len() as u64;
        let (i, rest) = picked(word, count);
        match stray_on(&mut self.stripes[i], rest) {
            Ok(()) => {
                self.given = self.given.strayed(word);
                Ok(())
            }
            Err(refused) => Err(refused),
        }
    }

    fn stop(&mut self, server: u32, after: u64)
        requires { CanCall self.old.loglet (LogletCall.Stop server after) }
        ensures step { LogletStep self.old.loglet (LogletCall.Stop server after) LogletAnswer.Stopped self.new.loglet }
        ensures serves { Serves (serving_of self.old) (LogletCall.Stop server after) LogletAnswer.Stopped (serving_of self.new) }
        ensures stripe { CallsServer self.old.stripes server (λ inner. LogletCall.Stop inner after) LogletAnswer.Stopped self.new.stripes }
        ensures handed { ServesServer self.old.stripes self.old.servings server (λ inner. LogletCall.Stop inner after) LogletAnswer.Stopped self.new.servings }
        ensures rest { self.new ≡ record self.old { loglet = self.new.loglet; stripes = self.new.stripes; servings = self.new.servings } }
        ensures faults { CountsFaults self.new }
    {
        let (i, server) = place_of(self.stripes.as_slice(), server);
        self.stripes[i].stop(server, after);
    }

    fn restart(&mut self, server: u32, word: u64) -> Result<bool, Refused>
        requires { CanCall self.old.loglet (LogletCall.Restart server word) }
        ensures step { LogletStep self.old.loglet (LogletCall.Restart server word) (restart_answer result) self.new.loglet }
        ensures serves { Serves (serving_of self.old) (LogletCall.Restart server word) (restart_answer result) (serving_of self.new) }
        ensures stripe { CallsServer self.old.stripes server (λ inner. LogletCall.Restart inner word) (restart_answer result) self.new.stripes }
        ensures handed { ServesServer self.old.stripes self.old.servings server (λ inner. LogletCall.Restart inner word) (restart_answer result) self.new.servings }
        ensures rest { self.new ≡ record self.old { loglet = self.new.loglet; stripes = self.new.stripes; servings = self.new.servings } }
        ensures faults { CountsFaults self.new }
    {
        let (i, server) = place_of(self.stripes.as_slice(), server);
        restart_on(&mut self.stripes[i], server, word)
    }
}

/// Begins an Append on its own stripe; all else begins nothing yet.
fn start<L: Loglet>(stripes: &mut Vec<L>, op: Op, size: u64) -> Result<Option<Inner>, Refused>
    requires count { 0 < length stripes.old.items }
    requires can { CanBegin op }
    ensures step { Starts (map L.view stripes.old.items) op size result (map L.view stripes.new.items) }
    ensures serves { map L.serving stripes.new.items ≡ map L.serving stripes.old.items }
{
    match op {
        Op::Append(entry) => {
            let stripe = stripe_of(size, stripes.len() as u64);
            match begin_on(&mut stripes[stripe as usize], stripe, Op::Append(entry)) {
                Ok(inner) => Ok(Some(inner)),
                Err(refused) => Err(refused),
            }
        }
        _ => Ok(None),
    }
}

/// Carries what a stripe is doing for an open operation.
fn carry_inner<L: Loglet>(
    stripes: &mut Vec<L>,
    pending: &mut HashMap<u64, Pending<L>>,
    number: u64,
    course: &Course,
    inner: Inner,
    word: u64,
) -> Result<(), Refused>
    requires stripe { inner.stripe < length stripes.old.items }
    requires count { length stripes.old.items ≤ 8 }
    requires next { course.now.plan.next ≤ 8 }
    requires is_there { (v : LogletView) → slice_get (map L.view stripes.old.items) inner.stripe ≡ Some v → IsOpen v inner.ticket }
    ensures step { CarriesInner (map L.view stripes.old.items) pending.old number course.now inner word result (map L.view stripes.new.items) pending.new }
    ensures serves { CarriesAt (map L.serving stripes.old.items) inner.stripe inner.ticket word (carry_answer result) (map L.serving stripes.new.items) }
{
    let count = stripes.len() as u64;
    let plan = course.plan;
    let stripe = inner.stripe;
    let outcome = match carry_on(&mut stripes[stripe as usize], inner, word) {
        Ok(outcome) => outcome,
        Err(refused) => return Err(refused),
    };
    match outcome {
        Outcome::Going(inner) => {
            set(pending, number, plan, Some(inner), None);
            Ok(())
        }
        Outcome::Answered(answer) => {
            hear(pending, number, course, stripe, count, answer);
            Ok(())
        }
    }
}

/// Begins what an open operation asks the next stripe.
fn begin_next<L: Loglet>(
    stripes: &mut Vec<L>,
    pending: &mut HashMap<u64, Pending<L>>,
    number: u64,
    course: &Course,
    cut: u64,
) -> Result<(), Refused>
    requires next { course.now.plan.next < length stripes.old.items }
    requires count { length stripes.old.items ≤ 8 }
    requires size { course.now.asked.size ≤ 2 ^ 32 }
    requires cut { cut ≤ 2 ^ 32 }
    ensures step { BeginsNext (map L.view stripes.old.items) pending.old number course.now cut result (map L.view stripes.new.items) pending.new }
    ensures serves { map L.serving stripes.new.items ≡ map L.serving stripes.old.items }
{
    let count = stripes.len() as u64;
    let asked = course.asked;
    let plan = course.plan;
    if asked.is_unspoken() {
        let answer = Some(Answer::Beyond(asked.firm));
        set(pending, number, plan, None, answer);
        return Ok(());
    }
    let stripe = asked.target(plan, count);
    let op = asked.op_of(plan, cut, stripe, count);
    let inner = match begin_on(&mut stripes[stripe as usize], stripe, op) {
        Ok(inner) => inner,
        Err(refused) => return Err(refused),
    };
    let plan = plan.behind(asked.task, count);
    set(pending, number, plan, Some(inner), None);
    Ok(())
}

/// An open operation goes on by an answer of a stripe.
fn hear<L>(
    pending: &mut HashMap<u64, Pending<L>>,
    number: u64,
    course: &Course,
    stripe: u64,
    count: u64,
    answer: Answer,
)
    requires stripe { stripe < count }
    requires count { count ≤ 8 }
    requires next { course.now.plan.next ≤ 8 }
    requires tail { told_tail answer ≤ 2 ^ 32 }
    ensures { Hears pending.old number course.now.plan (heard_by course.now.asked.task course.now.asked.size course.now.plan stripe count answer) pending.new }
{
    let asked = course.asked;
    let plan = course.plan;
    match asked.heard(plan, stripe, count, answer) {
        Heard::On(plan) => {
            set(pending, number, plan, None, None);
            return;
        }
        Heard::Decided(answer) => {
            set(pending, number, plan, None, Some(answer));
            return;
        }
    }
}
