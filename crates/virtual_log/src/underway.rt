//! An append that is begun before another ends, turn by turn. Where its loglet is sealed, the chain is let go on behind
//! it as every call does (OSDI 2020): its sealed tail is found, the chain is written that closes it there, and the
//! append is begun again. Whoever comes first wins; the others take the chain that they find.
ghost use Rattle.std.specs.Prelude.{◌≡◌, ◌≤◌, ◌+◌, ℕ, Option, None, List, ◌++◌, max, IfOk, OnOk, IfErr, OnErr, IfSome, IfNone};
ghost use Rattle.delos_types.specs.declared.chain.Chain.{Chain};
ghost use Rattle.chain_map.specs.Chain.{last_segment};
ghost use Rattle.delos_types.specs.Spelling.{IsSpellable};
ghost use Rattle.legal_journal.specs.declared.events.Event.{Event};
ghost use Rattle.legal_journal.specs.declared.events.FabricAnswer.{FabricAnswer};
ghost use Rattle.legal_journal.specs.Journal.{state_of, IsLegal};
ghost use Rattle.legal_journal.specs.Laws.{Stands};
ghost use Rattle.legal_journal.specs.Turns.{IsTurn};
ghost use Rattle.virtual_log.specs.Turning.{Later, IsAbove};
ghost use Rattle.virtual_log.specs.Causes.{HasCause, CalmSince};
ghost use Rattle.virtual_log.specs.declared.fault.Fault.TheVariants.{Memory};
ghost use Rattle.virtual_log.specs.declared.underway.Going.{Going};
ghost use Rattle.virtual_log.specs.declared.underway.Step.TheVariants.{Starting, Appending, Reading, Asking, Finding, Closing, Dropping};
ghost use Rattle.virtual_log.specs.Sealing.{SealsNone};
ghost use Rattle.virtual_log.specs.Saying.{SaysNone, DrawsOwn};
ghost use Rattle.virtual_log.specs.Operating.{Operation, Operates};
ghost use Rattle.virtual_log.specs.Log.{GoesBy};
ghost use Rattle.virtual_log.specs.Holding.{Holds};
ghost use Rattle.virtual_log.specs.Underway.{IsGoing, IsDropping, AreApart, LeaveStep, LeavesNone, LeavesOthers, StaysGoing, LeavesOpen, OneTurn, Places, Moves, Forgets, Went, due};

use crate::calls::Known;
use crate::fault::Fault;
use crate::log::VirtualLog;
use crate::replace::last_of;
use crate::turn;
use chain_map::change::extend;
use delos_types::chain::Segment;
use delos_types::entry::Entry;
use delos_types::numbers::Ticket;
use fate_words::chooser::Chooser;
use legal_journal::events::{FabricAnswer, FabricCall};
use legal_journal::rules::Rules;
use legal_journal::turns::Turns;
use loglet_api::call::{Answer, Op};
use std::alloc::Global;
use std::mem;

/// What an append that is underway does next.
#[derive(Drop)]
pub enum Step {
    /// It is begun on the last loglet of the known chain.
    Starting,
    /// It is carried on the loglet of this segment.
    Appending { segment: Segment, ticket: Ticket },
    /// The loglet of this segment is sealed: the chain is read.
    Reading { segment: Segment },
    /// The chain was read: unless it goes on behind that loglet, its tail is asked for.
    Asking { segment: Segment },
    /// The operation that asks for the tail is carried.
    Finding { segment: Segment, ticket: Ticket },
    /// The loglet is sealed at this length: the chain is written that closes it there.
    Closing { segment: Segment, length: u64 },
    /// Want of memory left this ticket: it is closed, and the append is begun.
    Dropping { cell: u32, ticket: Ticket },
}

/// An append that was begun and isn't answered.
#[derive(Drop)]
pub struct Going {
    pub entry: Entry,
    pub step: Step,
}

/// The step that is due, by the chain as it is known now.
fn due(known: &Known, step: Step) -> Step
    ensures { result ≡ due (last_segment known.now.chain).id step }
{
    let id = last_of(&known.chain).id;
    match step {
        Step::Asking { segment } => {
            if segment.id < id {
                return Step::Starting;
            }
            Step::Asking { segment }
        }
        Step::Closing { segment, length } => {
            if segment.id < id {
                return Step::Starting;
            }
            Step::Closing { segment, length }
        }
        step => step,
    }
}

/// Closes an operation without its answer, before the append is begun. Without memory that is left to be done.
fn forget<T: Turns>(turns: &mut T, cell: u32, ticket: Ticket) -> Step
    requires legal { IsLegal T.Law.law (T.seen turns.old) }
    requires dropping { IsDropping (T.who turns.old) (T.seen turns.old) cell ticket }
    ensures who { T.who turns.new ≡ T.who turns.old }
    ensures turn { (answer : FabricAnswer) × Forgets cell ticket answer result
        × IsTurn T.Law.law (T.who turns.old) (T.seen turns.old) (FabricCall.Forget cell ticket) answer (T.seen turns.new) }
{
    if turn::forget(turns, cell, ticket) {
        return Step::Starting;
    }
    Step::Dropping { cell, ticket }
}

/// Begins the append on the last loglet of the known chain.
fn start<T: Turns>(turns: &mut T, known: &Known, going: &mut Going) -> Result<Option<u64>, Fault>
    requires legal { IsLegal T.Law.law (T.seen turns.old) }
    requires goes_by { GoesBy (state_of (T.seen turns.old)) known.now.version known.now.chain known.now.tail }
    requires going { (early : List Event) × IsGoing T.Law.law.may (T.who turns.old) early (T.seen turns.old) known.now.chain going.old }
    requires step { going.old.step ≡ Starting }
    ensures who { T.who turns.new ≡ T.who turns.old }
    ensures silent { SaysNone (T.who turns.old) (T.seen turns.old) (T.seen turns.new) }
    ensures went { Went T.Law.law (T.who turns.old) (T.seen turns.old) known.now going.old
        (T.seen turns.new) known.now going.new result }
{
    let segment = last_of(&known.chain);
    let copy = going.entry.clone()?;
    match turns.turn(FabricCall::Begin(segment.id, Op::Append(copy))) {
        FabricAnswer::Begun(ticket) => {
            going.step = Step::Appending { segment, ticket };
            Ok(None)
        }
        FabricAnswer::Full => Err(Fault::Full { id: segment.id }),
        FabricAnswer::Memory => Err(Fault::Memory),
        _ => unreachable!(),
    }
}

/// Carries the append.
fn carry_append<T: Turns, C: Chooser>(
    turns: &mut T,
    chooser: &mut C,
    known: &mut Known,
    going: &mut Going,
    segment: Segment,
    ticket: Ticket,
) -> Result<Option<u64>, Fault>
    requires legal { IsLegal T.Law.law (T.seen turns.old) }
    requires goes_by { GoesBy (state_of (T.seen turns.old)) known.old.version known.old.chain known.old.tail }
    requires going { (early : List Event) × IsGoing T.Law.law.may (T.who turns.old) early (T.seen turns.old) known.old.chain going.old }
    requires step { going.old.step ≡ Appending segment ticket }
    ensures who { T.who turns.new ≡ T.who turns.old }
    ensures draws { DrawsOwn C.gives (T.who turns.old) (C.at chooser.old) (T.seen turns.old) result (C.at chooser.new) (T.seen turns.new) }
    ensures went { Went T.Law.law (T.who turns.old) (T.seen turns.old) known.old going.old
        (T.seen turns.new) known.new going.new result }
{
    match turn::carry(turns, chooser, segment.id, ticket) {
        FabricAnswer::Going => Ok(None),
        FabricAnswer::Done(answer) => match answer {
            Answer::Placed(place) => {
                let position = segment.start + place;
                known.tail = known.tail.max(position + 1);
                Ok(Some(position))
            }
            Answer::Sealed => {
                going.step = Step::Reading { segment };
                Ok(None)
            }
            Answer::NoQuorum { unreached } => {
                Err(Fault::NoQuorum {
                    id: segment.id,
                    unreached,
                })
            }
            _ => unreachable!(),
        },
        FabricAnswer::Memory => {
            going.step = forget(turns, segment.id, ticket);
            Err(Fault::Memory)
        }
        _ => unreachable!(),
    }
}

/// Reads the chain.
fn read<T: Turns>(
    turns: &mut T,
    known: &mut Known,
    going: &mut Going,
    segment: Segment,
) -> Result<Option<u64>, Fault>
    requires legal { IsLegal T.Law.law (T.seen turns.old) }
    requires goes_by { GoesBy (state_of (T.seen turns.old)) known.old.version known.old.chain known.old.tail }
    requires going { (early : List Event) × IsGoing T.Law.law.may (T.who turns.old) early (T.seen turns.old) known.old.chain going.old }
    requires step { going.old.step ≡ Reading segment }
    ensures who { T.who turns.new ≡ T.who turns.old }
    ensures silent { SaysNone (T.who turns.old) (T.seen turns.old) (T.seen turns.new) }
    ensures went { Went T.Law.law (T.who turns.old) (T.seen turns.old) known.old going.old
        (T.seen turns.new) known.new going.new result }
{
    match turns.turn(FabricCall::ReadChain) {
        FabricAnswer::At(version, chain) => {
            known.version = version;
            known.chain = chain;
            going.step = Step::Asking { segment };
            Ok(None)
        }
        FabricAnswer::Down => Err(Fault::Meta),
        FabricAnswer::Memory => Err(Fault::Memory),
        _ => unreachable!(),
    }
}

/// Begins to ask the sealed loglet for its tail.
fn ask<T: Turns>(
    turns: &mut T,
    known: &Known,
    going: &mut Going,
    segment: Segment,
) -> Result<Option<u64>, Fault>
    requires legal { IsLegal T.Law.law (T.seen turns.old) }
    requires goes_by { GoesBy (state_of (T.seen turns.old)) known.now.version known.now.chain known.now.tail }
    requires going { (early : List Event) × IsGoing T.Law.law.may (T.who turns.old) early (T.seen turns.old) known.now.chain going.old }
    requires step { going.old.step ≡ Asking segment }
    ensures who { T.who turns.new ≡ T.who turns.old }
    ensures silent { SaysNone (T.who turns.old) (T.seen turns.old) (T.seen turns.new) }
    ensures went { Went T.Law.law (T.who turns.old) (T.seen turns.old) known.now going.old
        (T.seen turns.new) known.now going.new result }
{
    match turns.turn(FabricCall::Begin(segment.id, Op::Tail)) {
        FabricAnswer::Begun(ticket) => {
            going.step = Step::Finding { segment, ticket };
            Ok(None)
        }
        FabricAnswer::Full => Err(Fault::Full { id: segment.id }),
        FabricAnswer::Memory => Err(Fault::Memory),
        _ => unreachable!(),
    }
}

/// Carries the operation that asks for the tail.
fn find<T: Turns, C: Chooser>(
    turns: &mut T,
    chooser: &mut C,
    known: &Known,
    going: &mut Going,
    segment: Segment,
    ticket: Ticket,
) -> Result<Option<u64>, Fault>
    requires legal { IsLegal T.Law.law (T.seen turns.old) }
    requires goes_by { GoesBy (state_of (T.seen turns.old)) known.now.version known.now.chain known.now.tail }
    requires going { (early : List Event) × IsGoing T.Law.law.may (T.who turns.old) early (T.seen turns.old) known.now.chain going.old }
    requires step { going.old.step ≡ Finding segment ticket }
    ensures who { T.who turns.new ≡ T.who turns.old }
    ensures draws { DrawsOwn C.gives (T.who turns.old) (C.at chooser.old) (T.seen turns.old) result (C.at chooser.new) (T.seen turns.new) }
    ensures went { Went T.Law.law (T.who turns.old) (T.seen turns.old) known.now going.old
        (T.seen turns.new) known.now going.new result }
{
    match turn::carry(turns, chooser, segment.id, ticket) {
        FabricAnswer::Going => Ok(None),
        FabricAnswer::Done(answer) => match answer {
            Answer::SealedTail(length) => {
                going.step = Step::Closing { segment, length };
                Ok(None)
            }
            Answer::NoQuorum { unreached } => {
                Err(Fault::NoQuorum {
                    id: segment.id,
                    unreached,
                })
            }
            _ => unreachable!(),
        },
        FabricAnswer::Memory => {
            going.step = forget(turns, segment.id, ticket);
            Err(Fault::Memory)
        }
        _ => unreachable!(),
    }
}

/// Writes the chain that closes the sealed loglet, which is the last of the known one.
fn close<T: Turns>(
    turns: &mut T,
    alloc: Global,
    known: &mut Known,
    going: &mut Going,
    segment: Segment,
    length: u64,
) -> Result<Option<u64>, Fault>
    requires legal { IsLegal T.Law.law (T.seen turns.old) }
    requires goes_by { GoesBy (state_of (T.seen turns.old)) known.old.version known.old.chain known.old.tail }
    requires going { (early : List Event) × IsGoing T.Law.law.may (T.who turns.old) early (T.seen turns.old) known.old.chain going.old }
    requires step { going.old.step ≡ Closing segment length }
    requires last { (last_segment known.old.chain).id ≡ segment.id }
    ensures who { T.who turns.new ≡ T.who turns.old }
    ensures silent { SaysNone (T.who turns.old) (T.seen turns.old) (T.seen turns.new) }
    ensures went { Went T.Law.law (T.who turns.old) (T.seen turns.old) known.old going.old
        (T.seen turns.new) known.new going.new result }
{
    let next = extend(alloc, &known.chain, length)?;
    match turns.turn(FabricCall::WriteChain(known.version, next)) {
        FabricAnswer::Written(_) => {
            going.step = Step::Reading { segment };
            Ok(None)
        }
        FabricAnswer::Conflict(version, chain) => {
            known.version = version;
            known.chain = chain;
            Ok(None)
        }
        FabricAnswer::MetaFault => Err(Fault::Meta),
        FabricAnswer::Down => Err(Fault::Meta),
        FabricAnswer::Memory => Err(Fault::Memory),
        _ => unreachable!(),
    }
}

/// Closes the ticket that want of memory left, and begins the append.
fn drop_and_start<T: Turns>(
    turns: &mut T,
    known: &Known,
    going: &mut Going,
    cell: u32,
    ticket: Ticket,
) -> Result<Option<u64>, Fault>
    requires legal { IsLegal T.Law.law (T.seen turns.old) }
    requires goes_by { GoesBy (state_of (T.seen turns.old)) known.now.version known.now.chain known.now.tail }
    requires going { (early : List Event) × IsGoing T.Law.law.may (T.who turns.old) early (T.seen turns.old) known.now.chain going.old }
    requires step { going.old.step ≡ Dropping cell ticket }
    ensures who { T.who turns.new ≡ T.who turns.old }
    ensures silent { SaysNone (T.who turns.old) (T.seen turns.old) (T.seen turns.new) }
    ensures went { Went T.Law.law (T.who turns.old) (T.seen turns.old) known.now going.old
        (T.seen turns.new) known.now going.new result }
{
    match forget(turns, cell, ticket) {
        Step::Starting => {
            going.step = Step::Starting;
            let started = start(turns, known, going);
            started
        }
        _ => Err(Fault::Memory),
    }
}

/// Takes the step that is due.
fn advance<T: Turns, C: Chooser>(
    turns: &mut T,
    chooser: &mut C,
    alloc: Global,
    known: &mut Known,
    going: &mut Going,
) -> Result<Option<u64>, Fault>
    requires legal { IsLegal T.Law.law (T.seen turns.old) }
    requires goes_by { GoesBy (state_of (T.seen turns.old)) known.old.version known.old.chain known.old.tail }
    requires going { (early : List Event) × IsGoing T.Law.law.may (T.who turns.old) early (T.seen turns.old) known.old.chain going.old }
    requires due { due (last_segment known.old.chain).id going.old.step ≡ going.old.step }
    ensures who { T.who turns.new ≡ T.who turns.old }
    ensures draws { DrawsOwn C.gives (T.who turns.old) (C.at chooser.old) (T.seen turns.old) result (C.at chooser.new) (T.seen turns.new) }
    ensures went { Went T.Law.law (T.who turns.old) (T.seen turns.old) known.old going.old
        (T.seen turns.new) known.new going.new result }
{
    match &going.step {
        Step::Starting => start(turns, known, going),
        Step::Appending { segment, ticket } => {
            let (segment, ticket) = (*segment, *ticket);
            carry_append(turns, chooser, known, going, segment, ticket)
        }
        Step::Reading { segment } => {
            let segment = *segment;
            read(turns, known, going, segment)
        }
        Step::Asking { segment } => {
            let segment = *segment;
            ask(turns, known, going, segment)
        }
        Step::Finding { segment, ticket } => {
            let (segment, ticket) = (*segment, *ticket);
            find(turns, chooser, known, going, segment, ticket)
        }
        Step::Closing { segment, length } => {
            let (segment, length) = (*segment, *length);
            close(turns, alloc, known, going, segment, length)
        }
        Step::Dropping { cell, ticket } => {
            let (cell, ticket) = (*cell, *ticket);
            drop_and_start(turns, known, going, cell, ticket)
        }
    }
}

/// Makes one turn of an append that is underway. None: it is undecided.
pub fn go_on_with<T: Turns, C: Chooser>(
    turns: &mut T,
    chooser: &mut C,
    alloc: Global,
    known: &mut Known,
    going: &mut Going,
) -> Result<Option<u64>, Fault>
    requires legal { IsLegal T.Law.law (T.seen turns.old) }
    requires goes_by { GoesBy (state_of (T.seen turns.old)) known.old.version known.old.chain known.old.tail }
    requires going { (early : List Event) × IsGoing T.Law.law.may (T.who turns.old) early (T.seen turns.old) known.old.chain going.old }
    ensures later { Later T.Law.law (T.seen turns.old) (T.seen turns.new) }
    ensures who { T.who turns.new ≡ T.who turns.old }
    ensures goes_by { GoesBy (state_of (T.seen turns.new)) known.new.version known.new.chain known.new.tail }
    ensures entry { going.new.entry ≡ going.old.entry }
    ensures stands { IfOk result (λ o. IfSome o (λ pos. Stands (state_of (T.seen turns.new)) pos going.old.entry)) }
    ensures held { IfOk result (λ o. IfSome o (λ pos. Holds (T.seen turns.new) pos going.old.entry)) }
    ensures above { IfOk result (λ o. IfSome o (λ pos. (early : List Event) → IsGoing T.Law.law.may (T.who turns.old) early (T.seen turns.old) known.old.chain going.old
        → IsAbove (T.who turns.old) early pos (T.seen turns.new))) }
    ensures placed { IfOk result (λ o. IfSome o (λ pos. OneTurn (T.who turns.old) (T.seen turns.old) (Places (due (last_segment known.old.chain).id going.old.step) pos) (T.seen turns.new))) }
    ensures undecided { IfOk result (λ o. IfNone o (LeavesOpen (T.who turns.old) (T.seen turns.old) going.old.entry known.old.version known.old.chain
        (due (last_segment known.old.chain).id going.old.step) (T.seen turns.new) known.new.version known.new.chain going.new.step)) }
    ensures known { IfOk result (λ o. IfSome o (λ pos. known.new.tail ≡ max known.old.tail (pos + 1))) }
    ensures undone { IfOk result (λ o. IfNone o (known.new.tail ≡ known.old.tail)) }
    ensures unknown { OnErr result (known.new.tail ≡ known.old.tail) }
    ensures going { IfOk result (λ o. IfNone o (StaysGoing T.Law.law.may (T.who turns.old) (T.seen turns.old) known.old.chain going.old (T.seen turns.new) known.new.chain going.new)) }
    ensures again { IfErr result (λ fault. fault ≡ Memory → StaysGoing T.Law.law.may (T.who turns.old) (T.seen turns.old) known.old.chain going.old (T.seen turns.new) known.new.chain going.new) }
    ensures left { LeavesNone going.old.step (T.seen turns.new) going.new.step }
    ensures others { LeavesOthers T.Law.law.may (T.who turns.old) (T.seen turns.old) known.old.chain going.old (T.seen turns.new) known.new.chain going.new }
    ensures draws { DrawsOwn C.gives (T.who turns.old) (C.at chooser.old) (T.seen turns.old) result (C.at chooser.new) (T.seen turns.new) }
    ensures err { IfErr result (λ fault. HasCause (T.who turns.old) (T.seen turns.old) fault (T.seen turns.new)) }
    ensures unsealed { SealsNone (T.who turns.old) (T.seen turns.old) (T.seen turns.new) }
    ensures calm { OnOk result (CalmSince (T.who turns.old) (T.seen turns.old) (T.seen turns.new)) }
    ensures memory { IfErr result (λ fault. fault ≡ Memory → CalmSince (T.who turns.old) (T.seen turns.old) (T.seen turns.new)) }
{
    let step = mem::replace(&mut going.step, Step::Starting);
    going.step = due(known, step);
    let made = advance(turns, chooser, alloc, known, going);
    made
}

/// Begins an append on the last loglet of the known chain.
pub fn start_append_on<T: Turns>(
    turns: &mut T,
    known: &Known,
    entry: &Entry,
) -> Result<Going, Fault>
    requires legal { IsLegal T.Law.law (T.seen turns.old) }
    requires goes_by { GoesBy (state_of (T.seen turns.old)) known.now.version known.now.chain known.now.tail }
    requires may { T.Law.law.may (T.who turns.old) entry.now }
    requires spelled { IsSpellable entry.now }
    ensures later { Later T.Law.law (T.seen turns.old) (T.seen turns.new) }
    ensures who { T.who turns.new ≡ T.who turns.old }
    ensures goes_by { GoesBy (state_of (T.seen turns.new)) known.now.version known.now.chain known.now.tail }
    ensures entry { IfOk result (λ going. going.entry ≡ entry.now) }
    ensures going { IfOk result (λ going. IsGoing T.Law.law.may (T.who turns.old) (T.seen turns.old) (T.seen turns.new) known.now.chain going) }
    ensures began { IfOk result (λ going. OneTurn (T.who turns.old) (T.seen turns.old) (Moves entry.now known.now.version known.now.chain Starting known.now.version known.now.chain going.step) (T.seen turns.new)) }
    ensures others { (early : List Event) (other : Going) → IsGoing T.Law.law.may (T.who turns.old) early (T.seen turns.old) known.now.chain other
        → IsGoing T.Law.law.may (T.who turns.old) early (T.seen turns.new) known.now.chain other × IfOk result (λ going. AreApart going other) }
    ensures silent { SaysNone (T.who turns.old) (T.seen turns.old) (T.seen turns.new) }
    ensures err { IfErr result (λ fault. HasCause (T.who turns.old) (T.seen turns.old) fault (T.seen turns.new)) }
    ensures unsealed { SealsNone (T.who turns.old) (T.seen turns.old) (T.seen turns.new) }
    ensures calm { OnOk result (CalmSince (T.who turns.old) (T.seen turns.old) (T.seen turns.new)) }
    ensures memory { IfErr result (λ fault. fault ≡ Memory → CalmSince (T.who turns.old) (T.seen turns.old) (T.seen turns.new)) }
{
    let segment = last_of(&known.chain);
    let copy = entry.clone()?;
    let kept = entry.clone()?;
    match turns.turn(FabricCall::Begin(segment.id, Op::Append(copy))) {
        FabricAnswer::Begun(ticket) => {
            Ok(Going {
                entry: kept,
                step: Step::Appending { segment, ticket },
            })
        }
        FabricAnswer::Full => Err(Fault::Full { id: segment.id }),
        FabricAnswer::Memory => Err(Fault::Memory),
        _ => unreachable!(),
    }
}

/// What is underway at a moment of a legal journal is so at every later one, by a known chain that is as far, where its
/// user neither carried nor closed its ticket. It does nothing: its contract is the law.
pub fn what_is_going_stays<P: Rules>()
    ensures { (who : ℕ) (early seen more : List Event) (known newer : Chain) (going : Going) → IsLegal P.law (seen ++ more)
        → (last_segment known).id ≤ (last_segment newer).id → LeaveStep who going.step more
        → IsGoing P.law.may who early seen known going → IsGoing P.law.may who early (seen ++ more) newer going }
{}

/// What is underway before another call of its value is so behind it, by the chain that the value goes by then: a call
/// carries and closes what it began alone (`closes`), and that chain ends no earlier (`rises`). It does nothing: its
/// contract is the law.
pub fn what_is_going_outlasts_calls<P: Rules>()
    ensures { (who : ℕ) (early old new : List Event) (known newer : Chain) (left : Option Operation) (going : Going) → Later P.law old new
        → (last_segment known).id ≤ (last_segment newer).id → Operates who None left old new
        → IsGoing P.law.may who early old known going → IsGoing P.law.may who early new newer going }
{}

impl<T: Turns, C: Chooser> VirtualLog<T, C> {
    /// Begins an append, which is this user's to make, on the last loglet of the known chain. It is carried by `go_on`;
    /// others of this value may be underway.
    ///
    /// Cost: one turn.
    pub fn start_append(&mut self, entry: &Entry) -> Result<Going, Fault>
        requires may { T.Law.law.may self.old.who entry.now }
        requires spelled { IsSpellable entry.now }
        ensures later { Later T.Law.law self.old.seen self.new.seen }
        ensures who { self.new.who ≡ self.old.who }
        ensures entry { IfOk result (λ going. going.entry ≡ entry.now) }

        // It was begun after all that was seen before this call, and can go on.
        ensures going { IfOk result (λ going. IsGoing T.Law.law.may self.old.who self.old.seen self.new.seen self.new.chain going) }

        // One turn begins the append.
        ensures began { IfOk result (λ going. OneTurn self.old.who self.old.seen (Moves entry.now self.old.version self.old.chain Starting self.new.version self.new.chain going.step) self.new.seen) }

        // Whatever else is underway stays so, and its ticket is another.
        ensures others { (early : List Event) (other : Going) → IsGoing T.Law.law.may self.old.who early self.old.seen self.old.chain other
            → IsGoing T.Law.law.may self.old.who early self.new.seen self.new.chain other × IfOk result (λ going. AreApart going other) }
        ensures known { self.new.known ≡ self.old.known }
        ensures silent { SaysNone self.old.who self.old.seen self.new.seen }
        ensures same { self.new.words ≡ self.old.words }
        ensures err { IfErr result (λ fault. HasCause self.old.who self.old.seen fault self.new.seen) }
        ensures unsealed { SealsNone self.old.who self.old.seen self.new.seen }
        ensures calm { OnOk result (CalmSince self.old.who self.old.seen self.new.seen) }
        ensures memory { IfErr result (λ fault. fault ≡ Memory → CalmSince self.old.who self.old.seen self.new.seen) }
    {
        start_append_on(&mut self.turns, &self.known, entry)
    }

    /// Goes on with an append of this value that no position, and no fault but `Memory`, has ended. None: it is
    /// undecided. After `Memory` it goes on too; where that came of its carry, the append is begun again, so the entry
    /// may stand in the log once more.
    ///
    /// Cost: one turn. A ticket that want of memory leaves is closed by one turn more.
    pub fn go_on(&mut self, going: &mut Going) -> Result<Option<u64>, Fault>
        requires going { (early : List Event) × IsGoing T.Law.law.may self.old.who early self.old.seen self.old.chain going.old }
        ensures later { Later T.Law.law self.old.seen self.new.seen }
        ensures who { self.new.who ≡ self.old.who }
        ensures entry { going.new.entry ≡ going.old.entry }

        // The entry stands at its position, as that of `append` does.
        ensures stands { IfOk result (λ o. IfSome o (λ pos. Stands (state_of self.new.seen) pos going.old.entry)) }
        ensures held { IfOk result (λ o. IfSome o (λ pos. Holds self.new.seen pos going.old.entry)) }

        // The position is above each one, and not below any tail, that was answered before the append was begun.
        ensures above { IfOk result (λ o. IfSome o (λ pos. (early : List Event) → IsGoing T.Law.law.may self.old.who early self.old.seen self.old.chain going.old
            → IsAbove self.old.who early pos self.new.seen)) }
        ensures placed { IfOk result (λ o. IfSome o (λ pos. OneTurn self.old.who self.old.seen (Places (due (last_segment self.old.chain).id going.old.step) pos) self.new.seen)) }
        ensures known { IfOk result (λ o. IfSome o (λ pos. self.new.known ≡ max self.old.known (pos + 1))) }

        // Undecided: its one turn carried the operation and left it so, or took the next step of the replacement.
        ensures undecided { IfOk result (λ o. IfNone o (LeavesOpen self.old.who self.old.seen going.old.entry self.old.version self.old.chain
            (due (last_segment self.old.chain).id going.old.step) self.new.seen self.new.version self.new.chain going.new.step)) }
        ensures undone { IfOk result (λ o. IfNone o (self.new.known ≡ self.old.known)) }
        ensures unknown { OnErr result (self.new.known ≡ self.old.known) }

        // Undecided or without memory, it can go on, after all that it was begun after.
        ensures going { IfOk result (λ o. IfNone o (StaysGoing T.Law.law.may self.old.who self.old.seen self.old.chain going.old self.new.seen self.new.chain going.new)) }
        ensures again { IfErr result (λ fault. fault ≡ Memory → StaysGoing T.Law.law.may self.old.who self.old.seen self.old.chain going.old self.new.seen self.new.chain going.new) }

        // No ticket is left behind: it is the next step's, or it is open no more.
        ensures left { LeavesNone going.old.step self.new.seen going.new.step }

        // Whatever else is underway, under another ticket, stays so.
        ensures others { LeavesOthers T.Law.law.may self.old.who self.old.seen self.old.chain going.old self.new.seen self.new.chain going.new }

        // The word with which it carried is the one that the chooser gave next, and it gave no other.
        ensures draws { DrawsOwn C.gives self.old.who self.old.words self.old.seen result self.new.words self.new.seen }
        ensures err { IfErr result (λ fault. HasCause self.old.who self.old.seen fault self.new.seen) }
        ensures unsealed { SealsNone self.old.who self.old.seen self.new.seen }
        ensures calm { OnOk result (CalmSince self.old.who self.old.seen self.new.seen) }
        ensures memory { IfErr result (λ fault. fault ≡ Memory → CalmSince self.old.who self.old.seen self.new.seen) }
    {
        go_on_with(
            &mut self.turns,
            &mut self.chooser,
            self.alloc,
            &mut self.known,
            going,
        )
    }
}
