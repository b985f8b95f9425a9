//! The events of one loglet of a shelf. Room for an event is made before the calls that it records.
ghost use Rattle.std.specs.Prelude.{◌≡◌, ◌^◌, ◌<◌, ◌↔◌, true, Some, IfOk, OnErr, IsTrue, slice_get};
ghost use Rattle.loglet_api.specs.View.{IsOpen};
ghost use Rattle.loglet_api.specs.Step.{CanBegin};
ghost use Rattle.fabric_core.specs.CellEvent.{IsGot, CarriedOnce, Applies};

use delos_types::numbers::Ticket;
use legal_journal::events::{Event, FabricAnswer, FabricCall};
use loglet_api::call::{Answer, Op, Refused};
use loglet_api::loglet::Loglet;
use std::alloc::AllocError;

/// The ticket is open.
fn is_open(marks: &[bool], ticket: Ticket) -> bool
    ensures { IsTrue result ↔ (slice_get marks.now ticket ≡ Some true) }
{
    match marks.get(ticket.number() as usize) {
        Some(mark) => *mark,
        None => false,
    }
}

/// Only an entry takes memory to be copied.
fn copy_of(answer: &Answer) -> Result<Answer, AllocError>
    ensures ok { IfOk result (λ copy. copy ≡ answer.now) }
    ensures err { OnErr result (IsGot answer.now) }
{
    match answer {
        Answer::Placed(p) => Ok(Answer::Placed(*p)),
        Answer::Settled => Ok(Answer::Settled),
        Answer::OpenTail(t) => Ok(Answer::OpenTail(*t)),
        Answer::SealedTail(t) => Ok(Answer::SealedTail(*t)),
        Answer::SealDone => Ok(Answer::SealDone),
        Answer::Got(entry) => Ok(Answer::Got(entry.clone()?)),
        Answer::CutAt(n) => Ok(Answer::CutAt(*n)),
        Answer::Beyond(n) => Ok(Answer::Beyond(*n)),
        Answer::TrimDone => Ok(Answer::TrimDone),
        Answer::Sealed => Ok(Answer::Sealed),
        Answer::NoQuorum { unreached } => Ok(Answer::NoQuorum {
            unreached: *unreached,
        }),
    }
}

/// Carries an open operation once, where it is undecided, and takes its answer, where it is decided
/// then. Want of memory leaves all as it was, but for writes that a disk took before, and is the only
/// refusal of a carry.
fn carry_once<L: Loglet>(
    loglet: &mut L,
    ticket: Ticket,
    word: u64,
) -> Result<Option<Answer>, AllocError>
    requires { IsOpen (L.view loglet.old) ticket }
    ensures { CarriedOnce (record { loglet = L.view loglet.old; serving = L.serving loglet.old }) ticket word result
        (record { loglet = L.view loglet.new; serving = L.serving loglet.new }) }
{
    let (rounds, steps) = loglet.left(ticket);
    if rounds == 0 && steps == 0 {
        return Ok(loglet.take(ticket));
    }
    match loglet.carry(ticket, word) {
        Ok(()) => Ok(loglet.take(ticket)),
        Err(Refused::Memory) => Err(AllocError),
        Err(Refused::Full) => unreachable!(),
    }
}

/// Begins an operation.
pub fn begin_in<L: Loglet>(
    loglet: &mut L,
    marks: &mut Vec<bool>,
    journal: &mut Vec<Event>,
    who: u32,
    cell: u32,
    op: Op,
) -> FabricAnswer
    requires { CanBegin op }
    ensures { Applies (record { loglet = L.view loglet.old; serving = L.serving loglet.old; marks = marks.old.items; journal = journal.old.items }) who (FabricCall.Begin cell op) result
        (record { loglet = L.view loglet.new; serving = L.serving loglet.new; marks = marks.new.items; journal = journal.new.items }) }
{
    let Ok(kept) = op.clone() else {
        return FabricAnswer::Memory;
    };
    if journal.reserve(1).is_err() {
        return FabricAnswer::Memory;
    }
    if marks.reserve(1).is_err() {
        return FabricAnswer::Memory;
    }
    match loglet.begin(op) {
        Ok(ticket) => {
            marks.push_reserved(true);
            let call = FabricCall::Begin(cell, kept);
            let answer = FabricAnswer::Begun(ticket);
            journal.push_reserved(Event { who, call, answer });
            FabricAnswer::Begun(ticket)
        }
        Err(Refused::Full) => {
            let call = FabricCall::Begin(cell, kept);
            let answer = FabricAnswer::Full;
            journal.push_reserved(Event { who, call, answer });
            FabricAnswer::Full
        }
        Err(Refused::Memory) => FabricAnswer::Memory,
    }
}

/// Carries an operation.
pub fn carry_in<L: Loglet>(
    loglet: &mut L,
    marks: &mut Vec<bool>,
    journal: &mut Vec<Event>,
    who: u32,
    cell: u32,
    ticket: Ticket,
    word: u64,
) -> FabricAnswer
    requires { slice_get marks.old.items ticket ≡ Some true → IsOpen (L.view loglet.old) ticket }
    ensures { Applies (record { loglet = L.view loglet.old; serving = L.serving loglet.old; marks = marks.old.items; journal = journal.old.items }) who (FabricCall.Carry cell ticket word) result
        (record { loglet = L.view loglet.new; serving = L.serving loglet.new; marks = marks.new.items; journal = journal.new.items }) }
{
    if journal.reserve(1).is_err() {
        return FabricAnswer::Memory;
    }
    let call = FabricCall::Carry(cell, ticket, word);
    if !is_open(marks, ticket) {
        let answer = FabricAnswer::NoTicket;
        journal.push_reserved(Event { who, call, answer });
        return FabricAnswer::NoTicket;
    }
    let Ok(taken) = carry_once(loglet, ticket, word) else {
        return FabricAnswer::Memory;
    };
    let Some(answer) = taken else {
        let answer = FabricAnswer::Going;
        journal.push_reserved(Event { who, call, answer });
        return FabricAnswer::Going;
    };
    marks[ticket.number() as usize] = false;
    let Ok(kept) = copy_of(&answer) else {
        let answer = FabricAnswer::Memory;
        journal.push_reserved(Event { who, call, answer });
        return FabricAnswer::Memory;
    };
    journal.push_reserved(Event {
        who,
        call,
        answer: FabricAnswer::Done(kept),
    });
    FabricAnswer::Done(answer)
}

/// Closes an operation without its answer.
pub fn forget_in<L: Loglet>(
    loglet: &mut L,
    marks: &mut Vec<bool>,
    journal: &mut Vec<Event>,
    who: u32,
    cell: u32,
    ticket: Ticket,
) -> FabricAnswer
    requires { slice_get marks.old.items ticket ≡ Some true → IsOpen (L.view loglet.old) ticket }
    ensures { Applies (record { loglet = L.view loglet.old; serving = L.serving loglet.old; marks = marks.old.items; journal = journal.old.items }) who (FabricCall.Forget cell ticket) result
        (record { loglet = L.view loglet.new; serving = L.serving loglet.new; marks = marks.new.items; journal = journal.new.items }) }
{
    if journal.reserve(1).is_err() {
        return FabricAnswer::Memory;
    }
    let call = FabricCall::Forget(cell, ticket);
    if !is_open(marks, ticket) {
        let answer = FabricAnswer::NoTicket;
        journal.push_reserved(Event { who, call, answer });
        return FabricAnswer::NoTicket;
    }
    loglet.forget(ticket);
    marks[ticket.number() as usize] = false;
    let answer = FabricAnswer::Gone;
    journal.push_reserved(Event { who, call, answer });
    FabricAnswer::Gone
}
