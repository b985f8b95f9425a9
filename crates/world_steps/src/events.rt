//! What clients' events tell, and copies of them.
ghost use Rattle.std.specs.Prelude.{◌≡◌, ◌==◌, ◌&&◌, IfOk};
ghost use Rattle.world_steps.specs.Events.{begins as begins_by, is_begin_of, is_owner as is_owner_by, is_tail as is_tail_by, ends as ends_by, was_sealed_at as was_sealed_by};

use delos_types::numbers::Ticket;
use legal_journal::events::{Event, FabricAnswer, FabricCall};
use loglet_api::call::Answer;
use std::alloc::AllocError;

/// Who began the operation of this ticket on the cell.
pub fn is_owner(events: &[Event], who: u32, cell: u32, ticket: Ticket) -> bool
    ensures { result ≡ is_owner_by events.now who cell ticket }
{
    events
        .iter()
        .any(|event| is_begin(event, who, cell, ticket))
}

/// The event is who's begin of this ticket on the cell.
fn is_begin(event: &Event, who: u32, cell: u32, ticket: Ticket) -> bool
    ensures { result ≡ is_begin_of who cell ticket event.now }
{
    begins(&event.call, &event.answer, cell, ticket) && event.who == who
}

fn begins(call: &FabricCall, answer: &FabricAnswer, cell: u32, ticket: Ticket) -> bool
    ensures { result ≡ begins_by cell ticket call.now answer.now }
{
    match (call, answer) {
        (FabricCall::Begin(at, _), FabricAnswer::Begun(begun)) => *at == cell && *begun == ticket,
        _ => false,
    }
}

/// A client of the cell was told this sealed tail.
pub fn was_sealed_at(events: &[Event], cell: u32, tail: u64) -> bool
    ensures { result ≡ was_sealed_by events.now cell tail }
{
    events
        .iter()
        .any(|event| ends(&event.call, &event.answer, cell, tail))
}

fn ends(call: &FabricCall, answer: &FabricAnswer, cell: u32, tail: u64) -> bool
    ensures { result ≡ ends_by cell tail call.now answer.now }
{
    match (call, answer) {
        (FabricCall::Carry(at, _, _), FabricAnswer::Done(answer)) => *at == cell
            && is_tail(answer, tail),
        _ => false,
    }
}

fn is_tail(answer: &Answer, tail: u64) -> bool
    ensures { result ≡ is_tail_by tail answer.now }
{
    match answer {
        Answer::SealedTail(length) => *length == tail,
        _ => false,
    }
}

/// A copy of the event.
pub fn copy(event: &Event) -> Result<Event, AllocError>
    ensures { IfOk result (λ made. made ≡ event.now) }
{
    let call = copy_call(&event.call)?;
    let answer = copy_answer(&event.answer)?;
    Ok(Event {
        who: event.who,
        call,
        answer,
    })
}

fn copy_call(call: &FabricCall) -> Result<FabricCall, AllocError>
    ensures { IfOk result (λ made. made ≡ call.now) }
{
    match call {
        FabricCall::Begin(cell, op) => Ok(FabricCall::Begin(*cell, op.clone()?)),
        FabricCall::Carry(cell, ticket, word) => Ok(FabricCall::Carry(*cell, *ticket, *word)),
        FabricCall::Forget(cell, ticket) => Ok(FabricCall::Forget(*cell, *ticket)),
        FabricCall::ReadChain => Ok(FabricCall::ReadChain),
        FabricCall::WriteChain(expected, chain) => {
            Ok(FabricCall::WriteChain(*expected, chain.clone()?))
        }
        FabricCall::Stop(cell, server, after) => Ok(FabricCall::Stop(*cell, *server, *after)),
        FabricCall::Mend(cell, server, word) => Ok(FabricCall::Mend(*cell, *server, *word)),
        FabricCall::Stray(cell, word) => Ok(FabricCall::Stray(*cell, *word)),
        FabricCall::StopMeta(after) => Ok(FabricCall::StopMeta(*after)),
        FabricCall::MendMeta(word) => Ok(FabricCall::MendMeta(*word)),
    }
}

fn copy_answer(answer: &FabricAnswer) -> Result<FabricAnswer, AllocError>
    ensures { IfOk result (λ made. made ≡ answer.now) }
{
    match answer {
        FabricAnswer::Begun(ticket) => Ok(FabricAnswer::Begun(*ticket)),
        FabricAnswer::Full => Ok(FabricAnswer::Full),
        FabricAnswer::Done(answer) => Ok(FabricAnswer::Done(answer.clone()?)),
        FabricAnswer::Going => Ok(FabricAnswer::Going),
        FabricAnswer::NoTicket => Ok(FabricAnswer::NoTicket),
        FabricAnswer::Gone => Ok(FabricAnswer::Gone),
        FabricAnswer::At(version, chain) => Ok(FabricAnswer::At(*version, chain.clone()?)),
        FabricAnswer::Down => Ok(FabricAnswer::Down),
        FabricAnswer::Written(version) => Ok(FabricAnswer::Written(*version)),
        FabricAnswer::Conflict(version, chain) => {
            Ok(FabricAnswer::Conflict(*version, chain.clone()?))
        }
        FabricAnswer::MetaFault => Ok(FabricAnswer::MetaFault),
        FabricAnswer::Set(up) => Ok(FabricAnswer::Set(*up)),
        FabricAnswer::Memory => Ok(FabricAnswer::Memory),
    }
}
