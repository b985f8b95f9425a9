// What a command does, from the value at its key.
ghost use Rattle.std.specs.Prelude.{◌≡◌, IfOk, Some, Option};
ghost use Rattle.std.specs.Fmt.{signed_decimal};
ghost use Rattle.std.specs.Option.{option_copied};
ghost use Rattle.table_core.specs.Table.{outcome, added, swapped, amount_of};
ghost use Rattle.table_core.specs.Effect.{Decides};
ghost use Rattle.delos_types.specs.Spaces.{Text};

use crate::amount::{amount_of, text_of};
use crate::command::{Command, Reply};
use delos_types::bytes::Bytes;
use std::alloc::{AllocError, Global};

/// What becomes of the value at the key.
#[derive(Drop)]
pub enum Change {
    Keep,
    Set(Bytes),
    Remove,
}

/// What becomes of the value at the key, and what is answered.
#[derive(Drop)]
pub struct Decision {
    pub change: Change,
    pub reply: Reply,
}

impl Decision {
    ghost use Rattle.table_core.specs.declared.decide.Change.TheVariants.{Keep};

    fn new(change: Change, reply: Reply) -> Decision
        ensures change { result.change ≡ change }
        ensures reply { result.reply ≡ reply }
    {
        Decision { change, reply }
    }

    fn keep(reply: Reply) -> Decision
        ensures change { result.change ≡ Keep }
        ensures reply { result.reply ≡ reply }
    {
        Decision::new(Change::Keep, reply)
    }
}

/// Decides what the command does where its key has the value `before`. It takes time that grows
/// with the value and the command's bytes alone.
pub fn decide(
    alloc: Global,
    command: &Command,
    before: Option<&Bytes>,
) -> Result<Decision, AllocError>
    ensures { IfOk result (Decides (option_copied before.entry) (outcome command.now (option_copied before.entry))) }
{
    match (command, before) {
        (Command::Put { value, .. }, _) => {
            let change = Change::Set(value.clone()?);
            Ok(Decision::new(change, Reply::Done))
        }
        (Command::Del { .. }, None) => Ok(Decision::keep(Reply::Absent)),
        (Command::Del { .. }, Some(_)) => Ok(Decision::new(Change::Remove, Reply::Done)),
        (Command::Cas { .. }, None) => Ok(Decision::keep(Reply::Absent)),
        (Command::Cas { old, new, .. }, Some(value)) => swap(value, old, new),
        (Command::Add { amount, .. }, None) => start(alloc, *amount),
        (Command::Add { amount, .. }, Some(value)) => add(alloc, value, *amount),
    }
}

// Sets the value to `new` where it is `old`.
fn swap(value: &Bytes, old: &Bytes, new: &Bytes) -> Result<Decision, AllocError>
    ensures { IfOk result (Decides (Some value.now) (swapped value.now old.now new.now)) }
{
    if value == old {
        let change = Change::Set(new.clone()?);
        return Ok(Decision::new(change, Reply::Done));
    }
    let reply = Reply::Was(value.clone()?);
    Ok(Decision::keep(reply))
}

// Sets the value to the text of a number.
fn start(alloc: Global, amount: i64) -> Result<Decision, AllocError>
    ensures { IfOk result (λ d. (d.change ≡ Change.Set (signed_decimal amount)) × (d.reply ≡ Reply.Number amount)) }
{
    let change = Change::Set(text_of(alloc, amount)?);
    Ok(Decision::new(change, Reply::Number(amount)))
}

// Adds to the number whose text the value is.
fn add(alloc: Global, value: &Bytes, amount: i64) -> Result<Decision, AllocError>
    ensures { IfOk result (Decides (Some value.now) (added value.now (amount_of value.now) amount)) }
{
    let Some(stored) = amount_of(value.as_slice()) else {
        return Ok(Decision::keep(Reply::NotNumber));
    };
    let Some(sum) = stored.checked_add(amount) else {
        return Ok(Decision::keep(Reply::Full));
    };
    start(alloc, sum)
}
