//! One call of a stripe, with what is noted of it.
ghost use Rattle.std.specs.Prelude.{◌≡◌};
ghost use Rattle.loglet_api.specs.View.{IsOpen};
ghost use Rattle.loglet_api.specs.Answers.{stray_answer, restart_answer};
ghost use Rattle.loglet_api.specs.Servers.{Serves};
ghost use Rattle.loglet_api.specs.Step.{CanCall, LogletStep};
ghost use Rattle.striped_loglet.specs.Calls.{BegunOn, CarriedOn, TakenOn};
ghost use Rattle.striped_loglet.specs.Servings.{ServesCarry};

use delos_types::numbers::Ticket;
use loglet_api::call::{Answer, LogletAnswer, LogletCall, Op, Refused};
use loglet_api::loglet::Loglet;

/// An operation of a stripe that is under way.
#[derive(Clone, Copy)]
pub struct Inner {
    pub stripe: u64,
    pub ticket: Ticket,
    /// What was left of it when it was last looked at.
    pub rounds: u32,
    pub steps: u64,
}

/// What carrying an operation of a stripe came to.
#[derive(Drop)]
pub enum Outcome {
    Going(Inner),
    Answered(Answer),
}

/// Begins an operation on the stripe of this number.
pub fn begin_on<L: Loglet>(stripe: &mut L, number: u64, op: Op) -> Result<Inner, Refused>
    requires { CanCall (L.view stripe.old) (LogletCall.Begin op) }
    ensures step { BegunOn (L.view stripe.old) number op result (L.view stripe.new) }
    ensures serves { L.serving stripe.new ≡ L.serving stripe.old }
{
    let ticket = match stripe.begin(op) {
        Ok(ticket) => ticket,
        Err(refused) => return Err(refused),
    };
    let (rounds, steps) = stripe.left(ticket);
    Ok(Inner {
        stripe: number,
        ticket,
        rounds,
        steps,
    })
}

/// Carries an operation of a stripe once, where it is undecided, and takes its answer, where it is
/// decided then.
pub fn carry_on<L: Loglet>(stripe: &mut L, inner: Inner, word: u64) -> Result<Outcome, Refused>
    requires { IsOpen (L.view stripe.old) inner.ticket }
    ensures step { CarriedOn (L.view stripe.old) inner word result (L.view stripe.new) }
    ensures serves { ServesCarry (L.serving stripe.old) inner.ticket word result (L.serving stripe.new) }
{
    let (rounds, steps) = stripe.left(inner.ticket);
    if rounds == 0 && steps == 0 {
        return Ok(taken(stripe, inner));
    }
    match stripe.carry(inner.ticket, word) {
        Ok(()) => Ok(taken(stripe, inner)),
        Err(refused) => Err(refused),
    }
}

/// Closes an operation of a stripe without its answer, whatever is left of it.
pub fn forget_on<L: Loglet>(stripe: &mut L, inner: Inner)
    requires { CanCall (L.view stripe.old) (LogletCall.Forget inner.ticket) }
    ensures step { LogletStep (L.view stripe.old) (LogletCall.Forget inner.ticket) LogletAnswer.Forgotten (L.view stripe.new) }
    ensures serves { Serves (L.serving stripe.old) (LogletCall.Forget inner.ticket) LogletAnswer.Forgotten (L.serving stripe.new) }
{
    stripe.forget(inner.ticket)
}

/// Has a stripe deliver again a message that was delivered before, chosen by the word.
pub fn stray_on<L: Loglet>(stripe: &mut L, word: u64) -> Result<(), Refused>
    ensures step { LogletStep (L.view stripe.old) (LogletCall.Stray word) (stray_answer result) (L.view stripe.new) }
    ensures serves { Serves (L.serving stripe.old) (LogletCall.Stray word) (stray_answer result) (L.serving stripe.new) }
{
    stripe.stray(word)
}

/// Opens a server of a stripe again by the word; whether it is up then.
pub fn restart_on<L: Loglet>(stripe: &mut L, server: u32, word: u64) -> Result<bool, Refused>
    requires { CanCall (L.view stripe.old) (LogletCall.Restart server word) }
    ensures step { LogletStep (L.view stripe.old) (LogletCall.Restart server word) (restart_answer result) (L.view stripe.new) }
    ensures serves { Serves (L.serving stripe.old) (LogletCall.Restart server word) (restart_answer result) (L.serving stripe.new) }
{
    stripe.restart(server, word)
}

/// Takes the answer of an operation of a stripe, or looks at what is left of it.
fn taken<L: Loglet>(stripe: &mut L, inner: Inner) -> Outcome
    requires { IsOpen (L.view stripe.old) inner.ticket }
    ensures step { TakenOn (L.view stripe.old) inner result (L.view stripe.new) }
    ensures serves { L.serving stripe.new ≡ L.serving stripe.old }
{
    match stripe.take(inner.ticket) {
        Some(answer) => Outcome::Answered(answer),
        None => {
            let (rounds, steps) = stripe.left(inner.ticket);
            Outcome::Going(Inner {
                rounds,
                steps,
                ..inner
            })
        }
    }
}
