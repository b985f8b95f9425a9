//! Single turns, and operations that are carried to their end.
ghost use Rattle.std.specs.Prelude.{◌≡◌, ◌<◌, ◌^◌, ℕ, false, length, IfOk, OnOk, IfErr, OnErr, Option, None, Some};
ghost use Rattle.delos_types.specs.declared.entry.Entry.{Entry};
ghost use Rattle.legal_journal.specs.Told.{Running};
ghost use Rattle.legal_journal.specs.Journal.{state_of, IsOwn, IsLegal};
ghost use Rattle.legal_journal.specs.Turns.{MayTurn, HasRight, IsTurn};
ghost use Rattle.legal_journal.specs.declared.events.FabricAnswer.{FabricAnswer};
ghost use Rattle.legal_journal.specs.Sealing.{is_seal};
ghost use Rattle.virtual_log.specs.Turning.{Later, Looked, Opened, Answered, IsForgotten};
ghost use Rattle.virtual_log.specs.Causes.{HasCause, CalmSince, IsCalmAnswer};
ghost use Rattle.virtual_log.specs.declared.fault.Fault.TheVariants.{Memory};
ghost use Rattle.virtual_log.specs.Writing.{WroteNone};
ghost use Rattle.virtual_log.specs.Sealing.{SealsNone, SealsAt};
ghost use Rattle.virtual_log.specs.Saying.{SaysDrawn, SparesOne, SaysNone};
ghost use Rattle.virtual_log.specs.Operating.{Operation, Operates};
ghost use Rattle.virtual_log.specs.Attempts.{IsOf, Attempts, AppendsNone, Idles, appends_in, refused_by};

use crate::fault::Fault;
use delos_types::chain::Chain;
use delos_types::numbers::Ticket;
use fate_words::chooser::Chooser;
use legal_journal::events::{FabricAnswer, FabricCall};
use legal_journal::rules::Rules;
use legal_journal::turns::Turns;
use loglet_api::call::{Answer, Op};
use std::alloc::AllocError;

/// Reads the chain.
pub fn look<T: Turns>(turns: &mut T) -> Result<(u64, Chain), Fault>
    ensures later { Later T.Law.law (T.seen turns.old) (T.seen turns.new) }
    ensures who { T.who turns.new ≡ T.who turns.old }
    ensures ok { IfOk result (λ x. Looked (T.who turns.old) (T.seen turns.old) x.0 x.1 (T.seen turns.new)) }
    ensures quiet { WroteNone (T.who turns.old) (T.seen turns.old) (T.seen turns.new) }
    ensures unsealed { SealsNone (T.who turns.old) (T.seen turns.old) (T.seen turns.new) }
    ensures idle { Idles (T.who turns.old) (T.seen turns.old) (T.seen turns.new) }
    ensures silent { SaysNone (T.who turns.old) (T.seen turns.old) (T.seen turns.new) }
    ensures err { IfErr result (λ fault. HasCause (T.who turns.old) (T.seen turns.old) fault (T.seen turns.new)) }
    ensures calm { OnOk result (CalmSince (T.who turns.old) (T.seen turns.old) (T.seen turns.new)) }
    ensures memory { IfErr result (λ fault. fault ≡ Memory → CalmSince (T.who turns.old) (T.seen turns.old) (T.seen turns.new)) }
    ensures closes { Operates (T.who turns.old) None None (T.seen turns.old) (T.seen turns.new) }
{
    match turns.turn(FabricCall::ReadChain) {
        FabricAnswer::At(version, chain) => Ok((version, chain)),
        FabricAnswer::Down => Err(Fault::Meta),
        FabricAnswer::Memory => Err(Fault::Memory),
        _ => unreachable!(),
    }
}

/// Begins an operation. A Seal is begun by those alone who have the right to.
pub fn begin<T: Turns>(turns: &mut T, cell: u32, op: Op) -> Result<Ticket, Fault>
    requires may { MayTurn T.Law.law (T.who turns.old) (T.seen turns.old) (FabricCall.Begin cell op) }
    requires right { HasRight T.Law.seals (T.who turns.old) (FabricCall.Begin cell op) }
    ensures later { Later T.Law.law (T.seen turns.old) (T.seen turns.new) }
    ensures who { T.who turns.new ≡ T.who turns.old }
    ensures ok { IfOk result (λ t. Opened (T.who turns.old) (T.seen turns.old) cell op t (T.seen turns.new)) }
    ensures quiet { IfOk result (λ t. WroteNone (T.who turns.old) (T.seen turns.old) (T.seen turns.new)) }
    ensures unsealed { is_seal (FabricCall.Begin cell op) ≡ false → SealsNone (T.who turns.old) (T.seen turns.old) (T.seen turns.new) }
    ensures seals { SealsAt (T.who turns.old) cell (T.seen turns.old) (T.seen turns.new) }
    ensures begun { IfOk result (λ t. (entry : Entry) → IsOf entry (FabricCall.Begin cell op) → Attempts (T.who turns.old) entry 0 (appends_in op) (T.seen turns.old) (T.seen turns.new)) }
    ensures unbegun { OnErr result ((entry : Entry) → IsOf entry (FabricCall.Begin cell op) → AppendsNone (T.who turns.old) entry (T.seen turns.old) (T.seen turns.new)) }
    ensures silent { SaysNone (T.who turns.old) (T.seen turns.old) (T.seen turns.new) }
    ensures err { IfErr result (λ fault. HasCause (T.who turns.old) (T.seen turns.old) fault (T.seen turns.new)) }
    ensures calm { OnOk result (CalmSince (T.who turns.old) (T.seen turns.old) (T.seen turns.new)) }
    ensures memory { IfErr result (λ fault. fault ≡ Memory → CalmSince (T.who turns.old) (T.seen turns.old) (T.seen turns.new)) }
    ensures opens { IfOk result (λ t. Operates (T.who turns.old) None (Some (record { loglet = cell; ticket = t })) (T.seen turns.old) (T.seen turns.new)) }
    ensures refused { OnErr result (Operates (T.who turns.old) None None (T.seen turns.old) (T.seen turns.new)) }
{
    match turns.turn(FabricCall::Begin(cell, op)) {
        FabricAnswer::Begun(ticket) => Ok(ticket),
        FabricAnswer::Full => Err(Fault::Full { id: cell }),
        FabricAnswer::Memory => Err(Fault::Memory),
        _ => unreachable!(),
    }
}

/// Closes an own operation without its answer. Whether it is closed: where memory is wanting for that too, it isn't.
pub fn forget<T: Turns>(turns: &mut T, cell: u32, ticket: Ticket) -> bool
    requires may { MayTurn T.Law.law (T.who turns.old) (T.seen turns.old) (FabricCall.Forget cell ticket) }
    ensures later { Later T.Law.law (T.seen turns.old) (T.seen turns.new) }
    ensures who { T.who turns.new ≡ T.who turns.old }
    ensures turn { (answer : FabricAnswer) × IsForgotten answer result
        × IsTurn T.Law.law (T.who turns.old) (T.seen turns.old) (FabricCall.Forget cell ticket) answer (T.seen turns.new) }
    ensures unsealed { SealsNone (T.who turns.old) (T.seen turns.old) (T.seen turns.new) }
    ensures idle { Idles (T.who turns.old) (T.seen turns.old) (T.seen turns.new) }
    ensures silent { SaysNone (T.who turns.old) (T.seen turns.old) (T.seen turns.new) }
    ensures calm { CalmSince (T.who turns.old) (T.seen turns.old) (T.seen turns.new) }
{
    match turns.turn(FabricCall::Forget(cell, ticket)) {
        FabricAnswer::Gone => true,
        FabricAnswer::NoTicket => true,
        FabricAnswer::Memory => false,
        _ => unreachable!(),
    }
}

/// Carries an operation by one turn, with the chooser's next word.
pub fn carry<T: Turns, C: Chooser>(
    turns: &mut T,
    chooser: &mut C,
    cell: u32,
    ticket: Ticket,
) -> FabricAnswer
    requires may { (word : ℕ) → MayTurn T.Law.law (T.who turns.old) (T.seen turns.old) (FabricCall.Carry cell ticket word) }
    ensures who { T.who turns.new ≡ T.who turns.old }
    ensures turn { (word : ℕ) × C.gives (C.at chooser.old) word (C.at chooser.new) × (word < 2 ^ 64)
        × IsTurn T.Law.law (T.who turns.old) (T.seen turns.old) (FabricCall.Carry cell ticket word) result (T.seen turns.new) }
{
    let word = chooser.word();
    turns.turn(FabricCall::Carry(cell, ticket, word))
}

/// Carries an open operation to its end. Each carry takes the chooser's next word. An operation that want of memory
/// leaves is closed, unless memory is wanting for that too.
pub fn carry_on<T: Turns, C: Chooser>(
    turns: &mut T,
    chooser: &mut C,
    cell: u32,
    ticket: Ticket,
) -> Result<Answer, AllocError>
    requires legal { IsLegal T.Law.law (T.seen turns.old) }
    requires cell { cell < length T.Law.law.shelf }
    requires own { (r : Running) × IsOwn ((state_of (T.seen turns.old)).cells cell) (T.who turns.old) ticket r }
    ensures later { Later T.Law.law (T.seen turns.old) (T.seen turns.new) }
    ensures who { T.who turns.new ≡ T.who turns.old }
    ensures ok { IfOk result (λ a. (r : Running) → IsOwn ((state_of (T.seen turns.old)).cells cell) (T.who turns.old) ticket r
        → Answered (T.who turns.old) (T.seen turns.old) cell ticket r a (T.seen turns.new)) }
    ensures quiet { IfOk result (λ a. WroteNone (T.who turns.old) (T.seen turns.old) (T.seen turns.new)) }
    ensures unsealed { SealsNone (T.who turns.old) (T.seen turns.old) (T.seen turns.new) }
    ensures refused { IfOk result (λ a. (entry : Entry) → Attempts (T.who turns.old) entry (refused_by a) 0 (T.seen turns.old) (T.seen turns.new)) }
    ensures idle { OnErr result (Idles (T.who turns.old) (T.seen turns.old) (T.seen turns.new)) }
    ensures draws { OnOk result (SaysDrawn C.gives (T.who turns.old) (C.at chooser.old) (T.seen turns.old) (C.at chooser.new) (T.seen turns.new)) }
    ensures spares { OnErr result (SparesOne C.gives (T.who turns.old) (C.at chooser.old) (T.seen turns.old) (C.at chooser.new) (T.seen turns.new)) }
    ensures calm { IfOk result (λ a. IsCalmAnswer a → CalmSince (T.who turns.old) (T.seen turns.old) (T.seen turns.new)) }
    ensures memory { OnErr result (CalmSince (T.who turns.old) (T.seen turns.old) (T.seen turns.new)) }
    ensures closes { OnOk result (Operates (T.who turns.old) (Some (record { loglet = cell; ticket = ticket })) None (T.seen turns.old) (T.seen turns.new)) }
    ensures left { OnErr result ((left : Option Operation) × Operates (T.who turns.old) (Some (record { loglet = cell; ticket = ticket })) left (T.seen turns.old) (T.seen turns.new)) }
{
    loop {
        match carry(turns, chooser, cell, ticket) {
            FabricAnswer::Done(answer) => return Ok(answer),
            FabricAnswer::Going => {}
            FabricAnswer::Memory => {
                // No one else can close it.
                let _ = forget(turns, cell, ticket);
                return Err(AllocError);
            }
            _ => unreachable!(),
        }
    }
}
