//! A node tells the log something of no session, in a turn.
ghost use Rattle.std.specs.Prelude.{◌≡◌, ◌⊎◌, [], ◌∷◌, IfOk, OnOk};
ghost use Rattle.engine_api.specs.Packing.{packed};
ghost use Rattle.turn_scopes.specs.Seats.{SeatOk, node_of};
ghost use Rattle.node_lines.specs.Reporting.{Tells};
ghost use Rattle.node_lines.specs.Workers.{MayRun, OwnWithin, Sends, OwnAdds, IsKept, StaysKept, IsOfSessions};
ghost use Rattle.node_lines.specs.Steps.{IsLeft, TellsAndPlays};
ghost use Rattle.node_workers.specs.Lines.{comes_to};
ghost use Rattle.node_workers.specs.Telling.{MayTell};

use crate::back::Back;
use crate::or_back;
use crate::sent::Sent;
use crate::steps::{Play, Tell};
use crate::within::{in_turn, within};
use delos_types::cause::Cause;
use delos_types::item::Item;
use fate_words::chooser::Chooser;
use node_lines::lines::Looked;
use replica_api::replica::Replica;
use std::alloc::AllocError;
use std::marker::Brand;
use turn_scopes::access::Access;
use turn_scopes::seat::Seat;

/// An entry of an item of no session is appended. Its scope alone lets that entry be appended too. If the log is kept from where the node
/// is, and is so once the item is told, it isn't trimmed above that, and is kept still.
pub fn tell<A: Access, E: Sent, S: Replica, C: Chooser>(
    access: A,
    seat: Seat<S, C>,
    item: Item,
) -> Back<A, Seat<S, C>, Option<Cause>>
    requires run { MayRun A.Law.law }
    requires who { seat.who ≡ A.who access }
    requires seat { SeatOk (record A.Law.law { may = Sends seat.who A.Law.law.may E.counts (A.seen access) }) S.meaning (A.seen access) seat }
    requires can { MayTell (OwnWithin seat.who A.Law.law.may E.counts) item (node_of seat (A.seen access)) }
    ensures who { A.who result.access ≡ A.who access }
    ensures sits { result.part.who ≡ A.who result.access }
    ensures left { IsLeft A.Law.law S.meaning A.beside ⊥ (A.seen access) seat (A.seen result.access) result.part }
    ensures ok { OnOk result.answer (SeatOk (record A.Law.law { may = Sends result.part.who A.Law.law.may E.counts (A.seen result.access) }) S.meaning (A.seen result.access) result.part) }
    ensures kept { StaysKept A.beside A.Law.law.floor seat (A.seen access) item → OnOk result.answer (IsKept A.beside A.Law.law.floor result.part (A.seen result.access)) }
    ensures adds { OnOk result.answer (OwnAdds seat.who (λ e. IsOfSessions e ⊎ (e ≡ packed seat.node.replica.origin (item ∷ []))) (A.seen access) (A.seen result.access)) }
    ensures did { IfOk result.answer (Tells (record A.Law.law { may = OwnWithin seat.who A.Law.law.may E.counts }) (node_of seat (A.seen access)) (node_of result.part (A.seen result.access)) item) }
{
    within::<A, Brand, S, C, Tell>(access, seat, Tell { item }, &mut ())
}

/// An entry of an item of no session is appended, and the log is played as far as it is known, or as it isn't trimmed.
pub fn tell_and_play<A: Access, E: Sent, S: Replica, C: Chooser>(
    access: A,
    seat: Seat<S, C>,
    item: Item,
) -> Back<A, Seat<S, C>, Option<Cause>>
    requires run { MayRun A.Law.law }
    requires who { seat.who ≡ A.who access }
    requires seat { SeatOk (record A.Law.law { may = Sends seat.who A.Law.law.may E.counts (A.seen access) }) S.meaning (A.seen access) seat }
    requires can { MayTell (OwnWithin seat.who A.Law.law.may E.counts) item (node_of seat (A.seen access)) }
    ensures who { A.who result.access ≡ A.who access }
    ensures sits { result.part.who ≡ A.who result.access }
    ensures left { IsLeft A.Law.law S.meaning A.beside ⊥ (A.seen access) seat (A.seen result.access) result.part }
    ensures ok { OnOk result.answer (SeatOk (record A.Law.law { may = Sends result.part.who A.Law.law.may E.counts (A.seen result.access) }) S.meaning (A.seen result.access) result.part) }
    ensures kept { StaysKept A.beside A.Law.law.floor seat (A.seen access) item → OnOk result.answer (IsKept A.beside A.Law.law.floor result.part (A.seen result.access)) }
    ensures adds { OnOk result.answer (OwnAdds seat.who (λ e. IsOfSessions e ⊎ (e ≡ packed seat.node.replica.origin (item ∷ []))) (A.seen access) (A.seen result.access)) }
    ensures did { IfOk result.answer (TellsAndPlays (record A.Law.law { may = OwnWithin seat.who A.Law.law.may E.counts }) (node_of seat (A.seen access)) (node_of result.part (A.seen result.access)) item) }
{
    let Back {
        part: seat,
        access,
        answer,
    } = tell::<A, E, S, C>(access, seat, item);
    let failed = or_back!(seat, access, answer);
    if let Some(cause) = failed {
        return Back {
            part: seat,
            access,
            answer: Ok(Some(cause)),
        };
    }
    in_turn::<A, E, S, C, Play>(access, seat, Play, &mut ())
}

/// What a line came to by what its last step did: this, where nothing failed.
pub fn came_to(
    told: Result<Option<Cause>, AllocError>,
    looked: Looked,
) -> Result<Looked, AllocError>
    ensures { result ≡ comes_to told looked }
{
    match told? {
        None => Ok(looked),
        Some(cause) => Ok(Looked::Failed(cause)),
    }
}
