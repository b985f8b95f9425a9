// Parts move between seats, and one seat with all of them ends the table.
ghost use Rattle.std.specs.Prelude.{◌≡◌, ◌<◌, length, [], ◌∷◌};
ghost use Rattle.pass_lock.specs.Journal.{IsKnown, Signed, InTurns};
ghost use Rattle.pass_lock.specs.Pass.{all_parts};
ghost use Rattle.pass_lock.specs.Steps.{IsLock, IsSameSeat, IsIdle, remaining, moving, joined};

use crate::chronicled::Chronicled;
use crate::rule::{Both, Cut, Moving, Turnstile};
use crate::turns::{Place, Top};
use crate::view::View;
use atomic_table::Table;
use std::alloc::Global;

pub(crate) type Owned<S> = Table<
    Option<S>,
    View<<S as Chronicled>::Entry>,
    u64,
    Turnstile<S>,
    Global,
>;

// Cuts off a seat with the first parts.
pub(crate) fn cut<S: Chronicled, N: Moving>(top: &Top<S>, place: &mut Place<S>) -> Place<S>
    requires table { IsLock top.now.table_id top.now.key }
    requires seat { place.old.table_id ≡ top.now.table_id }
    requires idle { IsIdle place.old.me }
    requires enough { N.count < length place.old.me.0.parts }
    ensures same { IsSameSeat place.old place.new }
    ensures table { result.table_id ≡ place.old.table_id }
    ensures kept { place.new.me ≡ (remaining N.count place.old.me.0, []) }
    ensures moved { result.me ≡ (moving N.count place.old.me.0, []) }
{
    top.split_seat::<Cut<N>>(place)
}

// The seat takes in the parts of the other.
pub(crate) fn merge<S: Chronicled>(top: &Top<S>, place: &mut Place<S>, other: Place<S>)
    requires table { IsLock top.now.table_id top.now.key }
    requires seat { place.old.table_id ≡ top.now.table_id }
    requires other_seat { other.table_id ≡ top.now.table_id }
    requires idle { IsIdle place.old.me }
    requires other_idle { IsIdle other.me }
    ensures same { IsSameSeat place.old place.new }
    ensures view { place.new.me ≡ (joined place.old.me.0 other.me.0, []) }
{
    top.join_seat::<Both>(place, other);
}

// Ends the table with the seat that has all parts: no other pass is in a turn, so the value is at home.
pub(crate) fn finish<S: Chronicled>(table: Owned<S>, place: Place<S>) -> S
    requires table { IsLock table.shared.table_id table.shared.key }
    requires seat { place.table_id ≡ table.shared.table_id }
    requires idle { IsIdle place.me }
    requires all { length place.me.0.parts ≡ all_parts }
    ensures seen { IsKnown S.signer (S.journal result) place.me.0.parts }
    ensures signed { Signed S.signer place.me.0.parts (S.journal result) }
    ensures turns { InTurns (length place.me.0.made) (S.journal result) place.me.0.made }
{
    let mut closed = table.close_with(place);
    let value = closed.take(0).unwrap();
    closed.free();
    value
}
