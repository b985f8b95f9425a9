// One turn, on the seat of a pass: draw, look and take; put back, raise and advance, and wake one of those that sleep.
ghost use Rattle.std.specs.Prelude.{◌≡◌, ℕ, ◌%◌, ◌^◌, ◌<◌, ◌++◌, List, [], ◌∷◌, length, None};
ghost use Rattle.pass_lock.specs.Journal.{IsKnown, Signed, InTurns};
ghost use Rattle.pass_lock.specs.Pass.{all_parts, brought, first_seen, added};
ghost use Rattle.pass_lock.specs.Rule.{seeing, outside, waiting, inside};
ghost use Rattle.pass_lock.specs.Steps.{IsLock, IsSameSeat, IsIdle, IsInside};

use crate::chronicled::Chronicled;
use crate::rule::{Advance, Draw, Look, Raise, Turnstile};
use crate::view::View;
use atomic_table::{Seat, Shared};
use std::hint::spin_loop;
use std::sync::Wait;
use std::sync::atomic::AtomicU64;
use std::sync::atomic::Ordering::SeqCst;

pub(crate) type Top<S> = Shared<Option<S>, View<<S as Chronicled>::Entry>, u64, Turnstile<S>>;

pub(crate) type Place<S> = Seat<Option<S>, View<<S as Chronicled>::Entry>>;

/// How often a thread looks whether nobody has a turn before it sleeps: for about as long as a thread takes to fall asleep and be woken.
const LOOKS: u32 = 1000;

// Draws the next turn's ticket once nobody has a turn. `asleep` counts the threads that sleep meanwhile.
fn draw<S: Chronicled, R: Wait>(
    rt: &R,
    top: &Top<S>,
    asleep: &AtomicU64,
    place: &mut Place<S>,
) -> u64
    requires table { IsLock top.now.table_id top.now.key }
    requires seat { place.old.table_id ≡ top.now.table_id }
    requires idle { IsIdle place.old.me }
    requires part { 0 < length place.old.me.0.parts }
    ensures same { IsSameSeat place.old place.new }
    ensures drew { (place.new.me.0 ≡ seeing place.old.me.0.parts place.old.me.0.made waiting place.new.me.0.ticket) × (result ≡ place.new.me.0.ticket % 2 ^ 64) × (place.new.me.1 ≡ place.old.me.1) }
{
    let mut looks = 0;
    for _ in rt.forever() {
        let next = top.peek(1);
        if top.peek(0) == next {
            let drawn = top.compare_exchange::<Draw>(place, 0, next, next.wrapping_add(1));
            if drawn == next {
                return drawn;
            }
        }
        if looks < LOOKS {
            looks += 1;
            spin_loop();
        } else {
            looks = 0;
            // A thread sleeps while the low half of the word is what it saw.
            asleep.fetch_add(1, SeqCst);
            top.park(rt, 1, (next % 4294967296) as u32);
            asleep.fetch_sub(1, SeqCst);
        }
    }
    unreachable!()
}

// Draws a ticket, and takes the value. The number is the ticket's word.
pub(crate) fn take<S: Chronicled, R: Wait>(
    rt: &R,
    top: &Top<S>,
    asleep: &AtomicU64,
    place: &mut Place<S>,
) -> (S, u64)
    requires table { IsLock top.now.table_id top.now.key }
    requires seat { place.old.table_id ≡ top.now.table_id }
    requires idle { IsIdle place.old.me }
    requires part { 0 < length place.old.me.0.parts }
    ensures same { IsSameSeat place.old place.new }
    ensures view { place.new.me.0 ≡ seeing (brought (S.journal result.0) place.old.me.0.parts) place.old.me.0.made inside place.new.me.0.ticket }
    ensures slot { place.new.me.1 ≡ (0, None) ∷ [] }
    ensures number { result.1 ≡ place.new.me.0.ticket % 2 ^ 64 }
    ensures seen { IsKnown S.signer (S.journal result.0) place.old.me.0.parts }
    ensures turns { InTurns place.new.me.0.ticket (S.journal result.0) place.old.me.0.made }
    ensures signed { length place.old.me.0.parts ≡ all_parts → Signed S.signer place.old.me.0.parts (S.journal result.0) }
{
    let ticket = draw(rt, top, asleep, place);
    for _ in rt.forever() {
        let serving = top.load::<Look>(place, 1);
        if serving == ticket {
            let value = top.exchange(place, 0, None).unwrap();
            return (value, ticket);
        }
        // It comes at once: the turn before had ended.
        spin_loop();
    }
    unreachable!()
}

// Puts the value back, whose journal has grown by a piece that the seat's parts signed, and ends the turn.
pub(crate) fn give<S: Chronicled + Drop>(
    top: &Top<S>,
    asleep: &AtomicU64,
    place: &mut Place<S>,
    ticket: u64,
    value: S,
)
    requires table { IsLock top.now.table_id top.now.key }
    requires seat { place.old.table_id ≡ top.now.table_id }
    requires inside { IsInside place.old.me ticket }
    requires grew { (piece : List S.Entry) × (S.journal value ≡ first_seen place.old.me.0.parts ++ piece) × Signed S.signer place.old.me.0.parts piece }
    ensures same { IsSameSeat place.old place.new }
    ensures view { place.new.me.0 ≡ seeing (brought (S.journal value) place.old.me.0.parts) (place.old.me.0.made ++ (place.old.me.0.ticket, added (first_seen place.old.me.0.parts) (S.journal value)) ∷ []) outside place.old.me.0.ticket }
    ensures slot { place.new.me.1 ≡ [] }
{
    drop(top.exchange(place, 0, Some(value)));
    top.store::<Raise>(place, 2, ticket.wrapping_add(1));
    top.fetch_add::<Advance>(place, 1, 1);
    wake_one(top, asleep);
}

// Wakes a thread that sleeps, if there is one: it finds that nobody has a turn, or looks on.
// One that is about to sleep, and isn't counted yet, finds a word that has advanced.
fn wake_one<S: Chronicled>(top: &Top<S>, asleep: &AtomicU64)
    requires { IsLock top.now.table_id top.now.key }
{
    if asleep.load(SeqCst) > 0 {
        top.wake_one(1);
    }
}
