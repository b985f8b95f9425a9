//! The lock.
ghost use Rattle.std.specs.Prelude.{◌≡◌, ◌<◌, ◌++◌, [], ◌∷◌, length, take, drop, None, Some, IfOk, IfErr, IsSome};
ghost use Rattle.pass_lock.specs.Journal.{IsKnown, Signed, InTurns};
ghost use Rattle.pass_lock.specs.Pass.{whole, all_parts, brought, turn_number, given, added, Grows};

use crate::chronicled::Chronicled;
use crate::parts::Owned;
use crate::pass::Pass;
use crate::rule::Moving;
use crate::{parts, turns};
use atomic_table::{Refused, Table};
use std::alloc::Global;
use std::marker::{Brand, Model};
use std::sync::Wait;
use std::sync::atomic::AtomicU64;

/// How many parts all passes of a lock have together. As many passes can be in a turn, or wait for one, at once.
const PARTS: u64 = 65536;

/// A lock round a value with a journal. Contracts see it as the name that its passes have too.
///
/// Every call asks for passes of this lock, and every call but `leave` for passes outside a turn.
/// It is `Send` and `Sync` where the value is `Send`, and so is `Pass`.
pub struct Shared<S: Chronicled> {
    table: Owned<S>,
    /// How many threads sleep, or are about to.
    asleep: AtomicU64,
}

impl<S: Chronicled> Model for Shared<S> {
    ghost use Rattle.atomic_table.specs.Seated.{TableId};
    ghost use Rattle.pass_lock.specs.Steps.{IsLock};

    ghost Value = { TableId };

    ghost view = { λ s. s.table.shared.table_id };

    ghost invariant = { λ s. IsLock s.table.shared.table_id s.table.shared.key };
}

// The lock's one slot, with the value in it.
fn slot_of<S>(alloc: Global, value: S) -> Result<Vec<Option<S>>, S>
    ensures ok { IfOk result (λ v. v.items ≡ Some value ∷ []) }
    ensures err { IfErr result (λ v. v ≡ value) }
{
    match Vec::with_capacity(alloc, 1) {
        Ok(mut slots) => {
            slots.push_reserved(Some(value));
            Ok(slots)
        }
        Err(_) => Err(value),
    }
}

impl<S: Chronicled + Drop> Shared<S> {
    /// A lock round a value whose journal is empty, and its first pass, with the parts 0 to 65,535.
    ///
    /// # Errors
    ///
    /// Want of memory is the only one. The value comes back.
    pub fn new(alloc: Global, value: S) -> Result<(Shared<S>, Pass<S>), S>
        requires { S.journal value ≡ [] }
        ensures ok { IfOk result (λ r. r.1 ≡ whole r.0) }
        ensures err { IfErr result (λ v. v ≡ value) }
    {
        let slots = slot_of(alloc, value)?;
        match Table::new(alloc, &[0, 0, 0], slots, &PARTS) {
            Ok((table, place)) => {
                let asleep = AtomicU64::new(0);
                Ok((Shared { table, asleep }, Pass { place, ticket: 0 }))
            }
            Err(Refused { mut slots }) => Err(slots.pop().unwrap().unwrap()),
        }
    }

    /// A new pass with the first `parts` parts of this one, which keeps at least one. It has seen what this one has.
    pub fn split(&self, pass: &mut Pass<S>, parts: u64) -> Pass<S>
        requires lock { pass.old.lock ≡ self.now }
        requires outside { pass.old.turn ≡ None }
        requires enough { parts < length pass.old.parts }
        ensures kept { pass.new ≡ record pass.old { parts = drop parts pass.old.parts } }
        ensures moved { result ≡ record pass.old { parts = take parts pass.old.parts; made = [] } }
    {
        self.split_by::<Brand>(pass, parts)
    }

    fn split_by<N: Moving>(&self, pass: &mut Pass<S>, parts: u64) -> Pass<S>
        requires lock { pass.old.lock ≡ self.now }
        requires outside { pass.old.turn ≡ None }
        requires number { parts ≡ N.count }
        requires enough { parts < length pass.old.parts }
        ensures kept { pass.new ≡ record pass.old { parts = drop parts pass.old.parts } }
        ensures moved { result ≡ record pass.old { parts = take parts pass.old.parts; made = [] } }
    {
        let place = parts::cut::<S, N>(&self.table.shared, &mut pass.place);
        Pass { place, ticket: 0 }
    }

    /// The pass has the parts of both, those of the other first, and each part has seen what it had.
    pub fn join(&self, pass: &mut Pass<S>, other: Pass<S>)
        requires lock { pass.old.lock ≡ self.now }
        requires other_lock { other.lock ≡ self.now }
        requires outside { pass.old.turn ≡ None }
        requires other_outside { other.turn ≡ None }
        ensures { pass.new ≡ record pass.old { parts = other.parts ++ pass.old.parts; made = other.made ++ pass.old.made } }
    {
        let Pass { place, ticket: _ } = other;
        parts::merge(&self.table.shared, &mut pass.place, place);
    }

    /// Waits until nobody has a turn, and gives the value. Its journal begins with all that the pass has seen.
    ///
    /// The thread looks a while, and then sleeps. It may wait forever where another pass never leaves, or others always come before it.
    pub fn enter<R: Wait>(&self, rt: &R, pass: &mut Pass<S>) -> S
        requires lock { pass.old.lock ≡ self.now }
        requires outside { pass.old.turn ≡ None }
        requires part { 0 < length pass.old.parts }
        ensures seen { IsKnown S.signer (S.journal result) pass.old.parts }
        ensures signed { length pass.old.parts ≡ all_parts → Signed S.signer pass.old.parts (S.journal result) }
        ensures turns { InTurns (turn_number pass.new.turn) (S.journal result) pass.old.made }
        ensures pass { pass.new ≡ record pass.old { parts = brought (S.journal result) pass.old.parts; turn = Some (turn_number pass.new.turn, S.journal result) } }
    {
        let (value, ticket) = turns::take(rt, &self.table.shared, &self.asleep, &mut pass.place);
        pass.ticket = ticket;
        value
    }

    /// Ends the turn, and puts the value back, whose journal is the one that was given and then a piece that the pass's parts signed.
    /// The pass has seen all of it.
    ///
    /// It wakes one of the threads that sleep.
    pub fn leave(&self, pass: &mut Pass<S>, value: S)
        requires lock { pass.old.lock ≡ self.now }
        requires inside { IsSome pass.old.turn }
        requires grew { Grows S.signer pass.old (S.journal value) }
        ensures { pass.new ≡ record pass.old { parts = brought (S.journal value) pass.old.parts; made = pass.old.made ++ (turn_number pass.old.turn, added (given pass.old.turn) (S.journal value)) ∷ []; turn = None } }
    {
        turns::give(
            &self.table.shared,
            &self.asleep,
            &mut pass.place,
            pass.ticket,
            value,
        );
    }

    /// The value, with the journal of all turns. It asks for a pass with all parts, so every other pass has been joined.
    pub fn close(self, pass: Pass<S>) -> S
        requires lock { pass.lock ≡ self }
        requires outside { pass.turn ≡ None }
        requires all { length pass.parts ≡ all_parts }
        ensures seen { IsKnown S.signer (S.journal result) pass.parts }
        ensures signed { Signed S.signer pass.parts (S.journal result) }
        ensures turns { InTurns (length pass.made) (S.journal result) pass.made }
    {
        let Shared { table, asleep: _ } = self;
        let Pass { place, ticket: _ } = pass;
        parts::finish(table, place)
    }
}
