//! Passes.
use crate::chronicled::Chronicled;
use crate::turns::Place;
use std::marker::Model;

/// The right to take turns at a lock, one after another.
///
/// Contracts see its parts, each with the journal that was seen with that part, and the turns that were made with it.
/// It has no `Drop`: a pass that is no longer needed is joined to another, or the lock can't be closed.
pub struct Pass<S: Chronicled> {
    pub(crate) place: Place<S>,
    pub(crate) ticket: u64,
}

impl<S: Chronicled> Model for Pass<S> {
    ghost use Rattle.pass_lock.specs.Pass.{Known};
    ghost use Rattle.pass_lock.specs.Steps.{Rests, pass_of};

    ghost Value = { Known S.Entry };

    ghost view = { λ p. pass_of p.place };

    ghost invariant = { λ p. Rests p.place.me p.ticket };
}
