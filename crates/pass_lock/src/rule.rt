// The rule of the lock's table, and what each kind of step tells the seat that takes it.
//
// Word 0 counts the tickets drawn, word 1 the turns served, and word 2 the turns whose entries are in the history. Each counts modulo 2^64: at most 65,536 tickets are out at once, so no two of them are alike.
// A ticket is drawn where the turn before it has ended, so whoever runs then has the next turn.
// Slot 0 holds the value between turns.
ghost use Rattle.std.specs.Prelude.{ℕ, List};
ghost use Rattle.pass_lock.specs.Rule.{Kept, opened};
ghost use Rattle.pass_lock.specs.Steps.{remaining, moving, joined, spent, tried, looked, raised, advanced};

use crate::chronicled::Chronicled;
use crate::view::View;
use atomic_table::{Join, Play, Split, TableRule};
use std::marker::{Brand, PhantomData};

pub struct Turnstile<S> {
    marker: PhantomData<S>,
}

impl<S: Chronicled> TableRule<Option<S>, View<S::Entry>, u64> for Turnstile<S> {
    ghost holds = { λ count. Kept S.journal S.signer count };

    ghost first = { λ count. opened count };
}

pub(crate) struct Draw;

impl<S, E> Play<Option<S>, View<E>> for Draw {
    ghost then = { tried };
}

pub(crate) struct Look;

impl<S: Chronicled> Play<Option<S>, View<S::Entry>> for Look {
    ghost then = { looked S.journal S.signer };
}

pub(crate) struct Raise;

impl<S: Chronicled> Play<Option<S>, View<S::Entry>> for Raise {
    ghost then = { raised S.journal };
}

pub(crate) struct Advance;

impl<S, E> Play<Option<S>, View<E>> for Advance {
    ghost then = { advanced };
}

/// How many parts move. A split's type can't have an argument, so the number is a ghost member, picked at the call.
pub(crate) trait Moving {
    ghost count: { ℕ };
}

impl Moving for Brand {
    ghost count = { 0 };
}

pub(crate) struct Cut<N> {
    moving: PhantomData<N>,
}

impl<E, N: Moving> Split<View<E>> for Cut<N> {
    ghost left = { remaining N.count };

    ghost right = { moving N.count };
}

pub(crate) struct Both;

impl<E> Join<View<E>> for Both {
    ghost both = { joined };

    ghost spent = { spent };
}
