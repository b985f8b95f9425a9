//! Turns for one part.
ghost use Rattle.std.specs.Prelude.{◌≡◌, MatchResult};
ghost use Rattle.pass_lock.specs.Pass.{one_part};
ghost use Rattle.pass_lock_rows.specs.Turns.{seen_by, Waits, Makes, Worked};

use crate::desk::{Desk, Stamp};
use pass_lock::{Pass, Shared};
use std::alloc::AllocError;
use std::marker::Model;
use std::sync::Wait;

/// The right to file the events that one part signs.
pub struct Clerk<'a, T: Stamp, R: Wait> {
    rt: &'a R,
    lock: &'a Shared<Desk<T>>,
    pass: Pass<Desk<T>>,
    who: u64,
}

impl<'a, T: Stamp, R: Wait> Model for Clerk<'a, T, R> {
    ghost use Rattle.std.specs.Prelude.{◌≡◌};
    ghost use Rattle.pass_lock.specs.Pass.{one_part};
    ghost use Rattle.pass_lock_rows.specs.Turns.{Maker, seen_by};

    ghost Value = { Maker };

    ghost view = { λ c. record { lock = c.lock.now; who = c.who; seen = seen_by c.pass.parts } };

    ghost invariant = { λ c. c.pass ≡ one_part c.lock.now c.who (seen_by c.pass.parts) c.pass.made };
}

impl<'a, T: Stamp, R: Wait> Clerk<'a, T, R> {
    /// A clerk with a pass that has the part `who` alone.
    pub fn new(
        rt: &'a R,
        lock: &'a Shared<Desk<T>>,
        pass: Pass<Desk<T>>,
        who: u64,
    ) -> Clerk<'a, T, R>
        requires { pass ≡ one_part lock.now who (seen_by pass.parts) pass.made }
        ensures { result ≡ record { lock = lock.now; who = who; seen = seen_by pass.parts } }
    {
        Clerk {
            rt,
            lock,
            pass,
            who,
        }
    }

    /// Files the event `n` in one turn. Events of others may come before it.
    pub fn turn(&mut self, n: u64) -> Result<(), AllocError>
        ensures { MatchResult result (λ _. Makes self.old n self.new) (λ _. Waits self.old self.new) }
    {
        let mut desk = self.lock.enter(self.rt, &mut self.pass);
        let answer = desk.file(self.who, n);
        self.lock.leave(&mut self.pass, desk);
        answer
    }

    /// Files the events 0, 1, .. below `turns`, each in a turn of its own, or as many as memory allows.
    pub fn work(&mut self, turns: u64)
        ensures { Worked turns self.old self.new }
    {
        for n in 0..turns {
            if self.turn(n).is_err() {
                return;
            }
        }
    }

    /// The pass.
    pub fn into_pass(self) -> Pass<Desk<T>>
        ensures { result ≡ one_part self.entry.lock self.entry.who self.entry.seen result.made }
    {
        let Clerk {
            rt: _,
            lock: _,
            pass,
            who: _,
        } = self;
        pass
    }
}
