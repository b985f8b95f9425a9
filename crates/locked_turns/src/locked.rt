//! The turns of one part of the lock.
ghost use Rattle.std.specs.Prelude.{◌≡◌, ◌≢◌};
ghost use Rattle.legal_journal.specs.declared.events.Event.{Event};
ghost use Rattle.pass_lock.specs.Pass.{one_part, first_seen};

use crate::desk::Desk;
use crate::room::Room;
use legal_journal::events::{FabricAnswer, FabricCall};
use legal_journal::rules::Rules;
use legal_journal::turns::Turns;
use loglet_api::loglet::Loglet;
use pass_lock::{Pass, Shared};
use register_api::Register;
use std::marker::{Model, PhantomData};
use std::sync::Wait;
use turn_scopes::access::Access;

/// The right to make the events that one part of the lock signs, by whom they are. Contracts see that number, and the journal as far as
/// it was seen.
///
/// A turn waits for the lock, and may wait forever where another never leaves it.
pub struct Locked<'a, L: Loglet, R: Register, P: Rules, B: Room, W: Wait> {
    rt: &'a W,
    shared: &'a Shared<Desk<L, R, P>>,
    pass: Pass<Desk<L, R, P>>,
    who: u32,
    room: PhantomData<B>,
}

impl<'a, L: Loglet, R: Register, P: Rules, B: Room, W: Wait> Model for Locked<'a, L, R, P, B, W> {
    ghost use Rattle.std.specs.Prelude.{◌≡◌};
    ghost use Rattle.pass_lock.specs.Pass.{one_part, first_seen};
    ghost use Rattle.locked_turns.specs.Locked.{LockedView};

    ghost Value = { LockedView };

    ghost view = { λ l. record { who = l.who; seen = first_seen l.pass.parts } };

    ghost invariant = { λ l. (l.shared.now ≡ B.lock) × (l.pass ≡ one_part B.lock l.who (first_seen l.pass.parts) l.pass.made) };
}

impl<'a, L: Loglet, R: Register, P: Rules, B: Room, W: Wait> Locked<'a, L, R, P, B, W> {
    /// Turns for a pass that has the part `who` alone. Makes no event, and takes no memory.
    pub fn new(
        rt: &'a W,
        shared: &'a Shared<Desk<L, R, P>>,
        pass: Pass<Desk<L, R, P>>,
        who: u32,
    ) -> Locked<'a, L, R, P, B, W>
        requires room { shared.now ≡ B.lock }
        requires pass { pass ≡ one_part B.lock who (first_seen pass.parts) pass.made }
        ensures { result ≡ record { who = who; seen = first_seen pass.parts } }
    {
        Locked {
            rt,
            shared,
            pass,
            who,
            room: PhantomData,
        }
    }

    /// The pass, with all that was seen. Makes no event, and takes no memory.
    pub fn into_pass(self) -> Pass<Desk<L, R, P>>
        ensures { result ≡ one_part B.lock self.entry.who self.entry.seen result.made }
    {
        let Locked {
            rt: _,
            shared: _,
            pass,
            who: _,
            room: _,
        } = self;
        pass
    }
}

impl<'a, L: Loglet, R: Register, P: Rules, B: Room, W: Wait> Access for Locked<'a, L, R, P, B, W> {
    type Law = P;

    ghost beside = { λ who user. user ≢ who };

    ghost apart = { λ who user h. h };

    ghost who = { λ l. l.who };

    ghost seen = { λ l. l.seen };

    fn user(&self) -> u32 {
        self.who
    }

    fn take(&mut self, call: FabricCall) -> FabricAnswer {
        let mut desk = self.shared.enter(self.rt, &mut self.pass);
        // The journal so far is legal.
        let _legal = desk.fabric.journal();
        let answer = desk.fabric.apply(self.who, call);
        self.shared.leave(&mut self.pass, desk);
        answer
    }
}

impl<'a, L: Loglet, R: Register, P: Rules, B: Room, W: Wait> Turns for Locked<'a, L, R, P, B, W> {
    type Law = P;

    ghost who = { λ l. l.who };

    ghost seen = { λ l. l.seen };

    fn turn(&mut self, call: FabricCall) -> FabricAnswer {
        self.take(call)
    }
}
