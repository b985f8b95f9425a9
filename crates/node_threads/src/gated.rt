//! A gate at a node's access.
ghost use Rattle.std.specs.Prelude.{◌≡◌};

use gate_points::{Gate, Point};
use legal_journal::events::{FabricAnswer, FabricCall};
use loglet_api::call::{Answer, Op};
use turn_scopes::access::Access;

/// An access whose user passes a gate before it begins to append an entry, and once the entry has its place. What the gate does is none
/// of its events, and it may take its time: others take their turns meanwhile.
pub struct Gated<'g, A: Access, G: Gate> {
    pub access: A,
    pub gate: &'g G,
}

/// Passes the gate where the call begins an append.
fn pass_before<G: Gate>(gate: &G, user: u32, call: &FabricCall) {
    match call {
        FabricCall::Begin(_, Op::Append(_)) => gate.pass(user, Point::Appending),
        _ => {}
    }
}

/// Passes the gate where the answer is that of an append that has its place.
fn pass_behind<G: Gate>(gate: &G, user: u32, answer: &FabricAnswer) {
    match answer {
        FabricAnswer::Done(Answer::Placed(_)) => gate.pass(user, Point::Placed),
        _ => {}
    }
}

impl<'g, A: Access, G: Gate> Access for Gated<'g, A, G> {
    type Law = A::Law;

    ghost beside = { A.beside };

    ghost apart = { A.apart };

    ghost who = { λ g. A.who g.access };

    ghost seen = { λ g. A.seen g.access };

    fn user(&self) -> u32 {
        self.access.user()
    }

    fn take(&mut self, call: FabricCall) -> FabricAnswer {
        let user = self.access.user();
        pass_before(self.gate, user, &call);
        let answer = self.access.take(call);
        pass_behind(self.gate, user, &answer);
        answer
    }
}
