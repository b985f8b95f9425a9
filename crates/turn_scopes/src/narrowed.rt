//! A user who keeps to a scope for a while.
ghost use Rattle.std.specs.Prelude.{◌≡◌};
ghost use Rattle.legal_journal.specs.Journal.{IsLegal};
ghost use Rattle.turn_scopes.specs.Beside.{Since, SealsByRight, Narrows};

use crate::access::Access;
use crate::terms::{Scope, Within};
use legal_journal::events::{FabricAnswer, FabricCall};
use legal_journal::rules::Rules;
use legal_journal::turns::Turns;
use std::marker::{Model, PhantomData};

/// An access whose user keeps to a scope. Since it began each event is its own or of one of those beside, each entry that
/// was appended is one that the scope has, the log was trimmed only where the scope lets it, and the user began a Seal only
/// if the scope lets it.
pub struct Narrowed<A: Access, Q: Scope> {
    access: A,
    scope: PhantomData<Q>,
}

impl<A: Access, Q: Scope> Model for Narrowed<A, Q> {
    ghost use Rattle.turn_scopes.specs.Beside.{NarrowView, IsNarrow};

    ghost Value = { NarrowView };

    ghost view = { λ n. record { who = A.who n.access; seen = A.seen n.access } };

    ghost invariant = { λ n. IsNarrow Q.law A.Law.law A.beside Q.seals Q.who Q.since (A.who n.access) (A.seen n.access) };
}

impl<A: Access, Q: Scope> Narrowed<A, Q> {
    /// Begins the scope. Makes no event, and takes no memory.
    pub fn new(access: A) -> Self
        requires narrows { Narrows Q.law A.Law.law (A.beside (A.who access)) }
        requires legal { IsLegal Q.law (A.seen access) }
        requires who { Q.who ≡ A.who access }
        requires since { Q.since ≡ A.seen access }
        ensures { result ≡ record { who = A.who access; seen = A.seen access } }
    {
        Narrowed {
            access,
            scope: PhantomData,
        }
    }

    /// Ends the scope. Makes no event, and takes no memory.
    pub fn into_access(self) -> A
        ensures who { A.who result ≡ self.who }
        ensures whose { self.who ≡ Q.who }
        ensures seen { A.seen result ≡ self.seen }
        ensures legal { IsLegal Q.law self.seen }

        // Each event since the scope began is this user's, or of one of those beside.
        ensures since { Since self.who (A.beside self.who) Q.since self.seen }

        // Among its own a Seal was begun only if the scope lets it seal.
        ensures right { SealsByRight (Q.seals self.who) self.who Q.since self.seen }
    {
        let Narrowed { access, scope: _ } = self;
        access
    }
}

impl<A: Access, Q: Scope> Turns for Narrowed<A, Q> {
    type Law = Within<A::Law, Q>;

    ghost who = { λ n. n.who };

    ghost seen = { λ n. n.seen };

    fn turn(&mut self, call: FabricCall) -> FabricAnswer {
        self.access.take(call)
    }
}
