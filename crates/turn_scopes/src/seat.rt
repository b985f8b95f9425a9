//! A node between two times at which it has an access.
ghost use Rattle.std.specs.Prelude.{◌≡◌};
ghost use Rattle.replica_api.specs.Replica.{armed_by};
ghost use Rattle.turn_scopes.specs.Seats.{SeatView, SeatOk, node_of};
ghost use Rattle.turn_scopes.specs.Beside.{Since, SealsByRight, Narrows};

use crate::access::Access;
use crate::narrowed::Narrowed;
use crate::terms::Scope;
use base_engine::node::Node;
use base_engine::rest::Rested as RestedNode;
use fate_words::chooser::Chooser;
use replica_api::replica::Replica;
use std::marker::Model;
use virtual_log::log::VirtualLog;
use virtual_log::rest::Rested as RestedLog;

/// A node over a virtual log, while it has no access.
pub struct Seat<S: Replica, C: Chooser> {
    log: RestedLog<C>,
    node: RestedNode<S>,
    who: u32,
}

impl<S: Replica, C: Chooser> Model for Seat<S, C> {
    ghost use Rattle.std.specs.Coded.{codes};
    ghost use Rattle.base_engine.specs.Codes.{space_code};
    ghost use Rattle.turn_scopes.specs.Seats.{SeatView};

    ghost Value = { SeatView };

    ghost coded = { Prim.hlevel (codes, space_code) };

    ghost view = { λ s. record { who = s.who; log = s.log; node = s.node } };
}

/// A node that has an access, within a scope.
pub type Seated<A, Q, S, C> = Node<VirtualLog<Narrowed<A, Q>, C>, S>;

impl<S: Replica, C: Chooser> Seat<S, C> {
    /// A seat of a node that gave its log out, and of a log that gave its turns out. So a node has one before there is a fabric, too.
    pub fn new(who: u32, log: RestedLog<C>, node: RestedNode<S>) -> Self
        ensures { result ≡ record { who = who; log = log; node = node } }
    {
        Seat { log, node, who }
    }

    /// By whom the node's events are.
    pub fn who(&self) -> u32
        ensures { result ≡ self.now.who }
    {
        self.who
    }

    /// Arms the disk of the node's store, where that is up: its write number `after` from now on stops inside itself, as in a crash; 0 takes
    /// that back. Makes no event, and takes no memory.
    pub fn arm(&mut self, after: u64)
        ensures { self.new ≡ record self.old { node = record self.old.node { replica = armed_by self.old.node.replica after } } }
    {
        self.node.arm(after);
    }

    /// Takes the access of its user, within a scope that begins here. Makes no event, and takes no memory.
    pub fn wake<A: Access, Q: Scope>(self, access: A) -> Seated<A, Q, S, C>
        requires who { self.who ≡ A.who access }
        requires narrows { Narrows Q.law A.Law.law (A.beside (A.who access)) }
        requires ok { SeatOk Q.law S.meaning (A.seen access) self }
        requires whose { Q.who ≡ A.who access }
        requires since { Q.since ≡ A.seen access }
        ensures { result ≡ node_of self (A.seen access) }
    {
        let Seat { log, node, who: _ } = self;
        node.wake(log.wake(Narrowed::new(access)))
    }
}

/// Gives the access back. Makes no event, and takes no memory.
pub fn rest<A: Access, Q: Scope, S: Replica, C: Chooser>(
    node: Seated<A, Q, S, C>,
) -> (Seat<S, C>, A)
    ensures node { node_of result.0 (A.seen result.1) ≡ node }
    ensures who { A.who result.1 ≡ result.0.who }
    ensures whose { result.0.who ≡ Q.who }
    ensures ok { SeatOk Q.law S.meaning (A.seen result.1) result.0 }

    // Each event within the scope is the node's, or of one of those beside.
    ensures since { Since result.0.who (A.beside result.0.who) Q.since (A.seen result.1) }

    // Among the node's a Seal was begun only if the scope lets it seal.
    ensures right { SealsByRight (Q.seals result.0.who) result.0.who Q.since (A.seen result.1) }
{
    let (node, log) = node.rest();
    let (log, narrowed) = log.rest();
    let access = narrowed.into_access();
    let who = access.user();
    (Seat { log, node, who }, access)
}
