//! A node between two times at which it has its log, so that one log goes from node to node.
ghost use Rattle.std.specs.Prelude.{◌≡◌, ◌≤◌, ◌++◌, ℕ, List};
ghost use Rattle.legal_journal.specs.declared.events.Event.{Event};
ghost use Rattle.legal_journal.specs.Journal.{IsLegal};
ghost use Rattle.replica_api.specs.Replica.{armed_by};
ghost use Rattle.base_engine.specs.Node.{NodeView, NodeOk, RestedView, awake};

use crate::node::Node;
use crate::outbox::Outbox;
use crate::shared_log::SharedLog;
use replica_api::replica::Replica;
use std::alloc::Global;
use std::marker::Model;

/// A node that gave its log out: its replica, and what it has sent down and not settled.
#[derive(Drop)]
pub struct Rested<R: Replica> {
    pub(crate) alloc: Global,
    pub(crate) replica: R,
    pub(crate) outbox: Outbox,
    pub(crate) nodes: u8,
}

impl<R: Replica> Model for Rested<R> {
    ghost use Rattle.base_engine.specs.Settling.{view_of};
    ghost use Rattle.base_engine.specs.Node.{RestedView};
    ghost use Rattle.std.specs.Coded.{codes};
    ghost use Rattle.base_engine.specs.Codes.{space_code};

    ghost Value = { RestedView };

    ghost coded = { Prim.hlevel (codes, space_code) };

    ghost view = { λ r. record { nodes = r.nodes; replica = R.shows r.replica; outbox = view_of r.outbox } };
}

impl<R: Replica> Rested<R> {
    /// The node as it was, with this log, of which all that it has holds (`what_a_node_has_stays`). Makes no event, and
    /// takes no memory.
    pub fn wake<L: SharedLog>(self, log: L) -> Node<L, R>
        requires ok { NodeOk L.Law.law L.holds R.meaning (awake self (L.who log) (L.seen log) (L.reaches log)) }
        ensures { result ≡ awake self (L.who log) (L.seen log) (L.reaches log) }
    {
        let Rested {
            alloc,
            replica,
            outbox,
            nodes,
        } = self;
        Node {
            alloc,
            log,
            replica,
            outbox,
            nodes,
        }
    }

    /// Arms the disk, as `Node::stop` does. Makes no event, and takes no memory.
    pub fn arm(&mut self, after: u64)
        ensures { self.new ≡ record self.old { replica = armed_by self.old.replica after } }
    {
        self.replica.stop(after);
    }
}

/// What a node has of its log at a moment it has at every later one.
pub fn what_a_node_has_stays<L: SharedLog, R: Replica>()
    ensures { (r : RestedView) (who known known' : ℕ) (early late : List Event) → IsLegal L.Law.law (early ++ late) → known ≤ known'
        → NodeOk L.Law.law L.holds R.meaning (awake r who early known)
        → NodeOk L.Law.law L.holds R.meaning (awake r who (early ++ late) known') }
{}
