//! The nodes of a run are taken apart.
ghost use Rattle.std.specs.Prelude.{◌≡◌, ◌≤◌, [], map, length};
ghost use Rattle.std.specs.Vec.{vec_capacity};
ghost use Rattle.turn_scopes.specs.Beside.{Narrows};
ghost use Rattle.turn_scopes.specs.Seats.{SeatOk};
ghost use Rattle.node_crew.specs.Crews.{CrewStands};
ghost use Rattle.crew_making.specs.Apart.{AreAsTold};

use fabric_core::fabric::Parts;
use fate_words::chooser::Chooser;
use loglet_api::loglet::Loglet;
use node_crew::crew::Crew;
use node_workers::worker::Worker;
use register_api::Register;
use replica_api::node::OpenNode;
use replica_api::replica::Replica;
use std::marker::Brand;
use turn_scopes::access::Access;
use turn_scopes::lone::Lone;
use turn_scopes::seat::Seat;
use turn_scopes::terms::{By, Scope, Terms};

/// A node in its parts, and the access, which was lent to it for that.
struct Apart<A: Access, S: Replica, C: Chooser> {
    node: OpenNode<S, C>,
    access: A,
}

/// Takes a node apart, within a scope. What it has sent down and not settled is dropped, as if its messages were lost.
fn part_within<A: Access, Q: Scope, S: Replica, C: Chooser>(
    access: A,
    seat: Seat<S, C>,
) -> Apart<A, S, C>
    requires who { seat.who ≡ A.who access }
    requires narrows { Narrows Q.law A.Law.law (A.beside (A.who access)) }
    requires seat { SeatOk Q.law S.meaning (A.seen access) seat }
    requires whose { Q.who ≡ A.who access }
    requires since { Q.since ≡ A.seen access }
    ensures replica { S.shows result.node.replica ≡ seat.node.replica }
    ensures seen { A.seen result.access ≡ A.seen access }
{
    let node = seat.wake::<A, Q>(access);
    let (log, replica) = node.into_parts();
    let parts = log.into_parts();
    let access = parts.turns.into_access();
    Apart {
        node: OpenNode {
            replica,
            chooser: parts.chooser,
        },
        access,
    }
}

/// Takes the nodes apart, in their order, and the fabric. Takes no memory: there is room for them.
pub fn part_crew<L: Loglet, R: Register, K: Terms, S: Replica, C: Chooser>(
    crew: Crew<L, R, K, S, C>,
    nodes: &mut Vec<OpenNode<S, C>>,
) -> Parts<L, R>
    requires stands { CrewStands K.law S.meaning crew.fabric.journal (λ w. w.seat) crew.workers.items }
    requires none { nodes.old.items ≡ [] }
    requires room { length crew.workers.items ≤ vec_capacity nodes.old }
    ensures told { AreAsTold K.law crew.fabric.journal (map L.view result.cells.items) (R.view result.register) }
    ensures kinds { map (λ v. v.kind) (map L.view result.cells.items) ≡ K.kinds }
    ensures nodes { map (λ n. S.shows n.replica) nodes.new.items ≡ map (λ w. w.seat.node.replica) crew.workers.items }
{
    let Crew {
        fabric,
        workers,
        looks: _,
    } = crew;
    let (mut fabric, mut workers) = (fabric, workers);
    while !workers.is_empty() {
        let Worker { seat, desks: _ } = workers.remove(0);
        let lone = Lone {
            who: seat.who(),
            fabric,
        };
        let Apart { node, access } = part_within::<Lone<L, R, By<K>>, Brand, S, C>(lone, seat);
        fabric = access.fabric;
        nodes.push_reserved(node);
    }
    workers.destroy_empty();
    // The loglets and the register are as their journal tells.
    let _told = fabric.journal();
    fabric.into_parts()
}
