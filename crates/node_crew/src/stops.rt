//! A node's disk is armed by the stops of a phase, where they stand among the lines.
ghost use Rattle.std.specs.Prelude.{◌≡◌, ◌<◌, ◌≤◌, ℕ, Some, length, slice_get};
ghost use Rattle.script_text.specs.declared.faults.FaultLine.{FaultLine};
ghost use Rattle.node_course.specs.FaultLines.{stops_by};
ghost use Rattle.node_crew.specs.Stops.{armed_all, stops_between};

use crate::faults::PhaseFaults;
use delos_types::numbers::NodeId;
use fate_words::chooser::Chooser;
use replica_api::replica::Replica;
use script_text::faults::{FaultAsk, FaultLine};
use turn_scopes::seat::Seat;

/// Arms the disk of the node's store, if a fault line asks for that.
fn arm_by<S: Replica, C: Chooser>(seat: &mut Seat<S, C>, node: NodeId, asks: FaultAsk)
    ensures { seat.new ≡ armed_all seat.old (stops_by node asks) }
{
    match asks {
        FaultAsk::Stop {
            node: stopped,
            after,
        } => {
            if stopped == node {
                seat.arm(after);
            }
        }
        FaultAsk::Break {
            cell: _,
            server: _,
            after: _,
        } => {}
        FaultAsk::BreakMeta { after: _ } => {}
        FaultAsk::Mend { cell: _, server: _ } => {}
        FaultAsk::MendMeta => {}
        FaultAsk::Stir { turns: _ } => {}
    }
}

/// Arms it by each of the fault lines from `from` up to `to`, in their order.
pub fn arm_between<S: Replica, C: Chooser>(
    seat: &mut Seat<S, C>,
    node: NodeId,
    faults: &[FaultLine],
    from: usize,
    to: usize,
)
    requires range { (from ≤ to) × (to ≤ length faults.now) }
    ensures { seat.new ≡ armed_all seat.old (stops_between node from to faults.now) }
{
    for k in from..to {
        arm_by(seat, node, faults[k].asks);
    }
}

/// The first of the phase's fault lines from `next` on that stands behind line `i`, or where they end.
pub fn first_behind(faults: &PhaseFaults, next: usize, i: usize) -> usize
    requires range { (next ≤ faults.now.to) × (faults.now.to ≤ length faults.now.lines.now) }
    ensures range { (next ≤ result) × (result ≤ faults.now.to) }
    ensures above { (k : ℕ) (f : FaultLine) → slice_get faults.now.lines.now k ≡ Some f → next ≤ k → k < result → f.before ≤ i }
    ensures behind { (f : FaultLine) → result < faults.now.to → slice_get faults.now.lines.now result ≡ Some f → i < f.before }
{
    for k in next..faults.to {
        if faults.lines[k].before > i as u64 {
            return k;
        }
    }
    faults.to
}
