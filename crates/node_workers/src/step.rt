//! What a node does once, as long as it has the fabric.
ghost use Rattle.std.specs.Prelude.{◌≤◌, ℕ, List, length, IfOk};
ghost use Rattle.delos_types.specs.declared.entry.Entry.{Entry};
ghost use Rattle.legal_journal.specs.Law.{Law};
ghost use Rattle.turn_scopes.specs.Beside.{IsNarrower};
ghost use Rattle.legal_journal.specs.Journal.{IsLegal};
ghost use Rattle.virtual_log.specs.Holding.{Holds};
ghost use Rattle.base_engine.specs.Following.{Follows};
ghost use Rattle.base_engine.specs.Node.{NodeView, Keeps};
ghost use Rattle.node_lines.specs.Desks.{KeepsFrom};

use base_engine::node::Node;
use fate_words::chooser::Chooser;
use legal_journal::rules::Rules;
use legal_journal::turns::Turns;
use replica_api::replica::Replica;
use std::alloc::AllocError;
use virtual_log::log::VirtualLog;

/// One thing that a node does, by the rules of whoever lets it.
pub trait NodeStep {
    /// What it comes to.
    type Answer;

    /// What it changes beside the node: a desk, all desks, or nothing.
    type On;

    /// Whether it rests on it that nothing is trimmed where the node is, or above.
    ghost stays: { Type 0 } = { ⊥ };

    /// When it may be done: by which law, the step, what it is on, and the node.
    ghost can: { Law → Self → Self.On → NodeView → Type 0 };

    /// Who begins a Seal by it.
    ghost seals: { ℕ → Type 0 } = { λ who. ⊥ };

    /// What it did: by which law, what it was on before and after, the node before and after, and the answer.
    ghost did: { Law → Self → Self.On → Self.On → NodeView → NodeView → Self.Answer → Type 0 };

    /// What was done by a narrower law was done by a wider one.
    ghost wider: { (scope law : Law) → IsNarrower scope law
        → (step : Self) (was is : Self.On) (old new : NodeView) (x : Self.Answer) → did scope step was is old new x → did law step was is old new x };

    /// Whoever the node was it is, and it goes no further back.
    ghost keeps: { (law : Law)
        (step : Self) (was is : Self.On) (old new : NodeView) (x : Self.Answer) → did law step was is old new x → Keeps law old new };

    fn run<T: Turns, C: Chooser, R: Replica>(
        self,
        on: &mut Self::On,
        node: &mut Node<VirtualLog<T, C>, R>,
    ) -> Result<Self::Answer, AllocError>
        requires floor { (log : List Entry) (n : ℕ) → T.Law.law.floor log n → n ≤ length log }
        requires legal { IsLegal T.Law.law node.old.seen }
        requires follows { Follows Holds R.meaning node.old.seen node.old.replica }
        requires stays { stays → KeepsFrom T.Law.law node.old.replica.cursor }
        requires right { seals node.old.who → T.Law.seals node.old.who }
        requires can { can T.Law.law self on.old node.old }
        ensures did { IfOk result (did T.Law.law self on.old on.new node.old node.new) };
}
