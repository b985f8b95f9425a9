//! What the users of the log keep to.

use legal_journal::rules::Rules;

/// Everybody may append anything, over one loglet, which may be trimmed up to the least position of one of two nodes.
#[derive(Drop)]
pub struct TwoNodes;

impl Rules for TwoNodes {
    ghost use Rattle.std.specs.Prelude.{[], ◌∷◌};
    ghost use Rattle.loglet_api.specs.declared.call.Kind.TheVariants.{File};
    ghost use Rattle.worked_nodes.specs.Resting.{two_nodes};

    ghost law = { two_nodes };

    ghost seals = { λ _. Unit {0} };

    ghost kinds = { File ∷ [] };
}
