//! What holds of the virtual log.
ghost use Rattle.std.specs.Prelude.{◌≡◌, [], ◌∷◌, length, IsTrue};
ghost use Rattle.chain_map.specs.Chain.{first_chain};
ghost use Rattle.loglet_api.specs.View.{LogletView};
ghost use Rattle.fabric_core.specs.Log.{virtual_log, virtual_tail, has_no_gap};

/// The log of a chain's first loglet, of which nothing is trimmed and every entry is answered for,
/// is that loglet's.
pub fn one_loglet_is_the_log()
    ensures log { (v : LogletView) → v.cut ≡ 0 → v.reach ≡ length v.log → virtual_log first_chain (v ∷ []) 0 v.reach ≡ v.log }
    ensures tail { (v : LogletView) → virtual_tail first_chain (v ∷ []) ≡ v.reach }
    ensures gap { (v : LogletView) → v.cut ≡ 0 → v.reach ≡ length v.log → IsTrue (has_no_gap first_chain (v ∷ [])) }
{}
