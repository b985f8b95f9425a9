//! What holds of every chain: one spelling, both ways, and changes that leave a chain.
ghost use Rattle.std.specs.Prelude.{◌≡◌, ◌+◌, ◌<◌, ◌↔◌, ℕ, List, Ok};
ghost use Rattle.delos_types.specs.Numbers.{IsBytes};
ghost use Rattle.delos_types.specs.declared.chain.Chain as chain;
ghost use Rattle.chain_map.specs.Chain.{IsChain, last_id};
ghost use Rattle.chain_map.specs.Format.{SpellsChain};
ghost use Rattle.chain_map.specs.Reading.{chain_read};
ghost use Rattle.chain_map.specs.Step.{extended, dropped_below};

/// Bytes are read as a chain exactly where they are its spelling, and no bytes spell two chains.
pub fn one_chain_spelling()
    ensures reads { (bytes : List ℕ) (c : chain.Chain) → IsBytes bytes → (chain_read bytes ≡ Ok c) ↔ SpellsChain bytes c }
    ensures alike { (bytes : List ℕ) (c d : chain.Chain) → SpellsChain bytes c → SpellsChain bytes d → c ≡ d }
{}

/// A chain whose last loglet is replaced, or whose trim is raised, is a chain.
pub fn changes_leave_a_chain()
    ensures extended { (c : chain.Chain) (t : ℕ) → IsChain c → last_id c + 1 < 64 → IsChain (extended c t) }
    ensures dropped { (c : chain.Chain) (n : ℕ) → IsChain c → c.trim < n → IsChain (dropped_below c n) }
{}
