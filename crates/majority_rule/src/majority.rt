//! More than half of a set.
ghost use Rattle.std.specs.Prelude.{◌≡◌, ℕ, ◌^◌, ◌<◌, List, Bool, false, IsTrue, length, get_or};
ghost use Rattle.majority_rule.specs.Majority.{majority as majority_of, is_majority, tally_of, votes_below};

/// The least number of members that is more than half of `n`.
pub fn majority(n: u32) -> u32
    ensures { result ≡ majority_of n }
{
    n / 2 + 1
}

/// How many votes are cast. It looks at each once.
pub fn tally(votes: &[bool]) -> u32
    requires { length votes.now < 2 ^ 32 }
    ensures { result ≡ tally_of votes.now }
{
    votes.iter().filter(|vote| **vote).count() as u32
}

/// Two majorities of one set share a member.
pub fn majorities_share_a_member()
    ensures { (n : ℕ) (first second : ℕ → Bool) → IsTrue (is_majority n first) → IsTrue (is_majority n second)
        → (i : ℕ) × (i < n) × IsTrue (first i) × IsTrue (second i) }
{}

/// A tally of votes, which are cast by the members in order, counts them.
pub fn tally_counts_members()
    ensures { (votes : List Bool) → tally_of votes ≡ votes_below (length votes) (λ i. get_or votes i false) }
{}
