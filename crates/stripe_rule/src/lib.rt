//! Positions in stripes: which stripe has a position, how many positions below a length a stripe
//! has, and the length that the stripes' own lengths cover.
//!
//! Of `count` stripes, position p is index p / count of stripe p % count. The definitions stand in
//! `specs/Stripes`.
#![tactic(auto)]

ghost use Rattle.std.specs.Prelude.{◌≡◌, ℕ, suc, ◌+◌, ◌*◌, ◌/◌, ◌%◌, ◌^◌, ◌<◌, ◌≤◌, List, [], ◌∷◌, length};
ghost use Rattle.stripe_rule.specs.Stripes.{covered as covered_by, share as share_of, standing, striped, Covers, AllAtMost};

/// The stripe that has this position.
pub fn stripe_of(position: u64, count: u64) -> u64
    requires { 0 < count }
    ensures { result ≡ position % count }
{
    position % count
}

/// Which entry of its stripe this position is.
pub fn index_of(position: u64, count: u64) -> u64
    requires { 0 < count }
    ensures { result ≡ position / count }
{
    position / count
}

/// How many of the positions below `length` the stripe has.
pub fn share(length: u64, stripe: u64, count: u64) -> u64
    requires stripe { stripe < count }
    requires small { length + count < 2 ^ 64 }
    ensures { result ≡ share_of count stripe length }
{
    (length + (count - 1 - stripe)) / count
}

/// The length up to which the first `entries` of the stripe cover all of its positions.
pub fn covered(entries: u64, stripe: u64, count: u64) -> u64
    requires { covered_by count stripe entries < 2 ^ 64 }
    ensures { result ≡ covered_by count stripe entries }
{
    count * entries + stripe
}

/// The tail of a striped log is the greatest length that its stripes' tails cover, and rises with
/// them. So a length that the stripes had reached stays at most every tail that they were sealed
/// at. Stripes of lengths 3 and 1 have the tail 3.
pub fn tail_is_greatest()
    ensures covers { (tails : List ℕ) → 0 < length tails → Covers tails (striped tails) }
    ensures greatest { (tails : List ℕ) (tail : ℕ) → 0 < length tails → Covers tails tail → tail ≤ striped tails }
    ensures rises { (reaches tails : List ℕ) → 0 < length reaches → AllAtMost reaches tails → striped reaches ≤ striped tails }
    ensures example { striped (3 ∷ 1 ∷ []) ≡ 3 }
{}

/// The stripe's share of a length is the least number of its entries that covers the length; one
/// position more is its next entry where the position is the stripe's, and no entry of it else.
pub fn share_is_least()
    ensures covers { (m j length : ℕ) → j < m → length ≤ covered_by m j (share_of m j length) }
    ensures least { (m j length n : ℕ) → j < m → length ≤ covered_by m j n → share_of m j length ≤ n }
    ensures own { (m length : ℕ) → 0 < m → (share_of m (length % m) length ≡ length / m) × (share_of m (length % m) (suc length) ≡ suc (length / m)) }
    ensures other { (m j length : ℕ) → j < m → (j ≡ length % m → ⊥) → share_of m j (suc length) ≡ share_of m j length }
{}

/// The stripe's share of a length is how many of the positions below the length stand in it.
pub fn share_counts()
    ensures { (m j length : ℕ) → j < m → share_of m j length ≡ standing m j length }
{}
