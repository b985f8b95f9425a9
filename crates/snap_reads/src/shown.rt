//! What readers take.
ghost use Rattle.std.specs.Prelude.{◌≡◌, ◌-◌, ◌≤◌, ◌↔◌, IsTrue, true, length, map};
ghost use Rattle.std.specs.Arc.{arc_value};

use crate::change::Published;
use crate::tables::Tables;
use std::collections::VecDeque;
use std::sync::Arc;

/// The tables, the position at which something was published last, how often something was, and the last of what was:
/// as much as was published since the readers that are out were told.
#[derive(Drop)]
pub struct Shown {
    pub tables: Tables,
    pub pos: u64,
    pub count: u64,
    pub carried: VecDeque<Arc<Published>>,
}

/// What both copies have in common. No value of it is made: a clause reads an array as a list, of any length.
pub struct Says {
    pub tables: Tables,
    pub pos: u64,
    pub count: u64,
    pub carried: [Published; 0],
}

/// A step of what is published at one position. Each is made whole or not at all.
#[derive(Drop)]
pub enum Op {
    /// Nothing of what was stays, where it is the whole.
    Begin(Arc<Published>),
    /// The change at this index.
    Change { of: Arc<Published>, at: usize },
    /// All of it was made. Of what was published no reader that is out needs the first so many.
    End { of: Arc<Published>, needless: u64 },
}

/// Whether all is carried that was published since so many were told of.
pub(crate) fn carries_since(shown: &Shown, told: u64) -> bool
    ensures { IsTrue result ↔ (shown.now.count - told ≤ length (map arc_value shown.now.carried.items)) }
{
    shown.count.saturating_sub(told) <= shown.carried.len() as u64
}

/// Whether both carry the same. It takes time that grows with what is carried.
pub(crate) fn carry_same(one: &Shown, two: &Shown) -> bool
    ensures { result ≡ true → map arc_value one.now.carried.items ≡ map arc_value two.now.carried.items }
{
    if one.carried.len() != two.carried.len() {
        return false;
    }
    for at in 0..one.carried.len() {
        if !one.carried[at].is_same(&two.carried[at]) {
            return false;
        }
    }
    true
}
