//! What has old messages come again while the nodes work.
ghost use Rattle.std.specs.Prelude.{◌≡◌, ◌<◌, length};
ghost use Rattle.node_course.specs.FaultLines.{strays_from};
ghost use Rattle.node_threads.specs.Stirring.{Stirred};

use crate::outset::is_made;
use legal_journal::events::FabricCall;
use turn_scopes::access::Access;

/// The access of number 0, which is no node, and what it has to do with it: so many turns, each of which has an old message of a cell come again.
pub struct Stirrer<A: Access> {
    pub access: A,
    /// How many cells the shelf has.
    pub cells: u32,
    pub turns: u64,
    /// Whether memory sufficed so far.
    pub sufficed: bool,
}

/// Makes so many turns, beside others: turn i, from 0, has an old message of cell i come again, counted round, by word i. Whether memory sufficed; without
/// it the turns end.
fn stir<A: Access>(access: &mut A, cells: u32, turns: u64) -> bool
    requires who { A.who access.old ≡ 0 }
    requires cells { (0 < cells) × (cells ≡ length A.Law.law.shelf) }
    ensures who { A.who access.new ≡ 0 }
    ensures stirred { Stirred (strays_from cells 0 turns) (A.seen access.old) (A.seen access.new) result }
{
    for i in 0..turns {
        let cell = (i % cells as u64) as u32;
        let answer = access.take(FabricCall::Stray(cell, i));
        if !is_made(&answer) {
            return false;
        }
    }
    true
}

impl<A: Access> Stirrer<A> {
    /// Makes its turns.
    pub fn run(&mut self)
        requires who { A.who self.old.access ≡ 0 }
        requires cells { (0 < self.old.cells) × (self.old.cells ≡ length A.Law.law.shelf) }
        ensures who { A.who self.new.access ≡ 0 }
        ensures stirred { Stirred (strays_from self.old.cells 0 self.old.turns) (A.seen self.old.access) (A.seen self.new.access) self.new.sufficed }
    {
        self.sufficed = stir(&mut self.access, self.cells, self.turns);
    }
}
