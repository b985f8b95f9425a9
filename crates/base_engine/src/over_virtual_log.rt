//! The virtual log as the log that nodes share, over whatever turns.
ghost use Rattle.std.specs.Prelude.{◌≤◌, ℕ, List, length};
ghost use Rattle.delos_types.specs.declared.entry.Entry.{Entry};
ghost use Rattle.virtual_log.specs.Holding.{Holds};
ghost use Rattle.base_engine.specs.Holding.{held_stays};
ghost use Rattle.base_engine.specs.Trimming.{ShowsAll};

use crate::shared_log::SharedLog;
use delos_types::entry::Entry;
use fate_words::chooser::Chooser;
use legal_journal::rules::Rules;
use legal_journal::turns::Turns;
use virtual_log::calls::Next;
use virtual_log::extend::Extension;
use virtual_log::fault::Fault;
use virtual_log::log::VirtualLog;

impl<T: Turns, C: Chooser> SharedLog for VirtualLog<T, C> {
    type Law = T::Law;

    ghost who = { λ l. l.who };

    ghost seen = { λ l. l.seen };

    ghost reaches = { λ l. l.known };

    ghost holds = { Holds };

    fn known(&self) -> u64 {
        VirtualLog::known(self)
    }

    fn append(&mut self, entry: &Entry) -> Result<u64, Fault> {
        VirtualLog::append(self, entry)
    }

    fn check_tail(&mut self) -> Result<u64, Fault> {
        VirtualLog::check_tail(self)
    }

    fn read_next(&mut self, least: u64, most: u64) -> Result<Next, Fault> {
        VirtualLog::read_next(self, least, most)
    }

    fn extend(&mut self) -> Result<Extension, Fault> {
        VirtualLog::extend(self)
    }

    fn prefix_trim(&mut self, n: u64) -> Result<u64, Fault> {
        VirtualLog::prefix_trim(self, n)
    }

    ghost stays = { held_stays T.Law.law };
}

/// Where the rules allow no trim past the entries that they are asked of, a virtual log shows what it holds, or did before
/// it was trimmed. Does nothing: its contract is the law.
pub fn what_is_held_is_shown<P: Rules>()
    ensures { ((log : List Entry) (n : ℕ) → P.law.floor log n → n ≤ length log) → ShowsAll P.law Holds }
{}
