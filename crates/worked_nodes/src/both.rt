//! Two appends that are underway side by side.
ghost use Rattle.delos_types.specs.Spelling.{IsSpellable};
ghost use Rattle.delos_types.specs.declared.entry.Entry.{Entry};
ghost use Rattle.legal_journal.specs.declared.events.Event.{Event};
ghost use Rattle.std.specs.Prelude.{◌≡◌, ℕ, List, IfOk, OnOk};
ghost use Rattle.virtual_log.specs.Underway.{IsGoing, AreApart};
ghost use Rattle.virtual_log.specs.declared.underway.Going.{Going};

use crate::stuck::Stuck;
use delos_types::entry::Entry;
use fate_words::chooser::Calm;
use legal_journal::rules::Rules;
use legal_journal::turns::Turns;
use virtual_log::log::VirtualLog;
use virtual_log::underway::Going;

/// No append of a case takes more turns.
const MOST_TURNS: u32 = 100;

/// Begins two appends of this entry, carries the second one to its position, and then the first one.
pub(crate) fn append_both<T: Turns>(
    log: &mut VirtualLog<T, Calm>,
    entry: &Entry,
    out: &mut String,
) -> Result<(), Stuck>
    requires may { (who : ℕ) (e : Entry) → T.Law.law.may who e }
    requires spelled { IsSpellable entry.now }
{
    let mut first = begin(log, entry)?;
    let mut second = begin(log, entry)?;
    let behind = carry(log, &mut second)?;
    let before = carry(log, &mut first)?;
    writeln!(out, "the second at {behind}\nboth: the first at {before}")?;
    Ok(())
}

fn begin<T: Turns>(log: &mut VirtualLog<T, Calm>, entry: &Entry) -> Result<Going, Stuck>
    requires may { (who : ℕ) (e : Entry) → T.Law.law.may who e }
    requires spelled { IsSpellable entry.now }
    ensures who { log.new.who ≡ log.old.who }
    ensures going { IfOk result (λ going. (early : List Event) × IsGoing T.Law.law.may log.new.who early log.new.seen log.new.chain going) }
    ensures others { (early : List Event) (other : Going) → IsGoing T.Law.law.may log.old.who early log.old.seen log.old.chain other
        → IsGoing T.Law.law.may log.old.who early log.new.seen log.new.chain other × IfOk result (λ going. AreApart going other) }
{
    match log.start_append(entry) {
        Ok(going) => Ok(going),
        Err(_) => Err(Stuck::Failed),
    }
}

/// Goes on with an append until it has its position.
fn carry<T: Turns>(log: &mut VirtualLog<T, Calm>, going: &mut Going) -> Result<u64, Stuck>
    requires going { (early : List Event) × IsGoing T.Law.law.may log.old.who early log.old.seen log.old.chain going.old }
    ensures who { log.new.who ≡ log.old.who }
    ensures others { (early : List Event) (other : Going) → IsGoing T.Law.law.may log.old.who early log.old.seen log.old.chain other
        → AreApart going.old other → IsGoing T.Law.law.may log.old.who early log.new.seen log.new.chain other }
{
    'turn: for _ in 0..MOST_TURNS {
        match log.go_on(going) {
            Ok(Some(position)) => return Ok(position),
            Ok(None) => {}
            Err(_) => return Err(Stuck::Failed),
        }
    }
    Err(Stuck::Failed)
}
