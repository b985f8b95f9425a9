//! Compacts a journal.
ghost use Rattle.std.specs.Prelude.{◌≡◌, ◌≤◌, false, true, Some, Ok, length, OnOk, OnErr};
ghost use Rattle.std.specs.Option.{ForSome};
ghost use Rattle.disk_model.specs.Disk.{bumped};
ghost use Rattle.journal_pair.specs.Journal.{AnyCrashLeaves, Survives};
ghost use Rattle.kept_value.specs.View.{Spares};

use crate::value::KeptValue;
use disk_model::{Disk, Failed};
use journal_core::AppendFault;
use journal_pair::JournalPair;
use std::alloc::Global;

/// Compacts a journal in which the record of a change stands, where it is to be compacted after that change. Want of
/// memory leaves it as it is.
pub(crate) fn compact<V: KeptValue, D: Disk>(
    alloc: Global,
    journal: &mut JournalPair<D>,
    value: &V,
    change: &V::Change,
) -> Result<(), Failed>
    requires up { journal.old.shut ≡ false }
    requires survives { Survives journal.old }
    requires sound { V.IsSound value.now }
    requires can { V.kind.CanChange (V.state value.now) change.now }
    requires room { V.HasRoom value.now change.now }
    requires spelled { V.kind.spelled journal.old.records ≡ Some (V.kind.changed (V.state value.now) change.now) }
    ensures spelled { V.kind.spelled journal.new.records ≡ Some (V.kind.changed (V.state value.now) change.now) }
    ensures other { ForSome journal.new.other (λ rs. V.kind.spelled rs ≡ Some (V.kind.changed (V.state value.now) change.now)) }
    ensures survives { Survives journal.new }
    ensures up { OnOk result (journal.new.shut ≡ false) }
    ensures failed { OnErr result ((journal.new.shut ≡ true) × (journal.new.disk.faults ≡ bumped journal.old.disk.faults)) }
    ensures same { V.kind.compacts change.now (length journal.old.records) ≡ false → (result ≡ Ok tt) × (journal.new ≡ journal.old) }
    ensures spares { OnOk result (Spares 4 journal.old.disk journal.new.disk) }
    ensures word { journal.new.disk.word ≡ journal.old.disk.word }
    ensures faults { journal.old.disk.faults ≤ journal.new.disk.faults }
    ensures armed { journal.new.disk.armed ≤ journal.old.disk.armed }
    ensures any_crash { AnyCrashLeaves journal.old.disk journal.new.disk (λ found. V.kind.spelled found ≡ Some (V.kind.changed (V.state value.now) change.now)) }
{
    if !V::compacts(change, journal.count()) {
        return Ok(());
    }
    let Ok(records) = value.compacted(alloc, change) else {
        return Ok(());
    };
    match journal.compact(records) {
        Ok(()) => Ok(()),
        Err(AppendFault::Memory) => Ok(()),
        Err(AppendFault::Disk) => Err(Failed),
        Err(AppendFault::Shut) => unreachable!(),
    }
}
