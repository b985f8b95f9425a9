//! A journal, and its calls.
ghost use Rattle.std.specs.Prelude.{◌≡◌, ◌+◌, [], length, IfOk, OnOk};
ghost use Rattle.disk_model.specs.Disk.{IsSynced, reads};
ghost use Rattle.disk_model.specs.Failing.{shown};
ghost use Rattle.journal_core.specs.Records.{records_of};
ghost use Rattle.journal_core.specs.Journal.{LeavesRecords};

use crate::workbench::{OnDisk, Refusal};
use anyhow::{Result, bail};
use disk_model::{Disk, FailDisk};
use journal_core::{AppendFault, Fault, Journal};
use std::alloc::Global;
use worked_cases::words::{bytes, done, nothing, number, shown as shown_bytes, silent, told};

/// A caller that knows a journal by its public clauses alone: it counts, and what it has counted outlasts every crash.
fn raise<D: Disk>(tally: &mut Journal<D>) -> Result<usize, AppendFault>
    ensures raised { IfOk result (λ n. n ≡ length tally.old.records + 1) }
    ensures durable { OnOk result (LeavesRecords tally.new.disk (λ found. length found ≡ length tally.old.records + 1)) }
{
    tally.append(b"")?;
    Ok(tally.count())
}

impl OnDisk for Journal<FailDisk> {
    fn open(alloc: Global, disk: FailDisk) -> Result<Result<Self, Refusal>> {
        match Journal::open_on(alloc, disk) {
            Ok(opened) => Ok(Ok(opened.journal)),
            Err(refused) => Ok(Err(Refusal {
                disk: refused.disk,
                why: format!(in alloc; "{}", refused.fault)?,
            })),
        }
    }

    fn begin(alloc: Global, disk: FailDisk) -> Result<Self> {
        match Journal::open_on(alloc, disk) {
            Ok(opened) => Ok(opened.journal),
            Err(refused) => match refused.fault {
                Fault::Disk => Ok(Journal::shut_on(alloc, refused.disk)),
                Fault::Memory => bail!("out of memory"),
            },
        }
    }

    fn into_disk(self) -> Result<FailDisk> {
        Ok(self.into_parts())
    }

    fn call(&mut self, alloc: Global, name: &str, words: &[&str]) -> Result<String> {
        match name {
            "append" => {
                let payload = bytes(alloc, words)?;
                Ok(done(alloc, self.append(payload.as_slice()))?)
            }
            "reopen" => Ok(done(alloc, self.reopen(number(words)?))?),
            "stop" => {
                self.stop(number(words)?);
                silent(alloc)
            }
            "get" => record(alloc, self, number(words)? as usize),
            _ => {
                nothing(words)?;
                ask(alloc, self, name)
            }
        }
    }
}

/// A call of a journal that takes no words.
fn ask(alloc: Global, journal: &mut Journal<FailDisk>, name: &str) -> Result<String> {
    match name {
        "raise" => match raise(journal) {
            Ok(count) => told(alloc, count),
            Err(fault) => Ok(format!(in alloc; "{fault}")?),
        },
        "count" => told(alloc, journal.count()),
        "shut" => told(alloc, journal.is_shut()),
        "faults" => told(alloc, journal.disk_faults()),
        _ => bail!("a journal has no call {name}"),
    }
}

fn record(alloc: Global, journal: &mut Journal<FailDisk>, i: usize) -> Result<String> {
    if i >= journal.count() {
        bail!("a journal has no record {i}");
    }
    match journal.get(i) {
        Ok(record) => Ok(shown_bytes(alloc, record.as_slice())?),
        Err(fault) => Ok(format!(in alloc; "{fault}")?),
    }
}
