//! A journal over two areas, and its calls.
ghost use Rattle.std.specs.Prelude.{◌≡◌, []};
ghost use Rattle.disk_model.specs.Disk.{IsSynced, reads};
ghost use Rattle.disk_model.specs.Failing.{shown};

use crate::workbench::{OnDisk, Refusal};
use anyhow::{Result, bail};
use disk_model::FailDisk;
use journal_pair::JournalPair;
use std::alloc::Global;
use worked_cases::words::{bytes, done, nothing, number, shown as shown_bytes, silent, told};

impl OnDisk for JournalPair<FailDisk> {
    fn open(alloc: Global, disk: FailDisk) -> Result<Result<Self, Refusal>> {
        match JournalPair::open_on(alloc, disk) {
            Ok(opened) => Ok(Ok(opened.journal)),
            Err(refused) => Ok(Err(Refusal {
                disk: refused.disk,
                why: format!(in alloc; "{}", refused.fault)?,
            })),
        }
    }

    fn begin(_alloc: Global, _disk: FailDisk) -> Result<Self> {
        bail!("a journal over two areas is opened")
    }

    fn into_disk(self) -> Result<FailDisk> {
        Ok(self.into_parts())
    }

    fn call(&mut self, alloc: Global, name: &str, words: &[&str]) -> Result<String> {
        match name {
            "append" => {
                let payload = bytes(alloc, words)?;
                Ok(done(alloc, self.append(payload.as_slice()))?)
            }
            "compact" => {
                let records = each(alloc, words)?;
                Ok(done(alloc, self.compact(records))?)
            }
            "reopen" => Ok(done(alloc, self.reopen(number(words)?))?),
            "stop" => {
                self.stop(number(words)?);
                silent(alloc)
            }
            _ => {
                nothing(words)?;
                ask(alloc, self, name)
            }
        }
    }
}

/// A record for each word.
fn each(alloc: Global, words: &[&str]) -> Result<Vec<Vec<u8>>> {
    let mut records = Vec::new(alloc);
    for word in words {
        records.push(bytes(alloc, &[word])?)?;
    }
    Ok(records)
}

/// A call of a journal over two areas that takes no words.
fn ask(alloc: Global, journal: &mut JournalPair<FailDisk>, name: &str) -> Result<String> {
    match name {
        "count" => told(alloc, journal.count()),
        "records" => records(alloc, journal),
        "shut" => told(alloc, journal.is_shut()),
        "faults" => told(alloc, journal.disk_faults()),
        _ => bail!("a journal over two areas has no call {name}"),
    }
}

/// All records, with a comma between.
fn records(alloc: Global, journal: &mut JournalPair<FailDisk>) -> Result<String> {
    let mut out = String::new(alloc);
    for i in 0..journal.count() {
        if i > 0 {
            out.push_str(", ")?;
        }
        out.push_str(&shown_bytes(alloc, record_at(journal, i)?.as_slice())?)?;
    }
    told(alloc, out)
}

fn record_at(journal: &mut JournalPair<FailDisk>, i: usize) -> Result<Vec<u8>> {
    if i >= journal.count() {
        bail!("a journal has no record {i}");
    }
    Ok(journal.get(i)?)
}
