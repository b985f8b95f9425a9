//! A log server, and its calls.
ghost use Rattle.std.specs.Prelude.{◌≡◌, []};
ghost use Rattle.disk_model.specs.Disk.{IsSynced, reads};
ghost use Rattle.disk_model.specs.Failing.{shown};
ghost use Rattle.journal_core.specs.Records.{records_of};

use crate::workbench::{OnDisk, Refusal};
use anyhow::{Result, bail};
use disk_model::FailDisk;
use log_server::LogServer;
use quorum_cell::message::Told;
use std::alloc::{AllocError, Global};
use worked_cases::entries::entry;
use worked_cases::words;
use worked_cases::words::{nothing, number, silent};

/// The payload of each entry that a server is given.
const PAYLOAD: [u8; 1] = [7];

impl OnDisk for LogServer<FailDisk> {
    fn open(alloc: Global, disk: FailDisk) -> Result<Result<Self, Refusal>> {
        match LogServer::open_on(alloc, disk) {
            Ok(server) => Ok(Ok(server)),
            Err(refused) => Ok(Err(Refusal {
                disk: refused.disk,
                why: format!(in alloc; "{}", refused.fault)?,
            })),
        }
    }

    fn begin(_alloc: Global, _disk: FailDisk) -> Result<Self> {
        bail!("a log server is opened")
    }

    fn into_disk(self) -> Result<FailDisk> {
        bail!("a log server keeps its disk")
    }

    fn call(&mut self, alloc: Global, name: &str, words: &[&str]) -> Result<String> {
        match name {
            "restart" => words::told(alloc, self.restart(number(words)?)?),
            "stop" => {
                self.stop(number(words)?);
                silent(alloc)
            }
            "faults" => {
                nothing(words)?;
                words::told(alloc, self.disk_faults())
            }
            "stores" => stores(alloc, self, number(words)?),
            "tail" | "seal" => {
                nothing(words)?;
                Ok(said(alloc, &ask(self, name)?)?)
            }
            _ => {
                let place = u32::try_from(number(words)?)?;
                Ok(said(alloc, &ask_at(alloc, self, name, place)?)?)
            }
        }
    }
}

fn ask(server: &mut LogServer<FailDisk>, name: &str) -> Result<Told, AllocError> {
    if name == "seal" {
        server.seal()
    } else {
        Ok(server.tail())
    }
}

/// So many stores, each behind the last, and the answer of the last.
fn stores(alloc: Global, server: &mut LogServer<FailDisk>, count: u64) -> Result<String> {
    let mut last = String::new(alloc);
    for _store in 0..count {
        let Told::Unsealed(length) = server.tail() else {
            bail!("only a server that is up and isn't sealed takes stores");
        };
        let place = u32::try_from(length)?;
        last = said(alloc, &ask_at(alloc, server, "store", place)?)?;
    }
    Ok(last)
}

/// A call of a server with a place.
fn ask_at(alloc: Global, server: &mut LogServer<FailDisk>, name: &str, place: u32) -> Result<Told> {
    let place = u64::from(place);
    let entry = entry(alloc, &PAYLOAD)?;
    match name {
        "store" => Ok(server.store(place, &entry)?),
        "repair" => Ok(server.repair(place, &entry)?),
        "read" => Ok(server.read(place)?),
        "trim" => Ok(server.trim(place)?),
        _ => bail!("a log server has no call {name}"),
    }
}

/// An answer of a server in words.
fn said(alloc: Global, told: &Told) -> Result<String, AllocError> {
    match told {
        Told::Down => format!(in alloc; "down"),
        Told::Sealed(length) => format!(in alloc; "sealed {length}"),
        Told::Unsealed(length) => format!(in alloc; "unsealed {length}"),
        Told::Behind(length) => format!(in alloc; "behind {length}"),
        Told::Ack(length) => format!(in alloc; "ack {length}"),
        Told::Cut(base) => format!(in alloc; "cut {base}"),
        Told::Short(length) => format!(in alloc; "short {length}"),
        Told::Got(entry) => {
            let payload = words::shown(alloc, entry.payload.as_slice())?;
            format!(in alloc; "got {payload}")
        }
        Told::Trimmed(base) => format!(in alloc; "trimmed {base}"),
        Told::DiskFault => format!(in alloc; "disk fault"),
    }
}
