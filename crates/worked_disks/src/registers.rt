//! A register of the chain, and its calls.
ghost use Rattle.std.specs.Prelude.{◌≡◌, [], IfOk};
ghost use Rattle.chain_map.specs.Chain.{IsChain};
ghost use Rattle.disk_model.specs.Disk.{IsSynced, reads};
ghost use Rattle.disk_model.specs.Failing.{shown};
ghost use Rattle.journal_core.specs.Records.{records_of};

use crate::workbench::{OnDisk, Refusal};
use anyhow::{Result, bail};
use chain_map::{extend, first_chain};
use delos_types::chain::Chain;
use disk_model::FailDisk;
use meta_register::MetaRegister;
use register_api::{ReadAnswer, Register, WriteAnswer};
use std::alloc::{AllocError, Global};
use worked_cases::words::{nothing, number, silent, told};

/// No case writes more versions.
const MOST_VERSIONS: u64 = 1000;

impl OnDisk for MetaRegister<FailDisk> {
    fn open(alloc: Global, disk: FailDisk) -> Result<Result<Self, Refusal>> {
        match MetaRegister::open_on(alloc, disk) {
            Ok(register) => Ok(Ok(register)),
            Err(refused) => Ok(Err(Refusal {
                disk: refused.disk,
                why: format!(in alloc; "{}", refused.fault)?,
            })),
        }
    }

    fn begin(_alloc: Global, _disk: FailDisk) -> Result<Self> {
        bail!("a register is opened")
    }

    fn into_disk(self) -> Result<FailDisk> {
        Ok(self.into_parts())
    }

    fn call(&mut self, alloc: Global, name: &str, words: &[&str]) -> Result<String> {
        match name {
            "write" => write(alloc, self, number(words)?),
            "writes" => writes(alloc, self, number(words)?),
            "reopen" => told(alloc, self.reopen(number(words)?)?),
            "stop" => {
                self.stop(number(words)?);
                silent(alloc)
            }
            _ => {
                nothing(words)?;
                ask(alloc, self, name)
            }
        }
    }
}

/// A call of a register that takes no words.
fn ask(alloc: Global, register: &mut MetaRegister<FailDisk>, name: &str) -> Result<String> {
    match name {
        "read" => read(alloc, register),
        "version" => told(alloc, register.version()),
        "faults" => told(alloc, register.faults()),
        "misses" => told(alloc, register.misses()),
        "records" => told(alloc, register.records()),
        _ => bail!("a register has no call {name}"),
    }
}

fn read(alloc: Global, register: &mut MetaRegister<FailDisk>) -> Result<String> {
    match register.read()? {
        ReadAnswer::At(version, chain) => {
            let segments = chain.segments.as_slice().len();
            Ok(format!(in alloc; "version {version}, segments {segments}")?)
        }
        ReadAnswer::Down => Ok(format!(in alloc; "down")?),
    }
}

/// Writes the first chain, extended at 5, over the version that is expected, where the register is up.
fn write(alloc: Global, register: &mut MetaRegister<FailDisk>, expected: u64) -> Result<String> {
    let chain = second_chain(alloc)?;
    match register.read()? {
        ReadAnswer::At(version, _) => {
            if version >= MOST_VERSIONS {
                bail!("no case writes version {version}");
            }
            let answer = register.write(expected, &chain)?;
            Ok(written(alloc, &answer)?)
        }
        ReadAnswer::Down => Ok(format!(in alloc; "down")?),
    }
}

/// So many writes, each over the version that stands, and the answer of the last.
fn writes(alloc: Global, register: &mut MetaRegister<FailDisk>, count: u64) -> Result<String> {
    let mut last = String::new(alloc);
    for _write in 0..count {
        let version = register.version();
        last = write(alloc, register, version)?;
    }
    Ok(last)
}

fn written(alloc: Global, answer: &WriteAnswer) -> Result<String, AllocError> {
    match answer {
        WriteAnswer::Written(version) => format!(in alloc; "written, version {version}"),
        WriteAnswer::Conflict(version, chain) => {
            let segments = chain.segments.as_slice().len();
            format!(in alloc; "conflict, version {version}, segments {segments}")
        }
        WriteAnswer::MetaFault => format!(in alloc; "fault"),
        WriteAnswer::Down => format!(in alloc; "down"),
    }
}

/// The first chain, extended at 5.
fn second_chain(alloc: Global) -> Result<Chain, AllocError>
    ensures { IfOk result IsChain }
{
    let first = first_chain(alloc)?;
    extend(alloc, &first, 5)
}
