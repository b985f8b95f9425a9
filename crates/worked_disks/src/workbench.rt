//! Something that keeps its records on a disk, from the disk's first bytes on.
ghost use Rattle.std.specs.Prelude.{◌≡◌, [], false, IfOk};
ghost use Rattle.disk_model.specs.Disk.{IsSynced, reads};
ghost use Rattle.disk_model.specs.Failing.{shown};

use crate::disks::ask_disk;
use anyhow::{Result, bail};
use disk_model::{Disk, FailDisk, MemDisk};
use journal_core::Journal;
use journal_pair::JournalPair;
use std::alloc::Global;
use worked_cases::bench::Bench;
use worked_cases::words::{bytes, nothing, number, numbers, silent};

/// A disk that wasn't opened, and why.
#[derive(Drop)]
pub struct Refusal {
    pub disk: FailDisk,
    pub why: String,
}

/// What keeps its records on a disk.
pub trait OnDisk: Drop {
    /// Opens what is kept on a disk on which nothing is pending.
    fn open(alloc: Global, disk: FailDisk) -> Result<Result<Self, Refusal>>
        requires { IsSynced (shown disk) };

    /// Begins on an empty disk. Where the disk fails, what is begun is down.
    fn begin(alloc: Global, disk: FailDisk) -> Result<Self>
        requires synced { IsSynced (shown disk) }
        requires empty { reads (shown disk) ≡ [] };

    /// Its disk, if it gives it back.
    fn into_disk(self) -> Result<FailDisk>;

    /// Makes a call, and tells its answer.
    fn call(&mut self, alloc: Global, name: &str, words: &[&str]) -> Result<String>;
}

/// The disk on which something is opened first.
#[derive(Drop)]
struct Setup {
    bytes: Vec<u8>,
    records: Vec<Vec<u8>>,
    /// The records of a journal over two areas.
    kept: Vec<Vec<u8>>,
    failing: Vec<u64>,
    armed: u64,
}

impl Setup {
    fn new(alloc: Global) -> Setup {
        Setup {
            bytes: Vec::new(alloc),
            records: Vec::new(alloc),
            kept: Vec::new(alloc),
            failing: Vec::new(alloc),
            armed: 0,
        }
    }

    /// Takes a line of it.
    fn take(&mut self, alloc: Global, name: &str, words: &[&str]) -> Result<()> {
        match name {
            "disk" => self.bytes = bytes(alloc, words)?,
            "record" => self.records.push(bytes(alloc, words)?)?,
            "kept" => self.kept.push(bytes(alloc, words)?)?,
            "fails" => self.failing = numbers(alloc, words)?,
            "arm" => self.armed = number(words)?,
            _ => bail!("nothing is open for {name}"),
        }
        Ok(())
    }

    /// The disk, with nothing pending.
    fn disk(&self, alloc: Global) -> Result<FailDisk>
        ensures { IfOk result (λ disk. IsSynced (shown disk)) }
    {
        let memory = self.filled(alloc, MemDisk::new(alloc))?;
        let mut disk = FailDisk::new(memory, self.failing.clone()?);
        disk.arm(self.armed);
        Ok(disk)
    }

    /// The disk with its bytes, or with its records if it has any, and nothing pending.
    fn filled<D: Disk>(&self, alloc: Global, disk: D) -> Result<D>
        requires { IsSynced (D.view disk) }
        ensures synced { IfOk result (λ disk. IsSynced (D.view disk)) }
        ensures up { IfOk result (λ disk. (D.view disk).stopped ≡ false) }
    {
        if !self.kept.is_empty() {
            return with_kept(alloc, disk, self.kept.as_slice());
        }
        if self.records.is_empty() {
            return with_bytes(disk, self.bytes.as_slice());
        }
        with_records(alloc, disk, self.records.as_slice())
    }
}

/// The disk with these bytes at its start, and nothing pending.
fn with_bytes<D: Disk>(mut disk: D, bytes: &[u8]) -> Result<D>
    ensures synced { IfOk result (λ disk. IsSynced (D.view disk)) }
    ensures up { IfOk result (λ disk. (D.view disk).stopped ≡ false) }
{
    disk.write_at(0, bytes)?;
    disk.reopen(1)?;
    Ok(disk)
}

/// The disk with these records in a journal, and nothing pending.
fn with_records<D: Disk>(alloc: Global, disk: D, records: &[Vec<u8>]) -> Result<D>
    requires { IsSynced (D.view disk) }
    ensures synced { IfOk result (λ disk. IsSynced (D.view disk)) }
    ensures up { IfOk result (λ disk. (D.view disk).stopped ≡ false) }
{
    let mut journal = match Journal::open_on(alloc, disk) {
        Ok(opened) => opened.journal,
        Err(refused) => bail!("{}", refused.fault),
    };
    for record in records {
        journal.append(record.as_slice())?;
    }
    let mut disk = journal.into_parts();
    disk.reopen(0)?;
    Ok(disk)
}

/// The disk with these records in a journal over two areas, and nothing pending.
fn with_kept<D: Disk>(alloc: Global, disk: D, records: &[Vec<u8>]) -> Result<D>
    requires { IsSynced (D.view disk) }
    ensures synced { IfOk result (λ disk. IsSynced (D.view disk)) }
    ensures up { IfOk result (λ disk. (D.view disk).stopped ≡ false) }
{
    let mut journal = match JournalPair::open_on(alloc, disk) {
        Ok(opened) => opened.journal,
        Err(refused) => bail!("{}", refused.fault),
    };
    for record in records {
        journal.append(record.as_slice())?;
    }
    let mut disk = journal.into_parts();
    disk.reopen(0)?;
    Ok(disk)
}

/// The disk, opened as after a crash.
fn crashed(mut disk: FailDisk, word: u64) -> Result<FailDisk>
    ensures { IfOk result (λ disk. IsSynced (shown disk)) }
{
    disk.reopen(word)?;
    Ok(disk)
}

/// A disk, and what is open on it.
#[derive(Drop)]
pub struct Workbench<T: OnDisk> {
    setup: Setup,
    /// The disk, where nothing is open on it.
    disk: Option<FailDisk>,
    open: Option<T>,
}

impl<T: OnDisk> Workbench<T> {
    pub fn new(alloc: Global) -> Workbench<T> {
        Workbench {
            setup: Setup::new(alloc),
            disk: None,
            open: None,
        }
    }

    fn open(&mut self, alloc: Global, disk: FailDisk) -> Result<String>
        requires { IsSynced (shown disk) }
    {
        match T::open(alloc, disk)? {
            Ok(open) => {
                self.open = Some(open);
                Ok(String::from_str(alloc, "ok")?)
            }
            Err(refusal) => {
                self.disk = Some(refusal.disk);
                Ok(refusal.why)
            }
        }
    }

    /// Begins on a new disk.
    fn begin(&mut self, alloc: Global) -> Result<String> {
        let disk = FailDisk::new(MemDisk::new(alloc), self.setup.failing.clone()?);
        self.open = Some(T::begin(alloc, disk)?);
        Ok(String::from_str(alloc, "ok")?)
    }

    /// The disk, on which nothing is open any more.
    fn close(&mut self) -> Result<FailDisk> {
        if let Some(open) = self.open.take() {
            return open.into_disk();
        }
        match self.disk.take() {
            Some(disk) => Ok(disk),
            None => bail!("nothing was opened"),
        }
    }

    /// Ends all at once, and opens the disk again with an image that the word picks, and what is kept on it.
    fn crash(&mut self, alloc: Global, word: u64) -> Result<String> {
        let disk = crashed(self.close()?, word)?;
        self.open(alloc, disk)
    }

    /// A call of what is open, or of the disk; before either, a line of the setup.
    fn ask(&mut self, alloc: Global, name: &str, words: &[&str]) -> Result<String> {
        if let Some(open) = &mut self.open {
            return open.call(alloc, name, words);
        }
        match &mut self.disk {
            Some(disk) => ask_disk(alloc, disk, name, words),
            None => {
                self.setup.take(alloc, name, words)?;
                silent(alloc)
            }
        }
    }
}

impl<T: OnDisk> Bench for Workbench<T> {
    fn call(&mut self, alloc: Global, name: &str, words: &[&str]) -> Result<String> {
        match name {
            "crash" => self.crash(alloc, number(words)?),
            "open" => {
                nothing(words)?;
                let disk = self.setup.disk(alloc)?;
                self.open(alloc, disk)
            }
            "begin" => {
                nothing(words)?;
                self.begin(alloc)
            }
            "close" => {
                nothing(words)?;
                self.disk = Some(self.close()?);
                silent(alloc)
            }
            _ => self.ask(alloc, name, words),
        }
    }
}
