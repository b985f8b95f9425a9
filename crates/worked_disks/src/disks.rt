//! A disk, and its calls.
use anyhow::{Result, bail};
use disk_model::{Disk, FailDisk, MemDisk, WriteFault, write_synced};
use std::alloc::Global;
use worked_cases::bench::Bench;
use worked_cases::words::{bytes, done, nothing, number, numbers, shown, silent, told};

/// A disk in memory, of which chosen calls may fail.
#[derive(Drop)]
pub struct DiskBench {
    disk: FailDisk,
}

impl DiskBench {
    pub fn new(alloc: Global) -> DiskBench {
        let disk = FailDisk::new(MemDisk::new(alloc), Vec::new(alloc));
        DiskBench { disk }
    }
}

impl Bench for DiskBench {
    fn call(&mut self, alloc: Global, name: &str, words: &[&str]) -> Result<String> {
        match name {
            "fails" => {
                self.disk = FailDisk::new(MemDisk::new(alloc), numbers(alloc, words)?);
                silent(alloc)
            }
            "write-synced" => {
                let (disk, ended) = first_write(alloc, words)?;
                self.disk = disk;
                Ok(done(alloc, ended)?)
            }
            _ => ask_disk(alloc, &mut self.disk, name, words),
        }
    }
}

/// A call of a disk.
pub fn ask_disk(alloc: Global, disk: &mut FailDisk, name: &str, words: &[&str]) -> Result<String> {
    match name {
        "write" => Ok(done(alloc, write(alloc, disk, words)?)?),
        "cut" => Ok(done(alloc, disk.cut(number(words)?))?),
        "reopen" => Ok(done(alloc, disk.reopen(number(words)?))?),
        "arm" => {
            disk.arm(number(words)?);
            silent(alloc)
        }
        _ => {
            nothing(words)?;
            ask_of_disk(alloc, disk, name)
        }
    }
}

/// A call of a disk that takes no words.
fn ask_of_disk(alloc: Global, disk: &mut FailDisk, name: &str) -> Result<String> {
    match name {
        "sync" => Ok(done(alloc, disk.sync())?),
        "length" => told(alloc, disk.len()),
        "bytes" => bytes_of(alloc, disk),
        "stopped" => told(alloc, disk.stopped()),
        "faults" => told(alloc, disk.faults()),
        _ => bail!("a disk has no call {name}"),
    }
}

/// A new disk on which these bytes are written and synced at its start.
fn first_write(alloc: Global, words: &[&str]) -> Result<(FailDisk, Result<(), WriteFault>)> {
    let mut disk = FailDisk::new(MemDisk::new(alloc), Vec::new(alloc));
    let bytes = bytes(alloc, words)?;
    let ended = write_synced(&mut disk, 0, bytes.as_slice());
    Ok((disk, ended))
}

fn write(alloc: Global, disk: &mut FailDisk, words: &[&str]) -> Result<Result<(), WriteFault>> {
    let Some((at, words)) = words.split_first() else {
        bail!("a write has an offset");
    };
    let at = at.parse::<u64>()?;
    let bytes = bytes(alloc, words)?;
    Ok(disk.write_at(at, bytes.as_slice()))
}

/// The bytes on a disk.
pub fn bytes_of(alloc: Global, disk: &mut FailDisk) -> Result<String> {
    let mut bytes = Vec::new(alloc);
    bytes.resize(disk.len() as usize, 0)?;
    disk.read(0, &mut bytes)?;
    Ok(shown(alloc, bytes.as_slice())?)
}
