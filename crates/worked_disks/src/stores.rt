//! A node's store and its transactions, and their calls.
ghost use Rattle.std.specs.Prelude.{◌≡◌, []};
ghost use Rattle.disk_model.specs.Disk.{IsSynced, reads};
ghost use Rattle.disk_model.specs.Failing.{shown};

use crate::workbench::{OnDisk, Refusal};
use anyhow::{Result, bail};
use delos_types::bytes::Bytes;
use delos_types::space::Space;
use disk_model::FailDisk;
use local_store::{CommitFault, Store, Txn};
use std::alloc::{AllocError, Global};
use worked_cases::words::{bytes, done, nothing, number, shown as shown_bytes, silent, told};

/// No case has a longer key or value.
const MOST_BYTES: usize = 99;

/// A store, and a transaction that has begun.
#[derive(Drop)]
pub struct StoreBench {
    store: Store<FailDisk>,
    txn: Option<Txn>,
}

/// A kind, a key, and a value if there is one.
#[derive(Drop)]
struct Target {
    kind: u8,
    key: Vec<u8>,
    value: Option<Vec<u8>>,
}

/// The kind and the key that the words are.
fn target_of(alloc: Global, words: &[&str]) -> Result<Target> {
    if words.len() != 2 {
        bail!("a kind and a key are wanted");
    }
    Ok(Target {
        kind: words[0].parse::<u8>()?,
        key: bytes(alloc, &words[1..])?,
        value: None,
    })
}

/// The kind, the key and the value that the words are.
fn setting(alloc: Global, words: &[&str]) -> Result<Target> {
    let Some((value, words)) = words.split_last() else {
        bail!("a kind, a key and a value are wanted");
    };
    let mut target = target_of(alloc, words)?;
    target.value = Some(bytes(alloc, &[*value])?);
    Ok(target)
}

impl OnDisk for StoreBench {
    fn open(alloc: Global, disk: FailDisk) -> Result<Result<Self, Refusal>> {
        match Store::open_on(alloc, disk) {
            Ok(store) => Ok(Ok(StoreBench { store, txn: None })),
            Err(refused) => Ok(Err(Refusal {
                disk: refused.disk,
                why: format!(in alloc; "{}", refused.fault)?,
            })),
        }
    }

    fn begin(alloc: Global, disk: FailDisk) -> Result<Self> {
        match Store::begin_on(alloc, disk) {
            Ok(store) => Ok(StoreBench { store, txn: None }),
            Err(_) => bail!("out of memory"),
        }
    }

    fn into_disk(self) -> Result<FailDisk> {
        Ok(self.store.into_parts())
    }

    fn call(&mut self, alloc: Global, name: &str, words: &[&str]) -> Result<String> {
        match name {
            "transaction" => {
                nothing(words)?;
                self.txn = Some(self.store.begin()?);
                silent(alloc)
            }
            "set" => self.change(alloc, &setting(alloc, words)?),
            "remove" => self.change(alloc, &target_of(alloc, words)?),
            "get" => get(alloc, self.txn()?, &target_of(alloc, words)?),
            "seek" => seek(alloc, self.txn()?, &target_of(alloc, words)?),
            "commit" => self.commit(alloc, number(words)?),
            _ => ask(alloc, &mut self.store, name, words),
        }
    }
}

impl StoreBench {
    fn txn(&mut self) -> Result<&mut Txn> {
        match &mut self.txn {
            Some(txn) => Ok(txn),
            None => bail!("no transaction has begun"),
        }
    }

    /// Changes a key in the transaction that has begun.
    fn change(&mut self, alloc: Global, target: &Target) -> Result<String> {
        change(self.txn()?, target)?;
        silent(alloc)
    }

    /// Commits the transaction that has begun.
    fn commit(&mut self, alloc: Global, cursor: u64) -> Result<String> {
        let Some(txn) = self.txn.take() else {
            bail!("no transaction has begun");
        };
        Ok(done(alloc, commit(&mut self.store, txn, cursor)?)?)
    }
}

/// A call of a store.
fn ask(alloc: Global, store: &mut Store<FailDisk>, name: &str, words: &[&str]) -> Result<String> {
    match name {
        "put" | "delete" => change_one(alloc, store, name, words),
        "puts" => put_many(alloc, store, words),
        "show" => show(alloc, store, words),
        "reopen" => Ok(done(alloc, store.reopen(number(words)?))?),
        "stop" => {
            store.stop(number(words)?);
            silent(alloc)
        }
        "down" => {
            nothing(words)?;
            told(alloc, store.is_down())
        }
        "faults" => {
            nothing(words)?;
            told(alloc, store.disk_faults())
        }
        "records" => {
            nothing(words)?;
            told(alloc, store.records())
        }
        _ => bail!("a store has no call {name}"),
    }
}

/// Sets a key, or removes it where there is no value.
fn change(txn: &mut Txn, target: &Target) -> Result<()> {
    let Some(value) = &target.value else {
        txn.del(target.kind, target.key.as_slice())?;
        return Ok(());
    };
    if target.key.len() > MOST_BYTES || value.len() > MOST_BYTES {
        bail!("no case has so long a key or a value");
    }
    txn.put(target.kind, target.key.as_slice(), value.as_slice())?;
    Ok(())
}

fn commit(
    store: &mut Store<FailDisk>,
    txn: Txn,
    cursor: u64,
) -> Result<std::result::Result<(), CommitFault>> {
    if cursor < store.cursor() {
        bail!("the cursor would fall");
    }
    Ok(store.commit(txn, cursor))
}

/// Commits a transaction of one change, with the cursor that stands first.
fn change_one(
    alloc: Global,
    store: &mut Store<FailDisk>,
    name: &str,
    words: &[&str],
) -> Result<String> {
    let Some((cursor, words)) = words.split_first() else {
        bail!("a cursor is wanted");
    };
    let cursor = cursor.parse::<u64>()?;
    let target = if name == "put" {
        setting(alloc, words)?
    } else {
        target_of(alloc, words)?
    };
    let mut txn = store.begin()?;
    change(&mut txn, &target)?;
    Ok(done(alloc, commit(store, txn, cursor)?)?)
}

/// Commits so many transactions, each of which sets a key, with the cursors that follow, and tells the answer of the last.
fn put_many(alloc: Global, store: &mut Store<FailDisk>, words: &[&str]) -> Result<String> {
    let Some((count, words)) = words.split_first() else {
        bail!("a count is wanted");
    };
    let target = setting(alloc, words)?;
    let mut last = String::new(alloc);
    for _put in 0..count.parse::<u64>()? {
        let mut txn = store.begin()?;
        change(&mut txn, &target)?;
        let cursor = store.cursor().saturating_add(1);
        last = done(alloc, commit(store, txn, cursor)?)?;
    }
    Ok(last)
}

/// The value at a key, and the cursor.
fn show(alloc: Global, store: &Store<FailDisk>, words: &[&str]) -> Result<String> {
    let value = get(alloc, &store.begin()?, &target_of(alloc, words)?)?;
    let cursor = store.cursor();
    Ok(format!(in alloc; "{value}, cursor {cursor}")?)
}

fn get(alloc: Global, txn: &Txn, target: &Target) -> Result<String> {
    let value = txn.get(target.kind, target.key.as_slice())?;
    Ok(found(alloc, &value)?)
}

/// The kind's least key from this one on.
fn seek(alloc: Global, txn: &Txn, target: &Target) -> Result<String> {
    let key = txn.seek(target.kind, target.key.as_slice())?;
    Ok(found(alloc, &key)?)
}

fn found(alloc: Global, bytes: &Option<Bytes>) -> Result<String, AllocError> {
    match bytes {
        Some(bytes) => shown_bytes(alloc, bytes.as_slice()),
        None => String::from_str(alloc, "none"),
    }
}
