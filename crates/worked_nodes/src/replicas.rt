//! Histories of a replica whose disk stops or fails.
ghost use Rattle.std.specs.Prelude.{◌≡◌, [], ◌∷◌};

use crate::items::{put_item, rank_of};
use crate::laid::{Laid, push_entry};
use crate::stuck::Stuck;
use crate::words::{Words, failing, push_hex, text_of};
use delos_types::entry::Entry;
use delos_types::numbers::{NodeId, SessionId};
use disk_model::{FailDisk, MemDisk};
use local_replica::layers::Layers;
use local_replica::replica::LocalReplica;
use local_store::Store;
use replica_api::replica::{Applied, Reopened, Replica};
use std::alloc::{AllocError, Global};

/// A log has at most so many entries here.
const MOST: u64 = 1000;

/// A replica, and the entries that come up to it.
#[derive(Drop)]
struct History<R: Replica + Drop> {
    alloc: Global,
    replica: R,
    log: Vec<Entry>,
}

/// What comes of the lines of a case.
pub(crate) fn play<E: Layers>(
    alloc: Global,
    engines: E,
    lines: &[&str],
    out: &mut String,
) -> Result<(), Stuck>
    requires { E.kinds engines ≡ 1 ∷ 2 ∷ 3 ∷ 4 ∷ 5 ∷ [] }
{
    let (failing, lines) = failing(alloc, lines)?;
    let disk = FailDisk::new(MemDisk::new(alloc), failing);
    let Ok(store) = Store::open_on(alloc, disk) else {
        return Err(Stuck::Failed);
    };
    let origin = NodeId::new(1).unwrap();
    let history = History {
        alloc,
        replica: LocalReplica::new(alloc, origin, engines, store),
        log: Vec::new(alloc),
    };
    history.play(lines, out)
}

impl<R: Replica + Drop> History<R> {
    fn play(self, lines: &[&str], out: &mut String) -> Result<(), Stuck> {
        let mut history = self;
        for line in lines {
            history.take_all(out, line)?;
        }
        Ok(())
    }

    /// A line, or `repeat COUNT LINE; LINE ..`.
    fn take_all(&mut self, out: &mut String, line: &str) -> Result<(), Stuck> {
        let mut words = Words::of(line);
        if words.word() != "repeat" {
            return self.take(out, line);
        }
        let count = words.number();
        let lines = words.rest();
        for _ in 0..count {
            for line in lines.split("; ") {
                self.take(out, line)?;
            }
        }
        words.end()
    }

    fn take(&mut self, out: &mut String, line: &str) -> Result<(), Stuck> {
        let mut words = Words::of(line);
        match words.word() {
            "item" => self.lay(&mut words)?,
            "send" => self.send(out, &mut words)?,
            "flush" => self.flush(out)?,
            "reply" => self.reply(out, line, &mut words)?,
            "node" => self.node(out, line, words.small())?,
            name => {
                let came = self.act(name, &mut words)?;
                self.show(out, line, came)?;
            }
        }
        words.end()
    }

    /// `item SESSION RANK COMMAND`: an entry of one item comes next in the log.
    fn lay(&mut self, words: &mut Words<'_>) -> Result<(), Stuck> {
        let mut laid = Laid::new(self.alloc);
        laid.add_items(self.alloc, words)?;
        self.log.push(laid.entry(self.alloc)?)?;
        Ok(())
    }

    /// `apply`, `stop WRITE` or `reopen WORD`: what is answered.
    fn act(&mut self, name: &str, words: &mut Words<'_>) -> Result<&'static str, Stuck> {
        match name {
            "apply" => self.apply(),
            "stop" => {
                self.replica.stop(words.number());
                Ok("done")
            }
            "reopen" => match self.replica.reopen(words.number()) {
                Reopened::Done => Ok("done"),
                Reopened::DiskFault => Ok("disk fault"),
                Reopened::Memory => Ok("out of memory"),
            },
            _ => Err(Stuck::Line),
        }
    }

    /// The entry at the cursor comes up.
    fn apply(&mut self) -> Result<&'static str, Stuck> {
        let cursor = self.replica.cursor();
        if cursor > MOST {
            return Err(Stuck::Line);
        }
        let Some(entry) = self.log.get(cursor as usize) else {
            return Err(Stuck::Line);
        };
        Ok(match self.replica.apply(entry) {
            Applied::Done => "done",
            Applied::DiskFault => "disk fault",
            Applied::Down => "down",
            Applied::Memory => "out of memory",
        })
    }

    /// What was answered, and what the replica shows then.
    fn show(&self, out: &mut String, line: &str, came: &str) -> Result<(), Stuck> {
        let replica = &self.replica;
        let state = if replica.is_down() { "down" } else { "up" };
        let cursor = replica.cursor();
        let last = replica.last_rank(SessionId::new(0).unwrap())?;
        let clean = replica.clean()?;
        write!(
            out,
            "{line}: {came}; {state}, cursor {cursor}, last rank {last}, clean {clean}, "
        )?;
        match replica.value(b"c")? {
            Some(value) => writeln!(out, "c = {}", text_of(value.as_slice())?)?,
            None => out.push_str("no c\n")?,
        }
        Ok(())
    }

    /// `send SESSION RANK KEY VALUE`: an item goes down, which puts the value at the key.
    fn send(&mut self, out: &mut String, words: &mut Words<'_>) -> Result<(), Stuck> {
        let (session, rank) = (words.small(), words.number());
        let (key, value) = (words.byte(), words.byte());
        let item = put_item(self.alloc, session, rank, key, value)?;
        match self.replica.send(item)? {
            Some(entry) => self.keep(out, entry)?,
            None => out.push_str("send: waits\n")?,
        }
        Ok(())
    }

    /// What waits is packed.
    fn flush(&mut self, out: &mut String) -> Result<(), Stuck> {
        match self.replica.flush()? {
            Some(entry) => Ok(self.keep(out, entry)?),
            None => Err(Stuck::Line),
        }
    }

    /// A packed entry comes next in the log.
    fn keep(&mut self, out: &mut String, entry: Entry) -> Result<(), AllocError> {
        push_entry(out, &entry)?;
        self.log.push(entry)?;
        Ok(())
    }

    /// `reply SESSION RANK`: where a rank acted, and its reply.
    fn reply(&self, out: &mut String, line: &str, words: &mut Words<'_>) -> Result<(), Stuck> {
        let (session, rank) = rank_of(words.small(), words.number())?;
        let Some(kept) = self.replica.reply_of(session, rank)? else {
            return Err(Stuck::Line);
        };
        write!(out, "{line}: {}.{} ", kept.place.pos, kept.place.sub)?;
        push_hex(out, kept.reply.as_slice())?;
        Ok(())
    }

    /// `node NUMBER`: what is kept of a node, and the trim that was asked for.
    fn node(&self, out: &mut String, line: &str, number: u8) -> Result<(), Stuck> {
        let Some(node) = NodeId::new(number) else {
            return Err(Stuck::Line);
        };
        let left = if self.replica.has_left(node)? {
            "left"
        } else {
            "not left"
        };
        let reported = self.replica.reported(node)?;
        let trim = self.replica.trim_point()?;
        writeln!(out, "{line}: {left}, reported {reported}, trim {trim}")?;
        Ok(())
    }
}
