//! Histories of a stack of engines over a transaction of an empty store.
ghost use Rattle.std.specs.Prelude.{◌≡◌, [], ◌∷◌};
ghost use Rattle.engine_api.specs.Packing.{IsProposable};

use crate::items::put_item;
use crate::laid::{Laid, push_entry};
use crate::stuck::Stuck;
use crate::words::{Words, push_hex, text_of};
use delos_types::entry::Entry;
use delos_types::item::Item;
use delos_types::numbers::NodeId;
use delos_types::space::Space;
use disk_model::MemDisk;
use engine_steps::layout::{TABLE, clean_position, value};
use local_replica::layers::Layers;
use local_store::{Store, Txn};
use log_laws::rising::Acted;
use std::alloc::{AllocError, Global};
use std::mem;

/// The engines of node 1, over a space.
#[derive(Drop)]
struct Stack<E: Layers> {
    alloc: Global,
    origin: NodeId,
    engines: E,
    space: Txn,
    ghost kinds: { E.kinds engines ≡ 1 ∷ 2 ∷ 3 ∷ 4 ∷ 5 ∷ [] },
}

impl<E: Layers> Stack<E> {
    /// Over an empty space.
    fn new(alloc: Global, engines: E) -> Result<Self, Stuck>
        requires { E.kinds engines ≡ 1 ∷ 2 ∷ 3 ∷ 4 ∷ 5 ∷ [] }
    {
        let Ok(store) = Store::open_on(alloc, MemDisk::new(alloc)) else {
            return Err(Stuck::Failed);
        };
        let origin = NodeId::new(1).unwrap();
        let space = store.begin()?;
        let mut engines = engines;
        engines.load(alloc, origin, &space)?;
        Ok(Stack {
            alloc,
            origin,
            engines,
            space,
        })
    }

    /// The entry at a position comes up, to engines that were loaded: what acts.
    fn come_up(&mut self, pos: u64, entry: &Entry) -> Result<Vec<Acted>, AllocError> {
        self.engines.load(self.alloc, self.origin, &self.space)?;
        self.engines
            .apply(self.alloc, self.origin, &mut self.space, pos, entry)
    }

    /// An item goes down.
    fn send(&mut self, item: Item) -> Result<Option<Entry>, AllocError>
        requires { IsProposable item }
    {
        self.engines.propose(self.alloc, self.origin, item)
    }

    /// What waits is packed.
    fn flush(&mut self) -> Result<Option<Entry>, AllocError> {
        self.engines.flush(self.alloc, self.origin)
    }
}

/// A stack, the entry that is laid out, and the entries that the stack packed.
#[derive(Drop)]
struct History<E: Layers> {
    alloc: Global,
    stack: Stack<E>,
    laid: Laid,
    packed: Vec<Entry>,
}

/// What comes of the lines of a case.
pub(crate) fn play<E: Layers>(
    alloc: Global,
    engines: E,
    lines: &[&str],
    out: &mut String,
) -> Result<(), Stuck>
    requires { E.kinds engines ≡ 1 ∷ 2 ∷ 3 ∷ 4 ∷ 5 ∷ [] }
{
    let mut history = History {
        alloc,
        stack: Stack::new(alloc, engines)?,
        laid: Laid::new(alloc),
        packed: Vec::new(alloc),
    };
    for line in lines {
        history.take(out, line)?;
    }
    Ok(())
}

impl<E: Layers> History<E> {
    fn take(&mut self, out: &mut String, line: &str) -> Result<(), Stuck> {
        let mut words = Words::of(line);
        match words.word() {
            "entry" => self.laid = Laid::new(self.alloc),
            "item" => self.laid.add_items(self.alloc, &mut words)?,
            "at" => self.bring_up(out, words.number())?,
            "send" => self.send(out, &mut words)?,
            "flush" => self.flush(out)?,
            "play" => self.play_packed(out)?,
            "clean" => self.clean(out, words.number())?,
            word => self.look(out, word, words.word())?,
        }
        words.end()
    }

    /// `at POSITION`: the entry that is laid out comes up there.
    fn bring_up(&mut self, out: &mut String, pos: u64) -> Result<(), AllocError> {
        let entry = self.laid.entry(self.alloc)?;
        self.come_up(out, pos, &entry)
    }

    fn come_up(&mut self, out: &mut String, pos: u64, entry: &Entry) -> Result<(), AllocError> {
        let acted = self.stack.come_up(pos, entry)?;
        let none = if acted.is_empty() {
            " nothing acts"
        } else {
            ""
        };
        writeln!(out, "at {pos}:{none}")?;
        for act in acted.as_slice() {
            push_act(out, act)?;
        }
        Ok(())
    }

    /// `send SESSION FIRST..LAST KEY VALUE`: an item for each rank goes down, which puts the value at the key.
    fn send(&mut self, out: &mut String, words: &mut Words<'_>) -> Result<(), Stuck> {
        let session = words.small();
        let (first, last) = words.range();
        let (key, value) = (words.byte(), words.byte());
        for rank in first..=last {
            let item = put_item(self.alloc, session, rank, key, value)?;
            if let Some(entry) = self.stack.send(item)? {
                self.keep(out, entry)?;
            }
        }
        Ok(())
    }

    /// What waits is packed.
    fn flush(&mut self, out: &mut String) -> Result<(), Stuck> {
        match self.stack.flush()? {
            Some(entry) => Ok(self.keep(out, entry)?),
            None => Err(Stuck::Line),
        }
    }

    /// An entry was packed.
    fn keep(&mut self, out: &mut String, entry: Entry) -> Result<(), AllocError> {
        push_entry(out, &entry)?;
        self.packed.push(entry)?;
        Ok(())
    }

    /// The packed entries come up, from position 0 on.
    fn play_packed(&mut self, out: &mut String) -> Result<(), AllocError> {
        let packed = mem::replace(&mut self.packed, Vec::new(self.alloc));
        let mut pos = 0u64;
        for entry in packed.as_slice() {
            self.come_up(out, pos, entry)?;
            pos = pos.saturating_add(1);
        }
        Ok(())
    }

    /// `clean COUNT`: how many first entries are clean, of so many.
    fn clean(&self, out: &mut String, count: u64) -> Result<(), AllocError> {
        let clean = clean_position(&self.stack.space, count)?;
        writeln!(out, "clean {count}: {clean}")
    }

    /// `value KEY`: the value at a key of the table. `from KEY` or `after KEY`: the least key that is at or above, or above
    /// this one, and its value.
    fn look(&self, out: &mut String, word: &str, key: &str) -> Result<(), Stuck> {
        write!(out, "{word} {key}: ")?;
        match word {
            "value" => self.push_value(out, key.as_bytes()),
            "from" => self.push_next(out, key.as_bytes()),
            "after" => {
                let mut start = Vec::from_slice(self.alloc, key.as_bytes())?;
                start.push(0)?;
                self.push_next(out, start.as_slice())
            }
            _ => Err(Stuck::Line),
        }
    }

    fn push_value(&self, out: &mut String, key: &[u8]) -> Result<(), Stuck> {
        match value(&self.stack.space, key)? {
            Some(value) => writeln!(out, "{}", text_of(value.as_slice())?)?,
            None => out.push_str("none\n")?,
        }
        Ok(())
    }

    fn push_next(&self, out: &mut String, start: &[u8]) -> Result<(), Stuck> {
        let Some(found) = self.stack.space.seek(TABLE, start)? else {
            out.push_str("none\n")?;
            return Ok(());
        };
        write!(out, "{} = ", text_of(found.as_slice())?)?;
        self.push_value(out, found.as_slice())
    }
}

/// The place, the session, the rank and the reply of what acted.
fn push_act(out: &mut String, act: &Acted) -> Result<(), AllocError> {
    let place = act.place;
    let session = act.session.number();
    let rank = act.rank.number();
    let none = if act.reply.is_empty() { "no bytes" } else { "" };
    write!(
        out,
        "  {}.{} session {session} rank {rank}: {none}",
        place.pos, place.sub
    )?;
    push_hex(out, act.reply.as_slice())
}
