//! Readers that look while one publishes, each in a thread of its own.
ghost use Rattle.std.specs.Prelude.{◌<◌};

use crate::board::Desk;
use crate::course::{KEYS, TABLES, changes_at, is_text_at};
use anyhow::{Context, Result};
use snap_reads::{Peeker, Seen};
use std::alloc::{AllocError, Global};
use std::sync::Wait;
use std::sync::atomic::AtomicBool;
use std::sync::atomic::Ordering::SeqCst;
use std::thread;
use std::thread::Threads;

/// How many positions are published.
const LAST: u64 = 2_000;

/// What a reader came to.
#[derive(Clone, Copy, Drop)]
pub struct Looked {
    /// How often it looked.
    pub looks: u64,
    /// How often no reading was lent.
    pub unlent: u64,
    /// How many positions it saw.
    pub positions: u64,
    /// How often a look gave what the map doesn't have at the look's position.
    pub torn: u64,
    /// How often a look gave a position below the one before.
    pub back: u64,
    /// The position that it saw last.
    pub last: u64,
}

/// Who publishes, and how many positions it published.
#[derive(Drop)]
struct Writer<'a, W: Wait> {
    desk: Desk<&'a W>,
    published: u64,
}

/// Who looks, and whether memory ran out.
#[derive(Drop)]
struct Reader {
    peeker: Peeker,
    looked: Looked,
    ran_out: bool,
}

/// One that has a thread of its own.
#[derive(Drop)]
enum Side<'a, W: Wait> {
    Writer(Writer<'a, W>),
    Reader(Reader),
}

/// What a writer and its readers came to.
#[derive(Drop)]
pub struct Came {
    published: u64,
    readers: Vec<Looked>,
}

impl Looked {
    fn new() -> Looked {
        Looked {
            looks: 0,
            unlent: 0,
            positions: 0,
            torn: 0,
            back: 0,
            last: 0,
        }
    }

    /// Takes in what one look gave.
    fn add(&mut self, pos: u64, is_right: bool) {
        self.looks = self.looks.saturating_add(1);
        if !is_right {
            self.torn = self.torn.saturating_add(1);
        }
        if pos < self.last {
            self.back = self.back.saturating_add(1);
        }
        if pos != self.last {
            self.positions = self.positions.saturating_add(1);
        }
        self.last = pos;
    }

    /// One look at a key of a table.
    fn look(
        &mut self,
        alloc: Global,
        peeker: &mut Peeker,
        table: usize,
        key: usize,
    ) -> Result<(), AllocError>
        requires table { table < 2 }
        requires key { key < 4 }
    {
        let seen = peeker.see(TABLES[table].as_bytes(), KEYS[key].as_bytes())?;
        let Some(Seen { pos, value }) = seen else {
            self.unlent = self.unlent.saturating_add(1);
            return Ok(());
        };
        let is_right = is_text_at(alloc, &value, pos, table, key)?;
        self.add(pos, is_right);
        Ok(())
    }
}

/// Publishes the course, and tells that it has ended. How many were published.
fn publish_all<W: Wait>(alloc: Global, desk: &mut Desk<&W>, ended: &AtomicBool) -> u64 {
    let mut published = 0u64;
    for pos in 1..=LAST {
        let Ok(changes) = changes_at(alloc, pos) else {
            break;
        };
        if desk.publish(pos, &changes).is_err() {
            break;
        }
        published = pos;
    }
    ended.store(true, SeqCst);
    published
}

/// Looks at one key after another until the writer has ended, and once at each after that.
fn look_on<W: Wait>(
    rt: &W,
    alloc: Global,
    peeker: &mut Peeker,
    looked: &mut Looked,
    ended: &AtomicBool,
) -> Result<(), AllocError> {
    for _ in rt.forever() {
        let is_last = ended.load(SeqCst);
        for table in 0..2usize {
            for key in 0..4usize {
                looked.look(alloc, peeker, table, key)?;
            }
        }
        if is_last {
            return Ok(());
        }
    }
    unreachable!()
}

impl<'a, W: Wait> Writer<'a, W> {
    fn work(&mut self, alloc: Global, ended: &AtomicBool) {
        self.published = publish_all(alloc, &mut self.desk, ended);
    }
}

impl Reader {
    fn work<W: Wait>(&mut self, rt: &W, alloc: Global, ended: &AtomicBool) {
        let came = look_on(rt, alloc, &mut self.peeker, &mut self.looked, ended);
        self.ran_out = came.is_err();
    }
}

impl<'a, W: Wait> Side<'a, W> {
    fn work(&mut self, rt: &W, alloc: Global, ended: &AtomicBool) {
        match self {
            Side::Writer(writer) => writer.work(alloc, ended),
            Side::Reader(reader) => reader.work(rt, alloc, ended),
        }
    }
}

/// A writer and so many readers.
fn sides<'a, W: Wait>(rt: &'a W, alloc: Global, readers: u32) -> Result<Vec<Side<'a, W>>> {
    let readers = readers.min(1000);
    let mut desk = Desk::new(alloc, rt, readers)?;
    let mut sides = Vec::new(alloc);
    for _ in 0..readers {
        let peeker = desk.peeker()?.context("no room")?;
        sides.push(Side::Reader(Reader {
            peeker,
            looked: Looked::new(),
            ran_out: false,
        }))?;
    }
    sides.push(Side::Writer(Writer { desk, published: 0 }))?;
    Ok(sides)
}

/// Each works in a thread of its own.
fn work_all<W: Threads + Wait + Sync>(
    rt: &W,
    alloc: Global,
    sides: &mut [Side<'_, W>],
    ended: &AtomicBool,
) {
    let threads = sides.len().max(1);
    thread::for_each_mut(
        rt,
        sides,
        threads,
        &|_, side: &mut Side<W>| { side.work(rt, alloc, ended) },
    );
}

/// What a writer and so many readers come to.
pub fn beside<W: Threads + Wait + Sync>(rt: &W, alloc: Global, readers: u32) -> Result<Came> {
    let ended = AtomicBool::new(false);
    let mut sides = sides(rt, alloc, readers)?;
    work_all(rt, alloc, sides.as_mut_slice(), &ended);
    let mut came = Came {
        published: 0,
        readers: Vec::new(alloc),
    };
    for side in &sides {
        match side {
            Side::Writer(writer) => came.published = writer.published,
            Side::Reader(reader) if reader.ran_out => return Err(AllocError.into()),
            Side::Reader(reader) => came.readers.push(reader.looked)?,
        }
    }
    Ok(came)
}

impl Came {
    /// What is the same in whatever order threads run.
    pub fn rows(&self, alloc: Global) -> Result<String> {
        let mut torn = 0u64;
        let mut back = 0u64;
        let mut to_the_end = 0u64;
        for looked in &self.readers {
            torn = torn.saturating_add(looked.torn);
            back = back.saturating_add(looked.back);
            if looked.last == self.published && looked.unlent == 0 {
                to_the_end = to_the_end.saturating_add(1);
            }
        }
        let published = self.published;
        Ok(format!(in alloc;
            "published {published}, torn {torn}, back {back}, saw the last {to_the_end}"
        )?)
    }

    /// The same, and how many positions and looks there were.
    pub fn counts(&self, alloc: Global) -> Result<String> {
        let mut looks = 0u64;
        let mut positions = 0u64;
        for looked in &self.readers {
            looks = looks.saturating_add(looked.looks);
            positions = positions.saturating_add(looked.positions);
        }
        let rows = self.rows(alloc)?;
        Ok(format!(in alloc; "{rows}, positions {positions}, looks {looks}\n")?)
    }
}
