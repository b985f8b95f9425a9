//! The writer's end.
ghost use Rattle.std.specs.Prelude.{◌≡◌, ◌+◌, ◌^◌, ◌<◌, ◌≤◌, [], ◌∷◌, ◌++◌, drop, map, length, IfOk, IfSome, OnOk, OnErr, MatchResult, Err};
ghost use Rattle.left_right.specs.Sides as sides;
ghost use Rattle.snap_reads.specs.Tables.{last_position, StartsWith};
ghost use Rattle.snap_reads.specs.Steps.{says, nothing, meant, published_by};
ghost use Rattle.snap_reads.specs.Rule.{Shows};
ghost use Rattle.snap_reads.specs.Queue.{queue_of, IsSound};
ghost use Rattle.snap_reads.specs.Views.{shelf, Publishes};

use crate::change::Changes;
use crate::marks::Marks;
use crate::meet::{has_place, meet, told_reader};
use crate::peeker::Peeker;
use crate::queue::{Rest, finish, take_up};
use crate::rule::{Next, Puts, ShownWriter};
use crate::shown::{Shown, carries_since};
use crate::tables::Tables;
use core::mem::{replace, replace_with};
use left_right::writer::Writer;
use std::alloc::{AllocError, Global};
use std::collections::VecDeque;
use std::marker::{Brand, Model};
use std::sync::Wait;

/// Why `publish` did not publish. Both are want of memory.
#[derive(Clone, Copy, Debug, PartialEq, Eq)]
pub enum Refused {
    /// The changes were not taken up; the caller has them still.
    NotTaken,
    /// The changes were taken up, and go out with the next that are published.
    Owed,
}

/// Why `tell` did not tell.
#[derive(Clone, Copy, Debug, PartialEq, Eq)]
pub enum Untold {
    /// There was no memory, or no place for a reader was free.
    NoMemory,
    /// What was published since is let go of. No reader of this `Snap` meets it.
    LetGo,
}

/// A published map, from its writer's end. Contracts see the list of all that was published, and what waits to be for want of memory.
pub struct Snap<W: Wait + Drop> {
    rt: W,
    alloc: Global,
    writer: ShownWriter,
    // What was taken up last, where some of it is not in the writer's log yet.
    rest: Option<Rest>,
    marks: Marks,
}

impl<W: Wait + Drop> Model for Snap<W> {
    ghost use Rattle.std.specs.Prelude.{drop};
    ghost use Rattle.left_right.specs.Sides as sides;
    ghost use Rattle.snap_reads.specs.Steps.{published_by};
    ghost use Rattle.snap_reads.specs.Queue.{queue_of, IsSound};
    ghost use Rattle.snap_reads.specs.Views.{Shelf};

    ghost Value = { Shelf };

    ghost view = { λ s. record { published = (sides.view s.writer.desk.place).seen; owed = published_by (queue_of (drop s.writer.behind s.writer.log.items) s.rest) } };

    ghost invariant = { λ s. IsSound s.writer.desk.shown.value (sides.view s.writer.desk.place).seen (queue_of (drop s.writer.behind s.writer.log.items) s.rest) };
}

/// It waits for the readers that are in a look, and ends them.
impl<W: Wait + Drop> Drop for Snap<W> {
    fn drop(self) {
        let Self {
            rt,
            alloc: _alloc,
            writer,
            rest: _rest,
            marks: _marks,
        } = self;
        drop(writer.take(&rt));
    }
}

// Nothing was published.
fn blank(alloc: Global) -> Shown
    ensures { says result ≡ nothing }
{
    Shown {
        tables: Tables::new(alloc),
        pos: 0,
        count: 0,
        carried: VecDeque::new(alloc),
    }
}

// Shows what waits in the log, which is the list that was picked.
fn show_next<N: Next, W: Wait>(rt: &W, writer: ShownWriter) -> (ShownWriter, Result<(), AllocError>)
    requires sound { IsSound writer.desk.shown.value (sides.view writer.desk.place).seen (map meant (drop writer.behind writer.log.items)) }
    requires list { N.list ≡ published_by (map meant (drop writer.behind writer.log.items)) }
    ensures seen { MatchResult result.1
        (λ _. (sides.view result.0.desk.place).seen ≡ (sides.view writer.desk.place).seen ++ published_by (map meant (drop writer.behind writer.log.items)))
        (λ _. (sides.view result.0.desk.place).seen ≡ (sides.view writer.desk.place).seen) }
    ensures shows { Shows (says result.0.desk.shown.value) (sides.view result.0.desk.place).seen }
    ensures log { MatchResult result.1
        (λ _. drop result.0.behind result.0.log.items ≡ [])
        (λ _. drop result.0.behind result.0.log.items ≡ drop writer.behind writer.log.items) }
{
    writer.publish_as::<Puts<N>, W>(rt)
}

// Shows what waits in the log.
fn show<W: Wait>(rt: &W, writer: ShownWriter) -> (ShownWriter, Result<(), AllocError>)
    requires { IsSound writer.desk.shown.value (sides.view writer.desk.place).seen (map meant (drop writer.behind writer.log.items)) }
    ensures seen { MatchResult result.1
        (λ _. (sides.view result.0.desk.place).seen ≡ (sides.view writer.desk.place).seen ++ published_by (map meant (drop writer.behind writer.log.items)))
        (λ _. (sides.view result.0.desk.place).seen ≡ (sides.view writer.desk.place).seen) }
    ensures shows { Shows (says result.0.desk.shown.value) (sides.view result.0.desk.place).seen }
    ensures log { MatchResult result.1
        (λ _. drop result.0.behind result.0.log.items ≡ [])
        (λ _. drop result.0.behind result.0.log.items ≡ drop writer.behind writer.log.items) }
{
    show_next::<Brand, W>(rt, writer)
}

// Shows what waits, if all of it can be put in the log.
fn show_all<W: Wait>(
    rt: &W,
    writer: &mut ShownWriter,
    rest: &mut Option<Rest>,
) -> Result<(), AllocError>
    requires { IsSound writer.old.desk.shown.value (sides.view writer.old.desk.place).seen (queue_of (drop writer.old.behind writer.old.log.items) rest.old) }
    ensures seen { MatchResult result
        (λ _. (sides.view writer.new.desk.place).seen ≡ (sides.view writer.old.desk.place).seen ++ published_by (queue_of (drop writer.old.behind writer.old.log.items) rest.old))
        (λ _. (sides.view writer.new.desk.place).seen ≡ (sides.view writer.old.desk.place).seen) }
    ensures shows { Shows (says writer.new.desk.shown.value) (sides.view writer.new.desk.place).seen }
    ensures queue { MatchResult result
        (λ _. queue_of (drop writer.new.behind writer.new.log.items) rest.new ≡ [])
        (λ _. queue_of (drop writer.new.behind writer.new.log.items) rest.new ≡ queue_of (drop writer.old.behind writer.old.log.items) rest.old) }
{
    let Ok(()) = finish(writer, rest) else {
        return Err(AllocError);
    };
    replace_with(writer, rt, |writer, rt| show(rt, writer))
}

impl<W: Wait + Drop> Snap<W> {
    /// Empty tables at position 0, with room for so many readers. It keeps `rt`, since publishing waits for readers.
    pub fn new(alloc: Global, rt: W, readers: u32) -> Result<Snap<W>, AllocError>
        requires { readers + 1 < 2 ^ 32 }
        ensures { IfOk result (λ snap. snap ≡ record { published = []; owed = [] }) }
    {
        // One place more than there are readers, which stays free.
        let room = readers as usize + 1;
        let writer = Writer::new(alloc, blank(alloc), blank(alloc), room)?;
        Ok(Snap {
            rt,
            alloc,
            writer,
            rest: None,
            marks: Marks::new(alloc),
        })
    }

    /// A reader that was told of all that was published so far. None where no place for a reader is free.
    pub fn peeker(&mut self) -> Result<Option<Peeker>, AllocError>
        ensures same { self.new ≡ self.old }
        ensures told { IfOk result (λ peeker. IfSome peeker (λ p. p ≡ record { told = self.old.published; knows = self.old.published })) }
    {
        let peeker = fresh(&mut self.writer, &mut self.marks)?;
        // One place stays free, for the fresh reader that `tell` puts in the place of another.
        if !has_place(&self.writer) {
            return Ok(None);
        }
        Ok(peeker)
    }

    /// Publishes changes at a position, behind what is owed. It waits for readers that are in a look at the copy that was shown
    /// before the last one, and so forever if one of them never ends its look.
    pub fn publish(&mut self, pos: u64, changes: &Changes) -> Result<(), Refused>
        requires { last_position (self.old.published ++ self.old.owed) ≤ pos }
        ensures ok { OnOk result (self.new ≡ record { published = (self.old.published ++ self.old.owed) ++ record { pos = pos; changes = changes.now } ∷ []; owed = [] }) }
        ensures not_taken { result ≡ Err Refused.NotTaken → self.new ≡ self.old }
        ensures owed { result ≡ Err Refused.Owed → self.new ≡ record { published = self.old.published; owed = self.old.owed ++ record { pos = pos; changes = changes.now } ∷ [] } }
    {
        let count = self.writer.published().count;
        let needless = self.marks.told_to_all(count);
        publish_in(
            &self.rt,
            self.alloc,
            &mut self.writer,
            &mut self.rest,
            pos,
            changes,
            needless,
        )
    }

    /// Tells a reader of all that was published so far, and learns that all that it saw is a beginning of that. A fresh reader takes
    /// the place of the one that looked. It may wait.
    pub fn tell(&mut self, peeker: &mut Peeker) -> Result<(), Untold>
        requires { StartsWith self.old.published peeker.old.told }
        ensures same { self.new ≡ self.old }
        ensures told { OnOk result (peeker.new ≡ record { told = self.old.published; knows = self.old.published }) }
        ensures saw { OnOk result (StartsWith self.old.published peeker.old.knows) }
        ensures err { OnErr result (peeker.new ≡ peeker.old) }
    {
        tell_in(&self.rt, &mut self.writer, &mut self.marks, peeker)
    }
}

// A reader that was told of all that was published so far.
fn fresh(writer: &mut ShownWriter, marks: &mut Marks) -> Result<Option<Peeker>, AllocError>
    requires { Shows (says writer.old.desk.shown.value) (sides.view writer.old.desk.place).seen }
    ensures told { IfOk result (λ peeker. IfSome peeker (λ p. p ≡ record { told = (sides.view writer.old.desk.place).seen; knows = (sides.view writer.old.desk.place).seen })) }
    ensures shown { writer.new.desk.shown ≡ writer.old.desk.shown }
    ensures seat { sides.view writer.new.desk.place ≡ sides.view writer.old.desk.place }
    ensures log { (writer.new.log ≡ writer.old.log) × (writer.new.behind ≡ writer.old.behind) }
{
    let told = writer.published().count;
    let mark = marks.mark(told)?;
    match told_reader(writer) {
        Some(reader) => Ok(Some(Peeker::new(reader, mark))),
        None => Ok(None),
    }
}

// Takes changes up and shows all that waits.
fn publish_in<W: Wait>(
    rt: &W,
    alloc: Global,
    writer: &mut ShownWriter,
    rest: &mut Option<Rest>,
    pos: u64,
    changes: &Changes,
    needless: u64,
) -> Result<(), Refused>
    requires sound { IsSound writer.old.desk.shown.value (sides.view writer.old.desk.place).seen (queue_of (drop writer.old.behind writer.old.log.items) rest.old) }
    requires pos { last_position ((sides.view writer.old.desk.place).seen ++ published_by (queue_of (drop writer.old.behind writer.old.log.items) rest.old)) ≤ pos }
    ensures sound { IsSound writer.new.desk.shown.value (sides.view writer.new.desk.place).seen (queue_of (drop writer.new.behind writer.new.log.items) rest.new) }
    ensures outcome { Publishes (record { pos = pos; changes = changes.now }) result
        (shelf (sides.view writer.old.desk.place).seen (queue_of (drop writer.old.behind writer.old.log.items) rest.old))
        (shelf (sides.view writer.new.desk.place).seen (queue_of (drop writer.new.behind writer.new.log.items) rest.new)) }
{
    let Ok(()) = take_up(alloc, writer, rest, pos, changes, needless) else {
        return Err(Refused::NotTaken);
    };
    let Ok(()) = show_all(rt, writer, rest) else {
        return Err(Refused::Owed);
    };
    Ok(())
}

// A fresh reader takes the place of the one that looked, which meets the writer.
fn tell_in<W: Wait>(
    rt: &W,
    writer: &mut ShownWriter,
    marks: &mut Marks,
    peeker: &mut Peeker,
) -> Result<(), Untold>
    requires shows { Shows (says writer.old.desk.shown.value) (sides.view writer.old.desk.place).seen }
    requires told { StartsWith (sides.view writer.old.desk.place).seen peeker.old.told }
    ensures told { OnOk result (peeker.new ≡ record { told = (sides.view writer.old.desk.place).seen; knows = (sides.view writer.old.desk.place).seen }) }
    ensures saw { OnOk result (StartsWith (sides.view writer.old.desk.place).seen peeker.old.knows) }
    ensures err { OnErr result (peeker.new ≡ peeker.old) }
    ensures shown { writer.new.desk.shown ≡ writer.old.desk.shown }
    ensures seat { sides.view writer.new.desk.place ≡ sides.view writer.old.desk.place }
    ensures log { (writer.new.log ≡ writer.old.log) × (writer.new.behind ≡ writer.old.behind) }
{
    if !carries_since(writer.published(), peeker.told()) {
        return Err(Untold::LetGo);
    }
    let Ok(Some(fresh)) = fresh(writer, marks) else {
        return Err(Untold::NoMemory);
    };
    let old = replace(peeker, fresh).into_reader();
    meet(rt, writer, old);
    Ok(())
}
