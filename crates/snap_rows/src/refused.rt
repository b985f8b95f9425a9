//! Publishing where memory runs out: what was shown stays, and what is owed goes out with the next.
//!
//! Each call is made again where it was refused for memory, so that a run in which one allocation fails gets to its end.
ghost use Rattle.std.specs.Prelude.{◌<◌};

use crate::board::{Board, Unshown};
use crate::course::{KEYS, TABLES, changes_at, is_text_at};
use anyhow::{Context, Result, bail};
use snap_reads::Seen;
use std::alloc::Global;
use std::sync::Wait;

/// How many positions are published.
const LAST: u64 = 24;

/// How calls ended: publishing that was shown, was not taken up, or is owed, and other calls that were made again.
#[derive(Drop)]
struct Counts {
    shown: u64,
    not_taken: u64,
    owed: u64,
    elsewhere: u64,
}

/// A map with one reader.
fn board_with_reader<W: Wait>(rt: &W, alloc: Global) -> Result<Board<&W>> {
    let mut board = Board::new(alloc, rt, 1)?;
    board.reader()?.context("no room")?;
    Ok(board)
}

/// Publishes the changes of a position, once more where they were not taken up. Whether they are shown.
fn publish<W: Wait>(
    board: &mut Board<&W>,
    alloc: Global,
    pos: u64,
    counts: &mut Counts,
) -> Result<bool> {
    let changes = match changes_at(alloc, pos) {
        Ok(changes) => changes,
        Err(_) => {
            counts.elsewhere = counts.elsewhere.saturating_add(1);
            changes_at(alloc, pos)?
        }
    };
    for _ in 0..2 {
        match board.publish(pos, &changes) {
            Ok(()) => {
                counts.shown = counts.shown.saturating_add(1);
                return Ok(true);
            }
            Err(Unshown::NotTaken) => {
                counts.not_taken = counts.not_taken.saturating_add(1);
            }
            Err(Unshown::Owed) => {
                counts.owed = counts.owed.saturating_add(1);
                return Ok(false);
            }
            Err(Unshown::Low) => bail!("the position is low"),
        }
    }
    bail!("not taken up, twice")
}

/// One look, and whether it gives what stands there at this position.
fn sees<W: Wait>(
    board: &mut Board<&W>,
    alloc: Global,
    pos: u64,
    table: usize,
    key: usize,
) -> Result<bool>
    requires table { table < 2 }
    requires key { key < 4 }
{
    let seen = board.see(0, TABLES[table].as_bytes(), KEYS[key].as_bytes());
    match seen.context("no reader")?? {
        Some(Seen { pos: at, value }) => {
            Ok(at == pos && is_text_at(alloc, &value, pos, table, key)?)
        }
        None => Ok(false),
    }
}

/// The reader sees all that stands at this position.
fn sees_all<W: Wait>(
    board: &mut Board<&W>,
    alloc: Global,
    pos: u64,
    counts: &mut Counts,
) -> Result<()> {
    for table in 0..2usize {
        for key in 0..4usize {
            let is_right = match sees(board, alloc, pos, table, key) {
                Ok(is_right) => is_right,
                Err(_) => {
                    counts.elsewhere = counts.elsewhere.saturating_add(1);
                    sees(board, alloc, pos, table, key)?
                }
            };
            if !is_right {
                bail!("it doesn't see what was shown");
            }
        }
    }
    Ok(())
}

/// Tells the reader, once more where that was refused.
fn tell<W: Wait>(board: &mut Board<&W>, counts: &mut Counts) -> Result<()> {
    for _ in 0..2 {
        match board.tell(0) {
            Some(Ok(())) => return Ok(()),
            _ => counts.elsewhere = counts.elsewhere.saturating_add(1),
        }
    }
    bail!("not told, twice")
}

/// Publishes a course, looks at all of it after each position, and tells the reader after each third. How the calls ended.
pub fn run<W: Wait>(rt: &W, alloc: Global) -> Result<String> {
    let mut counts = Counts {
        shown: 0,
        not_taken: 0,
        owed: 0,
        elsewhere: 0,
    };
    let mut board = match board_with_reader(rt, alloc) {
        Ok(board) => board,
        Err(_) => {
            counts.elsewhere = 1;
            board_with_reader(rt, alloc)?
        }
    };
    let mut shown = 0u64;
    for pos in 1..=LAST {
        if publish(&mut board, alloc, pos, &mut counts)? {
            shown = pos;
        }
        sees_all(&mut board, alloc, shown, &mut counts)?;
        if pos % 3 == 0 {
            tell(&mut board, &mut counts)?;
        }
    }
    told(alloc, &counts, shown)
}

fn told(alloc: Global, counts: &Counts, shown: u64) -> Result<String> {
    let Counts {
        shown: ok,
        not_taken,
        owed,
        elsewhere,
    } = counts;
    Ok(format!(in alloc;
        "shown {ok}, not taken {not_taken}, owed {owed}, again elsewhere {elsewhere}, last {shown}\n"
    )?)
}
