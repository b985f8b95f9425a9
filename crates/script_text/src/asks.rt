//! What the lines of a script ask of their nodes.
ghost use Rattle.std.specs.Prelude.{◌≡◌, ◌<◌, ◌++◌, IfOk, OnOk, Some, slice_index, slice_set, replicate};
ghost use Rattle.std.specs.Option.{option_to_list};
ghost use Rattle.script_text.specs.Lines.{lines_of};
ghost use Rattle.script_text.specs.Walks.{one_more, asks_now, logged_now, IsCounted, IsCountedLine, walked, named_now};

use crate::line::{Admin, Ask, Line, Session};
use crate::script::Script;
use delos_types::numbers::{NodeId, Rank, SessionId};
use std::alloc::{AllocError, Global};
use std::marker::Model;
use table_core::command::{Command, Query};

/// What a line asks of its node.
#[derive(Drop)]
pub enum Asks {
    /// The session's command is to be logged. Its rank is its number among the session's logged
    /// lines, from 1.
    Logged {
        session: Session,
        rank: Rank,
        command: Command,
    },
    /// The session looks at the table.
    Look {
        session: Session,
        query: Query,
    },
    /// The node itself is asked.
    Admin(Admin),
}

/// A line that names a node.
#[derive(Drop)]
pub struct NamedLine {
    /// The number of the line, from 1.
    pub number: u64,
    /// How many barriers stand before it.
    pub phase: u64,
    pub node: NodeId,
    pub asks: Asks,
}

/// A list of lines that name a node.
#[derive(Drop)]
pub struct NamedLines {
    items: Vec<NamedLine>,
}

impl Model for NamedLines {
    ghost use Rattle.std.specs.Prelude.{List};
    ghost use Rattle.script_text.specs.declared.asks.NamedLine.{NamedLine};

    ghost Value = { List NamedLine };

    ghost view = { λ l. l.items.items };
}

impl NamedLines {
    ghost use Rattle.std.specs.Prelude.{◌≡◌};

    pub fn as_slice(&self) -> &[NamedLine]
        ensures { result.now ≡ self.now }
    {
        self.items.as_slice()
    }

    /// The lines, which are not copied.
    pub fn into_vec(self) -> Vec<NamedLine>
        ensures { result.items ≡ self }
    {
        let NamedLines { items } = self;
        items
    }
}

// How far a script was walked: how many lines, how many of them barriers, and how many logged lines
// of each session.
#[derive(Drop)]
struct Walk {
    number: u64,
    phase: u64,
    logged: [u64; 64],
}

fn walk_from_the_start() -> Walk
    ensures { result ≡ record { number = 0; phase = 0; logged = replicate 64 0 } }
{
    Walk {
        number: 0,
        phase: 0,
        logged: [0; 64],
    }
}

// Counts a logged line of a session. Its rank is never 0, so there is one.
fn next_rank(logged: &mut [u64; 64], id: SessionId) -> Option<Rank>
    ensures rank { result ≡ Some (one_more (slice_index logged.old id)) }
    ensures logged { logged.new ≡ slice_set logged.old id (one_more (slice_index logged.old id)) }
    ensures counted { id < 64 }
{
    let i = usize::from(id.number());
    let count = logged[i].saturating_add(1);
    logged[i] = count;
    Rank::new(count)
}

fn asks_now(logged: &mut [u64; 64], session: Session, ask: Ask) -> Option<Asks>
    ensures asks { result ≡ Some (asks_now logged.old session ask) }
    ensures logged { logged.new ≡ logged_now logged.old session ask }
    ensures counted { IsCounted session ask }
{
    match ask {
        Ask::Log(command) => {
            let rank = next_rank(logged, session.id)?;
            Some(Asks::Logged {
                session,
                rank,
                command,
            })
        }
        Ask::Look(query) => Some(Asks::Look { session, query }),
    }
}

// Walks over a line, and names it where it names a node.
fn walk_on(walk: &mut Walk, line: Line) -> Option<NamedLine>
    ensures named { result ≡ named_now walk.old line }
    ensures walked { walk.new ≡ walked walk.old line }
    ensures counted { IsCountedLine line }
{
    walk.number = walk.number.saturating_add(1);
    match line {
        Line::Blank => None,
        Line::Session { node, session, ask } => {
            let asks = asks_now(&mut walk.logged, session, ask)?;
            Some(NamedLine {
                number: walk.number,
                phase: walk.phase,
                node,
                asks,
            })
        }
        Line::Admin { node, admin } => Some(NamedLine {
            number: walk.number,
            phase: walk.phase,
            node,
            asks: Asks::Admin(admin),
        }),
        Line::Barrier => {
            walk.phase = walk.phase.saturating_add(1);
            None
        }
    }
}

fn push_some(items: &mut Vec<NamedLine>, named: Option<NamedLine>) -> Result<(), AllocError>
    ensures { OnOk result (items.new.items ≡ items.old.items ++ option_to_list named) }
{
    match named {
        Some(line) => {
            items.push(line)?;
            Ok(())
        }
        None => Ok(()),
    }
}

/// The lines of a script that name a node, in order. Nothing of them is copied.
pub fn named_lines(alloc: Global, script: Script) -> Result<NamedLines, AllocError>
    ensures { IfOk result (λ named. named ≡ lines_of script) }
{
    let lines = script.into_lines();
    let mut items = Vec::with_capacity(alloc, lines.len())?;
    let mut walk = walk_from_the_start();
    for line in lines {
        let named = walk_on(&mut walk, line);
        push_some(&mut items, named)?;
    }
    Ok(NamedLines { items })
}
