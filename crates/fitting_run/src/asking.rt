//! Whether what stands in a log is what lines of a script ask, as plain programs: each item is compared with each line.
ghost use Rattle.std.specs.Prelude.{◌≡◌, ◌↔◌, IfOk, IsTrue, Some};
ghost use Rattle.std.specs.List.{AllByRecursion, Any};
ghost use Rattle.fitting_run.specs.Acts as acts_of;

use delos_types::entry::Entry;
use delos_types::numbers::NodeId;
use engine_api::content::{Content, Placed};
use engine_api::read::unpack;
use script_text::asks::{Asks, NamedLine};
use script_text::line::Admin;
use std::alloc::{AllocError, Global};
use table_core::command::Command;

fn is_command(told: &Option<Command>, command: &Command) -> bool
    ensures { IsTrue result ↔ (told.now ≡ Some command.now) }
{
    match told {
        Some(c) => c == command,
        None => false,
    }
}

fn asks_for(node: NodeId, asks: &Asks, content: &Content) -> bool
    ensures { IsTrue result ↔ acts_of.AsksFor node asks.now content.now }
{
    match (asks, content) {
        (
            Asks::Logged {
                session,
                rank,
                command,
            },
            Content::Session {
                session: told,
                rank: nth,
                command: said,
            },
        ) => *told == session.id && *nth == *rank && is_command(said, command),
        (Asks::Admin(Admin::Alive), Content::Alive { node: n, .. }) => *n == node,
        (Asks::Admin(Admin::Retire), Content::Leave { node: n }) => *n == node,
        (Asks::Admin(Admin::Trim), Content::Trim { .. }) => true,
        _ => false,
    }
}

fn asks_at(line: &NamedLine, node: NodeId, content: &Content) -> bool
    ensures { IsTrue result ↔ ((line.now.node ≡ node) × acts_of.AsksFor line.now.node line.now.asks content.now) }
{
    line.node == node && asks_for(line.node, &line.asks, content)
}

fn some_asks(lines: &[NamedLine], node: NodeId, content: &Content) -> bool
    ensures { IsTrue result ↔ Any (λ l. (l.node ≡ node) × acts_of.AsksFor l.node l.asks content.now) lines.now }
{
    match lines {
        [] => false,
        [line, rest @ ..] => asks_at(line, node, content) || some_asks(rest, node, content),
    }
}

fn all_are_asked(lines: &[NamedLine], node: NodeId, items: &[Placed]) -> bool
    ensures { IsTrue result ↔ AllByRecursion (λ p. Any (λ l. (l.node ≡ node) × acts_of.AsksFor l.node l.asks p.content) lines.now) items.now }
{
    match items {
        [] => true,
        [item, rest @ ..] => {
            some_asks(lines, node, &item.content) && all_are_asked(lines, node, rest)
        }
    }
}

fn holds_lines(alloc: Global, lines: &[NamedLine], entry: &Entry) -> Result<bool, AllocError>
    ensures { IfOk result (λ holds. IsTrue holds ↔ acts_of.HoldsLines lines.now entry.now) }
{
    let items = unpack(alloc, 0, entry)?;
    Ok(all_are_asked(lines, entry.origin, items.as_slice()))
}

/// Each item of these entries is what a line asks of the node that proposed its entry.
pub fn entries_hold_lines(
    alloc: Global,
    lines: &[NamedLine],
    entries: &[Entry],
) -> Result<bool, AllocError>
    ensures { IfOk result (λ hold. IsTrue hold ↔ AllByRecursion (acts_of.HoldsLines lines.now) entries.now) }
{
    match entries {
        [] => Ok(true),
        [entry, rest @ ..] => {
            let holds = holds_lines(alloc, lines, entry)?;
            if !holds {
                return Ok(false);
            }
            entries_hold_lines(alloc, lines, rest)
        }
    }
}
