//! What a log does, as a plain and slow program.
ghost use Rattle.std.specs.Prelude.{◌≡◌, ◌<◌, ◌≤◌, ◌+◌, ◌^◌, ◌++◌, ◌∷◌, IfOk, OnErr, length, slice_index};
ghost use Rattle.std.specs.Option.{option_copied};
ghost use Rattle.engine_api.specs.Acted as log;

use crate::act::{Act, Acts};
use crate::appearance::{Appearance, Appearances, Asked};
use crate::content::{Content, Placed, PlacedList};
use crate::order::acted_from;
use crate::read::unpack;
use delos_types::entry::Entry;
use std::alloc::{AllocError, Global};
use table_core::command::{Command, Reply};
use table_core::table::Table;

/// What acted, and the table after it.
#[derive(Drop)]
pub struct Acted {
    pub acts: Acts,
    pub table: Table,
}

/// These commands one after another on the table, each with its reply.
pub fn replied(alloc: Global, table: Table, asked: &[Asked]) -> Result<Acted, AllocError>
    ensures acts { IfOk result (λ done. done.acts ≡ log.replied table asked.now) }
    ensures table { IfOk result (λ done. done.table ≡ log.table_after table done.acts) }
{
    let mut table = table;
    let mut acts = Vec::new(alloc);
    for x in asked {
        let reply = act_on(alloc, &mut table, x.command.as_ref())?;
        let command = x.command.clone()?;
        acts.push(Act {
            place: x.place,
            session: x.session,
            rank: x.rank,
            command,
            reply,
        })?;
    }
    Ok(Acted {
        acts: Acts::from_vec(acts),
        table,
    })
}

fn act_on(
    alloc: Global,
    table: &mut Table,
    command: Option<&Command>,
) -> Result<Option<Reply>, AllocError>
    ensures table { IfOk result (λ _. table.new ≡ (log.act_on table.old (option_copied command.entry)).0) }
    ensures reply { IfOk result (λ reply. reply ≡ (log.act_on table.old (option_copied command.entry)).1) }
{
    let Some(command) = command else {
        return Ok(None);
    };
    let reply = table.act(alloc, command)?;
    Ok(Some(reply))
}

/// The ranks of sessions that stand there.
pub fn appearances(alloc: Global, placed: &[Placed]) -> Result<Appearances, AllocError>
    ensures { IfOk result (λ out. out ≡ log.appearances placed.now) }
{
    let mut out = Vec::new(alloc);
    for p in placed {
        let Content::Session {
            session,
            rank,
            command,
        } = &p.content
        else {
            continue;
        };
        let command = command.clone()?;
        out.push(Appearance {
            place: p.place,
            session: *session,
            rank: *rank,
            command,
        })?;
    }
    Ok(Appearances::from_vec(out))
}

/// All items of these entries, which stand at one position after another from `pos` on.
pub fn unpack_all(alloc: Global, pos: u64, entries: &[Entry]) -> Result<PlacedList, AllocError>
    requires { pos + length entries.now ≤ 2 ^ 64 }
    ensures { IfOk result (λ placed. placed ≡ log.unpack_all pos entries.now) }
{
    let mut placed = Vec::new(alloc);
    for (i, entry) in entries.iter().enumerate() {
        let mut here = unpack(alloc, pos + i as u64, entry)?.into_vec();
        placed.append(&mut here)?;
    }
    Ok(PlacedList::from_vec(placed))
}

/// What acts in these entries, which stand at one position after another from `pos` on, from a
/// table and the last rank of each session that acted before (0 for a session beyond its end).
/// Takes time that grows with the square of the log.
pub fn acted_log(
    alloc: Global,
    table: Table,
    acted: &[u64],
    pos: u64,
    entries: &[Entry],
) -> Result<Acted, AllocError>
    requires { pos + length entries.now ≤ 2 ^ 64 }
    ensures acts { IfOk result (λ done. done.acts ≡ log.acted_log table (λ s. slice_index acted.now s + 1) pos entries.now) }
    ensures table { IfOk result (λ done. done.table ≡ log.table_after table done.acts) }
{
    let placed = unpack_all(alloc, pos, entries)?;
    let seen = appearances(alloc, placed.as_slice())?;
    let order = acted_from(alloc, acted, seen.as_slice())?;
    replied(alloc, table, order.as_slice())
}
