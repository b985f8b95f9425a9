//! What placed rows say was done, what the log lets act, and what reads show, as plain and slow programs.
ghost use Rattle.std.specs.Prelude.{◌≡◌, ◌↔◌, ◌≤◌, ◌+◌, ◌^◌, IfOk, OnOk, IsTrue, [], length, map};
ghost use Rattle.std.specs.FinMap as finmap;
ghost use Rattle.std.specs.List.{AllByRecursion};
ghost use Rattle.std.specs.Option.{option_to_list};
ghost use Rattle.engine_api.specs.Acted as log;
ghost use Rattle.fitting_run.specs.Acts as acts_of;
ghost use Rattle.fitting_run.specs.Reads as reads;
ghost use Rattle.fitting_run.specs.Turns as turns_of;

use crate::answered::Answered;
use delos_types::entry::Entry;
use delos_types::numbers::{Rank, SessionId};
use delos_types::place::Place;
use engine_api::act::{Act, Acts};
use engine_api::acted::{Acted, acted_log, replied};
use engine_api::appearance::{Appearance, Appearances};
use row_text::row::Outcome;
use script_text::asks::Asks;
use std::alloc::{AllocError, Global};
use std::collections::BTreeMap;
use table_core::command::{Found, Pair};
use table_core::table::Table;

/// Where what acted stands among the rest: by its place, and at one place by rank.
#[derive(Clone, Copy, PartialEq, Eq, PartialOrd, Ord)]
pub struct Turn {
    pub place: Place,
    pub rank: Rank,
    pub session: SessionId,
}

// What a placed row says acted.
fn act_of(answered: &Answered) -> Result<Option<Act>, AllocError>
    ensures { IfOk result (λ act. option_to_list act ≡ acts_of.act_of answered.now.line.asks answered.now.row.outcome) }
{
    match (&answered.line.asks, &answered.row.outcome) {
        (
            Asks::Logged {
                session,
                rank,
                command,
            },
            Outcome::Placed { place, reply, .. },
        ) => {
            let command = command.clone()?;
            let reply = reply.clone()?;
            Ok(Some(Act {
                place: *place,
                session: session.id,
                rank: *rank,
                command: Some(command),
                reply,
            }))
        }
        _ => Ok(None),
    }
}

fn put_act(turns: &mut BTreeMap<Turn, Act>, act: Option<Act>) -> Result<(), AllocError>
    ensures { OnOk result (turns.new.entries ≡ turns_of.with_acts turns.old.entries (option_to_list act)) }
{
    let Some(act) = act else {
        return Ok(());
    };
    let turn = Turn {
        place: act.place,
        rank: act.rank,
        session: act.session,
    };
    turns.insert(turn, act)?;
    Ok(())
}

fn in_turn(alloc: Global, told: &[Answered]) -> Result<BTreeMap<Turn, Act>, AllocError>
    ensures { IfOk result (λ turns. turns.entries ≡ turns_of.with_acts [] (turns_of.acts_told told.now)) }
{
    let mut turns = BTreeMap::new(alloc);
    for answered in told {
        let act = act_of(answered)?;
        put_act(&mut turns, act)?;
    }
    Ok(turns)
}

fn copy_of(act: &Act) -> Result<Act, AllocError>
    ensures { IfOk result (λ copy. copy ≡ act.now) }
{
    let command = act.command.clone()?;
    let reply = act.reply.clone()?;
    Ok(Act {
        place: act.place,
        session: act.session,
        rank: act.rank,
        command,
        reply,
    })
}

fn acts_in(alloc: Global, turns: &BTreeMap<Turn, Act>) -> Result<Acts, AllocError>
    ensures { IfOk result (λ acts. acts ≡ map (λ e. e.1) turns.now.entries) }
{
    let mut acts = Vec::new(alloc);
    for act in turns.values() {
        acts.push(copy_of(act)?)?;
    }
    Ok(Acts::from_vec(acts))
}

/// What the placed rows say acted, in the order of their places, and at one place of their ranks.
pub fn placed_acts(alloc: Global, told: &[Answered]) -> Result<Acts, AllocError>
    ensures { IfOk result (λ acts. acts ≡ acts_of.placed_acts told.now) }
{
    let turns = in_turn(alloc, told)?;
    acts_in(alloc, &turns)
}

fn acts_below(alloc: Global, pos: u64, acts: &[Act]) -> Result<Acts, AllocError>
    ensures { IfOk result (λ below. below ≡ acts_of.acts_below pos acts.now) }
{
    let mut below = Vec::new(alloc);
    for act in acts {
        if act.place.pos < pos {
            below.push(copy_of(act)?)?;
        }
    }
    Ok(Acts::from_vec(below))
}

fn acts_from(alloc: Global, pos: u64, acts: &[Act]) -> Result<Acts, AllocError>
    ensures { IfOk result (λ above. above ≡ turns_of.acts_from pos acts.now) }
{
    let mut above = Vec::new(alloc);
    for act in acts {
        if pos <= act.place.pos {
            above.push(copy_of(act)?)?;
        }
    }
    Ok(Acts::from_vec(above))
}

// The same, without what was answered.
fn asked_of(alloc: Global, acts: &[Act]) -> Result<Appearances, AllocError>
    ensures { IfOk result (λ asked. asked ≡ map turns_of.asked acts.now) }
{
    let mut asked = Vec::new(alloc);
    for act in acts {
        let command = act.command.clone()?;
        asked.push(Appearance {
            place: act.place,
            session: act.session,
            rank: act.rank,
            command,
        })?;
    }
    Ok(Appearances::from_vec(asked))
}

fn same_act(a: &Act, b: &Act) -> bool
    ensures { IsTrue result ↔ (a.now ≡ b.now) }
{
    a.place == b.place
        && a.session == b.session
        && a.rank == b.rank
        && a.command == b.command
        && a.reply == b.reply
}

fn same_acts(some: &[Act], others: &[Act]) -> bool
    ensures { IsTrue result ↔ (some.now ≡ others.now) }
{
    match (some, others) {
        ([], []) => true,
        ([a, more @ ..], [b, rest @ ..]) => same_act(a, b) && same_acts(more, rest),
        _ => false,
    }
}

/// Those of these acts that are below the trim have the replies of the table, from the empty one on.
pub fn have_replies(alloc: Global, trim: u64, acts: &[Act]) -> Result<bool, AllocError>
    ensures { let below = acts_of.acts_below trim acts.now in
        IfOk result (λ holds. IsTrue holds ↔ (below ≡ log.replied finmap.empty (map turns_of.asked below))) }
{
    let below = acts_below(alloc, trim, acts)?;
    let asked = asked_of(alloc, below.as_slice())?;
    let done = replied(alloc, Table::new(alloc), asked.as_slice())?;
    Ok(same_acts(below.as_slice(), done.acts.as_slice()))
}

fn table_after(alloc: Global, acts: &[Act]) -> Result<Table, AllocError>
    ensures { IfOk result (λ table. table ≡ log.table_after finmap.empty acts.now) }
{
    let mut table = Table::new(alloc);
    for act in acts {
        if let Some(command) = &act.command {
            let _ = table.act(alloc, command)?;
        }
    }
    Ok(table)
}

// How many of these acts are each session's.
fn numbers_of(acts: &[Act]) -> [u64; 64]
    ensures { turns_of.AreNumbers result acts.now }
{
    let mut numbers = [0; 64];
    for act in acts {
        numbers[usize::from(act.session.number())] += 1;
    }
    numbers
}

// What these entries let act, which the log has from the trim on, where those of these acts came before that are below it.
fn acted_behind(
    alloc: Global,
    trim: u64,
    acts: &[Act],
    entries: &[Entry],
) -> Result<Acted, AllocError>
    requires { trim + length entries.now ≤ 2 ^ 64 }
    ensures { let below = acts_of.acts_below trim acts.now in
        IfOk result (λ done. done.acts ≡ log.acted_log (log.table_after finmap.empty below) (turns_of.next_rank below) trim entries.now) }
{
    let below = acts_below(alloc, trim, acts)?;
    let table = table_after(alloc, below.as_slice())?;
    let numbers = numbers_of(below.as_slice());
    acted_log(alloc, table, &numbers, trim, entries)
}

/// Those of these acts that are at the trim or above are what the log lets act there, with places and replies: these entries, which
/// it has from the trim on. Takes time that grows with the square of the log.
pub fn log_shows(
    alloc: Global,
    trim: u64,
    acts: &[Act],
    entries: &[Entry],
) -> Result<bool, AllocError>
    requires { trim + length entries.now ≤ 2 ^ 64 }
    ensures { let below = acts_of.acts_below trim acts.now in
        IfOk result (λ holds. IsTrue holds ↔ (turns_of.acts_from trim acts.now ≡ log.acted_log (log.table_after finmap.empty below) (turns_of.next_rank below) trim entries.now)) }
{
    let done = acted_behind(alloc, trim, acts, entries)?;
    let above = acts_from(alloc, trim, acts)?;
    Ok(same_acts(above.as_slice(), done.acts.as_slice()))
}

fn same_pair(p: &Pair, q: &Pair) -> bool
    ensures { IsTrue result ↔ (p.now ≡ q.now) }
{
    p.key == q.key && p.value == q.value
}

fn same_pairs(some: &[Pair], others: &[Pair]) -> bool
    ensures { IsTrue result ↔ (some.now ≡ others.now) }
{
    match (some, others) {
        ([], []) => true,
        ([p, more @ ..], [q, rest @ ..]) => same_pair(p, q) && same_pairs(more, rest),
        _ => false,
    }
}

fn same_found(a: &Found, b: &Found) -> bool
    ensures { IsTrue result ↔ (a.now ≡ b.now) }
{
    match (a, b) {
        (Found::Nothing, Found::Nothing) => true,
        (Found::Value(v), Found::Value(w)) => v == w,
        (Found::All(some), Found::All(others)) => same_pairs(some.as_slice(), others.as_slice()),
        _ => false,
    }
}

fn shows(alloc: Global, acts: &[Act], a: &Answered) -> Result<bool, AllocError>
    ensures { IfOk result (λ holds. IsTrue holds ↔ turns_of.ShowsAfter acts.now a.now.line.asks a.now.row.outcome) }
{
    match (&a.line.asks, &a.row.outcome) {
        (Asks::Look { query, .. }, Outcome::Read { after, found }) => {
            let below = acts_below(alloc, *after, acts)?;
            let table = table_after(alloc, below.as_slice())?;
            let shown = table.read(alloc, query)?;
            Ok(same_found(found, &shown))
        }
        _ => Ok(true),
    }
}

fn all_show(alloc: Global, acts: &[Act], some: &[Answered]) -> Result<bool, AllocError>
    ensures { IfOk result (λ holds. IsTrue holds ↔ AllByRecursion (λ a. turns_of.ShowsAfter acts.now a.line.asks a.row.outcome) some.now) }
{
    match some {
        [] => Ok(true),
        [a, rest @ ..] => {
            let holds = shows(alloc, acts, a)?;
            if !holds {
                return Ok(false);
            }
            all_show(alloc, acts, rest)
        }
    }
}

/// Each read shows the table after all that was placed below the position that it looked at. The placed commands are done again for
/// each read.
pub fn reads_show(alloc: Global, told: &[Answered]) -> Result<bool, AllocError>
    ensures { IfOk result (λ holds. IsTrue holds ↔ AllByRecursion (λ a. reads.Shows told.now a.line.asks a.row.outcome) told.now) }
{
    let acts = placed_acts(alloc, told)?;
    all_show(alloc, acts.as_slice(), told)
}
