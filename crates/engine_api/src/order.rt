//! Session order, as a plain and slow program.
ghost use Rattle.std.specs.Prelude.{◌≡◌, ◌+◌, ◌-◌, ◌++◌, ◌∷◌, [], IfOk, OnOk, filter_map, slice_index};
ghost use Rattle.std.specs.Option.{option_copied};
ghost use Rattle.engine_api.specs.Order as order;

use crate::appearance::{Appearance, Appearances, Asked};
use delos_types::numbers::SessionId;
use std::alloc::{AllocError, Global};

/// What acts among these ranks: each rank of a session once, in order, with the command of its
/// first appearance, where every rank before it has appeared. `acted` has the last rank of each
/// session that acted before, 0 for a session beyond its end. Takes time that grows with the
/// square of the list.
pub fn acted_from(alloc: Global, acted: &[u64], seen: &[Asked]) -> Result<Appearances, AllocError>
    ensures { IfOk result (λ out. out ≡ order.acted_from (λ s. slice_index acted.now s + 1) seen.now) }
{
    let mut out = Vec::new(alloc);
    for (at, x) in seen.iter().enumerate() {
        let last = last_acted(acted, x.session);
        let before = reached(&seen[..at], x.session, last);
        let after = reached(&seen[..at + 1], x.session, last);
        push_acts(&mut out, &seen[..at + 1], x, before, after)?;
    }
    Ok(Appearances::from_vec(out))
}

fn last_acted(acted: &[u64], session: SessionId) -> u64
    ensures { result ≡ slice_index acted.now session }
{
    acted.get(session.number() as usize).copied().unwrap_or(0)
}

fn first_of(seen: &[Asked], session: SessionId, rank: u64) -> Option<&Asked>
    ensures { option_copied result ≡ order.first_of seen.now session rank }
{
    seen.iter()
        .find(|x| x.session == session && x.rank.number() == rank)
}

fn top_rank(seen: &[Asked]) -> u64
    ensures { result ≡ order.top_rank seen.now }
{
    match seen {
        [] => 0,
        [x, rest @ ..] => x.rank.number().max(top_rank(rest)),
    }
}

// The last rank of the session up to which each rank behind `last` appears.
fn reached(seen: &[Asked], session: SessionId, last: u64) -> u64
    ensures { order.gap_from seen.now session (last + 1) ≡ result + 1 }
{
    let top = top_rank(seen);
    let mut reached = last;
    while reached < top && first_of(seen, session, reached + 1).is_some() {
        reached += 1;
    }
    reached
}

// The ranks behind `before`, up to `after`, act at the place of `x`.
fn push_acts(
    out: &mut Vec<Asked>,
    seen: &[Asked],
    x: &Asked,
    before: u64,
    after: u64,
) -> Result<(), AllocError>
    ensures { OnOk result (out.new.items ≡ out.old.items ++ filter_map (order.act_at seen.now x.now) (order.numbers (before + 1) (after - before))) }
{
    let mut rank = before;
    while rank < after {
        rank += 1;
        if let Some(first) = first_of(seen, x.session, rank) {
            let command = first.command.clone()?;
            out.push(Appearance {
                place: x.place,
                session: x.session,
                rank: first.rank,
                command,
            })?;
        }
    }
    Ok(())
}

/// Whether each rank that appears has acted, or acted before: no rank waits for one below it.
pub fn is_clean(acted: &[u64], seen: &[Asked]) -> bool
    ensures { result ≡ order.is_clean (λ s. slice_index acted.now s + 1) seen.now }
{
    seen.iter().all(|x| x.rank.number() <= reached(seen, x.session, last_acted(acted, x.session)))
}
