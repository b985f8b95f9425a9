//! Who is a member, how far each has got, and what may be trimmed, as plain and slow programs.
ghost use Rattle.std.specs.Prelude.{◌≡◌, ◌≤◌, ◌<◌, ◌^◌, ◌+◌, IfOk, length, min, unwrap_or};
ghost use Rattle.std.specs.Option.{option_map};
ghost use Rattle.engine_api.specs.Members as members;
ghost use Rattle.engine_api.specs.Order as order;

use crate::acted::{appearances, unpack_all};
use crate::content::{Content, Placed};
use crate::order::is_clean;
use delos_types::entry::Entry;
use delos_types::numbers::NodeId;
use std::alloc::{AllocError, Global};

/// Whether the node is a member: all nodes are at first, and none that left.
pub fn is_member(placed: &[Placed], node: NodeId) -> bool
    ensures { result ≡ members.is_member placed.now node }
{
    !has_left(placed, node)
}

fn has_left(placed: &[Placed], node: NodeId) -> bool
    ensures { result ≡ members.has_left placed.now node }
{
    placed.iter().any(|p| is_leave_of(node, &p.content))
}

fn is_leave_of(node: NodeId, content: &Content) -> bool
    ensures { result ≡ members.is_leave_of node content.now }
{
    match content {
        Content::Leave { node: left } => *left == node,
        _ => false,
    }
}

/// The greatest position that the node reported, 0 where it reported none.
pub fn position_of(placed: &[Placed], node: NodeId) -> u64
    ensures { result ≡ members.position_of placed.now node }
{
    match placed {
        [] => 0,
        [p, rest @ ..] => {
            let others = position_of(rest, node);
            match report_of(node, &p.content) {
                Some(position) => position.max(others),
                None => others,
            }
        }
    }
}

fn report_of(node: NodeId, content: &Content) -> Option<u64>
    ensures { result ≡ members.report_of node content.now }
{
    match content {
        Content::Alive {
            node: from,
            position,
        } => {
            if *from == node {
                return Some(*position);
            }
            None
        }
        _ => None,
    }
}

/// The least position of a member among the nodes 1 to `nodes`, of which there are at most 8; 0
/// where none is a member.
pub fn least_position(nodes: u8, placed: &[Placed]) -> u64
    requires { nodes ≤ 8 }
    ensures { result ≡ members.least_position nodes placed.now }
{
    let mut least = None;
    for number in 1..=nodes {
        let Some(node) = NodeId::new(number) else {
            continue;
        };
        if !is_member(placed, node) {
            continue;
        }
        least = Some(lesser(least, position_of(placed, node)));
    }
    least.unwrap_or(0)
}

// The least so far, with one more position.
fn lesser(least: Option<u64>, position: u64) -> u64
    ensures { result ≡ unwrap_or (option_map (λ q. min q position) least) position }
{
    match least {
        None => position,
        Some(least) => least.min(position),
    }
}

/// The greatest position below which a trim was asked for, 0 where none was.
pub fn trim_point(placed: &[Placed]) -> u64
    ensures { result ≡ members.trim_point placed.now }
{
    match placed {
        [] => 0,
        [p, rest @ ..] => {
            let others = trim_point(rest);
            match p.content {
                Content::Trim { position } => position.max(others),
                _ => others,
            }
        }
    }
}

/// The greatest number of entries from the front that are clean: each rank of a session that
/// appears among them acts among them. Takes time that grows with the cube of the log.
pub fn clean_position(alloc: Global, entries: &[Entry]) -> Result<usize, AllocError>
    ensures { IfOk result (λ n. n ≡ members.clean_position entries.now) }
{
    let mut clean = 0;
    for n in 0..=entries.len() {
        let is_clean = clean_at(alloc, entries, n)?;
        if !is_clean {
            continue;
        }
        clean = n;
    }
    Ok(clean)
}

fn clean_at(alloc: Global, entries: &[Entry], n: usize) -> Result<bool, AllocError>
    requires { n ≤ length entries.now }
    ensures { IfOk result (λ clean. clean ≡ members.clean_at entries.now n) }
{
    let placed = unpack_all(alloc, 0, &entries[..n])?;
    let seen = appearances(alloc, placed.as_slice())?;
    Ok(is_clean(&[], seen.as_slice()))
}
