//! The tests of replacements of the loglet, as plain programs: what the lines that asked for one were answered, and the chain that
//! is told. Those of two rows compare each row with each later one.
ghost use Rattle.std.specs.Prelude.{◌≡◌, ◌==◌};
ghost use Rattle.std.specs.List.{list_all, list_any};
ghost use Rattle.fitting_run.specs.Tests.{each_pair};
ghost use Rattle.fitting_run.specs.Replacements as replacements;
ghost use Rattle.chain_map.specs.Chain.{first_start, last_id};

use crate::answered::Answered;
use crate::yard::last_segment;
use delos_types::chain::{Chain, Segment};
use delos_types::numbers::NodeId;
use row_text::row::Outcome;
use script_text::asks::NamedLine;
use script_text::faults::{FaultAsk, FaultLine};

fn start_made(outcome: &Outcome) -> Option<u64>
    ensures { result ≡ replacements.start_made outcome.now }
{
    match outcome {
        Outcome::Extended { start, .. } => Some(*start),
        _ => None,
    }
}

fn version_told(outcome: &Outcome) -> Option<u64>
    ensures { result ≡ replacements.version_told outcome.now }
{
    match outcome {
        Outcome::Extended { version, .. } | Outcome::Moved { version } => Some(*version),
        _ => None,
    }
}

fn lacks_spare(outcome: &Outcome) -> bool
    ensures { result ≡ replacements.lacks_spare outcome.now }
{
    match outcome {
        Outcome::NoSpare => true,
        _ => false,
    }
}

pub(crate) fn is_behind(a: &Answered, b: &Answered) -> bool
    ensures { result ≡ replacements.is_behind a.now b.now }
{
    a.line.node == b.line.node || a.line.phase < b.line.phase
}

fn make_in_order(a: &Outcome, b: &Outcome) -> bool
    ensures { result ≡ replacements.make_in_order a.now b.now }
{
    match (a, b) {
        (
            Outcome::Extended {
                version: v,
                start: s,
            },
            Outcome::Extended {
                version: w,
                start: t,
            },
        ) => (v < w && s <= t) || (w < v && t <= s),
        _ => true,
    }
}

fn all_make_in_order(a: &Answered, rest: &[Answered]) -> bool
    ensures { result ≡ list_all (λ b. replacements.make_in_order a.now.row.outcome b.row.outcome) rest.now }
{
    rest.iter()
        .all(|b| make_in_order(&a.row.outcome, &b.row.outcome))
}

/// No two lines made one version of the chain, and the segment of the lower version doesn't begin above that of the higher.
pub fn versions_are_in_order(told: &[Answered]) -> bool
    ensures { result ≡ each_pair (λ a b. replacements.make_in_order a.row.outcome b.row.outcome) told.now }
{
    match told {
        [] => true,
        [a, rest @ ..] => all_make_in_order(a, rest) && versions_are_in_order(rest),
    }
}

fn tells_higher(a: &Answered, b: &Answered) -> bool
    ensures { result ≡ replacements.tells_higher a.now b.now }
{
    if !is_behind(a, b) {
        return true;
    }
    match (version_told(&a.row.outcome), version_told(&b.row.outcome)) {
        (Some(v), Some(w)) => v < w,
        _ => true,
    }
}

fn all_tell_higher(a: &Answered, rest: &[Answered]) -> bool
    ensures { result ≡ list_all (replacements.tells_higher a.now) rest.now }
{
    rest.iter().all(|b| tells_higher(a, b))
}

/// The versions that are told rise along the lines of a node, and from phase to phase.
pub fn versions_rise(told: &[Answered]) -> bool
    ensures { result ≡ each_pair replacements.tells_higher told.now }
{
    match told {
        [] => true,
        [a, rest @ ..] => all_tell_higher(a, rest) && versions_rise(rest),
    }
}

fn stays_spent(a: &Answered, b: &Answered) -> bool
    ensures { result ≡ replacements.stays_spent a.now b.now }
{
    let is_spent = is_behind(a, b) && lacks_spare(&a.row.outcome);
    !is_spent || version_told(&b.row.outcome).is_none()
}

fn all_stay_spent(a: &Answered, rest: &[Answered]) -> bool
    ensures { result ≡ list_all (replacements.stays_spent a.now) rest.now }
{
    rest.iter().all(|b| stays_spent(a, b))
}

/// Where no loglet was to spare, none is replaced by a later line of the node, or in a later phase.
pub fn shelf_stays_spent(told: &[Answered]) -> bool
    ensures { result ≡ each_pair replacements.stays_spent told.now }
{
    match told {
        [] => true,
        [a, rest @ ..] => all_stay_spent(a, rest) && shelf_stays_spent(rest),
    }
}

// How many rows of the node tell a version.
fn versions_at(node: NodeId, told: &[Answered]) -> u64
    ensures { result ≡ replacements.versions_at node told.now }
{
    let mut count = 0;
    for a in told {
        if a.line.node == node && version_told(&a.row.outcome).is_some() {
            count += 1;
        }
    }
    count
}

fn last_id(chain: &Chain) -> u32
    ensures { result ≡ last_id chain.now }
{
    last_segment(chain.segments.as_slice()).id
}

/// There are ids in the chain for all the versions that rows of one node tell, in time that is the square of the rows' number.
pub fn each_has_an_id(chain: &Chain, told: &[Answered]) -> bool
    ensures { result ≡ list_all (replacements.has_ids chain.now told.now) told.now }
{
    let last = u64::from(last_id(chain));
    told.iter().all(|a| versions_at(a.line.node, told) <= last)
}

pub(crate) fn first_start(chain: &Chain) -> u64
    ensures { result ≡ first_start chain.now }
{
    match chain.segments.as_slice() {
        [] => 0,
        [first, ..] => first.start,
    }
}

fn some_begins_at(segments: &[Segment], start: u64) -> bool
    ensures { result ≡ list_any (λ g. g.start == start) segments.now }
{
    segments.iter().any(|segment| segment.start == start)
}

fn begins_at(chain: &Chain, start: u64) -> bool
    ensures { result ≡ replacements.begins_at chain.now start }
{
    some_begins_at(chain.segments.as_slice(), start) || start < first_start(chain)
}

fn has_begun(chain: &Chain, a: &Answered) -> bool
    ensures { result ≡ replacements.has_begun chain.now a.now }
{
    match start_made(&a.row.outcome) {
        Some(start) => begins_at(chain, start),
        None => true,
    }
}

/// Where a line replaced the loglet, a segment of the chain begins, or all of them begin above.
pub fn starts_stand(chain: &Chain, told: &[Answered]) -> bool
    ensures { result ≡ list_all (replacements.has_begun chain.now) told.now }
{
    told.iter().all(|a| has_begun(chain, a))
}

fn tells_upto(version: u64, a: &Answered) -> bool
    ensures { result ≡ replacements.tells_upto version a.now }
{
    match version_told(&a.row.outcome) {
        Some(told) => told <= version,
        None => true,
    }
}

/// The versions that are told are at most this one.
pub fn versions_are_upto(version: u64, told: &[Answered]) -> bool
    ensures { result ≡ list_all (replacements.tells_upto version) told.now }
{
    told.iter().all(|a| tells_upto(version, a))
}

fn is_overtaken(lines: &[NamedLine], faults: &[FaultLine], a: &Answered) -> bool
    ensures { result ≡ replacements.is_overtaken lines.now faults.now a.now }
{
    match &a.row.outcome {
        Outcome::Moved { version } => {
            2 <= *version && (has_line_beside(lines, a) || has_stop_beside(faults, a))
        }
        _ => true,
    }
}

fn has_line_beside(lines: &[NamedLine], a: &Answered) -> bool
    ensures { result ≡ list_any (replacements.is_beside a.now) lines.now }
{
    lines.iter().any(|line| line.phase == a.line.phase && line.node != a.line.node)
}

fn has_stop_beside(faults: &[FaultLine], a: &Answered) -> bool
    ensures { result ≡ list_any (replacements.stops_beside a.now) faults.now }
{
    faults.iter().any(|fault| stops_beside(a, fault))
}

fn stops_beside(a: &Answered, fault: &FaultLine) -> bool
    ensures { result ≡ replacements.stops_beside a.now fault.now }
{
    fault.phase == a.line.phase && stops_another(a.line.node, &fault.asks)
}

fn stops_another(node: NodeId, asked: &FaultAsk) -> bool
    ensures { result ≡ replacements.stops_another node asked.now }
{
    match asked {
        FaultAsk::Stop { node: stopped, .. } => *stopped != node,
        _ => false,
    }
}

/// A line that found another node's replacement found no first chain, and another node has a line in its phase, or is stopped in it.
pub fn overtaken_by_others(lines: &[NamedLine], faults: &[FaultLine], told: &[Answered]) -> bool
    ensures { result ≡ list_all (replacements.is_overtaken lines.now faults.now) told.now }
{
    told.iter().all(|a| is_overtaken(lines, faults, a))
}

fn is_spent(chain: &Chain, shelf: usize, a: &Answered) -> bool
    ensures { result ≡ replacements.is_spent chain.now shelf a.now }
{
    !lacks_spare(&a.row.outcome) || u64::from(last_id(chain)) + 1 == shelf as u64
}

/// Where no loglet was to spare, the last segment is of the last loglet of the shelf.
pub fn shelf_is_spent(chain: &Chain, shelf: usize, told: &[Answered]) -> bool
    ensures { result ≡ list_all (replacements.is_spent chain.now shelf) told.now }
{
    told.iter().all(|a| is_spent(chain, shelf, a))
}

/// Each version behind the first has a loglet of its own, but for those that trimmed the log; and a segment, where none did.
pub fn versions_go_by_ones(version: u64, chain: &Chain) -> bool
    ensures { result ≡ replacements.goes_by_ones version chain.now }
{
    let last = u64::from(last_id(chain));
    if chain.trim == 0 {
        version == last + 1 && chain.segments.as_slice().len() as u64 == last + 1
    } else {
        last + 2 <= version
    }
}
