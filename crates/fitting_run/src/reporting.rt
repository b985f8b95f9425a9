//! The tests of what nodes report of the log, as plain programs. `reports_reach` and `rows_stay_above` compare each row with all rows.
ghost use Rattle.std.specs.Prelude.{◌≡◌};
ghost use Rattle.std.specs.List.{list_all, list_any};
ghost use Rattle.engine_api.specs.Members.{has_left, is_leave_of};
ghost use Rattle.fitting_run.specs.Reports as reports;
ghost use Rattle.fitting_run.specs.Tests.{each_pair};

use crate::answered::Answered;
use crate::fitting::{before_barrier, logs, place_on_time};
use crate::replacing::is_behind;
use delos_types::numbers::NodeId;
use engine_api::content::{Content, Placed};
use row_text::row::Outcome;

pub(crate) fn reported(outcome: &Outcome) -> Option<u64>
    ensures { result ≡ reports.reported outcome.now }
{
    match outcome {
        Outcome::Alive { clean } => Some(*clean),
        _ => None,
    }
}

fn is_within(end: u64, b: &Answered) -> bool
    ensures { result ≡ reports.is_within end b.now }
{
    match reported(&b.row.outcome) {
        Some(clean) => clean <= end,
        None => true,
    }
}

/// No row reports more entries than the log has.
pub fn reports_are_within(told: &[Answered], end: u64) -> bool
    ensures { result ≡ list_all (reports.is_within end) told.now }
{
    told.iter().all(|b| is_within(end, b))
}

fn is_done(b: &Answered, a: &Answered) -> bool
    ensures { result ≡ reports.is_done b.now a.now }
{
    let is_earlier = logs(&a.line.asks) && before_barrier(a, b);
    !is_earlier || place_on_time(&a.row.outcome).is_some()
}

fn all_are_done(b: &Answered, told: &[Answered]) -> bool
    ensures { result ≡ list_all (reports.is_done b.now) told.now }
{
    told.iter().all(|a| is_done(b, a))
}

fn lies_below(b: &Answered, clean: u64, a: &Answered) -> bool
    ensures { result ≡ reports.lies_below b.now clean a.now }
{
    if !before_barrier(a, b) {
        return true;
    }
    match place_on_time(&a.row.outcome) {
        Some(place) => place.pos < clean,
        None => true,
    }
}

fn all_lie_below(b: &Answered, clean: u64, told: &[Answered]) -> bool
    ensures { result ≡ list_all (reports.lies_below b.now clean) told.now }
{
    told.iter().all(|a| lies_below(b, clean, a))
}

fn reports_all(told: &[Answered], b: &Answered) -> bool
    ensures { result ≡ reports.reports_all told.now b.now }
{
    match reported(&b.row.outcome) {
        Some(clean) => !all_are_done(b, told) || all_lie_below(b, clean, told),
        None => true,
    }
}

/// Where each command of the phases before a report was placed in its phase, the report is above all of their places.
pub fn reports_reach(told: &[Answered]) -> bool
    ensures { result ≡ list_all (reports.reports_all told.now) told.now }
{
    told.iter().all(|b| reports_all(told, b))
}

fn is_from(position: u64, outcome: &Outcome) -> bool
    ensures { result ≡ reports.is_from position outcome.now }
{
    match outcome {
        Outcome::Placed { place, .. } => position <= place.pos,
        Outcome::Read { after, .. } => position <= *after,
        Outcome::Alive { clean } => position <= *clean,
        _ => true,
    }
}

fn stays_above(a: &Answered, b: &Answered) -> bool
    ensures { result ≡ reports.stays_above a.now b.now }
{
    if !is_behind(a, b) {
        return true;
    }
    match reported(&a.row.outcome) {
        Some(clean) => is_from(clean, &b.row.outcome),
        None => true,
    }
}

fn all_stay_above(a: &Answered, rest: &[Answered]) -> bool
    ensures { result ≡ list_all (reports.stays_above a.now) rest.now }
{
    rest.iter().all(|b| stays_above(a, b))
}

/// Behind a report, in later lines of its node and in later phases, each place, each read's position and each report is at it or above.
pub fn rows_stay_above(told: &[Answered]) -> bool
    ensures { result ≡ each_pair reports.stays_above told.now }
{
    match told {
        [] => true,
        [a, rest @ ..] => all_stay_above(a, rest) && rows_stay_above(rest),
    }
}

fn is_alive_at(node: NodeId, position: u64, content: &Content) -> bool
    ensures { result ≡ reports.is_alive_at node position content.now }
{
    match content {
        Content::Alive {
            node: who,
            position: told,
        } => *who == node && *told == position,
        _ => false,
    }
}

fn says_alive(node: NodeId, position: u64, item: &Placed) -> bool
    ensures { result ≡ reports.says_alive node position item.now }
{
    is_alive_at(node, position, &item.content) && position <= item.place.pos
}

fn some_says_alive(node: NodeId, position: u64, items: &[Placed]) -> bool
    ensures { result ≡ list_any (reports.says_alive node position) items.now }
{
    items.iter().any(|item| says_alive(node, position, item))
}

fn stands_in_log(trim: u64, items: &[Placed], b: &Answered) -> bool
    ensures { result ≡ reports.stands_in_log trim items.now b.now }
{
    match reported(&b.row.outcome) {
        Some(clean) => clean < trim || some_says_alive(b.line.node, clean, items),
        None => true,
    }
}

/// The log has each report that is at or above its trim, at no lower position than that: of these items, which it has from the trim
/// on.
pub fn reports_stand(told: &[Answered], trim: u64, items: &[Placed]) -> bool
    ensures { result ≡ list_all (reports.stands_in_log trim items.now) told.now }
{
    told.iter().all(|b| stands_in_log(trim, items, b))
}

fn is_leave_of(node: NodeId, content: &Content) -> bool
    ensures { result ≡ is_leave_of node content.now }
{
    match content {
        Content::Leave { node: who } => *who == node,
        _ => false,
    }
}

fn some_leaves(items: &[Placed], node: NodeId) -> bool
    ensures { result ≡ has_left items.now node }
{
    items.iter().any(|item| is_leave_of(node, &item.content))
}

fn has_leave(trim: u64, items: &[Placed], b: &Answered) -> bool
    ensures { result ≡ reports.has_leave trim items.now b.now }
{
    let is_retired = matches!(&b.row.outcome, Outcome::Retired);
    !is_retired || trim != 0 || some_leaves(items, b.line.node)
}

/// Where nothing is trimmed, the log says of each node that left that it does: one of these items.
pub fn leaves_stand(told: &[Answered], trim: u64, items: &[Placed]) -> bool
    ensures { result ≡ list_all (reports.has_leave trim items.now) told.now }
{
    told.iter().all(|b| has_leave(trim, items, b))
}
