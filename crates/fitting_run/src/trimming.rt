//! The tests of how far lines trimmed the log, and of how far it is trimmed at the end, as plain programs.
ghost use Rattle.std.specs.Prelude.{◌≡◌, ◌≤◌, ◌||◌, ◌&&◌, ◌==◌, ◌++◌, [], filter, is_some, nat_le, nat_lt, not};
ghost use Rattle.std.specs.List.{list_all, list_any};
ghost use Rattle.engine_api.specs.Members.{report_of, trim_asked};
ghost use Rattle.fitting_run.specs.Lines as lines_of;
ghost use Rattle.fitting_run.specs.Reports as reports;
ghost use Rattle.fitting_run.specs.Replacements as replacements;
ghost use Rattle.fitting_run.specs.Tests.{each_amid, each_pair, some_is};
ghost use Rattle.fitting_run.specs.Trims as trims;

use crate::answered::Answered;
use crate::fitting::is_open;
use crate::replacing::is_behind;
use crate::reporting::reported;
use delos_types::numbers::NodeId;
use engine_api::content::{Content, Placed};
use row_text::row::Outcome;
use script_text::asks::{Asks, NamedLine};
use script_text::line::Admin;

fn asks_to_report(asked: &Asks) -> bool
    ensures { result ≡ trims.asks_to_report asked.now }
{
    matches!(asked, Asks::Admin(Admin::Alive))
}

fn asks_to_trim(asked: &Asks) -> bool
    ensures { result ≡ trims.asks_to_trim asked.now }
{
    matches!(asked, Asks::Admin(Admin::Trim))
}

fn asks_to_leave(asked: &Asks) -> bool
    ensures { result ≡ lines_of.asks_to_leave asked.now }
{
    matches!(asked, Asks::Admin(Admin::Retire))
}

fn trimmed(outcome: &Outcome) -> Option<u64>
    ensures { result ≡ trims.trimmed outcome.now }
{
    match outcome {
        Outcome::Trimmed { trim } => Some(*trim),
        _ => None,
    }
}

fn is_upto(trim: u64, b: &Answered) -> bool
    ensures { result ≡ trims.is_upto trim b.now }
{
    match trimmed(&b.row.outcome) {
        Some(t) => t <= trim,
        None => true,
    }
}

/// No row tells that the log was trimmed further than it is at the end.
pub fn trims_are_upto(told: &[Answered], trim: u64) -> bool
    ensures { result ≡ list_all (trims.is_upto trim) told.now }
{
    told.iter().all(|b| is_upto(trim, b))
}

fn reports_from(n: u64, outcome: &Outcome) -> bool
    ensures { result ≡ some_is (reports.reported outcome.now) (nat_le n) }
{
    match reported(outcome) {
        Some(clean) => n <= clean,
        None => false,
    }
}

fn reports_above(n: u64, outcome: &Outcome) -> bool
    ensures { result ≡ some_is (reports.reported outcome.now) (nat_lt n) }
{
    match reported(outcome) {
        Some(clean) => n < clean,
        None => false,
    }
}

fn may_report(n: u64, a: &Answered) -> bool
    ensures { result ≡ trims.may_report n a.now }
{
    reports_from(n, &a.row.outcome) || (asks_to_report(&a.line.asks) && is_open(&a.row.outcome))
}

fn went_past(trim: u64, b: &Answered, a: &Answered) -> bool
    ensures { result ≡ trims.went_past trim b.now a.now }
{
    let is_retired = matches!(&a.row.outcome, Outcome::Retired);
    is_behind(a, b) && (is_retired || reports_above(trim, &a.row.outcome))
}

fn node_went_past(trim: u64, b: &Answered, above: &[Answered], node: NodeId) -> bool
    ensures { result ≡ list_any (λ a. (a.line.node == node) && trims.went_past trim b.now a) above.now }
{
    above
        .iter()
        .any(|a| a.line.node == node && went_past(trim, b, a))
}

fn all_went_past(trim: u64, b: &Answered, above: &[Answered], nodes: u8) -> bool
    requires { nodes ≤ 8 }
    ensures { result ≡ trims.each_node nodes (trims.went_past trim b.now) above.now }
{
    for number in 1..=nodes {
        let Some(node) = NodeId::new(number) else {
            continue;
        };
        if !node_went_past(trim, b, above, node) {
            return false;
        }
    }
    true
}

fn may_allow(n: u64, a: &Answered) -> bool
    ensures { result ≡ trims.may_allow n a.now }
{
    asks_to_leave(&a.line.asks) || may_report(n, a)
}

fn node_may_allow(n: u64, rows: &[Answered], node: NodeId) -> bool
    ensures { result ≡ list_any (λ a. (a.line.node == node) && trims.may_allow n a) rows.now }
{
    rows.iter().any(|a| a.line.node == node && may_allow(n, a))
}

// By rows below b that aren't behind it.
fn node_may_allow_beside(n: u64, b: &Answered, below: &[Answered], node: NodeId) -> bool
    ensures { result ≡ list_any (λ a. not (replacements.is_behind b.now a) && ((a.line.node == node) && trims.may_allow n a)) below.now }
{
    below.iter().any(|a| !is_behind(b, a) && a.line.node == node && may_allow(n, a))
}

// By rows above b, and those below it that aren't behind it.
fn node_may_have_allowed(
    n: u64,
    above: &[Answered],
    b: &Answered,
    below: &[Answered],
    node: NodeId,
) -> bool
    ensures { result ≡ list_any (λ a. (a.line.node == node) && trims.may_allow n a) (above.now ++ filter (λ a. not (replacements.is_behind b.now a)) below.now) }
{
    let may_above = node_may_allow(n, above, node);
    let may_beside = node_may_allow_beside(n, b, below, node);
    may_above || may_beside
}

fn all_may_allow(n: u64, above: &[Answered], b: &Answered, below: &[Answered], nodes: u8) -> bool
    requires { nodes ≤ 8 }
    ensures { result ≡ trims.each_node nodes (trims.may_allow n) (above.now ++ filter (λ a. not (replacements.is_behind b.now a)) below.now) }
{
    for number in 1..=nodes {
        let Some(node) = NodeId::new(number) else {
            continue;
        };
        if !node_may_have_allowed(n, above, b, below, node) {
            return false;
        }
    }
    true
}

fn is_as_allowed(nodes: u8, above: &[Answered], b: &Answered, below: &[Answered]) -> bool
    requires { nodes ≤ 8 }
    ensures { result ≡ trims.is_as_allowed nodes above.now b.now below.now }
{
    match trimmed(&b.row.outcome) {
        Some(t) => {
            !all_went_past(t, b, above, nodes)
                && (t == 0 || all_may_allow(t, above, b, below, nodes))
        }
        None => true,
    }
}

/// Each trim went as far as all nodes allowed before it, and no further than each may have allowed by then, in time that is the square of
/// the rows' number.
pub fn trims_are_as_allowed(told: &[Answered], nodes: u8) -> bool
    requires { nodes ≤ 8 }
    ensures { result ≡ each_amid (trims.is_as_allowed nodes) [] told.now }
{
    for (i, b) in told.iter().enumerate() {
        if !is_as_allowed(nodes, &told[..i], b, &told[i + 1..]) {
            return false;
        }
    }
    true
}

fn rises_to(a: &Answered, b: &Answered) -> bool
    ensures { result ≡ trims.rises_to a.now b.now }
{
    if !is_behind(a, b) {
        return true;
    }
    match (trimmed(&a.row.outcome), trimmed(&b.row.outcome)) {
        (Some(t), Some(later)) => t <= later,
        _ => true,
    }
}

fn all_rise_to(a: &Answered, rest: &[Answered]) -> bool
    ensures { result ≡ list_all (trims.rises_to a.now) rest.now }
{
    rest.iter().all(|b| rises_to(a, b))
}

/// Behind a trim, in later lines of its node and in later phases, none goes less far.
pub fn trims_rise(told: &[Answered]) -> bool
    ensures { result ≡ each_pair trims.rises_to told.now }
{
    match told {
        [] => true,
        [a, rest @ ..] => all_rise_to(a, rest) && trims_rise(rest),
    }
}

fn trim_asked(content: &Content) -> Option<u64>
    ensures { result ≡ trim_asked content.now }
{
    match content {
        Content::Trim { position } => Some(*position),
        _ => None,
    }
}

fn asks_from(trim: u64, content: &Content) -> bool
    ensures { result ≡ some_is (trim_asked content.now) (nat_le trim) }
{
    match trim_asked(content) {
        Some(position) => trim <= position,
        None => false,
    }
}

fn some_asks_from(trim: u64, items: &[Placed]) -> bool
    ensures { result ≡ list_any (λ p. some_is (trim_asked p.content) (nat_le trim)) items.now }
{
    items.iter().any(|item| asks_from(trim, &item.content))
}

fn some_trimmed(told: &[Answered]) -> bool
    ensures { result ≡ list_any (λ b. is_some (trims.trimmed b.row.outcome)) told.now }
{
    told.iter().any(|b| trimmed(&b.row.outcome).is_some())
}

/// Where a line trimmed the log, or it is trimmed at the end, one of these items, which the log has from there on, asks for as much.
pub fn trims_stand(told: &[Answered], trim: u64, items: &[Placed]) -> bool
    ensures { result ≡ trims.has_trim told.now trim items.now }
{
    let is_trimmed = trim != 0 || some_trimmed(told);
    !is_trimmed || some_asks_from(trim, items)
}

fn report_of(node: NodeId, content: &Content) -> Option<u64>
    ensures { result ≡ report_of node content.now }
{
    match content {
        Content::Alive {
            node: who,
            position,
        } => { if *who == node { Some(*position) } else { None } }
        _ => None,
    }
}

fn says_report(node: NodeId, n: u64, content: &Content) -> bool
    ensures { result ≡ some_is (report_of node content.now) (nat_le n) }
{
    match report_of(node, content) {
        Some(position) => n <= position,
        None => false,
    }
}

fn some_says_report(node: NodeId, n: u64, items: &[Placed]) -> bool
    ensures { result ≡ list_any (λ p. some_is (report_of node p.content) (nat_le n)) items.now }
{
    items.iter().any(|item| says_report(node, n, &item.content))
}

fn is_reported(n: u64, items: &[Placed], a: &Answered) -> bool
    ensures { result ≡ trims.is_reported n items.now a.now }
{
    may_report(n, a) && some_says_report(a.line.node, n, items)
}

fn some_reported(told: &[Answered], n: u64, items: &[Placed]) -> bool
    ensures { result ≡ list_any (trims.is_reported n items.now) told.now }
{
    told.iter().any(|a| is_reported(n, items, a))
}

fn lets_go(n: u64, items: &[Placed], a: &Answered) -> bool
    ensures { result ≡ (lines_of.asks_to_leave a.now.line.asks || trims.is_reported n items.now a.now) }
{
    asks_to_leave(&a.line.asks) || is_reported(n, items, a)
}

fn node_lets_go(told: &[Answered], n: u64, items: &[Placed], node: NodeId) -> bool
    ensures { result ≡ list_any (λ a. (a.line.node == node) && (lines_of.asks_to_leave a.line.asks || trims.is_reported n items.now a)) told.now }
{
    told.iter()
        .any(|a| a.line.node == node && lets_go(n, items, a))
}

fn all_let_go(told: &[Answered], nodes: u8, n: u64, items: &[Placed]) -> bool
    requires { nodes ≤ 8 }
    ensures { result ≡ trims.each_node nodes (λ a. lines_of.asks_to_leave a.line.asks || trims.is_reported n items.now a) told.now }
{
    for number in 1..=nodes {
        let Some(node) = NodeId::new(number) else {
            continue;
        };
        if !node_lets_go(told, n, items, node) {
            return false;
        }
    }
    true
}

fn some_trims(lines: &[NamedLine]) -> bool
    ensures { result ≡ list_any (λ l. trims.asks_to_trim l.asks) lines.now }
{
    lines.iter().any(|line| asks_to_trim(&line.asks))
}

/// Nothing is trimmed, or a line asks for it, some node reported as much, and so did each that isn't to leave: its row is open, or tells
/// it, and one of these items says it, which the log has from the trim on.
pub fn trim_is_allowed(
    lines: &[NamedLine],
    told: &[Answered],
    nodes: u8,
    trim: u64,
    items: &[Placed],
) -> bool
    requires { nodes ≤ 8 }
    ensures { result ≡ trims.is_allowed lines.now told.now nodes trim items.now }
{
    trim == 0
        || (some_trims(lines)
            && some_reported(told, trim, items)
            && all_let_go(told, nodes, trim, items))
}
