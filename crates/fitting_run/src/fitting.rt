//! The tests of which a fitting run is made, as plain programs: whether a row is of its line, and
//! whether sessions and barriers are kept. The tests on lists compare each row with each later one.
ghost use Rattle.std.specs.Prelude.{◌≡◌, ◌↔◌, ◌&&◌, IsTrue, nat_le, filter, length};
ghost use Rattle.std.specs.List.{list_all, list_any, filter_map};
ghost use Rattle.std.specs.Option.{option_copied};
ghost use Rattle.fitting_run.specs.Faults.{stops};
ghost use Rattle.fitting_run.specs.Tests.{each_pair, where_some};
ghost use Rattle.fitting_run.specs.Answered as answers_of;
ghost use Rattle.fitting_run.specs.Outcomes as outcomes;
ghost use Rattle.fitting_run.specs.Reads as reads;
ghost use Rattle.fitting_run.specs.Turns as turns_of;

use crate::answered::Answered;
use delos_types::cause::Cause;
use delos_types::numbers::{NodeId, SessionId};
use delos_types::place::Place;
use engine_api::act::Act;
use row_text::row::{Outcome, Row, Who};
use script_text::asks::{Asks, NamedLine};
use script_text::line::{Admin, Session};

fn session_asking(asked: &Asks) -> Option<&Session>
    ensures { option_copied result ≡ answers_of.session_asking asked.now }
{
    match asked {
        Asks::Logged { session, .. } | Asks::Look { session, .. } => Some(session),
        Asks::Admin(_) => None,
    }
}

pub(crate) fn same_session(a: &Answered, b: &Answered) -> bool
    ensures { result ≡ answers_of.same_session a.now b.now }
{
    match (session_asking(&a.line.asks), session_asking(&b.line.asks)) {
        (Some(s), Some(t)) => s.id == t.id,
        _ => false,
    }
}

pub(crate) fn before_barrier(a: &Answered, b: &Answered) -> bool
    ensures { result ≡ answers_of.before_barrier a.now b.now }
{
    a.line.phase < b.line.phase
}

pub(crate) fn logs(asked: &Asks) -> bool
    ensures { result ≡ answers_of.logs asked.now }
{
    match asked {
        Asks::Logged { .. } => true,
        Asks::Look { .. } => false,
        Asks::Admin(_) => false,
    }
}

pub(crate) fn place_on_time(outcome: &Outcome) -> Option<Place>
    ensures { result ≡ answers_of.place_on_time outcome.now }
{
    match outcome {
        Outcome::Placed { place, late, .. } => { if *late { None } else { Some(*place) } }
        _ => None,
    }
}

fn looked_at(outcome: &Outcome) -> Option<u64>
    ensures { result ≡ answers_of.looked_at outcome.now }
{
    match outcome {
        Outcome::Read { after, .. } => Some(*after),
        _ => None,
    }
}

/// The row has a cause in the place of an answer.
pub fn is_open(outcome: &Outcome) -> bool
    ensures { result ≡ answers_of.is_open outcome.now }
{
    match outcome {
        Outcome::Open { .. } => true,
        _ => false,
    }
}

fn place_le(p: Place, q: Place) -> bool
    ensures { result ≡ answers_of.place_le p q }
{
    p.pos < q.pos || (p.pos == q.pos && p.sub <= q.sub)
}

fn names(who: &Who, node: NodeId, session: Option<&Session>) -> bool
    ensures { result ≡ outcomes.names who.now node (option_copied session.entry) }
{
    match (who, session) {
        (Who::Session(name), Some(session)) => *name == session.name,
        (Who::Node(named), None) => *named == node,
        _ => false,
    }
}

fn answers(asked: &Asks, outcome: &Outcome) -> bool
    ensures { result ≡ outcomes.answers asked.now outcome.now }
{
    match (asked, outcome) {
        (Asks::Logged { .. }, Outcome::Placed { .. }) => true,
        (Asks::Look { .. }, Outcome::Read { .. }) => true,
        (
            Asks::Admin(Admin::Extend),
            Outcome::Extended { .. } | Outcome::Moved { .. } | Outcome::NoSpare,
        ) => true,
        (Asks::Admin(Admin::Alive), Outcome::Alive { .. }) => true,
        (Asks::Admin(Admin::Trim), Outcome::Trimmed { .. }) => true,
        (Asks::Admin(Admin::Retire), Outcome::Retired) => true,
        (_, Outcome::Open { .. }) => true,
        _ => false,
    }
}

fn has_row(asked: &Asks) -> bool
    ensures { result ≡ answers_of.has_row asked.now }
{
    match asked {
        Asks::Logged { .. } => true,
        Asks::Look { .. } => true,
        Asks::Admin(_) => true,
    }
}

fn rows_asked_for(lines: &[NamedLine]) -> usize
    ensures { result ≡ length (filter (λ l. answers_of.has_row l.asks) lines.now) }
{
    lines.iter().filter(|line| has_row(&line.asks)).count()
}

/// There are as many rows as lines that have one.
pub fn as_many_rows(lines: &[NamedLine], rows: &[Row]) -> bool
    ensures { IsTrue result ↔ (length rows.now ≡ length (filter (λ l. answers_of.has_row l.asks) lines.now)) }
{
    rows.len() == rows_asked_for(lines)
}

/// The row is of its line: the line's number, who asked there, and a kind of answer that the line
/// has.
pub fn is_row_of(answered: &Answered) -> bool
    ensures { result ≡ outcomes.is_row_of answered.now }
{
    answered.row.number == answered.line.number
        && names(
            &answered.row.who,
            answered.line.node,
            session_asking(&answered.line.asks),
        )
        && answers(&answered.line.asks, &answered.row.outcome)
}

/// Each row is of its line.
pub fn are_rows_of(told: &[Answered]) -> bool
    ensures { result ≡ list_all outcomes.is_row_of told.now }
{
    match told {
        [] => true,
        [a, rest @ ..] => is_row_of(a) && are_rows_of(rest),
    }
}

fn rises(a: &Answered, b: &Answered) -> bool
    ensures { result ≡ outcomes.rises a.now b.now }
{
    if !same_session(a, b) {
        return true;
    }
    match (place_on_time(&a.row.outcome), place_on_time(&b.row.outcome)) {
        (Some(p), Some(q)) => place_le(p, q),
        _ => true,
    }
}

fn all_rise(a: &Answered, rest: &[Answered]) -> bool
    ensures { result ≡ list_all (outcomes.rises a.now) rest.now }
{
    match rest {
        [] => true,
        [b, more @ ..] => rises(a, b) && all_rise(a, more),
    }
}

/// The places of a session don't fall. Rows placed late aren't looked at.
pub fn places_dont_fall(told: &[Answered]) -> bool
    ensures { result ≡ each_pair outcomes.rises told.now }
{
    match told {
        [] => true,
        [a, rest @ ..] => all_rise(a, rest) && places_dont_fall(rest),
    }
}

fn is_stopped_by(a: &Answered, b: &Answered) -> bool
    ensures { result ≡ outcomes.is_stopped_by a.now b.now }
{
    let stops = same_session(a, b)
        && before_barrier(a, b)
        && logs(&a.line.asks)
        && place_on_time(&a.row.outcome).is_none();
    !stops || is_open(&b.row.outcome)
}

fn all_stopped_by(a: &Answered, rest: &[Answered]) -> bool
    ensures { result ≡ list_all (outcomes.is_stopped_by a.now) rest.now }
{
    match rest {
        [] => true,
        [b, more @ ..] => is_stopped_by(a, b) && all_stopped_by(a, more),
    }
}

/// A command that wasn't placed in its phase leaves the later phases' rows of its session open.
pub fn stays_stopped(told: &[Answered]) -> bool
    ensures { result ≡ each_pair outcomes.is_stopped_by told.now }
{
    match told {
        [] => true,
        [a, rest @ ..] => all_stopped_by(a, rest) && stays_stopped(rest),
    }
}

pub(crate) fn is_late(outcome: &Outcome) -> bool
    ensures { result ≡ answers_of.is_late outcome.now }
{
    match outcome {
        Outcome::Placed { late, .. } => *late,
        _ => false,
    }
}

fn stops(b: &Answered, a: &Answered) -> bool
    ensures { result ≡ stops b.now a.now }
{
    same_session(a, b)
        && before_barrier(a, b)
        && logs(&a.line.asks)
        && (is_open(&a.row.outcome) || is_late(&a.row.outcome))
}

pub(crate) fn some_stops(b: &Answered, told: &[Answered]) -> bool
    ensures { result ≡ list_any (stops b.now) told.now }
{
    told.iter().any(|a| stops(b, a))
}

pub(crate) fn cause_of(outcome: &Outcome) -> Option<Cause>
    ensures { result ≡ answers_of.cause_of outcome.now }
{
    match outcome {
        Outcome::Open { cause } => Some(*cause),
        _ => None,
    }
}

fn same_cause(c: Cause, d: Cause) -> bool
    ensures { result ≡ answers_of.same_cause c d }
{
    match (c, d) {
        (
            Cause::NoQuorum { id, unreached },
            Cause::NoQuorum {
                id: other,
                unreached: others,
            },
        ) => id == other && unreached == others,
        (Cause::Full { id }, Cause::Full { id: other }) => id == other,
        (Cause::Meta, Cause::Meta) => true,
        (Cause::Store, Cause::Store) => true,
        _ => false,
    }
}

fn stop_cause(told: &[Answered], a: &Answered, b: &Answered) -> Option<Cause>
    ensures { result ≡ outcomes.stop_cause told.now a.now b.now }
{
    if same_session(a, b) && (logs(&b.line.asks) || some_stops(b, told)) {
        cause_of(&b.row.outcome)
    } else {
        None
    }
}

fn keep_cause(told: &[Answered], a: &Answered, cause: Cause, some: &[Answered]) -> bool
    ensures { result ≡ list_all (answers_of.same_cause cause) (filter_map (outcomes.stop_cause told.now a.now) some.now) }
{
    match some {
        [] => true,
        [b, rest @ ..] => match stop_cause(told, a, b) {
            Some(other) => same_cause(cause, other) && keep_cause(told, a, cause, rest),
            None => keep_cause(told, a, cause, rest),
        },
    }
}

fn have_one_cause(told: &[Answered], a: &Answered, some: &[Answered]) -> bool
    ensures { result ≡ each_pair answers_of.same_cause (filter_map (outcomes.stop_cause told.now a.now) some.now) }
{
    match some {
        [] => true,
        [b, rest @ ..] => match stop_cause(told, a, b) {
            Some(cause) => keep_cause(told, a, cause, rest) && have_one_cause(told, a, rest),
            None => have_one_cause(told, a, rest),
        },
    }
}

fn each_has_one_cause(told: &[Answered], some: &[Answered]) -> bool
    ensures { result ≡ list_all (λ a. each_pair answers_of.same_cause (filter_map (outcomes.stop_cause told.now a) told.now)) some.now }
{
    match some {
        [] => true,
        [a, rest @ ..] => have_one_cause(told, a, told) && each_has_one_cause(told, rest),
    }
}

/// The open rows of a session that was stopped have one cause: its commands, and all its rows of later phases. Slow, since it asks
/// that of each row's session.
pub fn causes_are_kept(told: &[Answered]) -> bool
    ensures { result ≡ list_all (λ a. each_pair answers_of.same_cause (filter_map (outcomes.stop_cause told.now a) told.now)) told.now }
{
    each_has_one_cause(told, told)
}

fn is_kept_open(a: &Answered, b: &Answered) -> bool
    ensures { result ≡ reads.is_kept_open a.now b.now }
{
    let stops = same_session(a, b) && logs(&a.line.asks) && place_on_time(&a.row.outcome).is_none();
    !stops || looked_at(&b.row.outcome).is_none()
}

fn all_are_kept_open(a: &Answered, rest: &[Answered]) -> bool
    ensures { result ≡ list_all (reads.is_kept_open a.now) rest.now }
{
    rest.iter().all(|b| is_kept_open(a, b))
}

/// No read was answered behind a command of its session that wasn't placed in its phase.
pub fn reads_are_kept_open(told: &[Answered]) -> bool
    ensures { result ≡ each_pair reads.is_kept_open told.now }
{
    match told {
        [] => true,
        [a, rest @ ..] => all_are_kept_open(a, rest) && reads_are_kept_open(rest),
    }
}

fn looks_in_order(a: &Answered, b: &Answered) -> bool
    ensures { result ≡ reads.looks_in_order a.now b.now }
{
    if !same_session(a, b) {
        return true;
    }
    let above = match (place_on_time(&a.row.outcome), looked_at(&b.row.outcome)) {
        (Some(p), Some(after)) => p.pos < after,
        _ => true,
    };
    let below = match (looked_at(&a.row.outcome), place_on_time(&b.row.outcome)) {
        (Some(after), Some(q)) => after <= q.pos,
        _ => true,
    };
    above && below
}

fn all_look_in_order(a: &Answered, rest: &[Answered]) -> bool
    ensures { result ≡ list_all (reads.looks_in_order a.now) rest.now }
{
    match rest {
        [] => true,
        [b, more @ ..] => looks_in_order(a, b) && all_look_in_order(a, more),
    }
}

/// A session's reads stand above its earlier places, and not above its later ones.
pub fn reads_keep_order(told: &[Answered]) -> bool
    ensures { result ≡ each_pair reads.looks_in_order told.now }
{
    match told {
        [] => true,
        [a, rest @ ..] => all_look_in_order(a, rest) && reads_keep_order(rest),
    }
}

fn looks_forward(a: &Answered, b: &Answered) -> bool
    ensures { result ≡ reads.looks_forward a.now b.now }
{
    if a.line.node != b.line.node {
        return true;
    }
    match (looked_at(&a.row.outcome), looked_at(&b.row.outcome)) {
        (Some(after), Some(later)) => after <= later,
        _ => true,
    }
}

fn all_look_forward(a: &Answered, rest: &[Answered]) -> bool
    ensures { result ≡ list_all (reads.looks_forward a.now) rest.now }
{
    rest.iter().all(|b| looks_forward(a, b))
}

/// A node's reads don't fall along its lines.
pub fn reads_dont_fall(told: &[Answered]) -> bool
    ensures { result ≡ each_pair reads.looks_forward told.now }
{
    match told {
        [] => true,
        [a, rest @ ..] => all_look_forward(a, rest) && reads_dont_fall(rest),
    }
}

fn looks_within(outcome: &Outcome, end: u64) -> bool
    ensures { result ≡ answers_of.on_read outcome.now (λ after. nat_le after end) }
{
    match looked_at(outcome) {
        Some(after) => after <= end,
        None => true,
    }
}

/// Each read looked at a position up to the end.
pub fn reads_are_within(told: &[Answered], end: u64) -> bool
    ensures { result ≡ list_all (λ a. answers_of.on_read a.row.outcome (λ after. nat_le after end)) told.now }
{
    match told {
        [] => true,
        [a, rest @ ..] => looks_within(&a.row.outcome, end) && reads_are_within(rest, end),
    }
}

fn comes_below(outcome: &Outcome, position: u64) -> bool
    ensures { result ≡ outcomes.comes_below outcome.now position }
{
    match outcome {
        Outcome::Placed { place, late, .. } => *late || place.pos < position,
        Outcome::Read { after, .. } => *after <= position,
        Outcome::Extended { start, .. } => *start <= position,
        _ => true,
    }
}

// Where the log ended at most as the row's phase began.
fn begins_upto(outcome: &Outcome) -> Option<u64>
    ensures { result ≡ outcomes.begins_upto outcome.now }
{
    match outcome {
        Outcome::Placed { place, .. } => Some(place.pos),
        Outcome::Read { after, .. } => Some(*after),
        Outcome::Extended { start, .. } => Some(*start),
        _ => None,
    }
}

fn keeps_barrier(a: &Answered, b: &Answered) -> bool
    ensures { result ≡ outcomes.keeps_barrier a.now b.now }
{
    if !before_barrier(a, b) {
        return true;
    }
    match begins_upto(&b.row.outcome) {
        Some(position) => comes_below(&a.row.outcome, position),
        None => true,
    }
}

fn all_keep_barrier(a: &Answered, rest: &[Answered]) -> bool
    ensures { result ≡ list_all (outcomes.keeps_barrier a.now) rest.now }
{
    match rest {
        [] => true,
        [b, more @ ..] => keeps_barrier(a, b) && all_keep_barrier(a, more),
    }
}

/// What is asked behind a barrier comes after all that was asked before it. A row placed late is before none, but after those of
/// earlier phases.
pub fn keeps_barriers(told: &[Answered]) -> bool
    ensures { result ≡ outcomes.keeps_barriers told.now }
{
    match told {
        [] => true,
        [a, rest @ ..] => all_keep_barrier(a, rest) && keeps_barriers(rest),
    }
}

fn stands_apart(a: &Act, b: &Act) -> bool
    ensures { result ≡ turns_of.stand_apart a.now b.now }
{
    let at_one_place = a.place.pos == b.place.pos && a.place.sub == b.place.sub;
    !at_one_place || a.session == b.session
}

fn all_stand_apart(a: &Act, rest: &[Act]) -> bool
    ensures { result ≡ list_all (turns_of.stand_apart a.now) rest.now }
{
    match rest {
        [] => true,
        [b, more @ ..] => stands_apart(a, b) && all_stand_apart(a, more),
    }
}

fn rises_in_rank(a: &Act, b: &Act) -> bool
    ensures { result ≡ turns_of.rises_in_rank a.now b.now }
{
    a.session != b.session || a.rank.number() < b.rank.number()
}

fn all_rise_in_rank(a: &Act, rest: &[Act]) -> bool
    ensures { result ≡ list_all (turns_of.rises_in_rank a.now) rest.now }
{
    match rest {
        [] => true,
        [b, more @ ..] => rises_in_rank(a, b) && all_rise_in_rank(a, more),
    }
}

/// Of one session the earlier of two acts has the lower rank.
pub fn ranks_rise(acts: &[Act]) -> bool
    ensures { result ≡ each_pair turns_of.rises_in_rank acts.now }
{
    match acts {
        [] => true,
        [a, rest @ ..] => all_rise_in_rank(a, rest) && ranks_rise(rest),
    }
}

/// No two sessions have one place.
pub fn stand_apart(acts: &[Act]) -> bool
    ensures { result ≡ each_pair turns_of.stand_apart acts.now }
{
    match acts {
        [] => true,
        [a, rest @ ..] => all_stand_apart(a, rest) && stand_apart(rest),
    }
}

// How many of these acts are the session's.
fn number_of(session: SessionId, acts: &[Act]) -> u64
    ensures { result ≡ turns_of.number_of session acts.now }
{
    let mut count = 0;
    for act in acts {
        if act.session == session {
            count += 1;
        }
    }
    count
}

fn is_among_first(act: &Act, acts: &[Act]) -> bool
    ensures { result ≡ nat_le 1 act.now.rank && nat_le act.now.rank (turns_of.number_of act.now.session acts.now) }
{
    let rank = act.rank.number();
    1 <= rank && rank <= number_of(act.session, acts)
}

fn are_among_first(some: &[Act], acts: &[Act]) -> bool
    ensures { result ≡ list_all (λ a. nat_le 1 a.rank && nat_le a.rank (turns_of.number_of a.session acts.now)) some.now }
{
    match some {
        [] => true,
        [act, more @ ..] => is_among_first(act, acts) && are_among_first(more, acts),
    }
}

/// Each rank is at most the number of its session's acts, in time that is the square of the acts'
/// number.
pub fn has_first_ranks(acts: &[Act]) -> bool
    ensures { result ≡ turns_of.has_first_ranks acts.now }
{
    are_among_first(acts, acts)
}
