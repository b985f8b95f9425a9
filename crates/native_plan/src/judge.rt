//! What an operation comes to, by what it knows of its servers.
ghost use Rattle.std.specs.Prelude.{◌≡◌, ℕ, ◌^◌, ◌<◌, ◌||◌, nat_le, if◌then◌else◌, length, count_by, get_or, Some, None};
ghost use Rattle.std.specs.List.{list_any, list_all};
ghost use Rattle.majority_rule.specs.Majority.{majority as most};
ghost use Rattle.quorum_cell.specs.declared.operation.Outcome.TheVariants.{NoQuorum};
ghost use Rattle.native_plan.specs.Members.{no_member, is_opened, is_opened_to, is_found_sealed, is_mended_to, is_passed, is_unreached, opened_of, sealed_of};
ghost use Rattle.native_plan.specs.Plans.{many, greatest, is_settled, is_met, judged_filling, judged_shutting, judged_asking, judged_opening, judged_sealing, judged_mending, judged_reading, judged_trimming, judged};

use crate::aims::Aims;
use crate::member::Member;
use crate::message::Phase;
use majority_rule::majority::majority;
use quorum_cell::operation::Outcome;

/// What an operation comes to.
#[derive(Clone, Copy, PartialEq, Eq, Debug)]
pub enum Verdict {
    /// This is its outcome.
    Done(Outcome),
    /// It goes on, in this phase.
    Go(Phase),
}

/// Whether so many of the members are more than half.
fn is_many(count: usize, members: &[Member]) -> bool
    requires { length members.now < 2 ^ 32 }
    ensures { result ≡ nat_le (most (length members.now)) count }
{
    majority(members.len() as u32) as usize <= count
}

fn unreached(members: &[Member]) -> usize
    ensures { result ≡ count_by is_unreached members.now }
{
    members.iter().filter(|member| member.unreached).count()
}

/// That there is no quorum, where more than half are unreached.
fn lack(members: &[Member]) -> Option<Verdict>
    requires { length members.now < 2 ^ 32 }
    ensures { result ≡ (if many is_unreached members.now then Some (Verdict.Done (NoQuorum (count_by is_unreached members.now))) else None) }
{
    let count = unreached(members);
    if is_many(count, members) {
        Some(Verdict::Done(Outcome::NoQuorum(count as u32)))
    } else {
        None
    }
}

fn are_many_opened_to(members: &[Member], goal: u64) -> bool
    requires { length members.now < 2 ^ 32 }
    ensures { result ≡ many (is_opened_to goal) members.now }
{
    let count = members
        .iter()
        .filter(|member| member.is_opened_to(goal))
        .count();
    is_many(count, members)
}

fn are_many_opened(members: &[Member]) -> bool
    requires { length members.now < 2 ^ 32 }
    ensures { result ≡ many is_opened members.now }
{
    let count = members.iter().filter(|member| member.is_opened()).count();
    is_many(count, members)
}

fn are_many_sealed(members: &[Member]) -> bool
    requires { length members.now < 2 ^ 32 }
    ensures { result ≡ many is_found_sealed members.now }
{
    let sealed = members
        .iter()
        .filter(|member| member.is_found_sealed())
        .count();
    is_many(sealed, members)
}

fn are_many_mended_to(members: &[Member], goal: u64) -> bool
    requires { length members.now < 2 ^ 32 }
    ensures { result ≡ many (is_mended_to goal) members.now }
{
    let count = members
        .iter()
        .filter(|member| member.is_mended_to(goal))
        .count();
    is_many(count, members)
}

fn are_many_passed(members: &[Member]) -> bool
    requires { length members.now < 2 ^ 32 }
    ensures { result ≡ many is_passed members.now }
{
    let count = members.iter().filter(|member| member.passed).count();
    is_many(count, members)
}

fn is_any_sealed(members: &[Member]) -> bool
    ensures { result ≡ list_any is_found_sealed members.now }
{
    members.iter().any(|member| member.is_found_sealed())
}

fn are_all_settled(members: &[Member], want: u64) -> bool
    ensures { result ≡ list_all (is_settled want) members.now }
{
    members.iter().all(|member| {
        member.unreached || member.is_found_sealed() || member.is_opened_to(want)
    })
}

/// The greatest length that was told while the server wasn't sealed.
fn greatest_opened(members: &[Member]) -> u64
    ensures { result ≡ greatest opened_of members.now }
{
    match members {
        [] => 0,
        [member, rest @ ..] => member.opened_length().max(greatest_opened(rest)),
    }
}

/// The greatest length that was told while the server was sealed.
fn greatest_sealed(members: &[Member]) -> u64
    ensures { result ≡ greatest sealed_of members.now }
{
    match members {
        [] => 0,
        [member, rest @ ..] => member.sealed_length().max(greatest_sealed(rest)),
    }
}

/// An Append or a Settle: more than half acknowledge the length, are sealed, or are unreached; or,
/// once none is waited for, those that acknowledged are sealed.
fn judge_filling(members: &[Member], want: u64) -> Verdict
    requires { length members.now < 2 ^ 32 }
    ensures { result ≡ judged_filling want members.now }
{
    if let Some(verdict) = lack(members) {
        return verdict;
    }
    if are_many_opened_to(members, want) {
        Verdict::Done(Outcome::Reached)
    } else if are_many_sealed(members) {
        Verdict::Done(Outcome::Shut)
    } else if are_all_settled(members, want) {
        Verdict::Go(Phase::Shutting)
    } else {
        Verdict::Go(Phase::Filling)
    }
}

fn judge_shutting(members: &[Member]) -> Verdict
    requires { length members.now < 2 ^ 32 }
    ensures { result ≡ judged_shutting members.now }
{
    if let Some(verdict) = lack(members) {
        return verdict;
    }
    if are_many_sealed(members) {
        Verdict::Done(Outcome::Shut)
    } else {
        Verdict::Go(Phase::Shutting)
    }
}

fn judge_mending(members: &[Member], tail: u64) -> Verdict
    requires { length members.now < 2 ^ 32 }
    ensures { result ≡ judged_mending tail members.now }
{
    if let Some(verdict) = lack(members) {
        return verdict;
    }
    if are_many_mended_to(members, tail) {
        Verdict::Done(Outcome::SealedTail(tail))
    } else {
        Verdict::Go(Phase::Mending(tail))
    }
}

fn judge_sealing(members: &[Member]) -> Verdict
    requires { length members.now < 2 ^ 32 }
    ensures { result ≡ judged_sealing members.now }
{
    if let Some(verdict) = lack(members) {
        return verdict;
    }
    if are_many_sealed(members) {
        judge_mending(members, greatest_sealed(members))
    } else {
        Verdict::Go(Phase::Sealing)
    }
}

fn judge_opening(members: &[Member], tail: u64) -> Verdict
    requires { length members.now < 2 ^ 32 }
    ensures { result ≡ judged_opening tail members.now }
{
    if is_any_sealed(members) {
        return judge_sealing(members);
    }
    if let Some(verdict) = lack(members) {
        return verdict;
    }
    if are_many_opened_to(members, tail) {
        Verdict::Done(Outcome::OpenTail(tail))
    } else {
        Verdict::Go(Phase::Opening(tail))
    }
}

fn judge_asking(members: &[Member]) -> Verdict
    requires { length members.now < 2 ^ 32 }
    ensures { result ≡ judged_asking members.now }
{
    if is_any_sealed(members) {
        return judge_sealing(members);
    }
    if let Some(verdict) = lack(members) {
        return verdict;
    }
    if are_many_opened(members) {
        judge_opening(members, greatest_opened(members))
    } else {
        Verdict::Go(Phase::Asking)
    }
}

/// Whether server `server` has answered without the entry, or is unreached.
fn has_turned(members: &[Member], server: u64) -> bool
    ensures { result ≡ (is_met (Phase.Reading server) 0 server (get_or members.now server no_member) || is_unreached (get_or members.now server no_member)) }
{
    match members.get(server as usize) {
        Some(member) => member.passed || member.unreached,
        None => false,
    }
}

/// A Read asks the servers in turn.
fn judge_reading(aims: Aims, members: &[Member], server: u64, got: bool) -> Verdict
    requires members { length members.now < 2 ^ 32 }
    requires server { server < 2 ^ 32 }
    ensures { result ≡ judged_reading aims.cut aims.firm aims.place server got members.now }
{
    if aims.firm <= aims.place {
        return Verdict::Done(Outcome::Beyond);
    }
    if aims.place < aims.cut {
        return Verdict::Done(Outcome::Gone);
    }
    if got {
        return Verdict::Done(Outcome::Found);
    }
    if let Some(verdict) = lack(members) {
        return verdict;
    }
    if !has_turned(members, server) {
        Verdict::Go(Phase::Reading(server))
    } else if server + 1 < members.len() as u64 {
        Verdict::Go(Phase::Reading(server + 1))
    } else {
        Verdict::Done(Outcome::NoQuorum(unreached(members) as u32))
    }
}

fn judge_trimming(members: &[Member]) -> Verdict
    requires { length members.now < 2 ^ 32 }
    ensures { result ≡ judged_trimming members.now }
{
    if let Some(verdict) = lack(members) {
        return verdict;
    }
    if are_many_passed(members) {
        Verdict::Done(Outcome::TrimDone)
    } else {
        Verdict::Go(Phase::Trimming)
    }
}

/// What an operation comes to.
pub fn judge(aims: Aims, got: bool, members: &[Member]) -> Verdict
    requires members { length members.now < 2 ^ 32 }
    requires server { (j : ℕ) → aims.phase ≡ Phase.Reading j → j < 2 ^ 32 }
    ensures { result ≡ judged aims.phase aims.want aims.cut aims.firm aims.place got members.now }
{
    match aims.phase {
        Phase::Filling => judge_filling(members, aims.want),
        Phase::Asking => judge_asking(members),
        Phase::Opening(tail) => judge_opening(members, tail),
        Phase::Shutting => judge_shutting(members),
        Phase::Sealing => judge_sealing(members),
        Phase::Mending(tail) => judge_mending(members, tail),
        Phase::Reading(server) => judge_reading(aims, members, server, got),
        Phase::Trimming => judge_trimming(members),
    }
}
