//! What an operation sends next.
ghost use Rattle.std.specs.Prelude.{◌≡◌, ◌&&◌, ℕ, ◌+◌, ◌^◌, ◌<◌, ◌≤◌, length, get_or};
ghost use Rattle.native_plan.specs.Members.{no_member, is_out};
ghost use Rattle.native_plan.specs.Plans.{is_met, is_done, fill_of, errand_of, sent_on, resent, Resends};

use crate::aims::Aims;
use crate::member::Member;
use crate::message::{Errand, Message, Phase};

/// Whether nothing more is wanted of server `index`.
pub(crate) fn is_met_by(aims: Aims, index: u64, member: &Member) -> bool
    ensures { result ≡ is_met aims.phase aims.want index member.now }
{
    match aims.phase {
        Phase::Filling => member.is_found_sealed() || member.is_opened_to(aims.want),
        Phase::Asking => member.is_found_sealed() || member.is_opened(),
        Phase::Opening(tail) => member.is_found_sealed() || member.is_opened_to(tail),
        Phase::Shutting => member.is_found_sealed(),
        Phase::Sealing => member.is_found_sealed(),
        Phase::Mending(tail) => member.is_mended_to(tail),
        Phase::Reading(server) => index != server || member.passed,
        Phase::Trimming => member.passed,
    }
}

/// What brings a server that is known to be `at` long nearer to `goal`: an entry; where it is
/// below the cut, that it let go of what is below; where it has them all, that it says so.
fn fill(goal: u64, cut: u64, at: u64) -> Errand
    ensures { result ≡ fill_of goal cut at }
{
    if goal <= at {
        Errand::Tail
    } else {
        Errand::Store(at).due(cut)
    }
}

/// What a server of which something is wanted is sent.
fn errand(aims: Aims, member: &Member) -> Errand
    ensures { result ≡ errand_of aims.phase aims.cut aims.want aims.place member.now }
{
    match aims.phase {
        Phase::Filling => fill(aims.want, aims.cut, member.at),
        Phase::Asking => Errand::Tail,
        Phase::Opening(tail) => fill(tail, aims.cut, member.at),
        Phase::Shutting => Errand::Seal,
        Phase::Sealing => Errand::Seal,
        Phase::Mending(_) => {
            if member.is_found_sealed() {
                Errand::Repair(member.at).due(aims.cut)
            } else {
                Errand::Seal
            }
        }
        Phase::Reading(_) => Errand::Read(aims.place),
        Phase::Trimming => Errand::Trim,
    }
}

/// Whether the message that is on its way to the server stays.
fn stays(keep: bool, member: &Member) -> bool
    ensures { result ≡ (keep && is_out member.now) }
{
    keep && member.is_out()
}

/// What server `index` is to be sent, if anything.
fn message_for(aims: Aims, index: u64, member: &Member) -> Option<Message>
    ensures { record member.now { losses = 0; message = result } ≡ sent_on (is_done aims.phase aims.want index member.now) (errand_of aims.phase aims.cut aims.want aims.place member.now) member.now }
{
    if member.unreached || is_met_by(aims, index, member) {
        None
    } else {
        Some(Message::Asked(errand(aims, member)))
    }
}

/// Sends server `index` what it is to be sent, unless a message that is kept is on its way.
fn send(aims: Aims, keep: bool, index: u64, member: &mut Member)
    ensures { member.new ≡ resent aims.phase aims.cut aims.want aims.place keep index member.old }
{
    if stays(keep, member) {
        return;
    }
    let message = message_for(aims, index, member);
    member.losses = 0;
    member.message = message;
}

/// Sends each server what it is to be sent. Messages on their way are kept or given up.
pub fn send_all(aims: Aims, keep: bool, members: &mut [Member])
    ensures { Resends aims.phase aims.cut aims.want aims.place keep members.old members.new }
{
    for i in 0..members.len() {
        send(aims, keep, i as u64, &mut members[i]);
    }
}
