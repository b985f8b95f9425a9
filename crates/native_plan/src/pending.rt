//! The open operations of a native loglet.
ghost use Rattle.std.specs.Prelude.{◌≡◌, ℕ, ◌≤◌, ◌<◌, ◌^◌, sum_by, count_by, length, get_or, Some};
ghost use Rattle.native_plan.specs.Plans.{place_of, goal_of, end_of, rank_of, first_phase};
ghost use Rattle.native_plan.specs.Members.{no_member, is_out, most_tries, nth_out, left_to};
ghost use Rattle.native_plan.specs.Pendings.{newer_of, aims_of, left_now, verdict_of, Settles, Answers, Notes, NotesLoss, Hears, Loses, Begins};
ghost use Rattle.quorum_cell.specs.declared.message.Told as answers;
ghost use Rattle.native_plan.specs.declared.message.Errand as errands;

use crate::aims::Aims;
use crate::judge::{Verdict, judge};
use crate::member::Member;
use crate::message::{Errand, Message, Phase};
use crate::send::send_all;
use delos_types::entry::Entry;
use loglet_api::call::{Op, Task};
use quorum_cell::message::Told;
use quorum_cell::operation::Outcome;

/// An open operation, with what held as it began.
#[derive(Drop)]
pub struct Pending {
    pub task: Task,
    pub size: u64,
    pub reach: u64,
    pub firm: u64,
    pub shut: bool,
    pub faults: u64,
    pub down: u32,
    /// The length that an Append or a Settle waits for, the cut of a Trim.
    pub want: u64,
    pub phase: Phase,
    /// What it knows of each server.
    pub members: Vec<Member>,
    /// The entry that a server gave to a Read.
    pub got: Option<Entry>,
    pub outcome: Option<Outcome>,
}

/// The position that a Read asks for.
pub fn place(task: Task) -> u64
    ensures { result ≡ place_of task }
{
    match task {
        Task::Reading(place) => place,
        _ => 0,
    }
}

/// Below which length servers are brought in this phase.
pub fn end(phase: Phase, want: u64) -> u64
    requires { goal_of phase want ≤ 2 ^ 32 }
    ensures value { result ≡ end_of phase want }
    ensures small { result ≤ 2 ^ 33 }
{
    match phase {
        Phase::Filling => want + 1,
        Phase::Opening(length) => length + 1,
        Phase::Mending(length) => length + 1,
        _ => 0,
    }
}

/// How many phases may follow.
pub fn rank(phase: Phase) -> u32
    ensures { result ≡ rank_of phase }
{
    match phase {
        Phase::Filling => 1,
        Phase::Asking => 3,
        Phase::Opening(_) => 2,
        Phase::Shutting => 0,
        Phase::Sealing => 1,
        Phase::Mending(_) => 0,
        Phase::Reading(server) => 7u64.saturating_sub(server) as u32,
        Phase::Trimming => 0,
    }
}

/// In which phase an operation begins.
pub fn first_phase_of(op: &Op) -> Phase
    ensures { result ≡ first_phase op.now }
{
    match op {
        Op::Append(_) => Phase::Filling,
        Op::Settle(_) => Phase::Filling,
        Op::Tail => Phase::Asking,
        Op::Seal => Phase::Shutting,
        Op::Read(_) => Phase::Reading(0),
        Op::Trim(_) => Phase::Trimming,
    }
}

/// What the members leave to do, where they are to be brought below this length.
fn work(members: &[Member], end: u64) -> u64
    requires end { end ≤ 2 ^ 33 }
    requires small { sum_by (left_to end) members.now < 2 ^ 63 }
    ensures { result ≡ sum_by (left_to end) members.now }
{
    members.iter().map(|member| member.left_to(end)).sum()
}

/// The member whose message comes after so many others.
fn nth(members: &[Member], skip: u64) -> usize
    requires { skip < count_by is_out members.now }
    ensures value { result ≡ nth_out skip members.now }
    ensures here { result < length members.now }
{
    match members {
        [] => 0,
        [member, rest @ ..] => {
            if !member.is_out() {
                nth(rest, skip) + 1
            } else if skip == 0 {
                0
            } else {
                nth(rest, skip - 1) + 1
            }
        }
    }
}

/// An entry that was just given, or else what was given before.
pub(crate) fn newer(got: Option<Entry>, before: Option<Entry>) -> Option<Entry>
    ensures { result ≡ newer_of got before }
{
    if got.is_some() { got } else { before }
}

/// What held as an operation began, and the length that it wants.
#[derive(Clone, Copy, Debug)]
pub struct Start {
    pub size: u64,
    pub reach: u64,
    pub firm: u64,
    pub shut: bool,
    pub faults: u64,
    pub down: u32,
    pub want: u64,
}

impl Pending {
    /// An operation that begins and sends its first messages, under this cut of the loglet. It
    /// knows what the members say.
    pub fn begin(op: &Op, start: Start, mut members: Vec<Member>, cut: u64) -> Pending
        ensures { Begins op.now start cut members.items result }
    {
        let phase = first_phase_of(op);
        let task = op.task();
        let aims = Aims {
            phase,
            want: start.want,
            cut,
            place: place(task),
            firm: start.firm,
        };
        send_all(aims, false, &mut members);
        Pending {
            task,
            size: start.size,
            reach: start.reach,
            firm: start.firm,
            shut: start.shut,
            faults: start.faults,
            down: start.down,
            want: start.want,
            phase,
            members,
            got: None,
            outcome: None,
        }
    }

    /// What its messages, and what it comes to, depend on, under this cut of the loglet.
    pub(crate) fn aims(&self, cut: u64) -> Aims
        ensures { result ≡ aims_of cut self.now }
    {
        Aims {
            phase: self.phase,
            want: self.want,
            cut,
            place: place(self.task),
            firm: self.firm,
        }
    }

    /// How much is left to do, the first number counting first: (0, 0) once it is decided.
    pub fn left(&self) -> (u32, u64)
        requires goal { goal_of self.now.phase self.now.want ≤ 2 ^ 32 }
        requires small { sum_by (left_to (end_of self.now.phase self.now.want)) self.now.members.items < 2 ^ 63 }
        ensures { (result.0, result.1) ≡ left_now self.now }
    {
        if self.outcome.is_some() {
            return (0, 0);
        }
        let end = end(self.phase, self.want);
        (rank(self.phase), work(&self.members, end))
    }

    /// Which of its messages moves by this word.
    pub fn pick(&self, skip: u64) -> usize
        requires { skip < count_by is_out self.now.members.items }
        ensures value { result ≡ nth_out skip self.now.members.items }
        ensures here { result < length self.now.members.items }
    {
        nth(&self.members, skip)
    }

    /// How many messages are on their way.
    pub fn outstanding(&self) -> usize
        ensures { result ≡ count_by is_out self.now.members.items }
    {
        self.members.iter().filter(|member| member.is_out()).count()
    }

    /// Server `index` has answered: the answer is on its way.
    pub fn answer(&mut self, index: usize, errand: Errand, told: Told)
        requires { index < length self.old.members.items }
        ensures { Answers index errand told self.old self.new }
    {
        self.members[index].message = Some(Message::Told(errand, told));
    }

    /// The answer that is on its way from server `index` comes, under this cut of the loglet.
    pub fn hear(&mut self, index: usize, cut: u64)
        requires here { index < length self.old.members.items }
        requires members { length self.old.members.items < 2 ^ 32 }
        requires server { (j : ℕ) → self.old.phase ≡ Phase.Reading j → j < 2 ^ 32 }
        ensures { (e : errands.Errand) (told : answers.Told) → (get_or self.old.members.items index no_member).message ≡ Some (Message.Told e told) → Hears cut index e told self.old self.new }
    {
        self.note(index);
        self.settle(cut);
    }

    fn note(&mut self, index: usize)
        requires { index < length self.old.members.items }
        ensures notes { (e : errands.Errand) (told : answers.Told) → (get_or self.old.members.items index no_member).message ≡ Some (Message.Told e told) → Notes index e told self.old self.new }
        ensures phase { self.new.phase ≡ self.old.phase }
        ensures as_many { length self.new.members.items ≡ length self.old.members.items }
    {
        let got = self.members[index].hear(self.want);
        self.got = newer(got, self.got.take());
    }

    /// The message that is on its way to or from server `index` is lost once more.
    pub fn lose(&mut self, index: usize, cut: u64)
        requires here { index < length self.old.members.items }
        requires losses { (get_or self.old.members.items index no_member).losses < most_tries }
        requires members { length self.old.members.items < 2 ^ 32 }
        requires server { (j : ℕ) → self.old.phase ≡ Phase.Reading j → j < 2 ^ 32 }
        ensures { Loses cut index self.old self.new }
    {
        self.note_loss(index);
        self.settle(cut);
    }

    fn note_loss(&mut self, index: usize)
        requires here { index < length self.old.members.items }
        requires losses { (get_or self.old.members.items index no_member).losses < most_tries }
        ensures { NotesLoss index self.old self.new }
    {
        self.members[index].lose();
    }

    /// It comes to what it comes to: it is decided, or sends what is to be sent.
    pub(crate) fn settle(&mut self, cut: u64)
        requires members { length self.old.members.items < 2 ^ 32 }
        requires server { (j : ℕ) → self.old.phase ≡ Phase.Reading j → j < 2 ^ 32 }
        ensures { Settles cut self.old (verdict_of cut self.old) self.new }
    {
        match judge(self.aims(cut), self.got.is_some(), &self.members) {
            Verdict::Done(outcome) => self.outcome = Some(outcome),
            Verdict::Go(phase) => self.go(cut, phase),
        }
    }

    /// It goes on in this phase.
    fn go(&mut self, cut: u64, phase: Phase)
        ensures { Settles cut self.old (Verdict.Go phase) self.new }
    {
        let keep = rank(phase) == rank(self.phase);
        self.phase = phase;
        let aims = self.aims(cut);
        send_all(aims, keep, &mut self.members);
    }
}
