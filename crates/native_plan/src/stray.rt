//! Messages that come again: what an answer tells that an operation didn't wait for.
ghost use Rattle.std.specs.Prelude.{◌≡◌, ℕ, ◌^◌, ◌<◌, ◌&&◌, ◌||◌, ◌==◌, if◌then◌else◌, not, length};
ghost use Rattle.native_plan.specs.Members.{is_found_sealed};
ghost use Rattle.native_plan.specs.Strays.{news_of, taken_news, is_read_at, given_to, errand_in, bears as bears_on, learned, learned_in, heard_anew, entry_of, is_asked as is_asked_in, NotesAgain, HearsNews, HearsAgain};
ghost use Rattle.native_plan.specs.Plans.{is_done};
ghost use Rattle.native_plan.specs.Pendings.{aims_of};

use crate::aims::Aims;
use crate::member::Member;
use crate::message::{Errand, Phase};
use crate::pending::{Pending, newer, place};
use crate::send::is_met_by;
use delos_types::entry::Entry;
use quorum_cell::message::{Ask, Told};

/// What an answer tells of its server.
#[derive(Clone, Copy, PartialEq, Eq, Debug)]
pub enum News {
    /// It was down, or its disk failed.
    Failed,
    /// It is sealed, and this long.
    Sealed(u64),
    /// It wasn't sealed, and was this long.
    Opened(u64),
    /// It is sealed, was repaired, and is this long.
    Mended(u64),
    /// It let go of the entries below this position.
    LetGo(u64),
    /// It doesn't have the entry that a Read wants.
    Missed,
    /// Nothing that an operation notes of a server.
    Nothing,
}

/// What a server is asked, without the entry and the position of a trim.
pub fn errand_of(ask: &Ask) -> Errand
    ensures { result ≡ errand_in ask.now }
{
    match ask {
        Ask::Store(place, _) => Errand::Store(*place),
        Ask::Seal => Errand::Seal,
        Ask::Tail => Errand::Tail,
        Ask::Repair(place, _) => Errand::Repair(*place),
        Ask::Read(place) => Errand::Read(*place),
        Ask::Trim(_) => Errand::Trim,
    }
}

/// What an answer to this tells, where a Read wants the entry at `place`.
fn news_in(place: u64, errand: Errand, told: &Told) -> News
    ensures { result ≡ news_of place errand told.now }
{
    match told {
        Told::Down => News::Failed,
        Told::DiskFault => News::Failed,
        Told::Sealed(length) => News::Sealed(*length),
        Told::Unsealed(length) => News::Opened(*length),
        Told::Ack(length) => taken(errand, *length),
        Told::Trimmed(base) => News::LetGo(*base),
        Told::Short(_) => missed(place, errand),
        Told::Behind(_) => News::Nothing,
        Told::Cut(_) => News::Nothing,
        Told::Got(_) => News::Nothing,
    }
}

/// What a server tells that took an entry and is this long.
fn taken(errand: Errand, length: u64) -> News
    ensures { result ≡ taken_news errand length }
{
    match errand {
        Errand::Store(_) => News::Opened(length),
        Errand::Repair(_) => News::Mended(length),
        _ => News::Nothing,
    }
}

/// What a server tells that doesn't have the entry that it was asked for.
fn missed(place: u64, errand: Errand) -> News
    ensures { result ≡ (if is_read_at place errand then News.Missed else News.Nothing) }
{
    if is_read_of(place, errand) {
        News::Missed
    } else {
        News::Nothing
    }
}

/// The entry that an answer gives to a Read that wants the one at `place`.
fn entry(phase: Phase, place: u64, errand: Errand, told: Told) -> Option<Entry>
    ensures { result ≡ entry_of phase place errand told }
{
    match phase {
        Phase::Reading(_) => given(place, errand, told),
        _ => None,
    }
}

fn given(place: u64, errand: Errand, told: Told) -> Option<Entry>
    ensures { result ≡ given_to place errand told }
{
    match told {
        Told::Got(entry) => {
            if is_read_of(place, errand) {
                Some(entry)
            } else {
                None
            }
        }
        _ => None,
    }
}

fn is_read_of(place: u64, errand: Errand) -> bool
    ensures { result ≡ is_read_at place errand }
{
    match errand {
        Errand::Read(position) => place == position,
        _ => false,
    }
}

/// Whether an operation in this phase counts such news.
fn bears(phase: Phase, news: News) -> bool
    ensures { result ≡ bears_on phase news }
{
    match news {
        News::Failed => true,
        News::Sealed(_) => !matches!(phase, Phase::Reading(_) | Phase::Trimming),
        News::Opened(_) => matches!(phase, Phase::Filling | Phase::Asking | Phase::Opening(_)),
        News::Mended(_) => matches!(phase, Phase::Mending(_)),
        News::LetGo(_) => matches!(phase, Phase::Trimming),
        News::Missed => matches!(phase, Phase::Reading(_)),
        News::Nothing => false,
    }
}

/// Whether an operation in this phase has asked server `index`: a Read asks them in turn.
fn is_asked(phase: Phase, index: u64) -> bool
    ensures { result ≡ is_asked_in phase index }
{
    match phase {
        Phase::Reading(server) => index <= server,
        _ => true,
    }
}

/// A member of which there are these news, where an operation wants this length. What is known of a
/// server only grows: an answer that tells a shorter length than is known tells nothing.
fn learn(want: u64, news: News, member: &mut Member)
    ensures { member.new ≡ learned want news member.old }
{
    match news {
        News::Failed => member.unreached = true,
        News::Sealed(length) => {
            if member.at <= length {
                member.sealed = Some(length);
                member.at = length;
            }
        }
        News::Opened(length) => {
            if !member.is_found_sealed() && member.at <= length {
                member.opened = Some(length);
                member.at = length;
            }
        }
        News::Mended(length) => {
            if member.is_found_sealed() && member.at <= length {
                member.at = length;
            }
        }
        News::LetGo(base) => member.passed = member.passed || want <= base,
        News::Missed => member.passed = true,
        News::Nothing => {}
    }
}

/// The same, of news that an operation in this phase counts.
fn learn_in(phase: Phase, want: u64, news: News, member: &mut Member)
    ensures { member.new ≡ learned_in phase want news member.old }
{
    if bears(phase, news) {
        learn(want, news, member);
    }
}

/// Whether the message on its way to or from server `index` stays: something is wanted of the server
/// still, and no more is known of how long it is, and whether it is sealed.
fn is_due(aims: Aims, index: u64, at: u64, was_sealed: bool, member: &Member) -> bool
    ensures { result ≡ (not (is_done aims.phase aims.want index member.now) && ((member.now.at == at) && (was_sealed || not (is_found_sealed member.now)))) }
{
    !(member.unreached || is_met_by(aims, index, member))
        && member.at == at
        && (was_sealed || !member.is_found_sealed())
}

/// There are these news of server `index`. Its message is given up where another is wanted now.
fn hear_anew(aims: Aims, index: u64, news: News, member: &mut Member)
    ensures { member.new ≡ heard_anew aims.phase aims.want index news member.old }
{
    let at = member.at;
    let was_sealed = member.is_found_sealed();
    learn_in(aims.phase, aims.want, news, member);
    if !is_due(aims, index, at, was_sealed, member) {
        member.message = None;
    }
}

impl Pending {
    /// An answer of server `index` to this errand comes that the operation doesn't wait for, under this
    /// cut of the loglet: a copy of one that came before, or the answer to a copy of a request. The
    /// operation learns from it what it tells, and is decided or goes on. Its message to or from that
    /// server stays, with its losses, unless the plan now wants another or none.
    pub fn hear_again(&mut self, index: usize, errand: Errand, told: Told, cut: u64)
        requires here { index < length self.old.members.items }
        requires members { length self.old.members.items < 2 ^ 32 }
        requires server { (j : ℕ) → self.old.phase ≡ Phase.Reading j → j < 2 ^ 32 }
        ensures { HearsAgain cut index errand told self.old self.new }
    {
        if is_asked(self.phase, index as u64) {
            self.hear_news(index, errand, told, cut);
        }
    }

    fn hear_news(&mut self, index: usize, errand: Errand, told: Told, cut: u64)
        requires here { index < length self.old.members.items }
        requires members { length self.old.members.items < 2 ^ 32 }
        requires server { (j : ℕ) → self.old.phase ≡ Phase.Reading j → j < 2 ^ 32 }
        ensures { HearsNews cut index errand told self.old self.new }
    {
        self.note_again(index, errand, told, cut);
        self.settle(cut);
    }

    fn note_again(&mut self, index: usize, errand: Errand, told: Told, cut: u64)
        requires { index < length self.old.members.items }
        ensures notes { NotesAgain index errand told self.old self.new }
        ensures phase { self.new.phase ≡ self.old.phase }
        ensures as_many { length self.new.members.items ≡ length self.old.members.items }
    {
        let place = place(self.task);
        let news = news_in(place, errand, &told);
        let got = entry(self.phase, place, errand, told);
        let aims = self.aims(cut);
        hear_anew(aims, index as u64, news, &mut self.members[index]);
        self.got = newer(got, self.got.take());
    }
}
