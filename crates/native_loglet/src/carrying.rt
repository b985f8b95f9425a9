//! How an open operation goes on by one message.
ghost use Rattle.std.specs.Prelude.{◌≡◌, ℕ, ◌+◌, ◌^◌, ◌≤◌, ◌<◌, true, Some, IfOk, OnErr, List, length, get_or, slice_get, map, count_by};
ghost use Rattle.delos_types.specs.Spelling.{IsSpellable};
ghost use Rattle.delos_types.specs.declared.entry.Entry as entries_of;
ghost use Rattle.quorum_cell.specs.declared.message.Ask as asks;
ghost use Rattle.quorum_cell.specs.declared.message.Told as tolds;
ghost use Rattle.log_server.specs.Answers.{Answers as ServerAnswers};
ghost use Rattle.log_server.specs.View.{Survives};
ghost use Rattle.native_loglet.specs.Disks.{KeepDisks};
ghost use Rattle.fate_words.specs.Words.{fate_of};
ghost use Rattle.native_plan.specs.Members.{no_member, is_out, turn_of};
ghost use Rattle.native_plan.specs.Pendings.{Answers};
ghost use Rattle.native_ties.specs.Parts.{asked_by};
ghost use Rattle.loglet_api.specs.Servers.{Wear, TakesSome, TakeSome};
ghost use Rattle.native_loglet.specs.Natives.{server_in, state_in, states_in, down_in};
ghost use Rattle.native_loglet.specs.Faults.{is_failed};
ghost use Rattle.native_loglet.specs.Moving.{CanMove, Moves, picked_by, LosesAs, FailsAs, AnswersFor};

use crate::replica::Replica;
use delos_types::entry::Entry;
use disk_model::Disk;
use fate_words::fates::Fate;
use fate_words::words::{fate, pick};
use native_plan::message::{Errand, Turn};
use native_plan::pending::Pending;
use quorum_cell::message::Told;
use std::alloc::AllocError;
use std::collections::VecDeque;

/// Moves the message of an undecided operation that the word picks: it is lost, or its request comes
/// to its server, or the answer to the operation. A server that is to take an entry below the cut lets
/// go instead, since the loglet keeps none there. True where a fault came: the message was lost, or
/// the server's disk failed. Want of memory changes nothing.
///
/// Cost: that of one call of a log server, and O(servers).
#[tactic(auto, using(crate::proofs::Rules::moved_by_loss, crate::proofs::Rules::moved_by_request))]
pub fn carry_one<D: Disk>(
    p: &mut Pending,
    replicas: &mut [Replica<D>],
    entries: &VecDeque<Entry>,
    cut: u64,
    word: u64,
) -> Result<bool, AllocError>
    requires can { CanMove entries.now.items cut (length replicas.old) p.old }
    requires spelled { (i : ℕ) (e : entries_of.Entry) → slice_get entries.now.items i ≡ Some e → IsSpellable e }
    requires small { cut + length entries.now.items ≤ 2 ^ 32 }
    ensures moves { IfOk result (Moves entries.now.items cut word p.old p.new replicas.old replicas.new) }
    ensures p { OnErr result (p.new ≡ p.old) }
    ensures memory { OnErr result (map server_in replicas.new ≡ map server_in replicas.old) }
    ensures wear { IfOk result (λ _. Wear (states_in replicas.old) (states_in replicas.new)) }
    ensures spared { OnErr result (TakeSome (states_in replicas.old) (states_in replicas.new)) }
    ensures failed { IfOk result (λ failed. failed ≡ is_failed word (down_in replicas.old) (down_in replicas.new)) }
    ensures disks { KeepDisks replicas.old replicas.new }
{
    let server = picked(p, word);
    if loses(word) {
        p.lose(server, cut);
        return Ok(true);
    }
    match turn(p, server) {
        Turn::Asks(errand) => {
            let errand = errand.due(cut);
            ask(p, &mut replicas[server], server, errand, entries, cut)
        }
        Turn::Tells => {
            p.hear(server, cut);
            Ok(false)
        }
        Turn::Rests => Ok(false),
    }
}

/// The server whose message the word moves.
pub fn picked(p: &Pending, word: u64) -> usize
    requires { 0 < count_by is_out p.now.members.items }
    ensures value { result ≡ picked_by word p.now }
    ensures out { is_out (get_or p.now.members.items result no_member) ≡ true }
    ensures here { result < length p.now.members.items }
{
    let skip = pick(word, p.outstanding() as u64);
    p.pick(skip)
}

/// What the message does next that is on its way to or from this server.
fn turn(p: &Pending, server: usize) -> Turn
    requires { server < length p.now.members.items }
    ensures { result ≡ turn_of (get_or p.now.members.items server no_member).message }
{
    p.members[server].turn()
}

/// Whether the word loses the message that it moves.
#[tactic(auto, using(crate::proofs::Rules::lost_as))]
fn loses(word: u64) -> bool
    ensures { LosesAs (fate_of word) result }
{
    is_lost(fate(word))
}

/// Whether the message doesn't come.
fn is_lost(fate: Fate) -> bool
    ensures { LosesAs fate result }
{
    matches!(fate, Fate::Lose)
}

/// A request comes to its server, and the answer is on its way. True where the server's disk failed.
#[tactic(auto, using(crate::proofs::Rules::answered_for))]
fn ask<D: Disk>(
    p: &mut Pending,
    replica: &mut Replica<D>,
    server: usize,
    errand: Errand,
    entries: &VecDeque<Entry>,
    cut: u64,
) -> Result<bool, AllocError>
    requires here { server < length p.old.members.items }
    requires there { (ask : asks.Ask) × (asked_by entries.now.items cut errand ≡ Some ask) }
    requires spelled { (i : ℕ) (e : entries_of.Entry) → slice_get entries.now.items i ≡ Some e → IsSpellable e }
    requires small { cut + length entries.now.items ≤ 2 ^ 32 }
    ensures answers { IfOk result (AnswersFor entries.now.items cut server errand p.old p.new replica.old replica.new) }
    ensures p { OnErr result (p.new ≡ p.old) }
    ensures memory { OnErr result (replica.new.server ≡ replica.old.server) }
    ensures spared { OnErr result (TakesSome (state_in replica.old) (state_in replica.new)) }
    ensures survives { Survives replica.new }
{
    let told = replica.ask(errand, entries, cut)?;
    let failed = is_fault(&told);
    p.answer(server, errand, told);
    Ok(failed)
}

/// Whether it tells that the server's disk failed.
pub fn is_fault(told: &Told) -> bool
    ensures { FailsAs told.now result }
{
    matches!(told, Told::DiskFault)
}
