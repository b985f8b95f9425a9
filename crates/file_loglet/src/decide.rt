//! What carrying an operation comes to.
ghost use Rattle.std.specs.Prelude.{◌≡◌, ◌+◌, ◌^◌, ◌<◌, ◌≤◌, ℕ, true, false, if◌then◌else◌, [], ◌∷◌, length, drop, slice_get, Some, IfOk, OnOk, OnErr};
ghost use Rattle.delos_types.specs.Spelling.{IsSpellable};
ghost use Rattle.delos_types.specs.declared.entry.Entry as given;
ghost use Rattle.loglet_api.specs.declared.call.Answer.TheVariants.{Sealed};
ghost use Rattle.quorum_cell.specs.Servers.{length_of, is_sealed};
ghost use Rattle.quorum_cell.specs.declared.message.Ask.TheVariants.{Seal as AskSeal, Trim as AskTrim};
ghost use Rattle.file_loglet.specs.Later.{GoesOn, Wears};
ghost use Rattle.file_loglet.specs.Asking.{asks, stores_up_to, Heeds, Obeys};
ghost use Rattle.file_loglet.specs.Pending.{Answers, IsUnspoken, operation_of, told_at};

use crate::pending::Pending;
use crate::server::FileServer;
use delos_types::entry::Entry;
use disk_model::Disk;
use journal_core::Fault;
use loglet_api::call::{Answer, Task};
use std::alloc::AllocError;

/// Carries an operation on the server of a loglet that has these entries and this cut, and gives
/// its answer. A server that is down, or whose disk fails now, is out of reach.
///
/// A Read whose position no answer had spoken of needs no server, and so is answered all the same.
/// Whether its position is trimmed is seen when the answer is taken.
///
/// Cost: an Append or a Settle writes one record for each entry that isn't stored yet, up to its
/// length; a Seal and a Trim write at most one; a Read copies one entry.
#[tactic(auto, using(crate::proofs::Laters::wore_same, crate::proofs::Laters::wore_on))]
pub fn decide<D: Disk>(
    server: &mut FileServer<D>,
    entries: &[Entry],
    cut: u64,
    p: &Pending,
) -> Result<Answer, AllocError>
    requires size { p.now.size ≤ length entries.now }
    requires placing { p.now.task ≡ Task.Placing → p.now.size < length entries.now }
    requires small { length entries.now ≤ 2 ^ 32 }
    requires spelled { (i : ℕ) (e : given.Entry) → slice_get entries.now i ≡ Some e → IsSpellable e }
    requires stored { length_of server.old.server ≤ length entries.now }
    requires firm { p.now.firm ≤ length_of server.old.server }
    requires cut { cut ≤ length_of server.old.server }
    ensures wears { Wears server.old result server.new }

    // Out of reach is the server that is down now, and no other; one that is up answers as it is now.
    ensures unspoken { IsUnspoken p.now.task p.now.firm → IfOk result (λ answer. answer ≡ Answer.Beyond p.now.firm) }
    ensures down { ¬ IsUnspoken p.now.task p.now.firm → server.new.server.up ≡ false → IfOk result (λ answer. answer ≡ Answer.NoQuorum 1) }
    ensures up { ¬ IsUnspoken p.now.task p.now.firm → server.new.server.up ≡ true → IfOk result (Answers (drop cut entries.now) cut server.new.server (operation_of p.now) p.now.task) }

    // It did what the operation asks of it, and nothing else; where it isn't asked, it is as it was.
    ensures idle { server.old.server.up ≡ false → server.new ≡ server.old }
    ensures unasked { IsUnspoken p.now.task p.now.firm → server.new ≡ server.old }
    ensures obeys { ¬ IsUnspoken p.now.task p.now.firm → server.old.server.up ≡ true → Obeys server.old.server (asks (drop cut entries.now) cut server.old.server p.now.size p.now.task) result server.new.server }
    ensures memory { OnErr result (is_sealed server.new.server ≡ is_sealed server.old.server) }
{
    if p.is_unspoken() {
        return Ok(Answer::Beyond(p.firm));
    }
    if !server.is_up() {
        return Ok(Answer::NoQuorum { unreached: 1 });
    }
    match ask(server, entries, cut, p) {
        Ok(answer) => Ok(answer),
        Err(Fault::Disk) => Ok(Answer::NoQuorum { unreached: 1 }),
        Err(Fault::Memory) => Err(AllocError),
    }
}

/// Carries an operation on a server that is up.
#[tactic(auto, using(crate::proofs::Laters::goes_same, crate::proofs::Laters::got_behind))]
fn ask<D: Disk>(
    server: &mut FileServer<D>,
    entries: &[Entry],
    cut: u64,
    p: &Pending,
) -> Result<Answer, Fault>
    requires up { server.old.server.up ≡ true }
    requires size { p.now.size ≤ length entries.now }
    requires placing { p.now.task ≡ Task.Placing → p.now.size < length entries.now }
    requires small { length entries.now ≤ 2 ^ 32 }
    requires spelled { (i : ℕ) (e : given.Entry) → slice_get entries.now i ≡ Some e → IsSpellable e }
    requires stored { length_of server.old.server ≤ length entries.now }
    requires reading { (q : ℕ) → p.now.task ≡ Task.Reading q → q < p.now.firm }
    requires firm { p.now.firm ≤ length_of server.old.server }
    requires cut { cut ≤ length_of server.old.server }
    ensures goes_on { GoesOn server.old result server.new }
    ensures answers { IfOk result (Answers (drop cut entries.now) cut server.new.server (operation_of p.now) p.now.task) }
    ensures heeds { Heeds server.old.server (asks (drop cut entries.now) cut server.old.server p.now.size p.now.task) result server.new.server }
{
    match p.task {
        Task::Placing => store(server, entries, p.size + 1, Answer::Placed(p.size)),
        Task::Settling(n) => store(server, entries, n.min(p.size), Answer::Settled),
        Task::Finding => Ok(tail(server)),
        Task::Sealing => seal(server),
        Task::Reading(position) => Ok(Answer::Got(entry_at(entries, position)?)),
        Task::Trimming(_) => trim(server, cut),
    }
}

/// A server that isn't sealed stores the entries below this position, and then gives this answer.
#[tactic(auto, using(crate::proofs::Laters::goes_same))]
fn store<D: Disk>(
    server: &mut FileServer<D>,
    entries: &[Entry],
    end: u64,
    answer: Answer,
) -> Result<Answer, Fault>
    requires up { server.old.server.up ≡ true }
    requires within { end ≤ length entries.now }
    requires small { length entries.now ≤ 2 ^ 32 }
    requires spelled { (i : ℕ) (e : given.Entry) → slice_get entries.now i ≡ Some e → IsSpellable e }
    ensures goes_on { GoesOn server.old result server.new }
    ensures sealed { is_sealed server.new.server ≡ is_sealed server.old.server }
    ensures heeds { Heeds server.old.server (stores_up_to (drop (length_of server.old.server) entries.now) (length_of server.old.server) end) result server.new.server }
    ensures stored { is_sealed server.old.server ≡ false → IfOk result (λ made. (made ≡ answer) × (end ≤ length_of server.new.server)) }
    ensures refused { is_sealed server.old.server ≡ true → IfOk result (λ made. made ≡ Sealed) }
{
    if server.is_sealed() {
        return Ok(Answer::Sealed);
    }
    store_up_to(server, entries, end)?;
    Ok(answer)
}

/// Stores the entries below a position, one record each.
#[tactic(auto, using(crate::proofs::Heeding::goes_first))]
fn store_up_to<D: Disk>(
    server: &mut FileServer<D>,
    entries: &[Entry],
    end: u64,
) -> Result<(), Fault>
    requires up { server.old.server.up ≡ true }
    requires unsealed { is_sealed server.old.server ≡ false }
    requires within { end ≤ length entries.now }
    requires small { length entries.now ≤ 2 ^ 32 }
    requires spelled { (i : ℕ) (e : given.Entry) → slice_get entries.now i ≡ Some e → IsSpellable e }
    ensures goes_on { GoesOn server.old result server.new }
    ensures unsealed { is_sealed server.new.server ≡ false }
    ensures heeds { Heeds server.old.server (stores_up_to (drop (length_of server.old.server) entries.now) (length_of server.old.server) end) result server.new.server }
    ensures stored { OnOk result (end ≤ length_of server.new.server) }
{
    while server.length() < end {
        let next = server.length() as usize;
        server.store(&entries[next])?;
    }
    Ok(())
}

/// What a server that is up tells of its length.
fn tail<D: Disk>(server: &FileServer<D>) -> Answer
    ensures { result ≡ (if is_sealed server.now.server then Answer.SealedTail (length_of server.now.server) else Answer.OpenTail (length_of server.now.server)) }
{
    if server.is_sealed() {
        Answer::SealedTail(server.length())
    } else {
        Answer::OpenTail(server.length())
    }
}

/// Seals a server that is up, where it isn't sealed.
#[tactic(auto, using(crate::proofs::Laters::goes_same, crate::proofs::Laters::sealed_goes, crate::proofs::Heeding::heeds_sealed, crate::proofs::Heeding::heeds_seal))]
fn seal<D: Disk>(server: &mut FileServer<D>) -> Result<Answer, Fault>
    requires up { server.old.server.up ≡ true }
    ensures goes_on { GoesOn server.old result server.new }
    ensures heeds { Heeds server.old.server (AskSeal ∷ []) result server.new.server }
    ensures sealed { IfOk result (λ answer. (answer ≡ Answer.SealDone) × (is_sealed server.new.server ≡ true)) }
{
    if !server.is_sealed() {
        server.seal()?;
    }
    Ok(Answer::SealDone)
}

/// Lets go of the entries below the cut, on a server that is up.
#[tactic(auto, using(crate::proofs::Laters::trim_goes, crate::proofs::Heeding::heeds_trim))]
fn trim<D: Disk>(server: &mut FileServer<D>, cut: u64) -> Result<Answer, Fault>
    requires up { server.old.server.up ≡ true }
    requires within { cut ≤ length_of server.old.server }
    ensures goes_on { GoesOn server.old result server.new }
    ensures heeds { Heeds server.old.server (AskTrim cut ∷ []) result server.new.server }
    ensures trimmed { IfOk result (λ answer. (answer ≡ Answer.TrimDone) × (cut ≤ server.new.server.base)) }
{
    server.trim(cut)?;
    Ok(Answer::TrimDone)
}

/// A copy of the entry of a position.
fn entry_at(entries: &[Entry], position: u64) -> Result<Entry, AllocError>
    requires within { position < length entries.now }
    requires small { length entries.now ≤ 2 ^ 32 }
    ensures { IfOk result (λ e. slice_get entries.now position ≡ Some e) }
{
    let entry = entries[position as usize].clone()?;
    Ok(entry)
}

/// What an operation is answered where the cut is here: a Read of a position below it is told so.
pub fn told(task: Task, cut: u64, answer: Answer) -> Answer
    ensures { result ≡ told_at task cut answer }
{
    match task {
        Task::Reading(q) if q < cut => Answer::CutAt(cut),
        _ => answer,
    }
}
