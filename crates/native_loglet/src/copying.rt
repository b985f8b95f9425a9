//! Which copy stays behind of a message that moves.
ghost use Rattle.std.specs.Prelude.{◌≡◌, ℕ, ◌-◌, ◌<◌, IsSome, Some, IfOk, OnErr, is_some, length, take, if◌then◌else◌, get_or};
ghost use Rattle.quorum_cell.specs.declared.message.Ask as asks;
ghost use Rattle.native_bag.specs.Bags.{most_strays};
ghost use Rattle.native_plan.specs.declared.message.Errand as errands;
ghost use Rattle.native_plan.specs.declared.message.Message.TheVariants.{Asked};
ghost use Rattle.native_plan.specs.declared.pending.Pending as pendings;
ghost use Rattle.native_plan.specs.Members.{no_member, due_of};
ghost use Rattle.native_ties.specs.Parts.{asked_by};
ghost use Rattle.native_loglet.specs.Natives.{look_in};
ghost use Rattle.native_loglet.specs.Moving.{CanMove, picked_by};
ghost use Rattle.native_loglet.specs.Copies.{is_kept as is_kept_by, mail_of, copy_of, kept_after};

use crate::carrying::picked;
use crate::entries::entry_at;
use crate::mail::Mail;
use delos_types::entry::Entry;
use fate_words::fates::Fate;
use fate_words::words::fate;
use native_bag::bag::{Bag, MOST_STRAYS};
use native_plan::message::{Errand, Message};
use native_plan::pending::Pending;
use quorum_cell::message::Ask;
use std::alloc::AllocError;
use std::collections::{HashMap, VecDeque};

/// Whether a copy stays behind, where there is room.
fn is_kept(fate: Fate) -> bool
    ensures { result ≡ is_kept_by fate }
{
    matches!(fate, Fate::DeliverAndKeep)
}

/// A copy of the message that the word moves, if one stays behind where so many are kept. Takes no
/// memory where none does.
pub fn copy_at(
    pending: &HashMap<u64, Pending>,
    entries: &VecDeque<Entry>,
    cut: u64,
    number: u64,
    word: u64,
    kept: usize,
) -> Result<Option<Mail>, AllocError>
    requires can { (p : pendings.Pending) → look_in pending.now.entries number ≡ Some p → (n : ℕ) × CanMove entries.now.items cut n p }
    ensures { IfOk result (λ copy. copy ≡ copy_of entries.now.items cut number word kept (look_in pending.now.entries number)) }
{
    if !is_kept(fate(word)) {
        return Ok(None);
    }
    if kept >= MOST_STRAYS {
        return Ok(None);
    }
    match pending.get(&number) {
        Some(p) => copy_moved(p, entries, cut, number, word),
        None => Ok(None),
    }
}

/// A copy of the message of the operation that the word picks.
fn copy_moved(
    p: &Pending,
    entries: &VecDeque<Entry>,
    cut: u64,
    number: u64,
    word: u64,
) -> Result<Option<Mail>, AllocError>
    requires can { (n : ℕ) × CanMove entries.now.items cut n p.now }
    ensures { IfOk result (λ copy. copy ≡ mail_of entries.now.items cut number (picked_by word p.now) (get_or p.now.members.items (picked_by word p.now) no_member).message) }
{
    let server = picked(p, word);
    match &p.members[server].message {
        Some(message) => copy_message(message, entries, cut, number, server as u32),
        None => Ok(None),
    }
}

/// A copy of this message.
fn copy_message(
    message: &Message,
    entries: &VecDeque<Entry>,
    cut: u64,
    number: u64,
    server: u32,
) -> Result<Option<Mail>, AllocError>
    requires there { (e : errands.Errand) → message.now ≡ Asked e → (ask : asks.Ask) × (asked_by entries.now.items cut (due_of cut e) ≡ Some ask) }
    ensures { IfOk result (λ copy. copy ≡ mail_of entries.now.items cut number server (Some message.now)) }
{
    match message {
        Message::Asked(errand) => {
            let ask = ask_of(errand.due(cut), entries, cut)?;
            Ok(Some(Mail::Asked {
                ticket: number,
                server,
                ask,
            }))
        }
        Message::Told(errand, told) => {
            let told = told.clone()?;
            Ok(Some(Mail::Told {
                ticket: number,
                server,
                errand: *errand,
                told,
            }))
        }
    }
}

/// What a server is asked for an errand.
#[tactic(auto, using(crate::proofs::Rules::store_there, crate::proofs::Rules::repair_there))]
fn ask_of(errand: Errand, entries: &VecDeque<Entry>, cut: u64) -> Result<Ask, AllocError>
    requires there { (ask : asks.Ask) × (asked_by entries.now.items cut errand ≡ Some ask) }
    ensures { IfOk result (λ ask. asked_by entries.now.items cut errand ≡ Some ask) }
{
    match errand {
        Errand::Store(place) => {
            let entry = entry_at(entries, cut, place).clone()?;
            Ok(Ask::Store(place, entry))
        }
        Errand::Seal => Ok(Ask::Seal),
        Errand::Tail => Ok(Ask::Tail),
        Errand::Repair(place) => {
            let entry = entry_at(entries, cut, place).clone()?;
            Ok(Ask::Repair(place, entry))
        }
        Errand::Read(place) => Ok(Ask::Read(place)),
        Errand::Trim => Ok(Ask::Trim(cut)),
    }
}

/// Keeps a copy, if there is one, and says so.
pub fn keep(strays: &mut Bag<Mail>, copy: Option<Mail>) -> Result<bool, AllocError>
    requires room { IsSome copy → length strays.old < most_strays }
    ensures kept { IfOk result (λ kept. kept ≡ is_some copy) }
    ensures strays { IfOk result (λ _. strays.new ≡ kept_after copy strays.old) }
    ensures err { OnErr result (strays.new ≡ strays.old) }
{
    match copy {
        Some(copy) => {
            strays.keep_copy(copy)?;
            Ok(true)
        }
        None => Ok(false),
    }
}

/// Drops the copy again that was kept last, if one was.
pub fn take_back(strays: &mut Bag<Mail>, kept: bool)
    ensures { strays.new ≡ (if kept then take (length strays.old - 1) strays.old else strays.old) }
{
    if kept {
        strays.drop_newest();
    }
}
