//! What a copy does that comes again.
ghost use Rattle.std.specs.Prelude.{◌≡◌, ℕ, ◌<◌, ◌%◌, None, Some, IfOk, OnErr, length, nat_lt, slice_get, map};
ghost use Rattle.loglet_api.specs.Servers.{TakeSome};
ghost use Rattle.native_plan.specs.declared.pending.Pending as pendings;
ghost use Rattle.native_loglet.specs.declared.mail.Mail as mails;
ghost use Rattle.native_loglet.specs.Disks.{KeepDisks};
ghost use Rattle.native_loglet.specs.Faults.{faults_after};
ghost use Rattle.native_loglet.specs.Natives.{look_in, server_in, states_in, down_in};
ghost use Rattle.native_loglet.specs.Copies.{HearsAt, HearsOpen, ComesAgain, CanCome, CanHear};

use crate::carrying::is_fault;
use crate::mail::Mail;
use crate::marks::Marks;
use crate::replica::Replica;
use disk_model::Disk;
use native_bag::bag::Bag;
use native_plan::message::Errand;
use native_plan::pending::Pending;
use native_plan::stray::errand_of;
use quorum_cell::message::Told;
use std::alloc::AllocError;
use std::collections::HashMap;

/// The copy that the word picks comes again, if there is one. A fault is counted where one server more
/// is down: its disk failed. Want of memory changes nothing.
///
/// Cost: that of one call of a log server, and O(servers).
#[tactic(auto, using(crate::proofs::Serving::comes_failed))]
pub fn count_stray<D: Disk>(
    strays: &Bag<Mail>,
    pending: &mut HashMap<u64, Pending>,
    replicas: &mut [Replica<D>],
    marks: Marks,
    word: u64,
) -> Result<Marks, AllocError>
    requires can { (n : ℕ) (m : mails.Mail) → slice_get strays.now n ≡ Some m → CanCome (length replicas.old) m }
    requires hears { (t : ℕ) (p : pendings.Pending) → look_in pending.old.entries t ≡ Some p → p.outcome ≡ None → CanHear (length replicas.old) p }
    ensures comes { IfOk result (λ _. ComesAgain marks.cut (slice_get strays.now (word % length strays.now)) pending.old.entries pending.new.entries replicas.old replicas.new (nat_lt (down_in replicas.old) (down_in replicas.new))) }
    ensures counts { IfOk result (λ counted. counted ≡ record marks { faults = faults_after (nat_lt (down_in replicas.old) (down_in replicas.new)) marks.faults }) }
    ensures pending { OnErr result ((t : ℕ) → look_in pending.new.entries t ≡ look_in pending.old.entries t) }
    ensures memory { OnErr result (map server_in replicas.new ≡ map server_in replicas.old) }
    ensures spared { OnErr result (TakeSome (states_in replicas.old) (states_in replicas.new)) }
    ensures disks { KeepDisks replicas.old replicas.new }
{
    let failed = stray_at(strays, pending, replicas, marks.cut, word)?;
    Ok(marks.after(failed))
}

/// The copy that the word picks comes again, if there is one. True where a server's disk failed. Want
/// of memory changes nothing.
fn stray_at<D: Disk>(
    strays: &Bag<Mail>,
    pending: &mut HashMap<u64, Pending>,
    replicas: &mut [Replica<D>],
    cut: u64,
    word: u64,
) -> Result<bool, AllocError>
    requires can { (n : ℕ) (m : mails.Mail) → slice_get strays.now n ≡ Some m → CanCome (length replicas.old) m }
    requires hears { (t : ℕ) (p : pendings.Pending) → look_in pending.old.entries t ≡ Some p → p.outcome ≡ None → CanHear (length replicas.old) p }
    ensures comes { IfOk result (ComesAgain cut (slice_get strays.now (word % length strays.now)) pending.old.entries pending.new.entries replicas.old replicas.new) }
    ensures pending { OnErr result ((t : ℕ) → look_in pending.new.entries t ≡ look_in pending.old.entries t) }
    ensures memory { OnErr result (map server_in replicas.new ≡ map server_in replicas.old) }
    ensures spared { OnErr result (TakeSome (states_in replicas.old) (states_in replicas.new)) }
    ensures disks { KeepDisks replicas.old replicas.new }
{
    match strays.stray(word) {
        Some(mail) => come_again(mail, pending, replicas, cut),
        None => Ok(false),
    }
}

/// This copy comes again: a request to its server, and the answer to the operation.
fn come_again<D: Disk>(
    mail: &Mail,
    pending: &mut HashMap<u64, Pending>,
    replicas: &mut [Replica<D>],
    cut: u64,
) -> Result<bool, AllocError>
    requires can { CanCome (length replicas.old) mail.now }
    requires hears { (t : ℕ) (p : pendings.Pending) → look_in pending.old.entries t ≡ Some p → p.outcome ≡ None → CanHear (length replicas.old) p }
    ensures comes { IfOk result (ComesAgain cut (Some mail.now) pending.old.entries pending.new.entries replicas.old replicas.new) }
    ensures pending { OnErr result ((t : ℕ) → look_in pending.new.entries t ≡ look_in pending.old.entries t) }
    ensures memory { OnErr result (map server_in replicas.new ≡ map server_in replicas.old) }
    ensures spared { OnErr result (TakeSome (states_in replicas.old) (states_in replicas.new)) }
    ensures disks { KeepDisks replicas.old replicas.new }
{
    match mail {
        Mail::Asked {
            ticket,
            server,
            ask,
        } => {
            let told = replicas[*server as usize].ask_again(ask)?;
            let failed = is_fault(&told);
            hear_at(
                pending,
                *ticket,
                *server as usize,
                errand_of(ask),
                told,
                cut,
            );
            Ok(failed)
        }
        Mail::Told {
            ticket,
            server,
            errand,
            told,
        } => {
            let told = told.clone()?;
            hear_at(pending, *ticket, *server as usize, *errand, told, cut);
            Ok(false)
        }
    }
}

/// An answer comes to the operation of a ticket, if that is open and undecided.
fn hear_at(
    pending: &mut HashMap<u64, Pending>,
    number: u64,
    server: usize,
    errand: Errand,
    told: Told,
    cut: u64,
)
    requires here { (p : pendings.Pending) → look_in pending.old.entries number ≡ Some p → p.outcome ≡ None → (n : ℕ) × (server < n) × CanHear n p }
    ensures { HearsAt cut number server errand told pending.old.entries pending.new.entries }
{
    if let Some(p) = pending.get_mut(&number) {
        hear_open(p, server, errand, told, cut);
    }
}

/// An answer comes to an operation, if that is undecided.
fn hear_open(p: &mut Pending, server: usize, errand: Errand, told: Told, cut: u64)
    requires here { p.old.outcome ≡ None → (n : ℕ) × (server < n) × CanHear n p.old }
    ensures { HearsOpen p.old.outcome cut server errand told p.old (Some p.new) }
{
    if p.outcome.is_none() {
        p.hear_again(server, errand, told, cut);
    }
}
