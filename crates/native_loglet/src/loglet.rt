//! A loglet of several servers.
ghost use Rattle.std.specs.Prelude.{◌≡◌, ◌≢◌, ℕ, ◌+◌, ◌%◌, ◌<◌, ◌≤◌, ◌^◌, ◌⊎◌, ◌↔◌, IsTrue, true, nat_lt, [], All, Some, length, slice_get, nat_eq, map, not, IfOk, OnOk, OnErr};
ghost use Rattle.std.specs.HashMap.{IsUnchanged};
ghost use Rattle.delos_types.specs.Spelling.{IsSpellable};
ghost use Rattle.delos_types.specs.declared.entry.Entry as entries_of;
ghost use Rattle.loglet_api.specs.Step.{IsAppend, CanCall, LogletStep, bumped};
ghost use Rattle.loglet_api.specs.Answers.{begin_answer, carry_answer, stray_answer, restart_answer};
ghost use Rattle.loglet_api.specs.View.{IsFresh};
ghost use Rattle.majority_rule.specs.Majority.{majority};
ghost use Rattle.quorum_cell.specs.Cells.{no_server, start};
ghost use Rattle.native_plan.specs.declared.pending.Pending as pendings;
ghost use Rattle.loglet_api.specs.Servers.{Wear, TakeSome, Serves};
ghost use Rattle.native_loglet.specs.Natives.{IsCount, IsCellOf, look_in, loglet_of, server_in, states_in, served_by, serving_of, down_in};
ghost use Rattle.native_loglet.specs.Steps.{NativeStep};
ghost use Rattle.log_server.specs.View.{View as server_views};
ghost use Rattle.native_loglet.specs.Disks.{KeepDisks, armed_by};
ghost use Rattle.native_loglet.specs.Faults.{faults_after, is_failed};
ghost use Rattle.native_loglet.specs.Moving.{CanMove, CarriesAt};
ghost use Rattle.native_loglet.specs.Copies.{copy_of, copy_in, kept_after, ComesAgain};

use crate::carrying::carry_one;
use crate::closing::{answer, take_decided};
use crate::copying::{copy_at, keep, take_back};
use crate::mail::Mail;
use crate::marks::Marks;
use crate::opening::{add, begin_on, down, let_go};
use crate::replica::Replica;
use crate::straying::count_stray;
use delos_types::entry::Entry;
use delos_types::numbers::Ticket;
use disk_model::Disk;
use loglet_api::call::{Answer, Kind, LogletAnswer, LogletCall, Op, Refused};
use loglet_api::loglet::Loglet;
use native_bag::bag::Bag;
use native_plan::pending::Pending;
use std::alloc::{AllocError, Global};
use std::collections::{HashMap, VecDeque};
use std::marker::Model;

/// How many operations may be begun: 2^62.
const LIMIT: u64 = 0x4000_0000_0000_0000;

/// The greatest first number of what is left of an operation: a Read of the first of seven servers.
const ROUNDS: u32 = 7;

/// A loglet of 1, 3, 5 or 7 log servers. A majority of them decides what each operation comes to.
///
/// A `carry` moves one message of its operation. The word says which of those on their way, and
/// whether it comes or is lost: of eight words in a row one loses it. A message that was lost eight
/// times, a server that is down and one whose disk failed leave that server out for the operation.
/// Faults are lost messages, failures of a server's disk, and `Full` answers.
///
/// Memory: the entries from the cut on, beside what the servers keep; for each open operation some
/// 100 bytes for each server.
#[derive(Drop)]
pub struct NativeLoglet<D: Disk> {
    alloc: Global,
    room: u64,
    /// The entries from the cut on.
    entries: VecDeque<Entry>,
    replicas: Vec<Replica<D>>,
    marks: Marks,
    /// The open operations, by ticket.
    pending: HashMap<u64, Pending>,
    /// Copies of messages that came, which may come again.
    strays: Bag<Mail>,
    /// The word of the last carry or stray that wasn't refused.
    told: u64,
    /// How many carries weren't refused; it stands still at 2^64 - 1.
    carried: u64,
    /// How many strays weren't refused; it stands still at 2^64 - 1.
    strayed: u64,
}

impl<D: Disk> Model for NativeLoglet<D> {
    ghost use Rattle.native_loglet.specs.Natives.{NativeView, native_view, IsNative};

    ghost Value = { NativeView };

    ghost view = { λ a. native_view a.room a.entries.items a.replicas.items a.marks a.pending.entries a.strays a.told a.carried a.strayed };

    ghost invariant = { λ a. IsNative a.room a.entries.items a.replicas.items a.marks a.pending.entries a.strays };
}

impl<D: Disk> NativeLoglet<D> {
    ghost use Rattle.loglet_api.specs.declared.call.Kind.TheVariants.{Native};

    /// An empty loglet that takes at most `room` entries, from 1 to 2^32, over 1, 3, 5 or 7 servers
    /// that are up and hold nothing.
    pub fn new(alloc: Global, replicas: Vec<Replica<D>>, room: u64) -> NativeLoglet<D>
        requires count { IsCount (length replicas.items) }
        requires fresh { All (λ v. v.server ≡ record no_server { up = true }) replicas.items }
        requires room { (1 ≤ room) × (room ≤ 2 ^ 32) }
        ensures fresh { IsFresh result.loglet }
        ensures room { result.loglet.room ≡ room }
        ensures kind { result.loglet.kind ≡ Native (length replicas.items) }
        ensures servers { result.loglet.servers ≡ length replicas.items }
        ensures rounds { result.loglet.rounds ≡ 7 }
        ensures limit { result.loglet.limit ≡ 2 ^ 62 }
        ensures replicas { result.replicas ≡ replicas.items }
        ensures serving { serving_of result ≡ served_by (states_in replicas.items) 0 0 0 }
        ensures strays { result.parts.strays ≡ [] }
        ensures quorum { result.loglet.quorum ≡ majority (length replicas.items) }
        ensures shown { result.loglet ≡ loglet_of result.parts }

        // It is the cell at its start: so many empty servers that are up.
        ensures cell { IsCellOf result.parts (start (length replicas.items) room (2 ^ 62)) }
    {
        NativeLoglet {
            alloc,
            room,
            entries: VecDeque::new(alloc),
            replicas,
            marks: Marks::new(),
            pending: HashMap::new(alloc),
            strays: Bag::new(alloc),
            told: 0,
            carried: 0,
            strayed: 0,
        }
    }
}

impl<D: Disk> Loglet for NativeLoglet<D> {
    ghost view = { λ v. v.loglet };

    ghost serving = { serving_of };

    fn kind(&self) -> Kind {
        Kind::Native(self.replicas.len() as u8)
    }

    fn servers(&self) -> u32 {
        self.replicas.len() as u32
    }

    fn room(&self) -> u64 {
        self.room
    }

    fn rounds(&self) -> u32 {
        let _open = &self.room;
        ROUNDS
    }

    fn limit(&self) -> u64 {
        let _open = &self.room;
        LIMIT
    }

    fn faults(&self) -> u64 {
        self.marks.faults
    }

    fn down(&self) -> u32 {
        down(&self.replicas)
    }

    fn begin(&mut self, op: Op) -> Result<Ticket, Refused>
        requires { CanCall self.old.loglet (LogletCall.Begin op) }
        ensures step { LogletStep self.old.loglet (LogletCall.Begin op) (begin_answer result) self.new.loglet }
        ensures serves { Serves (serving_of self.old) (LogletCall.Begin op) (begin_answer result) (serving_of self.new) }

        // The servers with their disks, the copies and what was counted of carries and strays stay as they are.
        ensures rest { self.new ≡ record self.old { loglet = self.new.loglet; parts = record self.old.parts { entries = self.new.parts.entries; marks = self.new.parts.marks; pending = self.new.parts.pending } } }

        // The operation begins in its cell, or is refused there as full.
        ensures goes { NativeStep self.old.parts (LogletCall.Begin op) (begin_answer result) self.new.parts }
    {
        let kept = self.entries.len() as u64;
        let size = self.marks.cut + kept;
        if is_full(&op, size, self.room, self.marks.begun) {
            self.marks = self.marks.after(true);
            return Err(Refused::Full);
        }
        let number = self.marks.begun;
        let marks = self.marks.begun(&op);
        let Ok(p) = begin_on(self.alloc, &self.replicas, self.marks, size, marks.cut, &op) else {
            return Err(Refused::Memory);
        };
        let Ok(()) = add(&mut self.entries, &mut self.pending, op, number, p) else {
            return Err(Refused::Memory);
        };
        let_go(&mut self.entries, marks.cut - self.marks.cut);
        self.marks = marks;
        Ok(Ticket::new(number))
    }

    fn carry(&mut self, ticket: Ticket, word: u64) -> Result<(), Refused>
        requires { CanCall self.old.loglet (LogletCall.Carry ticket word) }
        ensures step { LogletStep self.old.loglet (LogletCall.Carry ticket word) (carry_answer result) self.new.loglet }
        ensures serves { Serves (serving_of self.old) (LogletCall.Carry ticket word) (carry_answer result) (serving_of self.new) }

        // One message moves, and moves once: at most one server is asked.
        ensures moves { (p : pendings.Pending) → look_in self.old.parts.pending ticket ≡ Some p → OnOk result (CarriesAt self.old.parts.entries self.old.parts.marks.cut ticket word p self.old.parts.pending self.new.parts.pending self.old.replicas self.new.replicas (is_failed word self.old.loglet.down self.new.loglet.down)) }

        // A fault is counted where the message is lost and where the disk of its server failed, and else none.
        ensures counts { OnOk result (self.new.loglet.faults ≡ faults_after (is_failed word self.old.loglet.down self.new.loglet.down) self.old.loglet.faults) }

        // One message of this operation moves in its cell: the one that the word picks, and by the fate that the word says.
        ensures goes { NativeStep self.old.parts (LogletCall.Carry ticket word) (carry_answer result) self.new.parts }

        // A copy stays behind of the message that moved, just where the word says so and fewer than 64 are kept.
        ensures keeps { OnOk result (self.new.parts.strays ≡ kept_after (copy_in self.old.parts ticket word) self.old.parts.strays) }
        ensures spares { OnErr result (self.new.parts.strays ≡ self.old.parts.strays) }

        // A crash leaves of each disk that it touched what its server is.
        ensures disks { KeepDisks self.old.replicas self.new.replicas }
    {
        let Ok(failed) = carry_keeping(
            &mut self.strays,
            &mut self.pending,
            &mut self.replicas,
            &self.entries,
            self.marks.cut,
            ticket.number(),
            word,
        ) else {
            return Err(Refused::Memory);
        };
        self.marks = self.marks.after(failed);
        self.told = word;
        self.carried = one_more(self.carried);
        Ok(())
    }

    fn take(&mut self, ticket: Ticket) -> Option<Answer>
        requires { CanCall self.old.loglet (LogletCall.Take ticket) }
        ensures step { LogletStep self.old.loglet (LogletCall.Take ticket) (LogletAnswer.Taken result) self.new.loglet }
        ensures serves { Serves (serving_of self.old) (LogletCall.Take ticket) (LogletAnswer.Taken result) (serving_of self.new) }

        // Nothing changes but the operation and what was told.
        ensures rest { self.new ≡ record self.old { loglet = self.new.loglet; parts = record self.old.parts { marks = self.new.parts.marks; pending = self.new.parts.pending } } }

        // The outcome of this operation is given in its cell, and it is closed.
        ensures goes { NativeStep self.old.parts (LogletCall.Take ticket) (LogletAnswer.Taken result) self.new.parts }
    {
        let decided = take_decided(&mut self.pending, ticket.number())?;
        let length = decided.task.wanted(decided.size);
        let answer = answer(decided, self.marks.cut);
        self.marks = self.marks.told(&answer, length);
        Some(answer)
    }

    fn forget(&mut self, ticket: Ticket)
        requires { CanCall self.old.loglet (LogletCall.Forget ticket) }
        ensures step { LogletStep self.old.loglet (LogletCall.Forget ticket) LogletAnswer.Forgotten self.new.loglet }
        ensures serves { Serves (serving_of self.old) (LogletCall.Forget ticket) LogletAnswer.Forgotten (serving_of self.new) }

        // Nothing changes but the operation.
        ensures rest { self.new ≡ record self.old { loglet = self.new.loglet; parts = record self.old.parts { pending = self.new.parts.pending } } }

        // This operation is closed in its cell.
        ensures goes { NativeStep self.old.parts (LogletCall.Forget ticket) LogletAnswer.Forgotten self.new.parts }
    {
        let _ = self.pending.remove(&ticket.number());
    }

    fn left(&self, ticket: Ticket) -> (u32, u64) {
        let p = &self.pending[&ticket.number()];
        if p.outcome.is_some() {
            return (0, 0);
        }
        p.left()
    }

    fn stray(&mut self, word: u64) -> Result<(), Refused>
        ensures step { LogletStep self.old.loglet (LogletCall.Stray word) (stray_answer result) self.new.loglet }
        ensures serves { Serves (serving_of self.old) (LogletCall.Stray word) (stray_answer result) (serving_of self.new) }

        // The copy whose number is the word modulo their number comes again in its cell: a request to its server, and
        // the answer to the operation that hears it. Where there is no copy, nothing does.
        ensures goes { NativeStep self.old.parts (LogletCall.Stray word) (stray_answer result) self.new.parts }

        // One copy comes, and comes once.
        ensures comes { OnOk result (ComesAgain self.old.parts.marks.cut (slice_get self.old.parts.strays (word % length self.old.parts.strays)) self.old.parts.pending self.new.parts.pending self.old.replicas self.new.replicas (nat_lt self.old.loglet.down self.new.loglet.down)) }

        // A fault is counted where the disk of the server failed, and else none.
        ensures counts { OnOk result (self.new.loglet.faults ≡ faults_after (nat_lt self.old.loglet.down self.new.loglet.down) self.old.loglet.faults) }

        // All copies stay.
        ensures keeps { self.new.parts.strays ≡ self.old.parts.strays }

        // A crash leaves of each disk that it touched what its server is.
        ensures disks { KeepDisks self.old.replicas self.new.replicas }
    {
        let Ok(marks) = count_stray(
            &self.strays,
            &mut self.pending,
            &mut self.replicas,
            self.marks,
            word,
        ) else {
            return Err(Refused::Memory);
        };
        self.marks = marks;
        self.told = word;
        self.strayed = one_more(self.strayed);
        Ok(())
    }

    #[tactic(auto, using(crate::proofs::Serving::other_stays))]
    fn stop(&mut self, server: u32, after: u64)
        requires { CanCall self.old.loglet (LogletCall.Stop server after) }
        ensures step { LogletStep self.old.loglet (LogletCall.Stop server after) LogletAnswer.Stopped self.new.loglet }
        ensures serves { Serves (serving_of self.old) (LogletCall.Stop server after) LogletAnswer.Stopped (serving_of self.new) }
        ensures goes { NativeStep self.old.parts (LogletCall.Stop server after) LogletAnswer.Stopped self.new.parts }

        // Nothing changes but the disk of this server, which is armed with the count, unless it is stopped.
        ensures rest { self.new ≡ record self.old { loglet = self.new.loglet; replicas = self.new.replicas; parts = record self.old.parts { replicas = self.new.replicas } } }
        ensures arms { (v : server_views) → slice_get self.old.replicas server ≡ Some v → slice_get self.new.replicas server ≡ Some (armed_by after v) }

        // A crash leaves of each disk that it touched what its server is.
        ensures disks { KeepDisks self.old.replicas self.new.replicas }

        // The other servers and their disks stay as they are.
        ensures others { (i : ℕ) → i ≢ server → slice_get self.new.replicas i ≡ slice_get self.old.replicas i }
    {
        self.replicas[server as usize].stop(after);
    }

    #[tactic(auto, using(crate::proofs::Serving::other_stays))]
    fn restart(&mut self, server: u32, word: u64) -> Result<bool, Refused>
        requires { CanCall self.old.loglet (LogletCall.Restart server word) }
        ensures step { LogletStep self.old.loglet (LogletCall.Restart server word) (restart_answer result) self.new.loglet }
        ensures serves { Serves (serving_of self.old) (LogletCall.Restart server word) (restart_answer result) (serving_of self.new) }

        // The other servers and their disks stay as they are.
        ensures others { (i : ℕ) → i ≢ server → slice_get self.new.replicas i ≡ slice_get self.old.replicas i }

        // Nothing changes but this server with its disk, and the count of faults.
        ensures rest { self.new ≡ record self.old { loglet = self.new.loglet; replicas = self.new.replicas; parts = record self.old.parts { replicas = self.new.replicas; marks = self.new.parts.marks } } }

        // A fault is counted where it stays down, and else none.
        ensures counts { IfOk result (λ up. self.new.loglet.faults ≡ faults_after (not up) self.old.loglet.faults) }

        // This server comes up in its cell, or fails to once more.
        ensures goes { NativeStep self.old.parts (LogletCall.Restart server word) (restart_answer result) self.new.parts }

        // A crash leaves of each disk that it touched what its server is.
        ensures disks { KeepDisks self.old.replicas self.new.replicas }
    {
        let Ok(up) = self.replicas[server as usize].restart(word) else {
            return Err(Refused::Memory);
        };
        self.marks = self.marks.after(!up);
        Ok(up)
    }
}

/// A count, once there is one more; it stands still at 2^64 - 1.
fn one_more(count: u64) -> u64
    ensures { result ≡ bumped count }
{
    count.saturating_add(1)
}

/// Whether no more operations of this kind can be begun.
fn is_full(op: &Op, size: u64, room: u64, begun: u64) -> bool
    ensures { IsTrue result ↔ ((IsAppend op.now × (size ≡ room)) ⊎ (begun ≡ LIMIT)) }
{
    begun == LIMIT || (size == room && op.is_append())
}

/// Moves one message of the operation of a ticket, and keeps a copy of it where the word says so. Room for the copy
/// is made before anything moves. True where a fault came.
fn carry_keeping<D: Disk>(
    strays: &mut Bag<Mail>,
    pending: &mut HashMap<u64, Pending>,
    replicas: &mut [Replica<D>],
    entries: &VecDeque<Entry>,
    cut: u64,
    number: u64,
    word: u64,
) -> Result<bool, AllocError>
    requires can { (p : pendings.Pending) → look_in pending.old.entries number ≡ Some p → CanMove entries.now.items cut (length replicas.old) p }
    requires spelled { (i : ℕ) (e : entries_of.Entry) → slice_get entries.now.items i ≡ Some e → IsSpellable e }
    requires small { cut + length entries.now.items ≤ 2 ^ 32 }
    ensures carries { (p : pendings.Pending) → look_in pending.old.entries number ≡ Some p → IfOk result (CarriesAt entries.now.items cut number word p pending.old.entries pending.new.entries replicas.old replicas.new) }
    ensures pending { OnErr result ((t : ℕ) → look_in pending.new.entries t ≡ look_in pending.old.entries t) }
    ensures memory { OnErr result (map server_in replicas.new ≡ map server_in replicas.old) }
    ensures wear { IfOk result (λ _. Wear (states_in replicas.old) (states_in replicas.new)) }
    ensures spared { OnErr result (TakeSome (states_in replicas.old) (states_in replicas.new)) }
    ensures disks { KeepDisks replicas.old replicas.new }
    ensures failed { (p : pendings.Pending) → look_in pending.old.entries number ≡ Some p → IfOk result (λ failed. failed ≡ is_failed word (down_in replicas.old) (down_in replicas.new)) }
    ensures keeps { IfOk result (λ _. strays.new ≡ kept_after (copy_of entries.now.items cut number word (length strays.old) (look_in pending.old.entries number)) strays.old) }
    ensures strays_stay { OnErr result (strays.new ≡ strays.old) }
{
    let copy = copy_at(pending, entries, cut, number, word, strays.copies())?;
    let kept = keep(strays, copy)?;
    match carry_at(pending, replicas, entries, cut, number, word) {
        Ok(failed) => Ok(failed),
        Err(fault) => {
            take_back(strays, kept);
            Err(fault)
        }
    }
}

/// Moves one message of the operation of a ticket. True where a fault came.
fn carry_at<D: Disk>(
    pending: &mut HashMap<u64, Pending>,
    replicas: &mut [Replica<D>],
    entries: &VecDeque<Entry>,
    cut: u64,
    number: u64,
    word: u64,
) -> Result<bool, AllocError>
    requires can { (p : pendings.Pending) → look_in pending.old.entries number ≡ Some p → CanMove entries.now.items cut (length replicas.old) p }
    requires spelled { (i : ℕ) (e : entries_of.Entry) → slice_get entries.now.items i ≡ Some e → IsSpellable e }
    requires small { cut + length entries.now.items ≤ 2 ^ 32 }
    ensures carries { (p : pendings.Pending) → look_in pending.old.entries number ≡ Some p → IfOk result (CarriesAt entries.now.items cut number word p pending.old.entries pending.new.entries replicas.old replicas.new) }
    ensures pending { OnErr result ((t : ℕ) → look_in pending.new.entries t ≡ look_in pending.old.entries t) }
    ensures memory { OnErr result (map server_in replicas.new ≡ map server_in replicas.old) }
    ensures wear { IfOk result (λ _. Wear (states_in replicas.old) (states_in replicas.new)) }
    ensures spared { OnErr result (TakeSome (states_in replicas.old) (states_in replicas.new)) }
    ensures disks { KeepDisks replicas.old replicas.new }
    ensures failed { (p : pendings.Pending) → look_in pending.old.entries number ≡ Some p → IfOk result (λ failed. failed ≡ is_failed word (down_in replicas.old) (down_in replicas.new)) }
{
    match pending.get_mut(&number) {
        Some(p) => carry_one(p, replicas, entries, cut, word),
        None => Ok(false),
    }
}
