//! A loglet of one server.
ghost use Rattle.std.specs.Prelude.{◌≡◌, ℕ, ◌≤◌, ◌^◌, ◌⊎◌, ◌↔◌, [], Bool, true, false, IsTrue, IfOk, IfErr, if◌then◌else◌};
ghost use Rattle.disk_model.specs.Disk.{reads, IsSynced, bumped as disk_bumped};
ghost use Rattle.disk_model.specs.Armed.{Spends};
ghost use Rattle.journal_core.specs.Records.{records_of};
ghost use Rattle.journal_core.specs.Journal.{AnyCrashLeaves};
ghost use Rattle.loglet_api.specs.Step.{IsAppend, bumped};
ghost use Rattle.loglet_api.specs.View.{IsFresh};
ghost use Rattle.server_records.specs.Spelled.{empty_server};
ghost use Rattle.file_loglet.specs.Held.{Brings};
ghost use Rattle.file_loglet.specs.File.{IsServed, counted};
ghost use Rattle.file_loglet.specs.Steps.{IsCellOf, start_at};

use crate::decide::{decide, told};
use crate::marks::Marks;
use crate::pending::{Decided, Pending, add, set_answer, take_decided};
use crate::server::FileServer;
use delos_types::entry::Entry;
use delos_types::numbers::Ticket;
use disk_model::Disk;
use journal_core::Fault;
use loglet_api::call::{Answer, Kind, LogletAnswer, LogletCall, Op, Refused};
use loglet_api::loglet::Loglet;
use std::alloc::{AllocError, Global};
use std::collections::HashMap;
use std::marker::Model;

/// How many operations may be begun: 2^62.
const LIMIT: u64 = 0x4000_0000_0000_0000;

/// A loglet of one server, whose log is a journal on a disk. Contracts see what every loglet shows,
/// its server and its disk: `IsServed` ties them together.
///
/// One `carry` decides an operation. It is `NoQuorum` where the disk fails in it or the server is
/// down, and then the server is down until a `restart`, which finds the write done or not in which
/// the disk failed. Its faults are those of its disk, and its `Full` answers. Words are ignored,
/// but for that of `restart`; the last is noted.
///
/// Cost: an entry is written as one record, once, by the first `carry` that needs it; a Seal and a
/// Trim write at most one record; a Read copies one entry; a restart reads the journal. All else
/// takes constant time, amortised.
///
/// Memory: the entries from position 0 on, trimmed ones too, and the journal's records beside them;
/// some 100 bytes for each open operation.
#[derive(Drop)]
pub struct FileLoglet<D: Disk> {
    room: u64,
    /// All entries from position 0 on, stored or not.
    entries: Vec<Entry>,
    server: FileServer<D>,
    marks: Marks,
    /// The open operations, by ticket.
    pending: HashMap<u64, Pending>,
}

impl<D: Disk> Model for FileLoglet<D> {
    ghost use Rattle.file_loglet.specs.File.{FileView, file_view};
    ghost use Rattle.file_loglet.specs.Whole.{IsWhole};

    ghost Value = { FileView };

    ghost view = { λ a. file_view a.room a.entries.items a.server a.marks a.pending };

    ghost invariant = { λ a. IsWhole a.room a.entries.items a.server a.marks a.pending };
}

impl<D: Disk> FileLoglet<D> {
    ghost use Rattle.loglet_api.specs.declared.call.Kind.TheVariants.{File};

    /// An empty loglet that takes at most `room` entries, from 1 to 2^32, on a disk that has no
    /// records and nothing pending, as an empty one. A refusal hands the disk back, on which a
    /// crash leaves no records either.
    pub fn new(alloc: Global, disk: D, room: u64) -> Result<FileLoglet<D>, journal_core::Refused<D>>
        requires room { (1 ≤ room) × (room ≤ 2 ^ 32) }
        requires synced { IsSynced (D.view disk) }
        requires empty { records_of (reads (D.view disk)) ≡ [] }
        ensures fresh { (D.view disk).faults ≡ 0 → IfOk result (λ made. IsFresh made.loglet) }
        ensures faults { IfOk result (λ made. made.loglet.faults ≡ counted (D.view disk).faults 0) }
        ensures room { IfOk result (λ made. made.loglet.room ≡ room) }
        ensures kind { IfOk result (λ made. made.loglet.kind ≡ File) }
        ensures limit { IfOk result (λ made. made.loglet.limit ≡ 2 ^ 62) }
        ensures disk { IfOk result (λ made. (made.server ≡ empty_server) × (made.disk.faults ≡ (D.view disk).faults) × (made.disk.word ≡ (D.view disk).word)) }
        ensures running { IfOk result (λ made. made.disk.stopped ≡ false) }
        ensures spends { IfOk result (λ made. Spends 1 (D.view disk).armed made.disk.armed) }
        ensures unasked { IfOk result (λ made. (made.answers ≡ []) × (made.refusals ≡ 0) × (made.asked ≡ record { told = 0; carries = 0; strays = 0; stops = 0; restarts = 0 })) }

        // It is the cell at its start: one empty server that is up.
        ensures cell { IfOk result (λ made. IsCellOf made (start_at room (D.view disk).faults)) }

        // Why the disk came back, and that it is as good as before, or failed.
        ensures memory { IfErr result (λ e. e.fault ≡ Fault.Memory → ((D.view e.disk).timeline ≡ (D.view disk).timeline) × ((D.view e.disk).faults ≡ (D.view disk).faults)) }
        ensures failed { IfErr result (λ e. e.fault ≡ Fault.Disk → (D.view e.disk).faults ≡ disk_bumped (D.view disk).faults) }
        ensures word_refused { IfErr result (λ e. (D.view e.disk).word ≡ (D.view disk).word) }
        ensures any_crash { IfErr result (λ e. AnyCrashLeaves (D.view disk) (D.view e.disk) (λ found. found ≡ [])) }
    {
        let server = FileServer::new(alloc, disk)?;
        Ok(FileLoglet {
            room,
            entries: Vec::new(alloc),
            server,
            marks: Marks::new(),
            pending: HashMap::new(alloc),
        })
    }

    /// Its disk. What a crash leaves of it, now or at any moment before, spells the server.
    pub fn into_disk(self) -> D
        ensures disk { D.view result ≡ self.disk }
        ensures served { IsServed self }
    {
        let FileLoglet {
            room: _,
            entries: _,
            server,
            marks: _,
            pending: _,
        } = self;
        server.into_disk()
    }
}

impl<D: Disk> Loglet for FileLoglet<D> {
    ghost use Rattle.std.specs.Prelude.{OnOk, OnErr, None};
    ghost use Rattle.loglet_api.specs.Step.{CanCall, LogletStep};
    ghost use Rattle.loglet_api.specs.Servers.{Serves};
    ghost use Rattle.loglet_api.specs.Answers.{begin_answer, carry_answer, stray_answer, restart_answer};
    ghost use Rattle.quorum_cell.specs.Servers.{restarted};
    ghost use Rattle.file_loglet.specs.Later.{Wears};
    ghost use Rattle.file_loglet.specs.Pending.{PutsAnswer};
    ghost use Rattle.file_loglet.specs.File.{IsDecidedAtOnce, IsAnswered, IsCarried, Takes, Counts, held_in, serving_of};
    ghost use Rattle.file_loglet.specs.Steps.{FileStep};

    ghost view = { λ v. v.loglet };

    ghost serving = { λ v. serving_of v };

    fn kind(&self) -> Kind {
        let _open = &self.room;
        Kind::File
    }

    fn servers(&self) -> u32 {
        let _open = &self.room;
        1
    }

    fn room(&self) -> u64 {
        self.room
    }

    fn rounds(&self) -> u32 {
        let _open = &self.room;
        1
    }

    fn limit(&self) -> u64 {
        let _open = &self.room;
        LIMIT
    }

    fn faults(&self) -> u64 {
        self.server
            .disk_faults()
            .saturating_add(self.marks.refusals)
    }

    fn down(&self) -> u32 {
        if self.server.is_up() { 0 } else { 1 }
    }

    fn begin(&mut self, op: Op) -> Result<Ticket, Refused>
        requires { CanCall self.old.loglet (LogletCall.Begin op) }
        ensures step { LogletStep self.old.loglet (LogletCall.Begin op) (begin_answer result) self.new.loglet }
        ensures serves { Serves (serving_of self.old) (LogletCall.Begin op) (begin_answer result) (serving_of self.new) }

        // Only a refusal as full is counted; the server and its disk stay as they are, and what was answered.
        ensures counts { Counts self.old result self.new }

        // The operation begins in its cell, or is refused there as full.
        ensures goes { FileStep self.old (LogletCall.Begin op) (begin_answer result) self.new }
    {
        let size = self.entries.len() as u64;
        if is_full(&op, size, self.room, self.marks.begun) {
            self.marks = self.marks.refused();
            return Err(Refused::Full);
        }
        let number = self.marks.begun;
        let marks = self.marks.begun(&op);
        let p = Pending {
            task: op.task(),
            size,
            reach: self.marks.reach,
            firm: self.marks.firm,
            shut: self.server.is_sealed(),
            faults: self.faults(),
            down: self.down(),
            answer: None,
        };
        let Ok(()) = add(&mut self.entries, &mut self.pending, op, number, p) else {
            return Err(Refused::Memory);
        };
        self.marks = marks;
        Ok(Ticket::new(number))
    }

    fn carry(&mut self, ticket: Ticket, word: u64) -> Result<(), Refused>
        requires { CanCall self.old.loglet (LogletCall.Carry ticket word) }
        ensures step { LogletStep self.old.loglet (LogletCall.Carry ticket word) (carry_answer result) self.new.loglet }
        ensures serves { Serves (serving_of self.old) (LogletCall.Carry ticket word) (carry_answer result) (serving_of self.new) }
        ensures at_once { OnOk result (IsDecidedAtOnce self.old.loglet ticket self.new.loglet) }

        // It is answered by what the server is then: out of reach just where it is down.
        ensures answered { OnOk result (IsAnswered self.old ticket self.new) }
        ensures unanswered { OnErr result (self.new.answers ≡ self.old.answers) }

        // The server did what the operation asks of it, and nothing else.
        ensures obeys { IsCarried self.old ticket result self.new }

        // The disk counts each record that was written, or failed once; it is no refusal.
        ensures wears { Wears (held_in self.old) result (held_in self.new) }
        ensures refusals { self.new.refusals ≡ self.old.refusals }

        // Its requests come to the server in its cell, and the replies to it, by which it comes to its answer there.
        ensures goes { FileStep self.old (LogletCall.Carry ticket word) (carry_answer result) self.new }
    {
        let number = ticket.number();
        let Ok(answer) = decide(
            &mut self.server,
            self.entries.as_slice(),
            self.marks.cut,
            &self.pending[&number],
        ) else {
            return Err(Refused::Memory);
        };
        set_answer(&mut self.pending, number, answer);
        self.marks = self.marks.carried(word);
        Ok(())
    }

    fn take(&mut self, ticket: Ticket) -> Option<Answer>
        requires { CanCall self.old.loglet (LogletCall.Take ticket) }
        ensures step { LogletStep self.old.loglet (LogletCall.Take ticket) (LogletAnswer.Taken result) self.new.loglet }
        ensures serves { Serves (serving_of self.old) (LogletCall.Take ticket) (LogletAnswer.Taken result) (serving_of self.new) }
        ensures takes { Takes self.old ticket result self.new }
        ensures kept { self.new ≡ record self.old { loglet = self.new.loglet; answers = self.new.answers } }

        // The outcome of this operation is given in its cell, and it is closed.
        ensures goes { FileStep self.old (LogletCall.Take ticket) (LogletAnswer.Taken result) self.new }
    {
        let Decided { task, size, answer } = take_decided(&mut self.pending, ticket.number())?;
        let answer = told(task, self.marks.cut, answer);
        self.marks = self.marks.told(&answer, task.wanted(size));
        Some(answer)
    }

    fn forget(&mut self, ticket: Ticket)
        requires { CanCall self.old.loglet (LogletCall.Forget ticket) }
        ensures step { LogletStep self.old.loglet (LogletCall.Forget ticket) LogletAnswer.Forgotten self.new.loglet }
        ensures serves { Serves (serving_of self.old) (LogletCall.Forget ticket) LogletAnswer.Forgotten (serving_of self.new) }
        ensures puts { PutsAnswer self.old.answers ticket None self.new.answers }
        ensures kept { self.new ≡ record self.old { loglet = self.new.loglet; answers = self.new.answers } }

        // This operation is closed in its cell.
        ensures goes { FileStep self.old (LogletCall.Forget ticket) LogletAnswer.Forgotten self.new }
    {
        let _ = self.pending.remove(&ticket.number());
    }

    fn left(&self, ticket: Ticket) -> (u32, u64) {
        self.pending[&ticket.number()].left()
    }

    fn stray(&mut self, word: u64) -> Result<(), Refused>
        ensures step { LogletStep self.old.loglet (LogletCall.Stray word) (stray_answer result) self.new.loglet }
        ensures serves { Serves (serving_of self.old) (LogletCall.Stray word) (stray_answer result) (serving_of self.new) }
        ensures kept { self.new ≡ record self.old { asked = record self.old.asked { told = word; strays = bumped self.old.asked.strays } } }

        // Nothing happens in its cell.
        ensures goes { FileStep self.old (LogletCall.Stray word) (stray_answer result) self.new }
    {
        let marks = self.marks.strayed(word);
        self.marks = marks;
        Ok(())
    }

    fn stop(&mut self, server: u32, after: u64)
        requires { CanCall self.old.loglet (LogletCall.Stop server after) }
        ensures step { LogletStep self.old.loglet (LogletCall.Stop server after) LogletAnswer.Stopped self.new.loglet }
        ensures serves { Serves (serving_of self.old) (LogletCall.Stop server after) LogletAnswer.Stopped (serving_of self.new) }
        ensures arms { self.new ≡ record self.old { disk = (if self.old.disk.stopped then self.old.disk else record self.old.disk { armed = after }); asked = record self.old.asked { stops = bumped self.old.asked.stops } } }

        // Nothing happens in its cell before the write comes that stops.
        ensures goes { FileStep self.old (LogletCall.Stop server after) LogletAnswer.Stopped self.new }
    {
        self.server.stop(after);
        self.marks = self.marks.stopped();
    }

    fn restart(&mut self, server: u32, word: u64) -> Result<bool, Refused>
        requires { CanCall self.old.loglet (LogletCall.Restart server word) }
        ensures step { LogletStep self.old.loglet (LogletCall.Restart server word) (restart_answer result) self.new.loglet }
        ensures serves { Serves (serving_of self.old) (LogletCall.Restart server word) (restart_answer result) (serving_of self.new) }
        ensures refusals { self.new.refusals ≡ self.old.refusals }
        ensures answers { self.new.answers ≡ self.old.answers }

        // It comes up with the write done or not in which its disk failed.
        ensures restarted { self.old.server.up ≡ false → IfOk result (λ up. up ≡ true → (kept : Bool) × (self.new.server ≡ restarted self.old.server kept self.old.server.torn)) }
        ensures idle { self.old.server.up ≡ true → self.new ≡ record self.old { asked = record self.old.asked { restarts = bumped self.old.asked.restarts } } }

        // The server comes up in its cell, or fails to once more.
        ensures goes { FileStep self.old (LogletCall.Restart server word) (restart_answer result) self.new }
    {
        let Ok(up) = bring_up(&mut self.server, word) else {
            return Err(Refused::Memory);
        };
        self.marks = self.marks.restarted();
        Ok(up)
    }
}

/// Restarts a server that is down, and says whether it is up.
fn bring_up<D: Disk>(server: &mut FileServer<D>, word: u64) -> Result<bool, AllocError>
    ensures { Brings word server.old result server.new }
{
    if server.is_up() {
        return Ok(true);
    }
    match server.restart(word) {
        Ok(()) => Ok(true),
        Err(Fault::Disk) => Ok(false),
        Err(Fault::Memory) => Err(AllocError),
    }
}

/// Whether no more operations of this kind can be begun.
fn is_full(op: &Op, size: u64, room: u64, begun: u64) -> bool
    ensures { IsTrue result ↔ ((IsAppend op.now × (size ≡ room)) ⊎ (begun ≡ LIMIT)) }
{
    begun == LIMIT || (size == room && op.is_append())
}
