//! A loglet that counts what is appended through it.
ghost use Rattle.std.specs.Prelude.{◌≡◌, ◌+◌, ◌-◌, ◌^◌, OnErr, OnOk, min};
ghost use Rattle.loglet_api.specs.Answers.{begin_answer, carry_answer, stray_answer, restart_answer};
ghost use Rattle.loglet_api.specs.Step.{CanCall, LogletStep};
ghost use Rattle.loglet_api.specs.Servers.{Serves};
ghost use Rattle.loglet_api.specs.declared.call.LogletAnswer.{LogletAnswer};
ghost use Rattle.counted_loglet.specs.Counts.{appends_in};

use delos_types::numbers::Ticket;
use loglet_api::call::{Answer, Kind, LogletCall, Op, Refused};
use loglet_api::loglet::Loglet;

/// A loglet, and how many appends were begun on it.
#[derive(Drop)]
pub struct Counted<L: Loglet> {
    pub inner: L,
    /// How many appends were begun, refused ones left out. It stands still at 2^64 - 1.
    pub appends: u64,
}

impl<L: Loglet> Counted<L> {
    /// Counts from here on what is appended to a loglet.
    pub fn new(inner: L) -> Counted<L>
        ensures { result ≡ record { inner = inner; appends = 0 } }
    {
        Counted { inner, appends: 0 }
    }
}

/// How many appends an operation is.
fn appends_in(op: &Op) -> u64
    ensures { result ≡ appends_in op.now }
{
    match op {
        Op::Append(_) => 1,
        _ => 0,
    }
}

/// It shows what the loglet within shows, so each of its calls is the same step. No call but `begin` changes the count.
impl<L: Loglet> Loglet for Counted<L> {
    ghost view = { λ c. L.view c.inner };

    ghost serving = { λ c. L.serving c.inner };

    fn kind(&self) -> Kind {
        self.inner.kind()
    }

    fn servers(&self) -> u32 {
        self.inner.servers()
    }

    fn room(&self) -> u64 {
        self.inner.room()
    }

    fn rounds(&self) -> u32 {
        self.inner.rounds()
    }

    fn limit(&self) -> u64 {
        self.inner.limit()
    }

    fn faults(&self) -> u64 {
        self.inner.faults()
    }

    fn down(&self) -> u32 {
        self.inner.down()
    }

    /// Counts an append that is begun.
    fn begin(&mut self, op: Op) -> Result<Ticket, Refused>
        requires { CanCall (L.view self.old.inner) (LogletCall.Begin op) }
        ensures step { LogletStep (L.view self.old.inner) (LogletCall.Begin op) (begin_answer result) (L.view self.new.inner) }
        ensures serves { Serves (L.serving self.old.inner) (LogletCall.Begin op) (begin_answer result) (L.serving self.new.inner) }
        ensures counted { OnOk result (self.new.appends ≡ min (self.old.appends + appends_in op) (2 ^ 64 - 1)) }
        ensures refused { OnErr result (self.new.appends ≡ self.old.appends) }
    {
        let appends = appends_in(&op);
        let ticket = self.inner.begin(op)?;
        self.appends = self.appends.saturating_add(appends);
        Ok(ticket)
    }

    fn carry(&mut self, ticket: Ticket, word: u64) -> Result<(), Refused>
        requires { CanCall (L.view self.old.inner) (LogletCall.Carry ticket word) }
        ensures step { LogletStep (L.view self.old.inner) (LogletCall.Carry ticket word) (carry_answer result) (L.view self.new.inner) }
        ensures serves { Serves (L.serving self.old.inner) (LogletCall.Carry ticket word) (carry_answer result) (L.serving self.new.inner) }
        ensures keeps { self.new.appends ≡ self.old.appends }
    {
        self.inner.carry(ticket, word)
    }

    fn take(&mut self, ticket: Ticket) -> Option<Answer>
        requires { CanCall (L.view self.old.inner) (LogletCall.Take ticket) }
        ensures step { LogletStep (L.view self.old.inner) (LogletCall.Take ticket) (LogletAnswer.Taken result) (L.view self.new.inner) }
        ensures serves { Serves (L.serving self.old.inner) (LogletCall.Take ticket) (LogletAnswer.Taken result) (L.serving self.new.inner) }
        ensures keeps { self.new.appends ≡ self.old.appends }
    {
        self.inner.take(ticket)
    }

    fn forget(&mut self, ticket: Ticket)
        requires { CanCall (L.view self.old.inner) (LogletCall.Forget ticket) }
        ensures step { LogletStep (L.view self.old.inner) (LogletCall.Forget ticket) LogletAnswer.Forgotten (L.view self.new.inner) }
        ensures serves { Serves (L.serving self.old.inner) (LogletCall.Forget ticket) LogletAnswer.Forgotten (L.serving self.new.inner) }
        ensures keeps { self.new.appends ≡ self.old.appends }
    {
        self.inner.forget(ticket)
    }

    fn left(&self, ticket: Ticket) -> (u32, u64) {
        self.inner.left(ticket)
    }

    fn stray(&mut self, word: u64) -> Result<(), Refused>
        ensures step { LogletStep (L.view self.old.inner) (LogletCall.Stray word) (stray_answer result) (L.view self.new.inner) }
        ensures serves { Serves (L.serving self.old.inner) (LogletCall.Stray word) (stray_answer result) (L.serving self.new.inner) }
        ensures keeps { self.new.appends ≡ self.old.appends }
    {
        self.inner.stray(word)
    }

    fn stop(&mut self, server: u32, after: u64)
        requires { CanCall (L.view self.old.inner) (LogletCall.Stop server after) }
        ensures step { LogletStep (L.view self.old.inner) (LogletCall.Stop server after) LogletAnswer.Stopped (L.view self.new.inner) }
        ensures serves { Serves (L.serving self.old.inner) (LogletCall.Stop server after) LogletAnswer.Stopped (L.serving self.new.inner) }
        ensures keeps { self.new.appends ≡ self.old.appends }
    {
        self.inner.stop(server, after)
    }

    fn restart(&mut self, server: u32, word: u64) -> Result<bool, Refused>
        requires { CanCall (L.view self.old.inner) (LogletCall.Restart server word) }
        ensures step { LogletStep (L.view self.old.inner) (LogletCall.Restart server word) (restart_answer result) (L.view self.new.inner) }
        ensures serves { Serves (L.serving self.old.inner) (LogletCall.Restart server word) (restart_answer result) (L.serving self.new.inner) }
        ensures keeps { self.new.appends ≡ self.old.appends }
    {
        self.inner.restart(server, word)
    }
}
