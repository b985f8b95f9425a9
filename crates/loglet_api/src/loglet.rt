//! What each kind of loglet does.
ghost use Rattle.std.specs.Prelude.{◌≡◌, ℕ, ◌<◌, length};
ghost use Rattle.loglet_api.specs.View.{LogletView, IsOpen};
ghost use Rattle.loglet_api.specs.Sound.{IsSound};
ghost use Rattle.loglet_api.specs.Step.{CanCall, LogletStep, HasLeft};
ghost use Rattle.loglet_api.specs.Servers.{ServersView, Serves, downs_of};
ghost use Rattle.loglet_api.specs.Answers.{begin_answer, carry_answer, stray_answer, restart_answer};

use crate::call::{Answer, Kind, LogletAnswer, LogletCall, Op, Refused};
use delos_types::numbers::Ticket;

/// A log that can be sealed (OSDI 2020). An operation is begun, then carried by its caller, one
/// step a call, until it is decided, and then its answer is taken. Several may be open at once.
///
/// Each call is one step of what the loglet shows, and does to its servers what the call says, once, to
/// that server and no other, and by that word: the words of carries and strays are seen, the word by which
/// each disk was reopened, and how often each was asked for. `Refused::Memory`
/// leaves all as it was, but for writes that a disk took before, or the word by which it was reopened
/// before, and is the only answer that has no cause in the loglet. `take`, `forget`, `left` and the
/// loglet's numbers take no memory.
pub trait Loglet: Drop {
    /// What it shows.
    ghost view: { Self → LogletView };

    /// What is seen of its servers.
    ghost serving: { Self → ServersView };

    fn kind(&self) -> Kind
        ensures { result ≡ (view self.now).kind };

    /// How many servers it has, from 1 to 64. They are numbered from 0.
    fn servers(&self) -> u32
        ensures value { result ≡ (view self.now).servers }

        // What holds of every loglet is known from here on.
        ensures sound { IsSound (view self.now) }
        ensures each { length (serving self.now).states ≡ result };

    /// The greatest length of its log, from 1 to 2^32.
    fn room(&self) -> u64
        ensures { result ≡ (view self.now).room };

    /// The greatest first number of what is left of an operation as it begins.
    fn rounds(&self) -> u32
        ensures { result ≡ (view self.now).rounds };

    /// How many operations can be begun, at most 2^62.
    fn limit(&self) -> u64
        ensures { result ≡ (view self.now).limit };

    /// How many faults came: failed disks, lost messages and refusals as full. It never falls, and
    /// stands still at 2^64 - 1.
    fn faults(&self) -> u64
        ensures { result ≡ (view self.now).faults };

    /// How many servers are down.
    fn down(&self) -> u32
        ensures value { result ≡ (view self.now).down }
        ensures each { result ≡ downs_of (serving self.now).states };

    /// Begins an operation. The tickets are 0, 1, 2 and so on. An Append's entry is one that some
    /// bytes spell, and stands at the end of the log from now on, acknowledged or not.
    ///
    /// `Full` comes exactly where an Append finds the log as long as its room, or where `limit`
    /// operations were begun.
    fn begin(&mut self, op: Op) -> Result<Ticket, Refused>
        requires { CanCall (view self.old) (LogletCall.Begin op) }
        ensures step { LogletStep (view self.old) (LogletCall.Begin op) (begin_answer result)
            (view self.new) }
        ensures serves { Serves (serving self.old) (LogletCall.Begin op) (begin_answer result) (serving self.new) };

    /// Brings an open, undecided operation one step nearer to its end. Where there is a choice, as
    /// which message goes on, the word makes it. The only refusal is `Memory`.
    fn carry(&mut self, ticket: Ticket, word: u64) -> Result<(), Refused>
        requires { CanCall (view self.old) (LogletCall.Carry ticket word) }
        ensures step { LogletStep (view self.old) (LogletCall.Carry ticket word) (carry_answer result)
            (view self.new) }
        ensures serves { Serves (serving self.old) (LogletCall.Carry ticket word) (carry_answer result) (serving self.new) };

    /// The answer of an open operation, which closes it; None while it is undecided.
    fn take(&mut self, ticket: Ticket) -> Option<Answer>
        requires { CanCall (view self.old) (LogletCall.Take ticket) }
        ensures step { LogletStep (view self.old) (LogletCall.Take ticket) (LogletAnswer.Taken result)
            (view self.new) }
        ensures serves { Serves (serving self.old) (LogletCall.Take ticket) (LogletAnswer.Taken result) (serving self.new) };

    /// Closes an open operation without its answer. What it did stays done.
    fn forget(&mut self, ticket: Ticket)
        requires { CanCall (view self.old) (LogletCall.Forget ticket) }
        ensures step { LogletStep (view self.old) (LogletCall.Forget ticket) LogletAnswer.Forgotten
            (view self.new) }
        ensures serves { Serves (serving self.old) (LogletCall.Forget ticket) LogletAnswer.Forgotten (serving self.new) };

    /// How much of an open operation is left to do, the first number counting first: (0, 0) exactly
    /// where it is decided. Each `carry` lowers it, and no other call raises it.
    fn left(&self, ticket: Ticket) -> (u32, u64)
        requires { IsOpen (view self.now) ticket }
        ensures { HasLeft (view self.now) ticket result.0 result.1 };

    /// Delivers again a message that was delivered before, chosen by the word, where there is one.
    /// The only refusal is `Memory`.
    fn stray(&mut self, word: u64) -> Result<(), Refused>
        ensures step { LogletStep (view self.old) (LogletCall.Stray word) (stray_answer result)
            (view self.new) }
        ensures serves { Serves (serving self.old) (LogletCall.Stray word) (stray_answer result) (serving self.new) };

    /// Arms the disk of a server that is up: its `after`-th write from now on stops inside itself; 0
    /// takes that back. What one that is down does is its own affair, and it shows nothing of it.
    fn stop(&mut self, server: u32, after: u64)
        requires { CanCall (view self.old) (LogletCall.Stop server after) }
        ensures step { LogletStep (view self.old) (LogletCall.Stop server after) LogletAnswer.Stopped
            (view self.new) }
        ensures serves { Serves (serving self.old) (LogletCall.Stop server after) LogletAnswer.Stopped (serving self.new) };

    /// Brings this server up. The word chooses what a stopped write left on its disk. False only
    /// where its disk counted a fault. Where it is up it does nothing and answers true. The only
    /// refusal is `Memory`.
    fn restart(&mut self, server: u32, word: u64) -> Result<bool, Refused>
        requires { CanCall (view self.old) (LogletCall.Restart server word) }
        ensures step { LogletStep (view self.old) (LogletCall.Restart server word) (restart_answer result)
            (view self.new) }
        ensures serves { Serves (serving self.old) (LogletCall.Restart server word) (restart_answer result) (serving self.new) };
}

/// A box of any loglet is a loglet, so what is proved over every type of loglet holds of boxes.
impl Loglet for Box<dyn Loglet + Send> {
    ghost view = { λ b. (Loglet-box b).view b.value };

    ghost serving = { λ b. (Loglet-box b).serving b.value };

    fn kind(&self) -> Kind {
        (**self).kind()
    }

    fn servers(&self) -> u32 {
        (**self).servers()
    }

    fn room(&self) -> u64 {
        (**self).room()
    }

    fn rounds(&self) -> u32 {
        (**self).rounds()
    }

    fn limit(&self) -> u64 {
        (**self).limit()
    }

    fn faults(&self) -> u64 {
        (**self).faults()
    }

    fn down(&self) -> u32 {
        (**self).down()
    }

    fn begin(&mut self, op: Op) -> Result<Ticket, Refused> {
        (**self).begin(op)
    }

    fn carry(&mut self, ticket: Ticket, word: u64) -> Result<(), Refused> {
        (**self).carry(ticket, word)
    }

    fn take(&mut self, ticket: Ticket) -> Option<Answer> {
        (**self).take(ticket)
    }

    fn forget(&mut self, ticket: Ticket) {
        (**self).forget(ticket)
    }

    fn left(&self, ticket: Ticket) -> (u32, u64) {
        (**self).left(ticket)
    }

    fn stray(&mut self, word: u64) -> Result<(), Refused> {
        (**self).stray(word)
    }

    fn stop(&mut self, server: u32, after: u64) {
        (**self).stop(server, after)
    }

    fn restart(&mut self, server: u32, word: u64) -> Result<bool, Refused> {
        (**self).restart(server, word)
    }
}
