//! The calls of a loglet that is known only as a `dyn Loglet`.
ghost use Rattle.std.specs.Prelude.{◌≡◌, ℕ, ◌<◌, IfOk, IfNone};
ghost use Rattle.loglet_api.specs.View.{LogletView, IsOpen};
ghost use Rattle.loglet_api.specs.Sound.{IsSound};
ghost use Rattle.loglet_api.specs.Step.{CanCall, LogletStep, HasLeft, IsUndecidedAt};
ghost use Rattle.loglet_api.specs.Servers.{ServersView, Serves};
ghost use Rattle.loglet_api.specs.Answers.{begin_answer, carry_answer, stray_answer, restart_answer};

use crate::call::{Answer, LogletAnswer, LogletCall, Op, Refused};
use crate::loglet::Loglet;
use delos_types::numbers::Ticket;

pub fn servers(loglet: &dyn Loglet) -> u32
    ensures value { result ≡ (view loglet.now).servers }
    ensures sound { IsSound (view loglet.now) }
{
    loglet.servers()
}

pub fn left(loglet: &dyn Loglet, ticket: Ticket) -> (u32, u64)
    requires { IsOpen (view loglet.now) ticket }
    ensures { HasLeft (view loglet.now) ticket result.0 result.1 }
{
    loglet.left(ticket)
}

pub fn begin(loglet: &mut dyn Loglet, op: Op) -> Result<Ticket, Refused>
    requires { CanCall (view loglet.old) (LogletCall.Begin op) }
    ensures step { LogletStep (view loglet.old) (LogletCall.Begin op) (begin_answer result)
        (view loglet.new) }
    ensures serves { Serves (serving loglet.old) (LogletCall.Begin op) (begin_answer result) (serving loglet.new) }
    ensures open { IfOk result (IsOpen (view loglet.new)) }
{
    loglet.begin(op)
}

pub fn carry(loglet: &mut dyn Loglet, ticket: Ticket, word: u64) -> Result<(), Refused>
    requires { CanCall (view loglet.old) (LogletCall.Carry ticket word) }
    ensures step { LogletStep (view loglet.old) (LogletCall.Carry ticket word) (carry_answer result)
        (view loglet.new) }
    ensures serves { Serves (serving loglet.old) (LogletCall.Carry ticket word) (carry_answer result) (serving loglet.new) }
    ensures open { IsOpen (view loglet.new) ticket }
{
    loglet.carry(ticket, word)
}

pub fn take(loglet: &mut dyn Loglet, ticket: Ticket) -> Option<Answer>
    requires { CanCall (view loglet.old) (LogletCall.Take ticket) }
    ensures step { LogletStep (view loglet.old) (LogletCall.Take ticket) (LogletAnswer.Taken result)
        (view loglet.new) }
    ensures serves { Serves (serving loglet.old) (LogletCall.Take ticket) (LogletAnswer.Taken result) (serving loglet.new) }
    ensures undecided { IfNone result (IsUndecidedAt (view loglet.new) ticket) }
{
    loglet.take(ticket)
}

pub fn forget(loglet: &mut dyn Loglet, ticket: Ticket)
    requires { CanCall (view loglet.old) (LogletCall.Forget ticket) }
    ensures step { LogletStep (view loglet.old) (LogletCall.Forget ticket) LogletAnswer.Forgotten
        (view loglet.new) }
    ensures serves { Serves (serving loglet.old) (LogletCall.Forget ticket) LogletAnswer.Forgotten (serving loglet.new) }
{
    loglet.forget(ticket)
}

pub fn stray(loglet: &mut dyn Loglet, word: u64) -> Result<(), Refused>
    ensures step { LogletStep (view loglet.old) (LogletCall.Stray word) (stray_answer result)
        (view loglet.new) }
    ensures serves { Serves (serving loglet.old) (LogletCall.Stray word) (stray_answer result) (serving loglet.new) }
{
    loglet.stray(word)
}

pub fn stop(loglet: &mut dyn Loglet, server: u32, after: u64)
    requires { CanCall (view loglet.old) (LogletCall.Stop server after) }
    ensures step { LogletStep (view loglet.old) (LogletCall.Stop server after) LogletAnswer.Stopped
        (view loglet.new) }
    ensures serves { Serves (serving loglet.old) (LogletCall.Stop server after) LogletAnswer.Stopped (serving loglet.new) }
{
    loglet.stop(server, after)
}

pub fn restart(loglet: &mut dyn Loglet, server: u32, word: u64) -> Result<bool, Refused>
    requires { CanCall (view loglet.old) (LogletCall.Restart server word) }
    ensures step { LogletStep (view loglet.old) (LogletCall.Restart server word) (restart_answer result)
        (view loglet.new) }
    ensures serves { Serves (serving loglet.old) (LogletCall.Restart server word) (restart_answer result) (serving loglet.new) }
{
    loglet.restart(server, word)
}
