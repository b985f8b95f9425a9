//! A loglet of any kind, and its calls.
ghost use Rattle.std.specs.Prelude.{◌≡◌, ◌≤◌, ◌^◌, IfOk};
ghost use Rattle.loglet_api.specs.View.{IsFresh};
ghost use Rattle.loglet_runs.specs.Runs.{CanBring, IsClosed};

use crate::calls::{Calls, op, said};
use anyhow::{Result, bail};
use delos_types::numbers::Ticket;
use disk_model::{Disk, FailDisk, MemDisk};
use file_loglet::file::FileLoglet;
use file_loglet::memory as file;
use loglet_api::call::{LogletAnswer, LogletCall, Refused};
use loglet_api::loglet::Loglet;
use loglet_runs::runs::run_ops;
use native_loglet::loglet::NativeLoglet;
use native_loglet::memory as native;
use std::alloc::Global;
use striped_loglet::striped::StripedLoglet;
use worked_cases::bench::Bench;
use worked_cases::words::{nothing, number, numbers, shown, silent, told};

/// No loglet takes more entries.
const MOST_ROOM: u64 = 0x1_0000_0000;

/// Neither of the two in a pair takes more.
const MOST_STRIPE_ROOM: u64 = 0x8000_0000;

/// No pair of a case has more servers, or more rounds.
const MOST_SERVERS: u64 = 64;

const MOST_ROUNDS: u64 = 100_000;

/// As many carries as bring most operations to their end.
const HANDFUL: u64 = 6;

/// No operation of a case takes so many of them.
const MOST_HANDFULS: u64 = 50;

/// The kinds of loglet.
#[derive(Clone, Copy)]
enum Kind {
    /// One server, on a disk of which chosen calls may fail.
    File,
    /// So many log servers.
    Native(u64),
    /// Two loglets in turn: file loglets, or native ones of so many servers.
    Striped(Option<u64>),
    /// Two such striped loglets in turn.
    Nested(Option<u64>),
}

/// What is asked once the calls are made.
#[derive(Clone, Copy)]
enum Question<'a> {
    /// The answer of the last call.
    Answer,
    /// The same, unless the call of this number, which begins the operation, was refused.
    Outcome(usize),
    /// A number of the loglet, by its name.
    Number(&'a str),
    /// The bytes on the disk of a file loglet.
    Bytes,
}

/// The calls of a loglet so far. Each answer is that of all of them, made on a new loglet.
#[derive(Drop)]
pub struct LogletBench {
    kind: Kind,
    room: u64,
    failing: Vec<u64>,
    armed: u64,
    /// The words by which a whole operation is carried first.
    order: Vec<u64>,
    calls: Calls,
}

impl LogletBench {
    pub fn new(alloc: Global) -> LogletBench {
        LogletBench {
            kind: Kind::File,
            room: 0,
            failing: Vec::new(alloc),
            armed: 0,
            order: Vec::new(alloc),
            calls: Calls::new(alloc),
        }
    }
}

impl Bench for LogletBench {
    fn call(&mut self, alloc: Global, name: &str, words: &[&str]) -> Result<String> {
        if let Some(ticket) = name.strip_suffix(":") {
            return self.ticketed(alloc, Ticket::new(ticket.parse::<u64>()?), words);
        }
        match name {
            "file" | "striped" | "nested" | "native" => {
                self.make(name, words)?;
                silent(alloc)
            }
            "fails" | "arm" | "order" => {
                self.prepare(alloc, name, words)?;
                silent(alloc)
            }
            "stray" | "stop" | "restart" => {
                self.calls.push(server_call(name, words)?)?;
                self.ask(alloc, Question::Answer)
            }
            "fill" => {
                self.fill(alloc, words)?;
                silent(alloc)
            }
            "refusal" => refusal_text(alloc, words),
            "bytes" => {
                nothing(words)?;
                self.ask(alloc, Question::Bytes)
            }
            _ => {
                nothing(words)?;
                self.ask(alloc, Question::Number(name))
            }
        }
    }
}

impl LogletBench {
    /// The kind and the room.
    fn make(&mut self, name: &str, words: &[&str]) -> Result<()> {
        let Some((room, others)) = words.split_last() else {
            bail!("a room is wanted");
        };
        self.room = room.parse::<u64>()?;
        self.kind = kind_of(name, others)?;
        Ok(())
    }

    fn prepare(&mut self, alloc: Global, name: &str, words: &[&str]) -> Result<()> {
        match name {
            "fails" => self.failing = numbers(alloc, words)?,
            "arm" => self.armed = number(words)?,
            _ => self.order = order(alloc, words)?,
        }
        Ok(())
    }

    /// Begins so many appends of a payload, and carries none.
    fn fill(&mut self, alloc: Global, words: &[&str]) -> Result<()> {
        let Some((count, words)) = words.split_first() else {
            bail!("a number of appends is wanted");
        };
        for _ in 0..count.parse::<u64>()? {
            self.calls
                .push(LogletCall::Begin(op(alloc, "append", words)?))?;
        }
        Ok(())
    }

    /// A call on the operation of a ticket, or the whole operation.
    fn ticketed(&mut self, alloc: Global, ticket: Ticket, words: &[&str]) -> Result<String> {
        let Some((name, words)) = words.split_first() else {
            bail!("a call is wanted");
        };
        match *name {
            "begin" => self.begin(alloc, words)?,
            "carry" => return self.carry(alloc, ticket, words),
            "take" | "forget" | "left" => {
                nothing(words)?;
                self.calls.push(call_on(name, ticket))?;
            }
            "ends" => {
                nothing(words)?;
                return self.end(alloc, ticket, Question::Answer);
            }
            _ => return self.whole(alloc, ticket, name, words),
        }
        self.ask(alloc, Question::Answer)
    }

    /// Carries an operation until its answer can be taken.
    fn end(&mut self, alloc: Global, ticket: Ticket, question: Question) -> Result<String> {
        for _ in 0..MOST_HANDFULS {
            self.calls.carry(ticket, 0, HANDFUL)?;
            self.calls.push(LogletCall::Take(ticket))?;
            let answer = self.ask(alloc, question)?;
            if answer.as_str() != "undecided" {
                return Ok(answer);
            }
        }
        bail!("an operation doesn't end");
    }

    fn begin(&mut self, alloc: Global, words: &[&str]) -> Result<()> {
        let Some((name, words)) = words.split_first() else {
            bail!("an operation is wanted");
        };
        self.calls.push(LogletCall::Begin(op(alloc, name, words)?))?;
        Ok(())
    }

    /// Carries by the word 0, or by a word, or by a word so many times, which isn't answered.
    fn carry(&mut self, alloc: Global, ticket: Ticket, words: &[&str]) -> Result<String> {
        let given = numbers(alloc, words)?;
        match given.as_slice() {
            [] => self.calls.carry(ticket, 0, 1)?,
            [word] => self.calls.carry(ticket, *word, 1)?,
            [word, times] => {
                self.calls.carry(ticket, *word, *times)?;
                return silent(alloc);
            }
            _ => bail!("a word and a number of times are wanted"),
        }
        self.ask(alloc, Question::Answer)
    }

    /// Begins an operation, carries it to its end, and takes its answer.
    fn whole(
        &mut self,
        alloc: Global,
        ticket: Ticket,
        name: &str,
        words: &[&str],
    ) -> Result<String> {
        let begin = self.calls.len();
        self.calls.push(LogletCall::Begin(op(alloc, name, words)?))?;
        for word in &self.order {
            self.calls.carry(ticket, *word, 1)?;
        }
        self.end(alloc, ticket, Question::Outcome(begin))
    }

    /// Makes all calls so far on a new loglet, and answers the question.
    fn ask(&self, alloc: Global, question: Question) -> Result<String> {
        match self.kind {
            Kind::File => self.ask_file(alloc, question),
            Kind::Native(servers) => self.ask_native(alloc, servers, question),
            Kind::Striped(None) => self.ask_striped(alloc, question),
            Kind::Nested(None) => self.ask_nested(alloc, question),
            Kind::Striped(Some(servers)) => self.ask_striped_natives(alloc, servers, question),
            Kind::Nested(Some(servers)) => self.ask_nested_natives(alloc, servers, question),
        }
    }

    fn room(&self) -> Result<u64>
        ensures { IfOk result (λ room. (1 ≤ room) × (room ≤ 2 ^ 32)) }
    {
        if self.room < 1 || self.room > MOST_ROOM {
            bail!("no loglet has so much room");
        }
        Ok(self.room)
    }

    fn ask_native(&self, alloc: Global, servers: u64, question: Question) -> Result<String> {
        let mut loglet = native_of(alloc, servers, self.room()?)?;
        answer(alloc, &mut loglet, &self.calls, question)
    }

    fn ask_striped(&self, alloc: Global, question: Question) -> Result<String> {
        let mut loglet = two_files(alloc, self.room()?)?;
        answer(alloc, &mut loglet, &self.calls, question)
    }

    fn ask_nested(&self, alloc: Global, question: Question) -> Result<String> {
        let mut loglet = two_pairs(alloc, self.room()?)?;
        answer(alloc, &mut loglet, &self.calls, question)
    }

    fn ask_striped_natives(
        &self,
        alloc: Global,
        servers: u64,
        question: Question,
    ) -> Result<String> {
        let mut loglet = two_natives(alloc, servers, self.room()?)?;
        answer(alloc, &mut loglet, &self.calls, question)
    }

    fn ask_nested_natives(
        &self,
        alloc: Global,
        servers: u64,
        question: Question,
    ) -> Result<String> {
        let mut loglet = two_native_pairs(alloc, servers, self.room()?)?;
        answer(alloc, &mut loglet, &self.calls, question)
    }

    fn ask_file(&self, alloc: Global, question: Question) -> Result<String> {
        let mut disk = FailDisk::new(MemDisk::new(alloc), self.failing.clone()?);
        disk.arm(self.armed);
        let mut loglet = match FileLoglet::new(alloc, disk, self.room()?) {
            Ok(loglet) => loglet,
            Err(refused) => return refusal(alloc, &refused),
        };
        match question {
            Question::Bytes => {
                run_ops(alloc, &mut loglet, self.calls.as_slice())?;
                bytes_on(alloc, loglet.into_disk())
            }
            _ => answer(alloc, &mut loglet, &self.calls, question),
        }
    }
}

/// The kind of this name, over as many servers as the words say.
fn kind_of(name: &str, words: &[&str]) -> Result<Kind> {
    match name {
        "native" => Ok(Kind::Native(number(words)?)),
        "striped" => Ok(Kind::Striped(servers_of(words)?)),
        "nested" => Ok(Kind::Nested(servers_of(words)?)),
        _ => {
            nothing(words)?;
            Ok(Kind::File)
        }
    }
}

/// How many servers each native loglet of a pair has, if it isn't one of file loglets.
fn servers_of(words: &[&str]) -> Result<Option<u64>> {
    if words.is_empty() {
        return Ok(None);
    }
    Ok(Some(number(words)?))
}

/// A native loglet over so many servers.
fn native_of(alloc: Global, servers: u64, room: u64) -> Result<NativeLoglet<MemDisk>>
    requires { (1 ≤ room) × (room ≤ 2 ^ 32) }
    ensures { IfOk result (λ made. IsFresh made.loglet) }
{
    match servers {
        1 => Ok(native::in_memory(alloc, 1, room)?),
        3 => Ok(native::in_memory(alloc, 3, room)?),
        5 => Ok(native::in_memory(alloc, 5, room)?),
        7 => Ok(native::in_memory(alloc, 7, room)?),
        _ => bail!("a native loglet has 1, 3, 5 or 7 servers"),
    }
}

/// The words of an order, or `none`.
fn order(alloc: Global, words: &[&str]) -> Result<Vec<u64>> {
    let mut order = Vec::new(alloc);
    if words.len() != 1 {
        bail!("an order is one word");
    }
    if words[0] == "none" {
        return Ok(order);
    }
    for part in words[0].split(",") {
        let (word, times) = match part.split_once("*") {
            Some((word, times)) => (word, times.parse::<u8>()?),
            None => (part, 1),
        };
        let word = word.parse::<u64>()?;
        for _ in 0..times {
            order.push(word)?;
        }
    }
    Ok(order)
}

/// A call on a ticket.
fn call_on(name: &str, ticket: Ticket) -> LogletCall
    ensures { CanBring result }
{
    match name {
        "take" => LogletCall::Take(ticket),
        "forget" => LogletCall::Forget(ticket),
        _ => LogletCall::Left(ticket),
    }
}

/// A call with a word, or with a server and a number.
fn server_call(name: &str, words: &[&str]) -> Result<LogletCall>
    ensures { IfOk result CanBring }
{
    if name == "stray" {
        return Ok(LogletCall::Stray(number(words)?));
    }
    if words.len() != 2 {
        bail!("a server and a number are wanted");
    }
    let server = words[0].parse::<u32>()?;
    let word = words[1].parse::<u64>()?;
    if name == "stop" {
        Ok(LogletCall::Stop(server, word))
    } else {
        Ok(LogletCall::Restart(server, word))
    }
}

/// Makes the calls, and answers the question.
fn answer(
    alloc: Global,
    loglet: &mut dyn Loglet,
    calls: &Calls,
    question: Question,
) -> Result<String>
    requires { IsClosed (view loglet.old) }
{
    let answers = run_ops(alloc, loglet, calls.as_slice())?;
    let last = answers.as_slice().last();
    match (question, last) {
        (Question::Answer, Some(last)) => Ok(said(alloc, last)?),
        (Question::Outcome(begin), Some(last)) => match answers.as_slice().get(begin) {
            Some(LogletAnswer::Refusal(refused)) => told(alloc, *refused),
            _ => Ok(said(alloc, last)?),
        },
        (Question::Number(name), _) => number_of(alloc, loglet, name),
        (Question::Bytes, _) => bail!("only a file loglet gives its disk"),
        (_, None) => bail!("no call was made"),
    }
}

/// A number of a loglet, by its name.
fn number_of(alloc: Global, loglet: &dyn Loglet, name: &str) -> Result<String> {
    match name {
        "kind" => Ok(format!(in alloc; "{:?}", loglet.kind())?),
        "servers" => told(alloc, loglet.servers()),
        "room" => told(alloc, loglet.room()),
        "limit" => told(alloc, loglet.limit()),
        "faults" => told(alloc, loglet.faults()),
        "down" => told(alloc, loglet.down()),
        _ => bail!("a loglet has no call {name}"),
    }
}

/// The bytes on a disk.
fn bytes_on(alloc: Global, mut disk: FailDisk) -> Result<String> {
    let mut bytes = Vec::new(alloc);
    bytes.resize(disk.len() as usize, 0)?;
    disk.read(0, &mut bytes)?;
    Ok(shown(alloc, bytes.as_slice())?)
}

/// Why a disk came back, and how it is.
fn refusal(alloc: Global, refused: &journal_core::Refused<FailDisk>) -> Result<String> {
    let stopped = refused.disk.stopped();
    let faults = refused.disk.faults();
    Ok(format!(in alloc; "{}: stopped {stopped}, faults {faults}", refused.fault)?)
}

/// A striped loglet of two file loglets with room for this many entries each.
fn two_files(alloc: Global, room: u64) -> Result<StripedLoglet<FileLoglet<MemDisk>>>
    requires { (1 ≤ room) × (room ≤ 2 ^ 32) }
    ensures { IfOk result (λ made. IsFresh made.loglet) }
{
    let first = file::in_memory(alloc, room)?;
    let second = file::in_memory(alloc, room)?;
    pair(alloc, first, second)
}

/// A striped loglet of two of those.
fn two_pairs(alloc: Global, room: u64) -> Result<StripedLoglet<StripedLoglet<FileLoglet<MemDisk>>>>
    requires { (1 ≤ room) × (room ≤ 2 ^ 32) }
    ensures { IfOk result (λ made. IsFresh made.loglet) }
{
    let first = two_files(alloc, room)?;
    let second = two_files(alloc, room)?;
    pair(alloc, first, second)
}

/// A striped loglet of two native loglets over so many servers each.
fn two_natives(
    alloc: Global,
    servers: u64,
    room: u64,
) -> Result<StripedLoglet<NativeLoglet<MemDisk>>>
    requires { (1 ≤ room) × (room ≤ 2 ^ 32) }
    ensures { IfOk result (λ made. IsFresh made.loglet) }
{
    let first = native_of(alloc, servers, room)?;
    let second = native_of(alloc, servers, room)?;
    pair(alloc, first, second)
}

/// A striped loglet of two of those.
fn two_native_pairs(
    alloc: Global,
    servers: u64,
    room: u64,
) -> Result<StripedLoglet<StripedLoglet<NativeLoglet<MemDisk>>>>
    requires { (1 ≤ room) × (room ≤ 2 ^ 32) }
    ensures { IfOk result (λ made. IsFresh made.loglet) }
{
    let first = two_natives(alloc, servers, room)?;
    let second = two_natives(alloc, servers, room)?;
    pair(alloc, first, second)
}

/// A striped loglet of these two.
fn pair<L: Loglet>(alloc: Global, first: L, second: L) -> Result<StripedLoglet<L>>
    requires first { IsFresh (L.view first) }
    requires second { IsFresh (L.view second) }
    ensures { IfOk result (λ made. IsFresh made.loglet) }
{
    let servers = u64::from(first.servers()) + u64::from(second.servers());
    let rounds = u64::from(first.rounds()) + u64::from(second.rounds());
    if servers > MOST_SERVERS || rounds > MOST_ROUNDS {
        bail!("the loglets are too large for a pair");
    }
    let room = first.room();
    if second.room() != room || room > MOST_STRIPE_ROOM {
        bail!("the loglets have no room for a pair");
    }
    let mut stripes = Vec::new(alloc);
    stripes.reserve(2)?;
    stripes.push_reserved(first);
    stripes.push_reserved(second);
    Ok(StripedLoglet::new(alloc, stripes))
}

/// A refusal in words.
fn refusal_text(alloc: Global, words: &[&str]) -> Result<String> {
    if words.len() != 1 {
        bail!("a refusal has one word");
    }
    match words[0] {
        "full" => told(alloc, Refused::Full),
        "memory" => told(alloc, Refused::Memory),
        _ => bail!("there is no such refusal"),
    }
}
