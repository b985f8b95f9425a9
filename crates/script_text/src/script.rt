//! A script, read whole.
ghost use Rattle.std.specs.Prelude.{◌≡◌, ◌≤◌, ◌<◌, ◌∷◌, ◌+◌, ◌^◌, OnOk, IfOk, List, Ok, Err, length};
ghost use Rattle.script_text.specs.declared.line.Line.{Line};
ghost use Rattle.script_text.specs.Seen.{Reads};
ghost use Rattle.script_text.specs.Script.{script_of, lines_in, raw_line, line_numbered, error_at, ReadsScript};
ghost use Rattle.script_text.specs.Spelling.{IsScript};
ghost use Rattle.script_text.specs.Rules.{IsRefused};

use crate::forms::line_at;
use crate::line::{Fault, Line, Rule};
use crate::seen::Seen;
use std::alloc::{AllocFailed, Global};
use std::marker::Model;

/// A script, as a list of its lines.
#[derive(Drop, Debug)]
pub struct Script {
    lines: Vec<Line>,
}

impl Model for Script {
    ghost use Rattle.std.specs.Prelude.{List};
    ghost use Rattle.script_text.specs.declared.line.Line.{Line};

    ghost Value = { List Line };

    ghost view = { λ s. s.lines.items };
}

impl Script {
    /// The lines, empty ones among them: line number n stands at index n - 1.
    pub fn lines(&self) -> &[Line]
        ensures { result.now ≡ self.now }
    {
        self.lines.as_slice()
    }

    /// The lines, which are not copied.
    pub fn into_lines(self) -> Vec<Line>
        ensures { result.items ≡ self }
    {
        let Script { lines } = self;
        lines
    }
}

/// The first line that breaks a rule, by its number, and the rule that is told.
#[derive(Clone, Copy, Debug, PartialEq, Eq)]
pub struct BadLine {
    /// The number of the line, from 1.
    pub n: u64,
    pub rule: Rule,
}

/// Why a script was not read.
#[derive(Clone, Copy, Debug, PartialEq, Eq)]
pub enum ParseError {
    /// Memory ran out.
    Memory,
    /// A line breaks a rule.
    Bad(BadLine),
}

impl<T: Drop> From<AllocFailed<T>> for ParseError {
    ghost use Rattle.script_text.specs.declared.script.ParseError.TheVariants.{Memory};

    ghost from_gives = { λ _ e. e ≡ Memory };

    fn from(_: AllocFailed<T>) -> Self {
        ParseError::Memory
    }
}

// A line without its LF, what stands after it, and how many bytes it has with it.
#[derive(Drop)]
struct Cut<'a> {
    text: &'a [u8],
    rest: &'a [u8],
    size: usize,
}

fn cut_line(bytes: &[u8]) -> Cut<'_>
    requires { 0 < length bytes.now }
    ensures first { lines_in bytes.now ≡ raw_line result.text.now result.size ∷ lines_in result.rest.now }
    ensures shorter { length result.rest.now < length bytes.now }
{
    match bytes.iter().position(|b| *b == b'\n') {
        Some(i) => Cut {
            text: &bytes[..i],
            rest: &bytes[i + 1..],
            size: i + 1,
        },
        None => Cut {
            text: bytes,
            rest: &[],
            size: bytes.len(),
        },
    }
}

// A line at its place, after `at` bytes.
fn numbered(
    alloc: Global,
    nodes: u8,
    seen: &mut Seen,
    n: u64,
    at: usize,
    cut: &Cut<'_>,
) -> Result<Line, Fault>
    requires nodes { nodes ≤ 8 }
    requires place { at ≤ 1048576 }
    ensures reads { Reads seen.new result (line_numbered nodes seen.old n at (raw_line cut.now.text.now cut.now.size)) }
    ensures place { OnOk result (at + cut.now.size ≤ 1048576) }
    ensures number { OnOk result (n ≤ 20000) }
{
    if cut.size > 1_048_576 - at {
        return Err(Fault::Breaks(Rule::ScriptTooLong));
    }
    if n > 20_000 {
        return Err(Fault::Breaks(Rule::TooManyLines));
    }
    line_at(alloc, nodes, seen, cut.text)
}

// Why a script was not read whose n-th line was not.
fn error_at(n: u64, fault: Fault) -> ParseError
    ensures { result ≡ error_at n fault }
{
    match fault {
        Fault::Memory => ParseError::Memory,
        Fault::Breaks(rule) => ParseError::Bad(BadLine { n, rule }),
    }
}

/// Reads a script for nodes 1 to `nodes`, in one pass: each key and value is copied once, and nothing
/// else of a line is. A script has at most 1,048,576 bytes, 20,000 lines of at most 512 bytes, and 64
/// sessions.
pub fn parse(alloc: Global, bytes: &[u8], nodes: u8) -> Result<Script, ParseError>
    requires { nodes ≤ 8 }
    // What is read is spelled so.
    ensures found { IfOk result (λ s. IsScript nodes bytes.now s) }
    ensures short { OnOk result (length bytes.now ≤ 1048576) }
    // What is spelled so is read, unless memory runs out.
    ensures only { (s : List Line) → IsScript nodes bytes.now s → ReadsScript result (Ok s) }
    // Else the first line that breaks a rule is told, with the first rule of the table that it breaks.
    ensures refused { (bad : BadLine) → result ≡ Err (ParseError.Bad bad) → IsRefused nodes bytes.now bad }
    ensures told { (bad : BadLine) → IsRefused nodes bytes.now bad → ReadsScript result (Err bad) }
    // This is what the reading definition gives.
    ensures exact { ReadsScript result (script_of nodes bytes.now) }
{
    read_lines(alloc, bytes, nodes)
}

fn read_lines(alloc: Global, bytes: &[u8], nodes: u8) -> Result<Script, ParseError>
    requires { nodes ≤ 8 }
    ensures { ReadsScript result (script_of nodes bytes.now) }
{
    let mut seen = Seen::new(alloc);
    let mut lines = Vec::new(alloc);
    let mut rest = bytes;
    let mut n = 1;
    let mut at = 0;
    while !rest.is_empty() {
        let cut = cut_line(rest);
        match numbered(alloc, nodes, &mut seen, n, at, &cut) {
            Ok(line) => lines.push(line)?,
            Err(fault) => return Err(error_at(n, fault)),
        }
        at += cut.size;
        n += 1;
        rest = cut.rest;
    }
    Ok(Script { lines })
}
