//! Scripts that are read, and lines that are refused.
use crate::commands::{print_command, print_query};
use crate::text::{
    name_and_rest, number_of, numbers_in, out_of_memory, put_line, text_of, unknown,
};
use script_text::asks::{Asks, named_lines};
use script_text::line::{Admin, Ask, Line};
use script_text::refusal::refusal_text;
use script_text::script::{ParseError, Script, parse};
use std::alloc::Global;
use std::io;

/// The text of a script: its lines, where `repeat 3: on n1 a get x` stands for three of them.
fn script_of(alloc: Global, lines: &[&str]) -> io::Result<Vec<u8>> {
    let mut script = Vec::new(alloc);
    for line in lines {
        let (times, line) = match line.strip_prefix("repeat ") {
            Some(repeated) => match repeated.split_once(": ") {
                Some((times, line)) => (number_of(times)?, line),
                None => (number_of(repeated.trim_end_matches(':'))?, ""),
            },
            None => (1, *line),
        };
        for _ in 0..times {
            if put_line(&mut script, line)? {
                script.push(b'\n')?;
            }
        }
    }
    Ok(script)
}

fn print_line(rt: &HostRuntime, line: &Line) -> io::Result<()> {
    match line {
        Line::Blank => println!(rt; "empty"),
        Line::Barrier => println!(rt; "barrier"),
        Line::Admin { node, admin } => {
            let node = node.number();
            let admin = match admin {
                Admin::Extend => "extend",
                Admin::Alive => "alive",
                Admin::Trim => "trim",
                Admin::Retire => "retire",
            };
            println!(rt; "node {node}: {admin}")
        }
        Line::Session { node, session, ask } => {
            let node = node.number();
            let id = session.id.number();
            let name = text_of(session.name.as_slice())?;
            print!(rt; "node {node}, session {id} named {name}: ")?;
            match ask {
                Ask::Log(command) => print_command(rt, command),
                Ask::Look(query) => print_query(rt, query),
            }
        }
    }
}

/// Prints the lines that name a node, with number, phase and node, and the rank of those that log.
fn print_named(rt: &HostRuntime, script: Script) -> io::Result<()> {
    let named = named_lines(rt.alloc(), script)?;
    for line in named.as_slice() {
        let number = line.number;
        let phase = line.phase;
        let node = line.node.number();
        print!(rt; "line {number} in phase {phase}, of node {node}")?;
        match &line.asks {
            Asks::Logged { rank, .. } => {
                let rank = rank.number();
                println!(rt; ", rank {rank}")?;
            }
            _ => println!(rt; "")?,
        }
    }
    Ok(())
}

/// Reads a script. A line `script, nodes: 2` asks how many lines it has, `lines, nodes: 2` what they are, and `named, nodes: 2`
/// which of them name a node.
pub(crate) fn show_script(rt: &HostRuntime, input: &[&str]) -> io::Result<()> {
    let alloc = rt.alloc();
    let [first, lines @ ..] = input else {
        return Err(unknown());
    };
    let (asked, _) = name_and_rest(first);
    let numbers = numbers_in(alloc, first)?;
    let nodes = match numbers.as_slice() {
        [nodes] if *nodes <= 8 => *nodes as u8,
        _ => return Err(unknown()),
    };
    let script = match parse(alloc, script_of(alloc, lines)?.as_slice(), nodes) {
        Ok(script) => script,
        Err(ParseError::Memory) => return Err(out_of_memory()),
        Err(ParseError::Bad(bad)) => {
            let text = refusal_text(alloc, bad)?;
            let text = text_of(text.as_slice())?;
            return print!(rt; "{text}");
        }
    };
    match asked {
        "script," => {
            let count = script.lines().len();
            println!(rt; "lines: {count}")
        }
        "named," => print_named(rt, script),
        "lines," => {
            for line in script.lines() {
                print_line(rt, line)?;
            }
            Ok(())
        }
        _ => Err(unknown()),
    }
}
