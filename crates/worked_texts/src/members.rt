//! Nodes that report and leave, and trims.
use crate::text::{name_and_rest, node_of, numbers_in, unknown};
use delos_types::place::Place;
use engine_api::content::{Content, Placed};
use engine_api::members::{is_member, least_position, position_of, trim_point};
use std::io;

/// What a line adds to the log, if it isn't a question.
fn content_in(name: &str, numbers: &[u64]) -> io::Result<Option<Content>> {
    Ok(match (name, numbers) {
        ("node", [node, position]) => Some(Content::Alive {
            node: node_of(*node)?,
            position: *position,
        }),
        ("node", [node]) => Some(Content::Leave {
            node: node_of(*node)?,
        }),
        ("trim", [position]) => Some(Content::Trim {
            position: *position,
        }),
        _ => None,
    })
}

/// Answers a question on the log.
fn answer(rt: &HostRuntime, log: &[Placed], name: &str, numbers: &[u64]) -> io::Result<()> {
    let number = match (name, numbers) {
        ("position", [node]) => position_of(log, node_of(*node)?),
        ("least", [nodes]) if *nodes <= 8 => least_position(*nodes as u8, log),
        ("trim", []) => trim_point(log),
        ("member", [node]) => {
            let is_one = is_member(log, node_of(*node)?);
            return println!(rt; "{is_one}");
        }
        _ => return Err(unknown()),
    };
    println!(rt; "{number}")
}

/// Prints the answer to each question of a case, on the log of the lines above it.
pub(crate) fn show_members(rt: &HostRuntime, input: &[&str]) -> io::Result<()> {
    let alloc = rt.alloc();
    let mut log = Vec::new(alloc);
    for line in input {
        let (name, _) = name_and_rest(line.trim_end_matches('?'));
        let numbers = numbers_in(alloc, line.trim_end_matches('?'))?;
        match content_in(name, numbers.as_slice())? {
            Some(content) => {
                let place = Place { pos: 0, sub: 0 };
                log.push(Placed { place, content })?;
            }
            None => answer(rt, log.as_slice(), name, numbers.as_slice())?,
        }
    }
    Ok(())
}
