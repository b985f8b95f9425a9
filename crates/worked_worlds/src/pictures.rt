//! A world in words.
//!
//! A server is drawn as its log: `[` and an `x` for each entry, or a `.` where the entry was let go. A `]` stands where the
//! server was sealed, and what is repaired later stands behind it: `[xx]x`. One that is down has a `!` at the end.
use anyhow::Result;
use cell_steps::cell::CellState;
use cell_steps::server::ServerState;
use delos_types::chain::Chain;
use legal_journal::events::FabricAnswer;
use loglet_api::call::Answer;
use std::alloc::Global;
use striped_cells::cell::AnyCell;
use world_steps::cell::WorldCell;
use world_steps::shape::Shape;
use world_steps::world::World;

/// The cells, the chain that was given last and the nodes, with this between them.
pub fn draw(
    alloc: Global,
    world: &World,
    shapes: &[Shape],
    nodes: u32,
    between: &str,
) -> Result<String> {
    let mut out = String::new(alloc);
    let mut number = 0u32;
    for shape in shapes {
        if let Some(cell) = world.cell(number) {
            write!(out, "cell {number}: ")?;
            draw_cell(&mut out, cell, *shape)?;
            out.push_str(between)?;
        }
        number = number.wrapping_add(1);
    }
    out.push_str("chain: ")?;
    draw_chain(&mut out, world.register().last_given())?;
    for node in 0..nodes {
        if let Some(state) = world.node(node) {
            write!(out, "{between}node {node} at {}", state.cursor())?;
        }
    }
    Ok(out)
}

/// The servers of a cell, stripe by stripe, and how far its answers reach.
fn draw_cell(out: &mut String, cell: &WorldCell, shape: Shape) -> Result<()> {
    match shape {
        Shape::Quorum(each) => draw_quorum(out, cell, &[], each.servers),
        Shape::Striped(stripes, each) => {
            for stripe in 0..stripes as u32 {
                draw_quorum(out, cell, &[stripe], each.servers)?;
                out.push_str(" / ")?;
            }
            draw_reach(out, cell)
        }
        Shape::Nested(stripes, inner, each) => {
            for stripe in 0..stripes as u32 {
                for within in 0..inner as u32 {
                    draw_quorum(out, cell, &[stripe, within], each.servers)?;
                    out.push_str(" / ")?;
                }
            }
            draw_reach(out, cell)
        }
    }
}

/// How far the answers of a cell in stripes reach in all.
fn draw_reach(out: &mut String, cell: &WorldCell) -> Result<()> {
    write!(out, "reach {}", cell.reach())?;
    Ok(())
}

/// The servers of the quorum cell at the end of a path of stripes, and how far its answers reach.
fn draw_quorum(out: &mut String, cell: &WorldCell, path: &[u32], servers: u32) -> Result<()> {
    let Some(cell) = cell.quorum_at(path) else {
        return Ok(());
    };
    draw_servers(out, cell, servers)?;
    write!(out, "reach {}, firm {}", cell.reach(), cell.firm())?;
    if let Some(cap) = cell.cap() {
        write!(out, ", cap {cap}")?;
    }
    Ok(())
}

fn draw_servers(out: &mut String, cell: &CellState, servers: u32) -> Result<()> {
    for number in 0..servers {
        if let Some(server) = cell.server(number) {
            draw_server(out, server)?;
            out.push_str(" ")?;
        }
    }
    Ok(())
}

fn draw_server(out: &mut String, server: &ServerState) -> Result<()> {
    out.push_str("[")?;
    for place in 0..server.length() {
        if server.sealed_at() == Some(place) {
            out.push_str("]")?;
        }
        out.push_str(if place < server.base() { "." } else { "x" })?;
    }
    if server.sealed_at() == Some(server.length()) {
        out.push_str("]")?;
    }
    if !server.is_up() {
        out.push_str("!")?;
    }
    Ok(())
}

fn draw_chain(out: &mut String, chain: &Chain) -> Result<()> {
    write!(out, "trim {}", chain.trim)?;
    for segment in chain.segments.as_slice() {
        write!(out, ", {} from {}", segment.id, segment.start)?;
        if let Some(end) = segment.end {
            write!(out, " to {end}")?;
        }
    }
    Ok(())
}

/// What a client was told.
pub fn told(alloc: Global, answer: &FabricAnswer) -> Result<String> {
    match answer {
        FabricAnswer::Begun(ticket) => Ok(format!(in alloc; "begun {}", ticket.number())?),
        FabricAnswer::Full => Ok(format!(in alloc; "full")?),
        FabricAnswer::Done(answer) => outcome(alloc, answer),
        FabricAnswer::Gone => Ok(format!(in alloc; "forgotten")?),
        FabricAnswer::At(version, chain) => given(alloc, "version", *version, chain),
        FabricAnswer::Down => Ok(format!(in alloc; "the register is down")?),
        FabricAnswer::Written(version) => Ok(format!(in alloc; "written {version}")?),
        FabricAnswer::Conflict(version, chain) => given(alloc, "conflict", *version, chain),
        FabricAnswer::MetaFault => Ok(format!(in alloc; "the register failed")?),
        FabricAnswer::Set(up) => Ok(format!(in alloc; "up {up}")?),
        _ => Ok(format!(in alloc; "another answer")?),
    }
}

/// A chain that a client was given, under its version.
fn given(alloc: Global, how: &str, version: u64, chain: &Chain) -> Result<String> {
    let mut out = format!(in alloc; "{how} {version}: ")?;
    draw_chain(&mut out, chain)?;
    Ok(out)
}

fn outcome(alloc: Global, answer: &Answer) -> Result<String> {
    let told = match answer {
        Answer::Placed(position) => format!(in alloc; "placed {position}"),
        Answer::Settled => format!(in alloc; "settled"),
        Answer::OpenTail(length) => format!(in alloc; "open tail {length}"),
        Answer::SealedTail(length) => format!(in alloc; "sealed tail {length}"),
        Answer::SealDone => format!(in alloc; "seal done"),
        Answer::Got(entry) => format!(in alloc; "got {} bytes", entry.payload.len()),
        Answer::CutAt(position) => format!(in alloc; "cut at {position}"),
        Answer::Beyond(length) => format!(in alloc; "beyond {length}"),
        Answer::TrimDone => format!(in alloc; "trim done"),
        Answer::Sealed => format!(in alloc; "sealed"),
        Answer::NoQuorum { unreached } => format!(in alloc; "no quorum, {unreached} unreached"),
    };
    Ok(told?)
}
