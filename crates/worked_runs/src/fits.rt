//! Scripts with rows that answer their lines, and which rules of a fitting run the rows break.
use crate::rows::{item_in, node_in, row_in};
use crate::words::{number_in, words_of};
use anyhow::{Context, bail, ensure};
use delos_types::chain::Segment;
use delos_types::numbers::NodeId;
use engine_api::content::Placed;
use fitting_run::answered::Answered;
use fitting_run::yard::CellShown;
use row_text::row::Row;
use script_text::asks::{NamedLine, named_lines};
use script_text::script::parse;
use std::alloc::Global;

/// The most nodes that a script may name.
const NODES: u8 = 8;

/// What was counted in the yard.
#[derive(Drop)]
pub(crate) struct Counted {
    pub(crate) cells: Vec<CellShown>,
    /// The faults of the register.
    pub(crate) register: u64,
    /// The faults of each node's disk.
    pub(crate) disks: Vec<u64>,
}

/// What a case says of the end of its run.
#[derive(Drop)]
pub(crate) struct End {
    pub(crate) end: u64,
    pub(crate) nodes: u8,
    pub(crate) trim: u64,
    pub(crate) version: u64,
    pub(crate) segments: Vec<Segment>,
    /// How many loglets the shelf has.
    pub(crate) shelf: usize,
    /// What the log has from the trim on; where only reports and trims are asked for, but for commands.
    pub(crate) items: Vec<Placed>,
    /// The node that proposed the entry of each item.
    pub(crate) by: Vec<NodeId>,
    pub(crate) counted: Counted,
}

/// The lines of a script, what they are answered, and the end of the run.
#[derive(Drop)]
pub(crate) struct Shown {
    pub(crate) lines: Vec<NamedLine>,
    pub(crate) told: Vec<Answered>,
    pub(crate) end: End,
}

/// The two parts of a case: its script, and what stands below the line `rows`.
pub(crate) fn halves<'a, 'b>(
    input: &'a [&'b str],
) -> anyhow::Result<(&'a [&'b str], &'a [&'b str])> {
    let mut parts = input.split(|line| *line == "rows");
    match (parts.next(), parts.next()) {
        (Some(script), Some(told)) => Ok((script, told)),
        _ => bail!("no line `rows`"),
    }
}

/// The bytes of a script of these lines.
pub(crate) fn script_of(alloc: Global, lines: &[&str]) -> anyhow::Result<Vec<u8>> {
    let mut script = Vec::new(alloc);
    for line in lines {
        script.extend_from_slice(line.as_bytes())?;
        script.push(b'\n')?;
    }
    Ok(script)
}

/// The lines of a script that name a node.
pub(crate) fn lines_in(alloc: Global, script: &[u8]) -> anyhow::Result<Vec<NamedLine>> {
    let script = parse(alloc, script, NODES)
        .ok()
        .context("a line is refused")?;
    Ok(named_lines(alloc, script)?.into_vec())
}

/// A segment that begins at a position, and its end, if it has one.
fn segment_in(id: &str, start: &str, end: Option<u64>) -> anyhow::Result<Segment> {
    Ok(Segment {
        id: id.parse::<u32>()?,
        start: number_in(start)?,
        end,
    })
}

/// A loglet of three servers that counted these faults and lacks. Where it is full it has no room.
fn cell_in(alloc: Global, room: u64, lacks: u64, faults: u64) -> CellShown {
    CellShown {
        servers: 3,
        quorum: 2,
        room,
        limit: 1,
        cut: 0,
        log: Vec::new(alloc),
        reach: 0,
        begun: 0,
        faults,
        lacks,
    }
}

/// A line on what was counted in the yard: of the next loglet, of the register, or of the next node's disk.
fn take_counted(alloc: Global, counted: &mut Counted, words: &[&str]) -> anyhow::Result<()> {
    match words {
        ["loglet", "lacks", lacks, "faults", faults] => {
            let cell = cell_in(alloc, 1, number_in(lacks)?, number_in(faults)?);
            counted.cells.push(cell)?;
        }
        ["full", "loglet", "lacks", lacks, "faults", faults] => {
            let cell = cell_in(alloc, 0, number_in(lacks)?, number_in(faults)?);
            counted.cells.push(cell)?;
        }
        ["register", "faults", faults] => counted.register = number_in(faults)?,
        ["disk", "faults", faults] => counted.disks.push(number_in(faults)?)?,
        _ => bail!("neither a row nor an end"),
    }
    Ok(())
}

/// A number of the end of the run, by its name.
fn take_number(end: &mut End, name: &str, number: &str) -> anyhow::Result<()> {
    match name {
        "end" => end.end = number_in(number)?,
        "nodes" => end.nodes = number.parse::<u8>()?,
        "trim" => end.trim = number_in(number)?,
        "version" => end.version = number_in(number)?,
        "shelf" => end.shelf = number.parse::<usize>()?,
        _ => bail!("neither a row nor an end"),
    }
    Ok(())
}

/// A line on the end of the run.
fn take_end(alloc: Global, end: &mut End, words: &[&str]) -> anyhow::Result<()> {
    match words {
        [name, number] => take_number(end, name, number)?,
        ["has", place, says @ .., "by", node] => {
            end.items.push(item_in(alloc, place, says)?)?;
            end.by.push(node_in(node)?)?;
        }
        ["has", place, says @ ..] => {
            end.items.push(item_in(alloc, place, says)?)?;
            end.by.push(node_in("n1")?)?;
        }
        ["seg", id, "from", start, "open"] => end.segments.push(segment_in(id, start, None)?)?,
        ["seg", id, "from", start, "to", stop] => {
            let stop = number_in(stop)?;
            end.segments.push(segment_in(id, start, Some(stop))?)?;
        }
        words => take_counted(alloc, &mut end.counted, words)?,
    }
    Ok(())
}

/// A row, and how many barriers stand before it among the rows.
#[derive(Drop)]
struct Phased {
    phase: u64,
    row: Row,
}

/// The rows of a case, and the end of its run.
fn rows_and_end(alloc: Global, told: &[&str]) -> anyhow::Result<(Vec<Phased>, End)> {
    let mut rows = Vec::new(alloc);
    let mut phase = 0u64;
    let mut end = End {
        end: 0,
        nodes: 1,
        trim: 0,
        version: 1,
        segments: Vec::new(alloc),
        shelf: 1,
        items: Vec::new(alloc),
        by: Vec::new(alloc),
        counted: Counted {
            cells: Vec::new(alloc),
            register: 0,
            disks: Vec::new(alloc),
        },
    };
    for line in told {
        let words = words_of(alloc, line)?;
        match words.as_slice() {
            ["barrier"] => phase = phase.saturating_add(1),
            [number, who, outcome @ ..] if number.starts_with(|c: char| c.is_ascii_digit()) => {
                let row = row_in(alloc, number, who, outcome).context(format_args!("`{line}`"))?;
                rows.push(Phased { phase, row })?;
            }
            words => take_end(alloc, &mut end, words).context(format_args!("`{line}`"))?,
        }
    }
    Ok((rows, end))
}

/// Reads a case: a script, and below the line `rows` its rows and the end of its run. A `barrier` among the rows ends a
/// phase of a script without barriers of its own.
pub(crate) fn read_shown(alloc: Global, input: &[&str]) -> anyhow::Result<Shown> {
    let (script, told) = halves(input)?;
    let script = script_of(alloc, script)?;
    let (rows, end) = rows_and_end(alloc, told)?;
    let lines = lines_in(alloc, script.as_slice())?;
    ensure!(lines.len() == rows.len(), "each line has one row");
    let mut told = Vec::new(alloc);
    for (mut line, phased) in lines.into_iter().zip(rows.into_iter()) {
        let Phased { phase, row } = phased;
        line.phase = line.phase.saturating_add(phase);
        told.push(Answered { line, row })?;
    }
    Ok(Shown {
        lines: lines_in(alloc, script.as_slice())?,
        told,
        end,
    })
}

/// Prints the rules that don't hold, or that all of them do.
pub(crate) fn show_rules(rt: &HostRuntime, rules: &[(&str, bool)]) -> anyhow::Result<()> {
    let mut fits = true;
    for (rule, holds) in rules {
        if !*holds {
            println!(rt; "broken: {rule}")?;
            fits = false;
        }
    }
    if fits {
        println!(rt; "fits")?;
    }
    Ok(())
}
