//! What a case says of its run: the words of the command line, the script, and what the run stands on.
use crate::words::{number_in, words_of};
use anyhow::{Context, bail, ensure};
use gate_points::Point;
use shelf_loglets::shelf::Rooms;
use std::alloc::Global;
use std::fs;

/// How many entries a loglet of the shelf takes where the case doesn't say.
pub(crate) const ROOMS: Rooms = Rooms {
    single: 0x1_0000_0000,
    inner: 0x1000_0000,
};

/// How many bytes a call of an end moves where the case doesn't say.
pub(crate) const PIECE: usize = 64;

/// What comes to the first node's disk.
#[derive(Drop)]
pub(crate) struct DiskFaults {
    /// Which of its calls fail.
    pub(crate) calls: Vec<u64>,
    /// Inside which of its writes it stops, counted from 1; none where it is 0.
    pub(crate) stop: u64,
}

impl DiskFaults {
    pub(crate) fn none(alloc: Global) -> DiskFaults {
        DiskFaults {
            calls: Vec::new(alloc),
            stop: 0,
        }
    }

    /// `call 3 fails`, `calls 7 to 400 fail`, or `stops in write 2`.
    fn take(&mut self, words: &[&str]) -> anyhow::Result<()> {
        match words {
            ["calls", first, "to", last, "fail"] => push_numbers(&mut self.calls, first, last)?,
            ["stops", "in", "write", write] => self.stop = number_in(write)?,
            _ => self.calls.push(call_in(words)?)?,
        }
        Ok(())
    }
}

/// A node is held at its first pass of a point until another one has passed a point of its own.
#[derive(Clone, Copy)]
pub(crate) struct Hold {
    pub(crate) node: u32,
    pub(crate) point: Point,
    pub(crate) other: u32,
    pub(crate) until: Point,
}

/// A run of the program.
#[derive(Drop)]
pub(crate) struct Setup {
    /// The words of the command line, without the program's name.
    pub(crate) words: Vec<String>,
    pub(crate) script: Vec<u8>,
    pub(crate) rooms: Rooms,
    /// How many bytes a call of an end moves.
    pub(crate) piece: usize,
    /// Which calls of standard input fail.
    pub(crate) source_fails: Vec<u64>,
    /// Which calls of standard output fail.
    pub(crate) sink_fails: Vec<u64>,
    pub(crate) faults: DiskFaults,
    /// Each loglet stands in one that counts, on disks of which no call fails.
    pub(crate) is_counted: bool,
    /// The text of the run isn't told.
    pub(crate) is_silent: bool,
    pub(crate) hold: Option<Hold>,
    /// The texts of which the run puts one, where nodes stand side by side and the case says which they are.
    pub(crate) texts: Vec<String>,
}

/// A run without words and without a script, in which nothing fails.
fn calm(alloc: Global) -> Setup {
    Setup {
        words: Vec::new(alloc),
        script: Vec::new(alloc),
        rooms: ROOMS,
        piece: PIECE,
        source_fails: Vec::new(alloc),
        sink_fails: Vec::new(alloc),
        faults: DiskFaults::none(alloc),
        is_counted: false,
        is_silent: false,
        hold: None,
        texts: Vec::new(alloc),
    }
}

fn node_in(word: &str) -> anyhow::Result<u32> {
    let number = word
        .strip_prefix("n")
        .context(format_args!("`{word}` is no node"))?;
    number
        .parse::<u32>()
        .context(format_args!("`{word}` is no node"))
}

fn point_in(word: &str) -> anyhow::Result<Point> {
    match word {
        "started" => Ok(Point::Started),
        "appending" => Ok(Point::Appending),
        "placed" => Ok(Point::Placed),
        "ended" => Ok(Point::Ended),
        _ => bail!("`{word}` is no point"),
    }
}

/// Adds the numbers from one to another.
fn push_numbers(all: &mut Vec<u64>, first: &str, last: &str) -> anyhow::Result<()> {
    for number in number_in(first)?..=number_in(last)? {
        all.push(number)?;
    }
    Ok(())
}

/// `single 1 inner 1`
fn rooms_in(words: &[&str]) -> anyhow::Result<Rooms> {
    match words {
        ["single", single, "inner", inner] => Ok(Rooms {
            single: number_in(single)?,
            inner: number_in(inner)?,
        }),
        _ => bail!("rooms are those of a single loglet and of an inner one"),
    }
}

/// `8 bytes`
fn piece_in(words: &[&str]) -> anyhow::Result<usize> {
    match words {
        [bytes, "bytes"] => Ok(bytes.parse::<usize>()?),
        _ => bail!("a piece has bytes"),
    }
}

/// `call 3 fails`
fn call_in(words: &[&str]) -> anyhow::Result<u64> {
    match words {
        ["call", call, "fails"] => number_in(call),
        _ => bail!("no call that fails"),
    }
}

/// `n1 appending until n2 placed`
fn hold_in(words: &[&str]) -> anyhow::Result<Hold> {
    match words {
        [node, point, "until", other, until] => Ok(Hold {
            node: node_in(node)?,
            point: point_in(point)?,
            other: node_in(other)?,
            until: point_in(until)?,
        }),
        _ => bail!("a node is held at a point until another has passed one"),
    }
}

/// What a condition says, word by word.
fn change(setup: &mut Setup, what: &str, words: &[&str]) -> anyhow::Result<()> {
    match what {
        "rooms" => setup.rooms = rooms_in(words)?,
        "pieces" => setup.piece = piece_in(words)?,
        "source" => setup.source_fails.push(call_in(words)?)?,
        "sink" => setup.sink_fails.push(call_in(words)?)?,
        "disk of n1" => setup.faults.take(words)?,
        "held" => setup.hold = Some(hold_in(words)?),
        _ => bail!("no condition of a run: `{what}`"),
    }
    Ok(())
}

/// A line above the command line: what of the run isn't as always.
fn take_condition(alloc: Global, setup: &mut Setup, line: &str) -> anyhow::Result<()> {
    match line {
        "loglets: counted" => setup.is_counted = true,
        "told: the status alone" => setup.is_silent = true,
        _ => {
            let (what, said) = line.split_once(": ").unwrap_or((line, ""));
            let words = words_of(alloc, said)?;
            change(setup, what, words.as_slice())?;
        }
    }
    Ok(())
}

/// The command line: its words, and the file that the script is taken from.
fn take_command(rt: &HostRuntime, setup: &mut Setup, command: &str) -> anyhow::Result<()> {
    let alloc = rt.alloc();
    let (words, file) = match command.split_once(" < ") {
        Some((words, file)) => (words, Some(file)),
        None => (command, None),
    };
    for word in words.split_whitespace() {
        setup.words.push(String::from_str(alloc, word)?)?;
    }
    if let Some(file) = file {
        setup.script = fs::read(rt, file)?;
    }
    Ok(())
}

/// A line of the script. `{5 x}` stands for five letters x, and `{no LF}` says that the line has no end.
fn take_line(script: &mut Vec<u8>, line: &str) -> anyhow::Result<()> {
    let mut has_end = true;
    let mut pieces = line.split('{');
    if let Some(first) = pieces.next() {
        script.extend_from_slice(first.as_bytes())?;
    }
    for piece in pieces {
        let (inside, behind) = piece.split_once('}').context("a brace without its end")?;
        match inside.split_once(' ') {
            Some(("no", "LF")) => has_end = false,
            Some((times, text)) => {
                for _ in 0..times.parse::<u16>()? {
                    script.extend_from_slice(text.as_bytes())?;
                }
            }
            None => bail!("braces with one word: `{line}`"),
        }
        script.extend_from_slice(behind.as_bytes())?;
    }
    if has_end {
        script.push(b'\n')?;
    }
    Ok(())
}

/// A line of one of the texts; the lines `either` and `or` stand before one each.
fn take_text(alloc: Global, texts: &mut Vec<String>, line: &str) -> anyhow::Result<()> {
    if line == "either" || line == "or" {
        texts.push(String::new(alloc))?;
        return Ok(());
    }
    let text = texts.last_mut().context("a text without its mark")?;
    text.push_str(line)?;
    text.push('\n')?;
    Ok(())
}

/// Reads the input of a case: conditions, the command line, the script, and the texts of which the run puts one.
pub(crate) fn read_setup(rt: &HostRuntime, input: &[&str]) -> anyhow::Result<Setup> {
    let alloc = rt.alloc();
    let mut setup = calm(alloc);
    let mut has_command = false;
    for line in input {
        if *line == "either" || !setup.texts.is_empty() {
            take_text(alloc, &mut setup.texts, line)?;
        } else if has_command {
            take_line(&mut setup.script, line)?;
        } else if let Some(command) = line.strip_prefix("$ delos_sim") {
            take_command(rt, &mut setup, command)?;
            has_command = true;
        } else {
            take_condition(alloc, &mut setup, line)?;
        }
    }
    ensure!(has_command, "no command line");
    ensure!(setup.piece > 0, "an end moves at least one byte");
    Ok(setup)
}
