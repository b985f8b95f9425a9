//! Runs of the program.
ghost use Rattle.std.specs.Prelude.{◌≡◌, IfOk, Some, map, string_bytes};
ghost use Rattle.script_words.specs.Plans.{plan_of};
ghost use Rattle.script_words.specs.declared.plan.Plan as plans;
ghost use Rattle.shelf_loglets.specs.Shelf.{AreRooms};

use crate::disks::failing_disks;
use crate::own::counted_shelf;
use crate::setup::{DiskFaults, Hold, PIECE, ROOMS, Setup, read_setup};
use anyhow::{Context, bail, ensure};
use batch_engine::BatchEngine;
use counted_engine::counted::Counted;
use disk_model::MemDisk;
use fitting_run::told::Told;
use gate_points::{Gate, HoldGate, NoGate};
use memory_runs::run::{Engines, add_node, run_on, run_over};
use outside_ends::memory::{MemSink, MemSource};
use script_runner::ended::End;
use script_words::plan::{WordsError, read_words};
use session_engine::SessionEngine;
use shelf_loglets::shelf::Rooms;
use std::alloc::Global;
use std::sync::Wait;
use std::thread::Threads;
use table_engine::TableEngine;
use trim_engine::TrimEngine;
use view_engine::ViewEngine;

/// How many bytes standard output takes.
const SINK_ROOM: usize = 4096;

/// The greatest room of a loglet, and of a native loglet of a striped one.
const GREATEST: Rooms = Rooms {
    single: 0x1_0000_0000,
    inner: 0x2000_0000,
};

/// How many turns a node is held at most.
const PATIENCE: u64 = 1_000_000;

/// How many nodes the words name; none where they aren't taken.
fn nodes_of(alloc: Global, words: &[String]) -> anyhow::Result<u8>
    ensures { IfOk result (λ nodes. (p : plans.Plan) → plan_of (map string_bytes words.now) ≡ Some p → nodes ≡ p.nodes) }
{
    match read_words(alloc, words) {
        Ok(plan) => Ok(plan.nodes),
        Err(WordsError::BadWords) => Ok(0),
        Err(WordsError::Memory) => bail!("out of memory"),
    }
}

/// Runs the program over disks to the first of which these faults come.
fn run_on_disks<W: Threads + Wait + Sync, G: Gate + Sync>(
    rt: &W,
    alloc: Global,
    words: &[String],
    rooms: Rooms,
    faults: &DiskFaults,
    source: &mut MemSource,
    sink: &mut MemSink,
    gate: &G,
) -> anyhow::Result<End>
    requires { AreRooms rooms }
{
    let disks = failing_disks(alloc, nodes_of(alloc, words)?, faults)?;
    Ok(run_on(rt, alloc, words, rooms, disks, source, sink, gate)?.end)
}

/// Runs the program over loglets that count, and over nodes whose table engines count, on disks of which no call fails.
fn run_over_counted<W: Threads + Wait + Sync>(
    rt: &W,
    alloc: Global,
    words: &[String],
    rooms: Rooms,
    source: &mut MemSource,
    sink: &mut MemSink,
) -> anyhow::Result<End>
    requires { AreRooms rooms }
{
    let Ok(plan) = read_words(alloc, words) else {
        bail!("the words aren't taken");
    };
    let shelf = counted_shelf(alloc, plan.shelf.as_slice(), rooms)?;
    let mut nodes = Vec::new(alloc);
    'node: for _ in 0..plan.nodes {
        let mut engines: Engines = Vec::new(alloc);
        engines.push(Box::new(alloc, BatchEngine::new(alloc))?)?;
        engines.push(Box::new(alloc, SessionEngine {})?)?;
        engines.push(Box::new(alloc, ViewEngine {})?)?;
        engines.push(Box::new(alloc, TrimEngine {})?)?;
        engines.push(Box::new(alloc, Counted::new(TableEngine {}))?)?;
        add_node(&mut nodes, engines, MemDisk::new(alloc))?;
    }
    Ok(run_over(rt, alloc, words, shelf, nodes, source, sink, &NoGate)?.end)
}

/// Runs the program with a node held, which another must set free.
fn run_held<W: Threads + Wait + Sync>(
    rt: &W,
    alloc: Global,
    setup: &Setup,
    hold: Hold,
    source: &mut MemSource,
    sink: &mut MemSink,
) -> anyhow::Result<End>
    requires { AreRooms setup.now.rooms }
{
    let Hold {
        node,
        point,
        other,
        until,
    } = hold;
    let gate = HoldGate::new(node, point, other, until, PATIENCE);
    let words = setup.words.as_slice();
    let end = run_on_disks(
        rt,
        alloc,
        words,
        setup.rooms,
        &setup.faults,
        source,
        sink,
        &gate,
    )?;
    ensure!(!gate.gave_up(), "n{node} was held, and nobody came");
    Ok(end)
}

/// Runs the program by these words.
fn run_program<W: Threads + Wait + Sync>(
    rt: &W,
    alloc: Global,
    setup: &Setup,
    source: &mut MemSource,
    sink: &mut MemSink,
) -> anyhow::Result<End> {
    let rooms = setup.rooms;
    let Rooms { single, inner } = rooms;
    ensure!(
        1 <= single && single <= GREATEST.single,
        "no room: {single}"
    );
    ensure!(1 <= inner && inner <= GREATEST.inner, "no room: {inner}");
    let words = setup.words.as_slice();
    if setup.is_counted {
        return run_over_counted(rt, alloc, words, rooms, source, sink);
    }
    if let Some(hold) = setup.hold {
        return run_held(rt, alloc, setup, hold, source, sink);
    }
    run_on_disks(
        rt,
        alloc,
        words,
        rooms,
        &setup.faults,
        source,
        sink,
        &NoGate,
    )
}

/// Runs a script over a file loglet, and gives what the run told.
pub(crate) fn run_plainly<W: Threads + Wait + Sync>(
    rt: &W,
    alloc: Global,
    script: &[u8],
) -> anyhow::Result<Told> {
    let mut words = Vec::new(alloc);
    for word in ["run", "--shelf", "file"] {
        words.push(String::from_str(alloc, word)?)?;
    }
    let mut source = MemSource::new(Vec::from_slice(alloc, script)?, PIECE, Vec::new(alloc));
    let mut sink = MemSink::new(alloc, SINK_ROOM, PIECE, Vec::new(alloc))?;
    let faults = DiskFaults::none(alloc);
    let end = run_on_disks(
        rt,
        alloc,
        words.as_slice(),
        ROOMS,
        &faults,
        &mut source,
        &mut sink,
        &NoGate,
    )?;
    end.told.context("the run told nothing")
}

/// Prints what a run put, and says where its last line has no end.
fn show_text(rt: &HostRuntime, text: &[u8]) -> anyhow::Result<()> {
    let text = str::from_utf8(text)?;
    print!(rt; "{text}")?;
    if !text.is_empty() && !text.ends_with("\n") {
        println!(rt; "{{no LF}}")?;
    }
    Ok(())
}

/// Prints what a run put; where the case says of which texts it is one, that it is.
fn show_one_of(rt: &HostRuntime, texts: &[String], put: &[u8]) -> anyhow::Result<()> {
    for text in texts {
        if text.as_bytes() == put {
            println!(rt; "one of these")?;
            return Ok(());
        }
    }
    show_text(rt, put)
}

/// Runs the program as the case says, and prints what it put and its status.
pub(crate) fn show_run<W: Threads + Wait + Sync>(
    rt: &HostRuntime,
    threads: &W,
    input: &[&str],
) -> anyhow::Result<()> {
    let alloc = rt.alloc();
    let setup = read_setup(rt, input)?;
    let piece = setup.piece;
    ensure!(piece > 0, "an end moves at least one byte");
    let script = Vec::from_slice(alloc, setup.script.as_slice())?;
    let failing = Vec::from_slice(alloc, setup.source_fails.as_slice())?;
    let mut source = MemSource::new(script, piece, failing);
    let failing = Vec::from_slice(alloc, setup.sink_fails.as_slice())?;
    let mut sink = MemSink::new(alloc, SINK_ROOM, piece, failing)?;
    let end = run_program(threads, alloc, &setup, &mut source, &mut sink)?;
    if !setup.is_silent {
        show_one_of(rt, setup.texts.as_slice(), sink.as_slice())?;
    }
    let status = end.status.code();
    println!(rt; "status {status}")?;
    Ok(())
}
