//! The top call: a script's bytes in, its rows and the chain out.
ghost use Rattle.std.specs.Prelude.{◌≡◌, ◌≢◌, ◌⊎◌, None, Some, length, map, string_bytes};
ghost use Rattle.script_words.specs.Plans.{plan_of};
ghost use Rattle.script_words.specs.declared.plan.Plan as plans;
ghost use Rattle.script_runner.specs.Ends.{HasScript, IsPlan, TakesSource};
ghost use Rattle.script_runner.specs.Fresh.{IsFreshFor, shown};
ghost use Rattle.script_runner.specs.Standing.{HasEnded};

use crate::compose::{Composed, Failure, Worked, compose};
use crate::ended::{End, Ended, Status};
use crate::yard::Yard;
use disk_model::Disk;
use fate_words::chooser::Chooser;
use gate_points::Gate;
use local_replica::layers::Layers;
use loglet_api::loglet::Loglet;
use outside_ends::sink::Sink;
use outside_ends::source::Source;
use outside_ends::whole::put_whole;
use register_api::Register;
use script_words::plan::{Plan, WordsError, read_words};
use std::alloc::Global;
use std::sync::Wait;
use std::thread::Threads;

/// Does what the words say. `run` runs the script that the source has left, and puts the text of its rows and of the chain.
/// `make` makes a script of a seed and runs it, and puts four lines that count over its rows; of the source it takes nothing. The
/// text is whole before any of it is put.
///
/// The yard has as many loglets and nodes as the words say, all fresh: loglets of any kind and room, of which the first is the
/// chain's open segment; the register of the chain; and for each node its five engines, an empty disk, and what chooses for it. It
/// comes back, however the run ends. Where the words have no plan, nothing of it is touched.
///
/// The nodes that have lines in a phase play them beside one another, in threads, and pass the gate as they do; what is told fits whatever
/// the order in which their events come.
///
/// A node whose disk fails as its store is begun goes on without it, and opens it again when it has an entry to apply.
///
/// Takes time that grows with the script and its rows, and for each node with the log that it plays.
pub fn run<
    W: Threads + Wait + Sync,
    L: Loglet + Send,
    R: Register + Send,
    E: Layers + Send,
    D: Disk + Send,
    C: Chooser + Send,
    S: Source,
    K: Sink,
    G: Gate + Sync,
>(
    rt: &W,
    alloc: Global,
    words: &[String],
    source: &mut S,
    sink: &mut K,
    yard: Yard<L, R, E, D, C>,
    gate: &G,
) -> Ended<L, R, E, D, C>
    requires { (p : plans.Plan) → plan_of (map string_bytes words.now) ≡ Some p → IsFreshFor (λ k. E.kinds k.engines) (λ k. E.waiting k.engines) (λ k. D.view k.disk) p (map L.view yard.shelf.items) (R.view yard.register) yard.nodes.items }

    // What is told fits the script and the yard that comes back; the text was put that the status says; a fault was counted, or memory
    // was wanting.
    ensures ended { HasEnded (plan_of (map string_bytes words.now)) (record { left = S.left source.old; missed = S.counted source.old; held = K.held sink.old; lost = K.counted sink.old }) (record { left = S.left source.new; missed = S.counted source.new; held = K.held sink.new; lost = K.counted sink.new }) (shown L.view R.view (λ k. (D.view k.disk).faults) result.yard.shelf.items result.yard.register result.yard.nodes.items) result.end }

    // Only the script of `run` is taken from the source; without a text the sink is as it was.
    ensures untaken { (TakesSource (plan_of (map string_bytes words.now)) → ⊥) → source.new ≡ source.old }
    ensures silent { (result.end.status ≡ Status.SourceFault) ⊎ (result.end.status ≡ Status.Memory) → sink.new ≡ sink.old }

    // Where nothing is told and memory sufficed, the yard is as it was, and so it is, whatever the status, where there is no script to run.
    // In any case it has as many loglets, of the same kinds in the same order, and as many nodes, each with engines of the kinds that it had.
    ensures untouched { result.end.told ≡ None → result.end.status ≢ Status.Memory → result.yard ≡ yard }
    ensures begun { (result.yard ≡ yard) ⊎ HasScript (plan_of (map string_bytes words.now)) (S.left source.old) }
    ensures kinds { map (λ v. v.kind) (map L.view result.yard.shelf.items) ≡ map (λ v. v.kind) (map L.view yard.shelf.items) }
    ensures loglets { length result.yard.shelf.items ≡ length yard.shelf.items }
    ensures nodes { length result.yard.nodes.items ≡ length yard.nodes.items }
    ensures engines { map (λ k. E.kinds k.engines) result.yard.nodes.items ≡ map (λ k. E.kinds k.engines) yard.nodes.items }
{
    match read_words(alloc, words) {
        Ok(plan) => run_plan(rt, alloc, &Some(plan), source, sink, yard, gate),
        Err(WordsError::BadWords) => run_plan(rt, alloc, &None, source, sink, yard, gate),
        Err(WordsError::Memory) => without_a_text(Status::Memory, yard),
    }
}

/// Does what words say whose plan this is, as `run` does; None stands for words that aren't taken.
pub fn run_plan<
    W: Threads + Wait + Sync,
    L: Loglet + Send,
    R: Register + Send,
    E: Layers + Send,
    D: Disk + Send,
    C: Chooser + Send,
    S: Source,
    K: Sink,
    G: Gate + Sync,
>(
    rt: &W,
    alloc: Global,
    plan: &Option<Plan>,
    source: &mut S,
    sink: &mut K,
    yard: Yard<L, R, E, D, C>,
    gate: &G,
) -> Ended<L, R, E, D, C>
    requires fresh { (p : plans.Plan) → plan.now ≡ Some p → IsPlan p × IsFreshFor (λ k. E.kinds k.engines) (λ k. E.waiting k.engines) (λ k. D.view k.disk) p (map L.view yard.shelf.items) (R.view yard.register) yard.nodes.items }
    ensures ended { HasEnded plan.now (record { left = S.left source.old; missed = S.counted source.old; held = K.held sink.old; lost = K.counted sink.old }) (record { left = S.left source.new; missed = S.counted source.new; held = K.held sink.new; lost = K.counted sink.new }) (shown L.view R.view (λ k. (D.view k.disk).faults) result.yard.shelf.items result.yard.register result.yard.nodes.items) result.end }
    ensures untaken { (TakesSource plan.now → ⊥) → source.new ≡ source.old }
    ensures silent { (result.end.status ≡ Status.SourceFault) ⊎ (result.end.status ≡ Status.Memory) → sink.new ≡ sink.old }
    ensures begun { (result.yard ≡ yard) ⊎ HasScript plan.now (S.left source.old) }
    ensures untouched { result.end.told ≡ None → result.end.status ≢ Status.Memory → result.yard ≡ yard }
    ensures kinds { map (λ v. v.kind) (map L.view result.yard.shelf.items) ≡ map (λ v. v.kind) (map L.view yard.shelf.items) }
    ensures loglets { length result.yard.shelf.items ≡ length yard.shelf.items }
    ensures nodes { length result.yard.nodes.items ≡ length yard.nodes.items }
    ensures engines { map (λ k. E.kinds k.engines) result.yard.nodes.items ≡ map (λ k. E.kinds k.engines) yard.nodes.items }
{
    let Worked { yard, answer } = compose(rt, alloc, plan, source, yard, gate);
    match answer {
        Ok(composed) => {
            let Composed { end, text } = composed;
            match put_whole(sink, text.as_slice()) {
                Ok(()) => return Ended { end, yard },
                Err(_) => return after_a_sink_fault(end, yard),
            }
        }
        Err(Failure::Memory) => return without_a_text(Status::Memory, yard),
        Err(Failure::Source) => return without_a_text(Status::SourceFault, yard),
    }
}

/// A run whose sink failed: no line is named.
fn after_a_sink_fault<L: Loglet, R: Register, E: Layers, D: Disk, C: Chooser>(
    end: End,
    yard: Yard<L, R, E, D, C>,
) -> Ended<L, R, E, D, C>
    ensures { result ≡ record { end = record end { status = Status.SinkFault; refused = None }; yard = yard } }
{
    Ended {
        end: End {
            status: Status::SinkFault,
            told: end.told,
            refused: None,
        },
        yard,
    }
}

/// A run of which nothing was told.
fn without_a_text<L: Loglet, R: Register, E: Layers, D: Disk, C: Chooser>(
    status: Status,
    yard: Yard<L, R, E, D, C>,
) -> Ended<L, R, E, D, C>
    ensures { result ≡ record { end = record { status = status; told = None; refused = None }; yard = yard } }
{
    Ended {
        end: End {
            status,
            told: None,
            refused: None,
        },
        yard,
    }
}
