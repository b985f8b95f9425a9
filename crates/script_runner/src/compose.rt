//! What is to be put: the lines that a plan asks for are run, and the text of what they told is made whole.
ghost use Rattle.std.specs.Prelude.{◌≡◌, ◌≢◌, ◌⊎◌, ◌<◌, ℕ, List, Option, Some, Err, IfOk, IsSome, All, length, map};
ghost use Rattle.outside_ends.specs.Faults.{Rose};
ghost use Rattle.row_text.specs.Output.{output};
ghost use Rattle.script_text.specs.Refusal.{refusal_text};
ghost use Rattle.script_text.specs.declared.line.Line.{Line};
ghost use Rattle.script_text.specs.Lines.{lines_of};
ghost use Rattle.script_words.specs.Plans.{bad_words_text};
ghost use Rattle.script_words.specs.Shelf.{kind_name};
ghost use Rattle.script_words.specs.declared.plan.Plan as plans;
ghost use Rattle.script_runner.specs.Composed.{ComposesRun, IsComposed, Tells, status_of};
ghost use Rattle.script_runner.specs.Ends.{HasScript, IsPlan, TakesSource, text_of};
ghost use Rattle.script_runner.specs.Made.{any_open};
ghost use Rattle.script_runner.specs.Fresh.{IsFreshFor, shown};
ghost use Rattle.script_runner.specs.Lines.{AreLinesFor};

use crate::ended::{End, Status};
use crate::lines::{NoLines, lines_for};
use crate::over::{Played, play};
use crate::yard::Yard;
use delos_types::bytes::Bytes;
use disk_model::Disk;
use fate_words::chooser::Chooser;
use fitting_run::fitting::is_open;
use fitting_run::told::Told;
use gate_points::Gate;
use local_replica::layers::Layers;
use loglet_api::loglet::Loglet;
use outside_ends::source::Source;
use register_api::Register;
use row_text::render::render;
use row_text::row::Rows;
use run_totals::counting::totals;
use run_totals::text::totals_text;
use script_text::asks::NamedLine;
use script_text::refusal::refusal_text;
use script_text::script::BadLine;
use script_words::plan::{Plan, Task, bad_words_text};
use std::alloc::{AllocError, Global};
use std::sync::Wait;
use std::thread::Threads;

/// What is to be put, and how the run ends once it is.
#[derive(Drop)]
pub struct Composed {
    pub end: End,
    pub text: Bytes,
}

/// Why nothing is to be put.
#[derive(Clone, Copy, PartialEq, Eq, Debug)]
pub enum Failure {
    Memory,
    Source,
}

impl From<AllocError> for Failure {
    ghost use Rattle.script_runner.specs.declared.compose.Failure.TheVariants.{Memory};

    ghost from_gives = { λ _ e. e ≡ Memory };

    fn from(_: AllocError) -> Self {
        Failure::Memory
    }
}

/// What is to be put, or why nothing is, and what was worked on.
pub struct Worked<L: Loglet, R: Register, E: Layers, D: Disk, C: Chooser> {
    pub yard: Yard<L, R, E, D, C>,
    pub answer: Result<Composed, Failure>,
}

/// Whether some row is open.
fn any_open(rows: &Rows) -> bool
    ensures { result ≡ any_open rows.now }
{
    rows.as_slice().iter().any(|row| is_open(&row.outcome))
}

/// The status that the text of a run has once it is put whole.
fn status_of(told: &Told) -> Status
    ensures { result ≡ status_of told.now }
{
    if any_open(&told.rows) {
        Status::Open
    } else {
        Status::Done
    }
}

/// The text of the rows and of the chain, over the shelf that the plan names.
fn rows_text(alloc: Global, plan: &Plan, told: &Told) -> Result<Bytes, AllocError>
    requires { All (λ s. s.id < length plan.now.shelf) told.now.chain.segments }
    ensures { IfOk result (λ text. text ≡ output told.now.rows told.now.end told.now.version told.now.chain told.now.down (map kind_name plan.now.shelf)) }
{
    let kinds = plan.shelf.names(alloc)?;
    render(
        alloc,
        &told.rows,
        told.end,
        told.version,
        &told.chain,
        told.down,
        kinds.as_slice(),
    )
}

/// The text of what was told of these lines: its rows and the chain, or what came of a made script.
fn told_text(
    alloc: Global,
    plan: &Plan,
    lines: &[NamedLine],
    told: &Told,
) -> Result<Bytes, AllocError>
    requires { All (λ s. s.id < length plan.now.shelf) told.now.chain.segments }
    ensures { IfOk result (λ text. text ≡ text_of plan.now.task plan.now lines.now told.now) }
{
    match plan.task {
        Task::Run => rows_text(alloc, plan, told),
        Task::Make { .. } => {
            let totals = totals(alloc, lines, told)?;
            totals_text(alloc, &totals)
        }
    }
}

/// The text of what was told of these lines, if memory sufficed.
fn compose_told(
    alloc: Global,
    plan: &Plan,
    lines: &[NamedLine],
    told: Result<Told, AllocError>,
) -> Result<Composed, Failure>
    requires { IfOk told (λ t. All (λ s. s.id < length plan.now.shelf) t.chain.segments) }
    ensures ok { IfOk result (λ c. IfOk told (Tells plan.now lines.now c)) }
    ensures told { IfOk result (λ c. (t : Told) × (told ≡ Ok t)) }
    ensures source { result ≢ Err Failure.Source }
{
    let told = told?;
    let text = told_text(alloc, plan, lines, &told)?;
    let status = status_of(&told);
    Ok(Composed {
        end: End {
            status,
            told: Some(told),
            refused: None,
        },
        text,
    })
}

/// Runs a script's lines, and makes the text of what they told.
fn compose_run<
    W: Threads + Wait + Sync,
    L: Loglet + Send,
    R: Register + Send,
    E: Layers + Send,
    D: Disk + Send,
    C: Chooser + Send,
    G: Gate + Sync,
>(
    rt: &W,
    alloc: Global,
    plan: &Plan,
    lines: &[NamedLine],
    yard: Yard<L, R, E, D, C>,
    gate: &G,
) -> Worked<L, R, E, D, C>
    requires fresh { IsFreshFor (λ k. E.kinds k.engines) (λ k. E.waiting k.engines) (λ k. D.view k.disk) plan.now (map L.view yard.shelf.items) (R.view yard.register) yard.nodes.items }
    requires plan { IsPlan plan.now }
    requires lines { (left : Option (List ℕ)) × AreLinesFor plan.now left lines.now }
    ensures ok { (script : List Line) → lines.now ≡ lines_of script → IfOk result.answer (ComposesRun plan.now script (shown L.view R.view (λ k. (D.view k.disk).faults) result.yard.shelf.items result.yard.register result.yard.nodes.items)) }
    ensures told { IfOk result.answer (λ c. IsSome c.end.told) }
    ensures source { result.answer ≢ Err Failure.Source }
    ensures loglets { length result.yard.shelf.items ≡ length yard.shelf.items }
    ensures nodes { length result.yard.nodes.items ≡ length yard.nodes.items }
    ensures engines { map (λ k. E.kinds k.engines) result.yard.nodes.items ≡ map (λ k. E.kinds k.engines) yard.nodes.items }
    ensures kinds { map (λ v. v.kind) (map L.view result.yard.shelf.items) ≡ map (λ v. v.kind) (map L.view yard.shelf.items) }
{
    let Played { yard, told } = play(rt, alloc, yard, lines, gate);
    let answer = compose_told(alloc, plan, lines, told);
    Worked { yard, answer }
}

/// The text of a bad line.
fn compose_refusal(alloc: Global, bad: BadLine) -> Result<Composed, Failure>
    ensures ok { IfOk result (λ c. (c.end ≡ record { status = Status.BadLine; told = None; refused = Some bad }) × (c.text ≡ refusal_text bad)) }
    ensures source { result ≢ Err Failure.Source }
{
    let text = refusal_text(alloc, bad)?;
    Ok(Composed {
        end: End {
            status: Status::BadLine,
            told: None,
            refused: Some(bad),
        },
        text,
    })
}

/// The text for words that are not taken.
fn compose_bad_words(alloc: Global) -> Result<Composed, Failure>
    ensures ok { IfOk result (λ c. (c.end ≡ record { status = Status.BadWords; told = None; refused = None }) × (c.text ≡ bad_words_text)) }
    ensures source { result ≢ Err Failure.Source }
{
    let text = Bytes::from_slice(alloc, bad_words_text())?;
    Ok(Composed {
        end: End {
            status: Status::BadWords,
            told: None,
            refused: None,
        },
        text,
    })
}

/// Composes what the plan asks for, if the words have one.
pub fn compose<
    W: Threads + Wait + Sync,
    L: Loglet + Send,
    R: Register + Send,
    E: Layers + Send,
    D: Disk + Send,
    C: Chooser + Send,
    S: Source,
    G: Gate + Sync,
>(
    rt: &W,
    alloc: Global,
    plan: &Option<Plan>,
    source: &mut S,
    yard: Yard<L, R, E, D, C>,
    gate: &G,
) -> Worked<L, R, E, D, C>
    requires fresh { (p : plans.Plan) → plan.now ≡ Some p → IsPlan p × IsFreshFor (λ k. E.kinds k.engines) (λ k. E.waiting k.engines) (λ k. D.view k.disk) p (map L.view yard.shelf.items) (R.view yard.register) yard.nodes.items }
    ensures ok { IfOk result.answer (IsComposed plan.now (S.left source.old) (shown L.view R.view (λ k. (D.view k.disk).faults) result.yard.shelf.items result.yard.register result.yard.nodes.items)) }
    ensures source { result.answer ≡ Err Failure.Source → Rose (S.counted source.old) (S.counted source.new) × TakesSource plan.now }
    ensures untaken { (TakesSource plan.now → ⊥) → source.new ≡ source.old }
    ensures begun { (result.yard ≡ yard) ⊎ HasScript plan.now (S.left source.old) }
    ensures untouched { IfOk result.answer (λ c. c.end.told ≡ None → result.yard ≡ yard) }
    ensures untouched_unread { result.answer ≡ Err Failure.Source → result.yard ≡ yard }
    ensures loglets { length result.yard.shelf.items ≡ length yard.shelf.items }
    ensures nodes { length result.yard.nodes.items ≡ length yard.nodes.items }
    ensures engines { map (λ k. E.kinds k.engines) result.yard.nodes.items ≡ map (λ k. E.kinds k.engines) yard.nodes.items }
    ensures kinds { map (λ v. v.kind) (map L.view result.yard.shelf.items) ≡ map (λ v. v.kind) (map L.view yard.shelf.items) }
{
    let Some(plan) = plan else {
        return Worked {
            yard,
            answer: compose_bad_words(alloc),
        };
    };
    let answer = match lines_for(alloc, plan, source) {
        Ok(lines) => return compose_run(rt, alloc, plan, lines.as_slice(), yard, gate),
        Err(NoLines::Bad(bad)) => compose_refusal(alloc, bad),
        Err(NoLines::Memory) => Err(Failure::Memory),
        Err(NoLines::Source) => Err(Failure::Source),
    };
    Worked { yard, answer }
}
