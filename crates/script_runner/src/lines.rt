//! The lines that a plan asks for: those of a script that is read, or of one that is made.
ghost use Rattle.std.specs.Prelude.{◌≡◌, List, Option, Err, IfOk, ℕ};
ghost use Rattle.outside_ends.specs.Faults.{Rose};
ghost use Rattle.script_words.specs.declared.plan.Task.TheVariants as task;
ghost use Rattle.script_runner.specs.Ends.{IsPlan, IsRefused};
ghost use Rattle.script_runner.specs.Lines.{AreLinesFor};

use made_script::make::make_script;
use outside_ends::source::Source;
use outside_ends::whole::{ReadError, read_up_to};
use script_text::asks::{NamedLines, named_lines};
use script_text::script::{BadLine, ParseError, parse};
use script_words::plan::{Plan, Task};
use std::alloc::{AllocError, Global};

/// How many bytes of a source are read at most: one more than a script may have.
const READ_LIMIT: usize = 1_048_577;

/// Why there are no lines.
#[derive(Clone, Copy)]
pub enum NoLines {
    /// A line of the script breaks a rule.
    Bad(BadLine),
    /// Memory ran out.
    Memory,
    /// The source failed.
    Source,
}

impl From<AllocError> for NoLines {
    ghost use Rattle.script_runner.specs.declared.lines.NoLines.TheVariants.{Memory};

    ghost from_gives = { λ _ e. e ≡ Memory };

    fn from(_: AllocError) -> Self {
        NoLines::Memory
    }
}

impl From<ReadError> for NoLines {
    ghost use Rattle.script_runner.specs.Unread.{unread};

    ghost from_gives = { λ fault e. e ≡ unread fault };

    fn from(fault: ReadError) -> Self {
        match fault {
            ReadError::Memory => NoLines::Memory,
            ReadError::Failed => NoLines::Source,
        }
    }
}

impl From<ParseError> for NoLines {
    ghost use Rattle.script_runner.specs.Unread.{unparsed};

    ghost from_gives = { λ fault e. e ≡ unparsed fault };

    fn from(fault: ParseError) -> Self {
        match fault {
            ParseError::Memory => NoLines::Memory,
            ParseError::Bad(bad) => NoLines::Bad(bad),
        }
    }
}

/// The lines of the script that the source has left.
fn read_lines<S: Source>(alloc: Global, plan: &Plan, source: &mut S) -> Result<NamedLines, NoLines>
    requires plan { IsPlan plan.now }
    requires run { plan.now.task ≡ task.Run }
    ensures lines { IfOk result (AreLinesFor plan.now (S.left source.old)) }
    ensures bad { (bad : BadLine) → result ≡ Err (NoLines.Bad bad) → IsRefused plan.now (S.left source.old) bad }
    ensures source { result ≡ Err NoLines.Source → Rose (S.counted source.old) (S.counted source.new) }
{
    let bytes = read_up_to(alloc, source, READ_LIMIT)?;
    let script = parse(alloc, bytes.as_slice(), plan.nodes)?;
    let lines = named_lines(alloc, script)?;
    Ok(lines)
}

/// The lines of a script of so many commands, made of the plan's seed.
fn make_lines(alloc: Global, plan: &Plan, count: u16) -> Result<NamedLines, AllocError>
    requires plan { IsPlan plan.now }
    requires make { plan.now.task ≡ task.Make count }
    ensures lines { (left : Option (List ℕ)) → IfOk result (AreLinesFor plan.now left) }
{
    let bytes = make_script(alloc, plan.seed, count, plan.nodes)?;
    // No line of it is bad, so where it isn't read memory ran out.
    let Ok(script) = parse(alloc, bytes.as_slice(), plan.nodes) else {
        return Err(AllocError);
    };
    named_lines(alloc, script)
}

/// The lines that the plan asks for. What is made takes nothing from the source.
pub fn lines_for<S: Source>(
    alloc: Global,
    plan: &Plan,
    source: &mut S,
) -> Result<NamedLines, NoLines>
    requires plan { IsPlan plan.now }
    ensures lines { IfOk result (AreLinesFor plan.now (S.left source.old)) }
    ensures bad { (bad : BadLine) → result ≡ Err (NoLines.Bad bad) → IsRefused plan.now (S.left source.old) bad }
    ensures source { result ≡ Err NoLines.Source → Rose (S.counted source.old) (S.counted source.new) × (plan.now.task ≡ task.Run) }
    ensures untaken { (plan.now.task ≡ task.Run → ⊥) → source.new ≡ source.old }
{
    match plan.task {
        Task::Run => read_lines(alloc, plan, source),
        Task::Make { lines } => {
            let lines = make_lines(alloc, plan, lines)?;
            Ok(lines)
        }
    }
}
