//! What waits to be published.
ghost use Rattle.std.specs.Prelude.{◌≡◌, ◌+◌, ◌<◌, ◌∷◌, ◌++◌, length, drop, map, IfOk, OnOk, OnErr, MatchResult, None};
ghost use Rattle.std.specs.Arc.{arc_value};
ghost use Rattle.snap_reads.specs.Steps.{meant, steps_of};
ghost use Rattle.snap_reads.specs.Queue.{entry_of, steps_left, queue_of};

use crate::change::{Changes, Published};
use crate::rule::ShownWriter;
use crate::shown::Op;
use std::alloc::{AllocError, Global};
use std::sync::Arc;

/// What is published at one position, of which the steps from `next` on are not in the writer's log yet.
#[derive(Drop)]
pub(crate) struct Rest {
    pub of: Arc<Published>,
    pub needless: u64,
    pub next: usize,
}

// The next step.
fn step(rest: &Rest) -> Result<Op, AllocError>
    requires { rest.now.next < length (arc_value rest.now.of).changes.list + 2 }
    ensures { IfOk result (λ op. steps_left rest.now ≡ meant op ∷ drop (rest.now.next + 1) (steps_of (entry_of rest.now))) }
{
    let of = Arc::try_clone(&rest.of)?;
    if rest.next == 0 {
        return Ok(Op::Begin(of));
    }
    let at = rest.next - 1;
    if at < of.changes.list.as_slice().len() {
        return Ok(Op::Change { of, at });
    }
    let needless = rest.needless;
    Ok(Op::End { of, needless })
}

// Puts the steps into the writer's log. Where there is no memory what is left of them comes back.
fn log_rest(writer: &mut ShownWriter, rest: Rest) -> Result<(), Rest>
    ensures desk { writer.new.desk ≡ writer.old.desk }
    ensures queue { MatchResult result
        (λ _. map meant (drop writer.new.behind writer.new.log.items) ≡ map meant (drop writer.old.behind writer.old.log.items) ++ steps_left rest)
        (λ left. map meant (drop writer.new.behind writer.new.log.items) ++ steps_left left ≡ map meant (drop writer.old.behind writer.old.log.items) ++ steps_left rest) }
{
    let mut rest = rest;
    let steps = rest.of.changes.list.as_slice().len() + 2;
    while rest.next < steps {
        let Ok(op) = step(&rest) else {
            return Err(rest);
        };
        let Ok(()) = writer.append(op) else {
            return Err(rest);
        };
        rest.next += 1;
    }
    Ok(())
}

/// Puts what is left into the writer's log.
pub(crate) fn finish(writer: &mut ShownWriter, rest: &mut Option<Rest>) -> Result<(), AllocError>
    ensures desk { writer.new.desk ≡ writer.old.desk }
    ensures queue { queue_of (drop writer.new.behind writer.new.log.items) rest.new ≡ queue_of (drop writer.old.behind writer.old.log.items) rest.old }
    ensures ok { OnOk result (rest.new ≡ None) }
{
    let Some(left) = rest.take() else {
        return Ok(());
    };
    match log_rest(writer, left) {
        Ok(()) => Ok(()),
        Err(left) => {
            *rest = Some(left);
            Err(AllocError)
        }
    }
}

/// Takes a copy of the changes up, behind what is left. Where there is no memory they are not taken up.
pub(crate) fn take_up(
    alloc: Global,
    writer: &mut ShownWriter,
    rest: &mut Option<Rest>,
    pos: u64,
    changes: &Changes,
    needless: u64,
) -> Result<(), AllocError>
    ensures desk { writer.new.desk ≡ writer.old.desk }
    ensures ok { OnOk result (queue_of (drop writer.new.behind writer.new.log.items) rest.new ≡ queue_of (drop writer.old.behind writer.old.log.items) rest.old ++ steps_of (needless, record { pos = pos; changes = changes.now })) }
    ensures err { OnErr result (queue_of (drop writer.new.behind writer.new.log.items) rest.new ≡ queue_of (drop writer.old.behind writer.old.log.items) rest.old) }
{
    finish(writer, rest)?;
    let of = Published::copied(alloc, pos, changes)?;
    let Ok(of) = Arc::new(alloc, of) else {
        return Err(AllocError);
    };
    *rest = Some(Rest {
        of,
        needless,
        next: 0,
    });
    Ok(())
}
