//! How what is shown takes in what is published.
ghost use Rattle.std.specs.Prelude.{◌≡◌, OnOk, OnErr, drop};
ghost use Rattle.std.specs.Arc.{arc_value};
ghost use Rattle.snap_reads.specs.Steps.{says, act, applied, ends};

use crate::change::Published;
use crate::shown::{Op, Says, Shown};
use left_right::Absorb;
use std::alloc::AllocError;
use std::collections::VecDeque;
use std::sync::Arc;

// So many are let go in front.
fn let_go(carried: &mut VecDeque<Arc<Published>>, many: usize)
    ensures { carried.new.items ≡ drop many carried.old.items }
{
    for _gone in 0..many {
        let _ = carried.pop_front();
    }
}

// All of what is published at one position was made.
fn end(shown: &mut Shown, of: &Arc<Published>, needless: u64) -> Result<(), AllocError>
    ensures ok { OnOk result (says shown.new ≡ act (says shown.old) (ends needless (arc_value of.now))) }
    ensures err { OnErr result (says shown.new ≡ says shown.old) }
{
    let Some(count) = shown.count.checked_add(1) else {
        return Err(AllocError);
    };
    let kept = Arc::try_clone(of)?;
    let first = shown.count.saturating_sub(shown.carried.len() as u64);
    let Ok(()) = shown.carried.push_back(kept) else {
        return Err(AllocError);
    };
    let_go(&mut shown.carried, needless.saturating_sub(first) as usize);
    shown.pos = of.pos;
    shown.count = count;
    Ok(())
}

fn take(shown: &mut Shown, op: &Op) -> Result<(), AllocError>
    ensures ok { OnOk result (says shown.new ≡ applied (says shown.old) op.now) }
    ensures err { OnErr result (says shown.new ≡ says shown.old) }
{
    match op {
        Op::Begin(of) => {
            if of.changes.whole {
                shown.tables.clear();
            }
            Ok(())
        }
        Op::Change { of, at } => match of.changes.list.as_slice().get(*at) {
            Some(change) => shown.tables.change(change),
            None => Ok(()),
        },
        Op::End { of, needless } => end(shown, of, *needless),
    }
}

impl Absorb<Op> for Shown {
    type State = Says;

    ghost state = { says };

    ghost applied = { applied };

    fn absorb_first(&mut self, operation: &Op, _other: &Shown) -> Result<(), AllocError> {
        take(self, operation)
    }
}
