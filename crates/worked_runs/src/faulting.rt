//! Rows that are open or late, and what was counted in the yard.
use crate::fits::{Counted, End, Shown, read_shown, show_rules};
use crate::logs::first_chain;
use fitting_run::answered::Answered;
use fitting_run::faulting::{
    YardShown, causes_stand, lacks_are_counted, late_turns_are_counted, refusals_are_counted,
    register_is_counted, stores_are_counted,
};
use fitting_run::fitting::are_rows_of;
use fitting_run::registering::RegisterShown;
use std::alloc::{AllocError, Global};

/// The yard of a case, with a register that gave the first chain.
fn yard_of(alloc: Global, counted: Counted) -> Result<YardShown, AllocError> {
    let Counted {
        cells,
        register,
        disks,
    } = counted;
    Ok(YardShown {
        cells,
        register: RegisterShown {
            version: 1,
            chain: first_chain(alloc, 0)?,
            given: 1,
            given_chain: first_chain(alloc, 0)?,
            down: false,
            faults: register,
            misses: 0,
        },
        disks,
    })
}

fn judge(rt: &HostRuntime, told: &[Answered], yard: &YardShown) -> anyhow::Result<()> {
    let cells = yard.cells.as_slice();
    let disks = yard.disks.as_slice();
    show_rules(
        rt,
        &[
            ("each row is of its line", are_rows_of(told)),
            ("each cause stands in the yard", causes_stand(told, yard)),
            (
                "loglets lacked a quorum as often as the rows need",
                lacks_are_counted(told, cells),
            ),
            (
                "loglets were full as often as the rows need",
                refusals_are_counted(told, cells),
            ),
            (
                "the register failed as often as the rows need",
                register_is_counted(told, &yard.register),
            ),
            (
                "disks failed as often as the rows need",
                stores_are_counted(told, disks),
            ),
            (
                "late rows have a fault each that made them so",
                late_turns_are_counted(told, yard),
            ),
        ],
    )
}

/// Prints which rules the rows of a case break.
pub(crate) fn show_faults(rt: &HostRuntime, input: &[&str]) -> anyhow::Result<()> {
    let alloc = rt.alloc();
    let Shown { told, end, .. } = read_shown(alloc, input)?;
    let End { counted, .. } = end;
    let yard = yard_of(alloc, counted)?;
    judge(rt, told.as_slice(), &yard)
}
