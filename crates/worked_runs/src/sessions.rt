//! Rows of sessions, with places that a run gives and places that none gives.
use crate::fits::{read_shown, show_rules};
use fitting_run::answered::Answered;
use fitting_run::fitting::{
    are_rows_of, causes_are_kept, keeps_barriers, places_dont_fall, reads_are_kept_open,
    reads_dont_fall, reads_keep_order, stays_stopped,
};

/// Prints which rules these rows break.
pub(crate) fn judge(rt: &HostRuntime, told: &[Answered]) -> anyhow::Result<()> {
    show_rules(
        rt,
        &[
            ("each row is of its line", are_rows_of(told)),
            ("the places of a session don't fall", places_dont_fall(told)),
            ("a session that stopped stays so", stays_stopped(told)),
            (
                "a session that stopped tells one cause",
                causes_are_kept(told),
            ),
            (
                "reads keep the order of their session",
                reads_keep_order(told),
            ),
            ("the reads of a node don't fall", reads_dont_fall(told)),
            (
                "no read is answered behind a command that isn't",
                reads_are_kept_open(told),
            ),
            ("barriers are kept", keeps_barriers(told)),
        ],
    )
}

/// Prints which rules the rows of a case break.
pub(crate) fn show_sessions(rt: &HostRuntime, input: &[&str]) -> anyhow::Result<()> {
    let shown = read_shown(rt.alloc(), input)?;
    judge(rt, shown.told.as_slice())
}
