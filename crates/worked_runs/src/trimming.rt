//! Rows of how far lines trimmed the log.
use crate::fits::{read_shown, show_rules};
use anyhow::ensure;
use fitting_run::fitting::are_rows_of;
use fitting_run::trimming::{
    trim_is_allowed, trims_are_as_allowed, trims_are_upto, trims_rise, trims_stand,
};

/// Prints which rules the rows of a case break.
pub(crate) fn show_trims(rt: &HostRuntime, input: &[&str]) -> anyhow::Result<()> {
    let shown = read_shown(rt.alloc(), input)?;
    let lines = shown.lines.as_slice();
    let told = shown.told.as_slice();
    let nodes = shown.end.nodes;
    let trim = shown.end.trim;
    let items = shown.end.items.as_slice();
    ensure!(nodes <= 8, "too many nodes");
    show_rules(
        rt,
        &[
            ("each row is of its line", are_rows_of(told)),
            (
                "no trim is above that at the end",
                trims_are_upto(told, trim),
            ),
            (
                "each trim goes as far as nodes allowed, and no further",
                trims_are_as_allowed(told, nodes),
            ),
            ("trims don't fall", trims_rise(told)),
            (
                "what asks for a trim stands in the log",
                trims_stand(told, trim, items),
            ),
            (
                "the trim is asked for, and each node allowed it",
                trim_is_allowed(lines, told, nodes, trim, items),
            ),
        ],
    )
}
