//! Rows of what nodes report.
use crate::fits::{read_shown, show_rules};
use fitting_run::fitting::are_rows_of;
use fitting_run::reporting::{
    leaves_stand, reports_are_within, reports_reach, reports_stand, rows_stay_above,
};

/// Prints which rules the rows of a case break.
pub(crate) fn show_reports(rt: &HostRuntime, input: &[&str]) -> anyhow::Result<()> {
    let shown = read_shown(rt.alloc(), input)?;
    let told = shown.told.as_slice();
    let trim = shown.end.trim;
    let items = shown.end.items.as_slice();
    show_rules(
        rt,
        &[
            ("each row is of its line", are_rows_of(told)),
            (
                "reports are at most the end",
                reports_are_within(told, shown.end.end),
            ),
            (
                "reports are above the places of earlier phases",
                reports_reach(told),
            ),
            (
                "rows behind a report stand at it or above",
                rows_stay_above(told),
            ),
            ("reports stand in the log", reports_stand(told, trim, items)),
            ("leaves stand in the log", leaves_stand(told, trim, items)),
        ],
    )
}
