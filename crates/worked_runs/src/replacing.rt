//! Rows of replacements of the loglet.
use crate::fits::{End, Shown, read_shown, show_rules};
use delos_types::chain::{Chain, Segments};
use fitting_run::fitting::{are_rows_of, keeps_barriers};
use fitting_run::replacing::{
    each_has_an_id, overtaken_by_others, shelf_is_spent, shelf_stays_spent, starts_stand,
    versions_are_in_order, versions_are_upto, versions_go_by_ones, versions_rise,
};

/// Prints which rules the rows of a case break.
pub(crate) fn show_replacements(rt: &HostRuntime, input: &[&str]) -> anyhow::Result<()> {
    let Shown { lines, told, end } = read_shown(rt.alloc(), input)?;
    let End {
        trim,
        version,
        segments,
        shelf,
        ..
    } = end;
    let chain = Chain {
        trim,
        segments: Segments::from_vec(segments),
    };
    let lines = lines.as_slice();
    let told = told.as_slice();
    show_rules(
        rt,
        &[
            ("each row is of its line", are_rows_of(told)),
            (
                "versions differ, and starts don't fall as they rise",
                versions_are_in_order(told),
            ),
            ("versions rise", versions_rise(told)),
            ("a spent shelf stays so", shelf_stays_spent(told)),
            ("each version has a loglet", each_has_an_id(&chain, told)),
            ("a segment begins at each start", starts_stand(&chain, told)),
            (
                "versions are at most the chain's",
                versions_are_upto(version, told),
            ),
            (
                "another node's line overtook each that moved",
                overtaken_by_others(lines, &[], told),
            ),
            (
                "a spent shelf has no loglet behind the chain's last",
                shelf_is_spent(&chain, shelf, told),
            ),
            (
                "each version has a loglet of its own, or trimmed the log",
                versions_go_by_ones(version, &chain),
            ),
            ("barriers are kept", keeps_barriers(told)),
        ],
    )
}
