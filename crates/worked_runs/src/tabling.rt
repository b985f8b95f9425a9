//! Rows with the replies of commands and the answers of reads, over the log that a case tells.
use crate::fits::{read_shown, show_rules};
use crate::logs::{cells_of, first_chain};
use anyhow::bail;
use fitting_run::acting::{have_replies, log_shows, placed_acts, reads_show};
use fitting_run::asking::entries_hold_lines;
use fitting_run::fitting::{
    are_rows_of, has_first_ranks, keeps_barriers, ranks_rise, reads_keep_order, stand_apart,
};
use fitting_run::yard::{end_is_within, has_tail, log_is_whole, tail, virtual_log};

/// Above what a case needs.
const MOST: u64 = 1_000;

/// Prints which rules the rows of a case break.
pub(crate) fn show_tables(rt: &HostRuntime, input: &[&str]) -> anyhow::Result<()> {
    let alloc = rt.alloc();
    let shown = read_shown(alloc, input)?;
    let told = shown.told.as_slice();
    let trim = shown.end.trim;
    let end = shown.end.end;
    let cells = cells_of(
        alloc,
        trim,
        shown.end.items.as_slice(),
        shown.end.by.as_slice(),
    )?;
    let cells = cells.as_slice();
    let chain = first_chain(alloc, trim)?;
    let log = virtual_log(alloc, &chain, cells, trim, end)?;
    if !has_tail(&chain, cells) || trim > MOST || log.len() as u64 > MOST {
        bail!("the log is too long");
    }
    let upto = tail(&chain, cells).unwrap_or(trim);
    let held = virtual_log(alloc, &chain, cells, trim, upto)?;
    let acts = placed_acts(alloc, told)?;
    let acts = acts.as_slice();
    show_rules(
        rt,
        &[
            ("each row is of its line", are_rows_of(told)),
            ("no position lacks its entry", log_is_whole(&chain, cells)),
            ("the log reaches the end", end_is_within(&chain, cells, end)),
            (
                "each item is what a line asks of its node",
                entries_hold_lines(alloc, shown.lines.as_slice(), held.as_slice())?,
            ),
            ("ranks are a session's first", has_first_ranks(acts)),
            ("ranks rise with places", ranks_rise(acts)),
            ("no two sessions have one place", stand_apart(acts)),
            (
                "replies below the trim are the table's",
                have_replies(alloc, trim, acts)?,
            ),
            (
                "what was placed is what the log lets act",
                log_shows(alloc, trim, acts, log.as_slice())?,
            ),
            ("reads show the table", reads_show(alloc, told)?),
            (
                "reads keep the order of their session",
                reads_keep_order(told),
            ),
            ("barriers are kept", keeps_barriers(told)),
        ],
    )
}
