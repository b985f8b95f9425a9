//! The chain, drawn over the positions of the log.
use delos_types::chain::Segment;
use fitting_run::told::Told;
use row_text::row::{Outcome, Row};
use std::fmt;

/// How many columns the positions of the log are drawn over.
const WIDTH: u64 = 48;

/// What a run told, drawn: a line for each segment of the chain, with the positions that it holds, and which line of the script
/// closed it. `#` are positions that stand in the segment's loglet, `-` those of it that were trimmed.
#[derive(Clone, Copy)]
pub struct Picture<'a, 'b> {
    pub told: &'a Told,
    /// The names of the shelf's kinds, in its order.
    pub kinds: &'b [&'static str],
}

/// The columns below this one are of positions below `pos`, where the log ends at `end`.
fn column(pos: u64, end: u64) -> u64 {
    if pos >= end {
        WIDTH
    } else {
        // (less than the width, as the position is less than the end)
        (u128::from(pos) * u128::from(WIDTH) / u128::from(end)) as u64
    }
}

/// The row of the line that made the segment: of those that began one at its start, as many are of earlier segments as begin there
/// too. None where no row tells.
fn made_by<'a>(rows: &'a [Row], start: u64, earlier: usize) -> Option<(&'a Row, u64)> {
    let mut passed = earlier;
    for row in rows {
        if let Outcome::Extended {
            version,
            start: began,
        } = &row.outcome
        {
            if *began == start {
                if passed == 0 {
                    return Some((row, *version));
                }
                passed -= 1;
            }
        }
    }
    None
}

/// How many of these segments, all but the chain's first, begin at this position.
fn beginning_at(segments: &[Segment], start: u64) -> usize {
    segments
        .iter()
        .filter(|segment| segment.id > 0 && segment.start == start)
        .count()
}

impl Picture<'_, '_> {
    fn name_of(&self, segment: &Segment) -> &'static str {
        self.kinds.get(segment.id as usize).copied().unwrap_or("?")
    }

    fn put_bar<W: fmt::Write>(&self, f: &mut fmt::Formatter<W>, segment: &Segment) -> fmt::Result {
        let log_end = self.told.end;
        let end = segment.end.unwrap_or(log_end);
        let (from, to) = (column(segment.start, log_end), column(end, log_end));
        let kept = column(self.told.chain.trim, log_end);
        write!(f, "|")?;
        for at in 0..WIDTH {
            let mark = if at < from || at >= to {
                ' '
            } else if at < kept {
                '-'
            } else {
                '#'
            };
            write!(f, "{mark}")?;
        }
        write!(f, "|")
    }

    fn put_range<W: fmt::Write>(
        &self,
        f: &mut fmt::Formatter<W>,
        segment: &Segment,
    ) -> fmt::Result {
        let start = segment.start;
        match segment.end {
            Some(end) if end == start => write!(f, "no position, at {start}"),
            Some(end) => write!(f, "positions {start} to below {end}"),
            None => write!(f, "positions from {start} on, open"),
        }
    }

    /// Who closed the segment at this place in the chain: who made the one behind it.
    fn put_closer<W: fmt::Write>(&self, f: &mut fmt::Formatter<W>, at: usize) -> fmt::Result {
        let segments = self.told.chain.segments.as_slice();
        let Some(next) = segments.get(at.saturating_add(1)) else {
            return Ok(());
        };
        let before = segments.get(..at.saturating_add(1)).unwrap_or(&[]);
        let earlier = beginning_at(before, next.start);
        match made_by(self.told.rows.as_slice(), next.start, earlier) {
            Some((row, version)) => {
                let line = row.number;
                write!(f, ", closed by line {line} (v={version})")
            }
            None => write!(f, ", closed by a line whose row doesn't tell it"),
        }
    }
}

impl fmt::Display for Picture<'_, '_> {
    fn fmt<W: fmt::Write>(&self, f: &mut fmt::Formatter<W>) -> fmt::Result {
        let Told {
            end,
            version,
            chain,
            ..
        } = self.told;
        let trim = chain.trim;
        writeln!(
            f,
            "chain v={version}: the log was applied up to {end}, and nothing below {trim} is shown"
        )?;
        for (at, segment) in chain.segments.as_slice().iter().enumerate() {
            let (id, name) = (segment.id, self.name_of(segment));
            write!(f, "{id:>3} {name:<8} ")?;
            self.put_bar(f, segment)?;
            write!(f, " ")?;
            self.put_range(f, segment)?;
            self.put_closer(f, at)?;
            writeln!(f)?;
        }
        Ok(())
    }
}
