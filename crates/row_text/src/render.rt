//! The text of a run.
ghost use Rattle.std.specs.Prelude.{◌≡◌, ◌<◌, ◌++◌, OnOk, IfOk, length, All, map, codes};
ghost use Rattle.std.specs.List.{flat_map};
ghost use Rattle.row_text.specs.Output.{reply_text, logged_text, pair_text, pairs_text, found_text, who_text, cause_text, late_text, place_text, extended_text, outcome_text, row_text, head_text, end_text, segment_text, down_text, output};

use crate::row::{Outcome, Row, Rows, Who};
use crate::text::Text;
use delos_types::bytes::Bytes;
use delos_types::cause::Cause;
use delos_types::chain::{Chain, Segment};
use delos_types::place::Place;
use std::alloc::{AllocError, Global};
use table_core::command::{Found, Pair, Reply};

fn put_reply(out: &mut Text, reply: &Reply) -> Result<(), AllocError>
    ensures { OnOk result (out.new ≡ out.old ++ reply_text reply.now) }
{
    match reply {
        Reply::Done => out.put(b"ok"),
        Reply::Absent => out.put(b"none"),
        Reply::Was(value) => {
            out.put(b"was ")?;
            out.put(value.as_slice())
        }
        Reply::Number(z) => {
            out.put(b"= ")?;
            out.signed(*z)
        }
        Reply::Full => out.put(b"full"),
        Reply::NotNumber => out.put(b"text"),
    }
}

fn put_logged(out: &mut Text, reply: &Option<Reply>) -> Result<(), AllocError>
    ensures { OnOk result (out.new ≡ out.old ++ logged_text reply.now) }
{
    match reply {
        Some(reply) => put_reply(out, reply),
        None => out.put(b""),
    }
}

fn put_pair(out: &mut Text, pair: &Pair) -> Result<(), AllocError>
    ensures { OnOk result (out.new ≡ out.old ++ pair_text pair.now) }
{
    out.put(pair.key.as_slice())?;
    out.put(b"=")?;
    out.put(pair.value.as_slice())
}

fn put_spaced(out: &mut Text, pair: &Pair) -> Result<(), AllocError>
    ensures { OnOk result (out.new ≡ out.old ++ (codes " " ++ pair_text pair.now)) }
{
    out.put(b" ")?;
    put_pair(out, pair)
}

fn put_others(out: &mut Text, pairs: &[Pair]) -> Result<(), AllocError>
    ensures { OnOk result (out.new ≡ out.old ++ flat_map (λ q. codes " " ++ pair_text q) pairs.now) }
{
    for pair in pairs {
        put_spaced(out, pair)?;
    }
    Ok(())
}

fn put_pairs(out: &mut Text, pairs: &[Pair]) -> Result<(), AllocError>
    ensures { OnOk result (out.new ≡ out.old ++ pairs_text pairs.now) }
{
    match pairs {
        [] => out.put(b""),
        [first, others @ ..] => {
            put_pair(out, first)?;
            put_others(out, others)
        }
    }
}

fn put_found(out: &mut Text, found: &Found) -> Result<(), AllocError>
    ensures { OnOk result (out.new ≡ out.old ++ found_text found.now) }
{
    match found {
        Found::Nothing => out.put(b"none"),
        Found::Value(value) => {
            out.put(b"= ")?;
            out.put(value.as_slice())
        }
        Found::All(pairs) => {
            out.put(b"[")?;
            put_pairs(out, pairs.as_slice())?;
            out.put(b"]")
        }
    }
}

fn put_who(out: &mut Text, who: &Who) -> Result<(), AllocError>
    ensures { OnOk result (out.new ≡ out.old ++ who_text who.now) }
{
    match who {
        Who::Session(name) => out.put(name.as_slice()),
        Who::Node(node) => {
            out.put(b"n")?;
            out.number(u64::from(node.number()))
        }
    }
}

fn put_cause(out: &mut Text, cause: Cause) -> Result<(), AllocError>
    ensures { OnOk result (out.new ≡ out.old ++ cause_text cause) }
{
    match cause {
        Cause::NoQuorum { id, unreached } => {
            out.put(b"no-quorum ")?;
            out.number(u64::from(id))?;
            out.put(b" ")?;
            out.number(u64::from(unreached))
        }
        Cause::Full { id } => {
            out.put(b"full ")?;
            out.number(u64::from(id))
        }
        Cause::Meta => out.put(b"meta"),
        Cause::Store => out.put(b"store"),
    }
}

fn put_late(out: &mut Text, late: bool) -> Result<(), AllocError>
    ensures { OnOk result (out.new ≡ out.old ++ late_text late) }
{
    if late {
        out.put(b" late")
    } else {
        out.put(b"")
    }
}

fn put_place(out: &mut Text, place: Place) -> Result<(), AllocError>
    ensures { OnOk result (out.new ≡ out.old ++ place_text place) }
{
    out.put(b"@")?;
    out.number(place.pos)?;
    out.put(b".")?;
    out.number(u64::from(place.sub))
}

fn put_extended(out: &mut Text, version: u64, start: u64) -> Result<(), AllocError>
    ensures { OnOk result (out.new ≡ out.old ++ extended_text version start) }
{
    out.labelled(b"extended v=", version)?;
    out.labelled(b" at ", start)
}

fn put_outcome(out: &mut Text, outcome: &Outcome) -> Result<(), AllocError>
    ensures { OnOk result (out.new ≡ out.old ++ outcome_text outcome.now) }
{
    match outcome {
        Outcome::Placed { place, reply, late } => {
            put_place(out, *place)?;
            out.put(b" ")?;
            put_logged(out, reply)?;
            put_late(out, *late)
        }
        Outcome::Read { after, found } => {
            out.put(b">")?;
            out.number(*after)?;
            out.put(b" ")?;
            put_found(out, found)
        }
        Outcome::Extended { version, start } => put_extended(out, *version, *start),
        Outcome::Moved { version } => out.labelled(b"moved v=", *version),
        Outcome::NoSpare => out.put(b"no-spare"),
        Outcome::Alive { clean } => out.labelled(b"alive ", *clean),
        Outcome::Trimmed { trim } => out.labelled(b"trim ", *trim),
        Outcome::Retired => out.put(b"retired"),
        Outcome::Open { cause } => {
            out.put(b"open ")?;
            put_cause(out, *cause)
        }
    }
}

fn end_line(out: &mut Text) -> Result<(), AllocError>
    ensures { OnOk result (out.new ≡ out.old ++ codes "\n") }
{
    out.put(b"\n")
}

fn put_row(out: &mut Text, row: &Row) -> Result<(), AllocError>
    ensures { OnOk result (out.new ≡ out.old ++ row_text row.now) }
{
    out.number(row.number)?;
    out.put(b" ")?;
    put_who(out, &row.who)?;
    out.put(b" ")?;
    put_outcome(out, &row.outcome)?;
    end_line(out)
}

fn put_rows(out: &mut Text, rows: &[Row]) -> Result<(), AllocError>
    ensures { OnOk result (out.new ≡ out.old ++ flat_map row_text rows.now) }
{
    for row in rows {
        put_row(out, row)?;
    }
    Ok(())
}

fn put_head(out: &mut Text, end: u64, version: u64, trim: u64) -> Result<(), AllocError>
    ensures { OnOk result (out.new ≡ out.old ++ head_text end version trim) }
{
    out.put(b"end ")?;
    out.number(end)?;
    out.put(b"\nchain v=")?;
    out.number(version)?;
    out.put(b" trim=")?;
    out.number(trim)?;
    out.put(b"\n")
}

fn put_end(out: &mut Text, end: Option<u64>) -> Result<(), AllocError>
    ensures { OnOk result (out.new ≡ out.old ++ end_text end) }
{
    match end {
        Some(end) => out.number(end),
        None => out.put(b"open"),
    }
}

fn put_segment(out: &mut Text, kinds: &[&str], segment: &Segment) -> Result<(), AllocError>
    requires { segment.now.id < length kinds.now }
    ensures { OnOk result (out.new ≡ out.old ++ segment_text (map (λ k. k.now) kinds.now) segment.now) }
{
    out.put(b"seg ")?;
    out.number(u64::from(segment.id))?;
    out.put(b" ")?;
    out.put(kinds[segment.id as usize].as_bytes())?;
    out.put(b" ")?;
    out.number(segment.start)?;
    out.put(b" ")?;
    put_end(out, segment.end)?;
    out.put(b"\n")
}

fn put_segments(out: &mut Text, kinds: &[&str], segments: &[Segment]) -> Result<(), AllocError>
    requires { All (λ s. s.id < length kinds.now) segments.now }
    ensures { OnOk result (out.new ≡ out.old ++ flat_map (segment_text (map (λ k. k.now) kinds.now)) segments.now) }
{
    for segment in segments {
        put_segment(out, kinds, segment)?;
    }
    Ok(())
}

fn put_down(out: &mut Text, down: bool) -> Result<(), AllocError>
    ensures { OnOk result (out.new ≡ out.old ++ down_text down) }
{
    if down {
        out.put(b"meta down\n")
    } else {
        out.put(b"")
    }
}

/// The whole text of a run: its rows, its end position, the chain with its version and its segments,
/// and whether the register of the chain is down. `kinds` has the names of the shelf's kinds of
/// loglet, in order.
pub fn render(
    alloc: Global,
    rows: &Rows,
    end: u64,
    version: u64,
    chain: &Chain,
    down: bool,
    kinds: &[&str],
) -> Result<Bytes, AllocError>
    requires { All (λ s. s.id < length kinds.now) chain.now.segments }
    ensures { IfOk result (λ text. text ≡ output rows.now end version chain.now down (map (λ k. k.now) kinds.now)) }
{
    let mut out = Text::new(alloc);
    put_rows(&mut out, rows.as_slice())?;
    put_head(&mut out, end, version, chain.trim)?;
    put_segments(&mut out, kinds, chain.segments.as_slice())?;
    put_down(&mut out, down)?;
    Ok(out.into_bytes())
}
