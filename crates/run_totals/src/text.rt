//! The text of totals.
ghost use Rattle.std.specs.Prelude.{◌≡◌, ◌++◌, IfOk, OnOk, codes};
ghost use Rattle.std.specs.Fmt.{decimal, signed_decimal};
ghost use Rattle.run_totals.specs.Totals.{total_line, totals_text};

use crate::totals::Totals;
use delos_types::bytes::Bytes;
use itoa::Buffer;
use row_text::text::Text;
use std::alloc::{AllocError, Global};

fn put_line(out: &mut Text, label: &[u8], number: &[u8]) -> Result<(), AllocError>
    ensures { OnOk result (out.new ≡ out.old ++ total_line label.now number.now) }
{
    out.put(label)?;
    out.put(b" ")?;
    out.put(number)?;
    out.put(b"\n")
}

fn put_count(out: &mut Text, label: &[u8], count: u64) -> Result<(), AllocError>
    ensures { OnOk result (out.new ≡ out.old ++ total_line label.now (decimal count)) }
{
    let mut buffer = Buffer::new();
    put_line(out, label, buffer.format(count).as_bytes())
}

fn put_sum(out: &mut Text, label: &[u8], sum: i128) -> Result<(), AllocError>
    ensures { OnOk result (out.new ≡ out.old ++ total_line label.now (signed_decimal sum)) }
{
    let mut buffer = Buffer::new();
    put_line(out, label, buffer.format(sum).as_bytes())
}

/// The totals in four lines, each with its LF.
pub fn totals_text(alloc: Global, totals: &Totals) -> Result<Bytes, AllocError>
    ensures { IfOk result (λ text. text ≡ totals_text totals.now) }
{
    let mut out = Text::new(alloc);
    put_count(&mut out, b"commands", totals.commands)?;
    put_count(&mut out, b"acted", totals.acted)?;
    put_sum(&mut out, b"sum", totals.sum)?;
    put_count(&mut out, b"segments", totals.segments)?;
    Ok(out.into_bytes())
}
