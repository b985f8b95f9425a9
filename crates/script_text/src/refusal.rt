//! The text of a refused script.
ghost use Rattle.std.specs.Prelude.{◌≡◌, IfOk};
ghost use Rattle.script_text.specs.Refusal.{rule_text, refusal_text};

use crate::line::Rule;
use crate::script::BadLine;
use delos_types::bytes::Bytes;
use row_text::text::Text;
use std::alloc::{AllocError, Global};

/// The words of a rule.
pub fn rule_text(rule: Rule) -> &'static str
    ensures { result.now ≡ rule_text rule }
{
    match rule {
        Rule::ScriptTooLong => "script too long",
        Rule::TooManyLines => "too many lines",
        Rule::TooLong => "too long",
        Rule::Byte => "byte",
        Rule::Spaces => "spaces",
        Rule::Word => "word",
        Rule::Count => "count",
        Rule::Node => "node",
        Rule::Session => "session",
        Rule::Number => "number",
        Rule::Key => "key",
        Rule::Value => "value",
        Rule::Retired => "retired",
        Rule::Moved => "moved",
        Rule::Sessions => "sessions",
    }
}

/// `line N: RULE` and LF.
pub fn refusal_text(alloc: Global, bad: BadLine) -> Result<Bytes, AllocError>
    ensures { IfOk result (λ text. text ≡ refusal_text bad) }
{
    let mut out = Text::new(alloc);
    out.put(b"line ")?;
    out.number(bad.n)?;
    out.put(b": ")?;
    out.put(rule_text(bad.rule).as_bytes())?;
    out.put(b"\n")?;
    Ok(out.into_bytes())
}
