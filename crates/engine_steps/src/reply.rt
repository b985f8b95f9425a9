//! Replies in bytes.
ghost use Rattle.std.specs.Prelude.{◌≡◌, IfOk};
ghost use Rattle.std.specs.Option.{option_copied};
ghost use Rattle.engine_steps.specs.Replies as replies;

use delos_types::bytes::Bytes;
use std::alloc::{AllocError, Global};
use table_core::command::Reply;

/// The bytes of a reply; none where a payload spelled no command.
pub fn reply_text(alloc: Global, reply: Option<&Reply>) -> Result<Bytes, AllocError>
    ensures { IfOk result (λ bytes. bytes ≡ replies.reply_text (option_copied reply.entry)) }
{
    match reply {
        None => Ok(Bytes::new(alloc)),
        Some(reply) => reply_bytes(alloc, reply),
    }
}

fn reply_bytes(alloc: Global, reply: &Reply) -> Result<Bytes, AllocError>
    ensures { IfOk result (λ bytes. bytes ≡ replies.reply_bytes reply.now) }
{
    match reply {
        Reply::Done => Bytes::from_slice(alloc, &[1]),
        Reply::Absent => Bytes::from_slice(alloc, &[2]),
        Reply::Was(value) => was_bytes(alloc, value),
        Reply::Number(number) => number_bytes(alloc, *number),
        Reply::Full => Bytes::from_slice(alloc, &[5]),
        Reply::NotNumber => Bytes::from_slice(alloc, &[6]),
    }
}

#[tactic(auto, unfolding(delos_types::specs::Numbers::u16_bytes))]
fn was_bytes(alloc: Global, value: &Bytes) -> Result<Bytes, AllocError>
    ensures { IfOk result (λ bytes. bytes ≡ replies.reply_bytes (Reply.Was value.now)) }
{
    let size = ((value.len() % 65536) as u16).to_be_bytes();
    let mut bytes = Bytes::from_slice(alloc, &[3, size[0], size[1]])?;
    bytes.extend_from_slice(value.as_slice())?;
    Ok(bytes)
}

fn number_bytes(alloc: Global, number: i64) -> Result<Bytes, AllocError>
    ensures { IfOk result (λ bytes. bytes ≡ replies.reply_bytes (Reply.Number number)) }
{
    let n = number.to_be_bytes();
    Bytes::from_slice(alloc, &[4, n[0], n[1], n[2], n[3], n[4], n[5], n[6], n[7]])
}
