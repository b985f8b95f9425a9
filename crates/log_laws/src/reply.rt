//! Replies, read back from their texts.
ghost use Rattle.std.specs.Prelude.{◌≡◌, Option, IfOk};
ghost use Rattle.table_core.specs.declared.command.Reply.{Reply};
ghost use Rattle.engine_steps.specs.Replies.{reply_text};
ghost use Rattle.log_laws.specs.Told.{IsTold, IsTextOf};
ghost use Rattle.log_laws.specs.Reading as reading;

use delos_types::bytes::Bytes;
use std::alloc::{AllocError, Global};
use table_core::command::Reply;

/// The reply whose text these bytes are; None where they are no bytes, which is what bytes that
/// spelled no command are answered, and where they are no reply's text.
pub fn read_reply(alloc: Global, text: &[u8]) -> Result<Option<Reply>, AllocError>
    ensures told { (r : Option Reply) → IsTold r → text.now ≡ reply_text r → IfOk result (λ reply. reply ≡ r) }
    ensures only { IfOk result (IsTextOf text.now) }
{
    let Some((tag, bytes)) = text.split_first() else {
        return Ok(None);
    };
    reply_with(alloc, *tag, bytes)
}

// The reply of a tag, where the bytes are what stands behind it.
fn reply_with(alloc: Global, tag: u8, bytes: &[u8]) -> Result<Option<Reply>, AllocError>
    ensures { IfOk result (λ read. read ≡ reading.reply_with tag bytes.now) }
{
    match tag {
        1 => Ok(if_whole(Reply::Done, bytes)),
        2 => Ok(if_whole(Reply::Absent, bytes)),
        3 => was_of(alloc, bytes),
        4 => Ok(number_of(bytes)),
        5 => Ok(if_whole(Reply::Full, bytes)),
        6 => Ok(if_whole(Reply::NotNumber, bytes)),
        _ => Ok(None),
    }
}

// The reply, where nothing stands behind its tag.
fn if_whole(reply: Reply, bytes: &[u8]) -> Option<Reply>
    ensures { result ≡ reading.if_whole reply bytes.now }
{
    if !bytes.is_empty() {
        return None;
    }
    Some(reply)
}

fn was_of(alloc: Global, bytes: &[u8]) -> Result<Option<Reply>, AllocError>
    ensures { IfOk result (λ read. read ≡ reading.was_of bytes.now) }
{
    let [high, low, value @ ..] = bytes else {
        return Ok(None);
    };
    let len = u16::from_be_bytes([*high, *low]);
    if len as usize != value.len() % 65536 {
        return Ok(None);
    }
    let value = Bytes::from_slice(alloc, value)?;
    Ok(Some(Reply::Was(value)))
}

fn number_of(bytes: &[u8]) -> Option<Reply>
    ensures { result ≡ reading.number_of bytes.now }
{
    let [a, b, c, d, e, f, g, h] = bytes else {
        return None;
    };
    let number = i64::from_be_bytes([*a, *b, *c, *d, *e, *f, *g, *h]);
    Some(Reply::Number(number))
}
