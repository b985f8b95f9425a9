//! What an item says to an engine.
ghost use Rattle.std.specs.Prelude.{◌≡◌, ◌==◌, true, false, IfOk, MatchOption, None, Some, length, is_some};
ghost use Rattle.delos_types.specs.Numbers.{u64_of};
ghost use Rattle.table_core.specs.Reading.{command_of};
ghost use Rattle.engine_api.specs.Items as reading;
ghost use Rattle.engine_api.specs.declared.content.Content as view;
ghost use Rattle.engine_steps.specs.Words as words;

use crate::layout::SESSION;
use delos_types::big_endian::{put_u16, put_u64, split_u16, split_u64};
use delos_types::bytes::Bytes;
use delos_types::item::{Header, Headers, Item};
use delos_types::numbers::{Rank, SessionId};
use engine_api::content::Content;
use engine_api::read::content_of;
use std::alloc::{AllocError, Global};

/// The session and the rank of an item that speaks to the session engine. Its payload isn't read.
pub fn session_word(item: &Item) -> Option<(SessionId, Rank)>
    ensures { MatchOption result (words.under 2 item.now ≡ None) (λ p. words.under 2 item.now ≡ Some (Content.Session p.0 p.1 (command_of item.now.payload))) }
{
    let [header] = item.headers.as_slice() else {
        return None;
    };
    if header.kind != SESSION {
        return None;
    }
    session_body(header.body.as_slice())
}

fn session_body(body: &[u8]) -> Option<(SessionId, Rank)>
    ensures { MatchOption result (reading.is_session_body body.now ≡ false) (λ p. (reading.is_session_body body.now ≡ true) × (p.0 ≡ reading.session_in body.now) × (p.1 ≡ reading.rank_in body.now)) }
{
    let (session, rest) = split_u16(body)?;
    if rest.len() != 8 {
        return None;
    }
    let (rank, _) = split_u64(rest)?;
    let session = SessionId::new(session)?;
    let rank = Rank::new(rank)?;
    Some((session, rank))
}

/// What an item says that speaks to the engine of this kind, 3 or 4.
pub fn word(alloc: Global, kind: u8, item: &Item) -> Result<Option<Content>, AllocError>
    ensures { IfOk result (λ word. word ≡ words.under kind item.now) }
{
    let [header] = item.headers.as_slice() else {
        return Ok(None);
    };
    if header.kind != kind {
        return Ok(None);
    }
    content_of(alloc, item)
}

/// The item of a rank with a payload.
pub fn ranked_item(
    alloc: Global,
    session: SessionId,
    rank: u64,
    payload: Bytes,
) -> Result<Item, AllocError>
    ensures { IfOk result (λ item. item ≡ words.ranked_item session rank payload) }
{
    let mut body = Vec::new(alloc);
    put_u16(&mut body, session.number())?;
    put_u64(&mut body, rank)?;
    let body = Bytes::from_vec(body);
    let headers = Headers::one(
        alloc,
        Header {
            kind: SESSION,
            body,
        },
    )?;
    Ok(Item { headers, payload })
}

/// Whether an item says something, to whatever engine. A command isn't read.
pub fn is_sound(alloc: Global, item: &Item) -> Result<bool, AllocError>
    ensures { IfOk result (λ sound. sound ≡ is_some (reading.content_of item.now)) }
{
    if session_word(item).is_some() {
        return Ok(true);
    }
    let [header] = item.headers.as_slice() else {
        return Ok(false);
    };
    if header.kind == SESSION {
        return Ok(false);
    }
    let content = content_of(alloc, item)?;
    Ok(content.is_some())
}
