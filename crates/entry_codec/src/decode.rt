//! Items and entries from bytes.
ghost use Rattle.std.specs.Prelude.{◌≡◌, List, length, IfOk, Ok};
ghost use Rattle.entry_codec.specs.Format.{SpellsItem, SpellsEntry};
ghost use Rattle.entry_codec.specs.Reading.{Gives, item_read, entry_read, entry_fields};
ghost use Rattle.delos_types.specs.declared.item.Item as item_view;
ghost use Rattle.delos_types.specs.declared.entry.Entry as entry_view;

use crate::fault::{BadEntry, DecodeError, Rule};
use crate::fields::{
    end_at, headers_at, long_text_at, origin_of, short_text_at, u8_at, version_at,
};
use delos_types::entry::Entry;
use delos_types::item::Item;
use std::alloc::Global;

/// The most bytes that may spell an entry.
const MAX_ENTRY: usize = 16_384;

/// The item that all of the bytes spell. It may break the rules short, kind and long.
pub fn decode_item(alloc: Global, bytes: &[u8]) -> Result<Item, DecodeError>
    // What is read is spelled so.
    ensures found { IfOk result (SpellsItem bytes.now) }
    // What is spelled so is read, unless memory runs out.
    ensures only { (i : item_view.Item) → SpellsItem bytes.now i → Gives result (Ok i) }
    // Else the first rule that the bytes break, and where.
    ensures exact { Gives result (item_read bytes.now) }
{
    read_item(alloc, bytes)
}

/// The entry that all of the bytes spell.
pub fn decode_entry(alloc: Global, bytes: &[u8]) -> Result<Entry, DecodeError>
    // What is read is spelled so.
    ensures found { IfOk result (SpellsEntry bytes.now) }
    // What is spelled so is read, unless memory runs out.
    ensures only { (e : entry_view.Entry) → SpellsEntry bytes.now e → Gives result (Ok e) }
    // Else the first rule that the bytes break, and where.
    ensures exact { Gives result (entry_read bytes.now) }
{
    read_entry(alloc, bytes)
}

#[tactic(auto, unfolding(crate::specs::Reading::item_read, crate::specs::Reading::item_fields, delos_types::specs::Fields::ended))]
fn read_item(alloc: Global, bytes: &[u8]) -> Result<Item, DecodeError>
    ensures { Gives result (item_read bytes.now) }
{
    let size = bytes.len();
    let (headers, rest) = headers_at(alloc, size, bytes)?;
    let (payload, rest) = short_text_at(alloc, size, rest)?;
    end_at(size, rest)?;
    Ok(Item { headers, payload })
}

#[tactic(auto, unfolding(crate::specs::Reading::entry_read))]
fn read_entry(alloc: Global, bytes: &[u8]) -> Result<Entry, DecodeError>
    ensures { Gives result (entry_read bytes.now) }
{
    if bytes.len() > MAX_ENTRY {
        return Err(DecodeError::Bad(BadEntry {
            at: MAX_ENTRY,
            rule: Rule::Size,
        }));
    }
    read_fields(alloc, bytes)
}

#[tactic(auto, unfolding(crate::specs::Reading::entry_fields, delos_types::specs::Fields::ended))]
fn read_fields(alloc: Global, bytes: &[u8]) -> Result<Entry, DecodeError>
    ensures { Gives result (entry_fields (length bytes.now) bytes.now) }
{
    let size = bytes.len();
    let (_, rest) = version_at(size, bytes)?;
    let (number, rest) = u8_at(size, rest)?;
    let origin = origin_of(number)?;
    let (headers, rest) = headers_at(alloc, size, rest)?;
    let (payload, rest) = long_text_at(alloc, size, rest)?;
    end_at(size, rest)?;
    Ok(Entry {
        origin,
        headers,
        payload,
    })
}
