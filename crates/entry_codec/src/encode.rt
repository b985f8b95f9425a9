//! Items and entries in bytes.
ghost use Rattle.std.specs.Prelude.{◌≡◌, ◌<◌, ◌≤◌, ◌^◌, ◌++◌, flat_map, length, All, IfOk, OnOk};
ghost use Rattle.delos_types.specs.Spelling.{IsSpellable, IsSpellableItem, IsRisingFrom, headers_length, item_length, spelled_length};
ghost use Rattle.entry_codec.specs.Format.{SpellsItem, SpellsEntry, header_bytes, headers_bytes, item_bytes};

use delos_types::big_endian::{put_u16, put_u32};
use delos_types::bytes::Bytes;
use delos_types::entry::Entry;
use delos_types::item::{Header, Item};
use std::alloc::{AllocError, Global};

/// The one spelling of the item.
pub fn encode_item(alloc: Global, item: &Item) -> Result<Bytes, AllocError>
    requires { IsSpellableItem item.now }
    ensures { IfOk result (λ bytes. SpellsItem bytes item.now) }
{
    let mut out = Vec::with_capacity(alloc, item_len(item))?;
    put_item(&mut out, item)?;
    Ok(Bytes::from_vec(out))
}

/// The spellings of the items, one after another and nothing else.
pub fn encode_items(alloc: Global, items: &[Item]) -> Result<Bytes, AllocError>
    requires { All IsSpellableItem items.now }
    ensures { IfOk result (λ bytes. bytes ≡ flat_map item_bytes items.now) }
{
    let mut out = Vec::with_capacity(alloc, items_len(items))?;
    for item in items {
        put_item(&mut out, item)?;
    }
    Ok(Bytes::from_vec(out))
}

// How much room the items take.
fn items_len(items: &[Item]) -> usize
    requires { All IsSpellableItem items.now }
{
    let mut len: usize = 0;
    for item in items {
        len = len.saturating_add(item_len(item));
    }
    len
}

/// How many bytes spell the item.
pub fn item_len(item: &Item) -> usize
    requires { IsSpellableItem item.now }
    ensures { result ≡ item_length item.now }
{
    3 + headers_len(item.headers.as_slice()) + item.payload.len()
}

/// The one spelling of the entry.
pub fn encode_entry(alloc: Global, entry: &Entry) -> Result<Bytes, AllocError>
    requires { IsSpellable entry.now }
    ensures { IfOk result (λ bytes. SpellsEntry bytes entry.now) }
{
    let headers = entry.headers.as_slice();
    let payload = entry.payload.as_slice();
    let mut out = Vec::with_capacity(alloc, 7 + headers_len(headers) + payload.len())?;
    out.push(1)?;
    out.push(entry.origin.number())?;
    put_headers(&mut out, headers)?;
    put_u32(&mut out, payload.len() as u32)?;
    out.extend_from_slice(payload)?;
    Ok(Bytes::from_vec(out))
}

fn put_item(out: &mut Vec<u8>, item: &Item) -> Result<(), AllocError>
    requires { IsSpellableItem item.now }
    ensures { OnOk result (out.new.items ≡ out.old.items ++ item_bytes item.now) }
{
    let payload = item.payload.as_slice();
    put_headers(out, item.headers.as_slice())?;
    put_u16(out, payload.len() as u16)?;
    out.extend_from_slice(payload)?;
    Ok(())
}

// The number of the headers, and the headers.
fn put_headers(out: &mut Vec<u8>, headers: &[Header]) -> Result<(), AllocError>
    requires rising { IsRisingFrom 1 headers.now }
    requires bodies { All (λ h. length h.body < 2 ^ 16) headers.now }
    ensures { OnOk result (out.new.items ≡ out.old.items ++ headers_bytes headers.now) }
{
    out.push(headers.len() as u8)?;
    for header in headers {
        put_header(out, header)?;
    }
    Ok(())
}

fn put_header(out: &mut Vec<u8>, header: &Header) -> Result<(), AllocError>
    requires { length header.now.body < 2 ^ 16 }
    ensures { OnOk result (out.new.items ≡ out.old.items ++ header_bytes header.now) }
{
    out.push(header.kind)?;
    put_u16(out, header.body.len() as u16)?;
    out.extend_from_slice(header.body.as_slice())?;
    Ok(())
}

// How many bytes spell the headers.
fn headers_len(headers: &[Header]) -> usize
    requires { headers_length headers.now < 2 ^ 32 }
    ensures { result ≡ headers_length headers.now }
{
    let mut len = 0;
    for header in headers {
        len += 3 + header.body.len();
    }
    len
}
