//! Entries and items in bytes, and bytes that are refused.
use crate::text::{print_bytes, read_bytes, unknown};
use entry_codec::{decode_entry, decode_item, encode_entry, encode_item, encode_items, item_len};
use std::io;

fn show_entry(rt: &HostRuntime, bytes: &[u8]) -> io::Result<()> {
    let alloc = rt.alloc();
    match decode_entry(alloc, bytes) {
        Ok(entry) => {
            let origin = entry.origin.number();
            println!(rt; "from node {origin}")?;
            for header in entry.headers.as_slice() {
                let kind = header.kind;
                print!(rt; "header {kind}")?;
                print_bytes(rt, ":", header.body.as_slice())?;
            }
            print_bytes(rt, "payload", entry.payload.as_slice())?;
            print_bytes(rt, "spelled", encode_entry(alloc, &entry)?.as_slice())
        }
        Err(error) => println!(rt; "{error}"),
    }
}

fn show_item(rt: &HostRuntime, bytes: &[u8]) -> io::Result<()> {
    let alloc = rt.alloc();
    match decode_item(alloc, bytes) {
        Ok(item) => {
            print_bytes(rt, "payload", item.payload.as_slice())?;
            let length = item_len(&item);
            println!(rt; "{length} bytes")?;
            print_bytes(rt, "spelled", encode_item(alloc, &item)?.as_slice())
        }
        Err(error) => println!(rt; "{error}"),
    }
}

/// Spells two items, one after the other.
fn show_two_items(rt: &HostRuntime, first: &[u8], second: &[u8]) -> io::Result<()> {
    let alloc = rt.alloc();
    let Ok(first) = decode_item(alloc, first) else {
        return Err(unknown());
    };
    let Ok(second) = decode_item(alloc, second) else {
        return Err(unknown());
    };
    let bytes = encode_items(alloc, &[first, second])?;
    print_bytes(rt, "spelled", bytes.as_slice())
}

/// Reads bytes: an `entry`, an `item`, or `two items`.
pub(crate) fn show_bytes(rt: &HostRuntime, input: &[&str]) -> io::Result<()> {
    let alloc = rt.alloc();
    match input {
        ["entry", lines @ ..] => show_entry(rt, read_bytes(alloc, lines)?.as_slice()),
        ["item", lines @ ..] => show_item(rt, read_bytes(alloc, lines)?.as_slice()),
        [_, first, second] => show_two_items(
            rt,
            read_bytes(alloc, &[*first])?.as_slice(),
            read_bytes(alloc, &[*second])?.as_slice(),
        ),
        _ => Err(unknown()),
    }
}
