//! Replies in bytes, read back.
use crate::tables::print_reply;
use crate::text::{print_bytes, read_bytes};
use engine_steps::reply::reply_text;
use log_laws::reply::read_reply;
use std::io;

/// Reads a reply in bytes, and spells what was read.
pub(crate) fn show_reply(rt: &HostRuntime, input: &[&str]) -> io::Result<()> {
    let alloc = rt.alloc();
    let bytes = read_bytes(alloc, input)?;
    match read_reply(alloc, bytes.as_slice())? {
        None => println!(rt; "no reply"),
        Some(reply) => {
            print_reply(rt, &reply)?;
            let spelled = reply_text(alloc, Some(&reply))?;
            print_bytes(rt, "spelled", spelled.as_slice())
        }
    }
}
