//! Scripts that are made of a seed.
use crate::text::{numbers_in, text_of, unknown};
use made_script::make::make_script;
use std::io;

/// Makes scripts, and prints them whole or one line of them.
pub(crate) fn show_made(rt: &HostRuntime, input: &[&str]) -> io::Result<()> {
    let alloc = rt.alloc();
    for line in input {
        let numbers = numbers_in(alloc, line)?;
        let [seed, count, nodes, asked @ ..] = numbers.as_slice() else {
            return Err(unknown());
        };
        if *seed > 0xffff_ffff || *count > 15_000 || *nodes < 1 || *nodes > 8 {
            return Err(unknown());
        }
        let script = make_script(alloc, *seed as u32, *count as u16, *nodes as u8)?;
        let script = text_of(script.as_slice())?;
        match asked {
            [] => print!(rt; "{script}")?,
            [number, ..] => match script.lines().nth(number.saturating_sub(1) as usize) {
                Some(line) => println!(rt; "{line}")?,
                None => return Err(unknown()),
            },
        }
    }
    Ok(())
}
