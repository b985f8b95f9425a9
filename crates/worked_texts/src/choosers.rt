//! Where words come from, and what they mean for a message.
use crate::text::{name_and_rest, numbers_in, unknown};
use fate_words::chooser::{Calm, Chooser, Seeded};
use fate_words::fates::Fate;
use fate_words::words::{fate, pick};
use std::io;

/// Prints the first two words of a chooser.
fn print_words<C: Chooser>(rt: &HostRuntime, chooser: &mut C) -> io::Result<()> {
    let first = chooser.word();
    let second = chooser.word();
    println!(rt; "{first:#x} {second:#x}")
}

/// Prints the fate of a message by a word, which of several is picked, or the first words of a chooser.
pub(crate) fn show_choices(rt: &HostRuntime, input: &[&str]) -> io::Result<()> {
    for line in input {
        let (name, _) = name_and_rest(line);
        let numbers = numbers_in(rt.alloc(), line)?;
        match (name, numbers.as_slice()) {
            ("fate", [word]) => match fate(*word) {
                Fate::Deliver => println!(rt; "deliver")?,
                Fate::DeliverAndKeep => println!(rt; "deliver and keep")?,
                Fate::Lose => println!(rt; "lose")?,
            },
            ("pick", [word, count]) if *count > 0 => {
                let picked = pick(*word, *count);
                println!(rt; "{picked}")?;
            }
            ("calm", []) => print_words(rt, &mut Calm)?,
            ("seed", [seed]) => print_words(rt, &mut Seeded::new(*seed))?,
            _ => return Err(unknown()),
        }
    }
    Ok(())
}
