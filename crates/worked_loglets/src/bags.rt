//! A bag of copies of messages, which come again by number.
use anyhow::{Result, bail};
use native_bag::bag::Bag;
use std::alloc::Global;
use worked_cases::bench::Bench;
use worked_cases::words::{nothing, number, silent, told};

/// A bag whose messages are numbers.
#[derive(Drop)]
pub struct BagBench {
    bag: Bag<u64>,
}

impl BagBench {
    pub fn new(alloc: Global) -> BagBench {
        BagBench {
            bag: Bag::new(alloc),
        }
    }
}

impl Bench for BagBench {
    fn call(&mut self, alloc: Global, name: &str, words: &[&str]) -> Result<String> {
        match name {
            "keep" => {
                self.bag.keep_copy(number(words)?)?;
                silent(alloc)
            }
            "drop" => {
                nothing(words)?;
                self.bag.drop_newest();
                told(alloc, self.bag.copies())
            }
            "stray" => match self.bag.stray(number(words)?) {
                Some(copy) => told(alloc, *copy),
                None => told(alloc, "none"),
            },
            _ => bail!("no call {name}"),
        }
    }
}
