//! What a case is played on.
use anyhow::Result;
use std::alloc::Global;

/// What a case is played on: it makes one call after another.
pub trait Bench {
    /// Makes the call of this name with these words, and tells its answer, which is empty where it has none.
    fn call(&mut self, alloc: Global, name: &str, words: &[&str]) -> Result<String>;
}
