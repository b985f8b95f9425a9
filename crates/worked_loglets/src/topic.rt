//! What the cases of a file are about: loglets, or parts of native ones.
use crate::bags::BagBench;
use crate::loglets::LogletBench;
use crate::plans::PlanBench;
use anyhow::Result;
use std::alloc::Global;
use worked_cases::cases::{Line, Topic, play_on};

/// What the cases of a file are about.
#[derive(Clone, Copy)]
pub enum Part {
    Loglets,
    Plans,
    Bags,
}

impl Topic for Part {
    fn name(&self) -> &'static str {
        match self {
            Part::Loglets => "loglets",
            Part::Plans => "plans",
            Part::Bags => "bags",
        }
    }

    fn play(&self, alloc: Global, with: &str, calls: &[Line]) -> Result<String> {
        match self {
            Part::Loglets => play_on(alloc, LogletBench::new(alloc), with, calls),
            Part::Plans => play_on(alloc, PlanBench, with, calls),
            Part::Bags => play_on(alloc, BagBench::new(alloc), with, calls),
        }
    }
}
