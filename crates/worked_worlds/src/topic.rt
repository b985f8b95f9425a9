//! What the cases of a file are about: one cell, a world, cells in stripes, or a gate.
use crate::gates::GateBench;
use crate::worlds::WorldBench;
use anyhow::Result;
use std::alloc::Global;
use worked_cases::cases::{Line, Topic, play_on};

/// What the cases of a file are about.
#[derive(Clone, Copy)]
pub enum Part {
    Cells,
    Worlds,
    Stripes,
    Gates,
}

impl Topic for Part {
    fn name(&self) -> &'static str {
        match self {
            Part::Cells => "cells",
            Part::Worlds => "worlds",
            Part::Stripes => "stripes",
            Part::Gates => "gates",
        }
    }

    fn play(&self, alloc: Global, with: &str, calls: &[Line]) -> Result<String> {
        match self {
            Part::Gates => play_on(alloc, GateBench::new(), with, calls),
            _ => play_on(alloc, WorldBench::new(alloc)?, with, calls),
        }
    }
}
