//! Lists of steps of a world, and the places where they are taken.
ghost use Rattle.std.specs.Prelude.{All};
ghost use Rattle.world_steps.specs.Laws.{BringsSpelled};

use anyhow::{Result, bail};
use quorum_cell::operation::CellStep;
use std::alloc::{AllocError, Global};
use std::marker::Model;
use striped_cells::motion::Motion;
use world_steps::step::{Path, WorldStep};

/// A cell, and a path of stripes down from it.
#[derive(Clone, PartialEq, Drop)]
pub struct Place {
    pub cell: u32,
    pub path: Vec<u32>,
}

impl Place {
    /// `2` is cell 2, and `2.1.0` is stripe 0 of its stripe 1.
    pub fn parse(alloc: Global, word: &str) -> Result<Place> {
        let mut numbers = word.split('.');
        let cell = match numbers.next() {
            Some(number) => number.parse::<u32>()?,
            None => bail!("a cell is wanted"),
        };
        let mut path = Vec::new(alloc);
        for number in numbers {
            path.push(number.parse::<u32>()?)?;
        }
        Ok(Place { cell, path })
    }
}

/// Steps one after another: their entries are ones that some bytes spell.
#[derive(Drop)]
pub struct Steps {
    items: Vec<WorldStep>,
}

impl Model for Steps {
    ghost use Rattle.std.specs.Prelude.{List, All};
    ghost use Rattle.world_steps.specs.declared.step.WorldStep.{WorldStep};
    ghost use Rattle.world_steps.specs.Laws.{BringsSpelled};

    ghost Value = { List WorldStep };

    ghost view = { λ s. s.items.items };

    ghost invariant = { λ s. All BringsSpelled s.items.items };
}

impl Steps {
    pub fn new(alloc: Global) -> Steps {
        Steps {
            items: Vec::new(alloc),
        }
    }

    pub fn push(&mut self, step: WorldStep) -> Result<(), AllocError>
        requires { BringsSpelled step }
    {
        self.items.push(step)?;
        Ok(())
    }

    /// Something moves at a place.
    pub fn stir(&mut self, alloc: Global, place: &Place, motion: Motion) -> Result<(), AllocError> {
        let mut path = Path::new(alloc);
        for stripe in &place.path {
            path.push(*stripe)?;
        }
        self.push(WorldStep::Inside {
            cell: place.cell,
            path,
            motion,
        })
    }

    /// Something moves in the quorum cell at a place.
    pub fn inside(
        &mut self,
        alloc: Global,
        place: &Place,
        step: CellStep,
    ) -> Result<(), AllocError> {
        self.stir(alloc, place, Motion::Servers(step))
    }

    pub fn as_slice(&self) -> &[WorldStep]
        ensures { All BringsSpelled result.now }
    {
        self.items.as_slice()
    }
}
