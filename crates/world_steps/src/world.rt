//! The world, and lists of steps.
ghost use Rattle.std.specs.Prelude.{◌≡◌, ◌<◌, ◌≤◌, ◌^◌, [], ◌∷◌, ◌++◌, length, slice_get, option_map, All, IfOk, OnOk, OnErr};
ghost use Rattle.world_steps.specs.Parts.{fresh};
ghost use Rattle.world_steps.specs.Steps.{world_step, run_world};
ghost use Rattle.world_steps.specs.Laws.{IsShaped, BringsSpelled};

use crate::cell::WorldCell;
use crate::node::NodeState;
use crate::parts::Parts;
use crate::register::RegisterState;
use crate::shape::Shape;
use crate::step::WorldStep;
use legal_journal::events::Event;
use std::alloc::{AllocError, Global};
use std::marker::Model;

/// The shapes of the cells that a world begins with.
#[derive(Drop)]
pub struct Shelf {
    shapes: Vec<Shape>,
}

impl Model for Shelf {
    ghost use Rattle.std.specs.Prelude.{List, All};
    ghost use Rattle.world_steps.specs.declared.shape.Shape.{Shape};
    ghost use Rattle.world_steps.specs.Laws.{IsShaped};

    ghost Value = { List Shape };

    ghost view = { λ s. s.shapes.items };

    ghost invariant = { λ s. All IsShaped s.shapes.items };
}

impl Shelf {
    /// A shelf of no cells.
    pub fn new(alloc: Global) -> Shelf
        ensures { result ≡ [] }
    {
        Shelf {
            shapes: Vec::new(alloc),
        }
    }

    /// One more cell.
    pub fn add(&mut self, shape: Shape) -> Result<(), AllocError>
        requires { IsShaped shape }
        ensures ok { OnOk result (self.new ≡ self.old ++ shape ∷ []) }
        ensures err { OnErr result (self.new ≡ self.old) }
    {
        self.shapes.push(shape)?;
        Ok(())
    }

    /// Their shapes.
    fn as_slice(&self) -> &[Shape]
        ensures value { result.now ≡ self.now }
        ensures shaped { All IsShaped result.now }
    {
        self.shapes.as_slice()
    }

    /// How many cells it has.
    pub fn len(&self) -> usize
        ensures { result ≡ length self.now }
    {
        self.shapes.len()
    }
}

/// A world that meets the law of worlds.
#[derive(Drop)]
pub struct World {
    parts: Parts,
}

impl Model for World {
    ghost use Rattle.world_steps.specs.Parts.{World as WorldOf};
    ghost use Rattle.world_steps.specs.Laws.{WorldLaw, any_append, any_trim};

    ghost Value = { WorldOf };

    ghost view = { λ w. w.parts };

    ghost invariant = { λ w. WorldLaw any_append any_trim w.parts };
}

impl World {
    /// A world of new cells of these shapes and of so many nodes, in which nothing happened.
    pub fn new(alloc: Global, shelf: &Shelf, nodes: u32) -> Result<World, AllocError>
        requires { (0 < length shelf.now) × (length shelf.now ≤ 64) }
        ensures { IfOk result (λ made. made ≡ fresh shelf.now nodes) }
    {
        let shapes = shelf.as_slice();
        let parts = new_parts(alloc, shapes, nodes)?;
        Ok(World { parts })
    }

    /// The cell of this number.
    pub fn cell(&self, number: u32) -> Option<&WorldCell>
        ensures { option_map (λ cell. cell.now) result ≡ slice_get self.now.cells number }
    {
        self.parts.cells.get(number as usize)
    }

    /// The register of the chain.
    pub fn register(&self) -> &RegisterState
        ensures { result.now ≡ self.now.register }
    {
        &self.parts.register
    }

    /// The node of this number.
    pub fn node(&self, number: u32) -> Option<&NodeState>
        ensures { option_map (λ node. node.now) result ≡ slice_get self.now.nodes number }
    {
        self.parts.nodes.get(number as usize)
    }

    /// What clients asked, and what they were told.
    pub fn events(&self) -> &[Event]
        ensures { result.now ≡ self.now.events }
    {
        self.parts.events.as_slice()
    }
}

/// The parts of a world of cells of these shapes.
fn new_parts(alloc: Global, shapes: &[Shape], nodes: u32) -> Result<Parts, AllocError>
    requires { All IsShaped shapes.now }
    ensures { IfOk result (λ made. made ≡ fresh shapes.now nodes) }
{
    let cells = new_cells(alloc, shapes)?;
    let register = RegisterState::new(alloc)?;
    let nodes = vec![in alloc; NodeState::new(alloc); nodes as usize]?;
    Ok(Parts {
        cells,
        register,
        nodes,
        events: Vec::new(alloc),
    })
}

/// The cells that a world begins with.
fn new_cells(alloc: Global, shapes: &[Shape]) -> Result<Vec<WorldCell>, AllocError>
    requires { All IsShaped shapes.now }
    ensures { IfOk result (λ made. made.items ≡ (fresh shapes.now 0).cells) }
{
    let mut cells = Vec::new(alloc);
    for shape in shapes {
        cells.push(WorldCell::new(alloc, *shape)?)?;
    }
    Ok(cells)
}

/// The world after one step. It copies the world.
pub fn step(alloc: Global, world: &World, step: &WorldStep) -> Result<World, AllocError>
    requires { BringsSpelled step.now }
    ensures { IfOk result (λ after. after ≡ world_step world.now step.now) }
{
    let mut parts = world.parts.copied(alloc)?;
    parts.take_step(alloc, step)?;
    Ok(World { parts })
}

/// The world after these steps, one after another. It copies the world once.
pub fn run_steps(alloc: Global, world: &World, steps: &[WorldStep]) -> Result<World, AllocError>
    requires { All BringsSpelled steps.now }
    ensures { IfOk result (λ after. after ≡ run_world steps.now world.now) }
{
    let mut parts = world.parts.copied(alloc)?;
    for step in steps {
        parts.take_step(alloc, step)?;
    }
    Ok(World { parts })
}
