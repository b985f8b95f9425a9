//! The five engines of a node, and the cases that need some.
ghost use Rattle.std.specs.Prelude.{◌≡◌, [], ◌∷◌};

use crate::cases::Topic;
use crate::embedded::put_and_get;
use crate::stuck::Stuck;
use crate::{engines, logs, replicas};
use batch_engine::BatchEngine;
use engine_steps::engine::Engine;
use local_replica::layers::Layers;
use session_engine::SessionEngine;
use std::alloc::Global;
use table_engine::TableEngine;
use trim_engine::TrimEngine;
use view_engine::ViewEngine;

// The engines of a node.
macro_rules! engines {
    ($alloc:expr) => {{
        let mut engines: Vec<Box<dyn Engine + Send>> = Vec::new($alloc);
        engines.push(Box::new($alloc, BatchEngine::new($alloc))?)?;
        engines.push(Box::new($alloc, SessionEngine {})?)?;
        engines.push(Box::new($alloc, ViewEngine {})?)?;
        engines.push(Box::new($alloc, TrimEngine {})?)?;
        engines.push(Box::new($alloc, TableEngine {})?)?;
        engines
    }};
}

/// What comes of the lines of a case.
pub(crate) fn play(
    alloc: Global,
    topic: Topic,
    input: &[&str],
    out: &mut String,
) -> Result<(), Stuck> {
    let engines = engines!(alloc);
    play_with(alloc, engines, topic, input, out)
}

fn play_with<E: Layers>(
    alloc: Global,
    engines: E,
    topic: Topic,
    input: &[&str],
    out: &mut String,
) -> Result<(), Stuck>
    requires kinds { E.kinds engines ≡ 1 ∷ 2 ∷ 3 ∷ 4 ∷ 5 ∷ [] }
    requires waiting { E.waiting engines ≡ [] }
{
    match topic {
        Topic::Engines => engines::play(alloc, engines, input, out),
        Topic::Replicas => replicas::play(alloc, engines, input, out),
        Topic::Logs => logs::play(alloc, input, out),
    }
}

/// What a second node finds of what a first one put.
pub(crate) fn show_two(alloc: Global, out: &mut String) -> Result<(), Stuck> {
    let first = engines!(alloc);
    let second = engines!(alloc);
    put_and_get(alloc, first, second, out)
}
