//! One engine takes the items of an entry in order, and is told their replies.
ghost use Rattle.std.specs.Prelude.{◌≡◌, ℕ, true, List, ◌++◌, map, IfOk, OnOk};
ghost use Rattle.delos_types.specs.declared.place.Place.{Place};
ghost use Rattle.engine_steps.specs.Hearing.{own};
ghost use Rattle.engine_steps.specs.Steps.{UpStep, BackStep};
ghost use Rattle.engine_steps.specs.declared.engine.Up.{Up};
ghost use Rattle.log_laws.specs.Rises.{Level, Hears, passed, answered, at_place};
ghost use Rattle.log_laws.specs.declared.rising.Told.{Told};

use delos_types::item::{Item, ItemList};
use delos_types::place::Place;
use delos_types::space::Space;
use engine_steps::engine::{Engine, Up};
use log_laws::rising::{Rising, Told};
use std::alloc::{AllocError, Global};
use std::collections::VecDeque;

/// The engine takes the items in order: answers what goes on up, and adds the replies to `told`. It
/// knows the space, and goes on knowing it. Nothing is copied.
pub fn level(
    engine: &mut Box<dyn Engine + Send>,
    alloc: Global,
    space: &mut dyn Space,
    items: VecDeque<Rising>,
    told: &mut Vec<Told>,
) -> Result<VecDeque<Rising>, AllocError>
    requires known { knows engine.old (own (kind_of engine.old) (contents space.old)) ≡ true }
    ensures step { IfOk result (λ outs. (more : List Told) × Level (kind_of engine.old) (contents space.old) items.items outs.items more (contents space.new) × (told.new.items ≡ told.old.items ++ more)) }
    ensures known { OnOk result (knows engine.new (own (kind_of engine.new) (contents space.new)) ≡ true) }
    ensures posted { (places : List Place) → posted engine.old places → posted engine.new places }
    ensures kind { kind_of engine.new ≡ kind_of engine.old }
    ensures kept { kept engine.new ≡ kept engine.old }
    ensures beginning { beginning space.new ≡ beginning space.old }
{
    let mut items = items;
    let mut outs = VecDeque::with_capacity(alloc, items.len())?;
    while let Some(x) = items.pop_front() {
        up_one(engine, alloc, space, x, &mut outs, told)?;
    }
    Ok(outs)
}

// What an engine makes of one item goes to `outs` or `told`.
fn up_one(
    engine: &mut Box<dyn Engine + Send>,
    alloc: Global,
    space: &mut dyn Space,
    x: Rising,
    outs: &mut VecDeque<Rising>,
    told: &mut Vec<Told>,
) -> Result<(), AllocError>
    requires known { knows engine.old (own (kind_of engine.old) (contents space.old)) ≡ true }
    ensures step { OnOk result ((up : Up) × UpStep (kind_of engine.old) (contents space.old) x.place x.item up (contents space.new) × (outs.new.items ≡ outs.old.items ++ passed x up) × (told.new.items ≡ told.old.items ++ answered x up)) }
    ensures known { OnOk result (knows engine.new (own (kind_of engine.new) (contents space.new)) ≡ true) }
    ensures posted { (places : List Place) → posted engine.old places → posted engine.new places }
    ensures kind { kind_of engine.new ≡ kind_of engine.old }
    ensures kept { kept engine.new ≡ kept engine.old }
    ensures beginning { beginning space.new ≡ beginning space.old }
{
    match up_at(engine, alloc, space, x.place, &x.item)? {
        Up::Pass(behind) => {
            let place = x.place;
            outs.push_back(x)?;
            pass_on(place, behind, outs)?;
            Ok(())
        }
        Up::Stop => Ok(()),
        Up::Answer(reply) => {
            let Rising { place, item } = x;
            told.push(Told { place, item, reply })?;
            Ok(())
        }
    }
}

fn up_at(
    engine: &mut Box<dyn Engine + Send>,
    alloc: Global,
    space: &mut dyn Space,
    place: Place,
    item: &Item,
) -> Result<Up, AllocError>
    requires known { knows engine.old (own (kind_of engine.old) (contents space.old)) ≡ true }
    ensures step { IfOk result (λ up. UpStep (kind_of engine.old) (contents space.old) place item.now up (contents space.new)) }
    ensures known { OnOk result (knows engine.new (own (kind_of engine.new) (contents space.new)) ≡ true) }
    ensures posted { (places : List Place) → posted engine.old places → posted engine.new places }
    ensures kind { kind_of engine.new ≡ kind_of engine.old }
    ensures kept { kept engine.new ≡ kept engine.old }
    ensures beginning { beginning space.new ≡ beginning space.old }
{
    let up = engine.up(alloc, space, place, item)?;
    Ok(up)
}

fn pass_on(place: Place, behind: ItemList, outs: &mut VecDeque<Rising>) -> Result<(), AllocError>
    ensures { OnOk result (outs.new.items ≡ outs.old.items ++ map (at_place place) behind) }
{
    for item in behind.into_vec() {
        outs.push_back(Rising { place, item })?;
    }
    Ok(())
}

/// The engine is told the replies in order. It knows the space, and goes on knowing it.
pub fn hear(
    engine: &mut Box<dyn Engine + Send>,
    alloc: Global,
    space: &mut dyn Space,
    told: &[Told],
) -> Result<(), AllocError>
    requires known { knows engine.old (own (kind_of engine.old) (contents space.old)) ≡ true }
    ensures step { OnOk result (Hears (kind_of engine.old) (contents space.old) told.now (contents space.new)) }
    ensures known { OnOk result (knows engine.new (own (kind_of engine.new) (contents space.new)) ≡ true) }
    ensures posted { (places : List Place) → posted engine.old places → posted engine.new places }
    ensures kind { kind_of engine.new ≡ kind_of engine.old }
    ensures kept { kept engine.new ≡ kept engine.old }
    ensures beginning { beginning space.new ≡ beginning space.old }
{
    for t in told {
        back_at(engine, alloc, space, t)?;
    }
    Ok(())
}

fn back_at(
    engine: &mut Box<dyn Engine + Send>,
    alloc: Global,
    space: &mut dyn Space,
    t: &Told,
) -> Result<(), AllocError>
    requires known { knows engine.old (own (kind_of engine.old) (contents space.old)) ≡ true }
    ensures step { OnOk result (BackStep (kind_of engine.old) (contents space.old) t.now.place t.now.item t.now.reply (contents space.new)) }
    ensures known { OnOk result (knows engine.new (own (kind_of engine.new) (contents space.new)) ≡ true) }
    ensures posted { (places : List Place) → posted engine.old places → posted engine.new places }
    ensures kind { kind_of engine.new ≡ kind_of engine.old }
    ensures kept { kept engine.new ≡ kept engine.old }
    ensures beginning { beginning space.new ≡ beginning space.old }
{
    engine.back(alloc, space, t.place, &t.item, t.reply.as_slice())
}
