//! Shelves of one loglet and of three.
ghost use Rattle.loglet_api.specs.Sound.{IsSound};
ghost use Rattle.loglet_api.specs.declared.call.Kind.TheVariants.{File};
ghost use Rattle.loglet_api.specs.View.{IsFresh};
ghost use Rattle.register_api.specs.View as view;
ghost use Rattle.std.specs.Prelude.{◌≡◌, [], IfSome};

use disk_model::{FailDisk, MemDisk};
use fabric_core::fabric::Fabric;
use fabric_core::own::Own;
use fate_words::chooser::Calm;
use file_loglet::file::FileLoglet;
use file_loglet::memory::in_memory;
use legal_journal::rules::Rules;
use loglet_api::loglet::Loglet;
use meta_register::MetaRegister;
use std::alloc::Global;
use virtual_log::log::VirtualLog;

/// Who may append anything and trim everything, over a shelf of one cell with one server.
#[derive(Drop)]
pub(crate) struct Anyone;

impl Rules for Anyone {
    ghost use Rattle.std.specs.Prelude.{[], ◌∷◌, ◌^◌, ◌≤◌};
    ghost use Rattle.loglet_api.specs.declared.call.Kind.TheVariants.{File};

    ghost law = { record { may = λ _ _. Unit {0}; floor = λ _ n. n ≤ 2 ^ 38; shelf = 1 ∷ [] } };

    ghost seals = { λ _. Unit {0} };

    ghost kinds = { File ∷ [] };
}

/// Who may append anything and trim everything, over a shelf of three cells with one server each.
#[derive(Drop)]
pub(crate) struct Free;

impl Rules for Free {
    ghost use Rattle.std.specs.Prelude.{[], ◌∷◌, ◌^◌, ◌≤◌};
    ghost use Rattle.loglet_api.specs.declared.call.Kind.TheVariants.{File};

    ghost law = { record { may = λ _ _. Unit {0}; floor = λ _ n. n ≤ 2 ^ 38; shelf = 1 ∷ 1 ∷ 1 ∷ [] } };

    ghost seals = { λ _. Unit {0} };

    ghost kinds = { File ∷ File ∷ File ∷ [] };
}

/// A file loglet on a disk in memory.
pub(crate) type Cell = FileLoglet<MemDisk>;

/// A register on a disk in memory some of whose calls fail.
pub(crate) type Register = MetaRegister<FailDisk>;

/// A register to which nothing was written, on a disk of which those calls fail.
pub(crate) fn fresh_register(alloc: Global, failing: Vec<u64>) -> Option<Register>
    ensures { IfSome result (λ made. view.IsFresh made.register) }
{
    match MetaRegister::open_on(alloc, FailDisk::new(MemDisk::new(alloc), failing)) {
        Ok(register) => Some(register),
        Err(_) => None,
    }
}

/// A virtual log of one user over one loglet, with no event.
pub(crate) fn log_on_one(alloc: Global) -> Option<VirtualLog<Own<Cell, Register, Anyone>, Calm>> {
    let cell = fresh_cell(alloc)?;
    let mut cells = Vec::new(alloc);
    if cells.push(cell).is_err() {
        return None;
    }
    let register = fresh_register(alloc, Vec::new(alloc))?;
    let Ok(fabric) = Fabric::<Cell, Register, Anyone>::new(alloc, cells, register) else {
        return None;
    };
    let _journal = fabric.journal();
    let Ok(log) = VirtualLog::new(alloc, Own { who: 1, fabric }, Calm, 1) else {
        return None;
    };
    Some(log)
}

/// A loglet to which nothing was appended.
fn fresh_cell(alloc: Global) -> Option<Cell>
    ensures fresh { IfSome result (λ made. IsFresh made.loglet) }
    ensures sound { IfSome result (λ made. IsSound made.loglet) }
    ensures one { IfSome result (λ made. made.loglet.servers ≡ 1) }
    ensures kind { IfSome result (λ made. made.loglet.kind ≡ File) }
{
    let Ok(cell) = in_memory(alloc, 10) else {
        return None;
    };
    if cell.servers() != 1 {
        return None;
    }
    Some(cell)
}

/// A fabric over three loglets, and a register on a disk of which those calls fail, with no event.
pub(crate) fn fabric_on_three(
    alloc: Global,
    failing: Vec<u64>,
) -> Option<Fabric<Cell, Register, Free>>
    ensures { IfSome result (λ made. made.journal ≡ []) }
{
    let mut cells = Vec::new(alloc);
    if cells.reserve(3).is_err() {
        return None;
    }
    let first = fresh_cell(alloc)?;
    cells.push_reserved(first);
    let second = fresh_cell(alloc)?;
    cells.push_reserved(second);
    let third = fresh_cell(alloc)?;
    cells.push_reserved(third);
    let register = fresh_register(alloc, failing)?;
    let Ok(fabric) = Fabric::<Cell, Register, Free>::new(alloc, cells, register) else {
        return None;
    };
    Some(fabric)
}
