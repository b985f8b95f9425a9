//! What a node's own lines ask of it: it tells the log of itself.
ghost use Rattle.std.specs.Prelude.{◌≡◌, ◌≤◌, ℕ, List, [], ◌∷◌, length, None, IfOk, OnOk};
ghost use Rattle.delos_types.specs.declared.entry.Entry.{Entry};
ghost use Rattle.engine_api.specs.Packing.{IsProposable, packed};
ghost use Rattle.node_lines.specs.Reporting.{IsPlain, LaysDown, Tells};

use crate::steps::pack;
use base_engine::fault::Fault;
use base_engine::node::Node;
use delos_types::cause::Cause;
use delos_types::item::Item;
use fate_words::chooser::Chooser;
use legal_journal::rules::Rules;
use legal_journal::turns::Turns;
use replica_api::replica::Replica;
use std::alloc::AllocError;
use virtual_log::log::VirtualLog;

/// An item of no session goes down and is packed, where nothing waits and nothing is outstanding.
fn lay_down<T: Turns, C: Chooser, R: Replica>(
    node: &mut Node<VirtualLog<T, C>, R>,
    item: Item,
) -> Result<(), AllocError>
    requires floor { (log : List Entry) (n : ℕ) → T.Law.law.floor log n → n ≤ length log }
    requires item { IsProposable item }
    requires plain { IsPlain item }
    requires none { node.old.outbox.entries ≡ [] }
    requires kept { node.old.replica.kept ≡ [] }
    requires own { T.Law.law.may node.old.who (packed node.old.replica.origin (item ∷ [])) }
    ensures lays { OnOk result (LaysDown T.Law.law node.old node.new item) }
{
    match node.propose(item) {
        Ok(()) => {}
        Err(_) => return Err(AllocError),
    }
    pack(node)?;
    Ok(())
}

/// Appends an entry of an item of no session, where nothing waits and nothing is outstanding. Answers why the log failed, if
/// it did: no session is given that cause. Plays nothing.
///
/// Cost: that of an append.
pub fn tell<T: Turns, C: Chooser, R: Replica>(
    node: &mut Node<VirtualLog<T, C>, R>,
    item: Item,
) -> Result<Option<Cause>, AllocError>
    requires floor { (log : List Entry) (n : ℕ) → T.Law.law.floor log n → n ≤ length log }
    requires item { IsProposable item }
    requires plain { IsPlain item }
    requires none { node.old.outbox.entries ≡ [] }
    requires unsettled { node.old.outbox.unsettled ≡ None }
    requires kept { node.old.replica.kept ≡ [] }
    requires own { T.Law.law.may node.old.who (packed node.old.replica.origin (item ∷ [])) }
    ensures tells { IfOk result (Tells T.Law.law node.old node.new item) }
{
    lay_down(node, item)?;
    match node.settle_all() {
        Ok(()) => Ok(None),
        Err(Fault::Because(cause)) => Ok(Some(cause)),
        Err(Fault::Memory) => Err(AllocError),
    }
}
