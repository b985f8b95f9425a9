//! Lists of stripes, each of a lawful kind.
ghost use Rattle.std.specs.Prelude.{◌≡◌, ℕ, ◌<◌, ◌≤◌, length, map, replicate, set, slice_get, option_map, Some, is_some, if◌then◌else◌, IfOk, OnOk};
ghost use Rattle.loglet_api.specs.Step.{CanBegin};
ghost use Rattle.striped_loglet.specs.Views.{total, any_shut};
ghost use Rattle.striped_cells.specs.Ways.{IsKind};
ghost use Rattle.striped_cells.specs.Striped.{position_of, inner_of, AllLawful, shut_of, most_count};

use crate::cell::AnyCell;
use delos_types::entry::Entry;
use delos_types::numbers::Ticket;
use loglet_api::call::{Answer, Op};
use std::alloc::{AllocError, Global};
use stripe_rule::{index_of, stripe_of};
use striped_loglet::stripe::Inner;

/// What the stripes count together.
#[derive(Clone, Copy)]
pub struct Totals {
    /// Whether a stripe is sealed.
    pub shut: bool,
    /// The faults of all, in a word that stands still at its end.
    pub faults: u64,
    /// How many servers are down.
    pub down: u32,
}

/// A copy of the stripes.
pub fn copied<C: AnyCell>(alloc: Global, stripes: &[C]) -> Result<Vec<C>, AllocError>
    ensures { IfOk result (λ made. made.items ≡ stripes.now) }
{
    let mut made = Vec::new(alloc);
    for stripe in stripes {
        made.push(stripe.copied(alloc)?)?;
    }
    Ok(made)
}

/// So many stripes, each like this one.
pub fn alike<C: AnyCell>(alloc: Global, count: u8, one: &C) -> Result<Vec<C>, AllocError>
    ensures { IfOk result (λ made. made.items ≡ replicate count one.now) }
{
    let mut made = Vec::new(alloc);
    for _ in 0..count {
        made.push(one.copied(alloc)?)?;
    }
    Ok(made)
}

/// Which of the stripes are sealed.
pub fn sealed<C: AnyCell>(alloc: Global, stripes: &[C]) -> Result<Vec<bool>, AllocError>
    requires { AllLawful C.ways stripes.now }
    ensures { IfOk result (λ made. made.items ≡ map (shut_of C.ways) stripes.now) }
{
    let mut made = Vec::new(alloc);
    for stripe in stripes {
        made.push(stripe.numbers().shut)?;
    }
    Ok(made)
}

/// What the stripes count together. It looks at every server.
pub fn counts<C: AnyCell>(stripes: &[C]) -> Totals
    requires lawful { AllLawful C.ways stripes.now }
    requires few { total (λ v. v.down) (map C.ways.view stripes.now) ≤ 64 }
    ensures shut { result.shut ≡ any_shut (map C.ways.view stripes.now) }
    ensures faults { result.faults ≡ most_count (total (λ v. v.faults) (map C.ways.view stripes.now)) }
    ensures down { result.down ≡ total (λ v. v.down) (map C.ways.view stripes.now) }
{
    let mut shut = false;
    let mut faults: u64 = 0;
    let mut down = 0;
    for stripe in stripes {
        let numbers = stripe.numbers();
        shut |= numbers.shut;
        faults = faults.saturating_add(numbers.faults);
        down += numbers.down;
    }
    Totals { shut, faults, down }
}

/// The entry at a position: of m stripes, position p is index p / m of stripe p % m.
#[tactic(auto, using(crate::proofs::Places::at_stripe))]
pub fn entry_of<C: AnyCell>(stripes: &[C], place: u64) -> Option<&Entry>
    requires some { 0 < length stripes.now }
    requires lawful { AllLawful C.ways stripes.now }
    ensures { option_map (λ entry. entry.now) result ≡ position_of (map C.ways.entries stripes.now) place }
{
    let count = stripes.len() as u64;
    stripes[stripe_of(place, count) as usize].entry(index_of(place, count))
}

/// An operation begins on a stripe.
pub fn begin_on<C: AnyCell>(
    alloc: Global,
    stripes: &mut Vec<C>,
    stripe: u64,
    op: &Op,
) -> Result<Inner, AllocError>
    requires kind { IsKind C.ways }
    requires here { stripe < length stripes.old.items }
    requires lawful { AllLawful C.ways stripes.old.items }
    requires can { CanBegin op.now }
    ensures { (x : C) → slice_get stripes.old.items stripe ≡ Some x
        → IfOk result (λ inner. (inner ≡ inner_of C.ways stripe x op.now) × (stripes.new.items ≡ set stripes.old.items stripe (C.ways.begin x op.now))) }
{
    let cell = &mut stripes[stripe as usize];
    let ticket = Ticket::new(cell.begun());
    cell.begin(alloc, op)?;
    let (rounds, steps) = cell.left(ticket);
    Ok(Inner {
        stripe,
        ticket,
        rounds,
        steps,
    })
}

/// Where the operation of this ticket came to its end on a stripe, its client is told, and it is
/// closed.
pub fn take_from<C: AnyCell>(
    alloc: Global,
    stripes: &mut Vec<C>,
    stripe: u64,
    ticket: Ticket,
) -> Result<Option<Answer>, AllocError>
    requires here { stripe < length stripes.old.items }
    requires lawful { AllLawful C.ways stripes.old.items }
    ensures { (x : C) → slice_get stripes.old.items stripe ≡ Some x
        → IfOk result (λ answer. (answer ≡ C.ways.answer x ticket)
        × (stripes.new.items ≡ set stripes.old.items stripe (if is_some answer then C.ways.take x ticket else x))) }
{
    let cell = &mut stripes[stripe as usize];
    let Some(answer) = cell.answer(ticket)? else {
        return Ok(None);
    };
    cell.take(alloc, ticket)?;
    Ok(Some(answer))
}
