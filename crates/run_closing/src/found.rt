//! Copies of what reads found.
ghost use Rattle.std.specs.Prelude.{◌≡◌, IfOk};

use std::alloc::{AllocError, Global};
use table_core::command::{Found, Pair, Pairs};

/// A copy of what a read found.
pub(crate) fn copy_of(alloc: Global, found: &Found) -> Result<Found, AllocError>
    ensures { IfOk result (λ copy. copy ≡ found.now) }
{
    match found {
        Found::Nothing => Ok(Found::Nothing),
        Found::Value(value) => Ok(Found::Value(value.clone()?)),
        Found::All(pairs) => {
            let pairs = pairs_of(alloc, pairs)?;
            Ok(Found::All(pairs))
        }
    }
}

fn pairs_of(alloc: Global, pairs: &Pairs) -> Result<Pairs, AllocError>
    ensures { IfOk result (λ copy. copy ≡ pairs.now) }
{
    let mut copies = Vec::new(alloc);
    for pair in pairs.as_slice() {
        let key = pair.key.clone()?;
        let value = pair.value.clone()?;
        copies.push(Pair { key, value })?;
    }
    Ok(Pairs::from_vec(copies))
}
