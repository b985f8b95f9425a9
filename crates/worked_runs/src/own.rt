//! Loglets of one's own on the shelf.
ghost use Rattle.std.specs.Prelude.{◌≡◌, IfOk, length, map};
ghost use Rattle.script_runner.specs.Fresh.{AreFresh};
ghost use Rattle.shelf_loglets.specs.Shelf.{AreRooms, view_of};

use counted_loglet::counted::Counted;
use script_words::shelf::Kind;
use shelf_loglets::shelf::{Rooms, ShelfLoglet, loglet_of};
use std::alloc::{AllocError, Global};

/// A loglet of each of these kinds, each in a loglet that counts.
pub(crate) fn counted_shelf(
    alloc: Global,
    kinds: &[Kind],
    rooms: Rooms,
) -> Result<Vec<Counted<ShelfLoglet>>, AllocError>
    requires rooms { AreRooms rooms }
    ensures fresh { IfOk result (λ shelf. AreFresh (map (λ c. view_of c.inner) shelf.items)) }
    ensures as_many { IfOk result (λ shelf. length shelf.items ≡ length kinds.now) }
{
    let mut shelf = Vec::new(alloc);
    'kind: for kind in kinds {
        shelf.push(Counted::new(loglet_of(alloc, *kind, rooms)?))?;
    }
    Ok(shelf)
}
