//! The sessions of an entry.
ghost use Rattle.std.specs.Prelude.{◌≡◌, IfOk};
ghost use Rattle.base_engine.specs.Settling.{sessions_in};

use crate::outbox::SessionList;
use delos_types::entry::Entry;
use engine_api::content::Content;
use engine_api::read::unpack;
use std::alloc::{AllocError, Global};

/// The sessions of an entry's items. Takes time that grows with the entry's length.
pub fn sessions_of(alloc: Global, entry: &Entry) -> Result<SessionList, AllocError>
    ensures { IfOk result (λ sessions. sessions ≡ sessions_in entry.now) }
{
    let mut sessions = SessionList::new(alloc);
    let placed = unpack(alloc, 0, entry)?;
    let list = placed.as_slice();
    for item in list {
        if let Content::Session { session, .. } = &item.content {
            sessions.push(*session)?;
        }
    }
    Ok(sessions)
}
