//! A file loglet on a disk in memory.
ghost use Rattle.std.specs.Prelude.{◌≡◌, ◌≤◌, ◌^◌, false, [], ◌∷◌, IfOk};
ghost use Rattle.loglet_api.specs.declared.call.Kind.TheVariants.{File};
ghost use Rattle.loglet_api.specs.View.{IsFresh};
ghost use Rattle.quorum_cell.specs.Cells.{start};
ghost use Rattle.server_records.specs.Spelled.{empty_server};
ghost use Rattle.file_loglet.specs.File.{serving_of, new_state};
ghost use Rattle.file_loglet.specs.Steps.{IsCellOf};

use crate::file::FileLoglet;
use disk_model::MemDisk;
use std::alloc::{AllocError, Global};

/// An empty loglet on a fresh disk in memory, which takes at most `room` entries, from 1 to 2^32. No call of such a disk
/// fails before one is armed, so want of memory is why there is none.
#[tactic(auto, using(crate::proofs::Serving::new_serving, crate::proofs::Starting::start_fresh))]
pub fn in_memory(alloc: Global, room: u64) -> Result<FileLoglet<MemDisk>, AllocError>
    requires { (1 ≤ room) × (room ≤ 2 ^ 32) }
    ensures fresh { IfOk result (λ made. IsFresh made.loglet) }
    ensures room { IfOk result (λ made. made.loglet.room ≡ room) }
    ensures kind { IfOk result (λ made. made.loglet.kind ≡ File) }

    // Its server is up and holds nothing; no write is to stop, the disk isn't stopped and never failed, and no call was made.
    ensures empty { IfOk result (λ made. made.server ≡ empty_server) }
    ensures disarmed { IfOk result (λ made. made.disk.armed ≡ 0) }
    ensures running { IfOk result (λ made. made.disk.stopped ≡ false) }
    ensures faults { IfOk result (λ made. made.disk.faults ≡ 0) }
    ensures serving { IfOk result (λ made. serving_of made ≡ record { states = new_state ∷ []; told = 0; carries = 0; strays = 0 }) }
    ensures unasked { IfOk result (λ made. (made.answers ≡ []) × (made.refusals ≡ 0)) }

    // It is the cell of one server at its start.
    ensures cell { IfOk result (λ made. IsCellOf made (start 1 room (2 ^ 62))) }
{
    match FileLoglet::new(alloc, MemDisk::new(alloc), room) {
        Ok(loglet) => Ok(loglet),
        Err(_) => Err(AllocError),
    }
}
