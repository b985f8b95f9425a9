//! A native loglet on disks in memory.
ghost use Rattle.std.specs.Prelude.{◌≡◌, ◌≤◌, ◌^◌, true, false, length, replicate, All, IfOk};
ghost use Rattle.loglet_api.specs.declared.call.Kind.TheVariants.{Native};
ghost use Rattle.loglet_api.specs.View.{IsFresh};
ghost use Rattle.quorum_cell.specs.Cells.{no_server, start};
ghost use Rattle.log_server.specs.View.{Survives};
ghost use Rattle.native_loglet.specs.Natives.{IsCount, IsCellOf, IsNew, new_state, served_by, serving_of};

use crate::loglet::NativeLoglet;
use crate::replica::Replica;
use disk_model::MemDisk;
use log_server::LogServer;
use std::alloc::{AllocError, Global};

/// An empty loglet over 1, 3, 5 or 7 log servers on fresh disks in memory, which takes at most `room` entries, from 1 to
/// 2^32. No call of such a disk fails before one is armed, so want of memory is why there is none.
#[tactic(auto, using(crate::proofs::Starting::new_shown, crate::proofs::Starting::new_running))]
pub fn in_memory(
    alloc: Global,
    servers: usize,
    room: u64,
) -> Result<NativeLoglet<MemDisk>, AllocError>
    requires servers { IsCount servers }
    requires room { (1 ≤ room) × (room ≤ 2 ^ 32) }
    ensures fresh { IfOk result (λ made. IsFresh made.loglet) }
    ensures room { IfOk result (λ made. made.loglet.room ≡ room) }
    ensures kind { IfOk result (λ made. made.loglet.kind ≡ Native servers) }
    ensures servers { IfOk result (λ made. made.loglet.servers ≡ servers) }
    ensures rounds { IfOk result (λ made. made.loglet.rounds ≡ 7) }
    ensures cell { IfOk result (λ made. IsCellOf made.parts (start servers room (2 ^ 62))) }
    ensures disks { IfOk result (λ made. All Survives made.replicas) }

    // All servers are up, no disk is armed or stopped, and nothing was counted.
    ensures serving { IfOk result (λ made. serving_of made ≡ served_by (replicate servers new_state) 0 0 0) }
    ensures running { IfOk result (λ made. All (λ v. v.disk.stopped ≡ false) made.replicas) }
{
    let replicas = replicas(alloc, servers)?;
    Ok(NativeLoglet::new(alloc, replicas, room))
}

/// Servers on fresh disks.
fn replicas(alloc: Global, count: usize) -> Result<Vec<Replica<MemDisk>>, AllocError>
    ensures count { IfOk result (λ replicas. length replicas.items ≡ count) }
    ensures fresh { IfOk result (λ replicas. All (λ v. v.server ≡ record no_server { up = true }) replicas.items) }
    ensures disks { IfOk result (λ replicas. All Survives replicas.items) }
    ensures new { IfOk result (λ replicas. All IsNew replicas.items) }
{
    let mut replicas = Vec::with_capacity(alloc, count)?;
    for _index in 0..count {
        replicas.push(replica(alloc)?)?;
    }
    Ok(replicas)
}

/// A server on a fresh disk.
#[tactic(auto, unfolding(journal_pair::specs::Records::records_of, journal_pair::specs::Records::is_ready), using(crate::proofs::Starting::new_one))]
fn replica(alloc: Global) -> Result<Replica<MemDisk>, AllocError>
    ensures fresh { IfOk result (λ v. v.server ≡ record no_server { up = true }) }
    ensures disk { IfOk result Survives }
    ensures new { IfOk result IsNew }
{
    match LogServer::open_on(alloc, MemDisk::new(alloc)) {
        Ok(server) => Ok(Replica::new(server)),
        Err(_) => Err(AllocError),
    }
}
