//! Disks that fail or stop.
ghost use Rattle.std.specs.Prelude.{◌≡◌, IfOk, length};
ghost use Rattle.std.specs.List.{AllByRecursion};
ghost use Rattle.disk_model.specs.Failing.{shown};
ghost use Rattle.memory_runs.specs.Disks.{IsFreshDisk};

use crate::setup::DiskFaults;
use disk_model::{Disk, FailDisk, MemDisk};
use std::alloc::{AllocError, Global};

/// The disk of the first node.
fn faulty_disk(alloc: Global, faults: &DiskFaults) -> Result<FailDisk, AllocError>
    ensures { IfOk result (λ disk. IsFreshDisk (shown disk)) }
{
    let calls = Vec::from_slice(alloc, faults.calls.as_slice())?;
    let mut disk = FailDisk::new(MemDisk::new(alloc), calls);
    disk.arm(faults.stop);
    Ok(disk)
}

/// So many disks, of which these faults come to the first one.
pub(crate) fn failing_disks(
    alloc: Global,
    count: u8,
    faults: &DiskFaults,
) -> Result<Vec<FailDisk>, AllocError>
    ensures as_many { IfOk result (λ disks. length disks.items ≡ count) }
    ensures fresh { IfOk result (λ disks. AllByRecursion (λ d. IsFreshDisk (shown d)) disks.items) }
{
    let mut disks = Vec::new(alloc);
    'disk: for at in 0..count {
        let disk = if at == 0 {
            faulty_disk(alloc, faults)?
        } else {
            FailDisk::new(MemDisk::new(alloc), Vec::new(alloc))
        };
        disks.push(disk)?;
    }
    Ok(disks)
}
