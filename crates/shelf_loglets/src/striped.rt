//! Striped loglets over native loglets of three log servers, on disks in memory.
ghost use Rattle.std.specs.Prelude.{◌≡◌, ◌+◌, ◌*◌, ◌≤◌, ◌^◌, All, IfOk, length, map};
ghost use Rattle.loglet_api.specs.View.{IsFresh};
ghost use Rattle.loglet_api.specs.declared.call.Kind.TheVariants as kinds;
ghost use Rattle.native_loglet.specs.Natives.{serving_of as native_serving};
ghost use Rattle.striped_loglet.specs.Striped.{serving_of};
ghost use Rattle.shelf_loglets.specs.Stripes.{IsStripe, new_servers};

use disk_model::MemDisk;
use loglet_api::loglet::Loglet;
use native_loglet::loglet::NativeLoglet;
use native_loglet::memory::in_memory;
use std::alloc::{AllocError, Global};
use striped_loglet::striped::StripedLoglet;

/// A native loglet on disks in memory.
pub type Native = NativeLoglet<MemDisk>;

/// An empty loglet over 2 to 8 stripes, each a native loglet of three log servers on disks in
/// memory, which takes at most `room` entries. All of them take at most 2^32.
pub fn striped(alloc: Global, count: usize, room: u64) -> Result<StripedLoglet<Native>, AllocError>
    requires count { (2 ≤ count) × (count ≤ 8) }
    requires room { (1 ≤ room) × (count * room ≤ 2 ^ 32) }
    ensures fresh { IfOk result (λ made. IsFresh made.loglet) }
    ensures kind { IfOk result (λ made. made.loglet.kind ≡ kinds.Striped count) }
    ensures servers { IfOk result (λ made. made.loglet.servers ≡ 3 * count) }
    ensures rounds { IfOk result (λ made. made.loglet.rounds ≡ (3 * count + 1) * 9) }
    ensures room { IfOk result (λ made. made.loglet.room ≡ count * room) }
    ensures count { IfOk result (λ made. length made.stripes ≡ count) }
    ensures stripes { IfOk result (λ made. All (IsStripe (kinds.Native 3) 3 7 room) made.stripes) }
    ensures serving { IfOk result (λ made. serving_of made ≡ new_servers (3 * count)) }
{
    let stripes = natives(alloc, count, room)?;
    Ok(StripedLoglet::new(alloc, stripes))
}

/// An empty loglet over two stripes, each of which is a striped loglet over two native loglets as
/// above. All four of them take at most 2^32 entries.
pub fn nested(alloc: Global, room: u64) -> Result<StripedLoglet<StripedLoglet<Native>>, AllocError>
    requires room { (1 ≤ room) × (4 * room ≤ 2 ^ 32) }
    ensures fresh { IfOk result (λ made. IsFresh made.loglet) }
    ensures kind { IfOk result (λ made. made.loglet.kind ≡ kinds.Nested) }
    ensures servers { IfOk result (λ made. made.loglet.servers ≡ 12) }
    ensures room { IfOk result (λ made. made.loglet.room ≡ 4 * room) }
    ensures count { IfOk result (λ made. length made.stripes ≡ 2) }
    ensures stripes { IfOk result (λ made. All (IsStripe (kinds.Striped 2) 6 63 (2 * room)) made.stripes) }
    ensures serving { IfOk result (λ made. serving_of made ≡ new_servers 12) }
{
    let stripes = pairs(alloc, 2, room)?;
    Ok(StripedLoglet::new(alloc, stripes))
}

/// So many empty native loglets of three log servers.
fn natives(alloc: Global, count: usize, room: u64) -> Result<Vec<Native>, AllocError>
    requires room { (1 ≤ room) × (room ≤ 2 ^ 32) }
    ensures count { IfOk result (λ made. length made.items ≡ count) }
    ensures stripes { IfOk result (λ made. All (λ v. IsStripe (kinds.Native 3) 3 7 room v.loglet) made.items) }
    ensures servings { IfOk result (λ made. All (λ v. native_serving v ≡ new_servers 3) made.items) }
{
    let mut natives = Vec::with_capacity(alloc, count)?;
    for _index in 0..count {
        natives.push(native(alloc, room)?)?;
    }
    Ok(natives)
}

/// So many empty striped loglets of two stripes.
fn pairs(alloc: Global, count: usize, room: u64) -> Result<Vec<StripedLoglet<Native>>, AllocError>
    requires room { (1 ≤ room) × (2 * room ≤ 2 ^ 32) }
    ensures count { IfOk result (λ made. length made.items ≡ count) }
    ensures stripes { IfOk result (λ made. All (λ v. IsStripe (kinds.Striped 2) 6 63 (2 * room) v.loglet) made.items) }
    ensures servings { IfOk result (λ made. All (λ v. serving_of v ≡ new_servers 6) made.items) }
{
    let mut pairs = Vec::with_capacity(alloc, count)?;
    for _index in 0..count {
        pairs.push(pair(alloc, room)?)?;
    }
    Ok(pairs)
}

/// An empty native loglet of three log servers.
fn native(alloc: Global, room: u64) -> Result<Native, AllocError>
    requires room { (1 ≤ room) × (room ≤ 2 ^ 32) }
    ensures stripe { IfOk result (λ made. IsStripe (kinds.Native 3) 3 7 room made.loglet) }
    ensures serving { IfOk result (λ made. native_serving made ≡ new_servers 3) }
{
    let native = in_memory(alloc, 3, room)?;
    // What holds of every loglet is known of one that was asked for its servers.
    let _servers = native.servers();
    Ok(native)
}

/// An empty striped loglet of two stripes.
fn pair(alloc: Global, room: u64) -> Result<StripedLoglet<Native>, AllocError>
    requires room { (1 ≤ room) × (2 * room ≤ 2 ^ 32) }
    ensures stripe { IfOk result (λ made. IsStripe (kinds.Striped 2) 6 63 (2 * room) made.loglet) }
    ensures serving { IfOk result (λ made. serving_of made ≡ new_servers 6) }
{
    let pair = striped(alloc, 2, room)?;
    let _servers = pair.servers();
    Ok(pair)
}
