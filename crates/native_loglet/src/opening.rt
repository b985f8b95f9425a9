//! How an operation begins.
ghost use Rattle.std.specs.Prelude.{◌≡◌, ◌+◌, drop, ◌≤◌, ◌<◌, ◌^◌, ◌++◌, ◌⊎◌, ◌↔◌, length, get_or, nat_eq, OnOk, OnErr, IfOk, IsTrue, not};
ghost use Rattle.std.specs.HashMap.{Updates, IsUnchanged};
ghost use Rattle.std.specs.Prelude.{max, min, Some, count_by};
ghost use Rattle.quorum_cell.specs.Servers.{is_sealed};
ghost use Rattle.loglet_api.specs.Step.{IsAppend, entries_of, task_of, wanted_by};
ghost use Rattle.native_loglet.specs.Natives.{down_in, shut_in};
ghost use Rattle.native_loglet.specs.Moving.{AreOf, BeginsOn};
ghost use Rattle.native_loglet.specs.Opening.{wanted_for};

use crate::marks::Marks;
use crate::replica::Replica;
use delos_types::entry::Entry;
use disk_model::Disk;
use loglet_api::call::Op;
use majority_rule::majority::majority;
use native_plan::member::Member;
use native_plan::pending::{Pending, Start};
use std::alloc::{AllocError, Global};
use std::collections::{HashMap, VecDeque};

/// How many servers are down.
pub fn down<D: Disk>(replicas: &[Replica<D>]) -> u32
    requires { length replicas.now < 2 ^ 32 }
    ensures { result ≡ down_in replicas.now }
{
    replicas.iter().filter(|replica| !replica.is_up()).count() as u32
}

/// Whether more than half of the servers are sealed.
pub fn is_shut<D: Disk>(replicas: &[Replica<D>]) -> bool
    requires { length replicas.now < 2 ^ 32 }
    ensures { result ≡ shut_in replicas.now }
{
    let sealed = count_sealed(replicas);
    majority(replicas.len() as u32) as usize <= sealed
}

/// How many servers are sealed.
fn count_sealed<D: Disk>(replicas: &[Replica<D>]) -> usize
    ensures { result ≡ count_by (λ v. is_sealed v.server) replicas.now }
{
    replicas
        .iter()
        .filter(|replica| replica.is_sealed())
        .count()
}

/// What an operation knows of the servers as it begins: how long they are.
fn members<D: Disk>(alloc: Global, replicas: &[Replica<D>]) -> Result<Vec<Member>, AllocError>
    ensures { IfOk result (λ members. AreOf replicas.now members.items) }
{
    let mut members = Vec::with_capacity(alloc, replicas.len())?;
    for replica in replicas {
        members.push(Member::new(replica.known_length()))?;
    }
    Ok(members)
}

/// The length that an operation waits for, where the log has this size and then this cut.
fn wanted(op: &Op, size: u64, cut: u64) -> u64
    requires { size + 1 < 2 ^ 64 }
    ensures { result ≡ wanted_for op.now size cut }
{
    match op {
        Op::Append(_) => size + 1,
        Op::Settle(length) => size.min(*length),
        Op::Tail => 0,
        Op::Seal => 0,
        Op::Read(_) => 0,
        Op::Trim(_) => cut,
    }
}

/// An operation that begins on servers of a loglet of this size, and from now on with this cut.
pub fn begin_on<D: Disk>(
    alloc: Global,
    replicas: &[Replica<D>],
    marks: Marks,
    size: u64,
    cut: u64,
    op: &Op,
) -> Result<Pending, AllocError>
    requires few { length replicas.now < 2 ^ 32 }
    requires size { size + 1 < 2 ^ 64 }
    ensures { IfOk result (λ p. BeginsOn replicas.now op.now (record { size = size; reach = marks.reach; firm = marks.firm; shut = shut_in replicas.now; faults = marks.faults; down = down_in replicas.now; want = wanted_for op.now size cut }) cut p) }
{
    let members = members(alloc, replicas)?;
    let start = Start {
        size,
        reach: marks.reach,
        firm: marks.firm,
        shut: is_shut(replicas),
        faults: marks.faults,
        down: down(replicas),
        want: wanted(op, size, cut),
    };
    Ok(Pending::begin(op, start, members, cut))
}

/// Adds an operation, and the entry of an Append, or neither.
pub fn add(
    entries: &mut VecDeque<Entry>,
    pending: &mut HashMap<u64, Pending>,
    op: Op,
    number: u64,
    p: Pending,
) -> Result<(), AllocError>
    ensures entries { OnOk result (entries.new.items ≡ entries.old.items ++ entries_of op) }
    ensures pending { OnOk result (Updates nat_eq pending.old pending.new number (Some p)) }
    ensures err { OnErr result ((entries.new.items ≡ entries.old.items) × IsUnchanged pending.old pending.new) }
{
    match op {
        Op::Append(entry) => {
            entries.reserve(1)?;
            pending.insert(number, p)?;
            entries.push_back(entry).unwrap();
        }
        _ => {
            pending.insert(number, p)?;
        }
    }
    Ok(())
}

/// Lets go of so many entries, the first ones.
pub fn let_go(entries: &mut VecDeque<Entry>, count: u64)
    ensures { entries.new.items ≡ drop count entries.old.items }
{
    for _index in 0..count {
        let _ = entries.pop_front();
    }
}
