//! The events of the register of the chain. The caller's copy of a chain that it gives is made in room that was had before
//! the register is called, so that nothing is told which isn't recorded.
ghost use Rattle.std.specs.Prelude.{◌≡◌, ◌+◌, ◌≤◌, ◌<◌, ◌^◌, [], IfOk, vec_len, vec_capacity};
ghost use Rattle.chain_map.specs.Chain.{IsChain};
ghost use Rattle.fabric_core.specs.RegisterEvent.{RegisterApplies};

use delos_types::chain::{Chain, Segment, Segments};
use legal_journal::events::{Event, FabricAnswer, FabricCall};
use register_api::{ReadAnswer, Register, WriteAnswer};
use std::alloc::{AllocError, Global};

/// The most segments that a chain has.
const MOST_SEGMENTS: usize = 64;

/// Room for the segments of any chain.
fn chain_room(alloc: Global) -> Result<Vec<Segment>, AllocError>
    ensures empty { IfOk result (λ room. room.items ≡ []) }
    ensures large { IfOk result (λ room. vec_len room + 64 ≤ vec_capacity room) }
{
    Vec::with_capacity(alloc, MOST_SEGMENTS)
}

/// A copy of the chain, which takes no more memory.
fn copy_into(room: Vec<Segment>, chain: &Chain) -> Chain
    requires empty { room.items ≡ [] }
    requires large { vec_len room + 64 ≤ vec_capacity room }
    requires chain { IsChain chain.now }
    ensures { result ≡ chain.now }
{
    let mut segments = room;
    let Ok(()) = segments.extend_from_slice(chain.segments.as_slice()) else {
        unreachable!()
    };
    Chain {
        trim: chain.trim,
        segments: Segments::from_vec(segments),
    }
}

/// Reads the chain.
pub fn read_in<R: Register>(
    alloc: Global,
    register: &mut R,
    journal: &mut Vec<Event>,
    who: u32,
) -> FabricAnswer
    ensures { RegisterApplies (R.view register.old) journal.old.items who FabricCall.ReadChain result (R.view register.new) journal.new.items }
{
    let _given = register.version();
    let Ok(room) = chain_room(alloc) else {
        return FabricAnswer::Memory;
    };
    if journal.reserve(1).is_err() {
        return FabricAnswer::Memory;
    }
    let Ok(read) = register.read() else {
        return FabricAnswer::Memory;
    };
    let call = FabricCall::ReadChain;
    match read {
        ReadAnswer::At(version, chain) => {
            let copy = copy_into(room, &chain);
            let answer = FabricAnswer::At(version, chain);
            journal.push_reserved(Event { who, call, answer });
            FabricAnswer::At(version, copy)
        }
        ReadAnswer::Down => {
            let answer = FabricAnswer::Down;
            journal.push_reserved(Event { who, call, answer });
            FabricAnswer::Down
        }
    }
}

/// Writes a chain over the version that is expected.
pub fn write_in<R: Register>(
    alloc: Global,
    register: &mut R,
    journal: &mut Vec<Event>,
    who: u32,
    expected: u64,
    chain: Chain,
) -> FabricAnswer
    requires version { (R.view register.old).version < 2 ^ 48 }
    requires chain { IsChain chain }
    ensures { RegisterApplies (R.view register.old) journal.old.items who (FabricCall.WriteChain expected chain) result (R.view register.new) journal.new.items }
{
    let _given = register.version();
    let Ok(room) = chain_room(alloc) else {
        return FabricAnswer::Memory;
    };
    if journal.reserve(1).is_err() {
        return FabricAnswer::Memory;
    }
    let Ok(written) = register.write(expected, &chain) else {
        return FabricAnswer::Memory;
    };
    let call = FabricCall::WriteChain(expected, chain);
    match written {
        WriteAnswer::Written(version) => {
            let answer = FabricAnswer::Written(version);
            journal.push_reserved(Event { who, call, answer });
            FabricAnswer::Written(version)
        }
        WriteAnswer::Conflict(version, standing) => {
            let copy = copy_into(room, &standing);
            let answer = FabricAnswer::Conflict(version, standing);
            journal.push_reserved(Event { who, call, answer });
            FabricAnswer::Conflict(version, copy)
        }
        WriteAnswer::MetaFault => {
            let answer = FabricAnswer::MetaFault;
            journal.push_reserved(Event { who, call, answer });
            FabricAnswer::MetaFault
        }
        WriteAnswer::Down => {
            let answer = FabricAnswer::Down;
            journal.push_reserved(Event { who, call, answer });
            FabricAnswer::Down
        }
    }
}

/// Arms the register.
pub fn arm_in<R: Register>(
    register: &mut R,
    journal: &mut Vec<Event>,
    who: u32,
    after: u64,
) -> FabricAnswer
    ensures { RegisterApplies (R.view register.old) journal.old.items who (FabricCall.StopMeta after) result (R.view register.new) journal.new.items }
{
    let _given = register.version();
    if journal.reserve(1).is_err() {
        return FabricAnswer::Memory;
    }
    register.stop(after);
    let call = FabricCall::StopMeta(after);
    let answer = FabricAnswer::Set(true);
    journal.push_reserved(Event { who, call, answer });
    FabricAnswer::Set(true)
}

/// Brings the register up.
pub fn reopen_in<R: Register>(
    register: &mut R,
    journal: &mut Vec<Event>,
    who: u32,
    word: u64,
) -> FabricAnswer
    ensures { RegisterApplies (R.view register.old) journal.old.items who (FabricCall.MendMeta word) result (R.view register.new) journal.new.items }
{
    let _given = register.version();
    if journal.reserve(1).is_err() {
        return FabricAnswer::Memory;
    }
    let Ok(up) = register.reopen(word) else {
        return FabricAnswer::Memory;
    };
    let call = FabricCall::MendMeta(word);
    let answer = FabricAnswer::Set(up);
    journal.push_reserved(Event { who, call, answer });
    FabricAnswer::Set(up)
}
