//! The events of a loglet's servers: they are stopped and mended, and old messages come again.
ghost use Rattle.std.specs.Prelude.{◌<◌};
ghost use Rattle.fabric_core.specs.CellEvent.{ServerApplies};

use legal_journal::events::{Event, FabricAnswer, FabricCall};
use loglet_api::call::Refused;
use loglet_api::loglet::Loglet;

/// Arms the disk of a server.
pub fn stop_in<L: Loglet>(
    loglet: &mut L,
    journal: &mut Vec<Event>,
    who: u32,
    cell: u32,
    server: u32,
    after: u64,
) -> FabricAnswer
    requires { server < (L.view loglet.old).servers }
    ensures { ServerApplies (record { loglet = L.view loglet.old; serving = L.serving loglet.old }) journal.old.items who (FabricCall.Stop cell server after) result
        (record { loglet = L.view loglet.new; serving = L.serving loglet.new }) journal.new.items }
{
    if journal.reserve(1).is_err() {
        return FabricAnswer::Memory;
    }
    loglet.stop(server, after);
    let call = FabricCall::Stop(cell, server, after);
    let answer = FabricAnswer::Set(true);
    journal.push_reserved(Event { who, call, answer });
    FabricAnswer::Set(true)
}

/// Brings a server up.
pub fn mend_in<L: Loglet>(
    loglet: &mut L,
    journal: &mut Vec<Event>,
    who: u32,
    cell: u32,
    server: u32,
    word: u64,
) -> FabricAnswer
    requires { server < (L.view loglet.old).servers }
    ensures { ServerApplies (record { loglet = L.view loglet.old; serving = L.serving loglet.old }) journal.old.items who (FabricCall.Mend cell server word) result
        (record { loglet = L.view loglet.new; serving = L.serving loglet.new }) journal.new.items }
{
    if journal.reserve(1).is_err() {
        return FabricAnswer::Memory;
    }
    match loglet.restart(server, word) {
        Ok(up) => {
            let call = FabricCall::Mend(cell, server, word);
            let answer = FabricAnswer::Set(up);
            journal.push_reserved(Event { who, call, answer });
            FabricAnswer::Set(up)
        }
        Err(Refused::Memory) => FabricAnswer::Memory,
        Err(Refused::Full) => unreachable!(),
    }
}

/// Delivers an old message again.
pub fn stray_in<L: Loglet>(
    loglet: &mut L,
    journal: &mut Vec<Event>,
    who: u32,
    cell: u32,
    word: u64,
) -> FabricAnswer
    ensures { ServerApplies (record { loglet = L.view loglet.old; serving = L.serving loglet.old }) journal.old.items who (FabricCall.Stray cell word) result
        (record { loglet = L.view loglet.new; serving = L.serving loglet.new }) journal.new.items }
{
    if journal.reserve(1).is_err() {
        return FabricAnswer::Memory;
    }
    match loglet.stray(word) {
        Ok(()) => {
            let call = FabricCall::Stray(cell, word);
            let answer = FabricAnswer::Set(true);
            journal.push_reserved(Event { who, call, answer });
            FabricAnswer::Set(true)
        }
        Err(Refused::Memory) => FabricAnswer::Memory,
        Err(Refused::Full) => unreachable!(),
    }
}
