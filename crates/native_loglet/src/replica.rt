//! A server of a native loglet.
ghost use Rattle.std.specs.Prelude.{◌≡◌, ℕ, ◌+◌, ◌^◌, ◌≤◌, ◌<◌, true, false, Bool, if◌then◌else◌, Some, Ok, IfOk, OnErr, List, length, slice_get};
ghost use Rattle.delos_types.specs.Spelling.{IsSpellable};
ghost use Rattle.delos_types.specs.declared.entry.Entry as entries_of;
ghost use Rattle.disk_model.specs.Disk.{bumped};
ghost use Rattle.quorum_cell.specs.declared.message.Ask as asks;
ghost use Rattle.quorum_cell.specs.Servers.{length_of, is_sealed, restarted};
ghost use Rattle.log_server.specs.View.{View as server_views, Spares, Survives};
ghost use Rattle.loglet_api.specs.Servers.{TakesSome, IsArmed, RestartsTo, MayReopen};
ghost use Rattle.log_server.specs.Answers.{Answers};
ghost use Rattle.native_ties.specs.Parts.{asked_by};
ghost use Rattle.native_loglet.specs.Natives.{state_in};
ghost use Rattle.native_loglet.specs.Disks.{armed_by};
ghost use Rattle.native_loglet.specs.Copies.{CanAsk};
ghost use Rattle.native_loglet.specs.Telling.{seal_told_by, length_told_by};

use crate::entries::entry_at;
use delos_types::entry::Entry;
use disk_model::Disk;
use log_server::LogServer;
use native_plan::message::Errand;
use quorum_cell::message::{Ask, Told};
use std::alloc::AllocError;
use std::collections::VecDeque;
use std::marker::Model;

/// A log server of which it is known whether it is sealed, also while it is down. Contracts see the
/// server alone. After each call a crash leaves of its disk what it is (`survives`).
#[derive(Drop)]
pub struct Replica<D: Disk> {
    server: LogServer<D>,
    sealed: bool,
}

impl<D: Disk> Model for Replica<D> {
    ghost use Rattle.std.specs.Prelude.{◌≡◌};
    ghost use Rattle.log_server.specs.View.{View};
    ghost use Rattle.quorum_cell.specs.Servers.{is_sealed};

    ghost Value = { View };

    ghost view = { λ r. r.server };

    ghost invariant = { λ r. r.sealed ≡ is_sealed r.server.server };
}

impl<D: Disk> Replica<D> {
    /// A server that is up.
    pub fn new(server: LogServer<D>) -> Replica<D>
        requires { server.server.up ≡ true }
        ensures value { result ≡ server }
        ensures running { result.disk.stopped ≡ false }
    {
        let up = server.is_up();
        prove!(up);
        let sealed = is_sealed_now(&server, false);
        Replica { server, sealed }
    }

    pub fn is_up(&self) -> bool
        ensures { result ≡ self.now.server.up }
    {
        self.server.is_up()
    }

    pub fn is_sealed(&self) -> bool
        ensures { result ≡ is_sealed self.now.server }
    {
        self.sealed
    }

    /// A length that it has, which is all that it has while it is up.
    pub fn known_length(&self) -> u64
        ensures { result ≤ length_of self.now.server }
    {
        length_told(&self.server.tail())
    }

    /// It is asked what the errand says, in a loglet that keeps these entries from this cut on.
    ///
    /// Cost: that of the call of its server.
    pub fn ask(
        &mut self,
        errand: Errand,
        entries: &VecDeque<Entry>,
        cut: u64,
    ) -> Result<Told, AllocError>
        requires there { (ask : asks.Ask) × (asked_by entries.now.items cut errand ≡ Some ask) }
        requires spelled { (i : ℕ) (e : entries_of.Entry) → slice_get entries.now.items i ≡ Some e → IsSpellable e }
        requires small { cut + length entries.now.items ≤ 2 ^ 32 }
        ensures answers { IfOk result (λ told. (ask : asks.Ask) → asked_by entries.now.items cut errand ≡ Some ask → Answers self.old ask told self.new) }
        ensures memory { OnErr result (self.new.server ≡ self.old.server) }
        ensures spared { OnErr result (TakesSome (state_in self.old) (state_in self.new)) }
        ensures survives { Survives self.new }
    {
        let told = send(&mut self.server, errand, entries, cut)?;
        self.sealed = is_sealed_now(&self.server, self.sealed);
        Ok(told)
    }

    /// It is asked this by a copy of a request, with the entry or the position that it was asked.
    ///
    /// Cost: that of the call of its server.
    pub fn ask_again(&mut self, ask: &Ask) -> Result<Told, AllocError>
        requires can { CanAsk ask.now }
        ensures answers { IfOk result (λ told. Answers self.old ask.now told self.new) }
        ensures memory { OnErr result (self.new.server ≡ self.old.server) }
        ensures spared { OnErr result (TakesSome (state_in self.old) (state_in self.new)) }
        ensures survives { Survives self.new }
    {
        let told = send_again(&mut self.server, ask)?;
        self.sealed = is_sealed_now(&self.server, self.sealed);
        Ok(told)
    }

    /// Arms its disk: the write number `after` from now on stops inside itself; 0 takes that back.
    pub fn stop(&mut self, after: u64)
        ensures stops { self.new ≡ armed_by after self.old }
        ensures arms { IsArmed after (state_in self.old) (state_in self.new) }
        ensures count { self.old.server.up ≡ true → self.new.disk.armed ≡ after }
        ensures survives { Survives self.new }
    {
        self.server.stop(after);
    }

    /// Brings it up, with the write inside which it stopped or without. False only where its disk
    /// failed, and then it stays down.
    ///
    /// Cost: one pass over its records.
    pub fn restart(&mut self, word: u64) -> Result<bool, AllocError>
        ensures up { self.old.server.up ≡ true → (result ≡ Ok true) × (self.new ≡ record self.old { restarts = bumped self.old.restarts }) }
        ensures restarted { result ≡ Ok true → (kept : Bool) × (self.new.server ≡ restarted self.old.server kept self.old.server.torn) }
        ensures failed { result ≡ Ok false → self.new.server ≡ self.old.server }
        ensures memory { OnErr result (self.new.server ≡ self.old.server) }
        ensures rises { IfOk result (λ up. RestartsTo word up (state_in self.old) (state_in self.new)) }
        ensures spared { OnErr result (MayReopen word (state_in self.old) (state_in self.new)) }
        ensures survives { Survives self.new }
    {
        let up = self.server.restart(word)?;
        self.sealed = is_sealed_now(&self.server, self.sealed);
        Ok(up)
    }
}

/// Whether a server is sealed: it tells so where it is up, else it is what it was.
fn is_sealed_now<D: Disk>(server: &LogServer<D>, before: bool) -> bool
    ensures { result ≡ (if server.now.server.up then is_sealed server.now.server else before) }
{
    seal_told(&server.tail(), before)
}

/// Whether a server is sealed that answers so, where it is down whether it was before.
fn seal_told(told: &Told, before: bool) -> bool
    ensures { result ≡ seal_told_by told.now before }
{
    match told {
        Told::Sealed(_) => true,
        Told::Unsealed(_) => false,
        _ => before,
    }
}

/// The length that an answer tells, 0 where it tells none.
fn length_told(told: &Told) -> u64
    ensures { result ≡ length_told_by told.now }
{
    match told {
        Told::Sealed(length) => *length,
        Told::Unsealed(length) => *length,
        _ => 0,
    }
}

/// Asks a server what the errand says: an entry that it names is one of those from the cut on.
#[tactic(auto, using(crate::proofs::Rules::store_there, crate::proofs::Rules::repair_there, crate::proofs::Rules::kept_small, crate::proofs::Rules::stored_answers, crate::proofs::Rules::repaired_answers))]
fn send<D: Disk>(
    server: &mut LogServer<D>,
    errand: Errand,
    entries: &VecDeque<Entry>,
    cut: u64,
) -> Result<Told, AllocError>
    requires there { (ask : asks.Ask) × (asked_by entries.now.items cut errand ≡ Some ask) }
    requires spelled { (i : ℕ) (e : entries_of.Entry) → slice_get entries.now.items i ≡ Some e → IsSpellable e }
    requires small { cut + length entries.now.items ≤ 2 ^ 32 }
    ensures answers { IfOk result (λ told. (ask : asks.Ask) → asked_by entries.now.items cut errand ≡ Some ask → Answers server.old ask told server.new) }
    ensures memory { OnErr result (server.new ≡ record server.old { disk = server.new.disk }) }
    ensures spared { OnErr result (Spares 1 server.old.disk server.new.disk) }
    ensures survives { Survives server.new }
{
    match errand {
        Errand::Store(place) => server.store(place, entry_at(entries, cut, place)),
        Errand::Seal => server.seal(),
        Errand::Tail => Ok(server.tail()),
        Errand::Repair(place) => server.repair(place, entry_at(entries, cut, place)),
        Errand::Read(place) => server.read(place),
        Errand::Trim => server.trim(cut),
    }
}

/// Asks a server this.
fn send_again<D: Disk>(server: &mut LogServer<D>, ask: &Ask) -> Result<Told, AllocError>
    requires can { CanAsk ask.now }
    ensures answers { IfOk result (λ told. Answers server.old ask.now told server.new) }
    ensures memory { OnErr result (server.new ≡ record server.old { disk = server.new.disk }) }
    ensures spared { OnErr result (Spares 1 server.old.disk server.new.disk) }
    ensures survives { Survives server.new }
{
    match ask {
        Ask::Store(place, entry) => server.store(*place, entry),
        Ask::Seal => server.seal(),
        Ask::Tail => Ok(server.tail()),
        Ask::Repair(place, entry) => server.repair(*place, entry),
        Ask::Read(place) => server.read(*place),
        Ask::Trim(place) => server.trim(*place),
    }
}
