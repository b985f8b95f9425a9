//! The state machine of a node: the stack of engines over its store.
ghost use Rattle.std.specs.Prelude.{◌≡◌, ◌+◌, ◌<◌, ◌^◌, List, true, IfOk, OnErr};
ghost use Rattle.delos_types.specs.Spaces.{SpaceMap, least_key_from};
ghost use Rattle.delos_types.specs.declared.entry.Entry.{Entry};
ghost use Rattle.disk_model.specs.Crash.{AnyCrash};
ghost use Rattle.replica_api.specs.Replica.{Meaning, ReplicaView, SpellsOne, Survives, Takes, MayFind, MayFindDuring, Reopens, Queues, Flushes, armed_by};
ghost use Rattle.engine_api.specs.Packing.{IsProposable};
ghost use Rattle.engine_steps.specs.Layout as layout;
ghost use Rattle.log_laws.specs.State.{IsStateOf};

use delos_types::bytes::Bytes;
use delos_types::entry::Entry;
use delos_types::item::Item;
use delos_types::numbers::{NodeId, Rank, SessionId};
use engine_steps::layout::Kept;
use std::alloc::AllocError;

/// What becomes of an entry that comes up at the cursor.
#[derive(Drop)]
pub enum Applied {
    /// It was applied, and what it led to is kept.
    Done,
    /// The disk failed.
    DiskFault,
    /// The disk had failed before.
    Down,
    Memory,
}

/// What becomes of a store that is opened again.
#[derive(Drop)]
pub enum Reopened {
    Done,
    DiskFault,
    Memory,
}

/// A state machine that keeps its state and its cursor on a disk, both or neither.
pub trait Replica {
    ghost shows: { Self → ReplicaView };

    /// What its bytes and its log mean.
    ghost meaning: { Meaning };

    fn cursor(&self) -> u64
        ensures cursor { result ≡ (shows self.now).cursor };

    fn is_down(&self) -> bool
        ensures down { result ≡ (shows self.now).down };

    /// The entry comes up at the cursor: what it does is kept in one transaction with the next cursor.
    fn apply(&mut self, entry: &Entry) -> Applied
        requires { (shows self.old).cursor + 1 < 2 ^ 64 }
        ensures takes { Takes meaning.state (shows self.old) entry.now result (shows self.new) }
        ensures survives { Survives meaning.spells (shows self.new) }
        ensures any_crash { AnyCrash (shows self.old).disk (shows self.new).disk (SpellsOne meaning.spells (MayFindDuring meaning.state (shows self.old) entry.now)) };

    /// Opens the store again, where it is down: its disk is reopened by the word, which chooses what it kept and is shown from
    /// then on. It is counted, also where the store is up and nothing is done, but not where it answers `Memory`.
    fn reopen(&mut self, word: u64) -> Reopened
        ensures reopens { Reopens (shows self.old) word result (shows self.new) }
        ensures survives { Survives meaning.spells (shows self.new) }
        ensures any_crash { AnyCrash (shows self.old).disk (shows self.new).disk (SpellsOne meaning.spells (MayFind (shows self.old))) };

    /// An item goes down through the engines. It waits there, or is packed with the 15 that wait.
    fn send(&mut self, item: Item) -> Result<Option<Entry>, AllocError>
        requires { IsProposable item }
        ensures queued { IfOk result (λ packed. Queues (shows self.old).origin (shows self.old).kept item packed (shows self.new).kept) }
        ensures ok { shows self.new ≡ record (shows self.old) { kept = (shows self.new).kept } }
        ensures err { OnErr result (shows self.new ≡ shows self.old) };

    /// What waits is packed; none where nothing waits.
    fn flush(&mut self) -> Result<Option<Entry>, AllocError>
        ensures flushed { IfOk result (λ packed. Flushes (shows self.old).origin (shows self.old).kept packed (shows self.new).kept) }
        ensures ok { shows self.new ≡ record (shows self.old) { kept = (shows self.new).kept } }
        ensures err { OnErr result (shows self.new ≡ shows self.old) };

    /// Arms the disk, where the store is up: its write number `after` from now on stops inside itself, as in a crash; 0
    /// takes that back. It is counted in any case.
    fn stop(&mut self, after: u64)
        ensures { shows self.new ≡ armed_by (shows self.old) after };

    /// The last rank of a session that acted, 0 where none did.
    fn last_rank(&self, session: SessionId) -> Result<u64, AllocError>
        ensures { IfOk result (λ rank. rank ≡ layout.last_of (shows self.now).contents session) };

    /// Where a rank acted and what it was answered, while that is kept.
    fn reply_of(&self, session: SessionId, rank: Rank) -> Result<Option<Kept>, AllocError>
        ensures { IfOk result (λ kept. kept ≡ layout.reply_of (shows self.now).contents session rank) };

    /// How many first entries are clean.
    fn clean(&self) -> Result<u64, AllocError>
        ensures { IfOk result (λ clean. clean ≡ layout.clean_of (shows self.now).contents (shows self.now).cursor) };

    /// Whether a node has left.
    fn has_left(&self, node: NodeId) -> Result<bool, AllocError>
        ensures { IfOk result (λ left. left ≡ layout.has_left_in (shows self.now).contents node) };

    /// The greatest position that a node reported, 0 where it reported none.
    fn reported(&self, node: NodeId) -> Result<u64, AllocError>
        ensures { IfOk result (λ position. position ≡ layout.reported_of (shows self.now).contents node) };

    /// The greatest position below which a trim was asked for, 0 where none was.
    fn trim_point(&self) -> Result<u64, AllocError>
        ensures { IfOk result (λ position. position ≡ layout.trim_of (shows self.now).contents) };

    /// The value at a key of the table.
    fn value(&self, key: &[u8]) -> Result<Option<Bytes>, AllocError>
        ensures { IfOk result (λ value. value ≡ layout.value_of (shows self.now).contents key.now) };

    /// The least key of the table that is at or above this one; None where there is none.
    fn key_from(&self, key: &[u8]) -> Result<Option<Bytes>, AllocError>
        ensures { IfOk result (λ found. found ≡ least_key_from (shows self.now).contents 5 key.now) };

    /// What it keeps is the state of the log.
    ghost state_is: { (log : List Entry) (m : SpaceMap) → meaning.state log m → IsStateOf log m };
}
