//! A node.
ghost use Rattle.std.specs.Prelude.{◌≡◌, ◌≢◌, ◌<◌, ◌^◌, ◌≤◌, ◌+◌, ◌⊎◌, ℕ, max, List, None, Some, [], ◌∷◌, ◌++◌, false, true, IfOk, OnOk, OnErr, IfErr, length};
ghost use Rattle.delos_types.specs.declared.entry.Entry.{Entry};
ghost use Rattle.disk_model.specs.Crash.{AnyCrash};
ghost use Rattle.engine_api.specs.Packing.{IsProposable, packed, trim_item};
ghost use Rattle.engine_steps.specs.Layout as layout;
ghost use Rattle.legal_journal.specs.Journal.{IsLegal};
ghost use Rattle.virtual_log.specs.Truncating.{IsPrefixTrimmed};
ghost use Rattle.virtual_log.specs.Turning.{Later, IsAbove};
ghost use Rattle.virtual_log.specs.Sealing.{SealsLast};
ghost use Rattle.base_engine.specs.Causes.{Blames};
ghost use Rattle.base_engine.specs.Arming.{LeavesArming, FailsOnce, RecoversOnce, StoreTwice, FailsToOpen};
ghost use Rattle.base_engine.specs.Following.{Follows, IsFound, Reaches, IsAt, GoesOn, EndsBy};
ghost use Rattle.replica_api.specs.Replica.{SpellsOne, Survives, Flushes, Queues, Recovered, armed_by, saved_in};
ghost use Rattle.base_engine.specs.Settling.{view_of, Settled, Lands, Begins, BeginsEachOnce, Answers, Failing, cause_in};
ghost use Rattle.base_engine.specs.Proposing.{Sent, Proposed, Refused, IsNear};
ghost use Rattle.base_engine.specs.Node.{NodeView, NodeOk, Keeps};
ghost use Rattle.base_engine.specs.Querying.{found_in};
ghost use Rattle.base_engine.specs.Reading.{IsFront, IsExtendedBy};
ghost use Rattle.base_engine.specs.Trimming.{least_of, trim_to, IsFloor, ShowsAll, Trims, AsksThrough, Untrimmed, IsEarlier};

use crate::fault::Fault;
use crate::outbox::{Outbox, cause_of};
use crate::play::{play, restore, sync};
use crate::propose::{flush, propose};
use crate::read::read;
use crate::rest::Rested;
use crate::settle::settle_all;
use crate::shared_log::SharedLog;
use crate::trim::{extend, least, trim_applied, trim_now};
use delos_types::bytes::Bytes;
use delos_types::cause::Cause;
use delos_types::item::Item;
use delos_types::numbers::{NodeId, Rank, SessionId};
use engine_steps::layout::Kept;
use replica_api::replica::Replica;
use std::alloc::{AllocError, Global};
use std::marker::Model;
use table_core::command::{Found, Query};
use virtual_log::extend::Extension;

/// A node: the log that it shares with others, its replica, and what it has sent down and not settled.
///
/// Its replica has the state of the log's first `cursor` entries, after any crash too. At most 4 entries are outstanding.
#[derive(Drop)]
pub struct Node<L: SharedLog, R: Replica> {
    pub(crate) alloc: Global,
    pub(crate) log: L,
    pub(crate) replica: R,
    pub(crate) outbox: Outbox,
    pub(crate) nodes: u8,
}

impl<L: SharedLog, R: Replica> Model for Node<L, R> {
    ghost use Rattle.base_engine.specs.Settling.{view_of};
    ghost use Rattle.base_engine.specs.Node.{NodeView, NodeOk};
    ghost use Rattle.std.specs.Coded.{codes};
    ghost use Rattle.base_engine.specs.Codes.{space_code};

    ghost Value = { NodeView };

    ghost coded = { Prim.hlevel (codes, space_code) };

    ghost view = { λ n. record { who = L.who n.log; nodes = n.nodes; seen = L.seen n.log; known = L.reaches n.log; replica = R.shows n.replica; outbox = view_of n.outbox } };

    ghost invariant = { λ n. NodeOk L.Law.law L.holds R.meaning (record { who = L.who n.log; nodes = n.nodes; seen = L.seen n.log; known = L.reaches n.log; replica = R.shows n.replica; outbox = view_of n.outbox }) };
}

impl<L: SharedLog, R: Replica> Node<L, R> {
    /// One of so many nodes, whose replica has applied nothing. Makes no event, and takes no memory.
    pub fn new(alloc: Global, nodes: u8, log: L, replica: R) -> Self
        requires nodes { nodes ≤ 8 }
        requires legal { IsLegal L.Law.law (L.seen log) }
        requires empty { R.meaning.state [] (R.shows replica).contents }
        requires start { (R.shows replica).cursor ≡ 0 }
        requires none_asked { (R.shows replica).asked ≡ None }
        requires nothing_waits { (R.shows replica).kept ≡ [] }
        requires survives { Survives R.meaning.spells (R.shows replica) }
        ensures fresh { result ≡ record { who = L.who log; nodes = nodes; seen = L.seen log; known = L.reaches log; replica = R.shows replica; outbox = record { entries = []; given = []; unsettled = None } } }
    {
        Node {
            alloc,
            log,
            replica,
            outbox: Outbox {
                entries: Vec::new(alloc),
                given: Vec::new(alloc),
                unsettled: None,
            },
            nodes,
        }
    }

    /// The parts again. Takes no memory.
    pub fn into_parts(self) -> (L, R)
        ensures who { L.who result.0 ≡ self.who }
        ensures seen { L.seen result.0 ≡ self.seen }
        ensures replica { R.shows result.1 ≡ self.replica }
        ensures follows { Follows L.holds R.meaning self.seen self.replica }
    {
        let Node {
            alloc: _,
            log,
            replica,
            outbox: _,
            nodes: _,
        } = self;
        (log, replica)
    }

    /// How much of the log it knows: the greatest position + 1 or tail that it was answered.
    pub fn known(&self) -> u64
        ensures { result ≡ self.now.known }
    {
        self.log.known()
    }

    /// How many entries of the log its state has.
    pub fn cursor(&self) -> u64
        ensures cursor { result ≡ self.now.replica.cursor }
        ensures follows { Follows L.holds R.meaning self.now.seen self.now.replica }
    {
        self.replica.cursor()
    }

    /// Whether its store is down.
    pub fn is_down(&self) -> bool
        ensures { result ≡ self.now.replica.down }
    {
        self.replica.is_down()
    }

    /// The value at a key of the table, in the state of the log's first `cursor` entries.
    pub fn value(&self, key: &[u8]) -> Result<Option<Bytes>, AllocError>
        ensures value { IfOk result (λ value. value ≡ layout.value_of self.now.replica.contents key.now) }
        ensures follows { Follows L.holds R.meaning self.now.seen self.now.replica }
    {
        self.replica.value(key)
    }

    /// What the table answers to a read, in the state of the log's first `cursor` entries.
    pub fn read(&self, query: &Query) -> Result<Found, AllocError>
        ensures found { IfOk result (λ found. found ≡ found_in self.now.replica.contents query.now) }
        ensures follows { Follows L.holds R.meaning self.now.seen self.now.replica }
    {
        read(self.alloc, &self.replica, query)
    }

    /// Where a rank acted and what it was answered, in the state of the log's first `cursor` entries.
    pub fn reply_of(&self, session: SessionId, rank: Rank) -> Result<Option<Kept>, AllocError>
        ensures reply { IfOk result (λ kept. kept ≡ layout.reply_of self.now.replica.contents session rank) }
        ensures follows { Follows L.holds R.meaning self.now.seen self.now.replica }
    {
        self.replica.reply_of(session, rank)
    }

    /// How many first entries are clean.
    pub fn clean(&self) -> Result<u64, AllocError>
        ensures clean { IfOk result (λ clean. clean ≡ layout.clean_of self.now.replica.contents self.now.replica.cursor) }
        ensures follows { Follows L.holds R.meaning self.now.seen self.now.replica }
    {
        self.replica.clean()
    }

    /// Whether a node has left, in the state of the log's first `cursor` entries.
    pub fn has_left(&self, node: NodeId) -> Result<bool, AllocError>
        ensures left { IfOk result (λ left. left ≡ layout.has_left_in self.now.replica.contents node) }
        ensures legal { IsLegal L.Law.law self.now.seen }
        ensures follows { Follows L.holds R.meaning self.now.seen self.now.replica }
    {
        self.replica.has_left(node)
    }

    /// The least of the positions that members reported, in the state of the log's first `cursor` entries; 0 where no node
    /// is a member.
    pub fn least(&self) -> Result<u64, AllocError>
        ensures least { IfOk result (λ least. least ≡ least_of self.now.nodes self.now.replica.contents) }
        ensures follows { Follows L.holds R.meaning self.now.seen self.now.replica }
    {
        least(&self.replica, self.nodes)
    }

    /// Finds a tail of the log, plays up to it, and answers it.
    pub fn sync(&mut self) -> Result<u64, Fault>
        ensures keeps { Keeps L.Law.law self.old self.new }
        ensures follows { Follows L.holds R.meaning self.new.seen self.new.replica }
        ensures synced { IfOk result (λ tail. IsAbove self.old.who self.old.seen tail self.new.seen) }
        ensures cursor { IfOk result (λ tail. IsAt tail self.new.replica self.new.seen) }
        ensures within { IfOk result (λ tail. self.new.replica.cursor ≤ tail) }

        // It went on from where it was by entries that the log holds, one behind another, with any answer.
        ensures goes_on { GoesOn L.holds R.meaning.state self.new.seen (saved_in self.old.replica) (saved_in self.new.replica) }

        // It is the log's tail, where no event of another came meanwhile and nothing was trimmed that wasn't played.
        ensures exact { IfOk result (λ tail. EndsBy self.old.who self.old.replica.cursor self.old.seen tail self.new.seen) }
        ensures blames { IfErr result (λ f. Blames self.old.who self.old.seen self.old.replica.faults f self.new.seen self.new.replica.faults) }
        ensures any_crash { AnyCrash self.old.replica.disk self.new.replica.disk (SpellsOne R.meaning.spells (IsFound L.holds R.meaning.state self.new.seen self.old.replica.cursor)) }
        ensures kept { self.new.replica.kept ≡ self.old.replica.kept }
        ensures outbox { self.new.outbox ≡ self.old.outbox }

        // Nobody but a stop arms the disk, and a store is opened again with word 0 alone. The store is a cause where its disk failed
        // twice, or failed again.
        ensures arming { LeavesArming 0 self.old.replica self.new.replica }
        ensures twice { IfErr result (λ f. StoreTwice self.old.replica f self.new.replica) }
        ensures once { OnOk result (FailsOnce self.old.replica self.new.replica) }
        ensures once_refused { IfErr result (λ f. RecoversOnce self.old.replica f self.new.replica) }
    {
        sync(&mut self.log, &mut self.replica)
    }

    /// Applies entries until the cursor is at `to`, which is known. A store that fails, or is down, is opened again once,
    /// with word 0, where there is an entry to apply.
    pub fn play(&mut self, to: u64) -> Result<(), Fault>
        requires { to ≤ self.old.known }
        ensures keeps { Keeps L.Law.law self.old self.new }
        ensures follows { Follows L.holds R.meaning self.new.seen self.new.replica }
        ensures reaches { OnOk result (Reaches to self.old.replica self.new.replica self.new.seen) }
        ensures within { self.new.replica.cursor ≤ max self.old.replica.cursor to }

        // It went on from where it was by entries that the log holds, one behind another, with any answer.
        ensures goes_on { GoesOn L.holds R.meaning.state self.new.seen (saved_in self.old.replica) (saved_in self.new.replica) }
        ensures blames { IfErr result (λ f. Blames self.old.who self.old.seen self.old.replica.faults f self.new.seen self.new.replica.faults) }
        ensures any_crash { AnyCrash self.old.replica.disk self.new.replica.disk (SpellsOne R.meaning.spells (IsFound L.holds R.meaning.state self.new.seen self.old.replica.cursor)) }
        ensures kept { self.new.replica.kept ≡ self.old.replica.kept }
        ensures outbox { self.new.outbox ≡ self.old.outbox }

        // Nobody but a stop arms the disk, and a store is opened again with word 0 alone. The store is a cause where its disk failed
        // twice, or failed again.
        ensures arming { LeavesArming 0 self.old.replica self.new.replica }
        ensures twice { IfErr result (λ f. StoreTwice self.old.replica f self.new.replica) }
        ensures once { OnOk result (FailsOnce self.old.replica self.new.replica) }
        ensures once_refused { IfErr result (λ f. RecoversOnce self.old.replica f self.new.replica) }
    {
        play(&mut self.log, &mut self.replica, to)
    }

    /// Proposes an item.
    pub fn propose(&mut self, item: Item) -> Result<(), Fault>
        requires item { IsProposable item }
        requires own { L.Law.law.may self.old.who (packed self.old.replica.origin (self.old.replica.kept ++ item ∷ [])) }
        ensures keeps { Keeps L.Law.law self.old self.new }
        ensures follows { Follows L.holds R.meaning self.new.seen self.new.replica }
        ensures proposed { OnOk result (Proposed L.holds self.old.who self.old.seen self.old.outbox self.old.replica item self.new.seen self.new.outbox self.new.replica) }
        ensures refused { IfErr result (λ f. Refused L.holds self.old.who self.old.seen self.old.outbox item f self.new.seen self.new.outbox) }
        ensures same { OnErr result (self.new.replica.kept ≡ self.old.replica.kept) }

        // An item that is near as it is proposed goes down, and nothing is played.
        ensures near { IsNear self.old.replica.contents item → OnOk result (Sent L.holds self.old.who self.old.seen self.old.outbox (λ packed. Queues self.old.replica.origin self.old.replica.kept item packed self.new.replica.kept) self.new.seen self.new.outbox) × IfErr result (λ f. f ≡ Fault.Memory) × (self.new.replica ≡ record self.old.replica { kept = self.new.replica.kept }) }
        ensures blames { IfErr result (λ f. Blames self.old.who self.old.seen self.old.replica.faults f self.new.seen self.new.replica.faults) }
        ensures any_crash { AnyCrash self.old.replica.disk self.new.replica.disk (SpellsOne R.meaning.spells (IsFound L.holds R.meaning.state self.new.seen self.old.replica.cursor)) }

        // Nobody but a stop arms the disk, and a store is opened again with word 0 alone. The store is a cause where its disk failed
        // twice, or failed again.
        ensures arming { LeavesArming 0 self.old.replica self.new.replica }
        ensures twice { IfErr result (λ f. StoreTwice self.old.replica f self.new.replica) }
        ensures once { OnOk result (FailsOnce self.old.replica self.new.replica) }
        ensures once_refused { IfErr result (λ f. RecoversOnce self.old.replica f self.new.replica) }
    {
        propose(
            self.alloc,
            &mut self.log,
            &mut self.replica,
            &mut self.outbox,
            item,
        )
    }

    /// What waits is packed, and is outstanding then.
    pub fn flush(&mut self) -> Result<(), AllocError>
        ensures keeps { Keeps L.Law.law self.old self.new }
        ensures sent { OnOk result (Sent L.holds self.old.who self.old.seen self.old.outbox (λ packed. Flushes self.old.replica.origin self.old.replica.kept packed self.new.replica.kept) self.new.seen self.new.outbox) }
        ensures rest { self.new.replica ≡ record self.old.replica { kept = self.new.replica.kept } }
        ensures unsent { OnErr result (Settled L.holds self.old.who self.old.seen self.old.outbox self.new.seen self.new.outbox) }
        ensures same { OnErr result (self.new.replica ≡ self.old.replica) }
    {
        flush(
            self.alloc,
            &mut self.log,
            &mut self.replica,
            &mut self.outbox,
        )
    }

    /// Carries all outstanding entries to their end, one after another, and answers the first cause since the last
    /// settling.
    pub fn settle_all(&mut self) -> Result<(), Fault>
        ensures keeps { Keeps L.Law.law self.old self.new }
        ensures replica { self.new.replica ≡ self.old.replica }
        ensures calm { OnOk result (Answers L.holds self.old.who self.old.seen self.old.outbox None self.new.seen self.new.outbox) }

        // With Ok all of them were appended, at positions that are known.
        ensures landed { OnOk result (Lands L.holds self.old.who self.old.seen self.old.outbox.entries self.new.seen self.new.known) }

        // It began each of them once, beyond what loglets refused that were sealed; where one failed, at most once.
        ensures begun { OnOk result (Begins self.old.who (length self.old.outbox.entries) self.old.seen self.new.seen) }
        ensures once { BeginsEachOnce self.old.who self.old.seen self.old.outbox.entries self.new.seen }
        ensures failing { IfErr result (λ f. Failing L.holds self.old.who self.old.seen self.old.outbox f self.new.seen self.new.outbox) }
    {
        settle_all(self.alloc, &mut self.log, &mut self.outbox)
    }

    /// The first cause that a session was given since the last `next_phase`.
    pub fn cause_of(&self, session: SessionId) -> Option<Cause>
        ensures { result ≡ cause_in session self.now.outbox.given }
    {
        cause_of(&self.outbox.given, session)
    }

    /// Forgets all causes that were given.
    pub fn next_phase(&mut self)
        ensures { self.new ≡ record self.old { outbox = record self.old.outbox { given = [] } } }
    {
        self.outbox.given.clear();
    }

    /// Opens the store again, where it is down. The word chooses what a stopped commit left.
    pub fn recover(&mut self, word: u64) -> Result<(), Fault>
        ensures keeps { Keeps L.Law.law self.old self.new }
        ensures follows { Follows L.holds R.meaning self.new.seen self.new.replica }
        ensures near { self.new.replica.cursor ≤ self.old.replica.cursor + 1 }
        ensures goes_on { GoesOn L.holds R.meaning.state self.new.seen (saved_in self.old.replica) (saved_in self.new.replica) }
        ensures up { OnOk result (self.new.replica.down ≡ false) }
        ensures kept { self.new.replica.kept ≡ self.old.replica.kept }
        ensures outbox { self.new.outbox ≡ self.old.outbox }
        ensures seen { self.new.seen ≡ self.old.seen }
        ensures blames { IfErr result (λ f. Blames self.old.who self.old.seen self.old.replica.faults f self.new.seen self.new.replica.faults) }
        ensures any_crash { AnyCrash self.old.replica.disk self.new.replica.disk (SpellsOne R.meaning.spells (IsFound L.holds R.meaning.state self.new.seen self.old.replica.cursor)) }

        // Where it was up nothing is done; and it fails for the store only where the disk failed again.
        ensures recovered { OnOk result (Recovered word self.old.replica self.new.replica) }
        ensures fails { IfErr result (λ f. FailsToOpen word self.old.replica f self.new.replica) }
        ensures arming { LeavesArming word self.old.replica self.new.replica }
        ensures twice { IfErr result (λ f. StoreTwice self.old.replica f self.new.replica) }
    {
        restore(&self.log, &mut self.replica, word)
    }

    /// Arms the disk, where the store is up: its write number `after` from now on stops inside itself, as in a crash; 0 takes
    /// that back.
    pub fn stop(&mut self, after: u64)
        ensures { self.new ≡ record self.old { replica = armed_by self.old.replica after } }
    {
        self.replica.stop(after);
    }

    /// Lets the log go on in its next loglet. Where another does so first, answers `Moved`; where there is no next loglet,
    /// `NoSpare`, and nothing is sealed. It is for those alone who may seal.
    pub fn extend(&mut self) -> Result<Extension, Fault>
        requires right { L.Law.seals self.old.who }
        ensures keeps { Keeps L.Law.law self.old self.new }
        ensures follows { Follows L.holds R.meaning self.new.seen self.new.replica }
        ensures extension { IfOk result (IsExtendedBy (length L.Law.law.shelf) self.old.who self.old.seen self.old.known self.new.known self.new.seen) }

        // Whatever comes of it, it begins no Seal, or one of the loglet that its first look had as the last one.
        ensures seals { SealsLast self.old.who self.old.seen self.new.seen }

        // No fault is the disk's, whatever that counted.
        ensures blames { IfErr result (λ f. (faults faults' : ℕ) → Blames self.old.who self.old.seen faults f self.new.seen faults') }
        ensures replica { self.new.replica ≡ self.old.replica }
        ensures outbox { self.new.outbox ≡ self.old.outbox }
    {
        extend(&mut self.log)
    }

    /// Finds a tail and plays up to it; asks for a trim to the least position of a member then, by an entry that is appended
    /// with all that is outstanding; plays the log as far as it is known, and trims it up to its trim point, but not past a
    /// member's position, nor past what was applied. Answers the trim.
    pub fn trim_now(&mut self) -> Result<u64, Fault>
        // The log's rules allow a trim up to the trim point, but not past the least position of a member.
        requires floor { IsFloor R.meaning.state L.Law.law.floor self.old.nodes }
        requires own { (position : ℕ) → position < 2 ^ 64 → L.Law.law.may self.old.who (packed self.old.replica.origin (self.old.replica.kept ++ trim_item position ∷ [])) }

        // By the log's rules it shows what it holds, or did before it was trimmed.
        requires shown { ShowsAll L.Law.law L.holds }
        ensures keeps { Keeps L.Law.law self.old self.new }
        ensures follows { Follows L.holds R.meaning self.new.seen self.new.replica }
        ensures trims { IfOk result (Trims L.holds R.meaning.state self.old.nodes self.old.who self.old.replica.origin self.old.seen self.new.seen self.new.replica self.new.known) }

        // All that was outstanding, and behind it the request with what waited, was appended. No session is given a cause.
        ensures through { OnOk result (AsksThrough L.holds self.old.who self.old.replica.origin self.old.seen self.old.outbox self.old.replica.kept None self.new.seen self.new.outbox self.new.replica.kept) }
        ensures untrimmed { IfErr result (λ f. Untrimmed L.holds self.old.who self.old.replica.origin self.old.seen self.old.outbox self.old.replica.kept f self.new.seen self.new.outbox self.new.replica.kept) }

        // The cause that waited for a settling, or one of this call.
        ensures blames { IfErr result (λ f. IsEarlier self.old.outbox.unsettled f ⊎ Blames self.old.who self.old.seen self.old.replica.faults f self.new.seen self.new.replica.faults) }
        ensures any_crash { AnyCrash self.old.replica.disk self.new.replica.disk (SpellsOne R.meaning.spells (IsFound L.holds R.meaning.state self.new.seen self.old.replica.cursor)) }

        // Nobody but a stop arms the disk, and a store is opened again with word 0 alone. The store is a cause where its disk failed
        // twice, or failed again.
        ensures arming { LeavesArming 0 self.old.replica self.new.replica }
        ensures twice { IfErr result (λ f. IsEarlier self.old.outbox.unsettled f ⊎ StoreTwice self.old.replica f self.new.replica) }
    {
        trim_now(
            self.alloc,
            &mut self.log,
            &mut self.replica,
            &mut self.outbox,
            self.nodes,
        )
    }

    /// Trims the log to the lesser of its trim point and the least position of a member, in the state of what was applied,
    /// but not past that. Answers the trim. Plays nothing, and gives nothing to sessions.
    ///
    /// Cost: two reads of the space for each node and one more, and a trim of each loglet.
    pub fn trim_applied(&mut self) -> Result<u64, Fault>
        requires shown { ShowsAll L.Law.law L.holds }

        // So much of what was applied the log's rules let go.
        requires free { (log : List Entry) → IsFront L.holds self.old.seen log → length log ≡ self.old.replica.cursor → L.Law.law.floor log (trim_to self.old.nodes self.old.replica) }
        ensures keeps { Keeps L.Law.law self.old self.new }
        ensures follows { Follows L.holds R.meaning self.new.seen self.new.replica }
        ensures replica { self.new.replica ≡ self.old.replica }
        ensures outbox { self.new.outbox ≡ self.old.outbox }
        ensures known { self.new.known ≡ self.old.known }
        ensures trims { IfOk result (λ trim. IsPrefixTrimmed self.old.who self.old.seen (trim_to self.old.nodes self.old.replica) trim self.new.seen) }
        ensures blames { IfErr result (λ f. Blames self.old.who self.old.seen self.old.replica.faults f self.new.seen self.new.replica.faults) }
    {
        trim_applied(&mut self.log, &self.replica, self.nodes)
    }

    /// Gives the log out, until `Rested::wake`. Makes no event, and takes no memory.
    pub fn rest(self) -> (Rested<R>, L)
        ensures rested { result.0 ≡ record { nodes = self.nodes; replica = self.replica; outbox = self.outbox } }
        ensures who { L.who result.1 ≡ self.who }
        ensures seen { L.seen result.1 ≡ self.seen }
        ensures known { L.reaches result.1 ≡ self.known }
        ensures ok { NodeOk L.Law.law L.holds R.meaning self }
    {
        let Node {
            alloc,
            log,
            replica,
            outbox,
            nodes,
        } = self;
        let rested = Rested {
            alloc,
            replica,
            outbox,
            nodes,
        };
        (rested, log)
    }
}
