//! Laws of a run that its nodes tell together. Each function does nothing: its contract is the law.
ghost use Rattle.std.specs.Prelude.{◌≡◌, ◌⊎◌, ◌<◌, ◌≤◌, ◌+◌, ℕ, Bool, true, false, List, [], length, count_by, Contains, Option, Some, slice_get};
ghost use Rattle.std.specs.List.{AllByRecursion};
ghost use Rattle.delos_types.specs.declared.entry.Entry.{Entry};
ghost use Rattle.delos_types.specs.declared.cause.Cause.{Cause};
ghost use Rattle.delos_types.specs.declared.cause.Cause.TheVariants as cause;
ghost use Rattle.chain_map.specs.Chain.{last_id};
ghost use Rattle.legal_journal.specs.declared.events.Event.{Event};
ghost use Rattle.legal_journal.specs.Journal.{IsLegal, state_of, trim_of};
ghost use Rattle.legal_journal.specs.Sealing.{begins_seal};
ghost use Rattle.journal_laws.specs.Changes.{appended};
ghost use Rattle.journal_laws.specs.Faults.{faults_in};
ghost use Rattle.virtual_log.specs.Holding.{Holds};
ghost use Rattle.virtual_log.specs.declared.extend.Extension.{Extension};
ghost use Rattle.virtual_log.specs.declared.extend.Extension.TheVariants.{Extended, Moved};
ghost use Rattle.engine_api.specs.declared.content.Content.TheVariants as content;
ghost use Rattle.engine_api.specs.declared.content.Placed.{Placed};
ghost use Rattle.engine_api.specs.Items.{unpack};
ghost use Rattle.turn_scopes.specs.Floors.{FloorIs};
ghost use Rattle.turn_scopes.specs.Seats.{SeatView};
ghost use Rattle.script_text.specs.declared.line.Admin.TheVariants.{Alive, Retire};
ghost use Rattle.script_text.specs.declared.asks.NamedLine.{NamedLine};
ghost use Rattle.fitting_run.specs.Faults.{lacks_store};
ghost use Rattle.fitting_run.specs.Replacements.{goes_by_ones};
ghost use Rattle.node_lines.specs.declared.desk.Desk.{Desk};
ghost use Rattle.node_lines.specs.declared.lines.Looked.{Looked};
ghost use Rattle.node_lines.specs.declared.lines.Looked.TheVariants as looked;
ghost use Rattle.node_lines.specs.UnderWay.{HasRank};
ghost use Rattle.node_lines.specs.Workers.{Grows, IsHome, MayRun, ReportsUpTo};
ghost use Rattle.run_laws.specs.Ended.{CameTo};
ghost use Rattle.node_course.specs.Script.{AreLines, asked_before, failed_looks};
ghost use Rattle.node_course.specs.Moments.{NodeCourse, moment, tails};
ghost use Rattle.node_course.specs.Played.{Came, goes_further, went_further};
ghost use Rattle.node_course.specs.Replacing.{GoesBefore, IsPassed, IsReplaced};
ghost use Rattle.node_course.specs.Reporting.{StandsThere};
ghost use Rattle.node_course.specs.Telling.{AskedFor, HasToldSo, TellsAtLeast};
ghost use Rattle.node_course.specs.Desks.{DeskAt, PlayedSo};
ghost use Rattle.node_course.specs.Workers.{NodeAt};
ghost use Rattle.node_course.specs.Joined.{AreJoined, AreOfNodes, HadLowest, IsClean};

use legal_journal::rules::Rules;
use replica_api::replica::Replica;

/// The journal of a run is legal, and each moment at which a phase began begins the next.
pub fn a_run_goes_by_moments<P: Rules>()
    ensures legal { (lines : List NamedLine) (home : ℕ → ℕ) (nodes : ℕ) (run : NodeCourse) (looks : List (Option Looked)) (courses : ℕ → NodeCourse)
        → AreJoined P.law lines home nodes run looks courses → 1 ≤ nodes → IsLegal P.law run.seen }
    ensures rise { (lines : List NamedLine) (home : ℕ → ℕ) (nodes : ℕ) (run : NodeCourse) (looks : List (Option Looked)) (courses : ℕ → NodeCourse) (p : ℕ)
        → AreJoined P.law lines home nodes run looks courses → 1 ≤ nodes → Grows (moment run p) (moment run (p + 1)) }
{}

/// Lines of a run that replaced the last loglet have different versions, by whichever nodes, and the segment of the higher one doesn't
/// begin lower; each begins where the log ended at some time in its line's phase. Over phases and along a node versions rise; what
/// each came to stands at the end; and where a line found that another node had replaced it, another did in its phase.
pub fn versions_are_in_order<P: Rules>()
    ensures stand { (lines : List NamedLine) (home : ℕ → ℕ) (nodes : ℕ) (run : NodeCourse) (looks : List (Option Looked)) (courses : ℕ → NodeCourse) (n i : ℕ) (l : NamedLine) (x : Extension)
        → AreLines lines home nodes → AreJoined P.law lines home nodes run looks courses → Came lines looks n i l (looked.Extended x) → IsReplaced (length P.law.shelf) n (moment run l.phase) run.seen x }
    ensures passed { (lines : List NamedLine) (home : ℕ → ℕ) (nodes : ℕ) (run : NodeCourse) (looks : List (Option Looked)) (courses : ℕ → NodeCourse) (n i : ℕ) (l : NamedLine) (v : ℕ)
        → AreLines lines home nodes → AreJoined P.law lines home nodes run looks courses → Came lines looks n i l (looked.Extended (Moved v)) → IsPassed n (moment run l.phase) (moment run (l.phase + 1)) }
    ensures apart { (lines : List NamedLine) (home : ℕ → ℕ) (nodes : ℕ) (run : NodeCourse) (looks : List (Option Looked)) (courses : ℕ → NodeCourse) (a b i j : ℕ) (l m : NamedLine) (v w start other : ℕ)
        → AreLines lines home nodes → AreJoined P.law lines home nodes run looks courses → Came lines looks a i l (looked.Extended (Extended v start)) → Came lines looks b j m (looked.Extended (Extended w other)) → i < j → ((v < w) × (start ≤ other)) ⊎ ((w < v) × (other ≤ start)) }
    ensures begins { (lines : List NamedLine) (home : ℕ → ℕ) (nodes : ℕ) (run : NodeCourse) (looks : List (Option Looked)) (courses : ℕ → NodeCourse) (n i : ℕ) (l : NamedLine) (v start : ℕ)
        → AreLines lines home nodes → AreJoined P.law lines home nodes run looks courses → Came lines looks n i l (looked.Extended (Extended v start)) → (tails run l.phase ≤ start) × (start ≤ tails run (l.phase + 1)) }
    ensures rise { (lines : List NamedLine) (home : ℕ → ℕ) (nodes : ℕ) (run : NodeCourse) (looks : List (Option Looked)) (courses : ℕ → NodeCourse) (a b i j : ℕ) (l m : NamedLine) (x y : Extension)
        → AreLines lines home nodes → AreJoined P.law lines home nodes run looks courses → Came lines looks a i l (looked.Extended x) → Came lines looks b j m (looked.Extended y) → i < j → (l.phase < m.phase) ⊎ (l.node ≡ m.node) → GoesBefore x y }
{}

/// The last loglet of a run's chain is at least each node's number of lines that found the chain further on. Where no fault came, and only
/// nodes began Seals, it is at most the number of all of those. Where nothing is trimmed, each loglet up to it has a segment. Each version
/// of the chain made one loglet more, or trimmed the log.
pub fn the_chain_is_told<P: Rules>()
    ensures each { (lines : List NamedLine) (home : ℕ → ℕ) (nodes : ℕ) (run : NodeCourse) (looks : List (Option Looked)) (courses : ℕ → NodeCourse) (n : ℕ)
        → AreJoined P.law lines home nodes run looks courses → 1 ≤ n → n ≤ nodes → went_further n lines looks ≤ last_id (state_of run.seen).register.chain }
    ensures most { (lines : List NamedLine) (home : ℕ → ℕ) (nodes : ℕ) (run : NodeCourse) (looks : List (Option Looked)) (courses : ℕ → NodeCourse)
        → AreJoined P.law lines home nodes run looks courses → 1 ≤ nodes → ((e : Event) → Contains run.seen e → begins_seal e ≡ true → (1 ≤ e.who) × (e.who ≤ nodes)) → faults_in run.seen ≡ []
        → last_id (state_of run.seen).register.chain ≤ count_by goes_further looks }
    ensures segments { (lines : List NamedLine) (home : ℕ → ℕ) (nodes : ℕ) (run : NodeCourse) (looks : List (Option Looked)) (courses : ℕ → NodeCourse)
        → AreJoined P.law lines home nodes run looks courses → 1 ≤ nodes → trim_of (state_of run.seen) ≡ 0
        → length (state_of run.seen).register.chain.segments ≡ last_id (state_of run.seen).register.chain + 1 }
    ensures versions { (lines : List NamedLine) (home : ℕ → ℕ) (nodes : ℕ) (run : NodeCourse) (looks : List (Option Looked)) (courses : ℕ → NodeCourse)
        → AreJoined P.law lines home nodes run looks courses → 1 ≤ nodes → goes_by_ones (state_of run.seen).register.version (state_of run.seen).register.chain ≡ true }
{}

/// Each fault of a run had an event of its own, and came to one of the nodes. Those of a node's store are its own.
pub fn faults_add_up<P: Rules>()
    ensures events { (lines : List NamedLine) (home : ℕ → ℕ) (nodes : ℕ) (run : NodeCourse) (looks : List (Option Looked)) (courses : ℕ → NodeCourse) (kind : Cause → Bool) → kind cause.Store ≡ false
        → AreLines lines home nodes → AreJoined P.law lines home nodes run looks courses → failed_looks (λ n. kind) lines looks + count_by (λ f. kind f.cause) run.faults ≤ count_by kind (faults_in run.seen) }
    ensures nodes { (lines : List NamedLine) (home : ℕ → ℕ) (nodes : ℕ) (run : NodeCourse) (looks : List (Option Looked)) (courses : ℕ → NodeCourse)
        → AreJoined P.law lines home nodes run looks courses → AllByRecursion (λ f. (1 ≤ f.node) × (f.node ≤ nodes)) run.faults }
    ensures stores { (lines : List NamedLine) (home : ℕ → ℕ) (nodes : ℕ) (run : NodeCourse) (looks : List (Option Looked)) (courses : ℕ → NodeCourse) (n : ℕ)
        → AreJoined P.law lines home nodes run looks courses → 1 ≤ n → n ≤ nodes → count_by (λ f. lacks_store n f.node f.cause) run.faults ≡ count_by (λ f. lacks_store n f.node f.cause) (courses n).faults }
    ensures came { (lines : List NamedLine) (home : ℕ → ℕ) (nodes : ℕ) (run : NodeCourse) (looks : List (Option Looked)) (courses : ℕ → NodeCourse) (n phase : ℕ) (k : Cause)
        → AreJoined P.law lines home nodes run looks courses → 1 ≤ n → n ≤ nodes → CameTo (courses n).faults k n phase → CameTo run.faults k n phase }
{}

/// Where the log is trimmed, each node left, or reported so much, or it isn't known what it reported; and some node has applied so much.
pub fn what_is_trimmed_was_told<P: Rules>()
    ensures each { MayRun P.law → (lines : List NamedLine) (home : ℕ → ℕ) (nodes : ℕ) (run : NodeCourse) (looks : List (Option Looked)) (courses : ℕ → NodeCourse) (k : ℕ)
        → FloorIs P.law.floor nodes → AreJoined P.law lines home nodes run looks courses → 1 ≤ k → k ≤ nodes
        → (trim_of (state_of run.seen) ≡ 0) ⊎ (AskedFor lines looks k Retire (λ look. Unit {0}) ⊎ AskedFor lines looks k Alive (TellsAtLeast (trim_of (state_of run.seen)))) }
    ensures some { (nodes : ℕ) (seen : List Event) (cursors : ℕ → ℕ)
        → FloorIs P.law.floor nodes → IsLegal P.law seen → ((k : ℕ) → 1 ≤ k → k ≤ nodes → ReportsUpTo k (cursors k) seen)
        → (trim_of (state_of seen) ≡ 0) ⊎ ((k : ℕ) × (1 ≤ k) × (k ≤ nodes) × (trim_of (state_of seen) ≤ cursors k)) }
{}

/// What nodes told of how much is clean, and asked for as a trim, is clean.
pub fn what_is_told_is_clean<P: Rules>()
    ensures { MayRun P.law → (lines : List NamedLine) (home : ℕ → ℕ) (nodes : ℕ) (run : NodeCourse) (looks : List (Option Looked)) (courses : ℕ → NodeCourse) (e : Entry) (p : Placed)
        → AreOfNodes P.law.may nodes → 1 ≤ nodes → AreJoined P.law lines home nodes run looks courses → Contains (appended run.seen) e → Contains (unpack 0 e) p → IsClean run.seen p.content }
{}

/// What a line told, or trimmed, stands in the log: a report behind what it reports, and below where the next phase began. Where a line
/// trimmed the log, some node hadn't left by its lines before, and had reported no more in them.
pub fn what_lines_came_to_stands<P: Rules>()
    ensures told { (lines : List NamedLine) (home : ℕ → ℕ) (nodes : ℕ) (run : NodeCourse) (looks : List (Option Looked)) (courses : ℕ → NodeCourse) (n i : ℕ) (l : NamedLine) (look : Looked)
        → AreLines lines home nodes → AreJoined P.law lines home nodes run looks courses → Came lines looks n i l look → HasToldSo run.seen n look }
    ensures behind { MayRun P.law → (lines : List NamedLine) (home : ℕ → ℕ) (nodes : ℕ) (run : NodeCourse) (looks : List (Option Looked)) (courses : ℕ → NodeCourse) (n i : ℕ) (l : NamedLine) (position : ℕ)
        → AreLines lines home nodes → AreJoined P.law lines home nodes run looks courses → Came lines looks n i l (looked.Reported position) → (s : StandsThere run.seen (content.Alive n position)) × (position ≤ s.at) × (s.at < tails run (l.phase + 1)) }
    ensures trims { (lines : List NamedLine) (home : ℕ → ℕ) (nodes : ℕ) (run : NodeCourse) (looks : List (Option Looked)) (courses : ℕ → NodeCourse) (n j : ℕ) (l : NamedLine) (trim : ℕ)
        → AreLines lines home nodes → AreJoined P.law lines home nodes run looks courses → Came lines looks n j l (looked.Trimmed trim) → (trim ≤ trim_of (state_of run.seen)) × ((position : ℕ) × StandsThere run.seen (content.Trim position)) }
    ensures lowest { (lines : List NamedLine) (home : ℕ → ℕ) (nodes : ℕ) (run : NodeCourse) (looks : List (Option Looked)) (courses : ℕ → NodeCourse) (n j : ℕ) (l : NamedLine) (trim : ℕ)
        → AreLines lines home nodes → AreJoined P.law lines home nodes run looks courses → Came lines looks n j l (looked.Trimmed trim) → HadLowest lines looks nodes j l trim }
{}

/// What stands in the log below the tail at which a phase began, lines of earlier phases ask.
pub fn what_stood_was_asked<P: Rules>()
    ensures { ((log : List Entry) (n : ℕ) → P.law.floor log n → n ≤ length log) → (lines : List NamedLine) (home : ℕ → ℕ) (nodes : ℕ) (run : NodeCourse) (looks : List (Option Looked)) (courses : ℕ → NodeCourse) (p s r pos : ℕ) (e : Entry)
        → AreLines lines home nodes → AreJoined P.law lines home nodes run looks courses → p ≤ run.phase → IsHome P.law.may s (home s)
        → Holds run.seen pos e → pos < tails run p → HasRank s r e → r ≤ asked_before lines s p }
{}

/// What a node's lines came to, and how sessions stand at it, is so in the run.
pub fn what_a_node_knows_is_so<P: Rules, S: Replica>()
    ensures played { (lines : List NamedLine) (home : ℕ → ℕ) (nodes : ℕ) (run : NodeCourse) (looks : List (Option Looked)) (courses : ℕ → NodeCourse) (n from at done i : ℕ) (l : NamedLine) (seat : SeatView) (desks : List Desk)
        → AreJoined P.law lines home nodes run looks courses → 1 ≤ n → n ≤ nodes → NodeAt P.law S.meaning lines home nodes (courses n) looks n from at done seat desks
        → i < at → slice_get lines i ≡ Some l → l.node ≡ n → PlayedSo lines run done seat.node.replica.cursor n desks looks i l.phase l.asks }
    ensures desks { (lines : List NamedLine) (home : ℕ → ℕ) (nodes : ℕ) (run : NodeCourse) (looks : List (Option Looked)) (courses : ℕ → NodeCourse) (n from at done s : ℕ) (d : Desk) (seat : SeatView) (desks : List Desk)
        → AreJoined P.law lines home nodes run looks courses → 1 ≤ n → n ≤ nodes → NodeAt P.law S.meaning lines home nodes (courses n) looks n from at done seat desks
        → slice_get desks s ≡ Some d → DeskAt lines home run n from at done s d }
{}
