//! Laws of a session's commands, on their way through its node and the log. Each function does nothing: its contract is
//! the law.
ghost use Rattle.std.specs.Prelude.{◌≡◌, ◌<◌, ◌≤◌, ◌+◌, ℕ, List, [], ◌++◌, Option, None, Some, length, All};
ghost use Rattle.std.specs.FinMap as map;
ghost use Rattle.delos_types.specs.Spaces.{SpaceMap};
ghost use Rattle.delos_types.specs.declared.entry.Entry.{Entry};
ghost use Rattle.delos_types.specs.declared.item.Item.{Item};
ghost use Rattle.delos_types.specs.declared.cause.Cause.{Cause};
ghost use Rattle.legal_journal.specs.declared.events.Event.{Event};
ghost use Rattle.legal_journal.specs.Journal.{IsLegal, state_of, tail_of};
ghost use Rattle.virtual_log.specs.Holding.{Holds, IsTrimmed};
ghost use Rattle.virtual_log.specs.Turning.{IsAbove};
ghost use Rattle.table_core.specs.Find.{find_in};
ghost use Rattle.table_core.specs.declared.command.Command.{Command};
ghost use Rattle.table_core.specs.declared.command.Query.{Query};
ghost use Rattle.engine_api.specs.declared.content.Content.TheVariants as Content;
ghost use Rattle.engine_api.specs.Acted.{asked_in, table_after};
ghost use Rattle.engine_steps.specs.Words.{under};
ghost use Rattle.log_laws.specs.State.{IsStateOf, acts_in};
ghost use Rattle.engine_api.specs.Items.{content_of};
ghost use Rattle.engine_api.specs.Order.{gap_from};
ghost use Rattle.engine_api.specs.Packing.{IsProposable};
ghost use Rattle.replica_api.specs.Replica.{ReplicaView, Queues, Flushes};
ghost use Rattle.base_engine.specs.Proposing.{Sent, Proposed};
ghost use Rattle.base_engine.specs.Querying.{found_in};
ghost use Rattle.base_engine.specs.Reading.{IsFront};
ghost use Rattle.base_engine.specs.Settling.{OutboxView, Settled, Answers, cause_in};
ghost use Rattle.node_lines.specs.UnderWay.{IsGiven, IsUnderWay, HasLanded, HasRank, rank_under};

use legal_journal::rules::Rules;

/// Where entries were settled, and the session was given no cause, its commands are under way still.
pub fn what_is_given_stays_given<P: Rules>()
    ensures { ((log : List Entry) (n : ℕ) → P.law.floor log n → n ≤ length log) → (who s sent : ℕ) (old new : List Event) (was is : OutboxView) (kept : List Item)
        → IsLegal P.law new → cause_in s is.given ≡ None → Settled Holds who old was new is
        → IsGiven old was.entries kept s sent → IsGiven new is.entries kept s sent }
{}

/// Where all entries were settled, and the session was given no cause, what was under way has landed.
pub fn what_is_settled_has_landed<P: Rules>()
    ensures { ((log : List Entry) (n : ℕ) → P.law.floor log n → n ≤ length log) → (who s r : ℕ) (old new : List Event) (was is : OutboxView)
        → IsLegal P.law new → cause_in s is.given ≡ None → is.entries ≡ [] → Settled Holds who old was new is
        → IsUnderWay old was.entries s r → HasLanded new s r }
{}

/// The session's next command went down: all of its commands so far are given. An item that is none of its commands
/// changes nothing of that.
pub fn what_goes_down_is_given<P: Rules>()
    ensures own { ((log : List Entry) (n : ℕ) → P.law.floor log n → n ≤ length log) → (who origin s sent : ℕ) (old new : List Event) (was is : OutboxView) (kept kept' : List Item) (item : Item)
        → IsLegal P.law new → cause_in s is.given ≡ None → All IsProposable kept → IsProposable item → rank_under s (content_of item) ≡ Some (sent + 1)
        → Sent Holds who old was (λ packed. Queues origin kept item packed kept') new is
        → IsGiven old was.entries kept s sent → IsGiven new is.entries kept' s (sent + 1) }
    ensures other { ((log : List Entry) (n : ℕ) → P.law.floor log n → n ≤ length log) → (who origin s sent : ℕ) (old new : List Event) (was is : OutboxView) (kept kept' : List Item) (item : Item)
        → IsLegal P.law new → cause_in s is.given ≡ None → All IsProposable kept → IsProposable item → rank_under s (content_of item) ≡ None
        → Sent Holds who old was (λ packed. Queues origin kept item packed kept') new is
        → IsGiven old was.entries kept s sent → IsGiven new is.entries kept' s sent }
{}

/// What waited was packed: the session's commands are under way.
pub fn what_is_flushed_is_given<P: Rules>()
    ensures { ((log : List Entry) (n : ℕ) → P.law.floor log n → n ≤ length log) → (who origin s sent : ℕ) (old new : List Event) (was is : OutboxView) (kept kept' : List Item)
        → IsLegal P.law new → cause_in s is.given ≡ None → All IsProposable kept → length kept ≤ 15
        → Sent Holds who old was (λ packed. Flushes origin kept packed kept') new is
        → IsGiven old was.entries kept s sent → IsGiven new is.entries kept' s sent }
{}

/// The first ranks of a session that had landed at a moment have acted in each front of the log that reaches that
/// moment's tail.
pub fn what_has_landed_has_acted<P: Rules>()
    ensures { (early late : List Event) (log : List Entry) (s n : ℕ) → IsLegal P.law (early ++ late) → tail_of (state_of early) ≤ length log
        → IsFront Holds (early ++ late) log → ((r : ℕ) → 1 ≤ r → r ≤ n → HasLanded early s r) → n < gap_from (asked_in 0 log) s 1 }
{}

/// No rank has acted in a front of the log that wasn't somebody's to append.
pub fn what_has_acted_was_sent<P: Rules>()
    ensures { (seen : List Event) (log : List Entry) (s n : ℕ) → IsLegal P.law seen → IsFront Holds seen log
        → ((who : ℕ) (e : Entry) (r : ℕ) → P.law.may who e → HasRank s r e → r ≤ n) → gap_from (asked_in 0 log) s 1 ≤ n + 1 }
{}

/// A session's next command was proposed, and the session was given no cause: it isn't left out, so all of its commands so
/// far are given. The node's state is that of a front of the log, which isn't trimmed behind it.
pub fn what_is_proposed_is_given<P: Rules>()
    ensures { ((log : List Entry) (n : ℕ) → P.law.floor log n → n ≤ length log) → (who s sent : ℕ) (old new : List Event) (was is : OutboxView) (v v' : ReplicaView) (item : Item) (log : List Entry) (c : Option Command)
        → IsLegal P.law new → cause_in s is.given ≡ None → s ≤ 63 → All IsProposable v.kept → length v.kept ≤ 15
        → IsProposable item → under 2 item ≡ Some (Content.Session s (sent + 1) c) → rank_under s (content_of item) ≡ Some (sent + 1)
        → length log ≡ v'.cursor → IsFront Holds new log → IsStateOf log v'.contents → (IsTrimmed new v'.cursor → ⊥)
        → Proposed Holds who old was v item new is v' → IsGiven old was.entries v.kept s sent → IsGiven new is.entries v'.kept s (sent + 1) }
{}

/// The first ranks of a session that had landed at a moment have acted in the state at a tail that was found later.
pub fn what_has_landed_is_found<P: Rules>()
    ensures { (who s n tail : ℕ) (early seen : List Event) (log : List Entry) → IsLegal P.law seen → IsAbove who early tail seen
        → length log ≡ tail → IsFront Holds seen log → ((r : ℕ) → 1 ≤ r → r ≤ n → HasLanded early s r) → n < gap_from (asked_in 0 log) s 1 }
{}

/// All that a session asked was flushed and settled, and it was given no cause: in the state at a tail that was found then
/// just that has acted. So a read that looks there sees each earlier command of its session, and none of a later line.
pub fn a_read_sees_its_session<P: Rules>()
    ensures { ((log : List Entry) (n : ℕ) → P.law.floor log n → n ≤ length log) → (who origin s sent tail : ℕ) (old flushed settled seen : List Event) (o was is : OutboxView) (cause : Option Cause) (kept kept' : List Item) (log : List Entry)
        → IsLegal P.law seen → All IsProposable kept → length kept ≤ 15 → IsGiven old o.entries kept s sent
        → Sent Holds who old o (λ packed. Flushes origin kept packed kept') flushed was → Answers Holds who flushed was cause settled is → cause_in s is.given ≡ None
        → IsAbove who settled tail seen → length log ≡ tail → IsFront Holds seen log → ((user : ℕ) (e : Entry) (r : ℕ) → P.law.may user e → HasRank s r e → r ≤ sent)
        → gap_from (asked_in 0 log) s 1 ≡ sent + 1 }
{}

/// What a node's table answers to a read is what the table answers after all that acts in the front of the log that the node
/// has applied.
pub fn a_read_shows_the_table()
    ensures { (log : List Entry) (m : SpaceMap) (query : Query) → IsStateOf log m → found_in m query ≡ find_in (table_after map.empty (acts_in log)) query }
{}
