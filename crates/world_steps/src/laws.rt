//! What holds of every world that a list of steps leads to from a fresh one, with any number of
//! clients that seal, repair and extend. Each function does nothing: its contract is the law.
ghost use Rattle.std.specs.Prelude.{◌≡◌, ℕ, ◌+◌, ◌^◌, ◌<◌, ◌≤◌, true, List, ◌++◌, length, map, slice_get, take, Some, IsSome, All};
ghost use Rattle.delos_types.specs.declared.entry.Entry.{Entry};
ghost use Rattle.delos_types.specs.declared.chain.Segment.{Segment};
ghost use Rattle.delos_types.specs.declared.chain.Chain.{Chain};
ghost use Rattle.chain_map.specs.Chain.{IsChain};
ghost use Rattle.loglet_api.specs.Run.{LogletRun};
ghost use Rattle.quorum_cell.specs.Cells.{Cell};
ghost use Rattle.quorum_cell.specs.Law.{IsLawful};
ghost use Rattle.quorum_cell.specs.declared.operation.CellStep.{CellStep};
ghost use Rattle.quorum_cell.specs.Steps.{cell_step, run_cell};
ghost use Rattle.cell_views.specs.Views.{Manner, IsManner, cell_view, calls_of};
ghost use Rattle.legal_journal.specs.Journal.{IsLegal};
ghost use Rattle.cell_steps.specs.Majorities.{OutcomesRest};
ghost use Rattle.cell_steps.specs.Telling.{Came, none_came, moved, told_of, carries_of, left_for, IsTold};
ghost use Rattle.striped_cells.specs.declared.motion.Motion.TheVariants.{Servers};
ghost use Rattle.striped_cells.specs.Motions.{is_inner};
ghost use Rattle.world_steps.specs.declared.cell.WorldCell.TheVariants.{Quorum};
ghost use Rattle.world_steps.specs.declared.shape.QuorumShape.{QuorumShape};
ghost use Rattle.world_steps.specs.declared.shape.Shape.{Shape};
ghost use Rattle.world_steps.specs.declared.shape.Shape.TheVariants as shape;
ghost use Rattle.world_steps.specs.Cells.{view_of, entries_of, quorum_of, start_quorum, servers_of};
ghost use Rattle.world_steps.specs.declared.step.WorldStep.{WorldStep};
ghost use Rattle.world_steps.specs.declared.step.WorldStep.TheVariants.{Inside};
ghost use Rattle.world_steps.specs.Parts.{World, fresh, cell_at, node_at, given_under};
ghost use Rattle.world_steps.specs.Events.{was_placed_at};
ghost use Rattle.world_steps.specs.Logs.{log_at, trim_of, tail_of, Stands, whole_log, state_of, acts_in};
ghost use Rattle.world_steps.specs.Steps.{world_step, run_world};
ghost use Rattle.world_steps.specs.Moves.{steps_in, calls_in};
ghost use Rattle.world_steps.specs.Laws.{IsShelf, BringsSpelled, AllKeepTo, WorldLaw, IsFrontOf};

use legal_journal::rules::Rules;

/// The quorum law holds in each quorum cell, of stripes too. What a cell does, striped over striped
/// too, is a run of a loglet, as its clients see it: its calls are those that the world's steps are
/// in it, one after another. The steps of a quorum cell are those that the world's steps are in it.
pub fn cells_are_lawful()
    ensures law { (shapes : List Shape) (nodes : ℕ) (steps : List WorldStep) (number : ℕ) (path : List ℕ) (cell : Cell) → IsShelf shapes → All BringsSpelled steps
        → quorum_of (cell_at (run_world steps (fresh shapes nodes)).cells number) path ≡ Some cell → IsLawful cell }
    ensures steps { (steps : List WorldStep) (world : World) (number : ℕ) (cell : Cell) → cell_at world.cells number ≡ Quorum cell
        → cell_at (run_world steps world).cells number ≡ Quorum (run_cell (steps_in number steps world) cell) }
    ensures run { (shapes : List Shape) (nodes : ℕ) (steps : List WorldStep) (number : ℕ) → IsShelf shapes → All BringsSpelled steps
        → let world = fresh shapes nodes in
        LogletRun (view_of (cell_at world.cells number)) (calls_in number steps world) (view_of (cell_at (run_world steps world).cells number)) }
    ensures quorum_run { (manner : Manner) (shapes : List Shape) (nodes : ℕ) (steps : List WorldStep) (number : ℕ) (size : QuorumShape) → IsShelf shapes → All BringsSpelled steps
        → slice_get shapes number ≡ Some (shape.Quorum size) → IsManner size.servers manner
        → let world = fresh shapes nodes in let first = start_quorum size in
        (last : Cell) × (cell_at (run_world steps world).cells number ≡ Quorum last) × LogletRun (cell_view manner first) (calls_of (steps_in number steps world) first) (cell_view manner last) }
{}

/// What the operations of each quorum cell come to, at the end of any path of stripes, rests on what
/// the cell's servers sent for them: a length, a seal and a trim on what more than half of them sent,
/// the want of a quorum on more than half that were given up. No sealed tail is below a length that
/// was reached, earlier or later, and clients are told nothing else.
pub fn outcomes_rest_on_majorities()
    ensures { (shapes : List Shape) (nodes : ℕ) (steps : List WorldStep) (number : ℕ) (path : List ℕ) (cell : Cell) → IsShelf shapes → All BringsSpelled steps
        → quorum_of (cell_at (run_world steps (fresh shapes nodes)).cells number) path ≡ Some cell → OutcomesRest cell }
{}

/// What moves inside a cell is told apart. In a quorum cell, at the end of any path of stripes, it
/// is one step of that cell, and changes what it is told to change: which messages came before
/// decides what is a stray (`tells`). What a quorum cell does is, as its clients see it, a run of a
/// loglet in which a message that comes for the first time to or from an operation that waits is a
/// carry of that operation, and so are its loss and the operation's end; one that comes again is a
/// stray, and a restart is one of that server (`run`).
pub fn moves_are_told_apart()
    ensures tells { (world : World) (number : ℕ) (path : List ℕ) (step : CellStep) (came : Came) (cell : Cell) → number < length world.cells → is_inner step ≡ true
        → quorum_of (cell_at world.cells number) path ≡ Some cell → let next = cell_step cell step in
        (quorum_of (cell_at (world_step world (Inside number path (Servers step))).cells number) path ≡ Some next) × IsTold cell (moved cell came step) next }
    ensures run { (shapes : List Shape) (nodes : ℕ) (steps : List WorldStep) (number : ℕ) (size : QuorumShape) → IsShelf shapes → All BringsSpelled steps
        → slice_get shapes number ≡ Some (shape.Quorum size)
        → let world = fresh shapes nodes in let first = start_quorum size in let inner = steps_in number steps world in length inner < 2 ^ 52
        → (last : Cell) × (cell_at (run_world steps world).cells number ≡ Quorum last)
        × LogletRun (cell_view (left_for (λ ticket. carries_of inner first none_came ticket)) first) (told_of inner first none_came) (cell_view (left_for (λ ticket. 0)) last) }
{}

/// The events are a legal journal, by any rules of who may append what and of how far the log may
/// be trimmed to which the steps keep, and all parts are as the events tell.
pub fn events_are_legal<P: Rules>()
    ensures legal { (shapes : List Shape) (nodes : ℕ) (steps : List WorldStep) → IsShelf shapes
        → AllKeepTo P.law.may P.law.floor (fresh shapes nodes) steps → IsLegal (record P.law { shelf = map servers_of shapes }) (run_world steps (fresh shapes nodes)).events }
    ensures told { (shapes : List Shape) (nodes : ℕ) (steps : List WorldStep) → IsShelf shapes
        → AllKeepTo P.law.may P.law.floor (fresh shapes nodes) steps → WorldLaw P.law.may P.law.floor (run_world steps (fresh shapes nodes)) }
{}

/// The log of a later moment agrees with that of an earlier one on each position that both have.
/// No position is missing from the trim up to the tail, which never goes back; nor does the trim.
pub fn logs_agree()
    ensures agree { (shapes : List Shape) (nodes : ℕ) (early late : List WorldStep) → IsShelf shapes → All BringsSpelled early → All BringsSpelled late
        → let world = run_world early (fresh shapes nodes) in let later = run_world late world in
        (pos : ℕ) (e f : Entry) → log_at world pos ≡ Some e → log_at later pos ≡ Some f → e ≡ f }
    ensures whole { (shapes : List Shape) (nodes : ℕ) (early late : List WorldStep) → IsShelf shapes → All BringsSpelled early → All BringsSpelled late
        → let world = run_world early (fresh shapes nodes) in let later = run_world late world in
        (pos : ℕ) → trim_of later ≤ pos → pos < tail_of world → IsSome (log_at later pos) }
    ensures grow { (shapes : List Shape) (nodes : ℕ) (early late : List WorldStep) → IsShelf shapes → All BringsSpelled early → All BringsSpelled late
        → let world = run_world early (fresh shapes nodes) in let later = run_world late world in
        (trim_of world ≤ trim_of later) × (tail_of world ≤ tail_of later) }
{}

/// Each position of a cell that an answer reached stands at its place of the log in every later
/// chain that has the cell, or it was trimmed there: each position, among them, at which a client
/// was told that its entry is placed.
pub fn acknowledged_entries_stand()
    ensures reached { (shapes : List Shape) (nodes : ℕ) (early late : List WorldStep) → IsShelf shapes → All BringsSpelled early → All BringsSpelled late
        → let world = run_world early (fresh shapes nodes) in let later = run_world late world in
        (version number place : ℕ) (chain : Chain) (segment : Segment) (e : Entry) → given_under later.register version ≡ Some chain
        → slice_get chain.segments number ≡ Some segment → place < (view_of (cell_at world.cells segment.id)).reach
        → slice_get (entries_of (cell_at world.cells segment.id)) place ≡ Some e → Stands later (segment.start + place) e }
    ensures told { (shapes : List Shape) (nodes : ℕ) (early late : List WorldStep) → IsShelf shapes → All BringsSpelled early → All BringsSpelled late
        → let world = run_world early (fresh shapes nodes) in let later = run_world late world in
        (version number place : ℕ) (chain : Chain) (segment : Segment) → given_under later.register version ≡ Some chain
        → slice_get chain.segments number ≡ Some segment → was_placed_at world.events segment.id place ≡ true
        → (e : Entry) × (slice_get (entries_of (cell_at world.cells segment.id)) place ≡ Some e) × Stands later (segment.start + place) e }
{}

/// Each chain that the register gives under a version is the only one, its segments join, and no
/// answer of a cell reaches past the end of its closed segment.
pub fn chains_are_joined()
    ensures one { (shapes : List Shape) (nodes : ℕ) (early late : List WorldStep) → IsShelf shapes → All BringsSpelled early → All BringsSpelled late
        → let world = run_world early (fresh shapes nodes) in let later = run_world late world in
        (version : ℕ) (chain : Chain) → given_under world.register version ≡ Some chain → given_under later.register version ≡ Some chain }
    ensures joined { (shapes : List Shape) (nodes : ℕ) (steps : List WorldStep) → IsShelf shapes → All BringsSpelled steps
        → let world = run_world steps (fresh shapes nodes) in
        (version : ℕ) (chain : Chain) → given_under world.register version ≡ Some chain → IsChain chain }
    ensures closed { (shapes : List Shape) (nodes : ℕ) (steps : List WorldStep) → IsShelf shapes → All BringsSpelled steps
        → let world = run_world steps (fresh shapes nodes) in
        (version number end : ℕ) (chain : Chain) (segment : Segment) → given_under world.register version ≡ Some chain
        → slice_get chain.segments number ≡ Some segment → segment.end ≡ Some end → segment.start + (view_of (cell_at world.cells segment.id)).reach ≤ end }
{}

/// The log is one: with what it showed before that was trimmed it goes on at its end alone, and a
/// position has one entry for good. Each entry of it stands in the log or was trimmed there, and is
/// one that the log showed at its place at some moment. It has no gap, but where more is trimmed than
/// it has.
pub fn the_log_is_one()
    ensures grows { (shapes : List Shape) (nodes : ℕ) (early late : List WorldStep) → IsShelf shapes → All BringsSpelled early → All BringsSpelled late
        → let world = run_world early (fresh shapes nodes) in let later = run_world late world in
        (more : List Entry) × (whole_log later ≡ whole_log world ++ more) }
    ensures shows { (shapes : List Shape) (nodes : ℕ) (early late : List WorldStep) → IsShelf shapes → All BringsSpelled early → All BringsSpelled late
        → let world = run_world early (fresh shapes nodes) in let later = run_world late world in
        (pos : ℕ) (e f : Entry) → log_at world pos ≡ Some e → slice_get (whole_log later) pos ≡ Some f → e ≡ f }
    ensures was { (shapes : List Shape) (nodes : ℕ) (steps : List WorldStep) → IsShelf shapes → All BringsSpelled steps
        → let world = run_world steps (fresh shapes nodes) in
        (pos : ℕ) (e : Entry) → slice_get (whole_log world) pos ≡ Some e
        → (early : List WorldStep) × (late : List WorldStep) × (steps ≡ early ++ late) × (log_at (run_world early (fresh shapes nodes)) pos ≡ Some e) }
    ensures stands { (shapes : List Shape) (nodes : ℕ) (steps : List WorldStep) → IsShelf shapes → All BringsSpelled steps
        → let world = run_world steps (fresh shapes nodes) in IsFrontOf world (whole_log world) }
    ensures whole { (shapes : List Shape) (nodes : ℕ) (steps : List WorldStep) → IsShelf shapes → All BringsSpelled steps
        → let world = run_world steps (fresh shapes nodes) in
        trim_of world ≤ length (whole_log world) → length (whole_log world) ≡ tail_of world }
{}

/// By rules under which nobody trims more than the log has, it has no gap: each position below its
/// tail has its entry, which the log shows, or showed before it was trimmed.
pub fn the_log_has_no_gap<P: Rules>()
    ensures { ((log : List Entry) (n : ℕ) → P.law.floor log n → n ≤ length log)
        → (shapes : List Shape) (nodes : ℕ) (steps : List WorldStep) → IsShelf shapes → AllKeepTo P.law.may P.law.floor (fresh shapes nodes) steps
        → let world = run_world steps (fresh shapes nodes) in length (whole_log world) ≡ tail_of world }
{}

/// What a node applied is the beginning of the one log, below the trim too, and its state is what
/// acts in that, whatever stopped and came up again. So nodes agree, at any two moments.
pub fn nodes_follow_the_log()
    ensures state { (shapes : List Shape) (nodes : ℕ) (steps : List WorldStep) (number : ℕ) → IsShelf shapes → All BringsSpelled steps
        → let world = run_world steps (fresh shapes nodes) in let node = node_at world.nodes number in let cursor = length node.applied in
        (cursor ≤ length (whole_log world)) × (node.applied ≡ take cursor (whole_log world)) × (state_of node ≡ acts_in (take cursor (whole_log world))) }
    ensures agree { (shapes : List Shape) (nodes : ℕ) (early late : List WorldStep) → IsShelf shapes → All BringsSpelled early → All BringsSpelled late
        → let world = run_world early (fresh shapes nodes) in let later = run_world late world in
        (one other pos : ℕ) (e f : Entry) → slice_get (node_at world.nodes one).applied pos ≡ Some e
        → slice_get (node_at later.nodes other).applied pos ≡ Some f → e ≡ f }
{}
