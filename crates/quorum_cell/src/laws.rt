//! What holds of every cell that a list of steps leads to. Each function does nothing: its
//! contract is the law.
ghost use Rattle.std.specs.Prelude.{◌≡◌, ℕ, ◌+◌, ◌<◌, ◌≤◌, List, false, true, length, slice_get, Some};
ghost use Rattle.delos_types.specs.declared.entry.Entry.{Entry};
ghost use Rattle.quorum_cell.specs.declared.message.Ask.TheVariants.{Store};
ghost use Rattle.quorum_cell.specs.declared.operation.Aim.TheVariants.{Append};
ghost use Rattle.quorum_cell.specs.declared.operation.Outcome.{Outcome};
ghost use Rattle.quorum_cell.specs.declared.operation.Outcome.TheVariants.{Reached, SealedTail};
ghost use Rattle.quorum_cell.specs.declared.operation.CellStep.{CellStep};
ghost use Rattle.quorum_cell.specs.Servers.{Server, is_sealed, written};
ghost use Rattle.quorum_cell.specs.Cells.{Cell, operation, server, start, is_shut, seals};
ghost use Rattle.quorum_cell.specs.Steps.{cell_step, run_cell, reached};
ghost use Rattle.quorum_cell.specs.Law.{CellLaw, IsLawful, Later};
ghost use Rattle.quorum_cell.specs.Outcomes.{OutcomeHolds, RestsOn, IsHeld};

/// Whatever messages are lost, repeated or reordered, and wherever servers stop, the quorum law
/// holds of every cell that steps lead to, and nothing is sealed before a seal is begun. Both hold
/// of a new cell, and each step keeps them, and the cell's shape.
pub fn quorum_law()
    ensures every { (servers room limit : ℕ) (steps : List CellStep) → 0 < servers → CellLaw (run_cell steps (start servers room limit)) }
    ensures kept { (cell : Cell) (step : CellStep) → CellLaw cell → CellLaw (cell_step cell step) }
    ensures lawful { (cell : Cell) (step : CellStep) → IsLawful cell → IsLawful (cell_step cell step) }
{}

/// Servers only grow, entries stand, and no number that clients were given goes back.
pub fn cells_move_on()
    ensures { (steps : List CellStep) (cell : Cell) → Later cell (run_cell steps cell) }
{}

/// The entry of an append that reached its length is at its place in every later cell, and so it
/// is in each server that has that place.
pub fn acknowledged_entries_stand()
    ensures kept { (servers room limit : ℕ) (early late : List CellStep) → 0 < servers →
        let cell = run_cell early (start servers room limit) in let later = run_cell late cell in
        (ticket : ℕ) (entry : Entry) → (operation cell ticket).aim ≡ Append entry → (operation cell ticket).decided ≡ Some Reached
        → IsHeld later ((operation cell ticket).size_before + 1) × (slice_get later.entries (operation cell ticket).size_before ≡ Some entry) }
    ensures copies { (servers room limit : ℕ) (steps : List CellStep) → 0 < servers →
        let cell = run_cell steps (start servers room limit) in
        (i k : ℕ) → k < length (server cell i).entries → slice_get (server cell i).entries k ≡ slice_get cell.entries ((server cell i).base + k) }
{}

/// Every length that was reached, earlier or later, is at most every sealed tail.
pub fn sealed_tails_bound_lengths()
    ensures { (servers room limit : ℕ) (steps : List CellStep) → 0 < servers → let cell = run_cell steps (start servers room limit) in
        (one other : ℕ) (outcome : Outcome) (tail : ℕ) → (operation cell one).decided ≡ Some outcome → (operation cell other).decided ≡ Some (SealedTail tail)
        → reached (operation cell one) outcome ≤ tail }
{}

/// What was given to clients never goes past a sealed tail that was given, at any later moment.
pub fn reaches_stay_under_caps()
    ensures { (servers room limit : ℕ) (early late : List CellStep) → 0 < servers → let cell = run_cell early (start servers room limit) in
        (tail : ℕ) → cell.cap ≡ Some tail → (run_cell late cell).reach ≤ tail }
{}

/// What the outcomes that reach a length, and the sealed tails, rest on: replies that a majority
/// sent.
pub fn outcomes_rest_on_majorities()
    ensures { (servers room limit : ℕ) (steps : List CellStep) → 0 < servers → let cell = run_cell steps (start servers room limit) in
        (ticket : ℕ) (outcome : Outcome) → (operation cell ticket).decided ≡ Some outcome → RestsOn cell (operation cell ticket) outcome }
{}

/// What each outcome says.
pub fn outcomes_hold()
    ensures { (servers room limit : ℕ) (steps : List CellStep) → 0 < servers → let cell = run_cell steps (start servers room limit) in
        (ticket : ℕ) (outcome : Outcome) → (operation cell ticket).decided ≡ Some outcome → OutcomeHolds cell (operation cell ticket) outcome }
{}

/// A cell is shut only where a seal was begun.
pub fn not_shut_without_a_seal()
    ensures { (servers room limit : ℕ) (steps : List CellStep) → 0 < servers → let cell = run_cell steps (start servers room limit) in
        is_shut cell ≡ true → 0 < seals cell }
{}

/// A sealed server takes no entry by a store.
pub fn sealed_server_takes_no_store()
    ensures { (server : Server) (place : ℕ) (entry : Entry) → is_sealed server ≡ true → written server (Store place entry) ≡ server }
{}
