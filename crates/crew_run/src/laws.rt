//! Laws of what a run tells. Each function does nothing, or calls laws that its own rests on: its contract is the law.
ghost use Rattle.std.specs.Prelude.{◌≡◌, ◌++◌, ◌≤◌, ℕ, List, [], length};
ghost use Rattle.delos_types.specs.declared.entry.Entry.{Entry};
ghost use Rattle.delos_types.specs.declared.chain.Chain.{Chain};
ghost use Rattle.register_api.specs.View.{RegisterView};
ghost use Rattle.legal_journal.specs.declared.events.Event.{Event};
ghost use Rattle.legal_journal.specs.Journal.{IsLegal, state_of};
ghost use Rattle.journal_laws.specs.Faults.{faults_in};
ghost use Rattle.fabric_core.specs.Fabric.{FabricView, IsRegisterAsTold};
ghost use Rattle.fabric_core.specs.Runs.{HasRegisterRun};
ghost use Rattle.fabric_core.specs.Log.{virtual_tail};
ghost use Rattle.virtual_log.specs.Holding.{Holds};
ghost use Rattle.base_engine.specs.Reading.{IsFront};
ghost use Rattle.fitting_run.specs.declared.told.Told.{Told};
ghost use Rattle.fitting_run.specs.Fits.{ChainIsRegistered};
ghost use Rattle.fitting_run.specs.Yard.{Shown};
ghost use Rattle.fitting_run.specs.Calm.{IsCalm};
ghost use Rattle.node_course.specs.FaultLines.{AreOutside};
ghost use Rattle.run_ends.specs.Closing.{WorkerEnd, IsGivenBack};
ghost use Rattle.run_closing.specs.Finishing.{SeesAll};
ghost use Rattle.last_chain.specs.declared.last.LastChain.{LastChain};
ghost use Rattle.last_chain.specs.Last.{IsLast, AsksOnce};

use journal_laws::faults::{
    a_fault_names_a_cell, a_lack_has_a_fault, lacks_are_counted, refusals_are_counted,
    register_faults_are_counted,
};
use legal_journal::rules::Rules;
use run_ends::shown::a_front_is_below_the_tail;

/// The chain that was read last is what any register gave that is as the journal tells.
pub fn the_chain_is_registered<P: Rules>()
    ensures { (early : List Event) (l : LastChain) (f : FabricView) (v : RegisterView) (o : Told) → IsLegal P.law f.journal → AsksOnce early f.journal → IsLast l f
        → IsRegisterAsTold (state_of f.journal).register f.register → HasRegisterRun f.journal f.register
        → IsRegisterAsTold (state_of f.journal).register v → HasRegisterRun f.journal v
        → o.version ≡ l.version → o.chain ≡ l.chain → o.down ≡ l.down → ChainIsRegistered o v }
{}

/// Where no fault was counted in the yard that comes back, the journal tells none.
pub fn a_calm_journal_tells_no_fault<P: Rules>()
    ensures { (journal : List Event) (workers : List WorkerEnd) (chain : Chain) (yard : Shown) → IsGivenBack P.law journal workers chain yard → IsCalm yard
        → faults_in journal ≡ [] }
{
    lacks_are_counted();
    a_lack_has_a_fault();
    refusals_are_counted();
    register_faults_are_counted::<P>();
    a_fault_names_a_cell::<P>();
}

/// Where no fault was counted in the yard that comes back, what was played as the nodes closed is the whole log, and events of no node
/// since let it end there still.
pub fn a_calm_run_has_seen_all<P: Rules>()
    ensures { ((log : List Entry) (n : ℕ) → P.law.floor log n → n ≤ length log) → (journal more : List Event) (workers : List WorkerEnd) (log : List Entry) (chain : Chain) (yard : Shown)
        → SeesAll journal (λ (w : WorkerEnd). w.seat) workers (length log) → IsFront Holds journal log → AreOutside more
        → IsGivenBack P.law (journal ++ more) workers chain yard → IsCalm yard → length log ≡ virtual_tail chain yard.cells }
{
    lacks_are_counted();
    a_lack_has_a_fault();
    refusals_are_counted();
    register_faults_are_counted::<P>();
    a_fault_names_a_cell::<P>();
    a_front_is_below_the_tail::<P>();
}
