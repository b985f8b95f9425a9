//! How a phase starts: what its fault lines break and mend, before the nodes do anything.
ghost use Rattle.std.specs.Prelude.{◌≡◌, ◌≢◌, ◌≤◌, ℕ, [], ◌∷◌, length, slice_get, Some, true, MatchBool, OnOk};
ghost use Rattle.legal_journal.specs.declared.events.FabricAnswer.TheVariants.{Memory};
ghost use Rattle.legal_journal.specs.FaultCalls.{is_fault};
ghost use Rattle.legal_journal.specs.Journal.{Exists};
ghost use Rattle.node_course.specs.FaultLines.{AreOfPhase, call_by, calls_in, turns_by, turns_in};
ghost use Rattle.node_threads.specs.Outset.{CanBegin, GoesOutside, MakesCalls, NameParts, as_list};
ghost use Rattle.node_threads.specs.Passes.{IsRested, journal_of};
ghost use Rattle.script_text.specs.declared.faults.FaultLine.{FaultLine};

use legal_journal::events::{FabricAnswer, FabricCall};
use legal_journal::rules::Rules;
use locked_turns::desk::Desk;
use loglet_api::loglet::Loglet;
use node_crew::faults::PhaseFaults;
use pass_lock::{Pass, Shared};
use register_api::Register;
use script_text::faults::{FaultAsk, FaultLine};
use std::alloc::AllocError;
use std::sync::Wait;

/// The call by which a fault line breaks or mends something as its phase begins, if it does. What it mends it mends by its number.
fn call_of(line: &FaultLine) -> Option<FabricCall>
    ensures { as_list result ≡ call_by line.now.number line.now.asks }
{
    match line.asks {
        FaultAsk::Stop { node: _, after: _ } => None,
        FaultAsk::Break {
            cell,
            server,
            after,
        } => Some(FabricCall::Stop(cell, server, after)),
        FaultAsk::BreakMeta { after } => Some(FabricCall::StopMeta(after)),
        FaultAsk::Mend { cell, server } => Some(FabricCall::Mend(cell, server, line.number)),
        FaultAsk::MendMeta => Some(FabricCall::MendMeta(line.number)),
        FaultAsk::Stir { turns: _ } => None,
    }
}

/// Whether there was memory for a call.
pub(crate) fn is_made(answer: &FabricAnswer) -> bool
    ensures { MatchBool result (answer.now ≢ Memory) (answer.now ≡ Memory) }
{
    match answer {
        FabricAnswer::Memory => false,
        _ => true,
    }
}

/// Makes one event of number 0, by a pass with all parts: so nobody comes between. Without memory there is none.
fn act<L: Loglet, R: Register, P: Rules, W: Wait>(
    rt: &W,
    lock: &Shared<Desk<L, R, P>>,
    main: &mut Pass<Desk<L, R, P>>,
    call: FabricCall,
) -> Result<(), AllocError>
    requires rested { IsRested lock.now main.old }
    requires there { Exists P.law.shelf call }
    requires acts { is_fault call ≡ true }
    ensures rested { IsRested lock.now main.new }
    ensures made { OnOk result (MakesCalls (call ∷ []) (journal_of main.old) (journal_of main.new)) }
    ensures goes { GoesOutside P.law (journal_of main.old) (journal_of main.new) }
{
    let mut desk = lock.enter(rt, main);
    // The journal so far is legal.
    let _legal = desk.fabric.journal();
    let answer = desk.fabric.apply(0, call);
    lock.leave(main, desk);
    if is_made(&answer) {
        Ok(())
    } else {
        Err(AllocError)
    }
}

/// Does what a fault line asks for as its phase begins.
fn begin_line<L: Loglet, R: Register, P: Rules, W: Wait>(
    rt: &W,
    lock: &Shared<Desk<L, R, P>>,
    main: &mut Pass<Desk<L, R, P>>,
    line: &FaultLine,
) -> Result<(), AllocError>
    requires rested { IsRested lock.now main.old }
    requires there { CanBegin P.law.shelf (call_by line.now.number line.now.asks) }
    ensures rested { IsRested lock.now main.new }
    ensures made { OnOk result (MakesCalls (call_by line.now.number line.now.asks) (journal_of main.old) (journal_of main.new)) }
    ensures goes { GoesOutside P.law (journal_of main.old) (journal_of main.new) }
{
    let Some(call) = call_of(line) else {
        return Ok(());
    };
    act(rt, lock, main, call)
}

/// What the fault lines of a phase ask for as it begins, in their order: one event for each that breaks or mends something, by number 0, which is
/// no node. The pass has all parts, so nobody comes between. The error is want of memory; what was done before it stays.
pub fn begin_phase<L: Loglet, R: Register, P: Rules, W: Wait>(
    rt: &W,
    lock: &Shared<Desk<L, R, P>>,
    main: &mut Pass<Desk<L, R, P>>,
    faults: &PhaseFaults,
) -> Result<(), AllocError>
    requires rested { IsRested lock.now main.old }
    requires phase { AreOfPhase faults.now.lines.now faults.now.phase faults.now.from faults.now.to }
    requires there { NameParts P.law.shelf faults.now.lines.now }
    ensures rested { IsRested lock.now main.new }
    ensures made { OnOk result (MakesCalls (calls_in faults.now.phase faults.now.lines.now) (journal_of main.old) (journal_of main.new)) }
    ensures goes { GoesOutside P.law (journal_of main.old) (journal_of main.new) }
{
    for i in faults.from..faults.to {
        begin_line(rt, lock, main, &faults.lines[i])?;
    }
    Ok(())
}

/// How many old messages a fault line has come again.
fn turns_of_line(line: &FaultLine) -> u64
    ensures { result ≡ turns_by line.now.asks }
{
    match line.asks {
        FaultAsk::Stir { turns } => turns,
        _ => 0,
    }
}

/// How many old messages come again in the phase.
pub fn turns_of(faults: &PhaseFaults) -> u64
    requires phase { AreOfPhase faults.now.lines.now faults.now.phase faults.now.from faults.now.to }
    requires few { length faults.now.lines.now ≤ 20000 }
    requires some { (i : ℕ) (f : FaultLine) → slice_get faults.now.lines.now i ≡ Some f → turns_by f.asks ≤ 1000000 }
    ensures { result ≡ turns_in faults.now.phase faults.now.lines.now }
{
    let mut turns = 0;
    for i in faults.from..faults.to {
        turns += turns_of_line(&faults.lines[i]);
    }
    turns
}
