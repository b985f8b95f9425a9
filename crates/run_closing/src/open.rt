//! The register of a run is opened again where it is down.
ghost use Rattle.std.specs.Prelude.{◌≡◌, length, OnOk};
ghost use Rattle.last_chain.specs.Last.{OpensOnce};
ghost use Rattle.node_crew.specs.Crews.{CrewStands};
ghost use Rattle.run_closing.specs.Finishing.{HasPlayed};
ghost use Rattle.run_closing.specs.Opening.{MendsOnly};

use fate_words::chooser::Chooser;
use last_chain::last::open_if_down;
use loglet_api::loglet::Loglet;
use node_crew::crew::{Crew, CrewBack};
use register_api::Register;
use replica_api::replica::Replica;
use script_text::asks::NamedLine;
use script_text::faults::FaultLine;
use turn_scopes::terms::Terms;

/// The user that opens the register again as a run closes, which is no node.
const NOBODY: u32 = 0;

/// Opens the register again where it is down, once, with word 0: so a fault of before doesn't keep the nodes from what they
/// still have to play.
///
/// Cost: at most two events.
pub fn open_register<L: Loglet, R: Register, K: Terms, S: Replica, C: Chooser>(
    crew: Crew<L, R, K, S, C>,
    _lines: &[NamedLine],
    _faults: &[FaultLine],
) -> CrewBack<L, R, K, S, C, ()>
    requires rests { HasPlayed K.law S.meaning _lines.now _faults.now crew.fabric.journal crew.looks.items (λ w. w.seat) (λ w. w.desks.items) crew.workers.items }
    ensures rests { OnOk result.answer (HasPlayed K.law S.meaning _lines.now _faults.now result.crew.fabric.journal result.crew.looks.items (λ w. w.seat) (λ w. w.desks.items) result.crew.workers.items) }
    ensures opens { OnOk result.answer (OpensOnce crew.fabric result.crew.fabric) }
    ensures mends { OnOk result.answer (MendsOnly 1 crew.fabric.journal result.crew.fabric.journal) }
    ensures workers { result.crew.workers.items ≡ crew.workers.items }
    ensures stands { CrewStands K.law S.meaning result.crew.fabric.journal (λ w. w.seat) result.crew.workers.items }
    ensures size { length result.crew.workers.items ≡ length crew.workers.items }
{
    let Crew {
        fabric,
        workers,
        looks,
    } = crew;
    let mut fabric = fabric;
    let answer = open_if_down(&mut fabric, NOBODY);
    CrewBack {
        crew: Crew {
            fabric,
            workers,
            looks,
        },
        answer,
    }
}
