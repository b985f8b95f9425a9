//! A script is run over any loglets, register, engines and disks.
ghost use Rattle.std.specs.Prelude.{◌≡◌, ◌<◌, ◌≤◌, [], IfOk, length, map};
ghost use Rattle.register_api.specs.View as view;
ghost use Rattle.crew_run.specs.Running.{RunTold};
ghost use Rattle.script_runner.specs.Fresh.{AreFresh, AreFreshNodes, shown};
ghost use Rattle.script_runner.specs.Playing.{CanPlay};

use crate::yard::Yard;
use crew_run::run::{Ran, run_lines};
use disk_model::Disk;
use fate_words::chooser::Chooser;
use fitting_run::told::Told;
use gate_points::Gate;
use local_replica::layers::Layers;
use loglet_api::loglet::Loglet;
use node_opening::closing::close_all;
use node_opening::opening::open_all;
use register_api::Register;
use script_text::asks::NamedLine;
use std::alloc::{AllocError, Global};
use std::sync::Wait;
use std::thread::Threads;

/// What a script told, if memory sufficed, and what it was run over.
pub struct Played<L: Loglet, R: Register, E: Layers, D: Disk, C: Chooser> {
    pub yard: Yard<L, R, E, D, C>,
    pub told: Result<Told, AllocError>,
}

/// Plays a script's lines, which break and mend nothing: the nodes' stores are opened, the lines are run, and the nodes are taken apart again.
pub fn play<
    W: Threads + Wait + Sync,
    L: Loglet + Send,
    R: Register + Send,
    E: Layers + Send,
    D: Disk + Send,
    C: Chooser + Send,
    G: Gate + Sync,
>(
    rt: &W,
    alloc: Global,
    yard: Yard<L, R, E, D, C>,
    lines: &[NamedLine],
    gate: &G,
) -> Played<L, R, E, D, C>
    requires cells { AreFresh (map L.view yard.shelf.items) }
    requires register { view.IsFresh (R.view yard.register) }
    requires parts { AreFreshNodes (λ k. E.kinds k.engines) (λ k. E.waiting k.engines) (λ k. D.view k.disk) yard.nodes.items }
    requires least { 0 < length yard.shelf.items }
    requires most { length yard.shelf.items ≤ 64 }
    requires eight { length yard.nodes.items ≤ 8 }
    requires script { CanPlay (length yard.nodes.items) lines.now }
    ensures told { IfOk result.told (RunTold lines.now [] (shown L.view R.view (λ k. (D.view k.disk).faults) result.yard.shelf.items result.yard.register result.yard.nodes.items)) }
    ensures shelf { length result.yard.shelf.items ≡ length yard.shelf.items }
    ensures nodes { length result.yard.nodes.items ≡ length yard.nodes.items }
    ensures engines { map (λ k. E.kinds k.engines) result.yard.nodes.items ≡ map (λ k. E.kinds k.engines) yard.nodes.items }
    ensures kinds { map (λ v. v.kind) (map L.view result.yard.shelf.items) ≡ map (λ v. v.kind) (map L.view yard.shelf.items) }
{
    let Yard {
        shelf,
        register,
        nodes: parts,
    } = yard;
    let mut parts = parts;
    match open_all(alloc, &mut parts) {
        Ok(nodes) => {
            let Ran {
                cells: shelf,
                register,
                nodes,
                told,
            } = run_lines(rt, alloc, shelf, register, nodes, lines, &[], gate);
            close_all(nodes, &mut parts);
            Played {
                yard: Yard {
                    shelf,
                    register,
                    nodes: parts,
                },
                told,
            }
        }
        Err(fault) => {
            Played {
                yard: Yard {
                    shelf,
                    register,
                    nodes: parts,
                },
                told: Err(fault),
            }
        }
    }
}
