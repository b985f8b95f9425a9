//! One phase: what its fault lines break and mend; then the pass is cut into parts, the nodes work in threads, the parts are joined, and one look brings
//! all that was seen.
ghost use Rattle.std.specs.Prelude.{◌≡◌, ◌<◌, ◌≤◌, ◌+◌, ◌-◌, ◌++◌, ◌∷◌, [], length, ℕ, None, Option, OnOk, OnErr, true, false, ◌&&◌, vec_capacity};
ghost use Rattle.std.specs.List.{AllByRecursion};
ghost use Rattle.pass_lock.specs.Pass.{all_parts, brought, numbered};
ghost use Rattle.turn_scopes.specs.Floors.{FloorIs};
ghost use Rattle.node_lines.specs.Workers.{MayRun};
ghost use Rattle.node_course.specs.FaultLines.{AreFaultLines, AreOfPhase, calls_in, strays_in, stops_in};
ghost use Rattle.node_crew.specs.Arming.{AreArmed};
ghost use Rattle.node_crew.specs.Crews.{CrewRests, CrewStands};
ghost use Rattle.node_crew.specs.Notes.{noted};
ghost use Rattle.node_crew.specs.Turns.{MaySendAll};
ghost use Rattle.node_threads.specs.Outset.{NameParts};
ghost use Rattle.node_threads.specs.Passes.{IsRested, HasCaughtUp, journal_of, parts_from};
ghost use Rattle.node_threads.specs.Phases.{BeginsPhase, WentOn};
ghost use Rattle.node_threads.specs.Stirring.{ActsInPhase, MakesFaults};
ghost use Rattle.node_threads.specs.Posts.{AllHave, AllMayWork, AllNoted, AllWorked, MayWork, Worked, all_sufficed, looks_after, seated_from, seens, workers_of};

use crate::outset::{begin_phase, turns_of};
use crate::post::{Parted, Post};
use crate::stirrer::Stirrer;
use crate::threads::run_all;
use fate_words::chooser::Chooser;
use gate_points::Gate;
use legal_journal::rules::Rules;
use locked_turns::desk::Desk;
use locked_turns::locked::Locked;
use locked_turns::room::Room;
use loglet_api::loglet::Loglet;
use node_crew::faults::PhaseFaults;
use node_crew::note::Note;
use node_lines::lines::Looked;
use node_workers::worker::Worker;
use pass_lock::{Pass, Shared};
use register_api::Register;
use replica_api::replica::Replica;
use script_text::asks::NamedLine;
use std::alloc::{AllocError, Global};
use std::sync::Wait;
use std::thread::Threads;

/// Each node gets its part, cut off the pass: the first one part 1, and so on.
fn seat_all<'a, L: Loglet, R: Register, P: Rules, B: Room, W: Wait, K>(
    rt: &'a W,
    alloc: Global,
    lock: &'a Shared<Desk<L, R, P>>,
    main: &mut Pass<Desk<L, R, P>>,
    workers: &mut Vec<K>,
    posts: &mut Vec<Post<'a, L, R, P, B, W, K>>,
)
    requires room { lock.now ≡ B.lock }
    requires outside { (main.old.lock ≡ B.lock) × (main.old.turn ≡ None) }
    requires parts { main.old.parts ≡ brought (journal_of main.old) (numbered 1 (all_parts - 1)) }
    requires few { length workers.old.items ≤ 8 }
    requires none { posts.old.items ≡ [] }
    requires space { length workers.old.items ≤ vec_capacity posts.old }
    ensures main { main.new ≡ record main.old { parts = brought (journal_of main.old) (numbered (1 + length workers.old.items) (all_parts - (1 + length workers.old.items))) } }
    ensures posts { posts.new.items ≡ seated_from 1 (journal_of main.old) workers.old.items }
    ensures workers { workers.new.items ≡ [] }
    ensures space { vec_capacity workers.new ≡ vec_capacity workers.old }
{
    while !workers.is_empty() {
        let worker = workers.remove(0);
        let number = posts.len() as u32 + 1;
        let pass = lock.split(main, 1);
        posts.push_reserved(Post::new(alloc, Locked::new(rt, lock, pass, number), worker));
    }
}

/// Writes down what was noted.
fn write_down(looks: &mut Vec<Option<Looked>>, notes: Vec<Note>)
    requires { AllByRecursion (λ note. note.line < length looks.old.items) notes.items }
    ensures { looks.new.items ≡ noted looks.old.items notes.items }
{
    for note in notes {
        let Note { line, look } = note;
        looks[line] = Some(look);
    }
}

/// Puts a worker before the others.
fn put_first<K>(workers: &mut Vec<K>, worker: K)
    requires room { length workers.old.items + 1 ≤ vec_capacity workers.old }
    ensures items { workers.new.items ≡ worker ∷ workers.old.items }
    ensures room { vec_capacity workers.old ≤ vec_capacity workers.new }
{
    match workers.insert(0, worker) {
        Ok(()) => {}
        Err(_) => unreachable!(),
    }
}

/// Whether both are so.
fn both(a: bool, b: bool) -> bool
    ensures { result ≡ a && b }
{
    a && b
}

/// Want of memory, where it didn't suffice.
fn answer_of(sufficed: bool) -> Result<(), AllocError>
    ensures ok { OnOk result (sufficed ≡ true) }
    ensures err { OnErr result (sufficed ≡ false) }
{
    if sufficed { Ok(()) } else { Err(AllocError) }
}

/// The pass takes in the parts, the last node's first, and what the lines came to is written down. Whether memory sufficed everywhere.
fn join_all<'a, L: Loglet, R: Register, P: Rules, B: Room, W: Wait, K>(
    lock: &Shared<Desk<L, R, P>>,
    main: &mut Pass<Desk<L, R, P>>,
    posts: Vec<Post<'a, L, R, P, B, W, K>>,
    workers: &mut Vec<K>,
    looks: &mut Vec<Option<Looked>>,
) -> bool
    requires room { lock.now ≡ B.lock }
    requires outside { (main.old.lock ≡ B.lock) × (main.old.turn ≡ None) }
    requires have { AllHave 1 posts.items }
    requires lines { AllNoted (length looks.old.items) posts.items }
    requires none { workers.old.items ≡ [] }
    requires space { length posts.items ≤ vec_capacity workers.old }
    ensures main { main.new ≡ record main.old { parts = parts_from 1 (seens posts.entry.items) ++ main.old.parts; made = main.new.made } }
    ensures workers { workers.new.items ≡ workers_of posts.entry.items }
    ensures looks { looks.new.items ≡ looks_after looks.old.items posts.entry.items }
    ensures sufficed { result ≡ all_sufficed posts.entry.items }
{
    let mut posts = posts;
    let mut sufficed = true;
    while let Some(post) = posts.pop() {
        let Parted {
            pass,
            worker,
            notes,
            sufficed: here,
        } = post.part();
        lock.join(main, pass);
        put_first(workers, worker);
        write_down(looks, notes);
        sufficed = both(here, sufficed);
    }
    posts.destroy_empty();
    sufficed
}

/// A turn that adds nothing: with all parts of the pass the journal was seen then that it finds.
fn look<L: Loglet, R: Register, P: Rules, W: Wait>(
    rt: &W,
    lock: &Shared<Desk<L, R, P>>,
    main: &mut Pass<Desk<L, R, P>>,
)
    requires lock { main.old.lock ≡ lock.now }
    requires outside { main.old.turn ≡ None }
    requires part { 0 < length main.old.parts }
    ensures { HasCaughtUp P.law main.old main.new }
{
    let desk = lock.enter(rt, main);
    // The journal is legal.
    let _legal = desk.fabric.journal();
    lock.leave(main, desk);
}

/// The nodes' part of a phase, whose lines are those from `from` up to `to`, and that of the stirrer beside them.
fn play_nodes<
    'a,
    L: Loglet + Send,
    R: Register + Send,
    P: Rules + Send,
    B: Room + Send,
    W: Threads + Wait + Sync,
    S: Replica + Send,
    C: Chooser + Send,
    G: Gate + Sync,
>(
    rt: &'a W,
    alloc: Global,
    lock: &'a Shared<Desk<L, R, P>>,
    main: &mut Pass<Desk<L, R, P>>,
    workers: &mut Vec<Worker<S, C>>,
    looks: &mut Vec<Option<Looked>>,
    lines: &[NamedLine],
    from: usize,
    to: usize,
    faults: &PhaseFaults,
    cells: u32,
    gate: &G,
) -> Result<(), AllocError>
    requires room { lock.now ≡ B.lock }
    requires rested { IsRested B.lock main.old }
    requires run { MayRun P.law }
    requires range { (from ≤ to) × (to ≤ length lines.now) }
    requires sends { MaySendAll P.law.may lines.now }
    requires floor { FloorIs P.law.floor (length workers.old.items) }
    requires eight { length workers.old.items ≤ 8 }
    requires cells { (0 < cells) × (cells ≡ length P.law.shelf) }
    requires parts { NameParts P.law.shelf faults.now.lines.now }
    requires faults { AreFaultLines lines.now faults.now.lines.now P.law.shelf (length workers.old.items) }
    requires phase { AreOfPhase faults.now.lines.now faults.now.phase faults.now.from faults.now.to }
    requires begins { BeginsPhase P.law S.meaning lines.now faults.now.lines.now faults.now.phase from to (journal_of main.old) looks.old.items (λ w. w.seat) (λ w. w.desks.items) workers.old.items }
    ensures rested { IsRested B.lock main.new }
    ensures goes { OnOk result (CrewRests P.law S.meaning lines.now faults.now.lines.now to (faults.now.phase + 1) (journal_of main.new) looks.new.items (λ w. w.seat) (λ w. w.desks.items) workers.new.items) }
    ensures stands { CrewStands P.law S.meaning (journal_of main.new) (λ w. w.seat) workers.new.items }
    ensures size { length workers.new.items ≡ length workers.old.items }
    ensures goes_on { WentOn lines.now faults.now.lines.now faults.now.phase (length workers.old.items) (journal_of main.old) (journal_of main.new) }
    ensures acts { OnOk result (MakesFaults (strays_in cells faults.now.phase faults.now.lines.now) (journal_of main.old) (journal_of main.new)) }
    ensures armed { OnOk result (AreArmed (λ n. stops_in n faults.now.phase faults.now.lines.now) (λ w. w.seat.node.replica) workers.old.items workers.new.items) }
{
    let mut posts: Vec<Post<'a, L, R, P, B, W, Worker<S, C>>> = Vec::with_capacity(
        alloc,
        workers.len(),
    )?;
    // Part 0 is of no node.
    let spare = lock.split(main, 1);
    let access: Locked<'a, L, R, P, B, W> = Locked::new(rt, lock, spare, 0);
    let turns = turns_of(faults);
    let mut stirrer = Stirrer {
        access,
        cells,
        turns,
        sufficed: true,
    };
    seat_all(rt, alloc, lock, main, workers, &mut posts);
    run_all(
        rt,
        alloc,
        lines,
        from,
        to,
        faults,
        gate,
        &mut posts,
        &mut stirrer,
    );
    let sufficed = join_all(lock, main, posts, workers, looks);
    let Stirrer {
        access,
        cells: _,
        turns: _,
        sufficed: stirred,
    } = stirrer;
    let pass = access.into_pass();
    lock.join(main, pass);
    look(rt, lock, main);
    answer_of(both(stirred, sufficed))
}

/// A phase, whose lines are those from `from` up to `to`. First number 0, which is no node, does what the phase's fault lines ask for as it begins. Then each
/// node plays its lines, beside the others, and number 0 has as many old messages come again as the fault lines ask for; then all of them have
/// seen the same again: the journal of before, and what was made in the phase.
///
/// Cost: that of the lines and of the phase's end at each node, side by side; a thread for each node with a part in it but one, and one where old messages
/// come again; for each node a look at the lines, and one more; for each fault line a turn and two looks.
pub fn play_phase<
    'a,
    L: Loglet + Send,
    R: Register + Send,
    P: Rules + Send,
    B: Room + Send,
    W: Threads + Wait + Sync,
    S: Replica + Send,
    C: Chooser + Send,
    G: Gate + Sync,
>(
    rt: &'a W,
    alloc: Global,
    lock: &'a Shared<Desk<L, R, P>>,
    main: &mut Pass<Desk<L, R, P>>,
    workers: &mut Vec<Worker<S, C>>,
    looks: &mut Vec<Option<Looked>>,
    lines: &[NamedLine],
    from: usize,
    to: usize,
    faults: &PhaseFaults,
    cells: u32,
    gate: &G,
) -> Result<(), AllocError>
    requires room { lock.now ≡ B.lock }
    requires rested { IsRested B.lock main.old }
    requires run { MayRun P.law }
    requires range { (from ≤ to) × (to ≤ length lines.now) }
    requires sends { MaySendAll P.law.may lines.now }
    requires floor { FloorIs P.law.floor (length workers.old.items) }
    requires eight { length workers.old.items ≤ 8 }
    requires cells { (0 < cells) × (cells ≡ length P.law.shelf) }
    requires parts { NameParts P.law.shelf faults.now.lines.now }
    requires faults { AreFaultLines lines.now faults.now.lines.now P.law.shelf (length workers.old.items) }
    requires phase { AreOfPhase faults.now.lines.now faults.now.phase faults.now.from faults.now.to }
    requires begins { BeginsPhase P.law S.meaning lines.now faults.now.lines.now faults.now.phase from to (journal_of main.old) looks.old.items (λ w. w.seat) (λ w. w.desks.items) workers.old.items }
    ensures rested { IsRested B.lock main.new }
    ensures goes { OnOk result (CrewRests P.law S.meaning lines.now faults.now.lines.now to (faults.now.phase + 1) (journal_of main.new) looks.new.items (λ w. w.seat) (λ w. w.desks.items) workers.new.items) }
    ensures stands { CrewStands P.law S.meaning (journal_of main.new) (λ w. w.seat) workers.new.items }
    ensures size { length workers.new.items ≡ length workers.old.items }

    // The journal goes on, by events of number 0 and of nodes that have lines or stops in the phase alone.
    ensures goes_on { WentOn lines.now faults.now.lines.now faults.now.phase (length workers.old.items) (journal_of main.old) (journal_of main.new) }

    // What the fault lines ask for is done, first what begins the phase, and nobody breaks or mends anything else.
    ensures acts { OnOk result (ActsInPhase (calls_in faults.now.phase faults.now.lines.now) (strays_in cells faults.now.phase faults.now.lines.now) (journal_of main.old) (journal_of main.new)) }

    // The phase's stops of each node, and nothing else, armed its disk.
    ensures armed { OnOk result (AreArmed (λ n. stops_in n faults.now.phase faults.now.lines.now) (λ w. w.seat.node.replica) workers.old.items workers.new.items) }
{
    begin_phase(rt, lock, main, faults)?;
    play_nodes::<L, R, P, B, W, S, C, G>(
        rt, alloc, lock, main, workers, looks, lines, from, to, faults, cells, gate,
    )
}
