//! The nodes of a phase work: those that have a part in it beside one another, each in a thread of its own.
ghost use Rattle.std.specs.Prelude.{◌≡◌, ◌<◌, ◌≤◌, length};
ghost use denote.Param.Send.{IsSend, IsSync};
ghost use Rattle.node_lines.specs.Workers.{MayRun};
ghost use Rattle.node_course.specs.FaultLines.{AreOfPhase, strays_from};
ghost use Rattle.node_crew.specs.Turns.{MaySendAll};
ghost use Rattle.node_threads.specs.Each.{Accepts, AcceptsAll, Changes, ChangesAll};
ghost use Rattle.node_threads.specs.Posts.{AllMayWork, AllWorked, MayWork, Worked};
ghost use Rattle.node_threads.specs.Stirring.{Stirred};

use crate::post::Post;
use crate::stirrer::Stirrer;
use delos_types::numbers::NodeId;
use fate_words::chooser::Chooser;
use gate_points::Gate;
use legal_journal::rules::Rules;
use locked_turns::locked::Locked;
use locked_turns::room::Room;
use loglet_api::loglet::Loglet;
use node_crew::faults::PhaseFaults;
use node_workers::worker::Worker;
use register_api::Register;
use replica_api::replica::Replica;
use script_text::asks::NamedLine;
use script_text::faults::FaultAsk;
use std::alloc::Global;
use std::sync::Wait;
use std::thread;
use std::thread::Threads;

/// Bit n for node n.
fn bit_of(node: NodeId) -> u32 {
    1u32.wrapping_shl(u32::from(node.number()))
}

/// The nodes that have lines from `from` up to `to`, or stops of the phase: bit n for node n.
fn at_work(lines: &[NamedLine], from: usize, to: usize, faults: &PhaseFaults) -> u32
    requires lines { to ≤ length lines.now }
    requires faults { faults.now.to ≤ length faults.now.lines.now }
{
    let mut nodes = 0;
    for i in from..to {
        nodes |= bit_of(lines[i].node);
    }
    for k in faults.from..faults.to {
        if let FaultAsk::Stop { node, after: _ } = faults.lines[k].asks {
            nodes |= bit_of(node);
        }
    }
    nodes
}

/// Whether this node is one of these.
fn has(nodes: u32, node: u32) -> bool {
    nodes.wrapping_shr(node) & 1 == 1
}

/// Where so many nodes from `first` on are cut in two, so that half of those of `nodes` stand on each side: behind how many, and which node is the next one.
/// Behind none, where no two of them are of `nodes`.
fn seam(nodes: u32, first: u32, count: usize) -> (usize, u32)
    ensures { 0 < result.0 → result.0 < count }
{
    let mut node = first;
    let mut found = 0usize;
    for _ in 0..count {
        if has(nodes, node) {
            found = found.wrapping_add(1);
        }
        node = node.wrapping_add(1);
    }
    let mut left = found / 2;
    node = first;
    for k in 0..count {
        if left == 0 {
            return (k, node);
        }
        if has(nodes, node) {
            left -= 1;
        }
        node = node.wrapping_add(1);
    }
    (0, first)
}

fn at_one<T, F: Fn(&mut T)>(f: &F, it: &mut T)
    requires { Accepts F.Fn f.now it.old }
    ensures { Changes F.Fn f.now it.old it.new }
{
    f(it);
}

/// Calls the closure at one element after another, in this thread.
fn in_turn<T, F: Fn(&mut T)>(f: &F, s: &mut [T])
    requires { AcceptsAll F.Fn f.now s.old }
    ensures { ChangesAll F.Fn f.now s.old s.new }
{
    for k in 0..s.len() {
        at_one(f, &mut s[k]);
    }
}

/// Calls the closure at each element. The elements are nodes', the first one that of `first`; those of `nodes` have threads of their own.
#[cycle(halves)]
fn beside<R: Threads + Sync, T: Send, F: Fn(&mut T) + Sync>(
    rt: &R,
    f: &F,
    nodes: u32,
    first: u32,
    count: usize,
    s: &mut [T],
)
    requires count { count ≡ length s.old }
    requires accepts { AcceptsAll F.Fn f.now s.old }
    ensures { ChangesAll F.Fn f.now s.old s.new }
{
    let (low, second) = seam(nodes, first, count);
    if low == 0 {
        in_turn(f, s);
        return;
    }
    let (a, b) = s.split_at_mut(low);
    both_halves(rt, f, nodes, first, low, a, second, count - low, b);
}

/// Calls the closure at the elements of both halves, side by side.
#[cycle(halves)]
fn both_halves<R: Threads + Sync, T: Send, F: Fn(&mut T) + Sync>(
    rt: &R,
    f: &F,
    nodes: u32,
    first: u32,
    low: usize,
    a: &mut [T],
    second: u32,
    high: usize,
    b: &mut [T],
)
    requires some { (0 < low) × (0 < high) }
    requires low { low ≡ length a.old }
    requires high { high ≡ length b.old }
    requires front { AcceptsAll F.Fn f.now a.old }
    requires back { AcceptsAll F.Fn f.now b.old }
    ensures front { ChangesAll F.Fn f.now a.old a.new }
    ensures back { ChangesAll F.Fn f.now b.old b.new }
{
    let mut front = ||
        requires { IsSync R.row × IsSync F.row × IsSend T.row × (low ≡ length a.now) × AcceptsAll F.Fn f.now a.now }
        ensures { ChangesAll F.Fn f.entry.now a.entry.now a.exit.now }
    { beside(rt, f, nodes, first, low, a) };
    let mut back = ||
        requires { IsSync R.row × IsSync F.row × IsSend T.row × (high ≡ length b.now) × AcceptsAll F.Fn f.now b.now }
        ensures { ChangesAll F.Fn f.entry.now b.entry.now b.exit.now }
    { beside(rt, f, nodes, second, high, b) };
    thread::join_mut(rt, &mut front, &mut back);
}

/// Calls one closure at each element, as `beside` does, and meanwhile the other one in a thread of its own.
fn at_once<R: Threads + Sync, T: Send, F: Fn(&mut T) + Sync, U: Send, G: Fn(&mut U) + Sync>(
    rt: &R,
    f: &F,
    nodes: u32,
    count: usize,
    s: &mut [T],
    g: &G,
    other: &mut U,
)
    requires count { count ≡ length s.old }
    requires accepts { AcceptsAll F.Fn f.now s.old }
    requires other { Accepts G.Fn g.now other.old }
    ensures each { ChangesAll F.Fn f.now s.old s.new }
    ensures other { Changes G.Fn g.now other.old other.new }
{
    let mut front = ||
        requires { IsSync R.row × IsSync F.row × IsSend T.row × (count ≡ length s.now) × AcceptsAll F.Fn f.now s.now }
        ensures { ChangesAll F.Fn f.entry.now s.entry.now s.exit.now }
    { beside(rt, f, nodes, 1, count, s) };
    let mut back = ||
        requires { Accepts G.Fn g.now other.now }
        ensures { Changes G.Fn g.entry.now other.entry.now other.exit.now }
    { at_one(g, other) };
    thread::join_mut(rt, &mut front, &mut back);
}

/// Does so if the other one has any turns to make. If not, it isn't called.
fn with_other<R: Threads + Sync, T: Send, F: Fn(&mut T) + Sync, U: Send, G: Fn(&mut U) + Sync>(
    rt: &R,
    f: &F,
    nodes: u32,
    count: usize,
    s: &mut [T],
    turns: u64,
    g: &G,
    other: &mut U,
)
    requires count { count ≡ length s.old }
    requires accepts { AcceptsAll F.Fn f.now s.old }
    requires other { Accepts G.Fn g.now other.old }
    ensures each { ChangesAll F.Fn f.now s.old s.new }
    ensures none { turns ≡ 0 → other.new ≡ other.old }
    ensures other { 0 < turns → Changes G.Fn g.now other.old other.new }
{
    if turns == 0 {
        beside(rt, f, nodes, 1, count, s);
        return;
    }
    at_once(rt, f, nodes, count, s, g, other);
}

/// All nodes work, those with lines side by side, and the stirrer beside them, if there is something for it to do.
pub(crate) fn run_all<
    'a,
    L: Loglet + Send,
    R: Register + Send,
    P: Rules + Send,
    B: Room + Send,
    W: Threads + Wait + Sync,
    S: Replica + Send,
    C: Chooser + Send,
    G: Gate + Sync,
>(
    rt: &W,
    alloc: Global,
    lines: &[NamedLine],
    from: usize,
    to: usize,
    faults: &PhaseFaults,
    gate: &G,
    posts: &mut Vec<Post<'a, L, R, P, B, W, Worker<S, C>>>,
    stirrer: &mut Stirrer<Locked<'a, L, R, P, B, W>>,
)
    requires run { MayRun P.law }
    requires range { (from ≤ to) × (to ≤ length lines.now) }
    requires sends { MaySendAll P.law.may lines.now }
    requires phase { AreOfPhase faults.now.lines.now faults.now.phase faults.now.from faults.now.to }
    requires may { AllMayWork P.law S.meaning lines.now faults.now.lines.now faults.now.phase from to (λ w. w.seat) (λ w. w.desks.items) posts.old.items }
    requires stirrer { (stirrer.old.access.who ≡ 0) × (0 < stirrer.old.cells) × (stirrer.old.cells ≡ length P.law.shelf) }
    ensures worked { AllWorked P.law S.meaning lines.now faults.now.lines.now faults.now.phase from to (λ w. w.seat) (λ w. w.desks.items) posts.old.items posts.new.items }
    ensures size { length posts.new.items ≡ length posts.old.items }
    ensures stirrer { stirrer.new.access.who ≡ 0 }
    ensures stirred { Stirred (strays_from stirrer.old.cells 0 stirrer.old.turns) stirrer.old.access.seen stirrer.new.access.seen stirrer.new.sufficed }
{
    let nodes = at_work(lines, from, to, faults);
    let work = |post: &mut Post<L, R, P, B, W, Worker<S, C>>|
        requires { MayRun P.law × (from ≤ to) × (to ≤ length lines.now) × MaySendAll P.law.may lines.now × AreOfPhase faults.now.lines.now faults.now.phase faults.now.from faults.now.to × MayWork P.law S.meaning lines.now faults.now.lines.now faults.now.phase from to (λ w. w.seat) (λ w. w.desks.items) post.now }
        ensures { Worked P.law S.meaning lines.entry.now faults.entry.now.lines.now faults.entry.now.phase from to (λ w. w.seat) (λ w. w.desks.items) post.entry.now post.exit.now }
    { post.run(alloc, lines, from, to, faults, gate) };
    let stir = |stirrer: &mut Stirrer<Locked<L, R, P, B, W>>|
        requires { (stirrer.now.access.who ≡ 0) × (0 < stirrer.now.cells) × (stirrer.now.cells ≡ length P.law.shelf) }
        ensures { (stirrer.exit.now.access.who ≡ 0) × Stirred (strays_from stirrer.entry.now.cells 0 stirrer.entry.now.turns) stirrer.entry.now.access.seen stirrer.exit.now.access.seen stirrer.exit.now.sufficed }
    { stirrer.run() };
    let turns = stirrer.turns;
    let count = posts.len();
    with_other(
        rt,
        &work,
        nodes,
        count,
        posts.as_mut_slice(),
        turns,
        &stir,
        stirrer,
    );
}
