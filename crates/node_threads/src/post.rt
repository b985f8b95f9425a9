//! A node at its part of the lock.
ghost use Rattle.std.specs.Prelude.{◌≡◌, ◌≤◌, [], length, Some, None, true, IsSome};
ghost use Rattle.pass_lock.specs.Pass.{one_part};
ghost use Rattle.node_lines.specs.Workers.{MayRun};
ghost use Rattle.node_course.specs.FaultLines.{AreOfPhase};
ghost use Rattle.node_crew.specs.Turns.{MaySendAll};
ghost use Rattle.node_threads.specs.Posts.{MayWork, Worked, seen_of, who_of};

use crate::part::take_part;
use fate_words::chooser::Chooser;
use gate_points::Gate;
use legal_journal::rules::Rules;
use locked_turns::desk::Desk;
use locked_turns::locked::Locked;
use locked_turns::room::Room;
use loglet_api::loglet::Loglet;
use node_crew::faults::PhaseFaults;
use node_crew::note::Note;
use node_workers::back::Back;
use node_workers::worker::Worker;
use pass_lock::Pass;
use register_api::Register;
use replica_api::replica::Replica;
use script_text::asks::NamedLine;
use std::alloc::Global;
use std::marker::Model;
use std::sync::Wait;

/// A node in a phase: its part of the lock and what it works with, which are both there but while it works; what its lines come to; and
/// whether memory sufficed.
pub struct Post<'a, L: Loglet, R: Register, P: Rules, B: Room, W: Wait, K> {
    access: Option<Locked<'a, L, R, P, B, W>>,
    worker: Option<K>,
    notes: Vec<Note>,
    sufficed: bool,
}

/// What a phase leaves of a post.
pub struct Parted<L: Loglet, R: Register, P: Rules, K> {
    pub pass: Pass<Desk<L, R, P>>,
    pub worker: K,
    pub notes: Vec<Note>,
    pub sufficed: bool,
}

impl<'a, L: Loglet, R: Register, P: Rules, B: Room, W: Wait, K> Model
    for Post<'a, L, R, P, B, W, K> {
    ghost use Rattle.node_threads.specs.Posts.{PostView};

    ghost Value = { PostView K };

    ghost view = { λ p. record { access = p.access; worker = p.worker; notes = p.notes.items; sufficed = p.sufficed } };
}

impl<'a, L: Loglet, R: Register, P: Rules, B: Room, W: Wait, K> Post<'a, L, R, P, B, W, K> {
    /// A node that hasn't begun.
    pub fn new(alloc: Global, access: Locked<'a, L, R, P, B, W>, worker: K) -> Self
        ensures { result ≡ record { access = Some access.entry; worker = Some worker; notes = []; sufficed = true } }
    {
        Post {
            access: Some(access),
            worker: Some(worker),
            notes: Vec::new(alloc),
            sufficed: true,
        }
    }

    // Puts both back.
    fn fill(&mut self, access: Locked<'a, L, R, P, B, W>, worker: K)
        requires access { self.old.access ≡ None }
        requires worker { self.old.worker ≡ None }
        ensures { self.new ≡ record self.old { access = Some access.entry; worker = Some worker } }
    {
        match self.access.replace(access) {
            None => {}
            Some(_) => unreachable!(),
        }
        match self.worker.replace(worker) {
            None => {}
            Some(_) => unreachable!(),
        }
    }

    /// What the phase leaves.
    pub fn part(self) -> Parted<L, R, P, K>
        requires access { IsSome self.access }
        requires worker { IsSome self.worker }
        ensures pass { result.pass ≡ one_part B.lock (who_of self.entry.access) (seen_of self.entry.access) result.pass.made }
        ensures worker { self.entry.worker ≡ Some result.worker }
        ensures notes { result.notes.items ≡ self.entry.notes }
        ensures sufficed { result.sufficed ≡ self.entry.sufficed }
    {
        let Post {
            access,
            worker,
            notes,
            sufficed,
        } = self;
        Parted {
            pass: access.unwrap().into_pass(),
            worker: worker.unwrap(),
            notes,
            sufficed,
        }
    }
}

impl<'a, L: Loglet, R: Register, P: Rules, B: Room, W: Wait, S: Replica, C: Chooser> Post<
    'a,
    L,
    R,
    P,
    B,
    W,
    Worker<S, C>,
> {
    /// The node takes its part in the phase whose lines are those from `from` up to `to`.
    pub fn run<G: Gate>(
        &mut self,
        alloc: Global,
        lines: &[NamedLine],
        from: usize,
        to: usize,
        faults: &PhaseFaults,
        gate: &G,
    )
        requires run { MayRun P.law }
        requires range { (from ≤ to) × (to ≤ length lines.now) }
        requires sends { MaySendAll P.law.may lines.now }
        requires phase { AreOfPhase faults.now.lines.now faults.now.phase faults.now.from faults.now.to }
        requires may { MayWork P.law S.meaning lines.now faults.now.lines.now faults.now.phase from to (λ w. w.seat) (λ w. w.desks.items) self.old }
        ensures { Worked P.law S.meaning lines.now faults.now.lines.now faults.now.phase from to (λ w. w.seat) (λ w. w.desks.items) self.old self.new }
    {
        let access = self.access.take().unwrap();
        let worker = self.worker.take().unwrap();
        let Back {
            part,
            access,
            answer,
        } = take_part(
            alloc,
            access,
            worker,
            &mut self.notes,
            lines,
            from,
            to,
            faults,
            gate,
        );
        self.sufficed = answer.is_ok();
        self.fill(access, part);
    }
}
