//! A gate that shows two nodes side by side.
ghost use Rattle.std.specs.Prelude.{◌≤◌};

use crate::gate::{Gate, Point};
use std::sync::atomic::AtomicBool;
use std::sync::atomic::Ordering::SeqCst;
use std::thread::yield_now;

/// Holds a node's first pass of a point until another node has passed a point of its own, for so many turns at most.
///
/// A turn lets other threads go on, so a node that is held keeps nobody from passing.
#[derive(Drop)]
pub struct HoldGate {
    node: u32,
    point: Point,
    other: u32,
    until: Point,
    turns: u64,
    // The node has come to its point.
    held: AtomicBool,
    // The other has passed its own.
    reached: AtomicBool,
    gave_up: AtomicBool,
}

impl HoldGate {
    pub fn new(node: u32, point: Point, other: u32, until: Point, turns: u64) -> HoldGate {
        HoldGate {
            node,
            point,
            other,
            until,
            turns,
            held: AtomicBool::new(false),
            reached: AtomicBool::new(false),
            gave_up: AtomicBool::new(false),
        }
    }

    /// Whether the turns ran out while the node was held.
    pub fn gave_up(&self) -> bool {
        self.gave_up.load(SeqCst)
    }

    // Waits for the other, for so many turns at most. How many it waited.
    fn hold(&self) -> u64
        ensures { result ≤ self.now.turns }
    {
        for turn in 0..self.turns {
            if self.reached.load(SeqCst) {
                return turn;
            }
            yield_now();
        }
        if !self.reached.load(SeqCst) {
            self.gave_up.store(true, SeqCst);
        }
        self.turns
    }
}

impl Gate for HoldGate {
    fn pass(&self, node: u32, point: Point) {
        if node == self.other && point == self.until {
            self.reached.store(true, SeqCst);
        }
        if node == self.node && point == self.point && !self.held.swap(true, SeqCst) {
            self.hold();
        }
    }
}
