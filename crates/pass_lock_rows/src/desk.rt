//! The locked value.
ghost use Rattle.std.specs.Prelude.{◌≡◌, ℕ, ◌+◌, ◌%◌, ◌^◌, List, [], ◌∷◌, ◌++◌, MatchResult};
ghost use Rattle.pass_lock_rows.specs.Turns.{event};

use pass_lock::Chronicled;
use std::alloc::{AllocError, Global};
use std::marker::Model;

/// An event: the `n`-th of the clerk `who`.
#[derive(Clone, Copy)]
pub struct Event {
    pub who: u64,
    pub n: u64,
}

/// What stamps the events of a desk.
pub trait Stamp: Drop {
    ghost used: { Self → ℕ };

    /// Stamps once. The count is modulo 2^64.
    fn press(&mut self)
        ensures { used self.new ≡ (used self.old + 1) % 2 ^ 64 };

    /// How often it was pressed.
    fn pressed(&self) -> u64
        ensures { result ≡ used self.now };
}

/// A boxed stamp is a stamp, so what is proved over any stamp holds of a desk with a boxed one.
impl Stamp for Box<dyn Stamp + Send> {
    ghost used = { λ b. (Stamp-box b).used b.value };

    fn press(&mut self) {
        (**self).press()
    }

    fn pressed(&self) -> u64 {
        (**self).pressed()
    }
}

/// A stamp that counts.
#[derive(Drop)]
pub struct Counting {
    pub count: u64,
}

impl Stamp for Counting {
    ghost used = { λ c. c.count };

    fn press(&mut self) {
        self.count = self.count.wrapping_add(1);
    }

    fn pressed(&self) -> u64 {
        self.count
    }
}

/// A list of events, and the stamp. Contracts see the list. The stamp was pressed once for each event that was filed, which lasts through a lock.
#[derive(Drop)]
pub struct Desk<T: Stamp> {
    pub(crate) events: Vec<Event>,
    stamp: T,
    filed: u64,
}

impl<T: Stamp> Model for Desk<T> {
    ghost use Rattle.std.specs.Prelude.{◌≡◌, List};
    ghost use Rattle.pass_lock_rows.specs.declared.desk.Event.{Event};

    ghost Value = { List Event };

    ghost view = { λ d. d.events.items };

    ghost invariant = { λ d. T.used d.stamp ≡ d.filed };
}

impl<T: Stamp> Chronicled for Desk<T> {
    type Entry = Event;

    ghost journal = { λ d. d };

    ghost signer = { λ e. e.who };
}

impl<T: Stamp> Desk<T> {
    /// A desk with no event.
    pub fn new(alloc: Global, stamp: T) -> Desk<T>
        ensures { result ≡ [] }
    {
        let filed = stamp.pressed();
        Desk {
            events: Vec::new(alloc),
            stamp,
            filed,
        }
    }

    /// Files one event of `who`. Without memory nothing changes.
    pub fn file(&mut self, who: u64, n: u64) -> Result<(), AllocError>
        ensures { MatchResult result (λ _. self.new ≡ self.old ++ event who n ∷ []) (λ _. self.new ≡ self.old) }
    {
        self.events.push(Event { who, n })?;
        self.stamp.press();
        self.filed = self.filed.wrapping_add(1);
        Ok(())
    }

    /// The stamp and the events.
    pub fn into_parts(self) -> (T, Vec<Event>)
        ensures { result.1.items ≡ self }
    {
        let Desk {
            events,
            stamp,
            filed: _,
        } = self;
        (stamp, events)
    }
}
