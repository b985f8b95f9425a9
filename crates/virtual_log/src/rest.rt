//! A virtual log between two times at which it has turns, so that one fabric goes from user to user.
ghost use Rattle.std.specs.Prelude.{◌≡◌, ◌++◌, ℕ, List, length};
ghost use Rattle.delos_types.specs.declared.chain.Chain.{Chain};
ghost use Rattle.legal_journal.specs.declared.events.Event.{Event};
ghost use Rattle.legal_journal.specs.Journal.{state_of, IsLegal};
ghost use Rattle.virtual_log.specs.Log.{GoesBy};

use crate::calls::Known;
use crate::log::VirtualLog;
use fate_words::chooser::Chooser;
use legal_journal::rules::Rules;
use legal_journal::turns::Turns;
use std::alloc::Global;
use std::marker::Model;

/// A virtual log that gave its turns out: what it knows, and the chain that it goes by.
#[derive(Drop)]
pub struct Rested<C: Chooser> {
    pub(crate) alloc: Global,
    pub(crate) chooser: C,
    pub(crate) shelf_len: u32,
    pub(crate) known: Known,
}

impl<C: Chooser> Model for Rested<C> {
    ghost use Rattle.virtual_log.specs.Log.{RestedView};

    ghost Value = { RestedView };

    ghost view = { λ r. record { known = r.known.tail; version = r.known.version; chain = r.known.chain; shelf_len = r.shelf_len; words = C.at r.chooser } };
}

impl<C: Chooser> Rested<C> {
    /// The virtual log as it was, with these turns: they have seen what those that were given out had
    /// seen, so what it knows stands (`what_is_known_stays`). Takes no memory, and makes no event.
    pub fn wake<T: Turns>(self, turns: T) -> VirtualLog<T, C>
        requires legal { IsLegal T.Law.law (T.seen turns) }
        requires goes_by { GoesBy (state_of (T.seen turns)) self.version self.chain self.known }
        requires shelf { self.shelf_len ≡ length T.Law.law.shelf }
        ensures { result ≡ record { who = T.who turns; seen = T.seen turns; known = self.known; version = self.version; chain = self.chain; words = self.words } }
    {
        let Rested {
            alloc,
            chooser,
            shelf_len,
            known,
        } = self;
        VirtualLog {
            alloc,
            turns,
            chooser,
            shelf_len,
            known,
        }
    }
}

/// What a virtual log knows at a moment of a legal journal it knows at every later one.
pub fn what_is_known_stays<P: Rules>()
    ensures { (early late : List Event) (version known : ℕ) (chain : Chain) → IsLegal P.law (early ++ late)
        → GoesBy (state_of early) version chain known → GoesBy (state_of (early ++ late)) version chain known }
{}
