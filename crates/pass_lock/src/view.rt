// What a seat at the lock's table knows.
ghost use Rattle.std.specs.Prelude.{ℕ, List};
ghost use Rattle.std.specs.Borrow.{ftrue};
ghost use base.Stored.{coded_list, coded×, coded_ℕ};

use std::marker::{Model, PhantomData};

/// What a pass knows. No value of it is made.
pub struct View<E> {
    marker: PhantomData<E>,
    /// The numbers of its parts, each with the journal that was seen with that part.
    pub ghost parts: { List (ℕ × List E) } by { coded_list (coded× coded_ℕ (coded_list E.code)) },
    /// The turns that were made with it, each with the piece that it added.
    pub ghost made: { List (ℕ × List E) } by { coded_list (coded× coded_ℕ (coded_list E.code)) },
    /// Outside a turn, waiting, inside or leaving.
    pub ghost stage: { ℕ },
    /// The turn that it drew last.
    pub ghost ticket: { ℕ },
}

impl<E> Model for View<E> {
    ghost also_owns = { λ _. ftrue };
}
