//! Rules whose meanings are known only as a run, or a part of it, begins. Each call of a function over such a type
//! picks them.
ghost use Rattle.std.specs.Prelude.{List, ℕ, []};
ghost use Rattle.legal_journal.specs.declared.events.Event.{Event};
ghost use Rattle.legal_journal.specs.Law.{Law};
ghost use Rattle.loglet_api.specs.declared.call.Kind.{Kind};

use legal_journal::rules::Rules;
use std::marker::{Brand, PhantomData};

/// What all users keep to, as long as there is a fabric.
pub trait Terms {
    /// Who may append what, to which positions the log may be trimmed, and over which cells.
    ghost law: { Law };

    /// The kinds of the cells.
    ghost kinds: { List Kind };
}

impl Terms for Brand {
    ghost law = { record { may = λ _ _. ⊥; floor = λ _ _. ⊥; shelf = [] } };

    ghost kinds = { [] };
}

/// The rules by these terms.
#[derive(Drop)]
pub struct By<K: Terms> {
    terms: PhantomData<K>,
}

impl<K: Terms> Rules for By<K> {
    ghost law = { K.law };

    ghost seals = { λ _. Unit {0} };

    ghost kinds = { K.kinds };
}

/// What one user keeps to for a while.
pub trait Scope {
    /// Whose it is.
    ghost who: { ℕ };

    /// Who has appended what and to which positions the log is trimmed, up to its end, and over which cells.
    ghost law: { Law };

    /// Who may seal, up to its end.
    ghost seals: { ℕ → Type 0 };

    /// The journal as it begins.
    ghost since: { List Event };
}

impl Scope for Brand {
    ghost who = { 0 };

    ghost law = { record { may = λ _ _. ⊥; floor = λ _ _. ⊥; shelf = [] } };

    ghost seals = { λ _. ⊥ };

    ghost since = { [] };
}

/// These rules within a scope.
#[derive(Drop)]
pub struct Within<P: Rules, Q: Scope> {
    rules: PhantomData<P>,
    scope: PhantomData<Q>,
}

impl<P: Rules, Q: Scope> Rules for Within<P, Q> {
    ghost law = { Q.law };

    ghost seals = { Q.seals };

    ghost kinds = { P.kinds };
}
