//! What the users of a fabric keep to.
ghost use Rattle.std.specs.Prelude.{List, ℕ};
ghost use Rattle.legal_journal.specs.Law.{Law};
ghost use Rattle.loglet_api.specs.declared.call.Kind.{Kind};

/// Meanings alone: no value of it is ever made.
pub trait Rules {
    /// Who may append what, to which positions the log may be trimmed, and over which cells: what makes a journal legal.
    ghost law: { Law };

    /// Who may seal a loglet.
    ghost seals: { ℕ → Type 0 };

    /// The kinds of the cells.
    ghost kinds: { List Kind };
}
