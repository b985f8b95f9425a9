//! The rule under which tables are shown.
ghost use Rattle.std.specs.Prelude.{List, []};
ghost use Rattle.snap_reads.specs.Rule.{Kept, Looks, Adds, informed, newcomer};
ghost use Rattle.snap_reads.specs.declared.change.Published as published;

use crate::change::Published;
use crate::shown::{Op, Shown};
use atomic_table::{Join, Split};
use crossbeam_utils::rule::{Outcome, Protocol};
use left_right::reader::Reader;
use left_right::writer::Writer;
use std::marker::{Brand, PhantomData};

/// What was seen, and what was told of. No value of it is made.
pub struct View {
    pub seen: [Published; 0],
    pub told: [Published; 0],
}

pub struct Ruled;

pub type ShownWriter = Writer<Shown, Op, View, Ruled>;

pub type ShownReader = Reader<Shown, View, Ruled>;

impl Protocol<Shown, View> for Ruled {
    ghost holds = { Kept };

    ghost first = { newcomer };
}

/// A look.
pub struct Sees;

impl Outcome<Shown, View> for Sees {
    ghost then = { λ v x y w. Looks v y w };
}

/// What is published. Each call picks it.
pub trait Next {
    ghost list: { List published.Published };
}

impl Next for Brand {
    ghost list = { [] };
}

pub struct Puts<N: Next>(PhantomData<N>);

impl<N: Next> Outcome<Shown, View> for Puts<N> {
    ghost then = { λ v x y w. Adds N.list v x y w };
}

/// What the writer knows goes to a new reader.
pub struct Notes;

impl Split<View> for Notes {
    ghost left = { λ v. v };

    ghost right = { λ v. v };
}

impl Join<View> for Notes {
    ghost both = { informed };

    ghost spent = { newcomer };
}
