//! What a node has sent, for the rules of its scopes alone.
ghost use Rattle.std.specs.Prelude.{List, ℕ, []};

use std::marker::Brand;

/// How many commands of each session a node has sent, by their numbers. Each call of a function over such a type picks them, so that no
/// count is handed from call to call.
pub trait Sent {
    ghost counts: { List ℕ };
}

impl Sent for Brand {
    ghost counts = { [] };
}
