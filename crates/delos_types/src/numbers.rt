//! The numbers that name things: nodes, sessions, the ranks of their commands, and tickets.
//! Each is a type of its own that contracts see as its number.
ghost use Rattle.std.specs.Prelude.{◌≡◌, ℕ, ◌≤◌, ◌<◌, ◌↔◌, IsSome, IfSome};

use std::marker::Model;

/// One of the nodes, 1 to 8.
#[derive(Clone, Copy, PartialEq, Eq, PartialOrd, Ord, Debug)]
pub struct NodeId {
    number: u8,
}

impl Model for NodeId {
    ghost use Rattle.std.specs.Prelude.{ℕ, ◌≤◌};

    ghost Value = { ℕ };

    ghost view = { λ n. n.number };

    ghost invariant = { λ n. (1 ≤ n.number) × (n.number ≤ 8) };

    ghost inverse = { λ n. record { number = n } };
}

impl NodeId {
    /// None exactly where the number is outside 1 to 8.
    pub fn new(number: u8) -> Option<NodeId>
        ensures valid { IsSome result ↔ ((1 ≤ number) × (number ≤ 8)) }
        ensures value { IfSome result (λ n. n ≡ number) }
    {
        if (1..=8).contains(&number) {
            Some(NodeId { number })
        } else {
            None
        }
    }

    pub fn number(self) -> u8
        ensures value { result ≡ self }
        ensures range { (1 ≤ result) × (result ≤ 8) }
    {
        self.number
    }
}

/// One of the sessions of a script, 0 to 63, in the order in which they are first named.
#[derive(Clone, Copy, PartialEq, Eq, PartialOrd, Ord, Debug)]
pub struct SessionId {
    number: u16,
}

impl Model for SessionId {
    ghost use Rattle.std.specs.Prelude.{ℕ, ◌≤◌};

    ghost Value = { ℕ };

    ghost view = { λ n. n.number };

    ghost invariant = { λ n. n.number ≤ 63 };

    ghost inverse = { λ n. record { number = n } };
}

impl SessionId {
    /// None exactly where the number is above 63.
    pub fn new(number: u16) -> Option<SessionId>
        ensures valid { IsSome result ↔ (number ≤ 63) }
        ensures value { IfSome result (λ n. n ≡ number) }
    {
        if number <= 63 {
            Some(SessionId { number })
        } else {
            None
        }
    }

    pub fn number(self) -> u16
        ensures value { result ≡ self }
        ensures range { result ≤ 63 }
    {
        self.number
    }
}

/// The number of a command among its session's logged commands, from 1.
#[derive(Clone, Copy, PartialEq, Eq, PartialOrd, Ord, Debug)]
pub struct Rank {
    number: u64,
}

impl Model for Rank {
    ghost use Rattle.std.specs.Prelude.{ℕ, ◌≤◌};

    ghost Value = { ℕ };

    ghost view = { λ n. n.number };

    ghost invariant = { λ n. 1 ≤ n.number };

    ghost inverse = { λ n. record { number = n } };
}

impl Rank {
    /// None exactly where the number is 0.
    pub fn new(number: u64) -> Option<Rank>
        ensures valid { IsSome result ↔ (1 ≤ number) }
        ensures value { IfSome result (λ n. n ≡ number) }
    {
        if number >= 1 {
            Some(Rank { number })
        } else {
            None
        }
    }

    pub fn number(self) -> u64
        ensures value { result ≡ self }
        ensures range { 1 ≤ result }
    {
        self.number
    }
}

/// Names an operation of a loglet.
#[derive(Clone, Copy, PartialEq, Eq, PartialOrd, Ord, Debug)]
pub struct Ticket {
    number: u64,
}

impl Model for Ticket {
    ghost use Rattle.std.specs.Prelude.{ℕ};

    ghost Value = { ℕ };

    ghost view = { λ t. t.number };

    ghost inverse = { λ n. record { number = n } };
}

impl Ticket {
    pub fn new(number: u64) -> Ticket
        ensures { result ≡ number }
    {
        Ticket { number }
    }

    pub fn number(self) -> u64
        ensures { result ≡ self }
    {
        self.number
    }
}
