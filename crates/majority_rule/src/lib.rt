//! The rule of majorities: how many are more than half of a set, how many votes were cast, and why two majorities share a member.
#![tactic(auto)]

pub mod majority;
