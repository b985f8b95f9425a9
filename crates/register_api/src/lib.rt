//! A register of the chain of loglets: versions with a conditional write (MetaStore of OSDI 2020).
//!
//! - [`Register`]: the trait.
//! - [`ReadAnswer`], [`WriteAnswer`]: what its calls come to.
//!
//! The definitions stand in `specs/`: `View` (what a register shows), `Calls` (what each call does).
#![tactic(auto)]

pub mod answer;
pub mod register;

pub use answer::{ReadAnswer, WriteAnswer};
pub use register::Register;
