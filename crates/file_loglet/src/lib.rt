//! A loglet of one server, whose log is a journal on a disk.
//!
//! - `file`: the loglet.
//! - `server`: its server: what the records of the journal spell.
//! - `extent`: how far the server has got, in numbers, and how a record changes that.
//! - `decide`: what carrying an operation comes to.
//! - `pending`: the open operations, by ticket.
//! - `laws`: what holds after any list of calls.
//! - `marks`: what the loglet has told and counted.
//! - `memory`: a file loglet on a disk in memory.
//!
//! The definitions stand in `specs/`: `File` (what a file loglet shows, and what ties its parts together), `State` (what
//! holds of its fields), `Held` (what its server holds), `Later` (how the server goes on), `Asking`
//! (what an operation asks of it), `Celling` (that as steps of a quorum cell), `Steps` (the loglet as a cell of one server,
//! and each call as its steps), `Standing` (what stands once it was answered), `Pending` (open operations).
#![tactic(auto)]

pub mod decide;
pub mod extent;
pub mod file;
pub mod laws;
pub mod marks;
pub mod memory;
pub mod pending;
pub mod server;
