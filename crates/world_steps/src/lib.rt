//! The world: cells, the register of the chain that joins them, and nodes that apply its log, as
//! plain lists, and its steps as a program. Every schedule of clients, messages, losses, stops and
//! restarts is a list of steps.
//!
//! * `world`: the world, and lists of steps.
//! * `shape`: the cells that a world begins with. `cell`: quorum cells, and stripes over cells.
//! * `step`: what can happen next.
//! * `parts`: the parts of a world, and what each step does to one of them.
//! * `register`, `node`, `events`: the register, a node, and what clients' events tell.
//! * `laws`: what holds of every world that a list of steps leads to.
#![tactic(auto)]

pub mod cell;
pub mod events;
pub mod laws;
pub mod node;
pub mod parts;
pub mod register;
pub mod shape;
pub mod step;
pub mod world;
