//! The calls of a fabric, their answers, and the events of its journal, as plain values.
use delos_types::chain::Chain;
use delos_types::numbers::Ticket;
use loglet_api::call::{Answer, Op};

/// A call of a fabric. A cell is named by its place in the shelf, a server by its number in the cell.
#[derive(Drop)]
pub enum FabricCall {
    /// Begins the operation on the cell.
    Begin(u32, Op),
    /// Carries the cell's operation once, where it is undecided, and takes its answer, where it is
    /// decided then. The word makes the loglet's choices.
    Carry(u32, Ticket, u64),
    /// Closes the cell's operation without its answer.
    Forget(u32, Ticket),
    ReadChain,
    /// Writes the chain, where the register holds this version.
    WriteChain(u64, Chain),
    /// Arms a disk of the cell: the server's so many-th write from now on stops inside itself.
    Stop(u32, u32, u64),
    /// Brings the cell's server up; the word chooses what a stopped write left.
    Mend(u32, u32, u64),
    /// Delivers an old message of the cell again, which the word chooses.
    Stray(u32, u64),
    /// Arms the register's disk.
    StopMeta(u64),
    /// Brings the register up.
    MendMeta(u64),
}

/// What a fabric answers.
#[derive(Drop)]
pub enum FabricAnswer {
    /// The operation is begun under this ticket.
    Begun(Ticket),
    /// The loglet has no room for the entry, or begins no more operations.
    Full,
    /// The operation's answer, which closes it.
    Done(Answer),
    /// The operation is still undecided.
    Going,
    /// That ticket isn't open.
    NoTicket,
    /// The operation is closed.
    Gone,
    /// The register's version and chain.
    At(u64, Chain),
    /// The register is down.
    Down,
    /// The chain stands, under this version.
    Written(u64),
    /// The register holds another version than the expected one: this one, with its chain.
    Conflict(u64, Chain),
    /// The register failed. The chain stands or doesn't.
    MetaFault,
    /// False where the server or the register didn't come up.
    Set(bool),
    /// There was no memory. This is no event, but for a `Carry` that closed its operation because
    /// the entry that it got couldn't be copied.
    Memory,
}

/// Who called, what was called, and what was answered.
#[derive(Drop)]
pub struct Event {
    pub who: u32,
    pub call: FabricCall,
    pub answer: FabricAnswer,
}
