//! What a run ends with.
ghost use Rattle.std.specs.Prelude.{◌≡◌};
ghost use Rattle.script_runner.specs.Codes.{code_of};

use crate::yard::Yard;
use disk_model::Disk;
use fate_words::chooser::Chooser;
use fitting_run::told::Told;
use local_replica::layers::Layers;
use loglet_api::loglet::Loglet;
use register_api::Register;
use script_text::script::BadLine;

/// How a run ended.
#[derive(Clone, Copy, PartialEq, Eq, Debug)]
pub enum Status {
    /// The script was run, no row is open, and the text was put.
    Done,
    /// The script was run, some row is open, and the text was put.
    Open,
    /// A line of the script breaks a rule; `line N: RULE` was put.
    BadLine,
    /// The words of the command line aren't taken; `bad words` was put.
    BadWords,
    /// The source failed; nothing was put.
    SourceFault,
    /// The sink failed; a front of the text was put.
    SinkFault,
    /// Memory ran out; nothing was put.
    Memory,
}

impl Status {
    /// The exit status of the program, 0 to 6.
    pub fn code(self) -> u8
        ensures { result ≡ code_of self }
    {
        match self {
            Status::Done => 0,
            Status::Open => 1,
            Status::BadLine => 2,
            Status::BadWords => 3,
            Status::SourceFault => 4,
            Status::SinkFault => 5,
            Status::Memory => 6,
        }
    }
}

/// How a run ended.
#[derive(Drop)]
pub struct End {
    pub status: Status,
    /// What was run, if a script was.
    pub told: Option<Told>,
    /// The line for which a script was refused, with status 2.
    pub refused: Option<BadLine>,
}

/// How a run ended, with the yard that it was given.
#[derive(Drop)]
pub struct Ended<L: Loglet, R: Register, E: Layers, D: Disk, C: Chooser> {
    pub end: End,
    pub yard: Yard<L, R, E, D, C>,
}
