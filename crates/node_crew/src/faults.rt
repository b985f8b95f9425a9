//! The fault lines of a phase.
use script_text::faults::FaultLine;

/// The fault lines of a run, in order, of which those from `from` up to `to` are of the present phase.
#[derive(Drop)]
pub struct PhaseFaults<'f> {
    pub lines: &'f [FaultLine],
    pub phase: u64,
    pub from: usize,
    pub to: usize,
}
