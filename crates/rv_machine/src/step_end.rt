//! What comes of an instruction.
use crate::cause::Cause;

/// What a step reports.
#[derive(Clone, Copy)]
pub enum StepEnd {
    /// The instruction has retired.
    Retired,
    /// The instruction is an ECALL, and the machine is before its service.
    Service,
    /// The instruction would set the stack pointer below the stack's base.
    StackOut,
    /// The machine has stopped, for this cause.
    Stopped(Cause),
}
