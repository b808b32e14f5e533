//! The lines on err, and the statuses.
ghost use Rattle.commands.specs.Effects.{side, ReportsLine};
ghost use Rattle.bs_fault.specs.FaultLines.{fault_line};
ghost use Rattle.bs_fault.specs.Lines.{large_line, image_line};
ghost use Rattle.commands.specs.Refusal.{ReportsOr, ReportsRefusal, ReportsCheckRefusal, ReportsSoakRefusal};

use crate::soak::SoakRefusal;
use bs_fault::{Fault, ImageRefusal, Large, fault_text, image_text, large_text};
use bs_io::{Sink, write_all};
use std::alloc::{AllocError, Global};
use text_commands::{CheckRefusal, Refusal};

/// The output was written whole.
pub const WRITTEN: u8 = 0;

/// The words are refused.
pub const USAGE: u8 = 2;

/// The text is refused.
pub const TEXT: u8 = 3;

/// The bytes are no image.
pub const NO_IMAGE: u8 = 4;

/// A read failed.
pub const READ_FAULT: u8 = 5;

/// A write failed.
pub const WRITE_FAULT: u8 = 6;

/// A section of the image passes its limit.
pub const TOO_LARGE: u8 = 8;

/// Memory was wanted and not there.
pub const NO_MEMORY: u8 = 9;

/// Writes a whole line to err and answers `status`, or 6 where the line cannot be written whole.
pub fn tell<E: Sink>(err: &mut E, line: &[u8], status: u8) -> u8
    ensures { ReportsLine (side E.held E.faults err.old err.new) line.now status result }
{
    match write_all(err, line) {
        Ok(()) => status,
        Err(_) => WRITE_FAULT,
    }
}

/// Writes the line of a section that is too large, for which there may be no memory.
fn tell_large<E: Sink>(alloc: Global, err: &mut E, large: &Large) -> u8
    ensures { ReportsOr (side E.held E.faults err.old err.new) (large_line large.now) 8 result }
{
    match large_text(alloc, large) {
        Ok(line) => tell(err, line.as_slice(), TOO_LARGE),
        Err(AllocError) => tell(err, b"cmmc: no memory\n", NO_MEMORY),
    }
}

/// Writes the line of a text's fault, for which there may be no memory.
fn tell_fault<E: Sink>(alloc: Global, err: &mut E, fault: &Fault) -> u8
    ensures { ReportsOr (side E.held E.faults err.old err.new) (fault_line fault.now) 3 result }
{
    match fault_text(alloc, fault) {
        Ok(line) => tell(err, line.as_slice(), TEXT),
        Err(AllocError) => tell(err, b"cmmc: no memory\n", NO_MEMORY),
    }
}

/// Writes the line of a text that has no image, and answers the status: 3 for a fault, 8 for a section
/// that is too large, 9 for want of memory, also of memory for the line, or 6 where the line cannot be
/// written whole.
pub fn tell_refusal<E: Sink>(alloc: Global, err: &mut E, refusal: &Refusal) -> u8
    ensures { ReportsRefusal (side E.held E.faults err.old err.new) refusal.now result }
{
    match refusal {
        Refusal::Fault(fault) => tell_fault(alloc, err, fault),
        Refusal::TooLarge(large) => tell_large(alloc, err, large),
        Refusal::OutOfMemory => tell(err, b"cmmc: no memory\n", NO_MEMORY),
    }
}

/// Writes the line of a text of whose run nothing is reported.
pub fn tell_check_refusal<E: Sink>(alloc: Global, err: &mut E, refusal: &CheckRefusal) -> u8
    ensures { ReportsCheckRefusal (side E.held E.faults err.old err.new) refusal.now result }
{
    match refusal {
        CheckRefusal::Fault(fault) => tell_fault(alloc, err, fault),
        CheckRefusal::UnknownEntry => tell(err, b"cmmc: U3 UnknownEntry\n", USAGE),
        CheckRefusal::ArgumentUnfit => tell(err, b"cmmc: U4 ArgumentUnfit\n", USAGE),
        CheckRefusal::TooLarge(large) => tell_large(alloc, err, large),
        CheckRefusal::OutOfMemory => tell(err, b"cmmc: no memory\n", NO_MEMORY),
    }
}

/// Writes the line of a text that was drawn, of which nothing is reported.
pub fn tell_soak_refusal<E: Sink>(alloc: Global, err: &mut E, refusal: &SoakRefusal) -> u8
    ensures { ReportsSoakRefusal (side E.held E.faults err.old err.new) refusal.now result }
{
    match refusal {
        SoakRefusal::TooLarge(large) => tell_large(alloc, err, large),
        SoakRefusal::OutOfMemory => tell(err, b"cmmc: no memory\n", NO_MEMORY),
    }
}

/// Writes the line of bytes that are no image, and answers the status: 4, or 9 where there is no memory
/// for the line, or 6 where it cannot be written whole.
pub fn tell_image<E: Sink>(alloc: Global, err: &mut E, refusal: &ImageRefusal) -> u8
    ensures { ReportsOr (side E.held E.faults err.old err.new) (image_line refusal.now) 4 result }
{
    match image_text(alloc, refusal) {
        Ok(line) => tell(err, line.as_slice(), NO_IMAGE),
        Err(AllocError) => tell(err, b"cmmc: no memory\n", NO_MEMORY),
    }
}
