//! The frame of a function: its entry, and how it gives the frame back.
ghost use Rattle.std.specs.Prelude.{◌≡◌, ◌≤◌, IfOk};
ghost use Rattle.lin_ir.specs.Descriptors.{frame_bytes};
ghost use Rattle.rv_emit_rules.specs.Entry.{frame_of, frame_allocation, entry_pieces, restored, raised_stack_pointer, frame_release, return_offset};
ghost use Rattle.rv_emit.specs.Outputs.{AddsPieces};
ghost use Rattle.rv_emit.specs.Frames.{frame_layout_of};

use crate::form::FrameForm;
use crate::output::Output;
use lin_ir::Lin;
use rv_isa::Register;
use std::alloc::AllocError;

/// The frame of a function.
pub fn frame_of(lin: &Lin) -> FrameForm
    requires { frame_bytes lin.now ≤ 1048576 }
    ensures { frame_layout_of result ≡ frame_of lin.now }
{
    FrameForm {
        bytes: lin.frame_bytes(),
        saves: lin.has_frame_point(),
    }
}

/// Where the return address lies.
fn return_offset(frame: FrameForm) -> u64
    ensures { result ≡ return_offset (frame_layout_of frame) }
{
    u64::from(frame.bytes.saturating_sub(8))
}

impl Output {
    fn taken(&mut self, frame: FrameForm) -> Result<(), AllocError>
        ensures { IfOk result (λ _. AddsPieces self.old self.new (frame_allocation (frame_layout_of frame))) }
    {
        if frame.bytes == 0 {
            return Ok(());
        }
        self.lowered(Register::T1, Register::Sp, u64::from(frame.bytes))
    }

    /// The entry of a function. The only error is want of memory.
    pub fn entry(&mut self, frame: FrameForm) -> Result<(), AllocError>
        ensures { IfOk result (λ _. AddsPieces self.old self.new (entry_pieces (frame_layout_of frame))) }
    {
        self.taken(frame)?;
        if frame.saves {
            self.stack_store(Register::T1, Register::Ra, return_offset(frame))
        } else {
            Ok(())
        }
    }

    fn restored(&mut self, frame: FrameForm) -> Result<(), AllocError>
        ensures { IfOk result (λ _. AddsPieces self.old self.new (restored (frame_layout_of frame))) }
    {
        if frame.saves {
            self.stack_load(Register::T2, Register::Ra, return_offset(frame))
        } else {
            Ok(())
        }
    }

    fn raised(&mut self, frame: FrameForm) -> Result<(), AllocError>
        ensures { IfOk result (λ _. AddsPieces self.old self.new (raised_stack_pointer (frame_layout_of frame))) }
    {
        if frame.bytes == 0 {
            return Ok(());
        }
        self.sum_to(
            Register::T2,
            Register::Sp,
            Register::Sp,
            u64::from(frame.bytes),
        )
    }

    /// The frame is given back, and ra is as it was at the entry. The only error is want of memory.
    pub fn given_back(&mut self, frame: FrameForm) -> Result<(), AllocError>
        ensures { IfOk result (λ _. AddsPieces self.old self.new (frame_release (frame_layout_of frame))) }
    {
        self.restored(frame)?;
        self.raised(frame)
    }
}
