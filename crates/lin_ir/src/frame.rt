//! Frame points and the bytes of a frame.
ghost use Rattle.std.specs.Prelude.{◌≡◌, ◌<◌};
ghost use Rattle.mach_ir.specs.Acts.{has_descriptor};
ghost use Rattle.lin_ir.specs.Descriptors.{has_frame_point, frame_bytes};
ghost use Rattle.lin_ir.specs.Meaning.{passes_frame};

use crate::lin::{Lin, LinOp, Line};
use mach_ir::{Access, Calling, Op};

fn access_has_descriptor(access: &Access) -> bool
    ensures { result ≡ has_descriptor (Op.Access access.now) }
{
    match access {
        Access::Load { .. } => false,
        Access::Store { .. } => false,
        Access::Alloc(_) => true,
    }
}

fn call_has_descriptor(calling: &Calling) -> bool
    ensures { result ≡ has_descriptor (Op.Calling calling.now) }
{
    match calling {
        Calling::Call { .. } => true,
        Calling::TailCall { .. } => false,
        Calling::External { row: _, frame } => *frame,
    }
}

fn op_has_descriptor(op: &Op) -> bool
    ensures { result ≡ has_descriptor op.now }
{
    match op {
        Op::Pure(_) => false,
        Op::Access(access) => access_has_descriptor(access),
        Op::Calling(calling) => call_has_descriptor(calling),
        Op::Leaving(_) => false,
    }
}

fn some_frame_point(code: &[Line]) -> bool
    ensures { result ≡ has_frame_point code.now }
{
    for line in code {
        if line.op.passes_frame() {
            return true;
        }
    }
    false
}

impl LinOp {
    /// Whether it is a frame point that is no tail call, and so has a descriptor.
    pub fn passes_frame(&self) -> bool
        ensures { result ≡ passes_frame self.now }
    {
        match self {
            LinOp::Op(op) => op_has_descriptor(op),
            LinOp::Flow(_) => false,
        }
    }
}

impl Lin {
    /// Whether one of its lines is a frame point that is no tail call. Then its frame holds the
    /// return address.
    pub fn has_frame_point(&self) -> bool
        ensures { result ≡ has_frame_point self.now.code }
    {
        some_frame_point(self.code.as_slice())
    }

    /// The bytes of its frame: 8 for each slot, and 8 for the return address where there is a frame
    /// point that is no tail call, up to a multiple of 16.
    pub fn frame_bytes(&self) -> u32
        requires { frame_bytes self.now < 4294967296 }
        ensures { result ≡ frame_bytes self.now }
    {
        let address: u64 = if self.has_frame_point() { 8 } else { 0 };
        let bytes = (8 * u64::from(self.slots) + address + 15) / 16 * 16;
        bytes as u32
    }
}
