//! Pieces with many frame descriptors.
ghost use Rattle.std.specs.Prelude.{suc, ◌≤◌, ◌^◌, IfOk, OnOk, ℕ};
ghost use Rattle.rows_code.specs.Points.{ArePointPieces, IsShortDescriptor, CanStand};

use lin_ir::Descr;
use mach_ir::Seq;
use rv_isa::{AluImmOp, Instr};
use rv_pieces::{Piece, Pieces};
use std::alloc::{AllocError, Global};

/// The most descriptors of a function, and the most entries of one.
const MOST: u32 = 1 << 20;

/// What is before each descriptor.
const FILLING: Instr = Instr::OpImm {
    op: AluImmOp::Addi,
    rd: 0,
    rs1: 0,
    imm: 0,
};

/// A function that is an instruction, and so often another and a descriptor.
pub(crate) fn pieces_of(alloc: Global, points: u32, entries: u32) -> Result<Pieces, AllocError>
    ensures { IfOk result CanStand }
{
    let code = points_of(alloc, points.min(MOST), entries.min(MOST))?;
    Ok(Pieces {
        frame: 16,
        code: Seq::from_vec(code),
    })
}

fn points_of(alloc: Global, points: u32, entries: u32) -> Result<Vec<Piece>, AllocError>
    requires { entries ≤ 2 ^ 20 }
    ensures { IfOk result (λ code. ArePointPieces points code.items) }
{
    let mut code = Vec::new(alloc);
    code.push(Piece::Known(FILLING))?;
    let mut made = 0;
    while made < points {
        put_point(alloc, &mut code, entries)?;
        made += 1;
    }
    Ok(code)
}

fn put_point(alloc: Global, code: &mut Vec<Piece>, entries: u32) -> Result<(), AllocError>
    requires { entries ≤ 2 ^ 20 }
    ensures { (n : ℕ) → ArePointPieces n code.old.items →
        OnOk result (ArePointPieces (suc n) code.new.items) }
{
    let descr = descriptor(alloc, entries)?;
    code.push(Piece::Known(FILLING))?;
    code.push(Piece::Descriptor(descr))?;
    Ok(())
}

/// A descriptor of the first so many slots of a frame.
fn descriptor(alloc: Global, entries: u32) -> Result<Descr, AllocError>
    requires { entries ≤ 2 ^ 20 }
    ensures { IfOk result IsShortDescriptor }
{
    let mut offsets = Vec::new(alloc);
    let mut entry = 0;
    while entry < entries {
        offsets.push(8 * entry)?;
        entry += 1;
    }
    Ok(Descr {
        after: 0,
        size: 16 * (entries / 2 + 1),
        entries: Seq::from_vec(offsets),
    })
}
