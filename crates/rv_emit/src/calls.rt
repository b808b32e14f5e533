//! Calls, and the return from a function.
ghost use Rattle.std.specs.Prelude.{◌≡◌, [], ◌∷◌, IfOk, option_copied};
ghost use Rattle.rv_emit_rules.specs.Calls.{mark_of, call_words, callee_words, goes_to_callee, tail_call_part, external_service, external_words, return_part};
ghost use Rattle.rv_emit.specs.Outputs.{AddsPieces};
ghost use Rattle.rv_emit.specs.Frames.{frame_layout_of};

use crate::form::FrameForm;
use crate::output::Output;
use crate::slots::{first, register_of};
use bs_words::Name;
use lin_ir::{Descr, Spot};
use mach_ir::{Callee, External, Seq};
use rv_isa::Register;
use rv_pieces::Piece;
use std::alloc::{AllocError, Global};

/// The name once more.
fn copied_name(alloc: Global, name: &Name) -> Result<Name, AllocError>
    ensures { IfOk result (λ copy. copy ≡ name.now) }
{
    Ok(Name::from_vec(Vec::from_slice(alloc, name.as_bytes())?))
}

/// The row once more.
fn copied_row(alloc: Global, row: &External) -> Result<External, AllocError>
    ensures { IfOk result (λ copy. copy ≡ row.now) }
{
    let name = copied_name(alloc, &row.name)?;
    let params = Seq::from_vec(Vec::from_slice(alloc, row.params.as_slice())?);
    Ok(External {
        name,
        params,
        result: row.result,
    })
}

/// The descriptor once more.
fn copied_descriptor(alloc: Global, descriptor: &Descr) -> Result<Descr, AllocError>
    ensures { IfOk result (λ copy. copy ≡ descriptor.now) }
{
    let entries = Seq::from_vec(Vec::from_slice(alloc, descriptor.entries.as_slice())?);
    Ok(Descr {
        after: descriptor.after,
        size: descriptor.size,
        entries,
    })
}

/// The number of the service of an external call.
fn external_service(frame: bool) -> u64
    ensures { result ≡ external_service frame }
{
    if frame { 4 } else { 2 }
}

impl Output {
    /// The mark of a return address, where it has a descriptor. The only error is want of memory.
    pub fn mark(&mut self, descriptor: Option<&Descr>) -> Result<(), AllocError>
        ensures { IfOk result (λ _.
            AddsPieces self.old self.new (mark_of (option_copied descriptor.entry))) }
    {
        match descriptor {
            None => Ok(()),
            Some(descriptor) => {
                let copy = copied_descriptor(self.alloc, descriptor)?;
                self.put(Piece::Descriptor(copy))
            }
        }
    }

    /// The value of a symbol becomes the register's value. The only error is want of memory.
    pub fn symbol_address(&mut self, to: Register, name: &Name) -> Result<(), AllocError>
        ensures { IfOk result (λ _. AddsPieces self.old self.new (Piece.SymbolAddress to name.now ∷ [])) }
    {
        let name = copied_name(self.alloc, name)?;
        self.put(Piece::SymbolAddress { to, name })
    }

    /// A call of a function. The only error is want of memory.
    pub fn call_words(
        &mut self,
        traps: u32,
        callee: &Callee,
        args: &[Spot],
    ) -> Result<(), AllocError>
        ensures { IfOk result (λ _. AddsPieces self.old self.new (call_words traps callee.now args.now)) }
    {
        match callee {
            Callee::Symbol(name) => {
                let name = copied_name(self.alloc, name)?;
                self.put(Piece::Call(name))
            }
            Callee::Register => {
                let whom = first(args);
                self.fetched(traps, Register::T1, whom)?;
                self.calls_at(register_of(Register::T1, whom))
            }
        }
    }

    fn callee_words(&mut self, traps: u32, callee: &Callee, args: &[Spot]) -> Result<(), AllocError>
        ensures { IfOk result (λ _.
            AddsPieces self.old self.new (callee_words traps callee.now args.now)) }
    {
        match callee {
            Callee::Symbol(_) => Ok(()),
            Callee::Register => self.value_words(traps, first(args)),
        }
    }

    fn goes_to_callee(&mut self, callee: &Callee) -> Result<(), AllocError>
        ensures { IfOk result (λ _. AddsPieces self.old self.new (goes_to_callee callee.now ∷ [])) }
    {
        match callee {
            Callee::Symbol(name) => {
                let name = copied_name(self.alloc, name)?;
                self.put(Piece::TailCall(name))
            }
            Callee::Register => self.goes_to(Register::T1, 0),
        }
    }

    /// A call that takes the place of the function. The only error is want of memory.
    pub fn tail_call_part(
        &mut self,
        traps: u32,
        frame: FrameForm,
        callee: &Callee,
        args: &[Spot],
    ) -> Result<(), AllocError>
        ensures { IfOk result (λ _.
            AddsPieces self.old self.new (tail_call_part traps (frame_layout_of frame) callee.now args.now)) }
    {
        self.callee_words(traps, callee, args)?;
        self.given_back(frame)?;
        self.goes_to_callee(callee)
    }

    /// An external call; `frame`: that it is a frame call. The only error is want of memory.
    pub fn external_words(&mut self, row: &External, frame: bool) -> Result<(), AllocError>
        ensures { IfOk result (λ _. AddsPieces self.old self.new (external_words row.now frame)) }
    {
        let row = copied_row(self.alloc, row)?;
        self.put(Piece::ExternalNumber {
            to: Register::T0,
            row,
        })?;
        self.constant(Register::T2, external_service(frame))?;
        self.ecall()
    }

    /// The return from the function. The only error is want of memory.
    pub fn return_part(&mut self, frame: FrameForm) -> Result<(), AllocError>
        ensures { IfOk result (λ _. AddsPieces self.old self.new (return_part (frame_layout_of frame))) }
    {
        self.given_back(frame)?;
        self.goes_to(Register::Ra, 0)
    }
}
