//! Slots, where operands are read and results are made, and copies.
ghost use Rattle.std.specs.Prelude.{◌≡◌, IfOk};
ghost use Rattle.rv_emit_rules.specs.Slots.{far_stack, stack_load, stack_store, slot_offset, first_location, second, register_of, fetch_pieces, target, keep_pieces, copy_pieces, move_pieces};
ghost use Rattle.rv_emit.specs.Outputs.{AddsPieces};

use crate::constants::above_12;
use crate::output::Output;
use bs_words::Loc;
use lin_ir::{Spot, same_loc};
use rv_isa::{LoadWidth, Register, StoreWidth};
use std::alloc::AllocError;

/// Where a slot lies, in bytes from sp, while so many traps are pushed.
fn slot_offset(traps: u32, slot: u32) -> u64
    ensures { result ≡ slot_offset traps slot }
{
    8 * u64::from(slot) + 16 * u64::from(traps)
}

/// The location of the first of these operands or results.
pub fn first(spots: &[Spot]) -> Loc
    ensures { result ≡ first_location spots.now }
{
    match spots {
        [spot, ..] => spot.loc,
        [] => Loc::Unset,
    }
}

/// The location of the second.
pub fn second(spots: &[Spot]) -> Loc
    ensures { result ≡ second spots.now }
{
    match spots {
        [_, spot, ..] => spot.loc,
        [_] => Loc::Unset,
        [] => Loc::Unset,
    }
}

/// The register in which a location is read or written: `scratch` where it is a slot.
pub fn register_of(scratch: Register, loc: Loc) -> Register
    ensures { result ≡ register_of scratch loc }
{
    match loc {
        Loc::Machine(number) => Register::at(number),
        Loc::Slot(_) => scratch,
        Loc::Unset => Register::Zero,
    }
}

/// The register in which a result is made.
pub fn target(loc: Loc) -> Register
    ensures { result ≡ target loc }
{
    register_of(Register::T1, loc)
}

impl Output {
    fn far_stack(&mut self, scratch: Register, offset: u64) -> Result<(), AllocError>
        ensures { IfOk result (λ _. AddsPieces self.old self.new (far_stack scratch offset)) }
    {
        self.lui(scratch, above_12(offset))?;
        self.add(scratch, scratch, Register::Sp)
    }

    /// From so many bytes after sp. The only error is want of memory.
    pub fn stack_load(
        &mut self,
        scratch: Register,
        to: Register,
        offset: u64,
    ) -> Result<(), AllocError>
        ensures { IfOk result (λ _. AddsPieces self.old self.new (stack_load scratch to offset)) }
    {
        if offset < 2048 {
            self.load(LoadWidth::Ld, to, Register::Sp, offset)
        } else {
            self.far_stack(scratch, offset)?;
            self.load(LoadWidth::Ld, to, scratch, offset)
        }
    }

    /// To so many bytes after sp. The only error is want of memory.
    pub fn stack_store(
        &mut self,
        scratch: Register,
        from: Register,
        offset: u64,
    ) -> Result<(), AllocError>
        ensures { IfOk result (λ _. AddsPieces self.old self.new (stack_store scratch from offset)) }
    {
        if offset < 2048 {
            self.store(StoreWidth::Sd, from, Register::Sp, offset)
        } else {
            self.far_stack(scratch, offset)?;
            self.store(StoreWidth::Sd, from, scratch, offset)
        }
    }

    /// Brings what a slot has into the scratch register. The only error is want of memory.
    pub fn fetched(&mut self, traps: u32, scratch: Register, loc: Loc) -> Result<(), AllocError>
        ensures { IfOk result (λ _. AddsPieces self.old self.new (fetch_pieces traps scratch loc)) }
    {
        match loc {
            Loc::Machine(_) => Ok(()),
            Loc::Slot(slot) => self.stack_load(scratch, scratch, slot_offset(traps, slot)),
            Loc::Unset => Ok(()),
        }
    }

    /// Takes a result that was made in t1 to its slot. The only error is want of memory.
    pub fn kept(&mut self, traps: u32, loc: Loc) -> Result<(), AllocError>
        ensures { IfOk result (λ _. AddsPieces self.old self.new (keep_pieces traps loc)) }
    {
        match loc {
            Loc::Machine(_) => Ok(()),
            Loc::Slot(slot) => self.stack_store(
                Register::T2,
                Register::T1,
                slot_offset(traps, slot),
            ),
            Loc::Unset => Ok(()),
        }
    }

    fn copied_from_register(&mut self, traps: u32, number: u8, to: Loc) -> Result<(), AllocError>
        ensures { IfOk result (λ _. AddsPieces self.old self.new (copy_pieces traps (Loc.Machine number) to)) }
    {
        match to {
            Loc::Slot(slot) => {
                self.stack_store(Register::T2, Register::at(number), slot_offset(traps, slot))
            }
            Loc::Machine(other) => self.mv(Register::at(other), Register::at(number)),
            Loc::Unset => Ok(()),
        }
    }

    fn copied(&mut self, traps: u32, from: Loc, to: Loc) -> Result<(), AllocError>
        ensures { IfOk result (λ _. AddsPieces self.old self.new (copy_pieces traps from to)) }
    {
        match from {
            Loc::Slot(slot) => {
                self.stack_load(Register::T2, target(to), slot_offset(traps, slot))?;
                self.kept(traps, to)
            }
            Loc::Machine(number) => self.copied_from_register(traps, number, to),
            Loc::Unset => Ok(()),
        }
    }

    /// A copy, which is nothing from a location to itself. The only error is want of memory.
    pub fn moved(&mut self, traps: u32, from: Loc, to: Loc) -> Result<(), AllocError>
        ensures { IfOk result (λ _. AddsPieces self.old self.new (move_pieces traps from to)) }
    {
        if same_loc(from, to) {
            return Ok(());
        }
        self.copied(traps, from, to)
    }
}
