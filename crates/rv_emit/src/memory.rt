//! Loads, stores and allocations.
ghost use Rattle.std.specs.Prelude.{◌≡◌, ◌<◌, ◌^◌, ◌++◌, IfOk, option_copied};
ghost use Rattle.mach_ir.specs.Blocks.{total_block_bytes};
ghost use Rattle.rv_emit_rules.specs.Memory.{address_words, address_register, address_offset, load_width, load_from};
ghost use Rattle.rv_emit_rules.specs.Memory.{load_part, store_width, store_part, ask, reserved, addresses, alloc_part};
ghost use Rattle.rv_emit_rules.specs.Constants.{sum_to};
ghost use Rattle.rv_emit_rules.specs.Slots.{target, keep_pieces};
ghost use Rattle.rv_emit_rules.specs.Calls.{mark_of};
ghost use Rattle.rv_emit.specs.Outputs.{AddsPieces};

use crate::constants::is_immediate_12;
use crate::output::Output;
use crate::slots::{first, register_of, second, target};
use bs_words::{Chunk, Loc};
use lin_ir::{Descr, Spot};
use mach_ir::{Blocks, NewBlock};
use rv_isa::{Condition, LoadWidth, Register, StoreWidth};
use rv_pieces::Piece;
use std::alloc::AllocError;

/// The register from which an offset is added in the access itself.
fn address_register(base: Register, offset: u64) -> Register
    ensures { result ≡ address_register base offset }
{
    if is_immediate_12(offset) {
        base
    } else {
        Register::T1
    }
}

/// The offset that is added in the access itself.
fn address_offset(offset: u64) -> u64
    ensures { result ≡ address_offset offset }
{
    if is_immediate_12(offset) { offset } else { 0 }
}

fn load_width(chunk: Chunk) -> LoadWidth
    ensures { result ≡ load_width chunk }
{
    match chunk {
        Chunk::U8 => LoadWidth::Lbu,
        Chunk::I8 => LoadWidth::Lb,
        Chunk::U16 => LoadWidth::Lhu,
        Chunk::I16 => LoadWidth::Lh,
        Chunk::U32 => LoadWidth::Lwu,
        Chunk::I32 => LoadWidth::Lw,
        Chunk::Int => LoadWidth::Ld,
        Chunk::Val => LoadWidth::Ld,
    }
}

fn store_width(chunk: Chunk) -> StoreWidth
    ensures { result ≡ store_width chunk }
{
    match chunk {
        Chunk::U8 => StoreWidth::Sb,
        Chunk::I8 => StoreWidth::Sb,
        Chunk::U16 => StoreWidth::Sh,
        Chunk::I16 => StoreWidth::Sh,
        Chunk::U32 => StoreWidth::Sw,
        Chunk::I32 => StoreWidth::Sw,
        Chunk::Int => StoreWidth::Sd,
        Chunk::Val => StoreWidth::Sd,
    }
}

impl Output {
    fn address_words(&mut self, base: Register, offset: u64) -> Result<(), AllocError>
        ensures { IfOk result (λ _. AddsPieces self.old self.new (address_words base offset)) }
    {
        if is_immediate_12(offset) {
            return Ok(());
        }
        self.constant(Register::T2, offset)?;
        self.add(Register::T1, base, Register::T2)
    }

    fn load_from(
        &mut self,
        chunk: Chunk,
        offset: u64,
        base: Register,
        to: Register,
    ) -> Result<(), AllocError>
        ensures { IfOk result (λ _. AddsPieces self.old self.new (load_from chunk offset base to)) }
    {
        self.address_words(base, offset)?;
        let address = address_register(base, offset);
        self.load(load_width(chunk), to, address, address_offset(offset))
    }

    /// Loads through an address and an offset, into a register or a slot.
    /// The only error is want of memory.
    pub fn load_part(
        &mut self,
        traps: u32,
        chunk: Chunk,
        offset: u64,
        args: &[Spot],
        results: &[Spot],
    ) -> Result<(), AllocError>
        ensures { IfOk result (λ _.
            AddsPieces self.old self.new (load_part traps chunk offset args.now results.now)) }
    {
        let from = first(args);
        let to = first(results);
        self.fetched(traps, Register::T1, from)?;
        self.load_from(chunk, offset, register_of(Register::T1, from), target(to))?;
        self.kept(traps, to)
    }

    /// Stores through an address and an offset, from a register or a slot.
    /// The only error is want of memory.
    pub fn store_part(
        &mut self,
        traps: u32,
        chunk: Chunk,
        offset: u64,
        args: &[Spot],
    ) -> Result<(), AllocError>
        ensures { IfOk result (λ _.
            AddsPieces self.old self.new (store_part traps chunk offset args.now)) }
    {
        let base = register_of(Register::T1, first(args));
        let value = second(args);
        self.fetched(traps, Register::T1, first(args))?;
        self.address_words(base, offset)?;
        self.fetched(traps, Register::T2, value)?;
        let address = address_register(base, offset);
        let from = register_of(Register::T2, value);
        self.store(store_width(chunk), from, address, address_offset(offset))
    }

    /// Asks the allocation service for so many bytes.
    fn ask(&mut self, bytes: u64) -> Result<(), AllocError>
        ensures { IfOk result (λ _. AddsPieces self.old self.new (ask bytes)) }
    {
        self.constant(Register::T0, bytes)?;
        self.constant(Register::T2, 3)?;
        self.ecall()
    }

    /// Puts these pieces after those that are there.
    fn append(&mut self, mut pieces: Vec<Piece>) -> Result<(), AllocError>
        ensures { IfOk result (λ _. AddsPieces self.old self.new pieces.items) }
    {
        self.pieces.append(&mut pieces)?;
        Ok(())
    }

    /// The pieces that ask for so many bytes, alone.
    fn asking(&self, bytes: u64) -> Result<Vec<Piece>, AllocError>
        ensures { IfOk result (λ pieces. pieces.items ≡ ask bytes) }
    {
        let mut output = Output::new(self.alloc);
        output.ask(bytes)?;
        let Output { pieces, alloc: _ } = output;
        Ok(pieces)
    }

    /// Takes so many bytes off s10, and asks for them where s10 is then below the limit word.
    fn reserved(&mut self, bytes: u64) -> Result<(), AllocError>
        ensures { IfOk result (λ _. AddsPieces self.old self.new (reserved bytes)) }
    {
        let pieces = self.asking(bytes)?;
        let over = 4 * (1 + pieces.len() as u64);
        self.lowered(Register::T1, Register::S10, bytes)?;
        self.load(LoadWidth::Ld, Register::T1, Register::S11, 0)?;
        self.skip(Condition::Bgeu, Register::S10, Register::T1, over)?;
        self.append(pieces)
    }

    /// So many bytes above s10 becomes the value of a location.
    fn address(&mut self, traps: u32, to: Loc, bytes: u64) -> Result<(), AllocError>
        ensures { IfOk result (λ _.
            AddsPieces self.old self.new (sum_to Register.T1 (target to) Register.S10 bytes
            ++ keep_pieces traps to)) }
    {
        self.sum_to(Register::T1, target(to), Register::S10, bytes)?;
        self.kept(traps, to)
    }

    /// The results of an allocation. `bytes`: those of all these blocks.
    fn addresses(
        &mut self,
        traps: u32,
        blocks: &[NewBlock],
        results: &[Spot],
        bytes: u64,
    ) -> Result<(), AllocError>
        requires exact { bytes ≡ total_block_bytes blocks.now }
        requires below { bytes < 2 ^ 32 }
        ensures { IfOk result (λ _.
            AddsPieces self.old self.new (addresses traps blocks.now results.now)) }
    {
        match blocks.split_first() {
            None => Ok(()),
            Some((block, others)) => match results.split_first() {
                None => Ok(()),
                Some((spot, rest)) => {
                    let below = bytes - 8 * (u64::from(block.cells) + 1);
                    self.addresses(traps, others, rest, below)?;
                    self.address(traps, spot.loc, below + 8)
                }
            },
        }
    }

    /// Takes the blocks' bytes off the heap, asking the allocation service where there is no room for them, which is the
    /// frame point, and puts each block's address where its result is.
    /// The only error is want of memory.
    pub fn alloc_part(
        &mut self,
        traps: u32,
        mark: Option<&Descr>,
        blocks: &Blocks,
        results: &[Spot],
    ) -> Result<(), AllocError>
        ensures { IfOk result (λ _.
            AddsPieces self.old self.new
            (alloc_part traps (mark_of (option_copied mark.entry)) blocks.now results.now)) }
    {
        let bytes = u64::from(blocks.bytes());
        self.reserved(bytes)?;
        self.mark(mark)?;
        self.addresses(traps, blocks.as_slice(), results, bytes)
    }
}
