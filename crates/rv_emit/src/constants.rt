//! Constants, and sums of a register and a constant.
ghost use Rattle.std.specs.Prelude.{◌≡◌, ◌+◌, ◌*◌, ◌++◌, ◌≤◌, IfOk};
ghost use Rattle.mach_ir.specs.Forms.{is_immediate_12};
ghost use Rattle.rv_emit_rules.specs.Constants.{is_word_32, above_12, lower_part, constant_32, upper_constant, shifted, constant_shifted, constant_pieces, sum_to, bytes_taken_off};
ghost use Rattle.rv_emit.specs.Outputs.{AddsPieces};

use crate::output::Output;
use rv_isa::{AluOp, Register, ShiftOp};
use std::alloc::AllocError;

/// Whether 12 bits hold the word, the highest of them spread over it.
pub fn is_immediate_12(word: u64) -> bool
    ensures { result ≡ is_immediate_12 word }
{
    word < 2048 || 0xFFFF_FFFF_FFFF_F800 <= word
}

/// Whether the highest 33 bits of the word are alike.
fn is_word_32(word: u64) -> bool
    ensures { result ≡ is_word_32 word }
{
    word < 0x8000_0000 || 0xFFFF_FFFF_8000_0000 <= word
}

/// What is above the lowest 12 bits, rounded.
pub fn above_12(word: u64) -> u64
    ensures { result ≡ above_12 word }
{
    word / 4096 + word / 2048 % 2
}

/// The word above the lowest 12 bits, rounded, with its sign.
fn higher(word: u64) -> u64
    ensures { result ≡ upper_constant word }
{
    let upper = above_12(word) % 0x0010_0000_0000_0000;
    if upper < 0x0008_0000_0000_0000 {
        upper
    } else {
        upper + 0xFFF0_0000_0000_0000
    }
}

impl Output {
    fn lower_part(&mut self, to: Register, word: u64) -> Result<(), AllocError>
        ensures { IfOk result (λ _. AddsPieces self.old self.new (lower_part to word)) }
    {
        if word % 4096 == 0 {
            return Ok(());
        }
        self.addiw(to, to, word)
    }

    fn constant_32(&mut self, to: Register, word: u64) -> Result<(), AllocError>
        ensures { IfOk result (λ _. AddsPieces self.old self.new (constant_32 to word)) }
    {
        if is_immediate_12(word) {
            self.addi(to, Register::Zero, word)
        } else {
            self.lui(to, above_12(word))?;
            self.lower_part(to, word)
        }
    }

    fn shifted(&mut self, to: Register, amount: u64) -> Result<(), AllocError>
        ensures { IfOk result (λ _. AddsPieces self.old self.new (shifted to amount)) }
    {
        if amount == 0 {
            return Ok(());
        }
        self.shift(ShiftOp::Slli, to, to, amount)
    }

    /// A word of 32 bits, shifted by so many bits to the left.
    fn ended(&mut self, to: Register, word: u64, amount: u64) -> Result<(), AllocError>
        ensures { IfOk result (λ _.
            AddsPieces self.old self.new (constant_32 to word ++ shifted to amount)) }
    {
        self.constant_32(to, word)?;
        self.shifted(to, amount)
    }

    /// The word, shifted by so many bits to the left. After so many steps 32 bits are left of it.
    fn constant_shifted(
        &mut self,
        steps: u32,
        to: Register,
        word: u64,
        amount: u64,
    ) -> Result<(), AllocError>
        requires { amount + 12 * steps ≤ 64 }
        ensures { IfOk result (λ _.
            AddsPieces self.old self.new (constant_shifted steps to word amount)) }
    {
        if is_word_32(word) {
            return self.ended(to, word, amount);
        }
        if steps == 0 {
            return self.ended(to, word, amount);
        }
        if word % 4096 == 0 {
            return self.constant_shifted(steps - 1, to, higher(word), amount + 12);
        }
        self.constant_shifted(steps - 1, to, higher(word), 12)?;
        self.addi(to, to, word)?;
        self.shifted(to, amount)
    }

    /// The word becomes the register's value. The only error is want of memory.
    #[tactic(auto, unfolding(rv_emit_rules::specs::Constants::constant_pieces))]
    pub fn constant(&mut self, to: Register, word: u64) -> Result<(), AllocError>
        ensures { IfOk result (λ _. AddsPieces self.old self.new (constant_pieces to word)) }
    {
        self.constant_shifted(3, to, word, 0)
    }

    /// The sum of a register and so many bytes, fewer than 2^31, becomes the value of another.
    /// The only error is want of memory.
    pub fn sum_to(
        &mut self,
        scratch: Register,
        to: Register,
        from: Register,
        bytes: u64,
    ) -> Result<(), AllocError>
        ensures { IfOk result (λ _. AddsPieces self.old self.new (sum_to scratch to from bytes)) }
    {
        if bytes < 2048 {
            self.addi(to, from, bytes)
        } else {
            self.constant(scratch, bytes)?;
            self.add(to, from, scratch)
        }
    }

    /// So many bytes, fewer than 2^31, are taken off a register. The only error is want of memory.
    pub fn lowered(
        &mut self,
        scratch: Register,
        register: Register,
        bytes: u64,
    ) -> Result<(), AllocError>
        ensures { IfOk result (λ _. AddsPieces self.old self.new (bytes_taken_off scratch register bytes)) }
    {
        if bytes <= 2048 {
            self.addi(register, register, 4096 - bytes % 4096)
        } else {
            self.constant(scratch, bytes)?;
            self.operation(AluOp::Sub, register, register, scratch)
        }
    }
}
