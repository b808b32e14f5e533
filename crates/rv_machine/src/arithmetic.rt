//! What the rows of the instruction table compute (RISC-V Unprivileged ISA manual, "RV64I" and "M").
//! Nothing here takes memory or fails.
ghost use Rattle.std.specs.Prelude.{◌≡◌, ◌*◌, ◌/◌, ◌<◌, ◌^◌};
ghost use Rattle.rv_machine.specs.Arithmetic.{imm_i, imm_b, imm_j, imm_u, alu, alu_imm, alu_word, shift, shift_word, sign_extended, low, is_less, is_taken, sar_low};
ghost use Rattle.rv_machine.specs.Hart.{register_loaded, bytes_loaded, bytes_stored};
ghost use Rattle.bs_words.specs.Memory.{IsWidth};

use rv_isa::{AluImmOp, AluOp, AluWordOp, Condition, LoadWidth, ShiftOp, ShiftWordOp, StoreWidth};

// ---- immediates

/// The 12 bits of an immediate of I or S, extended by their sign.
pub fn imm_i(imm: u16) -> u64
    requires { imm < 4096 }
    ensures { result ≡ imm_i imm }
{
    bs_words::sext(u64::from(imm), 12)
}

/// The 13 bits of an immediate of B, extended by their sign.
pub fn imm_b(offset: u16) -> u64
    requires { offset < 8192 }
    ensures { result ≡ imm_b offset }
{
    bs_words::sext(u64::from(offset), 13)
}

/// The 21 bits of an immediate of J, extended by their sign.
pub fn imm_j(offset: u32) -> u64
    requires { offset < 2097152 }
    ensures { result ≡ imm_j offset }
{
    bs_words::sext(u64::from(offset), 21)
}

/// The upper 20 of 32 bits, those of an immediate of U, extended by their sign.
pub fn imm_u(imm: u32) -> u64
    requires { imm < 1048576 }
    ensures { result ≡ imm_u imm }
{
    bs_words::sext(4096 * u64::from(imm), 32)
}

// ---- on 64 bits

/// What a row of OP leaves in `rd`.
pub fn alu(op: AluOp, a: u64, b: u64) -> u64
    ensures { result ≡ alu op a b }
{
    match op {
        AluOp::Add => bs_words::add(a, b),
        AluOp::Sub => bs_words::sub(a, b),
        AluOp::Sll => bs_words::shl(a, (b % 64) as u32),
        AluOp::Slt => u64::from(is_less(a, b)),
        AluOp::Sltu => u64::from(a < b),
        AluOp::Xor => a ^ b,
        AluOp::Srl => bs_words::shr(a, (b % 64) as u32),
        AluOp::Sra => bs_words::sar(a, (b % 64) as u32),
        AluOp::Or => a | b,
        AluOp::And => a & b,
        AluOp::Mul => bs_words::mul(a, b),
        AluOp::Mulh => bs_words::mulh(a, b),
        AluOp::Mulhsu => mulhsu(a, b),
        AluOp::Mulhu => mulhu(a, b),
        AluOp::Div => div(a, b),
        AluOp::Divu => divu(a, b),
        AluOp::Rem => rem(a, b),
        AluOp::Remu => remu(a, b),
    }
}

// Whether a word is less than another, both read with their signs.
fn is_less(a: u64, b: u64) -> bool
    ensures { result ≡ is_less a b }
{
    bs_words::signed(a) < bs_words::signed(b)
}

// The high half of the product of a word read with its sign and one read without.
fn mulhsu(a: u64, b: u64) -> u64
    ensures { result ≡ alu AluOp.Mulhsu a b }
{
    let product = i128::from(bs_words::signed(a)) * i128::from(b);
    ((product >> 64) as i64).cast_unsigned()
}

// The high half of the unsigned product.
fn mulhu(a: u64, b: u64) -> u64
    ensures { result ≡ alu AluOp.Mulhu a b }
{
    ((u128::from(a) * u128::from(b)) >> 64) as u64
}

fn div(a: u64, b: u64) -> u64
    ensures { result ≡ alu AluOp.Div a b }
{
    if b == 0 {
        u64::MAX
    } else {
        bs_words::div(a, b)
    }
}

fn divu(a: u64, b: u64) -> u64
    ensures { result ≡ alu AluOp.Divu a b }
{
    if b == 0 { u64::MAX } else { a / b }
}

fn rem(a: u64, b: u64) -> u64
    ensures { result ≡ alu AluOp.Rem a b }
{
    if b == 0 { a } else { bs_words::rem(a, b) }
}

fn remu(a: u64, b: u64) -> u64
    ensures { result ≡ alu AluOp.Remu a b }
{
    if b == 0 { a } else { a % b }
}

/// What a row of OP-IMM with an immediate of 12 bits leaves in `rd`.
pub fn alu_imm(op: AluImmOp, a: u64, imm: u16) -> u64
    requires { imm < 4096 }
    ensures { result ≡ alu_imm op a imm }
{
    let b = imm_i(imm);
    match op {
        AluImmOp::Addi => bs_words::add(a, b),
        AluImmOp::Slti => u64::from(is_less(a, b)),
        AluImmOp::Sltiu => u64::from(a < b),
        AluImmOp::Xori => a ^ b,
        AluImmOp::Ori => a | b,
        AluImmOp::Andi => a & b,
    }
}

/// What a row of OP-IMM that shifts leaves in `rd`.
pub fn shift(op: ShiftOp, a: u64, amount: u8) -> u64
    requires { amount < 64 }
    ensures { result ≡ shift op a amount }
{
    let amount = u32::from(amount);
    match op {
        ShiftOp::Slli => bs_words::shl(a, amount),
        ShiftOp::Srli => bs_words::shr(a, amount),
        ShiftOp::Srai => bs_words::sar(a, amount),
    }
}

// ---- on the low 32 bits

// The low half of a word.
fn low(a: u64) -> u64
    ensures exact { result ≡ low a }
    ensures below { result < 2 ^ 32 }
{
    a % 0x1_0000_0000
}

/// The lowest 32 bits of a word, extended by their sign.
pub fn extended(a: u64) -> u64
    ensures exact { result ≡ sign_extended a }
{
    bs_words::sext(a, 32)
}

/// What a row of OP-32 leaves in `rd`.
pub fn alu_word(op: AluWordOp, a: u64, b: u64) -> u64
    ensures { result ≡ alu_word op a b }
{
    match op {
        AluWordOp::Addw => extended(bs_words::add(a, b)),
        AluWordOp::Subw => extended(bs_words::sub(a, b)),
        AluWordOp::Sllw => shl_low(a, (b % 32) as u32),
        AluWordOp::Srlw => shr_low(a, (b % 32) as u32),
        AluWordOp::Sraw => sar_low(a, (b % 32) as u32),
        AluWordOp::Mulw => mulw(a, b),
        AluWordOp::Divw => divw(a, b),
        AluWordOp::Divuw => divuw(a, b),
        AluWordOp::Remw => remw(a, b),
        AluWordOp::Remuw => remuw(a, b),
    }
}

fn shl_low(a: u64, k: u32) -> u64
    requires { k < 32 }
    ensures { result ≡ sign_extended (a * 2 ^ k) }
{
    extended(bs_words::shl(a, k))
}

fn shr_low(a: u64, k: u32) -> u64
    requires { k < 32 }
    ensures { result ≡ sign_extended (low a / 2 ^ k) }
{
    extended(bs_words::shr(low(a), k))
}

fn sar_low(a: u64, k: u32) -> u64
    requires { k < 32 }
    ensures { result ≡ sar_low a k }
{
    bs_words::sar(extended(a), k)
}

fn mulw(a: u64, b: u64) -> u64
    ensures { result ≡ alu_word AluWordOp.Mulw a b }
{
    extended(bs_words::mul(a, b))
}

#[tactic(auto, using(crate::proofs::LowHalf::low_zero))]
fn divw(a: u64, b: u64) -> u64
    ensures { result ≡ alu_word AluWordOp.Divw a b }
{
    let divisor = extended(b);
    if divisor == 0 {
        u64::MAX
    } else {
        extended(bs_words::div(extended(a), divisor))
    }
}

fn divuw(a: u64, b: u64) -> u64
    ensures { result ≡ alu_word AluWordOp.Divuw a b }
{
    let divisor = low(b);
    if divisor == 0 {
        u64::MAX
    } else {
        extended(low(a) / divisor)
    }
}

#[tactic(auto, using(crate::proofs::LowHalf::low_zero))]
fn remw(a: u64, b: u64) -> u64
    ensures { result ≡ alu_word AluWordOp.Remw a b }
{
    let divisor = extended(b);
    if divisor == 0 {
        extended(a)
    } else {
        extended(bs_words::rem(extended(a), divisor))
    }
}

fn remuw(a: u64, b: u64) -> u64
    ensures { result ≡ alu_word AluWordOp.Remuw a b }
{
    let divisor = low(b);
    if divisor == 0 {
        extended(a)
    } else {
        extended(low(a) % divisor)
    }
}

/// What a row of OP-IMM-32 that shifts leaves in `rd`.
pub fn shift_word(op: ShiftWordOp, a: u64, amount: u8) -> u64
    requires { amount < 32 }
    ensures { result ≡ shift_word op a amount }
{
    let amount = u32::from(amount);
    match op {
        ShiftWordOp::Slliw => shl_low(a, amount),
        ShiftWordOp::Srliw => shr_low(a, amount),
        ShiftWordOp::Sraiw => sar_low(a, amount),
    }
}

// ---- branches, loads and stores

/// Whether a branch is taken.
pub fn is_taken(condition: Condition, a: u64, b: u64) -> bool
    ensures { result ≡ is_taken condition a b }
{
    match condition {
        Condition::Beq => a == b,
        Condition::Bne => a != b,
        Condition::Blt => is_less(a, b),
        Condition::Bge => !is_less(a, b),
        Condition::Bltu => a < b,
        Condition::Bgeu => a >= b,
    }
}

/// The number of bytes that a load reads.
pub fn bytes_loaded(width: LoadWidth) -> u64
    ensures exact { result ≡ bytes_loaded width }
    ensures width { IsWidth result }
{
    match width {
        LoadWidth::Lb | LoadWidth::Lbu => 1,
        LoadWidth::Lh | LoadWidth::Lhu => 2,
        LoadWidth::Lw | LoadWidth::Lwu => 4,
        LoadWidth::Ld => 8,
    }
}

/// What a load leaves in `rd` of the bytes that it read.
pub fn register_loaded(width: LoadWidth, bytes: u64) -> u64
    ensures { result ≡ register_loaded width bytes }
{
    match width {
        LoadWidth::Lb => bs_words::sext(bytes, 8),
        LoadWidth::Lh => bs_words::sext(bytes, 16),
        LoadWidth::Lw => bs_words::sext(bytes, 32),
        LoadWidth::Ld | LoadWidth::Lbu | LoadWidth::Lhu | LoadWidth::Lwu => bytes,
    }
}

/// The number of bytes that a store writes.
pub fn bytes_stored(width: StoreWidth) -> u64
    ensures exact { result ≡ bytes_stored width }
    ensures width { IsWidth result }
{
    match width {
        StoreWidth::Sb => 1,
        StoreWidth::Sh => 2,
        StoreWidth::Sw => 4,
        StoreWidth::Sd => 8,
    }
}
