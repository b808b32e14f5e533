//! Where the operands of an operator are, and what the machine has for a constant.
ghost use Rattle.std.specs.Prelude.{◌≡◌, ◌+◌, ◌^◌, ◌≤◌, option_map};
ghost use Rattle.cmm_tree.specs.View.{expr_view};
ghost use Rattle.mach_ir.specs.Forms.{is_immediate, is_immediate_12, is_opposite_immediate_12};
ghost use Rattle.selection_rules.specs.Select.{exponent_from, immediate_of, turned_round, commuted, immediate_if, shift_by, if_commuted, right_immediate};
ghost use Rattle.selection_rules.specs.Select.{left_immediate, power_of, power_shape, shape, operation_shape, shape_op, shape_right, bound_test_operand, bound_test};
ghost use Rattle.selection_rules.specs.Select.{comparison, is_address_sum, is_based};
ghost use Rattle.selection_code.specs.Shapes.{immediate_view, shape_view, integer_of, needs_left, needs_right, is_register_operand};

use bs_words::{CmpOp, IntOp};
use cmm_tree::Expr;
use mach_ir::{Right, Test};
use selection_scope::outline::{Outline, outline_of};

/// An operator with a constant as its right operand.
#[derive(Clone, Copy)]
pub struct Immediate {
    /// The operator.
    pub op: IntOp,
    /// The constant.
    pub word: u64,
}

/// Where the operands of an operator are: in registers both, or one of them is a constant that needs none.
#[derive(Clone, Copy)]
pub enum Shape {
    /// Both are in registers.
    InRegisters,
    /// The right one is a constant.
    ConstantRight(Immediate),
    /// The left one is a constant, which is on the right of this operator: that of the exchanged operands.
    ConstantLeft(Immediate),
    /// A quotient or a remainder by the power of two with this exponent, from 1 to 62.
    PowerRight(u32),
}

/// The exponent of the word as a power of two, if it is one of the `left` powers from `power`, which has the exponent
/// `exponent`.
#[tactic(auto, unfolding(selection_rules::specs::Select::exponent_from))]
fn exponent_from(left: u32, exponent: u32, power: u64, word: u64) -> Option<u32>
    requires power { power ≡ 2 ^ exponent }
    requires below { exponent + left ≤ 64 }
    ensures { result ≡ exponent_from left exponent word }
{
    if left == 0 {
        return None;
    }
    if power == word {
        return Some(exponent);
    }
    if left == 1 {
        return None;
    }
    exponent_from(left - 1, exponent + 1, power * 2, word)
}

/// Whether twelve bits hold the word, the highest of them spread over it (RISC-V Unprivileged ISA manual, "RV32I").
pub fn is_immediate_12(word: u64) -> bool
    ensures { result ≡ is_immediate_12 word }
{
    word < 2048 || word >= 0xFFFF_FFFF_FFFF_F800
}

/// Whether twelve bits hold the opposite of the word.
fn is_opposite_immediate_12(word: u64) -> bool
    ensures { result ≡ is_opposite_immediate_12 word }
{
    word <= 2048 || word > 0xFFFF_FFFF_FFFF_F800
}

/// Whether the machine has an immediate for this right operand.
fn is_immediate(op: IntOp, word: u64) -> bool
    ensures { result ≡ is_immediate op word }
{
    match op {
        IntOp::Add => is_immediate_12(word),
        IntOp::AddV => is_immediate_12(word),
        IntOp::AddA => is_immediate_12(word),
        IntOp::And => is_immediate_12(word),
        IntOp::Or => is_immediate_12(word),
        IntOp::Xor => is_immediate_12(word),
        IntOp::Cmp(_) => is_immediate_12(word),
        IntOp::CmpU(_) => is_immediate_12(word),
        IntOp::Sub => is_opposite_immediate_12(word),
        IntOp::Shl => word < 64,
        IntOp::Shr => word < 64,
        IntOp::Sar => word < 64,
        IntOp::Mul => false,
        IntOp::Mulh => false,
        IntOp::Div => false,
        IntOp::Mod => false,
    }
}

fn immediate_if(has: bool, op: IntOp, word: u64) -> Option<Immediate>
    ensures { option_map immediate_view result ≡ immediate_if has op word }
{
    if has {
        Some(Immediate { op, word })
    } else {
        None
    }
}

/// The shift by an exponent.
fn shift_by(exponent: Option<u32>) -> Option<Immediate>
    ensures { option_map immediate_view result ≡ shift_by exponent }
{
    match exponent {
        Some(exponent) => Some(Immediate {
            op: IntOp::Shl,
            word: u64::from(exponent),
        }),
        None => None,
    }
}

/// What the machine has for an operator with this right operand: the operator with an immediate, or a shift for a
/// product with a power of two.
fn immediate_of(op: IntOp, word: u64) -> Option<Immediate>
    ensures { option_map immediate_view result ≡ immediate_of op word }
{
    match op {
        IntOp::Mul => shift_by(exponent_from(64, 0, 1, word)),
        IntOp::Add => immediate_if(is_immediate(op, word), op, word),
        IntOp::AddV => immediate_if(is_immediate(op, word), op, word),
        IntOp::AddA => immediate_if(is_immediate(op, word), op, word),
        IntOp::Sub => immediate_if(is_immediate(op, word), op, word),
        IntOp::And => immediate_if(is_immediate(op, word), op, word),
        IntOp::Or => immediate_if(is_immediate(op, word), op, word),
        IntOp::Xor => immediate_if(is_immediate(op, word), op, word),
        IntOp::Shl => immediate_if(is_immediate(op, word), op, word),
        IntOp::Shr => immediate_if(is_immediate(op, word), op, word),
        IntOp::Sar => immediate_if(is_immediate(op, word), op, word),
        IntOp::Cmp(_) => immediate_if(is_immediate(op, word), op, word),
        IntOp::CmpU(_) => immediate_if(is_immediate(op, word), op, word),
        IntOp::Mulh => immediate_if(is_immediate(op, word), op, word),
        IntOp::Div => immediate_if(is_immediate(op, word), op, word),
        IntOp::Mod => immediate_if(is_immediate(op, word), op, word),
    }
}

/// The comparison that holds where this one does with its operands the other way round.
fn turned_round(op: CmpOp) -> CmpOp
    ensures { result ≡ turned_round op }
{
    match op {
        CmpOp::Eq => CmpOp::Eq,
        CmpOp::Ne => CmpOp::Ne,
        CmpOp::Lt => CmpOp::Gt,
        CmpOp::Le => CmpOp::Ge,
        CmpOp::Gt => CmpOp::Lt,
        CmpOp::Ge => CmpOp::Le,
    }
}

/// The operator that gives the same where its operands change places, if there is one.
fn commuted(op: IntOp) -> Option<IntOp>
    ensures { result ≡ commuted op }
{
    match op {
        IntOp::Add => Some(IntOp::Add),
        IntOp::AddV => Some(IntOp::AddV),
        IntOp::AddA => Some(IntOp::AddA),
        IntOp::Mul => Some(IntOp::Mul),
        IntOp::And => Some(IntOp::And),
        IntOp::Or => Some(IntOp::Or),
        IntOp::Xor => Some(IntOp::Xor),
        IntOp::Cmp(op) => Some(IntOp::Cmp(turned_round(op))),
        IntOp::CmpU(op) => Some(IntOp::CmpU(turned_round(op))),
        IntOp::Sub => None,
        IntOp::Mulh => None,
        IntOp::Div => None,
        IntOp::Mod => None,
        IntOp::Shl => None,
        IntOp::Shr => None,
        IntOp::Sar => None,
    }
}

fn if_commuted(op: Option<IntOp>, word: u64) -> Option<Immediate>
    ensures { option_map immediate_view result ≡ if_commuted op word }
{
    match op {
        Some(op) => immediate_of(op, word),
        None => None,
    }
}

/// The word of an expression that is an integer.
#[tactic(auto, using(crate::proofs::Outlines::other_integer))]
pub fn integer(expr: &Expr) -> Option<u64>
    ensures { result ≡ integer_of (expr_view expr.now) }
{
    match outline_of(expr) {
        Outline::Integer(word) => Some(word),
        Outline::Symbol(_) | Outline::Name(_) | Outline::Operator(_, _, _) | Outline::Other => None,
    }
}

fn right_immediate(op: IntOp, right: &Expr) -> Option<Immediate>
    ensures { option_map immediate_view result ≡ right_immediate op (expr_view right.now) }
{
    match integer(right) {
        Some(word) => immediate_of(op, word),
        None => None,
    }
}

fn left_immediate(op: IntOp, left: &Expr) -> Option<Immediate>
    ensures { option_map immediate_view result ≡ left_immediate op (expr_view left.now) }
{
    match integer(left) {
        Some(word) => if_commuted(commuted(op), word),
        None => None,
    }
}

fn shape_by(right: Option<Immediate>, left: Option<Immediate>) -> Shape
    ensures { shape_view result ≡ shape (option_map immediate_view right) (option_map
        immediate_view left) }
{
    match right {
        Some(immediate) => Shape::ConstantRight(immediate),
        None => match left {
            Some(immediate) => Shape::ConstantLeft(immediate),
            None => Shape::InRegisters,
        },
    }
}

/// The exponent of an integer that is a power of two from 2 to 2^62.
fn power_of(right: &Expr) -> Option<u32>
    ensures { result ≡ power_of (expr_view right.now) }
{
    match integer(right) {
        Some(word) => exponent_from(62, 1, 2, word),
        None => None,
    }
}

fn power_shape(exponent: Option<u32>) -> Shape
    ensures { shape_view result ≡ power_shape exponent }
{
    match exponent {
        Some(exponent) => Shape::PowerRight(exponent),
        None => Shape::InRegisters,
    }
}

/// Where the operands of the operator are.
pub fn shape_of(op: IntOp, left: &Expr, right: &Expr) -> Shape
    ensures { shape_view result ≡ operation_shape op (expr_view left.now) (expr_view right.now) }
{
    match op {
        IntOp::Div | IntOp::Mod => power_shape(power_of(right)),
        IntOp::Add
        | IntOp::Sub
        | IntOp::Mul
        | IntOp::Mulh
        | IntOp::And
        | IntOp::Or
        | IntOp::Xor
        | IntOp::Shl
        | IntOp::Shr
        | IntOp::Sar
        | IntOp::Cmp(_)
        | IntOp::CmpU(_)
        | IntOp::AddV
        | IntOp::AddA => shape_by(right_immediate(op, right), left_immediate(op, left)),
    }
}

impl Shape {
    /// The operator of the machine.
    pub fn op(self, op: IntOp) -> IntOp
        ensures { result ≡ shape_op (shape_view self) op }
    {
        match self {
            Shape::ConstantRight(immediate) => immediate.op,
            Shape::ConstantLeft(immediate) => immediate.op,
            Shape::InRegisters => op,
            Shape::PowerRight(_) => op,
        }
    }

    /// Its right operand.
    pub fn right(self) -> Right
        ensures { result ≡ shape_right (shape_view self) }
    {
        match self {
            Shape::ConstantRight(immediate) => Right::Constant(immediate.word),
            Shape::ConstantLeft(immediate) => Right::Constant(immediate.word),
            Shape::InRegisters => Right::Register,
            Shape::PowerRight(_) => Right::Register,
        }
    }

    /// Whether the left operand is put into a register.
    pub fn needs_left(self) -> bool
        ensures { result ≡ needs_left (shape_view self) }
    {
        match self {
            Shape::ConstantLeft(_) => false,
            Shape::ConstantRight(_) => true,
            Shape::InRegisters => true,
            Shape::PowerRight(_) => true,
        }
    }

    /// Whether the right operand is put into a register.
    pub fn needs_right(self) -> bool
        ensures { result ≡ needs_right (shape_view self) }
    {
        match self {
            Shape::ConstantRight(_) => false,
            Shape::ConstantLeft(_) => true,
            Shape::InRegisters => true,
            Shape::PowerRight(_) => false,
        }
    }
}

/// The right operand of a bound test: a constant where the machine has an immediate for it.
pub fn right_of_bound(index: &Expr) -> Right
    ensures { result ≡ bound_test_operand bound_test (expr_view index.now) }
{
    match integer(index) {
        Some(word) => {
            if is_immediate_12(word) {
                Right::Constant(word)
            } else {
                Right::Register
            }
        }
        None => Right::Register,
    }
}

/// Whether the right operand of a bound test is in a register.
pub fn is_register(right: Right) -> bool
    ensures { result ≡ is_register_operand right }
{
    match right {
        Right::Register => true,
        Right::Constant(_) => false,
    }
}

/// The test that a comparison is, where an `if` takes it.
pub fn comparison(op: IntOp, right: Right) -> Option<Test>
    ensures { result ≡ comparison op right }
{
    match op {
        IntOp::Cmp(op) => Some(Test::Signed(op, right)),
        IntOp::CmpU(op) => Some(Test::Unsigned(op, right)),
        IntOp::Add => None,
        IntOp::Sub => None,
        IntOp::Mul => None,
        IntOp::Mulh => None,
        IntOp::Div => None,
        IntOp::Mod => None,
        IntOp::And => None,
        IntOp::Or => None,
        IntOp::Xor => None,
        IntOp::Shl => None,
        IntOp::Shr => None,
        IntOp::Sar => None,
        IntOp::AddV => None,
        IntOp::AddA => None,
    }
}

/// Whether the operator makes an address from a base.
pub fn is_address_sum(op: IntOp) -> bool
    ensures { result ≡ is_address_sum op }
{
    match op {
        IntOp::AddA => true,
        IntOp::AddV => true,
        IntOp::Add => false,
        IntOp::Sub => false,
        IntOp::Mul => false,
        IntOp::Mulh => false,
        IntOp::Div => false,
        IntOp::Mod => false,
        IntOp::And => false,
        IntOp::Or => false,
        IntOp::Xor => false,
        IntOp::Shl => false,
        IntOp::Shr => false,
        IntOp::Sar => false,
        IntOp::Cmp(_) => false,
        IntOp::CmpU(_) => false,
    }
}

/// Whether the sum with this word needs no operator of its own: an access has the word as its offset.
pub fn is_based(op: IntOp, word: u64) -> bool
    ensures { result ≡ is_based op word }
{
    is_address_sum(op) && (is_immediate_12(word) && word != 0)
}
