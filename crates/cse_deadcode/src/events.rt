//! What an instruction does that counts for what operators before it computed, and an order of it.
ghost use Rattle.std.specs.Prelude.{◌≡◌, refl, nat_eq, slice_get};
ghost use Rattle.std.specs.Option.{option_map};
ghost use Rattle.std.specs.Cmp.{partial_order_from_own_ties, unsigned_ties};
ghost use Rattle.std.specs.Cmp.Rules.{comparing};
ghost use Rattle.std.specs.Ordering.{nat_cmp, on, as_partial_cmp};
ghost use Rattle.std.proofs.Common.{rules};
ghost use Rattle.mach_ir.specs.declared.reg.Reg.{Reg};
ghost use Rattle.cse_deadcode.specs.Events.{rank_of_comparison, rank_of_operator, computation};

use bs_words::{CmpOp, IntOp};
use mach_ir::{Reg, Right};
use std::cmp::Ordering;

/// An integer operator, ordered by its place among all.
#[derive(Clone, Copy)]
pub struct Operator {
    /// The operator.
    pub operator: IntOp,
}

/// Where the comparison is among all, from 0 on.
fn rank_of_comparison(comparison: CmpOp) -> u8
    ensures { result ≡ rank_of_comparison comparison }
{
    match comparison {
        CmpOp::Eq => 0,
        CmpOp::Ne => 1,
        CmpOp::Lt => 2,
        CmpOp::Le => 3,
        CmpOp::Gt => 4,
        CmpOp::Ge => 5,
    }
}

impl Operator {
    /// Where the operator is among all, from 0 on.
    fn rank(&self) -> u8
        ensures { result ≡ rank_of_operator self.now.operator }
    {
        match self.operator {
            IntOp::Add => 0,
            IntOp::Sub => 1,
            IntOp::Mul => 2,
            IntOp::Mulh => 3,
            IntOp::Div => 4,
            IntOp::Mod => 5,
            IntOp::And => 6,
            IntOp::Or => 7,
            IntOp::Xor => 8,
            IntOp::Shl => 9,
            IntOp::Shr => 10,
            IntOp::Sar => 11,
            IntOp::AddV => 12,
            IntOp::AddA => 13,
            IntOp::Cmp(comparison) => 14 + rank_of_comparison(comparison),
            IntOp::CmpU(comparison) => 20 + rank_of_comparison(comparison),
        }
    }
}

impl PartialEq for Operator {
    ghost eq = { on (λ o. rank_of_operator o.operator) nat_eq };

    ghost laws = { Prim.search (comparing, rules) };

    fn eq(&self, other: &Operator) -> bool {
        self.rank() == other.rank()
    }
}

impl Eq for Operator {
    ghost laws = { Prim.search (comparing, rules) };
}

impl PartialOrd for Operator {
    ghost partial_cmp = { as_partial_cmp (on (λ o. rank_of_operator o.operator) nat_cmp) };

    ghost laws = { partial_order_from_own_ties (Prim.search (comparing, rules))
        (λ x y. unsigned_ties (rank_of_operator x.operator) (rank_of_operator y.operator)) };

    fn partial_cmp(&self, other: &Operator) -> Option<Ordering> {
        Some(self.cmp(other))
    }
}

impl Ord for Operator {
    ghost cmp = { on (λ o. rank_of_operator o.operator) nat_cmp };

    ghost total = { Prim.search (comparing, rules) };

    ghost matches_partial_cmp = { λ x y. refl };

    ghost matches_eq = { λ x y.
        unsigned_ties (rank_of_operator x.operator) (rank_of_operator y.operator) };

    fn cmp(&self, other: &Operator) -> Ordering {
        self.rank().cmp(&other.rank())
    }
}

/// What an operator computes: its constant, if it has one, and the numbers of its registers.
#[derive(Clone, Copy, PartialEq, Eq, PartialOrd, Ord)]
pub struct Computed {
    /// The operator.
    pub operator: Operator,
    /// The constant that is its right operand, if it has one.
    pub constant: Option<u64>,
    /// The number of its first register, if it has one.
    pub left: Option<u32>,
    /// The number of its second register, if it has one.
    pub right: Option<u32>,
}

/// The number of the register at the index, counted from 0, if there is one.
fn number_at(regs: &[Reg], index: usize) -> Option<u32>
    ensures { result ≡ option_map (λ (r : Reg). r.number) (slice_get regs.now index) }
{
    match regs.get(index) {
        None => None,
        Some(reg) => Some(reg.number),
    }
}

/// What the operator computes from the operands.
pub fn computation(operator: IntOp, right: Right, args: &[Reg]) -> Computed
    ensures { result ≡ computation operator right args.now }
{
    Computed {
        operator: Operator { operator },
        constant: match right {
            Right::Register => None,
            Right::Constant(word) => Some(word),
        },
        left: number_at(args, 0),
        right: number_at(args, 1),
    }
}

/// What an instruction does that counts for what operators before it computed.
#[derive(Clone, Copy, PartialEq, Eq, PartialOrd, Ord)]
pub enum Event {
    /// Ends the straight run.
    EndsRun,
    /// Allocates, so that no address is held over it.
    Allocates,
    /// Writes the register of this number.
    Writes(u32),
    /// Writes a register of this origin.
    WritesOrigin(u32),
    /// Writes a register that is placed in this colour.
    WritesColour(u8),
    /// Writes a register that is placed in this slot.
    WritesSlot(u32),
    /// Computes this by an operator.
    Computes(Computed),
}
