//! The instructions that selection makes.
ghost use Rattle.std.specs.Prelude.{◌≡◌, ◌*◌, ◌-◌, ◌<◌, [], ◌∷◌, IfOk, OnOk};
ghost use Rattle.selection_rules.specs.Instructions as emit;
ghost use Rattle.selection_rules.specs.Select.{move_from, move_to, moves_all, rounded, power_code, operator_code, shape_args};
ghost use Rattle.selection_rules.specs.Select.{cell_stores};
ghost use Rattle.selection_code.specs.Shapes.{shape_view};
ghost use Rattle.selection_scope.specs.Room.{most_numbers};
ghost use Rattle.mach_ir.specs.declared.op.Right.TheVariants as second;
ghost use Rattle.mach_ir.specs.declared.mach.Test.TheVariants as test;
ghost use Rattle.bs_words.specs.declared.operators.IntOp.TheVariants as operator;

use crate::backwards::Backwards;
use crate::shape::Shape;
use bs_words::{Chunk, IntOp, Name};
use mach_ir::{
    Access, Blocks, CopyKind, Label, Leaving, Mark, NewBlock, Op, Pure, Reg, Right, Seq, Test,
};
use selection_scope::row::Regs;
use std::alloc::AllocError;

impl Backwards {
    /// A copy of a name. The only error is want of memory.
    pub fn copy_of(&self, name: &Name) -> Result<Name, AllocError>
        ensures { IfOk result (λ copy. copy ≡ name.now) }
    {
        Ok(Name::from_vec(Vec::from_slice(self.alloc(), name.as_bytes())?))
    }

    /// A move between registers. The only error is want of memory.
    pub fn move_to(&mut self, from: Reg, to: Reg) -> Result<(), AllocError>
        ensures { OnOk result (self.new ≡ emit.move from to ∷ self.old) }
    {
        self.operation(Op::Pure(Pure::Copy(CopyKind::Move)), &[from], &[to])
    }

    /// A word into a register. The only error is want of memory.
    pub fn constant(&mut self, word: u64, to: Reg) -> Result<(), AllocError>
        ensures { OnOk result (self.new ≡ emit.constant word to ∷ self.old) }
    {
        self.operation(Op::Pure(Pure::Constant(word)), &[], &[to])
    }

    /// The value of a symbol into a register. The only error is want of memory.
    pub fn symbol(&mut self, name: &Name, to: Reg) -> Result<(), AllocError>
        ensures { OnOk result (self.new ≡ emit.symbol name.now to ∷ self.old) }
    {
        let name = self.copy_of(name)?;
        self.operation(Op::Pure(Pure::Symbol(name)), &[], &[to])
    }

    /// An operator on these registers.
    fn operator(&mut self, op: IntOp, right: Right, args: &[Reg], to: Reg) -> Result<(), AllocError>
        ensures { OnOk result (self.new ≡ emit.operator op right args.now to ∷ self.old) }
    {
        self.operation(Op::Pure(Pure::Operator(op, right)), args, &[to])
    }

    /// An operator on one register and a constant.
    fn with_constant(&mut self, op: IntOp, left: Reg, word: u64, to: Reg) -> Result<(), AllocError>
        ensures { OnOk result (self.new ≡ emit.operator op
            (second.Constant word) (left ∷ []) to ∷ self.old) }
    {
        self.operator(op, Right::Constant(word), &[left], to)
    }

    /// An operator on two registers.
    fn on_both(&mut self, op: IntOp, left: Reg, right: Reg, to: Reg) -> Result<(), AllocError>
        ensures { OnOk result (self.new ≡ emit.operator op
            second.Register (left ∷ right ∷ []) to ∷ self.old) }
    {
        self.operator(op, Right::Register, &[left, right], to)
    }

    /// A dividend, to which one less than the power of two with this exponent is added where it is negative: a shift
    /// then rounds toward zero.
    fn rounded(&mut self, exponent: u32, dividend: Reg, to: Reg) -> Result<(), AllocError>
        ensures { OnOk result (self.new ≡ rounded exponent dividend to self.old) }
    {
        self.on_both(IntOp::Add, dividend, to, to)?;
        self.with_constant(
            IntOp::Shr,
            to,
            u64::from(64_u32.saturating_sub(exponent)),
            to,
        )?;
        self.with_constant(IntOp::Sar, dividend, 63, to)
    }

    /// A quotient by the power of two with this exponent.
    fn quotient(
        &mut self,
        exponent: u32,
        dividend: Reg,
        rest: Reg,
        to: Reg,
    ) -> Result<(), AllocError>
        ensures { OnOk result (self.new ≡ power_code operator.Div exponent dividend rest to
            self.old) }
    {
        self.with_constant(IntOp::Sar, rest, u64::from(exponent), to)?;
        self.rounded(exponent, dividend, rest)
    }

    /// A remainder by the power of two with this exponent: what the quotient times the power leaves of the dividend.
    fn remainder(
        &mut self,
        exponent: u32,
        dividend: Reg,
        rest: Reg,
        to: Reg,
    ) -> Result<(), AllocError>
        ensures { OnOk result (self.new ≡ power_code operator.Mod exponent dividend rest to
            self.old) }
    {
        self.on_both(IntOp::Sub, dividend, rest, to)?;
        self.with_constant(IntOp::Shl, rest, u64::from(exponent), rest)?;
        self.with_constant(IntOp::Sar, rest, u64::from(exponent), rest)?;
        self.rounded(exponent, dividend, rest)
    }

    /// A quotient or a remainder by the power of two with this exponent.
    fn divided(
        &mut self,
        op: IntOp,
        exponent: u32,
        dividend: Reg,
        rest: Reg,
        to: Reg,
    ) -> Result<(), AllocError>
        ensures { OnOk result (self.new ≡ power_code op exponent dividend rest to self.old) }
    {
        match op {
            IntOp::Div => self.quotient(exponent, dividend, rest, to),
            IntOp::Mod
            | IntOp::Add
            | IntOp::Sub
            | IntOp::Mul
            | IntOp::Mulh
            | IntOp::And
            | IntOp::Or
            | IntOp::Xor
            | IntOp::Shl
            | IntOp::Shr
            | IntOp::Sar
            | IntOp::Cmp(_)
            | IntOp::CmpU(_)
            | IntOp::AddV
            | IntOp::AddA => self.remainder(exponent, dividend, rest, to),
        }
    }

    /// The operator whose operands have this shape, the left one in `x` and the right one in `y`.
    /// The only error is want of memory.
    pub fn operator_code(
        &mut self,
        shape: Shape,
        op: IntOp,
        x: Reg,
        y: Reg,
        to: Reg,
    ) -> Result<(), AllocError>
        ensures { OnOk result (self.new ≡ operator_code (shape_view shape) op x y to self.old) }
    {
        match shape {
            Shape::InRegisters => self.on_both(op, x, y, to),
            Shape::ConstantRight(immediate) => {
                self.with_constant(immediate.op, x, immediate.word, to)
            }
            Shape::ConstantLeft(immediate) => {
                self.with_constant(immediate.op, y, immediate.word, to)
            }
            Shape::PowerRight(exponent) => self.divided(op, exponent, x, y, to),
        }
    }

    /// The test of an `if` on these registers.
    fn branch_if(&mut self, test: Test, otherwise: Label, args: &[Reg]) -> Result<(), AllocError>
        ensures { OnOk result (self.new ≡ emit.branch test otherwise args.now ∷ self.old) }
    {
        self.mark(Mark::If { test, otherwise }, args, &[])
    }

    /// The test of an `if` whose operands have this shape. The only error is want of memory.
    pub fn branch(
        &mut self,
        shape: Shape,
        test: Test,
        otherwise: Label,
        x: Reg,
        y: Reg,
    ) -> Result<(), AllocError>
        ensures { OnOk result (self.new ≡ emit.branch test otherwise
            (shape_args (shape_view shape) x y) ∷ self.old) }
    {
        match shape {
            Shape::InRegisters => self.branch_if(test, otherwise, &[x, y]),
            Shape::ConstantRight(_) => self.branch_if(test, otherwise, &[x]),
            Shape::ConstantLeft(_) => self.branch_if(test, otherwise, &[y]),
            Shape::PowerRight(_) => self.branch_if(test, otherwise, &[x, y]),
        }
    }

    /// The test of an `if` that holds where the register does. The only error is want of memory.
    pub fn branch_on(&mut self, otherwise: Label, condition: Reg) -> Result<(), AllocError>
        ensures { OnOk result (self.new ≡ emit.branch test.Holds otherwise
            (condition ∷ []) ∷ self.old) }
    {
        self.branch_if(Test::Holds, otherwise, &[condition])
    }

    /// A choice among labels by a register. The only error is want of memory.
    pub fn choose(&mut self, labels: Seq<Label>, index: Reg) -> Result<(), AllocError>
        ensures { OnOk result (self.new ≡ emit.choose labels index ∷ self.old) }
    {
        self.mark(Mark::Switch(labels), &[index], &[])
    }

    /// The place of a handler, to which the raised value comes. The only error is want of memory.
    pub fn handler(&mut self, label: Label, raised: Reg) -> Result<(), AllocError>
        ensures { OnOk result (self.new ≡ emit.handler label raised ∷ self.old) }
    {
        self.mark(Mark::Handler { label }, &[], &[raised])
    }

    /// A load. The only error is want of memory.
    pub fn load(
        &mut self,
        chunk: Chunk,
        offset: u64,
        address: Reg,
        to: Reg,
    ) -> Result<(), AllocError>
        ensures { OnOk result (self.new ≡ emit.load chunk offset address to ∷ self.old) }
    {
        self.operation(
            Op::Access(Access::Load { chunk, offset }),
            &[address],
            &[to],
        )
    }

    /// A store. The only error is want of memory.
    pub fn store(
        &mut self,
        chunk: Chunk,
        offset: u64,
        address: Reg,
        value: Reg,
    ) -> Result<(), AllocError>
        ensures { OnOk result (self.new ≡ emit.store chunk offset address value ∷ self.old) }
    {
        self.operation(
            Op::Access(Access::Store { chunk, offset }),
            &[address, value],
            &[],
        )
    }

    /// An allocation of a block with this header and so many cells.
    /// The only error is want of memory.
    pub fn allocate(&mut self, header: u64, cells: u32, to: Reg) -> Result<(), AllocError>
        requires { cells < most_numbers }
        ensures { OnOk result (self.new ≡ emit.alloc (record {
          header = header;
          cells = cells;
        }) to ∷ self.old) }
    {
        let blocks = Blocks::one(self.alloc(), NewBlock { header, cells })?;
        self.operation(Op::Access(Access::Alloc(blocks)), &[], &[to])
    }

    /// A bound test: its right operand is a constant, or is in `index`.
    /// The only error is want of memory.
    pub fn checkbound(&mut self, right: Right, bound: Reg, index: Reg) -> Result<(), AllocError>
        ensures { OnOk result (self.new ≡ emit.checkbound_instr right bound index ∷ self.old) }
    {
        let op = Op::Leaving(Leaving::Checkbound(right));
        match right {
            Right::Register => self.operation(op, &[bound, index], &[]),
            Right::Constant(_) => self.operation(op, &[bound], &[]),
        }
    }

    /// A raise. The only error is want of memory.
    pub fn raising(&mut self, value: Reg) -> Result<(), AllocError>
        ensures { OnOk result (self.new ≡ emit.raising value ∷ self.old) }
    {
        self.operation(Op::Leaving(Leaving::Raise), &[value], &[])
    }

    /// The end of the function, which gives these. The only error is want of memory.
    pub fn give_back(&mut self, values: &Regs) -> Result<(), AllocError>
        ensures { OnOk result (self.new ≡ emit.give_back values.now ∷ self.old) }
    {
        let none = Regs::new(self.alloc());
        self.on_rows(Op::Leaving(Leaving::Return), values, &none)
    }

    /// The value of a name, if it has a register, into another. The only error is want of memory.
    pub fn move_from(&mut self, from: Option<Reg>, to: Reg) -> Result<(), AllocError>
        ensures { OnOk result (self.new ≡ move_from from to self.old) }
    {
        match from {
            Some(from) => self.move_to(from, to),
            None => Ok(()),
        }
    }

    /// A value into the register of a name, if it has one. The only error is want of memory.
    pub fn move_into(&mut self, from: Reg, to: Option<Reg>) -> Result<(), AllocError>
        ensures { OnOk result (self.new ≡ move_to from to self.old) }
    {
        match to {
            Some(to) => self.move_to(from, to),
            None => Ok(()),
        }
    }

    /// Moves between registers in pairs, the last first: the moves are as if all were made at once.
    /// The only error is want of memory.
    pub fn moves_all(&mut self, from: &Regs, to: &Regs) -> Result<(), AllocError>
        ensures { OnOk result (self.new ≡ moves_all from.now to.now self.old) }
    {
        let mut sources = from.as_slice();
        let mut targets = to.as_slice();
        while let [source, other_sources @ ..] = sources {
            let [target, other_targets @ ..] = targets else {
                return Ok(());
            };
            self.move_to(source.reg, target.reg)?;
            sources = other_sources;
            targets = other_targets;
        }
        Ok(())
    }

    /// The cells of a new block are written from the last one back.
    /// The only error is want of memory.
    pub fn cell_stores(&mut self, chunk: Chunk, block: Reg, cells: &Regs) -> Result<(), AllocError>
        ensures { OnOk result (self.new ≡ cell_stores chunk block 0 cells.now self.old) }
    {
        let mut rest = cells.as_slice();
        while let Some((last, others)) = rest.split_last() {
            let position = others.len() as u64;
            self.store(chunk, 8 * position, block, last.reg)?;
            rest = others;
        }
        Ok(())
    }
}
