//! The instructions of Mach.
//!
//! The code of a function is one list in the order of the text. The structures of the text (if,
//! switch, catch, try) are given by marks in it. A label is that of the place after the mark that
//! has it first.
ghost use Rattle.std.specs.Prelude.{◌≡◌, ◌↔◌, ℕ, [], ◌∷◌, IsTrue, IfOk};
ghost use Rattle.mach_ir.specs.Graph.{is_move};
ghost use Rattle.mach_ir.specs.Labels.{label_of, is_that_label};
ghost use Rattle.mach_ir.specs.Meaning.{Everything, Temporaries, destroyed_by, has_label};

use crate::label::Label;
use crate::op::{Calling, CopyKind, Op, Pure, Right};
use crate::reg::Reg;
use crate::seq::Seq;
use bs_words::{CmpOp, Name, Ret};
use std::alloc::{AllocError, Global};

/// What an `if` tests.
#[derive(Clone, Copy)]
pub enum Test {
    /// Its operand holds as a condition.
    Holds,
    /// Its operand fails as a condition.
    Fails,
    /// A signed comparison.
    Signed(CmpOp, Right),
    /// An unsigned comparison.
    Unsigned(CmpOp, Right),
}

/// The marks of structures, and exits.
///
/// A body that comes to its end goes on at the next mark: an `else`, `case` or `with` takes it to the end of the
/// structure, whose label is `end`. The `label` of an `Else`, `Case`, `With` or `End` is the mark's own: control that
/// goes to it goes on after the mark.
#[derive(Clone, Drop)]
pub enum Mark {
    /// An exit to the handler that has the label, which ends so many tries. Moves before it have put the
    /// values of the handler's parameters there.
    Exit {
        /// The label of the handler.
        label: Label,
        /// The number of tries that it ends, the innermost first.
        tries: u32,
    },
    /// Goes on where the test holds, else at the label `otherwise`.
    If {
        /// What is tested of the operands.
        test: Test,
        /// The label to which control goes where the test fails.
        otherwise: Label,
    },
    /// Before what is done where the test fails.
    Else {
        /// The mark's own label, to which control goes where the test fails.
        label: Label,
        /// The label of the end of the `if`.
        end: Label,
    },
    /// For each index from 0 on, the label of its case.
    Switch(Seq<Label>),
    /// `indexes` are those for which the switch comes here.
    Case {
        /// The indexes of this case, counted from 0.
        indexes: Seq<u32>,
        /// The mark's own label, to which the switch goes for these indexes.
        label: Label,
        /// The label of the end of the switch.
        end: Label,
    },
    /// Before the body of a catch.
    Catch,
    /// Before a handler of a catch.
    With {
        /// The mark's own label, to which exits to this handler go.
        label: Label,
        /// The label of the end of the catch.
        end: Label,
    },
    /// Pushes the trap of its handler.
    Try {
        /// The label of the handler that a raise goes to.
        handler: Label,
    },
    /// The end of the body of the try with this handler: pops its trap, and goes on at the end.
    Leave {
        /// The label of the handler whose trap is popped.
        handler: Label,
        /// The label of the end of the try.
        end: Label,
    },
    /// What is raised comes here. The result is the raised value.
    Handler {
        /// The mark's own label, to which a raise out of the body goes.
        label: Label,
    },
    /// The end of a structure.
    End {
        /// The mark's own label, to which the bodies of the structure go on.
        label: Label,
    },
}

/// What an instruction of Mach does.
#[derive(Clone, Drop)]
pub enum MachOp {
    /// What computes, reads or changes memory, calls or leaves.
    Op(Op),
    /// A mark of a structure, or an exit.
    Mark(Mark),
}

impl Mark {
    /// The mark's own label, if it has one.
    fn own_label(&self) -> Option<Label>
        ensures is { result ≡ label_of (MachOp.Mark self.now) }
        ensures has { (l : ℕ) → has_label l (MachOp.Mark self.now) ≡ is_that_label result l }
    {
        match self {
            Mark::Exit { label: _, tries: _ } => None,
            Mark::If {
                test: _,
                otherwise: _,
            } => None,
            Mark::Else { label, end: _ } => Some(*label),
            Mark::Switch(_) => None,
            Mark::Case {
                indexes: _,
                label,
                end: _,
            } => Some(*label),
            Mark::Catch => None,
            Mark::With { label, end: _ } => Some(*label),
            Mark::Try { handler: _ } => None,
            Mark::Leave { handler: _, end: _ } => None,
            Mark::Handler { label: _ } => None,
            Mark::End { label } => Some(*label),
        }
    }
}

impl MachOp {
    /// Its own label, if it has one: that of the place after it.
    pub fn own_label(&self) -> Option<Label>
        ensures is { result ≡ label_of self.now }
        ensures has { (l : ℕ) → has_label l self.now ≡ is_that_label result l }
    {
        match self {
            MachOp::Op(_) => None,
            MachOp::Mark(mark) => mark.own_label(),
        }
    }

    /// Whether it takes the value of a register to another.
    pub fn is_move(&self) -> bool
        ensures { result ≡ is_move self.now }
    {
        match self {
            MachOp::Op(Op::Pure(Pure::Copy(kind))) => match kind {
                CopyKind::Move => true,
                CopyKind::Spill => false,
                CopyKind::Reload => false,
            },
            MachOp::Op(Op::Pure(Pure::Constant(_))) => false,
            MachOp::Op(Op::Pure(Pure::Symbol(_))) => false,
            MachOp::Op(Op::Pure(Pure::Operator(_, _))) => false,
            MachOp::Op(Op::Access(_)) => false,
            MachOp::Op(Op::Calling(_)) => false,
            MachOp::Op(Op::Leaving(_)) => false,
            MachOp::Mark(_) => false,
        }
    }

    /// Whether it destroys every colour: a call or the entry of a handler.
    pub fn destroys_everything(&self) -> bool
        ensures { IsTrue result ↔ (destroyed_by self.now ≡ Everything) }
    {
        match self {
            MachOp::Op(Op::Calling(Calling::Call { .. })) => true,
            MachOp::Op(Op::Calling(Calling::TailCall { .. })) => true,
            MachOp::Op(Op::Calling(Calling::External { .. })) => false,
            MachOp::Op(Op::Pure(_)) => false,
            MachOp::Op(Op::Access(_)) => false,
            MachOp::Op(Op::Leaving(_)) => false,
            MachOp::Mark(Mark::Handler { label: _ }) => true,
            MachOp::Mark(
                Mark::Exit { .. }
                | Mark::If { .. }
                | Mark::Else { .. }
                | Mark::Switch(_)
                | Mark::Case { .. }
                | Mark::Catch
                | Mark::With { .. }
                | Mark::Try { .. }
                | Mark::Leave { .. }
                | Mark::End { .. },
            ) => false,
        }
    }

    /// Whether it destroys a0 to a7 and t3 to t6 alone: an external call.
    pub fn destroys_temporaries(&self) -> bool
        ensures { IsTrue result ↔ (destroyed_by self.now ≡ Temporaries) }
    {
        match self {
            MachOp::Op(Op::Calling(Calling::External { .. })) => true,
            MachOp::Op(Op::Calling(Calling::Call { .. })) => false,
            MachOp::Op(Op::Calling(Calling::TailCall { .. })) => false,
            MachOp::Op(Op::Pure(_)) => false,
            MachOp::Op(Op::Access(_)) => false,
            MachOp::Op(Op::Leaving(_)) => false,
            MachOp::Mark(_) => false,
        }
    }
}

/// An instruction: its operands and results are registers.
#[derive(Clone, Drop)]
pub struct Instr {
    /// What it does.
    pub op: MachOp,
    /// The operands, in order.
    pub args: Seq<Reg>,
    /// The results, in order.
    pub results: Seq<Reg>,
}

fn only(alloc: Global, reg: Reg) -> Result<Seq<Reg>, AllocError>
    ensures { IfOk result (λ regs. regs ≡ reg ∷ []) }
{
    let mut regs = Vec::new(alloc);
    regs.push(reg)?;
    Ok(Seq::from_vec(regs))
}

impl Instr {
    /// The copy of this kind from the one register to the other. The only error is want of memory.
    pub fn copy(alloc: Global, kind: CopyKind, from: Reg, to: Reg) -> Result<Instr, AllocError>
        ensures { IfOk result (λ instr. instr ≡ record {
          op = MachOp.Op (Op.Pure (Pure.Copy kind));
          args = from ∷ [];
          results = to ∷ [];
        }) }
    {
        let args = only(alloc, from)?;
        let results = only(alloc, to)?;
        Ok(Instr {
            op: MachOp::Op(Op::Pure(Pure::Copy(kind))),
            args,
            results,
        })
    }
}

/// One function.
#[derive(Clone, Drop)]
pub struct Mach {
    /// Its symbol.
    pub name: Name,
    /// The registers in which its arguments come, in order.
    pub params: Seq<Reg>,
    /// What it gives.
    pub result: Ret,
    /// Each label is below this number.
    pub labels: u32,
    /// For each of the colours the register of least number that is placed there.
    pub colours: Seq<Reg>,
    /// Its instructions, in the order of the text.
    pub code: Seq<Instr>,
}
