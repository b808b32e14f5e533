//! What the instructions of the rows do, in values that take no memory.
ghost use Rattle.std.specs.Prelude.{◌≤◌};

use bs_words::{Chunk, Comp, IntOp, Name, Ret};
use lin_ir::{Flow, LinOp};
use mach_ir::{
    Access, Blocks, Callee, Calling, CopyKind, External, Label, Leaving, MachOp, Mark, NewBlock,
    Op, Pure, Right, Seq, Test,
};
use std::alloc::{AllocError, Global};

/// What the calls of the rows answer where they answer a value.
const VALUE: Ret = Ret::Comp(Comp::Val);

/// An operation of both languages.
#[derive(Clone, Copy)]
pub(crate) enum Form {
    Copy(CopyKind),
    Constant(u64),
    Symbol(&'static str),
    Operator(IntOp, Right),
    Load(Chunk, u64),
    Store(Chunk, u64),
    /// Blocks of so many cells each.
    Alloc(&'static [u8]),
    Call(&'static str),
    CallRegister,
    TailCall(&'static str),
    TailCallRegister,
    External(&'static str),
    ExternalFrame(&'static str),
    Leaving(Leaving),
}

/// A structure of Mach or an exit.
#[derive(Clone, Copy)]
pub(crate) enum MarkForm {
    Exit { label: u32, tries: u32 },
    If(Test),
    Else,
    Switch(&'static [u32]),
    /// For these indexes, at the label.
    Case(&'static [u32], u32),
    Catch,
    With { label: u32 },
    Try,
    Leave,
    Handler,
    End(u32),
}

/// How control goes in Linear.
#[derive(Clone, Copy)]
pub(crate) enum FlowForm {
    Label(u32),
    Jump(u32),
    Exit(u32),
    Branch(Test),
    Switch(&'static [u32]),
    PushTrap,
    PopTrap,
    EnterTrap,
}

#[derive(Clone, Copy)]
pub(crate) enum MachForm {
    Op(Form),
    Mark(MarkForm),
}

#[derive(Clone, Copy)]
pub(crate) enum LinForm {
    Op(Form),
    Flow(FlowForm),
}

/// The label that branches of Linear go to, and one after it.
pub(crate) const NEAR: u32 = 4;

pub(crate) const FAR: u32 = 12;

pub(crate) fn name(alloc: Global, name: &str) -> Result<Name, AllocError> {
    Ok(Name::from_vec(name.as_bytes().to_vec(alloc)?))
}

fn numbers(alloc: Global, numbers: &[u32]) -> Result<Seq<u32>, AllocError> {
    Ok(Seq::from_vec(numbers.to_vec(alloc)?))
}

fn labels(alloc: Global, numbers: &[u32]) -> Result<Seq<Label>, AllocError> {
    let mut labels = Vec::new(alloc);
    for number in numbers {
        labels.push(Label(*number))?;
    }
    Ok(Seq::from_vec(labels))
}

fn symbol(alloc: Global, called: &str) -> Result<Op, AllocError> {
    Ok(Op::Pure(Pure::Symbol(name(alloc, called)?)))
}

fn new_block(cells: u8) -> NewBlock
    ensures { result.cells ≤ 255 }
{
    NewBlock {
        header: 1024 * u64::from(cells),
        cells: u32::from(cells),
    }
}

/// Puts a block after the others. Those that would not fit with them are left out.
fn add_block(blocks: &mut Blocks, cells: u8) -> Result<(), AllocError> {
    if blocks.bytes() < 4096 {
        blocks.push(new_block(cells))?;
    }
    Ok(())
}

/// Blocks of one cell and then of so many each.
fn alloc_blocks(alloc: Global, others: &[u8]) -> Result<Op, AllocError> {
    let mut blocks = Blocks::one(alloc, new_block(1))?;
    for cells in others {
        add_block(&mut blocks, *cells)?;
    }
    Ok(Op::Access(Access::Alloc(blocks)))
}

fn call(alloc: Global, callee: &str) -> Result<Op, AllocError> {
    let callee = Callee::Symbol(name(alloc, callee)?);
    let result = VALUE;
    Ok(Op::Calling(Calling::Call { callee, result }))
}

fn tail_call(alloc: Global, callee: &str) -> Result<Op, AllocError> {
    let callee = Callee::Symbol(name(alloc, callee)?);
    let result = VALUE;
    Ok(Op::Calling(Calling::TailCall { callee, result }))
}

fn external(alloc: Global, called: &str, frame: bool) -> Result<Op, AllocError> {
    let row = External {
        name: name(alloc, called)?,
        params: Seq::new(alloc),
        result: VALUE,
    };
    Ok(Op::Calling(Calling::External { row, frame }))
}

const CALL_REGISTER: Calling = Calling::Call {
    callee: Callee::Register,
    result: VALUE,
};

const TAIL_CALL_REGISTER: Calling = Calling::TailCall {
    callee: Callee::Register,
    result: VALUE,
};

impl Form {
    fn op(self, alloc: Global) -> Result<Op, AllocError> {
        match self {
            Form::Copy(kind) => Ok(Op::Pure(Pure::Copy(kind))),
            Form::Constant(word) => Ok(Op::Pure(Pure::Constant(word))),
            Form::Symbol(called) => symbol(alloc, called),
            Form::Operator(op, right) => Ok(Op::Pure(Pure::Operator(op, right))),
            Form::Load(chunk, offset) => Ok(Op::Access(Access::Load { chunk, offset })),
            Form::Store(chunk, offset) => Ok(Op::Access(Access::Store { chunk, offset })),
            Form::Alloc(others) => alloc_blocks(alloc, others),
            Form::Call(callee) => call(alloc, callee),
            Form::CallRegister => Ok(Op::Calling(CALL_REGISTER)),
            Form::TailCall(callee) => tail_call(alloc, callee),
            Form::TailCallRegister => Ok(Op::Calling(TAIL_CALL_REGISTER)),
            Form::External(called) => external(alloc, called, false),
            Form::ExternalFrame(called) => external(alloc, called, true),
            Form::Leaving(leaving) => Ok(Op::Leaving(leaving)),
        }
    }
}

impl MarkForm {
    fn mark(self, alloc: Global) -> Result<Mark, AllocError> {
        match self {
            MarkForm::Exit { label, tries } => Ok(Mark::Exit {
                label: Label(label),
                tries,
            }),
            MarkForm::If(test) => Ok(Mark::If {
                test,
                otherwise: Label(1),
            }),
            MarkForm::Else => Ok(Mark::Else {
                label: Label(1),
                end: Label(2),
            }),
            MarkForm::Switch(numbers) => Ok(Mark::Switch(labels(alloc, numbers)?)),
            MarkForm::Case(indexes, label) => Ok(Mark::Case {
                indexes: numbers(alloc, indexes)?,
                label: Label(label),
                end: Label(5),
            }),
            MarkForm::Catch => Ok(Mark::Catch),
            MarkForm::With { label } => Ok(Mark::With {
                label: Label(label),
                end: Label(7),
            }),
            MarkForm::Try => Ok(Mark::Try { handler: Label(8) }),
            MarkForm::Leave => Ok(Mark::Leave {
                handler: Label(8),
                end: Label(9),
            }),
            MarkForm::Handler => Ok(Mark::Handler { label: Label(8) }),
            MarkForm::End(label) => Ok(Mark::End {
                label: Label(label),
            }),
        }
    }
}

impl FlowForm {
    fn flow(self, alloc: Global) -> Result<Flow, AllocError> {
        match self {
            FlowForm::Label(label) => Ok(Flow::Label(Label(label))),
            FlowForm::Jump(label) => Ok(Flow::Jump(Label(label))),
            FlowForm::Exit(label) => Ok(Flow::Exit(Label(label))),
            FlowForm::Branch(test) => Ok(Flow::Branch {
                test,
                label: Label(NEAR),
            }),
            FlowForm::Switch(numbers) => Ok(Flow::Switch(labels(alloc, numbers)?)),
            FlowForm::PushTrap => Ok(Flow::PushTrap(Label(FAR))),
            FlowForm::PopTrap => Ok(Flow::PopTrap),
            FlowForm::EnterTrap => Ok(Flow::EnterTrap),
        }
    }
}

impl MachForm {
    pub(crate) fn op(self, alloc: Global) -> Result<MachOp, AllocError> {
        match self {
            MachForm::Op(form) => Ok(MachOp::Op(form.op(alloc)?)),
            MachForm::Mark(form) => Ok(MachOp::Mark(form.mark(alloc)?)),
        }
    }
}

impl LinForm {
    pub(crate) fn op(self, alloc: Global) -> Result<LinOp, AllocError> {
        match self {
            LinForm::Op(form) => Ok(LinOp::Op(form.op(alloc)?)),
            LinForm::Flow(form) => Ok(LinOp::Flow(form.flow(alloc)?)),
        }
    }
}
