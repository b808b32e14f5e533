//! Every operation, with registers of every kind.
use crate::form::{FAR, FlowForm, Form, LinForm, MachForm, MarkForm, NEAR};
use crate::function::{LinCode, MachCode, Row};
use crate::registers::{A, B, C, FIXED, SPILLED, machine};
use bs_words::{Chunk, CmpOp, IntOp, List};
use mach_ir::{CopyKind, Leaving, Right, Test};
use std::alloc::{AllocError, Global};

pub(crate) static COMPARISONS: [CmpOp; 6] = [
    CmpOp::Eq,
    CmpOp::Ne,
    CmpOp::Lt,
    CmpOp::Le,
    CmpOp::Gt,
    CmpOp::Ge,
];

/// The operators, in the order of their words in the rule of the texts, and the comparisons.
static OPERATORS: [IntOp; 26] = [
    IntOp::Add,
    IntOp::AddV,
    IntOp::AddA,
    IntOp::Sub,
    IntOp::Mul,
    IntOp::Mulh,
    IntOp::Div,
    IntOp::Mod,
    IntOp::And,
    IntOp::Or,
    IntOp::Xor,
    IntOp::Shl,
    IntOp::Shr,
    IntOp::Sar,
    IntOp::Cmp(CmpOp::Eq),
    IntOp::CmpU(CmpOp::Eq),
    IntOp::Cmp(CmpOp::Ne),
    IntOp::CmpU(CmpOp::Ne),
    IntOp::Cmp(CmpOp::Lt),
    IntOp::CmpU(CmpOp::Lt),
    IntOp::Cmp(CmpOp::Le),
    IntOp::CmpU(CmpOp::Le),
    IntOp::Cmp(CmpOp::Gt),
    IntOp::CmpU(CmpOp::Gt),
    IntOp::Cmp(CmpOp::Ge),
    IntOp::CmpU(CmpOp::Ge),
];

static CHUNKS: [Chunk; 8] = [
    Chunk::U8,
    Chunk::I8,
    Chunk::U16,
    Chunk::I16,
    Chunk::U32,
    Chunk::I32,
    Chunk::Int,
    Chunk::Val,
];

/// The word of -3, and of -8.
const MINUS_THREE: u64 = u64::MAX - 2;

const MINUS_EIGHT: u64 = u64::MAX - 7;

/// What comes before the operators. The constants are from the least to the greatest by their
/// signed readings.
static FIRST: [Row<Form>; 9] = [
    (Form::Copy(CopyKind::Move), &[B], &[SPILLED]),
    (Form::Copy(CopyKind::Spill), &[B], &[SPILLED]),
    (Form::Copy(CopyKind::Reload), &[B], &[SPILLED]),
    (Form::Constant(1 << 63), &[], &[A]),
    (Form::Constant(u64::MAX), &[], &[A]),
    (Form::Constant(0), &[], &[A]),
    (Form::Constant(7), &[], &[A]),
    (Form::Constant((1 << 63) - 1), &[], &[A]),
    (Form::Symbol("camlMain__data"), &[], &[B]),
];

/// What comes after the loads and stores.
static LAST: [Row<Form>; 14] = [
    (Form::Alloc(&[]), &[], &[C]),
    (Form::Call("camlMain__f"), &[A, B], &[SPILLED]),
    (Form::Call("camlMain__g"), &[], &[]),
    (Form::CallRegister, &[FIXED, A, B], &[B]),
    (Form::External("print"), &[A], &[]),
    (Form::External("read"), &[], &[FIXED]),
    (Form::ExternalFrame("collect"), &[B], &[B]),
    (Form::TailCall("camlMain__f"), &[A, B], &[]),
    (Form::TailCallRegister, &[FIXED], &[]),
    (
        Form::Leaving(Leaving::Checkbound(Right::Register)),
        &[A, FIXED],
        &[],
    ),
    (
        Form::Leaving(Leaving::Checkbound(Right::Constant(5))),
        &[A],
        &[],
    ),
    (Form::Leaving(Leaving::Raise), &[B], &[]),
    (Form::Leaving(Leaving::Return), &[FIXED], &[]),
    (Form::Leaving(Leaving::Return), &[], &[]),
];

/// What Mach has at the end: blocks of 1, 2 and 3 cells, and an exit.
static MACH_LAST: [Row<MachForm>; 2] = [
    (MachForm::Op(Form::Alloc(&[2, 3])), &[], &[A, B, C]),
    (
        MachForm::Mark(MarkForm::Exit { label: 7, tries: 0 }),
        &[],
        &[],
    ),
];

static BEFORE_BRANCHES: [Row<FlowForm>; 5] = [
    (FlowForm::Label(NEAR), &[], &[]),
    (FlowForm::Jump(NEAR), &[], &[]),
    (FlowForm::Exit(FAR), &[], &[]),
    (FlowForm::Branch(Test::Holds), &[A], &[]),
    (FlowForm::Branch(Test::Fails), &[A], &[]),
];

static AFTER_BRANCHES: [Row<FlowForm>; 5] = [
    (FlowForm::Switch(&[NEAR, FAR, NEAR]), &[A], &[]),
    (FlowForm::PushTrap, &[], &[]),
    (FlowForm::PopTrap, &[], &[]),
    (FlowForm::Label(FAR), &[], &[]),
    (FlowForm::EnterTrap, &[], &[B]),
];

fn operator_rows(op: IntOp) -> [Row<Form>; 2] {
    let immediate = Right::Constant(MINUS_THREE);
    [
        (Form::Operator(op, Right::Register), &[A, FIXED], &[A]),
        (Form::Operator(op, immediate), &[SPILLED], &[FIXED]),
    ]
}

fn chunk_rows(chunk: Chunk) -> [Row<Form>; 4] {
    [
        (Form::Load(chunk, 16), &[C], &[A]),
        (Form::Load(chunk, MINUS_EIGHT), &[FIXED], &[SPILLED]),
        (Form::Store(chunk, 16), &[C, A], &[]),
        (Form::Store(chunk, MINUS_EIGHT), &[FIXED, SPILLED], &[]),
    ]
}

fn branch_rows(compare: CmpOp) -> [Row<FlowForm>; 4] {
    let nine = Right::Constant(9);
    [
        (
            FlowForm::Branch(Test::Signed(compare, Right::Register)),
            &[A, FIXED],
            &[],
        ),
        (
            FlowForm::Branch(Test::Unsigned(compare, Right::Register)),
            &[A, FIXED],
            &[],
        ),
        (FlowForm::Branch(Test::Signed(compare, nine)), &[A], &[]),
        (FlowForm::Branch(Test::Unsigned(compare, nine)), &[A], &[]),
    ]
}

/// The operations that both languages have.
#[derive(Drop)]
struct Operations {
    rows: Vec<Row<Form>>,
}

impl Operations {
    fn new(alloc: Global) -> Result<Self, AllocError> {
        let rows = FIRST.to_vec(alloc)?;
        Ok(Operations { rows })
    }

    fn add(&mut self, rows: &[Row<Form>]) -> Result<(), AllocError> {
        self.rows.extend_from_slice(rows)
    }

    fn add_operators(&mut self) -> Result<(), AllocError> {
        for op in &OPERATORS {
            self.add(&operator_rows(*op))?;
        }
        Ok(())
    }

    fn add_chunks(&mut self) -> Result<(), AllocError> {
        for chunk in &CHUNKS {
            self.add(&chunk_rows(*chunk))?;
        }
        Ok(())
    }

    fn add_all(&mut self) -> Result<(), AllocError> {
        self.add_operators()?;
        self.add_chunks()?;
        self.add(&LAST)
    }

    /// All of them, in the order of their lines.
    fn all(alloc: Global) -> Result<Self, AllocError> {
        let mut operations = Operations::new(alloc)?;
        operations.add_all()?;
        Ok(operations)
    }
}

fn put_mach_operations(alloc: Global, code: &mut MachCode) -> Result<(), AllocError> {
    for (form, args, results) in Operations::all(alloc)?.rows.as_slice() {
        code.put((MachForm::Op(*form), *args, *results))?;
    }
    Ok(())
}

/// A Mach function of every operation, and an exit.
pub(crate) fn mach_text(alloc: Global) -> Result<List<u8>, AllocError> {
    let mut code = MachCode::new(alloc);
    put_mach_operations(alloc, &mut code)?;
    code.put_all(&MACH_LAST)?;
    code.text("operations")
}

fn put_operations(alloc: Global, code: &mut LinCode) -> Result<(), AllocError> {
    for (form, args, results) in Operations::all(alloc)?.rows.as_slice() {
        code.put(LinForm::Op(*form), *args, *results)?;
    }
    Ok(())
}

/// A move from every register of the machine.
fn put_registers(code: &mut LinCode) -> Result<(), AllocError> {
    for number in 0..32u8 {
        let copy = LinForm::Op(Form::Copy(CopyKind::Move));
        code.put(copy, &[machine(number)], &[SPILLED])?;
    }
    Ok(())
}

fn put_flow_rows(code: &mut LinCode, rows: &[Row<FlowForm>]) -> Result<(), AllocError> {
    for (form, args, results) in rows {
        code.put(LinForm::Flow(*form), *args, *results)?;
    }
    Ok(())
}

fn put_branches(code: &mut LinCode) -> Result<(), AllocError> {
    for compare in &COMPARISONS {
        put_flow_rows(code, &branch_rows(*compare))?;
    }
    Ok(())
}

/// The lines of Linear about control.
fn put_flows(code: &mut LinCode) -> Result<(), AllocError> {
    put_flow_rows(code, &BEFORE_BRANCHES)?;
    put_branches(code)?;
    put_flow_rows(code, &AFTER_BRANCHES)
}

/// A Linear function of every operation, of every register of the machine, and of what is Linear's
/// own.
pub(crate) fn lin_text(alloc: Global) -> Result<List<u8>, AllocError> {
    let mut code = LinCode::new(alloc);
    put_operations(alloc, &mut code)?;
    put_registers(&mut code)?;
    put_flows(&mut code)?;
    code.text("lines")
}
