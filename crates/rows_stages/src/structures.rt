//! Every structure of Mach, and structures inside others.
use crate::form::{Form, MachForm, MarkForm};
use crate::function::{MachCode, Row};
use crate::operations::COMPARISONS;
use crate::registers::{A, RAISED, SECOND, THIRD};
use bs_words::{CmpOp, List};
use mach_ir::{Leaving, Reg, Right, Test};
use std::alloc::{AllocError, Global};

/// A switch whose second case has a loop, and in that a try with a handler that leaves the
/// loop.
static NESTED: [Row<MachForm>; 16] = [
    (MachForm::Mark(MarkForm::Switch(&[3, 4, 3])), &[A], &[]),
    (MachForm::Mark(MarkForm::Case(&[0, 2], 3)), &[], &[]),
    (MachForm::Op(Form::Constant(2)), &[], &[THIRD]),
    (MachForm::Mark(MarkForm::Case(&[1], 4)), &[], &[]),
    (MachForm::Mark(MarkForm::Catch), &[], &[]),
    (MachForm::Mark(MarkForm::Try), &[], &[]),
    (
        MachForm::Mark(MarkForm::Exit { label: 6, tries: 1 }),
        &[],
        &[],
    ),
    (MachForm::Mark(MarkForm::Leave), &[], &[]),
    (MachForm::Mark(MarkForm::Handler), &[], &[RAISED]),
    (
        MachForm::Mark(MarkForm::Exit { label: 6, tries: 0 }),
        &[],
        &[],
    ),
    (MachForm::Mark(MarkForm::End(9)), &[], &[]),
    (MachForm::Mark(MarkForm::With { label: 6 }), &[], &[]),
    (MachForm::Op(Form::Constant(3)), &[], &[THIRD]),
    (MachForm::Mark(MarkForm::End(7)), &[], &[]),
    (MachForm::Mark(MarkForm::End(5)), &[], &[]),
    (MachForm::Op(Form::Leaving(Leaving::Return)), &[], &[]),
];

/// What comes after the test of an `if`: a constant on one side, nothing on the other.
static SIDES: [Row<MachForm>; 3] = [
    (MachForm::Op(Form::Constant(1)), &[], &[THIRD]),
    (MachForm::Mark(MarkForm::Else), &[], &[]),
    (MachForm::Mark(MarkForm::End(2)), &[], &[]),
];

fn put_if(code: &mut MachCode, test: Test, args: &'static [Reg]) -> Result<(), AllocError> {
    code.put((MachForm::Mark(MarkForm::If(test)), args, &[]))?;
    code.put_all(&SIDES)
}

fn put_comparison(code: &mut MachCode, compare: CmpOp) -> Result<(), AllocError> {
    let eight = Right::Constant(8);
    put_if(code, Test::Signed(compare, Right::Register), &[A, SECOND])?;
    put_if(code, Test::Unsigned(compare, Right::Register), &[A, SECOND])?;
    put_if(code, Test::Signed(compare, eight), &[A])?;
    put_if(code, Test::Unsigned(compare, eight), &[A])
}

fn put_ifs(code: &mut MachCode) -> Result<(), AllocError> {
    put_if(code, Test::Holds, &[A])?;
    put_if(code, Test::Fails, &[A])?;
    for compare in &COMPARISONS {
        put_comparison(code, *compare)?;
    }
    Ok(())
}

/// A Mach function of every structure.
pub(crate) fn mach_text(alloc: Global) -> Result<List<u8>, AllocError> {
    let mut code = MachCode::new(alloc);
    put_ifs(&mut code)?;
    code.put_all(&NESTED)?;
    code.text("structures")
}
