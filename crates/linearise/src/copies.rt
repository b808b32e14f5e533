//! Copies of operations.
//!
//! They are functions of our own, since what a derived clone of nested enums promises is too little.
ghost use Rattle.std.specs.Prelude.{◌≡◌, IfOk};

use bs_words::Name;
use mach_ir::{Access, Callee, Calling, External, Op, Pure};
use std::alloc::AllocError;

/// The same name. The only error is want of memory.
pub fn copy_name(name: &Name) -> Result<Name, AllocError>
    ensures { IfOk result (λ copy. copy ≡ name.now) }
{
    name.clone()
}

/// The same.
fn copy_pure(pure: &Pure) -> Result<Pure, AllocError>
    ensures { IfOk result (λ copy. copy ≡ pure.now) }
{
    match pure {
        Pure::Copy(kind) => Ok(Pure::Copy(*kind)),
        Pure::Constant(word) => Ok(Pure::Constant(*word)),
        Pure::Symbol(name) => Ok(Pure::Symbol(copy_name(name)?)),
        Pure::Operator(operator, right) => Ok(Pure::Operator(*operator, *right)),
    }
}

/// The same.
fn copy_access(access: &Access) -> Result<Access, AllocError>
    ensures { IfOk result (λ copy. copy ≡ access.now) }
{
    match access {
        Access::Load { chunk, offset } => Ok(Access::Load {
            chunk: *chunk,
            offset: *offset,
        }),
        Access::Store { chunk, offset } => Ok(Access::Store {
            chunk: *chunk,
            offset: *offset,
        }),
        Access::Alloc(blocks) => Ok(Access::Alloc(blocks.clone()?)),
    }
}

/// The same.
fn copy_callee(callee: &Callee) -> Result<Callee, AllocError>
    ensures { IfOk result (λ copy. copy ≡ callee.now) }
{
    match callee {
        Callee::Symbol(name) => Ok(Callee::Symbol(copy_name(name)?)),
        Callee::Register => Ok(Callee::Register),
    }
}

/// The same.
fn copy_external(row: &External) -> Result<External, AllocError>
    ensures { IfOk result (λ copy. copy ≡ row.now) }
{
    let name = copy_name(&row.name)?;
    let params = row.params.clone()?;
    Ok(External {
        name,
        params,
        result: row.result,
    })
}

/// The same.
fn copy_calling(calling: &Calling) -> Result<Calling, AllocError>
    ensures { IfOk result (λ copy. copy ≡ calling.now) }
{
    match calling {
        Calling::Call { callee, result } => Ok(Calling::Call {
            callee: copy_callee(callee)?,
            result: *result,
        }),
        Calling::TailCall { callee, result } => Ok(Calling::TailCall {
            callee: copy_callee(callee)?,
            result: *result,
        }),
        Calling::External { row, frame } => Ok(Calling::External {
            row: copy_external(row)?,
            frame: *frame,
        }),
    }
}

/// The same operation. The only error is want of memory.
pub fn copy_op(op: &Op) -> Result<Op, AllocError>
    ensures { IfOk result (λ copy. copy ≡ op.now) }
{
    match op {
        Op::Pure(pure) => Ok(Op::Pure(copy_pure(pure)?)),
        Op::Access(access) => Ok(Op::Access(copy_access(access)?)),
        Op::Calling(calling) => Ok(Op::Calling(copy_calling(calling)?)),
        Op::Leaving(leaving) => Ok(Op::Leaving(*leaving)),
    }
}
