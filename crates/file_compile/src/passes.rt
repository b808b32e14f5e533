//! One function through all passes.
ghost use Rattle.std.specs.Prelude.{◌≡◌, IfOk};
ghost use Rattle.cmm_tree.specs.View.{function_view};
ghost use Rattle.cmm_types.specs.Typing.{IsFunctionAnnotated};
ghost use Rattle.file_promise.specs.Known.{IsFunctionMade, in_order};
ghost use Rattle.file_compile.specs.Accepted.{IsAcceptedFunction};
ghost use Rattle.file_compile.specs.Listed.{IsAllocatedFor, IsLinearFor};

use choices::{Choices, Order};
use cmm_tree::Function;
use frame_tables::descriptors;
use lin_ir::Lin;
use lin_pass::linear;
use mach_ir::Mach;
use prepare::passed_to;
use reg_rounds::{Allocated, allocate_by};
use rv_emit::emit;
use rv_pieces::Pieces;
use schedule::schedule;
use selection::select_function;
use stages::Stage;
use std::alloc::{AllocError, Global};

/// Lines in the order that is chosen. The only error is want of memory.
fn ordered(alloc: Global, lin: Lin, order: Order) -> Result<Lin, AllocError>
    ensures { IfOk result (λ m. m ≡ in_order order lin) }
{
    match order {
        Order::Plain => Ok(lin),
        Order::List => schedule(alloc, lin),
    }
}

/// A function with a place for each register: it is selected and prepared, and places are chosen.
///
/// The only error is want of memory.
pub fn allocated(alloc: Global, function: &Function, choices: Choices) -> Result<Mach, AllocError>
    requires typed { IsFunctionAnnotated function.now }
    requires accepted { IsAcceptedFunction (function_view function.now) }
    ensures { IfOk result (IsAllocatedFor choices (function_view function.now)) }
{
    let mach = select_function(alloc, function)?;
    let prepared = passed_to(alloc, mach, Stage::Split)?;
    let Allocated {
        mach: placed,
        rounds: _,
        rest: _,
    } = allocate_by(alloc, prepared, choices.alloc)?;
    Ok(placed)
}

/// A function as lines, in the order that is chosen.
///
/// The only error is want of memory.
pub fn lines(alloc: Global, function: &Function, choices: Choices) -> Result<Lin, AllocError>
    requires typed { IsFunctionAnnotated function.now }
    requires accepted { IsAcceptedFunction (function_view function.now) }
    ensures { IfOk result (IsLinearFor choices (function_view function.now)) }
{
    let placed = allocated(alloc, function, choices)?;
    let lines = linear(alloc, &placed)?;
    ordered(alloc, lines, choices.order)
}

/// The pieces of a function: its lines, from which its frame descriptors are found and code is emitted.
///
/// The only error is want of memory.
pub fn function_pieces(
    alloc: Global,
    function: &Function,
    choices: Choices,
) -> Result<Pieces, AllocError>
    requires typed { IsFunctionAnnotated function.now }
    requires accepted { IsAcceptedFunction (function_view function.now) }
    ensures { IfOk result (IsFunctionMade choices (function_view function.now)) }
{
    let lin = lines(alloc, function, choices)?;
    let descrs = descriptors(alloc, &lin)?;
    emit(alloc, &lin, descrs.as_slice())
}
