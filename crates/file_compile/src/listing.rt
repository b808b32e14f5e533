//! The text of one function at a stage.
ghost use Rattle.std.specs.Prelude.{IfOk};
ghost use Rattle.bs_words.specs.Contents.{contents};
ghost use Rattle.cmm_tree.specs.View.{function_view};
ghost use Rattle.cmm_types.specs.Typing.{IsFunctionAnnotated};
ghost use Rattle.file_compile.specs.Accepted.{IsAcceptedFunction};
ghost use Rattle.stages.specs.declared.stage.Stage.{Stage};
ghost use Rattle.file_compile.specs.Listed.{IsTextOf, IsPassText, IsFunctionText};
ghost use Rattle.mach_ir.specs.Text.{mach_text};
ghost use Rattle.prepare.specs.Known.{IsOverMach, IsPassedTo};
ghost use Rattle.selection_rules.specs.Select.{selected};

use crate::passes::{allocated, lines};
use bs_words::List;
use choices::Choices;
use cmm_tree::Function;
use prepare::passed_to;
use selection::select_function;
use stages::Stage;
use std::alloc::{AllocError, Global};

/// The text of what the passes over Mach up to a stage make of a function.
fn passed_text(alloc: Global, function: &Function, stage: Stage) -> Result<List<u8>, AllocError>
    requires typed { IsFunctionAnnotated function.now }
    requires accepted { IsAcceptedFunction (function_view function.now) }
    requires over_mach { IsOverMach stage }
    ensures { IfOk result (λ text. IsTextOf mach_text
        (IsPassedTo (selected (function_view function.now)) stage) (contents text)) }
{
    let mach = select_function(alloc, function)?;
    let passed = passed_to(alloc, mach, stage)?;
    mach_ir::text(alloc, &passed)
}

/// The text of a function with a place for each register.
fn places_text(alloc: Global, function: &Function, choices: Choices) -> Result<List<u8>, AllocError>
    requires typed { IsFunctionAnnotated function.now }
    requires accepted { IsAcceptedFunction (function_view function.now) }
    ensures { IfOk result (λ text.
        IsPassText choices Stage.Alloc (function_view function.now) (contents text)) }
{
    let placed = allocated(alloc, function, choices)?;
    mach_ir::text(alloc, &placed)
}

/// The text of a function as lines.
fn lines_text(alloc: Global, function: &Function, choices: Choices) -> Result<List<u8>, AllocError>
    requires typed { IsFunctionAnnotated function.now }
    requires accepted { IsAcceptedFunction (function_view function.now) }
    ensures { IfOk result (λ text.
        IsPassText choices Stage.Linear (function_view function.now) (contents text)) }
{
    let lin = lines(alloc, function, choices)?;
    lin_ir::text(alloc, &lin)
}

/// The text of what the passes up to a stage make of a function.
fn pass_text(
    alloc: Global,
    function: &Function,
    choices: Choices,
    stage: Stage,
) -> Result<List<u8>, AllocError>
    requires typed { IsFunctionAnnotated function.now }
    requires accepted { IsAcceptedFunction (function_view function.now) }
    ensures { IfOk result (λ text.
        IsPassText choices stage (function_view function.now) (contents text)) }
{
    match stage {
        Stage::Alloc => places_text(alloc, function, choices),
        Stage::Linear => lines_text(alloc, function, choices),
        Stage::Frames => Ok(List::new(alloc)),
        Stage::Code => Ok(List::new(alloc)),
        _ => passed_text(alloc, function, stage),
    }
}

/// The text of a function at a stage. A stage of the image has none. No pass past the stage is made.
///
/// The only error is want of memory.
#[tactic(auto, using(crate::proofs::Once::passed_text))]
pub fn function_text(
    alloc: Global,
    function: &Function,
    choices: Choices,
    stage: Stage,
) -> Result<List<u8>, AllocError>
    requires typed { IsFunctionAnnotated function.now }
    requires accepted { IsAcceptedFunction (function_view function.now) }
    ensures { IfOk result (λ text.
        IsFunctionText choices stage (function_view function.now) (contents text)) }
{
    let text = pass_text(alloc, function, choices, stage)?;
    Ok(text)
}
