//! What is reported of the run of a call.
ghost use Rattle.std.specs.Prelude.{◌≡◌, None, IfOk, ◌<◌, ◌^◌, length};
ghost use Rattle.bs_words.specs.Contents.{contents};
ghost use Rattle.cmm_data.specs.Faults.{data_fault_of};
ghost use Rattle.eval_frames.specs.Annotated.{IsTyped, FitsEntry};
ghost use Rattle.eval_frames.specs.Views.{eval_view, layout_view};
ghost use Rattle.cmm_meaning.specs.Run.{cmm_run};
ghost use Rattle.cmm_tree.specs.Tree.{functions};
ghost use Rattle.cmm_tree.specs.View.{file_view};
ghost use Rattle.text_commands.specs.Check as check;
ghost use Rattle.text_commands.specs.Lines.{cmm_outcome_text};

use crate::call::FileCall;
use crate::lines::{outcome_of, told_of};
use bs_words::List;
use cmm_eval::{Eval, Layout, eval};
use cmm_tree::File;
use std::alloc::{AllocError, Global};

/// The run of a call with so much fuel. The frames and addresses of the file's functions are handed in. The error is
/// want of memory; a stack or a heap of 2^64 bytes or more is answered so too.
fn run_of(
    alloc: Global,
    file: &File,
    layout: &Layout,
    call: &FileCall,
    fuel: u64,
) -> Result<Eval, AllocError>
    requires data { data_fault_of (file_view file.now) ≡ None }
    requires few { length (functions (file_view file.now)) < 2 ^ 32 }
    requires typed { IsTyped file.now }
    requires fit { FitsEntry (file_view file.now) call.now.entry call.now.args.items }
    ensures { IfOk result (λ run.
        eval_view run
        ≡ cmm_run (file_view file.now) (layout_view layout.now) call.now.entry
        call.now.args.items call.now.answers.items fuel) }
{
    eval(
        alloc,
        file,
        layout,
        call.entry,
        call.args.as_slice(),
        call.answers.as_slice(),
        fuel,
    )
}

/// What is reported of the run of a call with so much fuel: its outcome, and what it needs of stack, heap and fuel. The
/// errors are those of `run_of`.
pub fn report_of_run(
    alloc: Global,
    file: &File,
    layout: &Layout,
    call: &FileCall,
    fuel: u64,
) -> Result<List<u8>, AllocError>
    requires data { data_fault_of (file_view file.now) ≡ None }
    requires few { length (functions (file_view file.now)) < 2 ^ 32 }
    requires typed { IsTyped file.now }
    requires fit { FitsEntry (file_view file.now) call.now.entry call.now.args.items }
    ensures { IfOk result (λ told.
        contents told
        ≡ check.report_of_run (file_view file.now) (layout_view layout.now) call.now.entry
        call.now.args.items call.now.answers.items fuel) }
{
    let run = run_of(alloc, file, layout, call, fuel)?;
    told_of(alloc, &run, fuel)
}

/// The outcome of the run of a call with so much fuel. The errors are those of `run_of`.
pub fn outcome_of_run(
    alloc: Global,
    file: &File,
    layout: &Layout,
    call: &FileCall,
    fuel: u64,
) -> Result<List<u8>, AllocError>
    requires data { data_fault_of (file_view file.now) ≡ None }
    requires few { length (functions (file_view file.now)) < 2 ^ 32 }
    requires typed { IsTyped file.now }
    requires fit { FitsEntry (file_view file.now) call.now.entry call.now.args.items }
    ensures { IfOk result (λ told.
        contents told
        ≡ cmm_outcome_text (cmm_run (file_view file.now) (layout_view layout.now) call.now.entry
        call.now.args.items call.now.answers.items fuel)) }
{
    let run = run_of(alloc, file, layout, call, fuel)?;
    outcome_of(alloc, &run)
}
