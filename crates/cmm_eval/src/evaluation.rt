//! The run of a function of a file.
//!
//! `eval` takes the file, and not what the checks gave, so that it is below them. It asks for what it
//! needs: data without a fault, nodes that hold their types, an entry that the arguments fit.
//!
//! The entry returns to an activation of nobody, so that its own tail calls are folded like any other.
ghost use Rattle.std.specs.Prelude.{◌≡◌, ◌↔◌, None, IfOk, IsTrue, map, ◌<◌, ◌^◌, length};
ghost use Rattle.bs_words.specs.Contents.{contents};
ghost use Rattle.bs_words.specs.declared.values.Value.TheVariants.{Word};
ghost use Rattle.cmm_tree.specs.Tree.{functions};
ghost use Rattle.cmm_tree.specs.View.{file_view};
ghost use Rattle.cmm_data.specs.Faults.{data_fault_of};
ghost use Rattle.cmm_meaning.specs.State as state;
ghost use Rattle.cmm_meaning.specs.Evaluation as evaluation;
ghost use Rattle.cmm_meaning.specs.Run.{cmm_run, finished, reported};
ghost use Rattle.eval_frames.specs.Annotated.{IsTyped, FitsEntry};
ghost use Rattle.eval_frames.specs.Filled.{HasEnded, standing};
ghost use Rattle.eval_frames.specs.Around.{functions_in};
ghost use Rattle.eval_frames.specs.Views.{eval_view, layout_view, outcome_view};

use crate::machine::Machine;
use bs_words::{Kind, List, Value};
use cmm_data::SymbolTable;
use cmm_tree::{File, Function, Item};
use cmm_values::Memory;
use eval_frames::around::Surroundings;
use eval_frames::bind::fit_parameters;
use eval_frames::calls::{activation, observed};
use eval_frames::frame::{Now, Step};
use eval_frames::here::Here;
use eval_frames::layout::Layout;
use eval_frames::outcome::{Eval, Outcome};
use eval_frames::tests::Tests;
use eval_frames::world::{Stop, World};
use std::alloc::{AllocError, Global};

/// The run of function `entry` of a file, on argument words, with these answers to external calls and so
/// many units of fuel. The error is want of memory; a stack or a heap of 2^64 bytes or more is answered so too.
pub fn eval(
    alloc: Global,
    file: &File,
    layout: &Layout,
    entry: u32,
    args: &[u64],
    answers: &[u64],
    fuel: u64,
) -> Result<Eval, AllocError>
    requires data { data_fault_of (file_view file.now) ≡ None }
    requires few { length (functions (file_view file.now)) < 2 ^ 32 }
    requires typed { IsTyped file.now }
    requires entry { FitsEntry (file_view file.now) entry args.now }
    ensures { IfOk result (λ run. eval_view run ≡ cmm_run (file_view file.now)
        (layout_view layout.now) entry args.now answers.now fuel) }
{
    let functions = functions_of(alloc, file)?;
    let memory = Memory::of_file(alloc, file)?;
    let around = Surroundings {
        alloc,
        file,
        end: memory.end_of_data(),
        symbols: SymbolTable::of_file(alloc, file)?,
        functions,
        layout,
    };
    let Some(function) = around.functions.get(entry as usize) else {
        unreachable!()
    };
    let arguments = words(alloc, args)?;
    let frame = layout.frame_of(entry);
    let here = activation(alloc, function, 0, frame, arguments.as_slice())?;
    let mut world = World {
        left: fuel,
        stack_need: 0,
        memory,
        made: Vec::new(alloc),
        answers,
    };
    world.deepen(frame);
    let mut machine = Machine {
        here,
        world,
        frames: Vec::new(alloc),
    };
    // The entry returns to nobody; tail calls take its place like that of any other function.
    let returns = Step::Return {
        here: Here::nobody(alloc),
        tests: Tests::none(),
    };
    machine.push(&function.body.form, true, returns)?;
    let first = Now::Begins {
        expr: &function.body,
        tail: true,
    };
    let end = machine.run(&around, first)?;
    let outcome = finished(layout, end);
    let Machine {
        here: _,
        world,
        frames: _,
    } = machine;
    let World {
        left,
        stack_need,
        memory,
        made,
        answers: _,
    } = world;
    let calls = List::from_vec(made);
    Ok(Eval {
        outcome,
        calls,
        stack_need,
        heap_bytes: memory.heap_need(),
        left,
    })
}

/// Whether a run can begin so: the entry is a function of the file, with as many parameters as arguments,
/// which fit them. The only error is want of memory.
pub fn fits_entry(alloc: Global, file: &File, entry: u32, args: &[u64]) -> Result<bool, AllocError>
    requires data { data_fault_of (file_view file.now) ≡ None }
    requires few { length (functions (file_view file.now)) < 2 ^ 32 }
    ensures { IfOk result (λ fits. IsTrue fits ↔ FitsEntry (file_view file.now) entry args.now) }
{
    let memory = Memory::of_file(alloc, file)?;
    let functions = functions_of(alloc, file)?;
    let Some(function) = functions.get(entry as usize) else {
        return Ok(false);
    };
    let arguments = words(alloc, args)?;
    let params = function.params.as_slice();
    Ok(fit_parameters(memory.end_of_data(), params, arguments.as_slice()))
}

fn finished(layout: &Layout, end: Now<'_>) -> Outcome
    requires { HasEnded end }
    ensures { (s : evaluation.Surroundings) → (h : state.Here) → (w : state.World) →
        finished (layout_view layout.now) (standing s end.entry h w) ≡ reported
        (outcome_view result) w }
{
    match end {
        Now::Gives(None) => Outcome::Returned(None),
        Now::Gives(Some(value)) => Outcome::Returned(Some(observed(layout, value))),
        Now::Raises(value) => Outcome::Raised(observed(layout, value)),
        Now::Stops(Stop::OutOfFuel) => Outcome::More,
        Now::Stops(Stop::NotProper(kind)) => Outcome::Improper(kind),
        Now::Stops(Stop::NoAnswer(call)) => Outcome::Asks(call),
        Now::Exits { .. } => Outcome::Improper(Kind::BadCall),
        Now::Begins { .. } => unreachable!(),
    }
}

fn functions_of(alloc: Global, file: &File) -> Result<Vec<&Function>, AllocError>
    ensures { IfOk result (λ functions. map (λ f.
        f.now) functions.items ≡ functions_in (contents file.now.items)) }
{
    let mut functions = Vec::new(alloc);
    for item in file.items.as_slice() {
        match item {
            Item::Function(function) => functions.push(function)?,
            Item::Data(_) => {}
        }
    }
    Ok(functions)
}

fn words(alloc: Global, words: &[u64]) -> Result<Vec<Value>, AllocError>
    ensures { IfOk result (λ values. values.items ≡ map Word words.now) }
{
    words.iter().map(|word| Value::Word(*word)).collect(alloc)
}
