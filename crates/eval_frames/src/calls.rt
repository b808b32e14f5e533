//! What a call begins with, and what is seen of it.
ghost use Rattle.std.specs.Prelude.{◌≡◌, [], IfOk, map};
ghost use Rattle.bs_words.specs.Contents.{contents};
ghost use Rattle.cmm_tree.specs.View.{params_view};
ghost use Rattle.cmm_meaning.specs.Layout as meaning;
ghost use Rattle.cmm_meaning.specs.State.{bound};
ghost use Rattle.cmm_meaning.specs.Evaluation.{scoped_parameter};
ghost use Rattle.cmm_meaning.specs.Run.{given_back};
ghost use Rattle.eval_frames.specs.Outside.{EndsFrameCall};
ghost use Rattle.eval_frames.specs.Views.{here_view, layout_view};

use crate::bind::bind_params;
use crate::frame::Now;
use crate::given::raised;
use crate::here::Here;
use crate::layout::Layout;
use bs_words::{List, Obs, Ret, Value};
use cmm_tree::Function;
use std::alloc::{AllocError, Global};

/// An activation of a function on these arguments. The only error is want of memory.
pub fn activation<'a>(
    alloc: Global,
    function: &'a Function,
    below: u64,
    frame: u64,
    arguments: &[Value],
) -> Result<Here<'a>, AllocError>
    ensures { IfOk result (λ here. here_view here ≡ record {
      names = bound
          (map scoped_parameter (params_view (contents function.entry.now.params))) arguments.now
          [];
      below = below;
      frame = frame;
      tries = 0;
    }) }
{
    let mut here = Here {
        names: Vec::new(alloc),
        below,
        frame,
        tries: 0,
    };
    bind_params(&mut here, function.params.as_slice(), arguments)?;
    Ok(here)
}

/// What is seen of a value.
pub fn observed(layout: &Layout, value: Value) -> Obs
    ensures { result ≡ meaning.observed (layout_view layout.now) value }
{
    match value {
        Value::Word(word) => Obs::Word(word),
        Value::Block { serial, .. } => Obs::Block(serial),
        Value::Function(function) => Obs::Word(layout.address_of(function)),
    }
}

/// What is seen of the arguments of an external call. The only error is want of memory.
pub fn shown(alloc: Global, layout: &Layout, values: &[Value]) -> Result<List<Obs>, AllocError>
    ensures { IfOk result (λ seen. contents seen ≡ map (meaning.observed
        (layout_view layout.now)) values.now) }
{
    let mut seen = Vec::new(alloc);
    for value in values {
        seen.push(observed(layout, *value))?;
    }
    Ok(List::from_vec(seen))
}

/// How a frame call with these two answers ends: where the first is 0 the second is its value, and else
/// it is raised.
#[tactic(auto, using(crate::proofs::Answered::frame_gives, crate::proofs::Answered::frame_raises))]
pub fn frame_ended<'a>(end: u64, written: Ret, first: u64, second: u64) -> Now<'a>
    ensures { EndsFrameCall end written first second result }
{
    if first == 0 {
        Now::Gives(given_back(written, second))
    } else {
        raised(end, Value::Word(second))
    }
}

/// What a frame call gives of its second answer: with no result, nothing.
fn given_back(written: Ret, answer: u64) -> Option<Value>
    ensures { result ≡ given_back written answer }
{
    match written {
        Ret::Unit => None,
        Ret::Comp(_) => Some(Value::Word(answer)),
    }
}
