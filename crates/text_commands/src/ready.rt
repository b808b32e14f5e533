//! A text with its image and a call of one of its functions, ready to be run by its meaning.
ghost use Rattle.std.specs.Prelude.{◌≡◌, IfOk, IfErr};
ghost use Rattle.eval_frames.specs.Views.{layout_view};
ghost use Rattle.cmm_front.specs.FileOf.{HasPlace};
ghost use Rattle.cmm_tree.specs.View.{file_view};
ghost use Rattle.command_line.specs.View.{check_view};
ghost use Rattle.correctness.specs.Setting.{layout_of};
ghost use Rattle.image_form.specs.Image.{IsImage};
ghost use Rattle.image_form.specs.Tables.{tables};
ghost use Rattle.text_commands.specs.CheckRefusal.{IsCheckRefusal};
ghost use Rattle.text_commands.specs.Ready.{IsRunReady};

use crate::call::{FileCall, call_of};
use crate::check::CheckRefusal;
use cmm_eval::Layout;
use cmm_front::front;
use cmm_walks::Checked;
use command_line::CheckWords;
use file_compile::{Gate, compile_by, layout};
use image_form::Image;
use std::alloc::Global;
use std::thread::Threads;

/// The file of a text, the call that words ask for, and what is taken from the text's image for its run.
#[derive(Drop)]
pub struct Ready {
    /// The file of the text, which has no fault.
    pub checked: Checked,
    /// The call that the words ask for.
    pub call: FileCall,
    /// The image of the text, by what the words choose.
    pub image: Image,
    /// The frames and addresses of the functions in the image.
    pub layout: Layout,
}

/// The text made ready for the run that the words ask for. It is compiled by one job.
///
/// # Errors
///
/// `Fault` exactly where the text has a fault, with the one that is reported; else `UnknownEntry` exactly where it has
/// no function of the entry's name; else `ArgumentUnfit` exactly where the words do not suit that function; else
/// `TooLarge` exactly where a section of its image passes its limit, with the first that does. `OutOfMemory` where
/// memory ran out before the answer is known.
pub fn made_ready<R: Threads + Sync, G: Gate + Sync>(
    rt: &R,
    alloc: Global,
    text: &[u8],
    check: &CheckWords,
    gate: &G,
) -> Result<Ready, CheckRefusal>
    ensures ready { IfOk result (λ r.
        IsRunReady (check_view check.now) text.now (file_view r.checked) r.call.entry
        r.call.args.items r.call.answers.items (tables r.image)) }
    ensures placed { IfOk result (λ r. HasPlace (file_view r.checked)) }
    ensures is_image { IfOk result (λ r. IsImage r.image) }
    ensures layout { IfOk result (λ r. layout_view r.layout ≡ layout_of (tables r.image)) }
    ensures refused { IfErr result (λ r. IsCheckRefusal (check_view check.now) text.now r) }
{
    let checked = front(alloc, text)?;
    let call = call_of(alloc, checked.typed().file(), check)?;
    let image = compile_by(rt, alloc, &checked, check.choices, 1, gate)?;
    let layout = layout(alloc, &image)?;
    Ok(Ready {
        checked,
        call,
        image,
        layout,
    })
}
