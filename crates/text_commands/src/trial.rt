//! A text compiled, and run by its meaning.
ghost use Rattle.std.specs.Prelude.{IfOk, IfErr};
ghost use Rattle.bs_words.specs.Contents.{contents};
ghost use Rattle.command_line.specs.View.{check_view};
ghost use Rattle.image_form.specs.Image.{IsImage};
ghost use Rattle.image_form.specs.Tables.{tables};
ghost use Rattle.text_commands.specs.CheckRefusal.{IsCheckRefusal};
ghost use Rattle.text_commands.specs.Trial.{IsTrial};

use crate::check::CheckRefusal;
use crate::ready::made_ready;
use crate::run::outcome_of_run;
use bs_words::List;
use command_line::CheckWords;
use file_compile::Gate;
use image_form::Image;
use std::alloc::Global;
use std::thread::Threads;

/// The image of a text, and the outcome of a run of one of its functions by its meaning.
#[derive(Drop)]
pub struct Trial {
    /// The image of the text.
    pub image: Image,
    /// The bytes that tell the outcome of the run.
    pub outcome: List<u8>,
}

/// A text's image by what the words choose, which is compiled by one job, and the outcome of the run that they ask for,
/// with the frames and addresses of functions in that image.
///
/// # Errors
///
/// `Fault` exactly where the text has a fault, with the one that is reported; else `UnknownEntry` exactly where it has
/// no function of the entry's name; else `ArgumentUnfit` exactly where the words do not suit that function; else
/// `TooLarge` exactly where a section of its image passes its limit, with the first that does. `OutOfMemory` where
/// memory ran out before the answer is known.
pub fn trial_of<R: Threads + Sync, G: Gate + Sync>(
    rt: &R,
    alloc: Global,
    text: &[u8],
    check: &CheckWords,
    gate: &G,
) -> Result<Trial, CheckRefusal>
    ensures is_image { IfOk result (λ trial. IsImage trial.image) }
    ensures told { IfOk result (λ trial.
        IsTrial (check_view check.now) text.now (tables trial.image) (contents trial.outcome)) }
    ensures refused { IfErr result (λ r. IsCheckRefusal (check_view check.now) text.now r) }
{
    let ready = made_ready(rt, alloc, text, check, gate)?;
    let file = ready.checked.typed().file();
    let outcome = outcome_of_run(alloc, file, &ready.layout, &ready.call, check.fuel)?;
    Ok(Trial {
        image: ready.image,
        outcome,
    })
}
