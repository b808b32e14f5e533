//! The command `soak`: a text is drawn, compiled by the defaults, and run by its meaning and on the machine.
//!
//! What cannot come of a drawn text is not answered: that it has no fault, and that its last function takes
//! two words in file and image, is proved. So those arms are unreachable.
ghost use Rattle.std.specs.Prelude.{◌≡◌, ◌≤◌, ℕ, List, length, IfOk, IfErr};
ghost use Rattle.bs_words.specs.Contents.{contents};
ghost use Rattle.command_line.specs.Command.{IsCommand, SoakCommand};
ghost use Rattle.command_line.specs.View.{run_view, check_view};
ghost use Rattle.image_form.specs.Image.{IsImage, tables_bytes};
ghost use Rattle.image_form.specs.Tables.{tables};
ghost use Rattle.text_commands.specs.Trial.{IsTrial};
ghost use Rattle.commands.specs.Effects.{Side, IsUntouched, side, effects};
ghost use Rattle.commands.specs.Ends.{CommandEnds};
ghost use Rattle.commands.specs.Refusal.{IsSoakRefusal};
ghost use Rattle.commands.specs.Run.{IsRunText};
ghost use Rattle.commands.specs.declared.soak.SoakRefusal.TheVariants.{OutOfMemory};
ghost use Rattle.commands.specs.Soak.{soak_text, soak_entry, soak_args, soak_check, soak_run, soak_lines, IsSoakOf};

use crate::kept::Kept;
use crate::last::last_line;
use crate::line::{WRITE_FAULT, WRITTEN, tell_soak_refusal};
use crate::run::{RunRefusal, run_on};
use bs_fault::Large;
use bs_io::{Sink, write_all};
use bs_words::Name;
use choices::DEFAULTS;
use cmm_gen::generate;
use command_line::{Arg, CheckWords, Moves, RunWords};
use image_codec::write_image;
use image_form::Image;
use rv_machine::MOST_ROOM;
use std::alloc::{AllocError, Global};
use std::thread::Threads;
use text_commands::{CheckRefusal, Gate, Trial, trial_of};

/// The most instructions that a run retires, or units of fuel that it spends.
const STEPS: u64 = 1_000_000_000;

/// Why nothing is reported of the text that is drawn.
#[derive(Drop)]
pub enum SoakRefusal {
    /// A section of its image would pass its limit.
    TooLarge(Large),
    /// Memory ran out.
    OutOfMemory,
}

impl From<AllocError> for SoakRefusal {
    ghost from_gives = { λ _ e. e ≡ OutOfMemory };

    fn from(_error: AllocError) -> Self {
        SoakRefusal::OutOfMemory
    }
}

/// Writes what is reported of the text of so many functions that the seed draws, or the line that
/// says why there is nothing, and answers the status. It reads nothing.
pub fn soak<R: Threads + Sync, K: Sink, E: Sink, G: Gate + Sync>(
    rt: &R,
    alloc: Global,
    seed: u64,
    functions: u32,
    out: &mut K,
    err: &mut E,
    gate: &G,
) -> u8
    requires some { 1 ≤ functions }
    requires few { functions ≤ 1000 }
    ensures { (line : List (List ℕ)) (source : Side)
        → IsCommand line (SoakCommand seed functions)
        → IsUntouched source
        → CommandEnds line
        (effects source (side K.held K.faults out.old out.new)
        (side E.held E.faults err.old err.new))
        result }
{
    match report(rt, alloc, seed, functions, gate) {
        Ok(lines) => match write_all(out, lines.as_slice()) {
            Ok(()) => WRITTEN,
            Err(_) => WRITE_FAULT,
        },
        Err(why) => tell_soak_refusal(alloc, err, &why),
    }
}

/// What is reported of the text of so many functions that the seed draws. It is compiled by one
/// job.
fn report<R: Threads + Sync, G: Gate + Sync>(
    rt: &R,
    alloc: Global,
    seed: u64,
    functions: u32,
    gate: &G,
) -> Result<Vec<u8>, SoakRefusal>
    requires some { 1 ≤ functions }
    requires few { functions ≤ 1000 }
    ensures told { IfOk result (λ lines. IsSoakOf seed functions lines.items) }
    ensures refused { IfErr result (λ r. IsSoakRefusal seed functions r) }
{
    let trial = tried(rt, alloc, seed, functions, gate)?;
    let still = outcome_under(alloc, &trial.image, seed, functions, Moves::Never)?;
    let moved = outcome_under(alloc, &trial.image, seed, functions, Moves::Seed(seed))?;
    let lines = lines_of(
        alloc,
        functions,
        &trial.image,
        last_line(trial.outcome.as_slice()),
        last_line(still.as_slice()),
        last_line(moved.as_slice()),
    )?;
    Ok(lines)
}

/// The image of the text that the seed draws, and the outcome of its last function by the meaning
/// of the text.
fn tried<R: Threads + Sync, G: Gate + Sync>(
    rt: &R,
    alloc: Global,
    seed: u64,
    functions: u32,
    gate: &G,
) -> Result<Trial, SoakRefusal>
    requires some { 1 ≤ functions }
    requires few { functions ≤ 1000 }
    ensures is_image { IfOk result (λ trial. IsImage trial.image) }
    ensures told { IfOk result (λ trial.
        IsTrial (soak_check functions) (soak_text seed functions) (tables trial.image)
        (contents trial.outcome)) }
    ensures refused { IfErr result (λ r. IsSoakRefusal seed functions r) }
{
    let text = generate(alloc, seed, functions)?;
    let check = check_words(alloc, functions)?;
    match trial_of(rt, alloc, text.as_slice(), &check, gate) {
        Ok(trial) => Ok(trial),
        Err(CheckRefusal::TooLarge(large)) => Err(SoakRefusal::TooLarge(large)),
        Err(CheckRefusal::OutOfMemory) => Err(SoakRefusal::OutOfMemory),
        // The text has no fault, and its last function takes two words.
        Err(CheckRefusal::Fault(_)) => unreachable!(),
        Err(CheckRefusal::UnknownEntry) => unreachable!(),
        Err(CheckRefusal::ArgumentUnfit) => unreachable!(),
    }
}

/// The name of the last of so many functions that are drawn.
fn entry_name(alloc: Global, functions: u32) -> Result<Name, AllocError>
    requires { 1 ≤ functions }
    ensures { IfOk result (λ name. name ≡ soak_entry functions) }
{
    let name = format!(in alloc; "g{}", functions - 1)?;
    Ok(Name::from_vec(name.into_bytes()))
}

/// The arguments of the last function.
fn arguments(alloc: Global) -> Result<bs_words::List<Arg>, AllocError>
    ensures { IfOk result (λ args. contents args ≡ soak_args) }
{
    let mut args = Vec::new(alloc);
    args.push(Arg::Word(3))?;
    args.push(Arg::Word(4))?;
    Ok(bs_words::List::from_vec(args))
}

/// The run of the last function by the meaning of its text.
fn check_words(alloc: Global, functions: u32) -> Result<CheckWords, AllocError>
    requires { 1 ≤ functions }
    ensures { IfOk result (λ check. check_view check ≡ soak_check functions) }
{
    Ok(CheckWords {
        entry: entry_name(alloc, functions)?,
        args: arguments(alloc)?,
        answers: bs_words::List::new(alloc),
        fuel: STEPS,
        choices: DEFAULTS,
    })
}

/// The run of the last function on the machine.
fn run_words(alloc: Global, functions: u32, moves: Moves) -> Result<RunWords, AllocError>
    requires { 1 ≤ functions }
    ensures { IfOk result (λ run. run_view run ≡ soak_run functions moves) }
{
    Ok(RunWords {
        entry: entry_name(alloc, functions)?,
        args: arguments(alloc)?,
        answers: bs_words::List::new(alloc),
        steps: STEPS,
        stack: MOST_ROOM,
        heap: MOST_ROOM,
        moves,
    })
}

/// The outcome of the last function on the machine, with these moves.
fn outcome_under(
    alloc: Global,
    image: &Image,
    seed: u64,
    functions: u32,
    moves: Moves,
) -> Result<Vec<u8>, AllocError>
    requires some { 1 ≤ functions }
    requires few { functions ≤ 1000 }
    requires rules { IsImage image.now }
    requires trial { (meant : List ℕ)
        × IsTrial (soak_check functions) (soak_text seed functions) (tables image.now) meant }
    ensures { IfOk result (λ text.
        IsRunText (soak_run functions moves) (tables image.now) text.items) }
{
    let run = run_words(alloc, functions, moves)?;
    let mut kept = Kept::new(alloc);
    match run_on(alloc, run, image, &mut kept) {
        Ok(()) => Ok(kept.into_bytes()),
        Err(RunRefusal::WriteFault) => Err(AllocError),
        Err(RunRefusal::OutOfMemory) => Err(AllocError),
        // The image has the function, which takes two words.
        Err(RunRefusal::UnknownEntry) => unreachable!(),
        Err(RunRefusal::ArgumentUnfit) => unreachable!(),
        Err(RunRefusal::ReadFault) => unreachable!(),
        Err(RunRefusal::Image(_)) => unreachable!(),
    }
}

/// The five lines.
fn lines_of(
    alloc: Global,
    functions: u32,
    image: &Image,
    check: &[u8],
    still: &[u8],
    moved: &[u8],
) -> Result<Vec<u8>, AllocError>
    requires { IsImage image.now }
    ensures { IfOk result (λ lines.
        lines.items
        ≡ soak_lines functions (length (tables_bytes (tables image.now))) check.now still.now
        moved.now) }
{
    let bytes = write_image(alloc, image)?;
    let head = format!(in alloc;
        "functions {functions}\nimage {}\ncheck ",
        bytes.as_slice().len()
    )?;
    let mut lines = head.into_bytes();
    lines.extend_from_slice(check)?;
    lines.extend_from_slice(b"still ")?;
    lines.extend_from_slice(still)?;
    lines.extend_from_slice(b"moved ")?;
    lines.extend_from_slice(moved)?;
    Ok(lines)
}
