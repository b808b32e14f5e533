//! The command `run`: an image in, the outcome of a run of one of its functions out.
ghost use Rattle.std.specs.Prelude.{◌≡◌, Some, IfOk, OnOk, IfErr, option_map};
ghost use Rattle.command_line.specs.Command.{WithinLimits};
ghost use Rattle.command_line.specs.View.{run_view};
ghost use Rattle.bs_words.specs.Contents.{contents};
ghost use Rattle.image_form.specs.Image.{IsImage};
ghost use Rattle.image_form.specs.Tables.{tables};
ghost use Rattle.rv_machine.specs.Loading.{IsRoom};
ghost use Rattle.commands.specs.Effects.{side, IsRead};
ghost use Rattle.commands.specs.Refusal.{WritesRun, WritesOutcome, IsRunRefusal, IsRunRefusalFrom, IsUnread};
ghost use Rattle.commands.specs.Refusal.{IsLoadRefusal, refusal_of_image, refusal_of_load};
ghost use Rattle.commands.specs.Run.{IsLoaded, words_of_answers, longest_image, schedule_of_moves};
ghost use Rattle.commands.specs.declared.run.RunRefusal.TheVariants.{WriteFault, OutOfMemory};
ghost use Rattle.mover_runtime.specs.Schedules as runtime;

use bs_fault::ImageRefusal;
use bs_io::{InFault, OutFault, Sink, Source, read_all};
use bs_words::List;
use command_line::{Arg, Moves, RunWords};
use image_codec::read_image;
use image_form::{Image, ImageError};
use mover_runtime::{Schedule, run_image};
use rv_machine::{LoadError, Machine, Setup, load, word_of_arg};
use std::alloc::{AllocError, Global};

/// The most bytes of an image.
const LONGEST_IMAGE: u64 = 620_691_524;

/// Why there is no outcome, or not the whole of it on out.
#[derive(Drop)]
pub enum RunRefusal {
    /// A read of the source failed.
    ReadFault,
    /// The bytes that were read are no image. It has their first fault.
    Image(ImageRefusal),
    /// The image has no function of the entry's name.
    UnknownEntry,
    /// The arguments do not suit the entry, or a symbol of arguments or answers is no data symbol.
    ArgumentUnfit,
    /// A write of the outcome failed, or took nothing.
    WriteFault,
    /// Memory ran out.
    OutOfMemory,
}

impl From<AllocError> for RunRefusal {
    ghost from_gives = { λ _ r. r ≡ OutOfMemory };

    fn from(_error: AllocError) -> Self {
        RunRefusal::OutOfMemory
    }
}

impl From<OutFault> for RunRefusal {
    ghost from_gives = { λ _ r. r ≡ WriteFault };

    fn from(_error: OutFault) -> Self {
        RunRefusal::WriteFault
    }
}

impl From<ImageError> for RunRefusal {
    ghost from_gives = { λ error r. r ≡ refusal_of_image error };

    fn from(error: ImageError) -> Self {
        match error {
            ImageError::Refused(refusal) => RunRefusal::Image(refusal),
            ImageError::OutOfMemory => RunRefusal::OutOfMemory,
        }
    }
}

impl From<LoadError> for RunRefusal {
    ghost from_gives = { λ error r. r ≡ refusal_of_load error };

    fn from(error: LoadError) -> Self {
        match error {
            LoadError::UnknownEntry => RunRefusal::UnknownEntry,
            LoadError::ArgumentUnfit => RunRefusal::ArgumentUnfit,
            LoadError::OutOfMemory => RunRefusal::OutOfMemory,
        }
    }
}

/// Writes the outcome of a run of the image that a source holds. At most one byte past the longest
/// image is read.
///
/// # Errors
///
/// `ReadFault` where a read of the source failed; `Image` where no image has the bytes that were read, with their
/// first fault; `UnknownEntry` where the image has no function of the entry's name; `ArgumentUnfit` where the
/// arguments do not suit it, or a symbol of arguments or answers is no data symbol; `OutOfMemory` where memory ran
/// out. Nothing is written then. `WriteFault` where a write failed or took nothing: out then has the front of the
/// outcome, and not all of it.
pub fn run_source<S: Source, K: Sink>(
    alloc: Global,
    run: RunWords,
    source: &mut S,
    out: &mut K,
) -> Result<(), RunRefusal>
    requires { WithinLimits (run_view run) }
    ensures written { OnOk result
        (WritesOutcome (run_view run) (side S.left S.faults source.old source.new)
        (side K.held K.faults out.old out.new)) }
    ensures refused { IfErr result (λ r.
        IsRunRefusalFrom (run_view run) (side S.left S.faults source.old source.new)
        (side K.held K.faults out.old out.new) r) }
{
    let bytes = read_whole(alloc, source)?;
    let image = read_image(alloc, bytes.as_slice())?;
    run_on(alloc, run, &image, out)
}

/// The bytes that a source holds, up to one past the longest image, which no image has.
fn read_whole<S: Source>(alloc: Global, source: &mut S) -> Result<List<u8>, RunRefusal>
    ensures read { IfOk result (λ bytes.
        IsRead longest_image (side S.left S.faults source.old source.new) (contents bytes)) }
    ensures refused { IfErr result (λ r. IsUnread (side S.left S.faults source.old source.new) r) }
{
    match read_all(alloc, source, LONGEST_IMAGE) {
        Ok(bytes) => Ok(bytes),
        Err(InFault::Long(bytes)) => Ok(bytes),
        Err(InFault::Read) => Err(RunRefusal::ReadFault),
        Err(InFault::OutOfMemory) => Err(RunRefusal::OutOfMemory),
    }
}

/// Writes the outcome of a run of an image.
///
/// # Errors
///
/// `UnknownEntry` where the image has no function of the entry's name; `ArgumentUnfit` where the arguments do not
/// suit it, or a symbol of arguments or answers is no data symbol; `OutOfMemory` where memory ran out. Nothing is
/// written then. `WriteFault` where a write failed or took nothing: out then has the front of the outcome, and not
/// all of it. Nothing else comes.
pub fn run_on<K: Sink>(
    alloc: Global,
    run: RunWords,
    image: &Image,
    out: &mut K,
) -> Result<(), RunRefusal>
    requires stack { IsRoom (run_view run).stack }
    requires heap { IsRoom (run_view run).heap }
    requires rules { IsImage image.now }
    ensures written { OnOk result
        (WritesRun (run_view run) (tables image.now) (side K.held K.faults out.old out.new)) }
    ensures refused { IfErr result (λ r.
        IsRunRefusal (run_view run) (tables image.now)
        (side K.held K.faults out.old out.new) r) }
{
    let steps = run.steps;
    let schedule = schedule_for(run.moves);
    let Loaded { mut machine, words } = load_run(alloc, run, image)?;
    run_image(&mut machine, words.as_slice(), &schedule, steps, out)?;
    Ok(())
}

/// A machine at the entry of its run, and the words that answer its external calls.
#[derive(Drop)]
struct Loaded<'a> {
    machine: Machine<'a>,
    words: Vec<u64>,
}

/// The image loaded for the run that the words ask for.
fn load_run(alloc: Global, run: RunWords, image: &Image) -> Result<Loaded<'_>, RunRefusal>
    requires stack { IsRoom (run_view run).stack }
    requires heap { IsRoom (run_view run).heap }
    requires rules { IsImage image.now }
    ensures loaded { IfOk result (λ loaded.
        IsLoaded (run_view run) (tables image.now) loaded.machine loaded.words.items) }
    ensures refused { IfErr result (λ r. IsLoadRefusal (run_view run) (tables image.now) r) }
{
    let RunWords {
        entry,
        args,
        answers,
        stack,
        heap,
        ..
    } = run;
    let setup = Setup {
        entry,
        args,
        stack,
        heap,
    };
    let machine = load(alloc, image, &setup)?;
    match answer_words(alloc, image, &answers)? {
        Some(words) => Ok(Loaded { machine, words }),
        None => Err(RunRefusal::ArgumentUnfit),
    }
}

/// The schedule that the words ask for.
fn schedule_for(moves: Moves) -> Schedule
    ensures { runtime.schedule_of result ≡ schedule_of_moves moves }
{
    match moves {
        Moves::Never => Schedule::Never,
        Moves::Every => Schedule::Every,
        Moves::Seed(seed) => Schedule::Seed(seed),
    }
}

/// The words of the answers, where each symbol among them is a data symbol of the image.
fn answer_words(
    alloc: Global,
    image: &Image,
    answers: &List<Arg>,
) -> Result<Option<Vec<u64>>, AllocError>
    ensures { IfOk result (λ words.
        option_map (λ w. w.items) words
        ≡ words_of_answers (tables image.now) (contents answers.now)) }
{
    let mut words = Vec::new(alloc);
    for answer in answers.as_slice() {
        match word_of_arg(image, answer) {
            Some(word) => words.push(word)?,
            None => return Ok(None),
        }
    }
    Ok(Some(words))
}
