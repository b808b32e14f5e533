//! The top call.
ghost use Rattle.command_line.specs.View.{texts};
ghost use Rattle.cmmc_core.specs.Complete.{Complete};
ghost use Rattle.commands.specs.Effects.{side, effects};
ghost use Rattle.commands.specs.Ends.{CommandEnds};

use bs_io::{Sink, Source, write_all};
use command_line::{Command, WordsError, read_words};
use commands::check::check;
use commands::list::list;
use commands::soak::soak;
use commands::{
    Gate, NO_MEMORY, READ_FAULT, Refusal, RunRefusal, USAGE, WRITE_FAULT, WRITTEN, compile_source,
    run_source, tell, tell_image, tell_refusal,
};
use std::alloc::Global;
use std::thread::Threads;

/// Does what the words say, and answers the status with which the program ends.
///
/// `words` are those of the command line without the program's name:
///
/// - `compile` reads a Cmm text from `source` and writes its image to `out`;
/// - `run ENTRY` reads an image and writes the outcome of a run of that function;
/// - `check ENTRY` reads a Cmm text and writes the outcome of a run of that function of the text,
///   and what the run needs of stack, heap and fuel;
/// - `list STAGE` reads a Cmm text and writes the text of that stage of the compiler;
/// - `soak` reads nothing. It draws a text by a seed, compiles it, and writes five lines: how many
///   functions the text has, the bytes of its image, and the last lines of three outcomes of its
///   last function, by the meaning of the text, and on the machine where nothing moves and where
///   the seed draws what moves.
///
/// `compile`, `check` and `list` go by what their words choose, `soak` by the defaults.
///
/// At `compile`, `check` and `soak` the gate hears of each function that is compiled.
///
/// The statuses are 0 where the output was written whole, 2 where the words are no command or do
/// not suit what was read, 3 where the text has a fault, 4 where the bytes are no image, 5 where a
/// read failed, 6 where a write failed, 8 where a section of the image passes its limit, and 9
/// where there was no memory. At 0 nothing is written to `err`; at any other nothing but the front
/// of the output is written to `out`.
pub fn cmmc<R: Threads + Sync, S: Source, K: Sink, E: Sink, G: Gate + Sync>(
    rt: &R,
    alloc: Global,
    words: &[String],
    source: &mut S,
    out: &mut K,
    err: &mut E,
    gate: &G,
) -> u8
    ensures ends { CommandEnds (texts words.now)
        (effects (side S.left S.faults source.old source.new)
        (side K.held K.faults out.old out.new) (side E.held E.faults err.old err.new))
        result }
    ensures complete { Complete (texts words.now)
        (effects (side S.left S.faults source.old source.new)
        (side K.held K.faults out.old out.new) (side E.held E.faults err.old err.new))
        result }
{
    dispatch(rt, alloc, words, source, out, err, gate)
}

/// Does what the words say.
fn dispatch<R: Threads + Sync, S: Source, K: Sink, E: Sink, G: Gate + Sync>(
    rt: &R,
    alloc: Global,
    words: &[String],
    source: &mut S,
    out: &mut K,
    err: &mut E,
    gate: &G,
) -> u8
    ensures { CommandEnds (texts words.now)
        (effects (side S.left S.faults source.old source.new)
        (side K.held K.faults out.old out.new) (side E.held E.faults err.old err.new))
        result }
{
    match read_words(alloc, words) {
        Ok(Command::Compile { choices, jobs }) => match compile_source(
            rt, alloc, choices, jobs, source, gate,
        ) {
            Ok(bytes) => match write_all(out, bytes.as_slice()) {
                Ok(()) => WRITTEN,
                Err(_) => WRITE_FAULT,
            },
            Err(Refusal::ReadFault) => tell(err, b"cmmc: read fault\n", READ_FAULT),
            Err(Refusal::Text(why)) => tell_refusal(alloc, err, &why),
        },
        Ok(Command::Check(words)) => check(rt, alloc, &words, source, out, err, gate),
        Ok(Command::List(choices, stage)) => list(rt, alloc, choices, stage, source, out, err),
        Ok(Command::Soak { seed, functions }) => {
            soak(rt, alloc, seed, functions, out, err, gate)
        }
        Ok(Command::Run(run)) => match run_source(alloc, run, source, out) {
            Ok(()) => WRITTEN,
            Err(RunRefusal::WriteFault) => WRITE_FAULT,
            Err(RunRefusal::ReadFault) => tell(err, b"cmmc: read fault\n", READ_FAULT),
            Err(RunRefusal::Image(refusal)) => tell_image(alloc, err, &refusal),
            Err(RunRefusal::UnknownEntry) => tell(err, b"cmmc: U3 UnknownEntry\n", USAGE),
            Err(RunRefusal::ArgumentUnfit) => tell(err, b"cmmc: U4 ArgumentUnfit\n", USAGE),
            Err(RunRefusal::OutOfMemory) => tell(err, b"cmmc: no memory\n", NO_MEMORY),
        },
        Err(WordsError::Words) => tell(err, b"cmmc: U1 Words\n", USAGE),
        Err(WordsError::ValueText) => tell(err, b"cmmc: U2 ValueText\n", USAGE),
        Err(WordsError::OutOfMemory) => tell(err, b"cmmc: no memory\n", NO_MEMORY),
    }
}
