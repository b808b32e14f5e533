//! The parser that reads words of the form, and what it is given.
//!
//! It is given names, defaults, and that there is no help: no type of a value, and not that an option has
//! to be there, which the form has tested. A default is a text, read as a given value is.
ghost use Rattle.std.specs.Prelude.{◌≡◌, [], ◌∷◌, IfOk, IsErrOf, false};
ghost use Rattle.clap.specs.declared.builder.command.Command.TheViews.{out-Command};
ghost use Rattle.clap.specs.Words.{app_of, new_rule, rule_of, subcommand_of, subcommand_rows_of, with_subcommand};
ghost use Rattle.command_line.specs.declared.command.WordsError.{WordsError};
ghost use Rattle.command_line.specs.Program.{option_rule, slot_rule, command_app, command_shape, top_app, program};
ghost use Rattle.command_line.specs.View.{texts};
ghost use Rattle.command_line.specs.Words.{AreCommandWords};

use crate::command::WordsError;
use crate::form::{CommandWord, Slot};
use clap::error::ErrorKind;
use clap::{Arg, ArgMatches, Command};
use std::alloc::{AllocError, Global};

/// A word that is no option.
fn plain<'a>(alloc: Global, name: &'a str) -> Arg<'a>
    ensures rule { rule_of result ≡ new_rule name.entry.now }
    ensures local { result.global ≡ false }
{
    Arg::new(alloc, name)
}

/// An option that has to be there.
fn option<'a>(alloc: Global, name: &'a str) -> Arg<'a>
    ensures rule { rule_of result ≡ option_rule name.entry.now [] }
    ensures local { result.global ≡ false }
{
    Arg::new(alloc, name).long(name)
}

/// An option with the text that stands for its value by default.
fn option_or<'a>(alloc: Global, name: &'a str, default: &'a str) -> Arg<'a>
    ensures rule { rule_of result ≡ option_rule name.entry.now (default.entry.now ∷ []) }
    ensures local { result.global ≡ false }
{
    Arg::new(alloc, name).long(name).default_value(default)
}

/// What the parser is given of a slot.
fn argument<'a>(alloc: Global, slot: Slot) -> Arg<'a>
    ensures rule { rule_of result ≡ slot_rule slot }
    ensures local { result.global ≡ false }
{
    match slot {
        Slot::Plain => plain(alloc, "word"),
        Slot::Args => option_or(alloc, "args", ""),
        Slot::Answers => option_or(alloc, "answers", ""),
        Slot::Steps => option_or(alloc, "steps", "100000000"),
        Slot::Stack => option_or(alloc, "stack", "1048576"),
        Slot::Heap => option_or(alloc, "heap", "1048576"),
        Slot::Moves => option_or(alloc, "moves", "none"),
        Slot::Fuel => option_or(alloc, "fuel", "100000000"),
        Slot::Jobs => option_or(alloc, "jobs", "1"),
        Slot::Alloc => option_or(alloc, "alloc", "colour"),
        Slot::Schedule => option_or(alloc, "schedule", "none"),
        Slot::Seed => option(alloc, "seed"),
        Slot::Functions => option(alloc, "functions"),
    }
}

/// What the parser is given of a command.
fn subcommand<'a>(alloc: Global, command: CommandWord) -> Result<Command<'a>, AllocError>
    ensures app { IfOk result (λ parser. app_of parser ≡ command_app command) }
    ensures local { IfOk result (λ parser. (out-Command parser).has_globals ≡ false) }
{
    let name: &'a str = command.word();
    let mut parser = Command::new(alloc, name);
    let slots = command.slots();
    for slot in slots {
        parser = parser.arg(argument(alloc, *slot))?;
    }
    Ok(parser)
}

/// The parser with one more command.
fn with_command<'a>(
    alloc: Global,
    parser: Command<'a>,
    command: CommandWord,
) -> Result<Command<'a>, AllocError>
    ensures { IfOk result (λ more.
        app_of more ≡ with_subcommand (app_of parser.entry) (command_shape command)) }
{
    let added = subcommand(alloc, command)?;
    parser.subcommand(added)
}

/// The parser of no command. It knows no help and no version.
fn no_commands<'a>(alloc: Global) -> Command<'a>
    ensures { app_of result ≡ top_app }
{
    let name: &'a str = "cmmc";
    Command::new(alloc, name)
        .no_binary_name(true)
        .disable_help_flag(true)
        .disable_help_subcommand(true)
}

/// The parser of all commands.
fn parser<'a>(alloc: Global) -> Result<Command<'a>, AllocError>
    ensures { IfOk result (λ parser. app_of parser ≡ program) }
{
    let none = no_commands(alloc);
    let one = with_command(alloc, none, CommandWord::Compile)?;
    let two = with_command(alloc, one, CommandWord::Run)?;
    let three = with_command(alloc, two, CommandWord::Check)?;
    let four = with_command(alloc, three, CommandWord::List)?;
    with_command(alloc, four, CommandWord::Soak)
}

/// What the parser makes of words of the form, which it refuses for want of memory alone.
pub(crate) fn matches_of(alloc: Global, words: &[String]) -> Result<ArgMatches<'_>, WordsError>
    requires { AreCommandWords (texts words.now) }
    ensures matches { IfOk result (λ matches.
        subcommand_rows_of matches ≡ subcommand_of program (texts words.now)) }
    ensures formed { ¬ IsErrOf result WordsError.Words }
    ensures good { ¬ IsErrOf result WordsError.ValueText }
{
    match parser(alloc)?.try_get_matches_from(words) {
        Ok(matches) => Ok(matches),
        Err(error) => match error.kind() {
            ErrorKind::OutOfMemory => Err(WordsError::OutOfMemory),
            _ => unreachable!(),
        },
    }
}
