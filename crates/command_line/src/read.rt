//! The command that words are.
//!
//! The words go along with the matches for the contracts alone: what a value is said to be is said of the
//! words, and the code looks at the matches. That values come from the matches alone no clause says.
ghost use Rattle.std.specs.Prelude.{◌≡◌, ◌≤◌, [], ◌∷◌, IfOk, IsErrOf, OnErr, count_by, Contains};
ghost use Rattle.clap.specs.Words.{first_value, found_of, subcommand_of, subcommand_rows_of};
ghost use Rattle.bs_words.specs.Contents.{contents};
ghost use Rattle.command_line.specs.declared.command.WordsError.{WordsError};
ghost use Rattle.command_line.specs.declared.form.CommandWord.{CommandWord};
ghost use Rattle.command_line.specs.declared.form.Slot.{Slot};
ghost use Rattle.bs_words.specs.Symbol.{IsSymbol};
ghost use Rattle.command_line.specs.Values.{IsSteps, IsSize, IsMoves, IsItems, IsCounted, IsSeed, IsStage, IsAlloc, IsOrder, Nothing, most_jobs, most_functions};
ghost use Rattle.command_line.specs.Words.{fills_slot, command_text, slots_of_command, AreCommandWords, IsForm, GivesSlot};
ghost use Rattle.command_line.specs.Program.{HasText, IsSlotText, Defaults, id_of, program};
ghost use Rattle.command_line.specs.Command.{CommandTree, Sets, SetsChoices, SetsCheckNumbers, SetsRunNumbers, MayWantMemory, TellsSlot, IsRun, IsCheck, Means, IsCommand, KeepsLimits};
ghost use Rattle.choices.specs.Defaults.{defaults};
ghost use Rattle.command_line.specs.Command.{default_jobs, default_steps, default_size, default_moves};
ghost use Rattle.command_line.specs.View.{texts, view, run_view, check_view};

use crate::command::{BadValue, CheckWords, Command, Moves, RunWords, WordsError};
use crate::form::{CommandWord, Slot, has_form};
use crate::parser::matches_of;
use crate::values;
use bs_words::{List, Name};
use choices::{Alloc, Choices, Order};
use clap::ArgMatches;
use rv_machine::Arg;
use stages::Stage;
use std::alloc::Global;

/// The most jobs of a compilation.
const MOST_JOBS: u32 = 64;

/// The most functions of a soak.
const MOST_FUNCTIONS: u32 = 1_000;

/// The text that stands for the slot's value, by the matches. The words are named by the contract alone.
fn text_for<'a>(others: &[String], given: &ArgMatches<'a>, slot: Slot) -> &'a str
    requires { HasText (texts others.now) slot (first_value (found_of given.now) (id_of slot)) }
    ensures { IsSlotText (texts others.now) slot result.now }
{
    let _others = others;
    match given.get_str(slot.id()) {
        Some(text) => text,
        None => unreachable!(),
    }
}

/// The name of the function that is called.
fn entry(alloc: Global, others: &[String], given: &ArgMatches<'_>) -> Result<Name, WordsError>
    requires once { count_by (fills_slot Slot.Plain) (texts others.now) ≤ 1 }
    requires stands { HasText (texts others.now) Slot.Plain
        (first_value (found_of given.now) (id_of Slot.Plain)) }
    ensures value { IfOk result (λ name. GivesSlot (texts others.now) Slot.Plain name × IsSymbol name) }
    ensures bad { IsErrOf result WordsError.ValueText
        → Nothing (λ name. GivesSlot (texts others.now) Slot.Plain name × IsSymbol name) }
    ensures formed { ¬ IsErrOf result WordsError.Words }
{
    values::name(alloc, text_for(others, given, Slot::Plain).as_bytes())
}

/// The items that an option lists, or none.
fn items(
    alloc: Global,
    others: &[String],
    given: &ArgMatches<'_>,
    slot: Slot,
) -> Result<List<Arg>, WordsError>
    requires once { count_by (fills_slot slot) (texts others.now) ≤ 1 }
    requires stands { HasText (texts others.now) slot
        (first_value (found_of given.now) (id_of slot)) }
    requires left_out { Defaults slot IsItems [] }
    ensures value { IfOk result (λ items.
        Sets (texts others.now) slot IsItems [] (contents items)) }
    ensures bad { IsErrOf result WordsError.ValueText
        → Nothing (Sets (texts others.now) slot IsItems []) }
    ensures formed { ¬ IsErrOf result WordsError.Words }
{
    values::items(alloc, text_for(others, given, slot).as_bytes())
}

/// The most instructions, or units of fuel.
fn steps(others: &[String], given: &ArgMatches<'_>, slot: Slot) -> Result<u64, BadValue>
    requires once { count_by (fills_slot slot) (texts others.now) ≤ 1 }
    requires stands { HasText (texts others.now) slot
        (first_value (found_of given.now) (id_of slot)) }
    requires left_out { Defaults slot IsSteps default_steps }
    ensures value { IfOk result (λ n. Sets (texts others.now) slot IsSteps default_steps n) }
    ensures bad { OnErr result (Nothing (Sets (texts others.now) slot IsSteps default_steps)) }
{
    let text = text_for(others, given, slot);
    values::steps(text.as_bytes()).ok_or(BadValue)
}

/// The bytes of the stack or of half of the heap.
fn size(others: &[String], given: &ArgMatches<'_>, slot: Slot) -> Result<u32, BadValue>
    requires once { count_by (fills_slot slot) (texts others.now) ≤ 1 }
    requires stands { HasText (texts others.now) slot
        (first_value (found_of given.now) (id_of slot)) }
    requires left_out { Defaults slot IsSize default_size }
    ensures value { IfOk result (λ n. Sets (texts others.now) slot IsSize default_size n) }
    ensures bad { OnErr result (Nothing (Sets (texts others.now) slot IsSize default_size)) }
{
    let text = text_for(others, given, slot);
    values::size(text.as_bytes()).ok_or(BadValue)
}

/// When the mover asks, and where it puts blocks.
fn moves(others: &[String], given: &ArgMatches<'_>) -> Result<Moves, BadValue>
    requires once { count_by (fills_slot Slot.Moves) (texts others.now) ≤ 1 }
    requires stands { HasText (texts others.now) Slot.Moves
        (first_value (found_of given.now) (id_of Slot.Moves)) }
    ensures value { IfOk result (λ moves.
        Sets (texts others.now) Slot.Moves IsMoves default_moves moves) }
    ensures bad { OnErr result (Nothing (Sets (texts others.now) Slot.Moves IsMoves default_moves)) }
{
    let text = text_for(others, given, Slot::Moves);
    values::moves(text.as_bytes()).ok_or(BadValue)
}

/// The run that the words after `run` are.
fn run(alloc: Global, others: &[String], given: &ArgMatches<'_>) -> Result<RunWords, WordsError>
    requires form { IsForm CommandWord.Run (texts others.now) }
    requires stands { (slot : Slot) → Contains (slots_of_command CommandWord.Run) slot
        → HasText (texts others.now) slot (first_value (found_of given.now) (id_of slot)) }
    ensures value { IfOk result (λ run. IsRun (texts others.now) (run_view run)) }
    ensures bad { IsErrOf result WordsError.ValueText
        → Nothing (IsRun (texts others.now)) }
    ensures formed { ¬ IsErrOf result WordsError.Words }
    ensures memory { IsErrOf result WordsError.OutOfMemory → SetsRunNumbers (texts others.now) }
{
    // First what takes no memory: a fault there is told whatever memory there is.
    Ok(RunWords {
        steps: steps(others, given, Slot::Steps)?,
        stack: size(others, given, Slot::Stack)?,
        heap: size(others, given, Slot::Heap)?,
        moves: moves(others, given)?,
        entry: entry(alloc, others, given)?,
        args: items(alloc, others, given, Slot::Args)?,
        answers: items(alloc, others, given, Slot::Answers)?,
    })
}

/// The run of a text that the words after `check` are.
fn check(alloc: Global, others: &[String], given: &ArgMatches<'_>) -> Result<CheckWords, WordsError>
    requires form { IsForm CommandWord.Check (texts others.now) }
    requires stands { (slot : Slot) → Contains (slots_of_command CommandWord.Check) slot
        → HasText (texts others.now) slot (first_value (found_of given.now) (id_of slot)) }
    ensures value { IfOk result (λ check. IsCheck (texts others.now) (check_view check)) }
    ensures bad { IsErrOf result WordsError.ValueText
        → Nothing (IsCheck (texts others.now)) }
    ensures formed { ¬ IsErrOf result WordsError.Words }
    ensures memory { IsErrOf result WordsError.OutOfMemory → SetsCheckNumbers (texts others.now) }
{
    // First what takes no memory, as above.
    Ok(CheckWords {
        fuel: steps(others, given, Slot::Fuel)?,
        choices: choices(others, given)?,
        entry: entry(alloc, others, given)?,
        args: items(alloc, others, given, Slot::Args)?,
        answers: items(alloc, others, given, Slot::Answers)?,
    })
}

/// What is chosen of how the text is compiled.
fn choices(others: &[String], given: &ArgMatches<'_>) -> Result<Choices, BadValue>
    requires alloc_once { count_by (fills_slot Slot.Alloc) (texts others.now) ≤ 1 }
    requires alloc_stands { HasText (texts others.now) Slot.Alloc
        (first_value (found_of given.now) (id_of Slot.Alloc)) }
    requires order_once { count_by (fills_slot Slot.Schedule) (texts others.now) ≤ 1 }
    requires order_stands { HasText (texts others.now) Slot.Schedule
        (first_value (found_of given.now) (id_of Slot.Schedule)) }
    ensures value { IfOk result (λ choices. SetsChoices (texts others.now) choices) }
    ensures bad { OnErr result (Nothing (SetsChoices (texts others.now))) }
{
    Ok(Choices {
        alloc: allocation(others, given)?,
        order: order(others, given)?,
    })
}

/// How registers get their places.
fn allocation(others: &[String], given: &ArgMatches<'_>) -> Result<Alloc, BadValue>
    requires once { count_by (fills_slot Slot.Alloc) (texts others.now) ≤ 1 }
    requires stands { HasText (texts others.now) Slot.Alloc
        (first_value (found_of given.now) (id_of Slot.Alloc)) }
    ensures value { IfOk result (λ alloc.
        Sets (texts others.now) Slot.Alloc IsAlloc defaults.alloc alloc) }
    ensures bad { OnErr result (Nothing (Sets (texts others.now) Slot.Alloc IsAlloc defaults.alloc)) }
{
    let text = text_for(others, given, Slot::Alloc);
    values::alloc(text.as_bytes()).ok_or(BadValue)
}

/// In which order lines stand.
fn order(others: &[String], given: &ArgMatches<'_>) -> Result<Order, BadValue>
    requires once { count_by (fills_slot Slot.Schedule) (texts others.now) ≤ 1 }
    requires stands { HasText (texts others.now) Slot.Schedule
        (first_value (found_of given.now) (id_of Slot.Schedule)) }
    ensures value { IfOk result (λ order.
        Sets (texts others.now) Slot.Schedule IsOrder defaults.order order) }
    ensures bad { OnErr result (Nothing (Sets (texts others.now) Slot.Schedule IsOrder defaults.order)) }
{
    let text = text_for(others, given, Slot::Schedule);
    values::order(text.as_bytes()).ok_or(BadValue)
}

/// The most functions that are compiled at a time.
fn jobs(others: &[String], given: &ArgMatches<'_>) -> Result<u32, BadValue>
    requires once { count_by (fills_slot Slot.Jobs) (texts others.now) ≤ 1 }
    requires stands { HasText (texts others.now) Slot.Jobs
        (first_value (found_of given.now) (id_of Slot.Jobs)) }
    ensures value { IfOk result (λ n.
        Sets (texts others.now) Slot.Jobs (IsCounted most_jobs) default_jobs n) }
    ensures bad { OnErr result (Nothing (Sets (texts others.now) Slot.Jobs (IsCounted most_jobs) default_jobs)) }
{
    let text = text_for(others, given, Slot::Jobs);
    values::counted(text.as_bytes(), MOST_JOBS).ok_or(BadValue)
}

/// The stage whose text is written.
fn stage(others: &[String], given: &ArgMatches<'_>) -> Result<Stage, BadValue>
    requires once { count_by (fills_slot Slot.Plain) (texts others.now) ≤ 1 }
    requires stands { HasText (texts others.now) Slot.Plain
        (first_value (found_of given.now) (id_of Slot.Plain)) }
    ensures value { IfOk result (λ stage. TellsSlot (texts others.now) Slot.Plain IsStage stage) }
    ensures bad { OnErr result (Nothing (TellsSlot (texts others.now) Slot.Plain IsStage)) }
{
    let text = text_for(others, given, Slot::Plain);
    values::stage(text.as_bytes()).ok_or(BadValue)
}

/// What the generator of a soak's text starts from.
fn seed(others: &[String], given: &ArgMatches<'_>) -> Result<u64, BadValue>
    requires once { count_by (fills_slot Slot.Seed) (texts others.now) ≤ 1 }
    requires stands { HasText (texts others.now) Slot.Seed
        (first_value (found_of given.now) (id_of Slot.Seed)) }
    ensures value { IfOk result (λ n. TellsSlot (texts others.now) Slot.Seed IsSeed n) }
    ensures bad { OnErr result (Nothing (TellsSlot (texts others.now) Slot.Seed IsSeed)) }
{
    let text = text_for(others, given, Slot::Seed);
    values::seed(text.as_bytes()).ok_or(BadValue)
}

/// How many functions a soak's text has.
fn functions(others: &[String], given: &ArgMatches<'_>) -> Result<u32, BadValue>
    requires once { count_by (fills_slot Slot.Functions) (texts others.now) ≤ 1 }
    requires stands { HasText (texts others.now) Slot.Functions
        (first_value (found_of given.now) (id_of Slot.Functions)) }
    ensures value { IfOk result (λ n.
        TellsSlot (texts others.now) Slot.Functions (IsCounted most_functions) n) }
    ensures bad { OnErr result (Nothing (TellsSlot (texts others.now) Slot.Functions (IsCounted most_functions))) }
{
    let text = text_for(others, given, Slot::Functions);
    values::counted(text.as_bytes(), MOST_FUNCTIONS).ok_or(BadValue)
}

/// The soak that the words after `soak` are.
fn soak(others: &[String], given: &ArgMatches<'_>) -> Result<Command, BadValue>
    requires form { IsForm CommandWord.Soak (texts others.now) }
    requires stands { (slot : Slot) → Contains (slots_of_command CommandWord.Soak) slot
        → HasText (texts others.now) slot (first_value (found_of given.now) (id_of slot)) }
    ensures value { IfOk result (λ command.
        Means (texts others.now) CommandWord.Soak (view command)) }
    ensures bad { OnErr result (Nothing (Means (texts others.now) CommandWord.Soak)) }
{
    Ok(Command::Soak {
        seed: seed(others, given)?,
        functions: functions(others, given)?,
    })
}

/// The command that the words after the first are.
fn meant(
    alloc: Global,
    command: CommandWord,
    others: &[String],
    given: &ArgMatches<'_>,
) -> Result<Command, WordsError>
    requires form { IsForm command (texts others.now) }
    requires stands { (slot : Slot) → Contains (slots_of_command command) slot
        → HasText (texts others.now) slot (first_value (found_of given.now) (id_of slot)) }
    ensures value { IfOk result (λ tree. Means (texts others.now) command (view tree)) }
    ensures bad { IsErrOf result WordsError.ValueText
        → Nothing (Means (texts others.now) command) }
    ensures formed { ¬ IsErrOf result WordsError.Words }
    ensures memory { IsErrOf result WordsError.OutOfMemory → MayWantMemory (texts others.now) command }
{
    match command {
        CommandWord::Compile => Ok(Command::Compile {
            choices: choices(others, given)?,
            jobs: jobs(others, given)?,
        }),
        CommandWord::Run => Ok(Command::Run(run(alloc, others, given)?)),
        CommandWord::Check => Ok(Command::Check(check(alloc, others, given)?)),
        CommandWord::List => Ok(Command::List(choices(others, given)?, stage(others, given)?)),
        CommandWord::Soak => Ok(soak(others, given)?),
    }
}

/// The command that the matches are.
fn taken(
    alloc: Global,
    words: &[String],
    others: &[String],
    matches: &ArgMatches<'_>,
) -> Result<Command, WordsError>
    requires form { (command : CommandWord) × (texts words.now ≡ command_text command ∷ texts others.now)
        × IsForm command (texts others.now) }
    requires matches { subcommand_rows_of matches.now ≡ subcommand_of program (texts words.now) }
    ensures command { IfOk result (λ command. IsCommand (texts words.now) (view command)) }
    ensures bad { IsErrOf result WordsError.ValueText → Nothing (IsCommand (texts words.now)) }
    ensures formed { ¬ IsErrOf result WordsError.Words }
    ensures memory { IsErrOf result WordsError.OutOfMemory → (command : CommandWord)
        × (texts words.now ≡ command_text command ∷ texts others.now) × MayWantMemory (texts others.now) command }
{
    let _words = words;
    let Some((name, given)) = matches.subcommand() else {
        unreachable!();
    };
    let Some(command) = CommandWord::named(name.as_bytes()) else {
        unreachable!();
    };
    meant(alloc, command, others, given)
}

/// The command that the words are, the program's own name left out.
///
/// - `compile`, `check` and `list` have the option `--alloc=`, which is `colour`, the default, or `linscan`, and the
///   option `--schedule=`, which is `none`, the default, or `list`.
/// - `compile` has the option `--jobs=`, a decimal number from 1 to 64, and 1 by default.
/// - `run ENTRY` has the name of a function and these options. ENTRY is 1 to 255 bytes, each 0x21 to
///   0x7E.
///   - `--args=` and `--answers=` list items with single commas between them: a decimal number from
///     -9223372036854775808 to 9223372036854775807, read as a word of 64 bits, or `@` and the name of
///     a data symbol without a comma. By default there is none.
///   - `--steps=` is a decimal number of instructions, at most 1,000,000,000,000, by default
///     100,000,000.
///   - `--stack=` and `--heap=` are decimal numbers of bytes, multiples of 16 and at most 67,108,864,
///     by default 1,048,576.
///   - `--moves=` is `none`, the default, `every`, or `seed:` and a decimal seed from 0 to
///     18446744073709551615.
/// - `check ENTRY` has the name of a function, `--args=` and `--answers=` as `run` has them, and `--fuel=`,
///   a decimal number of units with the limit and the default of `--steps=`.
/// - `list STAGE` has the name of a stage: `select`, `comballoc`, `cse`, `dead`, `spill`, `split`, `alloc`,
///   `linear`, `frames` or `code`.
/// - `soak` has `--seed=`, a decimal number below 2 to the 64th, and `--functions=`, one from 1 to 1,000.
///   Both have to be there.
///
/// Zeros may lead a number. The order of the words after the first is free.
///
/// # Errors
///
/// `Words` exactly where they have the form of no command, whatever memory there is. Where they have it,
/// `ValueText` where a value is not in its grammar or outside its limits, so that the words are no command, and
/// `OutOfMemory` where memory ran out.
pub fn read_words(alloc: Global, words: &[String]) -> Result<Command, WordsError>
    ensures command { IfOk result (λ command. IsCommand (texts words.now) (view command)) }
    ensures only { IfOk result (λ command.
        (other : CommandTree) → IsCommand (texts words.now) other → other ≡ view command) }
    ensures limits { IfOk result (λ command. KeepsLimits (view command)) }
    ensures misformed { IsErrOf result WordsError.Words → ¬ AreCommandWords (texts words.now) }
    ensures formed { ¬ IsErrOf result WordsError.Words → AreCommandWords (texts words.now) }
    ensures bad { IsErrOf result WordsError.ValueText
        → Nothing (IsCommand (texts words.now)) }
{
    let Some((first, others)) = words.split_first() else {
        return Err(WordsError::Words);
    };
    let Some(command) = CommandWord::named(first.as_bytes()) else {
        return Err(WordsError::Words);
    };
    if !has_form(command, others) {
        return Err(WordsError::Words);
    }
    let matches = matches_of(alloc, words)?;
    taken(alloc, words, others, &matches)
}
