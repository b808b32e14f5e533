//! What the words of a command line are: a command with all its values, or which mistake.
//!
//! Words are between single spaces, so a word may be empty; a row with nothing has no word. The wanted lines were not
//! written by this program: a script wrote them from the grammar alone.
use anyhow::Result;
use bs_words::{List, Name};
use command_line::{
    Alloc, Arg, CheckWords, Choices, Command, Moves, Order, RunWords, Stage, WordsError, read_words,
};
use std::alloc::{AllocError, Global};

/// What is shown of a row.
pub(crate) fn said_to(alloc: Global, row: &str) -> Result<Vec<u8>> {
    let mut said = told(alloc, row)?;
    said.push('\n')?;
    Ok(said.into_bytes())
}

/// What is said of a row's words.
fn told(alloc: Global, row: &str) -> Result<String, AllocError> {
    let words = words_of(alloc, row)?;
    of_words(alloc, words.as_slice())
}

/// The words of a row.
fn words_of(alloc: Global, row: &str) -> Result<Vec<String>, AllocError> {
    let mut words = Vec::new(alloc);
    if !row.is_empty() {
        for word in row.split(' ') {
            words.push(String::from_str(alloc, word)?)?;
        }
    }
    Ok(words)
}

/// The command that the words are, or which mistake.
fn of_words(alloc: Global, words: &[String]) -> Result<String, AllocError> {
    match read_words(alloc, words) {
        Ok(command) => of_command(alloc, &command),
        Err(WordsError::Words) => String::from_str(alloc, "U1"),
        Err(WordsError::ValueText) => String::from_str(alloc, "U2"),
        Err(WordsError::OutOfMemory) => String::from_str(alloc, "no memory"),
    }
}

/// A command with its values.
fn of_command(alloc: Global, command: &Command) -> Result<String, AllocError> {
    match command {
        Command::Compile { choices, jobs } => of_compile(alloc, *choices, *jobs),
        Command::Run(run) => of_run(alloc, run),
        Command::Check(check) => of_check(alloc, check),
        Command::List(choices, stage) => of_list(alloc, *choices, *stage),
        Command::Soak { seed, functions } => {
            format!(in alloc; "soak seed {seed} functions {functions}")
        }
    }
}

/// A compile with its values.
fn of_compile(alloc: Global, choices: Choices, jobs: u32) -> Result<String, AllocError> {
    let chosen = of_choices(alloc, choices)?;
    format!(in alloc; "compile jobs {jobs} {chosen}")
}

/// A run with its values.
fn of_run(alloc: Global, run: &RunWords) -> Result<String, AllocError> {
    let call = of_call(alloc, &run.entry, &run.args, &run.answers)?;
    let moves = of_moves(alloc, run.moves)?;
    let steps = run.steps;
    let stack = run.stack;
    let heap = run.heap;
    format!(in alloc; "run {call} steps {steps} stack {stack} heap {heap} moves {moves}")
}

/// A run of a text with its values.
fn of_check(alloc: Global, check: &CheckWords) -> Result<String, AllocError> {
    let call = of_call(alloc, &check.entry, &check.args, &check.answers)?;
    let fuel = check.fuel;
    let chosen = of_choices(alloc, check.choices)?;
    format!(in alloc; "check {call} fuel {fuel} {chosen}")
}

/// A listing with its stage.
fn of_list(alloc: Global, choices: Choices, stage: Stage) -> Result<String, AllocError> {
    let place = place_of(stage);
    let chosen = of_choices(alloc, choices)?;
    format!(in alloc; "list stage {place} {chosen}")
}

/// The name of a function that is called, its arguments, and what external calls give.
fn of_call(
    alloc: Global,
    entry: &Name,
    args: &List<Arg>,
    answers: &List<Arg>,
) -> Result<String, AllocError> {
    let mut text = String::new(alloc);
    put_name(&mut text, entry.as_bytes())?;
    put_items(alloc, &mut text, " args", args.as_slice())?;
    put_items(alloc, &mut text, " answers", answers.as_slice())?;
    Ok(text)
}

/// Puts a name, whose bytes are all printed ones, after what is there.
fn put_name(text: &mut String, name: &[u8]) -> Result<(), AllocError> {
    for byte in name {
        text.push(char::from(*byte))?;
    }
    Ok(())
}

/// Puts what items are, and each of them, after what is there.
fn put_items(
    alloc: Global,
    text: &mut String,
    title: &str,
    items: &[Arg],
) -> Result<(), AllocError> {
    text.push_str(title)?;
    for item in items {
        put_item(alloc, text, item)?;
    }
    Ok(())
}

/// Puts an item and a space before it: a word as a number without sign, or `@` and a name.
fn put_item(alloc: Global, text: &mut String, item: &Arg) -> Result<(), AllocError> {
    match item {
        Arg::Word(word) => text.push_str(format!(in alloc; " {word}")?.as_str()),
        Arg::Symbol(name) => put_symbol(text, name.as_bytes()),
    }
}

/// Puts a symbol after what is there.
fn put_symbol(text: &mut String, name: &[u8]) -> Result<(), AllocError> {
    text.push_str(" @")?;
    put_name(text, name)
}

/// When the mover asks.
fn of_moves(alloc: Global, moves: Moves) -> Result<String, AllocError> {
    match moves {
        Moves::Never => String::from_str(alloc, "never"),
        Moves::Every => String::from_str(alloc, "every"),
        Moves::Seed(seed) => format!(in alloc; "seed {seed}"),
    }
}

/// What is chosen, as the words say it.
fn of_choices(alloc: Global, choices: Choices) -> Result<String, AllocError> {
    let places = match choices.alloc {
        Alloc::Colour => "colour",
        Alloc::Linear => "linscan",
    };
    let order = match choices.order {
        Order::Plain => "none",
        Order::List => "list",
    };
    format!(in alloc; "alloc {places} schedule {order}")
}

/// The stage's place in the order of stages, from 0.
fn place_of(stage: Stage) -> u32 {
    match stage {
        Stage::Select => 0,
        Stage::CombAlloc => 1,
        Stage::Cse => 2,
        Stage::Dead => 3,
        Stage::Spill => 4,
        Stage::Split => 5,
        Stage::Alloc => 6,
        Stage::Linear => 7,
        Stage::Frames => 8,
        Stage::Code => 9,
    }
}
