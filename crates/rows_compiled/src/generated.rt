//! Texts of the generator, compiled and run: what each comes to, under every way in which the mover may ask, and by the
//! meaning of the text.
//!
//! A row has a seed and a number of functions. The text is compiled, its last function is run on 3 and 4 under `none`,
//! `every` and three drawn schedules, and `check` runs it by its meaning. What is printed is the outcome, once where all
//! six agree. The outcomes are from a generator and an evaluator of texts in another language.
use cmm_gen::generate;
use rows_lines::{Table, Top, Watch};
use std::alloc::AllocError;
use std::thread::Threads;

/// The options of the runs.
const MOVES: [&str; 5] = [
    "--moves=none",
    "--moves=every",
    "--moves=seed:1",
    "--moves=seed:2",
    "--moves=seed:3",
];

/// The line of a row. The only error is want of memory.
pub fn said_to<R: Threads + Sync, T: Top>(
    table: &Table<'_, R, T>,
    row: &str,
) -> Result<Vec<u8>, AllocError> {
    let alloc = table.alloc();
    let Some((seed, functions)) = numbers_of(row) else {
        return b"no numbers\n".to_vec(alloc);
    };
    if functions == 0 || functions > 1000 {
        return b"no text\n".to_vec(alloc);
    }
    let text = generate(alloc, seed, functions)?;
    let mut said = row.as_bytes().to_vec(alloc)?;
    said.extend_from_slice(b": ")?;
    said.extend_from_slice(all_outcomes(table, text.as_slice(), functions - 1)?.as_slice())?;
    Ok(said)
}

/// The seed and the number of functions that a row has.
pub(crate) fn numbers_of(row: &str) -> Option<(u64, u32)> {
    let (seed, functions) = row.split_once(" ")?;
    Some((seed.parse::<u64>().ok()?, functions.parse::<u32>().ok()?))
}

/// The outcome of the text's last function, of so many functions before it, once where all ways agree.
fn all_outcomes<R: Threads + Sync, T: Top>(
    table: &Table<'_, R, T>,
    text: &[u8],
    last: u32,
) -> Result<Vec<u8>, AllocError> {
    let alloc = table.alloc();
    let check = format!(in alloc; "check g{last} --args=3,4 --fuel=1000000000")?;
    let checked = table.answer_of(check.as_str(), text, Watch::Open)?;
    let image = table.answer_of("compile", text, Watch::Open)?;
    let first = first_line(checked.out.as_slice());
    let mut said = first.to_vec(alloc)?;
    for moves in MOVES {
        let run = format!(in alloc; "run g{last} --args=3,4 {moves}")?;
        let ran = table.answer_of(run.as_str(), image.out.as_slice(), Watch::Open)?;
        if first_line(ran.out.as_slice()) != first {
            said.extend_from_slice(moves.as_bytes())?;
            said.extend_from_slice(b" ")?;
            said.extend_from_slice(ran.out.as_slice())?;
        }
    }
    Ok(said)
}

/// The first line, with its end.
fn first_line(lines: &[u8]) -> &[u8] {
    for at in 0..lines.len() {
        if lines[at] == b'\n' {
            return &lines[..at + 1];
        }
    }
    lines
}
