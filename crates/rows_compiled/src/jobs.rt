//! That `compile` shares functions among threads, and that its image does not show it.
//!
//! No contract can say that a thread was started. So a row of `held` has a number of jobs, under which a file of two
//! functions is compiled, and function 0 is held until function 1 has been let in: under two jobs it is seen, and one
//! thread alone would only wait.
//!
//! A row of `shared` has a number of jobs, a seed and a number of functions. Shown is which functions were heard of while
//! the generator's text was compiled under so many jobs, and whether the image is that of one job.
use crate::generated::numbers_of;
use cmm_gen::generate;
use rows_lines::{Counting, Holding, Table, Top, Watch};
use std::alloc::AllocError;
use std::thread::Threads;

const TWO_FUNCTIONS: &str =
    "(function \"f\" (x:int) (+ x 1))\n(function \"g\" (x:int) (app \"f\" x int))\n";

/// The line of a row of `held`. The only error is want of memory.
pub fn held<R: Threads + Sync, T: Top>(
    table: &Table<'_, R, T>,
    jobs: &str,
) -> Result<Vec<u8>, AllocError> {
    let alloc = table.alloc();
    let two = TWO_FUNCTIONS.as_bytes();
    let holding = Holding::new();
    let image = image_of(table, two, jobs, Watch::Held(&holding))?;
    let plain = image_of(table, two, "1", Watch::Open)?;
    let seen = holding.has_seen();
    let same = is_same(image.as_slice(), plain.as_slice());
    let line = format!(in alloc;
        "2 functions, {jobs} jobs: function 1 seen {seen}, same image {same}\n"
    )?;
    Ok(line.into_bytes())
}

/// The line of a row of `shared`. The only error is want of memory.
pub fn shared<R: Threads + Sync, T: Top>(
    table: &Table<'_, R, T>,
    row: &str,
) -> Result<Vec<u8>, AllocError> {
    let alloc = table.alloc();
    let Some((jobs, numbers)) = row.split_once(" ") else {
        return b"no numbers\n".to_vec(alloc);
    };
    let Some((seed, functions)) = numbers_of(numbers) else {
        return b"no numbers\n".to_vec(alloc);
    };
    if functions == 0 || functions > 1000 {
        return b"no text\n".to_vec(alloc);
    }
    let text = generate(alloc, seed, functions)?;
    let counting = Counting::new();
    let image = image_of(table, text.as_slice(), jobs, Watch::Counted(&counting))?;
    let plain = image_of(table, text.as_slice(), "1", Watch::Open)?;
    let entered = counting.entered();
    let left = counting.left();
    let same = is_same(image.as_slice(), plain.as_slice());
    let line = format!(in alloc;
        "{functions} functions, --jobs={jobs}: entered {entered}, left {left}, same image {same}\n"
    )?;
    Ok(line.into_bytes())
}

/// Whether there is an image, and it is the other.
fn is_same(image: &[u8], other: &[u8]) -> bool {
    !image.is_empty() && image == other
}

/// The image of the text. It is empty where there is none.
fn image_of<R: Threads + Sync, T: Top>(
    table: &Table<'_, R, T>,
    text: &[u8],
    jobs: &str,
    watch: Watch,
) -> Result<Vec<u8>, AllocError> {
    let alloc = table.alloc();
    let words = format!(in alloc; "compile --jobs={jobs}")?;
    let answer = table.answer_of(words.as_str(), text, watch)?;
    if answer.status == 0 {
        Ok(answer.out)
    } else {
        Ok(Vec::new(alloc))
    }
}
