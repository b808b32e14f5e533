//! The texts that the generator draws, written as they are drawn: each choice takes the next word of the generator of
//! the seed, in the order in which the text is written.
ghost use Rattle.std.specs.Prelude.{◌≡◌, ◌<◌, ◌≤◌, ◌++◌, codes, OnOk, IfOk};
ghost use Rattle.bs_words.specs.Contents.{contents};
ghost use Rattle.cmm_gen.specs.Drawn.{Choice, Attempt, drawn_text, body_text, function_text, text_of};
ghost use Rattle.cmm_gen.specs.Generated.{IsProperText};
ghost use Rattle.cmm_gen.specs.Drawing.{draw_number, variable, four, draw_expression, deepest, function, generator, drawn};

use bs_words::List;
use rand_core::SeedableRng;
use rand_core::utils::NextWord;
use rand_pcg::Lcg64Xsh32;
use std::alloc::{AllocError, Global};

/// How deep forms nest in an expression of a function.
const DEPTH: u32 = 3;

/// Writes a number from -100 to 100: a word mod 201, less 100.
fn write_number(text: &mut String, words: &mut Lcg64Xsh32) -> Result<(), AllocError>
    ensures text { OnOk result (text.new.bytes.items
        ≡ text.old.bytes.items ++ drawn_text (draw_number words.old).0) }
    ensures words { words.new ≡ (draw_number words.old).1 }
{
    let draw = words.next_word() % 201;
    if draw < 100 {
        write!(text, "-{}", 100 - draw)
    } else {
        write!(text, "{}", draw - 100)
    }
}

/// Writes the name of a parameter: `x` where a word is even, else `y`.
fn write_variable(text: &mut String, words: &mut Lcg64Xsh32) -> Result<(), AllocError>
    ensures text { OnOk result
        (text.new.bytes.items ≡ text.old.bytes.items ++ drawn_text (variable words.old).0) }
    ensures words { words.new ≡ (variable words.old).1 }
{
    if words.next_word() % 2 == 0 {
        text.push_str("x")
    } else {
        text.push_str("y")
    }
}

/// Writes two expressions of this depth, with a space between them, after what opens their form and before what
/// closes it.
#[cycle(expression)]
fn write_two(
    text: &mut String,
    words: &mut Lcg64Xsh32,
    depth: u32,
    opening: &str,
    closing: &str,
) -> Result<(), AllocError>
    ensures text { OnOk result (text.new.bytes.items ≡ text.old.bytes.items
        ++ (opening.now ++ drawn_text (draw_expression depth words.old).0
        ++ codes " " ++ drawn_text (draw_expression depth (draw_expression depth words.old).1).0
        ++ closing.now)) }
    ensures words { OnOk result (words.new ≡ (draw_expression depth (draw_expression depth words.old).1).1) }
{
    text.push_str(opening)?;
    write_expression(text, words, depth)?;
    text.push_str(" ")?;
    write_expression(text, words, depth)?;
    text.push_str(closing)
}

/// Writes `(if (< A B) C D)`, whose parts have this depth.
#[cycle(expression)]
fn write_choice(text: &mut String, words: &mut Lcg64Xsh32, depth: u32) -> Result<(), AllocError>
    ensures text { OnOk result (text.new.bytes.items ≡ text.old.bytes.items
        ++ drawn_text (four (draw_expression depth) Choice words.old).0) }
    ensures words { OnOk result (words.new ≡ (four (draw_expression depth) Choice words.old).1) }
{
    write_two(text, words, depth, "(if (< ", ") ")?;
    write_two(text, words, depth, "", ")")
}

/// Writes `(try (if (< A B) (raise 1) C) with z D)`, whose parts have this depth.
#[cycle(expression)]
fn write_attempt(text: &mut String, words: &mut Lcg64Xsh32, depth: u32) -> Result<(), AllocError>
    ensures text { OnOk result (text.new.bytes.items ≡ text.old.bytes.items
        ++ drawn_text (four (draw_expression depth) Attempt words.old).0) }
    ensures words { OnOk result (words.new ≡ (four (draw_expression depth) Attempt words.old).1) }
{
    write_two(text, words, depth, "(try (if (< ", ") (raise 1) ")?;
    write_expression(text, words, depth)?;
    text.push_str(") with z ")?;
    write_expression(text, words, depth)?;
    text.push_str(")")
}

/// Writes an expression of this depth. A word mod 8 chooses its form, and the parts of that have a depth less. At
/// depth 0 a word mod 2 chooses among the first two forms, which have no parts.
#[cycle(expression)]
fn write_expression(text: &mut String, words: &mut Lcg64Xsh32, depth: u32) -> Result<(), AllocError>
    ensures text { OnOk result (text.new.bytes.items ≡ text.old.bytes.items
        ++ drawn_text (draw_expression depth words.old).0) }
    ensures words { OnOk result (words.new ≡ (draw_expression depth words.old).1) }
{
    if depth == 0 {
        return if words.next_word() % 2 == 0 {
            write_number(text, words)
        } else {
            write_variable(text, words)
        };
    }
    let depth = depth - 1;
    match words.next_word() % 8 {
        0 => write_number(text, words),
        1 => write_variable(text, words),
        2 => write_two(text, words, depth, "(+ ", ")"),
        3 => write_two(text, words, depth, "(- ", ")"),
        // `(*` would open a comment.
        4 => write_two(text, words, depth, "( * ", ")"),
        5 => write_choice(text, words, depth),
        // The header of a block of two cells, which hold integers.
        6 => write_two(text, words, depth, "(load int (alloc 2299 ", "))"),
        _ => write_attempt(text, words, depth),
    }
}

/// Writes the body of the function of this number: an expression, which each function but the first adds to what the
/// function before it gives for `p` and `q`.
fn write_body(text: &mut String, words: &mut Lcg64Xsh32, number: u32) -> Result<(), AllocError>
    ensures text { OnOk result (text.new.bytes.items ≡ text.old.bytes.items
        ++ body_text number (draw_expression deepest words.old).0) }
    ensures words { OnOk result (words.new ≡ (draw_expression deepest words.old).1) }
{
    if number == 0 {
        return write_expression(text, words, DEPTH);
    }
    write!(text, "(+ (app \"g{}\" p q int) ", number - 1)?;
    write_expression(text, words, DEPTH)?;
    text.push_str(")")
}

/// Writes the line of the function of this number, which binds `p` and `q` to an expression each.
fn write_function(text: &mut String, words: &mut Lcg64Xsh32, number: u32) -> Result<(), AllocError>
    ensures text { OnOk result (text.new.bytes.items ≡ text.old.bytes.items
        ++ function_text number (function words.old).0) }
    ensures words { OnOk result (words.new ≡ (function words.old).1) }
{
    write!(text, "(function \"g{number}\" (x:int y:int) (let p ")?;
    write_expression(text, words, DEPTH)?;
    text.push_str(" (let q ")?;
    write_expression(text, words, DEPTH)?;
    text.push_str(" ")?;
    write_body(text, words, number)?;
    text.push_str(")))\n")
}

/// The text of a file of so many functions, from 1 to 1,000, as the words of a seed draw it.
///
/// Function J, from 0, is the line `(function "gJ" (x:int y:int) (let p E (let q E B)))`. Each `E` is an
/// expression that is drawn for it. `B` is such an `E` in function 0, and else `(+ (app "gI" p q int) E)`, where I is
/// J - 1.
///
/// The text has no fault, and no run of its file is improper, whichever function it enters and with whatever words.
///
/// # Errors
///
/// `AllocError` where memory runs out.
pub fn generate(alloc: Global, seed: u64, functions: u32) -> Result<List<u8>, AllocError>
    requires some { 1 ≤ functions }
    requires few { functions ≤ 1000 }
    ensures text { IfOk result (λ text.
        contents text ≡ text_of (drawn functions (generator seed))) }
    ensures proper { IfOk result (λ text. IsProperText (contents text)) }
{
    let mut words = Lcg64Xsh32::seed_from_u64(seed);
    let mut text = String::new(alloc);
    for number in 0..functions {
        write_function(&mut text, &mut words, number)?;
    }
    Ok(List::from_vec(text.into_bytes()))
}
