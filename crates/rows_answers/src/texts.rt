//! Texts that are as long as a number says.
use std::alloc::{AllocError, Global};

/// A piece of a text.
#[derive(Clone, Copy)]
enum Piece {
    Words(&'static str),
    /// Words, so often.
    Often(&'static str, u32),
    Number(u64),
    /// Two words so often, with the numbers from 0 on between them.
    Numbered(&'static str, &'static str, u32),
    /// So many cases, each with a value of its own.
    Cases(u32),
}

impl Piece {
    fn put(self, alloc: Global, text: &mut Vec<u8>) -> Result<(), AllocError> {
        match self {
            Piece::Words(words) => text.extend_from_slice(words.as_bytes()),
            Piece::Often(words, times) => put_often(text, words.as_bytes(), times),
            Piece::Number(number) => put_number(alloc, text, number),
            Piece::Numbered(before, after, times) => {
                put_numbered(alloc, text, before, after, times)
            }
            Piece::Cases(cases) => put_cases(alloc, text, cases),
        }
    }
}

fn put_often(text: &mut Vec<u8>, words: &[u8], times: u32) -> Result<(), AllocError> {
    for _ in 0..times {
        text.extend_from_slice(words)?;
    }
    Ok(())
}

fn put_number(alloc: Global, text: &mut Vec<u8>, number: u64) -> Result<(), AllocError> {
    let digits = format!(in alloc; "{number}")?;
    text.extend_from_slice(digits.as_bytes())
}

fn put_numbered(
    alloc: Global,
    text: &mut Vec<u8>,
    before: &str,
    after: &str,
    times: u32,
) -> Result<(), AllocError> {
    for number in 0..times {
        let words = format!(in alloc; "{before}{number}{after}")?;
        text.extend_from_slice(words.as_bytes())?;
    }
    Ok(())
}

fn put_cases(alloc: Global, text: &mut Vec<u8>, cases: u32) -> Result<(), AllocError> {
    for index in 0..cases {
        let value = 1000 + u64::from(index);
        let words = format!(in alloc; " case {index}: {value}")?;
        text.extend_from_slice(words.as_bytes())?;
    }
    Ok(())
}

/// The text of these pieces.
fn joined(alloc: Global, pieces: &[Piece]) -> Result<Vec<u8>, AllocError> {
    let mut text = Vec::new(alloc);
    for piece in pieces {
        piece.put(alloc, &mut text)?;
    }
    Ok(text)
}

/// A function whose body is so many forms in one another, with x innermost.
fn nested(
    alloc: Global,
    open: &'static str,
    times: u32,
    close: &'static str,
) -> Result<Vec<u8>, AllocError> {
    let pieces = [
        Piece::Words("(function \"n\" (x:int) "),
        Piece::Often(open, times),
        Piece::Words("x"),
        Piece::Often(close, times),
        Piece::Words(")"),
    ];
    joined(alloc, &pieces)
}

/// The text of a form. One that has no such form is empty.
pub(crate) fn text_of(alloc: Global, form: &str, number: u32) -> Result<Vec<u8>, AllocError> {
    match form {
        // The number is how many bytes the text has.
        "spaces" => joined(alloc, &[Piece::Often(" ", number)]),
        // How many bytes the name of a function has.
        "name" => named(alloc, number),
        // How many sums nest, or tries.
        "nest" => nested(alloc, "(+ x ", number, ")"),
        "tries" => nested(alloc, "(try ", number, " with e e)"),
        // How many parameters a function has.
        "params" => of_params(alloc, number),
        // How many arguments a call has, or an external call.
        "arguments" => of_arguments(alloc, number),
        "outside" => of_outside(alloc, number),
        // How many words a block has, the last of which is read.
        "cells" => of_cells(alloc, number),
        // How many zeros the static data have.
        "static" => of_zeros(alloc, number),
        // The last of so many zeros is written and read.
        "last" => of_last(alloc, number),
        // How many indexes a switch has, each with a case of its own.
        "cases" => of_cases(alloc, number),
        _ => Ok(Vec::new(alloc)),
    }
}

fn named(alloc: Global, bytes: u32) -> Result<Vec<u8>, AllocError> {
    let pieces = [
        Piece::Words("(function \""),
        Piece::Often("f", bytes),
        Piece::Words("\" () 1)"),
    ];
    joined(alloc, &pieces)
}

fn of_params(alloc: Global, params: u32) -> Result<Vec<u8>, AllocError> {
    let pieces = [
        Piece::Words("(function \"p\" ("),
        Piece::Numbered("a", ":int ", params),
        Piece::Words(") (- a0 a15))"),
    ];
    joined(alloc, &pieces)
}

fn of_arguments(alloc: Global, arguments: u32) -> Result<Vec<u8>, AllocError> {
    let pieces = [
        Piece::Words("(function \"p\" ("),
        Piece::Numbered("a", ":int ", 16),
        Piece::Words(") (- a0 a15)) (function \"q\" (x:int) (app \"p\" "),
        Piece::Numbered("(+ x ", ") ", arguments),
        Piece::Words("int))"),
    ];
    joined(alloc, &pieces)
}

fn of_outside(alloc: Global, arguments: u32) -> Result<Vec<u8>, AllocError> {
    let pieces = [
        Piece::Words("(function \"e\" (x:int) (extcall \"see\" "),
        Piece::Numbered("(+ x ", ") ", arguments),
        Piece::Words("unit))"),
    ];
    joined(alloc, &pieces)
}

fn of_cells(alloc: Global, words: u32) -> Result<Vec<u8>, AllocError> {
    let pieces = [
        Piece::Words("(function \"b\" (x:int) (let p (alloc "),
        Piece::Number(1024 * u64::from(words)),
        Piece::Numbered(" ", "1", words),
        Piece::Words(") (load int (+a (+a p "),
        Piece::Number(8 * u64::from(words)),
        Piece::Words(") -8))))"),
    ];
    joined(alloc, &pieces)
}

fn of_zeros(alloc: Global, zeros: u32) -> Result<Vec<u8>, AllocError> {
    let pieces = [
        Piece::Words("(\"s\": skip "),
        Piece::Number(u64::from(zeros)),
        Piece::Words(")"),
    ];
    joined(alloc, &pieces)
}

fn of_last(alloc: Global, zeros: u32) -> Result<Vec<u8>, AllocError> {
    let pieces = [
        Piece::Words("(\"s\": skip "),
        Piece::Number(u64::from(zeros)),
        Piece::Words(" \"t\":) (function \"l\" (x:int) (store unsigned byte (- \"t\" 1) x) "),
        Piece::Words("(load unsigned byte (- \"t\" 1)))"),
    ];
    joined(alloc, &pieces)
}

fn of_cases(alloc: Global, indexes: u32) -> Result<Vec<u8>, AllocError> {
    let pieces = [
        Piece::Words("(function \"c\" (x:int) (switch "),
        Piece::Number(u64::from(indexes)),
        Piece::Words(" x"),
        Piece::Cases(indexes),
        Piece::Words("))"),
    ];
    joined(alloc, &pieces)
}
