//! What is shown of the text of a stage.
use std::alloc::{AllocError, Global};

/// What is shown of a text, by a word that says which part.
pub(crate) fn shown_of(alloc: Global, part: &str, text: &str) -> Result<Vec<u8>, AllocError> {
    match part {
        "whole" => text.as_bytes().to_vec(alloc),
        "first" => first_of(alloc, text),
        "top" => top_of(alloc, text),
        "slots" => slots_of(alloc, text),
        "sizes" => sizes_of(alloc, text),
        operation => lines_of(alloc, operation, text),
    }
}

/// The first line of the text.
fn first_of(alloc: Global, text: &str) -> Result<Vec<u8>, AllocError> {
    let line = match text.split_once('\n') {
        Some((line, _)) => line,
        None => "nothing",
    };
    Ok(format!(in alloc; "{line}\n")?.into_bytes())
}

/// The first instruction of the text, which is its second line, without the names of its registers.
fn top_of(alloc: Global, text: &str) -> Result<Vec<u8>, AllocError> {
    let mut top = Vec::new(alloc);
    if let Some((_, body)) = text.split_once('\n') {
        if let Some((line, _)) = body.split_once('\n') {
            put_nameless(&mut top, line)?;
        }
    }
    Ok(top)
}

/// How many different slots are in the text.
fn slots_of(alloc: Global, text: &str) -> Result<Vec<u8>, AllocError> {
    let mut slots: Vec<&str> = Vec::new(alloc);
    for word in text.split(' ') {
        if let Some((slot, _)) = word.split_once("]:") {
            if slot.starts_with("[") && !slots.as_slice().contains(&slot) {
                slots.push(slot)?;
            }
        }
    }
    let count = slots.as_slice().len();
    Ok(format!(in alloc; "{count} slots\n")?.into_bytes())
}

/// The lines without their first word, which is an address.
fn sizes_of(alloc: Global, text: &str) -> Result<Vec<u8>, AllocError> {
    let mut lines = Vec::new(alloc);
    for line in text.split_terminator('\n') {
        if let Some((_, rest)) = line.split_once(' ') {
            put_both(&mut lines, rest.as_bytes(), b"\n")?;
        }
    }
    Ok(lines)
}

/// The instructions of an operation, without the names of their registers and labels.
fn lines_of(alloc: Global, operation: &str, text: &str) -> Result<Vec<u8>, AllocError> {
    let mut lines = Vec::new(alloc);
    for line in text.split_terminator('\n') {
        if operation_of(line) == operation {
            put_nameless(&mut lines, line)?;
        }
    }
    Ok(lines)
}

/// The word of the operation of a line.
fn operation_of(line: &str) -> &str {
    let rest = match line.split_once(" = ") {
        Some((_, rest)) => rest,
        None => line.trim_start(),
    };
    match rest.split_once(' ') {
        Some((word, _)) => word,
        None => rest,
    }
}

/// Whether a word is a label, with a comma after it or none.
fn is_label(word: &str) -> bool {
    let bytes = word.as_bytes();
    matches!(bytes.first(), Some(b'L')) && matches!(bytes.get(1), Some(b'0'..=b'9'))
}

/// Puts the words of a line, each register and label without its name.
fn put_nameless(lines: &mut Vec<u8>, line: &str) -> Result<(), AllocError> {
    for word in line.trim_start().split(' ') {
        put_word(lines, word)?;
    }
    lines.extend_from_slice(b"\n")
}

/// Puts a space and a word, a register or label without its name.
fn put_word(lines: &mut Vec<u8>, word: &str) -> Result<(), AllocError> {
    match word.split_once(':') {
        Some((_, kind)) => put_both(lines, b" _:", kind.as_bytes()),
        None if is_label(word) => put_label(lines, word.ends_with(",")),
        None => put_both(lines, b" ", word.as_bytes()),
    }
}

fn put_label(lines: &mut Vec<u8>, has_comma: bool) -> Result<(), AllocError> {
    if has_comma {
        lines.extend_from_slice(b" L_,")
    } else {
        lines.extend_from_slice(b" L_")
    }
}

fn put_both(lines: &mut Vec<u8>, first: &[u8], second: &[u8]) -> Result<(), AllocError> {
    lines.extend_from_slice(first)?;
    lines.extend_from_slice(second)
}
