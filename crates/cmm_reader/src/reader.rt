//! Texts.
ghost use Rattle.std.specs.Prelude.{◌≡◌, Ok, None, IfOk, MatchResult};
ghost use Rattle.cmm_tree.specs.View.{file_view};
ghost use Rattle.bs_fault.specs.Reported.{IsReported};
ghost use Rattle.cmm_grammar.specs.Covered.{IsMeasured};
ghost use Rattle.cmm_grammar.specs.Reading.{Stuck};
ghost use Rattle.cmm_reader.specs.Text.{read_file_faults, ReadsAs, IsRefused};
ghost use Rattle.cmm_reader.specs.Telling.{IsReading, IsStopOf, IsStopped, IsFinished, stop_fault};

use crate::items::items;
use bs_fault::{Fault, FrontError, noted_optional};
use bs_words::List;
use cmm_data::data_fault;
use cmm_lex::{Lexed, Token, lex};
use cmm_limits::{LONGEST_TEXT, limit_fault};
use cmm_nodes::Stop;
use cmm_tree::File;
use std::alloc::Global;

/// How deep parentheses may nest.
const NESTING: u32 = 250;

/// The fault that is reported of a file that was read, if there is one.
fn file_fault(file: &File, range: Option<Fault>) -> Option<Fault>
    ensures { IsReported (read_file_faults range (file_view file.now)) result }
{
    let found = noted_optional(range, limit_fault(file));
    noted_optional(data_fault(file), found)
}

/// The file, unless a fault is reported of it.
fn faultless(file: File, range: Option<Fault>) -> Result<File, FrontError>
    ensures { IsFinished range (file_view file) result }
{
    match file_fault(&file, range) {
        Some(fault) => Err(FrontError::Fault(fault)),
        None => Ok(file),
    }
}

/// What is reported after all tokens: what the lexer found there, or that the text ends inside a
/// form.
fn end_fault(size: u32, lexing: Option<Fault>) -> Fault
    ensures { result ≡ stop_fault None Stuck lexing size }
{
    match lexing {
        Some(fault) => fault,
        None => Fault::Unexpected { at: size },
    }
}

/// What is reported where reading stops.
fn stopped(size: u32, tokens: &[Token], lexing: Option<Fault>, stop: Stop) -> FrontError
    ensures { IsStopped size tokens.now lexing stop result }
{
    match stop {
        Stop::Unexpected { left } => {
            FrontError::Fault(match tokens.get(tokens.len().saturating_sub(left)) {
                Some(token) => Fault::Unexpected { at: token.at },
                None => end_fault(size, lexing),
            })
        }
        Stop::TooDeep { left } => {
            FrontError::Fault(match tokens.get(tokens.len().saturating_sub(left)) {
                Some(token) => Fault::TooDeep { at: token.at },
                None => end_fault(size, lexing),
            })
        }
        Stop::OutOfMemory => FrontError::OutOfMemory,
    }
}

/// The file that a text is.
///
/// Places in the file are in bytes from the start of the text. One fault is reported of a text that is
/// none: that it has more than 16,777,216 bytes; else the leftmost of a token that does not begin, a
/// text that is not closed, a token with which no text of the grammar goes on (or the text's end
/// inside a form), and a parenthesis that opens a level more than 250; else the leftmost of an
/// integer out of range, a limit on sizes, static data that is too large, and an item of static data
/// that breaks its rule. Of two on one place it is the one of the lower number.
///
/// # Errors
///
/// `Fault` exactly where the text has a fault, with the one that is reported, and `OutOfMemory` where
/// memory ran out before that is known.
pub fn read_file(alloc: Global, text: &[u8]) -> Result<File, FrontError>
    ensures read { MatchResult result (λ file. ReadsAs text.now (Ok (file_view file)))
        (IsRefused text.now) }
    ensures measured { IfOk result (λ file. IsMeasured (file_view file)) }
{
    read_text(alloc, text)
}

/// The same, by what reading the tokens from left to right gives.
fn read_text(alloc: Global, text: &[u8]) -> Result<File, FrontError>
    ensures { MatchResult result (λ file. IsReading text.now (Ok (file_view file)))
        (IsStopOf text.now) }
{
    if text.len() as u64 > LONGEST_TEXT {
        return Err(FrontError::Fault(Fault::TooLong {
            at: LONGEST_TEXT as u32,
        }));
    }
    let Lexed {
        tokens,
        fault,
        range,
    } = lex(alloc, text)?;
    match items(alloc, text, tokens.as_slice(), NESTING) {
        Ok(items) => match fault {
            Some(fault) => Err(FrontError::Fault(fault)),
            None => {
                let file = File {
                    items: List::from_vec(items),
                };
                faultless(file, range)
            }
        },
        Err(stop) => {
            let size = text.len() as u32;
            Err(stopped(size, tokens.as_slice(), fault, stop))
        }
    }
}
