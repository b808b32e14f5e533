//! The tokens of Cmm texts, by longest match.
#![tactic(auto)]

mod enclosed;
mod front;
mod integers;
pub mod lexer;
mod state;
mod strings;
pub mod token;
mod words;

pub use lexer::{Lexed, integer_word, lex, string_of, text_of};
pub use token::{Keyword, Sign, Token, TokenKind};
