//! What a token may be, and what it gives there.
ghost use Rattle.std.specs.Prelude.{◌≡◌};
ghost use Rattle.cmm_grammar.specs.Words.{is_open_kind, is_close_kind};
ghost use Rattle.cmm_grammar.specs.Words.{is_case_kind, is_and_kind};
ghost use Rattle.cmm_grammar.specs.Words.{comp_of, ret_of, head_of, head_of_keyword, chunk_word_of, width_of};
ghost use Rattle.cmm_grammar.specs.Words.{unsigned_chunk, signed_chunk, data_keyword};

use bs_words::{Chunk, Comp, IntOp, Ret};
use cmm_grammar::{ChunkWord, DataWord, Head, Pair, Triple, Width};
use cmm_lex::{Keyword, Sign, TokenKind};

/// Whether a token opens a parenthesis.
pub fn is_open(kind: TokenKind) -> bool
    ensures { result ≡ is_open_kind kind }
{
    matches!(kind, TokenKind::Sign(Sign::Open))
}

/// Whether a token closes a parenthesis.
pub fn is_close(kind: TokenKind) -> bool
    ensures { result ≡ is_close_kind kind }
{
    matches!(kind, TokenKind::Sign(Sign::Close))
}

/// Whether a token is `case`.
pub fn is_case(kind: TokenKind) -> bool
    ensures { result ≡ is_case_kind kind }
{
    matches!(kind, TokenKind::Keyword(Keyword::Case))
}

/// Whether a token is `and`.
pub fn is_and(kind: TokenKind) -> bool
    ensures { result ≡ is_and_kind kind }
{
    matches!(kind, TokenKind::Keyword(Keyword::And))
}

/// The component that a token is.
pub fn comp_of(kind: TokenKind) -> Option<Comp>
    ensures { result ≡ comp_of kind }
{
    match kind {
        TokenKind::Keyword(Keyword::Int) => Some(Comp::Int),
        TokenKind::Keyword(Keyword::Val) => Some(Comp::Val),
        TokenKind::Keyword(Keyword::Addr) => Some(Comp::Addr),
        TokenKind::Keyword(Keyword::Float) => Some(Comp::Float),
        _ => None,
    }
}

/// The result of a call that a token is: a component or `unit`.
pub fn ret_of(kind: TokenKind) -> Option<Ret>
    ensures { result ≡ ret_of kind }
{
    match kind {
        TokenKind::Keyword(Keyword::Unit) => Some(Ret::Unit),
        _ => Some(Ret::Comp(comp_of(kind)?)),
    }
}

/// What the keyword after a parenthesis begins.
fn head_of_keyword(keyword: Keyword) -> Option<Head>
    ensures { result ≡ head_of_keyword keyword }
{
    match keyword {
        Keyword::Let => Some(Head::Let),
        Keyword::Letmut => Some(Head::Letmut),
        Keyword::Assign => Some(Head::Assign),
        Keyword::App => Some(Head::App),
        Keyword::Extcall => Some(Head::Extcall),
        Keyword::Alloc => Some(Head::Alloc),
        Keyword::Load => Some(Head::Load),
        Keyword::Store => Some(Head::Store),
        Keyword::Checkbound => Some(Head::Pair(Pair::Checkbound)),
        Keyword::Intaref => Some(Head::Pair(Pair::Element(Chunk::Int))),
        Keyword::Addraref => Some(Head::Pair(Pair::Element(Chunk::Val))),
        Keyword::Intaset => Some(Head::Triple(Triple::SetElement(Chunk::Int))),
        Keyword::Addraset => Some(Head::Triple(Triple::SetElement(Chunk::Val))),
        Keyword::Mod => Some(Head::Pair(Pair::Operator(IntOp::Mod))),
        Keyword::Mulh => Some(Head::Pair(Pair::Operator(IntOp::Mulh))),
        Keyword::And => Some(Head::Pair(Pair::Operator(IntOp::And))),
        Keyword::Or => Some(Head::Pair(Pair::Operator(IntOp::Or))),
        Keyword::Xor => Some(Head::Pair(Pair::Operator(IntOp::Xor))),
        Keyword::Raise => Some(Head::Raise),
        Keyword::Reraise => Some(Head::Raise),
        Keyword::RaiseNotrace => Some(Head::Raise),
        Keyword::Seq => Some(Head::Seq),
        Keyword::If => Some(Head::Triple(Triple::If)),
        Keyword::Switch => Some(Head::Switch),
        Keyword::While => Some(Head::While),
        Keyword::Catch => Some(Head::Catch),
        Keyword::Exit => Some(Head::Exit),
        Keyword::Try => Some(Head::Try),
        Keyword::Absf => Some(Head::Float),
        Keyword::Floatofint => Some(Head::Float),
        Keyword::Intoffloat => Some(Head::Float),
        Keyword::Floataref => Some(Head::Float),
        Keyword::Floataset => Some(Head::Float),
        Keyword::Function => None,
        Keyword::Int => None,
        Keyword::Val => None,
        Keyword::Addr => None,
        Keyword::Float => None,
        Keyword::Unit => None,
        Keyword::Case => None,
        Keyword::With => None,
        Keyword::Unsigned => None,
        Keyword::Signed => None,
        Keyword::Byte => None,
        Keyword::Half => None,
        Keyword::Int32 => None,
        Keyword::Float32 => None,
        Keyword::Float64 => None,
        Keyword::Data => None,
        Keyword::Skip => None,
        Keyword::Align => None,
        Keyword::String => None,
        Keyword::Global => None,
    }
}

/// What the token after a parenthesis begins, if it begins a form.
pub fn head_of(kind: TokenKind) -> Option<Head>
    ensures { result ≡ head_of kind }
{
    match kind {
        TokenKind::Operator(op) => Some(Head::Pair(Pair::Operator(op))),
        TokenKind::FloatOperator => Some(Head::Float),
        TokenKind::Keyword(keyword) => head_of_keyword(keyword),
        TokenKind::Name
        | TokenKind::Integer
        | TokenKind::Pointer
        | TokenKind::Float
        | TokenKind::String
        | TokenKind::Sign(_) => None,
    }
}

/// What begins a chunk, if the token does.
pub fn chunk_word_of(kind: TokenKind) -> Option<ChunkWord>
    ensures { result ≡ chunk_word_of kind }
{
    match kind {
        TokenKind::Keyword(Keyword::Int) => Some(ChunkWord::Whole(Chunk::Int)),
        TokenKind::Keyword(Keyword::Val) => Some(ChunkWord::Whole(Chunk::Val)),
        TokenKind::Keyword(Keyword::Unsigned) => Some(ChunkWord::Unsigned),
        TokenKind::Keyword(Keyword::Signed) => Some(ChunkWord::Signed),
        TokenKind::Keyword(Keyword::Float | Keyword::Float32 | Keyword::Float64) => {
            Some(ChunkWord::Float)
        }
        _ => None,
    }
}

/// The width that a token is.
pub fn width_of(kind: TokenKind) -> Option<Width>
    ensures { result ≡ width_of kind }
{
    match kind {
        TokenKind::Keyword(Keyword::Byte) => Some(Width::Byte),
        TokenKind::Keyword(Keyword::Half) => Some(Width::Half),
        TokenKind::Keyword(Keyword::Int32) => Some(Width::Int32),
        _ => None,
    }
}

/// The chunk of that width that is read without a sign.
pub fn unsigned_chunk(width: Width) -> Chunk
    ensures { result ≡ unsigned_chunk width }
{
    match width {
        Width::Byte => Chunk::U8,
        Width::Half => Chunk::U16,
        Width::Int32 => Chunk::U32,
    }
}

/// The chunk of that width that is read with a sign.
pub fn signed_chunk(width: Width) -> Chunk
    ensures { result ≡ signed_chunk width }
{
    match width {
        Width::Byte => Chunk::I8,
        Width::Half => Chunk::I16,
        Width::Int32 => Chunk::I32,
    }
}

/// What begins an item of static data, of the keywords.
pub fn data_keyword(kind: TokenKind) -> Option<DataWord>
    ensures { result ≡ data_keyword kind }
{
    match kind {
        TokenKind::Keyword(Keyword::Byte) => Some(DataWord::Byte),
        TokenKind::Keyword(Keyword::Half) => Some(DataWord::Half),
        TokenKind::Keyword(Keyword::Int) => Some(DataWord::Int),
        TokenKind::Keyword(Keyword::Val) => Some(DataWord::Val),
        TokenKind::Keyword(Keyword::Addr) => Some(DataWord::Addr),
        TokenKind::Keyword(Keyword::Skip) => Some(DataWord::Skip),
        TokenKind::Keyword(Keyword::Align) => Some(DataWord::Align),
        TokenKind::Keyword(Keyword::String) => Some(DataWord::Text),
        TokenKind::Keyword(Keyword::Global) => Some(DataWord::Global),
        TokenKind::Keyword(Keyword::Float) => Some(DataWord::Float),
        _ => None,
    }
}
