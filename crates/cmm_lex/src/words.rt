//! Words and signs by their spelling.
ghost use Rattle.std.specs.Prelude.{◌≡◌};
ghost use Rattle.cmm_lex.specs.Scanning.{entries_of, find_spelled, keyword_table, sign_table, kind_of};

use crate::state::Shape;
use crate::token::{Keyword, Sign, TokenKind};
use bs_words::{CmpOp, IntOp};

/// The words of two bytes that are no names. The tables after it hold the longer ones.
const OF_TWO: [(&[u8], TokenKind); 2] = [
    (b"or", TokenKind::Keyword(Keyword::Or)),
    (b"if", TokenKind::Keyword(Keyword::If)),
];

const OF_THREE: [(&[u8], TokenKind); 9] = [
    (b"int", TokenKind::Keyword(Keyword::Int)),
    (b"val", TokenKind::Keyword(Keyword::Val)),
    (b"let", TokenKind::Keyword(Keyword::Let)),
    (b"app", TokenKind::Keyword(Keyword::App)),
    (b"mod", TokenKind::Keyword(Keyword::Mod)),
    (b"and", TokenKind::Keyword(Keyword::And)),
    (b"xor", TokenKind::Keyword(Keyword::Xor)),
    (b"seq", TokenKind::Keyword(Keyword::Seq)),
    (b"try", TokenKind::Keyword(Keyword::Try)),
];

const OF_FOUR: [(&[u8], TokenKind); 12] = [
    (b"addr", TokenKind::Keyword(Keyword::Addr)),
    (b"unit", TokenKind::Keyword(Keyword::Unit)),
    (b"load", TokenKind::Keyword(Keyword::Load)),
    (b"mulh", TokenKind::Keyword(Keyword::Mulh)),
    (b"case", TokenKind::Keyword(Keyword::Case)),
    (b"with", TokenKind::Keyword(Keyword::With)),
    (b"exit", TokenKind::Keyword(Keyword::Exit)),
    (b"absf", TokenKind::Keyword(Keyword::Absf)),
    (b"byte", TokenKind::Keyword(Keyword::Byte)),
    (b"half", TokenKind::Keyword(Keyword::Half)),
    (b"data", TokenKind::Keyword(Keyword::Data)),
    (b"skip", TokenKind::Keyword(Keyword::Skip)),
];

const OF_FIVE: [(&[u8], TokenKind); 8] = [
    (b"float", TokenKind::Keyword(Keyword::Float)),
    (b"alloc", TokenKind::Keyword(Keyword::Alloc)),
    (b"store", TokenKind::Keyword(Keyword::Store)),
    (b"raise", TokenKind::Keyword(Keyword::Raise)),
    (b"while", TokenKind::Keyword(Keyword::While)),
    (b"catch", TokenKind::Keyword(Keyword::Catch)),
    (b"int32", TokenKind::Keyword(Keyword::Int32)),
    (b"align", TokenKind::Keyword(Keyword::Align)),
];

const OF_SIX: [(&[u8], TokenKind); 6] = [
    (b"letmut", TokenKind::Keyword(Keyword::Letmut)),
    (b"assign", TokenKind::Keyword(Keyword::Assign)),
    (b"switch", TokenKind::Keyword(Keyword::Switch)),
    (b"signed", TokenKind::Keyword(Keyword::Signed)),
    (b"string", TokenKind::Keyword(Keyword::String)),
    (b"global", TokenKind::Keyword(Keyword::Global)),
];

const OF_SEVEN: [(&[u8], TokenKind); 6] = [
    (b"extcall", TokenKind::Keyword(Keyword::Extcall)),
    (b"intaref", TokenKind::Keyword(Keyword::Intaref)),
    (b"intaset", TokenKind::Keyword(Keyword::Intaset)),
    (b"reraise", TokenKind::Keyword(Keyword::Reraise)),
    (b"float32", TokenKind::Keyword(Keyword::Float32)),
    (b"float64", TokenKind::Keyword(Keyword::Float64)),
];

const OF_EIGHT: [(&[u8], TokenKind); 4] = [
    (b"function", TokenKind::Keyword(Keyword::Function)),
    (b"addraref", TokenKind::Keyword(Keyword::Addraref)),
    (b"addraset", TokenKind::Keyword(Keyword::Addraset)),
    (b"unsigned", TokenKind::Keyword(Keyword::Unsigned)),
];

const OF_NINE: [(&[u8], TokenKind); 2] = [
    (b"floataref", TokenKind::Keyword(Keyword::Floataref)),
    (b"floataset", TokenKind::Keyword(Keyword::Floataset)),
];

const OF_TEN: [(&[u8], TokenKind); 3] = [
    (b"checkbound", TokenKind::Keyword(Keyword::Checkbound)),
    (b"floatofint", TokenKind::Keyword(Keyword::Floatofint)),
    (b"intoffloat", TokenKind::Keyword(Keyword::Intoffloat)),
];

const OF_THIRTEEN: [(&[u8], TokenKind); 1] = [(
    b"raise_notrace",
    TokenKind::Keyword(Keyword::RaiseNotrace),
)];

/// The operators and signs.
const SIGNS: [(&[u8], TokenKind); 36] = [
    (b"(", TokenKind::Sign(Sign::Open)),
    (b")", TokenKind::Sign(Sign::Close)),
    (b"[", TokenKind::Sign(Sign::OpenBracket)),
    (b"]", TokenKind::Sign(Sign::CloseBracket)),
    (b":", TokenKind::Sign(Sign::Colon)),
    (b"+", TokenKind::Operator(IntOp::Add)),
    (b"-", TokenKind::Operator(IntOp::Sub)),
    (b"*", TokenKind::Operator(IntOp::Mul)),
    (b"/", TokenKind::Operator(IntOp::Div)),
    (b"<<", TokenKind::Operator(IntOp::Shl)),
    (b">>u", TokenKind::Operator(IntOp::Shr)),
    (b">>s", TokenKind::Operator(IntOp::Sar)),
    (b"==", TokenKind::Operator(IntOp::Cmp(CmpOp::Eq))),
    (b"!=", TokenKind::Operator(IntOp::Cmp(CmpOp::Ne))),
    (b"<", TokenKind::Operator(IntOp::Cmp(CmpOp::Lt))),
    (b"<=", TokenKind::Operator(IntOp::Cmp(CmpOp::Le))),
    (b">", TokenKind::Operator(IntOp::Cmp(CmpOp::Gt))),
    (b">=", TokenKind::Operator(IntOp::Cmp(CmpOp::Ge))),
    (b"+v", TokenKind::Operator(IntOp::AddV)),
    (b"+a", TokenKind::Operator(IntOp::AddA)),
    (b"==a", TokenKind::Operator(IntOp::CmpU(CmpOp::Eq))),
    (b"!=a", TokenKind::Operator(IntOp::CmpU(CmpOp::Ne))),
    (b"<a", TokenKind::Operator(IntOp::CmpU(CmpOp::Lt))),
    (b"<=a", TokenKind::Operator(IntOp::CmpU(CmpOp::Le))),
    (b">a", TokenKind::Operator(IntOp::CmpU(CmpOp::Gt))),
    (b">=a", TokenKind::Operator(IntOp::CmpU(CmpOp::Ge))),
    (b"+f", TokenKind::FloatOperator),
    (b"-f", TokenKind::FloatOperator),
    (b"*f", TokenKind::FloatOperator),
    (b"/f", TokenKind::FloatOperator),
    (b"==f", TokenKind::FloatOperator),
    (b"!=f", TokenKind::FloatOperator),
    (b"<f", TokenKind::FloatOperator),
    (b"<=f", TokenKind::FloatOperator),
    (b">f", TokenKind::FloatOperator),
    (b">=f", TokenKind::FloatOperator),
];

/// The kind of the first entry that is spelled so.
fn find_kind(entries: &[(&[u8], TokenKind)], text: &[u8]) -> Option<TokenKind>
    ensures { result ≡ find_spelled (entries_of entries.now) text.now }
{
    for (spelling, kind) in entries {
        if *spelling == text {
            return Some(*kind);
        }
    }
    None
}

/// The kind of the keyword that is spelled so, if one is. Only those of the word's own length are looked at.
fn find_keyword(text: &[u8]) -> Option<TokenKind>
    ensures { result ≡ find_spelled keyword_table text.now }
{
    match text.len() {
        2 => find_kind(&OF_TWO, text),
        3 => find_kind(&OF_THREE, text),
        4 => find_kind(&OF_FOUR, text),
        5 => find_kind(&OF_FIVE, text),
        6 => find_kind(&OF_SIX, text),
        7 => find_kind(&OF_SEVEN, text),
        8 => find_kind(&OF_EIGHT, text),
        9 => find_kind(&OF_NINE, text),
        10 => find_kind(&OF_TEN, text),
        13 => find_kind(&OF_THIRTEEN, text),
        _ => None,
    }
}

/// The kind of the operator or sign that is spelled so, if one is. Most are parentheses.
fn find_sign(text: &[u8]) -> Option<TokenKind>
    ensures { result ≡ find_spelled sign_table text.now }
{
    match text {
        [b'('] => Some(TokenKind::Sign(Sign::Open)),
        [b')'] => Some(TokenKind::Sign(Sign::Close)),
        _ => find_kind(&SIGNS, text),
    }
}

/// The kind of a token of this shape; `None` where no token of the shape is spelled so.
#[tactic(auto, unfolding(crate::specs::Scanning::kind_of))]
pub fn kind_of(shape: Shape, text: &[u8]) -> Option<TokenKind>
    ensures { result ≡ kind_of shape text.now }
{
    match shape {
        Shape::Word => Some(find_keyword(text).unwrap_or(TokenKind::Name)),
        Shape::Integer => Some(TokenKind::Integer),
        Shape::Pointer => Some(TokenKind::Pointer),
        Shape::Float => Some(TokenKind::Float),
        Shape::Signs => find_sign(text),
    }
}
