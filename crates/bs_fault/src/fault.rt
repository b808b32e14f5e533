//! What is wrong with a Cmm text.
ghost use Rattle.std.specs.Prelude.{◌≡◌, ◌++◌, IfOk};
ghost use Rattle.bs_words.specs.Contents.{contents};
ghost use Rattle.bs_fault.specs.FaultLines.{fault_word, bound_words, point_words, fault_more, fault_line};

use bs_words::List;
use std::alloc::{AllocError, AllocFailed, Global};
use thiserror::Error;

/// A fault of a text. Places are in bytes from the start of the text.
#[derive(Clone, Copy, Debug)]
pub enum Fault {
    /// F1: the text has more than 16,777,216 bytes.
    TooLong {
        /// The place of the first byte that is too many: 16,777,216.
        at: u32,
    },
    /// F2: no token begins here, or a backslash begins no escape.
    BadToken {
        /// The place of that byte, or of the backslash, in bytes from the start of the text.
        at: u32,
    },
    /// F3: a string, a comment or a brace is not closed.
    Unclosed {
        /// The place of its opening byte, in bytes from the start of the text.
        at: u32,
    },
    /// F4: the grammar allows no such token here, or the text ends inside a form.
    Unexpected {
        /// The place of the token, in bytes from the start of the text; where the text ends, its
        /// length.
        at: u32,
    },
    /// F5: parentheses nest deeper than 250.
    TooDeep {
        /// The place of the `(` of level 251, in bytes from the start of the text.
        at: u32,
    },
    /// F6: an integer is out of range.
    IntRange {
        /// The place of the integer, in bytes from the start of the text.
        at: u32,
    },
    /// F7: more than 16 parameters or arguments. It is at the seventeenth.
    TooManyParams {
        /// The place of the seventeenth, in bytes from the start of the text.
        at: u32,
    },
    /// F8: a function has more than 32,000 tokens.
    FunctionTooLong {
        /// The place of the function's `(`, in bytes from the start of the text.
        at: u32,
    },
    /// F9: the static data passes 16,777,216 bytes.
    DataTooLarge {
        /// The place of the item that passes it, in bytes from the start of the text.
        at: u32,
    },
    /// F10: an item of static data breaks its rule.
    DataItem {
        /// The place of the item, in bytes from the start of the text.
        at: u32,
    },
    /// F11: a name is not bound.
    Unbound {
        /// The place of the name, in bytes from the start of the text.
        at: u32,
    },
    /// F12: a symbol is not defined.
    UnknownSymbol {
        /// The place of the symbol's string, in bytes from the start of the text.
        at: u32,
    },
    /// F13: a symbol, or a label of one catch, is defined twice.
    DuplicateSymbol {
        /// The place of the second definition, in bytes from the start of the text.
        at: u32,
    },
    /// F14: another number of arguments than parameters.
    Arity {
        /// The place of the `(` of the call, or of the exit, in bytes from the start of the text.
        at: u32,
    },
    /// F15: an expression without a value is where a value is taken.
    NoValue {
        /// The place of the expression's first byte, in bytes from the start of the text.
        at: u32,
    },
    /// F16: an assignment to a name that is not mutable.
    NotMutable {
        /// The place of the name, in bytes from the start of the text.
        at: u32,
    },
    /// F17: the header of an allocation does not fit its block.
    AllocHeader {
        /// The place of the header, in bytes from the start of the text.
        at: u32,
    },
    /// F18: no visible handler has this label.
    UnknownLabel {
        /// The place of the label, or of an exit without one, in bytes from the start of the text.
        at: u32,
    },
    /// F19: a float.
    Float {
        /// The place of the token that is of floats, in bytes from the start of the text.
        at: u32,
    },
    /// F20: an address that is used after a frame point it was bound before.
    AddrLive {
        /// The place of the bound name, of the operand, or of the `(` of an assign, in bytes from
        /// the start of the text.
        bound: u32,
        /// The place of the frame point's `(`, in bytes from the start of the text.
        point: u32,
        /// The place of the name, or of the `(` that takes the operand, in bytes from the start of
        /// the text.
        used: u32,
    },
    /// F21: an argument of an external call, or the body of a function, is an address.
    AddrArgument {
        /// The place of the argument, or of the function's `(`, in bytes from the start of the
        /// text.
        at: u32,
    },
    /// F22: the number of indexes of a switch, or an index.
    SwitchSize {
        /// The place of the integer, in bytes from the start of the text.
        at: u32,
    },
}

/// Why a text was not accepted.
#[derive(Debug, Drop, Error)]
pub enum FrontError {
    /// The one fault that is reported of the text.
    #[error("the text has a fault")]
    Fault(Fault),
    /// Memory ran out before it was known whether the text has a fault.
    #[error("out of memory")]
    OutOfMemory,
}

impl From<AllocError> for FrontError {
    ghost use Rattle.bs_fault.specs.declared.fault.FrontError.TheVariants.{OutOfMemory};

    ghost from_gives = { λ _ e. e ≡ OutOfMemory };

    fn from(_e: AllocError) -> FrontError {
        FrontError::OutOfMemory
    }
}

impl<T: Drop> From<AllocFailed<T>> for FrontError {
    ghost use Rattle.bs_fault.specs.declared.fault.FrontError.TheVariants.{OutOfMemory};

    ghost from_gives = { λ _ e. e ≡ OutOfMemory };

    fn from(_e: AllocFailed<T>) -> FrontError {
        FrontError::OutOfMemory
    }
}

fn fault_word(fault: Fault) -> &'static str
    ensures { result.now ≡ fault_word fault }
{
    match fault {
        Fault::TooLong { at: _ } => "TooLong",
        Fault::BadToken { at: _ } => "BadToken",
        Fault::Unclosed { at: _ } => "Unclosed",
        Fault::Unexpected { at: _ } => "Unexpected",
        Fault::TooDeep { at: _ } => "TooDeep",
        Fault::IntRange { at: _ } => "IntRange",
        Fault::TooManyParams { at: _ } => "TooManyParams",
        Fault::FunctionTooLong { at: _ } => "FunctionTooLong",
        Fault::DataTooLarge { at: _ } => "DataTooLarge",
        Fault::DataItem { at: _ } => "DataItem",
        Fault::Unbound { at: _ } => "Unbound",
        Fault::UnknownSymbol { at: _ } => "UnknownSymbol",
        Fault::DuplicateSymbol { at: _ } => "DuplicateSymbol",
        Fault::Arity { at: _ } => "Arity",
        Fault::NoValue { at: _ } => "NoValue",
        Fault::NotMutable { at: _ } => "NotMutable",
        Fault::AllocHeader { at: _ } => "AllocHeader",
        Fault::UnknownLabel { at: _ } => "UnknownLabel",
        Fault::Float { at: _ } => "Float",
        Fault::AddrLive {
            bound: _,
            point: _,
            used: _,
        } => "AddrLive",
        Fault::AddrArgument { at: _ } => "AddrArgument",
        Fault::SwitchSize { at: _ } => "SwitchSize",
    }
}

fn point_text(alloc: Global, point: u32) -> Result<String, AllocError>
    ensures { IfOk result (λ text. text.bytes.items ≡ point_words point) }
{
    let text = format!(in alloc; ", frame point at {point}")?;
    Ok(text)
}

fn bound_text(alloc: Global, bound: u32) -> Result<String, AllocError>
    ensures { IfOk result (λ text. text.bytes.items ≡ bound_words bound) }
{
    let text = format!(in alloc; ", bound at {bound}")?;
    Ok(text)
}

fn bound_and_point(alloc: Global, bound: u32, point: u32) -> Result<String, AllocError>
    ensures { IfOk result (λ text. text.bytes.items ≡ bound_words bound ++ point_words point) }
{
    let mut text = bound_text(alloc, bound)?;
    let passed = point_text(alloc, point)?;
    text.push_str(passed.as_str())?;
    Ok(text)
}

/// Where an address is bound, and the frame point that it passes; nothing of other faults.
fn fault_more(alloc: Global, fault: Fault) -> Result<String, AllocError>
    ensures { IfOk result (λ text. text.bytes.items ≡ fault_more fault) }
{
    match fault {
        Fault::AddrLive {
            bound,
            point,
            used: _,
        } => bound_and_point(alloc, bound, point),
        Fault::TooLong { at: _ }
        | Fault::BadToken { at: _ }
        | Fault::Unclosed { at: _ }
        | Fault::Unexpected { at: _ }
        | Fault::TooDeep { at: _ }
        | Fault::IntRange { at: _ }
        | Fault::TooManyParams { at: _ }
        | Fault::FunctionTooLong { at: _ }
        | Fault::DataTooLarge { at: _ }
        | Fault::DataItem { at: _ }
        | Fault::Unbound { at: _ }
        | Fault::UnknownSymbol { at: _ }
        | Fault::DuplicateSymbol { at: _ }
        | Fault::Arity { at: _ }
        | Fault::NoValue { at: _ }
        | Fault::NotMutable { at: _ }
        | Fault::AllocHeader { at: _ }
        | Fault::UnknownLabel { at: _ }
        | Fault::Float { at: _ }
        | Fault::AddrArgument { at: _ }
        | Fault::SwitchSize { at: _ } => Ok(String::new(alloc)),
    }
}

/// The line of the fault, as `cmmc: F11 Unbound at 27` and a line feed; of an address at a frame point,
/// as `cmmc: F20 AddrLive at 65, bound at 27, frame point at 38`. It fails only if memory runs out.
pub fn fault_text(alloc: Global, fault: &Fault) -> Result<List<u8>, AllocError>
    ensures { IfOk result (λ text. contents text ≡ fault_line fault.now) }
{
    let number = fault.number();
    let word = fault_word(*fault);
    let at = fault.place();
    let more = fault_more(alloc, *fault)?;
    let line = format!(in alloc; "cmmc: F{number} {word} at {at}{more}\n")?;
    Ok(List::from_vec(line.into_bytes()))
}
