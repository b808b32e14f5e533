//! The fields of the bodies, each read as a value and the bytes after it.
ghost use Rattle.std.specs.Prelude.{◌≡◌, List, ℕ, [], ◌∷◌, ◌++◌, ◌≤◌, length, nat_le, IfOk, IsOk, IsErrOf};
ghost use Rattle.std.specs.Int.{w16, w32};
ghost use Rattle.bs_words.specs.Symbol.{is_symbol};
ghost use Rattle.image_form.specs.declared.fault.Stop.{Stop};
ghost use Rattle.image_form.specs.Seen.{HoldsTexts};
ghost use Rattle.image_form.specs.Fields.{GivesField, ReadsField, byte_at, number_at, wide_at, text_at, name_at, new_name_at, comp_of_byte, kept, result_of_byte, ext_result_of, type_at, rows_at, params_at};

use crate::fault::{BadField, Stop};
use crate::seen::Seen;
use bs_words::{Comp, Ret, is_symbol};
use std::alloc::Global;

#[tactic(auto, unfolding(crate::specs::Fields::byte_at))]
pub(crate) fn byte_from(bytes: &[u8]) -> Result<(u8, &[u8]), BadField>
    ensures { ReadsField (λ x. (x.0, x.1.now)) result (byte_at bytes.now) }
{
    match bytes {
        [] => Err(BadField { left: 0 }),
        [byte, rest @ ..] => Ok((*byte, rest)),
    }
}

#[tactic(auto, unfolding(crate::specs::Fields::number_at))]
pub(crate) fn u16_from(bytes: &[u8]) -> Result<(u16, &[u8]), BadField>
    ensures { ReadsField (λ x. (x.0, x.1.now)) result (number_at w16 bytes.now) }
{
    if bytes.len() < 2 {
        return Err(BadField { left: bytes.len() });
    }
    let (front, rest) = bytes.split_at(2);
    Ok((u16::from_le_bytes([front[0], front[1]]), rest))
}

/// A number of 32 bits, the low byte first. The error is how many bytes there are, where they are fewer than
/// four.
#[tactic(auto, unfolding(crate::specs::Fields::number_at))]
pub fn u32_from(bytes: &[u8]) -> Result<(u32, &[u8]), BadField>
    ensures { ReadsField (λ x. (x.0, x.1.now)) result (number_at w32 bytes.now) }
{
    if bytes.len() < 4 {
        return Err(BadField { left: bytes.len() });
    }
    let (front, rest) = bytes.split_at(4);
    let number = u32::from_le_bytes([front[0], front[1], front[2], front[3]]);
    Ok((number, rest))
}

/// A size, a number of entries or an entry of a descriptor: 16 bits in version 1, and 32 in version 2, the low
/// byte first. The error is how many bytes there are, where they are too few.
#[tactic(auto, unfolding(crate::specs::Fields::wide_at))]
pub fn wide_from(version: u32, bytes: &[u8]) -> Result<(u32, &[u8]), BadField>
    ensures { ReadsField (λ x. (x.0, x.1.now)) result (wide_at version bytes.now) }
{
    if version == 1 {
        let (number, rest) = u16_from(bytes)?;
        Ok((u32::from(number), rest))
    } else {
        u32_from(bytes)
    }
}

#[tactic(auto, unfolding(crate::specs::Fields::text_at))]
fn text_from(bytes: &[u8]) -> Result<(&[u8], &[u8]), BadField>
    ensures { ReadsField (λ x. (x.0.now, x.1.now)) result (text_at bytes.now) }
{
    let (len, rest) = u16_from(bytes)?;
    let len = usize::from(len);
    if rest.len() < len {
        return Err(BadField { left: bytes.len() });
    }
    Ok(rest.split_at(len))
}

/// A name after its length in bytes, which has 16 bits. The error is how many bytes of the body are left from the field on
/// that is cut short, or from the length on where the bytes are not those of a symbol.
#[tactic(auto, unfolding(crate::specs::Fields::name_at, crate::specs::Fields::kept))]
pub fn name_from(bytes: &[u8]) -> Result<(&[u8], &[u8]), BadField>
    ensures gives { ReadsField (λ x. (x.0.now, x.1.now)) result (name_at bytes.now) }
    ensures short { IfOk result (λ x. length x.0.now ≤ 255) }
{
    let (name, rest) = text_from(bytes)?;
    if !is_symbol(name) {
        return Err(BadField { left: bytes.len() });
    }
    Ok((name, rest))
}

/// A name that did not come before. It is then among those that did. The errors are those of a name, a name that
/// did come before, with the bytes that are left from its length on, and want of memory.
#[tactic(auto, unfolding(crate::specs::Fields::new_name_at, crate::specs::Fields::kept))]
pub fn new_name_from<'a>(
    alloc: Global,
    seen: &mut Seen,
    bytes: &'a [u8],
) -> Result<(Vec<u8>, &'a [u8]), Stop>
    ensures gives { (names : List (List ℕ))
        → HoldsTexts seen.old names
        → GivesField (λ x. (x.0.items, x.1.now)) result (new_name_at names bytes.now) }
    ensures seen { (names : List (List ℕ))
        → HoldsTexts seen.old names
        → IfOk result (λ x. HoldsTexts seen.new (names ++ x.0.items ∷ [])) }
    // Memory is wanted only where a name is there.
    ensures memory { IsErrOf result Stop.Memory → IsOk (name_at bytes.now) }
{
    let (name, rest) = name_from(bytes)?;
    let is_new = seen.insert(Vec::from_slice(alloc, name)?)?;
    if !is_new {
        return Err(Stop::Left(bytes.len()));
    }
    Ok((Vec::from_slice(alloc, name)?, rest))
}

#[tactic(auto, unfolding(crate::specs::Fields::comp_of_byte))]
fn comp_of(most: u8, byte: u8) -> Option<Comp>
    ensures { result ≡ comp_of_byte most byte }
{
    if byte > most {
        return None;
    }
    match byte {
        0 => Some(Comp::Int),
        1 => Some(Comp::Val),
        2 => Some(Comp::Addr),
        _ => None,
    }
}

#[tactic(auto, unfolding(crate::specs::Fields::type_at))]
fn comp_from(most: u8, bytes: &[u8]) -> Result<(Comp, &[u8]), BadField>
    ensures { ReadsField (λ x. (x.0, x.1.now)) result (type_at (comp_of_byte most) bytes.now) }
{
    let (byte, rest) = byte_from(bytes)?;
    match comp_of(most, byte) {
        Some(comp) => Ok((comp, rest)),
        None => Err(BadField { left: bytes.len() }),
    }
}

#[tactic(auto, unfolding(crate::specs::Fields::result_of_byte))]
fn result_of(byte: u8) -> Option<Ret>
    ensures { result ≡ result_of_byte byte }
{
    match byte {
        0 => Some(Ret::Comp(Comp::Int)),
        1 => Some(Ret::Comp(Comp::Val)),
        3 => Some(Ret::Unit),
        _ => None,
    }
}

#[tactic(auto, unfolding(crate::specs::Fields::ext_result_of))]
fn ext_result_of(byte: u8) -> Option<Ret>
    ensures { result ≡ ext_result_of byte }
{
    match byte {
        2 => Some(Ret::Comp(Comp::Addr)),
        _ => result_of(byte),
    }
}

/// The result of a function, a byte: 0 `int`, 1 `val`, 3 `unit`. The error is how many bytes of the body are left from it
/// on, where it is another or there is none.
#[tactic(auto, unfolding(crate::specs::Fields::type_at))]
pub fn result_from(bytes: &[u8]) -> Result<(Ret, &[u8]), BadField>
    ensures { ReadsField (λ x. (x.0, x.1.now)) result (type_at result_of_byte bytes.now) }
{
    let (byte, rest) = byte_from(bytes)?;
    match result_of(byte) {
        Some(ret) => Ok((ret, rest)),
        None => Err(BadField { left: bytes.len() }),
    }
}

/// The result of an external call, a byte: that of a function, or 2 `addr`. The error is how many bytes of the body are
/// left from it on, where it is another or there is none.
#[tactic(auto, unfolding(crate::specs::Fields::type_at))]
pub fn ext_result_from(bytes: &[u8]) -> Result<(Ret, &[u8]), BadField>
    ensures { ReadsField (λ x. (x.0, x.1.now)) result (type_at ext_result_of bytes.now) }
{
    let (byte, rest) = byte_from(bytes)?;
    match ext_result_of(byte) {
        Some(ret) => Ok((ret, rest)),
        None => Err(BadField { left: bytes.len() }),
    }
}

fn comps_from(alloc: Global, most: u8, count: u8, bytes: &[u8]) -> Result<(Vec<Comp>, &[u8]), Stop>
    ensures gives { GivesField (λ x. (x.0.items, x.1.now)) result
        (rows_at (λ _. type_at (comp_of_byte most)) [] count bytes.now) }
    ensures few { IfOk result (λ x. length x.0.items ≤ count) }
{
    let mut comps = Vec::new(alloc);
    let mut rest = bytes;
    for _ in 0..count {
        let (comp, after) = comp_from(most, rest)?;
        comps.push(comp)?;
        rest = after;
    }
    Ok((comps, rest))
}

/// The number of types, at most 16, and the types, a byte each: 0 `int`, 1 `val`, 2 `addr`, none above `most`. The error is
/// how many bytes of the body are left from the first byte on that is another or missing, or want of memory.
#[tactic(auto, unfolding(crate::specs::Fields::params_at, crate::specs::Fields::kept))]
pub fn params_from(alloc: Global, most: u8, bytes: &[u8]) -> Result<(Vec<Comp>, &[u8]), Stop>
    ensures gives { GivesField (λ x. (x.0.items, x.1.now)) result (params_at most bytes.now) }
    ensures few { IfOk result (λ x. length x.0.items ≤ 16) }
    // Memory is wanted only where the number is there, and at most 16.
    ensures memory { IsErrOf result Stop.Memory → IsOk (kept (λ count. nat_le count 16) byte_at bytes.now) }
{
    let (count, rest) = byte_from(bytes)?;
    if count > 16 {
        return Err(Stop::Left(bytes.len()));
    }
    comps_from(alloc, most, count, rest)
}
