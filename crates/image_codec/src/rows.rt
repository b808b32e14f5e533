//! The rows of the tables, each read in view of those before it.
//!
//! The number of parameters is tested at its own byte. The count of a table is not tested: one that is too
//! large shows at the first field past the body's end.
ghost use Rattle.std.specs.Prelude.{◌≡◌, List, ℕ, [], ◌∷◌, ◌++◌, ◌&&◌, ◌+◌, ◌%◌, ◌==◌, map, nat_lt, nat_le, IfOk, IsErrOf, IsOk};
ghost use Rattle.std.specs.Int.{w32};
ghost use Rattle.bs_words.specs.External.{External};
ghost use Rattle.image_form.specs.Tables.{func, sym, ext, desc, func_names, sym_names};
ghost use Rattle.image_form.specs.Image.{function_end, ext_bytes};
ghost use Rattle.image_form.specs.declared.fault.Stop.{Stop};
ghost use Rattle.image_form.specs.Seen.{HoldsTexts};
ghost use Rattle.image_form.specs.Fields.{GivesField, ReadsField, name_at, number_at, rows_at, at_last, func_offset_at, frame_at, func_at, sym_offset_at, sym_at, root_offset_field, ext_at, is_entry, is_next_entry, entry_at, is_return, after_at, frame_size_field, desc_at, table_at, words_of_body};

use crate::writing::ext_text;
use bs_words::Name;
use image_form::fields::{
    ext_result_from, name_from, new_name_from, params_from, result_from, u32_from, wide_from,
};
use image_form::limits::FIRST_RETURN;
use image_form::{BadField, DescRow, ExtRow, FuncRow, Seen, Stop, SymRow};
use std::alloc::Global;

/// The bytes of code before the end of the function.
pub(crate) fn end_of(row: &FuncRow) -> u64
    ensures { result ≡ function_end (func row.now) }
{
    u64::from(row.offset) + 4 * u64::from(row.words)
}

fn is_behind(row: &FuncRow, offset: u32) -> bool
    ensures { result ≡ (nat_lt row.now.offset offset && nat_le (function_end (func row.now)) offset) }
{
    row.offset < offset && end_of(row) <= offset as u64
}

/// Whether a function at the offset begins after the last of those before it, and not inside it.
fn begins_behind(before: &[FuncRow], offset: u32) -> bool
    ensures { result
        ≡ at_last (λ f. nat_lt f.offset offset && nat_le (function_end f) offset) (map func before.now) }
{
    match before.last() {
        None => true,
        Some(row) => is_behind(row, offset),
    }
}

#[tactic(auto, unfolding(image_form::specs::Fields::func_offset_at, image_form::specs::Fields::kept))]
fn func_offset_from<'a>(before: &[FuncRow], bytes: &'a [u8]) -> Result<(u32, &'a [u8]), BadField>
    ensures { ReadsField (λ x. (x.0, x.1.now)) result (func_offset_at (map func before.now) bytes.now) }
{
    let (offset, rest) = u32_from(bytes)?;
    if offset % 4 != 0 || !begins_behind(before, offset) {
        return Err(BadField { left: bytes.len() });
    }
    Ok((offset, rest))
}

#[tactic(auto, unfolding(image_form::specs::Fields::frame_at, image_form::specs::Fields::kept))]
fn frame_from(bytes: &[u8]) -> Result<(u32, &[u8]), BadField>
    ensures { ReadsField (λ x. (x.0, x.1.now)) result (frame_at bytes.now) }
{
    let (frame, rest) = u32_from(bytes)?;
    if frame % 16 != 0 {
        return Err(BadField { left: bytes.len() });
    }
    Ok((frame, rest))
}

#[tactic(auto, unfolding(image_form::specs::Fields::func_at))]
fn func_from<'a>(
    alloc: Global,
    seen: &mut Seen,
    before: &[FuncRow],
    bytes: &'a [u8],
) -> Result<(FuncRow, &'a [u8]), Stop>
    requires { HoldsTexts seen.old (func_names (map func before.now)) }
    ensures gives { GivesField (λ x.
        (func x.0, x.1.now)) result (func_at (map func before.now) bytes.now) }
    ensures seen { IfOk result (λ x.
        HoldsTexts seen.new (func_names (map func before.now) ++ x.0.name ∷ [])) }
{
    let (name, rest) = new_name_from(alloc, seen, bytes)?;
    let (offset, rest) = func_offset_from(before, rest)?;
    let (words, rest) = u32_from(rest)?;
    let (frame, rest) = frame_from(rest)?;
    let (params, rest) = params_from(alloc, 2, rest)?;
    let (result, rest) = result_from(rest)?;
    let row = FuncRow {
        name: Name::from_vec(name),
        offset,
        words,
        frame,
        params: bs_words::List::from_vec(params),
        result,
    };
    Ok((row, rest))
}

fn funcs_from<'a>(
    alloc: Global,
    seen: &mut Seen,
    count: u32,
    bytes: &'a [u8],
) -> Result<(Vec<FuncRow>, &'a [u8]), Stop>
    requires { HoldsTexts seen.old [] }
    ensures gives { GivesField (λ x.
        (map func x.0.items, x.1.now)) result (rows_at func_at [] count bytes.now) }
    ensures seen { IfOk result (λ x. HoldsTexts seen.new (func_names (map func x.0.items))) }
{
    let mut rows = Vec::new(alloc);
    let mut rest = bytes;
    for _ in 0..count {
        let (row, after) = func_from(alloc, seen, &rows, rest)?;
        rows.push(row)?;
        rest = after;
    }
    Ok((rows, rest))
}

/// The functions, of all of a body.
#[tactic(auto, unfolding(image_form::specs::Fields::table_at))]
pub(crate) fn func_table(alloc: Global, seen: &mut Seen, body: &[u8]) -> Result<Vec<FuncRow>, Stop>
    requires { HoldsTexts seen.old [] }
    ensures gives { GivesField (λ rows. map func rows.items) result (table_at func_at body.now) }
    ensures seen { IfOk result (λ rows. HoldsTexts seen.new (func_names (map func rows.items))) }
    ensures memory { IsErrOf result Stop.Memory → IsOk (number_at w32 body.now) }
{
    let (count, rest) = u32_from(body)?;
    let (rows, rest) = funcs_from(alloc, seen, count, rest)?;
    if !rest.is_empty() {
        return Err(Stop::Left(rest.len()));
    }
    Ok(rows)
}

fn numbers_from(alloc: Global, count: usize, bytes: &[u8]) -> Result<(Vec<u32>, &[u8]), Stop>
    ensures { GivesField (λ x.
        (x.0.items, x.1.now)) result (rows_at (λ _. number_at w32) [] count bytes.now) }
{
    let mut numbers = Vec::new(alloc);
    let mut rest = bytes;
    for _ in 0..count {
        let (number, after) = u32_from(rest)?;
        numbers.push(number)?;
        rest = after;
    }
    Ok((numbers, rest))
}

/// The words of the code, of all of a body.
#[tactic(auto, unfolding(image_form::specs::Fields::words_of_body))]
pub(crate) fn words(alloc: Global, body: &[u8]) -> Result<Vec<u32>, Stop>
    ensures { GivesField (λ words. words.items) result (words_of_body body.now) }
{
    let (words, _) = numbers_from(alloc, body.len() / 4, body)?;
    Ok(words)
}

/// Whether a symbol at the offset is not before the last of those before it.
fn falls_not(before: &[SymRow], offset: u32) -> bool
    ensures { result ≡ at_last (λ s. nat_le s.offset offset) (map sym before.now) }
{
    match before.last() {
        None => true,
        Some(row) => row.offset <= offset,
    }
}

#[tactic(auto, unfolding(image_form::specs::Fields::sym_offset_at, image_form::specs::Fields::kept))]
fn sym_offset_from<'a>(
    data_len: usize,
    before: &[SymRow],
    bytes: &'a [u8],
) -> Result<(u32, &'a [u8]), BadField>
    ensures { ReadsField (λ x.
        (x.0, x.1.now)) result (sym_offset_at data_len (map sym before.now) bytes.now) }
{
    let (offset, rest) = u32_from(bytes)?;
    if offset as usize > data_len || !falls_not(before, offset) {
        return Err(BadField { left: bytes.len() });
    }
    Ok((offset, rest))
}

/// A symbol. The names that came before are those of the functions and of the symbols before it.
#[tactic(auto, unfolding(image_form::specs::Fields::sym_at))]
fn sym_from<'a>(
    alloc: Global,
    seen: &mut Seen,
    data_len: usize,
    before: &[SymRow],
    bytes: &'a [u8],
) -> Result<(SymRow, &'a [u8]), Stop>
    ensures gives { (names : List (List ℕ))
        → HoldsTexts seen.old (names ++ sym_names (map sym before.now))
        → GivesField (λ x. (sym x.0, x.1.now)) result
        (sym_at names data_len (map sym before.now) bytes.now) }
    ensures seen { (names : List (List ℕ))
        → HoldsTexts seen.old (names ++ sym_names (map sym before.now))
        → IfOk result
        (λ x. HoldsTexts seen.new ((names ++ sym_names (map sym before.now)) ++ x.0.name ∷ [])) }
    ensures memory { IsErrOf result Stop.Memory → IsOk (name_at bytes.now) }
{
    let (name, rest) = new_name_from(alloc, seen, bytes)?;
    let (offset, rest) = sym_offset_from(data_len, before, rest)?;
    let row = SymRow {
        name: Name::from_vec(name),
        offset,
    };
    Ok((row, rest))
}

fn syms_from<'a>(
    alloc: Global,
    seen: &mut Seen,
    data_len: usize,
    count: u32,
    bytes: &'a [u8],
) -> Result<(Vec<SymRow>, &'a [u8]), Stop>
    ensures { (names : List (List ℕ))
        → HoldsTexts seen.old names
        → GivesField (λ x. (map sym x.0.items, x.1.now)) result
        (rows_at (sym_at names data_len) [] count bytes.now) }
{
    let mut rows = Vec::new(alloc);
    let mut rest = bytes;
    for _ in 0..count {
        let (row, after) = sym_from(alloc, seen, data_len, &rows, rest)?;
        rows.push(row)?;
        rest = after;
    }
    Ok((rows, rest))
}

/// The symbols, of all of a body.
#[tactic(auto, unfolding(image_form::specs::Fields::table_at))]
pub(crate) fn sym_table(
    alloc: Global,
    seen: &mut Seen,
    data_len: usize,
    body: &[u8],
) -> Result<Vec<SymRow>, Stop>
    ensures gives { (names : List (List ℕ))
        → HoldsTexts seen.old names
        → GivesField (λ rows. map sym rows.items) result (table_at (sym_at names data_len) body.now) }
    ensures memory { IsErrOf result Stop.Memory → IsOk (number_at w32 body.now) }
{
    let (count, rest) = u32_from(body)?;
    let (rows, rest) = syms_from(alloc, seen, data_len, count, rest)?;
    if !rest.is_empty() {
        return Err(Stop::Left(rest.len()));
    }
    Ok(rows)
}

/// Whether the number is above the last of those before it.
fn rises(before: &[u32], number: u32) -> bool
    ensures { result ≡ at_last (λ p. nat_lt p number) before.now }
{
    match before.last() {
        None => true,
        Some(last) => *last < number,
    }
}

/// Whether a cell of 8 bytes is at the offset in the data.
fn is_cell(data_len: usize, offset: u32) -> bool
    ensures { result ≡ ((offset % 8 == 0) && nat_le (offset + 8) data_len) }
{
    offset % 8 == 0 && u64::from(offset) + 8 <= data_len as u64
}

#[tactic(auto, unfolding(image_form::specs::Fields::root_offset_field, image_form::specs::Fields::kept))]
fn root_from<'a>(
    data_len: usize,
    before: &[u32],
    bytes: &'a [u8],
) -> Result<(u32, &'a [u8]), BadField>
    ensures { ReadsField (λ x. (x.0, x.1.now)) result (root_offset_field data_len before.now bytes.now) }
{
    let (root, rest) = u32_from(bytes)?;
    if !is_cell(data_len, root) || !rises(before, root) {
        return Err(BadField { left: bytes.len() });
    }
    Ok((root, rest))
}

fn roots_from(
    alloc: Global,
    data_len: usize,
    count: u32,
    bytes: &[u8],
) -> Result<(Vec<u32>, &[u8]), Stop>
    ensures { GivesField (λ x.
        (x.0.items, x.1.now)) result (rows_at (root_offset_field data_len) [] count bytes.now) }
{
    let mut rows = Vec::new(alloc);
    let mut rest = bytes;
    for _ in 0..count {
        let (row, after) = root_from(data_len, &rows, rest)?;
        rows.push(row)?;
        rest = after;
    }
    Ok((rows, rest))
}

/// The root cells, of all of a body.
#[tactic(auto, unfolding(image_form::specs::Fields::table_at))]
pub(crate) fn root_table(alloc: Global, data_len: usize, body: &[u8]) -> Result<Vec<u32>, Stop>
    ensures gives { GivesField (λ rows. rows.items) result (table_at (root_offset_field data_len) body.now) }
    ensures memory { IsErrOf result Stop.Memory → IsOk (number_at w32 body.now) }
{
    let (count, rest) = u32_from(body)?;
    let (rows, rest) = roots_from(alloc, data_len, count, rest)?;
    if !rest.is_empty() {
        return Err(Stop::Left(rest.len()));
    }
    Ok(rows)
}

/// An external call. The rows that came before are known by their bytes.
#[tactic(auto, unfolding(image_form::specs::Fields::ext_at, image_form::specs::Fields::kept))]
fn ext_from<'a>(alloc: Global, seen: &mut Seen, bytes: &'a [u8]) -> Result<(ExtRow, &'a [u8]), Stop>
    ensures gives { (before : List External)
        → HoldsTexts seen.old (map ext_bytes before)
        → GivesField (λ x. (ext x.0, x.1.now)) result (ext_at before bytes.now) }
    ensures seen { (before : List External)
        → HoldsTexts seen.old (map ext_bytes before)
        → IfOk result (λ x. HoldsTexts seen.new (map ext_bytes before ++ ext_bytes (ext x.0) ∷ [])) }
    ensures memory { IsErrOf result Stop.Memory → IsOk (name_at bytes.now) }
{
    let (name, rest) = name_from(bytes)?;
    let name = Vec::from_slice(alloc, name)?;
    let (params, rest) = params_from(alloc, 1, rest)?;
    let (result, behind) = ext_result_from(rest)?;
    let row = ExtRow {
        name: Name::from_vec(name),
        params: bs_words::List::from_vec(params),
        result,
    };
    let is_new = seen.insert(ext_text(alloc, &row)?)?;
    if !is_new {
        return Err(Stop::Left(rest.len()));
    }
    Ok((row, behind))
}

fn extcs_from<'a>(
    alloc: Global,
    seen: &mut Seen,
    count: u32,
    bytes: &'a [u8],
) -> Result<(Vec<ExtRow>, &'a [u8]), Stop>
    requires { HoldsTexts seen.old [] }
    ensures { GivesField (λ x. (map ext x.0.items, x.1.now)) result (rows_at ext_at [] count bytes.now) }
{
    let mut rows = Vec::new(alloc);
    let mut rest = bytes;
    for _ in 0..count {
        let (row, after) = ext_from(alloc, seen, rest)?;
        rows.push(row)?;
        rest = after;
    }
    Ok((rows, rest))
}

/// The external calls, of all of a body.
#[tactic(auto, unfolding(image_form::specs::Fields::table_at))]
pub(crate) fn ext_table(alloc: Global, body: &[u8]) -> Result<Vec<ExtRow>, Stop>
    ensures gives { GivesField (λ rows. map ext rows.items) result (table_at ext_at body.now) }
    ensures memory { IsErrOf result Stop.Memory → IsOk (number_at w32 body.now) }
{
    let (count, rest) = u32_from(body)?;
    let mut seen = Seen::new(alloc);
    let (rows, rest) = extcs_from(alloc, &mut seen, count, rest)?;
    if !rest.is_empty() {
        return Err(Stop::Left(rest.len()));
    }
    Ok(rows)
}

/// Whether the entry names a register, or a place in a frame of that size.
#[tactic(auto, unfolding(image_form::specs::Fields::is_entry))]
fn is_entry(size: u32, entry: u32) -> bool
    ensures { result ≡ is_entry size entry }
{
    entry % 2 == 1 && entry <= 63 || entry % 8 == 0 && entry < size
}

/// Whether the entry may be next: registers first, and each part rising.
#[tactic(auto, unfolding(image_form::specs::Fields::is_next_entry))]
fn is_next_entry(last: u32, entry: u32) -> bool
    ensures { result ≡ is_next_entry last entry }
{
    last % 2 == entry % 2 && last < entry || last % 2 == 1 && entry % 2 == 0
}

fn continues(before: &[u32], entry: u32) -> bool
    ensures { result ≡ at_last (λ p. is_next_entry p entry) before.now }
{
    match before.last() {
        None => true,
        Some(last) => is_next_entry(*last, entry),
    }
}

#[tactic(auto, unfolding(image_form::specs::Fields::entry_at, image_form::specs::Fields::kept))]
fn entry_from<'a>(
    version: u32,
    size: u32,
    before: &[u32],
    bytes: &'a [u8],
) -> Result<(u32, &'a [u8]), BadField>
    ensures { ReadsField (λ x. (x.0, x.1.now)) result (entry_at version size before.now bytes.now) }
{
    let (entry, rest) = wide_from(version, bytes)?;
    if !is_entry(size, entry) || !continues(before, entry) {
        return Err(BadField { left: bytes.len() });
    }
    Ok((entry, rest))
}

fn entries_from(
    alloc: Global,
    version: u32,
    size: u32,
    count: u32,
    bytes: &[u8],
) -> Result<(Vec<u32>, &[u8]), Stop>
    ensures { GivesField (λ x. (x.0.items, x.1.now)) result
        (rows_at (entry_at version size) [] count bytes.now) }
{
    let mut entries = Vec::new(alloc);
    let mut rest = bytes;
    for _ in 0..count {
        let (entry, after) = entry_from(version, size, &entries, rest)?;
        entries.push(entry)?;
        rest = after;
    }
    Ok((entries, rest))
}

/// Whether a call in the code can return to the offset.
fn is_return(code_len: usize, offset: u32) -> bool
    ensures { result ≡ is_return code_len offset }
{
    offset % 4 == 0 && offset as u64 >= FIRST_RETURN && offset as usize <= code_len
}

/// Whether a descriptor of the offset may be after the last of those before it.
fn returns_behind(before: &[DescRow], offset: u32) -> bool
    ensures { result ≡ at_last (λ d. nat_lt d.after offset) (map desc before.now) }
{
    match before.last() {
        None => true,
        Some(row) => row.after < offset,
    }
}

#[tactic(auto, unfolding(image_form::specs::Fields::after_at, image_form::specs::Fields::kept))]
fn after_from<'a>(
    code_len: usize,
    before: &[DescRow],
    bytes: &'a [u8],
) -> Result<(u32, &'a [u8]), BadField>
    ensures { ReadsField (λ x.
        (x.0, x.1.now)) result (after_at code_len (map desc before.now) bytes.now) }
{
    let (offset, rest) = u32_from(bytes)?;
    if !is_return(code_len, offset) || !returns_behind(before, offset) {
        return Err(BadField { left: bytes.len() });
    }
    Ok((offset, rest))
}

#[tactic(auto, unfolding(image_form::specs::Fields::frame_size_field, image_form::specs::Fields::kept))]
fn size_from(version: u32, bytes: &[u8]) -> Result<(u32, &[u8]), BadField>
    ensures { ReadsField (λ x. (x.0, x.1.now)) result (frame_size_field version bytes.now) }
{
    let (size, rest) = wide_from(version, bytes)?;
    if size % 16 != 0 || size < 16 {
        return Err(BadField { left: bytes.len() });
    }
    Ok((size, rest))
}

#[tactic(auto, unfolding(image_form::specs::Fields::desc_at))]
fn desc_from<'a>(
    alloc: Global,
    version: u32,
    code_len: usize,
    before: &[DescRow],
    bytes: &'a [u8],
) -> Result<(DescRow, &'a [u8]), Stop>
    ensures { GivesField (λ x. (desc x.0, x.1.now)) result
        (desc_at version code_len (map desc before.now) bytes.now) }
{
    let (after, rest) = after_from(code_len, before, bytes)?;
    let (size, rest) = size_from(version, rest)?;
    let (count, rest) = wide_from(version, rest)?;
    let (entries, rest) = entries_from(alloc, version, size, count, rest)?;
    let row = DescRow {
        after,
        size,
        entries: bs_words::List::from_vec(entries),
    };
    Ok((row, rest))
}

fn descs_from(
    alloc: Global,
    version: u32,
    code_len: usize,
    count: u32,
    bytes: &[u8],
) -> Result<(Vec<DescRow>, &[u8]), Stop>
    ensures { GivesField (λ x. (map desc x.0.items, x.1.now)) result
        (rows_at (desc_at version code_len) [] count bytes.now) }
{
    let mut rows = Vec::new(alloc);
    let mut rest = bytes;
    for _ in 0..count {
        let (row, after) = desc_from(alloc, version, code_len, &rows, rest)?;
        rows.push(row)?;
        rest = after;
    }
    Ok((rows, rest))
}

/// The descriptors, of all of a body.
#[tactic(auto, unfolding(image_form::specs::Fields::table_at))]
pub(crate) fn desc_table(
    alloc: Global,
    version: u32,
    code_len: usize,
    body: &[u8],
) -> Result<Vec<DescRow>, Stop>
    ensures gives { GivesField (λ rows.
        map desc rows.items) result (table_at (desc_at version code_len) body.now) }
    ensures memory { IsErrOf result Stop.Memory → IsOk (number_at w32 body.now) }
{
    let (count, rest) = u32_from(body)?;
    let (rows, rest) = descs_from(alloc, version, code_len, count, rest)?;
    if !rest.is_empty() {
        return Err(Stop::Left(rest.len()));
    }
    Ok(rows)
}
