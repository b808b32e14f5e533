//! An image from bytes.
//!
//! A longer input than any image is still read as one, up to one byte past the longest, so that its first
//! fault is reported.
ghost use Rattle.std.specs.Prelude.{◌≡◌, List, ℕ, [], ◌*◌, ◌<◌, length, map, codes, IfOk, IfErr, IsErrOf, IsOk, Ok};
ghost use Rattle.image_form.specs.Tables.{tables, func, sym, ext, desc, func_names};
ghost use Rattle.image_form.specs.Image.{IsImage, image_bytes};
ghost use Rattle.image_form.specs.Seen.{HoldsTexts};
ghost use Rattle.image_form.specs.Fields.{func_at, sym_at, root_offset_field, ext_at, desc_at, table_at, words_of_body};
ghost use Rattle.image_codec.specs.Reading.{IsRefusalOf, ReadsImagePart, ReadsWithoutMemory, opening_at, refused, whole_at, after_mark, version_at, is_within_limits, length_at, section_at, placed_result, part_at, table_limits, data_limits, code_limits, code_least, image_reading};
ghost use Rattle.image_form.specs.declared.fault.ImageError.{ImageError};

use crate::rows::{desc_table, end_of, ext_table, func_table, root_table, sym_table, words};
use bs_fault::{ImageFault, ImageRefusal};
use bs_words::DATA_LIMIT;
use image_form::limits::{CODE_LIMIT, STUB_WORDS, TABLE_LIMIT};
use image_form::{DescRow, ExtRow, FuncRow, Image, ImageError, Seen, Stop, SymRow};
use std::alloc::Global;

/// What the length of a section's body may be, in bytes.
#[derive(Clone, Copy)]
pub(crate) struct Limits {
    pub least: u64,
    pub most: u64,
    /// The length is a multiple of this.
    pub step: u64,
}

const TABLE: Limits = Limits {
    least: 0,
    most: TABLE_LIMIT,
    step: 1,
};

const DATA: Limits = Limits {
    least: 8,
    most: DATA_LIMIT,
    step: 1,
};

/// The fault at the first of the bytes that are left of so many.
fn refusal(fault: ImageFault, total: usize, rest: &[u8]) -> ImageRefusal
    ensures { result ≡ refused fault total rest.now }
{
    let at = total.saturating_sub(rest.len()) as u64;
    ImageRefusal { fault, at }
}

/// The first bytes. Where they are not all there, the fault is at the end of the image.
#[tactic(auto, unfolding(crate::specs::Reading::whole_at))]
fn whole_from(total: usize, count: usize, bytes: &[u8]) -> Result<(&[u8], &[u8]), ImageRefusal>
    ensures reads { ReadsWithoutMemory (λ x. (x.0.now, x.1.now)) result (whole_at total count bytes.now) }
    ensures len { IfOk result (λ x. length x.0.now ≡ count) }
{
    if bytes.len() < count {
        return Err(ImageRefusal {
            fault: ImageFault::Truncated,
            at: total as u64,
        });
    }
    Ok(bytes.split_at(count))
}

#[tactic(auto, unfolding(crate::specs::Reading::after_mark))]
fn mark_from<'a>(
    total: usize,
    fault: ImageFault,
    mark: &[u8],
    bytes: &'a [u8],
) -> Result<&'a [u8], ImageRefusal>
    ensures { ReadsWithoutMemory (λ x. x.now) result (after_mark total fault mark.now bytes.now) }
{
    let (front, rest) = whole_from(total, mark.len(), bytes)?;
    if front == mark {
        Ok(rest)
    } else {
        Err(refusal(fault, total, bytes))
    }
}

/// The version, 1 or 2.
#[tactic(auto, unfolding(crate::specs::Reading::version_at))]
fn version_from(total: usize, bytes: &[u8]) -> Result<(u32, &[u8]), ImageRefusal>
    ensures { ReadsWithoutMemory (λ x. (x.0, x.1.now)) result (version_at total bytes.now) }
{
    let (front, rest) = whole_from(total, 4, bytes)?;
    let version = u32::from_le_bytes([front[0], front[1], front[2], front[3]]);
    if version == 1 || version == 2 {
        Ok((version, rest))
    } else {
        Err(refusal(ImageFault::Version, total, bytes))
    }
}

fn is_within(limits: Limits, len: u32) -> bool
    requires { 0 < limits.step }
    ensures { result ≡ is_within_limits limits len }
{
    let len = len as u64;
    len % limits.step == 0 && limits.least <= len && len <= limits.most
}

#[tactic(auto, unfolding(crate::specs::Reading::length_at))]
fn length_from(total: usize, limits: Limits, bytes: &[u8]) -> Result<(usize, &[u8]), ImageRefusal>
    requires { 0 < limits.step }
    ensures { ReadsWithoutMemory (λ x. (x.0, x.1.now)) result (length_at total limits bytes.now) }
{
    let (front, rest) = whole_from(total, 4, bytes)?;
    let len = u32::from_le_bytes([front[0], front[1], front[2], front[3]]);
    if is_within(limits, len) {
        Ok((len as usize, rest))
    } else {
        Err(refusal(ImageFault::Table, total, bytes))
    }
}

/// The body of the section of that name, and the bytes after it.
#[tactic(auto, unfolding(crate::specs::Reading::section_at))]
fn section_from<'a>(
    total: usize,
    name: &[u8],
    limits: Limits,
    bytes: &'a [u8],
) -> Result<(&'a [u8], &'a [u8]), ImageRefusal>
    requires { 0 < limits.step }
    ensures { ReadsWithoutMemory (λ x. (x.0.now, x.1.now)) result (section_at total name.now limits bytes.now) }
{
    let rest = mark_from(total, ImageFault::Section, name, bytes)?;
    let (len, rest) = length_from(total, limits, rest)?;
    whole_from(total, len, rest)
}

/// What was read of a body, with a fault known by its place in the image. After the body come the
/// other bytes.
fn placed<T>(total: usize, behind: &[u8], read: Result<T, Stop>) -> Result<T, ImageError>
    ensures { result ≡ placed_result total behind.now read }
{
    match read {
        Ok(x) => Ok(x),
        Err(Stop::Memory) => Err(ImageError::OutOfMemory),
        Err(Stop::Left(left)) => {
            let end = total.saturating_sub(behind.len());
            Err(ImageError::Refused(ImageRefusal {
                fault: ImageFault::Table,
                at: end.saturating_sub(left) as u64,
            }))
        }
    }
}

/// The functions. The names that are before the symbols are then theirs.
#[tactic(auto, unfolding(crate::specs::Reading::part_at))]
fn func_part<'a>(
    alloc: Global,
    total: usize,
    seen: &mut Seen,
    bytes: &'a [u8],
) -> Result<(Vec<FuncRow>, &'a [u8]), ImageError>
    requires { HoldsTexts seen.old [] }
    ensures reads { ReadsImagePart (λ x. (map func x.0.items, x.1.now)) result
        (part_at total (codes "FUNC") table_limits (table_at func_at) bytes.now) }
    ensures seen { IfOk result (λ x. HoldsTexts seen.new (func_names (map func x.0.items))) }
    ensures whole { IfOk result (λ _. IsOk (section_at total (codes "FUNC") table_limits bytes.now)) }
    ensures memory { IsErrOf result ImageError.OutOfMemory
        → IsOk (section_at total (codes "FUNC") table_limits bytes.now) }
{
    let (body, rest) = section_from(total, b"FUNC", TABLE, bytes)?;
    let rows = placed(total, rest, func_table(alloc, seen, body))?;
    Ok((rows, rest))
}

/// The bytes that the code has at least: those of the stub, and those up to the end of each function.
#[tactic(auto, unfolding(crate::specs::Reading::code_least))]
fn code_least(funcs: &[FuncRow]) -> u64
    ensures { result ≡ code_least (map func funcs.now) }
{
    let mut least = 4 * STUB_WORDS;
    for row in funcs {
        least = least.max(end_of(row));
    }
    least
}

#[tactic(auto, unfolding(crate::specs::Reading::part_at))]
fn code_part<'a>(
    alloc: Global,
    total: usize,
    funcs: &[FuncRow],
    bytes: &'a [u8],
) -> Result<(Vec<u32>, &'a [u8]), ImageError>
    ensures reads { ReadsImagePart (λ x. (x.0.items, x.1.now)) result
        (part_at total (codes "CODE") (code_limits (map func funcs.now)) words_of_body bytes.now) }
    ensures memory { IsErrOf result ImageError.OutOfMemory
        → IsOk (section_at total (codes "CODE") (code_limits (map func funcs.now)) bytes.now) }
{
    let limits = Limits {
        least: code_least(funcs),
        most: CODE_LIMIT,
        step: 4,
    };
    let (body, rest) = section_from(total, b"CODE", limits, bytes)?;
    let words = placed(total, rest, words(alloc, body))?;
    Ok((words, rest))
}

#[tactic(auto, unfolding(crate::specs::Reading::part_at))]
fn data_part(alloc: Global, total: usize, bytes: &[u8]) -> Result<(Vec<u8>, &[u8]), ImageError>
    ensures reads { ReadsImagePart (λ x. (x.0.items, x.1.now)) result
        (part_at total (codes "DATA") data_limits Ok bytes.now) }
    ensures memory { IsErrOf result ImageError.OutOfMemory
        → IsOk (section_at total (codes "DATA") data_limits bytes.now) }
{
    let (body, rest) = section_from(total, b"DATA", DATA, bytes)?;
    Ok((Vec::from_slice(alloc, body)?, rest))
}

#[tactic(auto, unfolding(crate::specs::Reading::part_at))]
fn sym_part<'a>(
    alloc: Global,
    total: usize,
    seen: &mut Seen,
    data_len: usize,
    bytes: &'a [u8],
) -> Result<(Vec<SymRow>, &'a [u8]), ImageError>
    ensures reads { (names : List (List ℕ))
        → HoldsTexts seen.old names
        → ReadsImagePart (λ x. (map sym x.0.items, x.1.now)) result
        (part_at total (codes "SYMS") table_limits (table_at (sym_at names data_len))
        bytes.now) }
    ensures memory { IsErrOf result ImageError.OutOfMemory
        → IsOk (section_at total (codes "SYMS") table_limits bytes.now) }
{
    let (body, rest) = section_from(total, b"SYMS", TABLE, bytes)?;
    let rows = placed(total, rest, sym_table(alloc, seen, data_len, body))?;
    Ok((rows, rest))
}

#[tactic(auto, unfolding(crate::specs::Reading::part_at))]
fn root_part(
    alloc: Global,
    total: usize,
    data_len: usize,
    bytes: &[u8],
) -> Result<(Vec<u32>, &[u8]), ImageError>
    ensures reads { ReadsImagePart (λ x. (x.0.items, x.1.now)) result
        (part_at total (codes "ROOT") table_limits (table_at (root_offset_field data_len)) bytes.now) }
    ensures memory { IsErrOf result ImageError.OutOfMemory
        → IsOk (section_at total (codes "ROOT") table_limits bytes.now) }
{
    let (body, rest) = section_from(total, b"ROOT", TABLE, bytes)?;
    let rows = placed(total, rest, root_table(alloc, data_len, body))?;
    Ok((rows, rest))
}

#[tactic(auto, unfolding(crate::specs::Reading::part_at))]
fn ext_part(alloc: Global, total: usize, bytes: &[u8]) -> Result<(Vec<ExtRow>, &[u8]), ImageError>
    ensures reads { ReadsImagePart (λ x. (map ext x.0.items, x.1.now)) result
        (part_at total (codes "EXTC") table_limits (table_at ext_at) bytes.now) }
    ensures memory { IsErrOf result ImageError.OutOfMemory
        → IsOk (section_at total (codes "EXTC") table_limits bytes.now) }
{
    let (body, rest) = section_from(total, b"EXTC", TABLE, bytes)?;
    let rows = placed(total, rest, ext_table(alloc, body))?;
    Ok((rows, rest))
}

#[tactic(auto, unfolding(crate::specs::Reading::part_at))]
fn desc_part(
    alloc: Global,
    total: usize,
    version: u32,
    code_len: usize,
    bytes: &[u8],
) -> Result<(Vec<DescRow>, &[u8]), ImageError>
    ensures reads { ReadsImagePart (λ x. (map desc x.0.items, x.1.now)) result
        (part_at total (codes "DESC") table_limits (table_at (desc_at version code_len))
        bytes.now) }
    ensures memory { IsErrOf result ImageError.OutOfMemory
        → IsOk (section_at total (codes "DESC") table_limits bytes.now) }
{
    let (body, rest) = section_from(total, b"DESC", TABLE, bytes)?;
    let rows = placed(total, rest, desc_table(alloc, version, code_len, body))?;
    Ok((rows, rest))
}

#[tactic(auto, unfolding(crate::specs::Reading::image_reading, crate::specs::Reading::opening_at))]
fn image_from(alloc: Global, bytes: &[u8]) -> Result<Image, ImageError>
    ensures reads { ReadsImagePart tables result (image_reading bytes.now) }
    ensures memory { IsErrOf result ImageError.OutOfMemory → IsOk (opening_at bytes.now) }
{
    let total = bytes.len();
    let rest = mark_from(total, ImageFault::Magic, b"CMMRV64\n", bytes)?;
    let (version, rest) = version_from(total, rest)?;
    let mut seen = Seen::new(alloc);
    let (funcs, rest) = func_part(alloc, total, &mut seen, rest)?;
    let (code, rest) = code_part(alloc, total, &funcs, rest)?;
    let (data, rest) = data_part(alloc, total, rest)?;
    let (syms, rest) = sym_part(alloc, total, &mut seen, data.len(), rest)?;
    let (roots, rest) = root_part(alloc, total, data.len(), rest)?;
    let (extcs, rest) = ext_part(alloc, total, rest)?;
    let (descs, rest) = desc_part(alloc, total, version, 4 * code.len(), rest)?;
    if !rest.is_empty() {
        return Err(refusal(ImageFault::Trailing, total, rest).into());
    }
    Ok(Image {
        version,
        funcs: bs_words::List::from_vec(funcs),
        code: bs_words::List::from_vec(code),
        bytes: bs_words::List::from_vec(data),
        syms: bs_words::List::from_vec(syms),
        roots: bs_words::List::from_vec(roots),
        extcs: bs_words::List::from_vec(extcs),
        descs: bs_words::List::from_vec(descs),
    })
}

/// The image that the bytes spell.
///
/// # Errors
///
/// `Refused` exactly where no image has these bytes, with the first fault from the front. A fault in a field is
/// reported at the field's first byte, one of a name at its length, and bytes that end too early at their end.
/// `OutOfMemory` where memory ran out before the answer is known, and never for a fault in the mark, in the version or in
/// the frame of the first section.
pub fn read_image(alloc: Global, bytes: &[u8]) -> Result<Image, ImageError>
    // What is read is an image, and these are its bytes.
    ensures found { IfOk result (λ image. IsImage image × (image_bytes image ≡ bytes.now)) }
    // The bytes of an image are read as that image, unless memory runs out.
    ensures only { (image : Image)
        → IsImage image
        → image_bytes image ≡ bytes.now
        → ReadsImagePart tables result (Ok (tables image)) }
    // What is refused is no image's bytes, and the fault is the first.
    ensures refused { IfErr result (IsRefusalOf bytes.now) }
    // Memory is wanted only behind a right mark, a known version and a whole first section.
    ensures memory { IsErrOf result ImageError.OutOfMemory → IsOk (opening_at bytes.now) }
{
    image_from(alloc, bytes)
}
