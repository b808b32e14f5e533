//! A section of an image that passes its limit.
ghost use Rattle.std.specs.Prelude.{◌≡◌, IfOk};
ghost use Rattle.bs_words.specs.Contents.{contents};
ghost use Rattle.bs_fault.specs.Lines.{section_word, large_line};

use bs_words::List;
use std::alloc::{AllocError, Global};

/// A section of an image or of a unit.
#[derive(Clone, Copy, Debug)]
pub enum Section {
    /// The functions.
    Func,
    /// The words of code.
    Code,
    /// The bytes of data.
    Data,
    /// The symbols of the data.
    Syms,
    /// The root cells of the data.
    Root,
    /// The external calls.
    Extc,
    /// The frame descriptors.
    Desc,
    /// The imports of a unit.
    Imps,
    /// The relocations of a unit.
    Relo,
}

/// B1: a section whose body passes its limit.
#[derive(Clone, Copy, Debug)]
pub struct Large {
    /// The section that passes its limit.
    pub section: Section,
    /// The bytes that the body would have.
    pub bytes: u64,
}

fn section_word(section: Section) -> &'static str
    ensures { result.now ≡ section_word section }
{
    match section {
        Section::Func => "FUNC",
        Section::Code => "CODE",
        Section::Data => "DATA",
        Section::Syms => "SYMS",
        Section::Root => "ROOT",
        Section::Extc => "EXTC",
        Section::Desc => "DESC",
        Section::Imps => "IMPS",
        Section::Relo => "RELO",
    }
}

/// The line of the refusal, as `cmmc: B1 ImageTooLarge DESC 67233604` and a line feed. It fails
/// only if memory runs out.
pub fn large_text(alloc: Global, large: &Large) -> Result<List<u8>, AllocError>
    ensures { IfOk result (λ text. contents text ≡ large_line large.now) }
{
    let word = section_word(large.section);
    let bytes = large.bytes;
    let line = format!(in alloc; "cmmc: B1 ImageTooLarge {word} {bytes}\n")?;
    Ok(List::from_vec(line.into_bytes()))
}
