//! What is wrong with the bytes of an image.
ghost use Rattle.std.specs.Prelude.{◌≡◌, IfOk};
ghost use Rattle.bs_words.specs.Contents.{contents};
ghost use Rattle.bs_fault.specs.Lines.{image_word, image_line};

use bs_words::List;
use std::alloc::{AllocError, Global};

/// The kind of a fault.
#[derive(Clone, Copy, Debug)]
pub enum ImageFault {
    /// G1: the bytes end inside a field, or before the next one, or inside a section's body.
    Truncated,
    /// G2: the first eight bytes are not those of an image.
    Magic,
    /// G3: the version is unknown.
    Version,
    /// G4: a section's name is not the next one.
    Section,
    /// G5: a length or a field breaks a rule, or passes the end of its body.
    Table,
    /// G6: bytes are after the last section.
    Trailing,
}

/// The first fault of an image, in the order of its bytes.
#[derive(Clone, Copy, Debug)]
pub struct ImageRefusal {
    /// What is wrong.
    pub fault: ImageFault,
    /// The number of bytes before the place of the fault.
    pub at: u64,
}

fn image_word(fault: ImageFault) -> &'static str
    ensures { result.now ≡ image_word fault }
{
    match fault {
        ImageFault::Truncated => "G1 Truncated",
        ImageFault::Magic => "G2 Magic",
        ImageFault::Version => "G3 Version",
        ImageFault::Section => "G4 Section",
        ImageFault::Table => "G5 Table",
        ImageFault::Trailing => "G6 Trailing",
    }
}

/// The line of the fault, as `cmmc: G1 Truncated at 133` and a line feed. It fails only if memory
/// runs out.
pub fn image_text(alloc: Global, refusal: &ImageRefusal) -> Result<List<u8>, AllocError>
    ensures { IfOk result (λ text. contents text ≡ image_line refusal.now) }
{
    let word = image_word(refusal.fault);
    let at = refusal.at;
    let line = format!(in alloc; "cmmc: {word} at {at}\n")?;
    Ok(List::from_vec(line.into_bytes()))
}
