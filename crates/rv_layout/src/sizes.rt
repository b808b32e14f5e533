//! Which section of an image is the first that passes its limit.
ghost use Rattle.std.specs.Prelude.{◌≡◌};
ghost use Rattle.image_form.specs.Tables.{Tables};
ghost use Rattle.rv_layout_rules.specs.TooLarge.{first_too_large};
ghost use Rattle.rv_layout.specs.Sizes.{AreSizesOf};

use bs_fault::{Large, Section};
use bs_words::DATA_LIMIT;
use image_form::limits::{CODE_LIMIT, TABLE_LIMIT};

/// The bytes of the bodies of an image's sections, as they are known before any of it is made.
#[derive(Clone, Copy)]
pub struct Sizes {
    /// Of FUNC: the rows of the functions.
    pub funcs: u64,
    /// Of CODE: the words of the functions, four bytes each, and those before the first.
    pub code: u64,
    /// Of DATA: the static data.
    pub bytes: u64,
    /// Of SYMS: the rows of the symbols of the data.
    pub syms: u64,
    /// Of ROOT: the cells of the data that hold vals.
    pub roots: u64,
    /// Of EXTC: the rows of the external calls.
    pub extcs: u64,
    /// Of DESC: the frame descriptors.
    pub descs: u64,
}

/// The first section that passes its limit, with its bytes.
pub fn too_large(sizes: &Sizes) -> Option<Large>
    ensures { (t : Tables) → AreSizesOf sizes.now t → result ≡ first_too_large t }
{
    if sizes.funcs > TABLE_LIMIT {
        return Some(Large {
            section: Section::Func,
            bytes: sizes.funcs,
        });
    }
    if sizes.code > CODE_LIMIT {
        return Some(Large {
            section: Section::Code,
            bytes: sizes.code,
        });
    }
    if sizes.bytes > DATA_LIMIT {
        return Some(Large {
            section: Section::Data,
            bytes: sizes.bytes,
        });
    }
    if sizes.syms > TABLE_LIMIT {
        return Some(Large {
            section: Section::Syms,
            bytes: sizes.syms,
        });
    }
    if sizes.roots > TABLE_LIMIT {
        return Some(Large {
            section: Section::Root,
            bytes: sizes.roots,
        });
    }
    if sizes.extcs > TABLE_LIMIT {
        return Some(Large {
            section: Section::Extc,
            bytes: sizes.extcs,
        });
    }
    if sizes.descs > TABLE_LIMIT {
        return Some(Large {
            section: Section::Desc,
            bytes: sizes.descs,
        });
    }
    None
}
