//! What the tables about code are about.
use crate::laid_rows::Laid;
use crate::mach_rows::Passes;

/// What a table is about, which says how its rows are read and what is shown of them.
#[derive(Clone, Copy)]
pub enum Code {
    /// Texts, and their Mach functions as selection gives them (`texts`).
    Selection,
    /// Pieces of one function with many frame descriptors (`large`).
    Large,
    /// Functions made by hand, and what is laid out of them (`laid_rows`).
    Laid(Laid),
    /// Mach functions made by hand, and what passes make of them (`mach_rows`).
    Passes(Passes),
}

impl Code {
    /// What the table with this name is about; none where no table here has it.
    pub fn of(name: &str) -> Option<Code> {
        match name {
            "selection" => Some(Code::Selection),
            "large" => Some(Code::Large),
            "pieces" => Some(Code::Laid(Laid::Pieces)),
            "functions" => Some(Code::Laid(Laid::Functions)),
            "splits" => Some(Code::Passes(Passes::Splits)),
            "spills" => Some(Code::Passes(Passes::Spills)),
            "lines" => Some(Code::Passes(Passes::Lines)),
            _ => None,
        }
    }
}
