//! Which words follow the name of an instruction, its registers aside.

use crate::words::{entry, given, number, operator};

/// The words that may follow those that must.
#[derive(Clone, Copy)]
enum More {
    Nothing,
    /// A constant, as `#5`.
    Constant,
    /// The name of a result, as `val`.
    Result,
    /// A number of bytes.
    Offset,
    /// Any numbers.
    Numbers,
    /// Any blocks.
    Blocks,
}

impl More {
    /// Whether the word may follow.
    fn allows(self, word: &str) -> bool {
        match self {
            More::Nothing => false,
            More::Constant => match word.strip_prefix("#") {
                Some(constant) => number(constant).is_some(),
                None => false,
            },
            More::Result => given(word).is_some(),
            More::Offset => number(word).is_some(),
            More::Numbers => word.parse::<u32>().is_ok(),
            More::Blocks => true,
        }
    }

    /// Whether more than one word may follow.
    fn are_many(self) -> bool {
        match self {
            More::Nothing => false,
            More::Constant => false,
            More::Result => false,
            More::Offset => false,
            More::Numbers => true,
            More::Blocks => true,
        }
    }
}

/// So many words, then so many numbers, then more.
#[derive(Clone, Copy)]
pub(crate) struct Form {
    words: usize,
    numbers: usize,
    more: More,
}

impl Form {
    /// Whether these are its words.
    pub(crate) fn fits(self, words: &[&str]) -> bool {
        let needed = self.words.wrapping_add(self.numbers);
        for (place, word) in words.iter().enumerate() {
            let fits = if place < self.words {
                true
            } else if place < needed {
                word.parse::<u32>().is_ok()
            } else {
                self.more.allows(word)
            };
            if !fits {
                return false;
            }
        }
        let most = needed.wrapping_add(1);
        needed <= words.len() && (words.len() <= most || self.more.are_many())
    }
}

const NOTHING: Form = Form {
    words: 0,
    numbers: 0,
    more: More::Nothing,
};

const WORD: Form = Form {
    words: 1,
    numbers: 0,
    more: More::Nothing,
};

const LABEL: Form = Form {
    words: 0,
    numbers: 1,
    more: More::Nothing,
};

const LABELS: Form = Form {
    words: 0,
    numbers: 2,
    more: More::Nothing,
};

const TEST: Form = Form {
    words: 1,
    numbers: 1,
    more: More::Constant,
};

const RIGHT: Form = Form {
    words: 0,
    numbers: 0,
    more: More::Constant,
};

const CALL: Form = Form {
    words: 1,
    numbers: 0,
    more: More::Result,
};

const CALL_OF_REGISTER: Form = Form {
    words: 0,
    numbers: 0,
    more: More::Result,
};

const OFFSET: Form = Form {
    words: 0,
    numbers: 0,
    more: More::Offset,
};

const SWITCH: Form = Form {
    words: 0,
    numbers: 0,
    more: More::Numbers,
};

const CASE: Form = Form {
    words: 0,
    numbers: 2,
    more: More::Numbers,
};

const BLOCKS: Form = Form {
    words: 0,
    numbers: 0,
    more: More::Blocks,
};

/// The marks of Mach.
pub(crate) static MARKS: [(&str, Form); 11] = [
    ("exit", LABELS),
    ("if", TEST),
    ("else", LABELS),
    ("switch", SWITCH),
    ("case", CASE),
    ("catch", NOTHING),
    ("with", LABELS),
    ("try", LABEL),
    ("leave", LABELS),
    ("handler", LABEL),
    ("end", LABEL),
];

/// What leads elsewhere in Linear.
pub(crate) static FLOWS: [(&str, Form); 8] = [
    ("label", LABEL),
    ("jump", LABEL),
    ("exit", LABEL),
    ("branch", TEST),
    ("switch", SWITCH),
    ("push", LABEL),
    ("pop", NOTHING),
    ("enter", NOTHING),
];

/// The operations of both that have names of their own.
static OPERATIONS: [(&str, Form); 15] = [
    ("move", NOTHING),
    ("spill", NOTHING),
    ("reload", NOTHING),
    ("const", WORD),
    ("symbol", WORD),
    ("call", CALL),
    ("callreg", CALL_OF_REGISTER),
    ("tail", CALL),
    ("tailreg", CALL_OF_REGISTER),
    ("extern", CALL),
    ("frame", CALL),
    ("alloc", BLOCKS),
    ("checkbound", RIGHT),
    ("raise", NOTHING),
    ("return", NOTHING),
];

/// The form of the instruction with this name, which is one of the marks or an operation.
pub(crate) fn form_of(marks: &[(&'static str, Form)], name: &str) -> Option<Form> {
    if let Some(form) = entry(marks, name) {
        return Some(form);
    }
    if let Some(form) = entry(&OPERATIONS, name) {
        return Some(form);
    }
    if operator(name).is_some() {
        return Some(RIGHT);
    }
    if name.starts_with("load:") || name.starts_with("store:") {
        return Some(OFFSET);
    }
    None
}
