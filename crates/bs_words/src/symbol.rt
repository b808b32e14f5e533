//! The names of symbols.
ghost use Rattle.std.specs.Prelude.{◌≡◌, ◌↔◌, ◌≤◌, length, IsTrue};
ghost use Rattle.std.specs.List.{list_all};
ghost use Rattle.std.specs.Char.{is_ascii_graphic};
ghost use Rattle.bs_words.specs.Symbol.{is_symbol, IsSymbol};

/// Whether each byte is 0x21 to 0x7E.
fn are_graphic(bytes: &[u8]) -> bool
    ensures { result ≡ list_all is_ascii_graphic bytes.now }
{
    bytes.iter().all(|byte| byte.is_ascii_graphic())
}

fn is_one(bytes: &[u8]) -> bool
    ensures value { result ≡ is_symbol bytes.now }
    ensures short { IsTrue result → length bytes.now ≤ 255 }
{
    !bytes.is_empty() && bytes.len() <= 255 && are_graphic(bytes)
}

/// Whether these bytes are the name of a symbol: 1 to 255 bytes, each 0x21 to 0x7E.
#[tactic(auto, using(crate::proofs::Symbols::symbol_means))]
pub fn is_symbol(bytes: &[u8]) -> bool
    ensures value { result ≡ is_symbol bytes.now }
    ensures means { IsTrue result ↔ IsSymbol bytes.now }
    ensures short { IsTrue result → length bytes.now ≤ 255 }
{
    is_one(bytes)
}
