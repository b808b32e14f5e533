//! The last line of a text.
ghost use Rattle.std.specs.Prelude.{◌≡◌, ◌++◌, [], ◌∷◌, List, ℕ};
ghost use Rattle.commands.specs.Soak.{IsLastLine};

/// The last line of a text that ends with a line feed, with that line feed.
pub fn last_line(text: &[u8]) -> &[u8]
    requires { (words : List ℕ) × (text.now ≡ words ++ 10 ∷ []) }
    ensures { IsLastLine text.now result.now }
{
    let mut start = text.len() - 1;
    while start > 0 && text[start - 1] != b'\n' {
        start -= 1;
    }
    &text[start..]
}
