//! The ends of strings, comments and texts in braces.
ghost use Rattle.std.specs.Prelude.{◌≡◌, ◌+◌, ◌<◌, ◌≤◌, length};
ghost use Rattle.cmm_lex.specs.Scanning.{slice_of, step_of, comment_step, behind_string, behind_comments, behind_braces};

/// The bytes after the closing quote of a string whose opening quote is before `bytes`; `None` where
/// it is not closed. A backslash takes the byte after it along.
pub fn behind_string(bytes: &[u8]) -> Option<&[u8]>
    ensures { slice_of result ≡ behind_string bytes.now }
{
    let mut rest = bytes;
    while let Some((byte, behind)) = rest.split_first() {
        if *byte == b'"' {
            return Some(behind);
        }
        rest = match behind.split_first() {
            Some((_, after)) if *byte == b'\\' => after,
            _ => behind,
        };
    }
    None
}

/// One step inside so many open comments: how many are open after the next byte or sign of a comment, and
/// the bytes after it; `None` at the end.
fn comment_step(depth: usize, bytes: &[u8]) -> Option<(usize, &[u8])>
    requires { depth + length bytes.now ≤ usize.MAX }
    ensures { step_of result ≡ comment_step depth bytes.now }
{
    match bytes {
        [b'(', b'*', behind @ ..] => Some((depth + 1, behind)),
        [b'*', b')', behind @ ..] => Some((depth.saturating_sub(1), behind)),
        [_, behind @ ..] => Some((depth, behind)),
        [] => None,
    }
}

/// The bytes after a comment whose opening is before `bytes`; `None` where it is not closed.
/// Comments nest.
pub fn behind_comment(bytes: &[u8]) -> Option<&[u8]>
    requires { length bytes.now < usize.MAX }
    ensures { slice_of result ≡ behind_comments 1 bytes.now }
{
    let mut rest = bytes;
    let mut depth = 1;
    while depth > 0 {
        let (now, behind) = comment_step(depth, rest)?;
        depth = now;
        rest = behind;
    }
    Some(rest)
}

/// The bytes after the next `}`; `None` where there is none.
pub fn behind_braces(bytes: &[u8]) -> Option<&[u8]>
    ensures { slice_of result ≡ behind_braces bytes.now }
{
    let mut rest = bytes;
    while let Some((byte, behind)) = rest.split_first() {
        rest = behind;
        if *byte == b'}' {
            return Some(rest);
        }
    }
    None
}
