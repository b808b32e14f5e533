//! The words of a set: bit `k % 64` of word `k / 64` says whether `k` is a member.
ghost use Rattle.std.specs.Prelude.{◌≡◌, ◌+◌, ◌*◌, ◌^◌, ◌<◌, length, MatchOption, IsTrue, IsFalse};
ghost use Rattle.bs_bits.specs.Words.{Ors, Changed, IsNextBit, HasNoBitFrom};

/// Adds the bits of each word of `others` to its word of `words`, and answers whether one changed.
pub(crate) fn add_bits(words: &mut Vec<u64>, others: &[u64]) -> bool
    requires { length words.old.items ≡ length others.now }
    ensures each { Ors words.old.items others.now words.new.items }
    ensures same { IsFalse result → words.new.items ≡ words.old.items }
    ensures changed { IsTrue result → Changed words.old.items words.new.items }
{
    let mut changed = false;
    for i in 0..others.len() {
        let old = words[i];
        let new = old | others[i];
        words[i] = new;
        changed = changed || new != old;
    }
    changed
}

/// The place of the first bit that is set, from `from` on.
pub(crate) fn next_bit(words: &[u64], from: usize) -> Option<usize>
    requires { length words.now < 2 ^ 32 }
    ensures { MatchOption result (HasNoBitFrom words.now from) (IsNextBit words.now from) }
{
    let start = from / 64;
    if start >= words.len() {
        return None;
    }
    let rest = words[start] >> (from % 64);
    if rest != 0 {
        return Some(from + rest.trailing_zeros() as usize);
    }
    for i in start + 1..words.len() {
        let word = words[i];
        if word != 0 {
            return Some(i * 64 + word.trailing_zeros() as usize);
        }
    }
    None
}
