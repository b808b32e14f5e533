//! Arithmetic on words of 64 bits, as the RV64I and M instructions have it (RISC-V Unprivileged ISA
//! manual, "RV64I Base Integer Instruction Set" and "M Extension"). Nothing here takes memory or fails.
ghost use Rattle.std.specs.Prelude.{◌≡◌, ◌≢◌, ◌<◌, ◌≤◌};
ghost use Rattle.bs_words.specs.Word.{signed_of, add_word, sub_word, mul_word, mulh_word, div_word, rem_word, shl_word, shr_word, sar_word, sext_word};

/// The sum, wrapping.
#[tactic(auto, unfolding(crate::specs::Word::add_word))]
pub fn add(a: u64, b: u64) -> u64
    ensures { result ≡ add_word a b }
{
    a.wrapping_add(b)
}

/// The difference, wrapping.
#[tactic(auto, unfolding(crate::specs::Word::sub_word))]
pub fn sub(a: u64, b: u64) -> u64
    ensures { result ≡ sub_word a b }
{
    a.wrapping_sub(b)
}

/// The low half of the product, the same for signed and unsigned words.
#[tactic(auto, unfolding(crate::specs::Word::mul_word))]
pub fn mul(a: u64, b: u64) -> u64
    ensures { result ≡ mul_word a b }
{
    a.wrapping_mul(b)
}

/// The high half of the signed product.
pub fn mulh(a: u64, b: u64) -> u64
    ensures { result ≡ mulh_word a b }
{
    let product = i128::from(signed(a)) * i128::from(signed(b));
    ((product >> 64) as i64).cast_unsigned()
}

/// The signed quotient, rounded toward zero. The least number over -1 gives itself.
pub fn div(a: u64, b: u64) -> u64
    requires { b ≢ 0 }
    ensures { result ≡ div_word a b }
{
    signed(a).wrapping_div(signed(b)).cast_unsigned()
}

/// The remainder of `div`, with the sign of `a`. The least number over -1 leaves 0.
pub fn rem(a: u64, b: u64) -> u64
    requires { b ≢ 0 }
    ensures { result ≡ rem_word a b }
{
    signed(a).wrapping_rem(signed(b)).cast_unsigned()
}

/// The shift to the left by `k` bits.
#[tactic(auto, unfolding(crate::specs::Word::shl_word))]
pub fn shl(a: u64, k: u32) -> u64
    requires { k < 64 }
    ensures { result ≡ shl_word a k }
{
    a << k
}

/// The shift to the right by `k` bits, with zeros.
#[tactic(auto, unfolding(crate::specs::Word::shr_word))]
pub fn shr(a: u64, k: u32) -> u64
    requires { k < 64 }
    ensures { result ≡ shr_word a k }
{
    a >> k
}

/// The shift to the right by `k` bits, with the sign.
pub fn sar(a: u64, k: u32) -> u64
    requires { k < 64 }
    ensures { result ≡ sar_word a k }
{
    (signed(a) >> k).cast_unsigned()
}

/// The signed reading of a word, in two's complement.
#[tactic(auto, unfolding(crate::specs::Word::signed_of))]
pub fn signed(w: u64) -> i64
    ensures { result ≡ signed_of w }
{
    w.cast_signed()
}

/// The lowest `bits` bits of `w`, extended by the uppermost of them.
pub fn sext(w: u64, bits: u32) -> u64
    requires some { 0 < bits }
    requires within { bits ≤ 64 }
    ensures { result ≡ sext_word w bits }
{
    if bits == 64 {
        return w;
    }
    let size = 1u64 << bits;
    let half = 1u64 << (bits - 1);
    let low = w % size;
    if low < half {
        low
    } else {
        low.wrapping_sub(size)
    }
}
