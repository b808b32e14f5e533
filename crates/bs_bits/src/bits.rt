//! A finite set of numbers below its size.
ghost use Rattle.std.specs.Prelude.{◌≡◌, ◌<◌, ◌↔◌, Bool, true, false, length, slice_set, replicate, IfOk, IsTrue, MatchOption};
ghost use Rattle.bs_bits.specs.Set.{has, union, Grew, IsNext, HasNoneFrom};

use crate::words::{add_bits, next_bit};
use std::alloc::{AllocError, Global};
use std::marker::Model;

/// A set of numbers below its size. Contracts see a list with a truth value for each number below
/// the size: whether it is a member.
#[derive(Clone, Drop)]
pub struct Bits {
    size: u32,
    words: Vec<u64>,
}

impl Model for Bits {
    ghost use Rattle.std.specs.Prelude.{List, Bool};

    ghost Value = { List Bool };

    ghost use Rattle.bs_bits.specs.Bits.{set_of_words, IsBits};

    ghost view = { λ bits. set_of_words bits.size bits.words.items };

    ghost invariant = { λ bits. IsBits bits.size bits.words.items };
}

impl Bits {
    /// The empty set of numbers below `size`. The only error is want of memory.
    pub fn new(alloc: Global, size: u32) -> Result<Self, AllocError>
        ensures { IfOk result (λ bits. bits ≡ replicate size false) }
    {
        let words = vec![in alloc; 0u64; (size as usize).div_ceil(64)]?;
        Ok(Bits { size, words })
    }

    /// The number below which all members are.
    pub fn size(&self) -> u32
        ensures { result ≡ length self.now }
    {
        self.size
    }

    /// Makes `k` a member.
    pub fn insert(&mut self, k: u32)
        requires { k < length self.old }
        ensures { self.new ≡ slice_set self.old k true }
    {
        let i = k as usize / 64;
        let word = self.words[i] | 1 << (k % 64);
        self.words[i] = word;
    }

    /// Makes `k` no member.
    pub fn remove(&mut self, k: u32)
        requires { k < length self.old }
        ensures { self.new ≡ slice_set self.old k false }
    {
        let i = k as usize / 64;
        let word = self.words[i] & !(1 << (k % 64));
        self.words[i] = word;
    }

    /// Whether `k` is a member.
    pub fn contains(&self, k: u32) -> bool
        requires { k < length self.now }
        ensures { result ≡ has self.now k }
    {
        self.words[k as usize / 64] >> (k % 64) & 1 == 1
    }

    /// Adds the members of `other`, a set of the same size, and answers whether the set grew.
    pub fn union_with(&mut self, other: &Bits) -> bool
        requires { length self.old ≡ length other.now }
        ensures all { self.new ≡ union self.old other.now }
        ensures grew { IsTrue result ↔ Grew self.old self.new }
    {
        add_bits(&mut self.words, &other.words)
    }

    /// Takes all members out.
    pub fn clear(&mut self)
        ensures { self.new ≡ replicate (length self.old) false }
    {
        self.words.fill(0);
    }

    /// The least member that is not below `from`, or `None` where no member is.
    pub fn next(&self, from: u32) -> Option<u32>
        ensures { MatchOption result (HasNoneFrom self.now from) (IsNext self.now from) }
    {
        match next_bit(&self.words, from as usize) {
            None => None,
            Some(k) => Some(k as u32),
        }
    }
}
