//! Calls by halves of their work.
ghost use Rattle.std.specs.Prelude.{ℕ, ◌+◌, ◌^◌, ◌<◌, ◌≤◌, Ok, IfOk, length};
ghost use Rattle.std.specs.Thread.{IsSync, IsSend};
ghost use Rattle.fork_join.specs.Calls.{AreGiven};

use crate::cut::numbers_for;
use std::alloc::{AllocError, Global};
use std::thread::{Threads, join};

/// What `f` gives with each number for which there is work, in the order of the numbers.
///
/// `work` says how much work the call with each number is, in whatever unit. The numbers are lent in halves of their
/// work to both sides of a join, each half with its part of the jobs, down to single numbers or one job. A side runs
/// in a thread of its own where one can be made, so that at most `jobs` calls run at a time.
///
/// # Errors
///
/// `AllocError` where memory runs out or a call of `f` says so. Some numbers may then be left out.
pub fn map_in_halves<R: Threads + Sync, X: Send + Drop, F: Fn(u32) -> Result<X, AllocError> + Sync>(
    rt: &R,
    alloc: Global,
    work: &[u32],
    jobs: u32,
    f: &F,
) -> Result<Vec<X>, AllocError>
    requires numbers { length work.now < 2 ^ 32 }
    requires jobs { 1 ≤ jobs }
    requires callable { (i : ℕ) → i < length work.now → F.pre f.now i }
    ensures { IfOk result (λ all.
        AreGiven (λ i x. F.post f.now i (Ok x)) 0 (length work.now) all.items) }
{
    halves(rt, alloc, work, 0, jobs, f)
}

/// What `f` gives with the numbers of this work, of which `from` is the first.
#[cycle(calls)]
fn halves<R: Threads + Sync, X: Send + Drop, F: Fn(u32) -> Result<X, AllocError> + Sync>(
    rt: &R,
    alloc: Global,
    work: &[u32],
    from: u32,
    jobs: u32,
    f: &F,
) -> Result<Vec<X>, AllocError>
    requires jobs { 1 ≤ jobs }
    requires room { from + length work.now < 2 ^ 32 }
    requires callable { (i : ℕ) → from ≤ i → i < from + length work.now → F.pre f.now i }
    ensures { IfOk result (λ all.
        AreGiven (λ i x. F.post f.now i (Ok x)) from (length work.now) all.items) }
{
    if jobs == 1 || work.len() < 2 {
        return in_turn(alloc, from, work.len() as u32, f);
    }
    let few = jobs / 2;
    let rest = jobs - few;
    let (low, high) = work.split_at(numbers_for(work, few, jobs));
    let up = from + low.len() as u32;
    let front = move || -> Result<Vec<X>, AllocError>
        requires { IsSync R.row × IsSync F.row × IsSend X.row × (1 ≤ few)
            × (from + length low.now < 2 ^ 32)
            × ((i : ℕ) → from ≤ i → i < from + length low.now → F.pre f.now i) }
        ensures { IfOk result (λ all.
            AreGiven (λ i x. F.post f.entry.now i (Ok x)) from (length low.entry.now) all.items) }
    { halves(rt, alloc, low, from, few, f) };
    let back = move || -> Result<Vec<X>, AllocError>
        requires { IsSync R.row × IsSync F.row × IsSend X.row × (1 ≤ rest)
            × (up + length high.now < 2 ^ 32)
            × ((i : ℕ) → up ≤ i → i < up + length high.now → F.pre f.now i) }
        ensures { IfOk result (λ all.
            AreGiven (λ i x. F.post f.entry.now i (Ok x)) up (length high.entry.now) all.items) }
    { halves(rt, alloc, high, up, rest, f) };
    let (a, b) = join(rt, front, back);
    let mut all = a?;
    let mut others = b?;
    all.append(&mut others)?;
    Ok(all)
}

/// What `f` gives with `count` numbers from `from` on, one after the other in this thread.
fn in_turn<X: Drop, F: Fn(u32) -> Result<X, AllocError>>(
    alloc: Global,
    from: u32,
    count: u32,
    f: &F,
) -> Result<Vec<X>, AllocError>
    requires room { from + count < 2 ^ 32 }
    requires callable { (i : ℕ) → from ≤ i → i < from + count → F.pre f.now i }
    ensures { IfOk result (λ all. AreGiven (λ i x. F.post f.now i (Ok x)) from count all.items) }
{
    let mut all = Vec::new(alloc);
    for number in from..from + count {
        all.push(f(number)?)?;
    }
    Ok(all)
}
