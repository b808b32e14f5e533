//! Where numbers are cut in two parts by their work.
//!
//! Functions are not equally long, so of two halves of equal count one would wait for the other. The clause
//! says only that neither side is empty: what the calls give does not depend on it.
ghost use Rattle.std.specs.Prelude.{◌≤◌, ◌<◌, length};

/// How many of the numbers the first side gets, so that its part of the work comes near to the part that its jobs are
/// of all jobs. Each side gets at least one; more is not ensured, since the cut changes no result.
pub(crate) fn numbers_for(work: &[u32], own_jobs: u32, jobs: u32) -> usize
    requires some_jobs { 1 ≤ jobs }
    requires two { 2 ≤ length work.now }
    ensures some { 1 ≤ result }
    ensures not_all { result < length work.now }
{
    let share = sum_of(work).saturating_mul(u64::from(own_jobs)) / u64::from(jobs);
    let mut before: u64 = 0;
    for number in 1..work.len() {
        before = before.saturating_add(u64::from(work[number - 1]));
        // the number in whose work the share ends goes to the side on which more of it lies
        if share <= before.saturating_add(u64::from(work[number] / 2)) {
            return number;
        }
    }
    work.len() - 1
}

/// The sum, or the greatest number where the sum is greater.
fn sum_of(work: &[u32]) -> u64 {
    let mut sum: u64 = 0;
    for one in work {
        sum = sum.saturating_add(u64::from(*one));
    }
    sum
}
