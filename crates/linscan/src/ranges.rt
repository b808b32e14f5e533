//! Where registers are seen, by their numbers.
ghost use Rattle.std.specs.Prelude.{◌≡◌, ◌<◌, ℕ, true, None, All, length, IfOk};
ghost use Rattle.bs_bits.specs.Set.{has};
ghost use Rattle.bs_words.specs.Contents.{contents};
ghost use Rattle.linscan_rules.specs.Table.{AreByRegister};
ghost use Rattle.linscan.specs.Order.{HasIntervals};
ghost use Rattle.linscan.specs.Seen.{Widens, IsSight, AreSights, AreMembersSeen, AreBelow, SeenAfter, IsSeen, range_at, widened};

use bs_bits::Bits;
use dataflow::{Place, Rows};
use linscan_rules::Intervals;
use std::alloc::{AllocError, Global};
use std::marker::Model;

/// From the first place at which a register is seen to the last.
#[derive(Clone, Copy)]
pub struct Range {
    /// The first place.
    pub from: u32,
    /// The last place.
    pub to: u32,
}

/// The least range that has a place and those of the range.
fn widened(range: Option<Range>, place: u32) -> Range
    ensures { result ≡ widened range place }
{
    match range {
        None => Range {
            from: place,
            to: place,
        },
        Some(range) => Range {
            from: range.from.min(place),
            to: range.to.max(place),
        },
    }
}

/// For each number below a size the range of the register of that number, if it was seen. Contracts
/// see the table.
#[derive(Drop)]
pub struct Ranges {
    items: Vec<Option<Range>>,
}

impl Model for Ranges {
    ghost use Rattle.std.specs.Prelude.{List, Option};
    ghost use Rattle.linscan.specs.declared.ranges.Range.{Range};

    ghost Value = { List (Option Range) };

    ghost view = { λ ranges. ranges.items.items };
}

impl Ranges {
    /// No range, of numbers below `size`. The only error is want of memory.
    pub fn new(alloc: Global, size: u32) -> Result<Self, AllocError>
        ensures len { IfOk result (λ ranges. length ranges ≡ size) }
        ensures none { IfOk result (λ ranges. (n : ℕ) → range_at ranges n ≡ None) }
    {
        let mut items = Vec::with_capacity(alloc, size as usize)?;
        for _number in 0..size {
            items.push(None)?;
        }
        Ok(Ranges { items })
    }

    /// The ranges of a table of intervals. The only error is want of memory.
    pub fn of_intervals(alloc: Global, intervals: &Intervals) -> Result<Self, AllocError>
        requires { AreByRegister intervals.now }
        ensures { IfOk result (HasIntervals (contents intervals.now.list)) }
    {
        let mut items = Vec::new(alloc);
        for interval in intervals.list.as_slice() {
            let range = Range {
                from: interval.from,
                to: interval.to,
            };
            items.resize(interval.register as usize, None)?;
            items.push(Some(range))?;
        }
        Ok(Ranges { items })
    }

    /// The range of the number, if it was seen.
    pub fn at(&self, number: u32) -> Option<Range>
        ensures { result ≡ range_at self.now number }
    {
        match self.items.get(number as usize) {
            None => None,
            Some(range) => *range,
        }
    }

    /// The register of the number is seen at the place.
    pub fn see(&mut self, number: u32, place: u32)
        requires { number < length self.old }
        ensures { Widens self.old self.new (IsSight number place) }
    {
        let was = self.items[number as usize];
        let range = widened(was, place);
        self.items[number as usize] = Some(range);
    }

    /// The registers of these numbers are seen at the place.
    pub fn see_all(&mut self, numbers: &[u32], place: u32)
        requires { All (λ n. n < length self.old) numbers.now }
        ensures { Widens self.old self.new (AreSights numbers.now place) }
    {
        for number in numbers {
            self.see(*number, place);
        }
    }

    /// The members of the set are seen at the place. The time is that of the members and of the words
    /// of the set.
    pub fn see_members(&mut self, set: &Bits, place: u32)
        requires { (k : ℕ) → has set.now k ≡ true → k < length self.old }
        ensures { Widens self.old self.new (AreMembersSeen set.now place) }
    {
        let size = set.size();
        let mut from = 0;
        while from < size {
            match set.next(from) {
                None => {
                    from = size;
                }
                Some(member) => {
                    self.see(member, place);
                    from = member + 1;
                }
            }
        }
    }

    /// What is live at one of these places is seen at the place.
    fn see_next(&mut self, live: &Rows, next: &[u32], place: u32)
        requires numbers { AreBelow (length self.old) live.now.rows.items }
        requires next { All (λ q. q < length live.now.rows.items) next.now }
        ensures { Widens self.old self.new (SeenAfter live.now.rows.items next.now place) }
    {
        for after in next {
            self.see_members(live.at(*after as usize), place);
        }
    }

    /// What a node of a flow graph at the place reads and writes, and what is live before it and where
    /// it goes on, is seen there.
    pub fn see_node(&mut self, live: &Rows, node: &Place, place: u32)
        requires numbers { AreBelow (length self.old) live.now.rows.items }
        requires place { place < length live.now.rows.items }
        requires reads { All (λ n. n < length self.old) (contents node.now.reads) }
        requires writes { All (λ n. n < length self.old) (contents node.now.writes) }
        requires next { All (λ q. q < length live.now.rows.items) (contents node.now.next) }
        ensures { Widens self.old self.new (IsSeen node.now live.now.rows.items place) }
    {
        self.see_all(node.reads.as_slice(), place);
        self.see_all(node.writes.as_slice(), place);
        self.see_members(live.at(place as usize), place);
        self.see_next(live, node.next.as_slice(), place);
    }
}
