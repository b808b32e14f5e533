//! Linear scan: intervals of the registers of a Mach function, and which place each register whose
//! place is open gets by them (OCaml's `asmcomp/linscan.ml`, `asmcomp/interval.ml`).
//!
//! Registers are taken in the order in which their intervals begin. Each gets the first colour that
//! no earlier one holds whose interval has not ended; where there is none, the one that ends last
//! goes to its slot. Which colours registers with fixed places close is asked of the graph, since a
//! call by a register reads that register at the place at which it destroys every colour.
//!
//! The crate holds definitions and laws alone.
#![tactic(auto)]

pub mod interval;

ghost use Rattle.std.specs.Prelude.{◌≡◌, ℕ, true, List, [], ◌∷◌, drop, Contains};
ghost use Rattle.bs_words.specs.Contents.{contents};
ghost use Rattle.bs_words.specs.declared.types.Loc.TheVariants as loc;
ghost use Rattle.linscan_rules.specs.Contract.{NoNeedlessSlotByIntervals};
ghost use Rattle.linscan_rules.specs.Ranges.{IsAtPlace, IsInterval, Overlap};
ghost use Rattle.linscan_rules.specs.Rows.{AreByStart, IsFixedOver, IsSettled, AreScanRows};
ghost use Rattle.linscan_rules.specs.Scan.{OpenInterval, FixedInterval, ClosedColours, scanned};
ghost use Rattle.linscan_rules.specs.Table.{IntervalIn, IsIntervalsOf, IsScannable, IsScannedBy};
ghost use Rattle.linscan_rules.specs.declared.interval.Intervals.{Intervals};
ghost use Rattle.mach_ir.specs.Graph.{InGraph, JoinedIn, IsColourable, IsGraph, coloured_location};
ghost use Rattle.mach_ir.specs.Meaning.{Everything, destroyed_by};
ghost use Rattle.mach_ir.specs.Placed.{Colouring, HasColourRegisters, IsProperColouring, colour_numbers};
ghost use Rattle.mach_ir.specs.Walks.{AmongRegisters, IsRegister, Joined};
ghost use Rattle.mach_ir.specs.declared.graph.Colours.{Colours};
ghost use Rattle.mach_ir.specs.declared.graph.Graph.{Graph};
ghost use Rattle.mach_ir.specs.declared.mach.Instr.{Instr};
ghost use Rattle.mach_ir.specs.declared.mach.Mach.{Mach};
ghost use Rattle.mach_ir.specs.declared.reg.Reg.{Reg};

pub use interval::{Interval, Intervals};

/// Law: registers that the graph joins have intervals that overlap.
pub fn joined_registers_overlap()
    ensures { (m : Mach) (n k from to other_from other_to : ℕ) → Joined m n k →
        IsInterval m n from to → IsInterval m k other_from other_to →
        Overlap from to other_from other_to }
{}

/// Law: a register has one interval.
pub fn intervals_are_one()
    ensures { (m : Mach) (n from to other_from other_to : ℕ) → IsInterval m n from to →
        IsInterval m n other_from other_to → (from ≡ other_from) × (to ≡ other_to) }
{}

/// Law: what a call by a register reads is at the call beside a register at each colour, whether
/// the graph joins them or not.
pub fn calls_meet_every_colour()
    ensures { (m : Mach) (i : Instr) (next : List Instr) (p n : ℕ) → HasColourRegisters m →
        destroyed_by i.op ≡ Everything → drop p m.code ≡ i ∷ next → AmongRegisters n i.args →
        IsAtPlace m n p × ((c : ℕ) → Contains colour_numbers c →
        (q : Reg) × (q.loc ≡ loc.Machine c) × IsAtPlace m q.number p) }
{}

/// Law: after all rows each is at a colour that is not closed to it, or in the slot of its origin;
/// no two that overlap are at one colour; and over one in a slot each colour is held.
pub fn scanned_rows_are_settled()
    ensures { (colours : List ℕ) (closed : ClosedColours) (intervals : List FixedInterval)
        (start : Colouring) (rows : List OpenInterval) → AreByStart rows →
        ((x : OpenInterval) (c : ℕ) → Contains rows x → closed x c ≡ true → IsFixedOver intervals x c) →
        IsSettled colours closed intervals rows (scanned colours closed [] start rows) }
{}

/// Law: of the rows of a function, linear scan gives a proper colouring, with no needless slot by
/// intervals.
pub fn scanned_rows_are_coloured()
    ensures colouring { (m : Mach) (closed : ClosedColours) (intervals : List FixedInterval)
        (start : Colouring) (rows : List OpenInterval) →
        AreScanRows (IsRegister m) (Joined m) (IsInterval m) closed intervals start rows →
        IsProperColouring (IsRegister m) (Joined m) (scanned colour_numbers closed [] start rows) }
    ensures full { (m : Mach) (closed : ClosedColours) (intervals : List FixedInterval)
        (start : Colouring) (rows : List OpenInterval) →
        AreScanRows (IsRegister m) (Joined m) (IsInterval m) closed intervals start rows →
        NoNeedlessSlotByIntervals (IsRegister m) (IsInterval m)
        (scanned colour_numbers closed [] start rows) }
{}

/// Law: so it does of the rows of a graph, by the intervals of a function.
pub fn scanned_graphs_are_coloured()
    ensures colouring { (m : Mach) (g : Graph) (closed : ClosedColours) (intervals : List FixedInterval)
        (start : Colouring) (rows : List OpenInterval) →
        AreScanRows (InGraph g) (JoinedIn g) (IsInterval m) closed intervals start rows →
        IsProperColouring (InGraph g) (JoinedIn g) (scanned colour_numbers closed [] start rows) }
    ensures full { (m : Mach) (g : Graph) (closed : ClosedColours) (intervals : List FixedInterval)
        (start : Colouring) (rows : List OpenInterval) →
        AreScanRows (InGraph g) (JoinedIn g) (IsInterval m) closed intervals start rows →
        NoNeedlessSlotByIntervals (InGraph g) (IsInterval m)
        (scanned colour_numbers closed [] start rows) }
{}

/// Law: a function has one table of intervals.
pub fn intervals_tables_are_one()
    ensures { (m : Mach) (s t : Intervals) → IsIntervalsOf m s → IsIntervalsOf m t →
        contents s.list ≡ contents t.list }
{}

/// Law: the graph and the intervals of a function may be scanned: joined registers have intervals
/// that overlap.
pub fn functions_are_scannable()
    ensures { (m : Mach) (g : Graph) (t : Intervals) → HasColourRegisters m → IsGraph m g →
        IsIntervalsOf m t → IsScannable g t }
{}

/// Law: what scanning gives is a proper colouring with no needless slot by intervals.
pub fn scanned_graphs_are_right()
    ensures colouring { (g : Graph) (t : Intervals) (c : Colours) → IsColourable g → IsScannable g t →
        IsScannedBy g t c → IsProperColouring (InGraph g) (JoinedIn g) (coloured_location c) }
    ensures full { (g : Graph) (t : Intervals) (c : Colours) → IsColourable g → IsScannable g t →
        IsScannedBy g t c → NoNeedlessSlotByIntervals (InGraph g) (IntervalIn t) (coloured_location c) }
{}

/// Law: scanning a graph gives one colouring.
pub fn scans_are_one()
    ensures { (g : Graph) (t : Intervals) (c d : Colours) → IsScannedBy g t c → IsScannedBy g t d →
        (n : ℕ) → coloured_location c n ≡ coloured_location d n }
{}
