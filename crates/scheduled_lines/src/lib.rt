//! Where all is known of the lines of a function, the same is known of them with their straight runs in
//! another order that respects dependence, as list scheduling gives. So an order may be chosen, and
//! nothing above changes.
//!
//! The crate holds laws alone.
#![tactic(auto)]

ghost use Rattle.std.specs.Prelude.{◌≡◌, ◌↔◌, ℕ, ◌+◌, List, [], ◌∷◌};
ghost use Rattle.cmm_tree.specs.Tree.{FunctionTree};
ghost use Rattle.lin_ir.specs.Descriptors.{AreExact, frame_bytes, frame_point_count};
ghost use Rattle.lin_ir.specs.Walks.{Traps};
ghost use Rattle.lin_ir.specs.declared.descr.Descr.{Descr};
ghost use Rattle.lin_ir.specs.declared.lin.Lin.{Lin};
ghost use Rattle.lin_ir.specs.declared.lin.Line.{Line};
ghost use Rattle.lin_tidy_rules.specs.Leaving.{with_code};
ghost use Rattle.linearise_rules.specs.Keeps.{KeepsReached};
ghost use Rattle.made_functions.specs.Chained.{AreLinesOf};
ghost use Rattle.mach_ir.specs.Keeps.{Keeps};
ghost use Rattle.mach_ir.specs.declared.mach.Mach.{Mach};
ghost use Rattle.rv_emit_rules.specs.Emitted.{IsEmitted};
ghost use Rattle.rv_pieces.specs.declared.piece.Piece.{Piece};
ghost use Rattle.rv_pieces.specs.declared.piece.Pieces.{Pieces};
ghost use Rattle.schedule_rules.specs.Orders.{Ordered, scheduled};
ghost use Rattle.selection_rules.specs.Select.{selected};

/// Law: where all is known of lines that keep a Mach function, and that keeps what is selected of the
/// text's function, all is known of them with their runs reordered, and so of scheduled lines.
pub fn scheduled_lines_are_lines()
    ensures any { (tree : FunctionTree) (p : Mach) (m : Lin) (code : List Line) →
        Keeps (selected tree) p → KeepsReached p m → AreLinesOf tree m → Ordered m.code code →
        AreLinesOf tree (with_code m code) }
    ensures scheduled { (tree : FunctionTree) (p : Mach) (m : Lin) → Keeps (selected tree) p →
        KeepsReached p m → AreLinesOf tree m → AreLinesOf tree (with_code m (scheduled m.code)) }
{}

/// Law: the traps that are pushed at a place of them are those at some place of the first.
pub fn reordered_lines_push_the_same_traps()
    ensures { (m : Lin) (code : List Line) → Ordered m.code code → (place : List Line)
        (traps : List ℕ) → Traps (with_code m code) place traps →
        (was : List Line) × Traps m was traps }
{}

/// Law: descriptors that are exact of the one are exact of the other.
pub fn reordered_lines_have_the_same_descriptors()
    ensures { (tree : FunctionTree) (m : Lin) (code : List Line) (ds : List Descr) →
        AreLinesOf tree m → Ordered m.code code → AreExact m ds ↔ AreExact (with_code m code) ds }
{}

/// Law: they are as large. What is added up over lines is the same, as their words are at most; so are
/// frame points and the frame; and with the same descriptors what is added up over pieces, as words are.
pub fn reordered_lines_are_as_large()
    ensures lines { (code other : List Line) → Ordered code other → (measure : Line → ℕ)
        (total : List Line → ℕ) → total [] ≡ 0 →
        ((i : Line) (is : List Line) → total (i ∷ is) ≡ measure i + total is) →
        total other ≡ total code }
    ensures points { (code other : List Line) → Ordered code other →
        frame_point_count other ≡ frame_point_count code }
    ensures frame { (m : Lin) (code : List Line) → Ordered m.code code →
        frame_bytes (with_code m code) ≡ frame_bytes m }
    ensures pieces { (tree : FunctionTree) (m : Lin) (code : List Line) (ds : List Descr)
        (p q : Pieces) → AreLinesOf tree m → Ordered m.code code → IsEmitted m ds p →
        IsEmitted (with_code m code) ds q → (measure : Piece → ℕ) (total : List Piece → ℕ) →
        total [] ≡ 0 →
        ((x : Piece) (xs : List Piece) → total (x ∷ xs) ≡ measure x + total xs) →
        total q.code ≡ total p.code }
{}
