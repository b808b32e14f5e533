//! That the pieces of a function are laid out as its Linear function: in parts, one for each line, of which each names
//! exactly the registers and stack words that its line reads and writes.
//!
//! The crate holds definitions and laws alone.
#![tactic(auto)]

ghost use Rattle.std.specs.Prelude.{◌≡◌, ℕ, ◌+◌, ◌%◌, ◌^◌, ◌<◌, List, ◌∷◌, length, map, Option, Contains};
ghost use Rattle.rv_emit_rules.specs.Emitted.{part_of_line, IsEmitted};
ghost use Rattle.rv_emit_rules.specs.Entry.{FrameLayout, frame_of};
ghost use Rattle.laid_parts.specs.Decoded.{NamesAs, Decodes};
ghost use Rattle.laid_parts.specs.Laid.{CarriesRegisters, CarriesSlots, IsLaidOutAs};
ghost use Rattle.rv_layout_rules.specs.Conditions.{HasAlignedTarget};
ghost use Rattle.rv_layout_rules.specs.Words.{code_to};
ghost use Rattle.rv_layout_rules.specs.declared.form.Form.{Form};
ghost use Rattle.lin_ir.specs.Descriptors.{FitsDescriptors, frame_point_count};
ghost use Rattle.lin_ir.specs.Formed.{Seated, WellFormed};
ghost use Rattle.lin_ir.specs.Walks.{Traps};
ghost use Rattle.lin_ir.specs.declared.descr.Descr.{Descr};
ghost use Rattle.lin_ir.specs.declared.lin.Lin.{Lin};
ghost use Rattle.lin_ir.specs.declared.lin.Line.{Line};
ghost use Rattle.rv_isa.specs.Encoding.{encoded};
ghost use Rattle.rv_pieces.specs.Named.{PieceFits};
ghost use Rattle.rv_pieces.specs.declared.piece.Piece.{Piece};
ghost use Rattle.rv_pieces.specs.declared.piece.Pieces.{Pieces};

/// Law: the part that emission makes of a line names, as sources that it has not set before, exactly the registers
/// that the line reads, and as targets exactly those that it writes; or the line moves a location to itself, and its
/// part is empty. Reserved registers, and those in which conventions hand values over, are not compared.
pub fn parts_name_registers()
    ensures { (m : Lin) → WellFormed m → Seated m → (i : Line) → Contains m.code i →
        (traps : ℕ) (f : FrameLayout) (d : Option Descr) → CarriesRegisters i (part_of_line traps f d i) }
{}

/// Law: with the traps that are pushed before a line, its part loads, before it has stored them, exactly the stack
/// words of the slots that the line reads, and stores exactly those of the slots that it writes, near ones and far
/// ones; or the line moves a location to itself, and its part is empty. The return address, where the function is
/// left, and the trap that a line pushes or pops are not compared.
pub fn parts_name_slots()
    ensures { (m : Lin) → WellFormed m → Seated m → FitsDescriptors m →
        (i : Line) (next : List Line) (tries : List ℕ) →
        Contains m.code i → Traps m (i ∷ next) tries → (d : Option Descr) →
        CarriesSlots (frame_of m) (length tries) i (part_of_line (length tries) (frame_of m) d i) }
{}

/// Law: emitted pieces, with a descriptor for each frame point that is no tail call, are laid out as their Linear
/// function.
pub fn pieces_are_laid_out()
    ensures { (m : Lin) → WellFormed m → Seated m → FitsDescriptors m →
        (ds : List Descr) (pieces : Pieces) →
        length ds ≡ frame_point_count m.code → IsEmitted m ds pieces → IsLaidOutAs m ds pieces }
{}

/// Law: the instructions of a piece, in whatever form and wherever it and its target lie, name as sources that they
/// have not set before exactly the registers that the piece names as sources, and as targets exactly those that it
/// names as targets, reserved registers aside. A known instruction is alone, and those of other pieces load and
/// store nothing. So what pieces name is what the words name that are laid out of them: where their numbers fit, the
/// words decode to these instructions.
pub fn words_name_registers()
    ensures names { (at to : ℕ) (p : Piece) (form : Form) → NamesAs p (code_to at to p form) }
    ensures decode { (at to : ℕ) (p : Piece) (form : Form) → PieceFits p → at % 4 ≡ 0 →
        at + 4 < 2 ^ 32 →
        HasAlignedTarget to p → Decodes (map encoded (code_to at to p form)) (code_to at to p form) }
{}
