//! How large the Mach function of a function of a text is, by the text: words of its code, and frame
//! points.
//!
//! The crate holds definitions and laws alone.
#![tactic(auto)]

ghost use Rattle.std.specs.Prelude.{◌+◌, ◌*◌, ◌≤◌, length};
ghost use Rattle.cmm_tree.specs.Measures.{nodes_in};
ghost use Rattle.cmm_tree.specs.Tree.{FunctionTree};
ghost use Rattle.correctness.specs.Measures.{frame_points, switch_indexes, tries};
ghost use Rattle.mach_ir.specs.Sizes.{operand_count};
ghost use Rattle.pass_rules.specs.Measures.{code_words, code_points};
ghost use Rattle.selection_rules.specs.Select.{selected};

/// Law: where at most 250 tries nest, the code of a function has at most 640 words for each node of
/// its body, 48 for each parameter and 4 for each index of a switch, less 12 for each of its operands
/// and results: room for a copy before each, and for one after it. It has a frame point for each of
/// the text.
pub fn selected_is_short()
    ensures words { (f : FunctionTree) → tries f ≤ 250 →
        code_words (selected f).code + 12 * operand_count (selected f).code ≤
        48 * length f.params + (640 * nodes_in f.body + 4 * switch_indexes f) }
    ensures points { (f : FunctionTree) → tries f ≤ 250 →
        code_points (selected f).code ≤ frame_points f }
{}
