//! Calls and the entries of handlers, over which no colour lives.
ghost use Rattle.hoist.specs.Loops.{IsFirstCall};

use mach_ir::Instr;

/// The place of the first instruction that destroys every colour, or the end of the code.
pub fn first_call(code: &[Instr]) -> usize
    ensures { IsFirstCall code.now result }
{
    for place in 0..code.len() {
        if code[place].op.destroys_everything() {
            return place;
        }
    }
    code.len()
}
