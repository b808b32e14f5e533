//! Lines that are made from the last one to the first.
ghost use Rattle.std.specs.Prelude.{◌≡◌, ◌∷◌, [], IfOk};
ghost use Rattle.lin_ir.specs.declared.lin.Line.{Line};

use lin_ir::Line;
use mach_ir::Seq;
use std::alloc::{AllocError, Global};
use std::marker::Model;

/// Lines of which the last ones are known. Contracts see them in their order.
#[derive(Drop)]
pub struct Backward {
    /// From the last line to the first.
    items: Vec<Line>,
}

impl Model for Backward {
    ghost use Rattle.std.specs.Prelude.{List, reverse};
    ghost use Rattle.lin_ir.specs.declared.lin.Line.{Line};

    ghost Value = { List Line };

    ghost view = { λ lines. reverse lines.items.items };
}

impl Backward {
    /// No lines, with room for so many. The only error is want of memory.
    pub fn with_room(alloc: Global, count: usize) -> Result<Self, AllocError>
        ensures { IfOk result (λ lines. lines ≡ []) }
    {
        let items = Vec::with_capacity(alloc, count)?;
        Ok(Backward { items })
    }

    /// Puts a line before the others. Where memory is used up nothing has changed.
    pub fn push(&mut self, line: Line) -> Result<(), AllocError>
        ensures { IfOk result (λ _. self.new ≡ line ∷ self.old) }
    {
        self.items.push(line)?;
        Ok(())
    }

    /// The lines, in order. It takes no memory.
    pub fn into_seq(self) -> Seq<Line>
        ensures { result ≡ self }
    {
        let Backward { mut items } = self;
        items.reverse();
        Seq::from_vec(items)
    }
}
