//! The table of a function.
ghost use Rattle.std.specs.Prelude.{◌≡◌, ◌↔◌, ℕ, [], length, IfOk};
ghost use Rattle.bs_words.specs.Contents.{contents};
ghost use Rattle.cmm_tree.specs.View.{params_view, function_view};
ghost use Rattle.cmm_types.specs.Annotated.{IsAnnotated};
ghost use Rattle.cmm_types.specs.Types.{with_parameters};
ghost use Rattle.walk_tables.specs.AddrLive.{IsLiveIn};
ghost use Rattle.walk_tables.specs.Cells.{cells};
ghost use Rattle.walk_tables.specs.Made.{StandsForTasks, Filled};
ghost use Rattle.walk_tables.specs.Sound.{AreItemsSound};
ghost use Rattle.walk_tables.specs.Table.{AreLinked, LeadsToBinding};
ghost use Rattle.walk_tables.specs.Walks.{walk_tasks};

use crate::items::{Cells, Item};
use crate::node::Node;
use cmm_tree::Function;
use std::alloc::{AllocError, Global};

/// The table of a function: its nodes, and the one at which a walk begins.
#[derive(Drop)]
pub struct Table {
    /// The nodes, in the order of their numbers.
    pub nodes: Vec<Node>,
    /// The number of that node.
    pub entry: usize,
}

impl<'a> Cells<'a> {
    /// The cell at which a walk of the function begins.
    fn begin(&mut self, function: &'a Function) -> Result<usize, AllocError>
        ensures { IfOk result (λ cell. cells self.old ≡ [] →
            IsAnnotated (with_parameters (params_view
            (contents function.now.params)) []) function.now.body →
            StandsForTasks (cells self.new) cell (walk_tasks (function_view function.now))) }
    {
        let params = function.params.as_slice();
        let end = self.push(Item::Empty)?;
        let scope = self.with_slots(end, 0, params)?;
        let body = self.eval(scope, params.len(), &function.body, end)?;
        let cell = self.parameters_bound(0, params, body)?;
        Ok(cell)
    }

    /// The nodes of all cells, and of those that come with them.
    fn nodes(&mut self, alloc: Global) -> Result<Vec<Node>, AllocError>
        requires { AreItemsSound (cells self.old) }
        ensures { IfOk result (λ nodes.
            Filled (cells self.old) (cells self.new) nodes.items (length (cells self.new))) }
    {
        let mut nodes = Vec::new(alloc);
        while let Some(item) = self.get(nodes.len()) {
            let node = self.step(alloc, item)?;
            nodes.push(node)?;
        }
        Ok(nodes)
    }
}

/// The table of a function whose nodes hold their types. The only error is want of memory.
pub fn make_table(alloc: Global, function: &Function) -> Result<Table, AllocError>
    requires { IsAnnotated (with_parameters (params_view
        (contents function.now.params)) []) function.now.body }
    ensures linked { IfOk result (λ table. AreLinked table.nodes.items) }
    ensures live { IfOk result (λ table. (bound point used : ℕ) →
        IsLiveIn (function_view function.now) bound point used ↔ LeadsToBinding
        table.nodes.items bound point used table.entry) }
{
    let mut cells = Cells::new(alloc);
    let entry = cells.begin(function)?;
    let nodes = cells.nodes(alloc)?;
    Ok(Table { nodes, entry })
}
