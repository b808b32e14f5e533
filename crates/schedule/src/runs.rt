//! The code of a function cut into straight runs.
ghost use Rattle.std.specs.Prelude.{◌≡◌, ◌++◌, ◌∷◌, [], List, IfOk};
ghost use Rattle.lin_ir.specs.declared.lin.Line.{Line};
ghost use Rattle.lin_tidy_rules.specs.Leaving.{with_code};
ghost use Rattle.schedule_rules.specs.Orders.{scheduled, scheduled_run};
ghost use Rattle.schedule.specs.Runs.{code_with};

use crate::order::push_scheduled;
use crate::plain::is_plain;
use lin_ir::{Lin, Line};
use mach_ir::Seq;
use std::alloc::{AllocError, Global};

/// The code of a function up to some line.
#[derive(Drop)]
struct Runs {
    /// What has its place in the new order.
    made: Vec<Line>,
    /// The run after it, in its old order.
    run: Vec<Line>,
}

impl Runs {
    /// Puts the run in its new order. A run of one line is as it was.
    fn end_run(&mut self, alloc: Global) -> Result<(), AllocError>
        ensures made { IfOk result (λ _. self.new.made.items
            ≡ self.old.made.items ++ scheduled_run self.old.run.items) }
        ensures run { IfOk result (λ _. self.new.run.items ≡ []) }
    {
        if self.run.len() < 2 {
            if let Some(line) = self.run.pop() {
                self.made.push(line)?;
            }
            return Ok(());
        }
        push_scheduled(alloc, &mut self.made, &mut self.run)
    }

    /// Adds the next line.
    fn put(&mut self, alloc: Global, line: Line) -> Result<(), AllocError>
        ensures { IfOk result (λ _. (rest : List Line) →
            code_with self.new rest ≡ code_with self.old (line ∷ rest)) }
    {
        if is_plain(&line.op) {
            self.run.push(line)?;
            return Ok(());
        }
        self.end_run(alloc)?;
        self.made.push(line)?;
        Ok(())
    }

    /// Adds the lines of some code.
    fn put_all(&mut self, alloc: Global, code: Vec<Line>) -> Result<(), AllocError>
        ensures { IfOk result (λ _. code_with self.new [] ≡ code_with self.old code.items) }
    {
        for line in code {
            self.put(alloc, line)?;
        }
        Ok(())
    }
}

fn schedule_code(alloc: Global, code: Seq<Line>) -> Result<Seq<Line>, AllocError>
    ensures { IfOk result (λ made. made ≡ scheduled code) }
{
    let mut runs = Runs {
        made: Vec::with_capacity(alloc, code.len())?,
        run: Vec::new(alloc),
    };
    runs.put_all(alloc, code.into_vec())?;
    runs.end_run(alloc)?;
    let Runs { made, run: _ } = runs;
    Ok(Seq::from_vec(made))
}

/// Each straight run of the lines in the order of list scheduling. The only error is want of memory.
pub fn schedule(alloc: Global, lin: Lin) -> Result<Lin, AllocError>
    ensures { IfOk result (λ made. made ≡ with_code lin (scheduled lin.code)) }
{
    let Lin {
        name,
        params,
        result,
        slots,
        code,
    } = lin;
    let code = schedule_code(alloc, code)?;
    Ok(Lin {
        name,
        params,
        result,
        slots,
        code,
    })
}
