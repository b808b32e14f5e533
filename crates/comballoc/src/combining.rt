//! One scan over the code, with at most one allocation open.
ghost use Rattle.std.specs.Prelude.{◌≡◌, ◌≤◌, ◌+◌, ◌++◌, [], true, false, None, IfOk, List};
ghost use Rattle.comballoc_rules.specs.Combined.{joins, scan_for_combining, combined, allocation};
ghost use Rattle.comballoc.specs.Finished.{held_bytes, closed, finished_with_instr, finished_scan, HasTaken};
ghost use Rattle.mach_ir.specs.Blocks.{total_block_bytes};
ghost use Rattle.mach_ir.specs.Placed.{is_straight};
ghost use Rattle.mach_ir.specs.declared.mach.Instr.{Instr as AnInstr};
ghost use Rattle.mach_ir.specs.declared.mach.MachOp.TheVariants as mach;
ghost use Rattle.mach_ir.specs.declared.op.Access.TheVariants as access;
ghost use Rattle.mach_ir.specs.declared.op.Op.TheVariants as op;

use mach_ir::{Access, Blocks, Instr, Mach, MachOp, Op, Reg, Seq};
use std::alloc::{AllocError, Global};

/// The most bytes of one allocation.
const RESERVATION_MOST: u32 = 2056;

/// An allocation that later ones of its straight run may join, and the instructions since.
#[derive(Drop)]
struct Held {
    blocks: Blocks,
    results: Vec<Reg>,
    since: Vec<Instr>,
}

#[tactic(auto, using(mach_ir::proofs::Sums::bytes_push))]
/// Adds blocks after others. Together they take no more than one reservation has.
fn push_all(blocks: &mut Blocks, more: &Blocks) -> Result<(), AllocError>
    requires { total_block_bytes blocks.old + total_block_bytes more.now ≤ 2056 }
    ensures { IfOk result (λ _. blocks.new ≡ blocks.old ++ more.now) }
{
    for block in more.as_slice() {
        blocks.push(*block)?;
    }
    Ok(())
}

impl Held {
    /// Whether these blocks fit one reservation with the ones that it has.
    fn has_room(&self, blocks: &Blocks) -> bool
        ensures { result ≡ joins (Some (total_block_bytes self.now.blocks)) blocks.now }
    {
        let bytes = blocks.bytes();
        bytes <= RESERVATION_MOST && self.blocks.bytes() <= RESERVATION_MOST - bytes
    }

    /// An allocation joins: its blocks and results come after those that are there.
    fn join(&mut self, blocks: &Blocks, results: Seq<Reg>) -> Result<(), AllocError>
        requires { joins (Some (total_block_bytes self.old.blocks)) blocks.now ≡ true }
        ensures blocks { IfOk result (λ _. self.new.blocks ≡ self.old.blocks ++ blocks.now) }
        ensures results { IfOk result (λ _.
            self.new.results.items ≡ self.old.results.items ++ results) }
        ensures since { self.new.since ≡ self.old.since }
    {
        push_all(&mut self.blocks, blocks)?;
        self.results.extend_from_slice(results.as_slice())
    }
}

/// A scan that has come to some place: the code that is settled, and what is open after it.
#[derive(Drop)]
struct Scan {
    alloc: Global,
    done: Vec<Instr>,
    held: Option<Held>,
}

impl Scan {
    /// Settles the open allocation: nothing joins it any more.
    fn close(&mut self) -> Result<(), AllocError>
        ensures held { IfOk result (λ _. self.new.held ≡ None) }
        ensures done { IfOk result (λ _.
            self.new.done.items ≡ self.old.done.items ++ closed self.old.held) }
    {
        if let Some(held) = self.held.take() {
            let Held {
                blocks,
                results,
                mut since,
            } = held;
            self.done.push(Instr {
                op: MachOp::Op(Op::Access(Access::Alloc(blocks))),
                args: Seq::new(self.alloc),
                results: Seq::from_vec(results),
            })?;
            self.done.append(&mut since)?;
        }
        Ok(())
    }

    /// Takes an instruction that goes on in the straight run.
    fn go_on(&mut self, instr: Instr) -> Result<(), AllocError>
        ensures { IfOk result (λ _. (rest : List AnInstr) →
            finished_scan self.new rest ≡ finished_with_instr self.old instr rest) }
    {
        match &mut self.held {
            Some(held) => held.since.push(instr)?,
            None => self.done.push(instr)?,
        }
        Ok(())
    }

    #[tactic(auto, using(crate::proofs::Taking::ended))]
    /// Takes an instruction that ends the straight run.
    fn end_run(&mut self, instr: Instr) -> Result<(), AllocError>
        requires { is_straight instr.op ≡ false }
        ensures { IfOk result (λ _. HasTaken self.old self.new instr) }
    {
        self.close()?;
        self.done.push(instr)?;
        Ok(())
    }

    /// Whether these blocks go to the open allocation.
    fn joins(&self, blocks: &Blocks) -> bool
        ensures { result ≡ joins (held_bytes self.now.held) blocks.now }
    {
        match &self.held {
            Some(held) => held.has_room(blocks),
            None => false,
        }
    }

    #[tactic(auto, using(crate::proofs::Taking::joined))]
    /// Takes an allocation that joins the open one.
    fn join(&mut self, blocks: &Blocks, results: Seq<Reg>) -> Result<(), AllocError>
        requires { joins (held_bytes self.old.held) blocks.now ≡ true }
        ensures { IfOk result (λ _. HasTaken self.old self.new (allocation blocks.now results)) }
    {
        if let Some(held) = &mut self.held {
            held.join(blocks, results)?;
        }
        Ok(())
    }

    /// Takes an allocation: it joins the open one, or is open itself from here on.
    fn allocate(&mut self, blocks: Blocks, results: Seq<Reg>) -> Result<(), AllocError>
        ensures { IfOk result (λ _. HasTaken self.old self.new (allocation blocks results)) }
    {
        if self.joins(&blocks) {
            return self.join(&blocks, results);
        }
        self.close()?;
        self.held = Some(Held {
            blocks,
            results: results.into_vec(),
            since: Vec::new(self.alloc),
        });
        Ok(())
    }

    fn take_access(
        &mut self,
        access: Access,
        args: Seq<Reg>,
        results: Seq<Reg>,
    ) -> Result<(), AllocError>
        ensures { IfOk result (λ _.
            HasTaken self.old self.new
            (record { op = mach.Op (op.Access access); args = args; results = results })) }
    {
        match access {
            Access::Load { chunk, offset } => self.go_on(Instr {
                op: MachOp::Op(Op::Access(Access::Load { chunk, offset })),
                args,
                results,
            }),
            Access::Store { chunk, offset } => self.go_on(Instr {
                op: MachOp::Op(Op::Access(Access::Store { chunk, offset })),
                args,
                results,
            }),
            Access::Alloc(blocks) => self.allocate(blocks, results),
        }
    }

    fn take_op(&mut self, op: Op, args: Seq<Reg>, results: Seq<Reg>) -> Result<(), AllocError>
        ensures { IfOk result (λ _.
            HasTaken self.old self.new
            (record { op = mach.Op op; args = args; results = results })) }
    {
        match op {
            Op::Pure(pure) => self.go_on(Instr {
                op: MachOp::Op(Op::Pure(pure)),
                args,
                results,
            }),
            Op::Access(access) => self.take_access(access, args, results),
            Op::Calling(calling) => self.end_run(Instr {
                op: MachOp::Op(Op::Calling(calling)),
                args,
                results,
            }),
            Op::Leaving(leaving) => self.end_run(Instr {
                op: MachOp::Op(Op::Leaving(leaving)),
                args,
                results,
            }),
        }
    }

    /// Takes the next instruction. A mark ends the straight run, since control may come to it from
    /// elsewhere, or go elsewhere.
    fn take(&mut self, instr: Instr) -> Result<(), AllocError>
        ensures { IfOk result (λ _. HasTaken self.old self.new instr) }
    {
        let Instr { op, args, results } = instr;
        match op {
            MachOp::Op(op) => self.take_op(op, args, results),
            MachOp::Mark(mark) => self.end_run(Instr {
                op: MachOp::Mark(mark),
                args,
                results,
            }),
        }
    }

    /// Takes these instructions, first to last.
    fn take_all(&mut self, code: Vec<Instr>) -> Result<(), AllocError>
        ensures { IfOk result (λ _. finished_scan self.new [] ≡ finished_scan self.old code.items) }
    {
        for instr in code {
            self.take(instr)?;
        }
        Ok(())
    }
}

#[tactic(auto, using(crate::proofs::Taking::all_done))]
/// The code in which the allocations of each straight run are combined.
fn combine_code(alloc: Global, code: Seq<Instr>) -> Result<Seq<Instr>, AllocError>
    ensures { IfOk result (λ made. made ≡ (scan_for_combining None code).code) }
{
    let mut scan = Scan {
        alloc,
        done: Vec::with_capacity(alloc, code.len())?,
        held: None,
    };
    scan.take_all(code.into_vec())?;
    scan.close()?;
    let Scan {
        alloc: _,
        done,
        held: _,
    } = scan;
    Ok(Seq::from_vec(done))
}

/// The function with the allocations of each straight run combined: one that follows another joins
/// the first, as long as their bytes together are at most 2,056. Its blocks and results come after
/// those of the first.
///
/// The time is linear in the function: each instruction is moved at most twice. The only error is
/// want of memory.
pub fn combine(alloc: Global, mach: Mach) -> Result<Mach, AllocError>
    ensures { IfOk result (λ made. made ≡ combined mach) }
{
    let Mach {
        name,
        params,
        result,
        labels,
        colours,
        code,
    } = mach;
    let code = combine_code(alloc, code)?;
    Ok(Mach {
        name,
        params,
        result,
        labels,
        colours,
        code,
    })
}
