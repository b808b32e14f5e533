//! The function with its new numbers.
ghost use Rattle.std.specs.Prelude.{◌≡◌, ◌<◌, length, IfOk};
ghost use Rattle.split.specs.Names.{name_read, name_written, naming};
ghost use Rattle.split_rules.specs.Renamed.{all_numbered, renamed_instr, renamed_code};

use crate::names::{find_coming, name_of};
use crate::tables::Tables;
use liveness::Backward;
use mach_ir::{Instr, Reg, Seq};
use std::alloc::{AllocError, Global};

/// The number of an operand of the instruction at the place.
fn read_name(tables: &Tables, place: usize, number: u32) -> u32
    ensures { result ≡ name_read tables.now place number }
{
    let found = find_coming(&tables.rows, place, tables.writes.members(number));
    name_of(&tables.names, number, found)
}

/// The number of a result of the instruction that so many come after.
fn write_name(tables: &Tables, left: u32, number: u32) -> u32
    ensures { result ≡ name_written tables.now left number }
{
    let found = tables.writes.find_at(left, number);
    name_of(&tables.names, number, found)
}

fn rename_args(tables: &Tables, place: usize, args: &mut [Reg])
    ensures { args.new ≡ all_numbered (name_read tables.now place) args.old }
{
    for reg in args.iter_mut() {
        let number = read_name(tables, place, reg.number);
        *reg = Reg { number, ..*reg };
    }
}

fn rename_results(tables: &Tables, left: u32, results: &mut [Reg])
    ensures { results.new ≡ all_numbered (name_written tables.now left) results.old }
{
    for reg in results.iter_mut() {
        let number = write_name(tables, left, reg.number);
        *reg = Reg { number, ..*reg };
    }
}

/// The instruction at the place, which so many come after, with its new numbers. It takes no memory.
fn rename_instr(tables: &Tables, end: u32, left: u32, instr: Instr) -> Instr
    requires { left < end }
    ensures { result ≡ renamed_instr (naming tables.now end) left instr }
{
    let Instr { op, args, results } = instr;
    let place = (end - 1 - left) as usize;
    let mut args = args.into_vec();
    rename_args(tables, place, args.as_mut_slice());
    let mut results = results.into_vec();
    rename_results(tables, left, results.as_mut_slice());
    Instr {
        op,
        args: Seq::from_vec(args),
        results: Seq::from_vec(results),
    }
}

/// The code with its new numbers. The only error is want of memory.
pub fn rename_code(
    alloc: Global,
    tables: &Tables,
    end: u32,
    code: Seq<Instr>,
) -> Result<Seq<Instr>, AllocError>
    requires { length code ≡ end }
    ensures { IfOk result (λ renamed. renamed ≡ renamed_code (naming tables.now end) code) }
{
    let mut items = code.into_vec();
    let mut renamed = Backward::with_capacity(alloc, items.len())?;
    let mut left = 0;
    while let Some(instr) = items.pop() {
        renamed.push(rename_instr(tables, end, left, instr))?;
        left += 1;
    }
    Ok(Seq::from_vec(renamed.into_vec()))
}
