//! What is shown of a run.

use anyhow::Result;
use bs_words::{Name, Value};
use rows_worlds::{Asked, Call, Doing, End, World};
use std::alloc::Global;
use std::fmt::Write;

pub(crate) fn put_value(said: &mut String, value: Value) -> Result<()> {
    match value {
        Value::Word(word) => write!(said, " {word}")?,
        Value::Block { serial, offset } => write!(said, " b{serial}+{offset}")?,
        Value::Function(number) => write!(said, " f{number}")?,
    }
    Ok(())
}

pub(crate) fn put_values(said: &mut String, values: &[Value]) -> Result<()> {
    for value in values {
        put_value(said, *value)?;
    }
    Ok(())
}

fn put_external(alloc: Global, said: &mut String, name: &Name) -> Result<()> {
    let name = String::from_utf8_lossy(alloc, name.as_bytes())?;
    write!(said, " calls {name}")?;
    Ok(())
}

fn put_callee(alloc: Global, said: &mut String, callee: &Asked) -> Result<()> {
    match callee {
        Asked::Function(number) => {
            write!(said, " calls f{number}")?;
            Ok(())
        }
        Asked::External(name) => put_external(alloc, said, name),
    }
}

fn put_call(alloc: Global, said: &mut String, call: &Call) -> Result<()> {
    put_callee(alloc, said, &call.callee)?;
    put_values(said, call.args.as_slice())?;
    said.push_str(",")?;
    Ok(())
}

fn put_calls(said: &mut String, world: &World) -> Result<()> {
    for call in world.calls.as_slice() {
        put_call(world.alloc, said, call)?;
    }
    Ok(())
}

/// The words of an end, and its value.
fn end_parts(end: End) -> (&'static str, Option<Value>) {
    match end {
        End::Does(Doing::Gives(value)) => (" returned", value),
        End::Does(Doing::Raises(value)) => (" raised", Some(value)),
        End::Asks => (" asks", None),
        End::Stuck => (" stuck", None),
        End::Runs => (" runs on", None),
    }
}

fn put_end(said: &mut String, end: End) -> Result<()> {
    let (words, value) = end_parts(end);
    said.push_str(words)?;
    match value {
        Some(value) => put_value(said, value),
        None => Ok(()),
    }
}

pub(crate) fn put_outcome(world: &World, end: End, said: &mut String) -> Result<()> {
    put_calls(said, world)?;
    put_end(said, end)?;
    write!(said, ", units {}\n", world.units)?;
    Ok(())
}
