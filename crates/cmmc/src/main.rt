//! The program `cmmc`.
//!
//! It hands standard input, output and error to the top call, and ends with the status that this
//! answers. Where it cannot get its words it prints nothing and ends with status 1, which the top call
//! never answers.
#![tactic(auto)]

use bs_io::{ReadSource, WriteSink};
use cmmc_core::{OpenGate, cmmc};
use std::process::ExitCode;
use std::{env, io};

fn main(rt: HostRuntime) -> ExitCode {
    match words(&rt) {
        Ok(words) => {
            let mut source = ReadSource::new(rt.stdin());
            let mut out = WriteSink::new(rt.stdout());
            let mut err = WriteSink::new(rt.stderr());
            ExitCode::from(cmmc(
                &rt,
                rt.alloc(),
                words.as_slice(),
                &mut source,
                &mut out,
                &mut err,
                &OpenGate,
            ))
        }
        Err(_) => ExitCode::from(1),
    }
}

/// The words of the command line after the program's name.
fn words(rt: &HostRuntime) -> io::Result<Vec<String>> {
    let mut words = Vec::new(rt.alloc());
    for word in env::args(rt)?.skip(1) {
        words.push(word)?;
    }
    Ok(words)
}
