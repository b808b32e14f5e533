//! What `cmmc` and the layers below it say to each line of standard input, in tables.
//!
//! A line `= NAME` begins a table, and is printed again, so that the lines of each table can be told apart. The lines after
//! it are the table's rows: `Subject` has the names, and what the rows of each table are about. The wanted lines of each
//! table were made apart from this program.
#![tactic(auto)]

mod answers;
mod left;
mod subject;

use answers::Answers;
use anyhow::Result;
use left::Left;
use rows_lines::Table;
use rows_top::called::Called;
use std::io::{self, BufRead, BufReader, BufWriter, Write};
use subject::Subject;

fn main(rt: HostRuntime) -> Result<()> {
    let alloc = rt.alloc();
    let top = Called { alloc };
    let mut subject = Subject::Answers(Answers::Commands);
    let mut table = Table::new(&rt, &top, alloc);
    let mut left = Left::new(alloc);
    let mut out = BufWriter::new(alloc, rt.stdout())?;
    for line in BufReader::new(alloc, rt.stdin())?.lines(alloc) {
        let line = line?;
        match line.as_str().strip_prefix("= ") {
            Some(name) => {
                left.end(&mut out)?;
                subject = Subject::of(name)?;
                table = Table::new(&rt, &top, alloc);
                out.write_all(line.as_bytes())?;
                out.write_all(b"\n")?;
            }
            None => left.take(&rt, &mut table, &mut out, subject, line.as_str())?,
        }
    }
    left.end(&mut out)?;
    out.flush()?;
    Ok(())
}
