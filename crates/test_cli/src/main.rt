//! Calls the program over files and sinks in memory, with their faults. Standard input is files and calls, line by
//! line; standard output is transcripts. `docs/TESTING.md` describes each line.
#![tactic(auto)]

mod calls;
mod faults;
mod files;
mod rows;

use crate::rows::Rows;
use std::io;

fn main(rt: HostRuntime) -> io::Result<()> {
    let mut rows = Rows::new(rt.alloc());
    for line in rt.lines(rt.alloc()) {
        let line = line?;
        let text = rows.answer(line.as_str())?;
        print!(rt; "{text}")?;
    }
    Ok(())
}
