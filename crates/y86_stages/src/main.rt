//! The program `y86-stages`: prints the stages of a machine, cycle by cycle. This is its connection to the command
//! line, the files, standard output and standard error.
#![tactic(auto)]

mod calling;
mod reading;
mod request;
mod running;

use crate::calling::call;
use std::process::ExitCode;
use std::{env, io};
use wb_io::{HostFiles, HostSink};

fn main(rt: HostRuntime) -> ExitCode {
    let mut files = HostFiles::new(&rt);
    let mut out = HostSink::new(io::writer(&rt));
    let mut err = HostSink::new(rt.stderr());
    let status = call(rt.alloc(), env::args(&rt), &mut files, &mut out, &mut err);
    ExitCode::from(status)
}
