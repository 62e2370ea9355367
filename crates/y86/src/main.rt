//! The program `y86`: its command line, the files, standard output and standard error.
#![tactic(auto)]

use std::process::ExitCode;
use std::{env, io};
use wb_io::{HostFiles, HostSink};
use y86_cli::call;

fn main(rt: HostRuntime) -> ExitCode {
    let mut files = HostFiles::new(&rt);
    let mut out = HostSink::new(io::writer(&rt));
    let mut err = HostSink::new(rt.stderr());
    let status = call(rt.alloc(), env::args(&rt), &mut files, &mut out, &mut err);
    ExitCode::from(status)
}
