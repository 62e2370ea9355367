//! The program `y86-tell`: its command line, the files, standard output and standard error.
#![tactic(auto)]

use std::process::ExitCode;
use std::{env, io};
use tell_cli::respond;
use tell_words::call_of;
use wb_io::{HostFiles, HostSink};

fn main(rt: HostRuntime) -> ExitCode {
    let alloc = rt.alloc();
    let words: Vec<String> = match env::args(&rt) {
        Ok(args) => match args.collect(alloc) {
            Ok(words) => words,
            Err(_) => return ExitCode::from(6),
        },
        Err(_) => return ExitCode::from(2),
    };
    let status = match call_of(&rt, alloc, words.as_slice()) {
        Ok(call) => {
            let mut files = HostFiles::new(&rt);
            let mut out = HostSink::new(io::writer(&rt));
            let mut err = HostSink::new(rt.stderr());
            respond(alloc, call, &mut files, &mut out, &mut err)
        }
        Err(status) => status,
    };
    ExitCode::from(status)
}
