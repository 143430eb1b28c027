//! The program `eqc`: compares two netlists, of standard input or of files, and writes the report
//! to standard output.
#![tactic(auto)]

#[cfg(test)]
mod tests;

use eqc_command::program;
use std::io::IsTerminal;
use std::process::ExitCode;
use std::{env, io};

/// The words of the command line, the program's name first.
fn words(rt: &(impl env::Env + AllocGlobal)) -> io::Result<Vec<String>> {
    Ok(env::args(rt)?.collect(rt.alloc())?)
}

fn main(rt: HostRuntime) -> ExitCode {
    let mut out = rt.stdout();
    let mut err = rt.stderr();
    match words(&rt) {
        Ok(words) => {
            let is_terminal = err.is_terminal();
            let input = rt.stdin();
            ExitCode::from(program(&rt, &words, input, &mut out, &mut err, is_terminal))
        }
        Err(error) => {
            let _ = eprintln!(rt; "error: the command line could not be read: {error}");
            ExitCode::from(5)
        }
    }
}
