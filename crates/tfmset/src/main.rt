//! `tfmset`, which reads TeX font metric files. `tfmset --help` prints its subcommands.
#![tactic(auto)]

use std::env::Env;
use std::process::ExitCode;
use std::{env, io};
use tfm_tool::{tool, words_refused};

/// Returns the arguments after the name of the program.
fn words_of<R: Env + AllocGlobal>(rt: &R) -> io::Result<Vec<String>> {
    Ok(env::args(rt)?.skip(1).collect(rt.alloc())?)
}

fn main(rt: HostRuntime) -> ExitCode {
    let (mut input, mut out, mut err) = (rt.stdin(), rt.stdout(), rt.stderr());
    let status = match words_of(&rt) {
        Ok(words) => tool(&rt, words.as_slice(), &mut input, &mut out, &mut err),
        Err(error) => words_refused(&error, &mut err),
    };
    ExitCode::from(status)
}
