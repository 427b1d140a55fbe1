//! Markdown from a file or standard input, HTML to standard output.
#![tactic(auto)]

use markdown::{Watched, start};
use std::process::ExitCode;
use std::rt::Env;
use std::{env, io};

fn main(rt: HostRuntime) -> ExitCode {
    let mut reader = Watched::new(rt.stdin());
    let mut writer = Watched::new(rt.stdout());
    let mut faults = Watched::new(rt.stderr());
    let status = start(&rt, words(&rt), &mut reader, &mut writer, &mut faults);
    ExitCode::from(status)
}

/// The words of the process. The first is the program's name.
fn words(rt: &(impl Env + AllocGlobal)) -> io::Result<Vec<String>> {
    let mut words = Vec::new(rt.alloc());
    for word in env::args(rt)? {
        words.push(word)?;
    }
    Ok(words)
}
