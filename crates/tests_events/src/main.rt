//! Prints the faults and the pages of lists of events, which are read from standard input. With a number as its word it checks each list so
//! many times, to be timed.
#![tactic(auto)]

mod answers;
mod deep;
mod edits;
mod lists;
mod names;
mod options;
mod pages;

use answers::Answers;
use std::env;
use std::io::{self, ErrorKind, Read};

fn main(rt: HostRuntime) -> io::Result<()> {
    let mut times = 1;
    for word in env::args(&rt)?.skip(1) {
        times = word.parse::<usize>().map_err(|_| ErrorKind::InvalidInput)?;
    }
    let mut input = String::new(rt.alloc());
    rt.stdin().read_to_string(&mut input)?;
    let mut answers = Answers::new(rt.alloc(), times)?;
    for line in input.lines() {
        answers.print(&rt, line)?;
    }
    Ok(())
}
