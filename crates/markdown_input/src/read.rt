//! The words of a command line, and the texts that they name.
use crate::fault::Fault;
use std::io::Input;
use std::rt::{Env, Files};
use std::{env, fs, io};

/// The name of standard input.
pub const STANDARD_INPUT: &str = "-";

/// The words of the process, without the name of the program. Fails with `Words` or `Memory`.
pub fn words(rt: &(impl Env + AllocGlobal)) -> Result<Vec<String>, Fault> {
    read_words(rt).map_err(|error| Fault::Words.unless_memory(&error))
}

fn read_words(rt: &(impl Env + AllocGlobal)) -> io::Result<Vec<String>> {
    let mut words = Vec::new(rt.alloc());
    for word in env::args(rt)?.skip(1) {
        words.push(word)?;
    }
    Ok(words)
}

/// Whether a word of a command line is a flag, and not the name of a file.
pub fn is_flag(word: &str) -> bool {
    word.starts_with('-') && word != STANDARD_INPUT
}

/// The text of a file, or of standard input. Fails with `Read`, `Utf8` or `Memory`.
pub fn text(rt: &(impl Files + Input + AllocGlobal), name: &str) -> Result<String, Fault> {
    read_text(rt, name).map_err(|error| Fault::reading(&error))
}

fn read_text(rt: &(impl Files + Input + AllocGlobal), name: &str) -> io::Result<String> {
    if name == STANDARD_INPUT {
        io::read_to_string(rt.alloc(), rt.reader())
    } else {
        fs::read_to_string(rt, name)
    }
}
