//! Compares the events of texts by both roads: by `parse`, and by the machines. Standard input has lines
//! with options and a file of texts. For each the program prints how many texts there are, how many have
//! equal events, and how many have them but for white space at edges and for cuts of data; before it the
//! texts that differ by more. After `in ranges` it prints how many texts have the same events by the
//! machines wherever they are cut in two, and the others. After `as written` it prints how many texts have
//! the events by the machines that are written after them, and the others.
//!
//! With an argument, `parse` or `machines`, it prints how many events standard input has by that road.
#![tactic(auto)]

mod compare;
mod roads;
mod written;

use compare::{Likeness, compare, is_same_in_ranges};
use roads::count;
use std::io::{self, ErrorKind, Read};
use std::rt::Files;
use std::{env, fs};
use tests_options::{OptionSet, add_decoded};
use written::shown;

/// The line between two texts of a file.
const BETWEEN: &str = "\n@text\n";

/// The line between a text and its events.
const WRITTEN: &str = "\n@is\n";

/// How many texts are equal.
#[derive(Clone, Copy)]
struct Counts {
    texts: usize,
    equal: usize,
    alike: usize,
}

impl Counts {
    /// With a text more.
    fn with(self, likeness: Option<Likeness>) -> Counts {
        let equal = matches!(likeness, Some(Likeness::Equal));
        let alike = matches!(likeness, Some(Likeness::Equal | Likeness::Alike));
        Counts {
            texts: self.texts.saturating_add(1),
            equal: self.equal.saturating_add(usize::from(equal)),
            alike: self.alike.saturating_add(usize::from(alike)),
        }
    }
}

fn main(rt: HostRuntime) -> io::Result<()> {
    let mut input = String::new(rt.alloc());
    rt.stdin().read_to_string(&mut input)?;
    for road in env::args(&rt)?.skip(1) {
        let events = count(rt.alloc(), road.as_str(), &input).ok_or(ErrorKind::InvalidData)?;
        return println!(rt; "{events}");
    }
    for line in input.lines() {
        print_file(&rt, line)?;
    }
    Ok(())
}

/// Reads the texts of the file that a line names, and prints the line with what comes of it.
fn print_file(rt: &(impl AllocGlobal + Files + Print), line: &str) -> io::Result<()> {
    let (set, rest) = line.split_once(' ').ok_or(ErrorKind::InvalidData)?;
    let set = OptionSet::named(set).ok_or(ErrorKind::InvalidData)?;
    let (name, way) = rest.split_once(' ').unwrap_or((rest, ""));
    let file = file_of(rt, name)?;
    match way {
        "" => print_compared(rt, line, set, &file),
        "in ranges" => print_in_ranges(rt, line, set, &file),
        "as written" => print_written(rt, line, set, &file),
        _ => Err(ErrorKind::InvalidData.into()),
    }
}

/// The file of texts with a name.
fn file_of(rt: &(impl AllocGlobal + Files), name: &str) -> io::Result<String> {
    let path = format!(in rt.alloc(); "{name}.texts")?;
    let source = fs::read_to_string(rt, &path)?;
    let mut file = String::new(rt.alloc());
    if add_decoded(&mut file, source.strip_suffix('\n').unwrap_or(&source))? {
        Ok(file)
    } else {
        Err(ErrorKind::InvalidData.into())
    }
}

/// Compares texts, and prints those that differ, and how many are equal.
fn print_compared(
    rt: &(impl AllocGlobal + Print),
    line: &str,
    set: OptionSet,
    file: &str,
) -> io::Result<()> {
    let options = set.options(rt.alloc());
    let mut counts = Counts {
        texts: 0,
        equal: 0,
        alike: 0,
    };
    for text in file.split(BETWEEN).skip(1) {
        let likeness = compare(rt.alloc(), text, &options).ok();
        counts = counts.with(likeness);
        if !matches!(likeness, Some(Likeness::Equal | Likeness::Alike)) {
            println!(rt; "{line}: {text:?}")?;
        }
    }
    let Counts {
        texts,
        equal,
        alike,
    } = counts;
    println!(rt; "{line}: {texts} texts, {equal} equal, {alike} alike")
}

/// Cuts texts, and prints those whose events change, and how many stay the same.
fn print_in_ranges(
    rt: &(impl AllocGlobal + Print),
    line: &str,
    set: OptionSet,
    file: &str,
) -> io::Result<()> {
    let options = set.options(rt.alloc());
    let mut texts = 0usize;
    let mut same = 0usize;
    for text in file.split(BETWEEN).skip(1) {
        texts = texts.saturating_add(1);
        if is_same_in_ranges(rt.alloc(), text, &options) == Ok(true) {
            same = same.saturating_add(1);
        } else {
            println!(rt; "{line}: {text:?}")?;
        }
    }
    println!(rt; "{line}: {texts} texts, {same} the same")
}

/// Prints the texts whose events aren't those that are written after them, with their events, and how many
/// have these.
fn print_written(
    rt: &(impl AllocGlobal + Print),
    line: &str,
    set: OptionSet,
    file: &str,
) -> io::Result<()> {
    let options = set.options(rt.alloc());
    let mut texts = 0usize;
    let mut right = 0usize;
    for row in file.split(BETWEEN).skip(1) {
        let (text, wanted) = row.split_once(WRITTEN).unwrap_or((row, ""));
        let events = shown(rt.alloc(), text, &options.parse);
        let is_right = match &events {
            Ok(events) => events.trim_end() == wanted,
            Err(_) => false,
        };
        texts = texts.saturating_add(1);
        if is_right {
            right = right.saturating_add(1);
        } else {
            println!(rt; "{line}: {text:?}: {events:?}")?;
        }
    }
    println!(rt; "{line}: {texts} texts, {right} right")
}
