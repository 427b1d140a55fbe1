//! Lines, and what is printed for each.
use crate::deep::print_deep;
use crate::edits::Edit;
use crate::lists::{bytes_of, events_of};
use crate::names::Names;
use crate::pages::print_page_of;
use engine_events::event::Event;
use event_check::{CompileError, check_events, gfm_table_align, list_item_loose, list_loose};
use event_faults::EventFault;
use markdown_tables::Builtin;
use std::alloc::{AllocError, Global};
use std::io::{self, ErrorKind};

/// The text and the list that edits are applied to.
#[derive(Drop)]
pub struct Answers {
    alloc: Global,
    names: Names,
    bytes: Vec<u8>,
    events: Vec<Event>,
    /// How many times each list is checked.
    times: usize,
}

impl Answers {
    pub fn new(alloc: Global, times: usize) -> Result<Answers, AllocError> {
        Ok(Answers {
            alloc,
            names: Names::new(alloc)?,
            bytes: Vec::new(alloc),
            events: Vec::new(alloc),
            times,
        })
    }

    /// Reads one line. `text TEXT` is the text of the lists after it. `list EVENTS` is a list, whose fault is printed. `loose`, `item`
    /// and `align` ask for more of the list. `page` has options, a text and a list of its own, whose page is printed; `deep` names a
    /// list that is 100,000 deep. Every other line is an edit of the list, and the fault of the edited list is printed.
    pub fn print(&mut self, rt: &(impl AllocGlobal + Print), line: &str) -> io::Result<()> {
        let alloc = self.alloc;
        let (kind, rest) = line.split_once(' ').unwrap_or((line, ""));
        match kind {
            "text" => {
                self.bytes = bytes_of(alloc, rest)?.ok_or(ErrorKind::InvalidData)?;
                Ok(())
            }
            "list" => {
                self.events = events_of(alloc, &self.names, rest)?.ok_or(ErrorKind::InvalidData)?;
                print_fault(rt, self.fault(&self.events)?)
            }
            "loose" | "item" | "align" => self.print_more(rt, kind, rest),
            "page" => print_page_of(rt, &self.names, rest),
            "deep" => print_deep(rt, rest),
            _ => {
                let edit = Edit::read(&self.names, line).ok_or(ErrorKind::InvalidData)?;
                let edited = edit.apply(alloc, &self.events)?;
                print_fault(rt, self.fault(&edited)?)
            }
        }
    }

    /// Prints of the event at an index: of a list, whether it is loose by its items alone, and with what they hold; of an item,
    /// whether it is loose; of a table, the alignments of its columns.
    fn print_more(&self, rt: &impl Print, kind: &str, place: &str) -> io::Result<()> {
        let alloc = self.alloc;
        let index = place.parse::<usize>().map_err(|_| ErrorKind::InvalidData)?;
        let Ok(checked) = check_events(alloc, &self.events, &self.bytes, &Builtin) else {
            return Err(ErrorKind::InvalidData.into());
        };
        if kind == "item" {
            let is_loose = list_item_loose(&checked, index);
            return println!(rt; "{is_loose}");
        }
        if kind == "loose" {
            let is_loose = list_loose(&checked, index, false);
            let is_loose_inside = list_loose(&checked, index, true);
            return println!(rt; "{is_loose} {is_loose_inside}");
        }
        let Ok(aligns) = gfm_table_align(alloc, &checked, index) else {
            return Err(ErrorKind::OutOfMemory.into());
        };
        let mut line = String::new(alloc);
        for align in &aligns {
            if !line.is_empty() {
                line.push(' ')?;
            }
            line.push_str(&format!(in alloc; "{align:?}")?)?;
        }
        println!(rt; "{line}")
    }

    /// The fault of a list, each time the same.
    fn fault(&self, events: &[Event]) -> Result<Option<EventFault>, AllocError> {
        let mut found = None;
        for _ in 0..self.times {
            found = self.fault_once(events)?;
        }
        Ok(found)
    }

    fn fault_once(&self, events: &[Event]) -> Result<Option<EventFault>, AllocError> {
        match check_events(self.alloc, events, &self.bytes, &Builtin) {
            Ok(_) => Ok(None),
            Err(CompileError::Events(fault)) => Ok(Some(fault)),
            Err(CompileError::Memory) => Err(AllocError),
        }
    }
}

fn print_fault(rt: &impl Print, found: Option<EventFault>) -> io::Result<()> {
    match found {
        None => println!(rt; "ok"),
        Some(fault) => {
            let EventFault { kind, index } = fault;
            println!(rt; "{kind:?} {index}")
        }
    }
}
