//! The fragments of the files that links lead to.
use crate::events::events_of;
use lint_rules::{Document, Fragments};
use markdown_input::{Fault, Flags};
use markdown_tables::Builtin;
use std::alloc::{AllocError, Global};
use std::collections::BTreeMap;
use std::fs;
use std::path::Path;
use std::rt::Files;

/// The fragments of the files that links led to so far. Each file is read once.
#[derive(Drop)]
pub struct KnownFragments {
    /// The fragments of a file by its path, or None if it can't be read.
    files: BTreeMap<String, Option<Fragments>>,
    /// The constructs that texts are read with.
    flags: Flags,
}

impl KnownFragments {
    /// No file was read. Texts are read with these constructs.
    pub fn new(alloc: Global, flags: Flags) -> KnownFragments {
        KnownFragments {
            files: BTreeMap::new(alloc),
            flags,
        }
    }

    /// Whether the file at a path has a fragment, or can't be read. Fails if memory runs out.
    pub(crate) fn has<R: Files + AllocGlobal>(
        &mut self,
        rt: &R,
        path: Path<'_>,
        fragment: &str,
    ) -> Result<bool, AllocError> {
        // One file may be named by many paths.
        let path = match path.canonicalize(rt) {
            Ok(path) => path,
            Err(error) => return unless_memory(Fault::reading(&error), true),
        };
        let path = path.as_str();
        if !self.files.contains_key(path) {
            let fragments = fragments_of(rt, path, self.flags)?;
            self.files
                .insert(String::from_str(rt.alloc(), path)?, fragments)?;
        }
        Ok(match self.files.get(path) {
            Some(Some(fragments)) => fragments.has(fragment),
            _ => true,
        })
    }
}

/// The fragments of a file, or None if it can't be read. Fails if memory runs out.
fn fragments_of<R: Files + AllocGlobal>(
    rt: &R,
    path: &str,
    flags: Flags,
) -> Result<Option<Fragments>, AllocError> {
    let text = match fs::read_to_string(rt, path) {
        Ok(text) => text,
        Err(error) => return unless_memory(Fault::reading(&error), None),
    };
    let events = match events_of(rt.alloc(), text.as_str(), &flags.options(), &Builtin) {
        Ok(events) => events,
        Err(fault) => return unless_memory(fault, None),
    };
    let document = Document {
        bytes: text.as_bytes(),
        events: &events,
        gfm: flags.gfm,
    };
    Ok(Some(Fragments::of(rt.alloc(), &document)?))
}

/// A value in place of a fault. Fails if that is of memory.
fn unless_memory<T: Drop>(fault: Fault, value: T) -> Result<T, AllocError> {
    match fault {
        Fault::Memory => Err(AllocError),
        _ => Ok(value),
    }
}
