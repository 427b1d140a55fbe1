//! Lists of events in the grammar.
ghost use Rattle.std.specs.Prelude.{◌≡◌, IfErr, IfOk, OnOk, None};
ghost use Rattle.event_faults.specs.Faults.{fault};
ghost use Rattle.event_check.specs.Matches.{MatchesGrammar};
ghost use Rattle.event_check.specs.Checked.{Refuses};
ghost use Rattle.event_check.specs.declared.error.CompileError.TheVariants.{Memory};

use crate::error::CompileError;
use engine_events::event::Event;
use event_faults::check::first_fault;
use event_faults::{EventFault, FaultKind};
use event_references::first_lost;
use markdown_options::Tables;
use std::alloc::{AllocError, Allocator};

/// A list of events in the grammar, with its text and the tables that it was checked with.
pub struct Checked<'a, T> {
    events: &'a [Event],
    bytes: &'a [u8],
    tables: &'a T,
}

/// The same list, by the same tables.
impl<'a, T> Clone for Checked<'a, T> {
    fn clone(&self) -> Result<Self, AllocError> {
        Ok(*self)
    }
}

impl<'a, T> Copy for Checked<'a, T> {}

impl<'a, T: Tables> Checked<'a, T> {
    /// Returns a list that is known to be in the grammar, like that of `parse`. It isn't checked again.
    pub fn new(events: &'a [Event], bytes: &'a [u8], tables: &'a T) -> Checked<'a, T>
        requires matches { MatchesGrammar (T.reference_of tables.now) bytes.now events.now }
        ensures events { result.events.now ≡ events.now }
        ensures bytes { result.bytes.now ≡ bytes.now }
        ensures tables { result.tables.now ≡ tables.now }
    {
        Checked {
            events,
            bytes,
            tables,
        }
    }
}

impl<'a, T> Checked<'a, T> {
    /// Returns the events.
    pub fn events(&self) -> &'a [Event]
        ensures { result.now ≡ self.now.events.now }
    {
        self.events
    }

    /// Returns the bytes of the text.
    pub fn bytes(&self) -> &'a [u8]
        ensures { result.now ≡ self.now.bytes.now }
    {
        self.bytes
    }

    /// Returns the tables.
    pub fn tables(&self) -> &'a T
        ensures { result.now ≡ self.now.tables.now }
    {
        self.tables
    }
}

/// Checks a list of events of a text against the grammar (docs/EVENTS.md). Fails with the first
/// fault of the list, or out of memory.
///
/// A point is an index in bytes, and columns of a tab before it. Its line and column are ignored.
pub fn check_events<'a, T: Tables, A: Allocator + Clone>(
    alloc: A,
    events: &'a [Event],
    bytes: &'a [u8],
    tables: &'a T,
) -> Result<Checked<'a, T>, CompileError>
    ensures right { OnOk result (MatchesGrammar (T.reference_of tables.now) bytes.now events.now) }
    ensures passes { MatchesGrammar (T.reference_of tables.now) bytes.now events.now → IfErr result (λ error. error ≡ Memory) }
    ensures fault { IfErr result (λ error. Refuses error (fault (T.reference_of tables.now) bytes.now events.now)) }
    ensures events { IfOk result (λ checked. checked.events.now ≡ events.now) }
    ensures bytes { IfOk result (λ checked. checked.bytes.now ≡ bytes.now) }
    ensures tables { IfOk result (λ checked. checked.tables.now ≡ tables.now) }
{
    let mut marked = Vec::new(alloc.clone()?);
    if let Some(found) = first_fault(alloc.clone()?, events, bytes, tables, &mut marked)? {
        return Err(CompileError::Events(found));
    }
    if let Some(index) = first_lost(alloc, events, bytes, &marked)? {
        return Err(CompileError::Events(EventFault {
            kind: FaultKind::Reference,
            index,
        }));
    }
    let checked = Checked {
        events,
        bytes,
        tables,
    };
    Ok(checked)
}
