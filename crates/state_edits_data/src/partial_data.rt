//! Adjacent data is joined.
ghost use Rattle.std.specs.Prelude.{◌≡◌, ◌<◌, ◌^◌, ◌-◌, OnOk, IfOk, IfErr, length, slice_get};
ghost use Rattle.markdown_options.specs.Messages.{IsOutOfMemory};
ghost use Rattle.engine_edits.specs.Edits.{edits_of};
ghost use Rattle.state_edits_data.specs.Data.{data_edits, is_data, is_seam, seam_edit};

use engine_edits::EditMap;
use markdown_engine::Message;
use markdown_engine::event::{Event, Kind, Name};
use std::alloc::Allocator;

/// Whether data begins, or ends, that isn't a chunk to be read later.
fn is_data(kind: Kind, event: Option<Event>) -> bool
    ensures { result ≡ is_data kind event }
{
    match event {
        None => false,
        Some(event) => { event.kind == kind && event.name == Name::Data && event.link().is_none() }
    }
}

/// Whether data begins, or ends, at an index.
pub fn is_data_at(kind: Kind, events: &[Event], index: usize) -> bool
    ensures { result ≡ is_data kind (slice_get events.now index) }
{
    is_data(kind, events.get(index).copied())
}

/// Whether data ends at an index that began right before, and more begins right after.
fn is_seam(events: &[Event], index: usize) -> bool
    requires { index < 2 ^ 64 - 1 }
    ensures { result ≡ is_seam events.now index }
{
    if !is_data_at(Kind::Enter, events, index.saturating_sub(1)) {
        return false;
    }
    if !is_data_at(Kind::Exit, events, index) {
        return false;
    }
    is_data_at(Kind::Enter, events, index + 1)
}

/// Adds the edit of an index.
fn add_seam<A: Allocator + Clone>(
    edits: &mut EditMap<A>,
    alloc: A,
    events: &[Event],
    index: usize,
) -> Result<(), Message>
    requires { index < 2 ^ 64 - 1 }
    ensures edits { OnOk result (edits_of edits.new ≡ seam_edit events.now index (edits_of edits.old)) }
    ensures memory { IfErr result IsOutOfMemory }
{
    if is_seam(events, index) {
        edits.add(index, 2, Vec::new(alloc))?;
    }
    Ok(())
}

/// The edits that join data.
#[tactic(auto, using(crate::proofs::Steps::data_more, crate::proofs::Steps::data_start))]
pub fn data_edits<A: Allocator + Clone>(alloc: A, events: &[Event]) -> Result<EditMap<A>, Message>
    ensures edits { IfOk result (λ edits. edits_of edits ≡ data_edits events.now (length events.now)) }
    ensures memory { IfErr result IsOutOfMemory }
{
    let mut edits = EditMap::new(alloc.clone()?);
    for index in 0..events.len() {
        add_seam(&mut edits, alloc.clone()?, events, index)?;
    }
    Ok(edits)
}
