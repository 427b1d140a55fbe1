//! Links, images and calls in place of the labels that were found.
ghost use Rattle.std.specs.Prelude.{◌≡◌, OnOk, IfOk, IfErr};
ghost use Rattle.std.specs.List.{fold};
ghost use Rattle.markdown_options.specs.Messages.{IsOutOfMemory};
ghost use Rattle.engine_edits.specs.Edits.{edits_of};
ghost use Rattle.markdown_engine.specs.KeptState.{kept_state};
ghost use Rattle.state_edits_links.specs.LabelEnd.{count, enters, exits, group_name, label_edits, link_start, with_end, with_label};
ghost use Rattle.state_edits_links.specs.LabelEnd.{with_link_start, with_loose, with_start};

use engine_edits::EditMap;
use markdown_engine::Message;
use markdown_engine::event::{Event, Kind, Name};
use markdown_engine::label::{Label, LabelKind, LabelStart};
use markdown_engine::tokenize_state::TokenizeState;
use state_edits_data::each::{later, place_at};
use std::alloc::Allocator;

/// The beginning of something, where an event of a list is.
fn enters(events: &[Event], name: Name, index: usize) -> Event
    ensures { result ≡ enters events.now name index }
{
    Event::new(Kind::Enter, name, place_at(events, index), None)
}

/// The end of something, where an event of a list is.
fn exits(events: &[Event], name: Name, index: usize) -> Event
    ensures { result ≡ exits events.now name index }
{
    Event::new(Kind::Exit, name, place_at(events, index), None)
}

/// The name of what a label belongs to.
fn group_name(kind: LabelKind) -> Name
    ensures { result ≡ group_name kind }
{
    match kind {
        LabelKind::Image => Name::Image,
        LabelKind::Link => Name::Link,
        LabelKind::GfmFootnote => Name::GfmFootnoteCall,
        LabelKind::GfmUndefinedFootnote => Name::Link,
    }
}

/// A list of given events.
fn event_list<A: Allocator>(alloc: A, events: &[Event]) -> Result<Vec<Event, A>, Message>
    ensures events { IfOk result (λ all. all.items ≡ events.now) }
    ensures memory { IfErr result IsOutOfMemory }
{
    let mut all = Vec::new(alloc);
    all.extend_from_slice(events)?;
    Ok(all)
}

/// Adds the edits of a label's start.
fn add_start<A: Allocator + Clone>(
    edits: &mut EditMap<A>,
    alloc: &A,
    events: &[Event],
    label: &Label,
) -> Result<(), Message>
    ensures edits { OnOk result (edits_of edits.new ≡ with_start events.now label.now (edits_of edits.old)) }
    ensures memory { IfErr result IsOutOfMemory }
{
    let (from, to) = label.start;
    let group = enters(events, group_name(label.kind), from);
    let label = enters(events, Name::Label, from);
    edits.add(from, 0, event_list(alloc.clone()?, &[group, label])?)?;
    let text = enters(events, Name::LabelText, to);
    edits.add_before(later(1, to), 0, event_list(alloc.clone()?, &[text])?)?;
    Ok(())
}

/// The events of a footnote's start that is a link, whose text begins with the `^`.
fn link_start<A: Allocator>(
    alloc: A,
    events: &[Event],
    from: usize,
    to: usize,
) -> Result<Vec<Event, A>, Message>
    ensures events { IfOk result (λ all. all.items ≡ link_start events.now from to) }
    ensures memory { IfErr result IsOutOfMemory }
{
    let after = later(2, from);
    event_list(
        alloc,
        &[
            enters(events, Name::Link, from),
            enters(events, Name::Label, from),
            enters(events, Name::LabelLink, from),
            enters(events, Name::LabelMarker, from),
            exits(events, Name::LabelMarker, after),
            exits(events, Name::LabelLink, after),
            enters(events, Name::LabelText, after),
            enters(events, Name::Data, after),
            exits(events, Name::Data, to),
        ],
    )
}

/// Adds the edit of a footnote's start that is no call.
fn add_link_start<A: Allocator + Clone>(
    edits: &mut EditMap<A>,
    alloc: &A,
    events: &[Event],
    label: &Label,
) -> Result<(), Message>
    ensures edits { OnOk result (edits_of edits.new ≡ with_link_start events.now label.now (edits_of edits.old)) }
    ensures memory { IfErr result IsOutOfMemory }
{
    let (from, to) = label.start;
    edits.add(from, 6, link_start(alloc.clone()?, events, from, to)?)?;
    Ok(())
}

/// Adds the edits of a label's end.
fn add_end<A: Allocator + Clone>(
    edits: &mut EditMap<A>,
    alloc: &A,
    events: &[Event],
    label: &Label,
) -> Result<(), Message>
    ensures edits { OnOk result (edits_of edits.new ≡ with_end events.now label.now (edits_of edits.old)) }
    ensures memory { IfErr result IsOutOfMemory }
{
    let (from, to) = label.end;
    let text = exits(events, Name::LabelText, from);
    edits.add(from, 0, event_list(alloc.clone()?, &[text])?)?;
    let inner = exits(events, Name::Label, later(3, from));
    edits.add(later(4, from), 0, event_list(alloc.clone()?, &[inner])?)?;
    let group = exits(events, group_name(label.kind), to);
    edits.add(later(1, to), 0, event_list(alloc.clone()?, &[group])?)?;
    Ok(())
}

/// Adds the edits of a label.
fn add_label<A: Allocator + Clone>(
    edits: &mut EditMap<A>,
    alloc: &A,
    events: &[Event],
    label: &Label,
) -> Result<(), Message>
    ensures edits { OnOk result (edits_of edits.new ≡ with_label events.now (edits_of edits.old) label.now) }
    ensures memory { IfErr result IsOutOfMemory }
{
    if label.kind == LabelKind::GfmUndefinedFootnote {
        add_link_start(edits, alloc, events, label)?;
        return add_end(edits, alloc, events, label);
    }
    add_start(edits, alloc, events, label)?;
    add_end(edits, alloc, events, label)
}

/// Adds the edit of a start that found no end.
fn add_loose<A: Allocator + Clone>(
    edits: &mut EditMap<A>,
    alloc: &A,
    events: &[Event],
    start: &LabelStart,
) -> Result<(), Message>
    ensures edits { OnOk result (edits_of edits.new ≡ with_loose events.now (edits_of edits.old) start.now) }
    ensures memory { IfErr result IsOutOfMemory }
{
    let (from, to) = start.start;
    let enter = enters(events, Name::Data, from);
    let exit = exits(events, Name::Data, to);
    edits.add(
        from,
        count(from, to),
        event_list(alloc.clone()?, &[enter, exit])?,
    )?;
    Ok(())
}

/// How many events there are from an index up to and at another.
fn count(from: usize, to: usize) -> usize
    ensures { result ≡ count from to }
{
    if to < from {
        return 0;
    }
    (to - from).saturating_add(1)
}

/// Adds the edits of labels.
fn add_labels<A: Allocator + Clone>(
    edits: &mut EditMap<A>,
    alloc: &A,
    events: &[Event],
    labels: &[Label],
) -> Result<(), Message>
    ensures edits { OnOk result (edits_of edits.new ≡ fold (with_label events.now) (edits_of edits.old) labels.now) }
    ensures memory { IfErr result IsOutOfMemory }
{
    for index in 0..labels.len() {
        add_label(edits, alloc, events, &labels[index])?;
    }
    Ok(())
}

/// Adds the edits of starts that found no end.
fn add_all_loose<A: Allocator + Clone>(
    edits: &mut EditMap<A>,
    alloc: &A,
    events: &[Event],
    starts: &[LabelStart],
) -> Result<(), Message>
    ensures edits { OnOk result (edits_of edits.new ≡ fold (with_loose events.now) (edits_of edits.old) starts.now) }
    ensures memory { IfErr result IsOutOfMemory }
{
    for index in 0..starts.len() {
        add_loose(edits, alloc, events, &starts[index])?;
    }
    Ok(())
}

/// The edits that put links, images and calls in place of labels, and data in place of other starts.
pub fn label_edits<A: Allocator + Clone>(
    alloc: &A,
    events: &[Event],
    state: &TokenizeState<A>,
) -> Result<EditMap<A>, Message>
    ensures edits { IfOk result (λ edits. edits_of edits ≡ label_edits events.now (kept_state state.now)) }
    ensures memory { IfErr result IsOutOfMemory }
{
    let mut edits = EditMap::new(alloc.clone()?);
    add_labels(&mut edits, alloc, events, &state.labels)?;
    add_all_loose(&mut edits, alloc, events, &state.label_starts_loose)?;
    add_all_loose(&mut edits, alloc, events, &state.label_starts)?;
    Ok(edits)
}
