//! Email addresses among data, outside of links and calls (GFM 6.9).
ghost use Rattle.std.specs.Prelude.{◌≡◌, ◌==◌, ◌<◌, ◌^◌, ◌+◌, [], OnOk, IfOk, IfErr, length, slice_get};
ghost use Rattle.std.specs.List.{list_any};
ghost use Rattle.definition_text.specs.Ascii.{at_sign};
ghost use Rattle.markdown_options.specs.Messages.{IsOutOfMemory};
ghost use Rattle.inline_leaves.specs.Leaves.{kind_view};
ghost use Rattle.engine_edits.specs.Edits.{edits_of};
ghost use Rattle.state_edits_links.specs.GfmAutolinkLiteral.{address_edit, address_edits, address_events, address_name, is_data_at, is_link, links_after};
ghost use Rattle.state_edits_links.specs.GfmAutolinkLiteral.{linking, with_address, with_data};
ghost use Rattle.state_edits_links.specs.Views.{linking_view};

use engine_edits::EditMap;
use engine_text::bytes::part;
use inline_leaves::LiteralKind;
use inline_links::part::from;
use inline_literals::first_address;
use markdown_engine::Message;
use markdown_engine::event::{Event, Kind, Name};
use markdown_engine::place::Point;
use state_edits_data::each::{data_part, later, place_at, place_past, push_around, push_if};
use state_edits_data::partial_data::is_data_at as is_data;
use std::alloc::Allocator;

/// The name of an address, by what it begins with.
fn address_name(kind: LiteralKind, text: &[u8]) -> Name
    ensures { result ≡ address_name (kind_view kind) text.now }
{
    if kind == LiteralKind::Email {
        return Name::GfmAutolinkLiteralEmail;
    }
    if text.starts_with(b"mailto:") {
        return Name::GfmAutolinkLiteralMailto;
    }
    Name::GfmAutolinkLiteralXmpp
}

/// Events in place of data, and where they end.
#[derive(Drop)]
pub struct Linking<A: Allocator> {
    events: Vec<Event, A>,
    point: Point,
}

impl<A: Allocator> Linking<A> {
    ghost use Rattle.std.specs.Prelude.{◌≡◌, OnOk, IfErr};

    /// Data comes next, if that isn't empty.
    fn hold(&mut self, run: &[u8]) -> Result<(), Message>
        ensures held { OnOk result (linking_view self.new [] ≡ with_data (linking_view self.old run.now)) }
        ensures memory { IfErr result IsOutOfMemory }
    {
        let end = place_past(self.point, run);
        push_if(
            !run.is_empty(),
            &mut self.events,
            Name::Data,
            self.point,
            end,
        )?;
        self.point = end;
        Ok(())
    }

    /// An address comes next.
    fn link(&mut self, kind: LiteralKind, text: &[u8]) -> Result<(), Message>
        ensures linked { OnOk result (linking_view self.new [] ≡ with_address (kind_view kind) text.now (linking_view self.old [])) }
        ensures memory { IfErr result IsOutOfMemory }
    {
        let end = place_past(self.point, text);
        let name = address_name(kind, text);
        push_around(&mut self.events, name, self.point, end)?;
        self.point = end;
        Ok(())
    }
}

/// The events in place of data at a place.
fn address_events<A: Allocator>(
    alloc: A,
    run: &[u8],
    point: Point,
) -> Result<Vec<Event, A>, Message>
    ensures events { IfOk result (λ all. all.items ≡ address_events point run.now) }
    ensures memory { IfErr result IsOutOfMemory }
{
    let mut linking = Linking {
        events: Vec::new(alloc),
        point,
    };
    let mut rest = run;
    while let Some(found) = first_address(rest) {
        linking.hold(part(rest, 0, found.start))?;
        let size = found.end - found.start;
        linking.link(found.kind, part(rest, found.start, size))?;
        rest = from(rest, found.end);
    }
    linking.hold(rest)?;
    Ok(linking.events)
}

/// Whether a link or a call begins, or ends.
fn is_link(kind: Kind, event: Option<Event>) -> bool
    ensures { result ≡ is_link kind event }
{
    match event {
        None => false,
        Some(event) => {
            event.kind == kind && (event.name == Name::Link || event.name == Name::GfmFootnoteCall)
        },
    }
}

/// Whether a link or a call begins, or ends, at an index.
fn is_link_at(kind: Kind, events: &[Event], index: usize) -> bool
    ensures { result ≡ is_link kind (slice_get events.now index) }
{
    is_link(kind, events.get(index).copied())
}

/// How many links and calls are open after the event at an index.
fn links_past(events: &[Event], index: usize, links: usize) -> usize
    ensures { result ≡ links_after (slice_get events.now index) links }
{
    if is_link_at(Kind::Enter, events, index) {
        return later(1, links);
    }
    if is_link_at(Kind::Exit, events, index) {
        return links.saturating_sub(1);
    }
    links
}

/// Whether data stands at an index.
fn is_data_at(events: &[Event], index: usize) -> bool
    requires { index < 2 ^ 63 }
    ensures { result ≡ is_data_at events.now index }
{
    is_data(Kind::Enter, events, index) && is_data(Kind::Exit, events, index + 1)
}

/// Whether there is an `@`.
fn has_at_sign(run: &[u8]) -> bool
    ensures { result ≡ list_any (λ b. b == at_sign) run.now }
{
    run.contains(&b'@')
}

/// Adds the edit of an index, in so many links and calls.
fn add_addresses<A: Allocator + Clone>(
    edits: &mut EditMap<A>,
    alloc: &A,
    bytes: &[u8],
    events: &[Event],
    links: usize,
    index: usize,
) -> Result<(), Message>
    requires { index < 2 ^ 63 }
    ensures edits { OnOk result (edits_of edits.new ≡ address_edit bytes.now events.now links index (edits_of edits.old)) }
    ensures memory { IfErr result IsOutOfMemory }
{
    if links != 0 {
        return Ok(());
    }
    if !is_data_at(events, index) {
        return Ok(());
    }
    let run = data_part(bytes, events, index);
    if has_at_sign(run) {
        let all = address_events(alloc.clone()?, run, place_at(events, index))?;
        edits.add(index, 2, all)?;
    }
    Ok(())
}

/// The edits that put email addresses in place of data outside of links and calls.
#[tactic(auto, using(crate::proofs::Steps::address_steps))]
pub fn address_edits<A: Allocator + Clone>(
    alloc: &A,
    bytes: &[u8],
    events: &[Event],
) -> Result<EditMap<A>, Message>
    ensures edits { IfOk result (λ edits. edits_of edits ≡ address_edits bytes.now events.now (length events.now)) }
    ensures memory { IfErr result IsOutOfMemory }
{
    let mut edits = EditMap::new(alloc.clone()?);
    let mut links = 0;
    for index in 0..events.len() {
        add_addresses(&mut edits, alloc, bytes, events, links, index)?;
        links = links_past(events, index, links);
    }
    Ok(edits)
}
