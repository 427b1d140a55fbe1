//! The address of an autolink is an email address where no scheme begins it (CommonMark 6.5).
ghost use Rattle.std.specs.Prelude.{◌≡◌, ◌==◌, ◌<◌, ◌^◌, OnOk, IfOk, IfErr, length, slice_get};
ghost use Rattle.markdown_options.specs.Messages.{IsOutOfMemory};
ghost use Rattle.engine_edits.specs.Edits.{edits_of};
ghost use Rattle.state_edits_links.specs.Autolink.{email_edit, email_edits, has_colon, is_address, is_address_at, is_email};

use engine_edits::EditMap;
use markdown_engine::Message;
use markdown_engine::event::{Event, Kind, Name};
use state_edits_data::each::{data_part, place_at, push_around};
use std::alloc::Allocator;

/// Whether what an autolink leads to begins, or ends.
fn is_address(kind: Kind, event: Option<Event>) -> bool
    ensures { result ≡ is_address kind event }
{
    match event {
        None => false,
        Some(event) => event.kind == kind && event.name == Name::AutolinkProtocol,
    }
}

/// Whether it begins, or ends, at an index.
fn is_end_at(kind: Kind, events: &[Event], index: usize) -> bool
    ensures { result ≡ is_address kind (slice_get events.now index) }
{
    is_address(kind, events.get(index).copied())
}

/// Whether it stands at an index.
fn is_address_at(events: &[Event], index: usize) -> bool
    requires { index < 2 ^ 63 }
    ensures { result ≡ is_address_at events.now index }
{
    is_end_at(Kind::Enter, events, index) && is_end_at(Kind::Exit, events, index + 1)
}

fn has_colon(text: &[u8]) -> bool
    ensures { result ≡ has_colon text.now }
{
    text.contains(&b':')
}

/// Whether an email address stands at an index.
fn is_email(bytes: &[u8], events: &[Event], index: usize) -> bool
    requires { index < 2 ^ 63 }
    ensures { result ≡ is_email bytes.now events.now index }
{
    is_address_at(events, index) && !has_colon(data_part(bytes, events, index))
}

/// Adds the edit of an index.
fn add_email<A: Allocator + Clone>(
    edits: &mut EditMap<A>,
    alloc: &A,
    bytes: &[u8],
    events: &[Event],
    index: usize,
) -> Result<(), Message>
    requires { index < 2 ^ 63 }
    ensures edits { OnOk result (edits_of edits.new ≡ email_edit bytes.now events.now index (edits_of edits.old)) }
    ensures memory { IfErr result IsOutOfMemory }
{
    if !is_email(bytes, events, index) {
        return Ok(());
    }
    let end = place_at(events, index + 1);
    let mut email = Vec::new(alloc.clone()?);
    push_around(
        &mut email,
        Name::AutolinkEmail,
        place_at(events, index),
        end,
    )?;
    edits.add(index, 2, email)?;
    Ok(())
}

/// The edits that name email addresses in place of other addresses.
#[tactic(auto, using(crate::proofs::Steps::emails_more, crate::proofs::Steps::emails_start))]
pub fn email_edits<A: Allocator + Clone>(
    alloc: &A,
    bytes: &[u8],
    events: &[Event],
) -> Result<EditMap<A>, Message>
    ensures edits { IfOk result (λ edits. edits_of edits ≡ email_edits bytes.now events.now (length events.now)) }
    ensures memory { IfErr result IsOutOfMemory }
{
    let mut edits = EditMap::new(alloc.clone()?);
    for index in 0..events.len() {
        add_email(&mut edits, alloc, bytes, events, index)?;
    }
    Ok(edits)
}
