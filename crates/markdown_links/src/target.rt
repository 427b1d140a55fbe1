//! What events spell: where links lead, and labels.
ghost use Rattle.std.specs.Prelude.{◌≡◌, ◌++◌, OnOk, string_bytes};
ghost use Rattle.markdown_links.specs.Target.{is_address, label_at, protocol_of, target_at, target_text};

use crate::kind::is_literal;
use crate::link::text_of;
use compile_written::child::text_first;
use compile_written::string::push_string;
use engine_events::event::{Event, Name};
use event_references::label::push_text_at;
use markdown_options::Tables;
use std::alloc::{AllocError, Allocator};

/// Appends the destination that the event at an index spells, if there is one.
pub(crate) fn push_target<T: Tables, A: Allocator>(
    out: &mut String<A>,
    bytes: &[u8],
    tables: &T,
    events: &[Event],
    index: Option<usize>,
) -> Result<(), AllocError>
    ensures { OnOk result (string_bytes out.new ≡ string_bytes out.old ++ target_at (T.reference_of tables.now) bytes.now events.now index) }
{
    match index {
        Some(index) if index < events.len() => push_first(out, bytes, tables, &events[index..]),
        _ => Ok(()),
    }
}

/// Appends what the first of these events spells: an address is a URL as it is written, with its
/// protocol; anything else is a string.
fn push_first<T: Tables, A: Allocator>(
    out: &mut String<A>,
    bytes: &[u8],
    tables: &T,
    events: &[Event],
) -> Result<(), AllocError>
    ensures { OnOk result (string_bytes out.new ≡ string_bytes out.old ++ target_text (T.reference_of tables.now) bytes.now events.now) }
{
    let [enter, inside @ ..] = events else {
        return Ok(());
    };
    if !is_address(enter.name) {
        return push_string(out, bytes, tables, inside);
    }
    out.push_str(protocol_of(enter.name))?;
    out.push_str(text_of(text_first(bytes, events)))
}

/// Whether an event of this name is an address: a URL, or that of an email without its protocol
/// (CommonMark 6.5, GFM 6.9).
fn is_address(name: Name) -> bool
    ensures { result ≡ is_address name }
{
    name == Name::AutolinkProtocol || name == Name::AutolinkEmail || is_literal(name)
}

/// What is before an address in its URL.
fn protocol_of(name: Name) -> &'static str
    ensures { result.now ≡ protocol_of name }
{
    if name == Name::AutolinkEmail || name == Name::GfmAutolinkLiteralEmail {
        "mailto:"
    } else if name == Name::GfmAutolinkLiteralWww {
        "http://"
    } else {
        ""
    }
}

/// Sets `label` to the bytes of the label at an index, without quote prefixes.
pub(crate) fn read_label<A: Allocator>(
    label: &mut Vec<u8, A>,
    bytes: &[u8],
    events: &[Event],
    index: Option<usize>,
) -> Result<(), AllocError>
    ensures { OnOk result (label.new.items ≡ label_at bytes.now events.now index) }
{
    label.clear();
    match index {
        Some(index) => push_text_at(label, bytes, events, index),
        None => Ok(()),
    }
}
