//! Values and events compared.
use markdown_engine::Message;
use markdown_engine::event::{Event, Kind};
use std::alloc::{AllocError, Global};
use std::fmt::Debug;
use std::process::Abort;

/// Stops where a value isn't the one that is wanted, and prints what it is and both, as `assert_eq!`
/// does. What that prints is proved here once, and not wherever values are compared.
pub fn assert_same<T: PartialEq + Debug>(rt: &impl Abort, what: &str, value: &T, wanted: &T) {
    assert_eq!(rt; value, wanted, "{what}");
}

/// Events as a text: a sign, a name and an index each.
fn show(alloc: Global, events: &[Event]) -> Result<String, AllocError> {
    let mut out = String::new(alloc);
    for event in events {
        let sign = if event.kind == Kind::Enter { '+' } else { '-' };
        let name = event.name;
        let index = event.point().index;
        out.push_str(&format!(in alloc; "{sign}{name:?}{index} ")?)?;
    }
    Ok(out)
}

/// What was read as a text.
fn shown(alloc: Global, read: Result<Vec<Event>, Message>) -> Result<String, Message> {
    Ok(show(alloc, &read?)?)
}

/// Stops where what was read isn't these events, and prints what it is and what it has.
pub fn assert_events(
    rt: &(impl AllocGlobal + Abort),
    what: &str,
    read: Result<Vec<Event>, Message>,
    wanted: &str,
) {
    let shown = shown(rt.alloc(), read);
    let is_right = match &shown {
        Ok(events) => events.as_str() == wanted,
        Err(_) => false,
    };
    assert!(rt; is_right, "{what}: {shown:?}");
}
