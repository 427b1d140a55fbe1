//! Lists of events, and the bytes of their text, as they are written in a line.
use crate::names::Names;
use engine_events::event::{Event, Kind};
use engine_events::place::Point;
use std::alloc::{AllocError, Global};

/// The bytes of a text: `\` and two hexadecimal digits are one byte. None where `\` has no such digits.
pub fn bytes_of(alloc: Global, text: &str) -> Result<Option<Vec<u8>>, AllocError> {
    let mut bytes = Vec::new(alloc);
    for (place, part) in text.split('\\').enumerate() {
        if place == 0 {
            bytes.extend_from_slice(part.as_bytes())?;
        } else if !push_part(&mut bytes, part)? {
            return Ok(None);
        }
    }
    Ok(Some(bytes))
}

/// Adds the byte of two hexadecimal digits, and what stands after them. Whether they are there.
fn push_part(bytes: &mut Vec<u8>, part: &str) -> Result<bool, AllocError> {
    let (Some(digits), Some(rest)) = (part.get(..2), part.get(2..)) else {
        return Ok(false);
    };
    let Ok(byte) = u8::from_str_radix(digits, 16) else {
        return Ok(false);
    };
    bytes.push(byte)?;
    bytes.extend_from_slice(rest.as_bytes())?;
    Ok(true)
}

/// The events of a list: `+Name:index` for each enter, `-Name:index` for each exit, and `.vs` behind the index where columns
/// of a tab are before. None where a word is something else. Each event says line 1 and column 1, which nobody reads.
pub fn events_of(
    alloc: Global,
    names: &Names,
    list: &str,
) -> Result<Option<Vec<Event>>, AllocError> {
    let mut events = Vec::new(alloc);
    for word in list.split_whitespace() {
        let Some(event) = event_of(names, word) else {
            return Ok(None);
        };
        events.push(event)?;
    }
    Ok(Some(events))
}

fn event_of(names: &Names, word: &str) -> Option<Event> {
    let (kind, signed) = match word.strip_prefix('+') {
        Some(rest) => (Kind::Enter, rest),
        None => (Kind::Exit, word.strip_prefix('-')?),
    };
    let (name, place) = signed.split_once(':')?;
    Some(Event::new(kind, names.find(name)?, point_of(place)?, None))
}

/// A point by its index, and by the columns before if there are any.
pub fn point_of(place: &str) -> Option<Point> {
    let (index, vs) = place.split_once('.').unwrap_or((place, "0"));
    Some(Point {
        line: 1,
        column: 1,
        index: index.parse::<usize>().ok()?,
        vs: vs.parse::<u8>().ok()?,
    })
}
