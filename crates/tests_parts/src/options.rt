//! Printed texts, and line endings that are read.
use crate::asserts::assert_so;
use markdown_options::unist::{Point, Position};
use markdown_options::{LineEnding, LineEndingError, Message, Place};
use std::alloc::{AllocError, Global};

/// A point, a position, a place of each kind, two messages and an error, each on a line.
const SHOWN: &str = "\
1:2 (3)
1:2-4:5 (3-6)
1:2
1:2-4:5
1:2-4:5: reason (source:rule)
Out of memory (markdown:memory)
Expected CR, LF, or CRLF
";

/// A point and a position, and the places that they make.
fn places(alloc: Global, point: Point, position: Position) -> Result<String, AllocError> {
    format!(in alloc;
        "{point:?}\n{position:?}\n{}\n{}\n",
        Place::Point(point),
        Place::Position(position)
    )
}

/// A message at a position, that of want of memory, and an error.
fn messages(alloc: Global, position: Position) -> Result<String, AllocError> {
    let message = Message {
        place: Some(Place::Position(position)),
        reason: "reason",
        rule_id: "rule",
        source: "source",
    };
    format!(in alloc;
        "{message}\n{}\n{LineEndingError}\n",
        Message::out_of_memory()
    )
}

/// Texts, and the endings that they are.
const ENDINGS: &[(&str, LineEnding)] = &[
    ("\r\n", LineEnding::CarriageReturnLineFeed),
    ("\r", LineEnding::CarriageReturn),
    ("\n", LineEnding::LineFeed),
];

/// The first of these texts that is another ending, or whose ending is another text.
fn first_other(cases: &[(&'static str, LineEnding)]) -> Option<&'static str> {
    for (text, ending) in cases {
        if text.parse::<LineEnding>() != Ok(*ending) || ending.as_str() != *text {
            return Some(text);
        }
    }
    None
}

/// Whether places and messages are shown so.
fn are_shown(alloc: Global, want: &str) -> Result<bool, AllocError> {
    let position = Position::new(1, 2, 3, 4, 5, 6);
    let mut shown = places(alloc, Point::new(1, 2, 3), position)?;
    shown.push_str(&messages(alloc, position)?)?;
    Ok(shown.as_str() == want)
}

#[test]
fn options(rt: HostRuntime) {
    assert_so(&rt, "SHOWN", are_shown(rt.alloc(), SHOWN));
    let other = first_other(ENDINGS);
    assert!(rt; other.is_none(), "ENDINGS: {other:?}");
    assert!(rt; "aaa".parse::<LineEnding>() == Err(LineEndingError), "aaa");
}
