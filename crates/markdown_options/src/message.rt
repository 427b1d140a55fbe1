//! Messages: why a call failed.
ghost use Rattle.std.specs.Prelude.{Some};
ghost use Rattle.markdown_options.specs.Messages.{IsOutOfMemory, place_text, message_text};

use crate::unist::{Point, Position};
use std::alloc::AllocError;
use std::error::Error;
use std::fmt;

/// Where in a text something is.
#[derive(Clone, Copy, Debug, PartialEq, Eq)]
pub enum Place {
    /// Between two points.
    Position(Position),
    /// At one point.
    Point(Point),
}

/// Shows `line:column-line:column`, or `line:column` for a point.
impl fmt::Display for Place {
    ghost output = { λ place. Some (place_text place) };

    fn fmt<W: fmt::Write>(&self, f: &mut fmt::Formatter<W>) -> fmt::Result {
        match self {
            Place::Position(position) => write!(f, "{position}"),
            Place::Point(point) => write!(f, "{point}"),
        }
    }
}

/// Why a call failed: a reason with the rule and the source that it comes from.
///
/// Its texts are static, so that making one takes no memory.
#[derive(Clone, Copy, Debug, PartialEq, Eq)]
pub struct Message {
    /// Where in the text it happened, if anywhere.
    pub place: Option<Place>,
    /// What happened, in words for users.
    pub reason: &'static str,
    /// The name of the broken rule, within the source.
    pub rule_id: &'static str,
    /// The name of what found it.
    pub source: &'static str,
}

impl Message {
    /// Returns the message for out of memory. It is shown as `Out of memory (markdown:memory)`.
    pub fn out_of_memory() -> Message
        ensures { IsOutOfMemory result }
    {
        Message {
            place: None,
            reason: "Out of memory",
            rule_id: "memory",
            source: "markdown",
        }
    }
}

/// The message for out of memory.
impl From<AllocError> for Message {
    ghost from_gives = { λ _ message. IsOutOfMemory message };

    fn from(_error: AllocError) -> Message {
        Message::out_of_memory()
    }
}

/// Shows the place and `: ` if there is one, the reason, and ` (source:rule_id)`.
impl fmt::Display for Message {
    ghost output = { λ message. Some (message_text message) };

    fn fmt<W: fmt::Write>(&self, f: &mut fmt::Formatter<W>) -> fmt::Result {
        let reason = self.reason;
        let source = self.source;
        let rule_id = self.rule_id;
        match &self.place {
            Some(place) => write!(f, "{place}: {reason} ({source}:{rule_id})"),
            None => write!(f, "{reason} ({source}:{rule_id})"),
        }
    }
}

impl Error for Message {}
