//! The next byte at which a search stops, or `=`, where marked text is on.
ghost use Rattle.std.specs.Prelude.{◌<◌, ◌≡◌, length, true};
ghost use Rattle.inline_text.specs.Mark.{stops_with, IsStopWith};

use crate::letters::{StopBytes, is_extra_or_letters};
use text_search::ByteTest;

/// How many bytes come before the first that the set holds, before the first `=`, or before the first
/// extra byte or two letters where literals are on: all of them, where none does.
pub(crate) fn next_of_or_equals(has_literals: bool, bytes: &[u8], stops: StopBytes) -> usize
    ensures { IsStopWith has_literals true stops bytes.now result }
{
    let mut at = 0;
    while at < bytes.len() {
        if stops_at(has_literals, bytes, at, stops) {
            return at;
        }
        at += 1;
    }
    at
}

/// Whether one of these stands at a place.
fn stops_at(has_literals: bool, bytes: &[u8], at: usize, stops: StopBytes) -> bool
    requires { at < length bytes.now }
    ensures { result ≡ stops_with has_literals true stops bytes.now at }
{
    let next = if bytes.len() - at > 1 {
        bytes[at + 1]
    } else {
        0
    };
    stops.set.passes(bytes[at])
        || bytes[at] == b'='
        || (has_literals && is_extra_or_letters(stops.extra, bytes[at], next))
}
