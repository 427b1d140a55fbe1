//! From one place of a text to a later one (CommonMark 2.1 and 2.2).
ghost use Rattle.std.specs.Prelude.{◌≡◌, ◌+◌, ◌*◌, ◌<◌, ◌≤◌, ◌^◌, length, slice_index, true};
ghost use Rattle.std.specs.List.{fold, prefix_len};
ghost use Rattle.engine_events.specs.Columns.{mark_size};
ghost use Rattle.parse_output.specs.Spots.{ArePlain, IsIn, after_plain, is_plain, next_spot, spot_at};

use crate::spot::Spot;
use engine_events::place::column_after;
use text_search::{ByteSet, next_of};

/// The bytes that may end a line or be a tab: those before a space.
const CONTROLS: ByteSet = ByteSet {
    first: [0, 1, 2, 3, 4, 5, 6, 7, 8, 9, 10, 11, 12, 13, 14, 15],
    second: [
        16, 17, 18, 19, 20, 21, 22, 23, 24, 25, 26, 27, 28, 29, 30, 31,
    ],
};

/// No byte order mark is longer.
pub(crate) const MARK_MAX: usize = 3;

/// After one more byte. Those of a byte order mark have no columns.
fn pass(mark: usize, spot: Spot, byte: u8) -> Spot
    requires index { spot.index + 1 < 2 ^ 61 }
    requires line { spot.line ≤ spot.index + 1 }
    requires column { spot.column ≤ 4 * spot.index + 1 }
    ensures same { result ≡ next_spot mark spot byte }
    ensures index { result.index ≡ spot.index + 1 }
    ensures line { result.line ≤ result.index + 1 }
    ensures column { result.column ≤ 4 * result.index + 1 }
{
    if spot.index < mark {
        return Spot {
            line: spot.line,
            column: spot.column,
            index: spot.index + 1,
            returned: false,
        };
    }
    match byte {
        b'\n' => Spot {
            line: if spot.returned {
                spot.line
            } else {
                spot.line + 1
            },
            column: 1,
            index: spot.index + 1,
            returned: false,
        },
        b'\r' => Spot {
            line: spot.line + 1,
            column: 1,
            index: spot.index + 1,
            returned: true,
        },
        _ => Spot {
            line: spot.line,
            column: column_after(byte, spot.column),
            index: spot.index + 1,
            returned: false,
        },
    }
}

/// Where bytes end that take one column each and end no line: those from an index on. They are looked at
/// only if the index is after the end that is known.
#[inline(always)]
pub(crate) fn plain_end(text: &[u8], index: usize, known: usize) -> usize
    requires within { index ≤ length text.now }
    requires known { ArePlain text.now index known }
    ensures { ArePlain text.now index result }
{
    if index <= known {
        known
    } else {
        index + plain_size(&text[index..])
    }
}

/// How many bytes of this kind come first.
fn plain_size(bytes: &[u8]) -> usize
    ensures size { result ≡ prefix_len is_plain bytes.now }
    ensures within { result ≤ length bytes.now }
{
    next_of(bytes, CONTROLS)
}

/// Whether the bytes from an index to another are one LF.
#[inline(always)]
pub(crate) fn is_line_feed(text: &[u8], from: usize, index: usize) -> bool
    ensures one { result ≡ true → index ≡ from + 1 }
    ensures within { result ≡ true → from < length text.now }
    ensures byte { result ≡ true → slice_index text.now from ≡ 10 }
{
    from < index && index - from == 1 && from < text.len() && text[from] == b'\n'
}

/// After an LF that is in no byte order mark.
#[inline(always)]
pub(crate) fn after_line_feed(spot: Spot) -> Spot
    requires index { spot.index + 1 < 2 ^ 61 }
    requires line { spot.line ≤ spot.index + 1 }
    ensures same { result ≡ next_spot 0 spot 10 }
    ensures index { result.index ≡ spot.index + 1 }
    ensures line { result.line ≤ result.index + 1 }
    ensures column { result.column ≤ 4 * result.index + 1 }
{
    Spot {
        line: if spot.returned {
            spot.line
        } else {
            spot.line + 1
        },
        column: 1,
        index: spot.index + 1,
        returned: false,
    }
}

/// After the bytes up to an index. Those before `plain` take one column each and end no line.
pub(crate) fn pass_to(text: &[u8], plain: usize, spot: Spot, index: usize) -> Spot
    requires fits { length text.now < 2 ^ 61 }
    requires plain { ArePlain text.now spot.index plain }
    requires within { index ≤ length text.now }
    requires after { spot.index ≤ index }
    requires place { IsIn text.now spot }
    ensures same { result ≡ spot_at text.now index spot }
    ensures index { result.index ≡ index }
    ensures place { IsIn text.now result }
{
    if index <= plain && MARK_MAX <= spot.index {
        pass_plain(spot, index - spot.index)
    } else {
        pass_all(mark_size(text), spot, &text[spot.index..index])
    }
}

/// After so many bytes of this kind.
fn pass_plain(spot: Spot, count: usize) -> Spot
    requires count { spot.index + count < 2 ^ 61 }
    requires column { spot.column ≤ 4 * spot.index + 1 }
    ensures { result ≡ after_plain spot count }
{
    Spot {
        line: spot.line,
        column: spot.column + count,
        index: spot.index + count,
        returned: spot.returned && count == 0,
    }
}

/// After some bytes, one by one.
fn pass_all(mark: usize, spot: Spot, bytes: &[u8]) -> Spot
    requires fits { spot.index + length bytes.now < 2 ^ 61 }
    requires line { spot.line ≤ spot.index + 1 }
    requires column { spot.column ≤ 4 * spot.index + 1 }
    ensures same { result ≡ fold (next_spot mark) spot bytes.now }
    ensures index { result.index ≡ spot.index + length bytes.now }
    ensures line { result.line ≤ result.index + 1 }
    ensures column { result.column ≤ 4 * result.index + 1 }
{
    let mut here = spot;
    for byte in bytes {
        here = pass(mark, here, *byte);
    }
    here
}

/// The size of a byte order mark at the start of a text: 3, or 0 where there is none.
fn mark_size(bytes: &[u8]) -> usize
    ensures { result ≡ mark_size bytes.now }
{
    match bytes {
        [0xEF, 0xBB, 0xBF, ..] => 3,
        _ => 0,
    }
}
