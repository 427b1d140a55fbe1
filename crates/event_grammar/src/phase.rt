//! Columns up to tab stops, counted on from a place where they are known (CommonMark 2.2).
ghost use Rattle.std.specs.Prelude.{◌≡◌, ◌<◌, ◌≤◌, length};
ghost use Rattle.std.specs.List.{fold};
ghost use Rattle.engine_events.specs.Columns.{mark_size};
ghost use Rattle.event_grammar.specs.Phases.{phase_at, phase_on};

/// How many columns are between an index and the tab stop before it, 0 to 3, given that number of an
/// earlier index.
pub fn phase_after(bytes: &[u8], from: usize, phase: u8, to: usize) -> u8
    requires order { from ≤ to }
    requires within { to ≤ length bytes.now }
    requires phase { phase ≡ phase_at bytes.now from }
    ensures phase { result ≡ phase_at bytes.now to }
    ensures small { result < 4 }
{
    let start = from.max(mark_size(bytes)).min(to);
    phase_past(&bytes[start..to], phase)
}

/// The size of a byte order mark at the start of a text: 3, or 0 where there is none.
fn mark_size(bytes: &[u8]) -> usize
    ensures { result ≡ mark_size bytes.now }
{
    match bytes {
        [0xEF, 0xBB, 0xBF, ..] => 3,
        _ => 0,
    }
}

/// The phase after some bytes.
fn phase_past(bytes: &[u8], phase: u8) -> u8
    requires { phase < 4 }
    ensures phase { result ≡ fold phase_on phase bytes.now }
    ensures small { result < 4 }
{
    let mut past = phase;
    for byte in bytes {
        past = phase_on(past, *byte);
    }
    past
}

/// The phase after a byte.
fn phase_on(phase: u8, byte: u8) -> u8
    requires { phase < 4 }
    ensures phase { result ≡ phase_on phase byte }
    ensures small { result < 4 }
{
    match byte {
        b'\t' | b'\n' | b'\r' => 0,
        _ => (phase + 1) % 4,
    }
}
