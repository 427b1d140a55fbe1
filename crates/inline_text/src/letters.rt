//! The next byte of a set, or two letters that a literal may begin with (GFM 6.9).
//!
//!     letters ::= 'ww' | 'ht', in either case
ghost use Rattle.std.specs.Prelude.{◌≡◌, ◌+◌, ◌<◌, ◌≤◌, true, length};
ghost use Rattle.text_search.specs.Sets.{ends, first_set};
ghost use Rattle.inline_text.specs.Letters.{are_letters, end_before, is_extra_or_letters, IsLetterRun, IsStop, IsRun, IsRunFrom};

use std::simd::prelude::*;
use text_search::{ByteSet, ByteTest};

/// How many places are looked at together.
const LANES: usize = 16;

/// How many of the first and of the last places are looked at together where there are fewer.
const END_SIZE: usize = 8;

/// The bit in which the cases of a letter differ.
const CASE_BIT: u8 = 32;

/// The bytes at which a search stops.
#[derive(Clone, Copy)]
pub(crate) struct StopBytes {
    /// The bytes of a set.
    pub(crate) set: ByteSet,
    /// One more byte at which it stops where literals are on.
    pub(crate) extra: u8,
}

/// How many bytes come before the first of these bytes, or before the first two letters: all of
/// them, where none does.
#[inline(always)]
pub(crate) fn next_of_or_letters(bytes: &[u8], stops: StopBytes) -> usize
    ensures { IsStop true stops bytes.now result }
{
    if bytes.len() <= LANES {
        return next_in_few(bytes, stops);
    }
    let last = bytes.len() - 1 - LANES;
    let mut at = 0;
    'by_block: while at < last {
        let run = run_in(bytes, at, stops);
        if run < LANES {
            return at + run;
        }
        at += LANES;
    }
    let run = run_in(bytes, last, stops);
    if run < LANES {
        return last + run;
    }
    end_before(bytes, stops)
}

/// The same in few bytes: the first 8 places and the last 8 but one are looked at together, fewer
/// one by one.
#[inline(always)]
fn next_in_few(bytes: &[u8], stops: StopBytes) -> usize
    requires { length bytes.now ≤ LANES }
    ensures { IsStop true stops bytes.now result }
{
    if bytes.len() <= END_SIZE {
        return next_one_by_one(bytes, stops);
    }
    let run = lanes_before(ends(&bytes[..bytes.len() - 1]), ends(&bytes[1..]), stops);
    if run < END_SIZE {
        return run;
    }
    if run < LANES {
        return bytes.len() - 1 + run - LANES;
    }
    end_before(bytes, stops)
}

/// The same, one byte after another.
fn next_one_by_one(bytes: &[u8], stops: StopBytes) -> usize
    ensures { IsStop true stops bytes.now result }
{
    if bytes.is_empty() {
        return 0;
    }
    let last = bytes.len() - 1;
    let mut at = 0;
    while at < last {
        if stops.set.passes(bytes[at])
            || is_extra_or_letters(stops.extra, bytes[at], bytes[at + 1])
        {
            return at;
        }
        at += 1;
    }
    end_before(bytes, stops)
}

/// Where bytes end, or their last byte stands, if a search stops at it: no two letters begin there.
fn end_before(bytes: &[u8], stops: StopBytes) -> usize
    requires { 0 < length bytes.now }
    ensures { result ≡ end_before stops bytes.now }
{
    let last = bytes.len() - 1;
    if stops.set.passes(bytes[last]) || bytes[last] == stops.extra {
        last
    } else {
        bytes.len()
    }
}

/// How many of the 16 places from one on come before the first at which one of these bytes stands,
/// or two letters.
#[inline(always)]
fn run_in(bytes: &[u8], at: usize, stops: StopBytes) -> usize
    requires { at + LANES < length bytes.now }
    ensures { IsRunFrom stops bytes.now at result }
{
    let here = u8x16::from_slice(&bytes[at..]);
    let next = u8x16::from_slice(&bytes[at + 1..]);
    lanes_before(here, next, stops)
}

/// The same of 16 bytes and of those that follow each of them.
#[inline(always)]
fn lanes_before(here: u8x16, next: u8x16, stops: StopBytes) -> usize
    ensures { IsRun stops here next result }
{
    let stop = stops.set.lanes_before(here);
    let letters = letters_before(here, next, stops.extra);
    if letters < stop { letters } else { stop }
}

/// How many of 16 bytes come before the first that is one byte, or the first of two letters.
#[inline(always)]
fn letters_before(here: u8x16, next: u8x16, extra: u8) -> usize
    ensures { IsLetterRun extra here next result }
{
    let first = here | u8x16::splat(CASE_BIT);
    let second = next | u8x16::splat(CASE_BIT);
    let www = first.simd_eq(u8x16::splat(b'w')) & second.simd_eq(u8x16::splat(b'w'));
    let protocol = first.simd_eq(u8x16::splat(b'h')) & second.simd_eq(u8x16::splat(b't'));
    let single = here.simd_eq(u8x16::splat(extra));
    first_lane((single | (www | protocol)).to_bitmask())
}

/// The place of the first of 16 bits that is set, or 16.
fn first_lane(mask: u64) -> usize
    ensures { result ≡ first_set mask 16 }
{
    if mask == 0 {
        LANES
    } else {
        mask.trailing_zeros() as usize
    }
}

/// Whether the first of two bytes is a given one, or a literal may begin with the two.
pub(crate) fn is_extra_or_letters(extra: u8, first: u8, second: u8) -> bool
    ensures { result ≡ is_extra_or_letters extra first second }
{
    first == extra || are_letters(first, second)
}

/// Whether a literal may begin with two bytes.
fn are_letters(first: u8, second: u8) -> bool
    ensures { result ≡ are_letters first second }
{
    match first.to_ascii_lowercase() {
        b'w' => second.to_ascii_lowercase() == b'w',
        b'h' => second.to_ascii_lowercase() == b't',
        _ => false,
    }
}

/// The first 8 and the last 8 of some bytes, one after another.
fn ends(bytes: &[u8]) -> u8x16
    requires { END_SIZE ≤ length bytes.now }
    ensures { result ≡ ends bytes.now }
{
    let first = u8x8::from_slice(bytes);
    let last = u8x8::from_slice(&bytes[bytes.len() - END_SIZE..]);
    first.shuffle(last, [0, 1, 2, 3, 4, 5, 6, 7, 8, 9, 10, 11, 12, 13, 14, 15])
}
