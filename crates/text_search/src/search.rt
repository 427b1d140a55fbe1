//! Searches for the next byte that passes a test.
ghost use Rattle.std.specs.Prelude.{◌≡◌, ℕ, ◌+◌, ◌<◌, ◌≤◌, Bool, true, false, not, length, slice_index};
ghost use Rattle.std.specs.List.{position_or_len, prefix_len};
ghost use Rattle.text_search.specs.Sets.{ends, first_set};

use std::simd::prelude::*;

/// A test of bytes, one by one and 16 at once.
pub trait ByteTest: Copy {
    // Whether a byte passes.
    ghost passes: { Self → ℕ → Bool };

    /// Whether a byte passes.
    fn passes(self, byte: u8) -> bool
        ensures { result ≡ passes self byte };

    /// How many of 16 bytes come before the first that passes.
    fn lanes_before(self, lanes: u8x16) -> usize
        ensures { result ≡ prefix_len (λ byte. not (passes self byte)) lanes };
}

/// How many bytes are looked at together.
pub(crate) const LANES: usize = 16;

/// How many of the first and of the last bytes are looked at together where there are fewer.
const END_SIZE: usize = 8;

/// Returns how many bytes are before the first one that passes, or their number if none does.
#[inline(always)]
pub fn next_of<T: ByteTest>(bytes: &[u8], test: T) -> usize
    ensures { result ≡ position_or_len (T.passes test) bytes.now }
{
    if bytes.len() < LANES {
        return next_in_few(bytes, test);
    }
    let last = bytes.len() - LANES;
    let mut at = 0;
    'by_block: while at < last {
        let run = run_in(bytes, at, test);
        if run < LANES {
            return at + run;
        }
        at += LANES;
    }
    last + run_in(bytes, last, test)
}

/// Searches fewer than 16 bytes: the first 8 and the last 8 together, or fewer than 8 one by one.
fn next_in_few<T: ByteTest>(bytes: &[u8], test: T) -> usize
    requires { length bytes.now < LANES }
    ensures { result ≡ position_or_len (T.passes test) bytes.now }
{
    if bytes.len() < END_SIZE {
        return next_one_by_one(bytes, test);
    }
    let run = test.lanes_before(ends(bytes));
    if run < END_SIZE {
        run
    } else {
        bytes.len() + run - LANES
    }
}

/// Searches bytes one by one.
fn next_one_by_one<T: ByteTest>(bytes: &[u8], test: T) -> usize
    ensures { result ≡ position_or_len (T.passes test) bytes.now }
{
    let mut at = 0;
    while at < bytes.len() && !test.passes(bytes[at]) {
        at += 1;
    }
    at
}

/// How many of the 16 bytes from a place come before the first one that passes.
#[inline(always)]
fn run_in<T: ByteTest>(bytes: &[u8], at: usize, test: T) -> usize
    requires { at + LANES ≤ length bytes.now }
    ensures within { result ≤ LANES }
    ensures passed { (k : ℕ) → at ≤ k → k < at + result → T.passes test (slice_index bytes.now k) ≡ false }
    ensures hit { result < LANES → T.passes test (slice_index bytes.now (at + result)) ≡ true }
{
    test.lanes_before(u8x16::from_slice(&bytes[at..]))
}

/// The first 8 and the last 8 of some bytes, one after another.
fn ends(bytes: &[u8]) -> u8x16
    requires { END_SIZE ≤ length bytes.now }
    ensures { result ≡ ends bytes.now }
{
    let first = u8x8::from_slice(bytes);
    let last = u8x8::from_slice(&bytes[bytes.len() - END_SIZE..]);
    first.shuffle(last, [0, 1, 2, 3, 4, 5, 6, 7, 8, 9, 10, 11, 12, 13, 14, 15])
}

/// The place of the first bit that is set, or how many there are.
pub(crate) fn first_set(mask: u64, lanes: usize) -> usize
    ensures { result ≡ first_set mask lanes }
{
    if mask == 0 {
        lanes
    } else {
        mask.trailing_zeros() as usize
    }
}
