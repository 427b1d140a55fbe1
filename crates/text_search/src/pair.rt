//! Two bytes.
ghost use Rattle.std.specs.Prelude.{◌≡◌, ◌<◌, ◌≤◌, ◌+◌, ℕ, true, false, not, length, slice_index};
ghost use Rattle.std.specs.List.{position_or_len, prefix_len};
ghost use Rattle.text_search.specs.Pairs.{is_of_pair};

use crate::search::{ByteTest, LANES, first_set, next_of};
use std::simd::prelude::*;

/// One of two bytes, which may be equal. The test needs no tables.
#[derive(Clone, Copy)]
pub struct BytePair {
    pub first: u8,
    pub second: u8,
}

/// A byte passes that is one of them.
impl ByteTest for BytePair {
    ghost use Rattle.text_search.specs.Pairs.{is_of_pair};

    ghost passes = { is_of_pair };

    #[inline(always)]
    fn passes(self, byte: u8) -> bool {
        byte == self.first || byte == self.second
    }

    #[inline(always)]
    fn lanes_before(self, lanes: u8x16) -> usize {
        let first = lanes.simd_eq(u8x16::splat(self.first));
        let second = lanes.simd_eq(u8x16::splat(self.second));
        first_set((first | second).to_bitmask(), LANES)
    }
}

/// How many bytes are looked at together where the pair is mostly far away.
const FAR_LANES: usize = 32;

/// Returns how many bytes are before the first one of a pair, or their number if none is there.
///
/// It compares 32 bytes at a time. That is faster than [`next_of`] if the pair is mostly more than 16
/// bytes away, as the end of a line is.
#[inline(always)]
pub fn next_far(bytes: &[u8], pair: BytePair) -> usize
    ensures { result ≡ position_or_len (is_of_pair pair) bytes.now }
{
    let mut at = 0;
    'by_block: while FAR_LANES <= bytes.len() - at {
        let run = far_run(bytes, at, pair);
        if run < FAR_LANES {
            return at + run;
        }
        at += FAR_LANES;
    }
    at + next_of(&bytes[at..], pair)
}

/// How many of the 32 bytes from a place come before the first one of a pair.
#[inline(always)]
fn far_run(bytes: &[u8], at: usize, pair: BytePair) -> usize
    requires { at + FAR_LANES ≤ length bytes.now }
    ensures within { result ≤ FAR_LANES }
    ensures passed { (k : ℕ) → at ≤ k → k < at + result → is_of_pair pair (slice_index bytes.now k) ≡ false }
    ensures hit { result < FAR_LANES → is_of_pair pair (slice_index bytes.now (at + result)) ≡ true }
{
    far_lanes_before(pair, u8x32::from_slice(&bytes[at..]))
}

/// How many of 32 bytes come before the first one of a pair.
#[inline(always)]
fn far_lanes_before(pair: BytePair, lanes: u8x32) -> usize
    ensures { result ≡ prefix_len (λ byte. not (is_of_pair pair byte)) lanes }
{
    let first = lanes.simd_eq(u8x32::splat(pair.first));
    let second = lanes.simd_eq(u8x32::splat(pair.second));
    first_set((first | second).to_bitmask(), FAR_LANES)
}
