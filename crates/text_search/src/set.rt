//! Sets of bytes.
ghost use Rattle.std.specs.Prelude.{◌≡◌, ◌%◌, map, slice_index};
ghost use Rattle.text_search.specs.Sets.{holds};

use crate::search::{ByteTest, LANES, first_set};
use std::simd::prelude::*;

/// A set of bytes, at most two of which have the same lower half.
#[derive(Clone, Copy)]
pub struct ByteSet {
    /// For each lower half, a byte of the set that has it, or any byte that doesn't.
    pub first: [u8; 16],
    /// For each lower half, a second byte of the set, or any byte that doesn't have that half.
    pub second: [u8; 16],
}

/// A byte passes that the set holds.
impl ByteTest for ByteSet {
    ghost use Rattle.text_search.specs.Sets.{holds};

    ghost passes = { holds };

    #[inline(always)]
    fn passes(self, byte: u8) -> bool {
        holds(&self, byte)
    }

    #[inline(always)]
    fn lanes_before(self, lanes: u8x16) -> usize {
        let first = lanes.simd_eq(by_half(lanes, self.first));
        let second = lanes.simd_eq(by_half(lanes, self.second));
        first_set((first | second).to_bitmask(), LANES)
    }
}

/// What a table has for the lower half of each lane.
#[inline(always)]
pub(crate) fn by_half(lanes: u8x16, table: [u8; 16]) -> u8x16
    ensures { result ≡ map (λ byte. slice_index table (byte % 16)) lanes }
{
    u8x16::from_array(table).swizzle_dyn_within::<16>(lanes & u8x16::splat(15))
}

/// Whether a byte is one of a set.
fn holds(set: &ByteSet, byte: u8) -> bool
    ensures { result ≡ holds set.now byte }
{
    let half = (byte % 16) as usize;
    byte == set.first[half] || byte == set.second[half]
}
