//! Classes of bytes.
ghost use Rattle.std.specs.Prelude.{◌≡◌, ◌/◌, map, slice_index};
ghost use Rattle.std.specs.List.{position_or_len};
ghost use Rattle.text_search.specs.Classes.{is_outside};

use crate::search::{ByteTest, LANES, first_set, next_of};
use crate::set::by_half;
use std::simd::prelude::*;

/// A class of bytes. A byte is in it if the entries of the two tables for its halves share a bit.
#[derive(Clone, Copy)]
pub struct ByteClass {
    /// Bits for each lower half.
    pub lower: [u8; 16],
    /// Bits for each upper half.
    pub upper: [u8; 16],
}

/// Passes bytes outside the class.
impl ByteTest for ByteClass {
    ghost use Rattle.text_search.specs.Classes.{is_outside};

    ghost passes = { is_outside };

    #[inline(always)]
    fn passes(self, byte: u8) -> bool {
        is_outside(&self, byte)
    }

    #[inline(always)]
    fn lanes_before(self, lanes: u8x16) -> usize {
        let shared = by_half(lanes, self.lower) & by_upper_half(lanes, self.upper);
        first_set(shared.simd_eq(u8x16::splat(0)).to_bitmask(), LANES)
    }
}

/// How many bytes of a class come first.
#[inline(always)]
pub fn run_of(bytes: &[u8], class: ByteClass) -> usize
    ensures { result ≡ position_or_len (is_outside class) bytes.now }
{
    next_of(bytes, class)
}

/// What a table has for the upper half of each lane.
#[inline(always)]
fn by_upper_half(lanes: u8x16, table: [u8; 16]) -> u8x16
    ensures { result ≡ map (λ byte. slice_index table (byte / 16)) lanes }
{
    u8x16::from_array(table).swizzle_dyn_within::<16>(lanes >> u8x16::splat(4))
}

/// Whether a byte isn't of a class.
fn is_outside(class: &ByteClass, byte: u8) -> bool
    ensures { result ≡ is_outside class.now byte }
{
    class.lower[(byte % 16) as usize] & class.upper[(byte / 16) as usize] == 0
}
