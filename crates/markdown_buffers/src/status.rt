//! What a call returns.

/// The buffer begins with the page, or the array with the events or the links.
pub const OK: u32 = 0;

/// The buffer or the array is too small.
pub const ROOM: u32 = 1;

/// The text isn't UTF-8.
pub const UTF8: u32 = 2;

/// A flag or an option is unknown.
pub const FLAGS: u32 = 3;

/// The text has more than `usize::MAX / 8` bytes.
pub const SIZE: u32 = 4;

/// Out of memory.
pub const MEMORY: u32 = 5;
