//! The statuses that calls return: only constants. C's header and the Rust crate use the same numbers and names.

/// Success.
pub const DONE: u32 = 0;

/// The output buffer is too short.
pub const ROOM_TOO_SMALL: u32 = 2;

/// No size has this number, or no block has such a width or height.
pub const BAD_SIZE: u32 = 6;

/// No type has this number, or the size has no such type.
pub const BAD_TYPE: u32 = 7;

/// Samples have no such depth.
pub const BAD_DEPTH: u32 = 8;

/// A rectangle does not lie in its buffer.
pub const BAD_AREA: u32 = 9;

/// A list has too few elements.
pub const TOO_SHORT: u32 = 10;

/// A coefficient has more bits than the depth allows.
pub const BAD_COEFFICIENT: u32 = 11;

/// A sample has more bits than the depth.
pub const BAD_SAMPLE: u32 = 12;

/// No mode or filter has this number.
pub const BAD_MODE: u32 = 13;

/// The mode does not have this angle.
pub const BAD_ANGLE: u32 = 14;

/// No filter has this fraction of a sample.
pub const BAD_FRACTION: u32 = 15;

/// Chroma has no such subsampling.
pub const BAD_SAMPLING: u32 = 16;

/// No column or no row has luma of its own.
pub const BAD_PAD: u32 = 17;
