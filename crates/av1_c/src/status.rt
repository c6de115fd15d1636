//! The statuses that only calls on plans return: only constants. The other statuses are in `av1_calls`.
//! C's header and the Rust crate use the same numbers and names.

/// Memory ran out.
pub const OUT_OF_MEMORY: u32 = 1;

/// There are more bytes than the longest plan has.
pub const TOO_LONG: u32 = 3;

/// The bytes are not a valid plan.
pub const MALFORMED: u32 = 4;

/// A leaf of the plan is rejected.
pub const INVALID: u32 = 5;

/// The plan of a part would be longer than the longest plan.
pub const TOO_LONG_PART: u32 = 30;

/// A part is not a valid plan, or not the leaves of one.
pub const MALFORMED_PART: u32 = 31;

/// A leaf of a part is rejected.
pub const INVALID_PART: u32 = 32;

/// A part shows a slot again that is empty.
pub const EMPTY_SLOT: u32 = 33;

/// The unfinished plan needs another kind of field next.
pub const NOT_NOW: u32 = 40;

/// An argument has a value that is not valid here.
pub const NOT_ADMITTED: u32 = 41;

/// The numbers are not a valid builder.
pub const BAD_STATE: u32 = 42;

/// A leaf is rejected because chroma has no block size for it.
pub const INVALID_BLOCK_SIZE: u32 = 1;

/// A transform is larger than its leaf, or its size does not have its type.
pub const INVALID_TRANSFORM: u32 = 2;

/// The leaf can't have this mode, angle step or alpha.
pub const INVALID_MODE: u32 = 3;

/// A motion vector is out of range.
pub const INVALID_VECTOR: u32 = 4;

/// A reference names a slot without planes.
pub const MISSING_REFERENCE: u32 = 5;

/// A coefficient is out of order, out of its block or out of range.
pub const INVALID_COEFFICIENT: u32 = 6;

/// The plan needs nothing more.
pub const NEXT_NOTHING: u8 = 0;

/// The plan needs the planes of a slot next.
pub const NEXT_REFERENCE: u8 = 1;

/// The plan needs the mark of a node next.
pub const NEXT_MARK: u8 = 2;

/// The plan needs a leaf next.
pub const NEXT_LEAF: u8 = 3;

/// The size of a leaf's luma transforms has a number that does not exist.
pub const FIELD_TX_SIZE: u32 = 1;

/// The type of a leaf's luma transforms has a number that does not exist.
pub const FIELD_TX_TYPE: u32 = 2;

/// The type of a leaf's chroma transforms has a number that does not exist.
pub const FIELD_CHROMA_TX_TYPE: u32 = 3;

/// Chroma is given, but the leaf carries none, or it is not given, but the leaf carries it.
pub const FIELD_HAS_CHROMA: u32 = 4;

/// No mode has this number.
pub const FIELD_MODE: u32 = 5;

/// The mode of chroma is not a mode for chroma without references.
pub const FIELD_CHROMA_MODE: u32 = 6;

/// The first reference is not one of LAST to ALTREF.
pub const FIELD_FIRST: u32 = 7;

/// The second reference is not one of LAST to ALTREF.
pub const FIELD_SECOND: u32 = 8;

/// A plane has too many coefficients, or chroma has some that the leaf does not carry.
pub const FIELD_COEFFICIENTS: u32 = 9;
