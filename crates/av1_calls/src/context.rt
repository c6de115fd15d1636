//! The type `Context`: scratch memory that a caller makes once, for all calls that need some. Does not allocate.
use av1_itx::TxRoom;

/// How many samples a block of 128 by 128 samples reads at most, with 7 columns and 7 rows more.
pub(crate) const WINDOW_SAMPLES: usize = 18225;

/// Scratch memory of calls: 79,252 bytes. Its contents before a call have no effect, and its contents after a call are
/// unspecified. It is a struct that has only arrays of integers, so that C or Rust may own it.
#[repr(C)]
#[derive(Drop)]
pub struct Context {
    /// The values of a block between the passes of a transform.
    pub(crate) transform: TxRoom,
    /// The samples that are read for a block that reaches past its plane, in 16 bits.
    pub(crate) window_16: [u16; WINDOW_SAMPLES],
    /// The same in 8 bits.
    pub(crate) window_8: [u8; WINDOW_SAMPLES],
}

impl Context {
    /// Scratch memory for blocks of every size.
    pub fn new() -> Context {
        Context {
            transform: TxRoom::new(),
            window_16: [0; WINDOW_SAMPLES],
            window_8: [0; WINDOW_SAMPLES],
        }
    }
}
