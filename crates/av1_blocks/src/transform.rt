//! The types of transforms: their sizes, types and sets as enums, and the constants that belong to them.
#![tactic(auto)]

mod tx_size;
mod tx_type;

pub use tx_size::coded_tx_size;
pub use tx_type::{transform_constants, valid_av1_transform};

/// The number of fractional bits of `SQRT2` and `INV_SQRT2`.
pub const SQRT2_BITS: usize = 12;

/// The square root of 2, times 4096 and rounded.
pub const SQRT2: i32 = 5793;

/// The square root of one half, times 4096 and rounded.
pub const INV_SQRT2: i32 = 2896;

/// The number of transform types without the lossless one.
pub const TX_TYPES: usize = 16;

/// The number of transform types, the lossless `WHT_WHT` included.
pub const TX_TYPES_PLUS_LL: usize = 17;

/// The one-dimensional transforms of a block of residuals: in a name `A_B`, A runs down the columns and B along the
/// rows. `IDTX` only scales both, `V_` only the rows and `H_` only the columns, and `WHT_WHT` is lossless.
#[derive(Copy, Clone, Debug, PartialEq, Eq, PartialOrd, Ord)]
pub enum TxType {
    DCT_DCT,
    ADST_DCT,
    DCT_ADST,
    ADST_ADST,
    FLIPADST_DCT,
    DCT_FLIPADST,
    FLIPADST_FLIPADST,
    ADST_FLIPADST,
    FLIPADST_ADST,
    IDTX,
    V_DCT,
    H_DCT,
    V_ADST,
    H_ADST,
    V_FLIPADST,
    H_FLIPADST,
    WHT_WHT,
}

impl TxType {
    /// Every type, in the order of their numbers.
    pub const ALL: [TxType; 17] = [
        TxType::DCT_DCT,
        TxType::ADST_DCT,
        TxType::DCT_ADST,
        TxType::ADST_ADST,
        TxType::FLIPADST_DCT,
        TxType::DCT_FLIPADST,
        TxType::FLIPADST_FLIPADST,
        TxType::ADST_FLIPADST,
        TxType::FLIPADST_ADST,
        TxType::IDTX,
        TxType::V_DCT,
        TxType::H_DCT,
        TxType::V_ADST,
        TxType::H_ADST,
        TxType::V_FLIPADST,
        TxType::H_FLIPADST,
        TxType::WHT_WHT,
    ];
}

/// The transform types that rav1e tries.
pub const RAV1E_TX_TYPES: [TxType; 7] = [
    TxType::DCT_DCT,
    TxType::ADST_DCT,
    TxType::DCT_ADST,
    TxType::ADST_ADST,
    TxType::IDTX,
    TxType::V_DCT,
    TxType::H_DCT,
];

/// The width and height of a transform in samples of its plane, width first.
#[derive(Copy, Clone, Debug, PartialEq, Eq, PartialOrd, Ord)]
pub enum TxSize {
    TX_4X4,
    TX_8X8,
    TX_16X16,
    TX_32X32,
    TX_64X64,
    TX_4X8,
    TX_8X4,
    TX_8X16,
    TX_16X8,
    TX_16X32,
    TX_32X16,
    TX_32X64,
    TX_64X32,
    TX_4X16,
    TX_16X4,
    TX_8X32,
    TX_32X8,
    TX_16X64,
    TX_64X16,
}

impl TxSize {
    /// The number of square sizes.
    pub const TX_SIZES: usize = 5;

    /// The number of sizes.
    pub const TX_SIZES_ALL: usize = 14 + 5;

    /// Every size, in the order of their numbers.
    pub const ALL: [TxSize; 19] = [
        TxSize::TX_4X4,
        TxSize::TX_8X8,
        TxSize::TX_16X16,
        TxSize::TX_32X32,
        TxSize::TX_64X64,
        TxSize::TX_4X8,
        TxSize::TX_8X4,
        TxSize::TX_8X16,
        TxSize::TX_16X8,
        TxSize::TX_16X32,
        TxSize::TX_32X16,
        TxSize::TX_32X64,
        TxSize::TX_64X32,
        TxSize::TX_4X16,
        TxSize::TX_16X4,
        TxSize::TX_8X32,
        TxSize::TX_32X8,
        TxSize::TX_16X64,
        TxSize::TX_64X16,
    ];
}

/// The sets of transform types that a bitstream chooses from.
#[derive(Copy, Clone, PartialEq, Eq, PartialOrd)]
pub enum TxSet {
    /// Only `DCT_DCT`.
    TX_SET_DCTONLY,
    /// `DCT_DCT` and `IDTX`.
    TX_SET_INTER_3,
    /// Cosines and sines without a flip, and `IDTX`.
    TX_SET_INTRA_2,
    /// The types of `TX_SET_INTRA_2`, `V_DCT` and `H_DCT`.
    TX_SET_INTRA_1,
    /// Cosines, sines and flipped sines, `IDTX`, `V_DCT` and `H_DCT`.
    TX_SET_INTER_2,
    /// Every type except `WHT_WHT`.
    TX_SET_INTER_1,
}
