//! Transform types as pure functions: number, the type of inter chroma, and which types a size allows.
#![tactic(auto)]

ghost use Rattle.std.specs.Prelude.{◌≡◌, pos, length, slice_get, Some};
ghost use Rattle.av1_blocks.specs.Transforms.{tx_type_number, tried_types, uv_inter, valid_av1_transform};

use crate::numbers::variant_of;
use crate::transform::TxType::{self, *};
use crate::transform::{
    INV_SQRT2, RAV1E_TX_TYPES, SQRT2, SQRT2_BITS, TX_TYPES, TX_TYPES_PLUS_LL, TxSize,
};

impl TxType {
    /// The type of this number, if there is one.
    #[inline]
    pub fn from_number(number: u8) -> Option<TxType>
        ensures { result ≡ slice_get TxType.ALL number }
    {
        variant_of(&TxType::ALL, number)
    }

    /// The type's number, which `from_number` takes back.
    #[inline]
    pub fn number(self) -> u8
        ensures value { result ≡ tx_type_number self }
        ensures named { slice_get TxType.ALL (tx_type_number self) ≡ Some self }
        ensures all { length TxType.ALL ≡ 17 }
    {
        self as u8
    }

    /// The type that inter chroma of this size takes from luma's: "compute transform type" of the
    /// AV1 specification.
    #[inline]
    pub fn uv_inter(self, uv_tx_size: TxSize) -> Self
        ensures { result ≡ uv_inter self uv_tx_size }
    {
        if uv_tx_size.sqr_up() == TxSize::TX_32X32 {
            match self {
                IDTX => IDTX,
                _ => DCT_DCT,
            }
        } else if uv_tx_size.sqr() == TxSize::TX_16X16 {
            match self {
                V_ADST | H_ADST | V_FLIPADST | H_FLIPADST => DCT_DCT,
                _ => self,
            }
        } else {
            self
        }
    }
}

/// Whether a transform of this size may have this type. With a side of 64 only `DCT_DCT` is valid; with a greater side
/// of 32 also `IDTX`; with shorter sides every type. As in rav1e, `WHT_WHT` is allowed at sizes that have no such
/// transform.
pub fn valid_av1_transform(tx_size: TxSize, tx_type: TxType) -> bool
    ensures { result ≡ valid_av1_transform tx_size tx_type }
{
    match tx_size.sqr_up() {
        TxSize::TX_64X64 => tx_type == DCT_DCT,
        TxSize::TX_32X32 => tx_type == DCT_DCT || tx_type == IDTX,
        _ => true,
    }
}

/// The numbers of transforms, the roots of 2 in 4096 parts, and the types that rav1e tries.
pub fn transform_constants()
    ensures tx_sizes { TxSize.TX_SIZES ≡ 5 }
    ensures tx_sizes_all { TxSize.TX_SIZES_ALL ≡ 19 }
    ensures tx_types { TX_TYPES ≡ 16 }
    ensures tx_types_plus_ll { TX_TYPES_PLUS_LL ≡ 17 }
    ensures sqrt2_bits { SQRT2_BITS ≡ 12 }
    ensures sqrt2 { SQRT2 ≡ pos 5793 }
    ensures inv_sqrt2 { INV_SQRT2 ≡ pos 2896 }
    ensures rav1e_tx_types { RAV1E_TX_TYPES ≡ tried_types }
{}
