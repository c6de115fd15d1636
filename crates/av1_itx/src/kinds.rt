//! The kinds of one-dimensional transforms, and the kinds along rows and columns of each type. Pure functions.

ghost use Rattle.std.specs.Prelude.{◌≡◌, if◌then◌else◌};
ghost use Rattle.av1_itx.specs.Kinds.{column_kind, row_kind, row_kind_by};
ghost use Rattle.av1_itx.specs.Residue.{is_lossless};
ghost use Rattle.av1_itx.specs.declared.kinds.TxType1D.TheVariants.{EXACT_IDENTITY, IDENTITY};

use av1_blocks::TxType;

/// A one-dimensional inverse transform.
#[derive(Copy, Clone, Debug, PartialEq, Eq)]
pub enum TxType1D {
    /// The cosine transform, of 4 to 64 values.
    DCT,
    /// The asymmetric sine transform, of 4, 8 and 16 values.
    ADST,
    /// The asymmetric sine transform with its outputs in reverse order.
    FLIPADST,
    /// The identity, scaled, of 4 to 32 values.
    IDENTITY,
    /// The identity over whole numbers that never wrap, as in AV1. No type has it as its own.
    EXACT_IDENTITY,
    /// The Walsh-Hadamard transform, of 4 values.
    WHT,
}

/// The transforms of a type: the one down the columns, and the one along the rows.
pub fn get_1d_tx_types(tx_type: TxType) -> (TxType1D, TxType1D)
    ensures column { result.0 ≡ column_kind tx_type }
    ensures row { result.1 ≡ row_kind tx_type }
{
    match tx_type {
        TxType::DCT_DCT => (TxType1D::DCT, TxType1D::DCT),
        TxType::ADST_DCT => (TxType1D::ADST, TxType1D::DCT),
        TxType::DCT_ADST => (TxType1D::DCT, TxType1D::ADST),
        TxType::ADST_ADST => (TxType1D::ADST, TxType1D::ADST),
        TxType::FLIPADST_DCT => (TxType1D::FLIPADST, TxType1D::DCT),
        TxType::DCT_FLIPADST => (TxType1D::DCT, TxType1D::FLIPADST),
        TxType::FLIPADST_FLIPADST => (TxType1D::FLIPADST, TxType1D::FLIPADST),
        TxType::ADST_FLIPADST => (TxType1D::ADST, TxType1D::FLIPADST),
        TxType::FLIPADST_ADST => (TxType1D::FLIPADST, TxType1D::ADST),
        TxType::IDTX => (TxType1D::IDENTITY, TxType1D::IDENTITY),
        TxType::V_DCT => (TxType1D::DCT, TxType1D::IDENTITY),
        TxType::H_DCT => (TxType1D::IDENTITY, TxType1D::DCT),
        TxType::V_ADST => (TxType1D::ADST, TxType1D::IDENTITY),
        TxType::H_ADST => (TxType1D::IDENTITY, TxType1D::ADST),
        TxType::V_FLIPADST => (TxType1D::FLIPADST, TxType1D::IDENTITY),
        TxType::H_FLIPADST => (TxType1D::IDENTITY, TxType1D::FLIPADST),
        TxType::WHT_WHT => (TxType1D::WHT, TxType1D::WHT),
    }
}

/// Whether a type is lossless.
pub(crate) fn is_lossless(tx_type: TxType) -> bool
    ensures { result ≡ is_lossless tx_type }
{
    matches!(tx_type, TxType::WHT_WHT)
}

// The identity, which never wraps if `by_av1` is true.
fn identity_kind(by_av1: bool) -> TxType1D
    ensures { result ≡ (if by_av1 then EXACT_IDENTITY else IDENTITY) }
{
    if by_av1 {
        TxType1D::EXACT_IDENTITY
    } else {
        TxType1D::IDENTITY
    }
}

/// The transform along the rows of a type. If `by_av1` is true, an identity never wraps there, as in AV1.
pub(crate) fn row_kind_of(tx_type: TxType, by_av1: bool) -> TxType1D
    ensures { result ≡ row_kind_by by_av1 tx_type }
{
    let (_, kind) = get_1d_tx_types(tx_type);
    match kind {
        TxType1D::IDENTITY => identity_kind(by_av1),
        _ => kind,
    }
}
