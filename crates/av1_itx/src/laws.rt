//! Theorems about the transforms. Each function does nothing: its contract is the theorem.

ghost use Rattle.std.specs.Prelude.{◌≡◌, ◌≢◌, false, true, ◌&&◌, ℕ, ◌+◌, ◌*◌, ◌^◌, ◌≤◌, ◌↔◌, Bool, IsTrue, max, ℤ, pos, List, length, replicate, reverse};
ghost use Rattle.std.specs.List.{All};
ghost use Rattle.av1_blocks.specs.declared.transform.TxSize.{TxSize};
ghost use Rattle.av1_blocks.specs.declared.transform.TxSize.TheVariants.{TX_4X4};
ghost use Rattle.av1_blocks.specs.declared.transform.TxType.{TxType};
ghost use Rattle.av1_blocks.specs.declared.transform.TxType.TheVariants.{WHT_WHT};
ghost use Rattle.av1_blocks.specs.Transforms.{tx_width, tx_height, valid_av1_transform};
ghost use Rattle.av1_dct.specs.Arithmetic.{at, FitsBits};
ghost use Rattle.av1_dct.specs.Operations.{AreRight32, Operations};
ghost use Rattle.av1_itx.specs.declared.kinds.TxType1D.{TxType1D};
ghost use Rattle.av1_itx.specs.declared.kinds.TxType1D.TheVariants.{ADST, FLIPADST, WHT};
ghost use Rattle.av1_itx.specs.Kinds.{column_kind, row_kind};
ghost use Rattle.av1_itx.specs.Walsh.{walsh};
ghost use Rattle.av1_itx.specs.Networks.{HasNetwork, network, network_with};
ghost use Rattle.av1_itx.specs.Residue.{HasNetworks, column_input, column_range, is_lossless, residue, residue_by, transformed_row};

/// Coefficients that are all zero have no residual, for every size, type and depth. So a block without coefficients
/// needs no inverse transform.
pub fn residue_of_zeros()
    ensures { (size : TxSize) (type : TxType) (depth : ℕ) (coefficients : List ℤ) (r c : ℕ) → All (λ z. z ≡ pos 0) coefficients →
        residue size type depth coefficients r c ≡ pos 0 }
{}

/// Every inverse transform of zeros gives zeros. So a row of zeros need not be transformed.
pub fn networks_of_zeros()
    ensures { (kind : TxType1D) (range k : ℕ) → HasNetwork kind k → network kind range k (replicate (2 * 2 ^ k) (pos 0)) ≡ replicate (2 * 2 ^ k) (pos 0) }
{}

/// The outputs of a flipped sine transform are those of the plain one in reverse order.
pub fn flipped_is_reversed()
    ensures { (range k : ℕ) (x : List ℤ) → network FLIPADST range k x ≡ reverse (network ADST range k x) }
{}

/// The outputs of the Walsh-Hadamard transform determine its inputs.
pub fn walsh_loses_nothing()
    ensures { (x y : List ℤ) → length x ≡ 4 → length y ≡ 4 → walsh x ≡ walsh y → x ≡ y }
{}

/// A type is valid at a size exactly if both of its transforms exist there, with two exceptions. If a side has 32
/// samples or more, the format has only types whose rows and columns have transforms of one kind (so not `V_DCT` at
/// 32x32). The lossless type is only for 4x4.
pub fn valid_types_are_those_that_run()
    ensures { (size : TxSize) (type : TxType) →
        (IsTrue (valid_av1_transform size type) × (type ≡ WHT_WHT → size ≡ TX_4X4)) ↔ (HasNetworks size type ×
        (32 ≤ max (tx_width size) (tx_height size) → row_kind type ≡ column_kind type)) }
{}

/// If every input is a number of 18 signed bits and the range is at most 18, no sum and no product of an inverse
/// transform leaves 32 bits. Operations that may give any number if a result does not fit still give the same outputs.
/// The lossless transform has this property for inputs of 20 bits.
pub fn networks_never_wrap()
    ensures narrow { (ops : Operations) → AreRight32 ops → (kind : TxType1D) (range k : ℕ) (x : List ℤ) → range ≤ 18 → All (FitsBits 18) x →
        network_with ops kind range k x ≡ network kind range k x }
    ensures lossless { (ops : Operations) → AreRight32 ops → (range k : ℕ) (x : List ℤ) → All (FitsBits 20) x →
        network_with ops WHT range k x ≡ network WHT range k x }
{}

/// At depths up to 10 no identity along rows wraps. So each residual that isn't lossless is the same by rav1e's rule
/// and by AV1's. A lossless residual is the same if its coefficients have no more than 17 bits: rav1e's clamp between
/// the passes then has no effect. At depth 8 no coefficient has more.
pub fn shallow_identities_never_wrap()
    ensures identities { (by_av1 : Bool) (size : TxSize) (type : TxType) (depth : ℕ) (coefficients : List ℤ) (r c : ℕ) → depth ≤ 10 → type ≢ WHT_WHT →
        residue_by by_av1 size type depth coefficients r c ≡ residue size type depth coefficients r c }
    ensures lossless { (by_av1 : Bool) (depth : ℕ) (coefficients : List ℤ) (r c : ℕ) → All (FitsBits 17) coefficients →
        residue_by by_av1 TX_4X4 WHT_WHT depth coefficients r c ≡ residue TX_4X4 WHT_WHT depth coefficients r c }
{}

/// At depths up to 12 the columns' inputs and range have at most 18 bits, whatever the rows gave. In lossless
/// blocks AV1 does not clamp the results of the rows. These have at most 20 bits, and the lossless transform needs no
/// more.
pub fn columns_never_wrap()
    ensures range { (depth : ℕ) → depth ≤ 12 → column_range depth ≤ 18 }
    ensures inputs { (by_av1 : Bool) (size : TxSize) (type : TxType) (depth : ℕ) (f : ℕ → ℤ) → depth ≤ 12 → (by_av1 && is_lossless type) ≡ false →
        All (FitsBits 18) (column_input by_av1 size type depth f) }
    ensures lossless { (depth : ℕ) (coefficients : List ℤ) (c : ℕ) → depth ≤ 12 → All (FitsBits (depth + 8)) coefficients →
        All (FitsBits 20) (column_input true TX_4X4 WHT_WHT depth (λ r. at (transformed_row true TX_4X4 WHT_WHT depth coefficients r) c)) }
{}
