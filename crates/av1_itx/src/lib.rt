//! Inverse transforms of blocks: they read coefficients, and add the residual to samples of a slice or a region.
//! By AV1's rule, which `by_av1` chooses, the residual is the AV1 specification's. By the other rule it is rav1e's.
//!
//! The crate takes lists by index from `av1_lists`, the sizes and types of transforms from `av1_blocks`, the inverse
//! cosine transforms and all arithmetic from `av1_dct`, and samples and regions from `av1_frame`. Its promises:
//!
//! - `inverse_transform_add_to` adds `residue_by` of `specs/Residue.antt` to each sample of a rectangle of a slice, and
//!   clips to the depth. All other samples are unchanged. The rule is rav1e's, unless `by_av1` of the scratch is set.
//!   `inverse_transform_add_with` does the same in a region. Both run over a `TxScratch` that is allocated once; they
//!   do not allocate and always succeed. `inverse_transform_add_in` runs over a `TxRoom`, a plain struct of one array
//!   that C may also own. `inverse_transform_add` allocates its own scratch; if memory runs out, it changes nothing.
//! - Rows and columns are transformed in the same way: eight at a time, or four if there are no more. Eight cosine
//!   transforms go through `cosine_lanes`. A `TxScratch` counts the groups of columns (`TxScratch::lane_groups`); each
//!   call raises the count by `lane_groups` of `specs/LaneGroups.antt`.
//! - A block that takes the cosine transform both ways, and has only its first coefficient, adds one value to each of
//!   its samples. Over a scratch its groups of eight columns still go through `cosine_lanes`, for their count, as four
//!   values: at any length, four are enough for a single value.
//! - `av1_iadst4`, `av1_iflipadst16`, `av1_iidentity32`, `av1_iwht4` and the calls with similar names give the
//!   definitions of `specs/Adst.antt`, `specs/Identity.antt` and `specs/Walsh.antt` on the first values of a slice. The
//!   rest of `output` is unchanged.
//! - The laws, functions that do nothing: zeros have no residual and are not changed by any transform. A flipped
//!   transform is the plain one reversed. The Walsh-Hadamard transform is lossless. Every valid type has its two
//!   transforms. Nothing wraps at 32 bits if inputs and range have 18 bits. Inputs of columns have no more, if they
//!   are clamped. At depths up to 10 no identity wraps.
//!
//! A block has a size of `TxSize`: `w` columns by `h` rows of samples. Its coefficients are stored column by column, at
//! most 32 of each column and 32 columns: the coefficient of row r and column c is at `c * min(h, 32) + r`.
//! Coefficients past the end of the list are 0. `bd` is the depth of the samples in bits, and `range` the number of
//! bits to which values within a transform are clamped.
//!
//! At depth 12 sums of the rows can leave 32 bits; they wrap there, as in rav1e, and the definitions say so. By AV1's
//! rule, which `by_av1` of a scratch or a block chooses, identities don't wrap, and in lossless blocks (`WHT_WHT`)
//! nothing is clamped between the passes.
#![tactic(auto)]

mod adding;
mod adst;
mod block;
mod column_pass;
mod columns;
mod identity;
mod inverse;
mod kinds;
mod laws;
mod networks;
mod row_pass;
mod shift;
mod single;
mod walsh;
mod words;

pub use adst::{
    av1_iadst4, av1_iadst8, av1_iadst16, av1_iflipadst4, av1_iflipadst8, av1_iflipadst16,
};
pub use block::Block;
pub use identity::{av1_iidentity4, av1_iidentity8, av1_iidentity16, av1_iidentity32};
pub use inverse::{
    TxRoom, TxScratch, inverse_transform_add, inverse_transform_add_in, inverse_transform_add_to,
    inverse_transform_add_with,
};
pub use kinds::{TxType1D, get_1d_tx_types};
pub use laws::{
    columns_never_wrap, flipped_is_reversed, networks_never_wrap, networks_of_zeros,
    residue_of_zeros, shallow_identities_never_wrap, valid_types_are_those_that_run,
    walsh_loses_nothing,
};
pub use shift::av1_round_shift_array;
pub use walsh::av1_iwht4;
