//! Motion compensation: predicts blocks from reference planes, moved by vectors. Only one constructor allocates.
//!
//! AV1 specification: block inter prediction process, rounding variables derivation process.
//!
//! The crate takes the interpolation filters from `av1_blocks`, and planes, regions and slices from `av1_frame`. Its
//! functions have the names and the values of rav1e's.
//!
//! Its promises:
//! - `put_8tap` sets each sample of a block to `single` of `specs/Motion.antt`, over the stored samples round the
//!   block's position in the reference. All other samples are unchanged.
//! - `prep_8tap` writes `prepared` of them, row by row, to the first entries of a buffer. The others are unchanged.
//! - `mc_avg` sets each sample of a block to `averaged` of two prepared values.
//! - `put_8tap_to`, `prep_8tap_from` and `mc_avg_to` do the same from or to slices, in memory of any caller.
//!   `put_8tap`, `prep_8tap` and `mc_avg` lend them the samples of a plane or a region. `put_8tap_to` and
//!   `prep_8tap_from` read only what the fractions need (`IsReadFrom` of `specs/Places.antt`).
//! - `predict_inter_single`, `predict_inter_compound` and `predict_inter` predict a block from the planes in a frame's
//!   slots, moved by vectors (`PredictsSingle` and `PredictsCompound` of `specs/Prediction.antt`). The planes are
//!   padded, and for every vector a position outside the frame reads the nearest visible sample. If the slot of a
//!   single reference is empty, nothing is written. What an empty slot gives to a compound prediction is left open.
//! - `sixteenths` is the part of a sample by which a component of a vector moves a block: `sixteenths` of
//!   `specs/Reference.antt`.
//! - `constant_references_stay`, `prepared_values_fit`, `padded_planes_serve` and `motion_lies_within` are laws of
//!   these definitions.
//!
//! `specs/Reference.antt` defines motion over a function of positions, `moved_in`. `specs/Prediction.antt` defines the
//! samples of a plane's whole area, `single_prediction` and `compound_prediction`. These definitions need no plane in
//! storage.
//!
//! No intermediate value wraps, and every prepared value fits 16 bits. Only `InterCompoundBuffers::new` allocates, and
//! no other call can fail. Widths, heights and positions are counted in samples, vectors in eighths of a luma sample,
//! fractions in sixteenths of a sample. A filter has eight taps, so in a direction in which a block is moved by part of
//! a sample, it reads 3 columns or rows before it and 4 after it. `put_8tap` and `prep_8tap` need these stored at every
//! fraction.
//!
//! Fractions, width and height, and the bytes of a sample choose the functions that compute a block. `put_8tap` and
//! `prep_8tap` share the filters, and a `Writer` turns the filtered values into samples or prepared values:
//!
//! | fractions | sides | one byte a sample: 8 bits | two bytes: 8, 10 or 12 bits |
//! |---|---|---|---|
//! | none, put | a width of 4, 8, 16, 32, 64 or 128 | `put_copy`: `copy_rows` | the same |
//! | none, put | any other width | `put_copy`: `copy_any_rows` | the same |
//! | none, prepared | any | `prepare_copy`: `widen_rows`, by an array if the width is one of these six | the same |
//! | only one | 4x4, by four weights | `filter_by`: `filter_four` across, `filter_words` down | as other sides |
//! | only across | any other: strips of 16 or 8 columns | `filter_once`: `filter_bytes` | `filter_once`: `filter_words` |
//! | only across | the rest: strips of 4 columns or 1 | `filter_once`: `filter_four` or `filter_words` | `filter_once`: `filter_words` |
//! | only down | the same strips | `filter_once`: `filter_bytes` for 16 or 8 columns, else `filter_words` | `filter_once`: `filter_words` |
//! | both | any: parts of 16 or 8 columns and up to 32 rows | `filter_twice`: `filter_bytes`, then `filter_words` | `filter_twice`: `filter_words`, twice |
//! | both | the rest: parts of 4 columns or 1 | `filter_twice`: `filter_four` or `filter_words`, then `filter_words` | `filter_twice`: `filter_words`, twice |
//!
//! Within a sum, the outer weights that are 0 are left out, up to two on either side: `outer_zeros` counts them.
//! `filter_four` computes four bytes side by side, along a row, if four weights are left.
#![tactic(auto)]

mod average;
mod block;
mod buffers;
mod bytes;
mod copies;
mod filter;
mod laws;
mod moved;
mod one_filter;
mod predict;
mod prepare;
mod put;
mod rounding;
mod strip;
mod taps;
mod two_filters;
mod words;
mod writer;

pub use average::{mc_avg, mc_avg_to};
pub use block::Moved;
pub use buffers::InterCompoundBuffers;
pub use filter::mode_along;
pub use laws::{
    constant_references_stay, motion_lies_within, padded_planes_serve, prepared_values_fit,
};
pub use moved::sixteenths;
pub use predict::{predict_inter, predict_inter_compound, predict_inter_single};
pub use prepare::{prep_8tap, prep_8tap_from};
pub use put::{put_8tap, put_8tap_to};
