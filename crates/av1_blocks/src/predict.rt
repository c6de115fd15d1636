//! AV1's prediction modes and their parameters, as types under rav1e's names. Plans use only `PredictionMode`.
#![tactic(auto)]

mod mode;

pub use mode::{intra_mode_to_angle, mode_constants};

/// The step between two angles of a directional mode, in degrees.
pub const ANGLE_STEP: i8 = 3;

/// The number of prediction modes.
pub const PREDICTION_MODES: usize = 34;

/// How the samples of a block are predicted. The first thirteen modes and `UV_CFL_PRED`, which is only for chroma, are
/// intra. The modes from `NEARESTMV` on have one reference, and those from `NEAREST_NEARESTMV` on have two.
#[derive(Copy, Clone, Debug, PartialEq, Eq, PartialOrd, Ord, Default)]
pub enum PredictionMode {
    #[default]
    DC_PRED,
    V_PRED,
    H_PRED,
    D45_PRED,
    D135_PRED,
    D113_PRED,
    D157_PRED,
    D203_PRED,
    D67_PRED,
    SMOOTH_PRED,
    SMOOTH_V_PRED,
    SMOOTH_H_PRED,
    PAETH_PRED,
    UV_CFL_PRED,
    NEARESTMV,
    NEAR0MV,
    NEAR1MV,
    NEAR2MV,
    GLOBALMV,
    NEWMV,
    NEAREST_NEARESTMV,
    NEAR_NEAR0MV,
    NEAR_NEAR1MV,
    NEAR_NEAR2MV,
    NEAREST_NEWMV,
    NEW_NEARESTMV,
    NEAR_NEW0MV,
    NEAR_NEW1MV,
    NEAR_NEW2MV,
    NEW_NEAR0MV,
    NEW_NEAR1MV,
    NEW_NEAR2MV,
    GLOBAL_GLOBALMV,
    NEW_NEWMV,
}

impl PredictionMode {
    /// Every mode, in the order of their numbers.
    pub const ALL: [PredictionMode; 34] = [
        PredictionMode::DC_PRED,
        PredictionMode::V_PRED,
        PredictionMode::H_PRED,
        PredictionMode::D45_PRED,
        PredictionMode::D135_PRED,
        PredictionMode::D113_PRED,
        PredictionMode::D157_PRED,
        PredictionMode::D203_PRED,
        PredictionMode::D67_PRED,
        PredictionMode::SMOOTH_PRED,
        PredictionMode::SMOOTH_V_PRED,
        PredictionMode::SMOOTH_H_PRED,
        PredictionMode::PAETH_PRED,
        PredictionMode::UV_CFL_PRED,
        PredictionMode::NEARESTMV,
        PredictionMode::NEAR0MV,
        PredictionMode::NEAR1MV,
        PredictionMode::NEAR2MV,
        PredictionMode::GLOBALMV,
        PredictionMode::NEWMV,
        PredictionMode::NEAREST_NEARESTMV,
        PredictionMode::NEAR_NEAR0MV,
        PredictionMode::NEAR_NEAR1MV,
        PredictionMode::NEAR_NEAR2MV,
        PredictionMode::NEAREST_NEWMV,
        PredictionMode::NEW_NEARESTMV,
        PredictionMode::NEAR_NEW0MV,
        PredictionMode::NEAR_NEW1MV,
        PredictionMode::NEAR_NEW2MV,
        PredictionMode::NEW_NEAR0MV,
        PredictionMode::NEW_NEAR1MV,
        PredictionMode::NEW_NEAR2MV,
        PredictionMode::GLOBAL_GLOBALMV,
        PredictionMode::NEW_NEWMV,
    ];
}

/// The intra modes of luma in the order in which rav1e tries them.
pub const RAV1E_INTRA_MODES: [PredictionMode; 13] = [
    PredictionMode::DC_PRED,
    PredictionMode::H_PRED,
    PredictionMode::V_PRED,
    PredictionMode::SMOOTH_PRED,
    PredictionMode::SMOOTH_H_PRED,
    PredictionMode::SMOOTH_V_PRED,
    PredictionMode::PAETH_PRED,
    PredictionMode::D45_PRED,
    PredictionMode::D135_PRED,
    PredictionMode::D113_PRED,
    PredictionMode::D157_PRED,
    PredictionMode::D203_PRED,
    PredictionMode::D67_PRED,
];

/// The inter mode that rav1e tries if it tries only one.
pub const RAV1E_INTER_MODES_MINIMAL: [PredictionMode; 1] = [PredictionMode::NEARESTMV];

/// The modes with two references in the order in which rav1e tries them.
pub const RAV1E_INTER_COMPOUND_MODES: [PredictionMode; 8] = [
    PredictionMode::GLOBAL_GLOBALMV,
    PredictionMode::NEAREST_NEARESTMV,
    PredictionMode::NEW_NEWMV,
    PredictionMode::NEAREST_NEWMV,
    PredictionMode::NEW_NEARESTMV,
    PredictionMode::NEAR_NEAR0MV,
    PredictionMode::NEAR_NEAR1MV,
    PredictionMode::NEAR_NEAR2MV,
];

/// The intra mode that is blended with inter prediction; the last variant is their number.
#[derive(Copy, Clone, Debug, PartialEq, Eq, PartialOrd)]
pub enum InterIntraMode {
    II_DC_PRED,
    II_V_PRED,
    II_H_PRED,
    II_SMOOTH_PRED,
    INTERINTRA_MODES,
}

/// How two predictions are joined; the last variant is the number of ways.
#[derive(Copy, Clone, Debug, PartialEq, Eq, PartialOrd)]
pub enum CompoundType {
    COMPOUND_AVERAGE,
    COMPOUND_WEDGE,
    COMPOUND_DIFFWTD,
    COMPOUND_TYPES,
}

/// How a block's motion is applied; the last variant is the number of ways.
#[derive(Copy, Clone, Debug, PartialEq, Eq, PartialOrd)]
pub enum MotionMode {
    SIMPLE_TRANSLATION,
    OBMC_CAUSAL,
    WARPED_CAUSAL,
    MOTION_MODES,
}

/// The number of colors of a palette; the last variant is the number of sizes.
#[derive(Copy, Clone, Debug, PartialEq, Eq, PartialOrd)]
pub enum PaletteSize {
    TWO_COLORS,
    THREE_COLORS,
    FOUR_COLORS,
    FIVE_COLORS,
    SIX_COLORS,
    SEVEN_COLORS,
    EIGHT_COLORS,
    PALETTE_SIZES,
}

/// A color of a palette; the last variant is their number.
#[derive(Copy, Clone, Debug, PartialEq, Eq, PartialOrd)]
pub enum PaletteColor {
    PALETTE_COLOR_ONE,
    PALETTE_COLOR_TWO,
    PALETTE_COLOR_THREE,
    PALETTE_COLOR_FOUR,
    PALETTE_COLOR_FIVE,
    PALETTE_COLOR_SIX,
    PALETTE_COLOR_SEVEN,
    PALETTE_COLOR_EIGHT,
    PALETTE_COLORS,
}

/// The mode of recursive intra filtering; the last variant is their number.
#[derive(Copy, Clone, Debug, PartialEq, Eq, PartialOrd)]
pub enum FilterIntraMode {
    FILTER_DC_PRED,
    FILTER_V_PRED,
    FILTER_H_PRED,
    FILTER_D157_PRED,
    FILTER_PAETH_PRED,
    FILTER_INTRA_MODES,
}

/// The parameter of an intra mode.
#[derive(Copy, Clone, Debug)]
pub enum IntraParam {
    /// The angle delta of a directional mode, in steps of `ANGLE_STEP` degrees.
    AngleDelta(i8),
    /// The weight of luma in chroma from luma, in eighths.
    Alpha(i16),
    /// No parameter.
    None,
}

/// The angle deltas of the directional modes of a block, in luma and in chroma.
#[derive(Copy, Clone, Debug, Default)]
pub struct AngleDelta {
    /// The steps in luma.
    pub y: i8,
    /// The steps in chroma.
    pub uv: i8,
}
