//! Finds the variant of an enum by its number. Proves the numbers of enums that are never read from a number.
#![tactic(auto)]

ghost use Rattle.std.specs.Prelude.{◌≡◌, slice_get};

use crate::partition::{GlobalMVMode, MvJointType, MvSubpelPrecision, PartitionType};
use crate::predict::{
    CompoundType, FilterIntraMode, InterIntraMode, MotionMode, PaletteColor, PaletteSize,
};
use crate::transform::TxSet;

/// The variant of this number among all variants, which are in the order of their numbers.
#[inline]
pub(crate) fn variant_of<T: Copy>(all: &[T], number: u8) -> Option<T>
    ensures { result ≡ slice_get all.now number }
{
    all.get(number as usize).copied()
}

// The numbers of the enums that are not read from their numbers.
const _: () = prove!(
    GlobalMVMode::IDENTITY as u8 == 0
        && GlobalMVMode::TRANSLATION as u8 == 1
        && GlobalMVMode::ROTZOOM as u8 == 2
        && GlobalMVMode::AFFINE as u8 == 3
);

const _: () = prove!(
    MvJointType::MV_JOINT_ZERO as u8 == 0
        && MvJointType::MV_JOINT_HNZVZ as u8 == 1
        && MvJointType::MV_JOINT_HZVNZ as u8 == 2
        && MvJointType::MV_JOINT_HNZVNZ as u8 == 3
);

const _: () = prove!(
    InterIntraMode::II_DC_PRED as u8 == 0
        && InterIntraMode::II_V_PRED as u8 == 1
        && InterIntraMode::II_H_PRED as u8 == 2
        && InterIntraMode::II_SMOOTH_PRED as u8 == 3
        && InterIntraMode::INTERINTRA_MODES as u8 == 4
);

const _: () = prove!(
    CompoundType::COMPOUND_AVERAGE as u8 == 0
        && CompoundType::COMPOUND_WEDGE as u8 == 1
        && CompoundType::COMPOUND_DIFFWTD as u8 == 2
        && CompoundType::COMPOUND_TYPES as u8 == 3
);

const _: () = prove!(
    MotionMode::SIMPLE_TRANSLATION as u8 == 0
        && MotionMode::OBMC_CAUSAL as u8 == 1
        && MotionMode::WARPED_CAUSAL as u8 == 2
        && MotionMode::MOTION_MODES as u8 == 3
);

const _: () = prove!(
    PaletteSize::TWO_COLORS as u8 == 0
        && PaletteSize::THREE_COLORS as u8 == 1
        && PaletteSize::FOUR_COLORS as u8 == 2
        && PaletteSize::FIVE_COLORS as u8 == 3
        && PaletteSize::SIX_COLORS as u8 == 4
        && PaletteSize::SEVEN_COLORS as u8 == 5
        && PaletteSize::EIGHT_COLORS as u8 == 6
        && PaletteSize::PALETTE_SIZES as u8 == 7
);

const _: () = prove!(
    PaletteColor::PALETTE_COLOR_ONE as u8 == 0
        && PaletteColor::PALETTE_COLOR_TWO as u8 == 1
        && PaletteColor::PALETTE_COLOR_THREE as u8 == 2
        && PaletteColor::PALETTE_COLOR_FOUR as u8 == 3
        && PaletteColor::PALETTE_COLOR_FIVE as u8 == 4
        && PaletteColor::PALETTE_COLOR_SIX as u8 == 5
        && PaletteColor::PALETTE_COLOR_SEVEN as u8 == 6
        && PaletteColor::PALETTE_COLOR_EIGHT as u8 == 7
        && PaletteColor::PALETTE_COLORS as u8 == 8
);

const _: () = prove!(
    FilterIntraMode::FILTER_DC_PRED as u8 == 0
        && FilterIntraMode::FILTER_V_PRED as u8 == 1
        && FilterIntraMode::FILTER_H_PRED as u8 == 2
        && FilterIntraMode::FILTER_D157_PRED as u8 == 3
        && FilterIntraMode::FILTER_PAETH_PRED as u8 == 4
        && FilterIntraMode::FILTER_INTRA_MODES as u8 == 5
);

const _: () = prove!(
    TxSet::TX_SET_DCTONLY as u8 == 0
        && TxSet::TX_SET_INTER_3 as u8 == 1
        && TxSet::TX_SET_INTRA_2 as u8 == 2
        && TxSet::TX_SET_INTRA_1 as u8 == 3
        && TxSet::TX_SET_INTER_2 as u8 == 4
        && TxSet::TX_SET_INTER_1 as u8 == 5
);

const _: () = prove!(
    PartitionType::PARTITION_NONE as u8 == 0
        && PartitionType::PARTITION_HORZ as u8 == 1
        && PartitionType::PARTITION_VERT as u8 == 2
        && PartitionType::PARTITION_SPLIT as u8 == 3
        && PartitionType::PARTITION_HORZ_A as u8 == 4
        && PartitionType::PARTITION_HORZ_B as u8 == 5
        && PartitionType::PARTITION_VERT_A as u8 == 6
        && PartitionType::PARTITION_VERT_B as u8 == 7
        && PartitionType::PARTITION_HORZ_4 as u8 == 8
        && PartitionType::PARTITION_VERT_4 as u8 == 9
        && PartitionType::PARTITION_INVALID as u8 == 10
);

const _: () = prove!(
    MvSubpelPrecision::MV_SUBPEL_NONE as i8 == -1
        && MvSubpelPrecision::MV_SUBPEL_LOW_PRECISION as i8 == 0
        && MvSubpelPrecision::MV_SUBPEL_HIGH_PRECISION as i8 == 1
);
