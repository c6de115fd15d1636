//! Converts filter modes to their numbers and back, and proves that each filter's weights sum to 128.
#![tactic(auto)]

ghost use Rattle.std.specs.Prelude.{◌≡◌, length, slice_get, All, Some};
ghost use Rattle.av1_blocks.specs.Filters.{filter_number, subpel_filters, IsWhole};

use crate::mc::{FilterMode, SUBPEL_FILTER_SIZE, SUBPEL_FILTERS};
use crate::numbers::variant_of;

impl FilterMode {
    /// The mode of this number, if there is one.
    #[inline]
    pub fn from_number(number: u8) -> Option<FilterMode>
        ensures { result ≡ slice_get FilterMode.ALL number }
    {
        variant_of(&FilterMode::ALL, number)
    }

    /// The mode's number, which `from_number` takes back.
    #[inline]
    pub fn number(self) -> u8
        ensures value { result ≡ filter_number self }
        ensures named { slice_get FilterMode.ALL (filter_number self) ≡ Some self }
        ensures all { length FilterMode.ALL ≡ 5 }
    {
        self as u8
    }
}

/// The filters are those of AV1, and the weights of each sum to 128. So samples that are all equal stay the same.
pub fn filters_are_whole()
    ensures size { SUBPEL_FILTER_SIZE ≡ 8 }
    ensures value { SUBPEL_FILTERS ≡ subpel_filters }
    ensures whole { All (All IsWhole) SUBPEL_FILTERS }
{}
