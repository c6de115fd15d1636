//! Theorems about the slow definition. Each function does nothing: its contract is the theorem.

ghost use Rattle.av1_tile.specs.Lookups.{OutputIsThere, StepsAreAnswered, StepsFindSamples};
ghost use Rattle.av1_tile.specs.MotionDepth.{CompoundMotionLiesWithin, SingleMotionLiesWithin};
ghost use Rattle.av1_tile.specs.Residues.{SamplesAreSums};
ghost use Rattle.av1_tile.specs.Versions.{EarlierKeepFilter, EarlierShareNone, EarlyAgree, ElsewhereAgree, VersionsShowTheSame};

/// The planes of a plan are the same in each version of the plan format whose rules it follows.
pub fn versions_show_the_same()
    ensures { VersionsShowTheSame }
{}

/// In the first two versions no leaves share a chroma block that is predicted from references.
pub fn earlier_versions_share_no_chroma()
    ensures { EarlierShareNone }
{}

/// In the first two versions the interpolation filter along a side up to 4 is rav1e's filter, as along all other sides.
pub fn earlier_versions_keep_the_short_filter()
    ensures { EarlierKeepFilter }
{}

/// Each plan follows the same rules in the first version and in the second.
pub fn versions_agree_early()
    ensures { EarlyAgree }
{}

/// A plan follows the same rules in each version if its filter is not the sharp one, its depth is not 12, and no
/// coefficient of its lossless blocks has more than 17 bits. At depth 8 no coefficient has more.
pub fn versions_agree_elsewhere()
    ensures { ElsewhereAgree }
{}

/// Each sample that the slow walk of a valid plan reads has been written before, so that no missing sample counts as 0.
/// It reads the samples that an edge begins with, the luma that chroma is predicted from, and each sample that a
/// residual is added to. At the end it reads each sample of the output. Exactly those samples around a block have been
/// written that the availability tables name.
pub fn look_ups_find_samples()
    ensures at_steps { StepsFindSamples }
    ensures at_end { OutputIsThere }
    ensures answered { StepsAreAnswered }
{}

/// Each sample of a plan's output is the sum of its prediction and its residual. The residual is the change by the Add
/// steps since the sample was predicted.
pub fn samples_are_sums()
    ensures { SamplesAreSums }
{}

/// Each sample that is predicted from references lies within the depth.
pub fn motion_lies_within_depth()
    ensures single { SingleMotionLiesWithin }
    ensures compound { CompoundMotionLiesWithin }
{}
