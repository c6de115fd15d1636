//! Theorems about coding order. Each function does nothing: its contract is the theorem.

ghost use Rattle.av1_order.specs.Leaves.{FramesAreTiled, LeavesLieOnGrid};
ghost use Rattle.av1_order.specs.Places.{OrderByPlaces};
ghost use Rattle.av1_order.specs.Samples.{EdgesByPlaces, PlanesAreWritten};
ghost use Rattle.av1_order.specs.Plans.{LeavesHaveTheirBlocks, PlansAreFrames};
ghost use Rattle.av1_order.specs.Asked.{CallsAnswerOrder, EdgesAsAsked};
ghost use Rattle.av1_order.specs.Tabled.{CutsAreTold};
ghost use Rattle.av1_order.specs.Turns.{EdgesAreAnswered, PlansAreWritten, SidesAreAnswered};
ghost use Rattle.av1_order.specs.Neighbours.{AreasAreCells, AreasTile, LastCellsLieInside, LeavesFindNeighbours};
ghost use Rattle.av1_order.specs.ChromaFromLuma.{LumaIsWritten};
ghost use Rattle.av1_order.specs.WholeAreas.{InterIsWhole, ResiduesFindSamples};

/// The width and the height of each leaf are 1, 2, 4, 8 or 16 cells of 4x4 luma samples, and the leaf lies at multiples
/// of them. It begins in the frame, and ends within the frame's superblocks of 16x16 cells.
pub fn leaves_lie_on_their_grid()
    ensures { LeavesLieOnGrid }
{}

/// No cell of a frame lies in two leaves. If the frame has all its superblocks, each cell lies in one.
pub fn leaves_tile_the_frame()
    ensures { FramesAreTiled }
{}

/// In every plane of every frame, the steps before a step have written exactly the units of 4x4 samples that follow
/// from its position.
pub fn order_follows_from_position()
    ensures { OrderByPlaces }
{}

/// When the turn of a step comes, the visible plane above it and left of it is written, up to its last column and row.
/// The run above right of it, and the run below left of it, are visible and written whole or not at all, as its
/// position says.
pub fn edges_are_told_by_places()
    ensures { EdgesByPlaces }
{}

/// After all steps of a frame that has all its superblocks, each sample of each visible plane is written.
pub fn planes_are_written()
    ensures { PlanesAreWritten }
{}

/// For `has_top_right` and `has_bottom_left` of `av1_avail`, coding order says whether the samples above right of a
/// step, and below left of it, are visible and written. The calls are given the sizes of the step and the cell of its
/// leaf.
pub fn availability_matches_order()
    ensures asked { EdgesAsAsked }
    ensures answered { CallsAnswerOrder }
{}

/// Before each step of a plane, the earlier steps have written the samples of the visible plane round it that follow
/// from its position. With the sizes of the step and the cell of its leaf, the tables say whether the samples above
/// right of it, and below left of it, are visible and written.
pub fn cuts_are_told()
    ensures { CutsAreTold }
{}

/// The steps of a valid intra leaf are its transform blocks that begin in the visible plane, in raster order.
pub fn steps_are_transform_blocks()
    ensures { LeavesHaveTheirBlocks }
{}

/// Each plane of a valid plan, whose leaves are those of trees of marks, is a plane of a frame in coding order. So all
/// laws of coding order hold for it.
pub fn plans_are_frames()
    ensures { PlansAreFrames }
{}

/// At each transform block of a valid plan, in each plane of every sampling, the availability calls say whether the
/// first sample past the block is visible and written. If they say yes, all visible samples of the run past the block
/// are written, and else none. The visible samples above, left and at the corner are written. So each sample at the two
/// sides, as far as a mode may reach, is written exactly if it lies in the frame and either lies before the block's end
/// or the answer is yes. Other leaves may be inter.
pub fn edges_are_answered()
    ensures edges { EdgesAreAnswered }
    ensures sides { SidesAreAnswered }
{}

/// The steps of all leaves of a valid plan write each visible sample of each plane.
pub fn plans_are_written()
    ensures { PlansAreWritten }
{}

/// A sample of a plane lies in a leaf's area exactly if the leaf holds the last luma cell of the sample's unit. For a
/// visible sample that cell lies in the frame. Each visible sample lies in the area of one leaf. A record for each
/// cell, in which each leaf is noted when it is done, shows the neighbours of a later leaf: the leaves whose areas hold
/// the samples above its area and to its left.
pub fn neighbours_are_found()
    ensures cells { AreasAreCells }
    ensures one { AreasTile }
    ensures inside { LastCellsLieInside }
    ensures noted { LeavesFindNeighbours }
{}

/// All luma that chroma from luma reads at a leaf, also past the frame, is written by the luma steps of this leaf and
/// of the earlier leaves.
pub fn luma_is_written()
    ensures { LumaIsWritten }
{}

/// An inter leaf has one step in each plane of which it covers a part, over its whole area. Each sample of each
/// transform block that begins in the visible plane, to which a residual may be added, is written by its leaf's steps.
pub fn areas_are_predicted()
    ensures whole { InterIsWhole }
    ensures added { ResiduesFindSamples }
{}
