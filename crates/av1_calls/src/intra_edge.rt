//! Tests its arguments, then writes a transform's edge to the caller's buffer. Only reads the plane's samples.
//!
//! AV1 specification: intra prediction process: general.
ghost use Rattle.std.specs.Prelude.{◌≡◌, ◌+◌, ◌*◌, ◌^◌, ◌<◌, ◌≤◌, Option, IfOk, IfErr, true, length, pos};
ghost use Rattle.av1_blocks.specs.declared.predict.PredictionMode.{PredictionMode as Mode};
ghost use Rattle.av1_blocks.specs.declared.transform.TxSize.{TxSize as Size};
ghost use Rattle.av1_edges.specs.Edges.{BeginsVisible};
ghost use Rattle.av1_frame.specs.declared.plane_region.PlaneRegion.{PlaneRegion as Region};
ghost use Rattle.av1_calls.specs.IntraBlocks.{IsDepthWithin};
ghost use Rattle.av1_calls.specs.IntraEdges.{PreparesEdge, BeginsIn, HasNoEdgeMode, HoldsEdge, IsBlockSize, IsEdgeMode, IsEdgeTurn, IsNameFault, IsTile};
ghost use Rattle.av1_calls.specs.IntraEdges.{LiesIn, config_of, edge_in, halvings, plane_of};
ghost use Rattle.av1_calls.specs.Arguments.{IsSize};

use crate::argument::{BadArgument, are_rows};
use crate::intra::{is_depth_within, is_turn};
use crate::status::{BAD_AREA, DONE, ROOM_TOO_SMALL};
use av1_blocks::{BlockSize, IntraParam, PredictionMode, TxSize};
use av1_edges::get_intra_edges_to;
use av1_frame::{
    BlockOffset, Pixel, PlaneConfig, PlaneOffset, PlaneRegion, StoredArea, TileBlockOffset,
    visible_area,
};

/// The least length of an edge's buffer in samples: 128 to the left, the corner, and 128 above.
pub const EDGE_SAMPLES: usize = 257;

/// The number that stands for no mode. The calls then prepare all parts of an edge.
pub const ANY_MODE: u8 = 255;

/// A plane in the caller's memory, and a tile of the plane. All lengths are in samples of the plane.
#[repr(C)]
#[derive(Clone, Copy, Debug, PartialEq, Eq)]
pub struct EdgePlane {
    /// The distance between the starts of two rows, in samples.
    pub stride: usize,
    /// The column of its first visible sample.
    pub x: usize,
    /// The row of its first visible sample.
    pub y: usize,
    /// How many visible columns it has.
    pub width: usize,
    /// How many visible rows it has.
    pub height: usize,
    /// The first column of the tile, counted from the first visible one.
    pub tile_x: usize,
    /// The first row of the tile, counted from the first visible one.
    pub tile_y: usize,
    /// How many columns of the plane the tile has.
    pub tile_width: usize,
    /// How many rows of the plane the tile has.
    pub tile_height: usize,
    /// 0 if the plane has as many columns as luma, else it has half of them.
    pub halved_columns: u8,
    /// 0 if the plane has as many rows as luma, else it has half of them.
    pub halved_rows: u8,
}

/// A transform whose edge is prepared.
#[repr(C)]
#[derive(Clone, Copy, Debug, PartialEq, Eq)]
pub struct EdgeBlock {
    /// The column of its first sample, in samples from the tile's first column.
    pub x: usize,
    /// The row of its first sample, in samples from the tile's first row.
    pub y: usize,
    /// The column of its block in the tile, in cells of 4 by 4 luma samples.
    pub cell_x: usize,
    /// The row of its block in the tile, in cells of 4 by 4 luma samples.
    pub cell_y: usize,
    /// Its column in its block, counted in transforms.
    pub unit_x: usize,
    /// Its row in its block, counted in transforms.
    pub unit_y: usize,
    /// The number of the block's size in luma, from 0 (`BLOCK_4X4`) to 21 (`BLOCK_64X16`).
    pub block_size: u8,
    /// The number of the transform's size, from 0 (`TX_4X4`) to 18 (`TX_64X16`).
    pub tx_size: u8,
    /// The number of the mode that will predict it, from 0 (`DC_PRED`) to 13 (`UV_CFL_PRED`), or [`ANY_MODE`].
    pub mode: u8,
    /// How many steps of 3 degrees a directional mode turns, from -3 to 3; 0 in other modes. It is not read with
    /// [`ANY_MODE`].
    pub angle_step: i8,
    /// The depth of its samples, in bits: 8, 10 or 12.
    pub bit_depth: u8,
    /// 0 if the edge filter is off.
    pub edge_filter: u8,
}

/// The mode and the sizes that a transform's numbers name.
#[derive(Clone, Copy)]
struct Names {
    mode: Option<PredictionMode>,
    size: TxSize,
    block: BlockSize,
}

// The intra mode of this number, including chroma from luma, or `None` for `ANY_MODE`.
#[inline(always)]
fn edge_mode(number: u8) -> Result<Option<PredictionMode>, BadArgument>
    ensures found { IfOk result (IsEdgeMode number) }
    ensures fault { IfErr result (λ e. (e ≡ BadArgument.Mode) × HasNoEdgeMode number) }
{
    if number == ANY_MODE {
        return Ok(None);
    }
    let Some(mode) = PredictionMode::from_number(number) else {
        return Err(BadArgument::Mode);
    };
    if mode.is_intra() {
        Ok(Some(mode))
    } else {
        Err(BadArgument::Mode)
    }
}

// Whether a mode turns `step` steps. Without a mode any number of steps is valid.
#[inline(always)]
fn is_edge_turn(mode: Option<PredictionMode>, step: i8) -> bool
    ensures true_is { result ≡ true → IsEdgeTurn mode step }
    ensures is_true { IsEdgeTurn mode step → result ≡ true }
{
    match mode {
        Some(mode) => is_turn(mode, step),
        None => true,
    }
}

/// Reads the mode and the sizes from a transform's numbers, for samples of `bits` bits.
///
/// # Errors
///
/// `Mode`, then `Size`, then `Angle`, then `Depth`.
#[inline(always)]
fn names_of(bits: usize, block: EdgeBlock) -> Result<Names, BadArgument>
    ensures mode { IfOk result (λ names. IsEdgeMode block.mode names.mode) }
    ensures size { IfOk result (λ names. IsSize block.tx_size names.size) }
    ensures block { IfOk result (λ names. IsBlockSize block.block_size names.block) }
    ensures turn { IfOk result (λ names. IsEdgeTurn names.mode block.angle_step) }
    ensures depth { IfOk result (λ _. IsDepthWithin bits block.bit_depth) }
    ensures fault { IfErr result (IsNameFault bits block) }
{
    let mode = edge_mode(block.mode)?;
    let Some(size) = TxSize::from_number(block.tx_size) else {
        return Err(BadArgument::Size);
    };
    let Some(luma) = BlockSize::from_number(block.block_size) else {
        return Err(BadArgument::Size);
    };
    if !is_edge_turn(mode, block.angle_step) {
        return Err(BadArgument::Angle);
    }
    if !is_depth_within(bits, block.bit_depth) {
        return Err(BadArgument::Depth);
    }
    Ok(Names {
        mode,
        size,
        block: luma,
    })
}

// Whether `count` places from `first` on end within a limit.
#[inline(always)]
fn ends_within(first: usize, count: usize, limit: usize) -> bool
    ensures true_is { result ≡ true → first + count ≤ limit }
    ensures is_true { first + count ≤ limit → result ≡ true }
{
    count <= limit && first <= limit - count
}

// Whether fewer than 65536 units of 4 samples precede a transform in its block. A transform has `side` of these units.
#[inline(always)]
fn are_few(unit: usize, side: usize) -> bool
    requires some { 0 < side }
    requires most { side ≤ 16 }
    ensures true_is { result ≡ true → unit * side < 2 ^ 16 }
    ensures is_true { unit * side < 2 ^ 16 → result ≡ true }
{
    unit < 65536 && unit * side < 65536
}

// The rectangle of all visible samples of a plane.
#[inline(always)]
fn plane_of(plane: EdgePlane) -> StoredArea
    ensures { result ≡ plane_of plane }
{
    StoredArea {
        x: plane.x,
        y: plane.y,
        width: plane.width,
        height: plane.height,
    }
}

// Whether the plane lies in `samples` samples and the tile in the plane.
#[inline(always)]
fn is_tile(plane: EdgePlane, samples: usize) -> bool
    ensures true_is { result ≡ true → LiesIn plane samples }
    ensures is_true { LiesIn plane samples → result ≡ true }
{
    are_rows(plane.stride, plane_of(plane), samples)
        && ends_within(plane.tile_x, plane.tile_width, plane.width)
        && ends_within(plane.tile_y, plane.tile_height, plane.height)
}

// Whether the transform begins in the tile, and not too far from the start of its block.
#[inline(always)]
fn begins_in(plane: EdgePlane, block: EdgeBlock, size: TxSize) -> bool
    ensures true_is { result ≡ true → BeginsIn plane block size }
    ensures is_true { BeginsIn plane block size → result ≡ true }
{
    block.x < plane.tile_width
        && block.y < plane.tile_height
        && are_few(block.unit_x, size.width_mi())
        && are_few(block.unit_y, size.height_mi())
}

/// How often the columns, or the rows, of a plane are halved: 0 or 1.
#[inline(always)]
pub(crate) fn halvings(halved: u8) -> usize
    ensures value { result ≡ halvings halved }
    ensures most { result ≤ 1 }
{
    if halved == 0 { 0 } else { 1 }
}

/// The number of rows up to the end of the plane. `samples` samples hold all of them.
#[inline(always)]
pub(crate) fn rows_of(plane: EdgePlane, samples: usize) -> usize
    requires { LiesIn plane samples }
    ensures value { result ≡ plane.y + plane.height }
    ensures few { result < 2 ^ 63 }
    ensures fits { result * plane.stride ≤ samples }
{
    plane.y + plane.height
}

// The settings of a plane that ends after `rows` rows.
#[inline(always)]
fn config_of(plane: EdgePlane, rows: usize) -> PlaneConfig
    requires { rows ≡ plane.y + plane.height }
    ensures { result ≡ config_of plane }
{
    let bare = PlaneConfig::bare(plane.stride, rows, plane_of(plane));
    PlaneConfig {
        xdec: halvings(plane.halved_columns),
        ydec: halvings(plane.halved_rows),
        ..bare
    }
}

/// A column or a row as a signed number.
#[inline(always)]
pub(crate) fn signed(place: usize) -> isize
    requires { place < 2 ^ 63 }
    ensures { result ≡ pos place }
{
    place as isize
}

// The tile of a plane in these samples, as a region.
#[inline(always)]
fn tile_in<T: Pixel>(plane: EdgePlane, samples: &[T]) -> PlaneRegion<'_, T>
    requires inside { LiesIn plane (length samples.now) }
    requires column { 0 < plane.tile_width }
    requires row { 0 < plane.tile_height }
    ensures tile { IsTile result plane samples.now }
    ensures begins { BeginsVisible result }
{
    let rows = rows_of(plane, samples.len());
    PlaneRegion::from_slice(
        &samples[..rows * plane.stride],
        config_of(plane, rows),
        visible_area(
            plane.tile_x,
            plane.tile_y,
            plane.tile_width,
            plane.tile_height,
        ),
    )
}

/// Prepares the edge of a transform in a buffer of 257 samples.
#[inline(always)]
fn prepare_in<T: Pixel>(
    room: &mut [T],
    samples: &[T],
    plane: EdgePlane,
    block: EdgeBlock,
    names: Names,
)
    requires whole { length room.old ≡ 257 }
    requires inside { LiesIn plane (length samples.now) }
    requires begins { BeginsIn plane block names.size }
    requires depth { IsDepthWithin T.BITS block.bit_depth }
    ensures { (r : Region T) × (IsTile r plane samples.now × HoldsEdge T.num (edge_in T.num r block names.mode names.size names.block) room.new) }
{
    let tile = tile_in(plane, samples);
    get_intra_edges_to(
        room,
        &tile,
        TileBlockOffset(BlockOffset {
            x: block.cell_x,
            y: block.cell_y,
        }),
        block.unit_x,
        block.unit_y,
        names.block,
        PlaneOffset {
            x: signed(block.x),
            y: signed(block.y),
        },
        names.size,
        usize::from(block.bit_depth),
        names.mode,
        block.edge_filter != 0,
        IntraParam::AngleDelta(block.angle_step),
    );
}

/// Prepares the edge of a transform if the arguments are valid.
#[inline(always)]
fn prepare_by<T: Pixel>(edge: &mut [T], samples: &[T], plane: &EdgePlane, block: &EdgeBlock) -> u32
    ensures { PreparesEdge T.BITS T.num plane.now block.now samples.now edge.old edge.new result }
{
    if edge.len() < EDGE_SAMPLES {
        return ROOM_TOO_SMALL;
    }
    match names_of(T::BITS, *block) {
        Ok(names) => {
            if !is_tile(*plane, samples.len()) || !begins_in(*plane, *block, names.size) {
                return BAD_AREA;
            }
            let (room, _) = edge.split_at_mut(EDGE_SAMPLES);
            prepare_in(room, samples, *plane, *block, names);
            DONE
        }
        Err(fault) => fault.status(),
    }
}

/// Prepares the edge of a transform for the mode that will predict it, at a depth of 8. This is the specification's
/// "intra prediction process: general", for the samples of the arrays AboveRow and LeftCol. `samples` are the samples
/// of the plane. The samples that precede the transform in coding order have to be final.
///
/// In `edge` the left side ends before sample 128 and runs from the bottom up. Sample 128 is the corner, and the side
/// above begins at sample 129. So pass `edge[..128]`, `edge[128]` and `edge[129..]` to `tilg_predict_intra_8`. The
/// other samples among the first 257 are unspecified.
///
/// `DONE`: success. `ROOM_TOO_SMALL`: `edge` has fewer than 257 samples. `BAD_MODE`, `BAD_SIZE`: no intra mode or no
/// size has the number. `BAD_ANGLE`: the mode does not turn this many steps. `BAD_DEPTH`: the samples have no such
/// depth. `BAD_AREA`: the plane does not lie in the samples, or the tile not in the plane, or the transform does not
/// begin in the tile. It is also the status if the transform begins 65536 units of 4 samples or more from the start of
/// its block. The call does not test that `x` and `y` are the position of the cell and the unit.
pub fn tilg_intra_edge_8(
    edge: &mut [u8],
    samples: &[u8],
    plane: &EdgePlane,
    block: &EdgeBlock,
) -> u32
    ensures { PreparesEdge 8 (λ n. n) plane.now block.now samples.now edge.old edge.new result }
{
    prepare_by(edge, samples, plane, block)
}

/// Prepares an edge as [`tilg_intra_edge_8`] does, from samples of 16 bits at a depth of 8, 10 or 12. The call does not
/// test that samples fit the depth.
pub fn tilg_intra_edge_16(
    edge: &mut [u16],
    samples: &[u16],
    plane: &EdgePlane,
    block: &EdgeBlock,
) -> u32
    ensures { PreparesEdge 16 (λ n. n) plane.now block.now samples.now edge.old edge.new result }
{
    prepare_by(edge, samples, plane, block)
}
