//! Reconstructs a tile, and copies it to the planes of its frame. Writes these planes; allocates the tile's own.

ghost use Rattle.std.specs.Prelude.{◌≡◌, ◌<◌, ◌≤◌, length, slice_index, ◌≢◌, ℕ, None, OnOk, OnErr, IfOk, IfErr};
ghost use Rattle.av1_frame.specs.Planes.{InPlane, painted_plane};
ghost use Rattle.av1_frame.specs.Regions.{InStorage, painted};
ghost use Rattle.av1_frame.specs.Samples.{paint_row};
ghost use Rattle.av1_plan.specs.Geometry.{shown_columns, shown_rows};
ghost use Rattle.av1_plan.specs.Values.{plan_value};
ghost use Rattle.av1_plan.specs.Validity.{first_fault};
ghost use Rattle.av1_tile.specs.Memory.{HasRoomFor, ShowsPlan, ShowsScene};
ghost use Rattle.av1_tile.specs.Reference.{Scene};
ghost use Rattle.av1_plan.specs.ReadPlans.{IsReadFrame};
ghost use Rattle.av1_tile.specs.Canvas.{Component};
ghost use Rattle.av1_tile.specs.PlaneBlocks.{number};
ghost use Rattle.av1_tile.specs.Walk.{AreFrame, IsPlaneOf, ServesScene, plane_of, samples_of};
ghost use Rattle.av1_plan.specs.Plan.{PlanValue};
ghost use Rattle.av1_tiles.specs.Bounds.{IsReadFile};
ghost use Rattle.av1_tiles.specs.File.{front_value, file_value};
ghost use Rattle.av1_tiles.specs.Grammar.{count_tiles};
ghost use Rattle.av1_tiles.specs.Validity.{IsTile, RefusesTile};
ghost use Rattle.av1_tiles.specs.Joined.{placed, row_in, tile_rectangle, ShowsTile};
ghost use Rattle.av1_tiles.specs.Tiles.{IsTileArea, tile_header, tile_scene, corner_column, corner_row};
ghost use Rattle.av1_tiles.specs.Seen.{IsAtTile, SeesFront};

use crate::area::TileArea;
use crate::error::TileError;
use crate::file::TileFile;
use crate::tile::{read_tile, tile_area};
use av1_blocks::OutOfMemory;
use av1_frame::{FrameInvariants, Pixel, Plane, PlaneRegionMut, TileRect, copy_row, visible_area};
use av1_plan::{Header, Plan};
use av1_tile::{Planes, TileReferences, WalkMemory, frame_invariants};
use std::alloc::Global;

/// A reconstructed tile: its settings as a frame of its own, and its planes.
#[derive(Drop)]
pub struct TilePicture<T: Pixel> {
    /// The settings.
    pub header: Header,
    /// The planes.
    pub planes: Planes<T>,
}

/// Copies the visible row `y` of plane `p` of the tile to the front of `row`. The tile has `width` columns.
fn copy_tile_row<T: Pixel>(row: &mut [T], tile: &TilePicture<T>, p: usize, y: usize, width: usize)
    requires tile { AreFrame tile.now.header tile.now.planes }
    requires plane { p < 3 }
    requires in_plane { y < shown_rows tile.now.header p }
    requires columns { width ≡ shown_columns tile.now.header p }
    requires row_long { width ≤ length row.old }
    ensures { row.new ≡ paint_row width (λ c _. T.pixel (slice_index (row_in T.num tile.now.header tile.now.planes p y) c)) row.old }
{
    copy_row(row, tile.planes.row(&tile.header, p, y), width);
}

/// Copies the visible plane `p` of the tile to the first rows of the region.
#[tactic(auto, using(av1_frame::proofs::Fits::row_end_le, av1_frame::proofs::Regions::region_painting))]
fn copy_rows<T: Pixel>(
    output: &mut PlaneRegionMut<'_, T>,
    tile: &TilePicture<T>,
    p: usize,
    width: usize,
    height: usize,
)
    requires tile { AreFrame tile.now.header tile.now.planes }
    requires plane { p < 3 }
    requires columns { width ≡ shown_columns tile.now.header p }
    requires rows { height ≡ shown_rows tile.now.header p }
    requires fits { InStorage output.old }
    requires columns_fit { width ≤ output.old.area.width }
    requires rows_fit { height ≤ output.old.area.height }
    ensures painted { output.new ≡ painted output.old width height (λ r c _. T.pixel (slice_index (row_in T.num tile.now.header tile.now.planes p r) c)) }
    ensures fits { InStorage output.new }
{
    for r in 0..height {
        copy_tile_row(output.row_mut(r), tile, p, r, width);
    }
}

/// Copies the visible plane `p` of the tile to the rectangle of `plane` at column `x` of row `y`.
fn place_plane<T: Pixel>(plane: &mut Plane<T>, tile: &TilePicture<T>, p: usize, x: usize, y: usize)
    requires tile { AreFrame tile.now.header tile.now.planes }
    requires plane { p < 3 }
    requires fits { InPlane (placed tile.now.header p x y) plane.old }
    ensures { plane.new ≡ painted_plane plane.old (placed tile.now.header p x y)
        (λ r c _. T.pixel (slice_index (row_in T.num tile.now.header tile.now.planes p r) c)) }
{
    let width = tile.header.shown_columns(p);
    let height = tile.header.shown_rows(p);
    copy_rows(
        &mut plane.region_mut(visible_area(x, y, width, height)),
        tile,
        p,
        width,
        height,
    );
}

/// The column and the row of plane `p` at which a tile begins, in samples of the plane.
fn corner(header: &Header, area: TileArea, p: usize) -> (usize, usize)
    ensures column { result.0 ≡ corner_column header.now area p }
    ensures row { result.1 ≡ corner_row header.now area p }
{
    (
        usize::from(area.x) >> header.xdec(p),
        usize::from(area.y) >> header.ydec(p),
    )
}

/// Copies the visible plane `p` of the tile to the tile's rectangle of its frame's plane.
fn place_in<T: Pixel>(
    plane: &mut Plane<T>,
    header: &Header,
    area: TileArea,
    p: usize,
    tile: &TilePicture<T>,
)
    requires tile { AreFrame tile.now.header tile.now.planes }
    requires made { tile.now.header ≡ tile_header header.now area }
    requires frame { IsReadFrame header.now }
    requires area { IsTileArea header.now area }
    requires below { p < 3 }
    requires plane { IsPlaneOf header.now p plane.old }
    ensures painted { plane.new ≡ painted_plane plane.old (tile_rectangle header.now area p)
        (λ r c _. T.pixel (slice_index (row_in T.num tile.now.header tile.now.planes p r) c)) }
    ensures plane { IsPlaneOf header.now p plane.new }
{
    let (x, y) = corner(header, area, p);
    place_plane(plane, tile, p, x, y);
}

/// Copies the visible planes of the tile to the tile's rectangles of its frame's planes.
pub fn place_tile<T: Pixel>(
    planes: &mut Planes<T>,
    header: &Header,
    area: TileArea,
    tile: &TilePicture<T>,
)
    requires tile { AreFrame tile.now.header tile.now.planes }
    requires made { tile.now.header ≡ tile_header header.now area }
    requires frame { IsReadFrame header.now }
    requires area { IsTileArea header.now area }
    requires planes { AreFrame header.now planes.old }
    ensures planes { AreFrame header.now planes.new }
    ensures placed { (component : Component) →
        plane_of component planes.new ≡ painted_plane (plane_of component planes.old) (tile_rectangle header.now area (number component))
        (λ r c _. T.pixel (slice_index (row_in T.num tile.now.header tile.now.planes (number component) r) c)) }
{
    place_in(&mut planes.y, header, area, 0, tile);
    place_in(&mut planes.u, header, area, 1, tile);
    place_in(&mut planes.v, header, area, 2, tile);
}

/// Reconstructs a valid plan in this memory, and returns its picture. The error is that memory ran out.
pub fn reconstruct_alone<T: Pixel>(
    alloc: Global,
    plan: &Plan,
    memory: &mut WalkMemory<T>,
) -> Result<TilePicture<T>, OutOfMemory>
    requires valid { first_fault (plan_value plan.now) ≡ None }
    requires depth { (plan_value plan.now).header.depth ≤ T.BITS }
    requires room { HasRoomFor (plan_value plan.now).header memory.old }
    ensures header { IfOk result (λ tile. tile.header ≡ (plan_value plan.now).header) }
    ensures frame { IfOk result (λ tile. AreFrame tile.header tile.planes) }
    ensures shown { IfOk result (λ tile. ShowsPlan T.num (plan_value plan.now) tile.planes) }
    ensures cells { memory.new.cells ≡ memory.old.cells }
{
    let header = *plan.header();
    let fi = frame_invariants(alloc, plan)?;
    let mut planes = Planes::new(alloc, &header, 0)?;
    memory.reconstruct(&mut planes, &fi, &header, plan.leaves_with_triples());
    Ok(TilePicture { header, planes })
}

/// The references for a tile whose motion reads whole planes, with the position of the tile in its frame.
fn references_of<'a, T>(
    fi: &'a FrameInvariants<T>,
    header: &Header,
    area: TileArea,
) -> TileReferences<'a, T>
    requires frame { IsReadFrame header.now }
    requires area { IsTileArea header.now area }
    ensures frame { result.fi.now ≡ fi.now }
    ensures place { IsAtTile header.now area result }
{
    TileReferences {
        fi,
        luma: rect_in(header, area, 0),
        chroma: rect_in(header, area, 1),
    }
}

/// A tile's rectangle of plane `p` of its frame.
fn rect_in(header: &Header, area: TileArea, p: usize) -> TileRect
    requires frame { IsReadFrame header.now }
    requires area { IsTileArea header.now area }
    ensures column { result.x ≡ corner_column header.now area p }
    ensures row { result.y ≡ corner_row header.now area p }
{
    let (x, y) = corner(header, area, p);
    let (xdec, ydec) = (header.xdec(p), header.ydec(p));
    TileRect {
        x,
        y,
        width: (usize::from(area.width) + xdec) >> xdec,
        height: (usize::from(area.height) + ydec) >> ydec,
    }
}

/// Reconstructs a tile with this valid plan in this memory, and returns its picture. Motion reads the references of the
/// whole frame. The error is that memory ran out.
fn reconstruct_in_frame<T: Pixel>(
    alloc: Global,
    plan: &Plan,
    from: &TileReferences<'_, T>,
    memory: &mut WalkMemory<T>,
) -> Result<TilePicture<T>, OutOfMemory>
    requires valid { first_fault (plan_value plan.now) ≡ None }
    requires depth { (plan_value plan.now).header.depth ≤ T.BITS }
    requires room { HasRoomFor (plan_value plan.now).header memory.old }
    requires serves { (scene : Scene) × (ServesScene T.num scene from.now × (scene.header ≡ (plan_value plan.now).header)) }
    ensures header { IfOk result (λ tile. tile.header ≡ (plan_value plan.now).header) }
    ensures frame { IfOk result (λ tile. AreFrame tile.header tile.planes) }
    ensures shown { IfOk result (λ tile. (scene : Scene) → ServesScene T.num scene from.now → scene.header ≡ (plan_value plan.now).header →
        ShowsScene T.num scene (plan_value plan.now).leaves tile.planes) }
    ensures cells { memory.new.cells ≡ memory.old.cells }
{
    let header = *plan.header();
    let mut planes = Planes::new(alloc, &header, 0)?;
    memory.reconstruct_tile(&mut planes, from, &header, plan.leaves_with_triples());
    Ok(TilePicture { header, planes })
}

/// Reconstructs tile number `index` with its valid plan in this memory, and returns its picture. `seen` has the
/// references of the whole frame if motion reads these. The error is that memory ran out.
fn reconstruct_picture<T: Pixel>(
    alloc: Global,
    plan: &Plan,
    file: &TileFile<'_>,
    index: usize,
    seen: &Option<FrameInvariants<T>>,
    memory: &mut WalkMemory<T>,
) -> Result<TilePicture<T>, OutOfMemory>
    requires read { IsReadFile file.now }
    requires tile { index < count_tiles (front_value file.now.front) }
    requires depth { (plan_value plan.now).header.depth ≤ T.BITS }
    requires plan { IsTile (file_value file.now) index (plan_value plan.now) }
    requires seen { SeesFront T.num file.now.front seen.now }
    requires room { HasRoomFor (plan_value plan.now).header memory.old }
    ensures header { IfOk result (λ tile. tile.header ≡ (plan_value plan.now).header) }
    ensures frame { IfOk result (λ tile. AreFrame tile.header tile.planes) }
    ensures shown { IfOk result (λ tile.
        ShowsScene T.num (tile_scene (front_value file.now.front) index (plan_value plan.now)) (plan_value plan.now).leaves tile.planes) }
    ensures cells { memory.new.cells ≡ memory.old.cells }
{
    match seen {
        Some(fi) => {
            let header = &file.front.header;
            let from = references_of(fi, header, tile_area(&file.front, index));
            reconstruct_in_frame(alloc, plan, &from, memory)
        }
        None => reconstruct_alone(alloc, plan, memory),
    }
}

/// Reconstructs one tile in this memory, and copies it to the planes of its frame. `seen` has the references of the
/// whole frame if motion reads these. After an error the planes are unchanged.
pub fn reconstruct_in<T: Pixel>(
    alloc: Global,
    planes: &mut Planes<T>,
    file: &TileFile<'_>,
    index: usize,
    seen: &Option<FrameInvariants<T>>,
    memory: &mut WalkMemory<T>,
) -> Result<(), TileError>
    requires read { IsReadFile file.now }
    requires tile { index < count_tiles (front_value file.now.front) }
    requires depth { file.now.front.header.depth ≤ T.BITS }
    requires seen { SeesFront T.num file.now.front seen.now }
    requires planes { AreFrame file.now.front.header planes.old }
    requires room { HasRoomFor file.now.front.header memory.old }
    // The tile's samples are those of its plan, and the samples of all other tiles are unchanged.
    ensures done { OnOk result ((plan : PlanValue) × IsTile (file_value file.now) index plan ×
        ShowsTile (front_value file.now.front) index plan (samples_of T.num planes.new)
        × ((other : ℕ) (plan : PlanValue) → other < count_tiles (front_value file.now.front) → other ≢ index
        → ShowsTile (front_value file.now.front) other plan (samples_of T.num planes.old) →
        ShowsTile (front_value file.now.front) other plan (samples_of T.num planes.new))) }
    ensures untouched { OnErr result (planes.new ≡ planes.old) }
    ensures planes { AreFrame file.now.front.header planes.new }
    ensures cells { memory.new.cells ≡ memory.old.cells }
    ensures refused { IfErr result (λ e. RefusesTile (file_value file.now) index e) }
{
    let plan = read_tile(alloc, file, index)?;
    let tile = reconstruct_picture(alloc, &plan, file, index, seen, memory)?;
    place_tile(
        planes,
        &file.front.header,
        tile_area(&file.front, index),
        &tile,
    );
    Ok(())
}
