//! Makes the plan of a tile from its part and the frame's settings and references. Allocates the plan.

ghost use Rattle.std.specs.Prelude.{◌≡◌, ◌+◌, ◌*◌, ◌<◌, ◌≤◌, length, IfOk, IfErr, MatchResult, option_map, vec_len};
ghost use Rattle.av1_plan.specs.declared.error.PlanError.TheVariants.{Memory};
ghost use Rattle.av1_plan.specs.Values.{plan_value, IfMalformed};
ghost use Rattle.av1_plan.specs.Plan.{PlanValue, slot_value, slot_values};
ghost use Rattle.av1_plan.specs.ReadPlans.{ArePlane, IsReadFrame, IsStoredSlot, AreStoredSlots};
ghost use Rattle.av1_plan.specs.Spelling.{AreText, AreRefused};
ghost use Rattle.av1_tiles.specs.Bounds.{AreBounds, IsReadFront, IsReadFile};
ghost use Rattle.av1_tiles.specs.File.{front_value, file_value};
ghost use Rattle.av1_tiles.specs.Grammar.{count_tiles};
ghost use Rattle.av1_tiles.specs.Validity.{IsTile, RefusesTile};
ghost use Rattle.av1_tiles.specs.Tiles.{area_between, tile_area, IsTileArea, tile_header, rectangle, tile_plane, tile_planes, tile_references, tile_plan};
ghost use Rattle.av1_tiles.specs.Tiles.{part_of};

use crate::TileFault;
use crate::area::TileArea;
use crate::error::TileError;
use crate::file::{Front, TileFile};
use av1_plan::{Header, Plan, PlanError, SlotPlanes, check_plan, parse_plan_behind};
use std::alloc::{AllocError, Global};

/// The rectangle between the bounds at a column and a row of tiles and the next bounds.
fn area_between(
    header: &Header,
    columns: &[u16],
    rows: &[u16],
    column: usize,
    row: usize,
) -> TileArea
    requires frame { IsReadFrame header.now }
    requires columns { AreBounds header.now.width columns.now }
    requires rows { AreBounds header.now.height rows.now }
    requires column { column + 1 < length columns.now }
    requires row { row + 1 < length rows.now }
    ensures value { result ≡ area_between columns.now rows.now column row }
    ensures area { IsTileArea header.now result }
{
    let x = columns[column];
    let y = rows[row];
    TileArea {
        x,
        y,
        width: columns[column + 1] - x,
        height: rows[row + 1] - y,
    }
}

/// The rectangle of tile number `index` of a grid, in raster order.
#[tactic(auto, unfolding(crate::specs::Tiles::tile_area))]
pub fn tile_area(front: &Front, index: usize) -> TileArea
    requires read { IsReadFront front.now }
    requires tile { index < count_tiles (front_value front.now) }
    ensures value { result ≡ tile_area (front_value front.now) index }
    ensures area { IsTileArea front.now.header result }
{
    let across = front.columns.len() - 1;
    area_between(
        &front.header,
        &front.columns,
        &front.rows,
        index % across,
        index / across,
    )
}

/// The header of a tile as a frame of its own.
fn tile_header(header: &Header, area: TileArea) -> Header
    requires area { IsTileArea header.now area }
    ensures { result ≡ tile_header header.now area }
{
    Header {
        version: header.version,
        width: area.width,
        height: area.height,
        depth: header.depth,
        sampling: header.sampling,
        filter: header.filter,
        edge_filter: header.edge_filter,
        slots: header.slots,
        mask: header.mask,
    }
}

/// The samples of a rectangle, row by row, from a plane whose rows have `stride` samples.
#[tactic(auto, using(crate::proofs::Rectangles::rows_more, crate::proofs::Rectangles::row_ends), unfolding(crate::specs::Tiles::rectangle))]
fn rectangle(
    alloc: Global,
    samples: &[u16],
    stride: usize,
    x: usize,
    y: usize,
    width: usize,
    height: usize,
) -> Result<Vec<u16>, AllocError>
    requires few { y + height ≤ 65536 }
    requires columns { x + width ≤ stride }
    requires rows { (y + height) * stride ≤ length samples.now }
    ensures { IfOk result (λ cut. cut.items ≡ rectangle stride x y width height samples.now) }
{
    let mut cut = Vec::new(alloc);
    for row in 0..height {
        let start = (y + row) * stride + x;
        cut.extend_from_slice(&samples[start..start + width])?;
    }
    Ok(cut)
}

/// A tile's rectangle of plane `p` of a reference.
#[tactic(auto, unfolding(crate::specs::Tiles::tile_plane))]
fn tile_plane(
    alloc: Global,
    header: &Header,
    area: TileArea,
    p: usize,
    samples: &[u16],
) -> Result<Vec<u16>, AllocError>
    requires frame { IsReadFrame header.now }
    requires area { IsTileArea header.now area }
    requires samples { ArePlane header.now p samples.now }
    ensures { IfOk result (λ cut. cut.items ≡ tile_plane header.now area p samples.now) }
{
    let tile = tile_header(header, area);
    rectangle(
        alloc,
        samples,
        header.shown_columns(p),
        usize::from(area.x) >> header.xdec(p),
        usize::from(area.y) >> header.ydec(p),
        tile.shown_columns(p),
        tile.shown_rows(p),
    )
}

/// A tile's rectangle of each plane of a slot, if the slot carries planes.
fn tile_slot(
    alloc: Global,
    header: &Header,
    area: TileArea,
    slot: usize,
    planes: &Option<SlotPlanes>,
) -> Result<Option<SlotPlanes>, AllocError>
    requires frame { IsReadFrame header.now }
    requires area { IsTileArea header.now area }
    requires slot { IsStoredSlot header.now slot planes.now }
    ensures value { IfOk result (λ cut. slot_value cut ≡ option_map (tile_planes header.now area) (slot_value planes.now)) }
    ensures slot { IfOk result (λ cut. IsStoredSlot (tile_header header.now area) slot cut) }
{
    let Some(planes) = planes else {
        return Ok(None);
    };
    let y = tile_plane(alloc, header, area, 0, &planes.y)?;
    let u = tile_plane(alloc, header, area, 1, &planes.u)?;
    let v = tile_plane(alloc, header, area, 2, &planes.v)?;
    Ok(Some(SlotPlanes { y, u, v }))
}

/// A tile's rectangle of each plane of the eight slots.
fn tile_references(
    alloc: Global,
    header: &Header,
    area: TileArea,
    references: &[Option<SlotPlanes>],
) -> Result<Vec<Option<SlotPlanes>>, PlanError>
    requires frame { IsReadFrame header.now }
    requires area { IsTileArea header.now area }
    requires eight { length references.now ≡ 8 }
    requires slots { AreStoredSlots header.now references.now 8 }
    ensures value { IfOk result (λ cut. slot_values cut.items ≡ tile_references header.now area (slot_values references.now)) }
    ensures eight { IfOk result (λ cut. vec_len cut ≡ 8) }
    ensures slots { IfOk result (λ cut. AreStoredSlots (tile_header header.now area) cut.items 8) }
    ensures memory { IfErr result (λ e. e ≡ Memory) }
{
    let mut cut = Vec::new(alloc);
    for slot in 0..8 {
        let planes = tile_slot(alloc, header, area, slot, &references[slot])?;
        cut.push(planes)?;
    }
    Ok(cut)
}

/// Reads the plan of tile number `index`, in raster order: the tile's dimensions, its rectangle of each reference
/// plane, and the leaves that its part spells.
///
/// # Errors
///
/// `Malformed` gives the start of the first field of the tile's part that is cut off, not valid or left over. It is
/// counted from the part's first byte. `Memory` if memory runs out.
pub fn parse_tile(alloc: Global, file: &TileFile<'_>, index: usize) -> Result<Plan, PlanError>
    requires read { IsReadFile file.now }
    requires tile { index < count_tiles (front_value file.now.front) }
    ensures found { IfOk result (λ p. AreText (tile_plan (front_value file.now.front) index) (part_of (file_value file.now) index) (plan_value p)) }
    ensures refused { IfMalformed result (λ at. AreRefused (tile_plan (front_value file.now.front) index) (part_of (file_value file.now) index) at) }
    ensures only { (p : PlanValue) → AreText (tile_plan (front_value file.now.front) index) (part_of (file_value file.now) index) p
        → MatchResult result (λ x. plan_value x ≡ p) (λ e. e ≡ Memory) }
{
    let front = &file.front;
    let area = tile_area(front, index);
    let header = tile_header(&front.header, area);
    let references = tile_references(alloc, &front.header, area, &front.references)?;
    parse_plan_behind(alloc, header, references, file.parts[index])
}

/// Reads the plan of tile number `index`, and checks it.
///
/// # Errors
///
/// `Refused` with `Malformed` if the tile's part does not spell a plan, as for [`parse_tile`]. Then `Refused` with
/// `Invalid` if a leaf of the plan is bad. `Memory` if memory runs out.
pub fn read_tile(alloc: Global, file: &TileFile<'_>, index: usize) -> Result<Plan, TileError>
    requires read { IsReadFile file.now }
    requires tile { index < count_tiles (front_value file.now.front) }
    ensures found { IfOk result (λ p. IsTile (file_value file.now) index (plan_value p)) }
    ensures refused { IfErr result (λ e. RefusesTile (file_value file.now) index e) }
{
    let plan = match parse_tile(alloc, file, index) {
        Ok(plan) => plan,
        Err(PlanError::Malformed { at }) => {
            return Err(TileError::Refused {
                fault: TileFault::Malformed { at },
            });
        }
        Err(PlanError::Memory) => return Err(TileError::Memory),
    };
    match check_plan(&plan) {
        Ok(()) => Ok(plan),
        Err(invalid) => Err(TileError::Refused {
            fault: TileFault::Invalid {
                leaf: invalid.leaf,
                kind: invalid.kind,
            },
        }),
    }
}
