//! Stores each leaf's modes and references by luma cell, for the leaves that follow. Only `new` allocates.
//!
//! AV1 specification: intra filter type process, which looks up the blocks above and to the left of one.

ghost use Rattle.std.specs.Prelude.{◌≡◌, ◌+◌, ◌*◌, ◌^◌, ◌<◌, ◌≤◌, length};
ghost use Rattle.av1_frame.specs.Samples.{paint};
ghost use Rattle.av1_order.specs.Neighbours.{last_cell};
ghost use Rattle.av1_tile.specs.PlaneBlocks.{chroma_mode_of, coded_info};

use crate::fill::fill_slice;
use av1_blocks::{OutOfMemory, PredictionMode, RefType};
use av1_frame::{CodedBlockInfo, StoredArea};
use av1_intra::IntraEdgeFilterParameters;
use av1_plan::{ChromaMode, Header, Leaf, LeafKind, PlaneArea};
use std::alloc::Global;

/// The modes and references of the leaf that covers each cell (4x4 luma samples, a mode info unit) of a frame, row by
/// row.
#[derive(Drop)]
pub struct CodedCells {
    pub(crate) cells: Vec<CodedBlockInfo>,
    pub(crate) columns: usize,
    pub(crate) rows: usize,
}

/// The chroma mode of an intra leaf.
fn chroma_mode_of(chroma: Option<ChromaMode>) -> PredictionMode
    ensures { result ≡ chroma_mode_of chroma }
{
    match chroma {
        Some(ChromaMode::Plain { mode, .. }) => mode,
        Some(ChromaMode::Cfl { .. }) => PredictionMode::UV_CFL_PRED,
        None => PredictionMode::DC_PRED,
    }
}

/// The modes and references of a leaf.
fn coded_info(kind: LeafKind) -> CodedBlockInfo
    ensures { result ≡ coded_info kind }
{
    match kind {
        LeafKind::Intra { mode, chroma, .. } => CodedBlockInfo {
            luma_mode: mode,
            chroma_mode: chroma_mode_of(chroma),
            reference_types: [RefType::INTRA_FRAME, RefType::NONE_FRAME],
        },
        LeafKind::Single {
            mode,
            reference,
            ..
        } => CodedBlockInfo {
            luma_mode: mode,
            chroma_mode: mode,
            reference_types: [reference, RefType::NONE_FRAME],
        },
        LeafKind::Compound {
            mode,
            references,
            ..
        } => CodedBlockInfo {
            luma_mode: mode,
            chroma_mode: mode,
            reference_types: references,
        },
    }
}

/// Sets each cell of a rectangle to `info`; a row has `columns` cells.
fn fill_rows(cells: &mut [CodedBlockInfo], columns: usize, area: StoredArea, info: CodedBlockInfo)
    requires some { 0 < columns }
    requires across { area.x + area.width ≤ columns }
    requires down { (area.y + area.height) * columns ≤ length cells.old }
    ensures { cells.new ≡ paint columns area (λ _ _ _. info) cells.old }
{
    for r in 0..area.height {
        let start = (area.y + r) * columns + area.x;
        fill_slice(&mut cells[start..start + area.width], info);
    }
}

/// The luma cell that is read for column (or row) `place` of a plane: the last cell of its unit of 4 samples.
fn last_cell(decimation: usize, place: usize) -> usize
    requires decimation { decimation ≤ 1 }
    requires place { place < 2 ^ 16 }
    ensures { result ≡ last_cell decimation place }
{
    (place / 4 << decimation) + ((1 << decimation) - 1)
}

impl CodedCells {
    ghost use Rattle.std.specs.Prelude.{◌≡◌, ℕ, ◌*◌, ◌/◌, ◌<◌, ◌≤◌, IfOk, [], length};
    ghost use Rattle.av1_plan.specs.Geometry.{coded_width, coded_height, plane_width, plane_height};
    ghost use Rattle.av1_plan.specs.ReadPlans.{IsReadFrame};
    ghost use Rattle.av1_tile.specs.Walk.{cell_at, told_by, parameters_by, with_leaf, HasCells, leaf_with};

    /// Allocates the cells of a frame. Each cell begins as an intra cell with DC modes.
    pub(crate) fn new(alloc: Global, header: &Header) -> Result<CodedCells, OutOfMemory>
        ensures { IfOk result (λ cells. HasCells header.now cells) }
    {
        let columns = header.coded_width() / 4;
        let rows = header.coded_height() / 4;
        let unknown = CodedBlockInfo {
            luma_mode: PredictionMode::DC_PRED,
            chroma_mode: PredictionMode::DC_PRED,
            reference_types: [RefType::INTRA_FRAME, RefType::NONE_FRAME],
        };
        let cells = vec![in alloc; unknown; rows * columns]?;
        Ok(CodedCells {
            cells,
            columns,
            rows,
        })
    }

    /// Lays the cells out for a frame. Their contents are those of the frame before, until a leaf overwrites them.
    pub(crate) fn lay_out(&mut self, header: &Header)
        requires room { coded_height header.now / 4 * (coded_width header.now / 4) ≤ length self.old.cells.items }
        ensures cells { HasCells header.now self.new }
        ensures count { length self.new.cells.items ≡ length self.old.cells.items }
    {
        self.columns = header.coded_width() / 4;
        self.rows = header.coded_height() / 4;
    }

    /// Writes the modes and references of a leaf to each of its cells in the frame.
    #[inline(always)]
    pub(crate) fn note(&mut self, header: &Header, leaf: &Leaf)
        requires frame { IsReadFrame header.now }
        requires cells { HasCells header.now self.old }
        ensures cells { HasCells header.now self.new }
        ensures count { length self.new.cells.items ≡ length self.old.cells.items }
        ensures noted { (cx cy : ℕ) → cx < self.old.columns → cy < self.old.rows
            → cell_at self.new cx cy ≡ with_leaf (cell_at self.old) (leaf_with leaf.now [] [] []) cx cy }
    {
        let x = usize::from(leaf.x / 4).min(self.columns);
        let y = usize::from(leaf.y / 4).min(self.rows);
        let area = StoredArea {
            x,
            y,
            width: (leaf.size.width() / 4).min(self.columns - x),
            height: (leaf.size.height() / 4).min(self.rows - y),
        };
        let columns = self.columns;
        fill_rows(
            self.cells.as_mut_slice(),
            columns,
            area,
            coded_info(leaf.kind),
        );
    }

    /// The modes and references of the cell that is read for column `x` and row `y` of plane `p`.
    fn told(&self, header: &Header, p: usize, x: usize, y: usize) -> CodedBlockInfo
        requires frame { IsReadFrame header.now }
        requires cells { HasCells header.now self.now }
        requires column { x < plane_width header.now p }
        requires row { y < plane_height header.now p }
        ensures { result ≡ told_by header.now (cell_at self.now) p x y }
    {
        let cx = last_cell(header.xdec(p), x);
        let cy = last_cell(header.ydec(p), y);
        self.cells[cy * self.columns + cx]
    }

    /// The parameters for the edge filter, from the neighbours above and left of an area of plane `p`; None if the
    /// filter is off.
    #[inline(always)]
    pub(crate) fn filter_parameters(
        &self,
        header: &Header,
        p: usize,
        area: PlaneArea,
    ) -> Option<IntraEdgeFilterParameters>
        requires frame { IsReadFrame header.now }
        requires cells { HasCells header.now self.now }
        requires column { area.x < plane_width header.now p }
        requires row { area.y < plane_height header.now p }
        ensures { result ≡ parameters_by header.now (cell_at self.now) p area }
    {
        if !header.edge_filter {
            return None;
        }
        let (x, y) = (usize::from(area.x), usize::from(area.y));
        let above = if y > 0 {
            Some(self.told(header, p, x, y - 1))
        } else {
            None
        };
        let left = if x > 0 {
            Some(self.told(header, p, x - 1, y))
        } else {
            None
        };
        Some(IntraEdgeFilterParameters::new(p, above, left))
    }
}
