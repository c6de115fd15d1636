//! Computes how far luma is from its mean for the chroma of a leaf: reads the luma of a tile, writes `ac`.

ghost use Rattle.std.specs.Prelude.{◌≡◌, ℕ, ◌+◌, ◌*◌, ◌^◌, ◌-◌, ◌<◌, ◌≤◌, min, length, take, drop, IsTrue};
ghost use Rattle.std.specs.Borrow.{sem};
ghost use Rattle.av1_blocks.specs.Chroma.{is_narrow, is_low};
ghost use Rattle.av1_frame.specs.Regions.{InStorage};
ghost use Rattle.av1_intra.specs.ChromaFromLuma.{chroma_block, first_luma_column, first_luma_row, columns_read, rows_read, with_rows, leaf_difference};
ghost use Rattle.av1_rav1e.specs.Lending.{LendsBefore};
ghost use Rattle.av1_rav1e.specs.TileLuma.{leaf_in_tile, tile_luma};

use av1_blocks::{BlockSize, TxSize};
use av1_frame::{FrameInvariants, Pixel, TileBlockOffset, TileStateMut};
use av1_intra::{LumaLeaf, leaf_luma_ac};

/// The number of cells along a side of the largest leaf.
const MOST_CELLS: usize = 32;

/// The number of luma samples of a tile that are visible along one direction, as far as a leaf at the cell `cell`
/// reaches. The tile begins at the cell `start` of a frame that has `count` cells.
fn visible_near(count: usize, start: usize, cell: usize) -> usize
    requires { cell + 32 < 2 ^ 62 }
    ensures { result ≡ 4 * min (count - start) (cell + 32) }
{
    4 * count.saturating_sub(start).min(cell + MOST_CELLS)
}

/// The leaf at the cell `tile_bo` of a tile. Visible samples past the leaf have no effect, and are not counted.
fn leaf_in_tile<T: Pixel>(
    ts: &TileStateMut<'_, T>,
    tile_bo: TileBlockOffset,
    bsize: BlockSize,
    tx_size: TxSize,
    fi: &FrameInvariants<T>,
) -> LumaLeaf
    requires column { tile_bo.0.x + 32 < 2 ^ 62 }
    requires row { tile_bo.0.y + 32 < 2 ^ 62 }
    ensures place { result ≡ (let leaf = leaf_in_tile ts.now tile_bo bsize tx_size fi.now in
        record leaf { visible_width = result.visible_width; visible_height = result.visible_height }) }
    ensures block { chroma_block result ≡ chroma_block (leaf_in_tile ts.now tile_bo bsize tx_size fi.now) }
{
    let visible_width = visible_near(fi.w_in_b, ts.sbo.x, tile_bo.0.x);
    let visible_height = visible_near(fi.h_in_b, ts.sbo.y, tile_bo.0.y);
    LumaLeaf {
        x: 4 * tile_bo.0.x,
        y: 4 * tile_bo.0.y,
        bsize,
        tx_size,
        visible_width,
        visible_height,
        xdec: ts.u.plane_cfg.xdec,
        ydec: ts.u.plane_cfg.ydec,
    }
}

/// The first `count` entries of `ac`, for the rest of its lifetime.
fn front<'ac>(ac: &'ac mut [i16], count: usize) -> &'ac mut [i16]
    requires few { count ≤ length ac.old }
    ensures* writes_back { sem 𝓛 (LendsBefore ac.entry (drop count ac.old) result) }
    ensures value { result.now ≡ take count ac.old }
{
    &mut ac[..count]
}

/// Fills `ac` as `luma_ac` says, and returns it with the number of the leaf's entries.
fn filled<'ac, T: Pixel>(
    ac: &'ac mut [i16],
    ts: &mut TileStateMut<'_, T>,
    tile_bo: TileBlockOffset,
    bsize: BlockSize,
    tx_size: TxSize,
    fi: &FrameInvariants<T>,
) -> (&'ac mut [i16], usize)
    requires fits { InStorage ts.old.y }
    requires xdec { ts.old.u.plane_cfg.xdec ≤ 1 }
    requires ydec { ts.old.u.plane_cfg.ydec ≤ ts.old.u.plane_cfg.xdec }
    requires left { IsTrue (is_narrow bsize ts.old.u.plane_cfg.xdec) → 1 ≤ tile_bo.0.x }
    requires top { IsTrue (is_low bsize ts.old.u.plane_cfg.ydec) → 1 ≤ tile_bo.0.y }
    requires ac_long { let b = chroma_block (leaf_in_tile ts.old tile_bo bsize tx_size fi.now) in b.width * b.height ≤ length ac.old }
    requires columns { let leaf = leaf_in_tile ts.old tile_bo bsize tx_size fi.now
        in first_luma_column leaf + columns_read (chroma_block leaf) ≤ ts.old.y.area.width }
    requires rows { let leaf = leaf_in_tile ts.old tile_bo bsize tx_size fi.now in first_luma_row leaf + rows_read (chroma_block leaf) ≤ ts.old.y.area.height }
    requires low { let leaf = leaf_in_tile ts.old tile_bo bsize tx_size fi.now in (x y : ℕ) → x < columns_read (chroma_block leaf) →
        y < rows_read (chroma_block leaf)
        → tile_luma T.num ts.old.y (first_luma_column leaf + x) (first_luma_row leaf + y) < 4096 }
    ensures same { result.0.ghost_name ≡ ac.entry.ghost_name }
    ensures entries { let leaf = leaf_in_tile ts.old tile_bo bsize tx_size fi.now in let b = chroma_block leaf in
        result.0.now ≡ with_rows b.width b.height (leaf_difference (tile_luma T.num ts.old.y) leaf) ac.old }
    ensures count { let b = chroma_block (leaf_in_tile ts.old tile_bo bsize tx_size fi.now) in result.1 ≡ b.width * b.height }
    ensures few { result.1 ≤ length result.0.now }
    ensures stays { ts.new ≡ ts.old }
{
    let leaf = leaf_in_tile(ts, tile_bo, bsize, tx_size, fi);
    leaf_luma_ac(ac, &ts.y.as_const(), leaf);
    (ac, leaf.area())
}

/// Writes to `ac`, row by row, how far the luma over each chroma sample of the leaf at the cell `tile_bo` is from its
/// mean, in eighths, and returns these entries. What a caller writes to them is in `ac` afterwards. The other entries
/// of `ac` are unchanged. See `leaf_luma_ac`, which needs no tile.
pub fn luma_ac<'ac, T: Pixel>(
    ac: &'ac mut [i16],
    ts: &mut TileStateMut<'_, T>,
    tile_bo: TileBlockOffset,
    bsize: BlockSize,
    tx_size: TxSize,
    fi: &FrameInvariants<T>,
) -> &'ac mut [i16]
    requires fits { InStorage ts.old.y }
    requires xdec { ts.old.u.plane_cfg.xdec ≤ 1 }
    requires ydec { ts.old.u.plane_cfg.ydec ≤ ts.old.u.plane_cfg.xdec }
    requires left { IsTrue (is_narrow bsize ts.old.u.plane_cfg.xdec) → 1 ≤ tile_bo.0.x }
    requires top { IsTrue (is_low bsize ts.old.u.plane_cfg.ydec) → 1 ≤ tile_bo.0.y }
    requires ac_long { let b = chroma_block (leaf_in_tile ts.old tile_bo bsize tx_size fi.now) in b.width * b.height ≤ length ac.old }
    requires columns { let leaf = leaf_in_tile ts.old tile_bo bsize tx_size fi.now
        in first_luma_column leaf + columns_read (chroma_block leaf) ≤ ts.old.y.area.width }
    requires rows { let leaf = leaf_in_tile ts.old tile_bo bsize tx_size fi.now in first_luma_row leaf + rows_read (chroma_block leaf) ≤ ts.old.y.area.height }
    requires low { let leaf = leaf_in_tile ts.old tile_bo bsize tx_size fi.now in (x y : ℕ) → x < columns_read (chroma_block leaf) →
        y < rows_read (chroma_block leaf)
        → tile_luma T.num ts.old.y (first_luma_column leaf + x) (first_luma_row leaf + y) < 4096 }
    ensures* writes_back { sem 𝓛 (LendsBefore ac.entry (let leaf = leaf_in_tile ts.old tile_bo bsize tx_size fi.now in let b = chroma_block leaf in
        drop (b.width * b.height) (with_rows b.width b.height (leaf_difference (tile_luma T.num ts.old.y) leaf) ac.old)) result) }
    ensures value { let leaf = leaf_in_tile ts.old tile_bo bsize tx_size fi.now in let b = chroma_block leaf in
        result.now ≡ take (b.width * b.height) (with_rows b.width b.height (leaf_difference (tile_luma T.num ts.old.y) leaf) ac.old) }
    ensures stays { ts.new ≡ ts.old }
{
    let (ac, count) = filled(ac, ts, tile_bo, bsize, tx_size, fi);
    front(ac, count)
}
