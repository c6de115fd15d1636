//! Theorems about coding order and the tables. Each function does nothing: its contract is the theorem.

ghost use Rattle.std.specs.Prelude.{◌≡◌, ℕ, ◌<◌, ◌*◌, ◌^◌, ◌%◌};
ghost use Rattle.av1_blocks.specs.declared.partition.BlockSize.{BlockSize};
ghost use Rattle.av1_avail.specs.Agreement.{TablesFollowOrder};
ghost use Rattle.av1_avail.specs.Order.{AreInTurn};
ghost use Rattle.av1_avail.specs.Stripes.{
  IsUpright,
  IsFlat,
  IsInRaster,
  upright_top_right,
  flat_top_right,
  upright_bottom_left,
  flat_bottom_left,
};
ghost use Rattle.av1_avail.specs.Tables.{block_bit, top_right_table, bottom_left_table};

/// The quarters of an aligned square, with sides of 1 to 8 cells, are coded one after another.
pub fn quarters_are_in_turn()
    ensures { (k nx ny : ℕ) → k < 4 → nx % (2 * 2 ^ k) ≡ 0 → ny % (2 * 2 ^ k) ≡ 0 → AreInTurn (2 ^ k) nx ny }
{}

/// The lists of the 4:1 sizes follow from the lists of the squares of their greater sides, whose stripes they are. In
/// the first column of the raster nothing is said of the samples below left of a flat stripe.
pub fn stripes_follow_squares()
    ensures upright_top_right { (b square : BlockSize) (row column : ℕ) → IsUpright b square → IsInRaster b row column →
        block_bit (top_right_table b) b row column ≡ upright_top_right square row column }
    ensures flat_top_right { (b square : BlockSize) (row column : ℕ) → IsFlat b square → IsInRaster b row column →
        block_bit (top_right_table b) b row column ≡ flat_top_right square row column }
    ensures upright_bottom_left { (b square : BlockSize) (row column : ℕ) → IsUpright b square → IsInRaster b row column →
        block_bit (bottom_left_table b) b row column ≡ upright_bottom_left square row column }
    ensures flat_bottom_left { (b square : BlockSize) (row column : ℕ) → IsFlat b square → IsInRaster b row column → 0 < column →
        block_bit (bottom_left_table b) b row column ≡ flat_bottom_left square row column }
{}

/// For each transform that tiles a block with sides up to 64, in a plane halved or not, the tables say what coding
/// order says for every unit of the run above right of it, and of the run below left of it.
pub fn tables_follow_order()
    ensures { TablesFollowOrder }
{}
