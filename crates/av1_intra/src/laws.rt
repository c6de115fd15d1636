//! Theorems about intra prediction. Each function does nothing: its contract is the theorem.

ghost use Rattle.std.specs.Prelude.{◌≡◌, ◌≢◌, ℤ, pos, ◌+ℤ◌, ◌*ℤ◌, unsigned_abs, ℕ, ◌+◌, ◌-◌, ◌*◌, ◌^◌, ◌<◌, ◌≤◌, IsTrue, FitsSigned, Bool};
ghost use Rattle.av1_blocks.specs.declared.predict.PredictionMode.{PredictionMode};
ghost use Rattle.av1_blocks.specs.Modes.{intra_mode_to_angle, is_directional};
ghost use Rattle.av1_intra.specs.Angles.{derivative, is_interpolated};
ghost use Rattle.av1_intra.specs.Directional.{entry};
ghost use Rattle.std.specs.Int.{w16};
ghost use Rattle.av1_blocks.specs.declared.predict.IntraParam.{IntraParam};
ghost use Rattle.av1_edges.specs.Parts.{effective, step_of, prepared_parts};
ghost use Rattle.av1_edges.specs.Sides.{where_needed};
ghost use Rattle.av1_edges.specs.Edges.{Edge};
ghost use Rattle.av1_edges.specs.Within.{EdgeIsWithin};
ghost use Rattle.av1_intra.specs.declared.directional.DirectionalBlock.{DirectionalBlock};
ghost use Rattle.av1_intra.specs.declared.variant.PredictionVariant.{PredictionVariant};
ghost use Rattle.av1_intra.specs.declared.luma.LumaLeaf.{LumaLeaf};
ghost use Rattle.av1_intra.specs.ChromaFromLuma.{chroma_block, columns_read, rows_read, first_luma_column, first_luma_row, leaf_difference};
ghost use Rattle.av1_intra.specs.Predicted.{predicted, variant_at, angle_or_alpha, places_above, places_left};

/// Every entry that a line reads lies on its side, whether the side is upsampled or not. A side has the corner and as
/// many places as the angle requires. Below 90 degrees the definition itself stops at the last place.
///
/// Between 90 and 180 degrees, a line that misses the side above meets the left side below the corner. So no line
/// misses both.
pub fn lines_meet_their_sides()
    ensures above { (p w u i j : ℕ) → IsTrue (is_interpolated p) → 90 < p → p < 180 → u ≤ 1 → w ≤ 64 → j < w
        → (i + 1) * derivative (180 - p) ≤ 64 * (j + 1)
        → entry u (64 * (j + 1) - (i + 1) * derivative (180 - p)) 0 + 1 ≤ w * 2 ^ u }
    ensures not_past_both { (p i j : ℕ) → IsTrue (is_interpolated p) → 90 < p → p < 180
        → 64 * (j + 1) < (i + 1) * derivative (180 - p) → (j + 1) * derivative (p - 90) < 64 * (i + 1) }
    ensures left { (p h u i j : ℕ) → IsTrue (is_interpolated p) → 90 < p → p < 180 → u ≤ 1 → h ≤ 64 → i < h
        → 64 * (j + 1) < (i + 1) * derivative (180 - p)
        → entry u (64 * (i + 1) - (j + 1) * derivative (p - 90)) 0 + 1 ≤ h * 2 ^ u }
    ensures past_180 { (p w h u i j : ℕ) → IsTrue (is_interpolated p) → 180 < p → u ≤ 1 → i < h → j < w
        → entry u ((j + 1) * derivative (270 - p) + 64) i + 1 ≤ (w + h) * 2 ^ u }
{}

/// A directional mode with an angle delta of at most three steps of 3 degrees has an angle that `pred_directional_to`
/// accepts, except 90 and 180.
pub fn modes_have_angles()
    ensures { (mode : PredictionMode) (step : ℤ) (p : ℕ) → IsTrue (is_directional mode) → unsigned_abs step ≤ 3
        → pos p ≡ intra_mode_to_angle mode +ℤ pos 3 *ℤ step → p ≢ 90 → p ≢ 180 → IsTrue (is_interpolated p) }
{}

/// Luma's differences from its mean fit 16 bits in each chroma block of a leaf, if its luma samples have at most 12
/// bits.
pub fn luma_differences_fit()
    ensures { (luma : ℕ → ℕ → ℕ) (leaf : LumaLeaf) (r c : ℕ) → leaf.xdec ≤ 1 → leaf.ydec ≤ leaf.xdec → r < (chroma_block leaf).height →
        c < (chroma_block leaf).width
        → ((x y : ℕ) → x < columns_read (chroma_block leaf) → y < rows_read (chroma_block leaf) →
        luma (first_luma_column leaf + x) (first_luma_row leaf + y) < 4096)
        → FitsSigned w16 (leaf_difference luma leaf r c) }
{}

/// An edge that is prepared for an intra mode at column x of row y, of w by h samples, has enough places above and to
/// the left. The mode that is then in effect reads no more.
pub fn prepared_edges_suffice()
    ensures above { (filter : Bool) (mode : PredictionMode) (param : IntraParam) (x y w h : ℕ) →
        let m = effective mode x y in
        places_above m (variant_at x y)
        (unsigned_abs (angle_or_alpha m param)) w h ≤ w + where_needed (prepared_parts filter (Some mode) (step_of param) x y w h).above_right h }
    ensures left { (filter : Bool) (mode : PredictionMode) (param : IntraParam) (x y w h : ℕ) → unsigned_abs (step_of param) ≤ 3 →
        let m = effective mode x y in let parts = prepared_parts filter (Some mode) (step_of param) x y w h in
        places_left m (variant_at x y) (unsigned_abs (angle_or_alpha m param)) w h ≤ where_needed parts.left h + where_needed parts.below_left w }
{}

/// A sample that is predicted from an edge within the depth also lies within the depth, for every mode, luma and
/// weight.
pub fn predictions_lie_within()
    ensures { (b : DirectionalBlock) (v : PredictionVariant) (mode : PredictionMode) (alpha : ℤ) (ac : ℕ → ℕ → ℤ) (e : Edge) (r c : ℕ) → 8 ≤ b.bit_depth →
        EdgeIsWithin b.bit_depth e
        → predicted b v mode alpha ac e r c < 2 ^ b.bit_depth }
{}
