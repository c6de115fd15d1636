//! Sums the visible samples of a plane. Changes nothing.
ghost use Rattle.std.specs.Prelude.{◌≡◌, ◌<◌, sum};
ghost use Rattle.av1_tile.specs.PlaneBlocks.{shown_of, component};
ghost use Rattle.av1_tile.specs.State.{IsSound, state_header, shown};
ghost use Rattle.av1_tile.specs.Output.{by_rows};

use crate::TileState;
use av1_frame::Pixel;
use av1_intra::sum_of;
use av1_plan::Header;

/// The sum of the visible samples of plane `p`: 0 for Y, 1 for U and 2 for V.
pub fn plane_sum<T: Pixel>(state: &TileState<T>, p: usize) -> u64
    requires sound { IsSound T.num state.now }
    requires plane { p < 3 }
    ensures { result ≡ sum (by_rows (shown_of (state_header state.now) p) (shown T.num state.now (component p))) }
{
    rows_sum(state, *state.header(), p)
}

// The sum of the rows of plane `p` of a state with this header, whose width and height have 16 bits.
#[tactic(auto, using(crate::proofs::RowSums::row_within))]
fn rows_sum<T: Pixel>(state: &TileState<T>, header: Header, p: usize) -> u64
    requires sound { IsSound T.num state.now }
    requires made { header ≡ state_header state.now }
    requires plane { p < 3 }
    ensures { result ≡ sum (by_rows (shown_of (state_header state.now) p) (shown T.num state.now (component p))) }
{
    let mut total = 0;
    for y in 0..header.shown_rows(p) {
        total += u64::from(sum_of(state.row(p, y)));
    }
    total
}
