//! An edge as three borrowed slices: the samples to the left, the corner, the samples above. Writes nothing.

ghost use Rattle.std.specs.Prelude.{◌≡◌, length};

use av1_frame::Pixel;

/// The samples round a transform: to its left from the bottom up, the corner above and left of it, and above it from
/// left to right. Samples below left come first in the left side, and samples above right last in the side above.
#[derive(Clone, Copy)]
pub struct IntraEdge<'a, T> {
    pub(crate) left: &'a [T],
    pub(crate) top_left: &'a [T],
    pub(crate) above: &'a [T],
}

/// The number of places of an edge on each side of its corner.
#[derive(Clone, Copy, Debug, PartialEq, Eq)]
pub struct EdgePlaces {
    /// To the left, and below that.
    pub left: usize,
    /// Above, and to the right of that.
    pub above: usize,
}

impl<'a, T: Pixel> IntraEdge<'a, T> {
    /// An edge of these samples: to the left from the bottom up, the corner, which is one sample, and above.
    pub fn from_slices(left: &'a [T], top_left: &'a [T], above: &'a [T]) -> IntraEdge<'a, T>
        requires { length top_left.now ≡ 1 }
        ensures left { result.left.now ≡ left.now }
        ensures top_left { result.top_left.now ≡ top_left.now }
        ensures above { result.above.now ≡ above.now }
    {
        IntraEdge {
            left,
            top_left,
            above,
        }
    }

    /// The samples to the left from the bottom up, the corner, and the samples above.
    pub fn as_slices(&self) -> (&'a [T], &'a [T], &'a [T])
        ensures left { result.0.now ≡ self.now.left.now }
        ensures top_left { result.1.now ≡ self.now.top_left.now }
        ensures above { result.2.now ≡ self.now.above.now }
    {
        (self.left, self.top_left, self.above)
    }
}
