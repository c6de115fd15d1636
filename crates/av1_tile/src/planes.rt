//! The three planes of a picture. `Planes::new` allocates them, and `row` lends a visible row.

ghost use Rattle.std.specs.Prelude.{◌≡◌, ◌/◌, ◌^◌, ◌<◌, ◌≤◌, All, IfOk, map};
ghost use Rattle.av1_frame.specs.Planes.{sample_at};
ghost use Rattle.av1_lists.specs.Lists.{by_index};
ghost use Rattle.av1_plan.specs.Geometry.{shown_columns, shown_rows};
ghost use Rattle.av1_plan.specs.ReadPlans.{IsReadFrame};
ghost use Rattle.av1_tile.specs.Walk.{HasPad, HasRoomIn, ShowsPart, Stores};

use av1_blocks::OutOfMemory;
use av1_frame::{Pixel, Plane};
use av1_plan::Header;
use std::alloc::Global;

/// The three planes of a picture.
#[derive(Drop)]
pub struct Planes<T> {
    /// Luma.
    pub y: Plane<T>,
    /// The first chroma plane.
    pub u: Plane<T>,
    /// The second chroma plane.
    pub v: Plane<T>,
}

/// The number of samples that `pad` luma samples are in a direction with this decimation (0, or 1 for a halved plane).
fn pad_of(pad: usize, decimation: usize) -> usize
    requires { decimation ≤ 1 }
    ensures value { result ≡ pad / 2 ^ decimation }
    ensures few { result ≤ pad }
{
    pad >> decimation
}

/// A plane of zeros with the coded width and height of plane `p` (0 for Y, 1 for U and 2 for V) of a frame. Its pad has
/// `pad` samples on every side, or half as many in a direction in which the plane is halved.
///
/// It has storage for whole superblocks. The only error is running out of memory.
fn plane_of_frame<T: Pixel>(
    alloc: Global,
    header: &Header,
    p: usize,
    pad: usize,
) -> Result<Plane<T>, OutOfMemory>
    requires frame { IsReadFrame header.now }
    requires pad { pad ≤ 256 }
    ensures stores { IfOk result (λ plane. Stores T.num header.now p plane) }
    ensures room { IfOk result (λ plane. HasRoomIn header.now p plane.plane_cfg) }
    ensures pad { IfOk result (λ plane. HasPad header.now p pad plane.plane_cfg) }
    ensures zeros { IfOk result (λ plane. All (λ v. v ≡ T.pixel 0) plane.samples) }
{
    let xdec = header.xdec(p);
    let ydec = header.ydec(p);
    Plane::new(
        alloc,
        header.plane_width(p),
        header.plane_height(p),
        xdec,
        ydec,
        pad_of(pad, xdec),
        pad_of(pad, ydec),
    )
}

/// Row `y` of the visible part of plane `p` (0 for Y, 1 for U and 2 for V) of a frame.
pub fn visible_row<'a, T: Pixel>(
    plane: &'a Plane<T>,
    header: &Header,
    p: usize,
    y: usize,
) -> &'a [T]
    requires place { ShowsPart header.now p plane.now }
    requires in_plane { y < shown_rows header.now p }
    ensures { map T.num result.now ≡ by_index (shown_columns header.now p) (λ x. sample_at T.num plane.now x y) }
{
    plane.run(0, y, header.shown_columns(p))
}

impl<T: Pixel> Planes<T> {
    ghost use Rattle.std.specs.Prelude.{◌≡◌, ◌<◌, ◌≤◌, IfOk, map};
    ghost use Rattle.av1_frame.specs.Planes.{sample_at};
    ghost use Rattle.av1_lists.specs.Lists.{by_index};
    ghost use Rattle.av1_plan.specs.Geometry.{shown_columns, shown_rows};
    ghost use Rattle.av1_plan.specs.ReadPlans.{IsReadFrame};
    ghost use Rattle.av1_tile.specs.PlaneBlocks.{component};
    ghost use Rattle.av1_tile.specs.Walk.{AreFilledWith, AreFrame, HasPads, HasRoom, plane_of, StoresAll};

    /// Planes of zeros for a frame, padded to whole superblocks. Each also has a pad of `pad` samples on every side, or
    /// half as many in a direction in which the plane is halved. The only error is running out of memory.
    pub fn new(alloc: Global, header: &Header, pad: usize) -> Result<Planes<T>, OutOfMemory>
        requires frame { IsReadFrame header.now }
        requires pad { pad ≤ 256 }
        ensures stores { IfOk result (λ planes. StoresAll T.num header.now planes) }
        ensures room { IfOk result (λ planes. HasRoom header.now planes) }
        ensures pads { IfOk result (λ planes. HasPads header.now pad planes) }
        ensures zeros { IfOk result (λ planes. AreFilledWith (T.pixel 0) planes) }
    {
        let y = plane_of_frame(alloc, header, 0, pad)?;
        let u = plane_of_frame(alloc, header, 1, pad)?;
        let v = plane_of_frame(alloc, header, 2, pad)?;
        Ok(Planes { y, u, v })
    }

    /// Row `y` of the visible part of plane `p` (0 for Y, 1 for U and 2 for V) of a frame.
    #[tactic(auto, using(crate::proofs::Pictures::shows_part))]
    pub fn row(&self, header: &Header, p: usize, y: usize) -> &[T]
        requires frame { AreFrame header.now self.now }
        requires plane { p < 3 }
        requires in_plane { y < shown_rows header.now p }
        ensures { map T.num result.now ≡ by_index (shown_columns header.now p) (λ x. sample_at T.num (plane_of (component p) self.now) x y) }
    {
        match p {
            0 => visible_row(&self.y, header, 0, y),
            1 => visible_row(&self.u, header, 1, y),
            _ => visible_row(&self.v, header, 2, y),
        }
    }
}
