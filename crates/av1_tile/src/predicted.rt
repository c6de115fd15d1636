//! Keeps the predictions of a frame's visible samples, if a caller asks for them. Only `new` allocates.

ghost use Rattle.std.specs.Prelude.{◌≡◌, ◌+◌, ◌*◌, ◌<◌, length};
ghost use Rattle.av1_frame.specs.Areas.{AreRows};
ghost use Rattle.av1_frame.specs.Planes.{InPlane, sample_at};
ghost use Rattle.av1_frame.specs.Samples.{paint};
ghost use Rattle.av1_tile.specs.Motion.{visible_in};

use av1_blocks::OutOfMemory;
use av1_frame::{Pixel, Plane, StoredArea, copy_row, zero_samples};
use av1_plan::Header;
use std::alloc::Global;
use std::marker::Model;

/// Copies the rectangle `area` of a plane to the same positions of `samples`, whose rows are `width` long.
#[inline(never)]
#[tactic(auto, using(av1_frame::proofs::Paint::rectangle_painting))]
fn copy_area<T: Pixel>(samples: &mut [T], width: usize, plane: &Plane<T>, area: StoredArea)
    requires rows { AreRows width area (length samples.old) }
    requires stored { InPlane (visible_in area) plane.now }
    ensures { samples.new ≡ paint width area (λ r c _. T.pixel (sample_at T.num plane.now (area.x + c) (area.y + r))) samples.old }
{
    for r in 0..area.height {
        let (_, row) = samples.split_at_mut((area.y + r) * width + area.x);
        copy_row(row, plane.run(area.x, area.y + r, area.width), area.width);
    }
}

/// The predictions of the visible samples of a plane, row by row. It may have no rows; then it keeps nothing.
#[derive(Drop)]
pub struct PredictedPlane<T> {
    width: usize,
    height: usize,
    samples: Vec<T>,
}

impl<T> Model for PredictedPlane<T> {
    ghost use Rattle.std.specs.Prelude.{◌≡◌, ◌*◌, ◌<◌, ◌^◌, vec_len};
    ghost use Rattle.av1_tile.specs.SampleRows.{SampleRows};

    ghost Value = { SampleRows T };

    ghost view = { λ p. record { width = p.width; samples = p.samples.items } };

    ghost invariant = { λ p. (vec_len p.samples ≡ p.height * p.width) × (p.height * p.width < 2 ^ 63) };
}

impl<T: Pixel> PredictedPlane<T> {
    ghost use Rattle.std.specs.Prelude.{◌≡◌, IfOk, [], ◌<◌};
    ghost use Rattle.av1_frame.specs.Planes.{InPlane};
    ghost use Rattle.av1_plan.specs.ReadPlans.{IsReadFrame};
    ghost use Rattle.av1_tile.specs.Motion.{visible_in};
    ghost use Rattle.av1_tile.specs.Predicted.{copied, no_rows};

    /// A plane without rows, which keeps nothing.
    pub(crate) fn none(alloc: Global) -> PredictedPlane<T>
        ensures { result ≡ record { width = 0; samples = [] } }
    {
        PredictedPlane {
            width: 0,
            height: 0,
            samples: Vec::new(alloc),
        }
    }

    /// Zeros for each visible sample of plane `p` of a frame. The only error is running out of memory.
    pub(crate) fn new(
        alloc: Global,
        header: &Header,
        p: usize,
    ) -> Result<PredictedPlane<T>, OutOfMemory>
        requires frame { IsReadFrame header.now }
        ensures { IfOk result (λ plane. plane ≡ no_rows T.pixel header.now p) }
    {
        let width = header.shown_columns(p);
        let height = header.shown_rows(p);
        Ok(PredictedPlane {
            width,
            height,
            samples: zero_samples(alloc, height * width)?,
        })
    }

    /// The predicted samples, row by row.
    pub fn samples(&self) -> &[T]
        ensures { result.now ≡ self.now.samples }
    {
        self.samples.as_slice()
    }

    /// Copies the visible part of the rectangle `area` of a plane.
    #[inline(always)]
    pub(crate) fn keep(&mut self, plane: &Plane<T>, area: StoredArea)
        requires { InPlane (visible_in area) plane.now }
        ensures { self.new ≡ copied T.num T.pixel plane.now area self.old }
    {
        if area.x >= self.width || area.y >= self.height {
            return;
        }
        let seen = StoredArea {
            x: area.x,
            y: area.y,
            width: area.width.min(self.width - area.x),
            height: area.height.min(self.height - area.y),
        };
        copy_area(self.samples.as_mut_slice(), self.width, plane, seen);
    }
}

/// The predictions of the visible samples of the three planes.
#[derive(Drop)]
pub struct PredictedPlanes<T> {
    /// Luma.
    pub y: PredictedPlane<T>,
    /// The first chroma plane.
    pub u: PredictedPlane<T>,
    /// The second chroma plane.
    pub v: PredictedPlane<T>,
}

impl<T: Pixel> PredictedPlanes<T> {
    ghost use Rattle.std.specs.Prelude.{◌≡◌, IfOk};
    ghost use Rattle.av1_frame.specs.Planes.{InPlane};
    ghost use Rattle.av1_plan.specs.ReadPlans.{IsReadFrame};
    ghost use Rattle.av1_tile.specs.PlaneBlocks.{component};
    ghost use Rattle.av1_tile.specs.Motion.{visible_in};
    ghost use Rattle.av1_tile.specs.Predicted.{AreBlank, copied, rows_in, with_rows};

    /// Planes without rows, which keep nothing.
    pub(crate) fn none(alloc: Global) -> PredictedPlanes<T> {
        PredictedPlanes {
            y: PredictedPlane::none(alloc),
            u: PredictedPlane::none(alloc),
            v: PredictedPlane::none(alloc),
        }
    }

    /// Zeros for each visible sample of a frame. The only error is running out of memory.
    pub(crate) fn new(alloc: Global, header: &Header) -> Result<PredictedPlanes<T>, OutOfMemory>
        requires frame { IsReadFrame header.now }
        ensures { IfOk result (λ kept. AreBlank T.pixel header.now kept) }
    {
        let y = PredictedPlane::new(alloc, header, 0)?;
        let u = PredictedPlane::new(alloc, header, 1)?;
        let v = PredictedPlane::new(alloc, header, 2)?;
        Ok(PredictedPlanes { y, u, v })
    }

    /// Copies the visible part of the rectangle `area` of plane `p`.
    #[inline(always)]
    pub(crate) fn keep(&mut self, p: usize, plane: &Plane<T>, area: StoredArea)
        requires { InPlane (visible_in area) plane.now }
        ensures { self.new ≡ with_rows (component p) self.old
            (copied T.num T.pixel plane.now area (rows_in (component p) self.old)) }
    {
        match p {
            0 => self.y.keep(plane, area),
            1 => self.u.keep(plane, area),
            _ => self.v.keep(plane, area),
        }
    }
}
