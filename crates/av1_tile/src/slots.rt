//! Makes the settings of a plan's frame and the padded planes of its slots. Allocates them.

ghost use Rattle.std.specs.Prelude.{◌≡◌, ◌/◌, ◌^◌, ◌<◌, ◌≤◌, IfOk, length};
ghost use Rattle.av1_plan.specs.Values.{plan_value};
ghost use Rattle.av1_plan.specs.Plan.{slot_values};
ghost use Rattle.av1_plan.specs.ReadPlans.{ArePlane, AreStoredSlots, IsReadFrame};
ghost use Rattle.av1_tile.specs.Motion.{HoldsPlane, HoldsReferences, frame_with};

use crate::samples::fill_plane;
use av1_blocks::OutOfMemory;
use av1_frame::{FrameInvariants, Pixel, Plane};
use av1_plan::{Header, Plan, SlotPlanes};
use std::alloc::Global;

/// The pad of a reference on each side, in luma samples. It suffices, because a block of 64x64 reads 71 samples past a
/// side (64 and the 7 further taps of the filter).
const PAD: usize = 80;

/// The number of slots.
const SLOTS: usize = 8;

/// The pad of a reference on each side, in samples of a plane with this decimation (0, or 1 for a halved plane). A
/// block of 32x32 reads 39 samples past a side.
fn pad_of(decimation: usize) -> usize
    requires { decimation ≤ 1 }
    ensures value { result ≡ 80 / 2 ^ decimation }
    ensures few { result ≤ 80 }
{
    PAD >> decimation
}

/// A padded plane with the width and height of the visible plane `p` of a frame, and with these samples, row by row.
pub(crate) fn padded_plane<T: Pixel>(
    alloc: Global,
    header: &Header,
    p: usize,
    samples: &[u16],
) -> Result<Plane<T>, OutOfMemory>
    requires frame { IsReadFrame header.now }
    requires depth { header.now.depth ≤ T.BITS }
    requires samples { ArePlane header.now p samples.now }
    ensures { IfOk result (HoldsPlane T.num header.now p samples.now) }
{
    let width = header.shown_columns(p);
    let height = header.shown_rows(p);
    let xdec = header.xdec(p);
    let ydec = header.ydec(p);
    let mut plane = Plane::new(alloc, width, height, xdec, ydec, pad_of(xdec), pad_of(ydec))?;
    fill_plane(&mut plane, samples);
    plane.pad();
    Ok(plane)
}

/// The settings of a frame, and its slots with these planes: for formats that store header and references apart from
/// the leaves. The only error is running out of memory.
pub fn stored_references<T: Pixel>(
    alloc: Global,
    header: &Header,
    references: &[Option<SlotPlanes>],
) -> Result<FrameInvariants<T>, OutOfMemory>
    requires frame { IsReadFrame header.now }
    requires depth { header.now.depth ≤ T.BITS }
    requires eight { length references.now ≡ 8 }
    requires slots { AreStoredSlots header.now references.now 8 }
    ensures { IfOk result (HoldsReferences T.num (frame_with header.now (slot_values references.now))) }
{
    let mut fi = FrameInvariants::new(
        alloc,
        header.coded_width(),
        header.coded_height(),
        header.filter,
        usize::from(header.depth),
        header.edge_filter,
        header.slots,
    )?;
    fi.follow_av1(header.follows_av1());
    for slot in 0..SLOTS {
        if let Some(planes) = &references[slot] {
            let y = padded_plane(alloc, header, 0, &planes.y)?;
            let u = padded_plane(alloc, header, 1, &planes.u)?;
            let v = padded_plane(alloc, header, 2, &planes.v)?;
            fi.set_slot(slot, y, u, v);
        }
    }
    Ok(fi)
}

/// The settings of a plan's frame, and its slots with the plan's planes. The only error is running out of memory.
pub fn frame_invariants<T: Pixel>(
    alloc: Global,
    plan: &Plan,
) -> Result<FrameInvariants<T>, OutOfMemory>
    requires { (plan_value plan.now).header.depth ≤ T.BITS }
    ensures { IfOk result (HoldsReferences T.num (plan_value plan.now)) }
{
    stored_references(alloc, plan.header(), plan.references())
}
