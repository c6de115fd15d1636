//! Parses calls that prepare an edge, and replays them on drawn planes. Replaying allocates.

ghost use Rattle.std.specs.Prelude.{◌≤◌};

use crate::answer::Answer;
use crate::called::Called;
use crate::drawn::Numbers;
use crate::error::CallFault;
use crate::fields::Fields;
use crate::samples::{Format, Margins, Target};
use crate::way::Way;
use av1_calls::{EDGE_SAMPLES, EdgeBlock, EdgePlane};
use std::alloc::Global;

/// How many samples of an edge precede its corner.
const HALF: usize = 128;

/// The dimensions of a plane and of one of its tiles, in samples.
#[derive(Clone, Copy)]
pub struct Sheet {
    halved_columns: u8,
    halved_rows: u8,
    width: u16,
    height: u16,
    tile_x: u16,
    tile_y: u16,
    tile_width: u16,
    tile_height: u16,
    ghost few_columns: { width ≤ 512 },
    ghost few_rows: { height ≤ 512 },
}

impl Sheet {
    ghost use Rattle.std.specs.Prelude.{◌≡◌, length, IfSome};
    ghost use Rattle.av1_replay.specs.Calls.{sheet_before};
    ghost use Rattle.av1_replay.specs.Fields.{unread};

    fn read(fields: &mut Fields) -> Option<Sheet>
        ensures found { IfSome result (λ sheet. unread fields.old ≡ sheet_before sheet (unread fields.new)) }
        ensures later { length (unread fields.new) ≤ length (unread fields.old) }
    {
        let halved_columns = fields.byte()?;
        let halved_rows = fields.byte()?;
        let width = fields.two()?;
        let height = fields.two()?;
        let tile_x = fields.two()?;
        let tile_y = fields.two()?;
        let tile_width = fields.two()?;
        let tile_height = fields.two()?;
        if 512 < width || 512 < height {
            return None;
        }
        Some(Sheet {
            halved_columns,
            halved_rows,
            width,
            height,
            tile_x,
            tile_y,
            tile_width,
            tile_height,
        })
    }
}

/// The positions of a transform in its tile, of its block in the tile, and of the transform in the block.
#[derive(Clone, Copy)]
pub struct TransformPlace {
    x: u16,
    y: u16,
    cell_x: u16,
    cell_y: u16,
    unit_x: u16,
    unit_y: u16,
}

impl TransformPlace {
    ghost use Rattle.std.specs.Prelude.{◌≡◌, length, IfSome};
    ghost use Rattle.av1_replay.specs.Calls.{place_before};
    ghost use Rattle.av1_replay.specs.Fields.{unread};

    fn read(fields: &mut Fields) -> Option<TransformPlace>
        ensures found { IfSome result (λ place. unread fields.old ≡ place_before place (unread fields.new)) }
        ensures later { length (unread fields.new) ≤ length (unread fields.old) }
    {
        let x = fields.two()?;
        let y = fields.two()?;
        let cell_x = fields.two()?;
        let cell_y = fields.two()?;
        let unit_x = fields.two()?;
        let unit_y = fields.two()?;
        Some(TransformPlace {
            x,
            y,
            cell_x,
            cell_y,
            unit_x,
            unit_y,
        })
    }
}

/// A transform of a drawn plane whose edge is prepared, and how many samples of the edge are compared.
#[derive(Clone, Copy)]
pub struct Edge {
    pub(crate) format: Format,
    block_size: u8,
    tx_size: u8,
    mode: u8,
    angle_step: i8,
    edge_filter: u8,
    sheet: Sheet,
    place: TransformPlace,
    left: u8,
    above: u8,
    margins: Margins,
    way: Way,
    seed: u32,
    ghost few_left: { left ≤ 128 },
    ghost few_above: { above ≤ 128 },
}

impl Edge {
    ghost use Rattle.std.specs.Prelude.{◌≡◌, length, IfErr, IfSome};
    ghost use Rattle.av1_replay.specs.Calls.{edge_before};
    ghost use Rattle.av1_replay.specs.Fields.{unread};
    ghost use Rattle.av1_replay.specs.Rows.{depth_of};

    /// Reads the next call of this kind. The plane has at most 512 columns and rows, and either side at most 128
    /// samples.
    pub fn read(fields: &mut Fields) -> Option<Edge>
        ensures found { IfSome result (λ edge. unread fields.old ≡ edge_before edge (unread fields.new)) }
        ensures later { length (unread fields.new) ≤ length (unread fields.old) }
    {
        let format = Format::read(fields)?;
        let block_size = fields.byte()?;
        let tx_size = fields.byte()?;
        let mode = fields.byte()?;
        let angle_step = fields.signed()?;
        let edge_filter = fields.byte()?;
        let sheet = Sheet::read(fields)?;
        let place = TransformPlace::read(fields)?;
        let left = fields.byte()?;
        let above = fields.byte()?;
        let margins = Margins::read(fields)?;
        let way = Way::read(fields)?;
        let seed = fields.four()?;
        if 128 < left || 128 < above {
            return None;
        }
        Some(Edge {
            format,
            block_size,
            tx_size,
            mode,
            angle_step,
            edge_filter,
            sheet,
            place,
            left,
            above,
            margins,
            way,
            seed,
        })
    }

    // The position of the plane's visible samples among the drawn samples.
    fn target(&self) -> Target
        ensures few { result.count ≤ 783874 }
    {
        self.margins.round(
            usize::from(self.sheet.width),
            usize::from(self.sheet.height),
        )
    }

    fn plane(&self) -> EdgePlane {
        let target = self.target();
        EdgePlane {
            stride: target.stride,
            x: target.area.x,
            y: target.area.y,
            width: target.area.width,
            height: target.area.height,
            tile_x: usize::from(self.sheet.tile_x),
            tile_y: usize::from(self.sheet.tile_y),
            tile_width: usize::from(self.sheet.tile_width),
            tile_height: usize::from(self.sheet.tile_height),
            halved_columns: self.sheet.halved_columns,
            halved_rows: self.sheet.halved_rows,
        }
    }

    fn block(&self) -> EdgeBlock {
        EdgeBlock {
            x: usize::from(self.place.x),
            y: usize::from(self.place.y),
            cell_x: usize::from(self.place.cell_x),
            cell_y: usize::from(self.place.cell_y),
            unit_x: usize::from(self.place.unit_x),
            unit_y: usize::from(self.place.unit_y),
            block_size: self.block_size,
            tx_size: self.tx_size,
            mode: self.mode,
            angle_step: self.angle_step,
            bit_depth: self.format.depth(),
            edge_filter: self.edge_filter,
        }
    }

    /// The answer: the edge's left side, its corner and the side above, out of 257 samples that were 1 before the call.
    pub fn replay_as<T: Called>(&self, alloc: Global) -> Result<Answer, CallFault>
        requires deep { depth_of self.now.format ≤ T.Pixel.BITS }
        ensures { IfErr result (λ fault. fault ≡ CallFault.Memory) }
    {
        let depth = self.format.depth();
        let mut numbers = Numbers::new(self.seed);
        let samples = numbers.samples::<T>(alloc, self.target().count, depth, self.way)?;
        let mut edge = Vec::new(alloc);
        edge.resize(EDGE_SAMPLES, T::from_u32(1))?;
        let status = T::prepare_edge(&mut edge, &samples, &self.plane(), &self.block());
        let end = HALF + 1 + usize::from(self.above);
        let compared = &edge[HALF - usize::from(self.left)..end];
        Ok(Answer::of_samples(alloc, status, compared))
    }
}
