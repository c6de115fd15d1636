//! Reconstructs all tiles of a grid, and returns the planes of their frame. Allocates them; does no I/O.

ghost use Rattle.std.specs.Prelude.{◌≡◌, ◌≤◌, ◌<◌, IfOk, IfErr};
ghost use Rattle.av1_tile.specs.Walk.{AreFrame, samples_of};
ghost use Rattle.av1_tiles.specs.Bounds.{IsReadFile, IsReadFront};
ghost use Rattle.av1_tiles.specs.Errors.{tile_error};
ghost use Rattle.av1_tiles.specs.File.{file_value};
ghost use Rattle.av1_tiles.specs.Frames.{IsFrame, samples_in};
ghost use Rattle.av1_tiles.specs.Joined.{ComesTo};
ghost use Rattle.av1_tiles.specs.Refusals.{RefusesTiles};
ghost use Rattle.av1_tiles.specs.Seen.{SeesFront};

use crate::error::{TileError, TilesError};
use crate::file::{Front, TileFile};
use crate::frame::reconstruct_in;
use av1_blocks::OutOfMemory;
use av1_frame::{FrameInvariants, Pixel};
use av1_plan::Header;
use av1_tile::{Planes, WalkMemory, stored_references};
use std::alloc::Global;

/// The planes of a frame, in the narrowest samples that its depth allows.
#[derive(Drop)]
pub enum FrameSamples {
    /// One byte for each sample, at depth 8.
    Bytes(Planes<u8>),
    /// Two bytes for each sample, at depths 10 and 12.
    Words(Planes<u16>),
}

/// The frame of a grid of tiles.
#[derive(Drop)]
pub struct Frame {
    /// Its settings.
    pub header: Header,
    /// Its planes.
    pub samples: FrameSamples,
}

/// The error of a grid for the error of tile number `tile`. The grid has fewer than 65,536 tiles.
fn tile_error(tile: usize, error: TileError) -> TilesError
    requires { tile < 65536 }
    ensures { result ≡ tile_error tile error }
{
    match error {
        TileError::Refused { fault } => TilesError::Tile {
            tile: tile as u16,
            fault,
        },
        TileError::Memory => TilesError::Memory,
    }
}

/// The references of the whole frame, if the motion of its tiles reads these. The error is that memory ran out.
fn seen_references<T: Pixel>(
    alloc: Global,
    front: &Front,
) -> Result<Option<FrameInvariants<T>>, OutOfMemory>
    requires read { IsReadFront front.now }
    requires depth { front.now.header.depth ≤ T.BITS }
    ensures { IfOk result (SeesFront T.num front.now) }
{
    if !front.header.follows_av1() {
        return Ok(None);
    }
    let fi = stored_references(alloc, &front.header, &front.references)?;
    Ok(Some(fi))
}

/// Reconstructs the tiles of a grid, each from its own part, one after the other in raster order. Returns the planes of
/// the frame with each tile in its rectangle. The planes of the frame, and the memory to reconstruct tiles in, are
/// allocated once.
///
/// # Errors
///
/// `Tile` gives the first rejected tile and the reason. `Memory` if memory runs out.
pub fn join_tiles<T: Pixel>(alloc: Global, file: &TileFile<'_>) -> Result<Planes<T>, TilesError>
    requires read { IsReadFile file.now }
    requires depth { file.now.front.header.depth ≤ T.BITS }
    ensures planes { IfOk result (λ planes. AreFrame file.now.front.header planes) }
    ensures joined { IfOk result (λ planes. ComesTo (file_value file.now) (samples_of T.num planes)) }
    ensures refused { IfErr result (λ e. RefusesTiles (file_value file.now) e) }
{
    let seen = seen_references(alloc, &file.front)?;
    let mut planes = Planes::new(alloc, &file.front.header, 0)?;
    let mut memory = WalkMemory::new(alloc, &file.front.header)?;
    for index in 0..file.parts.len() {
        if let Err(error) = reconstruct_in(alloc, &mut planes, file, index, &seen, &mut memory) {
            return Err(tile_error(index, error));
        }
    }
    Ok(planes)
}

/// Reconstructs the frame of a grid of tiles.
///
/// # Errors
///
/// The errors of [`join_tiles`].
pub fn join_frame(alloc: Global, file: &TileFile<'_>) -> Result<Frame, TilesError>
    requires read { IsReadFile file.now }
    ensures frame { IfOk result (λ frame. IsFrame frame) }
    ensures header { IfOk result (λ frame. frame.header ≡ file.now.front.header) }
    ensures joined { IfOk result (λ frame. ComesTo (file_value file.now) (samples_in frame.samples)) }
    ensures refused { IfErr result (λ e. RefusesTiles (file_value file.now) e) }
{
    let header = file.front.header;
    let samples = match header.depth {
        8 => FrameSamples::Bytes(join_tiles(alloc, file)?),
        _ => FrameSamples::Words(join_tiles(alloc, file)?),
    };
    Ok(Frame { header, samples })
}
