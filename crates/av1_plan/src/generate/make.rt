//! Makes the plan of a number: header, reference samples and leaves. Allocates its bytes and returns them.

ghost use Rattle.std.specs.Prelude.{◌≡◌, ◌≤◌, ◌^◌, IfOk, vec_len};
ghost use Rattle.av1_plan.specs.Generator.{shown_side, frame, sample, plan_bytes_in, plan_bytes};
ghost use Rattle.av1_plan.specs.Text.{ArePlan, AreFaultless};

use crate::Header;
use crate::generate::maker::Maker;
use av1_blocks::{FilterMode, OutOfMemory};
use std::alloc::Global;

/// A shown side of the frame: 512, or in the third version up to 7 less.
#[tactic(auto, unfolding(crate::specs::Generator::shown_side))]
fn shown_side(version: u8, v: u32) -> u16
    ensures value { result ≡ shown_side version v }
    ensures most { result ≤ 512 }
{
    if version == 3 {
        512 - (v % 8) as u16
    } else {
        512
    }
}

/// The frame of the plan of a number in a version: 512 by 512 coded luma samples, depth 10, 4:2:0. Every reference
/// names slot 0, the only slot with planes.
#[tactic(auto, unfolding(crate::specs::Generator::frame))]
fn frame(version: u8, number: u32) -> Header
    ensures value { result ≡ frame version number }
    ensures width { result.width ≤ 512 }
    ensures height { result.height ≤ 512 }
{
    Header {
        version,
        width: shown_side(version, number),
        height: shown_side(version, number / 8),
        depth: 10,
        sampling: 0,
        filter: FilterMode::ALL[(number % 4) as usize],
        edge_filter: number / 4 % 2 == 1,
        slots: [0; 7],
        mask: 1,
    }
}

/// The sample of plane `p` of slot 0 at column `x` and row `y`.
#[tactic(auto, unfolding(crate::specs::Generator::sample))]
fn sample(number: u32, p: u32, x: u32, y: u32) -> u16
    requires plane { p ≤ 2 }
    requires column { x ≤ 2048 }
    requires row { y ≤ 2048 }
    ensures { result ≡ sample number p x y }
{
    ((7 * x + 13 * y + 101 * p + number % 1024) % 1024) as u16
}

impl Maker {
    ghost use Rattle.std.specs.Prelude.{◌≡◌, ◌+◌, ◌*◌, ◌<◌, ◌≤◌, OnOk};
    ghost use Rattle.av1_plan.specs.Generator.{letters, header, slots, row, plane, reference};
    ghost use Rattle.av1_plan.specs.Making.{work, run};
    ghost use Rattle.av1_plan.specs.Draft.{writes};
    ghost use Rattle.av1_plan.specs.Format.{four};

    /// Writes that every reference names slot 0.
    #[tactic(auto, using(crate::proofs::Turns::turns), unfolding(crate::specs::Generator::slots))]
    fn slots(&mut self) -> Result<(), OutOfMemory>
        ensures { OnOk result (work self.new ≡ run slots (work self.old)) }
    {
        for _slot in 0..7u8 {
            self.byte(0)?;
        }
        Ok(())
    }

    /// Writes the four letters at the front.
    #[tactic(auto, unfolding(crate::specs::Generator::letters))]
    fn letters(&mut self, version: u8) -> Result<(), OutOfMemory>
        requires { version ≤ 3 }
        ensures { OnOk result (work self.new ≡ run (writes four (letters version)) (work self.old)) }
    {
        self.u32_field(u32::from_le_bytes(*b"RPL0") + 0x100_0000 * u32::from(version))
    }

    /// Writes the header of the plan of a number in a version.
    #[tactic(auto, unfolding(crate::specs::Generator::header))]
    fn header(&mut self, version: u8, number: u32) -> Result<(), OutOfMemory>
        requires { version ≤ 3 }
        ensures { OnOk result (work self.new ≡ run (header version number) (work self.old)) }
    {
        self.letters(version)?;
        self.u16_field(shown_side(version, number))?;
        self.u16_field(shown_side(version, number / 8))?;
        self.byte(10)?;
        self.byte(0)?;
        self.byte((number % 4) as u8)?;
        self.byte((number / 4 % 2) as u8)?;
        self.slots()?;
        self.byte(1)
    }

    /// Writes row `y` of plane `p` of slot 0.
    #[tactic(auto, using(crate::proofs::Turns::turns), unfolding(crate::specs::Generator::row))]
    fn row(&mut self, frame: &Header, number: u32, p: usize, y: u32) -> Result<(), OutOfMemory>
        requires plane { p ≤ 2 }
        requires width { frame.now.width ≤ 2048 }
        requires row { y ≤ 2048 }
        ensures { OnOk result (work self.new ≡ run (row frame.now number p y) (work self.old)) }
    {
        for x in 0..frame.shown_columns(p) as u32 {
            self.u16_field(sample(number, p as u32, x, y))?;
        }
        Ok(())
    }

    /// Writes plane `p` of slot 0, row by row.
    #[tactic(auto, using(crate::proofs::Turns::turns), unfolding(crate::specs::Generator::plane))]
    fn plane(&mut self, frame: &Header, number: u32, p: usize) -> Result<(), OutOfMemory>
        requires plane { p ≤ 2 }
        requires width { frame.now.width ≤ 2048 }
        requires height { frame.now.height ≤ 2048 }
        ensures { OnOk result (work self.new ≡ run (plane frame.now number p) (work self.old)) }
    {
        for y in 0..frame.shown_rows(p) as u32 {
            self.row(frame, number, p, y)?;
        }
        Ok(())
    }

    /// Writes the planes of slot 0.
    #[tactic(auto, unfolding(crate::specs::Generator::reference))]
    fn reference(&mut self, frame: &Header, number: u32) -> Result<(), OutOfMemory>
        requires width { frame.now.width ≤ 2048 }
        requires height { frame.now.height ≤ 2048 }
        ensures { OnOk result (work self.new ≡ run (reference frame.now number) (work self.old)) }
    {
        self.plane(frame, number, 0)?;
        self.plane(frame, number, 1)?;
        self.plane(frame, number, 2)
    }
}

/// Draws and writes the bytes of the plan of a number in a version.
#[tactic(auto, using(crate::proofs::Written::by_draws), unfolding(crate::specs::Generator::plan))]
fn draw_plan(alloc: Global, version: u8, number: u32) -> Result<Vec<u8>, OutOfMemory>
    requires { version ≤ 3 }
    ensures { IfOk result (λ bytes. bytes.items ≡ plan_bytes_in version number) }
{
    let frame = frame(version, number);
    let mut maker = Maker::new(alloc, number);
    maker.header(version, number)?;
    maker.reference(&frame, number)?;
    maker.superblocks(&frame)?;
    let Maker { state: _, bytes } = maker;
    Ok(bytes)
}

/// The plan of a number in a version of the plan grammar, 1, 2 or 3, as bytes.
///
/// The number chooses the filter and the samples of the reference, and is the seed of everything else. In the third
/// version it also chooses the width and height of the frame, 505 to 512, and leaves of any size may be predicted from
/// references.
///
/// # Errors
///
/// `OutOfMemory`.
pub fn make_plan_in(alloc: Global, version: u8, number: u32) -> Result<Vec<u8>, OutOfMemory>
    requires version { (1 ≤ version) × (version ≤ 3) }
    // The bytes are those of the definition.
    ensures bytes { IfOk result (λ bytes. bytes.items ≡ plan_bytes_in version number) }
    // They are the text of a plan.
    ensures plan { IfOk result (λ bytes. ArePlan bytes.items) }
    // No leaf of it is faulty.
    ensures faultless { IfOk result (λ bytes. AreFaultless bytes.items) }
    // They are not too long for a reader of plans.
    ensures few { IfOk result (λ bytes. vec_len bytes ≤ 2 ^ 26) }
{
    let bytes = draw_plan(alloc, version, number)?;
    Ok(bytes)
}

/// The plan of a number in the first version, as bytes. The only error is running out of memory.
#[tactic(auto, unfolding(crate::specs::Generator::plan_bytes))]
pub fn make_plan(alloc: Global, number: u32) -> Result<Vec<u8>, OutOfMemory>
    // The bytes are those of the definition.
    ensures bytes { IfOk result (λ bytes. bytes.items ≡ plan_bytes number) }
    // They are the text of a plan.
    ensures plan { IfOk result (λ bytes. ArePlan bytes.items) }
    // No leaf of it is faulty.
    ensures faultless { IfOk result (λ bytes. AreFaultless bytes.items) }
    // They are not too long for a reader of plans.
    ensures few { IfOk result (λ bytes. vec_len bytes ≤ 2 ^ 26) }
{
    let bytes = make_plan_in(alloc, 1, number)?;
    Ok(bytes)
}
