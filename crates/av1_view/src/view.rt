//! Reads a plan from a source, and writes a page that shows it to a sink. Allocates.
ghost use Rattle.std.specs.Prelude.{◌≡◌, None, IfOk};
ghost use Rattle.av1_plan.specs.Values.{plan_value};
ghost use Rattle.av1_plan.specs.Validity.{first_fault};
ghost use Rattle.av1_planwrite.specs.Text.{plan_text};
ghost use Rattle.av1_recon.specs.Outcomes.{Converts};
ghost use Rattle.av1_recon.specs.Writing.{Writes};
ghost use Rattle.av1_tile.specs.Output.{planes_of};
ghost use Rattle.av1_view.specs.Shown.{packed_predictions, plan_page, row_len};

use crate::packed::pack;
use crate::page::{Shown, write_page};
use crate::planes::{Reconstructed, reconstruct};
use av1_blocks::OutOfMemory;
use av1_plan::{Header, Plan};
use av1_planwrite::write_plan;
use av1_recon::{ReconError, Sink, Source, read_plan};
use std::alloc::Global;

/// Reads a plan from the source to its end, and appends a page that shows it to the sink. The page has constant parts,
/// and between them data in base64: the plan's bytes, its visible planes, and its packed predictions.
///
/// # Errors
///
/// The errors of [`av1_recon::reconstruct_plan`]: `ReadFault` and `TooLong` while the call reads, then `Malformed`,
/// then `Invalid`, then `WriteFault`. `Memory` may replace any of them, before the first byte is written.
pub fn view_plan<R: Source, W: Sink>(
    alloc: Global,
    source: &mut R,
    sink: &mut W,
) -> Result<(), ReconError>
    ensures { Converts plan_page R.left R.faults W.taken W.faults source.old source.new sink.old sink.new result }
{
    let plan = read_plan(alloc, source)?;
    append_page(alloc, &plan, sink)
}

/// What the page of a plan shows, in memory.
#[derive(Drop)]
pub struct PageParts {
    /// The plan's bytes.
    pub plan: Vec<u8>,
    /// The plan's planes.
    pub planes: Vec<u8>,
    /// The packed predictions of these planes.
    pub predictions: Vec<u8>,
}

/// Computes what the page of a valid plan shows.
///
/// # Errors
///
/// `OutOfMemory` if memory runs out.
pub fn gather(alloc: Global, plan: &Plan) -> Result<PageParts, OutOfMemory>
    requires valid { first_fault (plan_value plan.now) ≡ None }
    ensures plan { IfOk result (λ parts. parts.plan.items ≡ plan_text (plan_value plan.now)) }
    ensures planes { IfOk result (λ parts. parts.planes.items ≡ planes_of (plan_value plan.now)) }
    ensures predictions { IfOk result (λ parts. parts.predictions.items ≡ packed_predictions (plan_value plan.now)) }
{
    let made = reconstruct(alloc, plan)?;
    let row = row_len(plan.header());
    let predictions = pack(alloc, row, &made.planes, &made.predictions)?;
    let Reconstructed { planes, .. } = made;
    Ok(PageParts {
        plan: write_plan(alloc, plan)?,
        planes,
        predictions,
    })
}

// The length of a luma row in bytes.
#[tactic(auto, unfolding(av1_trace::specs::Samples::sample_len))]
fn row_len(header: &Header) -> usize
    ensures { result ≡ row_len header.now }
{
    let width = usize::from(header.width);
    if header.depth == 8 { width } else { 2 * width }
}

// Appends the page of a valid plan.
#[tactic(auto, using(crate::proofs::Pages::page_is))]
fn append_page<W: Sink>(alloc: Global, plan: &Plan, sink: &mut W) -> Result<(), ReconError>
    requires valid { first_fault (plan_value plan.now) ≡ None }
    ensures { Writes W.taken W.faults sink.old sink.new (plan_page (plan_value plan.now)) result }
{
    let parts = gather(alloc, plan)?;
    let shown = Shown {
        plan: &parts.plan,
        planes: &parts.planes,
        predictions: &parts.predictions,
        given: &[],
    };
    write_page(shown, sink)?;
    Ok(())
}
