//! Parses a slice of bytes into a `Plan`, or only into its `Leaves`. Allocates the result; does no I/O.

ghost use Rattle.std.specs.Prelude.{◌≡◌, ◌≤◌, ◌^◌, List, length, IfOk, MatchResult, vec_len};
ghost use Rattle.av1_plan.specs.declared.error.PlanError.TheVariants.{Memory};
ghost use Rattle.av1_plan.specs.Values.{leaves_value, plan_value, IfMalformed};
ghost use Rattle.av1_plan.specs.Format.{start, read_all};
ghost use Rattle.av1_plan.specs.Grammar.{plan, plan_behind, superblocks};
ghost use Rattle.av1_plan.specs.Plan.{LeafValue, PlanValue, slot_values};
ghost use Rattle.av1_plan.specs.ReadPlans.{IsReadFrame, AreStoredSlots};
ghost use Rattle.av1_plan.specs.Reading.{Gives};
ghost use Rattle.av1_plan.specs.Spelling.{AreText, AreRefused};

use crate::error::PlanError;
use crate::header::Header;
use crate::leaves::Leaves;
use crate::parser::Parser;
use crate::plan::Plan;
use crate::planes::SlotPlanes;
use crate::reader::Reader;
use std::alloc::Global;

/// Reads the plan that these bytes spell, from left to right.
#[tactic(auto, using(crate::proofs::Lists::collects), unfolding(crate::specs::Grammar::plan, crate::specs::Grammar::plan_behind))]
fn read_plan(alloc: Global, bytes: &[u8]) -> Result<Plan, PlanError>
    requires { length bytes.now ≤ 2 ^ 26 }
    ensures { Gives (λ p. plan_value p) result (read_all plan (start bytes.now)) }
{
    let mut reader = Reader { rest: bytes, at: 0 };
    let header = reader.header()?;
    let references = reader.references(alloc, &header)?;
    let parser = Parser::parse(alloc, reader, &header)?;
    let leaves = parser.finish()?;
    Ok(Plan {
        header,
        references,
        leaves,
    })
}

/// The plan that these bytes spell, by the plan grammar.
///
/// # Errors
///
/// `Malformed` names the start of the first field at which the bytes stop being a valid plan. That field is cut, has a
/// value that is not valid after the fields before it, or is left over. `Memory` if memory runs out.
pub fn parse_plan(alloc: Global, bytes: &[u8]) -> Result<Plan, PlanError>
    requires { length bytes.now ≤ 2 ^ 26 }
    // The bytes are exactly the fields of a complete proper list, which spells the plan.
    ensures found { IfOk result (λ p. AreText plan bytes.now (plan_value p)) }
    // No complete proper list has these bytes, and the longest proper list at their front ends at `at`.
    ensures refused { IfMalformed result (λ at. AreRefused plan bytes.now at) }
    // Every plan's text is read, unless memory runs out.
    ensures only { (p : PlanValue) → AreText plan bytes.now p → MatchResult result (λ x. plan_value x ≡ p) (λ e. e ≡ Memory) }
{
    read_plan(alloc, bytes)
}

/// Reads the leaves that these bytes spell, from left to right.
fn read_leaves(alloc: Global, header: &Header, bytes: &[u8]) -> Result<Leaves, PlanError>
    requires short { length bytes.now ≤ 2 ^ 26 }
    requires frame { IsReadFrame header.now }
    ensures { Gives (λ l. leaves_value l) result (read_all (superblocks header.now) (start bytes.now)) }
{
    let reader = Reader { rest: bytes, at: 0 };
    let parser = Parser::parse(alloc, reader, header)?;
    parser.finish()
}

/// The leaves that these bytes spell in a frame with this header, by the plan grammar. It is for callers that keep the
/// header and the references of a plan in another form. [`check_leaves`](crate::check_leaves) checks the leaves.
///
/// # Errors
///
/// As for [`parse_plan`]; the position in `Malformed` counts from the first of these bytes.
pub fn parse_leaves(alloc: Global, header: &Header, bytes: &[u8]) -> Result<Leaves, PlanError>
    requires short { length bytes.now ≤ 2 ^ 26 }
    requires frame { IsReadFrame header.now }
    // The bytes are exactly the fields of a complete proper list, which spells the leaves.
    ensures found { IfOk result (λ l. AreText (superblocks header.now) bytes.now (leaves_value l)) }
    // No complete proper list has these bytes, and the longest proper list at their front ends at `at`.
    ensures refused { IfMalformed result (λ at. AreRefused (superblocks header.now) bytes.now at) }
    // Every text of leaves is read, unless memory runs out.
    ensures only { (leaves : List LeafValue) → AreText (superblocks header.now) bytes.now leaves →
        MatchResult result (λ l. leaves_value l ≡ leaves) (λ e. e ≡ Memory) }
{
    read_leaves(alloc, header, bytes)
}

/// The plan with this header and these references, whose leaves these bytes spell by the plan grammar. It is for
/// formats that keep the header and the references of a plan in another place.
///
/// # Errors
///
/// As for [`parse_leaves`].
pub fn parse_plan_behind(
    alloc: Global,
    header: Header,
    references: Vec<Option<SlotPlanes>>,
    bytes: &[u8],
) -> Result<Plan, PlanError>
    requires short { length bytes.now ≤ 2 ^ 26 }
    requires frame { IsReadFrame header }
    requires eight { vec_len references ≡ 8 }
    requires slots { AreStoredSlots header references.items 8 }
    ensures found { IfOk result (λ p. AreText (plan_behind header (slot_values references.items)) bytes.now (plan_value p)) }
    ensures refused { IfMalformed result (λ at. AreRefused (plan_behind header (slot_values references.items)) bytes.now at) }
    ensures only { (p : PlanValue) → AreText (plan_behind header (slot_values references.items)) bytes.now p →
        MatchResult result (λ x. plan_value x ≡ p) (λ e. e ≡ Memory) }
{
    let leaves = parse_leaves(alloc, &header, bytes)?;
    Ok(Plan {
        header,
        references,
        leaves,
    })
}
