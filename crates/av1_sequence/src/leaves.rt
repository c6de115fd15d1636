//! Parses and checks the leaves of a frame, from the slice that is its part. Allocates the leaves.

ghost use Rattle.std.specs.Prelude.{◌≡◌, ◌≤◌, ◌^◌, None, length, IfOk, IfErr};
ghost use Rattle.av1_plan.specs.Values.{leaves_value};
ghost use Rattle.av1_plan.specs.Grammar.{superblocks};
ghost use Rattle.av1_plan.specs.ReadPlans.{IsReadFrame};
ghost use Rattle.av1_plan.specs.Spelling.{AreText};
ghost use Rattle.av1_plan.specs.Validity.{fault_from};
ghost use Rattle.av1_sequence.specs.Outcomes.{RefusesPart};

use crate::error::FrameError;
use av1_plan::{Header, Invalid, Leaves, PlanError, check_leaves, parse_leaves};
use std::alloc::Global;

/// The error of a frame for a bad leaf.
fn refusal(invalid: Invalid) -> FrameError
    ensures { result ≡ FrameError.Invalid invalid.leaf invalid.kind }
{
    FrameError::Invalid {
        leaf: invalid.leaf,
        kind: invalid.kind,
    }
}

/// The leaves that a part spells in a frame with this header, if they are valid.
pub fn read_leaves(alloc: Global, header: &Header, part: &[u8]) -> Result<Leaves, FrameError>
    requires short { length part.now ≤ 2 ^ 26 }
    requires frame { IsReadFrame header.now }
    ensures found { IfOk result (λ l. AreText (superblocks header.now) part.now (leaves_value l)) }
    ensures valid { IfOk result (λ l. fault_from header.now 0 (leaves_value l) ≡ None) }
    ensures refused { IfErr result (λ e. RefusesPart header.now part.now e) }
{
    let leaves = match parse_leaves(alloc, header, part) {
        Ok(leaves) => leaves,
        Err(PlanError::Malformed { at }) => return Err(FrameError::Malformed { at }),
        Err(PlanError::Memory) => return Err(FrameError::Memory),
    };
    match check_leaves(header, &leaves) {
        Ok(()) => Ok(leaves),
        Err(invalid) => Err(refusal(invalid)),
    }
}
