// Tests that `PlanBuilder` builds a plan field by field, and takes planes only within the depth.
use super::support::{WHOLE, same};
use av1_blocks::{FilterMode, PredictionMode, TxSize, TxType};
use av1_plan::{ChromaMode, Header, LeafKind};
use av1_planwrite::{BuildError, PlanBuilder};
use std::test::Fail;

/// The type of all transforms here.
const DCT: TxType = TxType::DCT_DCT;

/// The header of an 8x8 plan at depth 8 in this sampling, with planes in the slots of the mask.
fn header(sampling: u8, mask: u8) -> Header {
    Header {
        version: 1,
        width: 8,
        height: 8,
        depth: 8,
        sampling,
        filter: FilterMode::REGULAR,
        edge_filter: false,
        slots: [0; 7],
        mask,
    }
}

/// A leaf that is predicted by DC.
fn by_dc() -> LeafKind {
    let (mode, step) = (PredictionMode::DC_PRED, 0);
    let chroma = Some(ChromaMode::Plain { mode, step });
    LeafKind::Intra { mode, step, chroma }
}

#[test]
fn a_plan_is_built_field_by_field(rt: HostRuntime) -> Result<(), Fail> {
    let Ok(mut builder) = PlanBuilder::new(rt.alloc(), &header(0, 0)) else {
        return Err(Fail::new("the header is admitted"));
    };
    same(&rt, builder.mark(0), Ok(()), "the mark");
    same(
        &rt,
        builder.mark(3),
        Err(BuildError::NotNow),
        "a second mark",
    );
    let Err(mut builder) = builder.finish() else {
        return Err(Fail::new("a leaf is asked for"));
    };
    let given = builder.leaf(&by_dc(), TxSize::TX_64X64, DCT, Some(DCT), &[], &[], &[]);
    same(&rt, given, Ok(()), "the leaf");
    let Ok(bytes) = builder.finish() else {
        return Err(Fail::new("all fields are given"));
    };
    same(&rt, bytes.as_slice(), WHOLE.as_slice(), "the plan");
    Ok(())
}

/// A plane whose rows rise by 10 from 0, and end with this sample.
fn rising(end: u16) -> [u16; 64] {
    let mut plane = [0; 64];
    for i in 0..64u16 {
        plane[usize::from(i)] = 10 * (i % 8);
    }
    plane[63] = end;
    plane
}

#[test]
fn planes_of_a_slot_are_taken_within_the_depth(rt: HostRuntime) -> Result<(), Fail> {
    let Ok(mut builder) = PlanBuilder::new(rt.alloc(), &header(2, 1)) else {
        return Err(Fail::new("the header is admitted"));
    };
    let chroma = [128; 64];
    let given = builder.reference(&rising(256), &chroma, &chroma);
    same(&rt, given, Err(BuildError::NotAdmitted), "past the depth");
    let given = builder.reference(&rising(70), &chroma, &chroma);
    same(&rt, given, Ok(()), "within it");
    Ok(())
}
