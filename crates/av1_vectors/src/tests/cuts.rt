// Tests plans that are cut at each byte, and a first read that fails. Recorded rows let every read and write fail.
use super::support::{PLAN, PLANES, WHOLE, same};
use av1_recon::{MemSink, ReconError, SliceSource, reconstruct_plan};
use std::alloc::Global;
use std::process::Abort;

/// The bytes of the worked plan that begin no field.
const INSIDE: [usize; 21] = [
    1, 2, 3, 5, 7, 32, 35, 37, 38, 39, 41, 43, 52, 54, 56, 65, 67, 69, 78, 80, 82,
];

/// Reconstructs a plan byte by byte while the reads with these numbers fail. Returns the result and the written length.
fn bytewise(
    rt: &impl Abort,
    alloc: Global,
    plan: &[u8],
    reads: &[u64],
) -> (Result<(), ReconError>, usize) {
    let mut source = SliceSource::new(plan, 1, reads);
    let mut sink = MemSink::new(alloc, PLANES, 1, &[]).expect(rt, "memory");
    let answer = reconstruct_plan(alloc, &mut source, &mut sink);
    (answer, sink.bytes().len())
}

#[test]
fn a_cut_plan_is_malformed_at_the_field_that_is_cut(rt: HostRuntime) {
    let mut at = 0;
    for k in 0..PLAN.len() {
        if !INSIDE.contains(&k) {
            at = k as u32;
        }
        let answer = bytewise(&rt, rt.alloc(), &PLAN[..k], &[]);
        let refused = (Err(ReconError::Malformed { at }), 0);
        same(&rt, (k, answer), (k, refused), "the first bytes");
    }
}

#[test]
fn the_first_read_may_fail(rt: HostRuntime) {
    let answer = bytewise(&rt, rt.alloc(), &WHOLE, &[0]);
    let refused = (Err(ReconError::ReadFault), 0);
    same(&rt, answer, refused, "of the plan of one leaf");
}
