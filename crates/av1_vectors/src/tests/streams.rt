// Tests the whole path over a reader and a writer in memory, and a writer that takes no more bytes.
use super::support::{PLAN, PLANES, are_planes, same};
use av1_recon::{ReadSource, ReconError, WriteSink, reconstruct_plan};
use std::test::Fail;

#[test]
fn a_reader_gives_a_plan_and_a_writer_takes_its_planes(rt: HostRuntime) -> Result<(), Fail> {
    let mut planes = [0; PLANES];
    let mut source = ReadSource::new(PLAN.as_slice());
    let mut sink = WriteSink::new(planes.as_mut_slice());
    let answer = reconstruct_plan(rt.alloc(), &mut source, &mut sink);
    same(&rt, answer, Ok(()), "the answer");
    same(&rt, are_planes(&planes), true, "the planes");
    Ok(())
}

#[test]
fn a_writer_that_takes_no_more_is_a_write_fault(rt: HostRuntime) -> Result<(), Fail> {
    let mut front = [0; 10];
    let mut source = ReadSource::new(PLAN.as_slice());
    let mut sink = WriteSink::new(front.as_mut_slice());
    let answer = reconstruct_plan(rt.alloc(), &mut source, &mut sink);
    same(&rt, answer, Err(ReconError::WriteFault), "the answer");
    same(&rt, front, [131; 10], "the bytes that stand");
    Ok(())
}
