// Tests that nothing is written if memory runs out, and that buffers and bytes are made if it doesn't.
use super::support::{PLAN, PLANES, are_planes, same};
use av1_edges::IntraEdgeBuffer;
use av1_inter::InterCompoundBuffers;
use av1_recon::{MemSink, ReconError, SliceSource, read_plan_bytes, reconstruct_plan};

// With ample memory the planes are written. If an allocation fails, nothing is written. A run of the tests can let each
// allocation fail in turn.
#[test]
fn running_out_of_memory_writes_nothing(rt: HostRuntime) {
    let Ok(mut sink) = MemSink::new(rt.alloc(), PLANES, PLANES, &[]) else {
        return;
    };
    let mut source = SliceSource::new(&PLAN, 30, &[]);
    match reconstruct_plan(rt.alloc(), &mut source, &mut sink) {
        Ok(()) => same(&rt, are_planes(sink.bytes()), true, "the planes"),
        Err(error) => {
            same(&rt, error, ReconError::Memory, "the error");
            same(&rt, sink.bytes().len(), 0, "bytes");
        }
    }
}

#[test]
fn buffers_are_made_with_ample_memory(rt: HostRuntime) {
    let edges = IntraEdgeBuffer::<u8>::new(rt.alloc()).expect(&rt, "edges");
    same(&rt, edges.prepared(), 0, "edges");
    let _buffers = InterCompoundBuffers::new(rt.alloc()).expect(&rt, "references");
}

#[test]
fn the_bytes_of_a_plan_are_read(rt: HostRuntime) {
    let mut source = SliceSource::new(&PLAN, 30, &[]);
    let bytes = read_plan_bytes(rt.alloc(), &mut source).expect(&rt, "a plan");
    same(&rt, bytes.as_slice(), PLAN.as_slice(), "the bytes");
}
