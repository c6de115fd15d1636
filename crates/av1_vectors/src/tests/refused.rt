// Tests plans with one fault each: the error names the fault.
use super::support::rows;

/// Plans with one fault: a header, a mark for each node, and leaves.
const REFUSED: &str = "
luma of 64x64 takes cosines alone:
RPL1 8,0 8,0 8,0,0,0 0*7 0 0 0,0,0,0,4,1,0 0,0 0,0 0,0
-> Invalid { leaf: 0, kind: Transform };
chroma isn't lossless at 32x32:
RPL1 8,0 8,0 8,2,0,0 0*7 0 0 0,0,0,0,0,0,16 0,0 0,0 0,0
-> Invalid { leaf: 0, kind: Transform };
luma isn't lossless at 8x8:
RPL1 16,0 8,0 8,2,0,0 0*7 0 0 0,0,0,0,1,16,0 0,0 0,0 0,0
-> Invalid { leaf: 0, kind: Transform };
block 2 of a frame of 16x8 begins right of it:
RPL1 16,0 8,0 8,2,0,0 0*7 0 0 0,0,0,0,1,0,0 1,0 2,0 0,1 0,0 0 0,0 0,0
-> Invalid { leaf: 0, kind: Coefficient };
block 8 begins below it:
RPL1 16,0 8,0 8,2,0,0 0*7 0 0 0,0,0,0,1,0,0 1,0 8,0 0,1 0,0 0 0,0 0,0
-> Invalid { leaf: 0, kind: Coefficient };
block 2 of a frame of 16x16 begins right of it:
RPL1 16,0 16,0 8,2,0,0 0*7 0 0 0,0,0,0,1,0,0 1,0 2,0 0,1 0,0 0 0,0 0,0
-> Invalid { leaf: 0, kind: Coefficient };
no chroma is 16x64:
RPL1 64,0 64,0 8,1,0,0 0*7 0 2 0,0,0,0,0,0,0 0,0 0,0 0,0 0,0,0,0,0,0,0 0,0 0,0 0,0
-> Invalid { leaf: 0, kind: InvalidBlockSize };
slot 0 is empty:
RPL1 8,0 8,0 8,2,0,0 0*7 0 0 19,1 0,0 8,0 4,0,0 0,0 0,0 0,0
-> Invalid { leaf: 0, kind: MissingReference };
no node has the mark of the second superblock:
RPL1 72,0 8,0 8,2,0,0 0*7 0 0 1,0,0,0,0,0,0 0,0 0,0 0,0 4 0,0,0,0,0,0,0 0,0 0,0 0,0
-> Malformed { at: 34 };
the first sample of the reference is 1024 at depth 10:
RPL1 8,0 8,0 10,0,0,0 0*7 1 0,4 0*12
-> Malformed { at: 20 }
";

#[test]
fn plans_are_refused_for_their_fault(rt: HostRuntime) {
    rows(&rt, rt.alloc(), REFUSED);
}
