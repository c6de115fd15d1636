// Tests plans in which small inter leaves share their chroma.
use super::support::rows;

/// Frames of 8x8 at depth 8 in 4:2:0 of four leaves of 4x4. Inter leaves move by two samples of luma: to the
/// right, down, to the left and up. U of the reference is 16 times the column and the row.
const PARTS: &str = "
each leaf predicts the chroma over its luma:
RPL3 8,0 8,0 8,0,0,0 0*7 1 0*64 0,16,32,48,1,17,33,49,2,18,34,50,3,19,35,51 0*16 3*4
19,1 0,0 16,0 0*4 19,1 16,0 0*6 19,1 0,0 240,255 0*4 19,1 240,255 0*11
-> 0*64 16,32,33,49,17,33,34,50,2,2,33,49,3,3,34,50 0*16;
beside an intra leaf the last leaf predicts the whole:
RPL3 8,0 8,0 8,0,0,0 0*7 1 0*64 0,16,32,48,1,17,33,49,2,18,34,50,3,19,35,51 0*16 3*4
19,1 0,0 16,0 0*4 0*6 19,1 0,0 240,255 0*4 19,1 240,255 0*11
-> 0*64 0,16,32,48,0,16,32,48,1,17,33,49,2,18,34,50 0*16;
earlier versions have no such leaves:
RPL2 8,0 8,0 8,0,0,0 0*7 1 0*64 0,16,32,48,1,17,33,49,2,18,34,50,3,19,35,51 0*16 3*4
19,1 0,0 16,0 0*4 19,1 16,0 0*6 19,1 0,0 240,255 0*4 19,1 240,255 0*11
-> Invalid { leaf: 0, kind: Mode }
";

#[test]
fn small_leaves_share_their_chroma(rt: HostRuntime) {
    rows(&rt, rt.alloc(), PARTS);
}
