// Tests plans of one leaf that a vector moves, up to the greatest vectors.
use super::support::rows;

/// Frames of 8x8 at depth 8 with planes in slot 0, of one leaf from LAST: first in 4:4:4, the last in 4:2:0.
const MOVED: &str = "
rows move by one sample and end in their last:
RPL1 8,0 8,0 8,2,0,0 0*7 1 0,10,20,30,40,50,60,70*8 128*128 0 19,1 0,0 8,0 4 0*8
-> 10,20,30,40,50,60,70,70*8 128*128;
rows move by 16383 eighths of a sample:
RPL1 8,0 8,0 8,2,0,0 0*7 1 0,10,20,30,40,50,60,70*8 128*128 0 19,1 0,0 255,63 4 0*8
-> 70*64 128*128;
rows move by -16383 eighths:
RPL1 8,0 8,0 8,2,0,0 0*7 1 0,10,20,30,40,50,60,70*8 128*128 0 19,1 0,0 1,192 4 0*8
-> 0*64 128*128;
16384 eighths are too many:
RPL1 8,0 8,0 8,2,0,0 0*7 1 0,10,20,30,40,50,60,70*8 128*128 0 19,1 0,0 0,64 4 0*8
-> Invalid { leaf: 0, kind: Vector };
-16384 eighths are too many:
RPL1 8,0 8,0 8,2,0,0 0*7 1 0,10,20,30,40,50,60,70*8 128*128 0 19,1 0,0 0,192 4 0*8
-> Invalid { leaf: 0, kind: Vector };
halved chroma moves by half a sample:
RPL1 8,0 8,0 8,0,0,0 0*7 1 0,10,20,30,40,50,60,70*8 0,20,40,60*8 0 19,1 0,0 8,0 4 0*8
-> 10,20,30,40,50,60,70,70*8 8,30,52,62*8
";

#[test]
fn leaves_move_as_far_as_vectors_go(rt: HostRuntime) {
    rows(&rt, rt.alloc(), MOVED);
}
