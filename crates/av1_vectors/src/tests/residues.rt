// Tests what the coefficients of worked plans add to their samples.
use super::support::rows;

/// Frames in 4:4:4 whose luma has coefficients.
const RESIDUES: &str = "
of eight blocks in a row of blocks two are in the frame, and block 8 begins the second row:
RPL1 16,0 16,0 8,2,0,0 0*7 0 0 0,0,0,0,1,0,0 1,0 8,0 0,100 0,0 0 0,0 0,0
-> 128*128 130,130,130,130,130,130,130,130,129,129,129,129,129,129,129,129*8 128*512;
sums of 12 bits wrap:
RPL1 8,0 8,0 12,2,0,0 0*7 0 3*4
0,0,0,0,0,0,0 2,0 0,0 0,255 255,7 0 0,8 0,255 255,7 0 0,0 0,0 0*39
-> 0,0,0,8,0,8,0,0,0,0,0,0,0,0,0,0*4 0,4,0,4,0,4,0,4,0,2,0,2,0,2,0,2*4 0,8*128
";

#[test]
fn coefficients_add_to_their_block(rt: HostRuntime) {
    rows(&rt, rt.alloc(), RESIDUES);
}
