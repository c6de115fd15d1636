// Tests frames whose width or height is not a multiple of 8.
use super::support::rows;

/// A frame of one sample, and one of 9x8 whose leaf is moved by four samples.
const SIDES: &str = "
one sample is shown of each plane:
RPL3 1,0 1,0 8,0,0,0 0*7 0 0 0,0,0,0,4,0,0 0,0 0,0 0,0
-> 128*3;
earlier versions have multiples of 8:
RPL2 1,0 1,0 8,0,0,0 0*7 0 0 0,0,0,0,4,0,0 0,0 0,0 0,0
-> Malformed { at: 4 };
motion past a side reads the last sample that is shown:
RPL3 9,0 8,0 8,2,0,0 0*7 1 0,10,20,30,40,50,60,70,80*8 128*144 0 19,1 0,0 32,0 4 0*8
-> 40,50,60,70,80,80,80,80,80*8 128*144
";

#[test]
fn frames_have_any_sides(rt: HostRuntime) {
    rows(&rt, rt.alloc(), SIDES);
}
