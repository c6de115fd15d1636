// Tests the rules that version 3 takes from AV1 and earlier versions from rav1e.
use super::support::rows;

/// First, leaves that move by half a sample of chroma in LAST, with the sharp filter. Then blocks with identities in
/// both directions, and with the least coefficient that exceeds 32 bits along rows.
const RULES: &str = "
the sharp filter is the regular one along four samples:
RPL3 8,0 8,0 8,0,2,0 0*7 1 128*64 0,128,0,0*4 128*16 3,3,3,0 19,1 0,0 8,0 1 0*8
-> 128*64 76,76,0,0*4 128*16;
in earlier versions it is the smooth one there:
RPL2 8,0 8,0 8,0,2,0 0*7 1 128*64 0,128,0,0*4 128*16 3,3,3,0 19,1 0,0 8,0 1 0*8
-> 128*64 52,52,12,0*4 128*16;
identities of 4 values along rows pass 32 bits:
RPL3 8,0 8,0 12,2,0,0 0*7 0 3*4 0,0,0,0,0,9,0 1,0 0,0 0,15 168,5 0 0,0 0,0 0*39
-> 255,15 0,8*191;
in earlier versions they wrap:
RPL2 8,0 8,0 12,2,0,0 0*7 0 3*4 0,0,0,0,0,9,0 1,0 0,0 0,15 168,5 0 0,0 0,0 0*39
-> 0,0 0,8*191;
identities of 16 values along rows pass 32 bits:
RPL3 16,0 16,0 12,2,0,0 0*7 0 3,3,0 0,0,0,0,2,9,0 1,0 0,0 0,8 212,2 0 0,0 0,0
-> 255,15 0,8*767
";

#[test]
fn the_third_version_has_rules_of_av1(rt: HostRuntime) {
    rows(&rt, rt.alloc(), RULES);
}
