// Tests that an edge is filtered and upsampled, on worked samples.
use super::support::same;
use av1_rav1e::rust::{filter_edge, upsample_edge};

#[test]
fn sides_are_smoothed_and_upsampled(rt: HostRuntime) {
    let mut side = [10u8, 20, 30, 40, 50];
    filter_edge(5, 3, &mut side);
    same(
        &rt,
        side,
        [10, 21, 30, 39, 45],
        "the strongest filter takes five samples",
    );
    let mut side = [10u8, 20, 30, 40, 50, 0, 0, 0, 0];
    upsample_edge(4, &mut side, 8);
    let wanted = [10, 14, 20, 25, 30, 35, 40, 46, 50];
    same(&rt, side, wanted, "samples halfway come between the others");
}
