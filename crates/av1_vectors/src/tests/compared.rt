// Tests that `compare` finds no difference between a plan and its own planes.
use super::support::WHOLE;
use av1_recon::{SliceSource, read_plan};
use av1_trace::{compare, planes_len};
use std::test::Fail;

#[test]
fn the_planes_of_a_plan_do_not_differ_from_it(rt: HostRuntime) -> Result<(), Fail> {
    let mut source = SliceSource::new(&WHOLE, 65536, &[]);
    let Ok(plan) = read_plan(rt.alloc(), &mut source) else {
        return Err(Fail::new("the plan is read"));
    };
    assert_eq!(rt; planes_len(plan.header()), 96);
    let differences = compare(rt.alloc(), &plan, &[128; 96])?;
    assert!(rt; differences.is_empty());
    Ok(())
}
