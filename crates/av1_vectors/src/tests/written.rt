// Tests that a plan is written as it was read, and that a bare plan has no coefficients.
use super::support::{PLAN, comes_to, same};
use av1_plan::parse_plan;
use av1_planwrite::{write_bare, write_plan};

#[test]
fn a_plan_is_written_as_it_was_read(rt: HostRuntime) {
    let plan = parse_plan(rt.alloc(), &PLAN).expect(&rt, "a plan");
    let bytes = write_plan(rt.alloc(), &plan).expect(&rt, "memory");
    same(&rt, bytes.as_slice(), PLAN.as_slice(), "the plan");
}

#[test]
fn a_bare_plan_has_no_coefficients(rt: HostRuntime) {
    let plan = parse_plan(rt.alloc(), &PLAN).expect(&rt, "a plan");
    let bytes = write_bare(rt.alloc(), &plan).expect(&rt, "memory");
    same(&rt, bytes.len(), 76, "bytes");
    comes_to(&rt, rt.alloc(), &bytes, "128*192", "the planes");
}
