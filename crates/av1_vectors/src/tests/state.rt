// Tests that a state counts its edges, and that earlier contents of its planes have no effect.
ghost use Rattle.std.specs.Prelude.{◌≡◌, ◌≤◌, ◌<◌, ◌^◌, None, IfSome};
ghost use Rattle.av1_plan.specs.Values.{plan_value};
ghost use Rattle.av1_tile.specs.State.{IsSound};
ghost use Rattle.av1_plan.specs.Validity.{first_fault};

use super::support::{PLAN, same};
use av1_frame::Pixel;
use av1_plan::Plan;
use av1_recon::{
    MemSink, SliceSource, TileState, plane_sum, read_plan, reconstruct_tile, write_made,
    write_planes,
};
use std::alloc::Global;
use std::process::Abort;
use std::test::Fail;

/// The sums of the samples of the three planes.
fn sums<T: Pixel>(state: &TileState<T>) -> [u64; 3]
    requires sound { IsSound T.num state.now }
{
    [
        plane_sum(state, 0),
        plane_sum(state, 1),
        plane_sum(state, 2),
    ]
}

/// The sums of a plan's planes, and how many edges it takes if it is reconstructed once, and twice. Every stored sample
/// was `value` before.
fn reconstructed<T: Pixel>(alloc: Global, plan: &Plan, value: T) -> Option<([u64; 3], [u64; 2])>
    requires valid { first_fault (plan_value plan.now) ≡ None }
    requires depth { (plan_value plan.now).header.depth ≤ T.BITS }
    requires within { T.num value < 2 ^ (plan_value plan.now).header.depth }
{
    let Ok(mut state) = TileState::<T>::new(alloc, plan) else {
        return None;
    };
    state.fill_with(value);
    reconstruct_tile(&mut state, plan);
    let sums = sums(&state);
    let once = state.edges();
    reconstruct_tile(&mut state, plan);
    Some((sums, [once, state.edges()]))
}

#[test]
fn each_block_that_is_predicted_takes_one_edge(rt: HostRuntime) -> Result<(), Fail> {
    let mut source = SliceSource::new(&PLAN, 30, &[]);
    let Ok(plan) = read_plan(rt.alloc(), &mut source) else {
        return Err(Fail::new("the worked plan is read"));
    };
    if plan.header().depth != 8 {
        return Err(Fail::new("its depth is 8"));
    }
    let found = reconstructed::<u8>(rt.alloc(), &plan, 0);
    same(&rt, found, Some(([8384, 8192, 8192], [12, 24])), "edges");
    Ok(())
}

/// The plan of the number 5.
fn five(alloc: Global) -> Option<Plan>
    ensures { IfSome result (λ plan. first_fault (plan_value plan) ≡ None) }
{
    let Ok(mut made) = MemSink::new(alloc, 900_000, 65536, &[]) else {
        return None;
    };
    let Ok(()) = write_made(alloc, 5, &mut made) else {
        return None;
    };
    let mut source = SliceSource::new(made.bytes(), 65536, &[]);
    match read_plan(alloc, &mut source) {
        Ok(plan) => Some(plan),
        Err(_) => None,
    }
}

/// Appends the planes of a plan to the sink. Every stored sample was `value` before.
fn write_over(rt: &impl Abort, alloc: Global, plan: &Plan, value: u16, sink: &mut MemSink)
    requires valid { first_fault (plan_value plan.now) ≡ None }
    requires depth { (plan_value plan.now).header.depth ≡ 10 }
    requires within { value < 1024 }
{
    let mut state = TileState::<u16>::new(alloc, plan).expect(rt, "memory");
    state.fill_with(value);
    reconstruct_tile(&mut state, plan);
    write_planes(&state, sink).expect(rt, "room");
}

#[test]
fn what_the_planes_held_before_does_not_show(rt: HostRuntime) -> Result<(), Fail> {
    let Some(plan) = five(rt.alloc()) else {
        return Err(Fail::new("the plan of a number is made and read"));
    };
    if plan.header().depth != 10 {
        return Err(Fail::new("its depth is 10"));
    }
    let mut after_zeros = MemSink::new(rt.alloc(), 786_432, 65536, &[]).expect(&rt, "memory");
    write_over(&rt, rt.alloc(), &plan, 0, &mut after_zeros);
    let mut after_ones = MemSink::new(rt.alloc(), 786_432, 65536, &[]).expect(&rt, "memory");
    write_over(&rt, rt.alloc(), &plan, 1023, &mut after_ones);
    let same_planes = after_zeros.bytes() == after_ones.bytes();
    same(
        &rt,
        (after_zeros.bytes().len(), same_planes),
        (786_432, true),
        "the planes",
    );
    Ok(())
}
