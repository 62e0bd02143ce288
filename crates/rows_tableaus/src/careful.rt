//! Three shifts by careful runs, also step by step.
//!
//! The same three shifts by careful runs, also step by step; 2 where the first period may be left out for
//! nothing, and 3 again where it may not; and a run whose watch is over, which takes no step.

use crate::float_programs::{LIMITS, costs_three, costs_three_from_each, is_about, three_shifts};
use crate::watches::OverWatch;
use lp_float_programs::{FloatProgram, FloatSolved, Limits};
use search_watch::{SteadyWatch, Watch};

/// A step of each kind between two turns of a run.
const ONE_STEP: Limits = Limits { dual: 1, primal: 1 };

/// How often a run of such steps is repeated: more often than there are bases on the way.
const AGAIN: u32 = 40;

#[test]
fn careful_runs_cost_3(rt: HostRuntime) {
    let mut float_program = three_shifts(rt.alloc()).expect(&rt, "memory");
    float_program.be_careful();
    let are_halves = costs_three_from_each(&mut float_program);
    let is_careful = float_program.is_careful();
    drop(float_program);
    assert!(rt; are_halves);
    assert!(rt; is_careful);
}

/// Whether runs of single steps come to an end at a cost of 3.
fn costs_three_step_by_step(float_program: &mut FloatProgram) -> bool {
    let mut end = FloatSolved::Spent;
    for _again in 0..AGAIN {
        if end == FloatSolved::Spent {
            end = float_program.run(ONE_STEP, &SteadyWatch);
        }
    }
    end == FloatSolved::Optimal && is_about(float_program.value(), 3)
}

#[test]
fn careful_runs_of_single_steps_cost_3(rt: HostRuntime) {
    let mut float_program = three_shifts(rt.alloc()).expect(&rt, "memory");
    float_program.be_careful();
    let begun = float_program.start_missing().is_ok();
    let is_three = costs_three_step_by_step(&mut float_program);
    drop(float_program);
    assert!(rt; begun);
    assert!(rt; is_three);
}

/// Whether the shifts cost 2 where what is missing in the first period costs nothing, and 3 where it is dear
/// again.
fn costs_two_with_a_free_period(float_program: &mut FloatProgram) -> bool {
    float_program.set_costs(0, 0, Some(0));
    let is_two = float_program.run(LIMITS, &SteadyWatch) == FloatSolved::Optimal
        && is_about(float_program.value(), 2);
    float_program.set_costs(0, 10, Some(0));
    is_two && costs_three(float_program)
}

#[test]
fn a_free_period_costs_2(rt: HostRuntime) {
    let mut float_program = three_shifts(rt.alloc()).expect(&rt, "memory");
    let is_three = float_program.start_beyond().is_ok() && costs_three(&mut float_program);
    let is_two = costs_two_with_a_free_period(&mut float_program);
    drop(float_program);
    assert!(rt; is_three);
    assert!(rt; is_two);
}

/// Whether a run takes no step where this watch is over, and goes on to its end where none is.
fn waits_for<W: Watch>(float_program: &mut FloatProgram, watch: &W) -> bool {
    let begun = float_program.start_beyond().is_ok();
    let pivots = float_program.pivots();
    let is_spent = float_program.run(LIMITS, watch) == FloatSolved::Spent;
    begun && is_spent && float_program.pivots() == pivots && costs_three(float_program)
}

#[test]
fn a_watch_that_is_over_takes_no_step(rt: HostRuntime) {
    let mut float_program = three_shifts(rt.alloc()).expect(&rt, "memory");
    let has_waited = waits_for(&mut float_program, &OverWatch::new());
    drop(float_program);
    assert!(rt; has_waited);
}
