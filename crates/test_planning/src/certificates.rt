//! A copy of a plan finds memory, and is written alike.
use certificate::Plan;
use plan_texts::write_plan;
use std::alloc::{AllocError, Global};
use test_plans::wheel_plan;

/// The text of the wheel's plan.
const WHEEL: &str = "quorum-plan 1\nload 3/5\ncycle 5\nquorum 1 1 1 2\nvoter 2 1 1 1\n";

/// Returns the text of a copy of a plan.
fn text_of_copy(alloc: Global, plan: &Plan) -> Result<String, AllocError> {
    write_plan(alloc, &plan.copy(alloc)?)
}

/// Returns whether a copy of the wheel's plan is written as its text.
fn is_copied(alloc: Global) -> Result<bool, AllocError> {
    let plan = wheel_plan(alloc).ok_or(AllocError)?;
    Ok(text_of_copy(alloc, &plan)?.as_str() == WHEEL)
}

#[test]
fn a_copy_is_written_alike(rt: HostRuntime) {
    assert!(rt; is_copied(rt.alloc()) == Ok(true));
}
