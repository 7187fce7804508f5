// The crate loans against values that were computed outside of it.
use crate::expected::{
    CUBE_RUN, EXAMPLE, FULL_HOUSE, MARKS, NEARLY_FULL, NO_CALLS, NO_SHELVES, ROWS, SPACE,
    VOLUME_RUN,
};
use crate::scripts::check_script;
use std::test::Fail;

#[test]
fn worked_example(rt: HostRuntime) -> Result<(), Fail> {
    check_script(&rt, &EXAMPLE)
}

#[test]
fn no_calls(rt: HostRuntime) -> Result<(), Fail> {
    check_script(&rt, &NO_CALLS)
}

#[test]
fn ends_of_rows(rt: HostRuntime) -> Result<(), Fail> {
    check_script(&rt, &ROWS)
}

#[test]
fn space_on_the_shelves(rt: HostRuntime) -> Result<(), Fail> {
    check_script(&rt, &SPACE)?;
    check_script(&rt, &MARKS)?;
    check_script(&rt, &NO_SHELVES)
}

#[test]
fn thirty_two_loans_out(rt: HostRuntime) -> Result<(), Fail> {
    check_script(&rt, &FULL_HOUSE)
}

#[test]
fn calls_on_a_cube(rt: HostRuntime) -> Result<(), Fail> {
    check_script(&rt, &CUBE_RUN)
}

#[test]
fn calls_on_a_volume(rt: HostRuntime) -> Result<(), Fail> {
    check_script(&rt, &VOLUME_RUN)
}

#[test]
fn calls_on_shelves_often_full(rt: HostRuntime) -> Result<(), Fail> {
    check_script(&rt, &NEARLY_FULL)
}
