//! Plans that are checked, and plans that are found. `tables` has more of both.
use crate::plan;
use std::test::Fail;
use test_served::samples::{MAJORITY, ONE, WHEEL};
use test_served::{Row, answer};

/// Plans that are checked, and one that is found though two voters are in no quorum.
pub(crate) const CHECKED: [Row; 13] = [
    (
        "check",
        &[WHEEL, plan!("3/5", "10", "2 2 2 4", "2 1 1 1")],
        "load 3/5 cycle 10\n",
    ),
    (
        "check",
        &[WHEEL, plan!("3/4", "4", "1 1 1 1", "2 1 1 1")],
        "P4 NotOptimal 3 5 3 4",
    ),
    (
        "check",
        &[WHEEL, plan!("1/1", "2", "1 1 0 0", "1 0 0 0")],
        "P4 NotOptimal 2 1 0 2",
    ),
    (
        "check",
        &[MAJORITY, plan!("2/3", "3", "1 1 1", "1 1 0")],
        "P4 NotOptimal 2 2 1 3",
    ),
    (
        "check",
        &[WHEEL, "quorum-plan 1\nload 3/5\ncycle 5\n"],
        "P5 BadText 4",
    ),
    (
        "check",
        &[WHEEL, plan!("0/1", "0", "0 0 0 0", "0 0 0 0")],
        "P3 Empty",
    ),
    (
        "check",
        &[WHEEL, plan!("6/10", "5", "1 1 1 2", "2 1 1 1")],
        "P6 WrongLoad",
    ),
    (
        "check",
        &[WHEEL, plan!("3/5", "10", "1 1 1 2", "2 1 1 1")],
        "P7 WrongCycle",
    ),
    (
        "check",
        &[WHEEL, plan!("3/5", "5", "1 1 1", "2 1 1 1")],
        "P1 WrongLength",
    ),
    (
        "check",
        &[WHEEL, plan!("3/5", "5", "1000001 1 1 2", "2 1 1 1")],
        "P2 TooLarge",
    ),
    (
        "plan",
        &["voters = [\"a\", \"b\", \"c\"]\nquorums = [[\"a\"]]\n"],
        plan!("1/1", "1", "1", "1 0 0"),
    ),
    (
        "check",
        &[ONE, plan!("10000000/1", "1", "1", "1")],
        "P5 BadText 2",
    ),
    ("check", &[WHEEL], "I1 MissingPart 2"),
];

/// Shapes, and the plans that are found.
const FOUND: [(&str, &str); 3] = [
    ("make wheel 4", plan!("4/7", "7", "1 1 1 1 3", "3 1 1 1 1")),
    (
        "make cyclic 7 0 1 3",
        plan!("3/7", "7", "1 1 1 1 1 1 1", "1 1 1 1 1 1 1"),
    ),
    ("make tree 0", plan!("1/1", "1", "1", "1")),
];

#[test]
fn plans_are_found(rt: HostRuntime) -> Result<(), Fail> {
    for (shape, wanted) in &FOUND {
        let coterie = answer(&rt, rt.alloc(), shape, &[])?;
        let found = answer(&rt, rt.alloc(), "plan", &[coterie.as_str()])?;
        assert!(rt; found.as_str() == *wanted);
    }
    Ok(())
}

/// Shapes, plans of them, and what `check` writes.
const CERTIFICATES: [(&str, &str, &str); 2] = [
    (
        "make tree 2",
        plan!(
            "1/2",
            "12",
            "1 1 1 1 1 1 2 0 0 0 2 0 0 0 2",
            "2 1 1 1 1 1 1"
        ),
        "load 1/2 cycle 12\n",
    ),
    (
        "make cyclic 13 0 1 3 9",
        plan!(
            "4/13",
            "13",
            "1 1 1 1 1 1 1 1 1 1 1 1 1",
            "1 1 1 1 1 1 1 1 1 1 1 1 1"
        ),
        "load 4/13 cycle 13\n",
    ),
];

#[test]
fn certificates_of_shapes_are_accepted(rt: HostRuntime) -> Result<(), Fail> {
    for (shape, plan, wanted) in &CERTIFICATES {
        let coterie = answer(&rt, rt.alloc(), shape, &[])?;
        let input = format!(in rt.alloc(); "{coterie}%%\n{plan}")?;
        let checked = answer(&rt, rt.alloc(), "check", &[input.as_str()])?;
        assert!(rt; checked.as_str() == *wanted);
    }
    Ok(())
}
