//! Texts that are cut short, and an input that is too long. `test_planning` has more than 64 voters or 4096
//! quorums.
use std::alloc::{AllocError, Global};
use std::sync::Wait;
use std::test::Fail;
use std::thread::Threads;
use std::time::Clock;
use test_served::samples::{MAJORITY, MAJORITY_PLAN, RECORD, WHEEL, WHEEL_PLAN};
use test_served::{answer, joined};

/// A command, the beginning of its input up to a text, the text, and the fault of each beginning of it.
type Cut<'a> = (&'a str, &'a [&'a str], &'a str, &'a str);

/// Returns how many beginnings of a text, without the whole of it, are refused with this fault as the last
/// part of a command's input.
fn refused_beginnings<T: Threads + Wait + Clock + Sync>(
    rt: &T,
    alloc: Global,
    cut: &Cut,
) -> Result<usize, AllocError> {
    let (line, parts, text, fault) = *cut;
    let before = joined(alloc, parts)?;
    let mut refused: usize = 0;
    for end in 0..text.len() {
        let beginning = std::str::from_utf8(&text.as_bytes()[..end]).unwrap_or("");
        let input = format!(in alloc; "{before}{beginning}")?;
        if answer(rt, alloc, line, &[input.as_str()])?
            .as_str()
            .starts_with(fault)
        {
            refused = refused.saturating_add(1);
        }
    }
    Ok(refused)
}

/// Plans and a record, of which no beginning is one.
const CUT: [Cut; 3] = [
    ("check", &[MAJORITY, ""], MAJORITY_PLAN, "P5 BadText "),
    ("check", &[WHEEL, ""], WHEEL_PLAN, "P5 BadText "),
    (
        "replay",
        &[MAJORITY, MAJORITY_PLAN, ""],
        RECORD,
        "A7 BadLine ",
    ),
];

#[test]
fn no_prefix_of_a_plan_or_a_record_is_one(rt: HostRuntime) -> Result<(), Fail> {
    for cut in &CUT {
        assert_eq!(rt; refused_beginnings(&rt, rt.alloc(), cut)?, cut.2.len());
    }
    Ok(())
}

/// Each beginning of a coterie is no TOML or has other keys, except the last one. It lacks only the newline
/// at the end.
#[test]
fn of_a_coterie_s_prefixes_only_the_last_is_one(rt: HostRuntime) -> Result<(), Fail> {
    let mut refused: usize = 0;
    for fault in ["F1 NotToml", "F2 Keys"] {
        let cut: Cut = ("plan", &[], MAJORITY, fault);
        refused = refused.saturating_add(refused_beginnings(&rt, rt.alloc(), &cut)?);
    }
    let last = answer(&rt, rt.alloc(), "plan", &[MAJORITY.trim_end()])?;
    assert!(rt; (refused == MAJORITY.len().saturating_sub(1)) & (last.as_str() == MAJORITY_PLAN));
    Ok(())
}

#[test]
fn the_longest_input(rt: HostRuntime) -> Result<(), Fail> {
    for (length, fault) in [(16_777_217, "I2 TooLong"), (16_777_216, "I1 MissingPart 2")] {
        let input = "\n".repeat(rt.alloc(), length)?;
        let text = answer(&rt, rt.alloc(), "check", &[input.as_str()])?;
        assert!(rt; text.as_str() == fault);
    }
    Ok(())
}
