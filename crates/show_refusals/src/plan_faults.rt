//! What is wrong with a plan, and the right values.
use crate::bad_lines::push_bad_line;
use crate::lines::{line_of, push_line};
use crate::refused::{Page, Pushed, push_part};
use certificate::{PlanFault, check};
use commands::coterie_of;
use coterie_file::Named;
use std::alloc::AllocError;
use texts::number;

/// How many lines a plan has at most.
const LINES: usize = 6;

/// How many digits a number of a plan has at most, except in a load with capacities.
const DIGITS: usize = 7;

/// How many digits a number of a load with capacities has at most.
const LOAD_DIGITS: usize = 10;

/// Returns the first line of the plan that begins with this word and a space.
fn line_behind<'a>(page: &Page<'a>, word: &str) -> Option<&'a [u8]> {
    for number in 1..=LINES {
        match line_of(page.part(2), number) {
            Some(line) if line.starts_with(word.as_bytes()) => return Some(line),
            _ => {}
        }
    }
    None
}

/// Returns the numbers of the line of the plan that begins with this word, or no numbers. A number that
/// does not fit into 64 bits counts as the greatest that does.
fn listed(page: &Page, word: &str) -> Result<Vec<u64>, AllocError> {
    let mut numbers = Vec::new(page.alloc);
    let line = line_behind(page, word).unwrap_or(&[]);
    for digits in line.split(|byte| *byte == b' ').skip(1) {
        numbers.push(number(digits).unwrap_or(u64::MAX))?;
    }
    Ok(numbers)
}

/// Returns the sum of the numbers of a line of the plan, or the greatest number of 64 bits if it is
/// greater.
fn sum_of(page: &Page, word: &str) -> Result<u64, AllocError> {
    let numbers = listed(page, word)?;
    Ok(
        numbers
            .iter()
            .fold(0u64, |sum, number| sum.saturating_add(*number)),
    )
}

/// Returns the coterie of the input.
fn named_of(page: &Page) -> Option<Named> {
    match coterie_of(page.alloc, page.part(1)) {
        Ok(named) => Some(named),
        Err(_) => None,
    }
}

/// Appends the load of the weights.
fn push_right_load(page: &mut Page) -> Pushed {
    let Some(named) = named_of(page) else {
        return Ok(());
    };
    let quorums = listed(page, "quorum ")?;
    let voters = listed(page, "voter ")?;
    let coterie = named.coterie();
    match check(page.alloc, coterie, named.capacities(), quorums, voters) {
        Ok(plan) => {
            let (part, whole) = plan.load();
            write!(page.text, "  the load of these weights is {part}/{whole}\n")
        }
        Err(_) => Ok(()),
    }
}

/// Appends how many quorums and voters there are, and how many weights.
fn push_lengths(page: &mut Page) -> Pushed {
    if let Some(named) = named_of(page) {
        let quorums = named.coterie().count();
        let voters = named.coterie().voters();
        write!(
            page.text,
            "  the coterie has {quorums} quorums and {voters} voters,"
        )?;
    }
    let quorums = listed(page, "quorum ")?.len();
    let voters = listed(page, "voter ")?.len();
    write!(
        page.text,
        " the plan has weights for {quorums} quorums and {voters} voters\n"
    )
}

/// Appends numbers, with a space before each.
fn push_numbers(text: &mut String, numbers: &[u64]) -> Pushed {
    for number in numbers {
        write!(text, " {number}")?;
    }
    text.push('\n')
}

/// Appends the capacities of the coterie, and those that the plan is for.
fn push_capacities(page: &mut Page) -> Pushed {
    if let Some(named) = named_of(page) {
        page.text.push_str("  the coterie has the capacities")?;
        push_numbers(&mut page.text, named.capacities())?;
    }
    let numbers = listed(page, "capacity ")?;
    if numbers.is_empty() {
        return page.text.push_str(
            "  the plan has no line `capacity`, so it is for capacities that are all 1\n",
        );
    }
    page.text.push_str("  the plan is for the capacities")?;
    push_numbers(&mut page.text, &numbers)
}

/// Appends the right values for a plan whose text could be read, or what its numbers are.
fn push_plan_values(page: &mut Page, fault: PlanFault) -> Pushed {
    match fault {
        PlanFault::NotOptimal {
            busiest_count: count,
            voter_total: all,
            lightest_quorum: least,
            cycle_len: len,
        } => write!(
            page.text,
            "  a cycle of {len} uses its busiest voter {count} times; by the voters' weights that has to be {len} * {least} / {all} times\n"
        ),
        PlanFault::NotOptimalRatio {
            ratio_numerator: count,
            ratio_denominator: capacity,
            capacity_total: all,
            lightest_quorum: least,
            cycle_len: len,
        } => write!(
            page.text,
            "  a cycle of {len} uses its busiest voter {count}/{capacity} times for its capacity; by the voters' weights that has to be {len} * {least} / {all} times\n"
        ),
        PlanFault::TooLarge | PlanFault::Empty => {
            let quorums = sum_of(page, "quorum ")?;
            let voters = sum_of(page, "voter ")?;
            write!(
                page.text,
                "  the weights of the quorums add up to {quorums}, and those of the voters to {voters}: each sum is 1 to 1000000\n"
            )
        }
        PlanFault::WrongCycle => {
            let len = sum_of(page, "quorum ")?;
            write!(page.text, "  the weights of the quorums add up to {len}\n")
        }
        PlanFault::WrongLength => push_lengths(page),
        PlanFault::WrongCapacity => push_capacities(page),
        PlanFault::WrongLoad => push_right_load(page),
        PlanFault::BadText { line } => push_bad_numbers(page, line),
        PlanFault::WrongBound | PlanFault::OutOfMemory => Ok(()),
    }
}

/// Appends why a word of digits is no number of a plan, if it is none.
fn push_word_fault(text: &mut String, word: &[u8], digits: usize) -> Pushed {
    if !word.iter().all(|byte| byte.is_ascii_digit()) {
        return Ok(());
    }
    if word.len() > 1 && word.starts_with(b"0") {
        text.push_str("  a number begins with no 0: ")?;
    } else if word.len() > digits {
        write!(text, "  a number here has at most {digits} digits: ")?;
    } else {
        return Ok(());
    }
    push_line(text, word)?;
    text.push('\n')
}

/// Appends which numbers of a line of the plan are too large, or have a zero before them.
fn push_bad_numbers(page: &mut Page, line: usize) -> Pushed {
    let plan = page.part(2);
    let found = line_of(plan, line).unwrap_or(&[]);
    let is_load = found.starts_with(b"load ") && plan.starts_with(b"quorum-plan 2\n");
    let digits = if is_load { LOAD_DIGITS } else { DIGITS };
    for word in found.split(|byte| *byte == b' ' || *byte == b'/') {
        push_word_fault(&mut page.text, word, digits)?;
    }
    Ok(())
}

/// Returns the line of the plan whose value is wrong, if it is one.
fn wrong_line(fault: PlanFault) -> Option<usize> {
    match fault {
        PlanFault::BadText { line } => Some(line),
        PlanFault::WrongLoad => Some(2),
        PlanFault::WrongCycle => Some(3),
        _ => None,
    }
}

/// Appends what is wrong with a plan.
pub(crate) fn push_plan_fault(page: &mut Page, fault: PlanFault) -> Pushed {
    match wrong_line(fault) {
        Some(line) => push_bad_line(page, 2, line)?,
        None => push_part(page, 2)?,
    }
    push_plan_values(page, fault)
}
