//! The line of each fault, in a text of fixed room. It takes no memory.
ghost use Rattle.std.specs.Prelude.{◌≡◌, ◌≤◌, length};
ghost use Rattle.plan_inputs.specs.Lines.{cause_line, coterie_line, file_line, line_of, numbered_line, plan_line, planner_line};

use crate::fault::InputFault;
use arrayvec::ArrayString;
use certificate::PlanFault;
use coterie_file::FileFault;
use planner::{Cause, PlannerFault};
use quorum_set::CoterieFault;
use texts::push_field_in_room;

/// A text with room for the line of any fault.
type Line = ArrayString<128>;

/// Returns the words, and each number after a space.
fn numbered(words: &str, numbers: &[u64]) -> Line
    requires words { length words.now ≤ 20 }
    requires numbers { length numbers.now ≤ 5 }
    ensures { result.bytes ≡ numbered_line words.now numbers.now }
{
    let mut line = ArrayString::new();
    line.push_str(words);
    for number in numbers {
        push_field_in_room(&mut line, *number);
    }
    line
}

/// Returns a line without numbers.
fn plain(words: &str) -> Line
    requires { length words.now ≤ 20 }
    ensures { result.bytes ≡ words.now }
{
    let mut line = ArrayString::new();
    line.push_str(words);
    line
}

/// Returns the line of a fault of a list of sets.
fn coterie_line(fault: CoterieFault) -> Line
    ensures { result.bytes ≡ coterie_line fault }
{
    match fault {
        CoterieFault::NoVoters => plain("E1 NoVoters"),
        CoterieFault::TooManyVoters => plain("E2 TooManyVoters"),
        CoterieFault::NoQuorums => plain("E3 NoQuorums"),
        CoterieFault::TooManyQuorums => plain("E4 TooManyQuorums"),
        CoterieFault::EmptyQuorum(j) => numbered("E5 EmptyQuorum", &[j as u64]),
        CoterieFault::VoterOutOfRange(j, i) => {
            numbered("E6 VoterOutOfRange", &[j as u64, u64::from(i)])
        }
        CoterieFault::Disjoint(j, k) => numbered("E7 Disjoint", &[j as u64, k as u64]),
        CoterieFault::Contained(j, k) => numbered("E8 Contained", &[j as u64, k as u64]),
    }
}

/// Returns the line of a fault of a coterie's text.
fn file_line(fault: FileFault) -> Line
    ensures { result.bytes ≡ file_line fault }
{
    match fault {
        FileFault::NotToml => plain("F1 NotToml"),
        FileFault::Keys => plain("F2 Keys"),
        FileFault::BadName(i) => numbered("F3 BadName", &[i as u64]),
        FileFault::RepeatedName(i) => numbered("F4 RepeatedName", &[i as u64]),
        FileFault::UnknownName(j) => numbered("F5 UnknownName", &[j as u64]),
        FileFault::RepeatedMember(j) => numbered("F6 RepeatedMember", &[j as u64]),
        FileFault::CapacityCount(n) => numbered("F7 CapacityCount", &[n as u64]),
        FileFault::BadCapacity(i) => numbered("F8 BadCapacity", &[i as u64]),
        FileFault::Coterie(fault) => coterie_line(fault),
        FileFault::OutOfMemory => plain("O1 OutOfMemory"),
    }
}

/// Returns the line of a fault of a plan's text.
fn plan_line(fault: PlanFault) -> Line
    ensures { result.bytes ≡ plan_line fault }
{
    match fault {
        PlanFault::WrongLength => plain("P1 WrongLength"),
        PlanFault::TooLarge => plain("P2 TooLarge"),
        PlanFault::Empty => plain("P3 Empty"),
        PlanFault::NotOptimal {
            busiest_count,
            voter_total,
            lightest_quorum,
            cycle_len,
        } => numbered(
            "P4 NotOptimal",
            &[busiest_count, voter_total, lightest_quorum, cycle_len],
        ),
        PlanFault::BadText { line } => numbered("P5 BadText", &[line as u64]),
        PlanFault::WrongLoad => plain("P6 WrongLoad"),
        PlanFault::WrongCycle => plain("P7 WrongCycle"),
        PlanFault::NotOptimalRatio {
            ratio_numerator,
            ratio_denominator,
            capacity_total,
            lightest_quorum,
            cycle_len,
        } => numbered(
            "P8 NotOptimalRatio",
            &[
                ratio_numerator,
                ratio_denominator,
                capacity_total,
                lightest_quorum,
                cycle_len,
            ],
        ),
        PlanFault::WrongCapacity => plain("P9 WrongCapacity"),
        PlanFault::WrongBound => plain("P10 WrongBound"),
        PlanFault::OutOfMemory => plain("O1 OutOfMemory"),
    }
}

/// Returns the line of a search that ended without a plan.
fn cause_line(cause: Cause) -> Line
    ensures { result.bytes ≡ cause_line cause }
{
    match cause {
        Cause::Overflow => plain("N1 NoPlan S1"),
        Cause::PivotLimit => plain("N1 NoPlan S2"),
        Cause::NoRow => plain("N1 NoPlan S3"),
        Cause::WrongLength => plain("N1 NoPlan P1"),
        Cause::TooLarge => plain("N1 NoPlan P2"),
        Cause::Empty => plain("N1 NoPlan P3"),
        Cause::NotOptimal => plain("N1 NoPlan P4"),
        Cause::NotOptimalRatio => plain("N1 NoPlan P8"),
    }
}

/// Returns the line of a fault of the planner.
fn planner_line(fault: PlannerFault) -> Line
    ensures { result.bytes ≡ planner_line fault }
{
    match fault {
        PlannerFault::NoPlan(cause) => cause_line(cause),
        PlannerFault::OutOfMemory => plain("O1 OutOfMemory"),
    }
}

/// Returns the line of a fault: its code, its name and its numbers.
pub fn line_of(fault: &InputFault) -> Line
    ensures { result.bytes ≡ line_of fault.now }
{
    match *fault {
        InputFault::File(fault) => file_line(fault),
        InputFault::Plan(fault) => plan_line(fault),
        InputFault::Planner(fault) => planner_line(fault),
        InputFault::OutOfMemory => plain("O1 OutOfMemory"),
    }
}
