//! The line of every fault, in a table for each kind. `examples/check.sh` compares the lines with
//! those that `qlock-show explain` lists.
ghost use Rattle.std.specs.Prelude.{◌≡◌};

use board::BoardFault;
use certificate::PlanFault;
use cluster::{Blank, Cluster, ClusterFault, ClusterName, Member};
use construct::ConstructFault;
use coterie_file::FileFault;
use dealer::{DealFault, OfficeFault, Plans};
use fraction::FracFault;
use incidents::IncidentFault;
use members::CloseFault;
use message::MessageFault;
use plan_inputs::line_of;
use planner::{Cause, PlannerFault};
use qlock_cli::{DeviceFault, Fault, InputFault, RunFault};
use quorum_set::{BridgeFault, CoterieFault};
use replay::ReplayFault;
use requester::ClientFault;
use simplex::SimplexFault;
use std::alloc::Global;
use std::fmt::Display;
use std::marker::Brand;
use test_plans::majority_plan;
use voter::VoterFault;
use world::WorldFault;

/// A fault of a coterie.
macro_rules! coterie {
    ($fault:expr) => {
        InputFault::File(FileFault::Coterie($fault))
    };
}

/// No plan was found, for this cause.
macro_rules! no_plan {
    ($cause:ident) => {
        InputFault::Planner(PlannerFault::NoPlan(Cause::$cause))
    };
}

/// The faults of coteries, of plans and of searches for plans, which are lines of the planning library, too.
const INPUTS: [(InputFault, &str); 35] = [
    (coterie!(CoterieFault::NoVoters), "E1 NoVoters"),
    (coterie!(CoterieFault::TooManyVoters), "E2 TooManyVoters"),
    (coterie!(CoterieFault::NoQuorums), "E3 NoQuorums"),
    (coterie!(CoterieFault::TooManyQuorums), "E4 TooManyQuorums"),
    (
        coterie!(CoterieFault::EmptyQuorum(4095)),
        "E5 EmptyQuorum 4095",
    ),
    (
        coterie!(CoterieFault::VoterOutOfRange(7, 64)),
        "E6 VoterOutOfRange 7 64",
    ),
    (coterie!(CoterieFault::Disjoint(2, 10)), "E7 Disjoint 2 10"),
    (coterie!(CoterieFault::Contained(0, 3)), "E8 Contained 0 3"),
    (InputFault::File(FileFault::NotToml), "F1 NotToml"),
    (InputFault::File(FileFault::Keys), "F2 Keys"),
    (InputFault::File(FileFault::BadName(63)), "F3 BadName 63"),
    (
        InputFault::File(FileFault::RepeatedName(1)),
        "F4 RepeatedName 1",
    ),
    (
        InputFault::File(FileFault::UnknownName(12)),
        "F5 UnknownName 12",
    ),
    (
        InputFault::File(FileFault::RepeatedMember(0)),
        "F6 RepeatedMember 0",
    ),
    (
        InputFault::File(FileFault::CapacityCount(2)),
        "F7 CapacityCount 2",
    ),
    (
        InputFault::File(FileFault::BadCapacity(18446744073709551615)),
        "F8 BadCapacity 18446744073709551615",
    ),
    (InputFault::Plan(PlanFault::WrongLength), "P1 WrongLength"),
    (InputFault::Plan(PlanFault::TooLarge), "P2 TooLarge"),
    (InputFault::Plan(PlanFault::Empty), "P3 Empty"),
    (
        InputFault::Plan(PlanFault::NotOptimal {
            busiest_count: 1,
            voter_total: 20,
            lightest_quorum: 300,
            cycle_len: 18446744073709551615,
        }),
        "P4 NotOptimal 1 20 300 18446744073709551615",
    ),
    (
        InputFault::Plan(PlanFault::BadText { line: 6 }),
        "P5 BadText 6",
    ),
    (InputFault::Plan(PlanFault::WrongLoad), "P6 WrongLoad"),
    (InputFault::Plan(PlanFault::WrongCycle), "P7 WrongCycle"),
    (
        InputFault::Plan(PlanFault::NotOptimalRatio {
            ratio_numerator: 18446744073709551615,
            ratio_denominator: 18446744073709551615,
            capacity_total: 18446744073709551615,
            lightest_quorum: 18446744073709551615,
            cycle_len: 18446744073709551615,
        }),
        "P8 NotOptimalRatio 18446744073709551615 18446744073709551615 18446744073709551615 18446744073709551615 18446744073709551615",
    ),
    (
        InputFault::Plan(PlanFault::WrongCapacity),
        "P9 WrongCapacity",
    ),
    (InputFault::Plan(PlanFault::WrongBound), "P10 WrongBound"),
    (no_plan!(Overflow), "N1 NoPlan S1"),
    (no_plan!(PivotLimit), "N1 NoPlan S2"),
    (no_plan!(NoRow), "N1 NoPlan S3"),
    (no_plan!(WrongLength), "N1 NoPlan P1"),
    (no_plan!(TooLarge), "N1 NoPlan P2"),
    (no_plan!(Empty), "N1 NoPlan P3"),
    (no_plan!(NotOptimal), "N1 NoPlan P4"),
    (no_plan!(NotOptimalRatio), "N1 NoPlan P8"),
    (InputFault::OutOfMemory, "O1 OutOfMemory"),
];

const BRIDGES: [(BridgeFault, &str); 2] = [
    (
        BridgeFault::NotBridged(4094, 4095),
        "J1 NotBridged 4094 4095",
    ),
    (BridgeFault::OutOfMemory, "O1 OutOfMemory"),
];

const SHAPES: [(ConstructFault, &str); 4] = [
    (ConstructFault::BadSize, "G1 BadSize"),
    (ConstructFault::TooLarge, "G2 TooLarge"),
    (
        ConstructFault::Coterie(CoterieFault::Contained(1, 2)),
        "E8 Contained 1 2",
    ),
    (ConstructFault::OutOfMemory, "O1 OutOfMemory"),
];

const FRACTIONS: [(FracFault, &str); 2] = [
    (FracFault::Overflow, "Q1 Overflow"),
    (FracFault::ZeroDivisor, "Q2 ZeroDivisor"),
];

const SIMPLEX_METHODS: [(SimplexFault, &str); 4] = [
    (SimplexFault::Overflow { pivots: 3 }, "S1 Overflow"),
    (SimplexFault::PivotLimit, "S2 PivotLimit"),
    (SimplexFault::NoRow, "S3 NoRow"),
    (SimplexFault::OutOfMemory, "O1 OutOfMemory"),
];

const DRAWS: [(DealFault, &str); 2] = [
    (DealFault::QuotaSpent, "L1 QuotaSpent"),
    (DealFault::OutOfMemory, "O1 OutOfMemory"),
];

const OFFICES: [(OfficeFault, &str); 2] = [
    (
        OfficeFault::ClerksOut(9_223_372_036_854_775_808),
        "L2 ClerksOut 9223372036854775808",
    ),
    (OfficeFault::OutOfMemory, "O1 OutOfMemory"),
];

const CLIENTS: [(ClientFault, &str); 4] = [
    (ClientFault::Busy, "C1 Busy"),
    (ClientFault::NotInside, "C2 NotInside"),
    (ClientFault::NotAsking, "C3 NotAsking"),
    (ClientFault::StampsSpent, "C4 StampsSpent"),
];

const WORLDS: [(WorldFault, &str); 7] = [
    (
        WorldFault::NoSuchMessage(18_446_744_073_709_551_615),
        "U1 NoSuchMessage 18446744073709551615",
    ),
    (WorldFault::NoSuchClient(255), "U2 NoSuchClient 255"),
    (WorldFault::NoSuchVoter(64), "U3 NoSuchVoter 64"),
    (WorldFault::NoSecondPlan, "U4 NoSecondPlan"),
    (WorldFault::Client(ClientFault::Busy), "C1 Busy"),
    (WorldFault::Voter(VoterFault::GrantsSpent), "V1 GrantsSpent"),
    (WorldFault::OutOfMemory, "O1 OutOfMemory"),
];

const INCIDENTS: [(IncidentFault, &str); 4] = [
    (
        IncidentFault::World(WorldFault::NoSuchVoter(64)),
        "U3 NoSuchVoter 64",
    ),
    (IncidentFault::NoGrant(63), "U5 NoGrant 63"),
    (IncidentFault::GrantsForgotten(0), "U6 GrantsForgotten 0"),
    (
        IncidentFault::StampsForgotten(255),
        "U7 StampsForgotten 255",
    ),
];

const BOARDS: [(BoardFault, &str); 4] = [
    (BoardFault::SeatsOut(2), "B1 SeatsOut 2"),
    (BoardFault::VoteOut(63), "B2 VoteOut 63"),
    (BoardFault::RegisterFull, "B3 RegisterFull"),
    (BoardFault::OutOfMemory, "O1 OutOfMemory"),
];

const CLUSTERS: [(ClusterFault, &str); 6] = [
    (
        ClusterFault::Client(ClientFault::StampsSpent),
        "C4 StampsSpent",
    ),
    (ClusterFault::Deal(DealFault::QuotaSpent), "L1 QuotaSpent"),
    (
        ClusterFault::Board(BoardFault::RegisterFull),
        "B3 RegisterFull",
    ),
    (ClusterFault::NotInside, "K1 NotInside"),
    (ClusterFault::TurnsSpent(63), "K2 TurnsSpent 63"),
    (ClusterFault::NoSecondPlan, "K4 NoSecondPlan"),
];

const RECORDS_AND_SCRIPTS: [(ReplayFault, &str); 8] = [
    (ReplayFault::TicketTwice(1), "A1 TicketTwice 1"),
    (ReplayFault::TicketMissing(2), "A2 TicketMissing 2"),
    (ReplayFault::WrongQuorum(3), "A3 WrongQuorum 3"),
    (ReplayFault::PassTwice(4), "A4 PassTwice 4"),
    (ReplayFault::PassMissing(5), "A5 PassMissing 5"),
    (ReplayFault::WrongRegister(6), "A6 WrongRegister 6"),
    (ReplayFault::BadLine(7), "A7 BadLine 7"),
    (ReplayFault::OutOfMemory, "O1 OutOfMemory"),
];

const RUNS: [(RunFault, &str); 2] = [
    (
        RunFault::Cluster(ClusterFault::TurnsSpent(0)),
        "K2 TurnsSpent 0",
    ),
    (RunFault::OutOfMemory, "O1 OutOfMemory"),
];

const DEVICES: [(DeviceFault, &str); 4] = [
    (DeviceFault::TooLong, "I2 TooLong"),
    (DeviceFault::ReadFault, "I3 ReadFault"),
    (DeviceFault::WriteFault, "I4 WriteFault"),
    (DeviceFault::OutOfMemory, "O1 OutOfMemory"),
];

const COMMANDS: [(Fault, &str); 9] = [
    (Fault::MissingPart(3), "I1 MissingPart 3"),
    (Fault::UnknownVoter(63), "I6 UnknownVoter 63"),
    (Fault::NotBridged(2, 0), "J1 NotBridged 2 0"),
    (Fault::Device(DeviceFault::TooLong), "I2 TooLong"),
    (Fault::Construct(ConstructFault::BadSize), "G1 BadSize"),
    (Fault::Input(InputFault::File(FileFault::Keys)), "F2 Keys"),
    (Fault::Replay(ReplayFault::BadLine(1)), "A7 BadLine 1"),
    (
        Fault::Cluster(ClusterFault::TurnsSpent(1)),
        "K2 TurnsSpent 1",
    ),
    (Fault::OutOfMemory, "O1 OutOfMemory"),
];

/// Returns whether a fault has this line.
fn has_line<F: Display>(alloc: Global, fault: &F, line: &str) -> bool {
    match fault.to_string(alloc) {
        Ok(text) => text.as_str() == line,
        Err(_) => false,
    }
}

/// Returns whether each fault has the line next to it.
fn have_lines<F: Display>(alloc: Global, table: &[(F, &str)]) -> bool {
    for (fault, line) in table {
        if !has_line(alloc, fault, line) {
            return false;
        }
    }
    true
}

/// Returns whether each fault of coteries and plans has its line.
fn plans_have_lines(alloc: Global) -> bool {
    have_lines(alloc, &INPUTS)
        & has_line(alloc, &FileFault::OutOfMemory, "O1 OutOfMemory")
        & has_line(alloc, &PlanFault::OutOfMemory, "O1 OutOfMemory")
        & has_line(alloc, &PlannerFault::OutOfMemory, "O1 OutOfMemory")
        & have_lines(alloc, &BRIDGES)
        & have_lines(alloc, &SHAPES)
        & have_lines(alloc, &FRACTIONS)
        & have_lines(alloc, &SIMPLEX_METHODS)
}

#[test]
fn faults_of_plans(rt: HostRuntime) {
    assert!(rt; plans_have_lines(rt.alloc()));
}

/// The planning library writes the same lines.
#[test]
fn faults_of_the_planning_library(rt: HostRuntime) {
    for (fault, line) in &INPUTS {
        assert!(rt; line_of(fault).as_str() == *line);
    }
}

/// Returns whether each fault of the lock has its line.
fn the_lock_has_lines(alloc: Global) -> bool {
    have_lines(alloc, &DRAWS)
        & have_lines(alloc, &OFFICES)
        & has_line(alloc, &MessageFault::BadLine, "M1 BadLine")
        & has_line(alloc, &VoterFault::GrantsSpent, "V1 GrantsSpent")
        & have_lines(alloc, &CLIENTS)
        & have_lines(alloc, &WORLDS)
        & have_lines(alloc, &INCIDENTS)
        & have_lines(alloc, &BOARDS)
        & have_lines(alloc, &CLUSTERS)
}

#[test]
fn faults_of_the_lock(rt: HostRuntime) {
    assert!(rt; the_lock_has_lines(rt.alloc()));
}

/// Returns whether each fault of the program has its line.
fn the_program_has_lines(alloc: Global) -> bool {
    have_lines(alloc, &RECORDS_AND_SCRIPTS)
        & have_lines(alloc, &RUNS)
        & have_lines(alloc, &DEVICES)
        & have_lines(alloc, &COMMANDS)
}

#[test]
fn faults_of_the_program(rt: HostRuntime) {
    assert!(rt; the_program_has_lines(rt.alloc()));
}

/// Returns whether a cluster that is closed without its last member has the line of its fault.
fn is_missing<N: ClusterName>(
    alloc: Global,
    cluster: Cluster<N>,
    mut members: Vec<Member<N>>,
) -> bool {
    drop(members.pop());
    match cluster.close(alloc, members) {
        Ok(_) => false,
        Err(fault) => has_line(alloc, &fault, "K3 MembersOut 1"),
    }
}

/// Returns the same of a cluster that is opened first.
fn is_missing_once_open<N: ClusterName>(alloc: Global, blank: Blank) -> bool
    requires { blank ≡ N.cluster }
{
    match blank.open::<N>(alloc) {
        Ok((cluster, members)) => is_missing(alloc, cluster, members),
        Err(_) => false,
    }
}

/// Returns a cluster of the majorities of three voters that is not open yet, for two clients.
fn blank(alloc: Global) -> Option<Blank> {
    let plans = Plans::single(majority_plan(alloc)?);
    Blank::new(alloc, plans, 2, 1).ok()
}

#[test]
fn faults_of_closed_clusters(rt: HostRuntime) {
    let lost: CloseFault<Brand> = CloseFault::Lost(ClusterFault::Board(BoardFault::VoteOut(2)));
    assert!(rt; has_line(rt.alloc(), &lost, "B2 VoteOut 2"));
    let Some(blank) = blank(rt.alloc()) else {
        panic!(rt; "no memory")
    };
    assert!(rt; is_missing_once_open::<Brand>(rt.alloc(), blank));
}
