//! Checking a record of a run.
ghost use Rattle.std.specs.Prelude.{◌≡◌, ◌*◌, ◌<◌, ℕ, List, IfErr, IfOk, IfSome, MatchOption, None, true, min, length, map};
ghost use Rattle.std.specs.List.{All};
ghost use Rattle.std.specs.List.Sorted.{IsNonDecreasing};
ghost use Rattle.numbers.specs.Counts.{times};
ghost use Rattle.quorum_set.specs.Capacities.{are_unit};
ghost use Rattle.certificate.specs.Certificates.{IsCertificate, busiest_count, cycle_len};
ghost use Rattle.dealer.specs.Accounts.{IsLeastBusiest, IsLeastRatio, account_of, ratio_of_cycles};
ghost use Rattle.replay.specs.Records.{EachOnce, IsFirstFault, IsFirstGap, IsFound, IsLeast, IsMissing, IsNumberFault, IsRegisterFault, IsRight, IsSoundRecord, IsTicketFault, IsTwice, IsWrong, NoneTwice, draws_on, entries_on, numbers_of, tickets_of};
ghost use Rattle.replay.specs.declared.fault.ReplayFault.TheVariants.{OutOfMemory};

use crate::fault::ReplayFault;
use certificate::Plan;
use dealer::{Account, Cycle};
use quorum_set::Side;
use run_outcome::{Draw, Pass, RunRecord};
use std::alloc::{AllocError, Global};

/// The reason why n numbers are not 0 to n - 1, each once.
#[derive(Clone, Copy)]
enum Gap {
    /// This number occurs more than once.
    Twice(u64),
    /// This number is missing.
    Missing(u64),
}

impl Gap {
    /// Returns the fault of a record with this gap in its tickets.
    fn ticket_fault(self) -> ReplayFault
        ensures { (tickets : List ℕ) → IsFirstGap tickets self → IsTicketFault tickets result }
    {
        match self {
            Gap::Twice(ticket) => ReplayFault::TicketTwice(ticket),
            Gap::Missing(ticket) => ReplayFault::TicketMissing(ticket),
        }
    }

    /// Returns the fault of a record with this gap in the numbers of its passes.
    fn number_fault(self) -> ReplayFault
        ensures { (numbers : List ℕ) → IsFirstGap numbers self → IsNumberFault numbers result }
    {
        match self {
            Gap::Twice(number) => ReplayFault::PassTwice(number),
            Gap::Missing(number) => ReplayFault::PassMissing(number),
        }
    }
}

/// Returns the numbers in ascending order.
fn ascending(mut numbers: Vec<u64>) -> Vec<u64>
    ensures ascending { IsNonDecreasing result.items }
    ensures same { (n : ℕ) → times n result.items ≡ times n numbers.items }
    ensures len { length result.items ≡ length numbers.items }
{
    numbers.sort_unstable();
    numbers
}

/// Returns the smallest of ascending numbers that occurs more than once.
fn least_twice(ascending: &[u64]) -> Option<u64>
    requires { IsNonDecreasing ascending.now }
    ensures { MatchOption result (NoneTwice ascending.now) (IsLeast (IsTwice ascending.now)) }
{
    for place in 0..ascending.len().saturating_sub(1) {
        if ascending[place] == ascending[place + 1] {
            return Some(ascending[place]);
        }
    }
    None
}

/// Returns the smallest number that is missing among ascending ones.
fn least_missing(ascending: &[u64]) -> Option<u64>
    requires ascending { IsNonDecreasing ascending.now }
    requires apart { NoneTwice ascending.now }
    ensures { MatchOption result (EachOnce ascending.now) (IsLeast (IsMissing ascending.now)) }
{
    for place in 0..ascending.len() {
        if ascending[place] != place as u64 {
            return Some(place as u64);
        }
    }
    None
}

/// Returns the first gap of numbers in any order, if there is one.
fn first_gap(numbers: Vec<u64>) -> Option<Gap>
    ensures { MatchOption result (EachOnce numbers.items) (IsFirstGap numbers.items) }
{
    let ascending = ascending(numbers);
    match least_twice(&ascending) {
        Some(number) => Some(Gap::Twice(number)),
        None => match least_missing(&ascending) {
            Some(number) => Some(Gap::Missing(number)),
            None => None,
        },
    }
}

/// Returns the smaller of a ticket and the one found before, if there is one.
fn lesser(found: Option<u64>, ticket: u64) -> u64
    ensures none { found ≡ None → result ≡ ticket }
    ensures some { IfSome found (λ least. result ≡ min least ticket) }
{
    match found {
        Some(least) => least.min(ticket),
        None => ticket,
    }
}

/// Returns the smallest ticket of a draw with another quorum than the cycle's.
fn least_wrong(cycle: &Cycle, draws: &[Draw]) -> Option<u64>
    ensures { MatchOption result (All (IsRight cycle.now) draws.now) (IsLeast (IsWrong cycle.now draws.now)) }
{
    let mut least = None;
    for draw in draws {
        if cycle.quorum_at(draw.1) != draw.2 {
            least = Some(lesser(least, draw.1));
        }
    }
    least
}

/// Returns the draws of one plan.
fn draws_on(side: Side, run: &RunRecord) -> &[Draw]
    ensures { result.now ≡ draws_on side run.now }
{
    match side {
        Side::First => &run.draws,
        Side::Second => &run.draws2,
    }
}

/// Returns the tickets of draws, in their order.
fn tickets_of(alloc: Global, draws: &[Draw]) -> Result<Vec<u64>, AllocError>
    ensures { IfOk result (λ v. v.items ≡ tickets_of draws.now) }
{
    draws.iter().map(|draw| draw.1).collect(alloc)
}

/// Returns the numbers of passes, in their order.
fn numbers_of(alloc: Global, passes: &[Pass]) -> Result<Vec<u64>, AllocError>
    ensures { IfOk result (λ v. v.items ≡ numbers_of passes.now) }
{
    passes.iter().map(|pass| pass.1).collect(alloc)
}

/// Returns the cycle of a plan.
fn cycle_of(alloc: Global, plan: &Plan) -> Result<Cycle, ReplayFault>
    ensures cycle { IfOk result (λ cycle. cycle ≡ plan.now) }
    ensures certificate { IfOk result IsCertificate }
    ensures memory { IfErr result (λ fault. fault ≡ OutOfMemory) }
{
    let plan = plan.copy(alloc)?;
    match Cycle::from_plan(alloc, plan) {
        Ok(cycle) => Ok(cycle),
        Err(error) => Err(ReplayFault::from(error)),
    }
}

/// Returns the first fault of tickets: n tickets have to be 0 to n - 1, each once.
fn ticket_fault(tickets: Vec<u64>) -> Option<ReplayFault>
    ensures { MatchOption result (EachOnce tickets.items) (IsTicketFault tickets.items) }
{
    match first_gap(tickets) {
        Some(gap) => Some(gap.ticket_fault()),
        None => None,
    }
}

/// Returns the first fault of the numbers of passes: n numbers have to be 0 to n - 1, each once.
fn number_fault(numbers: Vec<u64>) -> Option<ReplayFault>
    ensures { MatchOption result (EachOnce numbers.items) (IsNumberFault numbers.items) }
{
    match first_gap(numbers) {
        Some(gap) => Some(gap.number_fault()),
        None => None,
    }
}

/// Returns the fault of a register that is not the number of passes.
fn register_fault(run: &RunRecord) -> Option<ReplayFault>
    ensures { (side : Side) → MatchOption result (run.now.register ≡ length run.now.passes.items)
        (IsRegisterFault (entries_on side run.now)) }
{
    let passes = run.passes.len() as u64;
    if run.register == passes {
        None
    } else {
        Some(ReplayFault::WrongRegister(passes))
    }
}

/// Returns the first fault of a record with these tickets and these numbers of passes. It is never
/// `OutOfMemory`, as nothing is allocated here.
fn fault_of(
    cycle: &Cycle,
    side: Side,
    run: &RunRecord,
    tickets: Vec<u64>,
    numbers: Vec<u64>,
) -> Option<ReplayFault>
    requires tickets { tickets.items ≡ tickets_of (draws_on side run.now) }
    requires numbers { numbers.items ≡ numbers_of run.now.passes.items }
    ensures { MatchOption result (IsSoundRecord cycle.now (entries_on side run.now))
        (IsFound cycle.now (entries_on side run.now)) }
{
    if let Some(fault) = ticket_fault(tickets) {
        return Some(fault);
    }
    if let Some(ticket) = least_wrong(cycle, draws_on(side, run)) {
        return Some(ReplayFault::WrongQuorum(ticket));
    }
    if let Some(fault) = number_fault(numbers) {
        return Some(fault);
    }
    register_fault(run)
}

/// Checks a record of a run against a plan by which the run dealt quorums, and returns the account
/// of its tickets. The side says which of the record's draws are those of the plan: the first
/// plan's, `draws`, or the second's, `draws2`. All passes count, whichever plan a client used.
///
/// With n draws, the tickets must be 0 to n - 1, each once, in any order, and each with its quorum
/// by the plan's cycle. With p passes, the numbers must be 0 to p - 1, each once, and the register
/// must be p.
///
/// Otherwise fails with the first of these faults. Each fault is looked for in the whole record
/// before the next one, and has the smallest such number.
///
/// - `TicketTwice`: this ticket was drawn more than once.
/// - `TicketMissing`: this ticket is below n and was not drawn.
/// - `WrongQuorum`: this ticket has another quorum than the cycle's.
/// - `PassTwice`: two passes have this number.
/// - `PassMissing`: this number is below p and no pass has it.
/// - `WrongRegister`: the register is not p.
///
/// Memory may run out at any point. The time is that of sorting the tickets and the numbers.
pub fn check_record(
    alloc: Global,
    plan: &Plan,
    side: Side,
    run: &RunRecord,
) -> Result<Account, ReplayFault>
    // The result is the account of the record's tickets.
    ensures account { IfOk result (λ account. account ≡ account_of plan.now (tickets_of (draws_on side run.now))) }
    // A record is accepted if and only if it is sound, unless memory runs out.
    ensures sound { IfOk result (λ _. IsSoundRecord plan.now (entries_on side run.now)) }
    ensures accepted { IsSoundRecord plan.now (entries_on side run.now)
        → IfErr result (λ fault. fault ≡ OutOfMemory) }
    // Which fault is returned.
    ensures fault { IfErr result (IsFirstFault plan.now (entries_on side run.now)) }

    // After k whole cycles each quorum was used k times its weight, ..
    ensures shares { (k : ℕ) → length (draws_on side run.now) ≡ k * cycle_len plan.now
        → IfOk result (λ account. account.quorums ≡ map (λ weight. k * weight) plan.now.quorum_weights) }
    // .. and the busiest voter k times the busiest count. The ratio is k times the cycle's.
    ensures even { (k : ℕ) → length (draws_on side run.now) ≡ k * cycle_len plan.now
        → IfOk result (λ account. account.busiest ≡ k * busiest_count plan.now) }
    ensures ratio { (k : ℕ) → length (draws_on side run.now) ≡ k * cycle_len plan.now
        → IfOk result (λ account. account.ratio ≡ ratio_of_cycles plan.now k) }

    // No list of that length has a smaller ratio. If all capacities are 1, none has a smaller
    // busiest count.
    ensures least_ratio { (k : ℕ) → length (draws_on side run.now) ≡ k * cycle_len plan.now
        → IfOk result (λ account. IsLeastRatio plan.now account.drawn account.ratio) }
    ensures least { (k : ℕ) → are_unit plan.now.capacities ≡ true → length (draws_on side run.now) ≡ k * cycle_len plan.now
        → IfOk result (λ account. IsLeastBusiest plan.now account.drawn account.busiest) }
{
    let cycle = match cycle_of(alloc, plan) {
        Ok(cycle) => cycle,
        Err(fault) => return Err(fault),
    };
    let tickets = tickets_of(alloc, draws_on(side, run))?;
    let numbers = numbers_of(alloc, &run.passes)?;
    if let Some(fault) = fault_of(&cycle, side, run, tickets, numbers) {
        return Err(fault);
    }
    let tickets = tickets_of(alloc, draws_on(side, run))?;
    let account = cycle.account(alloc, &tickets)?;
    Ok(account)
}
