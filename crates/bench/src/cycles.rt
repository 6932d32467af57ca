//! Cycles: making them, from a plan or as a list of all places, and looking tickets up.
use certificate::{Plan, check};
use dealer::Cycle;
use quorum_set::{Coterie, QSet};
use std::alloc::{AllocError, Global};
use test_plans::unit_capacities;

/// What to time.
#[derive(Clone, Copy, Drop)]
pub(crate) struct Task {
    /// Whether the cycle is kept as a list of all its places, and not by the crate `dealer`.
    pub(crate) as_list: bool,
    /// How many quorums there are.
    pub(crate) quorums: u16,
    /// The weights of the quorums go 1, 2, .. up to this number, and then again from 1 on, ..
    pub(crate) steps: u32,
    /// .. each times this factor.
    pub(crate) factor: u32,
    /// How many times the cycle is made.
    pub(crate) makes: u32,
    /// How many tickets are looked up in the last one.
    pub(crate) lookups: u32,
}

/// Returns the weights of a task's quorums.
fn weights_of(alloc: Global, task: &Task) -> Result<Vec<u64>, AllocError> {
    let mut weights = Vec::new(alloc);
    let mut step = 0u64;
    for _ in 0..task.quorums {
        step = if step < u64::from(task.steps) {
            step.saturating_add(1)
        } else {
            1
        };
        weights.push(step.saturating_mul(u64::from(task.factor)))?;
    }
    Ok(weights)
}

/// Three voters above 0, in ascending order.
#[derive(Clone, Copy, Drop)]
struct Three {
    first: u8,
    second: u8,
    third: u8,
}

/// Returns the next three.
fn next_three(three: Three) -> Three {
    if three.third < 63 {
        Three {
            first: three.first,
            second: three.second,
            third: three.third.saturating_add(1),
        }
    } else if three.second < 62 {
        Three {
            first: three.first,
            second: three.second.saturating_add(1),
            third: three.second.saturating_add(2),
        }
    } else {
        Three {
            first: three.first.saturating_add(1),
            second: three.first.saturating_add(2),
            third: three.first.saturating_add(3),
        }
    }
}

/// Returns the set of voter 0 and those of the three that are below 64.
fn set_with(three: Three) -> QSet {
    let mut set = QSet::empty();
    set.insert(0);
    if three.first < 64 {
        set.insert(three.first);
    }
    if three.second < 64 {
        set.insert(three.second);
    }
    if three.third < 64 {
        set.insert(three.third);
    }
    set
}

/// Returns `count` sets of voter 0 and three others.
fn sets_of(alloc: Global, count: usize) -> Result<Vec<QSet>, AllocError> {
    let mut sets = Vec::new(alloc);
    let mut three = Three {
        first: 1,
        second: 2,
        third: 3,
    };
    for _ in 0..count {
        sets.push(set_with(three))?;
        three = next_three(three);
    }
    Ok(sets)
}

/// Returns a plan with these weights, for voters of capacity 1. Voter 0 is in each quorum, so any
/// weights make a plan.
fn plan_with(alloc: Global, weights: Vec<u64>) -> Option<Plan> {
    let sets = sets_of(alloc, weights.len()).ok()?;
    let coterie = Coterie::of(64, sets).ok()?;
    let mut voter_weights = vec![in alloc; 1].ok()?;
    for _ in 1..64 {
        voter_weights.push(0).ok()?;
    }
    let capacities = unit_capacities(alloc, coterie.voters()).ok()?;
    check(alloc, &coterie, &capacities, weights, voter_weights).ok()
}

/// Returns the quorums of a cycle, round by round.
fn laid_out(alloc: Global, weights: &[u64], len: usize) -> Result<Vec<usize>, AllocError> {
    let mut quorums = Vec::with_capacity(alloc, len)?;
    for round in 0..weights.iter().copied().max().unwrap_or(0) {
        for (quorum, weight) in weights.iter().enumerate() {
            if round < *weight {
                quorums.push(quorum)?;
            }
        }
    }
    Ok(quorums)
}

/// Returns the next ticket of a sequence without a pattern (Knuth's multiplier for 64 bits).
fn next_ticket(ticket: u64) -> u64 {
    ticket
        .wrapping_mul(6_364_136_223_846_793_005)
        .wrapping_add(1_442_695_040_888_963_407)
}

/// Returns the sum of the quorums' numbers over `lookups` tickets.
fn sum_of(cycle: &Cycle, lookups: u32) -> u64 {
    let mut sum = 0u64;
    let mut ticket = 1;
    for _ in 0..lookups {
        ticket = next_ticket(ticket);
        sum = sum.wrapping_add(cycle.quorum_at(ticket >> 20) as u64);
    }
    sum
}

/// Returns the same sum, by the list of all places.
fn sum_by_list(quorums: &[usize], lookups: u32) -> u64 {
    let len = (quorums.len() as u64).max(1);
    let mut sum = 0u64;
    let mut ticket = 1;
    for _ in 0..lookups {
        ticket = next_ticket(ticket);
        let quorum = quorums.get(((ticket >> 20) % len) as usize);
        sum = sum.wrapping_add(quorum.copied().unwrap_or(0) as u64);
    }
    sum
}

/// Makes the cycle as often as the task says, and looks tickets up.
fn by_blocks(alloc: Global, plan: Plan, task: &Task) -> Option<u64> {
    let mut cycle = Cycle::of(alloc, plan.copy(alloc).ok()?).ok()?;
    for _ in 1..task.makes {
        cycle = Cycle::of(alloc, plan.copy(alloc).ok()?).ok()?;
    }
    Some(sum_of(&cycle, task.lookups))
}

/// Does the same with the list of all places.
fn by_list(alloc: Global, plan: &Plan, weights: &[u64], task: &Task) -> Option<u64> {
    let len = plan.cycle_len() as usize;
    let mut quorums = laid_out(alloc, weights, len).ok()?;
    for _ in 1..task.makes {
        quorums = laid_out(alloc, weights, len).ok()?;
    }
    Some(sum_by_list(&quorums, task.lookups))
}

/// Returns the task of these words, which begin with the program's name and the kind.
pub(crate) fn task_of(words: &[String]) -> Option<Task> {
    if words.len() != 8 {
        return None;
    }
    Some(Task {
        as_list: words[2].as_str() == "list",
        quorums: words[3].parse::<u16>().ok()?,
        steps: words[4].parse::<u32>().ok()?,
        factor: words[5].parse::<u32>().ok()?,
        makes: words[6].parse::<u32>().ok()?,
        lookups: words[7].parse::<u32>().ok()?,
    })
}

/// Does the task. Returns a line with the length of the cycle and the sum of the quorums' numbers, or
/// `None` if the weights are too great or memory runs out.
pub(crate) fn line_of(alloc: Global, task: &Task) -> Option<String> {
    let weights = weights_of(alloc, task).ok()?;
    let plan = plan_with(alloc, weights.as_slice().to_vec(alloc).ok()?)?;
    let len = plan.cycle_len();
    let sum = if task.makes == 0 {
        0
    } else if task.as_list {
        by_list(alloc, &plan, &weights, task)?
    } else {
        by_blocks(alloc, plan, task)?
    };
    format!(in alloc; "cycle {len} sum {sum}").ok()
}
