//! Tests of waiting in fair rounds: whoever asks is inside in time, and with a wrong rule somebody is
//! not.
ghost use Rattle.std.specs.Prelude.{◌≤◌};

use crate::fair::{Made, is_fair};
use crate::rounds::{Game, Tally, tally_of};
use crate::rules::Rule;
use crate::waits::SCHEDULES;
use show_waiting::longest_wait;
use std::alloc::{AllocError, Global};
use test_plans::Kind;
use world::Step::{Deliver, Leave, RemindClient, RemindVoter};

/// The coteries of the schedules: each has a fifth of the seeds.
const KINDS: [Kind; 5] = [
    Kind::Majority,
    Kind::Grid,
    Kind::Wheel,
    Kind::MajorityThenAll,
    Kind::GridThenWheel,
];

/// How many rounds a schedule has.
const ROUNDS: u32 = 40;

/// How many rounds a schedule of two clients has that shows a wrong rule. The bound is 60.
const ROUNDS_OF_TWO: u32 = 160;

/// How often, at least, the schedules of a row have to try each thing that is counted.
const OFTEN: u64 = 100;

/// Returns a tally with what a fifth of the schedules tried, for the seeds from 0 on.
fn tried(alloc: Global, game: Game, mut tally: Tally) -> Result<Tally, AllocError> {
    for seed in 0..SCHEDULES / 5 {
        tally = tally_of(alloc, game, seed, ROUNDS, tally)?;
    }
    Ok(tally)
}

/// Returns what schedules of all coteries tried, with this many clients.
fn tried_by_all(alloc: Global, clients: u8, rough: bool) -> Result<Tally, AllocError>
    requires some { 1 ≤ clients }
    requires few { clients ≤ 64 }
{
    let mut tally = Tally::default();
    for kind in KINDS {
        let game = Game {
            kind,
            clients,
            dead: 0,
            down: 0,
            rough,
            checked: false,
            rule: Rule::Sound,
        };
        tally = tried(alloc, game, tally)?;
    }
    Ok(tally)
}

/// Returns whether everybody was inside in time, and everything was tried often.
fn is_in_time(tally: &Tally) -> bool {
    let counts = [tally.rounds, tally.entries, tally.repeats, tally.losses];
    let often = counts.iter().all(|count| *count >= OFTEN);
    often & (tally.overdue == 0) & (tally.unfinished == 0)
}

/// Returns whether schedules without withdrawals and late REQUESTs have the longest wait that is
/// stored.
fn is_stored(alloc: Global, clients: u8, longest: u64) -> Result<bool, AllocError>
    requires some { 1 ≤ clients }
    requires few { clients ≤ 64 }
{
    let tally = tried_by_all(alloc, clients, false)?;
    let quiet = (tally.give_ups == 0) & (tally.late == 0);
    Ok(is_in_time(&tally) & quiet & (tally.longest == longest) & (tally.exchanges >= 10))
}

/// Returns whether schedules with withdrawals and late REQUESTs were in time, and had many of both.
fn is_rough(alloc: Global, clients: u8) -> Result<bool, AllocError>
    requires some { 1 ≤ clients }
    requires few { clients ≤ 64 }
{
    let tally = tried_by_all(alloc, clients, true)?;
    let rough = (tally.give_ups >= OFTEN) & (tally.late >= OFTEN) & (tally.exchanges >= 10);
    Ok(is_in_time(&tally) & rough)
}

#[test]
fn whoever_asks_is_inside_in_time(rt: HostRuntime) {
    for clients in 1..6u8 {
        let longest = longest_wait(u64::from(clients));
        assert!(rt; is_stored(rt.alloc(), clients, longest) == Ok(true));
    }
}

#[test]
fn withdrawals_and_late_requests_are_paid_for(rt: HostRuntime) {
    for clients in 2..6u8 {
        assert!(rt; is_rough(rt.alloc(), clients) == Ok(true));
    }
}

/// Returns whether the rounds of a schedule of this coterie are fair.
fn is_fair_throughout(alloc: Global, kind: Kind, rough: bool) -> Result<bool, AllocError> {
    let game = Game {
        kind,
        clients: 4,
        dead: 0,
        down: 0,
        rough,
        checked: true,
        rule: Rule::Sound,
    };
    let tally = tally_of(alloc, game, 7, ROUNDS, Tally::default())?;
    Ok((tally.unfair == 0) & (tally.rounds == u64::from(ROUNDS)))
}

#[test]
fn rounds_are_fair(rt: HostRuntime) {
    for kind in KINDS {
        for rough in [false, true] {
            assert!(rt; is_fair_throughout(rt.alloc(), kind, rough) == Ok(true));
        }
    }
}

/// A step, and the numbers of the messages that it sent: from the first one to before the end.
macro_rules! made {
    ($step:expr, $first:literal, $end:literal) => {
        Made {
            step: $step,
            first: $first,
            end: $end,
        }
    };
}

/// The steps of a round with one client and one voter, who is inside at its beginning, and whether the
/// round is fair.
const SMALL_ROUNDS: [(&[Made], Option<u8>, bool); 6] = [
    (
        &[
            made!(RemindClient(0), 0, 1),
            made!(Deliver(0), 1, 2),
            made!(RemindVoter(0), 2, 2),
            made!(Deliver(1), 2, 2),
        ],
        None,
        true,
    ),
    // the reply does not arrive
    (
        &[
            made!(RemindClient(0), 0, 1),
            made!(Deliver(0), 1, 2),
            made!(RemindVoter(0), 2, 2),
        ],
        None,
        false,
    ),
    // it arrived only before the message did
    (
        &[
            made!(Deliver(1), 0, 0),
            made!(RemindClient(0), 0, 1),
            made!(Deliver(0), 1, 2),
            made!(RemindVoter(0), 2, 2),
        ],
        None,
        false,
    ),
    // the voter is not reminded
    (&[made!(RemindClient(0), 0, 0)], None, false),
    // who is inside leaves, or does not
    (
        &[
            made!(RemindClient(0), 0, 0),
            made!(RemindVoter(0), 0, 0),
            made!(Leave(0), 0, 1),
        ],
        Some(0),
        true,
    ),
    (
        &[made!(RemindClient(0), 0, 0), made!(RemindVoter(0), 0, 0)],
        Some(0),
        false,
    ),
];

#[test]
fn unfair_rounds_are_seen(rt: HostRuntime) {
    for (steps, inside, fair) in &SMALL_ROUNDS {
        assert!(rt; is_fair(steps, 1, 1, *inside) == *fair);
    }
}

/// Seeds with which each wrong rule shows.
const SEEDS: [u64; 3] = [16, 82, 87];

/// Returns how often a client was not inside in time, in a schedule of two clients under a rule. Their
/// quorums share two voters at least, so that each may have a vote that the other one lacks.
fn overdue(alloc: Global, rule: Rule, seed: u64) -> Result<u64, AllocError> {
    let game = Game {
        kind: Kind::Grid,
        clients: 2,
        dead: 0,
        down: 0,
        rough: false,
        checked: false,
        rule,
    };
    Ok(tally_of(alloc, game, seed, ROUNDS_OF_TWO, Tally::default())?.overdue)
}

/// Returns in how many schedules somebody was not inside in time under a rule.
fn too_late(alloc: Global, rule: Rule) -> usize {
    let seeds = SEEDS.iter();
    seeds
        .filter(|seed| matches!(overdue(alloc, rule, **seed), Ok(times) if times > 0))
        .count()
}

/// Rules, and in how many schedules somebody has to wait for longer than the bound.
const RULES: [(Rule, usize); 4] = [
    (Rule::Sound, 0),
    (Rule::VoteIsNotAskedBack, 3),
    (Rule::AskedVoteIsKept, 3),
    (Rule::HinderedClientWaits, 3),
];

#[test]
fn wrong_rules_make_clients_wait_for_longer(rt: HostRuntime) {
    for (rule, wanted) in &RULES {
        assert!(rt; too_late(rt.alloc(), *rule) == *wanted);
    }
}

/// Schedules in which clients die and voters are down: the coterie, how many clients there are, how many of them die,
/// and how many voters are down.
const LOSSES: [(Kind, u8, u8, u8); 7] = [
    (Kind::Majority, 3, 1, 0),
    (Kind::Majority, 3, 0, 1),
    (Kind::Majority, 4, 2, 1),
    (Kind::Grid, 4, 1, 0),
    (Kind::Grid, 5, 2, 1),
    (Kind::Wheel, 5, 2, 1),
    (Kind::MajorityThenAll, 4, 2, 0),
];

/// Returns what schedules tried in which so many clients die and voters are down.
fn tried_with_losses(
    alloc: Global,
    losses: (Kind, u8, u8, u8),
    rough: bool,
) -> Result<Tally, AllocError>
    requires some { 1 ≤ losses.1 }
    requires few { losses.1 ≤ 64 }
{
    let (kind, clients, dead, down) = losses;
    let game = Game {
        kind,
        clients,
        dead,
        down,
        rough,
        checked: false,
        rule: Rule::Sound,
    };
    tried(alloc, game, Tally::default())
}

/// Returns whether each live client was inside in time, while these clients are dead and these voters down.
fn is_in_time_with_losses(
    alloc: Global,
    losses: (Kind, u8, u8, u8),
    rough: bool,
) -> Result<bool, AllocError>
    requires some { 1 ≤ losses.1 }
    requires few { losses.1 ≤ 64 }
{
    let tally = tried_with_losses(alloc, losses, rough)?;
    let evicted = (losses.2 == 0) | (tally.evictions >= 10);
    let failed_over = (losses.3 == 0) | (tally.fail_overs >= OFTEN);
    Ok(is_in_time(&tally) & evicted & failed_over)
}

#[test]
fn whoever_is_live_and_asks_is_inside_in_time(rt: HostRuntime) {
    for losses in LOSSES {
        for rough in [false, true] {
            assert!(rt; is_in_time_with_losses(rt.alloc(), losses, rough) == Ok(true));
        }
    }
}

/// Wrong rules while a client is dead or a voter is down: the rule, how many of two clients die, and how many voters are
/// down.
const RULES_WITH_LOSSES: [(Rule, u8, u8); 2] = [
    (Rule::DeadKeepTheirVotes, 1, 0),
    (Rule::StuckClientsWait, 0, 1),
];

/// Returns how often a client was not inside in time in schedules of two clients, of which so many die, while so many
/// voters are down.
fn overdue_with_losses(alloc: Global, rule: Rule, dead: u8, down: u8) -> Result<u64, AllocError> {
    let game = Game {
        kind: Kind::Majority,
        clients: 2,
        dead,
        down,
        rough: false,
        checked: false,
        rule,
    };
    let mut tally = Tally::default();
    for seed in 0..20 {
        tally = tally_of(alloc, game, seed, ROUNDS_OF_TWO, tally)?;
    }
    Ok(tally.overdue)
}

#[test]
fn wrong_rules_make_clients_wait_while_others_are_dead_or_down(rt: HostRuntime) {
    for (rule, dead, down) in &RULES_WITH_LOSSES {
        let sound = overdue_with_losses(rt.alloc(), Rule::Sound, *dead, *down);
        let wrong = overdue_with_losses(rt.alloc(), *rule, *dead, *down);
        assert!(rt; sound == Ok(0));
        assert!(rt; matches!(wrong, Ok(times) if times > 0));
    }
}
