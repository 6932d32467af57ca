//! Schedules with crashes: voters and clients that save themselves, forget and restart. The seeds are
//! 0 to 999.
//!
//! A restart gives a voter or a client the state again that it saved last, or the least of it. At the end
//! of each schedule nobody crashes any more: then each client asks, if it does not ask already, and gets
//! in by reminders.
ghost use Rattle.std.specs.Prelude.{◌<◌};

use crate::play::{ALL, COUNT, Step, World};
use crate::rules::Rule;
use crate::saved::{ClientKeeps, VoterKeeps};
use rand_core::{Rng, SeedableRng};
use rand_pcg::Pcg64;
use std::alloc::{AllocError, Global};

/// How many steps a schedule has.
const STEPS: u32 = 1000;

/// How many rounds of reminders there are at the end of a schedule.
const ROUNDS: u32 = 32;

/// How often, at least, a quarter of the schedules have to try each thing that is counted.
const OFTEN: u64 = 100;

/// What schedules tried.
#[derive(Clone, Copy, Default)]
struct Tally {
    /// How often client 0 entered.
    entries: u64,
    /// How many clients left because they forgot in a crash that they were inside.
    lost: u64,
    /// How many clients crashed inside, and came back inside.
    resumed: u64,
}

/// A schedule that is being drawn, and the world in which its steps are made.
#[derive(Drop)]
struct Schedule {
    world: World,
    rng: Pcg64,
    /// The message that arrives next, while they arrive in order.
    next: usize,
    tally: Tally,
}

/// Returns a number below the bound.
fn below(rng: &mut Pcg64, bound: u64) -> u64
    requires { 0 < bound }
    ensures { result < bound }
{
    rng.next_u64() % bound
}

/// Returns the quorum with this number: a hub with each of three rims, or all rims.
fn quorum_at(number: u64) -> &'static [u8] {
    match number {
        0 => &[0, 1],
        1 => &[0, 2],
        2 => &[0, 3],
        _ => &[1, 2, 3],
    }
}

/// Returns whether each of these counts is positive.
fn are_positive(counts: [u64; 4]) -> bool {
    counts.iter().all(|count| *count > 0)
}

impl Schedule {
    /// Has the next message arrive. One in eight is lost: it arrives only if it is drawn among all.
    fn deliver_next(&mut self) -> Result<(), AllocError> {
        if below(&mut self.rng, 8) == 0 {
            self.next = self.next.saturating_add(1);
        }
        let number = self.next.min(self.world.sent());
        self.next = number.saturating_add(1).min(self.world.sent());
        self.world.deliver_number(number)
    }

    /// Has one of the messages arrive that were sent, perhaps again.
    fn deliver_any(&mut self) -> Result<(), AllocError> {
        let sent = self.world.sent() as u64;
        let number = below(&mut self.rng, sent.max(1));
        self.world.deliver_number(number as usize)
    }

    fn ask(&mut self, client: u8) -> Result<(), AllocError> {
        let members = quorum_at(below(&mut self.rng, 4));
        self.world.step(Step::Ask(client, members))
    }

    fn crash_voter(&mut self, voter: u8, keeps: VoterKeeps) -> Result<(), AllocError> {
        self.world.keeps.voter = keeps;
        self.world.step(Step::CrashVoter(voter))
    }

    /// Has a client crash. If it was inside and is not, it left.
    fn crash_client(&mut self, client: u8, keeps: ClientKeeps) -> Result<(), AllocError> {
        let was_inside = self.world.is_inside(client);
        self.world.keeps.client = keeps;
        self.world.step(Step::CrashClient(client))?;
        let counted = match (was_inside, self.world.is_inside(client)) {
            (true, true) => &mut self.tally.resumed,
            (true, false) => &mut self.tally.lost,
            _ => return Ok(()),
        };
        *counted = counted.saturating_add(1);
        Ok(())
    }

    /// Draws a step and makes it.
    fn step(&mut self) -> Result<(), AllocError> {
        let client = below(&mut self.rng, u64::from(COUNT)) as u8;
        let voter = below(&mut self.rng, u64::from(COUNT)) as u8;
        match below(&mut self.rng, 64) {
            0..=3 => self.ask(client),
            4..=9 => self.world.step(Step::Leave(client)),
            10 => self.world.step(Step::GiveUp(client)),
            11 => self.world.step(Step::RemindClient(client)),
            12 => self.world.step(Step::RemindVoter(voter)),
            13..=14 => self.crash_client(client, ClientKeeps::All),
            15 => self.crash_client(client, ClientKeeps::Least),
            16 => self.crash_voter(voter, VoterKeeps::All),
            17 => self.crash_voter(voter, VoterKeeps::Least),
            18..=21 => self.deliver_any(),
            _ => self.deliver_next(),
        }
    }

    /// Has nobody crash any more, and each client ask. Returns whether all of them entered.
    fn gets_on(&mut self) -> Result<bool, AllocError> {
        for client in 0..COUNT {
            self.world.step(Step::Leave(client))?;
            self.ask(client)?;
        }
        self.world.entries = [0; 4];
        self.world.step(Step::Rounds(ROUNDS))?;
        Ok(are_positive(self.world.entries))
    }

    /// Plays the schedule. Returns whether at most one client was inside at a time, and all got in at the
    /// end.
    fn plays(&mut self) -> Result<bool, AllocError> {
        for _ in 0..STEPS {
            self.step()?;
        }
        self.tally.entries = self.tally.entries.saturating_add(self.world.entries[0]);
        Ok(self.gets_on()? & (self.world.most_inside == 1))
    }
}

/// Plays the schedule of a seed, and adds what it tried. Returns whether all was right.
fn plays(alloc: Global, seed: u64, tally: &mut Tally) -> Result<bool, AllocError> {
    let mut schedule = Schedule {
        world: World::new(alloc, Rule::Sound, ALL)?,
        rng: Pcg64::seed_from_u64(seed),
        next: 0,
        tally: *tally,
    };
    let right = schedule.plays()?;
    *tally = schedule.tally;
    Ok(right)
}

/// Returns what the schedules of 250 seeds tried, from the first seed on. Returns `None` if one of them
/// was wrong or memory ran out.
fn tried(alloc: Global, first: u64) -> Option<Tally> {
    let mut tally = Tally::default();
    for seed in first..first.saturating_add(250) {
        if plays(alloc, seed, &mut tally) != Ok(true) {
            return None;
        }
    }
    Some(tally)
}

/// Returns whether these schedules kept exclusion, and everything was tried often.
fn is_hostile(alloc: Global, first: u64) -> bool {
    match tried(alloc, first) {
        Some(tally) => {
            (tally.entries >= OFTEN) & (tally.lost >= OFTEN) & (tally.resumed >= OFTEN)
        }
        None => false,
    }
}

#[test]
fn schedules_with_restarts_keep_exclusion(rt: HostRuntime) {
    for first in [0u64, 250, 500, 750] {
        assert!(rt; is_hostile(rt.alloc(), first));
    }
}
