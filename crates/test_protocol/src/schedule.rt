//! Schedules: lists of steps that a generator draws.
ghost use Rattle.std.specs.Prelude.{◌<◌, ◌≤◌};

use crate::fold::{Fold, Sizes};
use message::{ClientBody, Message};
use rand_core::{Rng, SeedableRng};
use rand_pcg::Pcg64;
use requester::Seen;
use std::alloc::{AllocError, Global};
use test_plans::Kind;
use world::{Step, Stepped, WorldFault};

/// How many steps a schedule of one plan has.
const STEPS: usize = 2000;

/// How many steps a schedule of two plans has.
const STEPS_OF_TWO: usize = 500;

/// One step in this many exchanges the plan, if there are two.
const EXCHANGES: u64 = 128;

/// What schedules tried.
#[derive(Clone, Copy, Default)]
pub struct Tally {
    /// How many clients entered.
    pub entries: u64,
    /// How many messages arrived again.
    pub repeats: u64,
    /// How many LOCKED messages arrived for a request that no longer ran, so that the vote went
    /// back.
    pub late: u64,
    /// How many messages a voter refused because it had no grant left.
    pub spent: u64,
    /// How many messages arrived before they were sent.
    pub absent: u64,
    /// How often a plan was exchanged.
    pub exchanges: u64,
    /// How often this was done while a client was inside.
    pub amid: u64,
    /// How often it was refused, because the second plan was in use already.
    pub refusals: u64,
    /// How many clients entered after the plan was exchanged.
    pub later: u64,
}

/// A schedule that is being drawn, and the world in which its steps are made.
#[derive(Drop)]
pub struct Schedule {
    /// Its world, after its steps so far.
    pub fold: Fold,
    /// Its steps so far.
    pub steps: Vec<Step>,
    /// How large its world is.
    pub sizes: Sizes,
    /// Its coteries.
    pub kind: Kind,
    voters: u8,
    rng: Pcg64,
    /// Whether the plan was exchanged.
    exchanged: bool,
    /// The message that arrives next, while they arrive in order.
    next: u64,
    /// For each message, by number, whether it arrived.
    came: Vec<bool>,
    ghost some: { 1 ≤ voters },
}

/// Returns a number below the bound.
pub fn below(rng: &mut Pcg64, bound: u64) -> u64
    requires { 0 < bound }
    ensures { result < bound }
{
    rng.next_u64() % bound
}

/// Draws how large a world is.
fn draw_sizes(rng: &mut Pcg64) -> Sizes {
    let clients = 1 + below(rng, 4) as u8;
    let limit = match below(rng, 3) {
        0 => 1,
        1 => 2,
        _ => 1000,
    };
    Sizes { clients, limit }
}

impl Schedule {
    /// Returns the schedule of a seed, with no step yet.
    fn new(alloc: Global, kind: Kind, seed: u64) -> Result<Schedule, AllocError> {
        let mut rng = Pcg64::seed_from_u64(seed);
        let sizes = draw_sizes(&mut rng);
        let fold = Fold::of_kind(alloc, kind, sizes)?;
        Ok(Schedule {
            fold,
            steps: Vec::new(alloc),
            sizes,
            kind,
            voters: kind.voters(),
            rng,
            exchanged: false,
            next: 0,
            came: Vec::new(alloc),
        })
    }

    fn draw_client(&mut self) -> u8 {
        below(&mut self.rng, u64::from(self.sizes.clients)) as u8
    }

    fn draw_voter(&mut self) -> u8 {
        below(&mut self.rng, u64::from(self.voters)) as u8
    }

    /// Draws one of the messages that were sent. If none was sent, returns message 0, which does
    /// not exist yet.
    fn draw_sent(&mut self) -> u64 {
        let sent = self.fold.world.sent() as u64;
        if sent == 0 {
            return 0;
        }
        below(&mut self.rng, sent)
    }

    /// Draws the delivery of the next message in order. If all have arrived, a client asks or
    /// leaves.
    ///
    /// One message in eight is lost: it arrives only if it is drawn among all messages.
    fn draw_next(&mut self) -> Step {
        if below(&mut self.rng, 8) == 0 {
            self.next = self.next.saturating_add(1);
        }
        let number = self.next;
        if number < self.fold.world.sent() as u64 {
            self.next = number.saturating_add(1);
            return Step::Deliver(number);
        }
        self.next = self.fold.world.sent() as u64;
        if below(&mut self.rng, 2) == 0 {
            Step::Ask(self.draw_client())
        } else {
            Step::Leave(self.draw_client())
        }
    }

    /// Draws a message that was not sent yet.
    fn draw_absent(&mut self) -> u64 {
        (self.fold.world.sent() as u64).saturating_add(below(&mut self.rng, 4))
    }

    fn draw_step(&mut self) -> Step {
        if self.kind.are_two() && below(&mut self.rng, EXCHANGES) == 0 {
            return Step::Exchange;
        }
        match below(&mut self.rng, 32) {
            0..=2 => Step::Ask(self.draw_client()),
            3..=5 => Step::Leave(self.draw_client()),
            6 => Step::GiveUp(self.draw_client()),
            7 => Step::RemindClient(self.draw_client()),
            8 => Step::RemindVoter(self.draw_voter()),
            9 => Step::Deliver(self.draw_absent()),
            10..=14 => Step::Deliver(self.draw_sent()),
            _ => self.draw_next(),
        }
    }

    /// Notes that a message arrives, and returns whether it arrived before. A message that was not
    /// sent is not noted.
    fn note(&mut self, number: u64) -> Result<bool, AllocError> {
        for _ in self.came.len()..self.fold.world.sent() {
            self.came.push(false)?;
        }
        match self.came.get_mut(number as usize) {
            Some(came) => {
                let again = *came;
                *came = true;
                Ok(again)
            }
            None => Ok(false),
        }
    }

    /// Returns the message with this number, if it was sent.
    fn message(&self, number: u64) -> Option<Message> {
        let number = number as usize;
        if number < self.fold.world.sent() {
            Some(self.fold.world.message(number))
        } else {
            None
        }
    }

    /// Returns whether a client is inside.
    fn is_one_inside(&self) -> bool {
        match self.fold.world.visible().last() {
            Some(event) => event.entered,
            None => false,
        }
    }

    /// Exchanges the plan, and counts it.
    fn exchange(&mut self, tally: &mut Tally) -> Result<(), AllocError> {
        if self.fold.play(Step::Exchange)?.is_err() {
            tally.refusals = tally.refusals.saturating_add(1);
            return Ok(());
        }
        self.exchanged = true;
        tally.exchanges = tally.exchanges.saturating_add(1);
        if self.is_one_inside() {
            tally.amid = tally.amid.saturating_add(1);
        }
        Ok(())
    }

    /// Draws a step, makes it, and counts what it tried.
    fn add_step(&mut self, tally: &mut Tally) -> Result<(), AllocError> {
        let step = self.draw_step();
        self.steps.push(step)?;
        if let Step::Exchange = step {
            return self.exchange(tally);
        }
        let Step::Deliver(number) = step else {
            let _ = self.fold.play(step)?;
            return Ok(());
        };
        let Some(message) = self.message(number) else {
            tally.absent = tally.absent.saturating_add(1);
            let _ = self.fold.play(step)?;
            return Ok(());
        };
        let again = self.note(number)?;
        let answer = self.fold.play(step)?;
        tally.count(&message, again, &answer);
        if self.exchanged && matches!(answer, Ok(stepped) if stepped.seen == Seen::Entered) {
            tally.later = tally.later.saturating_add(1);
        }
        Ok(())
    }
}

impl Tally {
    /// Counts a delivery and what it did.
    fn count(&mut self, message: &Message, again: bool, answer: &Result<Stepped, WorldFault>) {
        if again {
            self.repeats = self.repeats.saturating_add(1);
        }
        match (message, answer) {
            (Message::ToVoter(_), Err(WorldFault::Voter(_))) => {
                self.spent = self.spent.saturating_add(1);
            }
            (Message::ToClient(heard), Ok(stepped)) => {
                if matches!(heard.body, ClientBody::Locked { .. }) && stepped.sent > 0 {
                    self.late = self.late.saturating_add(1);
                }
                if stepped.seen == Seen::Entered {
                    self.entries = self.entries.saturating_add(1);
                }
            }
            _ => {}
        }
    }
}

/// Draws the schedule of a seed, makes its steps as they are drawn, and counts what they tried.
pub fn drawn(
    alloc: Global,
    kind: Kind,
    seed: u64,
    tally: &mut Tally,
) -> Result<Schedule, AllocError> {
    let mut schedule = Schedule::new(alloc, kind, seed)?;
    let steps = if kind.are_two() { STEPS_OF_TWO } else { STEPS };
    for _ in 0..steps {
        schedule.add_step(tally)?;
    }
    Ok(schedule)
}
