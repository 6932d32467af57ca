//! Worlds in fair rounds, between whose duties an adversary does anything else.
//!
//! The adversary has idle clients ask, and clients leave early or give up. It has messages arrive
//! again, late or out of order, and all that no duty names it may lose. If there are two plans, it
//! exchanges the first.
//!
//! After some rounds clients may die, and voters may be down: then the rounds are live rounds. Who is dead
//! or down does nothing more, and what is sent to it does not arrive. What it sent before may arrive.
ghost use Rattle.std.specs.Prelude.{◌<◌, ◌≤◌};

use crate::duties::{Duty, add, take};
use crate::fair::{Made, is_fair};
use crate::rules::{
    Rule, client_of, is_release, is_request, is_stuck, is_vote_of_other, message_of, takes,
    voter_of,
};
use crate::waits::Wait;
use incidents::IncidentWorld;
use message::Message;
use rand_core::{Rng, SeedableRng};
use rand_pcg::Pcg64;
use requester::{Phase, Seen};
use std::alloc::{AllocError, Global};
use test_plans::Kind;
use world::Step;

/// How many steps a round may have before it is given up. None needs this many.
const MOST_STEPS: u32 = 4000;

/// The greatest stamp and the greatest number of a grant: more than any schedule needs.
const LIMIT: u64 = 1_000_000_000;

/// After how many rounds clients die, and voters are down.
const LOSS: u64 = 3;

/// In which order duties are done.
#[derive(Clone, Copy)]
enum Order {
    /// In any.
    Any,
    /// The oldest first.
    Oldest,
    /// The newest first.
    Newest,
}

/// How an adversary plays.
#[derive(Clone, Copy)]
struct Style {
    order: Order,
    /// Of eight steps, how many are the adversary's.
    busy: u64,
    /// Whether there are withdrawals, and REQUESTs that come late.
    rough: bool,
    /// Whether all is done against client 0: its messages arrive by duties alone, and others leave as
    /// late as they may.
    hostile: bool,
    /// Whether other clients get their votes as soon as a round begins, and ask as soon as it ends.
    grabs: bool,
}

/// A schedule: what is drawn, and how.
#[derive(Clone, Copy)]
pub struct Game {
    /// The coteries.
    pub kind: Kind,
    /// How many clients there are.
    pub clients: u8,
    /// How many of them die after some rounds: the last ones.
    pub dead: u8,
    /// How many voters are down after these rounds: the last ones.
    pub down: u8,
    /// Whether clients give up, and REQUESTs come late.
    pub rough: bool,
    /// Whether each round is tested to be fair.
    pub checked: bool,
    /// The rule that voters and clients follow.
    pub rule: Rule,
    ghost some: { 1 ≤ clients },
    ghost few: { clients ≤ 64 },
}

/// What schedules tried.
#[derive(Clone, Copy, Default)]
pub struct Tally {
    /// How many rounds there were.
    pub rounds: u64,
    /// How many clients entered.
    pub entries: u64,
    /// How many clients gave up.
    pub give_ups: u64,
    /// How many REQUESTs came late.
    pub late: u64,
    /// How many messages arrived again.
    pub repeats: u64,
    /// How many messages never arrived.
    pub losses: u64,
    /// How often a plan was exchanged.
    pub exchanges: u64,
    /// How many grants of dead clients were let go.
    pub evictions: u64,
    /// How many clients gave up since a voter was down.
    pub fail_overs: u64,
    /// The longest wait, in rounds.
    pub longest: u64,
    /// How often a client was not inside in time.
    pub overdue: u64,
    /// How many rounds were not ended.
    pub unfinished: u64,
    /// How many rounds were tested, and were not fair.
    pub unfair: u64,
}

/// A world that is played in fair rounds.
#[derive(Drop)]
struct Play {
    world: IncidentWorld,
    game: Game,
    style: Style,
    rng: Pcg64,
    voters: u8,
    /// What the round still owes.
    duties: Vec<Duty>,
    /// The wait of each client.
    waits: Vec<Wait>,
    /// For each message, by number, whether it arrived.
    came: Vec<bool>,
    /// How many messages had been sent when the last round began.
    old: usize,
    /// How many messages had been sent when this round began.
    young: usize,
    /// The withdrawals and the late REQUESTs of this round.
    give_ups: u64,
    late: u64,
    /// The steps of this round.
    made: Vec<Made>,
    /// Who was inside when this round began.
    inside: Option<u8>,
    /// How many rounds were played.
    played: u64,
    tally: Tally,
    ghost some: { 1 ≤ voters },
}

/// Counts one more.
fn count(number: &mut u64) {
    *number = number.saturating_add(1);
}

/// Returns the new world of a game.
fn new_world(alloc: Global, game: Game) -> Result<IncidentWorld, AllocError> {
    let plans = game.kind.plans(alloc).ok_or(AllocError)?;
    IncidentWorld::new(alloc, plans, game.clients, LIMIT)
}

/// Returns a number below the bound.
fn below(rng: &mut Pcg64, bound: u64) -> u64
    requires { 0 < bound }
    ensures { result < bound }
{
    rng.next_u64() % bound
}

/// Draws how an adversary plays.
fn draw_style(rng: &mut Pcg64, rough: bool) -> Style {
    let order = match below(rng, 3) {
        0 => Order::Any,
        1 => Order::Oldest,
        _ => Order::Newest,
    };
    let grabs = below(rng, 2) == 0;
    Style {
        order,
        busy: if grabs { below(rng, 2) } else { below(rng, 7) },
        rough,
        hostile: below(rng, 4) != 0,
        grabs,
    }
}

/// Returns the stamp of a client that asks, or 0 if it does not.
fn asking_stamp(world: &IncidentWorld, client: u8) -> u64 {
    match world.client(client) {
        Some(client) if client.phase() == Phase::Asking => client.stamp(),
        _ => 0,
    }
}

/// Returns the client that is inside, if one is.
fn inside_of(world: &IncidentWorld) -> Option<u8> {
    match world.visible().last() {
        Some(event) if event.entered => Some(event.client),
        _ => None,
    }
}

impl Play {
    /// Returns the play of a seed, with no round yet.
    fn new(alloc: Global, game: Game, seed: u64, tally: Tally) -> Result<Play, AllocError> {
        let mut rng = Pcg64::seed_from_u64(seed);
        let style = draw_style(&mut rng, game.rough);
        let waits = vec![in alloc; Wait::default(); usize::from(game.clients)]?;
        let world = new_world(alloc, game)?;
        Ok(Play {
            world,
            game,
            style,
            rng,
            voters: game.kind.voters(),
            duties: Vec::new(alloc),
            waits,
            came: Vec::new(alloc),
            old: 0,
            young: 0,
            give_ups: 0,
            late: 0,
            made: Vec::new(alloc),
            inside: None,
            played: 0,
            tally,
        })
    }

    fn draw(&mut self, bound: u64) -> u64
        requires { 0 < bound }
        ensures { result < bound }
    {
        below(&mut self.rng, bound)
    }

    /// Returns whether there are dead clients or voters that are down by now.
    fn is_struck(&self) -> bool {
        self.played >= LOSS && (self.game.dead > 0 || self.game.down > 0)
    }

    /// Returns how many clients are live: those before the dead ones.
    fn live_clients(&self) -> u8 {
        if self.is_struck() {
            self.game.clients.saturating_sub(self.game.dead)
        } else {
            self.game.clients
        }
    }

    /// Returns how many voters are live.
    fn live_voters(&self) -> u8 {
        if self.is_struck() {
            self.voters.saturating_sub(self.game.down)
        } else {
            self.voters
        }
    }

    /// Returns whether a message is between a live client and a live voter.
    fn is_between(&self, number: u64) -> bool {
        message_of(&self.world, number).is_some_and(|message| {
            client_of(message) < self.live_clients() && voter_of(message) < self.live_voters()
        })
    }

    /// Returns whether a message can arrive: whoever it is sent to is live.
    fn can_arrive(&self, number: u64) -> bool {
        match message_of(&self.world, number) {
            Some(Message::ToVoter(heard)) => heard.voter < self.live_voters(),
            Some(Message::ToClient(heard)) => heard.client < self.live_clients(),
            None => true,
        }
    }

    /// Returns whether somebody who is live makes the step.
    fn can_be_made(&self, step: Step) -> bool {
        match step {
            Step::Ask(client)
            | Step::Leave(client)
            | Step::GiveUp(client)
            | Step::RemindClient(client) => client < self.live_clients(),
            Step::RemindVoter(voter) => voter < self.live_voters(),
            Step::Deliver(number) => self.can_arrive(number),
            Step::Exchange => true,
        }
    }

    /// Notes that a message arrives, and whether it comes again or late.
    fn note_arrival(&mut self, number: u64) -> Result<(), AllocError> {
        for _ in self.came.len()..self.world.sent() {
            self.came.push(false)?;
        }
        if self.is_late(number) {
            count(&mut self.late);
        }
        if let Some(came) = self.came.get_mut(number as usize) {
            if *came {
                count(&mut self.tally.repeats);
            }
            *came = true;
        }
        Ok(())
    }

    /// Returns whether a message that arrives now is a REQUEST that comes late: later than in the round
    /// after the one in which it was sent.
    fn is_late(&self, number: u64) -> bool {
        number < self.old as u64 && message_of(&self.world, number).is_some_and(is_request)
    }

    /// Notes what a step tries.
    fn note(&mut self, step: Step) -> Result<(), AllocError> {
        match step {
            Step::Deliver(number) => self.note_arrival(number),
            Step::GiveUp(_) => {
                count(&mut self.give_ups);
                Ok(())
            }
            _ => Ok(()),
        }
    }

    /// Returns whether a step has an effect, by the rule.
    fn has_effect(&self, step: Step) -> bool {
        let Step::Deliver(number) = step else {
            return true;
        };
        match message_of(&self.world, number) {
            Some(Message::ToClient(heard)) => takes(self.game.rule, &self.world, heard),
            _ => true,
        }
    }

    /// Notes that a client entered, and how long it had waited.
    fn note_entry(&mut self) {
        count(&mut self.tally.entries);
        let Some(client) = inside_of(&self.world) else {
            return;
        };
        let stamp = self.world.client(client).map(|client| client.stamp());
        if let Some(wait) = self.waits.get(usize::from(client))
            && stamp == Some(wait.stamp)
        {
            self.tally.longest = self.tally.longest.max(wait.rounds.saturating_add(1));
        }
    }

    /// Makes a step, if it has an effect.
    fn try_step(&mut self, step: Step) {
        if !self.has_effect(step) {
            return;
        }
        if let Ok(stepped) = self.world.step(step) {
            match step {
                Step::Exchange => count(&mut self.tally.exchanges),
                _ if stepped.seen == Seen::Entered => self.note_entry(),
                _ => {}
            }
        }
    }

    /// Makes a step, and notes it.
    fn make(&mut self, step: Step) -> Result<(), AllocError> {
        if !self.can_be_made(step) {
            return Ok(());
        }
        let first = self.world.sent() as u64;
        self.note(step)?;
        self.try_step(step);
        let end = self.world.sent() as u64;
        self.made.push(Made { step, first, end })?;
        Ok(())
    }

    /// Returns the place of the duty that is done next.
    fn draw_place(&mut self) -> usize {
        let count = self.duties.len();
        if count == 0 {
            return 0;
        }
        let place = match self.style.order {
            Order::Any => self.draw(count as u64) as usize,
            Order::Oldest => 0,
            Order::Newest => count - 1,
        };
        match self.duties.get(place) {
            Some(duty) if self.style.hostile && matches!(duty.step, Step::Leave(_)) => {
                place.saturating_add(1) % count
            }
            _ => place,
        }
    }

    /// Does a duty, and adds what it leads to.
    fn do_duty(&mut self) -> Result<(), AllocError> {
        let place = self.draw_place();
        let Some(duty) = take(&mut self.duties, place) else {
            return Ok(());
        };
        let first = self.world.sent();
        self.make(duty.step)?;
        let end = self.world.sent();
        if let Step::RemindVoter(voter) = duty.step {
            self.drop_dead(voter);
        }
        self.follow(duty, first, end)
    }

    /// Adds the arrival of each message that a duty sent: of those from `first` on, and before `end`, that are
    /// between live ones.
    fn follow(&mut self, duty: Duty, first: usize, end: usize) -> Result<(), AllocError> {
        if duty.depth == 0 {
            return Ok(());
        }
        let depth = duty.depth - 1;
        for number in first..end {
            if self.is_between(number as u64) {
                add(&mut self.duties, Step::Deliver(number as u64), depth)?;
            }
        }
        Ok(())
    }

    /// Returns whether a dead client has the vote of a voter.
    fn is_held_by_dead(&self, voter: u8) -> bool {
        let held = self.world.voter(voter).and_then(|voter| voter.held());
        held.is_some_and(|grant| grant.client >= self.live_clients())
    }

    /// Has a voter let the grants of dead clients go.
    fn drop_dead(&mut self, voter: u8) {
        if self.game.rule == Rule::DeadKeepTheirVotes {
            return;
        }
        for _ in 0..self.game.clients {
            if !self.is_held_by_dead(voter) || self.world.evict(voter).is_err() {
                return;
            }
            count(&mut self.tally.evictions);
        }
    }

    /// Draws one of the last messages, or of all.
    fn draw_message(&mut self, last: u64) -> Option<u64> {
        let sent = self.world.sent() as u64;
        if sent == 0 {
            return None;
        }
        let back = self.draw(sent.min(last).max(1));
        Some(sent.saturating_sub(back.saturating_add(1)))
    }

    /// Returns the arrival of a message, if the style has it.
    fn arrival(&self, number: u64) -> Option<Step> {
        let message = message_of(&self.world, number)?;
        let against = self.style.hostile && (client_of(message) == 0 || is_release(message));
        if against || (!self.style.rough && self.is_late(number)) {
            return None;
        }
        Some(Step::Deliver(number))
    }

    fn draw_recent(&mut self) -> Option<Step> {
        let number = self.draw_message(24)?;
        self.arrival(number)
    }

    fn draw_old(&mut self) -> Option<Step> {
        let number = self.draw_message(u64::MAX)?;
        self.arrival(number)
    }

    /// Returns the exchange of the plan, if there is a second one, one time in 32.
    fn draw_exchange(&mut self) -> Option<Step> {
        if self.game.kind.are_two() && self.draw(32) == 0 {
            Some(Step::Exchange)
        } else {
            None
        }
    }

    /// Draws what the adversary does, if it does anything.
    fn draw_step(&mut self) -> Option<Step> {
        let client = self.draw(u64::from(self.game.clients)) as u8;
        match self.draw(32) {
            0..=7 => Some(Step::Ask(client)),
            8 if !self.style.hostile => Some(Step::Leave(client)),
            9 => Some(Step::RemindClient(client)),
            10 => Some(Step::RemindVoter(self.draw(u64::from(self.voters)) as u8)),
            11 if self.style.rough && asking_stamp(&self.world, client) > 0 => {
                Some(Step::GiveUp(client))
            }
            12..=15 => self.draw_old(),
            16 => self.draw_exchange(),
            _ => self.draw_recent(),
        }
    }

    /// Does what the adversary draws.
    fn meddle(&mut self) -> Result<(), AllocError> {
        match self.draw_step() {
            Some(step) => self.make(step),
            None => Ok(()),
        }
    }

    /// Has the last votes of other clients arrive.
    fn grab(&mut self) -> Result<(), AllocError> {
        if !self.style.grabs {
            return Ok(());
        }
        let sent = self.world.sent() as u64;
        for number in sent.saturating_sub(64)..sent {
            if message_of(&self.world, number).is_some_and(is_vote_of_other) {
                self.make(Step::Deliver(number))?;
            }
        }
        Ok(())
    }

    /// Has idle clients ask, the others more often than client 0.
    fn ask_again(&mut self) -> Result<(), AllocError> {
        if !self.style.grabs {
            return Ok(());
        }
        for client in 0..self.game.clients {
            let often = if client == 0 { 2 } else { 7 };
            if self.draw(8) < often {
                self.make(Step::Ask(client))?;
            }
        }
        Ok(())
    }

    /// Begins a round: lists its duties.
    fn begin(&mut self) -> Result<(), AllocError> {
        self.made.clear();
        self.inside = inside_of(&self.world);
        self.old = self.young;
        self.young = self.world.sent();
        self.give_ups = 0;
        self.late = 0;
        self.add_reminders()?;
        self.add_ends()
    }

    /// Adds the reminders of all who are live.
    fn add_reminders(&mut self) -> Result<(), AllocError> {
        for client in 0..self.live_clients() {
            add(&mut self.duties, Step::RemindClient(client), 2)?;
        }
        for voter in 0..self.live_voters() {
            add(&mut self.duties, Step::RemindVoter(voter), 2)?;
        }
        Ok(())
    }

    /// Adds that live clients leave that are inside, and that those end their requests that wait for a voter that is
    /// down.
    fn add_ends(&mut self) -> Result<(), AllocError> {
        let live = self.live_voters();
        for number in 0..self.live_clients() {
            let (is_inside, waits_in_vain) = match self.world.client(number) {
                Some(client) => (client.phase() == Phase::Inside, is_stuck(client, live)),
                None => (false, false),
            };
            if is_inside {
                add(&mut self.duties, Step::Leave(number), 0)?;
            }
            if waits_in_vain && self.game.rule != Rule::StuckClientsWait {
                count(&mut self.tally.fail_overs);
                add(&mut self.duties, Step::GiveUp(number), 0)?;
            }
        }
        Ok(())
    }

    /// Returns whether this round was fair.
    fn is_fair(&self) -> bool {
        is_fair(&self.made, self.game.clients, self.voters, self.inside)
    }

    /// Counts the round for a client, if it waited all along.
    fn end_wait(&mut self, client: u8) {
        let stamp = asking_stamp(&self.world, client);
        let (clients, live, is_struck) = (self.game.clients, self.live_clients(), self.is_struck());
        let Some(wait) = self.waits.get_mut(usize::from(client)) else {
            return;
        };
        if stamp == 0 || stamp != wait.stamp {
            *wait = Wait::of(stamp);
            return;
        }
        wait.pass(self.give_ups, self.late);
        self.tally.longest = self.tally.longest.max(wait.rounds);
        if wait.is_over(clients, live, is_struck) {
            count(&mut self.tally.overdue);
        }
    }

    /// Ends a round: counts it.
    fn end(&mut self) {
        count(&mut self.tally.rounds);
        self.tally.give_ups = self.tally.give_ups.saturating_add(self.give_ups);
        self.tally.late = self.tally.late.saturating_add(self.late);
        if self.game.checked && !self.is_fair() {
            count(&mut self.tally.unfair);
        }
        for client in 0..self.live_clients() {
            self.end_wait(client);
        }
        self.played = self.played.saturating_add(1);
        if self.played == LOSS && self.is_struck() {
            self.waits.fill(Wait::default());
        }
    }

    /// Plays a fair round.
    fn round(&mut self) -> Result<(), AllocError> {
        self.begin()?;
        self.grab()?;
        for _ in 0..MOST_STEPS {
            if self.duties.len() == 0 {
                self.ask_again()?;
                self.end();
                return Ok(());
            }
            if self.draw(8) < self.style.busy {
                self.meddle()?;
            } else {
                self.do_duty()?;
            }
        }
        count(&mut self.tally.unfinished);
        Ok(())
    }

    /// Plays this many fair rounds.
    fn rounds(&mut self, count: u32) -> Result<(), AllocError> {
        for _ in 0..count {
            self.round()?;
        }
        Ok(())
    }

    /// Returns the tally, with what the play tried.
    fn tally(&self) -> Tally {
        let came = self.came.iter().filter(|came| **came).count();
        let mut tally = self.tally;
        let lost = self.world.sent().saturating_sub(came) as u64;
        tally.losses = tally.losses.saturating_add(lost);
        tally
    }
}

/// Plays this many fair rounds by a seed, and returns the tally with what they tried.
pub fn tally_of(
    alloc: Global,
    game: Game,
    seed: u64,
    rounds: u32,
    tally: Tally,
) -> Result<Tally, AllocError> {
    let mut play = Play::new(alloc, game, seed, tally)?;
    play.rounds(rounds)?;
    Ok(play.tally())
}
