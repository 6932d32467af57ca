//! A player of stories.
ghost use Rattle.std.specs.Prelude.{◌≡◌, IfNone, IfOk, IfSome, OnErr, OnOk, false, length, nat_lt, option_and_then, slice_index, slice_set, true};
ghost use Rattle.incidents.specs.Calls.{IsCalm};
ghost use Rattle.stories.specs.Guards.{late_of};
ghost use Rattle.stories.specs.Plays.{count, count_beside, count_on, first_scene, note, pass_at, play, turn_did};
ghost use Rattle.stories.specs.declared.turn.Turn.TheVariants as turns;
ghost use Rattle.requester.specs.Words.{is_inside};
ghost use Rattle.ways.specs.Leads.{LeadsIn};
ghost use Rattle.world.specs.Restarts.{crash_seen, pass_of};
ghost use Rattle.world.specs.SavedWorlds.{live_of};
ghost use Rattle.world.specs.States.{node_of};
ghost use Rattle.world_state.specs.Steps.{client_at};

use crate::guard::{no_passes, pass_at, refusal, set_pass, show};
use crate::happening::{Happening, Late};
use crate::reading::StoryScript;
use crate::turn::Turn;
use dealer::Plans;
use fence::{Fence, Pass, pass_of};
use incidents::{IncidentFault, IncidentWorld};
use numbers::{MAX_CLIENTS, MAX_VOTERS};
use requester::Seen;
use std::alloc::{AllocError, Global};
use std::marker::Model;
use ways::{WayIn, let_in};
use world::{Maker, Step, World, WorldFault};

/// A world in which clients and voters crash, voters let grants go, and voters and clients come back
/// without their states. Beside it are the guard, each client's pass, and how many messages each client and
/// each voter took since it saved its state last.
///
/// Contracts see it as a `Scene`.
#[derive(Drop)]
pub struct Player {
    world: IncidentWorld,
    calm: bool,
    clients: Vec<usize>,
    voters: Vec<usize>,
    passes: Vec<Option<Pass>>,
    fence: Fence,
}

impl Model for Player {
    ghost use Rattle.std.specs.Prelude.{◌≡◌, true};
    ghost use Rattle.stories.specs.Plays.{Scene, guard_of};
    ghost use Rattle.std.specs.Coded.{codes};
    ghost use Rattle.incidents.specs.Calls.{IsCalm};
    ghost use Rattle.incidents.specs.contracts.incident_world.IncidentWorld as known;

    ghost Value = { Scene };

    ghost coded = { Prim.hlevel (codes, known.the_row.coded) };

    ghost view = { λ p. record {
      world = p.world;
      calm = p.calm;
      clients = p.clients.items;
      voters = p.voters.items;
      passes = p.passes.items;
      guard = guard_of p.fence;
    } };

    ghost invariant = { λ p. p.calm ≡ true → IsCalm p.world };
}

/// Returns a count: 0 if there is none with this number.
fn count_of(counts: &[usize], number: u8) -> usize
    ensures { result ≡ slice_index counts.now number }
{
    match counts.get(usize::from(number)) {
        Some(count) => *count,
        None => 0,
    }
}

/// Sets a count, if there is one with this number.
fn set_count(counts: &mut [usize], number: u8, count: usize)
    ensures { counts.new ≡ slice_set counts.old number count }
{
    if usize::from(number) < counts.len() {
        counts[usize::from(number)] = count;
    }
}

/// Begins a count anew, if there is one with this number.
fn clear_count(counts: &mut Vec<usize>, number: u8)
    ensures { counts.new.items ≡ slice_set counts.old.items number 0 }
{
    set_count(counts, number, 0);
}

/// Returns how a count goes on after a step.
fn count_on(step: Step, silent: bool, count: usize) -> usize
    ensures { result ≡ count_on step silent count }
{
    match (silent, step) {
        (false, _) => 0,
        (true, Step::Deliver(_)) => count.saturating_add(1),
        (true, _) => count,
    }
}

/// Counts a step of the client or the voter with this number.
fn recount(counts: &mut [usize], number: u8, step: Step, silent: bool)
    ensures { counts.new ≡ slice_set counts.old number (count_on step silent (slice_index counts.old number)) }
{
    let count = count_on(step, silent, count_of(counts, number));
    set_count(counts, number, count);
}

/// Returns how a voter's count goes on after an eviction.
fn count_beside(silent: bool, count: usize) -> usize
    ensures { result ≡ count_beside silent count }
{
    if silent { count } else { 0 }
}

/// Counts an eviction of the voter with this number.
fn recount_beside(counts: &mut [usize], number: u8, silent: bool)
    ensures { counts.new ≡ slice_set counts.old number (count_beside silent (slice_index counts.old number)) }
{
    let count = count_beside(silent, count_of(counts, number));
    set_count(counts, number, count);
}

/// Returns the pass of the client with this number, if it is inside.
#[tactic(auto, using(crate::proofs::PlayLemmas::client_there, crate::proofs::PlayLemmas::client_missing))]
fn pass_in(world: &IncidentWorld, client: u8) -> Option<Pass>
    ensures inside { IfSome result (λ p. (is_inside (client_at world.now.saved.live.clients client).phase ≡ true)
        × (p ≡ pass_of world.now.saved client)) }
    ensures outside { IfNone result (is_inside (client_at world.now.saved.live.clients client).phase ≡ false) }
{
    let Some(requester) = world.client(client) else {
        return None;
    };
    pass_of(requester)
}

/// Returns whether there is a client with this number.
#[tactic(auto, using(crate::proofs::PlayLemmas::below, crate::proofs::PlayLemmas::past))]
fn is_client(world: &IncidentWorld, client: u8) -> bool
    ensures { result ≡ nat_lt client (length world.now.saved.live.clients) }
{
    world.last_stamp(client).is_some()
}

/// Returns what a refused turn did. Fails if the fault is that memory ran out.
fn refused(fault: WorldFault) -> Result<Happening, AllocError>
    ensures did { IfOk result (λ h. h ≡ Happening.Refused fault) }
    ensures other { OnOk result (fault ≡ WorldFault.OutOfMemory → ⊥) }
{
    if fault == WorldFault::OutOfMemory {
        return Err(AllocError);
    }
    Ok(Happening::Refused(fault))
}

impl Player {
    /// Returns a player of a story in which nothing has happened yet. Fails only if memory runs out.
    pub fn new(alloc: Global, plans: Plans, script: &StoryScript) -> Result<Player, AllocError>
        ensures { IfOk result (λ player. player ≡ first_scene plans script.now.clients script.now.limit) }
    {
        let clients = vec![in alloc; 0; MAX_CLIENTS]?;
        let voters = vec![in alloc; 0; MAX_VOTERS]?;
        let passes = no_passes(alloc)?;
        let world = IncidentWorld::new(alloc, plans, script.clients(), script.limit())?;
        Ok(Player {
            world,
            calm: true,
            clients,
            voters,
            passes,
            fence: Fence::new(),
        })
    }

    /// Returns the world.
    pub fn world(&self) -> &IncidentWorld
        ensures value { result.now ≡ self.now.world }
        ensures calm { self.now.calm ≡ true → IsCalm result.now }
    {
        &self.world
    }

    /// Returns whether there were no turns but steps, crashes and shows. Then at most one client is inside
    /// at a time.
    pub fn is_calm(&self) -> bool
        ensures { result ≡ self.now.calm }
    {
        self.calm
    }

    /// Makes a turn, and returns what it did. Fails only if memory runs out, and then changes nothing.
    pub fn play(&mut self, turn: Turn) -> Result<Happening, AllocError>
        ensures did { IfOk result (λ h. h ≡ turn_did self.old turn) }
        ensures played { OnOk result (self.new ≡ play self.old turn) }
        ensures unchanged { OnErr result (self.new ≡ self.old) }
    {
        match turn {
            Turn::Step(step) => self.step(step),
            Turn::CrashClient(client) => self.crash_client(client),
            Turn::CrashVoter(voter) => Ok(self.crash_voter(voter)),
            Turn::Evict(voter) => self.evict(voter),
            Turn::RebornVoter(voter) => Ok(self.bring_back(voter)),
            Turn::AnewClient(client) => self.start_anew(client),
            Turn::Show(client) => Ok(self.show(client)),
        }
    }

    /// Makes a step.
    fn step(&mut self, step: Step) -> Result<Happening, AllocError>
        ensures did { IfOk result (λ h. h ≡ turn_did self.old (turns.Step step)) }
        ensures played { OnOk result (self.new ≡ play self.old (turns.Step step)) }
        ensures unchanged { OnErr result (self.new ≡ self.old) }
    {
        let who = self.world.maker(step);
        let first = self.world.sent();
        match self.world.step(step) {
            Ok(stepped) => {
                self.count(who, step, stepped.is_silent());
                self.note(who);
                Ok(Happening::Done {
                    first,
                    sent: stepped.sent,
                    seen: stepped.seen,
                })
            }
            Err(WorldFault::OutOfMemory) => Err(AllocError),
            Err(fault) => {
                self.note(who);
                Ok(Happening::Refused(fault))
            }
        }
    }

    /// Counts a step.
    fn count(&mut self, who: Maker, step: Step, silent: bool)
        ensures { self.new ≡ count (node_of who) (count_on step silent) self.old }
    {
        match who {
            Maker::Client(client) => recount(&mut self.clients, client, step, silent),
            Maker::Voter(voter) => recount(&mut self.voters, voter, step, silent),
            Maker::Nobody => {}
        }
    }

    /// Notes the pass of a client that is inside.
    #[tactic(auto, using(crate::proofs::PlayLemmas::noted_inside, crate::proofs::PlayLemmas::noted_outside))]
    fn note(&mut self, who: Maker)
        ensures { self.new ≡ note (node_of who) self.old }
    {
        let Maker::Client(client) = who else {
            return;
        };
        let Some(pass) = pass_in(&self.world, client) else {
            return;
        };
        set_pass(&mut self.passes, client, pass);
    }

    /// Has a client crash, and restart from what it saved. Messages that it took since are forgotten.
    fn crash_client(&mut self, client: u8) -> Result<Happening, AllocError>
        ensures did { IfOk result (λ h. h ≡ turn_did self.old (turns.CrashClient client)) }
        ensures played { OnOk result (self.new ≡ play self.old (turns.CrashClient client)) }
        ensures unchanged { OnErr result (self.new ≡ self.old) }
    {
        let forgotten = count_of(&self.clients, client);
        match self.world.restart_client(client) {
            Ok(()) => {
                set_count(&mut self.clients, client, 0);
                self.note(Maker::Client(client));
                Ok(Happening::Crashed(forgotten))
            }
            Err(fault) => {
                let happening = refused(fault)?;
                clear_count(&mut self.clients, client);
                Ok(happening)
            }
        }
    }

    /// Has a voter crash, and restart from what it saved. Messages that it took since are forgotten.
    fn crash_voter(&mut self, voter: u8) -> Happening
        ensures did { result ≡ turn_did self.old (turns.CrashVoter voter) }
        ensures played { self.new ≡ play self.old (turns.CrashVoter voter) }
    {
        let forgotten = count_of(&self.voters, voter);
        set_count(&mut self.voters, voter, 0);
        match self.world.restart_voter(voter) {
            Ok(()) => Happening::Crashed(forgotten),
            Err(fault) => Happening::Refused(fault),
        }
    }

    /// Has a voter let its grant go.
    fn evict(&mut self, voter: u8) -> Result<Happening, AllocError>
        ensures did { IfOk result (λ h. h ≡ turn_did self.old (turns.Evict voter)) }
        ensures played { OnOk result (self.new ≡ play self.old (turns.Evict voter)) }
        ensures unchanged { OnErr result (self.new ≡ self.old) }
    {
        let first = self.world.sent();
        match self.world.evict(voter) {
            Ok(evicted) => {
                self.calm = false;
                recount_beside(&mut self.voters, voter, evicted.sent == 0);
                Ok(Happening::Evicted {
                    grant: evicted.grant,
                    first,
                    sent: evicted.sent,
                })
            }
            Err(IncidentFault::World(fault)) => {
                let happening = refused(fault)?;
                self.calm = false;
                Ok(happening)
            }
            Err(IncidentFault::NoGrant(voter)) => {
                self.calm = false;
                Ok(Happening::NoGrant(voter))
            }
            Err(IncidentFault::GrantsForgotten(_)) => unreachable!(),
            Err(IncidentFault::StampsForgotten(_)) => unreachable!(),
        }
    }

    /// Has a voter come back without its state. It gave this number of grants before.
    fn bring_back(&mut self, voter: u8) -> Happening
        ensures did { result ≡ turn_did self.old (turns.RebornVoter voter) }
        ensures played { self.new ≡ play self.old (turns.RebornVoter voter) }
    {
        self.calm = false;
        set_count(&mut self.voters, voter, 0);
        let Some(granted) = self.world.granted(voter) else {
            return Happening::Refused(WorldFault::NoSuchVoter(voter));
        };
        match self.world.bring_back(voter, granted) {
            Ok(()) => Happening::Reborn(granted),
            Err(_) => Happening::Refused(WorldFault::NoSuchVoter(voter)),
        }
    }

    /// Returns what is seen when a client that is inside leaves, and nothing if it is not inside.
    fn leave_of(&self, client: u8) -> Seen
        ensures { result ≡ crash_seen (is_inside (client_at self.now.world.saved.live.clients client).phase) false }
    {
        match pass_in(&self.world, client) {
            Some(_) => Seen::Left,
            None => Seen::Nothing,
        }
    }

    /// Has a client start anew, with its last stamp as its clock.
    fn start_anew(&mut self, client: u8) -> Result<Happening, AllocError>
        ensures did { IfOk result (λ h. h ≡ turn_did self.old (turns.AnewClient client)) }
        ensures played { OnOk result (self.new ≡ play self.old (turns.AnewClient client)) }
        ensures unchanged { OnErr result (self.new ≡ self.old) }
    {
        let Some(clock) = self.world.last_stamp(client) else {
            self.calm = false;
            set_count(&mut self.clients, client, 0);
            return Ok(Happening::Refused(WorldFault::NoSuchClient(client)));
        };
        let seen = self.leave_of(client);
        match self.world.start_anew(client, clock) {
            Ok(()) => {
                self.calm = false;
                set_count(&mut self.clients, client, 0);
                Ok(Happening::Anew { clock, seen })
            }
            Err(_) => Err(AllocError),
        }
    }

    /// Has a client show its pass to the guard.
    #[tactic(auto, using(crate::proofs::PlayLemmas::shown_did, crate::proofs::PlayLemmas::shown_played, crate::proofs::PlayLemmas::none_shown, crate::proofs::PlayLemmas::nobody_shown))]
    fn show(&mut self, client: u8) -> Happening
        ensures did { result ≡ turn_did self.old (turns.Show client) }
        ensures played { self.new ≡ play self.old (turns.Show client) }
    {
        if !is_client(&self.world, client) {
            return Happening::Refused(WorldFault::NoSuchClient(client));
        }
        match pass_at(&self.passes, client) {
            Some(pass) => show(&mut self.fence, pass),
            None => Happening::NoPass(client),
        }
    }

    /// Returns why the guard would refuse the pass that a client had when it was inside last, if it would
    /// for an older grant.
    pub fn refusal(&self, client: u8) -> Option<Late>
        ensures { result ≡ option_and_then (λ pass. late_of self.now.guard.seen pass) (pass_at self.now.passes client) }
    {
        match pass_at(&self.passes, client) {
            Some(pass) => refusal(&self.fence, pass),
            None => None,
        }
    }

    /// Ends the story, and returns the world.
    pub fn end(self) -> IncidentWorld
        ensures value { result ≡ self.world }
        ensures calm { self.calm ≡ true → IsCalm result }
    {
        self.world
    }

    /// Ends a story with no turns but steps, crashes and shows, and returns the live world.
    fn into_world(self) -> World
        requires { self.calm ≡ true }
        ensures { result ≡ live_of self.world }
    {
        self.world.into_world()
    }

    /// Ends the story. Returns a way in from there, and the world after its steps, if `let_in` of `ways`
    /// finds one: it looks for one if clients wait while nobody is inside. Returns `None` after evictions,
    /// rebirths and clients anew. Fails only if memory runs out.
    pub fn into_way(self, alloc: Global) -> Result<Option<(WayIn, World)>, AllocError>
        ensures { IfOk result (λ found. IfSome found (λ end.
            LeadsIn (live_of self.world) end.1 end.0.client end.0.steps.items)) }
    {
        if !self.is_calm() {
            return Ok(None);
        }
        let mut world = self.into_world();
        match let_in(alloc, &mut world)? {
            Some(way) => Ok(Some((way, world))),
            None => Ok(None),
        }
    }
}
