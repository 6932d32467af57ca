//! What befalls the clients and the voters of a world.
ghost use Rattle.std.specs.Prelude.{◌≡◌, ◌<◌, ◌≤◌, IfErr, IfOk, Ok, OnErr, OnOk, Some, length, slice_set, true};
ghost use Rattle.numbers.specs.Bounds.{max_clients, max_limit, max_voters};
ghost use Rattle.incidents.specs.Calls.{RefusesAnew, RefusesClient, RefusesEviction, RefusesRebirth, RefusesVoter, Takes, grant_at, letting_go};
ghost use Rattle.world.specs.Incidents as incidents;
ghost use Rattle.world.specs.Incidents.{is_above, is_ahead};
ghost use Rattle.requester.specs.Leases.{anew};
ghost use Rattle.requester.specs.Soundness.{IsSound};
ghost use Rattle.requester.specs.Words.{is_inside};
ghost use Rattle.requester.specs.declared.state.Seen.TheVariants.{Nothing};
ghost use Rattle.voter.specs.declared.state.Grant.{Grant};
ghost use Rattle.voter.specs.Leases.{reborn, release_of};
ghost use Rattle.voter.specs.Saved.{IsKept};
ghost use Rattle.world_state.specs.Numbered.{IsNumbered};
ghost use Rattle.world.specs.Restarts.{OneClient, OneVoter, come_back, crash_seen, restart};
ghost use Rattle.world.specs.States.{IsStored, saved_of};
ghost use Rattle.world_state.specs.States.{HasRoom, contents_of};
ghost use Rattle.world_state.specs.Steps.{client_at, vote, voter_at};

use crate::fault::IncidentFault;
use arrayvec::ArrayVec;
use message::{ToVoter, VoterBody};
use requester::{Phase, Requester, Seen};
use voter::{Grant, Voter};
use world::{Maker, Stepped, Stored, WorldFault, copy_client, copy_voter, note};
use world_state::{client_of, voter_of};

/// A grant that a voter let go.
#[derive(Clone, Copy, Debug, PartialEq, Eq)]
pub struct Evicted {
    /// The grant. Its client may still believe that it has the vote.
    pub grant: Grant,
    /// How many messages the voter sent: LOCKED to who gets the vote, if a request waited. They are the
    /// last ones of the world.
    pub sent: usize,
}

/// Returns the highest stamp that a client may use. It is the third number that the client saves.
#[tactic(auto, unfolding(requester::specs::Saved::words_of))]
fn limit_of(client: &Requester) -> u64
    ensures value { result ≡ client.now.limit }
    ensures sound { IsSound client.now }
{
    let mut words = ArrayVec::new();
    client.save(&mut words);
    words[2]
}

/// Returns how many grants a voter gave. It may come back with this count.
#[tactic(auto, using(crate::proofs::CallLemmas::above_itself))]
fn own_count(voter: &Voter) -> u64
    ensures value { result ≡ voter.now.granted }
    ensures above { is_above voter.now result ≡ true }
{
    voter.granted()
}

/// Returns the stamp of a client's last request, 0 if there was none. It may start anew with this clock.
#[tactic(auto, using(crate::proofs::CallLemmas::ahead_itself))]
fn own_stamp(client: &Requester) -> u64
    ensures value { result ≡ client.now.stamp }
    ensures ahead { is_ahead client.now result ≡ true }
{
    client.stamp()
}

/// Returns how many grants the voter with this number gave.
pub fn count_of(voters: &[Voter], number: u8) -> u64
    requires { number < length voters.now }
    ensures value { result ≡ (voter_at voters.now number).granted }
    ensures above { is_above (voter_at voters.now number) result ≡ true }
{
    own_count(voter_of(voters, number))
}

/// Returns the stamp of the last request of the client with this number.
pub fn stamp_of(clients: &[Requester], number: u8) -> u64
    requires { number < length clients.now }
    ensures value { result ≡ (client_at clients.now number).stamp }
    ensures ahead { is_ahead (client_at clients.now number) result ≡ true }
{
    own_stamp(client_of(clients, number))
}

/// Returns whether a voter may come back with this count of grants: whether it gave no more, and its
/// limit is no smaller.
fn is_above(voter: &Voter, above: u64) -> bool
    ensures value { result ≡ is_above voter.now above }
    ensures kept { IsKept voter.now }
{
    voter.granted() <= above && above <= voter.limit()
}

/// Returns whether a client may start anew with this clock: whether it used no greater stamp, and its
/// limit is no smaller.
fn is_ahead(client: &Requester, clock: u64) -> bool
    ensures value { result ≡ is_ahead client.now clock }
    ensures sound { IsSound client.now }
{
    client.stamp() <= clock && clock <= limit_of(client)
}

/// Returns the RELEASE of a voter's grant, as its client would send it.
fn release_of(voter: &Voter, grant: Grant) -> ToVoter
    ensures { result ≡ release_of voter.now grant }
{
    ToVoter {
        client: grant.client,
        voter: voter.id(),
        body: VoterBody::Release { stamp: grant.stamp },
    }
}

/// Makes the voter with this number one that lost its state, and gave at most this many grants.
fn make_reborn(voters: &mut Vec<Voter>, voter: u8, above: u64, limit: u64)
    requires there { voter < length voters.old.items }
    requires id { voter < max_voters }
    requires above { above ≤ limit }
    requires limit { limit ≤ max_limit }
    ensures { voters.new.items ≡ slice_set voters.old.items voter (reborn voter above limit) }
{
    voters[usize::from(voter)] = Voter::reborn(voter, above, limit);
}

/// Makes the client with this number one that lost its state, and knows no more than a clock.
fn make_anew(clients: &mut Vec<Requester>, client: u8, limit: u64, clock: u64)
    requires there { client < length clients.old.items }
    requires id { client < max_clients }
    requires least { 1 ≤ limit }
    requires most { limit ≤ max_limit }
    requires clock { clock ≤ limit }
    ensures { clients.new.items ≡ slice_set clients.old.items client (anew client limit clock) }
{
    clients[usize::from(client)] = Requester::anew(client, limit, clock);
}

/// Makes the client with this number as it is saved.
fn restore_client(clients: &mut Vec<Requester>, saved: &[Requester], client: u8)
    requires { length clients.old.items ≡ length saved.now }
    ensures { clients.new.items ≡ slice_set clients.old.items client (client_at saved.now client) }
{
    copy_client(clients, saved, client);
}

/// Makes the voter with this number as it is saved.
fn restore_voter(voters: &mut Vec<Voter>, saved: &[Voter], voter: u8)
    requires { length voters.old.items ≡ length saved.now }
    ensures { voters.new.items ≡ slice_set voters.old.items voter (voter_at saved.now voter) }
{
    copy_voter(voters, saved, voter);
}

/// Returns whether a client is inside.
fn is_inside(client: &Requester) -> bool
    ensures { result ≡ is_inside client.now.phase }
{
    match client.phase() {
        Phase::Idle => false,
        Phase::Asking => false,
        Phase::Inside => true,
    }
}

/// Returns what is seen of a crash, by whether the client was inside before it, and whether it is
/// afterwards.
fn crash_seen(before: bool, after: bool) -> Seen
    ensures { result ≡ crash_seen before after }
{
    match (before, after) {
        (true, true) => Seen::Nothing,
        (true, false) => Seen::Left,
        (false, true) => Seen::Entered,
        (false, false) => Seen::Nothing,
    }
}

/// Returns what is seen when a client comes back as it is saved.
fn seen_of(clients: &[Requester], saved: &[Requester], client: u8) -> Seen
    requires there { client < length clients.now }
    requires saved { client < length saved.now }
    ensures { result ≡ crash_seen (is_inside (client_at clients.now client).phase) (is_inside (client_at saved.now client).phase) }
{
    let before = is_inside(client_of(clients, client));
    let after = is_inside(client_of(saved, client));
    crash_seen(before, after)
}

/// Has a client come back as it is saved.
fn bring_client_back(stored: &mut Stored, client: u8)
    requires there { client < length stored.old.state.clients.items }
    requires stored { IsStored stored.old }
    requires room { HasRoom stored.old.state }
    ensures { saved_of stored.new
        ≡ come_back (saved_of stored.old) client (client_at stored.old.clients.items client) }
{
    let seen = seen_of(&stored.state.clients, &stored.clients, client);
    restore_client(&mut stored.state.clients, &stored.clients, client);
    note(&mut stored.state.visible, client, seen);
}

/// Has a client crash, and restart from what it saved.
pub fn crash_client(stored: &mut Stored, client: u8) -> Result<(), WorldFault>
    requires { IsStored stored.old }
    ensures restarted { OnOk result (saved_of stored.new ≡ restart (OneClient client) (saved_of stored.old)) }
    ensures there { OnOk result (client < length stored.old.state.clients.items) }
    ensures refused { IfErr result (RefusesClient (saved_of stored.old) client) }
    ensures unchanged { OnErr result (saved_of stored.new ≡ saved_of stored.old) }
{
    if let Some(fault) = stored.state.client_fault(client) {
        return Err(fault);
    }
    if stored.state.make_room().is_err() {
        return Err(WorldFault::OutOfMemory);
    }
    bring_client_back(stored, client);
    Ok(())
}

/// Has a voter crash, and restart from what it saved.
pub fn crash_voter(stored: &mut Stored, voter: u8) -> Result<(), WorldFault>
    requires { IsStored stored.old }
    ensures restarted { OnOk result (saved_of stored.new ≡ restart (OneVoter voter) (saved_of stored.old)) }
    ensures there { OnOk result (voter < length stored.old.state.voters.items) }
    ensures refused { IfErr result (RefusesVoter (saved_of stored.old) voter) }
    ensures unchanged { OnErr result (saved_of stored.new ≡ saved_of stored.old) }
{
    if let Some(fault) = stored.state.voter_fault(voter) {
        return Err(fault);
    }
    restore_voter(&mut stored.state.voters, &stored.voters, voter);
    Ok(())
}

/// Has a voter take a message, and saves it unless that was silent. Without room for its replies, it
/// fails with the voter's fault, else with out of memory.
fn hear(stored: &mut Stored, message: &ToVoter, room: bool) -> Result<Stepped, WorldFault>
    requires room { room ≡ true → HasRoom stored.old.state }
    requires voter { message.now.voter < length stored.old.state.voters.items }
    requires id { (voter_at stored.old.state.voters.items message.now.voter).id ≡ message.now.voter }
    requires client { message.now.client < max_clients }
    requires stored { IsStored stored.old }
    ensures { Takes (saved_of stored.old) message.now result (saved_of stored.new) }
{
    match stored.state.vote(message, room) {
        Ok(stepped) => {
            stored.save_unless(stepped.is_silent(), Maker::Voter(message.voter));
            Ok(stepped)
        }
        Err(fault) => Err(fault),
    }
}

/// Has a voter let its current grant go.
pub fn let_go(stored: &mut Stored, voter: u8) -> Result<Evicted, IncidentFault>
    requires stored { IsStored stored.old }
    requires numbered { IsNumbered (contents_of stored.old.state) }
    requires holder { voter < length stored.old.state.voters.items
        → (g : Grant) → grant_at (saved_of stored.old) voter ≡ Some g → g.client < length stored.old.state.clients.items }
    ensures evicted { IfOk result (λ e. saved_of stored.new
        ≡ incidents.hear (saved_of stored.old) (letting_go (saved_of stored.old) voter e.grant)) }
    ensures there { OnOk result (voter < length stored.old.state.voters.items) }
    ensures grant { IfOk result (λ e. grant_at (saved_of stored.old) voter ≡ Some e.grant) }
    ensures sent { IfOk result (λ e. vote (contents_of stored.old.state) (letting_go (saved_of stored.old) voter e.grant)
        ≡ Ok (record { sent = e.sent; seen = Nothing; state = contents_of stored.new.state })) }
    ensures refused { IfErr result (RefusesEviction (saved_of stored.old) voter) }
    ensures unchanged { OnErr result (saved_of stored.new ≡ saved_of stored.old) }
{
    if let Some(fault) = stored.state.voter_fault(voter) {
        return Err(IncidentFault::World(fault));
    }
    let who = voter_of(&stored.state.voters, voter);
    let Some(grant) = who.held() else {
        return Err(IncidentFault::NoGrant(voter));
    };
    let message = release_of(who, grant);
    let room = stored.state.make_room().is_ok();
    match hear(stored, &message, room) {
        Ok(stepped) => Ok(Evicted {
            grant,
            sent: stepped.sent,
        }),
        Err(fault) => Err(IncidentFault::World(fault)),
    }
}

/// Has a voter come back without its state, with this count of grants.
pub fn be_reborn(stored: &mut Stored, voter: u8, above: u64) -> Result<(), IncidentFault>
    requires stored { IsStored stored.old }
    requires numbered { IsNumbered (contents_of stored.old.state) }
    ensures reborn { OnOk result (saved_of stored.new
        ≡ incidents.come_back_as (saved_of stored.old) voter (incidents.reborn (voter_at stored.old.state.voters.items voter) above)) }
    ensures there { OnOk result (voter < length stored.old.state.voters.items) }
    ensures above { OnOk result (is_above (voter_at stored.old.state.voters.items voter) above ≡ true) }
    ensures refused { IfErr result (RefusesRebirth (saved_of stored.old) voter above) }
    ensures unchanged { OnErr result (saved_of stored.new ≡ saved_of stored.old) }
{
    if let Some(fault) = stored.state.voter_fault(voter) {
        return Err(IncidentFault::World(fault));
    }
    let who = voter_of(&stored.state.voters, voter);
    if !is_above(who, above) {
        return Err(IncidentFault::GrantsForgotten(voter));
    }
    let limit = who.limit();
    make_reborn(&mut stored.state.voters, voter, above, limit);
    make_reborn(&mut stored.voters, voter, above, limit);
    Ok(())
}

/// Has a client start anew with this clock.
pub fn be_anew(stored: &mut Stored, client: u8, clock: u64) -> Result<(), IncidentFault>
    requires stored { IsStored stored.old }
    requires numbered { IsNumbered (contents_of stored.old.state) }
    ensures anew { OnOk result (saved_of stored.new
        ≡ incidents.start_as (saved_of stored.old) client (incidents.anew (client_at stored.old.state.clients.items client) clock)) }
    ensures there { OnOk result (client < length stored.old.state.clients.items) }
    ensures ahead { OnOk result (is_ahead (client_at stored.old.state.clients.items client) clock ≡ true) }
    ensures refused { IfErr result (RefusesAnew (saved_of stored.old) client clock) }
    ensures unchanged { OnErr result (saved_of stored.new ≡ saved_of stored.old) }
{
    if let Some(fault) = stored.state.client_fault(client) {
        return Err(IncidentFault::World(fault));
    }
    let who = client_of(&stored.state.clients, client);
    if !is_ahead(who, clock) {
        return Err(IncidentFault::StampsForgotten(client));
    }
    let limit = limit_of(who);
    if stored.state.make_room().is_err() {
        return Err(IncidentFault::World(WorldFault::OutOfMemory));
    }
    make_anew(&mut stored.clients, client, limit, clock);
    bring_client_back(stored, client);
    Ok(())
}
