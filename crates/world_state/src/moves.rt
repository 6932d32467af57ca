//! Steps of one client or one voter in a list of all.
ghost use Rattle.std.specs.Prelude.{◌≡◌, ◌<◌, ◌≤◌, [], Err, IfErr, IfOk, None, Ok, OnErr, OnOk, Some, length, slice_set};
ghost use Rattle.numbers.specs.Bounds.{max_voters, max_clients};
ghost use Rattle.requester.specs.Steps.{end_request, step, unless};
ghost use Rattle.requester.specs.Steps.Cause.{Asks, Takes};
ghost use Rattle.voter.specs.Steps as polls;
ghost use Rattle.world_state.specs.States.{cause_of, seen_of};
ghost use Rattle.world_state.specs.Steps.{client_at, voter_at};

use message::{ToClient, ToVoter};
use quorum_set::QSet;
use requester::{ClientFault, Messages, Requester, Seen};
use voter::{Replies, Voter, VoterFault};

/// How a client ends its request.
#[derive(Clone, Copy)]
pub enum Ending {
    /// It leaves.
    Leaves,
    /// It gives the request up.
    GivesUp,
}

/// Returns the client with this number.
pub fn client_of(clients: &[Requester], number: u8) -> &Requester
    requires { number < length clients.now }
    ensures { result.now ≡ client_at clients.now number }
{
    &clients[usize::from(number)]
}

/// Returns the voter with this number.
pub fn voter_of(voters: &[Voter], number: u8) -> &Voter
    requires { number < length voters.now }
    ensures { result.now ≡ voter_at voters.now number }
{
    &voters[usize::from(number)]
}

/// Has this client ask a quorum.
pub fn ask(
    clients: &mut [Requester],
    client: u8,
    quorum: &QSet,
    out: &mut Messages,
) -> Result<Seen, ClientFault>
    requires client { client < length clients.old }
    requires quorum { 1 ≤ length quorum.now }
    ensures asked { IfOk result (λ seen. step (client_at clients.old client) (Asks quorum.now)
        ≡ Ok (record { out = out.new.items; seen = seen; state = client_at clients.new client })) }
    ensures refused { IfErr result (λ fault.
        (step (client_at clients.old client) (Asks quorum.now) ≡ Err fault) × (clients.new ≡ clients.old)) }
    ensures others { clients.new ≡ slice_set clients.old client (client_at clients.new client) }
{
    let who = &mut clients[usize::from(client)];
    who.ask_into(quorum, out)
}

/// Has the client that the message names take it.
pub fn take(clients: &mut [Requester], message: &ToClient, out: &mut Messages) -> Seen
    requires client { message.now.client < length clients.old }
    requires id { (client_at clients.old message.now.client).id ≡ message.now.client }
    requires voter { message.now.voter < max_voters }
    ensures taken { step (client_at clients.old message.now.client) (Takes message.now)
        ≡ Ok (record { out = out.new.items; seen = result; state = client_at clients.new message.now.client }) }
    ensures others { clients.new ≡ slice_set clients.old message.now.client (client_at clients.new message.now.client) }
{
    let who = &mut clients[usize::from(message.client)];
    who.take_into(message, out)
}

/// Returns why this client could not end its request in this way, if it could not.
#[tactic(auto, unfolding(requester::specs::Steps::step))]
pub fn end_fault(who: &Requester, ending: Ending) -> Option<ClientFault>
    ensures { step who.now (cause_of ending) ≡ unless result (end_request who.now (seen_of ending)) }
{
    match ending {
        Ending::Leaves => who.leave_fault(),
        Ending::GivesUp => who.give_up_fault(),
    }
}

/// Has the client end its request in this way.
#[tactic(auto, unfolding(requester::specs::Steps::step))]
fn end_of(who: &mut Requester, ending: Ending, out: &mut Messages) -> Result<Seen, ClientFault>
    ensures ended { IfOk result (λ seen. step who.old (cause_of ending)
        ≡ Ok (record { out = out.new.items; seen = seen; state = who.new })) }
    ensures refused { IfErr result (λ fault. (step who.old (cause_of ending) ≡ Err fault)
        × (who.new ≡ who.old) × (out.new.items ≡ [])) }
{
    match ending {
        Ending::Leaves => who.leave_into(out),
        Ending::GivesUp => who.give_up_into(out),
    }
}

/// Has the client with this number end its request in this way.
pub fn end(
    clients: &mut [Requester],
    client: u8,
    ending: Ending,
    out: &mut Messages,
) -> Result<Seen, ClientFault>
    requires client { client < length clients.old }
    ensures ended { IfOk result (λ seen. step (client_at clients.old client) (cause_of ending)
        ≡ Ok (record { out = out.new.items; seen = seen; state = client_at clients.new client })) }
    ensures refused { IfErr result (λ fault.
        (step (client_at clients.old client) (cause_of ending) ≡ Err fault) × (clients.new ≡ clients.old)) }
    ensures others { clients.new ≡ slice_set clients.old client (client_at clients.new client) }
{
    let who = &mut clients[usize::from(client)];
    end_of(who, ending, out)
}

/// Has the voter that the message names take it.
pub fn vote(
    voters: &mut [Voter],
    message: &ToVoter,
    replies: &mut Replies,
) -> Result<(), VoterFault>
    requires voter { message.now.voter < length voters.old }
    requires id { (voter_at voters.old message.now.voter).id ≡ message.now.voter }
    requires client { message.now.client < max_clients }
    ensures taken { OnOk result (polls.step (voter_at voters.old message.now.voter) message.now
        ≡ Some (record { replies = replies.new.items; state = voter_at voters.new message.now.voter })) }
    ensures refused { OnErr result
        ((polls.step (voter_at voters.old message.now.voter) message.now ≡ None) × (voters.new ≡ voters.old)) }
    ensures others { voters.new ≡ slice_set voters.old message.now.voter (voter_at voters.new message.now.voter) }
{
    let who = &mut voters[usize::from(message.voter)];
    who.take_into(message, replies)
}
