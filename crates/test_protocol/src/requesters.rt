//! A worked example of the requester.
ghost use Rattle.std.specs.Prelude.{◌≡◌, ◌<◌, IfSome};

use crate::messages::add_line;
use message::{Message, ToClient, read_message};
use requester::{ClientFault, Reply, Requester, Seen};
use std::alloc::{AllocError, Global};
use test_plans::set_of;

/// Returns the message to client 0 of this line, if it is one.
fn heard(line: &str) -> Option<ToClient>
    ensures client { IfSome result (λ m. m.client ≡ 0) }
    ensures voter { IfSome result (λ m. m.voter < 64) }
{
    match read_message(line.as_bytes()) {
        Ok(Message::ToClient(m)) if m.client == 0 && m.voter < 64 => Some(m),
        _ => None,
    }
}

/// Has the client ask voters 0 and 1.
fn ask(client: &mut Requester) -> Result<Reply, ClientFault>
    ensures id { client.new.id ≡ client.old.id }
{
    let quorum = set_of(&[0, 1]);
    if quorum.len() == 0 {
        return Err(ClientFault::Busy);
    }
    client.ask(&quorum)
}

/// Returns the reply to a step: `ask`, `leave`, or the line of a message. Fails if it is neither.
fn reply_to(client: &mut Requester, step: &str) -> Result<Reply, ClientFault>
    requires id { client.old.id ≡ 0 }
    ensures id { client.new.id ≡ 0 }
{
    match step {
        "ask" => ask(client),
        "leave" => client.leave(),
        _ => match heard(step) {
            Some(message) => Ok(client.take(&message)),
            None => Err(ClientFault::Busy),
        },
    }
}

/// Returns whether a reply has these lines, with a semicolon after each, and this is seen.
fn is_reply(alloc: Global, reply: &Reply, lines: &str, seen: Seen) -> Result<bool, AllocError> {
    let mut text = String::new(alloc);
    for message in reply.out.as_slice() {
        add_line(alloc, &mut text, &Message::ToVoter(*message))?;
    }
    Ok((text.as_str() == lines) & (reply.seen == seen))
}

/// A step, the lines of the reply, what is seen, and the grant of voter 0's vote that is held then.
type Row = (&'static str, &'static str, Seen, Option<u64>);

/// Returns whether a client replies to a step as its row says.
fn plays(alloc: Global, client: &mut Requester, row: &Row) -> Result<bool, AllocError>
    requires { client.old.id ≡ 0 }
    ensures { client.new.id ≡ 0 }
{
    let (step, lines, seen, held) = *row;
    match reply_to(client, step) {
        Ok(reply) => Ok(is_reply(alloc, &reply, lines, seen)? & (client.held(0) == held)),
        Err(_) => Ok(false),
    }
}

/// The vote of voter 0 goes back, and comes again under another grant.
const GIVEN_BACK: [Row; 9] = [
    ("ask", "request 0 0 1;request 0 1 1;", Seen::Nothing, None),
    ("fail 1 0 1 1", "", Seen::Nothing, None),
    ("locked 0 0 1 1 1", "", Seen::Nothing, Some(1)),
    ("inquire 0 0 1 1", "relinquish 0 0 1;", Seen::Nothing, None),
    ("locked 0 0 1 1 1", "", Seen::Nothing, None),
    ("locked 0 0 1 2 1", "", Seen::Nothing, Some(2)),
    ("locked 1 0 1 5 1", "", Seen::Entered, Some(2)),
    ("leave", "release 0 0 1;release 0 1 1;", Seen::Left, None),
    ("locked 0 0 1 3 1", "release 0 0 1;", Seen::Nothing, None),
];

#[test]
fn vote_that_is_given_back_is_won_again_and_released(rt: HostRuntime) {
    let mut client = Requester::new(0, 9);
    for row in &GIVEN_BACK {
        assert!(rt; plays(rt.alloc(), &mut client, row) == Ok(true));
    }
}
