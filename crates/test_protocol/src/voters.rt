//! Worked examples of the voter.
ghost use Rattle.std.specs.Prelude.{◌≡◌, ◌<◌, IfSome};

use crate::messages::add_line;
use message::{Message, ToVoter, read_message};
use std::alloc::{AllocError, Global};
use voter::{Replies, Voter};

/// Returns the message to voter 0 of this line, if it is one.
fn asked(line: &str) -> Option<ToVoter>
    ensures voter { IfSome result (λ m. m.voter ≡ 0) }
    ensures client { IfSome result (λ m. m.client < 64) }
{
    match read_message(line.as_bytes()) {
        Ok(Message::ToVoter(m)) if m.voter == 0 && m.client < 64 => Some(m),
        _ => None,
    }
}

/// Returns whether the replies have these lines, with a semicolon after each.
fn are_lines(alloc: Global, replies: &Replies, wanted: &str) -> Result<bool, AllocError> {
    let mut text = String::new(alloc);
    for reply in replies.as_slice() {
        add_line(alloc, &mut text, &Message::ToClient(*reply))?;
    }
    Ok(text.as_str() == wanted)
}

/// Returns whether a voter replies to a message with these lines, or refuses it with this fault, and said
/// so beforehand.
fn answers(
    alloc: Global,
    voter: &mut Voter,
    message: &ToVoter,
    wanted: &str,
) -> Result<bool, AllocError>
    requires voter { message.now.voter ≡ voter.old.id }
    requires client { message.now.client < 64 }
    ensures id { voter.new.id ≡ voter.old.id }
{
    let refused = voter.effect(message).refused;
    match voter.take(message) {
        Ok(replies) => Ok(are_lines(alloc, &replies, wanted)? & !refused),
        Err(fault) => Ok((fault.to_string(alloc)?.as_str() == wanted) & refused),
    }
}

/// Returns whether a voter replies to each line in turn with the lines next to it.
fn plays(alloc: Global, voter: &mut Voter, script: &[(&str, &str)]) -> Result<bool, AllocError>
    requires { voter.old.id ≡ 0 }
{
    for (line, wanted) in script {
        let Some(message) = asked(line) else {
            return Ok(false);
        };
        if !answers(alloc, voter, &message, wanted)? {
            return Ok(false);
        }
    }
    Ok(true)
}

/// The vote is given back, and no grant is left.
const GIVEN_BACK: &[(&str, &str)] = &[
    ("request 1 0 1", "locked 0 1 1 1 1;"),
    ("request 0 0 1", "inquire 0 1 1 1;"),
    ("request 2 0 1", "fail 0 2 1 1;"),
    ("relinquish 1 0 1", "locked 0 0 1 2 1;"),
    ("release 0 0 1", "V1 GrantsSpent"),
    ("release 2 0 1", ""),
    ("release 1 0 1", ""),
    ("release 0 0 1", ""),
];

/// Requests are put into their places.
const PLACES: &[(&str, &str)] = &[
    ("request 2 0 2", "locked 0 2 2 1 2;"),
    ("request 3 0 3", "fail 0 3 3 3;"),
    ("request 1 0 1", "inquire 0 2 1 3;fail 0 3 3 3;"),
    ("request 0 0 1", "fail 0 1 1 3;"),
];

#[test]
fn voters_reply(rt: HostRuntime) {
    let mut free = Voter::new(0, 2);
    assert!(rt; plays(rt.alloc(), &mut free, GIVEN_BACK) == Ok(true));
    assert!(rt; free.held().is_none());
    assert!(rt; plays(rt.alloc(), &mut Voter::new(0, 10), PLACES) == Ok(true));
}
