//! Reading the line of a message.
ghost use Rattle.std.specs.Prelude.{◌≡◌, ◌∷◌, [], IfOk, IfSome};
ghost use Rattle.message.specs.declared.message.Message.{Message};
ghost use Rattle.texts.specs.Forms.{IsLineOf};
ghost use Rattle.message.specs.Lines.{HasLine, message_form, message_line, messages_have_form};

use crate::fault::MessageFault;
use crate::message::{ClientBody, Message, ToClient, ToVoter, VoterBody};
use texts::{Line, read_line};

/// The highest number of a client or a voter.
const HIGHEST: u64 = 63;

/// Returns a client's message: REQUEST, RELINQUISH or RELEASE.
fn to_voter(word: &[u8], client: u64, voter: u64, number: u64) -> Option<Message>
    ensures written { IfSome result (λ m. IsLineOf message_form m word.now (client ∷ voter ∷ number ∷ [])) }
    ensures read { (m : Message) → IsLineOf message_form m word.now (client ∷ voter ∷ number ∷ []) → result ≡ Some m }
{
    if client > HIGHEST || voter > HIGHEST || number == 0 {
        return None;
    }
    let body = match word {
        b"request" => VoterBody::Request { stamp: number },
        b"relinquish" => VoterBody::Relinquish { grant: number },
        b"release" => VoterBody::Release { stamp: number },
        _ => return None,
    };
    Some(Message::ToVoter(ToVoter {
        client: client as u8,
        voter: voter as u8,
        body,
    }))
}

/// Returns a voter's message about a request or a grant: FAIL or INQUIRE.
fn to_client(word: &[u8], voter: u64, client: u64, number: u64, seen: u64) -> Option<Message>
    ensures written { IfSome result (λ m. IsLineOf message_form m word.now (voter ∷ client ∷ number ∷ seen ∷ [])) }
    ensures read { (m : Message) → IsLineOf message_form m word.now (voter ∷ client ∷ number ∷ seen ∷ []) → result ≡ Some m }
{
    if voter > HIGHEST || client > HIGHEST || number == 0 {
        return None;
    }
    let body = match word {
        b"fail" => ClientBody::Fail { stamp: number },
        b"inquire" => ClientBody::Inquire { grant: number },
        _ => return None,
    };
    Some(Message::ToClient(ToClient {
        voter: voter as u8,
        client: client as u8,
        seen,
        body,
    }))
}

/// Returns a voter's message about both: LOCKED.
fn locked(
    word: &[u8],
    voter: u64,
    client: u64,
    stamp: u64,
    grant: u64,
    seen: u64,
) -> Option<Message>
    ensures written { IfSome result (λ m. IsLineOf message_form m word.now (voter ∷ client ∷ stamp ∷ grant ∷ seen ∷ [])) }
    ensures read { (m : Message) → IsLineOf message_form m word.now (voter ∷ client ∷ stamp ∷ grant ∷ seen ∷ [])
        → result ≡ Some m }
{
    if word != b"locked".as_slice()
        || voter > HIGHEST
        || client > HIGHEST
        || stamp == 0
        || grant == 0
    {
        return None;
    }
    Some(Message::ToClient(ToClient {
        voter: voter as u8,
        client: client as u8,
        seen,
        body: ClientBody::Locked { stamp, grant },
    }))
}

impl Line for Message {
    type Value = Message;

    ghost form = { message_form };

    fn value_of(word: &[u8], numbers: &[u64]) -> Option<Message> {
        match numbers {
            [client, voter, number] => to_voter(word, *client, *voter, *number),
            [voter, client, number, seen] => to_client(word, *voter, *client, *number, *seen),
            [voter, client, stamp, grant, seen] => {
                locked(word, *voter, *client, *stamp, *grant, *seen)
            }
            _ => None,
        }
    }

    ghost is_form = { messages_have_form };
}

/// Reads a message from its line, without the newline. Fails with `BadLine` if and only if the
/// bytes are no message's line.
pub fn read_message(line: &[u8]) -> Result<Message, MessageFault>
    // What is read is the message of this line.
    ensures written { IfOk result (λ m. HasLine m × (line.now ≡ message_line m)) }
    // The line of each message is read.
    ensures read { (m : Message) → HasLine m → line.now ≡ message_line m → result ≡ Ok m }
{
    match read_line::<Message>(line) {
        Some(message) => Ok(message),
        None => Err(MessageFault::BadLine),
    }
}
