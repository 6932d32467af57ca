//! Writing the line of a message.
ghost use Rattle.std.specs.Prelude.{◌≡◌, [], ◌∷◌, ◌++◌, IfOk, OnOk, string_bytes};
ghost use Rattle.texts.specs.Fields.{fields};
ghost use Rattle.message.specs.Lines.{HasLine, client_numbers, client_word, message_line, voter_number, voter_word};

use crate::message::{ClientBody, Message, VoterBody};
use std::alloc::{AllocError, Global};
use texts::push_field;

/// Appends a word, and the numbers of the sender and the receiver.
fn push_head(text: &mut String, word: &str, from: u8, to: u8) -> Result<(), AllocError>
    ensures { OnOk result (string_bytes text.new
        ≡ string_bytes text.old ++ (word.now ++ fields (from ∷ to ∷ []))) }
{
    text.push_str(word)?;
    push_field(text, u64::from(from))?;
    push_field(text, u64::from(to))
}

/// Appends two numbers.
fn push_two(text: &mut String, first: u64, second: u64) -> Result<(), AllocError>
    ensures { OnOk result (string_bytes text.new ≡ string_bytes text.old ++ fields (first ∷ second ∷ [])) }
{
    push_field(text, first)?;
    push_field(text, second)
}

/// Returns the word and the number of a message to a voter.
fn word_to_voter(body: VoterBody) -> (&'static str, u64)
    ensures word { result.0.now ≡ voter_word body }
    ensures number { result.1 ≡ voter_number body }
{
    match body {
        VoterBody::Request { stamp } => ("request", stamp),
        VoterBody::Relinquish { grant } => ("relinquish", grant),
        VoterBody::Release { stamp } => ("release", stamp),
    }
}

fn push_to_voter(
    text: &mut String,
    client: u8,
    voter: u8,
    body: VoterBody,
) -> Result<(), AllocError>
    ensures { OnOk result (string_bytes text.new
        ≡ string_bytes text.old ++ (voter_word body ++ fields (client ∷ voter ∷ voter_number body ∷ []))) }
{
    let (word, number) = word_to_voter(body);
    push_head(text, word, client, voter)?;
    push_field(text, number)
}

fn push_to_client(
    text: &mut String,
    voter: u8,
    client: u8,
    seen: u64,
    body: ClientBody,
) -> Result<(), AllocError>
    ensures { OnOk result (string_bytes text.new
        ≡ string_bytes text.old ++ (client_word body ++ fields (voter ∷ client ∷ client_numbers body ++ seen ∷ []))) }
{
    match body {
        ClientBody::Locked { stamp, grant } => {
            push_head(text, "locked", voter, client)?;
            push_field(text, stamp)?;
            push_two(text, grant, seen)
        }
        ClientBody::Fail { stamp } => {
            push_head(text, "fail", voter, client)?;
            push_two(text, stamp, seen)
        }
        ClientBody::Inquire { grant } => {
            push_head(text, "inquire", voter, client)?;
            push_two(text, grant, seen)
        }
    }
}

/// Appends the line of a message to a text, without its newline. Fails only if it runs out of
/// memory; the text may then end with the beginning of the line.
pub fn push_message(text: &mut String, message: &Message) -> Result<(), AllocError>
    requires { HasLine message.now }
    ensures { OnOk result (string_bytes text.new ≡ string_bytes text.old ++ message_line message.now) }
{
    match message {
        Message::ToVoter(m) => push_to_voter(text, m.client, m.voter, m.body),
        Message::ToClient(m) => push_to_client(text, m.voter, m.client, m.seen, m.body),
    }
}

/// Returns the line of a message, without its newline. Fails only if it runs out of memory.
pub fn write_message(alloc: Global, message: &Message) -> Result<String, AllocError>
    requires { HasLine message.now }
    ensures { IfOk result (λ line. string_bytes line ≡ message_line message.now) }
{
    let mut line = String::new(alloc);
    push_message(&mut line, message)?;
    Ok(line)
}
