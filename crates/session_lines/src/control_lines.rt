//! Writing lines of control.
ghost use Rattle.std.specs.Prelude.{◌≡◌, ◌≤◌, ◌+◌, ◌++◌, ◌∷◌, [], length};
ghost use Rattle.arrayvec.specs.ArrayVec.{array_vec_len};
ghost use Rattle.texts.specs.Fields.{fields};
ghost use Rattle.line_words.specs.Lines.{control_line};
ghost use Rattle.session_lines.specs.Control.{client_line, client_numbers, client_word, opened_numbers, says_line, voter_numbers, voter_word};

use crate::control::{ClientWord, Opened, VoterSays, VoterWord};
use arrayvec::ArrayVec;
use line_words::{LINE_ROOM, Room, push, push_number};

/// Returns the word of what a client says.
fn client_word(word: ClientWord) -> &'static [u8]
    ensures word { result.now ≡ client_word word }
    ensures short { length result.now ≤ 7 }
{
    match word {
        ClientWord::Hello => b"hello",
        ClientWord::Plan => b"plan",
        ClientWord::Open { .. } => b"open",
        ClientWord::Close => b"close",
        ClientWord::Claim { .. } | ClientWord::ClaimStamps { .. } => b"claim",
        ClientWord::Drop { .. } => b"drop",
        ClientWord::Greet => b"greet",
    }
}

/// Appends the numbers of what a client says: at most 63 bytes.
fn push_client_numbers(text: &mut Room, word: ClientWord)
    requires { array_vec_len text.old + 63 ≤ 320 }
    ensures bytes { text.new.items ≡ text.old.items ++ fields (client_numbers word) }
    ensures len { array_vec_len text.new ≤ array_vec_len text.old + 63 }
{
    match word {
        ClientWord::Hello | ClientWord::Plan | ClientWord::Close | ClientWord::Greet => {}
        ClientWord::Open { plan } => push_number(text, plan),
        ClientWord::Claim { number, epoch } | ClientWord::Drop { number, epoch } => {
            push_number(text, u64::from(number));
            push_number(text, epoch);
        }
        ClientWord::ClaimStamps {
            number,
            epoch,
            stamps,
        } => {
            push_number(text, u64::from(number));
            push_number(text, epoch);
            push_number(text, stamps);
        }
    }
}

/// Returns the line of what a client says, as it is in a message. The room is always enough.
pub fn client_word_line(word: ClientWord) -> ArrayVec<u8, LINE_ROOM>
    ensures { result.items ≡ control_line (client_line word) }
{
    let mut text = ArrayVec::new();
    push(&mut text, b". ");
    push(&mut text, client_word(word));
    push_client_numbers(&mut text, word);
    push(&mut text, b"\n");
    text
}

/// Returns the word of what a voter says.
fn voter_word(word: VoterWord) -> &'static [u8]
    ensures word { result.now ≡ voter_word word }
    ensures short { length result.now ≤ 7 }
{
    match word {
        VoterWord::Number { .. } => b"number",
        VoterWord::Claimed { .. } => b"claimed",
        VoterWord::Refused { .. } => b"refused",
        VoterWord::Closed { .. } => b"closed",
        VoterWord::Taken { .. } => b"taken",
        VoterWord::Unknown { .. } => b"unknown",
        VoterWord::Quiet { .. } => b"quiet",
        VoterWord::Run { .. } => b"run",
        VoterWord::Leaving => b"leaving",
        VoterWord::Greeted => b"greeted",
    }
}

/// Appends the numbers of what a voter says: at most 84 bytes.
fn push_voter_numbers(text: &mut Room, word: VoterWord)
    requires { array_vec_len text.old + 84 ≤ 320 }
    ensures bytes { text.new.items ≡ text.old.items ++ fields (voter_numbers word) }
    ensures len { array_vec_len text.new ≤ array_vec_len text.old + 84 }
{
    match word {
        VoterWord::Number {
            number,
            epoch,
            state,
        } => {
            push_number(text, u64::from(number));
            push_number(text, epoch);
            push_number(text, state);
        }
        VoterWord::Claimed {
            number,
            epoch,
            base,
            reserved,
        } => {
            push_number(text, u64::from(number));
            push_number(text, epoch);
            push_number(text, base);
            push_number(text, reserved);
        }
        VoterWord::Refused { number, epoch }
        | VoterWord::Closed { number, epoch }
        | VoterWord::Taken { number, epoch }
        | VoterWord::Unknown { number, epoch } => {
            push_number(text, u64::from(number));
            push_number(text, epoch);
        }
        VoterWord::Quiet { milliseconds } => push_number(text, milliseconds),
        VoterWord::Run { voter, run } => {
            push_number(text, u64::from(voter));
            push_number(text, run);
        }
        VoterWord::Leaving | VoterWord::Greeted => {}
    }
}

/// Appends the numbers of the reply to a heartbeat: at most 126 bytes.
fn push_opened_numbers(text: &mut Room, opened: &Opened)
    requires { array_vec_len text.old + 126 ≤ 320 }
    ensures bytes { text.new.items ≡ text.old.items ++ fields (opened_numbers opened.now) }
    ensures len { array_vec_len text.new ≤ array_vec_len text.old + 126 }
{
    push_number(text, u64::from(opened.number));
    push_number(text, opened.epoch);
    push_number(text, opened.base);
    push_number(text, opened.reserved);
    push_number(text, opened.seq);
    push_number(text, opened.requests);
}

/// Returns the line of what a voter says, as it is in a message. The room is always enough.
pub fn voter_says_line(says: VoterSays) -> ArrayVec<u8, LINE_ROOM>
    ensures { result.items ≡ control_line (says_line says) }
{
    let mut text = ArrayVec::new();
    push(&mut text, b". ");
    match says {
        VoterSays::Word(word) => {
            push(&mut text, voter_word(word));
            push_voter_numbers(&mut text, word);
        }
        VoterSays::Opened(opened) => {
            push(&mut text, b"opened");
            push_opened_numbers(&mut text, &opened);
        }
    }
    push(&mut text, b"\n");
    text
}
