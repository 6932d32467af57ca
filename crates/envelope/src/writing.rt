//! Writing a header's line.
ghost use Rattle.std.specs.Prelude.{◌≡◌, ◌≤◌, ◌+◌, ◌++◌, ◌∷◌, []};
ghost use Rattle.std.specs.Fmt.{decimal};
ghost use Rattle.arrayvec.specs.ArrayVec.{array_vec_len};
ghost use Rattle.envelope.specs.Headers.{HasLine, head_line, level_words, sender_words};
ghost use Rattle.envelope.specs.Heads.{head_of};
ghost use Rattle.envelope.specs.Names.{IsName};
ghost use Rattle.line_words.specs.Lines.{spaced};

use crate::header::{Header, Sender};
use arrayvec::ArrayVec;
use itoa::Buffer;
use line_words::{LINE_ROOM, Room, push, push_number, push_word};

/// Appends the words of a client or a voter: at most 149 bytes.
fn push_numbers(text: &mut Room, id: u8, first: u64, second: u64, name: &[u8], third: u64)
    requires room { array_vec_len text.old + 149 ≤ 320 }
    requires name { IsName name.now }
    ensures bytes { text.new.items ≡ text.old.items
        ++ spaced (decimal id ∷ decimal first ∷ decimal second ∷ name.now ∷ decimal third ∷ []) [] }
    ensures len { array_vec_len text.new ≤ array_vec_len text.old + 149 }
{
    push_number(text, u64::from(id));
    push_number(text, first);
    push_number(text, second);
    push_word(text, name);
    push_number(text, third);
}

/// Appends the words of a sender: at most 151 bytes.
fn push_sender(text: &mut Room, sender: Sender, name: &[u8])
    requires room { array_vec_len text.old + 151 ≤ 320 }
    requires name { IsName name.now }
    ensures bytes { text.new.items ≡ text.old.items ++ spaced (sender_words sender name.now) [] }
    ensures len { array_vec_len text.new ≤ array_vec_len text.old + 151 }
{
    match sender {
        Sender::Client {
            number,
            epoch,
            reserved,
            seq,
        } => {
            push_word(text, b"c");
            push_numbers(text, number, epoch, reserved, name, seq);
        }
        Sender::Voter {
            number,
            run,
            start,
            lapses,
        } => {
            push_word(text, b"v");
            push_numbers(text, number, run, start, name, lapses);
        }
        Sender::Operator => {
            push_word(text, b"o");
            push_word(text, name);
        }
    }
}

/// Appends the word of a level that is not 0: at most 27 bytes.
fn push_level(text: &mut Room, level: u64)
    requires { array_vec_len text.old + 27 ≤ 320 }
    ensures bytes { text.new.items ≡ text.old.items ++ spaced (level_words level) [] }
    ensures len { array_vec_len text.new ≤ array_vec_len text.old + 27 }
{
    if level > 0 {
        let mut buffer = Buffer::new();
        push_word(text, b"level=");
        push(text, buffer.format(level).as_bytes());
    }
}

/// Returns the line of a header, with its newline. The room is always enough.
pub fn header_line(header: &Header<'_>) -> ArrayVec<u8, LINE_ROOM>
    requires { HasLine (head_of header.now) }
    ensures { result.items ≡ head_line (head_of header.now) }
{
    let mut text = ArrayVec::new();
    push(&mut text, b"qlock2");
    push_word(&mut text, header.cluster);
    push_word(&mut text, header.coterie);
    push_sender(&mut text, header.sender, header.name);
    push_level(&mut text, header.level);
    text.push(b'\n');
    text
}
