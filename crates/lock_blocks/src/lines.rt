//! Messages as lines, each with its newline, in a text of fixed room.
ghost use Rattle.std.specs.Prelude.{◌≡◌, ◌<◌, ◌≤◌, ◌+◌, ◌*◌, ◌++◌, ◌∷◌, IfErr, OnOk, length};
ghost use Rattle.std.specs.Fmt.{decimal};
ghost use Rattle.arrayvec.specs.ArrayString.{array_string_len};
ghost use Rattle.message.specs.declared.message.Message.TheVariants as kinds;
ghost use Rattle.lock_blocks.specs.Lines.{Writes, lines_to_clients, lines_to_voters, line_of};

use arrayvec::ArrayString;
use blocks::Refusal;
use itoa::Buffer;
use message::{ClientBody, ToClient, ToVoter, VoterBody};
use texts::push_field_in_room;

/// Appends a space and the number of a voter or a client.
fn push_id<const N: usize>(text: &mut ArrayString<N>, id: u8)
    requires { array_string_len text.old + 4 ≤ N }
    ensures bytes { text.new.bytes ≡ text.old.bytes ++ (32 ∷ decimal id) }
    ensures len { array_string_len text.new ≤ array_string_len text.old + 4 }
{
    let mut buffer = Buffer::new();
    text.push(' ');
    text.push_str(buffer.format(id));
}

/// Appends a word, and the numbers of the sender and the receiver.
fn push_head<const N: usize>(text: &mut ArrayString<N>, word: &str, from: u8, to: u8)
    requires { array_string_len text.old + length word.now + 8 ≤ N }
    ensures bytes { text.new.bytes ≡ text.old.bytes ++ (word.now ++ ((32 ∷ decimal from) ++ (32 ∷ decimal to))) }
    ensures len { array_string_len text.new ≤ array_string_len text.old + length word.now + 8 }
{
    text.push_str(word);
    push_id(text, from);
    push_id(text, to);
}

/// Appends the line of a message to a client: at most 78 bytes.
fn push_to_client<const N: usize>(text: &mut ArrayString<N>, message: &ToClient)
    requires { array_string_len text.old + 78 ≤ N }
    ensures bytes { text.new.bytes ≡ text.old.bytes ++ line_of (kinds.ToClient message.now) }
    ensures len { array_string_len text.new ≤ array_string_len text.old + 78 }
{
    let (from, to) = (message.voter, message.client);
    match message.body {
        ClientBody::Locked { stamp, grant } => {
            push_head(text, "locked", from, to);
            push_field_in_room(text, stamp);
            push_field_in_room(text, grant);
        }
        ClientBody::Fail { stamp } => {
            push_head(text, "fail", from, to);
            push_field_in_room(text, stamp);
        }
        ClientBody::Inquire { grant } => {
            push_head(text, "inquire", from, to);
            push_field_in_room(text, grant);
        }
    }
    push_field_in_room(text, message.seen);
    text.push('\n');
}

/// Appends the line of a message to a voter: at most 40 bytes.
fn push_to_voter<const N: usize>(text: &mut ArrayString<N>, message: &ToVoter)
    requires { array_string_len text.old + 40 ≤ N }
    ensures bytes { text.new.bytes ≡ text.old.bytes ++ line_of (kinds.ToVoter message.now) }
    ensures len { array_string_len text.new ≤ array_string_len text.old + 40 }
{
    let (from, to) = (message.client, message.voter);
    let number = match message.body {
        VoterBody::Request { stamp } => {
            push_head(text, "request", from, to);
            stamp
        }
        VoterBody::Relinquish { grant } => {
            push_head(text, "relinquish", from, to);
            grant
        }
        VoterBody::Release { stamp } => {
            push_head(text, "release", from, to);
            stamp
        }
    };
    push_field_in_room(text, number);
    text.push('\n');
}

/// Returns the lines of messages to clients.
fn lines_to_clients(messages: &[ToClient]) -> ArrayString<240>
    requires { length messages.now ≤ 3 }
    ensures { result.bytes ≡ lines_to_clients messages.now }
{
    let mut text = ArrayString::new();
    for message in messages {
        push_to_client(&mut text, message);
    }
    text
}

/// Returns the lines of messages to voters.
fn lines_to_voters(messages: &[ToVoter]) -> ArrayString<5120>
    requires { length messages.now ≤ 128 }
    ensures { result.bytes ≡ lines_to_voters messages.now }
{
    let mut text = ArrayString::new();
    for message in messages {
        push_to_voter(&mut text, message);
    }
    text
}

/// Writes a text to the front of `out`, and how many bytes it has. Fails with `NoRoom` if `out` is
/// too short.
fn put(text: &str, out: &mut [u8], written: &mut usize) -> Result<(), Refusal>
    ensures done { OnOk result (Writes text.now out.old out.new written.new × (length text.now ≤ length out.old)) }
    ensures refused { IfErr result (λ refusal. (refusal ≡ Refusal.NoRoom) × (length out.old < length text.now)
        × (out.new ≡ out.old) × (written.new ≡ written.old)) }
{
    let bytes = text.as_bytes();
    if bytes.len() > out.len() {
        return Err(Refusal::NoRoom);
    }
    out[..bytes.len()].copy_from_slice(bytes);
    *written = bytes.len();
    Ok(())
}

/// Writes the lines of messages to clients, as [`put`] does.
pub fn put_to_clients(
    messages: &[ToClient],
    out: &mut [u8],
    written: &mut usize,
) -> Result<(), Refusal>
    requires { length messages.now ≤ 3 }
    ensures done { OnOk result (Writes (lines_to_clients messages.now) out.old out.new written.new
        × (length (lines_to_clients messages.now) ≤ length out.old)) }
    ensures refused { IfErr result (λ refusal. (refusal ≡ Refusal.NoRoom)
        × (length out.old < length (lines_to_clients messages.now))
        × (out.new ≡ out.old) × (written.new ≡ written.old)) }
{
    put(lines_to_clients(messages).as_str(), out, written)
}

/// Writes the lines of messages to voters, as [`put`] does.
pub fn put_to_voters(
    messages: &[ToVoter],
    out: &mut [u8],
    written: &mut usize,
) -> Result<(), Refusal>
    requires { length messages.now ≤ 128 }
    ensures done { OnOk result (Writes (lines_to_voters messages.now) out.old out.new written.new
        × (length (lines_to_voters messages.now) ≤ length out.old)) }
    ensures refused { IfErr result (λ refusal. (refusal ≡ Refusal.NoRoom)
        × (length out.old < length (lines_to_voters messages.now))
        × (out.new ≡ out.old) × (written.new ≡ written.old)) }
{
    put(lines_to_voters(messages).as_str(), out, written)
}
