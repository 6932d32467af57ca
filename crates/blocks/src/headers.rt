//! Headers of messages as words, and what their calls do.
ghost use Rattle.std.specs.Prelude.{◌≡◌, ◌≢◌, ◌∷◌, [], OnErr, length};
ghost use Rattle.envelope.specs.Headers.{HasLine};
ghost use Rattle.envelope.specs.Heads.{head_of};
ghost use Rattle.blocks.specs.HeaderSteps.{HeaderIsRead, WritesHead, WritesHeader, sender_of, words_of_header, words_of_sender};
ghost use Rattle.blocks.specs.Numbers.{returned};

use crate::refusal::Refusal;
use envelope::{Header, Sender, header_line, name_at, read_header};

/// How many words a header has that was read.
pub const HEADER_WORDS: usize = 13;

/// Returns the kind of a sender, a letter, and its numbers.
fn words_of_sender(sender: Sender) -> (u64, u64, u64, u64, u64)
    ensures { result.0 ∷ result.1 ∷ result.2 ∷ result.3 ∷ result.4 ∷ [] ≡ words_of_sender sender }
{
    match sender {
        Sender::Client {
            number,
            epoch,
            reserved,
            seq,
        } => (u64::from(b'c'), u64::from(number), epoch, reserved, seq),
        Sender::Voter {
            number,
            run,
            start,
            lapses,
        } => (u64::from(b'v'), u64::from(number), run, start, lapses),
        Sender::Operator => (u64::from(b'o'), 0, 0, 0, 0),
    }
}

/// Returns the words of a header, behind whose line the lines begin there.
fn words_of_header(header: &Header<'_>, lines_at: usize) -> [u64; HEADER_WORDS]
    requires { HasLine (head_of header.now) }
    ensures { result ≡ words_of_header (head_of header.now) lines_at }
{
    let (kind, id, first, second, third) = words_of_sender(header.sender);
    let (cluster, coterie) = (header.cluster.len() as u64, header.coterie.len() as u64);
    let name = header.name.len() as u64;
    let name_at = name_at(header) as u64;
    [
        kind,
        id,
        first,
        second,
        third,
        header.level,
        7,
        cluster,
        8 + cluster,
        coterie,
        name_at,
        name,
        lines_at as u64,
    ]
}

/// Reads the header of a message, as words.
pub fn read(message: &[u8], words: &mut [u64]) -> Result<(), Refusal>
    ensures read { HeaderIsRead message.now words.old words.new (returned result) }
    ensures refused { OnErr result (words.new ≡ words.old) }
{
    if words.len() != HEADER_WORDS {
        return Err(Refusal::BadArgument);
    }
    let Some(found) = read_header(message) else {
        return Err(Refusal::BadMessage);
    };
    let lines_at = message.len() - found.lines.len();
    words.copy_from_slice(&words_of_header(&found.header, lines_at));
    Ok(())
}

/// Returns the sender of this kind, with these numbers.
pub fn sender_of(kind: u8, id: u8, first: u64, second: u64, third: u64) -> Option<Sender>
    ensures { result ≡ sender_of kind id first second third }
{
    match kind {
        b'c' => Some(Sender::Client {
            number: id,
            epoch: first,
            reserved: second,
            seq: third,
        }),
        b'v' => Some(Sender::Voter {
            number: id,
            run: first,
            start: second,
            lapses: third,
        }),
        b'o' => Some(Sender::Operator),
        _ => None,
    }
}

/// Writes the line of a header to the front of `out`, and how many bytes it has.
pub fn write(header: &Header<'_>, out: &mut [u8], written: &mut usize) -> Result<(), Refusal>
    ensures writes { WritesHead (head_of header.now) out.old out.new written.new (returned result) }
    ensures refused { OnErr result ((out.new ≡ out.old) × (written.new ≡ written.old)) }
{
    if !header.has_line() {
        return Err(Refusal::BadArgument);
    }
    let line = header_line(header);
    let bytes = line.as_slice();
    if bytes.len() > out.len() {
        return Err(Refusal::NoRoom);
    }
    out[..bytes.len()].copy_from_slice(bytes);
    *written = bytes.len();
    Ok(())
}
