//! The calls of headers of messages, of lines of control, and of lines with the name of a lock.
ghost use Rattle.std.specs.Prelude.{◌≡◌, ◌≢◌};
ghost use Rattle.blocks.specs.ControlSteps.{ClientWordIsRead, VoterSaysIsRead, WritesClientWord, WritesVoterSays, client_of, says_of};
ghost use Rattle.blocks.specs.HeaderSteps.{HeaderIsRead, WritesHeader, sender_of};
ghost use Rattle.blocks.specs.LineSteps.{LineIsCut, LockNameIsTold, LockSaysIsRead, WritesLockSays, lock_says_of};
ghost use Rattle.blocks.specs.Numbers.{done};

use blocks::{Refusal, control, headers, lock_lines, number_of};
use envelope::Header;

/// Reads the header of a message, as 13 words: the kind of its sender (a letter), the number of a client or a
/// voter and three more, the level, where each of the three names is and how long it is, and where the lines
/// behind the header begin.
#[unsafe(no_mangle)]
pub extern "C" fn qlock_header_read(message: &[u8], header: &mut [u64]) -> i32
    ensures refused { result ≢ done → header.new ≡ header.old }
    ensures read { HeaderIsRead message.now header.old header.new result }
{
    number_of(headers::read(message, header))
}

/// Writes the line of a header to the front of `out`, and how many bytes it has.
#[unsafe(no_mangle)]
pub extern "C" fn qlock_header_write(
    kind: u8,
    id: u8,
    first: u64,
    second: u64,
    third: u64,
    level: u64,
    cluster: &[u8],
    coterie: &[u8],
    name: &[u8],
    out: &mut [u8],
    written: &mut usize,
) -> i32
    ensures refused { result ≢ done → (out.new ≡ out.old) × (written.new ≡ written.old) }
    ensures writes { WritesHeader (sender_of kind id first second third) cluster.now coterie.now name.now level out.old out.new
        written.new result }
{
    let Some(sender) = headers::sender_of(kind, id, first, second, third) else {
        return number_of(Err(Refusal::BadArgument));
    };
    let header = Header {
        cluster,
        coterie,
        sender,
        name,
        level,
    };
    number_of(headers::write(&header, out, written))
}

/// Reads a line of control of a client, without the dot in front and the newline behind, as 4 words: its
/// kind, the number of the client, and two more. A line that begins with no known word is four times 0.
#[unsafe(no_mangle)]
pub extern "C" fn qlock_client_word_read(line: &[u8], words: &mut [u64]) -> i32
    ensures refused { result ≢ done → words.new ≡ words.old }
    ensures read { ClientWordIsRead line.now words.old words.new result }
{
    number_of(control::read_client(line, words))
}

/// Writes a line of control of a client to the front of `out`, as it is in a message, and how many bytes
/// it has.
#[unsafe(no_mangle)]
pub extern "C" fn qlock_client_word_write(
    kind: u8,
    id: u8,
    first: u64,
    second: u64,
    out: &mut [u8],
    written: &mut usize,
) -> i32
    ensures refused { result ≢ done → (out.new ≡ out.old) × (written.new ≡ written.old) }
    ensures writes { WritesClientWord (client_of kind id first second) out.old out.new written.new result }
{
    match control::client_of(kind, id, first, second) {
        Some(word) => number_of(control::write_client(word, out, written)),
        None => number_of(Err(Refusal::BadArgument)),
    }
}

/// Reads a line of control of a voter, without the dot in front and the newline behind, as 7 words: its
/// kind, the number of the client, and five more.
#[unsafe(no_mangle)]
pub extern "C" fn qlock_voter_word_read(line: &[u8], words: &mut [u64]) -> i32
    ensures refused { result ≢ done → words.new ≡ words.old }
    ensures read { VoterSaysIsRead line.now words.old words.new result }
{
    number_of(control::read_voter(line, words))
}

/// Writes a line of control of a voter to the front of `out`, as it is in a message, and how many bytes
/// it has.
#[unsafe(no_mangle)]
pub extern "C" fn qlock_voter_word_write(
    kind: u8,
    id: u8,
    first: u64,
    second: u64,
    third: u64,
    fourth: u64,
    fifth: u64,
    out: &mut [u8],
    written: &mut usize,
) -> i32
    ensures refused { result ≢ done → (out.new ≡ out.old) × (written.new ≡ written.old) }
    ensures writes { WritesVoterSays (says_of kind id first second third fourth fifth) out.old out.new written.new result }
{
    match control::says_of(kind, id, first, second, third, fourth, fifth) {
        Some(says) => number_of(control::write_voter(says, out, written)),
        None => number_of(Err(Refusal::BadArgument)),
    }
}

/// Reads what a voter says of a lock, without the dot in front and the newline behind, as 5 words: its kind,
/// a stamp and a time, where the lock's name is and how long it is.
#[unsafe(no_mangle)]
pub extern "C" fn qlock_lock_word_read(line: &[u8], words: &mut [u64]) -> i32
    ensures refused { result ≢ done → words.new ≡ words.old }
    ensures read { LockSaysIsRead line.now words.old words.new result }
{
    number_of(lock_lines::read(line, words))
}

/// Writes what a voter says of a lock to the front of `out`, as it is in a message, and how many bytes it has.
#[unsafe(no_mangle)]
pub extern "C" fn qlock_lock_word_write(
    kind: u8,
    lock: &[u8],
    stamp: u64,
    milliseconds: u64,
    out: &mut [u8],
    written: &mut usize,
) -> i32
    ensures refused { result ≢ done → (out.new ≡ out.old) × (written.new ≡ written.old) }
    ensures writes { WritesLockSays (lock_says_of kind stamp milliseconds) lock.now out.old out.new written.new result }
{
    match lock_lines::says_of(kind, stamp, milliseconds) {
        Some(says) => number_of(lock_lines::write(says, lock, out, written)),
        None => number_of(Err(Refusal::BadArgument)),
    }
}

/// Cuts the first line off a text, as 3 words: how long the lock's name in front is, or the dot of control, how
/// long what is behind the space is, and where the text behind the line begins.
#[unsafe(no_mangle)]
pub extern "C" fn qlock_line_cut(text: &[u8], words: &mut [u64]) -> i32
    ensures refused { result ≢ done → words.new ≡ words.old }
    ensures cut { LineIsCut text.now words.old words.new result }
{
    number_of(lock_lines::cut(text, words))
}

/// Writes 1 if bytes may name a lock, and 0 if not.
#[unsafe(no_mangle)]
pub extern "C" fn qlock_is_lock_name(name: &[u8], yes: &mut u32) -> i32
    ensures { LockNameIsTold name.now yes.new result }
{
    number_of(lock_lines::is_name(name, yes))
}
