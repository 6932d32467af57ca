//! Lines with the name of a lock as words, and what their calls do.
ghost use Rattle.std.specs.Prelude.{◌≡◌, OnErr, length};
ghost use Rattle.line_words.specs.Lines.{control_line};
ghost use Rattle.envelope.specs.LockLines.{IsLockName, lock_says_line};
ghost use Rattle.blocks.specs.ControlSteps.{WritesLine};
ghost use Rattle.blocks.specs.LineSteps.{LineIsCut, LockNameIsTold, LockSaysIsRead, lock_says_of, words_of_lock};
ghost use Rattle.blocks.specs.Numbers.{returned};

use crate::refusal::Refusal;
use envelope::{LockSays, first_line, is_lock_name, lock_says_line, read_lock_says};

/// How many words a line of a lock has that was read.
pub const LOCK_WORDS: usize = 5;

/// How many words the first line of a text has that was cut off.
pub const LINE_WORDS: usize = 3;

/// Where the lock's name is in a line: behind a word of four bytes, and a space.
const LOCK_AT: u64 = 5;

/// Returns the words of what a voter says of a lock, whose name is so long.
fn words_of_lock(says: LockSays, len: usize) -> [u64; LOCK_WORDS]
    ensures { result ≡ words_of_lock says len }
{
    let len = len as u64;
    match says {
        LockSays::Gone { stamp } => [1, stamp, 0, LOCK_AT, len],
        LockSays::Full { stamp } => [2, stamp, 0, LOCK_AT, len],
        LockSays::Held {
            stamp,
            milliseconds,
        } => [3, stamp, milliseconds, LOCK_AT, len],
    }
}

/// Returns what a voter says of a lock with these words.
pub fn says_of(kind: u8, stamp: u64, milliseconds: u64) -> Option<LockSays>
    ensures { result ≡ lock_says_of kind stamp milliseconds }
{
    match kind {
        1 => Some(LockSays::Gone { stamp }),
        2 => Some(LockSays::Full { stamp }),
        3 => Some(LockSays::Held {
            stamp,
            milliseconds,
        }),
        _ => None,
    }
}

/// Reads what a voter says of a lock, as words.
pub fn read(line: &[u8], words: &mut [u64]) -> Result<(), Refusal>
    ensures read { LockSaysIsRead line.now words.old words.new (returned result) }
    ensures refused { OnErr result (words.new ≡ words.old) }
{
    if words.len() != LOCK_WORDS {
        return Err(Refusal::BadArgument);
    }
    let Some((lock, says)) = read_lock_says(line) else {
        return Err(Refusal::BadMessage);
    };
    words.copy_from_slice(&words_of_lock(says, lock.len()));
    Ok(())
}

/// Writes what a voter says of a lock to the front of `out`, and how many bytes it has.
pub fn write(
    says: LockSays,
    lock: &[u8],
    out: &mut [u8],
    written: &mut usize,
) -> Result<(), Refusal>
    ensures writes { WritesLine (IsLockName lock.now) (control_line (lock_says_line lock.now says)) out.old out.new written.new (returned result) }
    ensures refused { OnErr result ((out.new ≡ out.old) × (written.new ≡ written.old)) }
{
    if !is_lock_name(lock) {
        return Err(Refusal::BadArgument);
    }
    let line = lock_says_line(lock, says);
    let bytes = line.as_slice();
    if bytes.len() > out.len() {
        return Err(Refusal::NoRoom);
    }
    out[..bytes.len()].copy_from_slice(bytes);
    *written = bytes.len();
    Ok(())
}

/// Cuts the first line off a text, as words.
pub fn cut(text: &[u8], words: &mut [u64]) -> Result<(), Refusal>
    ensures cut { LineIsCut text.now words.old words.new (returned result) }
    ensures refused { OnErr result (words.new ≡ words.old) }
{
    if words.len() != LINE_WORDS {
        return Err(Refusal::BadArgument);
    }
    let Some((name, line, rest)) = first_line(text) else {
        return Err(Refusal::BadMessage);
    };
    let behind = text.len() - rest.len();
    words.copy_from_slice(&[name.len() as u64, line.len() as u64, behind as u64]);
    Ok(())
}

/// Writes 1 if bytes may name a lock, and 0 if not.
pub fn is_name(name: &[u8], yes: &mut u32) -> Result<(), Refusal>
    ensures { LockNameIsTold name.now yes.new (returned result) }
{
    *yes = u32::from(is_lock_name(name));
    Ok(())
}
