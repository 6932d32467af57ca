//! Reading and writing lines with the name of a lock.
ghost use Rattle.std.specs.Prelude.{◌≡◌, ◌<◌, ◌≤◌, ◌+◌, ◌^◌, ◌++◌, ◌∷◌, [], ℕ, List, IfSome, IsTrue, ◌↔◌, MatchOption, length};
ghost use Rattle.std.specs.Fmt.{decimal};
ghost use Rattle.arrayvec.specs.ArrayVec.{array_vec_len};
ghost use Rattle.texts.specs.Fields.{IsBorder, fields};
ghost use Rattle.envelope.specs.LockLines.{IsFirstLine, IsLineName, IsLockName, LockSaysFits, lock_numbers, lock_says_line, lock_word};
ghost use Rattle.envelope.specs.declared.locks.LockSays.{LockSays};
ghost use Rattle.line_words.specs.Lines.{control_line};

use crate::locks::{LockSays, is_lock_name};
use arrayvec::ArrayVec;
use line_words::{LINE_ROOM, Room, is, push, push_number, push_word, word};
use texts::{cut, cut_at, field};

/// Reads a space and the name of a lock from the front.
#[tactic(auto, using(crate::proofs::LockLemmas::lock_name_has_no_space))]
fn lock_name(bytes: &[u8]) -> Option<(&[u8], &[u8])>
    ensures written { IfSome result (λ x. bytes.now ≡ (32 ∷ x.0.now) ++ x.1.now) }
    ensures fits { IfSome result (λ x. IsLockName x.0.now) }
    ensures border { IfSome result (λ x. IsBorder x.1.now) }
    ensures read { (w rest : List ℕ) → IsLockName w → IsBorder rest → bytes.now ≡ (32 ∷ w) ++ rest
        → MatchOption result ⊥ (λ x. (x.0.now ≡ w) × (x.1.now ≡ rest)) }
{
    let Some((name, rest)) = word(bytes) else {
        return None;
    };
    if !is_lock_name(name) {
        return None;
    }
    Some((name, rest))
}

/// Reads what a voter says with this word and these numbers.
fn says(word: &[u8], numbers: &[u8]) -> Option<LockSays>
    requires { IsBorder numbers.now }
    ensures written { IfSome result (λ s. LockSaysFits s × (word.now ≡ lock_word s) × (numbers.now ≡ fields (lock_numbers s))) }
    ensures read { (s : LockSays) → LockSaysFits s → word.now ≡ lock_word s → numbers.now ≡ fields (lock_numbers s) → result ≡ Some s }
{
    let Some((stamp, rest)) = field(numbers) else {
        return None;
    };
    if rest.is_empty() {
        return with_stamp(word, stamp);
    }
    let Some((milliseconds, rest)) = field(rest) else {
        return None;
    };
    if !rest.is_empty() || !is(word, b"held") {
        return None;
    }
    Some(LockSays::Held {
        stamp,
        milliseconds,
    })
}

/// Returns what has a stamp alone: `gone` or `full`.
fn with_stamp(word: &[u8], stamp: u64) -> Option<LockSays>
    ensures written { IfSome result (λ s. LockSaysFits s × (word.now ≡ lock_word s) × (stamp ∷ [] ≡ lock_numbers s)) }
    ensures read { (s : LockSays) → word.now ≡ lock_word s → stamp ∷ [] ≡ lock_numbers s → result ≡ Some s }
{
    match word {
        b"gone" => Some(LockSays::Gone { stamp }),
        b"full" => Some(LockSays::Full { stamp }),
        _ => None,
    }
}

/// Reads what a voter says of a lock, without the dot in front and the newline behind: the lock's name, and
/// what it says.
pub fn read_lock_says(line: &[u8]) -> Option<(&[u8], LockSays)>
    // What is read has this line.
    ensures written { IfSome result (λ x. IsLockName x.0.now × LockSaysFits x.1 × (line.now ≡ lock_says_line x.0.now x.1)) }
    // Each such line is read.
    ensures read { (lock : List ℕ) (s : LockSays) → IsLockName lock → LockSaysFits s → line.now ≡ lock_says_line lock s
        → MatchOption result ⊥ (λ x. (x.0.now ≡ lock) × (x.1 ≡ s)) }
{
    let (word, rest) = cut(line);
    let Some((lock, numbers)) = lock_name(rest) else {
        return None;
    };
    match says(word, numbers) {
        Some(says) => Some((lock, says)),
        None => None,
    }
}

/// Returns the word of what a voter says of a lock.
fn lock_word(says: LockSays) -> &'static [u8]
    ensures word { result.now ≡ lock_word says }
    ensures short { length result.now ≡ 4 }
{
    match says {
        LockSays::Gone { .. } => b"gone",
        LockSays::Full { .. } => b"full",
        LockSays::Held { .. } => b"held",
    }
}

/// Appends the numbers of what a voter says of a lock: at most 42 bytes.
fn push_lock_numbers(text: &mut Room, says: LockSays)
    requires { array_vec_len text.old + 42 ≤ 320 }
    ensures bytes { text.new.items ≡ text.old.items ++ fields (lock_numbers says) }
    ensures len { array_vec_len text.new ≤ array_vec_len text.old + 42 }
{
    match says {
        LockSays::Gone { stamp } | LockSays::Full { stamp } => push_number(text, stamp),
        LockSays::Held {
            stamp,
            milliseconds,
        } => {
            push_number(text, stamp);
            push_number(text, milliseconds);
        }
    }
}

/// Returns the line of what a voter says of a lock, as it is in a message. The room is always enough.
pub fn lock_says_line(lock: &[u8], says: LockSays) -> ArrayVec<u8, LINE_ROOM>
    requires { IsLockName lock.now }
    ensures { result.items ≡ control_line (lock_says_line lock.now says) }
{
    let mut text = ArrayVec::new();
    push(&mut text, b". ");
    push(&mut text, lock_word(says));
    push_word(&mut text, lock);
    push_lock_numbers(&mut text, says);
    push(&mut text, b"\n");
    text
}

/// Returns whether a line may begin with these bytes: a lock's name, or the dot of control.
fn is_line_name(bytes: &[u8]) -> bool
    ensures { IsTrue result ↔ IsLineName bytes.now }
{
    is_lock_name(bytes) || is(bytes, b".")
}

/// Cuts the first line off a text: the name of a lock, or the dot of control, what is behind it, and what is
/// behind the line. `None` if the text begins with no such line.
pub fn first_line(text: &[u8]) -> Option<(&[u8], &[u8], &[u8])>
    // What is cut off is the first line.
    ensures written { IfSome result (λ x. IsFirstLine text.now x.0.now x.1.now x.2.now) }
    ensures len { IfSome result (λ x. length text.now ≡ length x.0.now + length x.1.now + 2 + length x.2.now) }
    // Each first line is cut off.
    ensures read { (name line rest : List ℕ) → IsFirstLine text.now name line rest
        → MatchOption result ⊥ (λ x. (x.0.now ≡ name) × (x.1.now ≡ line) × (x.2.now ≡ rest)) }
{
    let Some((first, rest)) = cut_at(text, b'\n') else {
        return None;
    };
    let Some((name, line)) = cut_at(first, b' ') else {
        return None;
    };
    if !is_line_name(name) {
        return None;
    }
    Some((name, line, rest))
}
