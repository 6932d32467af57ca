//! Reading a header.
ghost use Rattle.std.specs.Prelude.{◌≡◌, ◌<◌, ◌≤◌, ◌^◌, ◌++◌, ◌∷◌, [], ℕ, List, IfSome, IsTrue, ◌↔◌, MatchOption, codes, length};
ghost use Rattle.texts.specs.Fields.{HasNoSpace, IsBorder};
ghost use Rattle.envelope.specs.Headers.{AreIgnored, Head, HasLine, IsIgnored, IsMessage, NumbersFit, head_then, level_words, sender_words};
ghost use Rattle.envelope.specs.Heads.{head_of};
ghost use Rattle.envelope.specs.Names.{IsName};
ghost use Rattle.envelope.specs.declared.header.Sender.{Sender};
ghost use Rattle.line_words.specs.Lines.{spaced};

use crate::header::{Header, Sender};
use crate::words::{name, numbers};
use line_words::{is, word};
use texts::{cut, cut_at, number};

/// The most bytes of a header's line, without its newline.
pub const MOST_HEADER: usize = 512;

/// Reads a sender and its name from the front. Returns also what follows.
fn sender(bytes: &[u8]) -> Option<(Sender, &[u8], &[u8])>
    ensures written { IfSome result (λ x. bytes.now ≡ spaced (sender_words x.0 x.1.now) x.2.now) }
    ensures numbers { IfSome result (λ x. NumbersFit x.0) }
    ensures name { IfSome result (λ x. IsName x.1.now) }
    ensures border { IfSome result (λ x. IsBorder x.2.now) }
    ensures read { (s : Sender) (w rest : List ℕ) → NumbersFit s → IsName w → IsBorder rest
        → bytes.now ≡ spaced (sender_words s w) rest
        → MatchOption result ⊥ (λ x. (x.0 ≡ s) × (x.1.now ≡ w) × (x.2.now ≡ rest)) }
{
    let Some((kind, rest)) = word(bytes) else {
        return None;
    };
    if is(kind, b"c") {
        return client(rest);
    }
    if is(kind, b"v") {
        return voter(rest);
    }
    if is(kind, b"o") {
        return operator(rest);
    }
    None
}

/// Reads the words of a client, behind its `c`.
fn client(bytes: &[u8]) -> Option<(Sender, &[u8], &[u8])>
    ensures written { IfSome result (λ x. (32 ∷ codes "c") ++ bytes.now ≡ spaced (sender_words x.0 x.1.now) x.2.now) }
    ensures numbers { IfSome result (λ x. NumbersFit x.0) }
    ensures name { IfSome result (λ x. IsName x.1.now) }
    ensures border { IfSome result (λ x. IsBorder x.2.now) }
    ensures read { (s : Sender) (w rest : List ℕ) → NumbersFit s → IsName w → IsBorder rest
        → (32 ∷ codes "c") ++ bytes.now ≡ spaced (sender_words s w) rest
        → MatchOption result ⊥ (λ x. (x.0 ≡ s) × (x.1.now ≡ w) × (x.2.now ≡ rest)) }
{
    let Some((numbers, name, rest)) = numbers(bytes) else {
        return None;
    };
    let sender = Sender::Client {
        number: numbers.id,
        epoch: numbers.first,
        reserved: numbers.second,
        seq: numbers.third,
    };
    Some((sender, name, rest))
}

/// Reads the words of a voter, behind its `v`.
fn voter(bytes: &[u8]) -> Option<(Sender, &[u8], &[u8])>
    ensures written { IfSome result (λ x. (32 ∷ codes "v") ++ bytes.now ≡ spaced (sender_words x.0 x.1.now) x.2.now) }
    ensures numbers { IfSome result (λ x. NumbersFit x.0) }
    ensures name { IfSome result (λ x. IsName x.1.now) }
    ensures border { IfSome result (λ x. IsBorder x.2.now) }
    ensures read { (s : Sender) (w rest : List ℕ) → NumbersFit s → IsName w → IsBorder rest
        → (32 ∷ codes "v") ++ bytes.now ≡ spaced (sender_words s w) rest
        → MatchOption result ⊥ (λ x. (x.0 ≡ s) × (x.1.now ≡ w) × (x.2.now ≡ rest)) }
{
    let Some((numbers, name, rest)) = numbers(bytes) else {
        return None;
    };
    let sender = Sender::Voter {
        number: numbers.id,
        run: numbers.first,
        start: numbers.second,
        lapses: numbers.third,
    };
    Some((sender, name, rest))
}

/// Reads the name of an operator's question, behind the `o`.
fn operator(bytes: &[u8]) -> Option<(Sender, &[u8], &[u8])>
    ensures written { IfSome result (λ x. (32 ∷ codes "o") ++ bytes.now ≡ spaced (sender_words x.0 x.1.now) x.2.now) }
    ensures numbers { IfSome result (λ x. NumbersFit x.0) }
    ensures name { IfSome result (λ x. IsName x.1.now) }
    ensures border { IfSome result (λ x. IsBorder x.2.now) }
    ensures read { (s : Sender) (w rest : List ℕ) → NumbersFit s → IsName w → IsBorder rest
        → (32 ∷ codes "o") ++ bytes.now ≡ spaced (sender_words s w) rest
        → MatchOption result ⊥ (λ x. (x.0 ≡ s) × (x.1.now ≡ w) × (x.2.now ≡ rest)) }
{
    let Some((name, rest)) = name(bytes) else {
        return None;
    };
    Some((Sender::Operator, name, rest))
}

/// Reads the word of a level from the front, if there is one. Returns the level, 0 if there is no such
/// word, and what follows.
fn level(bytes: &[u8]) -> Option<(u64, &[u8])>
    requires { IsBorder bytes.now }
    ensures written { IfSome result (λ x. bytes.now ≡ spaced (level_words x.0) x.1.now) }
    ensures border { IfSome result (λ x. IsBorder x.1.now) }
    ensures read { (n : ℕ) (rest : List ℕ) → n < 2 ^ 64 → AreIgnored rest → bytes.now ≡ spaced (level_words n) rest
        → MatchOption result ⊥ (λ x. (x.0 ≡ n) × (x.1.now ≡ rest)) }
{
    let Some((first, rest)) = word(bytes) else {
        return Some((0, bytes));
    };
    let Some((key, value)) = cut_at(first, b'=') else {
        return Some((0, bytes));
    };
    if !is(key, b"level") {
        return Some((0, bytes));
    }
    let Some(level) = number(value) else {
        return None;
    };
    if level == 0 {
        return None;
    }
    Some((level, rest))
}

/// Returns whether a word is one that a reader ignores: KEY=VALUE, where the key is not `level`.
fn is_ignored(word: &[u8]) -> bool
    requires { HasNoSpace word.now }
    ensures { IsTrue result ↔ IsIgnored word.now }
{
    match cut_at(word, b'=') {
        Some((key, _)) => !key.is_empty() && !is(key, b"level"),
        None => false,
    }
}

/// Returns whether the bytes are words that a reader ignores, each with a space in front.
fn are_ignored(bytes: &[u8]) -> bool
    ensures { IsTrue result ↔ AreIgnored bytes.now }
{
    let mut rest = bytes;
    'words: while !rest.is_empty() {
        let Some((word, after)) = word(rest) else {
            return false;
        };
        if !is_ignored(word) {
            return false;
        }
        rest = after;
    }
    true
}

/// Reads a header from its line, without the newline. Returns also the words that are ignored.
fn header(line: &[u8]) -> Option<(Header<'_>, &[u8])>
    ensures written { IfSome result (λ x. line.now ≡ head_then (head_of x.0) x.1.now) }
    ensures fits { IfSome result (λ x. HasLine (head_of x.0)) }
    ensures others { IfSome result (λ x. AreIgnored x.1.now) }
    ensures read { (h : Head) (rest : List ℕ) → HasLine h → AreIgnored rest → line.now ≡ head_then h rest
        → MatchOption result ⊥ (λ x. (head_of x.0 ≡ h) × (x.1.now ≡ rest)) }
{
    let (first, rest) = cut(line);
    if !is(first, b"qlock2") {
        return None;
    }
    let Some((cluster, rest)) = name(rest) else {
        return None;
    };
    let Some((coterie, rest)) = name(rest) else {
        return None;
    };
    let Some((sender, name, rest)) = sender(rest) else {
        return None;
    };
    let Some((level, rest)) = level(rest) else {
        return None;
    };
    if !are_ignored(rest) {
        return None;
    }
    let header = Header {
        cluster,
        coterie,
        sender,
        name,
        level,
    };
    Some((header, rest))
}

/// A message that was read: its header, and what is behind it.
#[derive(Clone, Copy, Debug)]
pub struct Envelope<'a> {
    /// Who sends it.
    pub header: Header<'a>,
    /// The words of the header's line that a reader ignores, each with a space in front.
    pub ignored: &'a [u8],
    /// The lines behind the header's line.
    pub lines: &'a [u8],
}

/// Reads the header of a message. Returns `None` if and only if the message begins with no header.
pub fn read_header(message: &[u8]) -> Option<Envelope<'_>>
    // What is read is the header of the message.
    ensures written { IfSome result (λ x. IsMessage message.now (head_of x.header) x.ignored.now x.lines.now) }
    // Each header is read, and a message has one.
    ensures read { (h : Head) (ignored lines : List ℕ) → IsMessage message.now h ignored lines
        → MatchOption result ⊥ (λ x. (head_of x.header ≡ h) × (x.ignored.now ≡ ignored) × (x.lines.now ≡ lines)) }
{
    let Some((line, lines)) = cut_at(message, b'\n') else {
        return None;
    };
    if line.len() > MOST_HEADER {
        return None;
    }
    let Some((header, ignored)) = header(line) else {
        return None;
    };
    Some(Envelope {
        header,
        ignored,
        lines,
    })
}
