//! Reading what a session of a client says.
ghost use Rattle.std.specs.Prelude.{◌≡◌, ◌≢◌, ◌∷◌, [], IfSome, IsTrue, MatchOption, ◌↔◌};
ghost use Rattle.texts.specs.Forms.{IsLineOf};
ghost use Rattle.session_lines.specs.Control.{ClientWordFits, IsUnknown, client_form, client_line, client_word, client_words_have_form};
ghost use Rattle.session_lines.specs.declared.control.ClientWord.{ClientWord};

use crate::control::ClientWord;
use texts::{Line, cut, read_line};

/// The highest number of a client.
const HIGHEST: u64 = 63;

/// Returns what has no number: `hello`, `plan`, `close` or `greet`.
fn bare(word: &[u8]) -> Option<ClientWord>
    ensures written { IfSome result (λ w. IsLineOf client_form w word.now []) }
    ensures read { (w : ClientWord) → IsLineOf client_form w word.now [] → result ≡ Some w }
{
    match word {
        b"hello" => Some(ClientWord::Hello),
        b"plan" => Some(ClientWord::Plan),
        b"close" => Some(ClientWord::Close),
        b"greet" => Some(ClientWord::Greet),
        _ => None,
    }
}

/// Returns what has the number of a plan: `open`.
fn with_plan(word: &[u8], plan: u64) -> Option<ClientWord>
    ensures written { IfSome result (λ w. IsLineOf client_form w word.now (plan ∷ [])) }
    ensures read { (w : ClientWord) → IsLineOf client_form w word.now (plan ∷ []) → result ≡ Some w }
{
    match word {
        b"open" => Some(ClientWord::Open { plan }),
        _ => None,
    }
}

/// Returns what has a number and an epoch: `claim` or `drop`.
fn with_epoch(word: &[u8], number: u64, epoch: u64) -> Option<ClientWord>
    ensures written { IfSome result (λ w. IsLineOf client_form w word.now (number ∷ epoch ∷ [])) }
    ensures read { (w : ClientWord) → IsLineOf client_form w word.now (number ∷ epoch ∷ []) → result ≡ Some w }
{
    if number > HIGHEST || epoch == 0 {
        return None;
    }
    let number = number as u8;
    match word {
        b"claim" => Some(ClientWord::Claim { number, epoch }),
        b"drop" => Some(ClientWord::Drop { number, epoch }),
        _ => None,
    }
}

/// Returns what has a number, an epoch and stamps: `claim`.
fn with_stamps(word: &[u8], number: u64, epoch: u64, stamps: u64) -> Option<ClientWord>
    ensures written { IfSome result (λ w. IsLineOf client_form w word.now (number ∷ epoch ∷ stamps ∷ [])) }
    ensures read { (w : ClientWord) → IsLineOf client_form w word.now (number ∷ epoch ∷ stamps ∷ []) → result ≡ Some w }
{
    if number > HIGHEST || epoch == 0 {
        return None;
    }
    let number = number as u8;
    match word {
        b"claim" => Some(ClientWord::ClaimStamps {
            number,
            epoch,
            stamps,
        }),
        _ => None,
    }
}

impl Line for ClientWord {
    type Value = ClientWord;

    ghost form = { client_form };

    fn value_of(word: &[u8], numbers: &[u64]) -> Option<ClientWord> {
        match numbers {
            [] => bare(word),
            [plan] => with_plan(word, *plan),
            [number, epoch] => with_epoch(word, *number, *epoch),
            [number, epoch, stamps] => with_stamps(word, *number, *epoch, *stamps),
            _ => None,
        }
    }

    ghost is_form = { client_words_have_form };
}

/// Reads what a session of a client says, without the dot in front and the newline behind.
pub fn read_client_word(line: &[u8]) -> Option<ClientWord>
    // What is read has this line.
    ensures written { IfSome result (λ w. ClientWordFits w × (line.now ≡ client_line w)) }
    // It begins with a word that clients say.
    ensures known { IfSome result (λ _. IsUnknown line.now → ⊥) }
    // The line of each word is read.
    ensures read { (w : ClientWord) → ClientWordFits w → line.now ≡ client_line w → result ≡ Some w }
{
    match read_line::<ClientWord>(line) {
        Some(word) => Some(word),
        None => None,
    }
}

/// Returns something that begins with this word, or `None` if nothing does that clients say.
fn example_of(word: &[u8]) -> Option<ClientWord>
    ensures { MatchOption result ((w : ClientWord) → word.now ≢ client_word w) (λ w. word.now ≡ client_word w) }
{
    match word {
        b"hello" => Some(ClientWord::Hello),
        b"plan" => Some(ClientWord::Plan),
        b"open" => Some(ClientWord::Open { plan: 0 }),
        b"close" => Some(ClientWord::Close),
        b"claim" => Some(ClientWord::Claim {
            number: 0,
            epoch: 1,
        }),
        b"drop" => Some(ClientWord::Drop {
            number: 0,
            epoch: 1,
        }),
        b"greet" => Some(ClientWord::Greet),
        _ => None,
    }
}

/// Returns whether a line begins with a word, and clients say nothing that begins so. Who does not know
/// the word ignores the line.
pub fn is_unknown(line: &[u8]) -> bool
    ensures { IsTrue result ↔ IsUnknown line.now }
{
    let (word, _rest) = cut(line);
    if word.is_empty() {
        return false;
    }
    match example_of(word) {
        Some(_) => false,
        None => true,
    }
}
