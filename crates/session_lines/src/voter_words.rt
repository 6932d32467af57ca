//! Reading what a voter says.
ghost use Rattle.std.specs.Prelude.{◌≡◌, ◌∷◌, ◌++◌, [], IfSome, codes};
ghost use Rattle.texts.specs.Fields.{IsBorder, fields};
ghost use Rattle.texts.specs.Forms.{IsLineOf};
ghost use Rattle.session_lines.specs.Control.{OpenedFits, SaysFits, opened_numbers, says_line, voter_form, voter_words_have_form};
ghost use Rattle.session_lines.specs.declared.control.Opened.{Opened};
ghost use Rattle.session_lines.specs.declared.control.VoterSays.{VoterSays};
ghost use Rattle.session_lines.specs.declared.control.VoterWord.{VoterWord};

use crate::control::{Opened, VoterSays, VoterWord};
use line_words::{id, is};
use texts::{Line, cut, field, read_line};

/// The highest number of a client.
const HIGHEST: u64 = 63;

/// Returns what has no number: `leaving` or `greeted`.
fn bare(word: &[u8]) -> Option<VoterWord>
    ensures written { IfSome result (λ w. IsLineOf voter_form w word.now []) }
    ensures read { (w : VoterWord) → IsLineOf voter_form w word.now [] → result ≡ Some w }
{
    match word {
        b"leaving" => Some(VoterWord::Leaving),
        b"greeted" => Some(VoterWord::Greeted),
        _ => None,
    }
}

/// Returns what has a time: `quiet`.
fn with_time(word: &[u8], milliseconds: u64) -> Option<VoterWord>
    ensures written { IfSome result (λ w. IsLineOf voter_form w word.now (milliseconds ∷ [])) }
    ensures read { (w : VoterWord) → IsLineOf voter_form w word.now (milliseconds ∷ []) → result ≡ Some w }
{
    match word {
        b"quiet" => Some(VoterWord::Quiet { milliseconds }),
        _ => None,
    }
}

/// Returns what has a number and an epoch: `refused`, `closed`, `taken` or `unknown`. Or a voter and its run: `run`.
fn with_epoch(word: &[u8], number: u64, epoch: u64) -> Option<VoterWord>
    ensures written { IfSome result (λ w. IsLineOf voter_form w word.now (number ∷ epoch ∷ [])) }
    ensures read { (w : VoterWord) → IsLineOf voter_form w word.now (number ∷ epoch ∷ []) → result ≡ Some w }
{
    if number > HIGHEST {
        return None;
    }
    let number = number as u8;
    match word {
        b"refused" => Some(VoterWord::Refused { number, epoch }),
        b"closed" => Some(VoterWord::Closed { number, epoch }),
        b"taken" => Some(VoterWord::Taken { number, epoch }),
        b"unknown" => Some(VoterWord::Unknown { number, epoch }),
        b"run" => Some(VoterWord::Run {
            voter: number,
            run: epoch,
        }),
        _ => None,
    }
}

/// Returns what has a number, an epoch and a state: `number`.
fn with_state(word: &[u8], number: u64, epoch: u64, state: u64) -> Option<VoterWord>
    ensures written { IfSome result (λ w. IsLineOf voter_form w word.now (number ∷ epoch ∷ state ∷ [])) }
    ensures read { (w : VoterWord) → IsLineOf voter_form w word.now (number ∷ epoch ∷ state ∷ []) → result ≡ Some w }
{
    if number > HIGHEST || state > 2 {
        return None;
    }
    match word {
        b"number" => Some(VoterWord::Number {
            number: number as u8,
            epoch,
            state,
        }),
        _ => None,
    }
}

/// Returns what has a number, an epoch, a base and a reserved stamp: `claimed`.
fn with_stamps(word: &[u8], number: u64, epoch: u64, base: u64, reserved: u64) -> Option<VoterWord>
    ensures written { IfSome result (λ w. IsLineOf voter_form w word.now (number ∷ epoch ∷ base ∷ reserved ∷ [])) }
    ensures read { (w : VoterWord) → IsLineOf voter_form w word.now (number ∷ epoch ∷ base ∷ reserved ∷ []) → result ≡ Some w }
{
    if number > HIGHEST {
        return None;
    }
    match word {
        b"claimed" => Some(VoterWord::Claimed {
            number: number as u8,
            epoch,
            base,
            reserved,
        }),
        _ => None,
    }
}

impl Line for VoterWord {
    type Value = VoterWord;

    ghost form = { voter_form };

    fn value_of(word: &[u8], numbers: &[u64]) -> Option<VoterWord> {
        match numbers {
            [] => bare(word),
            [milliseconds] => with_time(word, *milliseconds),
            [number, epoch] => with_epoch(word, *number, *epoch),
            [number, epoch, state] => with_state(word, *number, *epoch, *state),
            [number, epoch, base, reserved] => {
                with_stamps(word, *number, *epoch, *base, *reserved)
            }
            _ => None,
        }
    }

    ghost is_form = { voter_words_have_form };
}

/// Reads the numbers of the reply to a heartbeat, behind its word.
fn opened(bytes: &[u8]) -> Option<Opened>
    requires { IsBorder bytes.now }
    ensures written { IfSome result (λ o. bytes.now ≡ fields (opened_numbers o)) }
    ensures fits { IfSome result OpenedFits }
    ensures read { (o : Opened) → OpenedFits o → bytes.now ≡ fields (opened_numbers o) → result ≡ Some o }
{
    let Some((number, rest)) = id(bytes) else {
        return None;
    };
    let Some((epoch, rest)) = field(rest) else {
        return None;
    };
    let Some((base, rest)) = field(rest) else {
        return None;
    };
    let Some((reserved, rest)) = field(rest) else {
        return None;
    };
    let Some((seq, rest)) = field(rest) else {
        return None;
    };
    let Some((requests, rest)) = field(rest) else {
        return None;
    };
    if !rest.is_empty() {
        return None;
    }
    Some(Opened {
        number,
        epoch,
        base,
        reserved,
        seq,
        requests,
    })
}

/// Reads what a voter says, without the dot in front and the newline behind.
pub fn read_voter_says(line: &[u8]) -> Option<VoterSays>
    // What is read has this line.
    ensures written { IfSome result (λ s. SaysFits s × (line.now ≡ says_line s)) }
    // Each line of a voter that has numbers only is read.
    ensures read { (s : VoterSays) → SaysFits s → line.now ≡ says_line s → result ≡ Some s }
{
    let (word, rest) = cut(line);
    if is(word, b"opened") {
        let Some(opened) = opened(rest) else {
            return None;
        };
        return Some(VoterSays::Opened(opened));
    }
    match read_line::<VoterWord>(line) {
        Some(word) => Some(VoterSays::Word(word)),
        None => None,
    }
}
