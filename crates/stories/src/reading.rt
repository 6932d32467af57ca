//! Reading a script of a story.
ghost use Rattle.std.specs.Prelude.{◌≡◌, ◌++◌, ◌∷◌, [], IfErr, IfOk, IfSome, MatchResult, OnOk};
ghost use Rattle.texts.specs.Forms.{IsLineOf};
ghost use Rattle.replay.specs.Scripts as scripts;
ghost use Rattle.replay.specs.Scripts.{IsScript};
ghost use Rattle.replay.specs.declared.fault.ReplayFault.TheVariants.{OutOfMemory};
ghost use Rattle.stories.specs.Scripts.{IsBadText, IsTextOf, cut_lines, is_plain, kept, left_behind, place_of, without_notes};
ghost use Rattle.stories.specs.Turns.{IsNoStep, turn_form, turns_have_form};
ghost use Rattle.stories.specs.declared.turn.Turn.{Turn};

use crate::turn::Turn;
use replay::{ReplayFault, Script, StepLine, read_script};
use std::alloc::{AllocError, Global};
use texts::{Line, cut_at};
use world::Step;

/// A script of a story: how large a world is, and its turns, as the steps.
pub type StoryScript = Script<TurnLine>;

/// The line of a turn.
pub struct TurnLine;

impl Line for TurnLine {
    type Value = Turn;

    ghost form = { turn_form };

    fn value_of(word: &[u8], numbers: &[u64]) -> Option<Turn> {
        match numbers {
            [] if word == b"exchange".as_slice() => Some(Turn::Step(Step::Exchange)),
            [number] => turn_of(word, *number),
            _ => None,
        }
    }

    ghost is_form = { turns_have_form };
}

/// Returns the turn of a word and its number.
fn turn_of(word: &[u8], number: u64) -> Option<Turn>
    ensures text { IfSome result (λ t. IsLineOf turn_form t word.now (number ∷ [])) }
    ensures read { (t : Turn) → IsLineOf turn_form t word.now (number ∷ []) → result ≡ Some t }
{
    match StepLine::value_of(word, &[number]) {
        Some(step) => Some(Turn::Step(step)),
        None => other_turn_of(word, number),
    }
}

/// Returns the turn of a word and its number that is no step.
fn other_turn_of(word: &[u8], number: u64) -> Option<Turn>
    ensures text { IfSome result (λ t. IsLineOf turn_form t word.now (number ∷ [])) }
    ensures read { (t : Turn) → IsNoStep t → IsLineOf turn_form t word.now (number ∷ [])
        → result ≡ Some t }
{
    let Ok(who) = u8::try_from(number) else {
        return None;
    };
    if word == b"crash-client".as_slice() {
        return Some(Turn::CrashClient(who));
    }
    if word == b"crash-voter".as_slice() {
        return Some(Turn::CrashVoter(who));
    }
    if word == b"evict".as_slice() {
        return Some(Turn::Evict(who));
    }
    if word == b"reborn-voter".as_slice() {
        return Some(Turn::RebornVoter(who));
    }
    if word == b"anew-client".as_slice() {
        return Some(Turn::AnewClient(who));
    }
    if word == b"show".as_slice() {
        return Some(Turn::Show(who));
    }
    None
}

/// Returns whether a line is no note: whether it is not empty and does not begin with `#`.
fn is_plain(line: &[u8]) -> bool
    ensures { result ≡ is_plain line.now }
{
    match line {
        [] => false,
        [first, ..] => *first != b'#',
    }
}

/// Appends a line and its newline, unless the line is a note.
fn push_kept(text: &mut Vec<u8>, line: &[u8]) -> Result<(), AllocError>
    ensures { OnOk result (text.new.items ≡ text.old.items ++ kept line.now) }
{
    if is_plain(line) {
        text.extend_from_slice(line)?;
        text.push(b'\n')?;
    }
    Ok(())
}

/// Returns a text without its notes. Fails only if memory runs out.
fn without_notes(alloc: Global, text: &[u8]) -> Result<Vec<u8>, AllocError>
    ensures { IfOk result (λ plain. plain.items ≡ without_notes text.now) }
{
    let mut plain = Vec::new(alloc);
    let mut rest = text;
    'lines: while let Some((line, after)) = cut_at(rest, b'\n') {
        push_kept(&mut plain, line)?;
        rest = after;
    }
    plain.extend_from_slice(rest)?;
    Ok(plain)
}

/// Returns one less, unless the line is a note.
fn left_behind(line: &[u8], left: usize) -> usize
    ensures { result ≡ left_behind line.now left }
{
    if is_plain(line) {
        left.saturating_sub(1)
    } else {
        left
    }
}

/// Returns the place of a line of a text, from 1, given its number without notes, also from 1.
fn place_of(text: &[u8], number: usize) -> usize
    ensures { result ≡ place_of (cut_lines text.now).0 number }
{
    let mut place = 1;
    let mut left = number;
    let mut rest = text;
    'lines: while let Some((line, after)) = cut_at(rest, b'\n') {
        left = left_behind(line, left);
        if left == 0 {
            return place;
        }
        place += 1;
        rest = after;
    }
    place
}

/// Reads a story's script from its text, in which notes are left out: empty lines, and lines that
/// begin with `#`.
///
/// Fails with `BadLine` for the first line that is missing or malformed, or has no newline. Lines
/// count from 1, with the notes.
pub fn read_story(alloc: Global, text: &[u8]) -> Result<StoryScript, ReplayFault>
    // What is read has this text.
    ensures written { IfOk result (λ s. IsScript turn_form s × IsTextOf text.now s) }
    // What has this text is read, unless memory runs out.
    ensures read { (s : scripts.Script Turn) → IsScript turn_form s → IsTextOf text.now s
        → MatchResult result (λ script. script ≡ s) (λ fault. fault ≡ OutOfMemory) }
    // Which line the fault names.
    ensures bad { IfErr result (IsBadText text.now) }
{
    let plain = without_notes(alloc, text)?;
    match read_script::<TurnLine>(alloc, plain.as_slice()) {
        Ok(script) => Ok(script),
        Err(ReplayFault::BadLine(number)) => Err(ReplayFault::BadLine(place_of(text, number))),
        Err(_) => Err(ReplayFault::OutOfMemory),
    }
}
