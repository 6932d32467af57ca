//! The parts of an input: texts with a line `%%` between them.
ghost use Rattle.std.specs.Prelude.{◌≡◌, ◌+◌, ◌≤◌, length, nat_lt, true, Ok, Err, IfErr, IfSome, MatchResult};
ghost use Rattle.commands.specs.Commands.{reads_input};
ghost use Rattle.commands.specs.declared.fault.Fault.TheVariants.{MissingPart};
ghost use Rattle.commands.specs.Parts.{first_mark, is_mark, parts_of, split};

use crate::fault::Fault;
use command_line::Command;

/// The line that separates two parts.
const MARK: &[u8] = b"%%\n";

/// Returns how many parts the input of a command has, 0 to 3.
pub fn parts_of(command: &Command) -> usize
    ensures value { result ≡ parts_of command.now }
    ensures some { reads_input command.now ≡ nat_lt 0 result }
{
    match command {
        Command::Make(_) => 0,
        Command::Plan => 1,
        Command::Check | Command::Deal(_) | Command::Run { .. } => 2,
        Command::World | Command::Replay => 3,
    }
}

/// Returns whether a separating line begins at a place.
fn begins_mark(input: &[u8], place: usize) -> bool
    requires { place ≤ length input.now }
    ensures mark { result ≡ is_mark input.now place }
    ensures within { result ≡ true → place + 3 ≤ length input.now }
{
    (place == 0 || input[place - 1] == b'\n') && input[place..].starts_with(MARK)
}

/// Returns the place where the first separating line begins.
fn mark_in(input: &[u8]) -> Option<usize>
    ensures first { result ≡ first_mark input.now }
    ensures within { IfSome result (λ place. place + 3 ≤ length input.now) }
{
    for place in 0..input.len() {
        if begins_mark(input, place) {
            return Some(place);
        }
    }
    None
}

/// Returns the part before the first separating line, and what follows that line. If there is no
/// such line, fails with `MissingPart`; `next` is the number of the part that is missing.
#[tactic(auto, unfolding(crate::specs::Parts::split))]
pub fn split_part(input: &[u8], next: usize) -> Result<(&[u8], &[u8]), Fault>
    ensures exact { MatchResult result (λ p. split next input.now ≡ Ok (p.0.now, p.1.now))
        (λ e. split next input.now ≡ Err e) }
    ensures missing { IfErr result (λ e. e ≡ MissingPart next) }
{
    match mark_in(input) {
        Some(place) => Ok((&input[..place], &input[place + MARK.len()..])),
        None => Err(Fault::MissingPart(next)),
    }
}
