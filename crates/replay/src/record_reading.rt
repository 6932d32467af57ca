//! Reading the record of a run.
ghost use Rattle.std.specs.Prelude.{◌≡◌, ◌≢◌, ◌++◌, ◌∷◌, [], ℕ, List, IfErr, IfOk, MatchOption, MatchResult};
ghost use Rattle.replay.specs.Records.{Entries, entries_of};
ghost use Rattle.replay.specs.RecordTexts.{HasText, IsBadRecord, IsBadRest, body_text, draw_form, draws_have_form, pass_form, passes_have_form, record_text, register_form, registers_have_form, title_line};
ghost use Rattle.replay.specs.declared.fault.ReplayFault.TheVariants.{BadLine, OutOfMemory};

use crate::fault::ReplayFault;
use numbers::{MAX_CLIENTS, MAX_QUORUMS};
use run_outcome::{Draw, Pass, RunRecord};
use std::alloc::Global;
use texts::{Line, cut_at, first_lines, next_line};

/// The first line of a record.
const TITLE: &[u8] = b"quorum-record 1";

/// The highest number of a client.
const HIGHEST_CLIENT: u64 = MAX_CLIENTS as u64 - 1;

/// The highest number of a quorum.
const HIGHEST_QUORUM: u64 = MAX_QUORUMS as u64 - 1;

/// `draw CLIENT TICKET QUORUM`.
struct DrawLine;

impl Line for DrawLine {
    type Value = Draw;

    ghost form = { draw_form };

    fn value_of(word: &[u8], numbers: &[u64]) -> Option<Draw> {
        match numbers {
            [client, ticket, quorum]
                if word == b"draw".as_slice()
                    && *client <= HIGHEST_CLIENT
                    && *quorum <= HIGHEST_QUORUM => {
                Some((*client as u8, *ticket, *quorum as usize))
            }
            _ => None,
        }
    }

    ghost is_form = { draws_have_form };
}

/// `pass CLIENT NUMBER`.
struct PassLine;

impl Line for PassLine {
    type Value = Pass;

    ghost form = { pass_form };

    fn value_of(word: &[u8], numbers: &[u64]) -> Option<Pass> {
        match numbers {
            [client, number] if word == b"pass".as_slice() && *client <= HIGHEST_CLIENT => {
                Some((*client as u8, *number))
            }
            _ => None,
        }
    }

    ghost is_form = { passes_have_form };
}

/// `register NUMBER`.
struct RegisterLine;

impl Line for RegisterLine {
    type Value = u64;

    ghost form = { register_form };

    fn value_of(word: &[u8], numbers: &[u64]) -> Option<u64> {
        match numbers {
            [number] if word == b"register".as_slice() => Some(*number),
            _ => None,
        }
    }

    ghost is_form = { registers_have_form };
}

/// Reads what follows the first line of a record. The first line of `text` has number 2.
fn read_body(alloc: Global, text: &[u8]) -> Result<RunRecord, ReplayFault>
    ensures written { IfOk result (λ run. HasText (entries_of run) × (text.now ≡ body_text (entries_of run))) }
    ensures bad { IfErr result (IsBadRest text.now) }
    ensures lost { IfOk result (λ run. run.lost ≡ 0) }
    ensures one_plan { IfOk result (λ run. run.draws2.items ≡ []) }
{
    let (draws, rest) = first_lines::<DrawLine>(alloc, text)?;
    let (passes, rest) = first_lines::<PassLine>(alloc, rest)?;
    let line = draws.len() + passes.len() + 2;
    let Some((register, rest)) = next_line::<RegisterLine>(rest) else {
        return Err(ReplayFault::BadLine(line));
    };
    if !rest.is_empty() {
        return Err(ReplayFault::BadLine(line + 1));
    }
    Ok(RunRecord {
        draws,
        draws2: Vec::new(alloc),
        passes,
        register,
        lost: 0,
    })
}

/// Returns what follows the first line of a record, if the text begins with that line.
fn behind_title(text: &[u8]) -> Option<&[u8]>
    ensures { MatchOption result ((body : List ℕ) → text.now ≢ title_line ++ 10 ∷ body)
        (λ body. text.now ≡ title_line ++ 10 ∷ body.now) }
{
    match cut_at(text, b'\n') {
        Some((line, rest)) if line == TITLE => Some(rest),
        _ => None,
    }
}

/// Reads the record of a run from its text.
///
/// Fails with `BadLine` for the first line that is missing, malformed or out of place, or has no
/// newline. A line after the register's is out of place too. Memory may run out at any point.
///
/// The record has no draws of a second plan, and its number of lost messages is 0. The time is that
/// of one pass over the text.
pub fn read_record(alloc: Global, text: &[u8]) -> Result<RunRecord, ReplayFault>
    // What is read has this text.
    ensures written { IfOk result (λ run. HasText (entries_of run) × (text.now ≡ record_text (entries_of run))) }
    // What has this text is read, unless memory runs out.
    ensures read { (e : Entries) → HasText e → text.now ≡ record_text e
        → MatchResult result (λ run. entries_of run ≡ e) (λ fault. fault ≡ OutOfMemory) }
    // Which line the fault names.
    ensures bad { IfErr result (IsBadRecord text.now) }
    // The first line is read before any memory is allocated.
    ensures first { ((body : List ℕ) → text.now ≢ title_line ++ 10 ∷ body) → IfErr result (λ fault. fault ≡ BadLine 1) }
    // No text says how many messages were lost, or has draws of a second plan.
    ensures lost { IfOk result (λ run. run.lost ≡ 0) }
    ensures one_plan { IfOk result (λ run. run.draws2.items ≡ []) }
{
    match behind_title(text) {
        Some(body) => read_body(alloc, body),
        None => Err(ReplayFault::BadLine(1)),
    }
}
