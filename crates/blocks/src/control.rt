//! Lines of control as words, and what their calls do.
ghost use Rattle.std.specs.Prelude.{◌≡◌, OnErr, length};
ghost use Rattle.line_words.specs.Lines.{control_line};
ghost use Rattle.session_lines.specs.Control.{ClientWordFits, SaysFits, client_line, says_line};
ghost use Rattle.blocks.specs.ControlSteps.{ClientWordIsRead, VoterSaysIsRead, WritesLine, client_of, says_of, words_of_client, words_of_voter};
ghost use Rattle.blocks.specs.Numbers.{returned};
ghost use Rattle.session_lines.specs.declared.control.VoterSays.{VoterSays};

use crate::refusal::Refusal;
use session_lines::{
    ClientWord, Opened, VoterSays, VoterWord, client_word_line, is_unknown, read_client_word,
    read_voter_says, voter_says_line,
};

/// How many words a line of a client has that was read.
pub const CLIENT_WORDS: usize = 4;

/// How many words a line of a voter has that was read.
pub const VOTER_WORDS: usize = 7;

/// Returns the words of what a client says.
fn words_of_client(word: ClientWord) -> [u64; CLIENT_WORDS]
    ensures { result ≡ words_of_client word }
{
    match word {
        ClientWord::Hello => [1, 0, 0, 0],
        ClientWord::Plan => [2, 0, 0, 0],
        ClientWord::Open { plan } => [3, 0, plan, 0],
        ClientWord::Close => [4, 0, 0, 0],
        ClientWord::Claim { number, epoch } => [5, u64::from(number), epoch, 0],
        ClientWord::ClaimStamps {
            number,
            epoch,
            stamps,
        } => [6, u64::from(number), epoch, stamps],
        ClientWord::Drop { number, epoch } => [7, u64::from(number), epoch, 0],
        ClientWord::Greet => [8, 0, 0, 0],
    }
}

/// Returns what a client says with these words.
pub fn client_of(kind: u8, number: u8, first: u64, second: u64) -> Option<ClientWord>
    ensures { result ≡ client_of kind number first second }
{
    match kind {
        1 => Some(ClientWord::Hello),
        2 => Some(ClientWord::Plan),
        3 => Some(ClientWord::Open { plan: first }),
        4 => Some(ClientWord::Close),
        5 => Some(ClientWord::Claim {
            number,
            epoch: first,
        }),
        6 => Some(ClientWord::ClaimStamps {
            number,
            epoch: first,
            stamps: second,
        }),
        7 => Some(ClientWord::Drop {
            number,
            epoch: first,
        }),
        8 => Some(ClientWord::Greet),
        _ => None,
    }
}

/// Reads a line of control of a client, as words.
pub fn read_client(line: &[u8], words: &mut [u64]) -> Result<(), Refusal>
    ensures read { ClientWordIsRead line.now words.old words.new (returned result) }
    ensures refused { OnErr result (words.new ≡ words.old) }
{
    if words.len() != CLIENT_WORDS {
        return Err(Refusal::BadArgument);
    }
    if let Some(word) = read_client_word(line) {
        words.copy_from_slice(&words_of_client(word));
        return Ok(());
    }
    if !is_unknown(line) {
        return Err(Refusal::BadMessage);
    }
    words.copy_from_slice(&[0, 0, 0, 0]);
    Ok(())
}

/// Returns the words of what a voter says.
fn words_of_voter(says: VoterSays) -> [u64; VOTER_WORDS]
    ensures { result ≡ words_of_voter says }
{
    match says {
        VoterSays::Word(word) => words_of_voter_word(word),
        VoterSays::Opened(o) => [
            4,
            u64::from(o.number),
            o.epoch,
            o.base,
            o.reserved,
            o.seq,
            o.requests,
        ],
    }
}

fn words_of_voter_word(word: VoterWord) -> [u64; VOTER_WORDS]
    ensures { result ≡ words_of_voter (VoterSays.Word word) }
{
    match word {
        VoterWord::Number {
            number,
            epoch,
            state,
        } => [1, u64::from(number), epoch, state, 0, 0, 0],
        VoterWord::Claimed {
            number,
            epoch,
            base,
            reserved,
        } => [2, u64::from(number), epoch, base, reserved, 0, 0],
        VoterWord::Refused { number, epoch } => [3, u64::from(number), epoch, 0, 0, 0, 0],
        VoterWord::Closed { number, epoch } => [5, u64::from(number), epoch, 0, 0, 0, 0],
        VoterWord::Taken { number, epoch } => [6, u64::from(number), epoch, 0, 0, 0, 0],
        VoterWord::Unknown { number, epoch } => [7, u64::from(number), epoch, 0, 0, 0, 0],
        VoterWord::Quiet { milliseconds } => [8, 0, milliseconds, 0, 0, 0, 0],
        VoterWord::Run { voter, run } => [11, u64::from(voter), run, 0, 0, 0, 0],
        VoterWord::Leaving => [9, 0, 0, 0, 0, 0, 0],
        VoterWord::Greeted => [10, 0, 0, 0, 0, 0, 0],
    }
}

/// Returns what a voter says with these words.
pub fn says_of(
    kind: u8,
    number: u8,
    first: u64,
    second: u64,
    third: u64,
    fourth: u64,
    fifth: u64,
) -> Option<VoterSays>
    ensures { result ≡ says_of kind number first second third fourth fifth }
{
    let epoch = first;
    let word = match kind {
        1 => VoterWord::Number {
            number,
            epoch,
            state: second,
        },
        2 => VoterWord::Claimed {
            number,
            epoch,
            base: second,
            reserved: third,
        },
        3 => VoterWord::Refused { number, epoch },
        4 => {
            return Some(VoterSays::Opened(Opened {
                number,
                epoch,
                base: second,
                reserved: third,
                seq: fourth,
                requests: fifth,
            }));
        }
        5 => VoterWord::Closed { number, epoch },
        6 => VoterWord::Taken { number, epoch },
        7 => VoterWord::Unknown { number, epoch },
        8 => VoterWord::Quiet {
            milliseconds: first,
        },
        9 => VoterWord::Leaving,
        10 => VoterWord::Greeted,
        11 => VoterWord::Run {
            voter: number,
            run: first,
        },
        _ => return None,
    };
    Some(VoterSays::Word(word))
}

/// Reads a line of control of a voter, as words.
pub fn read_voter(line: &[u8], words: &mut [u64]) -> Result<(), Refusal>
    ensures read { VoterSaysIsRead line.now words.old words.new (returned result) }
    ensures refused { OnErr result (words.new ≡ words.old) }
{
    if words.len() != VOTER_WORDS {
        return Err(Refusal::BadArgument);
    }
    let Some(says) = read_voter_says(line) else {
        return Err(Refusal::BadMessage);
    };
    words.copy_from_slice(&words_of_voter(says));
    Ok(())
}

/// Writes a line of control of a client to the front of `out`, and how many bytes it has.
pub fn write_client(word: ClientWord, out: &mut [u8], written: &mut usize) -> Result<(), Refusal>
    ensures writes { WritesLine (ClientWordFits word) (control_line (client_line word)) out.old out.new written.new (returned result) }
    ensures refused { OnErr result ((out.new ≡ out.old) × (written.new ≡ written.old)) }
{
    if !word.has_line() {
        return Err(Refusal::BadArgument);
    }
    let line = client_word_line(word);
    let bytes = line.as_slice();
    if bytes.len() > out.len() {
        return Err(Refusal::NoRoom);
    }
    out[..bytes.len()].copy_from_slice(bytes);
    *written = bytes.len();
    Ok(())
}

/// Writes a line of control of a voter to the front of `out`, and how many bytes it has.
pub fn write_voter(says: VoterSays, out: &mut [u8], written: &mut usize) -> Result<(), Refusal>
    ensures writes { WritesLine (SaysFits says) (control_line (says_line says)) out.old out.new written.new (returned result) }
    ensures refused { OnErr result ((out.new ≡ out.old) × (written.new ≡ written.old)) }
{
    if !says.has_line() {
        return Err(Refusal::BadArgument);
    }
    let line = voter_says_line(says);
    let bytes = line.as_slice();
    if bytes.len() > out.len() {
        return Err(Refusal::NoRoom);
    }
    out[..bytes.len()].copy_from_slice(bytes);
    *written = bytes.len();
    Ok(())
}
