//! Where names are in the line of a header.
ghost use Rattle.std.specs.Prelude.{◌≡◌, ◌≤◌, ◌+◌, length};
ghost use Rattle.std.specs.Fmt.{decimal};
ghost use Rattle.envelope.specs.Headers.{HasLine, name_at};
ghost use Rattle.envelope.specs.Heads.{head_of};

use crate::header::{Header, Sender};
use itoa::Buffer;

/// Returns how many digits a number has in decimal.
fn digits(number: u64) -> usize
    ensures digits { result ≡ length (decimal number) }
    ensures few { result ≤ 20 }
{
    let mut buffer = Buffer::new();
    buffer.format(number).len()
}

/// Returns how many bytes a number, two others and the spaces behind them have.
fn len_of_three(id: u8, first: u64, second: u64) -> usize
    ensures len { result ≡ length (decimal id) + length (decimal first) + length (decimal second) + 3 }
    ensures few { result ≤ 63 }
{
    digits(u64::from(id)) + digits(first) + digits(second) + 3
}

/// Returns where the name begins in the line of a header.
pub fn name_at(header: &Header<'_>) -> usize
    requires { HasLine (head_of header.now) }
    ensures { result ≡ name_at (head_of header.now) }
{
    let numbers = match header.sender {
        Sender::Client {
            number,
            epoch,
            reserved,
            ..
        } => len_of_three(number, epoch, reserved),
        Sender::Voter {
            number,
            run,
            start,
            ..
        } => len_of_three(number, run, start),
        Sender::Operator => 0,
    };
    header.cluster.len() + header.coterie.len() + numbers + 11
}
