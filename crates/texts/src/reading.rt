//! Reading lines.
ghost use Rattle.std.specs.Prelude.{◌≡◌, ◌≤◌, ℕ, List, IfOk, IfSome, MatchOption, length};
ghost use Rattle.texts.specs.Fields.{AllFit, fields};
ghost use Rattle.texts.specs.Forms.{AreFirst, BeginsWithNone, IsNext, line_of};

use crate::cuts::cut_at;
use crate::line::Line;
use crate::words::{cut, field};
use arrayvec::ArrayVec;
use std::alloc::{AllocError, Global};

/// The most numbers of a line.
pub const MOST_NUMBERS: usize = 5;

/// Reads the numbers of a line: any number of fields, up to the most. Returns `None` if the bytes
/// are anything else.
fn numbers_of(bytes: &[u8]) -> Option<ArrayVec<u64, MOST_NUMBERS>>
    ensures written { IfSome result (λ ns. bytes.now ≡ fields ns.items) }
    ensures read { (ns : List ℕ) → length ns ≤ 5 → AllFit ns → bytes.now ≡ fields ns
        → MatchOption result ⊥ (λ found. found.items ≡ ns) }
{
    let mut numbers = ArrayVec::new();
    let mut rest = bytes;
    'fields: while !rest.is_empty() {
        let Some((number, after)) = field(rest) else {
            return None;
        };
        match numbers.try_push(number) {
            Ok(()) => rest = after,
            Err(_) => return None,
        }
    }
    Some(numbers)
}

/// Reads the value of a line, without its newline.
pub fn read_line<L: Line>(line: &[u8]) -> Option<L::Value>
    // What is read has this line.
    ensures written { IfSome result (λ x. L.form.fits x × (line.now ≡ line_of L.form x)) }
    // The line of each value is read.
    ensures read { (x : L.Value) → L.form.fits x → line.now ≡ line_of L.form x → result ≡ Some x }
{
    let (word, rest) = cut(line);
    match numbers_of(rest) {
        Some(numbers) => L::value_of(word, numbers.as_slice()),
        None => None,
    }
}

/// Reads the line at the front of a text. Returns its value, and what follows its newline. Returns
/// `None` if the text begins with no line of this kind.
pub fn next_line<L: Line>(text: &[u8]) -> Option<(L::Value, &[u8])>
    ensures { MatchOption result (BeginsWithNone L.form text.now) (λ x. IsNext L.form text.now x.0 x.1.now) }
{
    match cut_at(text, b'\n') {
        Some((line, rest)) => match read_line::<L>(line) {
            Some(value) => Some((value, rest)),
            None => None,
        },
        None => None,
    }
}

/// Reads the lines of this kind at the front of a text, as far as they go. Returns their values, and
/// what follows them. Fails only if it runs out of memory.
pub fn first_lines<L: Line>(
    alloc: Global,
    text: &[u8],
) -> Result<(Vec<L::Value>, &[u8]), AllocError>
    ensures { IfOk result (λ x. AreFirst L.form text.now x.0.items x.1.now) }
{
    let mut values = Vec::new(alloc);
    let mut rest = text;
    'lines: while let Some(line) = next_line::<L>(rest) {
        values.push(line.0)?;
        rest = line.1;
    }
    Ok((values, rest))
}
