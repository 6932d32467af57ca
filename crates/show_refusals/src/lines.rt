//! Lines of a text, and how they are shown.
use std::alloc::AllocError;
use toml_places::newlines;

/// The most bytes of a line that are shown.
const LONGEST: usize = 72;

/// Returns the line of a text with this number, from 1, without its newline, if there is one.
pub fn line_of(text: &[u8], number: usize) -> Option<&[u8]> {
    let before = number.checked_sub(1)?;
    let line = text.split_inclusive(|byte| *byte == b'\n').nth(before)?;
    Some(without_newline(line))
}

/// Returns a line without the newline at its end.
pub(crate) fn without_newline(line: &[u8]) -> &[u8] {
    line.strip_suffix(b"\n").unwrap_or(line)
}

/// Returns the first line of a text that is almost a separating line, with its newline, and its number
/// from 1: it begins with `%%`, perhaps behind blanks.
pub fn near_mark(text: &[u8]) -> Option<(usize, &[u8])> {
    let lines = text.split_inclusive(|byte| *byte == b'\n');
    for (place, line) in lines.enumerate() {
        if line.trim_ascii_start().starts_with(b"%%") {
            return Some((place.saturating_add(1), line));
        }
    }
    None
}

/// Appends a byte so that it is seen.
fn push_byte(text: &mut String, byte: u8) -> Result<(), AllocError> {
    match byte {
        b'\r' => text.push_str("\\r"),
        b'\t' => text.push_str("\\t"),
        b'\n' => text.push_str("\\n"),
        b' '..=b'~' => text.push(char::from(byte)),
        _ => write!(text, "\\x{byte:02x}"),
    }
}

/// Appends the beginning of a line so that each of its bytes is seen.
pub(crate) fn push_line(text: &mut String, line: &[u8]) -> Result<(), AllocError> {
    for byte in line.iter().take(LONGEST) {
        push_byte(text, *byte)?;
    }
    if line.len() > LONGEST {
        text.push_str(" ..")?;
    }
    Ok(())
}

/// Returns whether this line of a text is its last one, and has no newline at its end.
pub fn is_unended(text: &[u8], line: usize) -> bool {
    !text.is_empty() && !text.ends_with(b"\n") && newlines(text).saturating_add(1) == line
}

/// Returns the line and the column, both from 1, of a place in a text. A column counts characters.
pub fn position_of(text: &[u8], place: usize) -> (usize, usize) {
    let before = text.get(..place).unwrap_or(text);
    let last = before.split(|byte| *byte == b'\n').last().unwrap_or(&[]);
    let chars = last.iter().filter(|byte| **byte & 0xC0 != 0x80).count();
    (newlines(before).saturating_add(1), chars.saturating_add(1))
}

/// Returns the first of these items that is there earlier too.
pub(crate) fn repeated<T: PartialEq>(items: &[T]) -> Option<&T> {
    for (place, item) in items.iter().enumerate() {
        if items[..place].contains(item) {
            return Some(item);
        }
    }
    None
}
