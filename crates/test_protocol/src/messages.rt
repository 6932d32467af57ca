//! Messages and their lines.
use message::{Message, read_message, write_message};
use std::alloc::{AllocError, Global};

/// Adds the line of a message, if it has one, and a semicolon.
pub(crate) fn add_line(
    alloc: Global,
    text: &mut String,
    message: &Message,
) -> Result<(), AllocError> {
    if message.has_line() {
        text.push_str(write_message(alloc, message)?.as_str())?;
    }
    text.push(';')
}

/// Lines, and whether each is that of a message.
const LINES: [(&str, bool); 5] = [
    ("locked 0 0 1 1 0", true),
    ("request 64 0 1", false),
    ("request 0 0 01", false),
    ("request 0 0 0", false),
    ("", false),
];

#[test]
fn lines_are_read_or_not(rt: HostRuntime) {
    for (line, is_message) in &LINES {
        assert!(rt; read_message(line.as_bytes()).is_ok() == *is_message);
    }
}
