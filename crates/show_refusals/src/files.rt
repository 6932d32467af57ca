//! Files whose texts are one input, and in which of them a line is.
use std::alloc::AllocError;

/// The name that stands for standard input.
const STANDARD_INPUT: &str = "-";

/// The line between two parts of an input, also between the texts of two files.
const MARK: &[u8] = b"%%\n";

/// A line, and the file that has it.
#[derive(Clone, Copy, Debug, PartialEq, Eq)]
pub struct FileLine<'a> {
    /// The name of the file. Without a name the line is one of the whole input.
    pub file: Option<&'a str>,
    /// The line's number in the file, or in the whole input, from 1.
    pub line: usize,
}

/// Returns the file that has a line of an input, and the line's number in it. The texts of the files
/// are the input, in their order, with a line `%%` between them.
///
/// A file may have lines `%%` of its own. If so, it is not always known which file has the line, and
/// the number is that in the whole input. So it is if there are no files.
pub fn file_line<'a>(input: &[u8], files: &'a [String], line: usize) -> FileLine<'a> {
    let mut marks = 0usize;
    let mut before = (0usize, 0usize);
    let lines = input.split_inclusive(|byte| *byte == b'\n');
    for (place, found) in lines.enumerate() {
        if found == MARK {
            marks = marks.saturating_add(1);
            if place.saturating_add(1) < line {
                before = (marks, place.saturating_add(1));
            }
        }
    }
    if files.len() == 1 {
        before = (0, 0);
    }
    let is_known = before.0 == 0 || files.len() == marks.saturating_add(1);
    match files.get(before.0) {
        Some(name) if is_known => FileLine {
            file: Some(name.as_str()),
            line: line.saturating_sub(before.1),
        },
        _ => FileLine { file: None, line },
    }
}

/// Appends the name of a file, in quotes if it has control characters.
pub fn push_file(text: &mut String, name: &str) -> Result<(), AllocError> {
    if name == STANDARD_INPUT {
        return text.push_str("standard input");
    }
    if name.chars().any(|c| c.is_control()) {
        return write!(text, "{name:?}");
    }
    text.push_str(name)
}
