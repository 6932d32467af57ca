//! Lines that are not as they have to be, missing parts, and too many files.
use crate::files::push_file;
use crate::kinds::push_wrong_beginning;
use crate::lines::{is_unended, line_of, near_mark, push_line, without_newline};
use crate::refused::{Page, Pushed, push_at, push_line_place, rest_from};
use commands::parts_of;

/// Returns what is not seen of a bad line: that it is empty, ends with another mark than a newline, or
/// begins a part that the command does not read.
fn unseen(part: &[u8], line: usize, found: &[u8]) -> &'static str {
    if found.is_empty() {
        "  the line is empty\n"
    } else if is_unended(part, line) {
        "  the line has no newline at its end\n"
    } else if found.ends_with(b"\r") {
        "  the line ends with a carriage return, \\r, and a newline: it has to end with a newline alone\n"
    } else if found == b"%%".as_slice() {
        "  this line begins one part more than the command reads\n"
    } else {
        ""
    }
}

/// Appends a line of a part: where it is, and its text.
pub(crate) fn push_bad_line(page: &mut Page, number: usize, line: usize) -> Pushed {
    let noun = page.kind(number).noun();
    let part = page.part(number);
    if part.is_empty() {
        push_at(page, page.place(number, line))?;
        return write!(page.text, ": the {noun} is empty\n");
    }
    let found = line_of(part, line);
    if found == Some(b"%%".as_slice()) && page.files.len() > parts_of(page.command) {
        // the line is between two files, and that there are too many was said
        return Ok(());
    }
    push_line_place(page, number, line)?;
    let Some(found) = found else {
        return write!(page.text, "the {noun} ends before this line\n");
    };
    push_line(&mut page.text, found)?;
    page.text.push('\n')?;
    page.text.push_str(unseen(part, line, found))?;
    if line == 1 {
        push_wrong_beginning(page, number)?;
    }
    Ok(())
}

/// Appends the first line of a part that is almost a separating line, if there is one.
fn push_near_mark(page: &mut Page, number: usize) -> Pushed {
    let Some((line, found)) = near_mark(rest_from(page.input, number)) else {
        return Ok(());
    };
    let place = page.place(number, line);
    write!(page.text, "  line {}", place.line)?;
    if let Some(file) = place.file {
        page.text.push_str(" of ")?;
        push_file(&mut page.text, file)?;
    }
    page.text.push_str(" is almost one: `")?;
    push_line(&mut page.text, without_newline(found))?;
    page.text.push_str(if found.ends_with(b"\n") {
        "`\n"
    } else {
        "`, with no newline at its end\n"
    })
}

/// Appends which part is missing, and where a separating line was perhaps meant.
pub(crate) fn push_missing(page: &mut Page, number: usize) -> Pushed {
    let noun = page.kind(number).noun();
    write!(
        page.text,
        "  part {number}, the {noun}, has to follow a line that is exactly %%"
    )?;
    page.text.push_str(if page.files.is_empty() {
        "\n"
    } else {
        ", or to be one more file: -f FILE\n"
    })?;
    push_near_mark(page, number.saturating_sub(1))
}

/// Appends that more files were named than the command takes, if it is so.
pub(crate) fn push_file_count(page: &mut Page) -> Pushed {
    let most = parts_of(page.command);
    let named = page.files.len();
    if most == 0 || named <= most {
        return Ok(());
    }
    let word = if most == 1 { "file" } else { "files" };
    write!(
        page.text,
        "  the command takes {most} {word} at most, and {named} were named\n"
    )
}
