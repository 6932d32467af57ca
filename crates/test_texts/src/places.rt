//! Where lines, marks and brackets are found in texts.
use show_refusals::{file_line, is_unended, line_of, near_mark, position_of, push_file};
use std::alloc::{AllocError, Global};
use toml_places::{line_at, unclosed_line};

/// Texts, the number of a line, the line with that number or `none`, and whether it is the last one
/// and lacks its newline.
const LINES: [(&str, usize, &str, bool); 6] = [
    ("a\nb\n", 1, "a", false),
    ("a\nb\n", 2, "b", false),
    ("a\nb\n", 3, "none", false),
    ("a\nb", 2, "b", true),
    ("a\nb", 1, "a", false),
    ("", 1, "none", false),
];

/// Returns the line of a text with this number, or `none`.
fn line_in(text: &str, number: usize) -> &[u8] {
    match line_of(text.as_bytes(), number) {
        Some(line) => line,
        None => b"none",
    }
}

#[test]
fn lines_are_found(rt: HostRuntime) {
    for (text, number, line, is_last) in &LINES {
        assert!(rt; line_in(text, *number) == line.as_bytes());
        assert!(rt; is_unended(text.as_bytes(), *number) == *is_last);
    }
}

/// Texts, and the number of the line that is almost a separating line, or 0.
const NEAR_MARKS: [(&str, usize); 7] = [
    ("a\n%% \nb\n", 2),
    ("a\n%%\r\nb\n", 2),
    ("a\n%%", 2),
    ("a\n \t%%\nb\n", 2),
    ("a\n%\nb\n", 0),
    ("a%%\nb\n", 0),
    ("", 0),
];

/// Returns the line that is almost a separating line, or 0.
fn near_line(text: &str) -> usize {
    match near_mark(text.as_bytes()) {
        Some((line, _)) => line,
        None => 0,
    }
}

#[test]
fn near_marks_are_found(rt: HostRuntime) {
    for (text, line) in &NEAR_MARKS {
        assert!(rt; near_line(text) == *line);
    }
}

/// Texts, a place in bytes, and its line and column.
const PLACES: [(&str, usize, (usize, usize)); 5] = [
    ("abc", 0, (1, 1)),
    ("a\nbc", 3, (2, 2)),
    ("a\nbc", 2, (2, 1)),
    ("a\n\u{e4}\u{e4}=", 6, (2, 3)),
    ("a", 9, (1, 2)),
];

#[test]
fn columns_count_characters(rt: HostRuntime) {
    for (text, place, position) in &PLACES {
        assert!(rt; position_of(text.as_bytes(), *place) == *position);
    }
}

/// Texts, and the line of the bracket that is not closed, or 0.
const BRACKETS: [(&str, usize); 10] = [
    ("a = [", 1),
    ("a = []\nb = [[1],\n[2]", 2),
    ("a = []\nb = [[1],\n[2", 3),
    ("a = [\n  [1,\n  [2],\n]\n", 2),
    ("a = [[1], [2]]\n", 0),
    ("a = \"[\" # [\n", 0),
    ("a = \"\\\"[\"\n", 0),
    ("a = '['\n", 0),
    ("a = \"\"\"[\n[[\" # [\n]\"\"\"\n", 0),
    ("a = [\"b\"\nc = [[\"b\"]]\n", 1),
];

/// Returns the line of the bracket that is not closed, or 0.
fn unclosed_in(alloc: Global, text: &str) -> usize {
    match unclosed_line(alloc, text) {
        Ok(Some(line)) => line,
        _ => 0,
    }
}

#[test]
fn unclosed_brackets_are_found(rt: HostRuntime) {
    for (text, line) in &BRACKETS {
        assert!(rt; unclosed_in(rt.alloc(), text) == *line);
    }
}

/// Texts, and the lines of their key `b` and of item 1 of its list, or 0.
const KEYS: [(&str, (usize, usize)); 12] = [
    ("a = 1\nb = [1, 2]\n", (2, 2)),
    (
        "a = [\n\"b\",\n]\n \"b\" = [ # [1,\n  1,\n\n  [2,\n  3],\n]\n",
        (4, 7),
    ),
    ("b=[[1],\n[2, 3]]", (1, 2)),
    ("a = [\n  [\"b\"],\n]\nbb = 1\n", (0, 0)),
    ("'b' = 1\n", (1, 0)),
    ("[b]\nc = 1\n", (1, 0)),
    ("a = \"b = 1\"\n", (0, 0)),
    ("b.c = [1]\n", (1, 0)),
    ("[a]\nb = [1, 2]\n[b]\n", (3, 0)),
    ("a = {b = [1, 2]}\nb = [1, 2]\n", (2, 2)),
    ("a = '''\nb = [1, 2]\n'''\nb = [\"[\",\n[1]]\n", (4, 5)),
    ("", (0, 0)),
];

/// Returns the lines of the key `b` and of item 1 of its list, or 0.
fn lines_in(alloc: Global, text: &str) -> Result<(usize, usize), AllocError> {
    let key = line_at(alloc, text, "b", None)?.unwrap_or(0);
    let item = line_at(alloc, text, "b", Some(1))?.unwrap_or(0);
    Ok((key, item))
}

#[test]
fn keys_and_items_are_found(rt: HostRuntime) {
    for (text, lines) in &KEYS {
        assert!(rt; lines_in(rt.alloc(), text) == Ok(*lines));
    }
}

/// Inputs, the names of their files with `|` between them, the number of a line, and its place in a
/// file or in the whole input.
const FILES: [(&str, &str, usize, &str); 9] = [
    ("a\nb\n", "", 2, "input 2"),
    ("a\nb\n", "x", 2, "x 2"),
    ("a\n%%\nb\nc\n", "x", 4, "x 4"),
    ("a\n%%\nb\nc\n", "x|-", 4, "standard input 2"),
    ("a\n%%\n%%\nc\n", "x|y|z", 3, "y 1"),
    ("a\n%%\n%%\nc\n", "x|y|z", 4, "z 1"),
    ("a\n%%\nb\n%%\nc\n", "x|y", 1, "x 1"),
    ("a\n%%\nb\n%%\nc\n", "x|y", 3, "input 3"),
    ("a\n%%", "x\ny", 2, "\"x\\ny\" 2"),
];

/// Returns the names in a text, with `|` between them.
fn names_in(alloc: Global, text: &str) -> Result<Vec<String>, AllocError> {
    let mut names = Vec::new(alloc);
    for name in text.split('|') {
        if !name.is_empty() {
            names.push(String::from_str(alloc, name)?)?;
        }
    }
    Ok(names)
}

/// Returns whether a line of an input has this place: the name of its file, or `input`, and its number
/// there.
fn is_place(
    alloc: Global,
    input: &str,
    names: &str,
    line: usize,
    wanted: &str,
) -> Result<bool, AllocError> {
    let names = names_in(alloc, names)?;
    let place = file_line(input.as_bytes(), names.as_slice(), line);
    let mut text = String::new(alloc);
    push_file(&mut text, place.file.unwrap_or("input"))?;
    write!(text, " {}", place.line)?;
    Ok(text.as_str() == wanted)
}

#[test]
fn lines_are_in_files(rt: HostRuntime) {
    for (input, names, line, place) in &FILES {
        assert!(rt; is_place(rt.alloc(), input, names, *line, place) == Ok(true));
    }
}
