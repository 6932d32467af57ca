//! Where a text stops being TOML, which keys of a coterie it lacks, and which of its values are of another
//! type.
use crate::kinds::push_wrong_beginning;
use crate::lines::{line_of, position_of, push_line};
use crate::refused::{Page, Pushed, push_at, push_found};
use std::alloc::AllocError;
use toml::Table;
use toml_places::{line_at, misfit_at, unclosed_line};

/// The keys of a coterie's text, and what their values, the items of these, and the items of items
/// have to be.
const KEYS: [(&str, &[&str]); 3] = [
    ("voters", &["an array of strings", "a string"]),
    (
        "quorums",
        &[
            "an array of arrays of strings",
            "an array of strings",
            "a string",
        ],
    ),
    ("capacity", &["an array of whole numbers", "a whole number"]),
];

/// How many keys that no coterie has are shown.
const KEYS_SHOWN: usize = 8;

/// Appends a line of the coterie's text on a line of its own, if there is one.
fn push_numbered(page: &mut Page, line: usize) -> Pushed {
    let Some(found) = line_of(page.part(1), line) else {
        return Ok(());
    };
    write!(page.text, "  line {line}: ")?;
    push_line(&mut page.text, found)?;
    page.text.push('\n')
}

/// Appends what is wrong at a place of the coterie's text, and its line, which is returned.
fn push_wrong_place(page: &mut Page, place: usize, what: &str) -> Result<usize, AllocError> {
    let (line, column) = position_of(page.part(1), place);
    let place = page.place(1, line);
    push_at(page, place)?;
    write!(page.text, ", column {column}: {what}\n")?;
    push_numbered(page, line)?;
    Ok(line)
}

/// Appends which bracket is not closed, if it is in another line than the fault.
fn push_unclosed(page: &mut Page, document: &str, fault_line: usize) -> Pushed {
    match unclosed_line(page.alloc, document)? {
        Some(line) if line != fault_line => {
            write!(
                page.text,
                "  a bracket that is opened in line {line} is not closed\n"
            )?;
            push_numbered(page, line)
        }
        _ => Ok(()),
    }
}

/// Appends where a text of a coterie stops being TOML.
pub(crate) fn push_not_toml(page: &mut Page) -> Pushed {
    push_wrong_beginning(page, 1)?;
    let document = match std::str::from_utf8(page.part(1)) {
        Ok(document) => document,
        Err(error) => {
            let _ = push_wrong_place(page, error.valid_up_to(), "the text is not UTF-8")?;
            return Ok(());
        }
    };
    let Err(error) = toml::table_from_str(page.alloc, document) else {
        return Ok(());
    };
    let Some(span) = error.span() else {
        return Err(AllocError);
    };
    let line = push_wrong_place(page, span.start, error.message())?;
    push_unclosed(page, document, line)
}

/// Appends a key that no coterie has.
fn push_unknown_key(page: &mut Page, document: &str, name: &str) -> Pushed {
    let line = line_at(page.alloc, document, name, None)?;
    push_found(page, line)?;
    page.text.push_str("the key `")?;
    push_line(&mut page.text, name.as_bytes())?;
    page.text.push_str("` is none of a coterie's\n")
}

/// Appends the first keys of a table that no coterie has, and how many more there are.
fn push_unknown_keys(page: &mut Page, document: &str, table: &Table) -> Pushed {
    let mut unknown = 0usize;
    for name in table.keys() {
        let is_known = KEYS.iter().any(|(key, _)| *key == name.as_str());
        if !is_known && unknown < KEYS_SHOWN {
            push_unknown_key(page, document, name.as_str())?;
        }
        unknown = unknown.saturating_add(usize::from(!is_known));
    }
    let more = unknown.saturating_sub(KEYS_SHOWN);
    if more > 0 {
        write!(
            page.text,
            "  and {more} more keys are none of a coterie's\n"
        )?;
    }
    Ok(())
}

/// Appends the first value of a key that has another type than it has to have, if there is one.
fn push_misfit(page: &mut Page, document: &str, key: &str, kinds: &[&str]) -> Pushed {
    let Some(value) = misfit_at(page.alloc, document, key, kinds)? else {
        return Ok(());
    };
    push_found(page, Some(value.line))?;
    let (item, member) = value.items;
    match value.depth {
        0 => write!(page.text, "`{key}`")?,
        1 => write!(page.text, "item {item} of `{key}`")?,
        _ => write!(page.text, "item {member} of quorum {item}")?,
    }
    let found = value.kind;
    let wanted = kinds.get(value.depth).copied().unwrap_or("");
    write!(page.text, " is {found}, and has to be {wanted}\n")
}

/// Appends what is wrong with the keys of a coterie's text, and what they have to be.
pub(crate) fn push_keys(page: &mut Page) -> Pushed {
    if let Ok(document) = std::str::from_utf8(page.part(1)) {
        if let Ok(table) = toml::table_from_str(page.alloc, document) {
            push_unknown_keys(page, document, &table)?;
            for name in ["voters", "quorums"] {
                if table.get(name).is_none() {
                    write!(page.text, "  the key `{name}` is missing\n")?;
                }
            }
            for (key, kinds) in &KEYS {
                push_misfit(page, document, key, kinds)?;
            }
        }
    }
    page.text.push_str(
        "  the keys have to be `voters`, an array of strings, and `quorums`, an array of arrays of strings; `capacity`, an array of whole numbers, may be there too\n",
    )
}
