//! A walk over a text of TOML, and what it finds.
ghost use Rattle.std.specs.Prelude.{◌≡◌, ◌==◌, filter, length};

use std::alloc::{AllocError, Global};
use toml_parser::bytes::is_word;
use toml_parser::text::{first, skip_blank, skip_ws};
use toml_parser::{Key, ParseError, Scalar, dotted_key, quoted, starts_string, unquoted};

/// Returns how many newlines a text has.
pub fn newlines(text: &[u8]) -> usize
    ensures { result ≡ length (filter (λ b. b == 10) text.now) }
{
    text.iter().filter(|byte| **byte == b'\n').count()
}

/// A value of a key that is below no heading, or of an item of the key's list.
#[derive(Clone, Copy)]
pub struct Value {
    /// Its line.
    pub line: usize,
    /// In how many lists it is.
    pub depth: usize,
    /// Its numbers in the first two of these lists, from 0.
    pub items: (usize, usize),
    /// Its type, in words.
    pub kind: &'static str,
}

/// A bracket that is open.
#[derive(Drop)]
struct Bracket {
    /// The bracket.
    mark: u8,
    /// Its line.
    line: usize,
    /// How many commas came since then.
    commas: usize,
}

/// A walk over a text of TOML, one token after the other. It goes on behind what is no TOML.
#[derive(Drop)]
struct Walk<'a> {
    alloc: Global,
    /// What is left of the text.
    rest: &'a str,
    /// The line where that begins, from 1.
    line: usize,
    /// The first part of the last key, or of the last heading, if there was one.
    key: String,
    /// Whether there was a heading.
    in_section: bool,
    /// Whether the next values are those of the key itself.
    is_own: bool,
    /// Whether the value of a key comes next.
    at_value: bool,
    /// The brackets that are open.
    brackets: Vec<Bracket>,
}

/// Returns the type of the value with which a text begins, if it begins with one.
fn kind_of(alloc: Global, text: &str) -> Result<Option<&'static str>, AllocError> {
    Ok(Some(match first(text) {
        b'"' | b'\'' => "a string",
        b'[' => "an array",
        b'{' => "a table",
        _ => match unquoted(alloc, text) {
            Ok((Scalar::Boolean(_), _)) => "a boolean",
            Ok((Scalar::Integer(_), _)) => "a whole number",
            Ok((Scalar::Float(_), _)) => "a float",
            Ok((Scalar::Datetime(_), _)) => "a date or a time",
            Err(ParseError::OutOfMemory) => return Err(AllocError),
            Err(_) => return Ok(None),
        },
    }))
}

/// Returns what is left of a text behind its first line, with the newline of that line.
fn behind_line(text: &str) -> &str {
    text.trim_start_matches(|c| c != '\n')
}

/// Returns what is left of a text behind its first character.
fn behind_char(text: &str) -> &str {
    let mut chars = text.chars();
    let _ = chars.next();
    chars.as_str()
}

/// Returns what is left of a text behind its first token: a string, a word or one character. A string
/// that does not end is its line.
fn behind_token(alloc: Global, text: &str) -> Result<&str, AllocError> {
    if starts_string(text) {
        return match quoted(alloc, text) {
            Ok((_, rest)) => Ok(rest),
            Err(ParseError::OutOfMemory) => Err(AllocError),
            Err(_) => Ok(behind_line(text)),
        };
    }
    match text.bytes().take_while(|byte| is_word(*byte)).count() {
        0 => Ok(behind_char(text)),
        len => Ok(text.get(len..).unwrap_or("")),
    }
}

impl<'a> Walk<'a> {
    /// Returns a walk at the beginning of a text.
    fn of(alloc: Global, text: &'a str) -> Walk<'a> {
        Walk {
            alloc,
            rest: text.strip_prefix('\u{feff}').unwrap_or(text),
            line: 1,
            key: String::new(alloc),
            in_section: false,
            is_own: false,
            at_value: false,
            brackets: Vec::new(alloc),
        }
    }

    /// Goes on to where this is left of the text.
    fn go_to(&mut self, rest: &'a str) {
        let read = self.rest.len().saturating_sub(rest.len());
        let passed = self.rest.as_bytes().get(..read).unwrap_or(&[]);
        self.line = self.line.saturating_add(newlines(passed));
        self.rest = rest;
    }

    /// Goes over white space and comments.
    fn go_to_token(&mut self) {
        self.go_to(skip_blank(self.rest, true));
    }

    /// Returns a value of this type at the next token.
    fn value(&self, kind: &'static str) -> Value {
        let commas = |depth: usize| match self.brackets.get(depth) {
            Some(bracket) => bracket.commas,
            None => 0,
        };
        Value {
            line: self.line,
            depth: self.brackets.len(),
            items: (commas(0), commas(1)),
            kind,
        }
    }

    /// Takes a heading, or a key with its equals sign. Returns the table that a heading or a key with
    /// dots makes.
    fn take_key(&mut self) -> Result<Option<Value>, AllocError> {
        let inner = self.rest.trim_start_matches('[');
        let marks = self.rest.len().saturating_sub(inner.len());
        let (Key { mut path, last }, rest) = match dotted_key(self.alloc, skip_ws(inner)) {
            Ok(found) => found,
            Err(ParseError::OutOfMemory) => return Err(AllocError),
            Err(_) => {
                self.go_to(behind_line(self.rest));
                return Ok(None);
            }
        };
        let mut table = self.value("a table");
        table.depth = usize::from(marks > 1 && path.is_empty());
        let is_roots = marks > 0 || !self.in_section;
        self.in_section = self.in_section || marks > 0;
        self.is_own = !self.in_section && path.is_empty();
        self.at_value = marks == 0;
        if is_roots {
            path.push(last)?;
            self.key = path.swap_remove(0);
        }
        self.go_to(match marks {
            0 => rest.strip_prefix('=').unwrap_or(rest),
            _ => behind_line(rest),
        });
        Ok(if is_roots && !self.is_own {
            Some(table)
        } else {
            None
        })
    }

    /// Takes a bracket or a comma, if one comes next.
    fn take_mark(&mut self) -> Result<(), AllocError> {
        let mark = first(self.rest);
        let line = self.line;
        match mark {
            b'[' | b'{' => self.brackets.push(Bracket {
                mark,
                line,
                commas: 0,
            })?,
            b']' | b'}' => {
                let _ = self.brackets.pop();
            }
            b',' => {
                if let Some(bracket) = self.brackets.last_mut() {
                    bracket.commas = bracket.commas.saturating_add(1);
                }
            }
            _ => {}
        }
        Ok(())
    }

    /// Takes the next token. Returns the value that begins with it, if one of the last key does.
    fn take(&mut self) -> Result<Option<Value>, AllocError> {
        self.go_to_token();
        if self.brackets.is_empty() && !self.at_value {
            return self.take_key();
        }
        let value = match kind_of(self.alloc, self.rest)? {
            Some(kind) if self.is_own => Some(self.value(kind)),
            _ => None,
        };
        self.at_value = false;
        self.take_mark()?;
        let rest = behind_token(self.alloc, self.rest)?;
        self.go_to(rest);
        Ok(value)
    }

    /// Takes the next token, if there is one. Returns the value of this key that begins with it, if one
    /// does.
    fn value_of(&mut self, key: &str) -> Result<Option<Value>, AllocError> {
        if self.rest.is_empty() {
            return Ok(None);
        }
        let value = self.take()?;
        Ok(value.filter(|_value| self.key.as_str() == key))
    }

    /// Returns whether the next token shows that the innermost bracket is not closed: lists of a
    /// coterie are in one other list at most, and no list has an equals sign.
    fn shows_unclosed(&self) -> bool {
        match first(self.rest) {
            b'[' | b'{' => self.brackets.len() == 2,
            b'=' => self
                .brackets
                .last()
                .is_some_and(|bracket| bracket.mark == b'['),
            _ => false,
        }
    }
}

/// Returns the line of a key of a text, or of the heading of its table. With the number of an item,
/// from 0, returns the line where this item of the key's list begins.
pub fn line_at(
    alloc: Global,
    text: &str,
    key: &str,
    item: Option<usize>,
) -> Result<Option<usize>, AllocError> {
    let mut walk = Walk::of(alloc, text);
    for _token in 0..text.len() {
        if let Some(value) = walk.value_of(key)? {
            if item.is_none() || value.depth == 1 && item == Some(value.items.0) {
                return Ok(Some(value.line));
            }
        }
    }
    Ok(None)
}

/// Returns the first value of a key, or item of its lists, whose type is not the one for its depth.
pub fn misfit_at(
    alloc: Global,
    text: &str,
    key: &str,
    kinds: &[&str],
) -> Result<Option<Value>, AllocError> {
    let mut walk = Walk::of(alloc, text);
    for _token in 0..text.len() {
        if let Some(value) = walk.value_of(key)? {
            let wanted = kinds.get(value.depth).copied().unwrap_or(value.kind);
            if !wanted.starts_with(value.kind) {
                return Ok(Some(value));
            }
        }
    }
    Ok(None)
}

/// Returns the line of the innermost bracket that is not closed, if there is one.
pub fn unclosed_line(alloc: Global, text: &str) -> Result<Option<usize>, AllocError> {
    let mut walk = Walk::of(alloc, text);
    for _token in 0..text.len() {
        walk.go_to_token();
        if walk.rest.is_empty() || walk.shows_unclosed() {
            break;
        }
        let _ = walk.take()?;
    }
    Ok(walk.brackets.last().map(|bracket| bracket.line))
}
