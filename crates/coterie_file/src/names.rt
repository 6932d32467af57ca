//! Names of voters, and their numbers.
ghost use Rattle.std.specs.Prelude.{◌≡◌, [], map, not, None, Some, IfNone, IfOk, OnOk, MatchResult, position, string_bytes};
ghost use Rattle.std.specs.List.{list_all};
ghost use Rattle.coterie_file.specs.Answers.{Gives, unless};
ghost use Rattle.coterie_file.specs.Names.{is_name_byte, is_name, has_name, first_repeat, names_fault, AreNames};

use crate::fault::FileFault;
use indexmap::IndexSet;
use std::alloc::{AllocError, Global};

/// Returns whether a name may have the byte.
fn is_good_byte(b: u8) -> bool
    ensures { result ≡ is_name_byte b }
{
    b.is_ascii_alphanumeric() || b == b'_' || b == b'-' || b == b'.' || b == b':'
}

/// Returns whether a name may have all these bytes.
fn are_good_bytes(bytes: &[u8]) -> bool
    ensures { result ≡ list_all is_name_byte bytes.now }
{
    bytes.iter().all(|b| is_good_byte(*b))
}

/// Returns whether the text is a name.
fn is_good_name(name: &str) -> bool
    ensures { result ≡ is_name name.now }
{
    0 < name.len() && name.len() <= 64 && are_good_bytes(name.as_bytes())
}

/// Returns the place of the first text that is not a name.
fn first_bad_name(names: &[String]) -> Option<usize>
    ensures { result ≡ position (λ n. not (is_name (string_bytes n))) names.now }
{
    names.iter().position(|name| !is_good_name(name.as_str()))
}

/// Returns whether one of the names is this text.
fn has_name(names: &[String], text: &str) -> bool
    ensures { result ≡ has_name (map string_bytes names.now) text.now }
{
    for name in names {
        if text == name.as_str() {
            return true;
        }
    }
    false
}

/// Returns the first place whose name is at an earlier place too. Allocates nothing, but compares
/// all pairs of names, so it is only for few names.
fn first_repeat(names: &[String]) -> Option<usize>
    ensures { result ≡ first_repeat [] (map string_bytes names.now) }
{
    for (i, name) in names.iter().enumerate() {
        if has_name(&names[..i], name.as_str()) {
            return Some(i);
        }
    }
    None
}

/// Returns the first fault of voters' names. Allocates nothing.
pub(crate) fn names_fault(names: &[String]) -> Option<FileFault>
    ensures fault { result ≡ names_fault (map string_bytes names.now) }
    ensures names { IfNone result (AreNames (map string_bytes names.now)) }
{
    if let Some(i) = first_bad_name(names) {
        return Some(FileFault::BadName(i));
    }
    match first_repeat(names) {
        Some(i) => Some(FileFault::RepeatedName(i)),
        None => None,
    }
}

/// Returns a set that numbers the names by their places, or the first place whose name is at an
/// earlier place too.
pub(crate) fn numbered<'a>(
    alloc: Global,
    names: &'a [String],
) -> Result<Result<IndexSet<&'a str>, usize>, AllocError>
    ensures { IfOk result (λ r. MatchResult r
        (λ s. (map (λ k. k.now) s.keys ≡ map string_bytes names.now)
        × (first_repeat [] (map string_bytes names.now) ≡ None))
        (λ i. first_repeat [] (map string_bytes names.now) ≡ Some i)) }
{
    let mut seen: IndexSet<&'a str> = IndexSet::new(alloc);
    for (i, name) in names.iter().enumerate() {
        let (_, is_new) = seen.insert_full(name.as_str())?;
        if !is_new {
            return Ok(Err(i));
        }
    }
    Ok(Ok(seen))
}

/// Returns a set that numbers the names of voters, or their first fault.
pub(crate) fn voters_of<'a>(
    alloc: Global,
    names: &'a [String],
) -> Result<IndexSet<&'a str>, FileFault>
    ensures exact { Gives (λ s. map (λ k. k.now) s.keys) result
        (unless (names_fault (map string_bytes names.now)) (map string_bytes names.now)) }
    ensures names { OnOk result (AreNames (map string_bytes names.now)) }
{
    if let Some(i) = first_bad_name(names) {
        return Err(FileFault::BadName(i));
    }
    match numbered(alloc, names)? {
        Ok(voters) => Ok(voters),
        Err(i) => Err(FileFault::RepeatedName(i)),
    }
}
