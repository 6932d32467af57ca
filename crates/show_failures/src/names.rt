//! Voters by their names.
ghost use Rattle.std.specs.Prelude.{◌≡◌, ◌<◌, map, not, position, All, IfOk, string_bytes};
ghost use Rattle.coterie_file.specs.Names.{has_name};
ghost use Rattle.show_failures.specs.Names.{first_unknown, names_of, names_text, voters_named};

use coterie_file::Named;
use quorum_set::QSet;
use std::alloc::{AllocError, Global};
use std::convert::AsStr;

/// Returns whether one of the words is this name.
fn has_word<S: AsStr>(words: &[S], name: &str) -> bool
    ensures { result ≡ has_name (map S.text words.now) name.now }
{
    for word in words {
        if name == word.as_str() {
            return true;
        }
    }
    false
}

/// Returns the voters whose name is one of these words.
pub(crate) fn voters_named<S: AsStr>(named: &Named, words: &[S]) -> QSet
    ensures value { result ≡ voters_named named.now.names (map S.text words.now) }
    ensures voters { All (λ i. i < named.now.system.voters) result }
{
    let mut voters = QSet::empty();
    for voter in 0..named.coterie().voters() {
        if has_word(words, named.name(voter)) {
            voters.insert(voter as u8);
        }
    }
    voters
}

/// Returns whether a voter has this name.
fn is_known(named: &Named, name: &str) -> bool
    ensures { result ≡ has_name named.now.names name.now }
{
    for voter in 0..named.coterie().voters() {
        if name == named.name(voter) {
            return true;
        }
    }
    false
}

/// Returns the place of the first text that is no voter's name.
fn unknown_in(named: &Named, words: &[String]) -> Option<usize>
    ensures { result ≡ position (λ w. not (has_name named.now.names (string_bytes w))) words.now }
{
    words
        .iter()
        .position(|word| !is_known(named, word.as_str()))
}

/// Returns the place of the first word that is no voter's name.
pub fn first_unknown(named: &Named, words: &[String]) -> Option<usize>
    ensures { result ≡ first_unknown named.now.names (map string_bytes words.now) }
{
    unknown_in(named, words)
}

/// Returns the names of these voters.
pub(crate) fn names_of<'a>(
    alloc: Global,
    named: &'a Named,
    voters: &QSet,
) -> Result<Vec<&'a str>, AllocError>
    requires { All (λ i. i < named.now.system.voters) voters.now }
    ensures { IfOk result (λ v. map (λ n. n.now) v.items ≡ names_of named.now.names voters.now) }
{
    let members = voters.members();
    let mut names = Vec::with_capacity(alloc, members.len())?;
    for voter in members.as_slice() {
        names.push(named.name(usize::from(*voter)))?;
    }
    Ok(names)
}

/// Returns the names of these voters in a line, with a space between each two.
pub(crate) fn names_text(alloc: Global, named: &Named, voters: &QSet) -> Result<String, AllocError>
    requires { All (λ i. i < named.now.system.voters) voters.now }
    ensures { IfOk result (λ t. string_bytes t ≡ names_text named.now.names voters.now) }
{
    names_of(alloc, named, voters)?.join(alloc, " ")
}
