//! Parts that several pages have, and how a page becomes a text.

use coterie_file::Named;
use quorum_set::QSet;
use serde::Serialize;
use show_figures::name_of;
use std::alloc::{AllocError, Global};

/// A fraction in lowest terms.
#[derive(Drop, Serialize)]
pub(crate) struct Fraction {
    numerator: u64,
    denominator: u64,
}

/// A quorum that a cycle uses.
#[derive(Drop, Serialize)]
pub(crate) struct Quorum<'a> {
    /// Its number, from 0.
    pub(crate) number: usize,
    /// How often a cycle uses it.
    pub(crate) weight: u64,
    /// The names of its voters.
    pub(crate) voters: Vec<&'a str>,
}

/// A voter.
#[derive(Drop, Serialize)]
pub(crate) struct Voter<'a> {
    pub(crate) name: &'a str,
    /// Its capacity, 1 to 1000.
    pub(crate) capacity: u64,
    /// How often a cycle uses it.
    pub(crate) count: u64,
    /// Its weight, by which the load is bounded.
    pub(crate) weight: u64,
}

/// A ticket.
#[derive(Drop, Serialize)]
pub(crate) struct Ticket<'a> {
    /// Its number, from 0.
    pub(crate) ticket: u64,
    /// The number of its quorum, from 0.
    pub(crate) quorum: usize,
    /// The names of the voters to ask.
    pub(crate) voters: Vec<&'a str>,
}

/// Returns a fraction of a numerator and a denominator.
pub(crate) fn fraction_of((numerator, denominator): (u64, u64)) -> Fraction {
    Fraction {
        numerator,
        denominator,
    }
}

/// Returns the names of the members of a set.
pub(crate) fn names_of<'a>(
    alloc: Global,
    named: &'a Named,
    set: &QSet,
) -> Result<Vec<&'a str>, AllocError> {
    let members = set.members();
    let mut names = Vec::with_capacity(alloc, members.len())?;
    for voter in members.as_slice() {
        names.push(name_of(named, *voter))?;
    }
    Ok(names)
}

/// Returns the names of the members of a quorum, if there is one with this number.
pub(crate) fn quorum_names<'a>(
    alloc: Global,
    named: &'a Named,
    quorum: usize,
) -> Result<Vec<&'a str>, AllocError> {
    if quorum < named.coterie().count() {
        names_of(alloc, named, named.coterie().quorum(quorum))
    } else {
        Ok(Vec::new(alloc))
    }
}

/// Returns a ticket, which stands for a quorum.
pub(crate) fn ticket_of<'a>(
    alloc: Global,
    named: &'a Named,
    ticket: u64,
    quorum: usize,
) -> Result<Ticket<'a>, AllocError> {
    Ok(Ticket {
        ticket,
        quorum,
        voters: quorum_names(alloc, named, quorum)?,
    })
}

/// Returns a page as one line of JSON, with a newline at its end. What is written has no fault of its
/// own, so it only fails if memory runs out.
pub(crate) fn line_of<T: Serialize>(alloc: Global, page: &T) -> Result<String, AllocError> {
    match serde_json::to_string(alloc, page) {
        Ok(mut text) => {
            text.push('\n')?;
            Ok(text)
        }
        Err(_) => Err(AllocError),
    }
}
