//! What is wrong with the lists of a coterie's text, with its names.
use crate::kinds::lists_of;
use crate::lines::{push_line, repeated};
use crate::refused::{Page, Pushed, push_found, push_part};
use crate::toml_faults::{push_keys, push_not_toml};
use coterie_file::{FileFault, NameLists};
use quorum_set::CoterieFault;
use std::alloc::AllocError;
use toml_places::line_at;

/// Returns the names of the members of a quorum.
fn members(lists: &NameLists, number: usize) -> &[String] {
    match lists.quorums.get(number) {
        Some(names) => names.as_slice(),
        None => &[],
    }
}

/// Appends a quorum: its number and the names of its members.
fn push_quorum(page: &mut Page, lists: &NameLists, number: usize) -> Pushed {
    write!(page.text, "{number} ")?;
    let mut between = "{";
    for name in members(lists, number) {
        page.text.push_str(between)?;
        push_line(&mut page.text, name.as_bytes())?;
        between = ", ";
    }
    page.text.push_str(if between == "{" { "{}" } else { "}" })
}

/// Appends a name in quotes, if there is one.
fn push_name(page: &mut Page, name: Option<&String>) -> Pushed {
    page.text.push('"')?;
    if let Some(name) = name {
        push_line(&mut page.text, name.as_bytes())?;
    }
    page.text.push('"')
}

/// Appends what is wrong with a voter: its number, its name and this.
fn push_voter_fault(page: &mut Page, lists: &NameLists, number: usize, what: &str) -> Pushed {
    write!(page.text, "voter {number}, ")?;
    push_name(page, lists.names.get(number))?;
    write!(page.text, ": {what}")
}

/// Appends what is wrong with a member of a quorum.
fn push_member_fault(
    page: &mut Page,
    lists: &NameLists,
    number: usize,
    fault: FileFault,
) -> Pushed {
    page.text.push_str("quorum ")?;
    push_quorum(page, lists, number)?;
    let names = members(lists, number);
    if matches!(fault, FileFault::UnknownName(_)) {
        page.text.push_str(" lists a name that no voter has: ")?;
        push_name(page, names.iter().find(|name| !lists.names.contains(name)))
    } else {
        page.text.push_str(" lists a voter twice: ")?;
        push_name(page, repeated(names))
    }
}

/// Appends what is wrong with two quorums.
fn push_pair(page: &mut Page, lists: &NameLists, pair: (usize, usize), what: &str) -> Pushed {
    page.text.push_str("quorums ")?;
    push_quorum(page, lists, pair.0)?;
    page.text.push_str(" and ")?;
    push_quorum(page, lists, pair.1)?;
    write!(page.text, " {what}")
}

/// Appends what is wrong with quorums that are no coterie.
pub(crate) fn push_coterie_fault(
    page: &mut Page,
    lists: &NameLists,
    fault: CoterieFault,
) -> Pushed {
    let voters = lists.names.len();
    let quorums = lists.quorums.len();
    let text = &mut page.text;
    match fault {
        CoterieFault::NoVoters => text.push_str("the list of voters is empty"),
        CoterieFault::TooManyVoters => write!(text, "there are {voters} voters; at most 64 may be"),
        CoterieFault::NoQuorums => text.push_str("the list of quorums is empty"),
        CoterieFault::TooManyQuorums => {
            write!(text, "there are {quorums} quorums; at most 4096 may be")
        }
        CoterieFault::EmptyQuorum(j) => write!(text, "quorum {j} has no members"),
        CoterieFault::VoterOutOfRange(j, i) => {
            write!(text, "quorum {j} has a member {i} that is no voter")
        }
        CoterieFault::Disjoint(j, k) => {
            push_pair(page, lists, (j, k), "have no voter in common")
        }
        CoterieFault::Contained(j, k) => {
            let what = "are equal, or one has all voters of the other";
            push_pair(page, lists, (j, k), what)
        }
    }
}

/// Appends what is wrong with the lists of a text.
fn push_list_fault(page: &mut Page, lists: &NameLists, fault: FileFault) -> Pushed {
    match fault {
        FileFault::BadName(i) => {
            let what = "a name has 1 to 64 of the characters A-Z a-z 0-9 _ - . :";
            push_voter_fault(page, lists, i, what)
        }
        FileFault::RepeatedName(i) => {
            push_voter_fault(page, lists, i, "an earlier voter has this name")
        }
        FileFault::BadCapacity(i) => {
            push_voter_fault(page, lists, i, "its capacity is not 1 to 1000")
        }
        FileFault::UnknownName(j) | FileFault::RepeatedMember(j) => {
            push_member_fault(page, lists, j, fault)
        }
        FileFault::CapacityCount(count) => {
            let voters = lists.names.len();
            write!(
                page.text,
                "there are {count} capacities for {voters} voters"
            )
        }
        FileFault::Coterie(fault) => push_coterie_fault(page, lists, fault),
        FileFault::NotToml | FileFault::Keys | FileFault::OutOfMemory => Ok(()),
    }
}

/// Returns the line of the coterie's text with the item that a fault names, if it names one that is
/// found.
fn fault_line(page: &Page, fault: FileFault) -> Result<Option<usize>, AllocError> {
    let (key, item) = match fault {
        FileFault::BadName(i) | FileFault::RepeatedName(i) => ("voters", i),
        FileFault::UnknownName(j)
        | FileFault::RepeatedMember(j)
        | FileFault::Coterie(CoterieFault::EmptyQuorum(j)) => ("quorums", j),
        FileFault::BadCapacity(i) => ("capacity", i),
        _ => return Ok(None),
    };
    match std::str::from_utf8(page.part(1)) {
        Ok(document) => line_at(page.alloc, document, key, Some(item)),
        Err(_) => Ok(None),
    }
}

/// Appends where the fault of a coterie's text is, and with which names.
pub(crate) fn push_file_fault(page: &mut Page, fault: FileFault) -> Pushed {
    push_part(page, 1)?;
    match fault {
        FileFault::NotToml => push_not_toml(page),
        FileFault::Keys => push_keys(page),
        _ => {
            let Some(lists) = lists_of(page.alloc, page.part(1))? else {
                return Ok(());
            };
            let line = fault_line(page, fault)?;
            push_found(page, line)?;
            push_list_fault(page, &lists, fault)?;
            page.text.push('\n')
        }
    }
}
