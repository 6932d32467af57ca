//! Names of voters.

use coterie_file::Named;
use quorum_set::QSet;
use show_figures::name_of;
use std::alloc::AllocError;

/// Appends the names of these voters to a text, with this text between two names.
pub fn push_names(
    text: &mut String,
    named: &Named,
    voters: &[u8],
    between: &str,
) -> Result<(), AllocError> {
    let mut before = "";
    for voter in voters {
        text.push_str(before)?;
        text.push_str(name_of(named, *voter))?;
        before = between;
    }
    Ok(())
}

/// Appends the names of a quorum's members to a text, with this text between two names.
pub fn push_members(
    text: &mut String,
    named: &Named,
    quorum: &QSet,
    between: &str,
) -> Result<(), AllocError> {
    let members = quorum.members();
    push_names(text, named, members.as_slice(), between)
}

/// Appends the names of the members of the quorum with this number, with spaces between them. Appends
/// nothing if there is no such quorum.
pub fn push_quorum_members(
    text: &mut String,
    named: &Named,
    quorum: usize,
) -> Result<(), AllocError> {
    if quorum < named.coterie().count() {
        push_members(text, named, named.coterie().quorum(quorum), " ")
    } else {
        Ok(())
    }
}
