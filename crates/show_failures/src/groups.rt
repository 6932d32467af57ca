//! Groups of voters, such as racks, by the prefix that their names have in common.
ghost use Rattle.std.specs.Prelude.{◌≡◌, ◌<◌, All, IfOk, nat_le};
ghost use Rattle.std.specs.List.{list_all};
ghost use Rattle.show_failures.specs.Groups.{group_of, groups_of, prefix_of, without_end};

use coterie_file::Named;
use quorum_set::QSet;
use std::alloc::{AllocError, Global};

/// Returns a text without those of these bytes that are at its end.
fn without_end<'a>(text: &'a [u8], bytes: &[u8]) -> &'a [u8]
    ensures { result.now ≡ without_end bytes.now text.now }
{
    let mut end = text.len();
    while end > 0 && bytes.contains(&text[end - 1]) {
        end -= 1;
    }
    &text[..end]
}

/// Returns a name without the digits at its end, and without the marks right before them.
fn prefix_of(name: &str) -> &[u8]
    ensures { result.now ≡ prefix_of name.now }
{
    without_end(without_end(name.as_bytes(), b"0123456789"), b"-_.")
}

/// Returns the voters whose names have the same prefix as the name of this voter.
fn group_of(named: &Named, voter: usize) -> QSet
    requires { voter < named.now.system.voters }
    ensures group { result ≡ group_of named.now.names voter }
    ensures voters { All (λ i. i < named.now.system.voters) result }
{
    let prefix = prefix_of(named.name(voter));
    let mut group = QSet::empty();
    for other in 0..named.coterie().voters() {
        if prefix_of(named.name(other)) == prefix {
            group.insert(other as u8);
        }
    }
    group
}

/// Returns whether no member of a group has a smaller number than this voter.
fn leads(group: &QSet, voter: usize) -> bool
    ensures { result ≡ list_all (nat_le voter) group.now }
{
    let members = group.members();
    members
        .as_slice()
        .iter()
        .all(|other| voter <= usize::from(*other))
}

/// Returns the groups of the voters, in the order of their first voters. The names of a group differ
/// only in the digits at their ends, and in marks right before these. Fails only if it runs out of
/// memory.
pub fn groups_of(alloc: Global, named: &Named) -> Result<Vec<QSet>, AllocError>
    ensures groups { IfOk result (λ v. v.items ≡ groups_of named.now.names) }
    ensures voters { IfOk result (λ v. All (λ g. All (λ i. i < named.now.system.voters) g) v.items) }
{
    let mut groups = Vec::new(alloc);
    for voter in 0..named.coterie().voters() {
        let group = group_of(named, voter);
        if leads(&group, voter) {
            groups.push(group)?;
        }
    }
    Ok(groups)
}
