//! Bridges between coteries, by the names of voters.
ghost use Rattle.std.specs.Prelude.{◌≡◌, ◌<◌, length, position, IfOk, MatchOption};
ghost use Rattle.quorum_set.specs.Bridges.{first_apart};
ghost use Rattle.quorum_set.specs.Coteries.{are_disjoint};
ghost use Rattle.show_failures.specs.Bridges.{AllShare, IsFirstApart, all_namesakes};

use crate::names::{names_of, names_text, voters_named};
use coterie_file::Named;
use quorum_set::{Coterie, QSet};
use std::alloc::{AllocError, Global};

/// Returns for each quorum of the second coterie the voters of the first that have the name of a
/// member.
fn namesakes(alloc: Global, first: &Named, second: &Named) -> Result<Vec<QSet>, AllocError>
    ensures { IfOk result (λ v. v.items ≡ all_namesakes first.now second.now) }
{
    let count = second.coterie().count();
    let mut sets = Vec::with_capacity(alloc, count)?;
    for number in 0..count {
        let names = names_of(alloc, second, second.coterie().quorum(number))?;
        sets.push(voters_named(first, &names))?;
    }
    Ok(sets)
}

/// Returns the place of the first set that has no member in common with a quorum.
fn first_disjoint_from(quorum: &QSet, sets: &[QSet]) -> Option<usize>
    ensures { result ≡ position (are_disjoint quorum.now) sets.now }
{
    sets.iter().position(|set| !quorum.meets(set))
}

/// Returns the first quorum that has no member in common with one of the sets, and the place of the
/// first such set.
fn first_apart(coterie: &Coterie, sets: &[QSet]) -> Option<(usize, usize)>
    ensures { result ≡ first_apart 0 coterie.now.quorums sets.now }
{
    for number in 0..coterie.count() {
        if let Some(place) = first_disjoint_from(coterie.quorum(number), sets) {
            return Some((number, place));
        }
    }
    None
}

/// Returns the first quorum of the first coterie that shares no name with one of the second, and the
/// first such one. The sets are the namesakes of the second coterie's quorums.
fn first_without_name(first: &Named, second: &Named, sets: &[QSet]) -> Option<(usize, usize)>
    requires { sets.now ≡ all_namesakes first.now second.now }
    ensures { MatchOption result (AllShare first.now second.now) (λ p. IsFirstApart first.now second.now p.0 p.1) }
{
    first_apart(first.coterie(), sets)
}

/// Returns the first quorum of the first coterie that has no voter in common with one of the second, and
/// the first such one. If there is none, there is a bridge. Voters are the same if they have the same
/// name. Fails only if memory runs out.
pub fn first_quorums_apart(
    alloc: Global,
    first: &Named,
    second: &Named,
) -> Result<Option<(usize, usize)>, AllocError>
    ensures { IfOk result (λ found. MatchOption found (AllShare first.now second.now)
        (λ p. IsFirstApart first.now second.now p.0 p.1)) }
{
    let sets = namesakes(alloc, first, second)?;
    Ok(first_without_name(first, second, &sets))
}

/// Returns a quorum as a text: its number, and the names of its members in braces.
fn quorum_text(alloc: Global, named: &Named, number: usize) -> Result<String, AllocError>
    requires { number < length named.now.system.quorums }
{
    let names = names_text(alloc, named, named.coterie().quorum(number))?;
    format!(in alloc; "quorum {number} {{{names}}}")
}

/// Returns whether there is a bridge from the first coterie to the second: whether each quorum of
/// one has a voter in common with each quorum of the other. If there is none, names the first two
/// quorums that have none in common. Voters are the same if they have the same name.
///
/// Fails only if it runs out of memory.
pub fn bridge_page(alloc: Global, first: &Named, second: &Named) -> Result<String, AllocError> {
    let Some((one, other)) = first_quorums_apart(alloc, first, second)? else {
        return String::from_str(
            alloc,
            "yes: each quorum of the first has a voter in common with each quorum of the second\nVoters are compared by name. Calls and masks compare numbers: list the same voters in the same order in both files.\n",
        );
    };
    let one = quorum_text(alloc, first, one)?;
    let other = quorum_text(alloc, second, other)?;
    format!(in alloc; "no: {one} of the first and {other} of the second have no voter in common\n")
}
