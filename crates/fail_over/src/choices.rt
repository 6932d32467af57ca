//! Which quorum a session asks.
ghost use Rattle.std.specs.Prelude.{◌≡◌, ◌<◌, ℕ, length};
ghost use Rattle.std.specs.List.{position};
ghost use Rattle.fail_over.specs.Choices.{next_quorum, place_of, place_without, spares};

use quorum_set::QSet;

/// Returns whether the quorum has none of these voters.
pub(crate) fn spares(voters: u64, quorum: u64) -> bool
    ensures { result ≡ spares voters quorum }
{
    !QSet::of_bits(quorum).meets(&QSet::of_bits(voters))
}

/// Returns the first place of a quorum that has none of these voters.
fn first_without(quorums: &[u64], voters: u64) -> Option<usize>
    ensures { result ≡ position (spares voters) quorums.now }
{
    quorums.iter().position(|quorum| spares(voters, *quorum))
}

/// Returns the first place of a quorum that has none of these voters, from this one on around the cycle.
fn place_without(cycle: &[u64], voters: u64, from: usize) -> Option<usize>
    requires { from < length cycle.now }
    ensures { (ticket : ℕ) → place_of cycle.now ticket ≡ from → result ≡ place_without cycle.now voters ticket }
{
    let (before, rest) = cycle.split_at(from);
    match first_without(rest, voters) {
        Some(further) => Some(from + further),
        None => first_without(before, voters),
    }
}

/// Returns the place in the cycle of the quorum that a session asks with a ticket: the first one, from the ticket's place on around
/// the cycle, that has no voter which is avoided, and none that has no room. If there is none, the first one in which all voters
/// have room: the others may give their votes later. `None` if there is none of these either.
///
/// The session goes on with the ticket after that place.
pub fn next_quorum(cycle: &[u64], ticket: u64, avoided: u64, full: u64) -> Option<usize>
    ensures { result ≡ next_quorum cycle.now ticket avoided full }
{
    if cycle.is_empty() {
        return None;
    }
    let from = (ticket % cycle.len() as u64) as usize;
    match place_without(cycle, avoided | full, from) {
        Some(place) => Some(place),
        None => place_without(cycle, full, from),
    }
}
