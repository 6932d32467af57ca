//! Reading a coterie from its text.
ghost use Rattle.std.specs.Prelude.{◌≡◌, ◌≤◌, [], length, map, not, None, Err, IfOk, OnOk, position, is_some, string_bytes};
ghost use Rattle.std.specs.List.{list_all};
ghost use Rattle.toml.specs.Errors.{IsBlank};
ghost use Rattle.numbers.specs.Bounds.{max_voters};
ghost use Rattle.coterie_file.specs.Answers.{Gives, unless};
ghost use Rattle.coterie_file.specs.Lists.{name_lists, name_lists_by};
ghost use Rattle.coterie_file.specs.Names.{has_name, number_of, first_repeat, names_fault, AreNames};
ghost use Rattle.quorum_set.specs.Capacities.{AreCapacities};
ghost use Rattle.coterie_file.specs.Reading.{quorum_of, system_of, lists_fault, coterie_at};
ghost use Rattle.coterie_file.specs.declared.fault.FileFault.TheVariants.{Keys};

use crate::capacities::{capacities_fault, kept};
use crate::fault::FileFault;
use crate::lists::NameLists;
use crate::named::Named;
use crate::names::{numbered, voters_of};
use indexmap::IndexSet;
use numbers::MAX_VOTERS;
use quorum_set::{Coterie, CoterieFault, QSet};
use std::alloc::{AllocError, Global};

/// Returns whether a voter has the name.
#[tactic(auto, using(crate::proofs::ListLemmas::list_any_map))]
fn knows(voters: &IndexSet<&str>, name: &str) -> bool
    ensures { result ≡ has_name (map (λ k. k.now) voters.now.keys) name.now }
{
    voters.contains(name)
}

/// Returns whether each of these names is a voter's.
fn knows_all(voters: &IndexSet<&str>, members: &[String]) -> bool
    ensures { result ≡ list_all (λ n. has_name (map (λ k. k.now) voters.now.keys) (string_bytes n)) members.now }
{
    members.iter().all(|name| knows(voters, name.as_str()))
}

/// Returns the first quorum with a name that no voter has.
fn first_unknown(voters: &IndexSet<&str>, quorums: &[Vec<String>]) -> Option<usize>
    ensures { result ≡ position
        (λ q. not (list_all (λ n. has_name (map (λ k. k.now) voters.now.keys) (string_bytes n)) q.items))
        quorums.now }
{
    quorums
        .iter()
        .position(|members| !knows_all(voters, members.as_slice()))
}

/// Returns whether a name occurs twice.
fn repeats(alloc: Global, members: &[String]) -> Result<bool, AllocError>
    ensures { IfOk result (λ r. r ≡ is_some (first_repeat [] (map string_bytes members.now))) }
{
    match numbered(alloc, members)? {
        Ok(_) => Ok(false),
        Err(_) => Ok(true),
    }
}

/// Returns the first quorum in which a name occurs twice.
fn first_repeated(alloc: Global, quorums: &[Vec<String>]) -> Result<Option<usize>, AllocError>
    ensures { IfOk result (λ r. r ≡ position (λ q. is_some (first_repeat [] (map string_bytes q.items))) quorums.now) }
{
    for (j, members) in quorums.iter().enumerate() {
        if repeats(alloc, members.as_slice())? {
            return Ok(Some(j));
        }
    }
    Ok(None)
}

/// Returns the number of the voter with this name, if there is one.
fn number_in(voters: &IndexSet<&str>, name: &str) -> Option<usize>
    ensures { result ≡ number_of (map (λ k. k.now) voters.now.keys) name.now }
{
    voters.get_index_of(name)
}

/// Returns the set of the members' numbers.
fn set_of(voters: &IndexSet<&str>, members: &[String]) -> QSet
    requires { length voters.now.keys ≤ max_voters }
    ensures { result ≡ quorum_of (map (λ k. k.now) voters.now.keys) (map string_bytes members.now) }
{
    let mut set = QSet::empty();
    for name in members {
        if let Some(number) = number_in(voters, name.as_str()) {
            set.insert(number as u8);
        }
    }
    set
}

/// Returns for each quorum the set of its members' numbers.
fn sets_of(
    alloc: Global,
    voters: &IndexSet<&str>,
    quorums: &[Vec<String>],
) -> Result<Vec<QSet>, AllocError>
    requires { length voters.now.keys ≤ max_voters }
    ensures { IfOk result (λ v.
        v.items ≡ map (λ q. quorum_of (map (λ k. k.now) voters.now.keys) (map string_bytes q.items)) quorums.now) }
{
    let mut sets = Vec::with_capacity(alloc, quorums.len())?;
    for members in quorums {
        sets.push(set_of(voters, members.as_slice()))?;
    }
    Ok(sets)
}

/// Returns the coterie of the lists, for voters whose names have no fault, or the first fault.
fn coterie_by(
    alloc: Global,
    voters: &IndexSet<&str>,
    quorums: &[Vec<String>],
    capacities: &[u64],
) -> Result<Coterie, FileFault>
    requires { names_fault (map (λ k. k.now) voters.now.keys) ≡ None }
    ensures exact { Gives (λ c. c) result
        (unless (lists_fault (name_lists_by (map (λ k. k.now) voters.now.keys) quorums.now capacities.now))
        (system_of (name_lists_by (map (λ k. k.now) voters.now.keys) quorums.now capacities.now))) }
    ensures capacities { OnOk result (AreCapacities capacities.now (length voters.now.keys)) }
{
    if let Some(j) = first_unknown(voters, quorums) {
        return Err(FileFault::UnknownName(j));
    }
    if let Some(j) = first_repeated(alloc, quorums)? {
        return Err(FileFault::RepeatedMember(j));
    }
    let count = voters.len();
    if let Some(fault) = capacities_fault(count, capacities) {
        return Err(fault);
    }
    if count > MAX_VOTERS {
        return Err(FileFault::Coterie(CoterieFault::TooManyVoters));
    }
    let sets = sets_of(alloc, voters, quorums)?;
    Ok(Coterie::of(count, sets)?)
}

/// Returns the coterie of the lists, or their first fault.
fn coterie_of(
    alloc: Global,
    names: &[String],
    quorums: &[Vec<String>],
    capacities: &[u64],
) -> Result<Coterie, FileFault>
    ensures exact { Gives (λ c. c) result
        (unless (lists_fault (name_lists names.now quorums.now capacities.now))
        (system_of (name_lists names.now quorums.now capacities.now))) }
    ensures names { OnOk result (AreNames (map string_bytes names.now)) }
    ensures capacities { OnOk result (AreCapacities capacities.now (length names.now)) }
{
    let voters = voters_of(alloc, names)?;
    coterie_by(alloc, &voters, quorums, capacities)
}

/// Returns the coterie that a text describes.
///
/// The text is a TOML document with the keys `voters`, an array of names, and `quorums`, an array of
/// arrays of these names. It may have a third key, `capacity`, an array of integers: one capacity
/// for each voter, each from 1 to 1000. Without it each voter has capacity 1. A voter's number is
/// its place in `voters`.
///
/// Fails with the first fault of the text, in the order of `FileFault`, or with `OutOfMemory`. Any
/// text that is not blank may fail with `OutOfMemory`, since reading TOML allocates. A blank text,
/// of white space, line ends and comments, fails with `Keys`.
pub fn read_coterie(alloc: Global, text: &str) -> Result<Named, FileFault>
    ensures exact { Gives (λ n. n) result (coterie_at text.now) }
    ensures blank { IsBlank text.now → result ≡ Err Keys }
{
    let lists = NameLists::of(alloc, text)?;
    let coterie = coterie_of(alloc, &lists.names, &lists.quorums, &lists.capacities)?;
    let capacities = kept(&lists.capacities);
    Ok(Named::with(coterie, lists.names, capacities))
}
