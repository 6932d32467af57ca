//! Writing a coterie as text.
ghost use Rattle.std.specs.Prelude.{◌≡◌, ◌<◌, ◌++◌, [], decimal, flat_map, length, map, All, IfOk, OnOk, slice_index_or, string_bytes};
ghost use Rattle.coterie_file.specs.Names.{name_at};
ghost use Rattle.coterie_file.specs.Writing.{name_list, quorum_line, capacity_line, head_text, coterie_text};

use crate::named::Named;
use quorum_set::{QSet, are_unit};
use std::alloc::{AllocError, Global};
use std::convert::AsStr;

/// Returns the names in brackets, each in quotation marks.
fn list_of<S: AsStr>(alloc: Global, names: &[S]) -> Result<String, AllocError>
    requires { 0 < length names.now }
    ensures { IfOk result (λ t. string_bytes t ≡ name_list (map S.text names.now)) }
{
    let names = names.join(alloc, "\", \"")?;
    format!(in alloc; "[\"{names}\"]")
}

/// Returns the names of a quorum's members.
fn members_of<'a>(
    alloc: Global,
    named: &'a Named,
    quorum: &QSet,
) -> Result<Vec<&'a str>, AllocError>
    requires { All (λ i. i < named.now.system.voters) quorum.now }
    ensures { IfOk result (λ v. map (λ n. n.now) v.items ≡ map (name_at named.now.names) quorum.now) }
{
    let members = quorum.members();
    let mut names = Vec::with_capacity(alloc, members.len())?;
    for i in members.as_slice() {
        names.push(named.name(usize::from(*i)))?;
    }
    Ok(names)
}

/// Returns the line of a quorum.
fn line_of(alloc: Global, named: &Named, j: usize) -> Result<String, AllocError>
    requires { j < length named.now.system.quorums }
    ensures { IfOk result (λ t.
        string_bytes t ≡ quorum_line named.now.names (slice_index_or named.now.system.quorums j [])) }
{
    let names = members_of(alloc, named, named.coterie().quorum(j))?;
    let list = list_of(alloc, &names)?;
    format!(in alloc; "  {list},\n")
}

/// Returns the decimal texts of the numbers.
fn texts_of(alloc: Global, numbers: &[u64]) -> Result<Vec<String>, AllocError>
    ensures { IfOk result (λ v. map string_bytes v.items ≡ map decimal numbers.now) }
{
    let mut texts = Vec::with_capacity(alloc, numbers.len())?;
    for number in numbers {
        texts.push(format!(in alloc; "{number}")?)?;
    }
    Ok(texts)
}

/// Returns the line of the capacities, after a line end. It is empty if all capacities are 1.
fn capacity_line(alloc: Global, capacities: &[u64]) -> Result<String, AllocError>
    ensures { IfOk result (λ t. string_bytes t ≡ capacity_line capacities.now) }
{
    if are_unit(capacities) {
        return Ok(String::new(alloc));
    }
    let list = texts_of(alloc, capacities)?.join(alloc, ", ")?;
    format!(in alloc; "\ncapacity = [{list}]")
}

/// Returns the lines before those of the quorums.
fn head_of(alloc: Global, named: &Named) -> Result<String, AllocError>
    ensures { IfOk result (λ t. string_bytes t ≡ head_text named.now) }
{
    let voters = list_of(alloc, named.names())?;
    let capacities = capacity_line(alloc, named.capacities())?;
    format!(in alloc; "voters = {voters}{capacities}\nquorums = [\n")
}

/// Adds the lines of the quorums to a text.
fn push_quorums(text: &mut String, alloc: Global, named: &Named) -> Result<(), AllocError>
    ensures { OnOk result (string_bytes text.new
        ≡ string_bytes text.old ++ flat_map (quorum_line named.now.names) named.now.system.quorums) }
{
    for j in 0..named.coterie().count() {
        text.push_str(&line_of(alloc, named, j)?)?;
    }
    Ok(())
}

/// Returns the text of a coterie: a TOML document that `read_coterie` reads back. The names are in
/// the order of their voters' numbers. The capacities are on the second line if one of them is not
/// 1; otherwise they are left out. Each quorum is on a line of its own, with its members in
/// ascending order.
pub fn write_coterie(alloc: Global, named: &Named) -> Result<String, AllocError>
    ensures layout { IfOk result (λ t. string_bytes t ≡ coterie_text named.now) }
{
    let mut text = head_of(alloc, named)?;
    push_quorums(&mut text, alloc, named)?;
    text.push_str("]\n")?;
    Ok(text)
}
