//! What is left of a coterie when voters fail, as a text.
ghost use Rattle.std.specs.Prelude.{◌≡◌, ◌<◌, map, All, IfErr, IfOk, string_bytes};
ghost use Rattle.show_failures.specs.Names.{voters_named};
ghost use Rattle.show_failures.specs.Without.{none_left_text, without_text};

use crate::names::{names_text, voters_named};
use coterie_file::{FileFault, Named, write_coterie};
use failures::coterie_without;
use quorum_set::{Coterie, QSet};
use std::alloc::{AllocError, Global};

/// Returns the names of all voters.
fn voter_names(alloc: Global, named: &Named) -> Result<Vec<String>, AllocError>
    ensures { IfOk result (λ v. map string_bytes v.items ≡ named.now.names) }
{
    let voters = named.coterie().voters();
    let mut names = Vec::with_capacity(alloc, voters)?;
    for voter in 0..voters {
        names.push(String::from_str(alloc, named.name(voter))?)?;
    }
    Ok(names)
}

/// Returns another coterie over the same voters, with their names and capacities. They have no
/// fault, so it only fails if memory runs out.
#[tactic(auto, using(crate::proofs::NameLemmas::voters_have_no_fault))]
fn with_coterie(alloc: Global, named: &Named, coterie: Coterie) -> Result<Named, FileFault>
    requires { coterie.voters ≡ named.now.system.voters }
    ensures made { IfOk result (λ n. n ≡ record named.now { system = coterie }) }
    ensures memory { IfErr result (λ fault. fault ≡ FileFault.OutOfMemory) }
{
    let names = voter_names(alloc, named)?;
    let capacities = Vec::from_slice(alloc, named.capacities())?;
    let units = match Named::of(coterie, names) {
        Ok(units) => units,
        Err(fault) => return Err(fault),
    };
    match units.with_capacities(capacities) {
        Ok(left) => Ok(left),
        Err(fault) => Err(fault),
    }
}

/// Returns the line that says why no quorum is left.
fn none_left_text(alloc: Global, named: &Named, failed: &QSet) -> Result<String, AllocError>
    requires { All (λ i. i < named.now.system.voters) failed.now }
    ensures { IfOk result (λ t. string_bytes t ≡ none_left_text named.now.names failed.now) }
{
    let names = names_text(alloc, named, failed)?;
    format!(in alloc; "# no quorum is left: every quorum has a member among {names}\n")
}

/// Returns the coterie that is left when the voters with these names fail, as `write_coterie`
/// writes it: the quorums without a failed member, over the same voters, with the same names and
/// capacities. If no quorum is left, returns one line that says why, a comment of TOML.
///
/// A word that is no voter's name is passed over: see [`first_unknown`](crate::first_unknown).
/// Fails only if it runs out of memory.
pub fn without_page(alloc: Global, named: &Named, words: &[String]) -> Result<String, AllocError>
    ensures { IfOk result (λ page. string_bytes page
        ≡ without_text named.now (voters_named named.now.names (map string_bytes words.now))) }
{
    let failed = voters_named(named, words);
    match coterie_without(alloc, named.coterie(), &failed)? {
        Some(left) => {
            // Called for its contract alone: some quorum is left.
            let _ = left.count();
            match with_coterie(alloc, named, left) {
                Ok(left) => write_coterie(alloc, &left),
                Err(_) => Err(AllocError),
            }
        }
        None => none_left_text(alloc, named, &failed),
    }
}
