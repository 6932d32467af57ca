//! Coteries to compare, and their figures.
ghost use Rattle.std.specs.Prelude.{◌≡◌, IfOk, map, not};
ghost use Rattle.std.specs.List.{AllByRecursion, list_any};
ghost use Rattle.show_compare.specs.Compare.{AreFigures};

use coterie_file::Named;
use show_figures::{Comparison, comparison_of};
use std::alloc::{AllocError, Global};

/// A coterie to compare.
#[derive(Drop)]
pub struct Candidate {
    /// How it is called, such as the name of its file.
    pub name: String,
    /// The coterie.
    pub named: Named,
}

/// A candidate and its figures.
#[derive(Drop)]
pub struct Entry<'a> {
    /// The candidate.
    pub candidate: &'a Candidate,
    /// Its figures.
    pub compared: Comparison,
}

/// Returns the figures of a coterie.
fn figures_of(alloc: Global, named: &Named) -> Result<Comparison, AllocError>
    ensures { IfOk result (AreFigures named.now) }
{
    let compared = comparison_of(alloc, named)?;
    Ok(compared)
}

/// Returns the candidates with their figures. Fails only if it runs out of memory.
pub fn entries_of<'a>(
    alloc: Global,
    candidates: &'a [Candidate],
) -> Result<Vec<Entry<'a>>, AllocError>
    ensures candidates { IfOk result (λ v. map (λ e. e.candidate.now) v.items ≡ candidates.now) }
    ensures figures { IfOk result (λ v. AllByRecursion (λ e. AreFigures e.candidate.now.named e.compared) v.items) }
{
    let mut entries = Vec::new(alloc);
    for candidate in candidates {
        let compared = figures_of(alloc, &candidate.named)?;
        entries.push(Entry {
            candidate,
            compared,
        })?;
    }
    Ok(entries)
}

/// Returns whether some voter of a candidate has a capacity that is not 1.
pub(crate) fn have_capacities(entries: &[Entry]) -> bool
    ensures { result ≡ list_any (λ e. not e.compared.is_unit) entries.now }
{
    entries.iter().any(|entry| !entry.compared.is_unit)
}
