//! The page of coteries side by side.
ghost use Rattle.std.specs.Prelude.{IfOk, map, string_bytes};
ghost use Rattle.show_compare.specs.Compare.{AreLosses, IsComparePage, shown};

use crate::entries::{Candidate, Entry, entries_of, have_capacities};
use crate::figures::figures_table;
use crate::groups::{groups_of_entries, losses_table};
use crate::legend::legend_text;
use std::alloc::{AllocError, Global};

/// Returns the table of losses behind an empty line, or nothing if there is no group.
fn losses_text(
    alloc: Global,
    entries: &[Entry],
    groups: &[String],
    is_throughput: bool,
) -> Result<String, AllocError>
    ensures { IfOk result (λ text. AreLosses is_throughput (map shown entries.now) (map string_bytes groups.now) (string_bytes text)) }
{
    if groups.is_empty() {
        return Ok(String::new(alloc));
    }
    let table = losses_table(alloc, entries, groups, is_throughput)?;
    let text = format!(in alloc; "\n{table}")?;
    Ok(text)
}

/// Returns a page with the figures of these coteries side by side: how many voters and quorums each
/// has, how many members its quorums have, how many voters may fail, its load, and the greatest load of
/// the tickets that are left when one voter is down. If some capacity is not 1, it has throughputs in
/// their place: 1 divided by the load.
///
/// A second table has the load, or the throughput, of what is left when a group of voters fails. It is
/// there if some coterie has several groups, and not each voter is its own. Fails only if it runs out
/// of memory.
pub fn compare_page(alloc: Global, candidates: &[Candidate]) -> Result<String, AllocError>
    ensures { IfOk result (λ page. IsComparePage candidates.now (string_bytes page)) }
{
    let entries = entries_of(alloc, candidates)?;
    let groups = groups_of_entries(alloc, entries.as_slice())?;
    let is_throughput = have_capacities(entries.as_slice());
    let figures = figures_table(alloc, entries.as_slice(), is_throughput)?;
    let losses = losses_text(alloc, entries.as_slice(), groups.as_slice(), is_throughput)?;
    let legend = legend_text(alloc, entries.as_slice())?;
    let page = format!(in alloc; "{figures}{losses}{legend}")?;
    Ok(page)
}
