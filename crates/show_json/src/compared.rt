//! Coteries side by side, as JSON.
ghost use Rattle.std.specs.Prelude.{◌≡◌, ◌∷◌, ◌++◌, [], IfOk, codes, map, slice_index_or, string_bytes};
ghost use Rattle.show_compare.specs.Compare.{shown};
ghost use Rattle.show_json.specs.Compared.{IsCompareJson, coterie_members, coterie_text, keeps_text, left_text, loss_text, names_text, one_down_text};
ghost use Rattle.show_json.specs.Values.{list_text, member_of, object_text, quoted};

use crate::values::{
    Member, fraction_text, list_text, number_text, object_text, quoted, truth_text,
};
use coterie_file::Named;
use losses::OneDown;
use quorum_set::QSet;
use show_compare::{Candidate, Entry, entries_of};
use show_figures::{Loads, Loss, name_of};
use std::alloc::{AllocError, Global};

/// Returns the names of a group of voters, each as JSON.
fn names_of(alloc: Global, named: &Named, group: &QSet) -> Result<Vec<String>, AllocError>
    ensures { IfOk result (λ v. map string_bytes v.items
        ≡ map (λ i. quoted (slice_index_or named.now.names i (codes "?"))) group.now) }
{
    let members = group.members();
    let mut names = Vec::with_capacity(alloc, members.len())?;
    for voter in members.as_slice() {
        names.push(quoted(alloc, name_of(named, *voter))?)?;
    }
    Ok(names)
}

/// Returns the names of a group of voters.
fn names_text(alloc: Global, named: &Named, group: &QSet) -> Result<String, AllocError>
    ensures { IfOk result (λ json. string_bytes json ≡ names_text named.now group.now) }
{
    let names = names_of(alloc, named, group)?;
    list_text(alloc, names.as_slice())
}

/// Returns a load and its bound.
fn loads_text(alloc: Global, loads: Loads) -> Result<String, AllocError>
    ensures { IfOk result (λ json. string_bytes json ≡ left_text (Some loads)) }
{
    let mut members = Vec::new(alloc);
    members.push(Member::of("load", fraction_text(alloc, loads.load)?))?;
    members.push(Member::of("bound", fraction_text(alloc, loads.bound)?))?;
    object_text(alloc, members.as_slice())
}

/// Returns what is left when a group fails: a load and its bound, or null if no quorum is left.
fn left_text(alloc: Global, left: Option<Loads>) -> Result<String, AllocError>
    ensures { IfOk result (λ json. string_bytes json ≡ left_text left) }
{
    match left {
        None => String::from_str(alloc, "null"),
        Some(loads) => loads_text(alloc, loads),
    }
}

/// Returns what the failure of a group does.
fn loss_text(alloc: Global, named: &Named, loss: &Loss) -> Result<String, AllocError>
    ensures { IfOk result (λ json. string_bytes json ≡ loss_text named.now loss.now) }
{
    let mut members = Vec::new(alloc);
    members.push(Member::of("voters", names_text(alloc, named, &loss.group)?))?;
    members.push(Member::of("left", left_text(alloc, loss.left)?))?;
    object_text(alloc, members.as_slice())
}

/// Returns what the failure of each of these groups does.
fn loss_texts(alloc: Global, named: &Named, losses: &[Loss]) -> Result<Vec<String>, AllocError>
    ensures { IfOk result (λ v. map string_bytes v.items ≡ map (loss_text named.now) losses.now) }
{
    let mut texts = Vec::with_capacity(alloc, losses.len())?;
    for loss in losses {
        texts.push(loss_text(alloc, named, loss)?)?;
    }
    Ok(texts)
}

/// Returns a list of what the failure of each of these groups does.
fn losses_text(alloc: Global, named: &Named, losses: &[Loss]) -> Result<String, AllocError>
    ensures { IfOk result (λ json. string_bytes json ≡ list_text (map (loss_text named.now) losses.now)) }
{
    let texts = loss_texts(alloc, named, losses)?;
    list_text(alloc, texts.as_slice())
}

/// Returns the worst load when one voter is down, or null if there is none.
fn one_down_text(alloc: Global, one_down: OneDown) -> Result<String, AllocError>
    ensures { IfOk result (λ json. string_bytes json ≡ one_down_text one_down) }
{
    match one_down {
        OneDown::Load(load) => fraction_text(alloc, load),
        OneDown::NoQuorum | OneDown::NoTicket => String::from_str(alloc, "null"),
    }
}

/// Returns whether each voter's loss that leaves a quorum leaves a ticket.
fn keeps_text(alloc: Global, one_down: OneDown) -> Result<String, AllocError>
    ensures { IfOk result (λ json. string_bytes json ≡ keeps_text one_down) }
{
    match one_down {
        OneDown::NoTicket => truth_text(alloc, false),
        OneDown::NoQuorum | OneDown::Load(_) => truth_text(alloc, true),
    }
}

/// Returns the figures of a candidate.
fn coterie_members(alloc: Global, entry: &Entry) -> Result<Vec<Member>, AllocError>
    ensures { IfOk result (λ v. map member_of v.items ≡ coterie_members (shown entry.now)) }
{
    let named = &entry.candidate.named;
    let compared = &entry.compared;
    let name = quoted(alloc, entry.candidate.name.as_str())?;
    let smallest = number_text(alloc, compared.smallest as u64)?;
    let largest = number_text(alloc, compared.largest as u64)?;
    let one_down = one_down_text(alloc, compared.one_down)?;
    let keeps_tickets = keeps_text(alloc, compared.one_down)?;
    let borne = number_text(alloc, compared.borne.borne as u64)?;
    let losses = losses_text(alloc, named, compared.losses.as_slice())?;
    let mut members = Vec::new(alloc);
    members.push(Member::of("name", name))?;
    members.push(Member::of("voters", number_text(alloc, compared.voters as u64)?))?;
    members.push(Member::of("quorums", number_text(alloc, compared.quorums as u64)?))?;
    members.push(Member::of("smallest_quorum", smallest))?;
    members.push(Member::of("largest_quorum", largest))?;
    members.push(Member::of("load", fraction_text(alloc, compared.loads.load)?))?;
    members.push(Member::of("bound", fraction_text(alloc, compared.loads.bound)?))?;
    members.push(Member::of("load_one_down", one_down))?;
    members.push(Member::of("keeps_tickets_one_down", keeps_tickets))?;
    members.push(Member::of("failures_borne", borne))?;
    members.push(Member::of("is_exact", truth_text(alloc, compared.borne.is_smallest)?))?;
    members.push(Member::of("losses", losses))?;
    Ok(members)
}

/// Returns the figures of a candidate as JSON.
fn coterie_text(alloc: Global, entry: &Entry) -> Result<String, AllocError>
    ensures { IfOk result (λ json. string_bytes json ≡ coterie_text (shown entry.now)) }
{
    let members = coterie_members(alloc, entry)?;
    object_text(alloc, members.as_slice())
}

/// Returns the figures of candidates, each as JSON.
fn coterie_texts(alloc: Global, entries: &[Entry]) -> Result<Vec<String>, AllocError>
    ensures { IfOk result (λ v. map string_bytes v.items ≡ map (λ e. coterie_text (shown e)) entries.now) }
{
    let mut texts = Vec::with_capacity(alloc, entries.len())?;
    for entry in entries {
        texts.push(coterie_text(alloc, entry)?)?;
    }
    Ok(texts)
}

/// Returns a page with this list of coteries.
fn page_text(alloc: Global, coteries: String) -> Result<String, AllocError>
    ensures { IfOk result (λ page. string_bytes page
        ≡ object_text ((codes "coteries", string_bytes coteries) ∷ []) ++ 10 ∷ []) }
{
    let mut members = Vec::new(alloc);
    members.push(Member::of("coteries", coteries))?;
    let object = object_text(alloc, members.as_slice())?;
    let page = format!(in alloc; "{object}\n")?;
    Ok(page)
}

/// Returns the figures of these coteries as one line of JSON, in their order. Fails only if it runs out
/// of memory.
pub fn compare_json(alloc: Global, candidates: &[Candidate]) -> Result<String, AllocError>
    ensures { IfOk result (λ page. IsCompareJson candidates.now (string_bytes page)) }
{
    let entries = entries_of(alloc, candidates)?;
    let texts = coterie_texts(alloc, entries.as_slice())?;
    let coteries = list_text(alloc, texts.as_slice())?;
    let page = page_text(alloc, coteries)?;
    Ok(page)
}
