//! The table of losses: a row for each group of voters that may fail.
ghost use Rattle.std.specs.Prelude.{◌≡◌, ◌∷◌, [], IfOk, OnOk, codes, map, slice_index_or, string_bytes, true};
ghost use Rattle.std.specs.List.{AllByRecursion};
ghost use Rattle.show_compare.specs.Compare.{HasGroups, HasGroupsOf, Keeps, group_text, has_groups, has_text, left_text, loss_text, loss_title, shown};
ghost use Rattle.show_tables.specs.Cells.{cell_text};
ghost use Rattle.show_tables.specs.Words.{AddsLines, titles_of};

use crate::entries::Entry;
use coterie_file::Named;
use quorum_set::QSet;
use show_figures::{Comparison, Loads, Loss, name_of};
use show_tables::{Cell, Column, Table, words_table};
use std::alloc::{AllocError, Global};

/// How wide a column of percents is at least.
const PERCENT: usize = 7;

/// Returns the names of a group of voters.
fn names_of<'a>(alloc: Global, named: &'a Named, group: &QSet) -> Result<Vec<&'a str>, AllocError>
    ensures { IfOk result (λ v. map (λ n. n.now) v.items
        ≡ map (λ i. slice_index_or named.now.names i (codes "?")) group.now) }
{
    let members = group.members();
    let mut names = Vec::with_capacity(alloc, members.len())?;
    for voter in members.as_slice() {
        names.push(name_of(named, *voter))?;
    }
    Ok(names)
}

/// Returns the names of a group of voters in a line.
fn group_text(alloc: Global, named: &Named, group: &QSet) -> Result<String, AllocError>
    ensures { IfOk result (λ text. string_bytes text ≡ group_text named.now group.now) }
{
    names_of(alloc, named, group)?.join(alloc, " ")
}

/// Returns whether the losses of these figures are shown: there are several groups, and one has
/// several voters.
fn has_groups(compared: &Comparison) -> bool
    ensures { result ≡ has_groups compared.now }
{
    compared.losses.len() > 1 && compared.losses.len() < compared.voters
}

/// Returns whether one of these texts is this one.
fn has_text(texts: &[String], text: &str) -> bool
    ensures { result ≡ has_text (map string_bytes texts.now) text.now }
{
    for other in texts {
        if other.as_str() == text {
            return true;
        }
    }
    false
}

/// Returns what is left when a group fails: a load or a throughput, or that no quorum is left. One of
/// weights near the best says how near they are.
fn loss_cell(alloc: Global, left: Option<Loads>, is_throughput: bool) -> Result<Cell, AllocError>
    ensures { IfOk result (λ cell. cell_text cell ≡ loss_text is_throughput left) }
{
    match left {
        None => Cell::words(alloc, "none left"),
        Some(loads) if is_throughput => Ok(Cell::Throughput(loads.load, loads.bound)),
        Some(loads) => Ok(Cell::Load(loads.load, loads.bound)),
    }
}

/// Returns what is left of a coterie when the group with these names fails, or `-` if it has no such group.
fn left_cell(
    alloc: Global,
    named: &Named,
    losses: &[Loss],
    group: &str,
    is_throughput: bool,
) -> Result<Cell, AllocError>
    ensures { IfOk result (λ cell. cell_text cell ≡ left_text is_throughput named.now group.now losses.now) }
{
    for loss in losses {
        let text = group_text(alloc, named, &loss.group)?;
        if text.as_str() == group {
            return loss_cell(alloc, loss.left, is_throughput);
        }
    }
    Cell::words(alloc, "-")
}

/// Adds a group's names, if they are not there yet.
fn add_group(groups: &mut Vec<String>, text: String) -> Result<(), AllocError>
    ensures added { OnOk result (has_text (map string_bytes groups.new.items) (string_bytes text) ≡ true) }
    ensures kept { OnOk result (Keeps (map string_bytes groups.old.items) (map string_bytes groups.new.items)) }
{
    if has_text(groups.as_slice(), text.as_str()) {
        return Ok(());
    }
    groups.push(text)?;
    Ok(())
}

/// Adds the groups of these losses that are not there yet.
fn add_losses(
    alloc: Global,
    groups: &mut Vec<String>,
    named: &Named,
    losses: &[Loss],
) -> Result<(), AllocError>
    ensures added { OnOk result (HasGroups (map string_bytes groups.new.items) named.now losses.now) }
    ensures kept { OnOk result (Keeps (map string_bytes groups.old.items) (map string_bytes groups.new.items)) }
{
    for loss in losses {
        let text = group_text(alloc, named, &loss.group)?;
        add_group(groups, text)?;
    }
    Ok(())
}

/// Adds the groups of a coterie that are not there yet, if its losses are shown.
fn add_groups(alloc: Global, groups: &mut Vec<String>, entry: &Entry) -> Result<(), AllocError>
    ensures added { OnOk result (HasGroupsOf (map string_bytes groups.new.items) (shown entry.now)) }
    ensures kept { OnOk result (Keeps (map string_bytes groups.old.items) (map string_bytes groups.new.items)) }
{
    if !has_groups(&entry.compared) {
        return Ok(());
    }
    add_losses(
        alloc,
        groups,
        &entry.candidate.named,
        entry.compared.losses.as_slice(),
    )
}

/// Returns the names of the voters of each group of the candidates whose losses are shown. Of groups
/// with the same names there is one.
pub(crate) fn groups_of_entries(alloc: Global, entries: &[Entry]) -> Result<Vec<String>, AllocError>
    ensures { IfOk result (λ v. AllByRecursion (λ e. HasGroupsOf (map string_bytes v.items) (shown e)) entries.now) }
{
    let mut groups = Vec::new(alloc);
    for entry in entries {
        add_groups(alloc, &mut groups, entry)?;
    }
    Ok(groups)
}

/// Returns the row of a group.
fn loss_cells(
    alloc: Global,
    entries: &[Entry],
    group: &str,
    is_throughput: bool,
) -> Result<Vec<Cell>, AllocError>
    ensures { IfOk result (λ cells. map cell_text cells.items
        ≡ group.now ∷ map (λ e. left_text is_throughput e.candidate.now.named group.now e.compared.losses.items) entries.now) }
{
    let mut cells = Vec::with_capacity(alloc, entries.len().saturating_add(1))?;
    cells.push(Cell::words(alloc, group)?)?;
    for entry in entries {
        let named = &entry.candidate.named;
        let losses = entry.compared.losses.as_slice();
        cells.push(left_cell(alloc, named, losses, group, is_throughput)?)?;
    }
    Ok(cells)
}

/// Returns the rows of groups.
fn loss_rows(
    alloc: Global,
    entries: &[Entry],
    groups: &[String],
    is_throughput: bool,
) -> Result<Vec<Vec<Cell>>, AllocError>
    ensures { IfOk result (λ rows. map (λ row. map cell_text row.items) rows.items
        ≡ map (λ g. string_bytes g ∷ map (λ e. left_text is_throughput e.candidate.now.named (string_bytes g) e.compared.losses.items) entries.now) groups.now) }
{
    let mut rows = Vec::with_capacity(alloc, groups.len())?;
    for group in groups {
        rows.push(loss_cells(alloc, entries, group.as_str(), is_throughput)?)?;
    }
    Ok(rows)
}

/// Returns what is left of coteries, as a title.
fn loss_title(is_throughput: bool) -> &'static str
    ensures { result.now ≡ loss_title is_throughput }
{
    if is_throughput {
        "throughput without"
    } else {
        "load without"
    }
}

/// Returns the columns: one for the groups, and one for each coterie.
fn loss_columns(
    alloc: Global,
    entries: &[Entry],
    is_throughput: bool,
) -> Result<Vec<Column>, AllocError>
    ensures { IfOk result (λ columns. titles_of columns.items
        ≡ loss_title is_throughput ∷ map (λ e. string_bytes e.candidate.now.name) entries.now) }
{
    let mut columns = Vec::with_capacity(alloc, entries.len().saturating_add(1))?;
    let least = if is_throughput { 0 } else { PERCENT };
    columns.push(Column::left(alloc, loss_title(is_throughput))?)?;
    for entry in entries {
        columns.push(Column::right(alloc, entry.candidate.name.as_str(), least)?)?;
    }
    Ok(columns)
}

/// Returns the table of what is left when one of these groups fails.
pub(crate) fn losses_table(
    alloc: Global,
    entries: &[Entry],
    groups: &[String],
    is_throughput: bool,
) -> Result<String, AllocError>
    ensures { IfOk result (λ text. AddsLines
        ((loss_title is_throughput ∷ map (λ e. string_bytes e.candidate.now.name) entries.now)
        ∷ map (λ g. string_bytes g ∷ map (λ e. left_text is_throughput e.candidate.now.named (string_bytes g) e.compared.losses.items) entries.now) groups.now)
        [] (string_bytes text)) }
{
    let table = Table {
        columns: loss_columns(alloc, entries, is_throughput)?,
        rows: loss_rows(alloc, entries, groups, is_throughput)?,
    };
    words_table(alloc, &table)
}
