//! The table of figures: a row for each coterie.
ghost use Rattle.std.specs.Prelude.{◌≡◌, ◌∷◌, [], IfOk, map, string_bytes};
ghost use Rattle.show_compare.specs.Compare.{borne_text, figure_text, figure_texts, figure_title, figure_titles, one_down_text, shown, worst_title};
ghost use Rattle.show_tables.specs.Cells.{cell_text};
ghost use Rattle.show_tables.specs.Words.{AddsLines, titles_of};

use crate::entries::Entry;
use losses::OneDown;
use show_failures::Resilience;
use show_tables::{Cell, Column, Table, words_table};
use std::alloc::{AllocError, Global};

/// How wide a column of percents is at least.
const PERCENT: usize = 7;

/// Returns how many voters may fail. If the search did not end, this is an upper bound.
fn borne_cell(borne: &Resilience) -> Cell
    ensures { cell_text result ≡ borne_text borne.now }
{
    let count = borne.borne as u64;
    if borne.is_smallest {
        Cell::Count(count)
    } else {
        Cell::AtMost(count)
    }
}

/// Returns a load in percent, or the throughput in its place: 1 divided by the load.
fn load_cell(load: (u64, u64), is_throughput: bool) -> Cell
    ensures { cell_text result ≡ figure_text is_throughput load }
{
    if is_throughput {
        Cell::Tenths(load)
    } else {
        Cell::Percent(load)
    }
}

/// Returns the worst load when one voter is down, or the throughput in its place.
fn one_down_cell(alloc: Global, one_down: OneDown, is_throughput: bool) -> Result<Cell, AllocError>
    ensures { IfOk result (λ cell. cell_text cell ≡ one_down_text is_throughput one_down) }
{
    match one_down {
        OneDown::NoQuorum => Cell::words(alloc, "none left"),
        OneDown::NoTicket => Cell::words(alloc, "no ticket"),
        OneDown::Load(load) => Ok(load_cell(load, is_throughput)),
    }
}

/// Returns the row of a coterie.
fn figure_cells(alloc: Global, entry: &Entry, is_throughput: bool) -> Result<Vec<Cell>, AllocError>
    ensures { IfOk result (λ cells. map cell_text cells.items ≡ figure_texts is_throughput (shown entry.now)) }
{
    let compared = &entry.compared;
    let loads = compared.loads;
    let mut cells = Vec::new(alloc);
    cells.push(Cell::words(alloc, entry.candidate.name.as_str())?)?;
    cells.push(Cell::Count(compared.voters as u64))?;
    cells.push(Cell::Count(compared.quorums as u64))?;
    cells.push(Cell::Span(compared.smallest as u64, compared.largest as u64))?;
    cells.push(borne_cell(&compared.borne))?;
    cells.push(load_cell(loads.load, is_throughput))?;
    cells.push(one_down_cell(alloc, compared.one_down, is_throughput)?)?;
    cells.push(Cell::Exact(loads.load, loads.bound))?;
    Ok(cells)
}

/// Returns the rows of coteries.
fn figure_rows(
    alloc: Global,
    entries: &[Entry],
    is_throughput: bool,
) -> Result<Vec<Vec<Cell>>, AllocError>
    ensures { IfOk result (λ rows. map (λ row. map cell_text row.items) rows.items
        ≡ map (λ e. figure_texts is_throughput (shown e)) entries.now) }
{
    let mut rows = Vec::with_capacity(alloc, entries.len())?;
    for entry in entries {
        rows.push(figure_cells(alloc, entry, is_throughput)?)?;
    }
    Ok(rows)
}

/// Returns the title of the loads.
fn figure_title(is_throughput: bool) -> &'static str
    ensures { result.now ≡ figure_title is_throughput }
{
    if is_throughput { "throughput" } else { "load" }
}

/// Returns the title of the loads with one voter down.
fn worst_title(is_throughput: bool) -> &'static str
    ensures { result.now ≡ worst_title is_throughput }
{
    if is_throughput {
        "worst, one down"
    } else {
        "worst load, one down"
    }
}

/// Returns the columns.
fn figure_columns(alloc: Global, is_throughput: bool) -> Result<Vec<Column>, AllocError>
    ensures { IfOk result (λ columns. titles_of columns.items ≡ figure_titles is_throughput) }
{
    let mut columns = Vec::new(alloc);
    let least = if is_throughput { 0 } else { PERCENT };
    columns.push(Column::left(alloc, "coterie")?)?;
    columns.push(Column::right(alloc, "voters", 0)?)?;
    columns.push(Column::right(alloc, "quorums", 0)?)?;
    columns.push(Column::right(alloc, "members", 0)?)?;
    columns.push(Column::right(alloc, "may fail", 0)?)?;
    columns.push(Column::right(alloc, figure_title(is_throughput), least)?)?;
    columns.push(Column::right(alloc, worst_title(is_throughput), 0)?)?;
    columns.push(Column::left(alloc, "smallest load")?)?;
    Ok(columns)
}

/// Returns the table of the figures of these coteries.
pub(crate) fn figures_table(
    alloc: Global,
    entries: &[Entry],
    is_throughput: bool,
) -> Result<String, AllocError>
    ensures { IfOk result (λ text. AddsLines (figure_titles is_throughput ∷ map (λ e. figure_texts is_throughput (shown e)) entries.now)
        [] (string_bytes text)) }
{
    let table = Table {
        columns: figure_columns(alloc, is_throughput)?,
        rows: figure_rows(alloc, entries, is_throughput)?,
    };
    words_table(alloc, &table)
}
