//! Tables for people: lines of cells, in columns that are as wide as their widest cell.
ghost use Rattle.std.specs.Prelude.{◌≡◌, ◌++◌, codes, map, replicate, IfOk, OnOk, string_bytes};
ghost use Rattle.std.specs.List.{flat_map};
ghost use Rattle.show_tables.specs.Cells.{cell_text};
ghost use Rattle.show_tables.specs.Words.{AddsLine, AddsLines, IsWordsTable, line_text, spaced, spaced_text, titles_of};

use crate::cell::{Cell, cell_text};
use crate::table::{Column, Side, Table};
use std::alloc::{AllocError, Global};
use unicode_width::UnicodeWidthStr;

/// A text in a line, and how many spaces are before it.
#[derive(Clone, Copy)]
struct Placed<'a> {
    spaces: usize,
    text: &'a str,
}

/// Returns the texts of a row.
fn texts_of_row(alloc: Global, row: &[Cell]) -> Result<Vec<String>, AllocError>
    ensures { IfOk result (λ texts. map string_bytes texts.items ≡ map cell_text row.now) }
{
    let mut texts = Vec::with_capacity(alloc, row.len())?;
    for cell in row {
        texts.push(cell_text(alloc, cell)?)?;
    }
    Ok(texts)
}

/// Returns the titles of columns.
fn titles_of(alloc: Global, columns: &[Column]) -> Result<Vec<String>, AllocError>
    ensures { IfOk result (λ texts. map string_bytes texts.items ≡ titles_of columns.now) }
{
    let mut titles = Vec::with_capacity(alloc, columns.len())?;
    for column in columns {
        titles.push(String::from_str(alloc, column.title.as_str())?)?;
    }
    Ok(titles)
}

/// Makes the columns at least as wide as these texts.
fn widen(widths: &mut [usize], texts: &[String]) {
    for (column, text) in texts.iter().enumerate() {
        if column < widths.len() {
            widths[column] = widths[column].max(text.as_str().width());
        }
    }
}

/// Returns how wide the columns of a table are. The last one is not counted if its cells are to the left:
/// nothing follows them.
fn widths_of(alloc: Global, table: &Table, titles: &[String]) -> Result<Vec<usize>, AllocError> {
    let mut widths = Vec::with_capacity(alloc, table.columns.len())?;
    for column in &table.columns {
        widths.push(column.least)?;
    }
    widen(widths.as_mut_slice(), titles);
    for row in &table.rows {
        let texts = texts_of_row(alloc, row.as_slice())?;
        widen(widths.as_mut_slice(), texts.as_slice());
    }
    Ok(widths)
}

/// Returns how many spaces a column of this width has beside a text.
fn room_beside(text: &str, column: usize, widths: &[usize]) -> usize {
    match widths.get(column) {
        Some(width) => width.saturating_sub(text.width()),
        None => 0,
    }
}

/// Returns whether the cells of a column are to the right.
fn is_right(columns: &[Column], column: usize) -> bool {
    match columns.get(column) {
        Some(column) => matches!(column.side, Side::Right),
        None => false,
    }
}

/// Returns these texts with the spaces before them.
fn placed_texts<'a>(
    alloc: Global,
    columns: &[Column],
    widths: &[usize],
    texts: &'a [String],
) -> Result<Vec<Placed<'a>>, AllocError>
    ensures { IfOk result (λ placed. map (λ p. p.text.now) placed.items ≡ map string_bytes texts.now) }
{
    let mut placed = Vec::with_capacity(alloc, texts.len())?;
    let mut behind = 0;
    for (column, text) in texts.iter().enumerate() {
        let text = text.as_str();
        let room = room_beside(text, column, widths);
        let is_right = is_right(columns, column);
        let before: usize = if is_right { room } else { 0 };
        placed.push(Placed {
            spaces: before.saturating_add(behind),
            text,
        })?;
        behind = room - before.min(room);
    }
    Ok(placed)
}

/// Appends this many spaces.
fn push_spaces(text: &mut String, count: usize) -> Result<(), AllocError>
    ensures { OnOk result (string_bytes text.new ≡ string_bytes text.old ++ replicate count 32) }
{
    for _ in 0..count {
        text.push(' ')?;
    }
    Ok(())
}

/// Appends a text with the spaces before it.
fn push_placed(text: &mut String, placed: Placed) -> Result<(), AllocError>
    ensures { OnOk result (string_bytes text.new ≡ string_bytes text.old ++ spaced_text (spaced placed.entry)) }
{
    push_spaces(text, placed.spaces)?;
    text.push_str(placed.text)
}

/// Appends texts, each with two spaces before those before it.
fn push_others(text: &mut String, others: &[Placed]) -> Result<(), AllocError>
    ensures { OnOk result (string_bytes text.new
        ≡ string_bytes text.old ++ flat_map (λ s. codes "  " ++ spaced_text s) (map spaced others.now)) }
{
    for placed in others {
        text.push_str("  ")?;
        push_placed(text, *placed)?;
    }
    Ok(())
}

/// Appends a line of these texts.
fn push_placed_line(text: &mut String, line: &[Placed]) -> Result<(), AllocError>
    ensures { OnOk result (string_bytes text.new
        ≡ string_bytes text.old ++ line_text (map spaced line.now)) }
{
    let Some((first, others)) = line.split_first() else {
        return text.push('\n');
    };
    push_placed(text, *first)?;
    push_others(text, others)?;
    text.push('\n')
}

/// Appends the line of these texts.
fn push_line(
    alloc: Global,
    text: &mut String,
    columns: &[Column],
    widths: &[usize],
    texts: &[String],
) -> Result<(), AllocError>
    ensures { OnOk result (AddsLine (map string_bytes texts.now) (string_bytes text.old) (string_bytes text.new)) }
{
    let placed = placed_texts(alloc, columns, widths, texts)?;
    push_placed_line(text, placed.as_slice())
}

/// Appends the lines of these rows.
fn push_rows(
    alloc: Global,
    text: &mut String,
    table: &Table,
    widths: &[usize],
) -> Result<(), AllocError>
    ensures { OnOk result (AddsLines (map (λ row. map cell_text row.items) table.now.rows.items)
        (string_bytes text.old) (string_bytes text.new)) }
{
    for row in &table.rows {
        let texts = texts_of_row(alloc, row.as_slice())?;
        push_line(alloc, text, &table.columns, widths, texts.as_slice())?;
    }
    Ok(())
}

/// Returns a table in words. Its columns are as wide as their widest cell. Fails only if it runs out of
/// memory.
pub fn words_table(alloc: Global, table: &Table) -> Result<String, AllocError>
    ensures { IfOk result (λ text. IsWordsTable table.now (string_bytes text)) }
{
    let titles = titles_of(alloc, &table.columns)?;
    let widths = widths_of(alloc, table, &titles)?;
    let mut text = String::new(alloc);
    push_line(alloc, &mut text, &table.columns, &widths, &titles)?;
    push_rows(alloc, &mut text, table, &widths)?;
    Ok(text)
}
