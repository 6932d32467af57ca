//! What a cell of a table shows, and its text.
ghost use Rattle.std.specs.Prelude.{◌≡◌, ◌++◌, IfOk, OnOk, string_bytes};
ghost use Rattle.show_tables.specs.Cells.{above_text, cell_text, exact_text, load_text, percent_text, span_text, tenths_text, throughput_text};

use crate::shares::{parts_above, share, tenths};
use std::alloc::{AllocError, Global};

/// What a cell of a table shows. Fractions are a numerator and a denominator.
#[derive(Drop)]
pub enum Cell {
    /// A name, or other words.
    Words(String),
    /// A number.
    Count(u64),
    /// The smallest and the greatest of some numbers, or one number if both are the same.
    Span(u64, u64),
    /// A number that is not known exactly. It is at most this one.
    AtMost(u64),
    /// A load in percent, with one digit after the point.
    Percent((u64, u64)),
    /// The throughput of a load, with one digit after the point: 1 divided by the load.
    Tenths((u64, u64)),
    /// A load in percent and its bound. If the load is above the bound, the cell says how far at most.
    Load((u64, u64), (u64, u64)),
    /// The throughput of a load, and the load's bound. If the load is above the bound, the cell says how far
    /// the throughput is below the greatest at most.
    Throughput((u64, u64), (u64, u64)),
    /// A load as a fraction if it is its bound. Otherwise the cell says how far it is above at most.
    Exact((u64, u64), (u64, u64)),
}

impl Cell {
    /// Returns a cell with these words. Fails only if it runs out of memory.
    pub fn words(alloc: Global, words: &str) -> Result<Cell, AllocError>
        ensures { IfOk result (λ cell. cell_text cell ≡ words.now) }
    {
        Ok(Cell::Words(String::from_str(alloc, words)?))
    }
}

/// Appends the smallest and the greatest of some numbers.
fn push_span(text: &mut String, least: u64, most: u64) -> Result<(), AllocError>
    ensures { OnOk result (string_bytes text.new ≡ string_bytes text.old ++ span_text least most) }
{
    if least == most {
        write!(text, "{least}")
    } else {
        write!(text, "{least}-{most}")
    }
}

/// Appends a load in percent.
fn push_percent(text: &mut String, load: (u64, u64)) -> Result<(), AllocError>
    ensures { OnOk result (string_bytes text.new ≡ string_bytes text.old ++ percent_text load) }
{
    let tenths = share(load.0, load.1, 1_000);
    let ones = tenths / 10;
    let tenth = tenths % 10;
    write!(text, "{ones}.{tenth} %")
}

/// Appends the throughput of a load.
fn push_tenths(text: &mut String, load: (u64, u64)) -> Result<(), AllocError>
    ensures { OnOk result (string_bytes text.new ≡ string_bytes text.old ++ tenths_text load) }
{
    let tenths = tenths(load.1, load.0);
    let ones = tenths / 10;
    let tenth = tenths % 10;
    write!(text, "{ones}.{tenth}")
}

/// Appends how far a load is above its bound at most, in percent, rounded up to thousandths.
fn push_above(text: &mut String, load: (u64, u64), bound: (u64, u64)) -> Result<(), AllocError>
    ensures { OnOk result (string_bytes text.new ≡ string_bytes text.old ++ above_text load bound) }
{
    let thousandths = parts_above(load, bound, 100_000);
    let ones = thousandths / 1000;
    let first = thousandths / 100 % 10;
    let second = thousandths / 10 % 10;
    let third = thousandths % 10;
    write!(text, "at most {ones}.{first}{second}{third} %")
}

/// Appends a load in percent, and how far it is above its bound.
fn push_load(text: &mut String, load: (u64, u64), bound: (u64, u64)) -> Result<(), AllocError>
    ensures { OnOk result (string_bytes text.new ≡ string_bytes text.old ++ load_text load bound) }
{
    push_percent(text, load)?;
    if load == bound {
        return Ok(());
    }
    text.push_str(", ")?;
    push_above(text, load, bound)?;
    text.push_str(" above the smallest")
}

/// Appends the throughput of a load, and how far it is below the greatest.
fn push_throughput(text: &mut String, load: (u64, u64), bound: (u64, u64)) -> Result<(), AllocError>
    ensures { OnOk result (string_bytes text.new ≡ string_bytes text.old ++ throughput_text load bound) }
{
    push_tenths(text, load)?;
    if load == bound {
        return Ok(());
    }
    text.push_str(", ")?;
    push_above(text, load, bound)?;
    text.push_str(" below the greatest")
}

/// Appends a load as a fraction if it is its bound, and otherwise how far it is above.
fn push_exact(text: &mut String, load: (u64, u64), bound: (u64, u64)) -> Result<(), AllocError>
    ensures { OnOk result (string_bytes text.new ≡ string_bytes text.old ++ exact_text load bound) }
{
    if load == bound {
        let (part, whole) = load;
        return write!(text, "{part}/{whole}");
    }
    push_above(text, load, bound)?;
    text.push_str(" above the smallest")
}

/// Appends the text of a cell.
fn push_cell(text: &mut String, cell: &Cell) -> Result<(), AllocError>
    ensures { OnOk result (string_bytes text.new ≡ string_bytes text.old ++ cell_text cell.now) }
{
    match cell {
        Cell::Words(words) => text.push_str(words.as_str()),
        Cell::Count(count) => write!(text, "{count}"),
        Cell::Span(least, most) => push_span(text, *least, *most),
        Cell::AtMost(count) => write!(text, "<={count}"),
        Cell::Percent(load) => push_percent(text, *load),
        Cell::Tenths(load) => push_tenths(text, *load),
        Cell::Load(load, bound) => push_load(text, *load, *bound),
        Cell::Throughput(load, bound) => push_throughput(text, *load, *bound),
        Cell::Exact(load, bound) => push_exact(text, *load, *bound),
    }
}

/// Returns the text of a cell.
pub(crate) fn cell_text(alloc: Global, cell: &Cell) -> Result<String, AllocError>
    ensures { IfOk result (λ text. string_bytes text ≡ cell_text cell.now) }
{
    let mut text = String::new(alloc);
    push_cell(&mut text, cell)?;
    Ok(text)
}
