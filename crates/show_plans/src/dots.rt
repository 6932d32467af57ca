//! The quorums as a grid of dots: voters across, quorums down.
ghost use Rattle.std.specs.Prelude.{◌<◌, ◌≤◌, ◌+◌, ◌*◌, min};
ghost use Rattle.show_figures.specs.Shares.{share_of};

use crate::columns::Columns;
use certificate::Weights;
use coterie_file::Named;
use quorum_set::QSet;
use show_figures::{QuorumFigure, name_of, share};
use show_svg::{
    Point, circle, close_group, close_text, close_title, line, open_text, open_titled, push_escaped,
};
use std::alloc::AllocError;

/// How many quorums a picture has at most.
const ROWS: usize = 100;

/// How high a row is.
const ROW: u64 = 14;

/// The greatest radius of a dot, in tenths of a pixel.
const MOST: u64 = 60;

/// The least radius of a dot, in tenths of a pixel: a smaller one would not be seen.
const LEAST: u64 = 12;

/// The style of numbers beside a row.
const NUMBER: &str = "text-anchor=\"end\"";

/// The grid of dots.
#[derive(Clone, Copy)]
pub struct Dots {
    /// How far the first row is from the upper edge.
    top: u64,
    /// The greatest radius, in tenths of a pixel.
    greatest: u64,
    /// The greatest weight.
    most: u64,
    /// How many tickets a cycle has.
    len: u64,
}

/// Returns the radius of a dot, in tenths of a pixel. Its area is this part of the area with the greatest
/// radius, rounded down; no dot is smaller than `LEAST`.
fn radius(part: u64, whole: u64, greatest: u64) -> u64
    ensures seen { 12 ≤ result }
    ensures area { 12 < result → result * result ≤ share_of (min greatest 60 * min greatest 60) part whole }
    ensures nearest { share_of (min greatest 60 * min greatest 60) part whole < (result + 1) * (result + 1) }
{
    let greatest = greatest.min(MOST);
    share(part, whole, greatest * greatest).isqrt().max(LEAST)
}

/// Returns how many rows a picture of this many quorums has.
fn shown_rows(quorums: usize) -> u64 {
    quorums.min(ROWS) as u64
}

impl Dots {
    /// Returns the grid of the quorums that a cycle uses, the most used first, from this height on.
    pub fn of(weights: &Weights, columns: &Columns, quorums: &[QuorumFigure], top: u64) -> Dots {
        Dots {
            top,
            greatest: columns.width.min(12).saturating_mul(5).saturating_sub(2),
            most: quorums.first().map_or(1, |figure| figure.weight),
            len: weights.cycle_len(),
        }
    }

    /// Returns how far the middle of a row is from the upper edge.
    fn middle(&self, row: u64) -> u64 {
        row.saturating_mul(ROW)
            .saturating_add(self.top)
            .saturating_add(ROW / 2)
    }

    /// Returns how high a picture is that ends with the rows of this many quorums.
    pub fn foot(&self, quorums: usize) -> u64 {
        self.middle(shown_rows(quorums)).saturating_add(24)
    }

    /// Appends the dot of a voter in a row.
    fn push_dot(
        &self,
        out: &mut String,
        named: &Named,
        place: Point,
        figure: QuorumFigure,
        voter: u8,
    ) -> Result<(), AllocError> {
        let QuorumFigure { quorum, weight } = figure;
        let len = self.len;
        open_titled(out)?;
        push_escaped(out, name_of(named, voter))?;
        write!(out, " in quorum {quorum}, used {weight} of {len} times")?;
        close_title(out)?;
        let radius = radius(weight, self.most, self.greatest);
        circle(out, place, radius, "fill=\"#4c78a8\"")?;
        close_group(out)
    }

    /// Appends the dots of a row.
    fn push_members(
        &self,
        out: &mut String,
        named: &Named,
        columns: &Columns,
        y: u64,
        figure: QuorumFigure,
        set: &QSet,
    ) -> Result<(), AllocError> {
        let members = set.members();
        for voter in members.as_slice() {
            let place = Point::at(columns.middle(*voter), y);
            self.push_dot(out, named, place, figure, *voter)?;
        }
        Ok(())
    }

    /// Appends the numbers beside a row.
    fn push_numbers(
        &self,
        out: &mut String,
        columns: &Columns,
        y: u64,
        figure: QuorumFigure,
    ) -> Result<(), AllocError> {
        let QuorumFigure { quorum, weight } = figure;
        let len = self.len;
        let y = y.saturating_add(4);
        let before = Point::at(columns.left().saturating_sub(6), y);
        open_text(out, before, NUMBER)?;
        write!(out, "{quorum}")?;
        close_text(out)?;
        let after = Point::at(columns.right().saturating_add(8), y);
        open_text(out, after, "")?;
        write!(out, "{weight} of {len}")?;
        close_text(out)
    }

    /// Appends the row of a quorum.
    fn push_row(
        &self,
        out: &mut String,
        named: &Named,
        columns: &Columns,
        row: u64,
        figure: QuorumFigure,
    ) -> Result<(), AllocError> {
        let y = self.middle(row);
        let from = Point::at(columns.left(), y);
        line(
            out,
            from,
            Point::at(columns.right(), y),
            "stroke=\"#dddddd\"",
        )?;
        self.push_numbers(out, columns, y, figure)?;
        if figure.quorum < named.coterie().count() {
            let set = named.coterie().quorum(figure.quorum);
            self.push_members(out, named, columns, y, figure, set)?;
        }
        Ok(())
    }

    /// Appends the rows of the quorums, the most used first.
    pub fn push_rows(
        &self,
        out: &mut String,
        named: &Named,
        columns: &Columns,
        quorums: &[QuorumFigure],
    ) -> Result<(), AllocError> {
        for (row, figure) in quorums.iter().take(ROWS).enumerate() {
            self.push_row(out, named, columns, row as u64, *figure)?;
        }
        Ok(())
    }

    /// Appends what the numbers beside the rows are.
    pub fn push_heads(&self, out: &mut String, columns: &Columns) -> Result<(), AllocError> {
        let y = self.top.saturating_sub(4);
        let before = Point::at(columns.left().saturating_sub(6), y);
        open_text(out, before, "text-anchor=\"end\" fill=\"#555555\"")?;
        out.push_str("quorum")?;
        close_text(out)?;
        let after = Point::at(columns.right().saturating_add(8), y);
        open_text(out, after, "fill=\"#555555\"")?;
        out.push_str("requests")?;
        close_text(out)
    }

    /// Appends how many quorums have no row, if some have none.
    pub fn push_rest(
        &self,
        out: &mut String,
        columns: &Columns,
        quorums: usize,
    ) -> Result<(), AllocError> {
        let rest = quorums.saturating_sub(ROWS);
        if rest == 0 {
            return Ok(());
        }
        let y = self.middle(shown_rows(quorums)).saturating_add(6);
        open_text(out, Point::at(columns.left(), y), "font-style=\"italic\"")?;
        write!(out, "and {rest} more quorums")?;
        close_text(out)
    }
}
