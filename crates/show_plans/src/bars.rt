//! A bar for each voter, and the line below which no load is.
use crate::columns::Columns;
use certificate::Weights;
use coterie_file::Named;
use quorum_set::are_unit;
use show_figures::{Loads, VoterFigure, loads_of_weights, name_of, parts_above, share};
use show_svg::{
    Area, Point, close_group, close_text, close_title, line, open_text, open_titled, push_escaped,
    rect,
};
use show_words::{push_mark, push_percent, push_quotient, push_tenths};
use std::alloc::AllocError;

/// How high the room for the bars is.
pub const ROOM: u64 = 160;

/// How wide a column is at least so that its bar is labelled.
const LABELLED: u64 = 42;

/// How wide it is at least so that there is room for a sign behind the label.
const ROOMY: u64 = 60;

/// Of how many parts a bound is made, to which a load is compared.
const PARTS: u64 = 100_000;

/// An axis for shares of the whole.
#[derive(Clone, Copy)]
struct Axis {
    /// How high a bar of the whole would be.
    whole: u64,
    /// The share at the upper end, in thousandths.
    end: u64,
}

/// The axes, the one with the lowest bars first.
const AXES: [Axis; 7] = [
    Axis {
        whole: 160,
        end: 1_000,
    },
    Axis {
        whole: 320,
        end: 500,
    },
    Axis {
        whole: 800,
        end: 200,
    },
    Axis {
        whole: 1_600,
        end: 100,
    },
    Axis {
        whole: 3_200,
        end: 50,
    },
    Axis {
        whole: 8_000,
        end: 20,
    },
    Axis {
        whole: 16_000,
        end: 10,
    },
];

/// The bars of a plan or of other weights.
#[derive(Clone, Copy)]
pub struct Bars {
    /// How far the lower ends of the bars are from the upper edge.
    base: u64,
    /// The axis.
    axis: Axis,
    /// How many tickets a cycle has.
    len: u64,
    /// Whether all capacities are 1.
    unit: bool,
    /// The greatest ratio of uses to capacity, of the busiest voter.
    ratio: (u64, u64),
}

/// Returns how high a bar of this part is, if one of the whole has the full height.
fn height(part: u64, whole: u64, full: u64) -> u64 {
    share(part, whole, full.min(u64::from(u16::MAX)))
}

/// Returns the axis for a load: of those with room for its bar the one with the highest bars.
fn axis_for(part: u64, whole: u64) -> Axis {
    let mut best = AXES[0];
    for axis in AXES {
        if height(part, whole, axis.whole) <= ROOM {
            best = axis;
        }
    }
    best
}

/// Returns the axis of weights: for their load, or for parts of the busiest voter if some capacity is
/// not 1.
fn axis_of(weights: &Weights) -> Axis {
    if are_unit(weights.capacities()) {
        let (part, whole) = weights.load();
        axis_for(part, whole)
    } else {
        axis_for(1, 1)
    }
}

/// Appends the load, and how far it is above the bound at most. Appends nothing if it is the bound.
fn push_load(out: &mut String, loads: Loads) -> Result<(), AllocError> {
    if loads.load == loads.bound {
        return Ok(());
    }
    let (part, whole) = loads.load;
    write!(out, "; these weights have {part}/{whole}")?;
    push_mark(out, loads)
}

impl Bars {
    /// Returns the bars of weights, with their lower ends at this height.
    pub fn of(weights: &Weights, base: u64) -> Bars {
        Bars {
            base,
            axis: axis_of(weights),
            len: weights.cycle_len(),
            unit: are_unit(weights.capacities()),
            ratio: weights.ratio(),
        }
    }

    /// Returns how high the bar of a voter is: a part and the whole of the axis.
    fn part(&self, figure: VoterFigure) -> (u64, u64) {
        if self.unit {
            return (figure.count, self.len);
        }
        let part = figure.count.saturating_mul(self.ratio.1);
        (part, figure.capacity.saturating_mul(self.ratio.0))
    }

    /// Returns how far the upper end of a bar of this part is from the upper edge.
    fn top(&self, part: u64, whole: u64) -> u64 {
        self.base
            .saturating_sub(height(part, whole, self.axis.whole))
    }

    /// Appends a line of the axis with its share, in thousandths.
    fn push_mark(&self, out: &mut String, columns: &Columns, share: u64) -> Result<(), AllocError> {
        let y = self.top(share, 1_000);
        let left = columns.left();
        let from = Point::at(left, y);
        line(
            out,
            from,
            Point::at(columns.right(), y),
            "stroke=\"#cccccc\"",
        )?;
        let place = Point::at(left.saturating_sub(6), y.saturating_add(4));
        open_text(out, place, "text-anchor=\"end\" fill=\"#555555\"")?;
        push_percent(out, share, 1_000)?;
        close_text(out)
    }

    /// Appends the axis.
    pub fn push_axis(&self, out: &mut String, columns: &Columns) -> Result<(), AllocError> {
        self.push_mark(out, columns, 0)?;
        self.push_mark(out, columns, self.axis.end / 2)?;
        self.push_mark(out, columns, self.axis.end)
    }

    /// Appends a voter's share of the requests in percent, in its bar, if there is room.
    fn push_label(
        &self,
        out: &mut String,
        columns: &Columns,
        figure: VoterFigure,
        top: u64,
    ) -> Result<(), AllocError> {
        if columns.width < LABELLED || top.saturating_add(16) > self.base {
            return Ok(());
        }
        let place = Point::at(columns.middle(figure.voter), top.saturating_add(13));
        open_text(
            out,
            place,
            "text-anchor=\"middle\" font-size=\"10\" fill=\"#ffffff\"",
        )?;
        push_tenths(out, figure.count.saturating_mul(100), self.len)?;
        if columns.width >= ROOMY {
            out.push_str(" %")?;
        }
        close_text(out)
    }

    /// Appends the bar of a voter.
    fn push_bar(
        &self,
        out: &mut String,
        columns: &Columns,
        figure: VoterFigure,
    ) -> Result<(), AllocError> {
        let (part, whole) = self.part(figure);
        let top = self.top(part, whole);
        let gap = columns.width / 6;
        let area = Area {
            x: columns.start(figure.voter).saturating_add(gap),
            y: top,
            width: columns.width.saturating_sub(gap.saturating_mul(2)),
            height: self.base.saturating_sub(top),
        };
        rect(out, area, "fill=\"#4c78a8\"")?;
        self.push_label(out, columns, figure, top)
    }

    /// Appends how busy a voter is for its capacity, if some capacity is not 1.
    fn push_busy(&self, out: &mut String, figure: VoterFigure) -> Result<(), AllocError> {
        if self.unit {
            return Ok(());
        }
        let capacity = figure.capacity;
        let (part, whole) = self.part(figure);
        write!(out, "; capacity {capacity}, ")?;
        push_percent(out, part, whole)?;
        out.push_str(" as busy as the busiest voter")
    }

    /// Appends the bar of a voter with its title.
    fn push_voter(
        &self,
        out: &mut String,
        named: &Named,
        columns: &Columns,
        figure: VoterFigure,
    ) -> Result<(), AllocError> {
        let VoterFigure { voter, count, .. } = figure;
        let len = self.len;
        open_titled(out)?;
        push_escaped(out, name_of(named, voter))?;
        write!(out, ": used {count} times by a cycle of {len},")?;
        push_percent(out, count, len)?;
        out.push_str(" of the requests")?;
        self.push_busy(out, figure)?;
        close_title(out)?;
        self.push_bar(out, columns, figure)?;
        close_group(out)
    }

    /// Appends a bar for each voter.
    pub fn push_voters(
        &self,
        out: &mut String,
        named: &Named,
        columns: &Columns,
        voters: &[VoterFigure],
    ) -> Result<(), AllocError> {
        for figure in voters {
            self.push_voter(out, named, columns, *figure)?;
        }
        Ok(())
    }

    /// Returns how far the line below which no load is is from the upper edge. If some capacity is not 1,
    /// the axis is for parts of the load.
    fn limit(&self, loads: Loads) -> u64 {
        if self.unit {
            let (part, whole) = loads.bound;
            return self.top(part, whole);
        }
        let above = parts_above(loads.load, loads.bound, PARTS).min(u128::from(u32::MAX)) as u64;
        self.top(PARTS, above.saturating_add(PARTS))
    }

    /// Appends the bound below which no load is, in percent or with its throughput, and how far the load
    /// is above it at most.
    fn push_bound(&self, out: &mut String, loads: Loads) -> Result<(), AllocError> {
        let (part, whole) = loads.bound;
        write!(out, "no plan is below {part}/{whole}")?;
        if self.unit {
            out.push_str(",")?;
            push_percent(out, part, whole)?;
        } else {
            out.push_str(": throughput ")?;
            push_quotient(out, whole, part)?;
        }
        push_load(out, loads)
    }

    /// Appends the line at the bound, below which no load is.
    pub fn push_limit(
        &self,
        out: &mut String,
        columns: &Columns,
        weights: &Weights,
    ) -> Result<(), AllocError> {
        let loads = loads_of_weights(weights);
        let y = self.limit(loads);
        let left = columns.left();
        let to = Point::at(columns.right().saturating_add(8), y);
        line(
            out,
            Point::at(left, y),
            to,
            "stroke=\"#b22222\" stroke-width=\"2\" stroke-dasharray=\"6 3\"",
        )?;
        let place = Point::at(left.saturating_add(4), y.saturating_sub(5));
        open_text(out, place, "fill=\"#b22222\" font-weight=\"bold\"")?;
        self.push_bound(out, loads)?;
        close_text(out)
    }
}
