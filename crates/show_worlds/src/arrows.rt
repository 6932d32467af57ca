//! The messages of a world: an arrow for each arrival, and a cross for each that never came.
use crate::chart::{Chart, ROW, arrival, shown_moments};
use crate::kinds::{Kind, arrow, kind_of, lost};
use coterie_file::Named;
use message::Message;
use show_svg::{Point, close_group, close_text, close_title, open_text, open_titled, push_escaped};
use show_words::push_message_words;
use std::alloc::{AllocError, Global};
use stories::{Moment, Story};

/// How far before its receiver's column the line of a message ends that never came.
const SHORT: u64 = 14;

/// How far down the line of a message begins that would else lie on the line of another one.
const SHIFT: u64 = 8;

/// The style of what is under a label, so that it can be read on a line.
const HALO: &str =
    "font-size=\"9\" stroke=\"#ffffff\" stroke-width=\"3\" stroke-linejoin=\"round\"";

/// Appends a label, on the right or on the left of a place.
fn push_label_once(
    out: &mut String,
    place: Point,
    style: &str,
    right: bool,
    (kind, number): (Kind, u64),
) -> Result<(), AllocError> {
    let y = place.y.saturating_add(3);
    if right {
        open_text(out, Point::at(place.x.saturating_add(8), y), style)?;
    } else {
        let x = place.x.saturating_sub(8);
        write!(
            out,
            "<text x=\"{x}\" y=\"{y}\" text-anchor=\"end\" {style}>"
        )?;
    }
    let word = kind.word();
    write!(out, "{word} {number}")?;
    close_text(out)
}

/// Appends the label of a message beyond the end of its line.
fn push_label(
    out: &mut String,
    from: Point,
    to: Point,
    message: &Message,
) -> Result<(), AllocError> {
    let right = from.x <= to.x;
    let label = kind_of(message);
    push_label_once(out, to, HALO, right, label)?;
    push_label_once(out, to, "font-size=\"9\"", right, label)
}

/// Begins the group of a message. Its title says what the message says and when it was sent.
fn open_message(
    alloc: Global,
    out: &mut String,
    named: &Named,
    number: usize,
    sender: u64,
    message: &Message,
) -> Result<(), AllocError> {
    let mut text = String::new(alloc);
    push_message_words(&mut text, named, message)?;
    open_titled(out)?;
    write!(out, "message {number}: ")?;
    push_escaped(out, &text)?;
    let step = sender.saturating_add(1);
    write!(out, "; sent in step {step}, ")
}

/// A message that came, and its line from where it was sent to where it came.
#[derive(Clone, Copy)]
struct Flight {
    /// Its number.
    number: usize,
    /// The row in which it came.
    row: u64,
    message: Message,
    from: Point,
    to: Point,
}

impl Flight {
    /// Returns the message that came in a row, and its line, if one came.
    fn of(story: &Story, chart: &Chart, moment: &Moment, row: u64) -> Option<Flight> {
        let number = arrival(moment)?;
        if number >= story.world.sent() {
            return None;
        }
        let message = story.world.message(number);
        let (start, end) = chart.lanes.ends(&message);
        Some(Flight {
            number,
            row,
            message,
            from: chart.place(start, chart.sender(number)),
            to: chart.place(end, row),
        })
    }

    /// Returns how far it goes to the side and down.
    fn size(self) -> (u64, u64) {
        let Flight { from, to, .. } = self;
        (from.x.abs_diff(to.x), from.y.abs_diff(to.y))
    }

    /// Returns whether it begins at the same place as another line, and goes to the same side.
    fn begins_as(self, other: Flight) -> bool {
        let is_right = self.from.x <= self.to.x;
        let is_other_right = other.from.x <= other.to.x;
        self.from.x == other.from.x && self.from.y == other.from.y && is_right == is_other_right
    }

    /// Returns whether the whole of a shorter line lies on this one.
    fn covers(self, shorter: Flight) -> bool {
        let (width, height) = self.size();
        let (less, low) = shorter.size();
        self.begins_as(shorter)
            && less < width
            && less.saturating_mul(height) == width.saturating_mul(low)
    }
}

/// Returns the messages that came, in the order of their rows.
fn flights_of(alloc: Global, story: &Story, chart: &Chart) -> Result<Vec<Flight>, AllocError> {
    let mut flights = Vec::new(alloc);
    for (row, moment) in shown_moments(story).iter().enumerate() {
        if let Some(flight) = Flight::of(story, chart, moment, row as u64) {
            flights.push(flight)?;
        }
    }
    Ok(flights)
}

/// Returns how far down the line of a message has to begin, so that no other line lies on it.
fn shift_of(flights: &[Flight], flight: Flight) -> u64 {
    if flights.iter().any(|other| flight.covers(*other)) {
        SHIFT
    } else {
        0
    }
}

/// Appends the arrow of a message that came.
fn push_arrow(
    alloc: Global,
    out: &mut String,
    named: &Named,
    chart: &Chart,
    flight: Flight,
    shift: u64,
) -> Result<(), AllocError> {
    let Flight {
        number,
        row,
        message,
        from,
        to,
    } = flight;
    open_message(alloc, out, named, number, chart.sender(number), &message)?;
    let step = row.saturating_add(1);
    write!(out, "arrives in step {step}")?;
    close_title(out)?;
    let start = Point::at(from.x, from.y.saturating_add(shift));
    arrow(out, start, to, kind_of(&message).0)?;
    close_group(out)
}

/// Appends the labels of messages that came.
fn push_labels(out: &mut String, flights: &[Flight]) -> Result<(), AllocError> {
    for flight in flights {
        push_label(out, flight.from, flight.to, &flight.message)?;
    }
    Ok(())
}

/// Appends an arrow for each message that came, and over the arrows their labels.
pub fn push_arrows(
    alloc: Global,
    out: &mut String,
    named: &Named,
    story: &Story,
    chart: &Chart,
) -> Result<(), AllocError> {
    let flights = flights_of(alloc, story, chart)?;
    for flight in flights.as_slice() {
        let shift = shift_of(flights.as_slice(), *flight);
        push_arrow(alloc, out, named, chart, *flight, shift)?;
    }
    push_labels(out, flights.as_slice())
}

/// Returns a place shortly before a column, on the way from another one.
fn before(from: u64, to: u64) -> u64 {
    if from <= to {
        to.saturating_sub(SHORT)
    } else {
        to.saturating_add(SHORT)
    }
}

/// Appends a message that never came.
fn push_lost(
    alloc: Global,
    out: &mut String,
    named: &Named,
    story: &Story,
    chart: &Chart,
    number: usize,
) -> Result<(), AllocError> {
    if number >= story.world.sent() {
        return Ok(());
    }
    let message = story.world.message(number);
    let sender = chart.sender(number);
    let (start, end) = chart.lanes.ends(&message);
    let from = chart.place(start, sender);
    let y = from.y.saturating_add(ROW / 2);
    let cross = Point::at(before(start, end), y);
    open_message(alloc, out, named, number, sender, &message)?;
    out.push_str("never arrives")?;
    close_title(out)?;
    lost(out, from, cross, kind_of(&message).0)?;
    push_label(out, from, cross, &message)?;
    close_group(out)
}

/// Appends each message that never came.
pub fn push_all_lost(
    alloc: Global,
    out: &mut String,
    named: &Named,
    story: &Story,
    chart: &Chart,
) -> Result<(), AllocError> {
    for number in 0..chart.senders.len() {
        if !chart.has_come(number) {
            push_lost(alloc, out, named, story, chart, number)?;
        }
    }
    Ok(())
}
