//! The elements of an SVG text. Coordinates are pixels from the upper left corner.

use crate::escape::push_escaped;
use std::alloc::AllocError;

/// How wide a letter of a name is.
pub const LETTER: u64 = 6;

/// A place in a picture.
#[derive(Clone, Copy)]
pub struct Point {
    /// How far it is from the left edge.
    pub x: u64,
    /// How far it is from the upper edge.
    pub y: u64,
}

impl Point {
    /// Returns the place that is this far from the left and from the upper edge.
    pub fn at(x: u64, y: u64) -> Point {
        Point { x, y }
    }
}

/// A rectangle of a picture.
#[derive(Clone, Copy)]
pub struct Area {
    /// How far it is from the left edge.
    pub x: u64,
    /// How far it is from the upper edge.
    pub y: u64,
    /// How wide it is.
    pub width: u64,
    /// How high it is.
    pub height: u64,
}

/// Begins a picture of this size with this title, and paints it white.
pub fn open_picture(
    out: &mut String,
    width: u64,
    height: u64,
    title: &str,
) -> Result<(), AllocError> {
    write!(
        out,
        "<svg xmlns=\"http://www.w3.org/2000/svg\" version=\"1.1\" width=\"{width}\" height=\"{height}\" viewBox=\"0 0 {width} {height}\" font-family=\"sans-serif\" font-size=\"11\">\n<title>"
    )?;
    push_escaped(out, title)?;
    write!(
        out,
        "</title>\n<rect width=\"{width}\" height=\"{height}\" fill=\"#ffffff\"/>\n"
    )
}

/// Appends a line.
pub fn line(out: &mut String, from: Point, to: Point, style: &str) -> Result<(), AllocError> {
    let Point { x, y } = from;
    let Point { x: end, y: foot } = to;
    write!(
        out,
        "<line x1=\"{x}\" y1=\"{y}\" x2=\"{end}\" y2=\"{foot}\" {style}/>\n"
    )
}

/// Appends a rectangle.
pub fn rect(out: &mut String, area: Area, style: &str) -> Result<(), AllocError> {
    let Area {
        x,
        y,
        width,
        height,
    } = area;
    write!(
        out,
        "<rect x=\"{x}\" y=\"{y}\" width=\"{width}\" height=\"{height}\" {style}/>\n"
    )
}

/// Appends a circle, with its radius in tenths of a pixel.
pub fn circle(out: &mut String, center: Point, radius: u64, style: &str) -> Result<(), AllocError> {
    let Point { x, y } = center;
    let pixels = radius / 10;
    let tenths = radius % 10;
    write!(
        out,
        "<circle cx=\"{x}\" cy=\"{y}\" r=\"{pixels}.{tenths}\" {style}/>\n"
    )
}

/// Begins a group whose title follows.
pub fn open_titled(out: &mut String) -> Result<(), AllocError> {
    out.push_str("<g><title>")
}

/// Ends the title of a group. The group's elements follow.
pub fn close_title(out: &mut String) -> Result<(), AllocError> {
    out.push_str("</title>\n")
}

/// Ends a group.
pub fn close_group(out: &mut String) -> Result<(), AllocError> {
    out.push_str("</g>\n")
}

/// Begins a text that is written from this place.
pub fn open_text(out: &mut String, place: Point, style: &str) -> Result<(), AllocError> {
    let Point { x, y } = place;
    write!(out, "<text x=\"{x}\" y=\"{y}\" {style}>")
}

/// Begins a text that is written upwards.
pub fn open_upright(out: &mut String, place: Point, style: &str) -> Result<(), AllocError> {
    let Point { x, y } = place;
    write!(
        out,
        "<text transform=\"translate({x} {y}) rotate(-90)\" {style}>"
    )
}

/// Ends a text.
pub fn close_text(out: &mut String) -> Result<(), AllocError> {
    out.push_str("</text>\n")
}

/// Appends a text.
pub fn words(out: &mut String, place: Point, style: &str, text: &str) -> Result<(), AllocError> {
    open_text(out, place, style)?;
    push_escaped(out, text)?;
    close_text(out)
}

/// Appends a text that is written upwards.
pub fn upright_words(
    out: &mut String,
    place: Point,
    style: &str,
    text: &str,
) -> Result<(), AllocError> {
    open_upright(out, place, style)?;
    push_escaped(out, text)?;
    close_text(out)
}
