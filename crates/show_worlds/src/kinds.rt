//! The six kinds of messages, each with a word, a colour and a pattern of dashes.
use message::{ClientBody, Message, VoterBody};
use show_svg::{Point, line, words};
use std::alloc::AllocError;

/// A kind of message.
#[derive(Clone, Copy)]
pub enum Kind {
    /// A client asks for a vote.
    Request,
    /// A voter gives its vote.
    Locked,
    /// A voter says that another request precedes.
    Fail,
    /// A voter asks for its vote back.
    Inquire,
    /// A client gives a vote back, and goes on waiting.
    Relinquish,
    /// A client is done.
    Release,
}

/// All kinds, in the order of the legend.
pub const KINDS: [Kind; 6] = [
    Kind::Request,
    Kind::Locked,
    Kind::Fail,
    Kind::Inquire,
    Kind::Relinquish,
    Kind::Release,
];

/// How much room a kind takes in the legend.
const ROOM: u64 = 128;

/// Returns the kind of a message, and its stamp or the number of its grant.
pub fn kind_of(message: &Message) -> (Kind, u64) {
    match message {
        Message::ToVoter(message) => match message.body {
            VoterBody::Request { stamp } => (Kind::Request, stamp),
            VoterBody::Relinquish { grant } => (Kind::Relinquish, grant),
            VoterBody::Release { stamp } => (Kind::Release, stamp),
        },
        Message::ToClient(message) => match message.body {
            ClientBody::Locked { grant, .. } => (Kind::Locked, grant),
            ClientBody::Fail { stamp } => (Kind::Fail, stamp),
            ClientBody::Inquire { grant } => (Kind::Inquire, grant),
        },
    }
}

impl Kind {
    /// Returns the word for the kind.
    pub fn word(self) -> &'static str {
        match self {
            Kind::Request => "REQUEST",
            Kind::Locked => "LOCKED",
            Kind::Fail => "FAIL",
            Kind::Inquire => "INQUIRE",
            Kind::Relinquish => "RELINQUISH",
            Kind::Release => "RELEASE",
        }
    }

    /// Returns the colour of the kind.
    pub fn colour(self) -> &'static str {
        match self {
            Kind::Request => "#1f5fa8",
            Kind::Locked => "#1b7a3d",
            Kind::Fail => "#b22222",
            Kind::Inquire => "#a85b00",
            Kind::Relinquish => "#7b3f98",
            Kind::Release => "#444444",
        }
    }

    /// Returns the style of the kind's lines, except the arrow's head.
    pub fn style(self) -> &'static str {
        match self {
            Kind::Request => "stroke=\"#1f5fa8\" stroke-width=\"1.3\"",
            Kind::Locked => "stroke=\"#1b7a3d\" stroke-width=\"2.6\"",
            Kind::Fail => "stroke=\"#b22222\" stroke-width=\"1.6\" stroke-dasharray=\"2 3\"",
            Kind::Inquire => "stroke=\"#a85b00\" stroke-width=\"1.6\" stroke-dasharray=\"9 3\"",
            Kind::Relinquish => {
                "stroke=\"#7b3f98\" stroke-width=\"1.6\" stroke-dasharray=\"9 3 2 3\""
            }
            Kind::Release => "stroke=\"#444444\" stroke-width=\"1.3\" stroke-dasharray=\"5 3\"",
        }
    }
}

/// Appends an arrow of a kind.
pub fn arrow(out: &mut String, from: Point, to: Point, kind: Kind) -> Result<(), AllocError> {
    let Point { x, y } = from;
    let Point { x: end, y: foot } = to;
    let style = kind.style();
    let word = kind.word();
    write!(
        out,
        "<line x1=\"{x}\" y1=\"{y}\" x2=\"{end}\" y2=\"{foot}\" {style} marker-end=\"url(#{word})\"/>\n"
    )
}

/// Appends a line of a kind that ends in a cross.
pub fn lost(out: &mut String, from: Point, to: Point, kind: Kind) -> Result<(), AllocError> {
    line(out, from, to, kind.style())?;
    let x = to.x.saturating_sub(4);
    let y = to.y.saturating_sub(4);
    let colour = kind.colour();
    write!(
        out,
        "<path d=\"M{x} {y}l8 8m0 -8l-8 8\" stroke=\"{colour}\" stroke-width=\"2\"/>\n"
    )
}

/// Defines the arrow's head of a kind.
fn push_head(out: &mut String, kind: Kind) -> Result<(), AllocError> {
    let word = kind.word();
    let colour = kind.colour();
    write!(
        out,
        "<marker id=\"{word}\" markerUnits=\"userSpaceOnUse\" markerWidth=\"10\" markerHeight=\"10\" refX=\"9\" refY=\"5\" orient=\"auto\"><path d=\"M0 1L10 5L0 9z\" fill=\"{colour}\"/></marker>\n"
    )
}

/// Defines the arrows' heads.
pub fn push_heads(out: &mut String) -> Result<(), AllocError> {
    out.push_str("<defs>\n")?;
    for kind in KINDS {
        push_head(out, kind)?;
    }
    out.push_str("</defs>\n")
}

/// Appends an arrow of each kind with its word, at this height.
pub fn push_kinds(out: &mut String, y: u64) -> Result<(), AllocError> {
    let mut x: u64 = 20;
    for kind in KINDS {
        arrow(
            out,
            Point::at(x, y),
            Point::at(x.saturating_add(36), y),
            kind,
        )?;
        let place = Point::at(x.saturating_add(42), y.saturating_add(4));
        words(out, place, "", kind.word())?;
        x = x.saturating_add(ROOM);
    }
    Ok(())
}
