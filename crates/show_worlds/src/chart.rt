//! What a picture of a world shows: its turns, and the messages that they sent.
use crate::lanes::Lanes;
use coterie_file::Named;
use show_svg::Point;
use std::alloc::{AllocError, Global};
use stories::{Happening, Moment, Story, Turn};
use world::Step;

/// How many steps a picture has at most.
const ROWS: usize = 200;

/// How high a row is.
pub const ROW: u64 = 26;

/// A chart of the first steps of a story.
#[derive(Drop)]
pub struct Chart {
    /// The columns.
    pub lanes: Lanes,
    /// The step that sent each message, from 0.
    pub senders: Vec<u64>,
    /// Whether each message came at least once.
    pub came: Vec<bool>,
    /// How far the first row is from the upper edge.
    pub top: u64,
}

/// Returns the steps that a picture shows.
pub fn shown_moments(story: &Story) -> &[Moment] {
    let moments = story.moments.as_slice();
    match moments.get(..ROWS) {
        Some(first) => first,
        None => moments,
    }
}

/// Returns how many messages a step sent.
fn sent_by(moment: &Moment) -> usize {
    match moment.happening {
        Happening::Done { sent, .. } | Happening::Evicted { sent, .. } => sent,
        _ => 0,
    }
}

/// Appends the number of a step once for each message that it sent.
fn push_sender(senders: &mut Vec<u64>, row: u64, sent: usize) -> Result<(), AllocError> {
    for _ in 0..sent {
        senders.push(row)?;
    }
    Ok(())
}

/// Returns the step that sent each message.
fn senders_of(alloc: Global, moments: &[Moment]) -> Result<Vec<u64>, AllocError> {
    let mut senders = Vec::new(alloc);
    for (row, moment) in moments.iter().enumerate() {
        push_sender(&mut senders, row as u64, sent_by(moment))?;
    }
    Ok(senders)
}

/// Returns the number of the message that came in a step, if one did.
pub fn arrival(moment: &Moment) -> Option<usize> {
    match (moment.turn, moment.happening) {
        (Turn::Step(Step::Deliver(number)), Happening::Done { .. }) => Some(number as usize),
        _ => None,
    }
}

/// A client or a voter.
#[derive(Clone, Copy)]
pub enum Node {
    /// The client with this number.
    Client(u8),
    /// The voter with this number.
    Voter(u8),
}

/// Returns the client or the voter that does this by itself, if one does.
pub fn maker_of(turn: Turn) -> Option<Node> {
    match turn {
        Turn::Step(
            Step::Ask(client)
            | Step::Leave(client)
            | Step::GiveUp(client)
            | Step::RemindClient(client),
        )
        | Turn::CrashClient(client)
        | Turn::AnewClient(client)
        | Turn::Show(client) => Some(Node::Client(client)),
        Turn::Step(Step::RemindVoter(voter))
        | Turn::CrashVoter(voter)
        | Turn::Evict(voter)
        | Turn::RebornVoter(voter) => Some(Node::Voter(voter)),
        Turn::Step(Step::Deliver(_) | Step::Exchange) => None,
    }
}

/// Marks the message that came in a step.
fn mark_arrival(came: &mut Vec<bool>, moment: &Moment) {
    let Some(number) = arrival(moment) else {
        return;
    };
    if let Some(place) = came.get_mut(number) {
        *place = true;
    }
}

/// Returns of each message whether it came, in any of the steps.
fn arrivals(alloc: Global, moments: &[Moment], messages: usize) -> Result<Vec<bool>, AllocError> {
    let mut came = vec![in alloc; false; messages]?;
    for moment in moments {
        mark_arrival(&mut came, moment);
    }
    Ok(came)
}

impl Chart {
    /// Returns the chart of a story, with this room above it.
    pub fn of(alloc: Global, named: &Named, story: &Story, room: u64) -> Result<Chart, AllocError> {
        let moments = shown_moments(story);
        let senders = senders_of(alloc, moments)?;
        let came = arrivals(alloc, story.moments.as_slice(), senders.len())?;
        let lanes = Lanes::of(&story.world, moments, senders.len());
        let top = lanes.name_height(named).saturating_add(room);
        Ok(Chart {
            lanes,
            senders,
            came,
            top,
        })
    }

    /// Returns how far the middle of a row is from the upper edge.
    pub fn row(&self, row: u64) -> u64 {
        row.saturating_mul(ROW)
            .saturating_add(self.top)
            .saturating_add(ROW / 2)
    }

    /// Returns how far the lower end of this number of rows is from the upper edge.
    pub fn foot(&self, rows: usize) -> u64 {
        (rows as u64).saturating_mul(ROW).saturating_add(self.top)
    }

    /// Returns the step that sent a message, from 0.
    pub fn sender(&self, number: usize) -> u64 {
        match self.senders.get(number) {
            Some(row) => *row,
            None => 0,
        }
    }

    /// Returns whether a message came.
    pub fn has_come(&self, number: usize) -> bool {
        match self.came.get(number) {
            Some(came) => *came,
            None => false,
        }
    }

    /// Returns the place of a column in a row.
    pub fn place(&self, x: u64, row: u64) -> Point {
        Point::at(x, self.row(row))
    }
}
