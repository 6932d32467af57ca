//! Where the columns of clients and voters are in the picture of a world.
use crate::chart::{Node, maker_of};
use coterie_file::Named;
use incidents::IncidentWorld;
use message::Message;
use numbers::MAX_VOTERS;
use quorum_set::QSet;
use show_figures::name_of;
use show_svg::{LETTER, Point, line, upright_words, words};
use std::alloc::{AllocError, Global};
use stories::{Moment, Turn};

/// How far the first column is from the left edge.
const LEFT: u64 = 250;

/// How wide all columns may be together.
const ROOM: u64 = 570;

/// How far two columns are from each other at most.
const WIDEST: u64 = 130;

/// How much room the names of clients take.
const CLIENT: u64 = 9 * LETTER;

/// The columns of the clients and the voters that occur.
#[derive(Drop)]
pub struct Lanes {
    /// The clients that occur.
    clients: QSet,
    /// The voters that occur.
    voters: QSet,
}

/// Adds a number to a set, if the set can have it.
fn mark(set: &mut QSet, number: u8) {
    if usize::from(number) < MAX_VOTERS {
        let _ = set.insert(number);
    }
}

/// Returns how many members of the set are smaller.
fn rank(set: &QSet, number: u8) -> u64 {
    let mut smaller: u64 = 0;
    let members = set.members();
    for member in members.as_slice() {
        if *member < number {
            smaller = smaller.saturating_add(1);
        }
    }
    smaller
}

/// Returns how much room the longest of the voters' names takes.
fn voter_room(named: &Named, voters: &QSet) -> u64 {
    let mut longest: u64 = 1;
    let members = voters.members();
    for voter in members.as_slice() {
        longest = longest.max(name_of(named, *voter).len() as u64);
    }
    longest.saturating_mul(LETTER)
}

impl Lanes {
    /// Returns no columns.
    fn none() -> Lanes {
        Lanes {
            clients: QSet::empty(),
            voters: QSet::empty(),
        }
    }

    /// Adds the client or the voter that does this by itself.
    fn mark_maker(&mut self, world: &IncidentWorld, turn: Turn) {
        match maker_of(turn) {
            Some(Node::Client(client)) => {
                if world.client(client).is_some() {
                    mark(&mut self.clients, client);
                }
            }
            Some(Node::Voter(voter)) => {
                if world.voter(voter).is_some() {
                    mark(&mut self.voters, voter);
                }
            }
            None => {}
        }
    }

    /// Adds the client and the voter of a message.
    fn mark_message(&mut self, message: &Message) {
        match message {
            Message::ToVoter(message) => {
                mark(&mut self.clients, message.client);
                mark(&mut self.voters, message.voter);
            }
            Message::ToClient(message) => {
                mark(&mut self.clients, message.client);
                mark(&mut self.voters, message.voter);
            }
        }
    }

    /// Adds the clients and voters of the first messages.
    fn mark_messages(&mut self, world: &IncidentWorld, messages: usize) {
        for number in 0..messages.min(world.sent()) {
            let message = world.message(number);
            self.mark_message(&message);
        }
    }

    /// Returns the columns of what occurs in these turns and in the first messages.
    pub fn of(world: &IncidentWorld, moments: &[Moment], messages: usize) -> Lanes {
        let mut lanes = Lanes::none();
        for moment in moments {
            lanes.mark_maker(world, moment.turn);
        }
        lanes.mark_messages(world, messages);
        lanes
    }

    /// Returns how far two columns are from each other.
    fn space(&self) -> u64 {
        let count = (self.clients.len() as u64).saturating_add(self.voters.len() as u64);
        (ROOM / count.max(1)).clamp(4, WIDEST)
    }

    /// Returns where a column is.
    fn at(&self, place: u64) -> u64 {
        place.saturating_mul(self.space()).saturating_add(LEFT)
    }

    /// Returns where the column of a client is.
    pub fn client(&self, client: u8) -> u64 {
        self.at(rank(&self.clients, client))
    }

    /// Returns where the column of a voter is.
    pub fn voter(&self, voter: u8) -> u64 {
        let clients = self.clients.len() as u64;
        self.at(clients.saturating_add(rank(&self.voters, voter)))
    }

    /// Returns where the column of a client or a voter is.
    pub fn node(&self, node: Node) -> u64 {
        match node {
            Node::Client(client) => self.client(client),
            Node::Voter(voter) => self.voter(voter),
        }
    }

    /// Returns where the sender and the receiver of a message are.
    pub fn ends(&self, message: &Message) -> (u64, u64) {
        match message {
            Message::ToVoter(message) => (self.client(message.client), self.voter(message.voter)),
            Message::ToClient(message) => (self.voter(message.voter), self.client(message.client)),
        }
    }

    /// Returns where the last column is.
    pub fn right(&self) -> u64 {
        let count = (self.clients.len() as u64).saturating_add(self.voters.len() as u64);
        self.at(count.saturating_sub(1))
    }

    /// Returns whether the names are written upwards, as they are too long for the columns.
    fn are_upright(&self, named: &Named) -> bool {
        voter_room(named, &self.voters).max(CLIENT) > self.space()
    }

    /// Returns how much room the names take.
    pub fn name_height(&self, named: &Named) -> u64 {
        if self.are_upright(named) {
            voter_room(named, &self.voters)
                .max(CLIENT)
                .saturating_add(10)
        } else {
            20
        }
    }

    /// Appends a column with its name, from one height to another.
    fn push_lane(
        out: &mut String,
        x: u64,
        (top, foot): (u64, u64),
        upright: bool,
        name: &str,
    ) -> Result<(), AllocError> {
        line(
            out,
            Point::at(x, top),
            Point::at(x, foot),
            "stroke=\"#999999\"",
        )?;
        if upright {
            let place = Point::at(x.saturating_add(4), top.saturating_sub(5));
            upright_words(out, place, "font-weight=\"bold\"", name)
        } else {
            let place = Point::at(x, top.saturating_sub(6));
            words(
                out,
                place,
                "font-weight=\"bold\" text-anchor=\"middle\"",
                name,
            )
        }
    }

    /// Appends the columns of the clients, from one height to another.
    pub fn push_clients(
        &self,
        alloc: Global,
        out: &mut String,
        named: &Named,
        heights: (u64, u64),
    ) -> Result<(), AllocError> {
        let upright = self.are_upright(named);
        let members = self.clients.members();
        for client in members.as_slice() {
            let name = format!(in alloc; "client {client}")?;
            Lanes::push_lane(out, self.client(*client), heights, upright, &name)?;
        }
        Ok(())
    }

    /// Appends the columns of the voters, from one height to another.
    pub fn push_voters(
        &self,
        out: &mut String,
        named: &Named,
        heights: (u64, u64),
    ) -> Result<(), AllocError> {
        let upright = self.are_upright(named);
        let members = self.voters.members();
        for voter in members.as_slice() {
            let name = name_of(named, *voter);
            Lanes::push_lane(out, self.voter(*voter), heights, upright, name)?;
        }
        Ok(())
    }
}
