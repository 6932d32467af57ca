//! Where the columns of the voters are in the picture of the load.
use coterie_file::Named;
use show_figures::{VoterFigure, name_of};
use show_svg::{LETTER, Point, upright_words, words};
use std::alloc::AllocError;

/// How far the first column is from the left edge.
const LEFT: u64 = 70;

/// How wide all columns may be together.
const ROOM: u64 = 710;

/// How wide a column may be.
const WIDEST: u64 = 64;

/// The columns of the voters.
#[derive(Clone, Copy)]
pub struct Columns {
    /// How wide a column is.
    pub width: u64,
    /// How many there are.
    pub count: u64,
    /// How much room a name takes.
    pub name: u64,
}

/// Returns how much room the longest name takes.
fn name_room(named: &Named, voters: &[VoterFigure]) -> u64 {
    let mut longest: u64 = 1;
    for figure in voters {
        longest = longest.max(name_of(named, figure.voter).len() as u64);
    }
    longest.saturating_mul(LETTER)
}

impl Columns {
    /// Returns the columns of these voters.
    pub fn of(named: &Named, voters: &[VoterFigure]) -> Columns {
        let count = (voters.len() as u64).max(1);
        Columns {
            width: (ROOM / count).clamp(8, WIDEST),
            count,
            name: name_room(named, voters),
        }
    }

    /// Returns whether the names are written upwards, as they are too long for the columns.
    pub fn are_upright(&self) -> bool {
        self.name > self.width
    }

    /// Returns how much room the names take below the bars.
    pub fn name_height(&self) -> u64 {
        if self.are_upright() {
            self.name.saturating_add(10)
        } else {
            20
        }
    }

    /// Returns where the first column begins.
    pub fn left(&self) -> u64 {
        LEFT
    }

    /// Returns where the column of a voter begins.
    pub fn start(&self, voter: u8) -> u64 {
        u64::from(voter)
            .saturating_mul(self.width)
            .saturating_add(LEFT)
    }

    /// Returns the middle of a voter's column.
    pub fn middle(&self, voter: u8) -> u64 {
        self.start(voter).saturating_add(self.width / 2)
    }

    /// Returns where the last column ends.
    pub fn right(&self) -> u64 {
        self.count.saturating_mul(self.width).saturating_add(LEFT)
    }

    /// Appends the name of a voter, below this height.
    fn push_name(
        &self,
        out: &mut String,
        named: &Named,
        voter: u8,
        top: u64,
    ) -> Result<(), AllocError> {
        let name = name_of(named, voter);
        let x = self.middle(voter);
        if self.are_upright() {
            let place = Point::at(x.saturating_add(4), top.saturating_add(5));
            upright_words(out, place, "font-size=\"10\" text-anchor=\"end\"", name)
        } else {
            let place = Point::at(x, top.saturating_add(14));
            words(out, place, "text-anchor=\"middle\"", name)
        }
    }

    /// Appends the names of the voters, below this height.
    pub fn push_names(
        &self,
        out: &mut String,
        named: &Named,
        voters: &[VoterFigure],
        top: u64,
    ) -> Result<(), AllocError> {
        for figure in voters {
            self.push_name(out, named, figure.voter, top)?;
        }
        Ok(())
    }
}
