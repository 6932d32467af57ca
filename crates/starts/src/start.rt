//! The start of a voter's process.
ghost use Rattle.std.specs.Prelude.{◌≡◌, ◌<◌, ◌+◌, ◌/◌, nat_lt};
ghost use Rattle.starts.specs.Starts.{after_turn, asks, begins, begun, hears, is_kept_by, is_waiting, may_ask, needs, next_block, renews, turn_of, with_voter};

use numbers::MAX_LIMIT;

/// The most by which a ceiling is raised, but for a first block that is greater.
const MOST_BLOCK: u64 = 1 << 24;

/// What a process of a voter knows of the others since it started, and up to which number it may
/// give grants. A set of voters is a word: voter v is in it if bit v is 1.
#[derive(Clone, Copy, Debug, PartialEq, Eq)]
pub struct Start {
    /// The voters that said what they knew of this one.
    pub answered: u64,
    /// Those of them, and of those that keep a ceiling, whose ceiling it knew before it served.
    pub counted: u64,
    /// The highest ceiling that one of them knew.
    pub known: u64,
    /// Its grants are above this number.
    pub floor: u64,
    /// The ceiling that it asked for last, 0 for none.
    pub asked: u64,
    /// The voters that keep the ceiling that it asked for last.
    pub kept: u64,
    /// It gives no grant above this number. Before it serves, the ceiling of the state from which
    /// it started, 0 if that never served.
    pub ceiling: u64,
    /// By how much it raises the ceiling at first.
    pub first: u64,
    /// By how much it raised it last.
    pub block: u64,
    /// It may give grants.
    pub serves: bool,
    /// A voter knows that the last run ended when its state was saved as often as it is now.
    pub is_clean: bool,
}

/// What the host sees of the voters of the plans in use.
#[derive(Clone, Copy, Debug, PartialEq, Eq)]
pub struct Answers {
    /// All others.
    pub others: u64,
    /// Those that did not answer, and this one, contain a quorum of some plan.
    pub have_silent_quorum: bool,
    /// Those that answered, and this one, contain a quorum of each plan.
    pub have_quorums: bool,
    /// It waited for long enough for the others.
    pub is_patient: bool,
}

/// What comes of the voters that keep the ceiling.
#[derive(Clone, Copy, Debug, PartialEq, Eq)]
pub enum Turn {
    /// Nothing: they are too few, or it did not ask for a ceiling that it does not have.
    Waits,
    /// One of them knew of a higher ceiling, so it asks for another one.
    AsksAgain,
    /// It serves from now on.
    Serves,
    /// It serves from now on, and has to be quiet at first: its state may be an older copy.
    ServesQuietly,
    /// It serves already, and the ceiling is raised.
    Raises,
}

/// Returns the set with one more voter.
fn with_voter(set: u64, voter: u8) -> u64
    requires { voter < 64 }
    ensures { result ≡ with_voter set voter }
{
    set | 1 << voter
}

impl Start {
    /// Returns the start of a process, from a state that asked for this ceiling last, 0 if for
    /// none. It asks for `first` grants at first, at least for one.
    pub fn new(ceiling: u64, first: u64) -> Start
        ensures { result ≡ begun ceiling first }
    {
        Start {
            answered: 0,
            counted: 0,
            known: 0,
            floor: 0,
            asked: 0,
            kept: 0,
            ceiling,
            first: first.max(1),
            block: 0,
            serves: false,
            is_clean: false,
        }
    }

    /// Notes what a voter says that it knew: its ceiling of this one, and whether the last run
    /// ended cleanly.
    pub fn hears(&mut self, voter: u8, ceiling: u64, is_clean: bool)
        requires { voter < 64 }
        ensures { self.new ≡ hears self.old voter ceiling is_clean }
    {
        self.answered = with_voter(self.answered, voter);
        if !self.serves {
            self.counted = with_voter(self.counted, voter);
        }
        self.known = self.known.max(ceiling);
        self.is_clean = self.is_clean || is_clean;
    }

    /// Returns whether so many answered that it may ask for a ceiling.
    fn may_ask(&self, answers: &Answers) -> bool
        ensures { result ≡ may_ask self.now answers.now }
    {
        if self.answered & answers.others == answers.others {
            return true;
        }
        if self.ceiling == 0 {
            return !answers.have_silent_quorum; // nobody else may have been here
        }
        answers.is_patient && answers.have_quorums
    }

    /// Asks for the first ceiling, above all that is known, once so many answered that it may. The
    /// caller then asks the others to keep it.
    pub fn begins(&mut self, answers: &Answers)
        ensures { self.new ≡ begins self.old answers.now }
    {
        if self.asked == 0 && self.may_ask(answers) {
            self.asks(self.known.max(self.ceiling));
        }
    }

    /// Asks for a ceiling above this number.
    fn asks(&mut self, above: u64)
        ensures { self.new ≡ asks self.old above }
    {
        let block = self.next_block();
        self.asked = above.saturating_add(block).min(MAX_LIMIT);
        self.kept = 0;
        self.block = block;
        if !self.serves {
            self.floor = above;
        }
    }

    /// Returns by how much the ceiling is raised next.
    fn next_block(&self) -> u64
        ensures { result ≡ next_block self.now }
    {
        let twice = self.block.saturating_mul(2);
        if twice < self.first {
            self.first
        } else {
            twice.min(MOST_BLOCK)
        }
    }

    /// Notes that a voter keeps this ceiling. If it did not hear of this start before, it says
    /// which ceiling it knew. What it says of a ceiling that was asked for before changes nothing.
    pub fn is_kept_by(&mut self, voter: u8, ceiling: u64, knew: Option<u64>)
        requires { voter < 64 }
        ensures { self.new ≡ is_kept_by self.old voter ceiling knew }
    {
        if ceiling != self.asked {
            return;
        }
        self.kept = with_voter(self.kept, voter);
        if let Some(known) = knew {
            if !self.serves {
                self.counted = with_voter(self.counted, voter);
            }
            self.known = self.known.max(known);
        }
    }

    /// Returns whether it asked for a ceiling up to which it may not give grants yet.
    pub fn is_waiting(&self) -> bool
        ensures { result ≡ is_waiting self.now }
    {
        self.ceiling < self.asked
    }

    /// Raises the ceiling if the voters that keep it, and this one, contain a quorum of each plan,
    /// as the caller says. Returns what comes of it. After `AsksAgain` and `Serves` the caller asks
    /// and serves.
    pub fn turns(&mut self, have_quorums: bool) -> Turn
        ensures turn { result ≡ turn_of self.old have_quorums }
        ensures after { self.new ≡ after_turn self.old (turn_of self.old have_quorums) }
    {
        let turn = self.turn(have_quorums);
        match turn {
            Turn::Waits => {}
            Turn::AsksAgain => self.asks(self.known),
            Turn::Raises => self.ceiling = self.asked,
            Turn::Serves | Turn::ServesQuietly => {
                self.ceiling = self.asked;
                self.serves = true;
            }
        }
        turn
    }

    /// Returns what comes of the voters that keep the ceiling.
    fn turn(&self, have_quorums: bool) -> Turn
        ensures { result ≡ turn_of self.now have_quorums }
    {
        if !self.is_waiting() || !have_quorums {
            Turn::Waits
        } else if self.serves {
            Turn::Raises
        } else if self.known > self.floor {
            Turn::AsksAgain
        } else if self.is_clean || self.ceiling == 0 && self.known == 0 {
            Turn::Serves
        } else {
            Turn::ServesQuietly
        }
    }

    /// Asks for the next ceiling if half of the last block is used, once the grant of this number was given, or
    /// the numbers up to it are to be skipped. The caller then asks the others to keep it.
    pub fn needs(&mut self, number: u64)
        ensures { self.new ≡ needs self.old number }
    {
        if self.serves && !self.is_waiting() && self.is_half_used(number) {
            self.asks(self.ceiling.max(number));
        }
    }

    /// Returns whether half of the last block is used, once the grant of this number was given.
    fn is_half_used(&self, number: u64) -> bool
        ensures { result ≡ nat_lt self.now.ceiling (number + self.now.block / 2) }
    {
        number > self.ceiling || self.ceiling - number < self.block / 2
    }

    /// Forgets who keeps the ceiling: the plans changed, and all voters are to keep it again.
    pub fn renews(&mut self)
        ensures { self.new ≡ renews self.old }
    {
        self.kept = 0;
    }
}
