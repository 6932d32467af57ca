//! The words of a board, what a seat knows, and the kinds of step.
ghost use Rattle.std.specs.Prelude.{◌≡◌};
ghost use Rattle.board.specs.Seats.{Setting};

use atomic_table::{Join, Play, Split, Table, TableRule};
use quorum_set::QSet;
use std::alloc::Global;
use std::collections::LinkedList;
use std::marker::{Brand, Model, PhantomData};

/// A table with one word for each voter's vote, and then the register.
pub type VoteTable = Table<(), View, Sheet, Votes, Global>;

/// What a seat knows. No value of this type is ever made: it says in proofs what the seat's fields
/// say at run time.
pub struct View {
    /// How many seats of voters and clients it stands for. The root counts itself too.
    pub parts: u64,
    /// For each voter, 0 if the seat doesn't stand for it. Otherwise 1 more than the name of the
    /// voter's current grant, which is 0 if there is none.
    pub voters: LinkedList<u64>,
    /// The client that it takes votes for.
    pub client: u64,
    /// For each voter, the grant under which its vote is held, or 0.
    pub held: LinkedList<u64>,
    /// The place of the quorum in the board's list and the number of the last reading of the
    /// register, if it still counts.
    pub reading: Option<(usize, u64)>,
    /// Its pass numbers.
    pub passes: LinkedList<u64>,
}

/// What is fixed when a board is made. Contracts see a `Setting`.
#[derive(Drop)]
pub struct Sheet {
    pub(crate) voters: usize,
    pub(crate) quorums: Vec<QSet>,
    pub(crate) clients: u8,
    pub(crate) limit: u64,
}

impl Model for Sheet {
    ghost use Rattle.board.specs.Seats.{Setting};

    ghost Value = { Setting };

    ghost view = { λ s. record { voters = s.voters; quorums = s.quorums.items; clients = s.clients; limit = s.limit } };
}

impl Sheet {
    /// Returns the number of voters, which is also the place of the register's word.
    pub(crate) fn voters(&self) -> usize
        ensures value { result ≡ self.now.voters }
    {
        self.voters
    }

    /// Returns the number of clients.
    pub(crate) fn clients(&self) -> u8
        ensures value { result ≡ self.now.clients }
    {
        self.clients
    }

    /// Returns the highest number of the register.
    pub(crate) fn limit(&self) -> u64
        ensures value { result ≡ self.now.limit }
    {
        self.limit
    }
}

/// The rule that holds for the words and all seats between any two steps.
pub struct Votes;

impl TableRule<(), View, Sheet> for Votes {
    ghost use Rattle.board.specs.Rule.{Kept};
    ghost use Rattle.board.specs.Views.{root_view};

    ghost holds = { Kept };

    ghost first = { λ sheet. root_view sheet.voters sheet.clients };
}

/// The step by which a voter's seat offers its free vote.
pub struct Grant;

impl Play<(), View> for Grant {
    ghost use Rattle.board.specs.Moves.{Granted};

    ghost then = { Granted };
}

/// The step by which a voter's seat ends its grant.
pub struct Settle;

impl Play<(), View> for Settle {
    ghost use Rattle.board.specs.Moves.{Settled};

    ghost then = { Settled };
}

/// The step by which a client's seat takes an offered vote.
pub struct Take;

impl Play<(), View> for Take {
    ghost use Rattle.board.specs.Moves.{Took};

    ghost then = { Took };
}

/// The step by which a client's seat gives a vote back.
pub struct GiveBack;

impl Play<(), View> for GiveBack {
    ghost use Rattle.board.specs.Moves.{GaveBack};

    ghost then = { GaveBack };
}

/// A number that is known only at run time, as a type that a call can name.
pub trait Number {
    ghost use Rattle.std.specs.Prelude.{ℕ};

    ghost number: { ℕ };
}

impl Number for Brand {
    ghost number = { 0 };
}

/// The step by which a client's seat reads the register for a quorum.
pub struct ReadFor<J: Number> {
    of: PhantomData<J>,
}

impl<J: Number> Play<(), View> for ReadFor<J> {
    ghost use Rattle.board.specs.Moves.{Read};

    ghost then = { Read J.number };
}

/// The step by which a client's seat writes the register.
pub struct Write;

impl Play<(), View> for Write {
    ghost use Rattle.board.specs.Moves.{Wrote};

    ghost then = { Wrote };
}

/// The step by which the root looks how many seats it stands for: at most 129. Nothing changes.
pub struct Count;

impl Play<(), View> for Count {
    ghost use Rattle.board.specs.Moves.{Counted};

    ghost then = { Counted };
}

/// The split and the join by which the root gives a voter's seat and takes it back.
pub struct VoterPart<N: Number> {
    of: PhantomData<N>,
}

impl<N: Number> Split<View> for VoterPart<N> {
    ghost use Rattle.std.specs.Prelude.{None};
    ghost use Rattle.board.specs.Views.{without_voter, voter_view};

    ghost left = { without_voter N.number };

    ghost right = { λ v. voter_view N.number None };
}

impl<N: Number> Join<View> for VoterPart<N> {
    ghost use Rattle.board.specs.Views.{with_voter, spent_view};

    ghost both = { with_voter N.number };

    ghost spent = { spent_view };
}

/// The split by which the root gives a client's seat.
pub struct ClientPart<N: Number> {
    of: PhantomData<N>,
}

impl<N: Number> Split<View> for ClientPart<N> {
    ghost use Rattle.std.specs.Prelude.{None, []};
    ghost use Rattle.board.specs.Views.{without_client, client_view};
    ghost use Rattle.board.specs.Words.{nobody};

    ghost left = { without_client };

    ghost right = { λ v. client_view N.number nobody None [] };
}

/// The join by which the root takes a client's seat back.
pub struct ClientBack;

impl Join<View> for ClientBack {
    ghost use Rattle.board.specs.Views.{with_client, spent_view};

    ghost both = { with_client };

    ghost spent = { spent_view };
}
