//! The seat of a voter: it grants the voter's vote, and settles the grant.
ghost use Rattle.std.specs.Prelude.{◌≡◌, ◌+◌, ◌<◌, ◌≤◌, [], None, Some, IsSome, MatchBool};
ghost use Rattle.numbers.specs.Bounds.{max_voters, max_stamp};
ghost use Rattle.board.specs.Roots.{IsCurrent};
ghost use Rattle.board.specs.Seats.{VoterSeatState};
ghost use Rattle.board.specs.Views.{voter_view};
ghost use Rattle.board.specs.Words.{IsSettledFrom};

use crate::board::Board;
use crate::table::{Grant, Settle, View, VoteTable};
use crate::vote::Vote;
use atomic_table::Seat;
use std::marker::Model;

/// The only right to grant a voter's vote. It may be moved to a thread. Contracts see a
/// `VoterSeatState`.
#[derive(Drop)]
pub struct VoterSeat {
    pub(crate) seat: Seat<(), View>,
    pub(crate) voter: u8,
    pub(crate) current: Option<(u8, u64)>,
    pub(crate) last: u64,
}

impl Model for VoterSeat {
    ghost use Rattle.board.specs.Invariants.{IsVoterSeat};
    ghost use Rattle.board.specs.Seats.{VoterSeatState};

    ghost Value = { VoterSeatState };

    ghost view = { λ s. record { table = s.seat.table_id; voter = s.voter; current = s.current; last = s.last } };

    ghost invariant = { λ s. IsVoterSeat s.seat.me s.seat.table_id s.voter s.current s.last };
}

impl VoterSeat {
    /// Returns the voter's number.
    pub fn voter(&self) -> u8
        ensures value { result ≡ self.now.voter }
        ensures few { self.now.voter < max_voters }
    {
        self.voter
    }

    /// Returns the current grant as its client and its number, or `None` if there is none.
    pub fn current(&self) -> Option<(u8, u64)>
        ensures value { result ≡ self.now.current }
        ensures grant { IsCurrent self.now.current self.now.last }
    {
        self.current
    }

    /// Offers the vote to a client of the board under a new grant. The grant's number must be above
    /// the last one's and at most 2^40. There must be no current grant.
    pub fn grant(&mut self, board: &Board, client: u8, grant: u64)
        requires table { self.old.table ≡ board.now.table }
        requires free { self.old.current ≡ None }
        requires client { client < board.now.clients }
        requires above { self.old.last < grant }
        requires fits { grant ≤ max_stamp }
        ensures granted { self.new ≡ record self.old { current = Some (client, grant); last = grant } }
        ensures table { self.new.table ≡ self.old.table }
    {
        let offered = Vote::Offered(client, grant).word();
        board
            .table
            .shared
            .swap::<Grant>(&mut self.seat, usize::from(self.voter), offered);
        self.current = Some((client, grant));
        self.last = grant;
    }

    /// Ends the current grant if its vote was given back or is still only offered. Returns whether
    /// the grant ended; `false` means that the vote was taken, and changes nothing. There must be a
    /// current grant.
    pub fn settle(&mut self, board: &Board) -> bool
        requires table { self.old.table ≡ board.now.table }
        requires current { IsSome self.old.current }
        ensures ended { MatchBool result (self.new ≡ record self.old { current = None }) (self.new ≡ self.old) }
        ensures table { self.new.table ≡ self.old.table }
    {
        let (client, grant) = self.current.unwrap();
        let returned = Vote::Returned(client, grant);
        let offered = Vote::Offered(client, grant);
        let table = &board.table;
        let ended = frees(table, &mut self.seat, self.voter, returned)
            || frees(table, &mut self.seat, self.voter, offered);
        if ended {
            self.current = None;
        }
        ended
    }
}

/// Ends the grant if its vote is in this state, offered or given back. Returns whether it did.
fn frees(table: &VoteTable, seat: &mut Seat<(), View>, voter: u8, vote: Vote) -> bool
    requires table { (seat.old.table_id ≡ table.now.shared.table_id)
        × (table.now.shared.table_id.words ≡ table.now.shared.key.voters + 1) }
    requires voter { (voter < table.now.shared.key.voters) × (voter < max_voters) }
    requires seat { IsSettledFrom vote (λ current.
        (seat.old.me ≡ (voter_view voter (Some current), [])) × IsCurrent (Some current) max_stamp) }
    ensures table { seat.new.table_id ≡ seat.old.table_id }
    ensures seat { MatchBool result (seat.new.me ≡ (voter_view voter None, [])) (seat.new.me ≡ seat.old.me) }
{
    let word = vote.word();
    table
        .shared
        .compare_exchange::<Settle>(seat, usize::from(voter), word, Vote::Free.word())
        == word
}
