//! The seat of a client: it takes votes and gives them back, and reads and writes the register.
ghost use Rattle.std.specs.Prelude.{◌≡◌, ◌≢◌, ◌⊎◌, ◌+◌, ◌<◌, ◌≤◌, ◌++◌, ◌∷◌, [], length, None, Some, Err, IsSome, MatchBool, MatchOption, IfOk, IfErr, IfSome, slice_index, slice_set};
ghost use Rattle.std.specs.List.{All};
ghost use mathlib.Core.Option.{none};
ghost use Rattle.atomic_table.specs.Table.{step};
ghost use Rattle.numbers.specs.Bounds.{max_voters, max_clients, max_stamp};
ghost use Rattle.board.specs.Moves.{Read};
ghost use Rattle.board.specs.Quorums.{quorum_at, place_of, HasQuorum, HoldsAll};
ghost use Rattle.board.specs.Seats.{ClientSeatState};

use crate::board::Board;
use crate::fault::BoardFault;
use crate::table::{GiveBack, Number, ReadFor, Take, View, VoteTable, Write};
use crate::vote::Vote;
use atomic_table::Seat;
use numbers::MAX_VOTERS;
use quorum_set::Side;
use std::marker::{Brand, Model};

/// The only right to take votes for a client. It may be moved to a thread. Contracts see a
/// `ClientSeatState`.
#[derive(Drop)]
pub struct ClientSeat {
    pub(crate) seat: Seat<(), View>,
    pub(crate) client: u8,
    /// For each voter, the grant under which its vote is held, or 0.
    pub(crate) held: [u64; MAX_VOTERS],
    pub(crate) reading: Option<(usize, u64)>,
    pub(crate) passes: Vec<u64>,
}

impl Model for ClientSeat {
    ghost use Rattle.board.specs.Invariants.{IsClientSeat};
    ghost use Rattle.board.specs.Seats.{ClientSeatState};

    ghost Value = { ClientSeatState };

    ghost view = { λ s. record {
      table = s.seat.table_id;
      client = s.client;
      held = s.held;
      reading = s.reading;
      passes = s.passes.items;
    } };

    ghost invariant = { λ s. IsClientSeat s.seat.me s.seat.table_id s.client s.held s.reading s.passes.items };
}

impl ClientSeat {
    /// Returns the client's number.
    pub fn client(&self) -> u8
        ensures value { result ≡ self.now.client }
        ensures few { self.now.client < max_clients }
    {
        self.client
    }

    /// Returns the number of the grant under which the client holds the voter's vote, or `None` if
    /// it doesn't hold that vote.
    pub fn held(&self, voter: u8) -> Option<u64>
        ensures value { MatchOption result (slice_index self.now.held voter ≡ 0)
            (λ g. (slice_index self.now.held voter ≡ g) × (0 < g)) }
        ensures voters { length self.now.held ≡ max_voters }
        ensures small { All (λ g. g ≤ max_stamp) self.now.held }
    {
        match self.held.get(usize::from(voter)) {
            Some(grant) if *grant > 0 => Some(*grant),
            _ => None,
        }
    }

    /// Returns the quorum and the number of the last reading of the register, if it still counts.
    /// The quorum is its place in the board's list, in which the second coterie's quorums come after
    /// the first's.
    pub fn reading(&self) -> Option<(usize, u64)>
        ensures { result ≡ self.now.reading }
    {
        self.reading
    }

    /// Returns the client's pass numbers, in order.
    pub fn passes(&self) -> &[u64]
        ensures { result.now ≡ self.now.passes }
    {
        &self.passes
    }

    /// Takes the vote of a voter, if it is offered to this client under this grant. Returns whether
    /// the client now holds the vote; `false` changes nothing.
    ///
    /// The board must be the seat's and have this voter, and the grant must be from 1 to 2^40. The
    /// seat must not hold the vote already.
    pub fn take(&mut self, board: &Board, voter: u8, grant: u64) -> bool
        requires table { self.old.table ≡ board.now.table }
        requires voter { voter < board.now.voters }
        requires free { slice_index self.old.held voter ≡ 0 }
        requires grant { 1 ≤ grant }
        requires fits { grant ≤ max_stamp }
        ensures taken { MatchBool result (self.new ≡ record self.old { held = slice_set self.old.held voter grant })
            (self.new ≡ self.old) }
        ensures holds { MatchBool result (slice_index self.new.held voter ≡ grant)
            (slice_index self.new.held voter ≡ 0) }
        ensures table { self.new.table ≡ self.old.table }
    {
        let place = usize::from(voter);
        let offered = Vote::Offered(self.client, grant).word();
        let held = Vote::Held(self.client, grant).word();
        let found = board
            .table
            .shared
            .compare_exchange::<Take>(&mut self.seat, place, offered, held);
        if found == offered {
            self.held[place] = grant;
            return true;
        }
        false
    }

    /// Gives the voter's vote back. The seat must hold that vote, and the board must be the seat's.
    /// A reading of the register no longer counts.
    ///
    /// The votes that are left may still cover a quorum, if it lies within a quorum of the other
    /// coterie. The reading is forgotten all the same.
    pub fn give_back(&mut self, board: &Board, voter: u8)
        requires table { self.old.table ≡ board.now.table }
        requires held { slice_index self.old.held voter ≢ 0 }
        ensures given { self.new ≡ record self.old { held = slice_set self.old.held voter 0; reading = None } }
        ensures table { self.new.table ≡ self.old.table }
    {
        let place = usize::from(voter);
        let returned = Vote::Returned(self.client, self.held[place]).word();
        board
            .table
            .shared
            .swap::<GiveBack>(&mut self.seat, place, returned);
        self.held[place] = 0;
        self.reading = None;
    }

    /// Reads the register for a quorum of this board, and returns the number read. `quorum` is its
    /// number in the coterie of that side, which must have it: on a board of one coterie, the second
    /// has none. The seat must hold the vote of every member, so the client is inside. The board
    /// must be the seat's.
    ///
    /// The reading keeps the quorum's place in the board's list, in which the second coterie's
    /// quorums come after the first's.
    ///
    /// The number is above each of the client's pass numbers. It stays the register's number while
    /// the reading counts.
    pub fn read_register(&mut self, board: &Board, side: Side, quorum: usize) -> u64
        requires table { self.old.table ≡ board.now.table }
        requires quorum { HasQuorum board.now.firsts board.now.quorums side quorum }
        requires held { HoldsAll (quorum_at board.now.quorums (place_of board.now.firsts side quorum)) self.old.held }
        ensures read { self.new
            ≡ record self.old { reading = Some (place_of board.now.firsts side quorum, result) } }
        ensures above { All (λ x. x < result) self.old.passes }
        ensures table { self.new.table ≡ self.old.table }
    {
        let place = board.place(side, quorum);
        let word = board.sheet.voters();
        let number = read::<Brand>(&board.table, &mut self.seat, word, place);
        self.reading = Some((place, number));
        number
    }

    /// Passes: writes the number read plus one to the register, and returns the number read, which
    /// is now a pass number of this client. There must be a reading, and it is used up. The board
    /// must be the seat's.
    ///
    /// Fails with `RegisterFull` if the number read is the board's limit, and otherwise with
    /// `OutOfMemory` if there is no memory for one more pass number. A failure changes nothing.
    pub fn write_register(&mut self, board: &Board) -> Result<u64, BoardFault>
        requires table { self.old.table ≡ board.now.table }
        requires reading { IsSome self.old.reading }
        ensures passed { IfOk result (λ x. IfSome self.old.reading (λ r. r.1 ≡ x) × (x ≢ board.now.limit)
            × (self.new ≡ record self.old { reading = None; passes = self.old.passes ++ x ∷ [] })) }
        ensures limit { IfSome self.old.reading (λ r. r.1 ≡ board.now.limit) → result ≡ Err BoardFault.RegisterFull }
        ensures full { IfErr result (λ e.
            e ≡ BoardFault.RegisterFull → IfSome self.old.reading (λ r. r.1 ≡ board.now.limit)) }
        ensures faults { IfErr result (λ e. (e ≡ BoardFault.RegisterFull) ⊎ (e ≡ BoardFault.OutOfMemory)) }
        ensures kept { IfErr result (λ _. self.new ≡ self.old) }
        ensures table { self.new.table ≡ self.old.table }
    {
        let (_, number) = self.reading.unwrap();
        let limit = board.sheet.limit();
        if number == limit {
            return Err(BoardFault::RegisterFull);
        }
        if self.passes.reserve(1).is_err() {
            return Err(BoardFault::OutOfMemory);
        }
        let word = board.sheet.voters();
        board
            .table
            .shared
            .store::<Write>(&mut self.seat, word, number + 1);
        self.passes.push_reserved(number);
        self.reading = None;
        Ok(number)
    }
}

/// Reads the register, which is at place `word`, for a quorum.
fn read<J: Number>(table: &VoteTable, seat: &mut Seat<(), View>, word: usize, quorum: usize) -> u64
    requires pick { quorum ≡ J.number }
    requires table { (seat.old.table_id ≡ table.now.shared.table_id) × (word < table.now.shared.table_id.words)
        × (word ≡ table.now.shared.key.voters) }
    requires quorum { (quorum < length table.now.shared.key.quorums)
        × HoldsAll (quorum_at table.now.shared.key.quorums quorum) seat.old.me.0.held }
    ensures table { seat.new.table_id ≡ seat.old.table_id }
    ensures seat { Read quorum (step 0 0 0 0 none) seat.old.me result seat.new.me }
{
    table.shared.load::<ReadFor<J>>(seat, word)
}
