//! The root of a board, which gives the seats and takes them back.
ghost use Rattle.std.specs.Prelude.{◌≡◌, ◌≢◌, ℕ, ◌+◌, ◌-◌, ◌<◌, ◌≤◌, ◌++◌, [], length, true, false, None, IsSome, MatchOption, MatchResult, IfOk, IfErr, slice_index, slice_index_or, slice_set};
ghost use Rattle.numbers.specs.Bounds.{max_voters, max_clients};
ghost use Rattle.board.specs.Faults.{IsOut};
ghost use Rattle.board.specs.Roots.{passes_of};
ghost use Rattle.board.specs.Seats.{RootState};
ghost use Rattle.board.specs.Views.{voter_view, client_view, without_voter, without_client, with_voter};
ghost use Rattle.board.specs.Words.{nobody};

use crate::board::Board;
use crate::client::ClientSeat;
use crate::fault::BoardFault;
use crate::table::{ClientBack, ClientPart, Count, Number, View, VoteTable, VoterPart};
use crate::voter::VoterSeat;
use atomic_table::Seat;
use numbers::{MAX_CLIENTS, MAX_VOTERS};
use std::alloc::{AllocError, Global};
use std::marker::{Brand, Model};

/// The root of a board. It gives each voter's and each client's seat once, and takes seats back.
/// Contracts see a `RootState`.
#[derive(Drop)]
pub struct BoardRoot {
    pub(crate) seat: Seat<(), View>,
    /// How many seats it has: those never given, and those joined again.
    pub(crate) seats: u64,
    /// For each voter, whether its seat was never given.
    pub(crate) voters: [bool; MAX_VOTERS],
    /// For each client, whether its seat was never given.
    pub(crate) clients: [bool; MAX_CLIENTS],
    /// The passes of the joined seats, each as its client and its number.
    pub(crate) passes: Vec<(u8, u64)>,
}

impl Model for BoardRoot {
    ghost use Rattle.board.specs.Invariants.{IsRootSeat};
    ghost use Rattle.board.specs.Seats.{RootState};

    ghost Value = { RootState };

    ghost view = { λ r. record {
      table = r.seat.table_id;
      seats = r.seats;
      voters = r.voters;
      clients = r.clients;
      passes = r.passes.items;
    } };

    ghost invariant = { λ r. IsRootSeat r.seat.me r.seat.table_id r.seats r.voters r.clients r.passes.items };
}

impl BoardRoot {
    /// Returns whether this is a voter's number and its seat was never given.
    pub fn has_voter(&self, voter: u8) -> bool
        ensures { result ≡ slice_index_or self.now.voters voter false }
    {
        match self.voters.get(usize::from(voter)) {
            Some(free) => *free,
            None => false,
        }
    }

    /// Returns whether this is a client's number and its seat was never given.
    pub fn has_client(&self, client: u8) -> bool
        ensures { result ≡ slice_index_or self.now.clients client false }
    {
        match self.clients.get(usize::from(client)) {
            Some(free) => *free,
            None => false,
        }
    }

    /// Gives the seat of a voter. The seat must not have been given before. It has no current
    /// grant.
    pub fn voter(&mut self, board: &Board, voter: u8) -> VoterSeat
        requires table { self.old.table ≡ board.now.table }
        requires there { slice_index_or self.old.voters voter false ≡ true }
        ensures given { result ≡ record { table = board.now.table; voter = voter; current = None; last = 0 } }
        ensures left { self.new ≡ record self.old {
          seats = self.old.seats - 1;
          voters = slice_set self.old.voters voter false;
        } }
        ensures table { self.new.table ≡ self.old.table }
    {
        let seat = cut_voter::<Brand>(&board.table, &mut self.seat, voter);
        self.seats -= 1;
        self.voters[usize::from(voter)] = false;
        VoterSeat {
            seat,
            voter,
            current: None,
            last: 0,
        }
    }

    /// Gives the seat of a client. The seat must not have been given before. It holds no vote and
    /// has not passed.
    pub fn client(&mut self, board: &Board, client: u8) -> ClientSeat
        requires table { self.old.table ≡ board.now.table }
        requires there { slice_index_or self.old.clients client false ≡ true }
        ensures given { result ≡ record {
          table = board.now.table;
          client = client;
          held = nobody;
          reading = None;
          passes = [];
        } }
        ensures left { self.new ≡ record self.old {
          seats = self.old.seats - 1;
          clients = slice_set self.old.clients client false;
        } }
        ensures table { self.new.table ≡ self.old.table }
    {
        let seat = cut_client::<Brand>(&board.table, &mut self.seat, client);
        self.seats -= 1;
        self.clients[usize::from(client)] = false;
        fresh_client(*self.passes.allocator(), seat, client)
    }

    /// Takes a voter's seat back. If the voter has a current grant, returns the seat with `VoteOut`
    /// and changes nothing. Allocates no memory.
    pub fn join_voter(
        &mut self,
        board: &Board,
        other: VoterSeat,
    ) -> Result<(), (VoterSeat, BoardFault)>
        requires table { self.old.table ≡ board.now.table }
        requires other { other.table ≡ board.now.table }
        ensures joined { IfOk result (λ _.
            (other.current ≡ None) × (self.new ≡ record self.old { seats = self.old.seats + 1 })) }
        ensures out { IfErr result (λ e. IsSome other.current × (e.1 ≡ BoardFault.VoteOut other.voter)) }
        ensures kept { IfErr result (λ e. (e.0 ≡ other) × (self.new ≡ self.old)) }
        ensures table { self.new.table ≡ self.old.table }
    {
        if other.current.is_some() {
            let voter = other.voter;
            return Err((other, BoardFault::VoteOut(voter)));
        }
        let VoterSeat {
            seat,
            voter,
            current: _,
            last: _,
        } = other;
        join_voter_seat::<Brand>(&board.table, &mut self.seat, seat, voter);
        self.seats += 1;
        Ok(())
    }

    /// Takes a client's seat back, and appends its passes to those that the root has.
    ///
    /// On failure, returns the seat with the fault and changes nothing. If the client holds votes,
    /// the fault is `VoteOut` with the smallest such voter. Otherwise it is `OutOfMemory`: there is
    /// no memory for the passes.
    pub fn join_client(
        &mut self,
        board: &Board,
        other: ClientSeat,
    ) -> Result<(), (ClientSeat, BoardFault)>
        requires table { self.old.table ≡ board.now.table }
        requires other { other.table ≡ board.now.table }
        ensures joined { IfOk result (λ _. self.new ≡ record self.old {
          seats = self.old.seats + 1;
          passes = self.old.passes ++ passes_of other.client other.passes;
        }) }
        ensures none_held { IfOk result (λ _. (v : ℕ) → slice_index other.held v ≡ 0) }
        ensures out { IfErr result (λ e. IsOut other.held e.1) }
        ensures kept { IfErr result (λ e. (e.0 ≡ other) × (self.new ≡ self.old)) }
        ensures table { self.new.table ≡ self.old.table }
    {
        match first_held(&other.held) {
            Some(voter) => return Err((other, BoardFault::VoteOut(voter))),
            None => {}
        }
        match append(&mut self.passes, other.client, other.passes.as_slice()) {
            Err(_) => return Err((other, BoardFault::OutOfMemory)),
            Ok(()) => {}
        }
        let ClientSeat {
            seat,
            client: _,
            held: _,
            reading: _,
            passes: _,
        } = other;
        let shared = &board.table.shared;
        shared.join_seat::<ClientBack>(&mut self.seat, seat);
        shared.load::<Count>(&mut self.seat, 0);
        self.seats += 1;
        Ok(())
    }
}

/// Returns the smallest voter whose vote is held.
fn first_held(held: &[u64; MAX_VOTERS]) -> Option<u8>
    ensures { MatchOption result ((v : ℕ) → slice_index held.now v ≡ 0)
        (λ v. (slice_index held.now v ≢ 0) × ((k : ℕ) → k < v → slice_index held.now k ≡ 0)) }
{
    for voter in 0..MAX_VOTERS as u8 {
        if held[usize::from(voter)] != 0 {
            return Some(voter);
        }
    }
    None
}

/// Appends a client's numbers to the passes. Changes nothing if it runs out of memory.
fn append(passes: &mut Vec<(u8, u64)>, client: u8, numbers: &[u64]) -> Result<(), AllocError>
    ensures { MatchResult result (λ _. passes.new.items ≡ passes.old.items ++ passes_of client numbers.now)
        (λ _. passes.new.items ≡ passes.old.items) }
{
    passes.reserve(numbers.len())?;
    for number in numbers {
        passes.push_reserved((client, *number));
    }
    Ok(())
}

/// Splits the seat of a voter off the root's.
fn cut_voter<N: Number>(table: &VoteTable, seat: &mut Seat<(), View>, voter: u8) -> Seat<(), View>
    requires pick { voter ≡ N.number }
    requires table { (seat.old.table_id ≡ table.now.shared.table_id) × (0 < table.now.shared.table_id.words) }
    requires there { (voter < max_voters) × (length seat.old.me.0.voters ≡ max_voters)
        × (slice_index seat.old.me.0.voters voter ≡ 1) × (1 < seat.old.me.0.parts) }
    ensures kept { (seat.new.table_id ≡ seat.old.table_id)
        × (seat.new.me ≡ (without_voter voter seat.old.me.0, seat.old.me.1)) }
    ensures given { (result.table_id ≡ seat.old.table_id) × (result.me ≡ (voter_view voter None, [])) }
{
    table.shared.split_seat::<VoterPart<N>>(seat)
}

/// Joins a voter's seat into the root's, which then stands for at most 129 seats, itself included.
fn join_voter_seat<N: Number>(
    table: &VoteTable,
    seat: &mut Seat<(), View>,
    other: Seat<(), View>,
    voter: u8,
)
    requires pick { voter ≡ N.number }
    requires table { (seat.old.table_id ≡ table.now.shared.table_id) × (other.table_id ≡ table.now.shared.table_id)
        × (0 < table.now.shared.table_id.words) }
    requires root { (voter < table.now.shared.key.voters) × (voter < max_voters)
        × (length seat.old.me.0.voters ≡ max_voters) × (seat.old.me.0.client ≡ 0) × (seat.old.me.0.held ≡ []) }
    requires other { other.me ≡ (voter_view voter None, []) }
    ensures { (seat.new.table_id ≡ seat.old.table_id)
        × (seat.new.me ≡ (with_voter voter seat.old.me.0 (voter_view voter None), seat.old.me.1))
        × (seat.new.me.0.parts ≤ 129) }
{
    table.shared.join_seat::<VoterPart<N>>(seat, other);
    table.shared.load::<Count>(seat, 0);
}

/// Splits the seat of a client off the root's.
fn cut_client<N: Number>(table: &VoteTable, seat: &mut Seat<(), View>, client: u8) -> Seat<(), View>
    requires pick { client ≡ N.number }
    requires table { (seat.old.table_id ≡ table.now.shared.table_id) × (0 < table.now.shared.table_id.words) }
    requires there { (client < max_clients) × (1 < seat.old.me.0.parts) }
    ensures kept { (seat.new.table_id ≡ seat.old.table_id)
        × (seat.new.me ≡ (without_client seat.old.me.0, seat.old.me.1)) }
    ensures given { (result.table_id ≡ seat.old.table_id) × (result.me ≡ (client_view client nobody None [], [])) }
{
    table.shared.split_seat::<ClientPart<N>>(seat)
}

/// Returns the seat of a client that has done nothing.
fn fresh_client(alloc: Global, seat: Seat<(), View>, client: u8) -> ClientSeat
    requires { (seat.me ≡ (client_view client nobody None [], [])) × (client < max_clients) }
    ensures { result ≡ record { table = seat.table_id; client = client; held = nobody; reading = None; passes = [] } }
{
    ClientSeat {
        seat,
        client,
        held: no_votes(),
        reading: None,
        passes: Vec::new(alloc),
    }
}

/// Returns a 0 for each voter: no vote is held.
fn no_votes() -> [u64; MAX_VOTERS]
    ensures { result ≡ nobody }
{
    [0; MAX_VOTERS]
}
