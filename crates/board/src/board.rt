//! The board, on which all seats make their steps.
ghost use Rattle.std.specs.Prelude.{◌≡◌, ℕ, ◌+◌, ◌-◌, ◌*◌, ◌<◌, ◌≤◌, ◌++◌, true, false, IfOk, IfErr, map, nat_lt, length, replicate, slice_index_or};
ghost use Rattle.std.specs.List.{sum_by};
ghost use Rattle.numbers.specs.Bounds.{max_voters, max_quorums, max_clients, max_tickets};
ghost use Rattle.numbers.specs.Sums.{AreAllBelow};
ghost use Rattle.quorum_set.specs.Meetings.{AllMeet};
ghost use Rattle.board.specs.Quorums.{place_of, HasQuorum};
ghost use Rattle.board.specs.Roots.{IsNewBoard, weight};
ghost use Rattle.board.specs.Seats.{BoardState};

use crate::fault::BoardFault;
use crate::root::BoardRoot;
use crate::table::{Sheet, VoteTable};
use numbers::MAX_VOTERS;
use quorum_set::{Bridge, Coterie, QSet, Side};
use std::alloc::{AllocError, Global};
use std::marker::Model;

/// One word for each voter's vote and one for the register. Threads share it through a `&`.
/// Contracts see a `BoardState`.
#[derive(Drop)]
pub struct Board {
    pub(crate) table: VoteTable,
    pub(crate) sheet: Sheet,
    /// How many of the quorums are those of the first coterie.
    pub(crate) firsts: usize,
}

impl Model for Board {
    ghost use Rattle.board.specs.Invariants.{IsBoard};
    ghost use Rattle.board.specs.Seats.{BoardState};

    ghost Value = { BoardState };

    ghost view = { λ b. record {
      table = b.table.shared.table_id;
      voters = b.sheet.voters;
      quorums = b.sheet.quorums;
      firsts = b.firsts;
      clients = b.sheet.clients;
      limit = b.sheet.limit;
    } };

    ghost invariant = { λ b. IsBoard b.table.shared.key b.table.shared.table_id b.sheet b.firsts };
}

impl Board {
    /// Creates a board for a coterie's voters and `clients` clients (1 to 64), and the root with
    /// all its seats. All votes are free, and the register is 0. Its highest number is `limit`,
    /// from 1 to 2^63. Fails if it runs out of memory.
    pub fn new(
        alloc: Global,
        coterie: &Coterie,
        clients: u8,
        limit: u64,
    ) -> Result<(Board, BoardRoot), AllocError>
        requires some_client { 1 ≤ clients }
        requires few_clients { clients ≤ max_clients }
        requires some_number { 1 ≤ limit }
        requires limit { limit ≤ max_tickets }
        ensures { IfOk result
            (IsNewBoard coterie.now.voters coterie.now.quorums (length coterie.now.quorums) clients limit) }
    {
        let quorums = quorums_of(alloc, coterie)?;
        let (voters, firsts) = (coterie.voters(), coterie.count());
        Board::over(alloc, voters, quorums, firsts, clients, limit)
    }

    /// Creates a board for two coteries over the same voters, of which quorums may be in use at
    /// once. The list of its quorums has the first coterie's and then the second's. All else is as
    /// `new` has it. Fails if it runs out of memory.
    pub fn bridged(
        alloc: Global,
        bridge: &Bridge,
        clients: u8,
        limit: u64,
    ) -> Result<(Board, BoardRoot), AllocError>
        requires some_client { 1 ≤ clients }
        requires few_clients { clients ≤ max_clients }
        requires some_number { 1 ≤ limit }
        requires limit { limit ≤ max_tickets }
        ensures { IfOk result
            (IsNewBoard bridge.now.first.voters (bridge.now.first.quorums ++ bridge.now.second.quorums)
            (length bridge.now.first.quorums) clients limit) }
    {
        let quorums = joint_quorums(alloc, bridge)?;
        let (voters, firsts) = (bridge.first().voters(), bridge.first().count());
        Board::over(alloc, voters, quorums, firsts, clients, limit)
    }

    /// Creates a board for these voters and quorums. Any two of the quorums meet, and the first
    /// `firsts` of them are those of the first coterie.
    fn over(
        alloc: Global,
        voters: usize,
        quorums: Vec<QSet>,
        firsts: usize,
        clients: u8,
        limit: u64,
    ) -> Result<(Board, BoardRoot), AllocError>
        requires some_voter { 1 ≤ voters }
        requires few_voters { voters ≤ max_voters }
        requires meet { AllMeet voters quorums.items }
        requires firsts { firsts ≤ length quorums.items }
        requires few_quorums { length quorums.items ≤ 2 * max_quorums }
        requires some_client { 1 ≤ clients }
        requires few_clients { clients ≤ max_clients }
        requires some_number { 1 ≤ limit }
        requires limit { limit ≤ max_tickets }
        ensures { IfOk result (IsNewBoard voters quorums.items firsts clients limit) }
    {
        let words = zeros(alloc, voters + 1)?;
        let sheet = Sheet {
            voters,
            quorums,
            clients,
            limit,
        };
        let (table, seat) = VoteTable::of_words(alloc, words.as_slice(), &sheet)?;
        let board = Board {
            table,
            sheet,
            firsts,
        };
        let root = BoardRoot {
            seat,
            seats: voters as u64 + u64::from(clients),
            voters: first(voters as u64),
            clients: first(u64::from(clients)),
            passes: Vec::new(alloc),
        };
        Ok((board, root))
    }

    /// Returns the number of voters, 1 to 64.
    pub fn voters(&self) -> usize
        ensures value { result ≡ self.now.voters }
        ensures some_voter { 1 ≤ self.now.voters }
        ensures few { self.now.voters ≤ max_voters }
        ensures meet { AllMeet self.now.voters self.now.quorums }
    {
        self.sheet.voters()
    }

    /// Returns the number of clients, 1 to 64.
    pub fn clients(&self) -> u8
        ensures value { result ≡ self.now.clients }
        ensures some_client { 1 ≤ self.now.clients }
        ensures few { self.now.clients ≤ max_clients }
    {
        self.sheet.clients()
    }

    /// Returns the highest number of the register, 1 to 2^63.
    pub fn limit(&self) -> u64
        ensures value { result ≡ self.now.limit }
        ensures some_number { 1 ≤ self.now.limit }
        ensures fits { self.now.limit ≤ max_tickets }
    {
        self.sheet.limit()
    }

    /// Returns the place of a coterie's quorum in the list of all quorums. The coterie has to have
    /// that quorum.
    pub(crate) fn place(&self, side: Side, quorum: usize) -> usize
        requires { HasQuorum self.now.firsts self.now.quorums side quorum }
        ensures place { result ≡ place_of self.now.firsts side quorum }
        ensures in_range { result < length self.now.quorums }
    {
        match side {
            Side::First => quorum,
            Side::Second => self.firsts + quorum,
        }
    }

    /// Closes the board and returns the register and all passes. Fails with `SeatsOut(n)` if n
    /// seats were given and not joined again. Allocates no memory.
    pub fn close(self, root: BoardRoot) -> Result<Total, BoardFault>
        requires { root.table ≡ self.table }
        ensures joined { IfOk result (λ _. root.seats ≡ self.voters + self.clients) }
        ensures register { IfOk result (λ t. t.register ≡ length root.passes) }
        ensures passes { IfOk result (λ t. t.passes.items ≡ root.passes) }
        ensures once { IfOk result (λ t. AreAllBelow (map (λ p. p.1) root.passes) t.register) }
        ensures out { IfErr result (λ e. (root.seats < self.voters + self.clients)
            × (e ≡ BoardFault.SeatsOut (self.voters + self.clients - root.seats))) }
    {
        let Board {
            table,
            sheet,
            firsts: _,
        } = self;
        let BoardRoot {
            seat,
            seats,
            voters: _,
            clients: _,
            passes,
        } = root;
        let closed = table.close_with(seat);
        let register = closed.word(sheet.voters());
        closed.free();
        let count = sheet.voters() as u64 + u64::from(sheet.clients()) - seats;
        if count > 0 {
            return Err(BoardFault::SeatsOut(count));
        }
        Ok(Total { register, passes })
    }
}

/// The register and the passes of a board that was closed.
#[derive(Debug, Drop)]
pub struct Total {
    /// The number of all passes.
    pub register: u64,
    /// Each pass as its client and its number, in the order in which the seats were joined. Numbers
    /// start at 0.
    pub passes: Vec<(u8, u64)>,
}

/// Returns the quorums of a coterie, each as the set of its members.
fn quorums_of(alloc: Global, coterie: &Coterie) -> Result<Vec<QSet>, AllocError>
    ensures { IfOk result (λ v. v.items ≡ coterie.now.quorums) }
{
    let mut quorums = Vec::with_capacity(alloc, coterie.count())?;
    for j in 0..coterie.count() {
        quorums.push(coterie.quorum(j).copy())?;
    }
    Ok(quorums)
}

/// Returns the quorums of the first coterie and then those of the second.
fn joint_quorums(alloc: Global, bridge: &Bridge) -> Result<Vec<QSet>, AllocError>
    ensures { IfOk result (λ v. v.items ≡ bridge.now.first.quorums ++ bridge.now.second.quorums) }
{
    let mut quorums = quorums_of(alloc, bridge.first())?;
    let mut others = quorums_of(alloc, bridge.second())?;
    quorums.append(&mut others)?;
    Ok(quorums)
}

/// Returns 64 flags: the first `count` are true, the others false.
fn first(count: u64) -> [bool; MAX_VOTERS]
    requires { count ≤ max_voters }
    ensures first { (k : ℕ) → slice_index_or result k false ≡ nat_lt k count }
    ensures sum { sum_by weight result ≡ count }
{
    let mut flags = none();
    for i in 0..count {
        flags[i as usize] = true;
    }
    flags
}

/// Returns 64 flags, all false.
fn none() -> [bool; MAX_VOTERS]
    ensures { result ≡ replicate max_voters false }
{
    [false; MAX_VOTERS]
}

/// Returns `count` zeros.
fn zeros(alloc: Global, count: usize) -> Result<Vec<u64>, AllocError>
    ensures { IfOk result (λ v. v.items ≡ replicate count 0) }
{
    Vec::from_elem(alloc, 0, count)
}
