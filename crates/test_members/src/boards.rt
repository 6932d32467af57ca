//! The vote and the register of a board of one voter, one client and limit 1.
ghost use Rattle.std.specs.Prelude.{◌≡◌, ◌∷◌, [], Some, None, IsSome, IfSome, slice_index, slice_index_or, true, false};
ghost use Rattle.board.specs.Words.{nobody};

use board::{Board, BoardFault, BoardRoot, ClientSeat, Total, VoterSeat};
use quorum_set::{Coterie, QSet, Side};
use std::alloc::Global;

/// Returns the set of voter 0 alone.
fn zero() -> QSet
    ensures { result ≡ 0 ∷ [] }
{
    let mut set = QSet::empty();
    set.insert(0);
    set
}

/// Returns the coterie of one voter, with one quorum.
fn one(alloc: Global) -> Option<Coterie>
    ensures { IfSome result (λ c. c ≡ record { voters = 1; quorums = (0 ∷ []) ∷ [] }) }
{
    let Ok(sets) = vec![in alloc; zero()] else {
        return None;
    };
    Coterie::of(1, sets).ok()
}

/// Returns the board, and its root with both seats.
fn board_of_one(alloc: Global) -> Option<(Board, BoardRoot)>
    ensures board { IfSome result (λ p. (p.0.voters ≡ 1) × (p.0.quorums ≡ (0 ∷ []) ∷ []) × (p.0.firsts ≡ 1) × (p.0.clients ≡ 1)) }
    ensures root { IfSome result (λ p. p.1.table ≡ p.0.table) }
    ensures voter { IfSome result (λ p. slice_index_or p.1.voters 0 false ≡ true) }
    ensures client { IfSome result (λ p. slice_index_or p.1.clients 0 false ≡ true) }
{
    match one(alloc) {
        Some(coterie) => Board::new(alloc, &coterie, 1, 1).ok(),
        None => None,
    }
}

/// The board, its root, and the seats of the voter and of the client.
type Seated = (Board, BoardRoot, VoterSeat, ClientSeat);

/// Returns them. Nothing has happened yet.
fn seated(alloc: Global) -> Option<Seated>
    ensures board { IfSome result (λ p. (p.0.voters ≡ 1) × (p.0.quorums ≡ (0 ∷ []) ∷ []) × (p.0.firsts ≡ 1) × (p.0.clients ≡ 1)) }
    ensures root { IfSome result (λ p. p.1.table ≡ p.0.table) }
    ensures voter { IfSome result (λ p. p.2 ≡ record { table = p.0.table; voter = 0; current = None; last = 0 }) }
    ensures client { IfSome result (λ p. p.3 ≡ record { table = p.0.table; client = 0; held = nobody; reading = None; passes = [] }) }
{
    let (board, mut root) = board_of_one(alloc)?;
    let voter = root.voter(&board, 0);
    let client = root.client(&board, 0);
    Some((board, root, voter, client))
}

/// Returns whether the client takes the vote once it is offered, and not before. Then the voter can't
/// settle the grant.
fn takes_what_is_offered(board: &Board, voter: &mut VoterSeat, client: &mut ClientSeat) -> bool
    requires sizes { (board.now.voters ≡ 1) × (board.now.clients ≡ 1) }
    requires voter { voter.old ≡ record { table = board.now.table; voter = 0; current = None; last = 0 } }
    requires client { client.old ≡ record { table = board.now.table; client = 0; held = nobody; reading = None; passes = [] } }
    ensures granted { result ≡ true → IsSome voter.new.current }
    ensures held { result ≡ true → slice_index client.new.held 0 ≡ 1 }
    ensures voter { voter.new.table ≡ board.now.table }
    ensures client { client.new.table ≡ board.now.table }
{
    if client.take(board, 0, 1) {
        return false;
    }
    voter.grant(board, 0, 1);
    client.take(board, 0, 1) && !voter.settle(board)
}

/// Has the client, which holds the vote, pass. Returns the number that it reads, and the number that it
/// writes or the fault.
fn pass(board: &Board, client: &mut ClientSeat) -> (u64, Result<u64, BoardFault>)
    requires table { client.old.table ≡ board.now.table }
    requires quorums { (board.now.quorums ≡ (0 ∷ []) ∷ []) × (board.now.firsts ≡ 1) }
    requires held { slice_index client.old.held 0 ≡ 1 }
    ensures table { client.new.table ≡ client.old.table }
    ensures held { client.new.held ≡ client.old.held }
{
    let number = client.read_register(board, Side::First, 0);
    (number, client.write_register(board))
}

/// Returns whether the client, which holds the vote, passes up to the limit 1, and not again.
fn passes_once(board: &Board, client: &mut ClientSeat) -> bool
    requires table { client.old.table ≡ board.now.table }
    requires quorums { (board.now.quorums ≡ (0 ∷ []) ∷ []) × (board.now.firsts ≡ 1) }
    requires held { slice_index client.old.held 0 ≡ 1 }
    ensures table { client.new.table ≡ client.old.table }
    ensures held { client.new.held ≡ client.old.held }
{
    let first = pass(board, client);
    let second = pass(board, client);
    (first == (0, Ok(0))) & (second == (1, Err(BoardFault::RegisterFull)))
}

/// Returns the client's seat, if it can't join because of the vote of voter 0.
fn stays_out(board: &Board, root: &mut BoardRoot, client: ClientSeat) -> Option<ClientSeat>
    requires root { root.old.table ≡ board.now.table }
    requires client { client.table ≡ board.now.table }
    ensures root { root.new.table ≡ root.old.table }
    ensures client { IfSome result (λ c. c ≡ client) }
{
    match root.join_client(board, client) {
        Err((client, BoardFault::VoteOut(0))) => Some(client),
        _ => None,
    }
}

/// Has the client, which holds the vote, give it back, the voter settle it, and both seats join.
fn come_back(board: &Board, root: &mut BoardRoot, mut voter: VoterSeat, mut client: ClientSeat)
    requires root { root.old.table ≡ board.now.table }
    requires voter { (voter.table ≡ board.now.table) × IsSome voter.current }
    requires client { (client.table ≡ board.now.table) × (slice_index client.held 0 ≡ 1) }
    ensures root { root.new.table ≡ root.old.table }
{
    client.give_back(board, 0);
    voter.settle(board);
    let _ = root.join_voter(board, voter);
    let _ = root.join_client(board, client);
}

/// Has the client take the vote, pass and give the vote back. If a step goes wrong, no seat joins.
fn plays(board: &Board, root: &mut BoardRoot, mut voter: VoterSeat, mut client: ClientSeat)
    requires sizes { (board.now.voters ≡ 1) × (board.now.clients ≡ 1) }
    requires quorums { (board.now.quorums ≡ (0 ∷ []) ∷ []) × (board.now.firsts ≡ 1) }
    requires root { root.old.table ≡ board.now.table }
    requires voter { voter ≡ record { table = board.now.table; voter = 0; current = None; last = 0 } }
    requires client { client ≡ record { table = board.now.table; client = 0; held = nobody; reading = None; passes = [] } }
    ensures root { root.new.table ≡ root.old.table }
{
    let passed = takes_what_is_offered(board, &mut voter, &mut client)
        && passes_once(board, &mut client);
    if !passed {
        return;
    }
    match stays_out(board, root, client) {
        Some(client) => come_back(board, root, voter, client),
        None => {}
    }
}

/// Returns what the board closes with after that.
fn closed(alloc: Global) -> Option<Total> {
    let (board, mut root, voter, client) = seated(alloc)?;
    plays(&board, &mut root, voter, client);
    board.close(root).ok()
}

#[test]
fn a_client_passes_up_to_the_limit_and_comes_back(rt: HostRuntime) {
    let passed = match closed(rt.alloc()) {
        Some(total) => (total.register == 1) & (total.passes.as_slice() == [(0, 0)].as_slice()),
        None => false,
    };
    assert!(rt; passed);
}

/// Returns the fault of a board that is closed without its seats, or at least without the voter's.
fn fault_without_seats(alloc: Global, client_joins: bool) -> Option<BoardFault> {
    let (board, mut root, voter, client) = seated(alloc)?;
    drop(voter);
    if client_joins {
        let _ = root.join_client(&board, client);
    } else {
        drop(client);
    }
    board.close(root).err()
}

#[test]
fn seats_that_are_lost_are_reported(rt: HostRuntime) {
    for (client_joins, lost) in [(true, 1), (false, 2)] {
        let fault = fault_without_seats(rt.alloc(), client_joins);
        assert!(rt; fault == Some(BoardFault::SeatsOut(lost)));
    }
}
