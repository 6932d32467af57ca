//! Every voter's node serves every client: it drops no message that it has to take, and takes none that
//! would free a vote that is taken.
ghost use Rattle.std.specs.Prelude.{◌≡◌, ◌<◌, ◌≤◌, None, IfSome};

use board::{Board, ClientSeat, VoterSeat};
use message::{ToVoter, VoterBody};
use node::{ClusterName, Node};
use quorum_set::{Coterie, QSet};
use std::alloc::Global;
use std::marker::Brand;

/// Returns whether a node takes this message, or `None` if memory runs out.
fn hears<N: ClusterName>(
    board: &Board,
    node: &mut Node<N>,
    client: u8,
    body: VoterBody,
) -> Option<bool>
    requires board { board.now ≡ N.cluster.board }
    ensures number { node.new.number ≡ node.old.number }
{
    if client >= board.clients() {
        return None;
    }
    let message = ToVoter {
        client,
        voter: node.number(),
        body,
    };
    match node.take(board, &message) {
        Ok(replies) => Some(replies.is_some()),
        Err(_) => None,
    }
}

/// Returns whether a client can take a voter's vote under this grant, from 1 to 3.
fn takes(board: &Board, seat: &mut ClientSeat, voter: u8, grant: u64) -> bool
    requires grant { (1 ≤ grant) × (grant ≤ 3) }
    requires table { seat.old.table ≡ board.now.table }
    ensures table { seat.new.table ≡ seat.old.table }
{
    usize::from(voter) < board.voters()
        && seat.held(voter).is_none()
        && seat.take(board, voter, grant)
}

/// Gives back a voter's vote, and returns whether the client had it.
fn gives(board: &Board, seat: &mut ClientSeat, voter: u8) -> bool
    requires table { seat.old.table ≡ board.now.table }
    ensures table { seat.new.table ≡ seat.old.table }
{
    if seat.held(voter).is_none() {
        return false;
    }
    seat.give_back(board, voter);
    true
}

/// Returns whether a node grants its vote to the late client, takes it back for the early one, whose
/// request comes first, and grants it again. It has to drop a message that would free the vote while it
/// is taken.
fn serves<N: ClusterName>(
    board: &Board,
    node: &mut Node<N>,
    late: &mut ClientSeat,
    early: &mut ClientSeat,
) -> bool
    requires board { board.now ≡ N.cluster.board }
    requires late { late.old.table ≡ board.now.table }
    requires early { early.old.table ≡ board.now.table }
{
    let (voter, last, first) = (node.number(), late.client(), early.client());
    let relinquish = VoterBody::Relinquish { grant: 1 };
    let asked = hears(board, node, last, VoterBody::Request { stamp: 2 });
    let took = takes(board, late, voter, 1);
    let asked_too = hears(board, node, first, VoterBody::Request { stamp: 1 });
    let dropped = hears(board, node, last, relinquish);
    let gave = gives(board, late, voter);
    let relinquished = hears(board, node, last, relinquish);
    let took_too = takes(board, early, voter, 2);
    let gave_too = gives(board, early, voter);
    let released = hears(board, node, first, VoterBody::Release { stamp: 1 });
    let heard = [asked, asked_too, dropped, relinquished, released];
    (heard == [Some(true), Some(true), Some(false), Some(true), Some(true)])
        & took
        & gave
        & took_too
        & gave_too
}

/// Does the same with a node of its own. Its last offer has to end with it.
fn is_served<N: ClusterName>(
    alloc: Global,
    board: &Board,
    seat: VoterSeat,
    late: &mut ClientSeat,
    early: &mut ClientSeat,
) -> bool
    requires board { board.now ≡ N.cluster.board }
    requires clients { board.now.clients ≤ 64 }
    requires voter { (seat.voter < board.now.voters) × (seat.voter < 64) }
    requires fresh { (seat.table ≡ board.now.table) × (seat.current ≡ None) × (seat.last ≡ 0) }
    requires late { late.old.table ≡ board.now.table }
    requires early { early.old.table ≡ board.now.table }
{
    let mut node: Node<N> = Node::new(alloc, seat);
    let served = serves(board, &mut node, late, early);
    served & node.into_seat(board).current().is_none()
}

/// Returns the coterie of one quorum of 64 voters, or `None` if memory runs out.
fn all_voters(alloc: Global) -> Option<Coterie>
    ensures { IfSome result (λ c. c.voters ≡ 64) }
{
    let sets = vec![in alloc; QSet::of_bits(u64::MAX)].ok()?;
    Coterie::of(64, sets).ok()
}

/// Returns whether this voter serves this client and the next one, on a board of their own.
fn pair_is_served(alloc: Global, coterie: &Coterie, voter: u8, client: u8) -> bool
    requires coterie { coterie.now.voters ≡ 64 }
    requires numbers { (voter < 64) × (client < 64) }
{
    let Ok((board, mut root)) = Board::new(alloc, coterie, 64, 1) else {
        return false;
    };
    let seat = root.voter(&board, voter);
    let mut late = root.client(&board, client);
    let mut early = root.client(&board, (client + 1) % 64);
    is_served::<Brand>(alloc, &board, seat, &mut late, &mut early)
}

/// Returns the first voter, and the first client that it does not serve, if there are such.
fn first_unserved(alloc: Global, coterie: &Coterie) -> Option<(u8, u8)>
    requires { coterie.now.voters ≡ 64 }
{
    for voter in 0..64u8 {
        for client in 0..64u8 {
            if !pair_is_served(alloc, coterie, voter, client) {
                return Some((voter, client));
            }
        }
    }
    None
}

#[test]
fn every_voter_serves_every_client(rt: HostRuntime) {
    let all = match all_voters(rt.alloc()) {
        Some(coterie) => first_unserved(rt.alloc(), &coterie) == None,
        None => false,
    };
    assert!(rt; all);
}
