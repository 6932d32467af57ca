//! How a client's votes move on the board.
ghost use Rattle.std.specs.Prelude.{◌≡◌, ◌≢◌, ◌⊎◌, ℕ, ◌<◌, true, false, None, length, slice_index};
ghost use Rattle.numbers.specs.Bounds.{max_voters};
ghost use Rattle.requester.specs.Soundness.{IsSound};
ghost use Rattle.requester.specs.Steps.{take, would_hold};
ghost use Rattle.requester.specs.Words.{members};
ghost use Rattle.node.specs.Mail.{IsMail, has_grant};
ghost use Rattle.node.specs.Votes.{HoldsWithin, HoldsLocked, HoldsFewer, HoldsOnly};

use crate::laws::clients_keep_their_laws;
use board::{Board, ClientSeat};
use message::{ClientBody, ToClient};
use requester::Requester;

/// Gives a vote back if the seat holds it.
#[tactic(auto, using(crate::proofs::VoteLemmas::dropped_is_0))]
fn drop_vote(seat: &mut ClientSeat, board: &Board, voter: u8)
    requires table { seat.old.table ≡ board.now.table }
    requires within { HoldsWithin board.now.voters seat.old.held }
    ensures dropped { slice_index seat.new.held voter ≡ 0 }
    ensures others { (v : ℕ) → v ≢ voter → slice_index seat.new.held v ≡ slice_index seat.old.held v }
    ensures len { length seat.new.held ≡ length seat.old.held }
    ensures same { (seat.new.table ≡ seat.old.table) × (seat.new.client ≡ seat.old.client)
        × (seat.new.passes ≡ seat.old.passes) }
    ensures idle { slice_index seat.old.held voter ≡ 0 → seat.new ≡ seat.old }
    ensures reading { (seat.new ≡ seat.old) ⊎ (seat.new.reading ≡ None) }
{
    if seat.held(voter).is_some() {
        seat.give_back(board, voter);
    }
}

/// Gives a vote back if the seat holds it and the client no longer holds it.
fn keep_vote(seat: &mut ClientSeat, board: &Board, requester: &Requester, voter: u8)
    requires table { seat.old.table ≡ board.now.table }
    requires within { HoldsWithin board.now.voters seat.old.held }
    requires fewer { HoldsFewer requester.now.held seat.old.held }
    ensures kept { slice_index seat.new.held voter ≡ slice_index requester.now.held voter }
    ensures others { (v : ℕ) → v ≢ voter → slice_index seat.new.held v ≡ slice_index seat.old.held v }
    ensures len { length seat.new.held ≡ length seat.old.held }
    ensures same { (seat.new.table ≡ seat.old.table) × (seat.new.client ≡ seat.old.client)
        × (seat.new.passes ≡ seat.old.passes) }
    ensures idle { slice_index seat.old.held voter ≡ slice_index requester.now.held voter → seat.new ≡ seat.old }
    ensures reading { (seat.new ≡ seat.old) ⊎ (seat.new.reading ≡ None) }
{
    match requester.held(voter) {
        Some(_) => {}
        None => drop_vote(seat, board, voter),
    }
}

/// Gives back the votes that the seat holds and the client no longer holds. Afterwards both hold
/// the same votes.
///
/// If a vote is given back, a reading of the register no longer counts. Otherwise nothing changes.
/// The seat must be of this board, and must hold only votes of members of the client's quorum.
pub fn give_back(seat: &mut ClientSeat, board: &Board, requester: &Requester)
    requires table { seat.old.table ≡ board.now.table }
    requires places { (length seat.old.held ≡ max_voters) × (length requester.now.held ≡ max_voters) }
    requires within { HoldsWithin board.now.voters seat.old.held }
    requires fewer { HoldsFewer requester.now.held seat.old.held }
    requires of_members { HoldsOnly (members requester.now) seat.old.held }
    ensures held { seat.new.held ≡ requester.now.held }
    ensures within { HoldsWithin board.now.voters seat.new.held }
    ensures same { (seat.new.table ≡ seat.old.table) × (seat.new.client ≡ seat.old.client)
        × (seat.new.passes ≡ seat.old.passes) }
    ensures idle { seat.old.held ≡ requester.now.held → seat.new ≡ seat.old }
    ensures reading { (seat.new ≡ seat.old) ⊎ (seat.new.reading ≡ None) }
{
    for voter in requester.quorum() {
        keep_vote(seat, board, requester, *voter);
    }
}

/// Takes, on the board, the vote that a LOCKED brings. Returns `false` if it can't be taken.
fn hold(seat: &mut ClientSeat, board: &Board, message: &ToClient) -> bool
    requires table { seat.old.table ≡ board.now.table }
    requires voter { message.now.voter < board.now.voters }
    requires free { slice_index seat.old.held message.now.voter ≡ 0 }
    requires grant { has_grant message.now.body ≡ true }
    ensures held { result ≡ true → HoldsLocked seat.old.held message.now.voter message.now.body seat.new.held }
    ensures same { seat.new ≡ record seat.old { held = seat.new.held } }
    ensures kept { result ≡ false → seat.new ≡ seat.old }
{
    match message.body {
        ClientBody::Locked { stamp: _, grant } => seat.take(board, message.voter, grant),
        ClientBody::Fail { .. } | ClientBody::Inquire { .. } => false,
    }
}

/// Takes, on the board, the vote that a message to the client brings, if the client would hold it.
/// Returns `false` and changes nothing if the vote can't be taken, since the board no longer offers
/// it to this client.
///
/// If it returns `true`, the seat holds at least the votes that the client will hold, and all of
/// them are votes of its quorum. A message by which the client would hold no vote changes nothing.
/// The seat must be of this board, and must hold the client's votes.
pub fn accept(
    seat: &mut ClientSeat,
    board: &Board,
    requester: &Requester,
    message: &ToClient,
) -> bool
    requires table { seat.old.table ≡ board.now.table }
    requires mail { IsMail board.now requester.now.id message.now }
    requires voter { message.now.voter < max_voters }
    requires sound { IsSound requester.now }
    requires held { seat.old.held ≡ requester.now.held }
    requires within { HoldsWithin board.now.voters seat.old.held }
    ensures fewer { result ≡ true → HoldsFewer (take requester.now message.now).state.held seat.new.held }
    ensures within { HoldsWithin board.now.voters seat.new.held }
    ensures of_members { HoldsOnly (members requester.now) seat.new.held }
    ensures len { length seat.new.held ≡ length seat.old.held }
    ensures same { seat.new ≡ record seat.old { held = seat.new.held } }
    ensures taken { result ≡ true → would_hold requester.now message.now ≡ true
        → HoldsLocked seat.old.held message.now.voter message.now.body seat.new.held }
    ensures else_same { would_hold requester.now message.now ≡ false → seat.new ≡ seat.old }
    ensures lost { result ≡ false → (seat.new ≡ seat.old) × (would_hold requester.now message.now ≡ true) }
{
    clients_keep_their_laws();
    if !requester.would_hold(message) {
        return true;
    }
    hold(seat, board, message)
}
