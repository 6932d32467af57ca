//! A voter with its seat on the board, to be put behind a lock.
ghost use Rattle.std.specs.Prelude.{◌≡◌, ◌⊎◌, ◌<◌, ◌≤◌, ◌++◌, ◌∷◌, [], true, false, None, Some, IfOk, IfErr, IfSome, MatchBool, IsSome};
ghost use Rattle.numbers.specs.Bounds.{max_voters, max_clients, max_stamp};
ghost use Rattle.voter.specs.Steps.{effect_of, remind, start, step};
ghost use Rattle.node.specs.Names.{ClusterState};
ghost use Rattle.node.specs.Nodes.{NodeState, IsFor, offer_grant, seat_grant, settle_grant};

use crate::laws::voters_keep_their_laws;
use crate::name::ClusterName;
use crate::outbox::Outbox;
use board::{Board, VoterSeat};
use message::ToVoter;
use numbers::MAX_STAMP;
use std::alloc::{AllocError, Global};
use std::marker::{Model, PhantomData};
use voter::{Grant, Voter};

/// A voter of a cluster, the messages that it took, and its seat on the board. Whenever no call
/// runs, the voter is what its definition makes of the log, and the seat has the voter's current
/// grant. Contracts see a `NodeState`.
#[derive(Drop)]
pub struct Node<N: ClusterName> {
    voter: Voter,
    log: Vec<ToVoter>,
    seat: VoterSeat,
    of: PhantomData<N>,
}

impl<N: ClusterName> Model for Node<N> {
    ghost use Rattle.node.specs.Names.{ClusterState};
    ghost use Rattle.node.specs.Nodes.{NodeState, IsNode};
    ghost use Rattle.std.specs.Coded.{codes};
    ghost use Rattle.voter.specs.contracts.state.VoterState as known;

    ghost Value = { NodeState };

    ghost coded = { Prim.hlevel (codes, known.the_row.coded) };

    ghost view = { λ n. record { voter = n.voter; log = n.log.items; number = n.seat.voter } };

    ghost invariant = { λ n. IsNode N.cluster.board n.voter n.log.items n.seat };
}

/// Settles the grant if a message frees the vote. Returns `false` and changes nothing if the vote
/// was taken.
fn settle(seat: &mut VoterSeat, board: &Board, frees: bool) -> bool
    requires table { seat.old.table ≡ board.now.table }
    requires current { frees ≡ true → IsSome seat.old.current }
    ensures settled { MatchBool result (seat.new ≡ settle_grant frees seat.old) ((frees ≡ true) × (seat.new ≡ seat.old)) }
{
    !frees || seat.settle(board)
}

/// Offers the voter's grant, if it has one and its seat has none.
fn offer(seat: &mut VoterSeat, board: &Board, held: Option<Grant>)
    requires table { seat.old.table ≡ board.now.table }
    requires next { seat.old.current ≡ None
        → IfSome held (λ g. (g.client < board.now.clients) × (seat.old.last < g.grant) × (g.grant ≤ max_stamp)) }
    ensures { seat.new ≡ offer_grant held seat.old }
{
    if seat.current().is_some() {
        return;
    }
    match held {
        Some(grant) => seat.grant(board, grant.client, grant.grant),
        None => {}
    }
}

impl<N: ClusterName> Node<N> {
    /// Creates the node of a fresh voter, which may give 2^40 grants. The cluster must have at most
    /// 64 clients. The seat must be of the cluster's board and must never have had a grant.
    pub fn new(alloc: Global, seat: VoterSeat) -> Node<N>
        requires table { seat.table ≡ N.cluster.board.table }
        requires voter { (seat.voter < N.cluster.board.voters) × (seat.voter < max_voters) }
        requires fresh { (seat.current ≡ None) × (seat.last ≡ 0) }
        requires clients { N.cluster.board.clients ≤ max_clients }
        ensures { result ≡ record { voter = start seat.voter max_stamp; log = []; number = seat.voter } }
    {
        voters_keep_their_laws();
        Node {
            voter: Voter::new(seat.voter(), MAX_STAMP),
            log: Vec::new(alloc),
            seat,
            of: PhantomData,
        }
    }

    /// Returns the voter's number.
    pub fn number(&self) -> u8
        ensures { result ≡ self.now.number }
    {
        self.seat.voter()
    }

    /// Takes a message to this voter from a client of the cluster, and returns the voter's replies,
    /// in order.
    ///
    /// Returns `None` and changes nothing if it drops the message. It does so if the voter would
    /// refuse the message, since all grants were given, or if the message would free a vote that
    /// was taken. Fails only if there is no memory for the log, and then changes nothing.
    pub fn take(&mut self, board: &Board, message: &ToVoter) -> Result<Option<Outbox>, AllocError>
        requires board { board.now ≡ N.cluster.board }
        requires message { IsFor N.cluster.board self.old.number message.now }
        ensures taken { IfOk result (λ r. IfSome r (λ replies.
            step self.old.voter message.now ≡ Some (record { replies = replies.messages; state = self.new.voter }))) }
        ensures of_voter { IfOk result (λ r. IfSome r (λ replies. replies.voter ≡ self.new.number)) }
        ensures logged { IfOk result (λ r. IfSome r (λ _. self.new.log ≡ self.old.log ++ message.now ∷ [])) }
        ensures dropped { IfOk result (λ r. r ≡ None → (self.new ≡ self.old)
            × (((effect_of self.old.voter message.now).refused ≡ true)
            ⊎ ((effect_of self.old.voter message.now).frees ≡ true))) }
        ensures refused { IfErr result (λ _. self.new ≡ self.old) }
        ensures number { self.new.number ≡ self.old.number }
    {
        let mut replies = Outbox::new();
        if self.take_into(board, message, &mut replies)? {
            Ok(Some(replies))
        } else {
            Ok(None)
        }
    }

    /// Does what [`Node::take`] does, with the replies in `outbox` in place of what was there.
    /// Returns whether it took the message. If not, or if it fails, `outbox` is empty.
    pub fn take_into(
        &mut self,
        board: &Board,
        message: &ToVoter,
        outbox: &mut Outbox,
    ) -> Result<bool, AllocError>
        requires board { board.now ≡ N.cluster.board }
        requires message { IsFor N.cluster.board self.old.number message.now }
        ensures taken { IfOk result (λ taken. taken ≡ true →
            step self.old.voter message.now ≡ Some (record { replies = outbox.new.messages; state = self.new.voter })) }
        ensures of_voter { IfOk result (λ taken. taken ≡ true → outbox.new.voter ≡ self.new.number) }
        ensures logged { IfOk result (λ taken. taken ≡ true → self.new.log ≡ self.old.log ++ message.now ∷ []) }
        ensures dropped { IfOk result (λ taken. taken ≡ false → (self.new ≡ self.old) × (outbox.new.messages ≡ [])
            × (((effect_of self.old.voter message.now).refused ≡ true)
            ⊎ ((effect_of self.old.voter message.now).frees ≡ true))) }
        ensures refused { IfErr result (λ _. (self.new ≡ self.old) × (outbox.new.messages ≡ [])) }
        ensures number { self.new.number ≡ self.old.number }
    {
        voters_keep_their_laws();
        outbox.clear();
        self.log.reserve(1)?;
        let effect = self.voter.effect(message);
        if effect.refused || !settle(&mut self.seat, board, effect.frees) {
            return Ok(false);
        }
        let Ok(()) = self.voter.take_into(message, &mut outbox.messages) else {
            unreachable!()
        };
        outbox.voter = message.voter;
        self.log.push_reserved(*message);
        offer(&mut self.seat, board, self.voter.held());
        Ok(true)
    }

    /// Returns the node's seat on the board. Settles the current grant first, unless its vote is
    /// taken; then the seat keeps the grant.
    pub fn into_seat(self, board: &Board) -> VoterSeat
        requires { board.now ≡ N.cluster.board }
        ensures table { result.table ≡ N.cluster.board.table }
        ensures voter { result.voter ≡ self.number }
        ensures in_range { result.voter < N.cluster.board.voters }
        ensures last { result.last ≡ self.voter.granted }
        ensures current { (result.current ≡ None) ⊎ (result.current ≡ seat_grant self.voter.held) }
    {
        let Node {
            voter: _,
            log: _,
            mut seat,
            of: _,
        } = self;
        if seat.current().is_some() {
            seat.settle(board);
        }
        seat
    }

    /// Returns what to send to the holder of the vote again, in case messages were lost.
    pub fn remind(&self) -> Outbox
        ensures { result ≡ record { voter = self.now.number; messages = remind self.now.voter } }
    {
        voters_keep_their_laws();
        Outbox {
            voter: self.seat.voter(),
            messages: self.voter.remind(),
        }
    }
}
