//! Members of a cluster, which threads drive.
ghost use Rattle.std.specs.Prelude.{◌≡◌, ◌≢◌, ℕ, ◌+◌, ◌<◌, ◌≤◌, true, false, None, Some, Ok, Err, IfOk, IfErr, IfSome, length};
ghost use Rattle.std.specs.List.{All};
ghost use Rattle.numbers.specs.Bounds.{max_voters, max_clients};
ghost use Rattle.board.specs.Quorums.{quorum_at};
ghost use Rattle.board.specs.declared.fault.BoardFault.{BoardFault};
ghost use Rattle.requester.specs.Steps.{remind};
ghost use Rattle.requester.specs.Words.{is_asking, is_idle, is_inside, members};
ghost use Rattle.clerks.specs.Clerks.{AreDealt, IsDealt, drawn, use_second_plan, may_exchange, receipts_of};
ghost use Rattle.members.specs.Clusters.{ClusterState, names_in};
ghost use Rattle.members.specs.Losses.{LosesAtLeast, LosesAtMost};
ghost use Rattle.mailroom.specs.Losses.{most_lost};
ghost use Rattle.members.specs.Members.{MemberState, MayAsk, Asked, HasLeft, GaveUp, Met, Pumped, RefusesAsk, RefusesPass, fresh_member, place_in, with_pass};
ghost use Rattle.node.specs.Mail.{IsMail};
ghost use Rattle.node.specs.Votes.{HoldsFewer, HoldsOnly, HoldsWithin};

use crate::cluster::Cluster;
use crate::laws::clients_keep_their_laws;
use arrayvec::ArrayVec;
use board::ClientSeat;
use clerks::Clerks;
use dealer::Receipt;
use message::ToClient;
use node::{ClusterName, accept, give_back};
use numbers::MAX_STAMP;
use quorum_set::Side;
use requester::{ClientFault, Messages, Phase, Requester, Seen, requesters_stay_sound};
use run_outcome::ClusterFault;
use std::marker::{Model, PhantomData};
use std::sync::Wait;
use std::time::{Clock, Duration};

/// A client of a cluster with its seat on the board and its clerks. It may be moved to a thread,
/// which drives it. Whenever no call runs, the client holds the votes that the seat holds.
/// Contracts see a `MemberState`.
#[derive(Drop)]
pub struct Member<N: ClusterName> {
    pub(crate) requester: Requester,
    pub(crate) seat: ClientSeat,
    pub(crate) clerks: Clerks,
    pub(crate) lost: u64,
    /// Why its work ended early when it was last driven.
    pub(crate) fault: Option<ClusterFault>,
    /// The side and the number of the quorum of the current or last request.
    pub(crate) side: Side,
    pub(crate) quorum: usize,
    /// What its client sent last. It is kept here so that no step has to make room for it.
    pub(crate) out: Messages,
    pub(crate) of: PhantomData<N>,
}

impl<N: ClusterName> Model for Member<N> {
    ghost use Rattle.std.specs.Coded.{codes};
    ghost use Rattle.requester.specs.contracts.state.ClientState as known;
    ghost use Rattle.members.specs.Clusters.{ClusterState};
    ghost use Rattle.members.specs.Members.{MemberState, IsMember};

    ghost Value = { MemberState };

    ghost coded = { Prim.hlevel (codes, known.the_row.coded) };

    ghost view = { λ m. record {
      requester = m.requester;
      seat = m.seat;
      clerks = m.clerks;
      lost = m.lost;
      fault = m.fault;
    } };

    ghost invariant = { λ m. IsMember N.cluster m.requester m.seat m.clerks m.side m.quorum };
}

/// Ends a step of a client: gives back the votes that it no longer holds, and then sends its
/// messages to the voters. Returns how many messages are lost.
fn finish<N: ClusterName>(
    rt: &impl Wait,
    cluster: &Cluster<N>,
    requester: &Requester,
    out: &Messages,
    seat: &mut ClientSeat,
) -> u64
    requires table { seat.old.table ≡ N.cluster.board.table }
    requires places { (length seat.old.held ≡ max_voters) × (length requester.now.held ≡ max_voters) }
    requires within { HoldsWithin N.cluster.board.voters seat.old.held }
    requires fewer { HoldsFewer requester.now.held seat.old.held }
    requires of_members { HoldsOnly (members requester.now) seat.old.held }
    ensures held { seat.new.held ≡ requester.now.held }
    ensures few { result ≤ most_lost (length out.now.items) }
    ensures within { HoldsWithin N.cluster.board.voters seat.new.held }
    ensures same { (seat.new.table ≡ seat.old.table) × (seat.new.client ≡ seat.old.client)
        × (seat.new.passes ≡ seat.old.passes) }
{
    give_back(seat, cluster.mailroom.board(), requester);
    cluster
        .mailroom
        .send(rt, requester, seat, out.as_slice())
        .lost
}

impl<N: ClusterName> Member<N> {
    /// Creates a member from clerks that drew no ticket and from a seat that holds no vote and has
    /// not passed.
    pub(crate) fn new(seat: ClientSeat, clerks: Clerks) -> Member<N>
        requires client { seat.client < N.cluster.board.clients }
        requires few { N.cluster.board.clients ≤ max_clients }
        requires fresh { seat ≡ (fresh_member N.cluster seat.client).seat }
        requires clerks { clerks ≡ (fresh_member N.cluster seat.client).clerks }
        ensures { result ≡ fresh_member N.cluster seat.client }
    {
        requesters_stay_sound();
        Member {
            requester: Requester::new(seat.client(), MAX_STAMP),
            seat,
            clerks,
            lost: 0,
            fault: None,
            side: Side::First,
            quorum: 0,
            out: ArrayVec::new(),
            of: PhantomData,
        }
    }

    /// Returns the client's number, which is below the number of clients.
    pub fn client(&self) -> u8
        ensures value { result ≡ self.now.requester.id }
        ensures in_range { self.now.requester.id < N.cluster.board.clients }
    {
        self.requester.id()
    }

    /// Returns the client's phase: idle, asking or inside.
    pub fn phase(&self) -> Phase
        ensures { result ≡ self.now.requester.phase }
    {
        self.requester.phase()
    }

    /// Returns how many messages its calls lost: a node dropped them, memory ran out, or they were
    /// LOCKED whose vote could not be taken. The number never falls, and stays at its greatest
    /// value, 2^64 - 1.
    pub fn lost(&self) -> u64
        ensures { result ≡ self.now.lost }
    {
        self.lost
    }

    /// Returns why its work ended early when it was last driven, as [`Member::ends_by`] kept it.
    /// Returns `None` if it did not, or if the member was never driven.
    pub fn fault(&self) -> Option<ClusterFault>
        ensures { result ≡ self.now.fault }
    {
        self.fault
    }

    /// Keeps why a drive ended its work early, or `None` if it did not.
    pub fn ends_by(&mut self, fault: Option<ClusterFault>)
        ensures { self.new ≡ record self.old { fault = fault } }
    {
        self.fault = fault;
    }

    /// Returns the receipts of its tickets of one plan, in the order of its requests. Each names the
    /// quorum of its ticket. Without a second plan, that one has no receipts.
    pub fn receipts(&self, side: Side) -> &[Receipt]
        ensures value { result.now ≡ receipts_of self.now.clerks side }
        ensures dealt { AreDealt (names_in N.cluster) side (receipts_of self.now.clerks side) }
    {
        self.clerks.receipts(side)
    }

    /// Exchanges the plan: its requests from here on use the second plan. A request that runs goes
    /// on with its quorum. Neither waits nor takes memory.
    ///
    /// Fails with `NoSecondPlan` if and only if there is no second plan or it is in use already, and
    /// then changes nothing.
    pub fn exchange(&mut self) -> Result<(), ClusterFault>
        ensures exchanged { IfOk result (λ _. self.new ≡ record self.old { clerks = use_second_plan self.old.clerks }) }
        ensures may { IfOk result (λ _. may_exchange self.old.clerks ≡ true) }
        ensures refused { IfErr result (λ fault.
            (fault ≡ ClusterFault.NoSecondPlan) × (may_exchange self.old.clerks ≡ false)) }
        ensures kept { IfErr result (λ _. self.new ≡ self.old) }
    {
        if self.clerks.exchange() {
            Ok(())
        } else {
            Err(ClusterFault::NoSecondPlan)
        }
    }

    /// Returns its pass numbers, in order.
    pub fn passes(&self) -> &[u64]
        ensures { result.now ≡ self.now.seat.passes }
    {
        self.seat.passes()
    }

    /// Starts a request: draws a ticket of the plan in use and sends REQUEST to each member of the
    /// quorum that it names. Returns the ticket's receipt.
    ///
    /// Fails for the first of these reasons, and then changes nothing:
    ///
    /// - the client is not idle;
    /// - no stamp is left;
    /// - it has no ticket of that plan left;
    /// - there is no memory for the receipt.
    pub fn ask(&mut self, rt: &impl Wait, cluster: &Cluster<N>) -> Result<Receipt, ClusterFault>
        ensures asked { IfOk result (λ r.
            Asked self.old (quorum_at N.cluster.board.quorums (place_in N.cluster self.old r.quorum)) self.new) }
        ensures dealt { IfOk result (λ r.
            IsDealt (names_in N.cluster) self.old.clerks.side r.ticket r.quorum) }
        ensures receipt { IfOk result (λ r. self.new.clerks ≡ drawn self.old.clerks r) }
        ensures seat { IfOk result (λ _. self.new.seat ≡ self.old.seat) }
        ensures may { IfOk result (λ _. MayAsk self.old) }
        ensures refused { IfErr result (RefusesAsk self.old) }
        ensures kept { IfErr result (λ _. self.new ≡ self.old) }
        ensures client { self.new.requester.id ≡ self.old.requester.id }
        ensures fault { self.new.fault ≡ self.old.fault }
        ensures lost { self.old.lost ≤ self.new.lost }
    {
        clients_keep_their_laws();
        if let Some(fault) = self.requester.ask_fault() {
            return Err(ClusterFault::Client(fault));
        }
        let side = self.clerks.side();
        let receipt = match self.clerks.draw(&cluster.offices) {
            Ok(receipt) => receipt,
            Err(fault) => return Err(ClusterFault::Deal(fault)),
        };
        let quorum = cluster.quorum(side, receipt.quorum);
        let Ok(_) = self.requester.ask_into(quorum, &mut self.out) else {
            unreachable!()
        };
        self.side = side;
        self.quorum = receipt.quorum;
        let losses = cluster
            .mailroom
            .send(rt, &self.requester, &self.seat, self.out.as_slice());
        self.lost = self.lost.saturating_add(losses.lost);
        Ok(receipt)
    }

    /// Takes one message out of its mailbox, and sends the client's replies. Returns what is seen
    /// of the step, or `None` if the mailbox is empty.
    ///
    /// If the message is a LOCKED that counts, takes the vote on the board first. If that fails,
    /// the message is lost and the client makes no step.
    pub fn pump(&mut self, rt: &impl Wait, cluster: &Cluster<N>) -> Option<Seen>
        ensures pumped { IfSome result (λ seen. Pumped N.cluster.board self.old seen self.new) }
        ensures entered { result ≡ Some Seen.Entered
            → (is_inside self.old.requester.phase ≡ false) × (is_inside self.new.requester.phase ≡ true) }
        ensures stays { result ≡ Some Seen.Nothing
            → is_inside self.new.requester.phase ≡ is_inside self.old.requester.phase }
        ensures not_left { result ≢ Some Seen.Left }
        ensures busy { is_idle self.new.requester.phase ≡ is_idle self.old.requester.phase }
        ensures empty { result ≡ None → self.new ≡ self.old }
        ensures clerks { self.new.clerks ≡ self.old.clerks }
        ensures passes { self.new.seat.passes ≡ self.old.seat.passes }
        ensures client { self.new.requester.id ≡ self.old.requester.id }
        ensures fault { self.new.fault ≡ self.old.fault }
        ensures lost { self.old.lost ≤ self.new.lost }
    {
        let message = cluster.mailroom.next(rt, self.requester.id())?;
        Some(self.meet(rt, cluster, &message))
    }

    /// Takes a message that came, and sends the client's replies. If its vote can't be taken, the
    /// message is lost.
    pub(crate) fn meet(&mut self, rt: &impl Wait, cluster: &Cluster<N>, message: &ToClient) -> Seen
        requires mail { IsMail N.cluster.board self.old.requester.id message.now }
        ensures met { Met self.old message.now result self.new }
        ensures entered { result ≡ Seen.Entered
            → (is_inside self.old.requester.phase ≡ false) × (is_inside self.new.requester.phase ≡ true) }
        ensures stays { result ≡ Seen.Nothing
            → is_inside self.new.requester.phase ≡ is_inside self.old.requester.phase }
        ensures not_left { result ≢ Seen.Left }
        ensures busy { is_idle self.new.requester.phase ≡ is_idle self.old.requester.phase }
        ensures clerks { self.new.clerks ≡ self.old.clerks }
        ensures passes { self.new.seat.passes ≡ self.old.seat.passes }
        ensures client { self.new.requester.id ≡ self.old.requester.id }
        ensures fault { self.new.fault ≡ self.old.fault }
        ensures lost { self.old.lost ≤ self.new.lost }
    {
        clients_keep_their_laws();
        if !accept(
            &mut self.seat,
            cluster.mailroom.board(),
            &self.requester,
            message,
        ) {
            self.lost = self.lost.saturating_add(1);
            return Seen::Nothing;
        }
        let seen = self.requester.take_into(message, &mut self.out);
        let lost = finish(rt, cluster, &self.requester, &self.out, &mut self.seat);
        self.lost = self.lost.saturating_add(lost);
        seen
    }

    /// Sleeps until a message comes or the time is over. Returns at once if a message waits.
    pub fn sleep<R: Wait + Clock>(&self, rt: &R, cluster: &Cluster<N>, time: Duration) {
        cluster.mailroom.sleep(rt, self.requester.id(), time);
    }

    /// Leaves: gives each vote back, and then sends RELEASE to each member of its quorum. Fails if
    /// and only if it is not inside, and then changes nothing.
    pub fn leave(&mut self, rt: &impl Wait, cluster: &Cluster<N>) -> Result<(), ClusterFault>
        ensures left { IfOk result (λ _. HasLeft self.old self.new) }
        ensures idle { IfOk result (λ _. is_idle self.new.requester.phase ≡ true) }
        ensures may { IfOk result (λ _. is_inside self.old.requester.phase ≡ true) }
        ensures refused { IfErr result (λ fault.
            (fault ≡ ClusterFault.NotInside) × (is_inside self.old.requester.phase ≡ false)) }
        ensures kept { IfErr result (λ _. self.new ≡ self.old) }
        ensures clerks { self.new.clerks ≡ self.old.clerks }
        ensures passes { self.new.seat.passes ≡ self.old.seat.passes }
        ensures client { self.new.requester.id ≡ self.old.requester.id }
        ensures fault { self.new.fault ≡ self.old.fault }
        ensures lost { self.old.lost ≤ self.new.lost }
    {
        clients_keep_their_laws();
        let Ok(_) = self.requester.leave_into(&mut self.out) else {
            return Err(ClusterFault::NotInside);
        };
        let lost = finish(rt, cluster, &self.requester, &self.out, &mut self.seat);
        self.lost = self.lost.saturating_add(lost);
        Ok(())
    }

    /// Gives its request up: gives each vote back, and then sends RELEASE to each member of its
    /// quorum. Fails if and only if it is not asking, and then changes nothing.
    pub fn give_up(&mut self, rt: &impl Wait, cluster: &Cluster<N>) -> Result<(), ClusterFault>
        ensures given_up { IfOk result (λ _. GaveUp self.old self.new) }
        ensures idle { IfOk result (λ _. is_idle self.new.requester.phase ≡ true) }
        ensures may { IfOk result (λ _. is_asking self.old.requester.phase ≡ true) }
        ensures refused { IfErr result (λ fault.
            (fault ≡ ClusterFault.Client ClientFault.NotAsking) × (is_asking self.old.requester.phase ≡ false)) }
        ensures kept { IfErr result (λ _. self.new ≡ self.old) }
        ensures clerks { self.new.clerks ≡ self.old.clerks }
        ensures passes { self.new.seat.passes ≡ self.old.seat.passes }
        ensures client { self.new.requester.id ≡ self.old.requester.id }
        ensures fault { self.new.fault ≡ self.old.fault }
        ensures lost { self.old.lost ≤ self.new.lost }
    {
        clients_keep_their_laws();
        let Ok(_) = self.requester.give_up_into(&mut self.out) else {
            return Err(ClusterFault::Client(ClientFault::NotAsking));
        };
        let lost = finish(rt, cluster, &self.requester, &self.out, &mut self.seat);
        self.lost = self.lost.saturating_add(lost);
        Ok(())
    }

    /// Sends its reminders, and has each voter of its quorum remind the client that holds the vote.
    /// Does nothing unless it is asking.
    ///
    /// Returns how many of these messages and of the replies to them are lost because memory ran out:
    /// the log of a node or a mailbox could not grow. [`Member::lost`] counts them too.
    pub fn remind(&mut self, rt: &impl Wait, cluster: &Cluster<N>) -> u64
        ensures same { self.new ≡ record self.old { lost = self.new.lost } }
        ensures else_nothing { is_asking self.old.requester.phase ≡ false → (self.new ≡ self.old) × (result ≡ 0) }
        ensures lost { LosesAtMost
            (most_lost (length (remind self.old.requester) + length (members self.old.requester)))
            self.old.lost self.new.lost }
        ensures starved { LosesAtLeast result self.old.lost self.new.lost }
    {
        if self.requester.phase() != Phase::Asking {
            return 0;
        }
        let reminders = self.requester.remind();
        let sent = cluster
            .mailroom
            .send(rt, &self.requester, &self.seat, reminders.as_slice());
        let both = sent.and(cluster.mailroom.remind(rt, self.requester.quorum()));
        self.lost = self.lost.saturating_add(both.lost);
        both.starved
    }

    /// Sends the messages of its last step once more, in case they were lost: those of the last call of
    /// [`Member::ask`], [`Member::pump`], [`Member::leave`] or [`Member::give_up`]. No reminder of its own
    /// repeats the RELEASE of a member that is idle, and others may wait for its votes.
    ///
    /// A message that its voter knows has no effect, or the voter makes its reply again. Returns how many
    /// of the messages and of the replies are lost because memory ran out, as [`Member::remind`] does.
    pub fn repeat(&mut self, rt: &impl Wait, cluster: &Cluster<N>) -> u64
        ensures same { self.new ≡ record self.old { lost = self.new.lost } }
        ensures lost { LosesAtMost (most_lost max_voters) self.old.lost self.new.lost }
        ensures starved { LosesAtLeast result self.old.lost self.new.lost }
    {
        let again = cluster
            .mailroom
            .send(rt, &self.requester, &self.seat, self.out.as_slice());
        self.lost = self.lost.saturating_add(again.lost);
        again.starved
    }

    /// Passes: reads the register, writes the number read plus one, and returns the number read.
    /// That is now one of its pass numbers, and above all its earlier ones.
    ///
    /// Fails if it is not inside, if the register is at its limit, or if it runs out of memory. A
    /// failure of the board leaves a reading in the seat, and changes nothing else.
    pub fn pass(&mut self, cluster: &Cluster<N>) -> Result<u64, ClusterFault>
        ensures passed { IfOk result (λ x. self.new ≡ record self.old { seat = with_pass self.old.seat x }) }
        ensures may { IfOk result (λ _. is_inside self.old.requester.phase ≡ true) }
        ensures above { IfOk result (λ x. All (λ y. y < x) self.old.seat.passes) }
        ensures refused { IfErr result (RefusesPass self.old) }
        ensures full { result ≡ Err (ClusterFault.Board BoardFault.RegisterFull)
            → (j : ℕ) × (self.new.seat.reading ≡ Some (j, N.cluster.board.limit)) }
        ensures room { result ≡ Err (ClusterFault.Board BoardFault.OutOfMemory)
            → (j : ℕ) × (x : ℕ) × (self.new.seat.reading ≡ Some (j, x)) × (x ≢ N.cluster.board.limit) }
        ensures outside { result ≡ Err ClusterFault.NotInside → self.new ≡ self.old }
        ensures requester { self.new.requester ≡ self.old.requester }
        ensures clerks { self.new.clerks ≡ self.old.clerks }
        ensures fault { self.new.fault ≡ self.old.fault }
        ensures kept { IfErr result (λ _.
            self.new ≡ record self.old { seat = record self.old.seat { reading = self.new.seat.reading } }) }
    {
        if self.requester.phase() != Phase::Inside {
            return Err(ClusterFault::NotInside);
        }
        let board = cluster.mailroom.board();
        self.seat.read_register(board, self.side, self.quorum);
        match self.seat.write_register(board) {
            Ok(number) => Ok(number),
            Err(fault) => Err(ClusterFault::Board(fault)),
        }
    }
}
