//! The mailroom of a cluster: where the messages of all its members go.
ghost use Rattle.std.specs.Prelude.{◌≡◌, ℕ, ◌+◌, ◌<◌, ◌≤◌, [], true, false, None, Ok, IfErr, IfNone, IfOk, IfSome, length, nat_le, nat_lt, slice_index_or};
ghost use Rattle.std.specs.List.{count_by};
ghost use Rattle.numbers.specs.Bounds.{max_clients, max_voters};
ghost use Rattle.mailroom.specs.Losses.{IsDelivered, is_stray, is_stray_reply, most_lost};
ghost use Rattle.node.specs.Mail.{IsMail};

use crate::line::{Held, Line};
use crate::losses::{Losses, Posted};
use crate::rooms::{lines_of, mailboxes_of, nodes_of};
use board::{Board, BoardRoot, ClientSeat};
use message::{ToClient, ToVoter};
use node::{ClusterName, Node, Outbox, Postbox};
use requester::Requester;
use std::alloc::{AllocError, Global};
use std::marker::Model;
use std::sync::{Mutex, Wait};
use std::time::{Clock, Duration};

/// The board of a cluster, a node for each voter, and a mailbox for each client. Threads share it through a
/// `&`. Contracts see the board of the cluster that it belongs to.
#[derive(Drop)]
pub struct Mailroom<N: ClusterName> {
    board: Board,
    nodes: Vec<Mutex<Node<N>>>,
    /// For each voter a line, which is held from a message to it until the replies are posted. So its
    /// replies get into a mailbox in the order in which it made them. Posting needs the voter's line.
    lines: Vec<Line>,
    mailboxes: Vec<Postbox<N>>,
}

impl<N: ClusterName> Model for Mailroom<N> {
    ghost use Rattle.std.specs.Prelude.{length};
    ghost use Rattle.board.specs.Seats.{BoardState};
    ghost use Rattle.mailroom.specs.Rooms.{IsMailroom};

    ghost Value = { BoardState };

    ghost view = { λ m. N.cluster.board };

    ghost invariant = { λ m. IsMailroom N.cluster.board m.board (length m.nodes.items) m.lines.items m.mailboxes.items };
}

impl<N: ClusterName> Mailroom<N> {
    /// Creates the mailroom of a cluster with this board, with the seats of all voters from the root. Fails
    /// only if it runs out of memory.
    pub fn new(
        alloc: Global,
        board: Board,
        root: &mut BoardRoot,
        voters: u8,
        clients: u8,
    ) -> Result<Mailroom<N>, AllocError>
        requires board { board ≡ N.cluster.board }
        requires voters { (voters ≡ N.cluster.board.voters) × (voters ≤ max_voters) }
        requires clients { (clients ≡ N.cluster.board.clients) × (clients ≤ max_clients) }
        requires table { root.old.table ≡ board.table }
        requires there { (v : ℕ) → slice_index_or root.old.voters v false ≡ nat_lt v voters }
        requires seats { voters ≤ root.old.seats }
        ensures seats { IfOk result (λ _. root.new.seats + voters ≡ root.old.seats) }
        ensures same { IfOk result (λ _. (root.new.clients ≡ root.old.clients) × (root.new.passes ≡ root.old.passes)) }
        ensures table { root.new.table ≡ root.old.table }
    {
        let nodes = nodes_of(alloc, &board, root, voters)?;
        let lines = lines_of(alloc, voters)?;
        let mailboxes = mailboxes_of(alloc, clients)?;
        Ok(Mailroom {
            board,
            nodes,
            lines,
            mailboxes,
        })
    }

    /// Returns the board.
    pub fn board(&self) -> &Board
        ensures { result.now ≡ N.cluster.board }
    {
        &self.board
    }

    /// Returns the board, and the node of each voter.
    pub fn into_parts(self) -> (Board, Vec<Mutex<Node<N>>>)
        ensures board { result.0 ≡ N.cluster.board }
        ensures nodes { length result.1.items ≡ N.cluster.board.voters }
    {
        let Mailroom { board, nodes, .. } = self;
        (board, nodes)
    }

    /// Gives a message to its voter's node, with the replies in `outbox`, which has to be empty.
    /// Returns `false` if the node dropped the message, or the cluster doesn't have the voter or the
    /// client. Fails if the node ran out of memory. Then the message is lost and `outbox` is empty.
    fn tell(
        &self,
        rt: &impl Wait,
        message: &ToVoter,
        outbox: &mut Outbox,
    ) -> Result<bool, AllocError>
        requires empty { outbox.old.messages ≡ [] }
        ensures stray { is_stray N.cluster.board message.now ≡ true → result ≡ Ok false }
        ensures taken { IfOk result (λ taken. taken ≡ true → outbox.new.voter ≡ message.now.voter) }
        ensures else_empty { IfOk result (λ taken. taken ≡ false → outbox.new.messages ≡ []) }
        ensures memory { IfErr result (λ _. outbox.new.messages ≡ []) }
    {
        if usize::from(message.client) >= self.mailboxes.len() {
            return Ok(false);
        }
        let Some(node) = self.nodes.get(usize::from(message.voter)) else {
            return Ok(false);
        };
        let mut node = node.lock(rt);
        if node.number() != message.voter {
            return Ok(false);
        }
        node.take_into(&self.board, message, outbox)
    }

    /// Waits until the replies of a voter to earlier messages are posted, and keeps other messages to
    /// it waiting until its line is dropped. Returns `None` if the cluster doesn't have the voter.
    fn line(&self, rt: &impl Wait, voter: u8) -> Option<Held<'_>>
        ensures own { IfSome result (λ line. line.voter ≡ voter) }
        ensures missing { IfNone result (N.cluster.board.voters ≤ voter) }
    {
        Some(self.lines.get(usize::from(voter))?.hold(rt))
    }

    /// Returns the reminders of a voter's node, or `None` if the cluster doesn't have the voter.
    fn reminders(&self, rt: &impl Wait, voter: u8) -> Option<Outbox>
        ensures own { IfSome result (λ outbox. outbox.voter ≡ voter) }
        ensures stray { N.cluster.board.voters ≤ voter → result ≡ None }
    {
        let node = self.nodes.get(usize::from(voter))?.lock(rt);
        if node.number() != voter {
            return None;
        }
        Some(node.remind())
    }

    /// Returns a client's mailbox, or `None` if the cluster doesn't have the client.
    fn mailbox(&self, client: u8) -> Option<&Postbox<N>>
        ensures own { IfSome result (λ mailbox. mailbox.now ≡ client) }
        ensures there { IfSome result (λ _. client < N.cluster.board.clients) }
        ensures missing { IfNone result (N.cluster.board.clients ≤ client) }
    {
        self.mailboxes.get(usize::from(client))
    }

    /// Puts a message into its client's mailbox. Returns `false` if it does not belong there, and fails
    /// if it runs out of memory; then the message is lost.
    fn put(&self, rt: &impl Wait, message: ToClient) -> Result<bool, AllocError>
        ensures mail { IfOk result (λ put. put ≡ true → IsMail N.cluster.board message.client message) }
        ensures stray { is_stray_reply N.cluster.board message ≡ true → result ≡ Ok false }
    {
        let Some(mailbox) = self.mailbox(message.client) else {
            return Ok(false);
        };
        mailbox.put(rt, message, self.nodes.len())
    }

    /// Puts a message into its client's mailbox, as if its voter sent it. Returns `false` if the
    /// message is lost: memory ran out, or it doesn't belong there. It belongs there if the cluster
    /// has its voter and its client; a LOCKED also needs a grant from 1 to 2^40.
    ///
    /// Voters' replies are posted by the calls of members. This call is for a message that comes in
    /// another way, as one that is repeated, or that a test makes up. Whatever is posted, no two
    /// members are inside at once: a client takes each vote on the board.
    pub fn post(&self, rt: &impl Wait, message: ToClient) -> bool
        ensures mail { result ≡ true → IsMail N.cluster.board message.client message }
        ensures stray { is_stray_reply N.cluster.board message ≡ true → result ≡ false }
    {
        self.put(rt, message) == Ok(true)
    }

    /// Puts each message of a voter's outbox into its client's mailbox, in order, while the voter's
    /// line is held. Each of them is posted or lost.
    fn post_each(&self, rt: &impl Wait, _line: &Held<'_>, outbox: &Outbox) -> Posted
        requires line { _line.now.voter ≡ outbox.now.voter }
        ensures each { result.posted + result.losses.lost ≡ length outbox.now.messages }
        ensures few { length outbox.now.messages ≤ most_lost 1 }
        ensures strays { count_by (is_stray_reply N.cluster.board) outbox.now.messages + result.losses.starved
            ≤ result.losses.lost }
    {
        let mut posted: u64 = 0;
        let mut losses = Losses::none();
        for message in outbox.messages() {
            match self.put(rt, *message) {
                Ok(true) => posted += 1,
                Ok(false) => losses = losses.and(Losses::one()),
                Err(_) => losses = losses.and(Losses::one_starved()),
            }
        }
        Posted { posted, losses }
    }

    /// Gives a message to its voter, and the voter's replies to their clients. Each reply is posted
    /// or lost. If the message itself is lost, nothing is posted, that counts as one, and `outbox` is
    /// empty. Otherwise `outbox` has the replies, in place of what was there.
    fn deliver_into(&self, rt: &impl Wait, message: &ToVoter, outbox: &mut Outbox) -> Posted
        ensures few { result.losses.lost ≤ most_lost 1 }
        ensures starved { result.losses.starved ≤ result.losses.lost }
        ensures stray { is_stray N.cluster.board message.now ≡ true → result.losses ≡ record { lost = 1; starved = 0 } }
        ensures each { IsDelivered message.now.voter outbox.new result.posted result.losses.lost }
    {
        outbox.clear();
        let Some(line) = self.line(rt, message.voter) else {
            return Posted::nothing(Losses::one());
        };
        match self.tell(rt, message, outbox) {
            Ok(true) => self.post_each(rt, &line, outbox),
            Ok(false) => Posted::nothing(Losses::one()),
            Err(_) => Posted::nothing(Losses::one_starved()),
        }
    }

    /// Gives a message to its voter, as if its client sent it, and the voter's replies to their
    /// clients. Returns how many messages are lost: 1 if the voter does not take the message, and
    /// otherwise the number of its replies that do not get into a mailbox.
    ///
    /// The voter does not take a message if the cluster has no such voter or client, if memory runs
    /// out, or if the message would free a vote that is taken on the board.
    ///
    /// Members send their messages themselves. This call is for a message that comes in another
    /// way, as one that is repeated, or that a test makes up. Whatever is delivered, no two members
    /// are inside at once.
    pub fn deliver(&self, rt: &impl Wait, message: &ToVoter) -> u64
        ensures few { result ≤ most_lost 1 }
        ensures stray { is_stray N.cluster.board message.now ≡ true → result ≡ 1 }
    {
        let delivered = self.deliver_into(rt, message, &mut Outbox::new());
        delivered.losses.lost
    }

    /// Posts the reminders of a voter, and returns how many are lost. If the cluster doesn't have the
    /// voter, that counts as one.
    fn remind_holder(&self, rt: &impl Wait, voter: u8) -> Losses
        ensures few { result.lost ≤ most_lost 1 }
        ensures starved { result.starved ≤ result.lost }
        ensures stray { N.cluster.board.voters ≤ voter → result ≡ record { lost = 1; starved = 0 } }
    {
        let Some(line) = self.line(rt, voter) else {
            return Losses::one();
        };
        match self.reminders(rt, voter) {
            Some(outbox) => self.post_each(rt, &line, &outbox).losses,
            None => Losses::one(),
        }
    }

    /// Gives each of these messages of a client to its voter, in order, and the voter's replies to
    /// their clients. A node's lock is released before a mailbox is locked. Of one voter, earlier
    /// replies are posted before later ones: if an INQUIRE overtook its LOCKED, the client would
    /// drop it, and all would wait for a reminder.
    ///
    /// Returns how many are lost: each message that a node did not take, and each reply that did
    /// not get into a mailbox.
    ///
    /// The client's seat must hold exactly the votes that the client holds: a vote is given back on
    /// the board before the message goes out that says so.
    pub fn send(
        &self,
        rt: &impl Wait,
        _requester: &Requester,
        _seat: &ClientSeat,
        messages: &[ToVoter],
    ) -> Losses
        requires held { _seat.now.held ≡ _requester.now.held }
        ensures few { result.lost ≤ most_lost (length messages.now) }
        ensures starved { result.starved ≤ result.lost }
        ensures strays { count_by (is_stray N.cluster.board) messages.now ≤ result.lost }
    {
        let mut outbox = Outbox::new();
        let mut losses = Losses::none();
        for message in messages {
            losses = losses.and(self.deliver_into(rt, message, &mut outbox).losses);
        }
        losses
    }

    /// Has each of these voters remind the client that holds its vote. Returns how many messages
    /// are lost.
    pub fn remind(&self, rt: &impl Wait, voters: &[u8]) -> Losses
        ensures few { result.lost ≤ most_lost (length voters.now) }
        ensures starved { result.starved ≤ result.lost }
        ensures strays { count_by (nat_le N.cluster.board.voters) voters.now ≤ result.lost }
    {
        let mut losses = Losses::none();
        for voter in voters {
            losses = losses.and(self.remind_holder(rt, *voter));
        }
        losses
    }

    /// Takes the first message out of a client's mailbox and returns it, if there is one.
    pub fn next(&self, rt: &impl Wait, client: u8) -> Option<ToClient>
        ensures { IfSome result (IsMail N.cluster.board client) }
    {
        self.mailbox(client)?.take(rt)
    }

    /// Has a client's thread sleep until a message comes for the client or the time is over. Returns
    /// at once if a message waits.
    pub fn sleep<R: Wait + Clock>(&self, rt: &R, client: u8, time: Duration) {
        if let Some(mailbox) = self.mailbox(client) {
            mailbox.sleep(rt, client, time);
        }
    }
}
