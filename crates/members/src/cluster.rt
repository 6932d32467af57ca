//! A running cluster: its mailroom, which all members share.
ghost use Rattle.std.specs.Prelude.{◌≡◌, ◌<◌, ◌≤◌, [], false, true, length};
ghost use Rattle.std.specs.Coded.{Coded-set};
ghost use Rattle.numbers.specs.Sets.{IsSet};
ghost use Rattle.board.specs.Quorums.{HasQuorum, place_of, quorum_at};
ghost use Rattle.clerks.specs.Clerks.{fresh_clerks, quorums_of};
ghost use Rattle.members.specs.Clusters.{ClusterState, names_in};
ghost use Rattle.mailroom.specs.Losses.{is_stray, is_stray_reply, most_lost};
ghost use Rattle.node.specs.Mail.{IsMail};

use board::BoardRoot;
use clerks::{Clerks, Offices};
use mailroom::Mailroom;
use message::{ToClient, ToVoter};
use node::ClusterName;
use quorum_set::{QSet, Side};
use std::marker::{Model, PhantomData};
use std::sync::{Mutex, Wait};

/// A running cluster: its board, its offices, a node for each voter and a mailbox for each client.
/// Threads share it through a `&`. Contracts see which cluster it is.
#[derive(Drop)]
pub struct Cluster<N: ClusterName> {
    /// The board, the nodes and the mailboxes.
    pub(crate) mailroom: Mailroom<N>,
    pub(crate) offices: Offices,
    /// Unused until `close`. The lock lets threads share the cluster.
    pub(crate) left: Mutex<Left<N>>,
}

/// What is left of the rights to seats and tickets, after each node and each member got its own: all
/// seats and all tickets are out.
#[derive(Drop)]
pub(crate) struct Left<N: ClusterName> {
    pub(crate) root: BoardRoot,
    pub(crate) clerks: Clerks,
    pub(crate) of: PhantomData<N>,
    ghost table: { root.table ≡ N.cluster.board.table },
    ghost no_seats: { root.seats ≡ 0 },
    ghost no_passes: { root.passes ≡ [] },
    ghost no_tickets: { clerks ≡ fresh_clerks (names_in N.cluster) 0 } by { Coded-set clerks-code clerks (fresh_clerks (names_in N.cluster) 0) },
}

impl<N: ClusterName> Model for Cluster<N> {
    ghost use Rattle.members.specs.Clusters.{ClusterState, Runs};

    ghost Value = { ClusterState };

    ghost view = { λ c. N.cluster };

    ghost invariant = { λ c. Runs N.cluster c.offices };
}

impl<N: ClusterName> Cluster<N> {
    /// Puts a message into its client's mailbox, as if its voter sent it. Returns `false` if the
    /// message is lost: memory ran out, or it doesn't belong there. It belongs there if the cluster
    /// has its voter and its client; a LOCKED also needs a grant from 1 to 2^40.
    ///
    /// Voters' replies are posted by the calls of members. This call is for a message that comes in
    /// another way, as one that is repeated, or that a test makes up. Whatever is posted, no two
    /// members are inside at once: a client takes each vote on the board.
    pub fn post(&self, rt: &impl Wait, message: ToClient) -> bool
        ensures mail { result ≡ true → IsMail N.cluster.board message.client message }
        ensures stray { is_stray_reply N.cluster.board message ≡ true → result ≡ false }
    {
        self.mailroom.post(rt, message)
    }

    /// Gives a message to its voter, as if its client sent it, and the voter's replies to their
    /// clients. Returns how many messages are lost: 1 if the voter does not take the message, and
    /// otherwise the number of its replies that do not get into a mailbox.
    ///
    /// The voter does not take a message if the cluster has no such voter or client, if memory runs
    /// out, or if the message would free a vote that is taken on the board.
    ///
    /// Members send their messages themselves. This call is for a message that comes in another
    /// way, as one that is repeated, or that a test makes up. Whatever is delivered, no two members
    /// are inside at once.
    pub fn deliver(&self, rt: &impl Wait, message: &ToVoter) -> u64
        ensures few { result ≤ most_lost 1 }
        ensures stray { is_stray N.cluster.board message.now ≡ true → result ≡ 1 }
    {
        self.mailroom.deliver(rt, message)
    }

    /// Returns the quorum with this number of a plan's coterie.
    pub(crate) fn quorum(&self, side: Side, number: usize) -> &QSet
        requires { number < length (quorums_of (names_in N.cluster) side) }
        ensures value { result.now
            ≡ quorum_at N.cluster.board.quorums (place_of N.cluster.board.firsts side number) }
        ensures in_range { HasQuorum N.cluster.board.firsts N.cluster.board.quorums side number }
        ensures set { IsSet result.now }
        ensures some { 1 ≤ length result.now }
    {
        self.offices.quorum(side, number)
    }
}
