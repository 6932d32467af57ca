//! The messages that wait for one client.
ghost use Rattle.std.specs.Prelude.{◌≡◌, ◌≢◌, ◌⊎◌, ◌<◌, ◌↔◌, ◌∷◌, [], true, None, IfOk, IfErr, IfSome, IsTrue, MatchBool};
ghost use Rattle.node.specs.Names.{ClusterState};
ghost use Rattle.node.specs.Mail.{IsMail, MailboxState, has_grant, with_message};

use crate::name::ClusterName;
use message::{ClientBody, ToClient};
use numbers::MAX_STAMP;
use std::alloc::{AllocError, Global};
use std::collections::VecDeque;
use std::marker::{Model, PhantomData};

/// The messages to one client of a cluster, first in, first out. Each names the client and a voter
/// of the board, and a LOCKED has a grant from 1 to 2^40. Contracts see a `MailboxState`.
#[derive(Drop)]
pub struct Mailbox<N: ClusterName> {
    client: u8,
    messages: VecDeque<ToClient>,
    of: PhantomData<N>,
}

impl<N: ClusterName> Model for Mailbox<N> {
    ghost use Rattle.std.specs.List.{All};
    ghost use Rattle.node.specs.Names.{ClusterState};
    ghost use Rattle.node.specs.Mail.{IsMail, MailboxState};

    ghost Value = { MailboxState };

    ghost view = { λ b. record { client = b.client; messages = b.messages.items } };

    ghost invariant = { λ b. All (IsMail N.cluster.board b.client) b.messages.items };
}

/// Returns whether the grant of a LOCKED is from 1 to 2^40. Returns `true` for other messages.
fn has_grant(body: ClientBody) -> bool
    ensures { result ≡ has_grant body }
{
    match body {
        ClientBody::Locked { stamp: _, grant } => 1 <= grant && grant <= MAX_STAMP,
        ClientBody::Fail { .. } | ClientBody::Inquire { .. } => true,
    }
}

/// Returns whether a message is to this client, from one of `voters` voters, and with a grant from
/// 1 to 2^40 if it is a LOCKED.
fn is_mail(client: u8, message: ToClient, voters: usize) -> bool
    ensures { IsTrue result ↔ (message.client ≡ client) × (message.voter < voters) × (has_grant message.body ≡ true) }
{
    message.client == client && usize::from(message.voter) < voters && has_grant(message.body)
}

impl<N: ClusterName> Mailbox<N> {
    /// Creates an empty mailbox for a client.
    pub fn new(alloc: Global, client: u8) -> Mailbox<N>
        ensures { result ≡ record { client = client; messages = [] } }
    {
        Mailbox {
            client,
            messages: VecDeque::new(alloc),
            of: PhantomData,
        }
    }

    /// Appends a message if it belongs in this mailbox, and returns whether it does. If it doesn't,
    /// nothing changes. `voters` is the number of the board's voters.
    ///
    /// A message belongs here if and only if it is to this client and from a voter of the board; a
    /// LOCKED also needs a grant from 1 to 2^40. Fails only if it runs out of memory, and then
    /// changes nothing.
    pub fn put(&mut self, message: ToClient, voters: usize) -> Result<bool, AllocError>
        requires { voters ≡ N.cluster.board.voters }
        ensures mail { IfOk result (λ put. IsTrue put ↔ IsMail N.cluster.board self.old.client message) }
        ensures put { IfOk result (λ put.
            MatchBool put (self.new ≡ with_message self.old message) (self.new ≡ self.old)) }
        ensures memory { IfErr result (λ _. self.new ≡ self.old) }
        ensures only_mail { IfErr result (λ _. IsMail N.cluster.board self.old.client message) }
    {
        if !is_mail(self.client, message, voters) {
            return Ok(false);
        }
        self.messages.push_back(message)?;
        Ok(true)
    }

    /// Returns whether no message waits.
    pub fn is_empty(&self) -> bool
        ensures { IsTrue result ↔ (self.now.messages ≡ []) }
    {
        self.messages.is_empty()
    }

    /// Removes the first message and returns it, if the mailbox is this client's. Returns `None` if
    /// and only if the mailbox is another client's or is empty; then nothing changes.
    pub fn take(&mut self, client: u8) -> Option<ToClient>
        ensures first { IfSome result (λ m. self.old.messages ≡ m ∷ self.new.messages) }
        ensures mail { IfSome result (IsMail N.cluster.board client) }
        ensures none { result ≡ None → (self.old.client ≢ client) ⊎ (self.old.messages ≡ []) }
        ensures unchanged { result ≡ None → self.new ≡ self.old }
        ensures client { self.new.client ≡ self.old.client }
    {
        if self.client != client {
            return None;
        }
        self.messages.pop_front()
    }
}
