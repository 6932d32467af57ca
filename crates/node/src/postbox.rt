//! Mailboxes that threads share, and on which a client's thread can sleep.
ghost use Rattle.std.specs.Prelude.{◌≡◌, ◌↔◌, [], true, false, IfErr, IfOk, IfSome, IsTrue, MatchBool};
ghost use Rattle.node.specs.Mail.{IsMail, with_message};

use crate::mailbox::Mailbox;
use crate::name::ClusterName;
use message::ToClient;
use std::alloc::{AllocError, Global};
use std::marker::Model;
use std::sync::{Condvar, CondvarTimeouts, Mutex, Wait};
use std::time::{Clock, Duration};

/// A client's mailbox, and whether its thread sleeps until the bell rings or a time is over.
#[derive(Drop)]
struct Slot<N: ClusterName> {
    mailbox: Mailbox<N>,
    sleeps: bool,
}

/// What became of a message that was put into a slot.
struct Put {
    /// Whether it was appended, or out of memory.
    appended: Result<bool, AllocError>,
    /// Whether the client's thread slept, and has to be woken.
    wakes: bool,
}

impl<N: ClusterName> Slot<N> {
    /// Appends a message as [`Mailbox::put`] does, and ends the sleep of the client's thread. It ends
    /// it for a message that is not appended too.
    fn put(&mut self, message: ToClient, voters: usize) -> Put
        requires { voters ≡ N.cluster.board.voters }
        ensures mail { IfOk result.appended (λ put. IsTrue put ↔ IsMail N.cluster.board self.old.mailbox.client message) }
        ensures put { IfOk result.appended (λ put.
            MatchBool put (self.new.mailbox ≡ with_message self.old.mailbox message) (self.new.mailbox ≡ self.old.mailbox)) }
        ensures memory { IfErr result.appended (λ _. self.new.mailbox ≡ self.old.mailbox) }
        ensures only_mail { IfErr result.appended (λ _. IsMail N.cluster.board self.old.mailbox.client message) }
        ensures wakes { result.wakes ≡ self.old.sleeps }
        ensures awake { self.new.sleeps ≡ false }
    {
        let appended = self.mailbox.put(message, voters);
        let wakes = self.sleeps;
        self.sleeps = false;
        Put { appended, wakes }
    }

    /// Notes whether the client's thread sleeps: it does if no message waits. Returns whether it does.
    fn falls_asleep(&mut self) -> bool
        ensures empty { IsTrue result ↔ (self.old.mailbox.messages ≡ []) }
        ensures asleep { self.new ≡ record self.old { sleeps = result } }
    {
        self.sleeps = self.mailbox.is_empty();
        self.sleeps
    }
}

/// A client's mailbox behind a lock, with a bell that rings when a message comes. Contracts see the
/// client's number.
#[derive(Drop)]
pub struct Postbox<N: ClusterName> {
    client: u8,
    slot: Mutex<Slot<N>>,
    bell: Condvar,
}

impl<N: ClusterName> Model for Postbox<N> {
    ghost use Rattle.std.specs.Prelude.{ℕ};

    ghost Value = { ℕ };

    ghost view = { λ b. b.client };
}

impl<N: ClusterName> Postbox<N> {
    /// Creates the empty mailbox of a client.
    pub fn new(alloc: Global, client: u8) -> Postbox<N>
        ensures { result ≡ client }
    {
        Postbox {
            client,
            slot: Mutex::new(Slot {
                mailbox: Mailbox::new(alloc, client),
                sleeps: false,
            }),
            bell: Condvar::new(),
        }
    }

    /// Appends a message if it belongs in this mailbox, and rings if the client's thread sleeps.
    /// Returns `false` if it does not belong here, and fails if it runs out of memory; then the
    /// message is lost. It rings for such a message too. `voters` is the number of the board's voters.
    pub fn put(&self, rt: &impl Wait, message: ToClient, voters: usize) -> Result<bool, AllocError>
        requires client { message.client ≡ self.now }
        requires voters { voters ≡ N.cluster.board.voters }
        ensures mail { IfOk result (λ put. put ≡ true → IsMail N.cluster.board self.now message) }
        ensures memory { IfErr result (λ _. IsMail N.cluster.board self.now message) }
    {
        let mut slot = self.slot.lock(rt);
        let Put { appended, wakes } = slot.put(message, voters);
        drop(slot);
        if wakes {
            self.bell.notify_one();
        }
        appended
    }

    /// Removes the first message and returns it, if there is one.
    pub fn take(&self, rt: &impl Wait) -> Option<ToClient>
        ensures { IfSome result (IsMail N.cluster.board self.now) }
    {
        self.slot.lock(rt).mailbox.take(self.client)
    }

    /// Has the client's thread sleep until a message comes or the time is over. Returns at once if a
    /// message waits.
    pub fn sleep<R: Wait + Clock>(&self, rt: &R, _client: u8, time: Duration)
        requires { _client ≡ self.now }
    {
        let mut slot = self.slot.lock(rt);
        if slot.falls_asleep() {
            let (mut slot, _) = self.bell.wait_timeout(rt, slot, time);
            slot.sleeps = false;
        }
    }
}
