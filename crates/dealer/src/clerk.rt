//! Clerks: the right to draw tickets.
ghost use Rattle.std.specs.Prelude.{◌≡◌, ◌+◌, ◌-◌, ◌≤◌, ◌++◌, [], IfOk, IfErr};
ghost use Rattle.dealer.specs.Offices.{AreByCycle};

use crate::office::Office;
use crate::receipt::Receipt;
use crate::tickets::{Hand, split_off, take_in};
use atomic_table::Seat;
use std::alloc::AllocError;
use std::marker::{Brand, Model};

/// The right to draw some tickets of one office, with a receipt for each ticket that was drawn.
///
/// A clerk may move to another thread. If it is dropped, its share is lost: unless that was
/// nothing, its office is never closed with an account.
///
/// Contracts see its office's name, how many tickets it may still draw (its rest), and its receipts
/// in the order of its draws. The receipts of a clerk that joins it follow its own.
#[derive(Drop)]
pub struct Clerk {
    pub(crate) seat: Seat<(), Hand>,
    pub(crate) rest: u64,
    pub(crate) receipts: Vec<Receipt>,
}

impl Model for Clerk {
    ghost use Rattle.dealer.specs.Invariants.{IsClerk};
    ghost use Rattle.dealer.specs.Offices.{ClerkState};

    ghost Value = { ClerkState };

    ghost view = { λ c. record {
      office = record { table = c.seat.table_id; cycle = c.seat.me.0.cycle };
      rest = c.rest;
      receipts = c.receipts.items;
    } };

    ghost invariant = { λ c. IsClerk c.seat.me c.rest c.receipts.items };
}

impl Clerk {
    /// Returns how many more tickets it may draw.
    pub fn rest(&self) -> u64
        ensures { result ≡ self.now.rest }
    {
        self.rest
    }

    /// Returns its receipts. Each has the quorum of its ticket.
    pub fn receipts(&self) -> &[Receipt]
        ensures value { result.now ≡ self.now.receipts }
        ensures quorums { AreByCycle self.now.office.cycle self.now.receipts }
    {
        &self.receipts
    }

    /// Splits off a new clerk of the same office. The new clerk may draw `quota` of the tickets
    /// that this one might have drawn, which is at most this one's rest. The office has to be this
    /// clerk's. Takes no memory.
    pub fn split(&mut self, office: &Office, quota: u64) -> Clerk
        requires office { self.old.office ≡ office.now.name }
        requires rest { quota ≤ self.old.rest }
        ensures given { result ≡ record { office = self.old.office; rest = quota; receipts = [] } }
        ensures kept { self.new ≡ record self.old { rest = self.old.rest - quota } }
        ensures office { self.new.office ≡ self.old.office }
    {
        let seat = split_off::<Brand>(&office.table, &mut self.seat, quota);
        self.rest -= quota;
        Clerk {
            seat,
            rest: quota,
            receipts: Vec::new(*self.receipts.allocator()),
        }
    }

    /// Joins another clerk to this one. Their rests are added, and the other's receipts follow this
    /// clerk's. Both have to be of this office.
    ///
    /// Fails only if it runs out of memory. It then changes nothing and returns the other clerk.
    pub fn join(&mut self, office: &Office, other: Clerk) -> Result<(), (Clerk, AllocError)>
        requires office { self.old.office ≡ office.now.name }
        requires other { other.office ≡ office.now.name }
        ensures ok { IfOk result (λ _. self.new ≡ record self.old {
          rest = self.old.rest + other.rest;
          receipts = self.old.receipts ++ other.receipts;
        }) }
        ensures err { IfErr result (λ refusal. refusal.0 ≡ other) }
        ensures unchanged { IfErr result (λ _. self.new ≡ self.old) }
        ensures office { self.new.office ≡ self.old.office }
    {
        if let Err(error) = self.receipts.extend_from_slice(&other.receipts) {
            return Err((other, error));
        }
        take_in(&office.table, &mut self.seat, other.seat);
        self.rest += other.rest;
        Ok(())
    }
}
