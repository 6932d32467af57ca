//! Offices: tickets for the clerks of any number of threads.
ghost use Rattle.std.specs.Prelude.{◌≡◌, ℕ, true, ◌+◌, ◌-◌, ◌*◌, ◌<◌, ◌≤◌, [], ◌∷◌, ◌++◌, length, map, IfOk, IfErr};
ghost use Rattle.std.specs.List.{All};
ghost use Rattle.numbers.specs.Bounds.{max_tickets};
ghost use Rattle.numbers.specs.Sums.{AreAllBelow};
ghost use Rattle.quorum_set.specs.Capacities.{are_unit};
ghost use Rattle.certificate.specs.Certificates.{IsCertificate, IsOptimal, busiest_count, cycle_len};
ghost use Rattle.dealer.specs.Accounts.{account_of, ratio_of_cycles, IsLeastBusiest, IsLeastRatio};
ghost use Rattle.dealer.specs.Offices.{receipt_of, tickets_of, share_of, AreByCycle, RefusesTicket, RefusesAccount, AreOut};

use crate::account::Account;
use crate::clerk::Clerk;
use crate::cycle::Cycle;
use crate::fault::{DealFault, OfficeFault, Unclosed};
use crate::receipt::Receipt;
use crate::tickets::{Sheet, TicketTable, end, take_ticket};
use std::alloc::{AllocError, Global};
use std::marker::{Brand, Model};

/// An office that deals the tickets 0, 1, 2, .. of a cycle, in the order of the draws, to clerks in
/// any number of threads. A draw is one atomic addition: no clerk waits for another.
///
/// Contracts see its name, which its clerks have too, and its quota.
#[derive(Drop)]
pub struct Office {
    pub(crate) table: TicketTable,
    sheet: Sheet,
}

impl Model for Office {
    ghost use Rattle.dealer.specs.Invariants.{IsOffice};
    ghost use Rattle.dealer.specs.Offices.{OfficeState};

    ghost Value = { OfficeState };

    ghost view = { λ o. record {
      name = record { table = o.table.shared.table_id; cycle = o.sheet.cycle };
      quota = o.sheet.quota;
    } };

    ghost invariant = { λ o. IsOffice o.table.shared.key o.table.shared.table_id o.sheet };
}

/// Returns how often these receipts use each quorum.
fn counts_of_receipts(
    alloc: Global,
    cycle: &Cycle,
    receipts: &[Receipt],
) -> Result<Vec<u64>, AllocError>
    requires { AreByCycle cycle.now receipts.now }
    ensures { IfOk result (λ v. v.items ≡ (account_of cycle.now (tickets_of receipts.now)).quorums) }
{
    let mut counts = vec![in alloc; 0; cycle.plan().coterie().count()]?;
    for receipt in receipts {
        counts[receipt.quorum] += 1;
    }
    Ok(counts)
}

/// Returns the account of all tickets of an office.
fn account_of_all(alloc: Global, cycle: &Cycle, receipts: &[Receipt]) -> Result<Account, AllocError>
    requires { AreByCycle cycle.now receipts.now }
    ensures value { IfOk result (λ account. account ≡ account_of cycle.now (tickets_of receipts.now)) }
    ensures certificate { IfOk result (λ _. IsCertificate cycle.now) }
    ensures optimal { IfOk result (λ _. IsOptimal cycle.now) }
{
    let quorums = counts_of_receipts(alloc, cycle, receipts)?;
    cycle.account_of_counts(alloc, receipts.len() as u64, quorums)
}

impl Office {
    /// Returns a new office and the clerk that may draw all its tickets. The office deals at most
    /// `quota` tickets of the cycle; the quota is at most 2^63.
    ///
    /// Fails only if it runs out of memory, and then returns the cycle.
    pub fn new(
        alloc: Global,
        cycle: Cycle,
        quota: u64,
    ) -> Result<(Office, Clerk), (Cycle, AllocError)>
        requires { quota ≤ max_tickets }
        ensures cycle { IfOk result (λ made. made.0.name.cycle ≡ cycle) }
        ensures quota { IfOk result (λ made. made.0.quota ≡ quota) }
        ensures clerk { IfOk result (λ made. made.1
            ≡ record { office = made.0.name; rest = quota; receipts = [] }) }
        ensures err { IfErr result (λ refusal. refusal.0 ≡ cycle) }
    {
        let sheet = Sheet { cycle, quota };
        match TicketTable::of_words(alloc, &[0], &sheet) {
            Ok((table, seat)) => {
                let office = Office { table, sheet };
                let clerk = Clerk {
                    seat,
                    rest: quota,
                    receipts: Vec::new(alloc),
                };
                Ok((office, clerk))
            }
            Err(error) => Err((sheet.cycle, error)),
        }
    }

    /// Returns the cycle of the tickets.
    pub fn cycle(&self) -> &Cycle
        ensures { result.now ≡ self.now.name.cycle }
    {
        &self.sheet.cycle
    }

    /// Draws the next ticket for a clerk of this office, and returns the receipt. The clerk keeps
    /// the receipt too, and may draw one ticket less.
    ///
    /// Fails with `QuotaSpent` if and only if the clerk's rest is 0; otherwise only if it runs out
    /// of memory. Memory for the receipt is reserved before the ticket is taken, so a draw that
    /// fails takes no ticket.
    pub fn draw(&self, clerk: &mut Clerk) -> Result<Receipt, DealFault>
        requires { clerk.old.office ≡ self.now.name }
        ensures quorum { IfOk result (λ r. r ≡ receipt_of self.now.name.cycle r.ticket) }
        ensures in_range { IfOk result (λ r.
            r.quorum < length self.now.name.cycle.system.quorums) }

        // The ticket is above all that the clerk has. It is the next number if no other clerk has a
        // share.
        ensures above { IfOk result (λ r. All (λ t. t < r.ticket) (tickets_of clerk.old.receipts)) }
        ensures below { IfOk result (λ r. r.ticket < self.now.quota) }
        ensures next { share_of clerk.old ≡ self.now.quota →
            IfOk result (λ r. r.ticket ≡ length clerk.old.receipts) }

        ensures kept { IfOk result (λ r. clerk.new ≡ record clerk.old {
          rest = clerk.old.rest - 1;
          receipts = clerk.old.receipts ++ r ∷ [];
        }) }
        ensures some { IfOk result (λ _. 0 < clerk.old.rest) }
        ensures err { IfErr result (RefusesTicket clerk.old.rest) }
        ensures unchanged { IfErr result (λ _. clerk.new ≡ clerk.old) }
        ensures office { clerk.new.office ≡ clerk.old.office }
    {
        if clerk.rest == 0 {
            return Err(DealFault::QuotaSpent);
        }
        if clerk.receipts.reserve(1).is_err() {
            return Err(DealFault::OutOfMemory);
        }
        let ticket = take_ticket::<Brand>(&self.table, &mut clerk.seat);
        let quorum = self.sheet.cycle.quorum_at(ticket);
        let receipt = Receipt { ticket, quorum };
        clerk.rest -= 1;
        clerk.receipts.push_reserved(receipt);
        Ok(receipt)
    }

    /// Ends the office with its last clerk, and returns the cycle and the clerk's receipts, which are
    /// those of all tickets. Takes no memory.
    ///
    /// Fails with `ClerksOut` if and only if the clerk's receipts and its rest are short of the
    /// quota: then another clerk has a share or had one. If it fails, the receipts come back.
    pub fn end(self, clerk: Clerk) -> Result<(Cycle, Vec<Receipt>), Unclosed>
        requires { clerk.office ≡ self.name }
        ensures cycle { IfOk result (λ ended. ended.0 ≡ self.name.cycle) }
        ensures receipts { IfOk result (λ ended. ended.1.items ≡ clerk.receipts) }
        ensures share { IfOk result (λ _. share_of clerk ≡ self.quota) }

        // The tickets are the numbers from 0 on, each once, and each receipt has the quorum at its
        // ticket's place.
        ensures tickets { IfOk result (λ _.
            AreAllBelow (tickets_of clerk.receipts) (length clerk.receipts)) }
        ensures quorums { IfOk result (λ _. AreByCycle self.name.cycle clerk.receipts) }

        ensures err { IfErr result (λ unclosed. AreOut self.quota (share_of clerk) unclosed.fault) }
        ensures returned { IfErr result (λ unclosed. unclosed.receipts.items ≡ clerk.receipts) }
    {
        let Office { table, sheet } = self;
        let Clerk {
            seat,
            rest,
            receipts,
        } = clerk;
        end(table, seat);
        let out = sheet.quota - (receipts.len() as u64 + rest);
        if out > 0 {
            let fault = OfficeFault::ClerksOut(out);
            return Err(Unclosed { receipts, fault });
        }
        Ok((sheet.cycle, receipts))
    }

    /// Closes the office with its last clerk, and returns the account of all tickets and the
    /// clerk's receipts.
    ///
    /// Fails with `ClerksOut` if and only if the clerk's receipts and its rest are short of the
    /// quota: then another clerk has a share or had one. Otherwise it fails only if it runs out of
    /// memory. If it fails, the receipts come back.
    pub fn close(self, alloc: Global, clerk: Clerk) -> Result<(Account, Vec<Receipt>), Unclosed>
        requires { clerk.office ≡ self.name }
        ensures receipts { IfOk result (λ closed. closed.1.items ≡ clerk.receipts) }
        ensures share { IfOk result (λ _. share_of clerk ≡ self.quota) }

        // The tickets are the numbers from 0 on, each once, and each receipt has the quorum at its
        // ticket's place.
        ensures tickets { IfOk result (λ _.
            AreAllBelow (tickets_of clerk.receipts) (length clerk.receipts)) }
        ensures quorums { IfOk result (λ _. AreByCycle self.name.cycle clerk.receipts) }
        ensures account { IfOk result (λ closed.
            closed.0 ≡ account_of self.name.cycle (tickets_of clerk.receipts)) }

        // If k whole cycles were dealt, each quorum was used k times its weight, ..
        ensures shares { (k : ℕ) → length clerk.receipts ≡ k * cycle_len self.name.cycle →
            IfOk result (λ closed.
            closed.0.quorums ≡ map (λ weight. k * weight) self.name.cycle.quorum_weights) }
        // .. and the busiest voter k times the busiest count. The ratio is k times the cycle's.
        ensures even { (k : ℕ) → length clerk.receipts ≡ k * cycle_len self.name.cycle →
            IfOk result (λ closed. closed.0.busiest ≡ k * busiest_count self.name.cycle) }
        ensures ratio { (k : ℕ) → length clerk.receipts ≡ k * cycle_len self.name.cycle →
            IfOk result (λ closed. closed.0.ratio ≡ ratio_of_cycles self.name.cycle k) }

        // No list of that length has a smaller ratio. If all capacities are 1, none has a smaller
        // busiest count.
        ensures least_ratio { (k : ℕ) → length clerk.receipts ≡ k * cycle_len self.name.cycle →
            IfOk result (λ closed.
            IsLeastRatio self.name.cycle closed.0.drawn closed.0.ratio) }
        ensures least { (k : ℕ) → are_unit self.name.cycle.capacities ≡ true
            → length clerk.receipts ≡ k * cycle_len self.name.cycle → IfOk result (λ closed.
            IsLeastBusiest self.name.cycle closed.0.drawn closed.0.busiest) }

        ensures err { IfErr result (λ unclosed.
            RefusesAccount self.quota (share_of clerk) unclosed.fault) }
        ensures returned { IfErr result (λ unclosed. unclosed.receipts.items ≡ clerk.receipts) }
    {
        let (cycle, receipts) = match self.end(clerk) {
            Ok(ended) => ended,
            Err(unclosed) => return Err(unclosed),
        };
        match account_of_all(alloc, &cycle, &receipts) {
            Ok(account) => Ok((account, receipts)),
            Err(_) => Err(Unclosed {
                receipts,
                fault: OfficeFault::OutOfMemory,
            }),
        }
    }
}
