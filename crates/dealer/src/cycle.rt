//! The cycle of a plan.
ghost use Rattle.std.specs.Prelude.{◌≡◌, ◌<◌, ◌*◌, ◌^◌, ℕ, true, List, length, map, slice_index, sum, IfOk, IfErr};
ghost use Rattle.numbers.specs.Counts.{times};
ghost use Rattle.quorum_set.specs.Capacities.{are_unit};
ghost use Rattle.certificate.specs.Certificates.{IsCertificate, IsOptimal, busiest_count, cycle_len};
ghost use Rattle.dealer.specs.Cycles.{cycle_of, quorum_of_ticket};
ghost use Rattle.dealer.specs.Blocks.{listed_quorums, AreBlocksOf};
ghost use Rattle.dealer.specs.Accounts.{account_of, quorums_named, ratio_of_cycles, values_below, IsWholeCycles, IsLeastBusiest, IsLeastRatio};

use crate::account::{Account, counts_of_voters, greatest_of};
use crate::counts::Counts;
use crate::rounds::{Block, Listed, blocks_of, listed_of, lists_of, place_in, quorum_in, rest_of};
use certificate::{Plan, greatest_ratio};
use std::alloc::{AllocError, Global};
use std::marker::Model;

/// A plan, and the order in which its quorums are dealt. Contracts see the plan.
#[derive(Drop)]
pub struct Cycle {
    plan: Plan,
    /// The quorums of positive weight, in the order of their numbers.
    listed: Vec<Listed>,
    /// The rounds in blocks: runs of rounds that list the same quorums.
    blocks: Vec<Block>,
}

impl Model for Cycle {
    ghost use Rattle.certificate.specs.Certificates.{Weighted};
    ghost use Rattle.dealer.specs.Blocks.{IsCycleOf};

    ghost Value = { Weighted };

    ghost view = { λ c. c.plan };

    ghost invariant = { λ c. IsCycleOf c.plan c.listed.items c.blocks.items };
}

/// Returns the weights of a plan's quorums.
fn weights_of(alloc: Global, plan: &Plan) -> Result<Vec<u64>, AllocError>
    ensures value { IfOk result (λ v. v.items ≡ plan.now.quorum_weights) }
    ensures certificate { IfOk result (λ _. IsCertificate plan.now) }
{
    let count = plan.coterie().count();
    let mut weights = Vec::with_capacity(alloc, count)?;
    for j in 0..count {
        weights.push(plan.weight(j))?;
    }
    Ok(weights)
}

/// Returns the quorums of positive weight of a plan's cycle, and its blocks.
fn rounds_of(alloc: Global, plan: &Plan) -> Result<(Vec<Listed>, Vec<Block>), AllocError>
    ensures listed { IfOk result (λ rounds. rounds.0.items ≡ listed_quorums plan.now.quorum_weights) }
    ensures blocks { IfOk result (λ rounds. AreBlocksOf plan.now.quorum_weights rounds.1.items) }
{
    let weights = weights_of(alloc, plan)?;
    let listed = listed_of(alloc, &weights)?;
    let blocks = blocks_of(alloc, &weights)?;
    Ok((listed, blocks))
}

impl Cycle {
    /// Returns the cycle of a plan. It keeps a list of the quorums of positive weight, and one
    /// entry for each weight that they have. The time is that of sorting the weights, whatever the
    /// cycle's length.
    ///
    /// Fails only if it runs out of memory, and then returns the plan.
    pub fn of(alloc: Global, plan: Plan) -> Result<Cycle, (Plan, AllocError)>
        ensures ok { IfOk result (λ cycle. cycle ≡ plan) }
        ensures certificate { IfOk result IsCertificate }
        ensures err { IfErr result (λ refusal. refusal.0 ≡ plan) }
    {
        // Called for its contract alone, which says what is proved of every plan.
        let _ = plan.ratio();
        match rounds_of(alloc, &plan) {
            Ok((listed, blocks)) => Ok(Cycle {
                plan,
                listed,
                blocks,
            }),
            Err(error) => Err((plan, error)),
        }
    }

    /// Returns the cycle of a plan, as [`Cycle::of`] does, but drops the plan if it runs out of
    /// memory.
    pub fn from_plan(alloc: Global, plan: Plan) -> Result<Cycle, AllocError>
        ensures ok { IfOk result (λ cycle. cycle ≡ plan) }
        ensures certificate { IfOk result IsCertificate }
    {
        match Cycle::of(alloc, plan) {
            Ok(cycle) => Ok(cycle),
            Err((_, error)) => Err(error),
        }
    }

    /// Returns the plan.
    pub fn plan(&self) -> &Plan
        ensures value { result.now ≡ self.now }
        ensures certificate { IsCertificate self.now }
        ensures optimal { IsOptimal self.now }
    {
        &self.plan
    }

    /// Returns the number of the quorum at a place of the cycle.
    fn named_at(&self, place: u64) -> usize
        requires { place < cycle_len self.now }
        ensures { result ≡ slice_index (cycle_of self.now.quorum_weights) place }
    {
        let (number, at) = place_in(&self.blocks, place);
        quorum_in(&self.listed, self.blocks[number], at)
    }

    /// Returns the number of the quorum that a ticket stands for: the one at the ticket's place in
    /// the cycle, which begins again at its end. Takes no memory.
    #[tactic(auto, using(crate::proofs::AccountLemmas::ticket_in_range))]
    pub fn quorum_at(&self, ticket: u64) -> usize
        ensures value { result ≡ quorum_of_ticket self.now ticket }
        ensures in_range { result < length self.now.system.quorums }
        ensures certificate { IsCertificate self.now }
    {
        self.named_at(rest_of(ticket, self.plan.cycle_len()))
    }

    /// Returns how many of the tickets stand for each quorum.
    fn counts_of_quorums(&self, alloc: Global, tickets: &[u64]) -> Result<Vec<u64>, AllocError>
        ensures { IfOk result (λ v. v.items
            ≡ values_below (length self.now.system.quorums)
            (λ j. times j (quorums_named self.now tickets.now))) }
    {
        let lists = lists_of(alloc, &self.listed, &self.blocks)?;
        let mut counts = vec![in alloc; 0; self.plan.coterie().count()]?;
        for ticket in tickets {
            let (number, at) = place_in(&self.blocks, *ticket % self.plan.cycle_len());
            counts[lists[number][at]] += 1;
        }
        Ok(counts)
    }

    /// Returns the account of `drawn` tickets that use each quorum as often as `quorums` says.
    pub(crate) fn account_of_counts(
        &self,
        alloc: Global,
        drawn: u64,
        quorums: Vec<u64>,
    ) -> Result<Account, AllocError>
        requires lengths { length quorums.items ≡ length self.now.system.quorums }
        requires fits { sum quorums.items < 2 ^ 64 }
        ensures value { (tickets : List ℕ) → length tickets ≡ drawn
            → quorums.items ≡ (account_of self.now tickets).quorums
            → IfOk result (λ account. account ≡ account_of self.now tickets) }
        ensures certificate { IsCertificate self.now }
        ensures optimal { IsOptimal self.now }
    {
        let voters = counts_of_voters(alloc, self.plan.coterie(), &quorums)?;
        let busiest = greatest_of(&voters);
        let ratio = greatest_ratio(&voters, self.plan.capacities());
        Ok(Account {
            drawn,
            quorums: Counts::from(quorums),
            voters: Counts::from(voters),
            busiest,
            ratio,
        })
    }

    /// Returns the account of a list of tickets, in any order. Fails only if it runs out of memory.
    ///
    /// The tickets of whole cycles use each quorum as often as its weight says. No list of that
    /// length has a smaller ratio. If all capacities are 1, no list of that length uses its busiest
    /// voter less often.
    pub fn account(&self, alloc: Global, tickets: &[u64]) -> Result<Account, AllocError>
        ensures value { IfOk result (λ account. account ≡ account_of self.now tickets.now) }

        // The tickets of k whole cycles use each quorum k times its weight, ..
        ensures shares { (k : ℕ) → IsWholeCycles self.now k tickets.now →
            IfOk result (λ account.
            account.quorums ≡ map (λ weight. k * weight) self.now.quorum_weights) }
        // .. and the busiest voter k times the busiest count. The ratio is k times the cycle's.
        ensures even { (k : ℕ) → IsWholeCycles self.now k tickets.now →
            IfOk result (λ account. account.busiest ≡ k * busiest_count self.now) }
        ensures ratio { (k : ℕ) → IsWholeCycles self.now k tickets.now →
            IfOk result (λ account. account.ratio ≡ ratio_of_cycles self.now k) }

        // No list of that length has a smaller ratio. If all capacities are 1, none has a smaller
        // busiest count.
        ensures least_ratio { (k : ℕ) → IsWholeCycles self.now k tickets.now →
            IfOk result (λ account. IsLeastRatio self.now account.drawn account.ratio) }
        ensures least { (k : ℕ) → are_unit self.now.capacities ≡ true → IsWholeCycles self.now k tickets.now →
            IfOk result (λ account. IsLeastBusiest self.now account.drawn account.busiest) }
    {
        let quorums = self.counts_of_quorums(alloc, tickets)?;
        self.account_of_counts(alloc, tickets.len() as u64, quorums)
    }
}
