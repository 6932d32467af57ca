//! Leads: how far a voter's count runs ahead of its share.
ghost use Rattle.std.specs.Prelude.{◌≡◌, ◌+◌, ◌-◌, ◌*◌, ◌^◌, ◌<◌, ◌≤◌, length, if◌then◌else◌};
ghost use Rattle.std.specs.List.{All};
ghost use Rattle.numbers.specs.Bounds.{max_cycle};
ghost use Rattle.numbers.specs.Counts.{greatest_below};
ghost use Rattle.quorum_set.specs.Counts.{count_of};
ghost use Rattle.even.specs.Leads.{gains_of, lead_after, IsGreatestLead};

use quorum_set::Coterie;

/// Returns a lead after one more step.
fn stepped(lead: u64, has_voter: bool, gain: u64, cost: u64) -> u64
    requires { lead + gain < 2 ^ 64 }
    ensures value { result ≡ (lead + (if has_voter then gain else 0)) - cost }
    ensures bound { result ≤ lead + gain }
{
    let raised = if has_voter { lead + gain } else { lead };
    raised.saturating_sub(cost)
}

/// Returns a voter's lead after an order of quorums, and its greatest lead on the way.
fn leads_of(
    coterie: &Coterie,
    order: &[usize],
    voter: u8,
    gain: u64,
    cost: u64,
    start: u64,
) -> (u64, u64)
    requires order { All (λ j. j < length coterie.now.quorums) order.now }
    requires short { length order.now ≤ max_cycle }
    requires small { gain ≤ 1000000000 }
    requires start { start ≤ 2 ^ 60 }
    ensures last { result.0 ≡ lead_after (gains_of coterie.now voter gain order.now) cost start (length order.now) }
    ensures greatest { result.1
        ≡ greatest_below (length order.now + 1) (lead_after (gains_of coterie.now voter gain order.now) cost start) }
    ensures bound { result.0 ≤ start + 1000000000 * length order.now }
{
    let mut lead = start;
    let mut greatest = start;
    for quorum in order {
        lead = stepped(lead, coterie.quorum(*quorum).has(voter), gain, cost);
        greatest = greatest.max(lead);
    }
    (lead, greatest)
}

/// Returns a voter's greatest lead in an order of quorums that begins again at its end. Over the
/// whole order the voter may gain no more than the steps cost.
///
/// It goes over the order twice. The first time begins without a lead. Then the lead at the end of
/// the order is the same each time.
pub(crate) fn greatest_lead(
    coterie: &Coterie,
    order: &[usize],
    voter: u8,
    gain: u64,
    cost: u64,
) -> u64
    requires order { All (λ j. j < length coterie.now.quorums) order.now }
    requires some { 0 < length order.now }
    requires short { length order.now ≤ max_cycle }
    requires small { gain ≤ 1000000000 }
    requires whole { gain * count_of coterie.now voter order.now ≤ length order.now * cost }
    ensures { IsGreatestLead coterie.now voter gain cost order.now result }
{
    let (start, _) = leads_of(coterie, order, voter, gain, cost, 0);
    let (_, greatest) = leads_of(coterie, order, voter, gain, cost, start);
    greatest
}
