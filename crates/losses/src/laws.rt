//! Laws about what weights bear.
ghost use Rattle.std.specs.Prelude.{◌≡◌, ◌+◌, ◌<◌, ◌≤◌, ◌*◌, ℕ, List, [], ◌∷◌};
ghost use Rattle.std.specs.List.{All};
ghost use Rattle.quorum_set.specs.Capacities.{unit_capacities};
ghost use Rattle.certificate.specs.Bounds.{IsRival};
ghost use Rattle.certificate.specs.Certificates.{Weighted, AreWeights, IsCertificate, busiest_count, cycle_count, cycle_len, load_of};
ghost use Rattle.certificate.specs.Ratios.{IsAtMost};
ghost use Rattle.losses.specs.Losses.{tickets_left, tickets_lost};
ghost use Rattle.losses.specs.Regrets.{AreUsable, IsBorne, IsRegretBound, million, regret_bound, regret_of};
ghost use Rattle.losses.specs.declared.failure.Failure.{Failure};

/// If one voter is down, the tickets that are lost are those that use it: as many as its count. So at
/// most the busiest count are lost, and some voter's loss loses exactly these.
///
/// If all capacities are 1, this is the load: the share of tickets that are lost is at most the load,
/// and some voter's loss loses exactly this share. For each other weights of the same coterie, some
/// voter's loss loses at least the load of a plan. So the worst loss of a plan is the smallest.
pub fn one_loss_costs_at_most_the_load()
    ensures count { (w : Weighted) → AreWeights w → (i : ℕ) → tickets_lost (i ∷ []) w ≡ cycle_count w i }
    ensures left { (w : Weighted) → AreWeights w → (i : ℕ) → tickets_left (i ∷ []) w + cycle_count w i ≡ cycle_len w }
    ensures most { (w : Weighted) → AreWeights w → (i : ℕ) → i < w.system.voters
        → tickets_lost (i ∷ []) w ≤ busiest_count w }
    ensures reached { (w : Weighted) → AreWeights w
        → (i : ℕ) × (i < w.system.voters) × (tickets_lost (i ∷ []) w ≡ busiest_count w) }
    ensures load { (w : Weighted) → AreWeights w → w.capacities ≡ unit_capacities w.system.voters
        → (i : ℕ) → i < w.system.voters → IsAtMost (tickets_lost (i ∷ []) w, cycle_len w) (load_of w) }
    ensures worst { (w : Weighted) → AreWeights w → w.capacities ≡ unit_capacities w.system.voters
        → (i : ℕ) × (i < w.system.voters) × IsAtMost (load_of w) (tickets_lost (i ∷ []) w, cycle_len w) }
    ensures least { (w v : Weighted) → IsCertificate w → w.capacities ≡ unit_capacities w.system.voters → IsRival w v
        → (i : ℕ) × (i < w.system.voters) × IsAtMost (load_of w) (tickets_lost (i ∷ []) v, cycle_len v) }
{}

/// Multipliers bound regrets from below. All weights of the same coterie and capacities whose load is at
/// most the limit have, at some failure, at least the regret that the multipliers show. So this is at most
/// the regret of each of them that is left a ticket by all failures.
pub fn no_regret_is_below_the_bound()
    ensures bound { (w : Weighted) (limit : ℕ × ℕ) (multipliers : List ℕ) (failures : List Failure) → AreWeights w
        → AreUsable w.system limit multipliers failures
        → IsRegretBound (regret_bound w limit multipliers failures, million) w limit failures }
    ensures regret { (r limit : ℕ × ℕ) (w v : Weighted) (failures : List Failure) → AreWeights w
        → IsRegretBound r w limit failures → IsRival w v → IsAtMost (load_of v) limit
        → All (IsBorne v) failures → IsAtMost r (regret_of v failures) }
{}
