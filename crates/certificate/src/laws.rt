//! Laws about weights and plans.
ghost use Rattle.std.specs.Prelude.{◌≡◌, ◌*◌, ◌↔◌, ◌<◌, ◌≤◌, ◌++◌, ℕ, List, [], true, false, None, Some, codes, length, slice_index};
ghost use Rattle.std.specs.Int.{IsGcd};
ghost use Rattle.std.specs.List.{All};
ghost use Rattle.divisor.specs.Gcd.{lowest_terms};
ghost use Rattle.numbers.specs.Counts.{greatest_below, times};
ghost use Rattle.quorum_set.specs.Capacities.{AreCapacities, IsCapacity, are_unit, unit_capacities};
ghost use Rattle.quorum_set.specs.Coteries.{IsCoterie};
ghost use Rattle.quorum_set.specs.Counts.{count_of, busiest_of};
ghost use Rattle.certificate.specs.Bounds.{BearsBound, IsBounded, bound_of};
ghost use Rattle.certificate.specs.Certificates.{Weighted, AreWeights, IsCertificate, IsOptimal, IsUnitCertificate, IsUnitOptimal, weights_fault, busiest_count, cycle_len, cycle_ratio, load_of, unit_load};
ghost use Rattle.certificate.specs.Loads.{weight_on};
ghost use Rattle.certificate.specs.Ratios.{IsAtMost, greatest_ratio, ratio_of};

/// A list that has each quorum k times its weight uses each voter k times the weight on the voter's
/// quorums. It uses its busiest voter k times the busiest count, and its ratio is k times the ratio
/// of the cycle.
///
/// With k = 1: the busiest count is the greatest count of a voter in any list that has each quorum
/// as often as its weight.
pub fn whole_cycles_are_even()
    ensures counts { (w : Weighted) (k : ℕ) (list : List ℕ) → length w.quorum_weights ≡ length w.system.quorums
        → ((j : ℕ) → times j list ≡ k * slice_index w.quorum_weights j)
        → (i : ℕ) → count_of w.system i list ≡ k * weight_on i w.system.quorums w.quorum_weights }
    ensures busiest { (w : Weighted) (k : ℕ) (list : List ℕ) → length w.quorum_weights ≡ length w.system.quorums
        → ((j : ℕ) → times j list ≡ k * slice_index w.quorum_weights j)
        → busiest_of w.system list ≡ k * busiest_count w }
    ensures ratio { (w : Weighted) (k : ℕ) (list : List ℕ) → AreWeights w
        → ((j : ℕ) → times j list ≡ k * slice_index w.quorum_weights j)
        → ratio_of w.system w.capacities list ≡ lowest_terms (k * (cycle_ratio w).0) (cycle_ratio w).1 }
{}

/// A ratio is at least each count, divided by the voter's capacity. For some voter it is this
/// quotient, unless there is no voter. It is in lowest terms.
pub fn ratios_are_greatest()
    ensures bound { (n : ℕ) (capacities : List ℕ) (count : ℕ → ℕ) → AreCapacities capacities n → (i : ℕ) → i < n
        → count i * (greatest_ratio n capacities count).1
        ≤ (greatest_ratio n capacities count).0 * slice_index capacities i }
    ensures reached { (n : ℕ) (capacities : List ℕ) (count : ℕ → ℕ) → AreCapacities capacities n → 0 < n
        → (i : ℕ) × (i < n) × (count i * (greatest_ratio n capacities count).1
        ≡ (greatest_ratio n capacities count).0 * slice_index capacities i) }
    ensures lowest { (n : ℕ) (capacities : List ℕ) (count : ℕ → ℕ) → AreCapacities capacities n
        → IsGcd (greatest_ratio n capacities count).0 (greatest_ratio n capacities count).1 1 }
{}

/// No list of quorum numbers has, for its length, a smaller ratio than the cycle of optimal weights.
pub fn no_list_has_a_smaller_ratio()
    ensures { (w : Weighted) → AreCapacities w.capacities w.system.voters → IsOptimal w
        → (list : List ℕ) → All (λ j. j < length w.system.quorums) list
        → length list * (cycle_ratio w).0 * (ratio_of w.system w.capacities list).1
        ≤ (ratio_of w.system w.capacities list).0 * ((cycle_ratio w).1 * cycle_len w) }
{}

/// The voters' weights bound each load from below: no weights of the same coterie and capacities
/// have a load below the bound. Each list of quorum numbers uses some voter, for its capacity, at
/// least as often as the bound says. The load is the bound if and only if the weights are a
/// certificate.
pub fn no_load_is_below_the_bound()
    ensures voter { (w : Weighted) → AreWeights w → BearsBound w }
    ensures load { (w : Weighted) → AreWeights w → IsBounded w }
    ensures own { (w : Weighted) → AreWeights w → IsAtMost (bound_of w) (load_of w) }
    ensures certificate { (w : Weighted) → AreWeights w → (load_of w ≡ bound_of w) ↔ IsCertificate w }
{}

/// If all capacities are 1, a ratio is the greatest count, over 1. The weights are a certificate,
/// and optimal, if and only if they are so without capacities. The load is the same.
pub fn unit_capacities_change_nothing()
    ensures ratio { (n : ℕ) (capacities : List ℕ) (count : ℕ → ℕ) → length capacities ≡ n → are_unit capacities ≡ true
        → greatest_ratio n capacities count ≡ (greatest_below n count, 1) }
    ensures certificate { (w : Weighted) → w.capacities ≡ unit_capacities w.system.voters
        → IsCertificate w ↔ IsUnitCertificate w }
    ensures optimal { (w : Weighted) → IsCoterie w.system → w.capacities ≡ unit_capacities w.system.voters
        → IsOptimal w ↔ IsUnitOptimal w }
    ensures load { (w : Weighted) → w.capacities ≡ unit_capacities w.system.voters → load_of w ≡ unit_load w }
    ensures units { (capacities : List ℕ) (n : ℕ) → length capacities ≡ n
        → (are_unit capacities ≡ true) ↔ (capacities ≡ unit_capacities n) }
    ensures capacities { (n : ℕ) → AreCapacities (unit_capacities n) n }
{}

/// Weights of a coterie have no fault if and only if they are a certificate.
pub fn certificates_have_no_fault()
    ensures { (w : Weighted) → IsCoterie w.system → AreCapacities w.capacities w.system.voters
        → (weights_fault w ≡ None) ↔ IsCertificate w }
{}
