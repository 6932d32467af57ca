//! Laws: what is proved about the definitions.
ghost use Rattle.std.specs.Prelude.{◌≡◌, ◌*◌, ◌<◌, ℕ, List, IsPermutation, length, slice_index, sum};
ghost use Rattle.std.specs.List.{range_with_len};
ghost use Rattle.quorum_set.specs.Counts.{count_of, busiest_of};
ghost use Rattle.numbers.specs.Counts.{times};
ghost use Rattle.certificate.specs.Certificates.{Weighted, IsCertificate, busiest_count, cycle_len};
ghost use Rattle.certificate.specs.Loads.{weight_on};
ghost use Rattle.certificate.specs.Ratios.{ratio_of};
ghost use Rattle.dealer.specs.Cycles.{cycle_of, quorum_of_ticket, GoesByTurns};
ghost use Rattle.dealer.specs.Accounts.{account_of, quorums_named, ratio_of_cycles, IsWholeCycles};

/// A cycle is as long as the weights add up to, and contains each quorum as often as its weight
/// says. It goes by turns. First comes each quorum once, in the order of their numbers. Then each
/// quorum with a weight of 2 or more comes a second time, and so on.
pub fn cycles_follow_weights()
    ensures len { (weights : List ℕ) → length (cycle_of weights) ≡ sum weights }
    ensures shares { (weights : List ℕ) (j : ℕ) → times j (cycle_of weights) ≡ slice_index weights j }
    ensures turns { (weights : List ℕ) → GoesByTurns (cycle_of weights) }
{}

/// Each ticket of a plan's cycle stands for a quorum that there is.
pub fn tickets_name_quorums()
    ensures { (w : Weighted) (ticket : ℕ) → IsCertificate w → quorum_of_ticket w ticket < length w.system.quorums }
{}

/// The numbers below k times the cycle's length, in any order, are the tickets of k whole cycles.
pub fn tickets_fill_cycles_in_any_order()
    ensures { (w : Weighted) (k : ℕ) (tickets : List ℕ) →
        IsPermutation (range_with_len 0 (k * cycle_len w)) tickets → IsWholeCycles w k tickets }
{}

/// Tickets use a voter as often as they use the quorums with this voter, taken together.
pub fn voters_are_counted_by_quorum()
    ensures { (w : Weighted) (tickets : List ℕ) → IsCertificate w → (i : ℕ) →
        count_of w.system i (quorums_named w tickets)
        ≡ weight_on i w.system.quorums (account_of w tickets).quorums }
{}

/// The tickets of k whole cycles use each quorum k times its weight, and their busiest voter k
/// times the busiest count. Their ratio is k times the ratio of the cycle.
pub fn whole_cycles_follow_weights()
    ensures shares { (w : Weighted) (k : ℕ) (tickets : List ℕ) → IsWholeCycles w k tickets →
        (j : ℕ) → times j (quorums_named w tickets) ≡ k * slice_index w.quorum_weights j }
    ensures even { (w : Weighted) (k : ℕ) (tickets : List ℕ) →
        IsCertificate w → IsWholeCycles w k tickets →
        busiest_of w.system (quorums_named w tickets) ≡ k * busiest_count w }
    ensures ratio { (w : Weighted) (k : ℕ) (tickets : List ℕ) →
        IsCertificate w → IsWholeCycles w k tickets →
        ratio_of w.system w.capacities (quorums_named w tickets) ≡ ratio_of_cycles w k }
{}
