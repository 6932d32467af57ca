//! Laws about loads. Each is the contract of a function with an empty body.
ghost use Rattle.std.specs.Prelude.{◌≡◌, ◌*◌, ◌<◌, ◌≤◌, ℕ, List, length, sum};
ghost use Rattle.std.specs.List.{All};
ghost use Rattle.quorum_set.specs.Capacities.{AreCapacities};
ghost use Rattle.quorum_set.specs.Coteries.{QuorumSystem, IsCoterie};
ghost use Rattle.quorum_set.specs.Counts.{count_of, busiest_of};
ghost use Rattle.certificate.specs.Certificates.{Weighted, busiest_count, cycle_len, load_of, unit_load};
ghost use Rattle.certificate.specs.Ratios.{ratio_of};
ghost use Rattle.known_loads.specs.SmallestQuorums.{smallest_size, smallest_capacity};

/// In a list of quorum numbers of a coterie of n voters, some voter's count is at least the list's
/// length times the size of the smallest quorum, divided by n.
///
/// With capacities: the list's ratio is at least that product, divided by the sum of all capacities.
pub fn some_voter_bears_the_average()
    ensures busiest { (s : QuorumSystem) (list : List ℕ)
        → IsCoterie s → All (λ j. j < length s.quorums) list
        → length list * smallest_size s ≤ s.voters * busiest_of s list }
    ensures voter { (s : QuorumSystem) (list : List ℕ)
        → IsCoterie s → All (λ j. j < length s.quorums) list
        → (i : ℕ) × (i < s.voters) × (length list * smallest_size s ≤ s.voters * count_of s i list) }
    ensures ratio { (s : QuorumSystem) (capacities list : List ℕ)
        → IsCoterie s → AreCapacities capacities s.voters → All (λ j. j < length s.quorums) list
        → length list * smallest_size s * (ratio_of s capacities list).1
        ≤ sum capacities * (ratio_of s capacities list).0 }
{}

/// In a list of quorum numbers of a coterie, some voter's count is at least the list's length,
/// divided by the size of the smallest quorum.
///
/// With capacities: the list's ratio is at least its length, divided by the least capacity of a
/// quorum.
pub fn smallest_quorum_bears_every_entry()
    ensures busiest { (s : QuorumSystem) (list : List ℕ)
        → IsCoterie s → All (λ j. j < length s.quorums) list
        → length list ≤ smallest_size s * busiest_of s list }
    ensures voter { (s : QuorumSystem) (list : List ℕ)
        → IsCoterie s → All (λ j. j < length s.quorums) list
        → (i : ℕ) × (i < s.voters) × (length list ≤ smallest_size s * count_of s i list) }
    ensures ratio { (s : QuorumSystem) (capacities list : List ℕ)
        → IsCoterie s → AreCapacities capacities s.voters → All (λ j. j < length s.quorums) list
        → length list * (ratio_of s capacities list).1
        ≤ smallest_capacity s capacities * (ratio_of s capacities list).0 }
{}

/// A coterie has n voters, and its smallest quorum has c members. Whatever the weights of its quorums
/// are, the load is at least c / n and at least 1 / c. So its square is at least 1 / n.
///
/// With capacities: the load is at least c, divided by the sum of all capacities, and at least 1,
/// divided by the least capacity of a quorum.
pub fn loads_have_bounds()
    ensures busiest_average { (w : Weighted) → IsCoterie w.system
        → length w.quorum_weights ≡ length w.system.quorums
        → cycle_len w * smallest_size w.system ≤ w.system.voters * busiest_count w }
    ensures busiest_smallest { (w : Weighted) → IsCoterie w.system
        → length w.quorum_weights ≡ length w.system.quorums
        → cycle_len w ≤ smallest_size w.system * busiest_count w }
    ensures average { (w : Weighted) → IsCoterie w.system
        → length w.quorum_weights ≡ length w.system.quorums
        → smallest_size w.system * (unit_load w).1 ≤ w.system.voters * (unit_load w).0 }
    ensures smallest { (w : Weighted) → IsCoterie w.system
        → length w.quorum_weights ≡ length w.system.quorums
        → (unit_load w).1 ≤ smallest_size w.system * (unit_load w).0 }
    ensures square { (w : Weighted) → IsCoterie w.system
        → length w.quorum_weights ≡ length w.system.quorums
        → (unit_load w).1 * (unit_load w).1 ≤ w.system.voters * ((unit_load w).0 * (unit_load w).0) }
    ensures capacity_average { (w : Weighted) → IsCoterie w.system → AreCapacities w.capacities w.system.voters
        → length w.quorum_weights ≡ length w.system.quorums
        → smallest_size w.system * (load_of w).1 ≤ sum w.capacities * (load_of w).0 }
    ensures capacity_smallest { (w : Weighted) → IsCoterie w.system → AreCapacities w.capacities w.system.voters
        → length w.quorum_weights ≡ length w.system.quorums
        → (load_of w).1 ≤ smallest_capacity w.system w.capacities * (load_of w).0 }
{}
