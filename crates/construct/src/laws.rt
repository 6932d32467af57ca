//! Laws about the constructions. Each is the contract of a function with an empty body, and holds
//! for all sizes that it allows.
ghost use Rattle.std.specs.Prelude.{◌≡◌, ◌+◌, ◌*◌, ◌^◌, ◌<◌, ◌≤◌, ℕ, List, [], true, false, length, slice_index_or, All, Contains, IfErr};
ghost use Rattle.std.specs.List.{sum};
ghost use Rattle.numbers.specs.Bounds.{max_voters, max_quorums};
ghost use Rattle.numbers.specs.Sets.{Ascends};
ghost use Rattle.quorum_set.specs.Coteries.{IsCoterie, coterie_of};
ghost use Rattle.construct.specs.Cyclic.{cyclic_quorums, is_bad_base, as_construct, IsCyclicFault};
ghost use Rattle.construct.specs.Majority.{sets_from, choose, majority_system};
ghost use Rattle.construct.specs.Tree.{tree_quorums, tree_system};
ghost use Rattle.construct.specs.Grid.{row_with_column, grid_quorums, grid_system};
ghost use Rattle.construct.specs.Wheel.{wheel_quorums, wheel_system};

/// The quorums of a grid are a coterie: each row meets each column.
pub fn grids_are_coteries()
    ensures { (r c : ℕ) → 2 ≤ r → 2 ≤ c → r * c ≤ max_voters → IsCoterie (grid_system r c) }
{}

/// A grid of r rows of c voters has r * c quorums, and quorum i * c + k is row i with column k.
pub fn grids_have_a_quorum_for_each_voter()
    ensures number { (r c : ℕ) → length (grid_quorums r c) ≡ r * c }
    ensures place { (r c i k : ℕ) → i < r → k < c
        → slice_index_or (grid_quorums r c) (i * c + k) [] ≡ row_with_column r c i k }
{}

/// The quorums of a wheel are a coterie: spokes meet at the hub, and each meets the rim.
pub fn wheels_are_coteries()
    ensures { (k : ℕ) → 2 ≤ k → k ≤ 63 → IsCoterie (wheel_system k) }
{}

/// A wheel with k voters on its rim has k + 1 quorums.
pub fn wheels_have_a_quorum_for_each_spoke()
    ensures { (k : ℕ) → length (wheel_quorums k) ≡ k + 1 }
{}

/// The quorums of a tree are a coterie.
pub fn trees_are_coteries()
    ensures { (h : ℕ) → h ≤ 3 → IsCoterie (tree_system h) }
{}

/// A tree of height h has 2^(2^h) - 1 quorums: 1, 3, 15, 255 and so on.
pub fn trees_double_their_exponent()
    ensures { (h : ℕ) → length (tree_quorums h) + 1 ≡ 2 ^ (2 ^ h) }
{}

/// If sets that are shifted round a ring are no coterie, two of them are disjoint, or one lies
/// within another.
pub fn cyclic_sets_cross_or_not()
    ensures { (n : ℕ) (base : List ℕ) → n ≤ max_voters → is_bad_base n base ≡ false
        → IfErr (as_construct (coterie_of n (cyclic_quorums n base))) IsCyclicFault }
{}

/// The majorities of up to 14 voters are a coterie: two sets of more than half of the voters meet.
pub fn majorities_are_coteries()
    ensures { (n : ℕ) → 0 < n → n ≤ 14 → IsCoterie (majority_system n) }
{}

/// The list has exactly the sets of k of the n numbers from low on: each entry is such a set, and
/// each such set is an entry.
pub fn majorities_are_all_sets_of_their_size()
    ensures listed { (low n k : ℕ) → All (λ s. Ascends low (low + n) s × (length s ≡ k)) (sets_from low n k) }
    ensures complete { (low n k : ℕ) (s : List ℕ) → Ascends low (low + n) s → length s ≡ k
        → Contains (sets_from low n k) s }
{}

/// There are n choose k sets of k of n numbers.
pub fn majorities_are_combinations()
    ensures { (low n k : ℕ) → length (sets_from low n k) ≡ choose n k }
{}

/// A cyclic list has a set for each of the n places of the ring.
pub fn cyclic_coteries_have_a_quorum_for_each_shift()
    ensures { (n : ℕ) (base : List ℕ) → length (cyclic_quorums n base) ≡ n }
{}
