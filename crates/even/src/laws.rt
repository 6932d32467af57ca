//! Laws about even cycles.
ghost use Rattle.std.specs.Prelude.{◌≡◌, ◌*◌, ◌+◌, ◌<◌, ◌≤◌, ℕ, List, IsPermutation, length, slice_index};
ghost use Rattle.quorum_set.specs.Counts.{count_of, busiest_of};
ghost use Rattle.numbers.specs.Counts.{times};
ghost use Rattle.certificate.specs.Certificates.{AreWeights, IsCertificate, IsOptimal, busiest_count, cycle_len, cycle_ratio};
ghost use Rattle.certificate.specs.Ratios.{ratio_of};
ghost use Rattle.dealer.specs.Accounts.{ratio_of_cycles, IsLeastRatio};
ghost use Rattle.even.specs.EvenCycles.{EvenOrder, Row, window, quorums_of_rows, whole_rows, total_of, IsFair};
ghost use Rattle.even.specs.Slacks.{IsWithin, slack_unit};
ghost use Rattle.even.specs.Strides.{IsFirstBest};

/// Any tickets in a row that are k cycles long use each quorum k times its weight, whichever the
/// first is.
///
/// The same holds of several processes' whole cycles, each from a first ticket of its own, in
/// whatever order their quorums are used. Then k is the number of all their cycles. They use the
/// busiest voter k times the busiest count, and their ratio is k times the ratio of the cycle. No
/// list of that length has a smaller ratio, if the weights are a plan.
pub fn whole_cycles_begin_anywhere()
    ensures row { (o : EvenOrder) (first k j : ℕ) → AreWeights o.weights → IsFair o
        → times j (window o first (k * cycle_len o.weights)) ≡ k * slice_index o.weights.quorum_weights j }
    ensures shares { (o : EvenOrder) (cycles : List Row) (list : List ℕ) → AreWeights o.weights → IsFair o
        → IsPermutation (quorums_of_rows o (whole_rows o cycles)) list
        → (j : ℕ) → times j list ≡ total_of cycles * slice_index o.weights.quorum_weights j }
    ensures busiest { (o : EvenOrder) (cycles : List Row) (list : List ℕ) → AreWeights o.weights → IsFair o
        → IsPermutation (quorums_of_rows o (whole_rows o cycles)) list
        → busiest_of o.weights.system list ≡ total_of cycles * busiest_count o.weights }
    ensures ratio { (o : EvenOrder) (cycles : List Row) (list : List ℕ) → AreWeights o.weights → IsFair o
        → IsPermutation (quorums_of_rows o (whole_rows o cycles)) list
        → ratio_of o.weights.system o.weights.capacities list ≡ ratio_of_cycles o.weights (total_of cycles) }
    ensures least { (o : EvenOrder) (cycles : List Row) (list : List ℕ)
        → IsCertificate o.weights → IsOptimal o.weights → IsFair o
        → IsPermutation (quorums_of_rows o (whole_rows o cycles)) list
        → IsLeastRatio o.weights (length list) (ratio_of o.weights.system o.weights.capacities list) }
{}

/// Several processes use rows of tickets, each from a first ticket of its own, in whatever order.
/// Together they are within the excess times the number of processes.
pub fn slacks_add_up()
    ensures { (o : EvenOrder) (excess : ℕ) (rows : List Row) (list : List ℕ) → IsWithin o excess
        → IsPermutation (quorums_of_rows o rows) list
        → (i : ℕ) → i < o.weights.system.voters
        → slack_unit o.weights * count_of o.weights.system i list
        ≤ slice_index o.weights.capacities i * (length list * (cycle_ratio o.weights).0 + length rows * excess) }
{}

/// Weights have one order whose stride is the first of smallest slack among some strides. So whoever
/// makes the even cycle of the same weights gets the same quorum for each ticket.
pub fn even_orders_are_one()
    ensures { (strides : List ℕ) (first second : EvenOrder) → first.weights ≡ second.weights
        → IsFirstBest strides first → IsFirstBest strides second → first ≡ second }
{}
