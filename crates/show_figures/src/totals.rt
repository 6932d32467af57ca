//! The figures of weights as a whole.
ghost use Rattle.std.specs.Prelude.{◌≡◌, ◌↔◌, sum, true};
ghost use Rattle.quorum_set.specs.Capacities.{are_unit};
ghost use Rattle.certificate.specs.Bounds.{bound_of};
ghost use Rattle.certificate.specs.Certificates.{capacity_total, cycle_len, cycle_ratio, lightest_quorum, load_of};
ghost use Rattle.known_loads.specs.SmallestQuorums.{smallest_capacity, smallest_size};

use crate::bounds::{smallest_capacity, smallest_size, sum_of};
use crate::comparisons::{Loads, loads_of_weights};
use certificate::Weights;
use quorum_set::are_unit;

/// The figures of weights: their load and its bound, their cycle, the sums by which the load is bounded,
/// and the sizes of their coterie. The ratio is a numerator and a denominator, in lowest terms.
#[derive(Clone, Copy)]
pub struct Totals {
    /// The load, which is the uses of the busiest voter for its capacity, divided by the requests; and
    /// the bound.
    pub loads: Loads,
    /// How many requests a cycle has.
    pub cycle_len: u64,
    /// How often a cycle uses the voter that is busiest for its capacity, divided by this capacity.
    pub ratio: (u64, u64),
    /// Whether all capacities are 1.
    pub is_unit: bool,
    /// The sum of the voters' weights, each times the voter's capacity.
    pub weight_total: u64,
    /// What the members of a quorum weigh at least.
    pub lightest_quorum: u64,
    /// How many voters there are, 1 to 64.
    pub voters: usize,
    /// The sum of their capacities.
    pub capacity_sum: u64,
    /// How many members the smallest quorum has.
    pub smallest_size: usize,
    /// The least capacity of a quorum: the sum of its members' capacities.
    pub smallest_capacity: u64,
}

impl Totals {
    /// Returns whether the load is its bound: then the weights are a plan, and no weights have a smaller
    /// load.
    pub fn is_plan(&self) -> bool
        ensures { (result ≡ true) ↔ (self.now.loads.load ≡ self.now.loads.bound) }
    {
        self.loads.load == self.loads.bound
    }
}

/// Returns the figures of weights.
pub fn totals_of(weights: &Weights) -> Totals
    ensures load { result.loads.load ≡ load_of weights.now }
    ensures bound { result.loads.bound ≡ bound_of weights.now }
    ensures cycle { result.cycle_len ≡ cycle_len weights.now }
    ensures ratio { result.ratio ≡ cycle_ratio weights.now }
    ensures unit { result.is_unit ≡ are_unit weights.now.capacities }

    // The sums by which the load is bounded.
    ensures total { result.weight_total ≡ capacity_total weights.now }
    ensures lightest { result.lightest_quorum ≡ lightest_quorum weights.now }

    // The sizes of the coterie, by which the law `loads_have_bounds` of `known_loads` bounds its load.
    ensures voters { result.voters ≡ weights.now.system.voters }
    ensures sum { result.capacity_sum ≡ sum weights.now.capacities }
    ensures size { result.smallest_size ≡ smallest_size weights.now.system }
    ensures capacity { result.smallest_capacity ≡ smallest_capacity weights.now.system weights.now.capacities }
{
    let coterie = weights.coterie();
    let capacities = weights.capacities();
    Totals {
        loads: loads_of_weights(weights),
        cycle_len: weights.cycle_len(),
        ratio: weights.ratio(),
        is_unit: are_unit(capacities),
        weight_total: weights.capacity_total(),
        lightest_quorum: weights.lightest_quorum(),
        voters: coterie.voters(),
        capacity_sum: sum_of(capacities),
        smallest_size: smallest_size(coterie),
        smallest_capacity: smallest_capacity(coterie, capacities),
    }
}
