//! The rows of the game: one for each voter, for each failure and for the limit.

use numbers::{MAX_CAPACITY, MAX_VOTERS};
use quorum_set::QSet;

/// A number for each voter.
pub(crate) type Cells = [f64; MAX_VOTERS];

/// How fast weights follow what was seen.
pub(crate) const PACE: f64 = 0.7;

/// The rows of a failure, or of the limit: one for each voter. A row says that the voter's count, divided by
/// its capacity and by a load, is at most the number of tickets that are left, times the regret.
#[derive(Clone, Copy, Drop)]
pub(crate) struct Rows {
    /// The voters that are down.
    pub(crate) down: QSet,
    /// The best load without these voters, or the limit.
    pub(crate) load: f64,
    /// Whether these are the rows of the limit, whose regret is 1.
    pub(crate) is_limit: bool,
    /// By how much each row was exceeded, in all steps together.
    sums: Cells,
    /// The same in the last step.
    last: Cells,
    /// How much each row weighs in this step.
    now: Cells,
    /// How much each row weighed, in all steps together. Later steps count more.
    all: Cells,
}

impl Rows {
    /// Returns the rows before the first step.
    pub(crate) fn of(down: QSet, load: f64, is_limit: bool) -> Rows {
        Rows {
            down,
            load,
            is_limit,
            sums: [0.0; MAX_VOTERS],
            last: [0.0; MAX_VOTERS],
            now: [0.0; MAX_VOTERS],
            all: [0.0; MAX_VOTERS],
        }
    }

    /// Forgets what was summed up.
    pub(crate) fn restart(&mut self) {
        self.sums = [0.0; MAX_VOTERS];
        self.last = [0.0; MAX_VOTERS];
        self.all = [0.0; MAX_VOTERS];
    }

    /// Returns how many times the tickets that are left the counts may be.
    fn rate(&self, regret: f64) -> f64 {
        if self.is_limit { 1.0 } else { regret }
    }

    /// Returns the greatest sum of a row, with the last step counted twice.
    pub(crate) fn greatest(&self) -> f64 {
        let mut greatest = f64::NEG_INFINITY;
        for voter in 0..MAX_VOTERS {
            let sum = self.sums[voter] + self.last[voter];
            if sum > greatest {
                greatest = sum;
            }
        }
        greatest
    }

    /// Sets how much each row weighs, up to a common factor. Returns the sum.
    pub(crate) fn weigh(&mut self, greatest: f64, voters: usize) -> f64 {
        let mut total = 0.0;
        for voter in 0..MAX_VOTERS {
            let mut weight = 0.0;
            if voter < voters && !self.down.has(voter as u8) {
                weight = (PACE * (self.sums[voter] + self.last[voter] - greatest)).exp();
            }
            self.now[voter] = weight;
            total += weight;
        }
        total
    }

    /// Divides the weights by their sum over all rows, and counts them.
    pub(crate) fn count(&mut self, total: f64, step: f64) {
        for voter in 0..MAX_VOTERS {
            self.now[voter] /= total;
            self.all[voter] += step * self.now[voter];
        }
    }

    /// Notes by how much each row is exceeded, with these counts and this part of all tickets left.
    pub(crate) fn note(&mut self, counts: &Cells, left: f64, units: &Cells, regret: f64) {
        let allowed = self.rate(regret) * left;
        for voter in 0..MAX_VOTERS {
            let own = counts[voter] / (units[voter] * self.load) - allowed;
            self.last[voter] = own;
            self.sums[voter] += own;
        }
    }

    /// Returns what a quorum pays for each member, and what it saves because it is left.
    pub(crate) fn prices(&self, units: &Cells, regret: f64) -> (Cells, f64) {
        let mut prices = [0.0; MAX_VOTERS];
        let mut total = 0.0;
        for voter in 0..MAX_VOTERS {
            prices[voter] = self.now[voter] / (units[voter] * self.load);
            total += self.now[voter];
        }
        (prices, total * self.rate(regret))
    }

    /// Returns the multiplier of each row, up to a common factor.
    pub(crate) fn multipliers(&self, units: &Cells) -> Cells {
        let mut multipliers = [0.0; MAX_VOTERS];
        for voter in 0..MAX_VOTERS {
            multipliers[voter] = self.all[voter] / (units[voter] * self.load);
        }
        multipliers
    }
}

/// Returns a small whole number as one in floating point.
pub(crate) fn float_of(number: u64) -> f64 {
    f64::from(number.min(u64::from(u32::MAX)) as u32)
}

/// Returns the capacities in floating point, and 1 behind them.
pub(crate) fn units_of(capacities: &[u64]) -> Cells {
    let mut units = [1.0; MAX_VOTERS];
    for (voter, capacity) in capacities.iter().enumerate() {
        if voter < MAX_VOTERS {
            units[voter] = float_of((*capacity).min(MAX_CAPACITY));
        }
    }
    units
}

/// Returns the sum of the cells.
pub(crate) fn sum_of(cells: &Cells) -> f64 {
    let mut sum = 0.0;
    for cell in cells {
        sum += *cell;
    }
    sum
}
