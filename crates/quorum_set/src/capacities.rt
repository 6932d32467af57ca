//! Capacities of voters.
ghost use Rattle.std.specs.Prelude.{◌≡◌};
ghost use Rattle.quorum_set.specs.Capacities.{are_unit};

/// Returns whether each of the capacities is 1, so that all voters may be asked equally often.
pub fn are_unit(capacities: &[u64]) -> bool
    ensures { result ≡ are_unit capacities.now }
{
    capacities.iter().all(|capacity| *capacity == 1)
}
