//! The slack of an even cycle.
ghost use Rattle.std.specs.Prelude.{◌≡◌, ◌*◌, ◌<◌, ◌≤◌, slice_index};
ghost use Rattle.certificate.specs.Certificates.{cycle_ratio};
ghost use Rattle.even.specs.Slacks.{slack_unit};

use certificate::Weights;

/// How far tickets in a row are from the load: a fraction, `excess / unit`.
///
/// Any n tickets in a row use each voter at most n times the load plus this fraction, times the
/// voter's capacity.
#[derive(Clone, Copy, Debug, PartialEq, Eq, Drop)]
pub struct Slack {
    /// The numerator.
    pub excess: u64,
    /// The denominator: the cycle's length times the denominator of its ratio.
    pub unit: u64,
}

/// Returns the denominator of the slacks of weights.
pub(crate) fn unit_of(weights: &Weights) -> u64
    ensures value { result ≡ slack_unit weights.now }
    ensures small { result ≤ 1000000000 }
{
    weights.cycle_len() * weights.ratio().1
}

/// Returns how much of a slack's unit one ticket gives a voter: the ratio's numerator times the
/// voter's capacity.
pub(crate) fn share_of(weights: &Weights, voter: u8) -> u64
    requires { voter < weights.now.system.voters }
    ensures { result ≡ (cycle_ratio weights.now).0 * slice_index weights.now.capacities voter }
{
    weights.ratio().0 * weights.capacity(voter)
}
