//! The law about plans with all weights 1.
ghost use Rattle.std.specs.Prelude.{◌↔◌, ℕ, List};
ghost use Rattle.quorum_set.specs.Capacities.{AreCapacities};
ghost use Rattle.quorum_set.specs.Coteries.{QuorumSystem, IsCoterie};
ghost use Rattle.certificate.specs.Certificates.{IsCertificate};
ghost use Rattle.planner.specs.Uniform.{AreEqual, IsUniform, all_ones};

/// If all voters have the same capacity, all weights 1 are a certificate of a coterie if and only if
/// it is uniform: all quorums have one size, and all voters are in equally many quorums.
pub fn ones_certify_uniform_coteries()
    ensures { (s : QuorumSystem) (capacities : List ℕ) → IsCoterie s → AreCapacities capacities s.voters
        → AreEqual capacities → IsCertificate (all_ones s capacities) ↔ IsUniform s }
{}
