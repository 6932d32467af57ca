//! One plan, or two between which a plan is exchanged while clients run.
ghost use Rattle.std.specs.Prelude.{◌≡◌, None, Ok, Err, IfOk, IfErr, IfSome, option_map};
ghost use Rattle.quorum_set.specs.Bridges.{bridge_of, first_apart, is_out_of_memory};
ghost use Rattle.quorum_set.specs.declared.fault.BridgeFault.TheVariants.{OutOfMemory};
ghost use Rattle.numbers.specs.Results.{RefusesUnless};
ghost use Rattle.dealer.specs.Plans.{ArePlans, both, coteries_of, single};

use certificate::Plan;
use quorum_set::{Bridge, BridgeFault};
use std::alloc::Global;
use std::marker::Model;

/// One plan, or two with a bridge from the coterie of the first to that of the second. Contracts
/// see a `PlanPair`.
#[derive(Drop)]
pub struct Plans {
    first: Plan,
    second: Option<(Plan, Bridge)>,
}

impl Model for Plans {
    ghost use Rattle.std.specs.Prelude.{◌≡◌, IfSome, option_map};
    ghost use Rattle.dealer.specs.Plans.{PlanPair, ArePlans, coteries_of};

    ghost Value = { PlanPair };

    ghost view = { λ p. record { first = p.first; second = option_map (λ s. s.0) p.second } };

    ghost invariant = { λ p. ArePlans (record { first = p.first; second = option_map (λ s. s.0) p.second })
        × IfSome p.second (λ s. s.1 ≡ coteries_of p.first s.0) };
}

impl Plans {
    /// Returns this plan alone: it is never exchanged. Takes no memory.
    pub fn single(plan: Plan) -> Plans
        ensures { result ≡ single plan }
    {
        // Called for its contract alone, which says that the plan meets its certificate.
        let _ = plan.coterie();
        Plans {
            first: plan,
            second: None,
        }
    }

    /// Returns both plans: the old one is in use first, and may be exchanged for the new one. Both
    /// have to have the same number of voters.
    ///
    /// Fails with `NotBridged` if a quorum of the old plan's coterie has no common member with one
    /// of the new plan's, and otherwise only if it runs out of memory. A failure returns both plans.
    pub fn bridged(alloc: Global, old: Plan, new: Plan) -> Result<Plans, (Plan, Plan, BridgeFault)>
        requires { old.system.voters ≡ new.system.voters }
        ensures plans { IfOk result (λ plans. plans ≡ both old new) }
        ensures bridge { IfOk result (λ _. bridge_of old.system new.system ≡ Ok (coteries_of old new)) }
        ensures kept { IfErr result (λ refusal. (refusal.0 ≡ old) × (refusal.1 ≡ new)) }
        ensures refused { IfErr result (λ refusal.
            RefusesUnless is_out_of_memory refusal.2 (bridge_of old.system new.system)) }
        ensures memory { IfErr result (λ refusal. refusal.2 ≡ OutOfMemory
            → first_apart 0 old.system.quorums new.system.quorums ≡ None) }
    {
        match Bridge::of(alloc, old.coterie(), new.coterie()) {
            Ok(bridge) => Ok(Plans {
                first: old,
                second: Some((new, bridge)),
            }),
            Err(fault) => Err((old, new, fault)),
        }
    }

    /// Returns the plan in use first, and the other one, if there is one, with the bridge from the
    /// first one's coterie to its own. Takes no memory.
    pub fn into_parts(self) -> (Plan, Option<(Plan, Bridge)>)
        ensures first { result.0 ≡ self.first }
        ensures second { option_map (λ s. s.0) result.1 ≡ self.second }
        ensures bridge { IfSome result.1 (λ s. s.1 ≡ coteries_of self.first s.0) }
        ensures plans { ArePlans self }
    {
        (self.first, self.second)
    }
}
