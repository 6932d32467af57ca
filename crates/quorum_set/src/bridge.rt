//! Bridges from one coterie to another, over which a plan is exchanged while clients run.
ghost use Rattle.std.specs.Prelude.{◌≡◌, None, Some, IfErr};
ghost use Rattle.quorum_set.specs.Bridges.{Bridged, IsBridge, Gives, bridge_of, first_apart};
ghost use Rattle.quorum_set.specs.declared.fault.BridgeFault.TheVariants.{OutOfMemory};

use crate::coterie::{Coterie, first_disjoint_from};
use crate::fault::BridgeFault;
use crate::qset::QSet;
use std::alloc::Global;
use std::marker::Model;

/// One of two coteries, plans or lists of draws: the one in use first, or the one that it is
/// exchanged for.
#[derive(Clone, Copy, Debug, PartialEq, Eq)]
pub enum Side {
    /// The one in use first.
    First,
    /// The one that the first is exchanged for.
    Second,
}

/// Two coteries over the same voters. Each quorum of the first has a common member with each quorum
/// of the second, so quorums of both may be in use at once: still, any two of them share a voter.
#[derive(Drop)]
pub struct Bridge {
    first: Coterie,
    second: Coterie,
}

impl Model for Bridge {
    ghost use Rattle.quorum_set.specs.Bridges.{Bridged, IsBridge};

    ghost Value = { Bridged };

    ghost view = { λ a. record { first = a.first; second = a.second } };

    ghost invariant = { λ a. IsBridge (record { first = a.first; second = a.second }) };
}

/// Returns the places of the first pair of sets without a common member, one of the first list and
/// one of the second.
fn first_apart(firsts: &[QSet], seconds: &[QSet]) -> Option<(usize, usize)>
    ensures { result ≡ first_apart 0 firsts.now seconds.now }
{
    for (j, set) in firsts.iter().enumerate() {
        if let Some(k) = first_disjoint_from(set, seconds) {
            return Some((j, k));
        }
    }
    None
}

impl Bridge {
    /// Returns the bridge from the first coterie to the second. It keeps copies of both. Both have
    /// to have the same number of voters. Fails with `NotBridged` if a quorum of the first has no
    /// common member with a quorum of the second, and otherwise only if it runs out of memory.
    pub fn of(alloc: Global, first: &Coterie, second: &Coterie) -> Result<Bridge, BridgeFault>
        requires { first.now.voters ≡ second.now.voters }
        ensures value { Gives result (bridge_of first.now second.now) }
        ensures memory { IfErr result (λ fault. fault ≡ OutOfMemory
            → first_apart 0 first.now.quorums second.now.quorums ≡ None) }
    {
        match first_apart(first.quorums(), second.quorums()) {
            Some((j, k)) => Err(BridgeFault::NotBridged(j, k)),
            None => Ok(Bridge {
                first: first.copy(alloc)?,
                second: second.copy(alloc)?,
            }),
        }
    }

    /// Returns the coterie in use first.
    pub fn first(&self) -> &Coterie
        ensures value { result.now ≡ self.now.first }
        ensures bridge { IsBridge self.now }
    {
        &self.first
    }

    /// Returns the coterie that the first is exchanged for.
    pub fn second(&self) -> &Coterie
        ensures value { result.now ≡ self.now.second }
        ensures bridge { IsBridge self.now }
    {
        &self.second
    }
}
