//! What a client shows to the guard.
ghost use Rattle.std.specs.List.{list_any};
ghost use Rattle.std.specs.Option.{SomeIff};
ghost use Rattle.std.specs.Prelude.{◌≡◌, nat_lt};
ghost use Rattle.fence.specs.Passes.{HasGrant};

use numbers::MAX_VOTERS;
use std::marker::Model;

/// The grants by which a client that is inside has its votes. At least one grant is not 0.
///
/// Contracts see it as the list of the grants: the number of a grant for each voter, 0 for none.
#[derive(Drop)]
pub struct Pass {
    grants: [u64; MAX_VOTERS],
}

impl Model for Pass {
    ghost use Rattle.std.specs.Prelude.{ℕ, List};
    ghost use Rattle.fence.specs.Passes.{HasGrant};

    ghost Value = { List ℕ };

    ghost view = { λ p. p.grants };

    ghost invariant = { λ p. HasGrant p.grants };
}

/// Returns whether some grant is not 0.
fn has_grant(grants: &[u64; MAX_VOTERS]) -> bool
    ensures { result ≡ list_any (nat_lt 0) grants.now }
{
    grants.iter().any(|grant| *grant > 0)
}

impl Pass {
    /// Returns the pass with these grants, or `None` if there is no grant among them.
    pub fn of(grants: [u64; MAX_VOTERS]) -> Option<Pass>
        ensures { SomeIff result (HasGrant grants) grants }
    {
        if has_grant(&grants) {
            Some(Pass { grants })
        } else {
            None
        }
    }

    /// Returns the number of the grant of each voter, 0 for none.
    pub fn grants(&self) -> &[u64; MAX_VOTERS]
        ensures value { result.now ≡ self.now }
        ensures some { HasGrant self.now }
    {
        &self.grants
    }
}
