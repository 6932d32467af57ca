//! The guard.
ghost use Rattle.std.specs.Prelude.{◌≡◌, ◌+◌, ◌^◌, ◌<◌, ◌≤◌, Err, IfOk, IsTrue, None, Ok, OnErr, Some, false, replicate};
ghost use Rattle.numbers.specs.Bounds.{max_voters};
ghost use Rattle.fence.specs.Passes.{Admits, HasGrant, Refuses, SeesAlso, is_not_older};
ghost use Rattle.fence.specs.Turns.{Raises, RaisesNone};

use crate::fault::FenceFault;
use crate::pass::Pass;
use numbers::MAX_VOTERS;

/// For each voter the highest grant number that the guard saw, and how often it saw something newer.
#[derive(Drop)]
pub struct Fence {
    /// The highest grant of each voter in passes that were admitted, 0 for none.
    pub seen: [u64; MAX_VOTERS],
    /// How many of the admitted passes showed a newer grant of some voter: the turn of the last one.
    pub turn: u64,
}

impl Fence {
    /// Returns a guard that saw no grant.
    pub fn new() -> Self
        ensures seen { result.seen ≡ replicate max_voters 0 }
        ensures turn { result.turn ≡ 0 }
    {
        Fence {
            seen: [0; MAX_VOTERS],
            turn: 0,
        }
    }

    /// Admits a pass, and returns its turn: a fencing token. The turn is one more than the last one if
    /// the pass shows a newer grant of some voter, and the last one again if it shows none. So all
    /// passes of one request have one turn, and a later request has a greater one (`leases`).
    ///
    /// Fails with `OlderGrant` if and only if the pass shows an older grant of some voter than the guard
    /// saw in passes that it admitted, and otherwise with `TurnsSpent` if it shows a newer one and no turn is left. The guard is
    /// then unchanged.
    pub fn admit(&mut self, pass: &Pass) -> Result<u64, FenceFault>
        ensures older { Refuses self.old.seen pass.now → result ≡ Err FenceFault.OlderGrant }
        ensures again { Admits self.old.seen pass.now → RaisesNone self.old.seen pass.now → result ≡ Ok self.old.turn }
        ensures next { Admits self.old.seen pass.now → Raises self.old.seen pass.now
            → self.old.turn + 1 < 2 ^ 64 → result ≡ Ok (self.old.turn + 1) }
        ensures spent { Admits self.old.seen pass.now → Raises self.old.seen pass.now
            → 2 ^ 64 ≤ self.old.turn + 1 → result ≡ Err FenceFault.TurnsSpent }
        ensures new { IfOk result (λ _. Admits self.old.seen pass.now) }
        ensures seen { IfOk result (λ turn. SeesAlso self.old.seen pass.now self.new.seen × (self.new.turn ≡ turn)) }
        ensures unchanged { OnErr result (self.new ≡ self.old) }
        // A pass has a grant.
        ensures some { HasGrant pass.now }
    {
        let grants = pass.grants();
        if !self.are_new(grants) {
            return Err(FenceFault::OlderGrant);
        }
        let Some(turn) = self.next_turn(grants) else {
            return Err(FenceFault::TurnsSpent);
        };
        raise(&mut self.seen, grants);
        self.turn = turn;
        Ok(turn)
    }

    fn is_new(&self, grants: &[u64; MAX_VOTERS], voter: usize) -> bool
        requires { voter < max_voters }
        ensures { result ≡ is_not_older self.now.seen grants.now voter }
    {
        grants[voter] == 0 || self.seen[voter] <= grants[voter]
    }

    fn are_new(&self, grants: &[u64; MAX_VOTERS]) -> bool
        ensures new { IsTrue result → Admits self.now.seen grants.now }
        ensures admitted { Admits self.now.seen grants.now → IsTrue result }
    {
        for v in 0..MAX_VOTERS {
            if !self.is_new(grants, v) {
                return false;
            }
        }
        true
    }

    /// Returns whether some grant is newer than what was seen of its voter.
    fn shows_newer(&self, grants: &[u64; MAX_VOTERS]) -> bool
        ensures some { IsTrue result → Raises self.now.seen grants.now }
        ensures none { result ≡ false → RaisesNone self.now.seen grants.now }
    {
        for v in 0..MAX_VOTERS {
            if self.seen[v] < grants[v] {
                return true;
            }
        }
        false
    }

    /// Returns the turn of a pass, or `None` if no turn is left for it.
    #[tactic(auto, using(crate::proofs::FenceLemmas::raises_some))]
    fn next_turn(&self, grants: &[u64; MAX_VOTERS]) -> Option<u64>
        ensures again { RaisesNone self.now.seen grants.now → result ≡ Some self.now.turn }
        ensures next { Raises self.now.seen grants.now → self.now.turn + 1 < 2 ^ 64 → result ≡ Some (self.now.turn + 1) }
        ensures spent { Raises self.now.seen grants.now → 2 ^ 64 ≤ self.now.turn + 1 → result ≡ None }
    {
        if self.shows_newer(grants) {
            self.turn.checked_add(1)
        } else {
            Some(self.turn)
        }
    }
}

/// Raises what was seen of each voter to these grants.
fn raise(seen: &mut [u64; MAX_VOTERS], grants: &[u64; MAX_VOTERS])
    ensures { SeesAlso seen.old grants.now seen.new }
{
    for v in 0..MAX_VOTERS {
        seen[v] = seen[v].max(grants[v]);
    }
}
