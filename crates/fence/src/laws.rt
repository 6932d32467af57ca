//! The law of what a guard remembers.
ghost use Rattle.std.specs.Prelude.{ℕ, List};
ghost use Rattle.fence.specs.Passes.{HasSeen, SeesAlso};

/// A guard that admits a pass has seen it, and goes on having seen all that it saw before.
pub fn admitted_passes_stay_seen()
    ensures admitted { (seen pass after : List ℕ) → SeesAlso seen pass after → HasSeen after pass }
    ensures kept { (seen pass after other : List ℕ) → SeesAlso seen pass after → HasSeen seen other → HasSeen after other }
{}
