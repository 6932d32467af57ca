//! A coterie with a plan or weights of it.
ghost use Rattle.std.specs.Prelude.{◌≡◌};

use certificate::{Plan, Weights};
use coterie_file::Named;

/// A coterie with names, and a plan of it.
#[derive(Drop)]
pub struct Planned {
    pub named: Named,
    pub plan: Plan,
    pub ghost same: { plan.system ≡ named.system },
}

/// A coterie with names, and weights of it.
#[derive(Drop)]
pub struct Weighed {
    pub named: Named,
    pub weights: Weights,
    pub ghost same: { weights.system ≡ named.system },
}
