//! The faults of a search for a plan.
ghost use Rattle.std.specs.Prelude.{◌≡◌};
ghost use Rattle.planner.specs.declared.fault.PlannerFault.TheVariants.{OutOfMemory};

use certificate::PlanFault;
use simplex::SimplexFault;
use std::alloc::{AllocError, AllocFailed};
use thiserror::Error;

/// Why the search for weights ended without a plan: the fault of the simplex method, or of the
/// check of its weights.
#[derive(Clone, Copy, Debug, PartialEq, Eq, Error)]
pub enum Cause {
    /// A number of the simplex method did not fit.
    #[error("S1")]
    Overflow,
    /// The simplex method needs more than 10,000 pivots.
    #[error("S2")]
    PivotLimit,
    /// The simplex method found no row that limits a column.
    #[error("S3")]
    NoRow,
    /// There were too few or too many weights. This never happens, by the contract of `plan`.
    #[error("P1")]
    WrongLength,
    /// The weights sum to more than 1,000,000.
    #[error("P2")]
    TooLarge,
    /// The weights were all 0.
    #[error("P3")]
    Empty,
    /// The weights were no certificate, and all capacities are 1.
    #[error("P4")]
    NotOptimal,
    /// The weights were no certificate, and some capacity is not 1.
    #[error("P8")]
    NotOptimalRatio,
}

/// Why there is no plan.
#[derive(Clone, Copy, Debug, PartialEq, Eq, Error)]
pub enum PlannerFault {
    /// The search ended without a plan, for this cause. This never happens for a uniform coterie
    /// whose voters have the same capacity.
    #[error("N1 NoPlan {0}")]
    NoPlan(Cause),
    /// Memory ran out.
    #[error("O1 OutOfMemory")]
    OutOfMemory,
}

impl PlannerFault {
    ghost use Rattle.planner.specs.Causes.{of_simplex_fault, of_plan_fault};

    /// Returns the fault of the search for a fault of the simplex method.
    pub(crate) fn of_simplex(fault: SimplexFault) -> PlannerFault
        ensures { result ≡ of_simplex_fault fault }
    {
        match fault {
            SimplexFault::Overflow { .. } => PlannerFault::NoPlan(Cause::Overflow),
            SimplexFault::PivotLimit => PlannerFault::NoPlan(Cause::PivotLimit),
            SimplexFault::NoRow => PlannerFault::NoPlan(Cause::NoRow),
            SimplexFault::OutOfMemory => PlannerFault::OutOfMemory,
        }
    }

    /// Returns the fault of the search for a fault of the check. Faults of a plan's text do not
    /// occur here.
    pub(crate) fn of_check(fault: PlanFault) -> PlannerFault
        ensures { result ≡ of_plan_fault fault }
    {
        match fault {
            PlanFault::WrongLength => PlannerFault::NoPlan(Cause::WrongLength),
            PlanFault::TooLarge => PlannerFault::NoPlan(Cause::TooLarge),
            PlanFault::Empty => PlannerFault::NoPlan(Cause::Empty),
            PlanFault::NotOptimalRatio { .. } => PlannerFault::NoPlan(Cause::NotOptimalRatio),
            PlanFault::OutOfMemory => PlannerFault::OutOfMemory,
            _ => PlannerFault::NoPlan(Cause::NotOptimal),
        }
    }
}

impl From<AllocError> for PlannerFault {
    ghost from_gives = { λ _ e. e ≡ OutOfMemory };

    fn from(_error: AllocError) -> PlannerFault {
        PlannerFault::OutOfMemory
    }
}

impl<T: Drop> From<AllocFailed<T>> for PlannerFault {
    ghost from_gives = { λ _ e. e ≡ OutOfMemory };

    fn from(_error: AllocFailed<T>) -> PlannerFault {
        PlannerFault::OutOfMemory
    }
}
