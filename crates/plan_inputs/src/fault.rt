//! Why texts are refused.
ghost use Rattle.std.specs.Prelude.{◌≡◌};
ghost use Rattle.plan_inputs.specs.Faults.{file_refusal, plan_refusal, planner_refusal};
ghost use Rattle.plan_inputs.specs.declared.fault.InputFault.TheVariants.{OutOfMemory};

use certificate::PlanFault;
use coterie_file::FileFault;
use planner::PlannerFault;
use std::alloc::AllocError;
use thiserror::Error;

/// Why a text was not read, or has no plan. Its text is one line. Out of memory is one fault, wherever
/// it comes from.
#[derive(Clone, Copy, Debug, PartialEq, Eq, Error)]
pub enum InputFault {
    /// The text of the coterie has a fault.
    #[error(transparent)]
    File(FileFault),
    /// The text of the plan has a fault.
    #[error(transparent)]
    Plan(PlanFault),
    /// No plan was found.
    #[error(transparent)]
    Planner(PlannerFault),
    /// Memory ran out.
    #[error("O1 OutOfMemory")]
    OutOfMemory,
}

impl From<AllocError> for InputFault {
    ghost from_gives = { λ _ e. e ≡ OutOfMemory };

    fn from(_error: AllocError) -> InputFault {
        InputFault::OutOfMemory
    }
}

impl From<FileFault> for InputFault {
    ghost from_gives = { λ fault e. e ≡ file_refusal fault };

    fn from(fault: FileFault) -> InputFault {
        match fault {
            FileFault::OutOfMemory => InputFault::OutOfMemory,
            _ => InputFault::File(fault),
        }
    }
}

impl From<PlanFault> for InputFault {
    ghost from_gives = { λ fault e. e ≡ plan_refusal fault };

    fn from(fault: PlanFault) -> InputFault {
        match fault {
            PlanFault::OutOfMemory => InputFault::OutOfMemory,
            _ => InputFault::Plan(fault),
        }
    }
}

impl From<PlannerFault> for InputFault {
    ghost from_gives = { λ fault e. e ≡ planner_refusal fault };

    fn from(fault: PlannerFault) -> InputFault {
        match fault {
            PlannerFault::OutOfMemory => InputFault::OutOfMemory,
            _ => InputFault::Planner(fault),
        }
    }
}
