//! The sections of all explanations.
ghost use Rattle.show_faults.specs.Codes.{HaveAllCodes};

use crate::coteries::coteries;
use crate::inputs::inputs;
use crate::plans::plans;
use crate::protocol::protocol;
use crate::records::records;
use crate::section::Section;

/// Returns the explanations of all faults that a command can print, in a section for each kind.
pub fn sections() -> [Section; 5]
    ensures { HaveAllCodes result }
{
    [
        Section {
            title: "Input, output and memory",
            explanations: inputs(),
        },
        Section {
            title: "Coteries",
            explanations: coteries(),
        },
        Section {
            title: "Plans",
            explanations: plans(),
        },
        Section {
            title: "Scripts and records",
            explanations: records(),
        },
        Section {
            title: "Clients, voters and runs",
            explanations: protocol(),
        },
    ]
}
