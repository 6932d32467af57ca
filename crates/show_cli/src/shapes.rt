//! Coteries of shapes.
ghost use Rattle.std.specs.Prelude.{◌≡◌, IfErr, IfOk, option_map, string_bytes};
ghost use Rattle.commands.specs.Devices.{IsOwn};
ghost use Rattle.show_cli.specs.Shapes.{IsShapeRefusal, shape_refusal};
ghost use Rattle.show_coteries.specs.Texts.{IsTextOf};

use commands::{Fault, InputFault};
use show_coteries::{CoterieShape, ShapeFault, coterie_text};
use std::alloc::Global;

/// Returns a fault of a shape as a fault of a command.
fn fault_of(fault: ShapeFault) -> Fault
    ensures { result ≡ shape_refusal fault }
{
    match fault {
        ShapeFault::Construct(fault) => Fault::Construct(fault),
        ShapeFault::File(fault) => Fault::Input(InputFault::File(fault)),
        ShapeFault::OutOfMemory => Fault::OutOfMemory,
    }
}

/// Returns the text of the coterie of a shape, with these capacities, if there are any.
pub(crate) fn shape_page(
    alloc: Global,
    shape: &CoterieShape,
    capacities: &Option<Vec<u64>>,
) -> Result<String, Fault>
    ensures page { IfOk result (λ page. IsTextOf (option_map (λ list. list.items) capacities.now) (string_bytes page)) }
    ensures refused { IfErr result IsShapeRefusal }
    ensures own { IfErr result IsOwn }
{
    let given = match capacities {
        Some(capacities) => Some(capacities.as_slice()),
        None => None,
    };
    match coterie_text(alloc, shape, given) {
        Ok(text) => Ok(text),
        Err(fault) => Err(fault_of(fault)),
    }
}
