//! The text of a coterie of a shape.
ghost use Rattle.std.specs.Prelude.{◌≡◌, IfOk, option_map, string_bytes};
ghost use Rattle.show_coteries.specs.Texts.{IsTextOf, AreGiven};

use crate::fault::ShapeFault;
use crate::names::centres_names;
use crate::shape::CoterieShape;
use crate::shapes::any::any;
use crate::shapes::centres::centres;
use crate::shapes::votes::votes;
use construct::ConstructFault;
use coterie_file::{Named, write_coterie};
use std::alloc::Global;

/// Returns the coterie of centres. Its voters have the letter of their centre and a number.
fn centres_named(alloc: Global, sizes: &[u8]) -> Result<Named, ShapeFault> {
    let coterie = centres(alloc, sizes)?;
    let names = centres_names(alloc, sizes)?;
    // (never: each voter has a name)
    if names.len() != coterie.voters() {
        return Err(ConstructFault::BadSize.into());
    }
    Ok(Named::of(coterie, names)?)
}

/// Returns the coterie of a shape. Its voters have names.
fn named_of(alloc: Global, shape: &CoterieShape) -> Result<Named, ShapeFault> {
    match shape {
        CoterieShape::Racks(racks, size) => {
            let sizes = vec![in alloc; *size; usize::from(*racks)]?;
            centres_named(alloc, &sizes)
        }
        CoterieShape::Centres(sizes) => centres_named(alloc, sizes),
        CoterieShape::Any(size, voters) => Ok(Named::numbered(alloc, any(alloc, *size, *voters)?)?),
        CoterieShape::Votes(list) => Ok(Named::numbered(alloc, votes(alloc, list)?)?),
    }
}

/// Returns the coterie with these capacities, if there are any.
fn with_given(alloc: Global, named: Named, given: Option<&[u64]>) -> Result<Named, ShapeFault>
    ensures { IfOk result (λ n. AreGiven (option_map (λ list. list.now) given.entry) n.capacities) }
{
    let Some(given) = given else {
        return Ok(named);
    };
    let mut capacities = Vec::with_capacity(alloc, given.len())?;
    capacities.extend_from_slice(given)?;
    Ok(named.with_capacities(capacities)?)
}

/// Returns the text of the coterie of a shape, as `write_coterie` writes it.
///
/// Voters of racks and centres are called `a1`, `a2` and so on in the first one, `b1` and so on in
/// the second. Other voters are called `v0`, `v1` and so on. `capacities` has one number for each
/// voter; without it they have capacity 1.
///
/// Fails with `BadSize` or `TooLarge` of `construct` if there is no coterie of these sizes, or there
/// are more than 26 racks or centres. Then fails with `CapacityCount` or `BadCapacity` of
/// `coterie_file` if the capacities are not one for each voter, each 1 to 1000.
pub fn coterie_text(
    alloc: Global,
    shape: &CoterieShape,
    capacities: Option<&[u64]>,
) -> Result<String, ShapeFault>
    ensures { IfOk result (λ text. IsTextOf (option_map (λ given. given.now) capacities.entry) (string_bytes text)) }
{
    let units = named_of(alloc, shape)?;
    let named = with_given(alloc, units, capacities)?;
    Ok(write_coterie(alloc, &named)?)
}
