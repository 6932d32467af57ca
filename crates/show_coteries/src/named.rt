//! Shapes by their names, as on the command line.
ghost use Rattle.std.specs.Prelude.{◌≡◌, ◌≢◌, ◌<◌, IfOk, IfSome, None, codes};
ghost use Rattle.std.specs.List.{All};
ghost use Rattle.show_coteries.specs.Names.{IsShapeOf};
ghost use Rattle.show_coteries.specs.declared.shape.CoterieShape.{CoterieShape as Shape};

use crate::shape::CoterieShape;
use std::alloc::{AllocError, Global};

/// Returns these numbers as bytes, or `None` if one is above 255.
fn bytes_of(alloc: Global, sizes: &[u32]) -> Result<Option<Vec<u8>>, AllocError>
    ensures some { IfOk result (λ o. IfSome o (λ bytes. (bytes.items ≡ sizes.now) × All (λ n. n < 256) sizes.now)) }
    ensures none { IfOk result (λ o. o ≡ None → ¬ All (λ n. n < 256) sizes.now) }
{
    let mut bytes = Vec::with_capacity(alloc, sizes.len())?;
    for i in 0..sizes.len() {
        if sizes[i] > 255 {
            return Ok(None);
        }
        bytes.push(sizes[i] as u8)?;
    }
    Ok(Some(bytes))
}

/// Returns these numbers as numbers of 64 bits.
pub fn widened(alloc: Global, sizes: &[u32]) -> Result<Vec<u64>, AllocError>
    ensures { IfOk result (λ wide. wide.items ≡ sizes.now) }
{
    let mut wide = Vec::with_capacity(alloc, sizes.len())?;
    for i in 0..sizes.len() {
        wide.push(u64::from(sizes[i]))?;
    }
    Ok(wide)
}

/// Returns centres of these sizes, or `None` if one is above 255.
fn centres_of(alloc: Global, sizes: &[u32]) -> Result<Option<CoterieShape>, AllocError>
    ensures some { IfOk result (λ o. IfSome o (IsShapeOf (codes "centres") sizes.now)) }
    ensures none { IfOk result (λ o. o ≡ None → ¬ All (λ n. n < 256) sizes.now) }
{
    match bytes_of(alloc, sizes)? {
        Some(bytes) => Ok(Some(CoterieShape::Centres(bytes))),
        None => Ok(None),
    }
}

/// Returns the shape with this name and these sizes, or `None` if there is none or its number of sizes is
/// not fixed.
fn fixed_shape(name: &str, sizes: &[u32]) -> Option<CoterieShape>
    ensures some { IfSome result (IsShapeOf name.now sizes.now) }
    ensures none { result ≡ None → name.now ≢ codes "centres" → name.now ≢ codes "votes"
        → (shape : Shape) → ¬ IsShapeOf name.now sizes.now shape }
{
    match (name, sizes) {
        ("racks", [racks, voters]) if *racks < 256 && *voters < 256 => {
            Some(CoterieShape::Racks(*racks as u8, *voters as u8))
        }
        ("any", [size, voters]) => Some(CoterieShape::Any(*size, *voters)),
        _ => None,
    }
}

/// Returns the shape with this name and these sizes, or `None` if there is none: the name is unknown, it has
/// too few or too many sizes, or racks or centres with a size above 255. Fails only if it runs out of
/// memory.
pub fn shape_of(
    alloc: Global,
    name: &str,
    sizes: &[u32],
) -> Result<Option<CoterieShape>, AllocError>
    ensures some { IfOk result (λ o. IfSome o (IsShapeOf name.now sizes.now)) }
    ensures none { IfOk result (λ o. o ≡ None → (shape : Shape) → ¬ IsShapeOf name.now sizes.now shape) }
{
    match name {
        "centres" => centres_of(alloc, sizes),
        "votes" => Ok(Some(CoterieShape::Votes(widened(alloc, sizes)?))),
        _ => Ok(fixed_shape(name, sizes)),
    }
}
