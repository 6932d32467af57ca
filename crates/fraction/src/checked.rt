//! Numbers that fit, and their sums, differences and products, if these fit too.
ghost use Rattle.std.specs.Prelude.{◌+ℤ◌, ◌-ℤ◌, ◌*ℤ◌};
ghost use Rattle.fraction.specs.Fractions.{Checks};

use crate::fault::FracFault;

/// Returns the number, or `Overflow` if it is -2^127.
pub(crate) fn fitting(z: i128) -> Result<i128, FracFault>
    ensures { Checks z result }
{
    if z == i128::MIN {
        Err(FracFault::Overflow)
    } else {
        Ok(z)
    }
}

pub(crate) fn sum(x: i128, y: i128) -> Result<i128, FracFault>
    ensures { Checks (x +ℤ y) result }
{
    match x.checked_add(y) {
        Some(z) => fitting(z),
        None => Err(FracFault::Overflow),
    }
}

pub(crate) fn difference(x: i128, y: i128) -> Result<i128, FracFault>
    ensures { Checks (x -ℤ y) result }
{
    match x.checked_sub(y) {
        Some(z) => fitting(z),
        None => Err(FracFault::Overflow),
    }
}

pub(crate) fn product(x: i128, y: i128) -> Result<i128, FracFault>
    ensures { Checks (x *ℤ y) result }
{
    match x.checked_mul(y) {
        Some(z) => fitting(z),
        None => Err(FracFault::Overflow),
    }
}
