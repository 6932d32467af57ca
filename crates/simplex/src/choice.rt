//! The choice of the column that enters the basis.
ghost use Rattle.std.specs.Prelude.{◌+◌, ◌<◌, length, IfOk, IfSome};

use crate::method::Method;
use fraction::FracFault;

/// Returns the lowest column that improves the solution (Bland's rule).
pub(crate) fn first_entering(method: &Method) -> Result<Option<usize>, FracFault>
    ensures { IfOk result (λ o.
        IfSome o (λ j. j < length method.now.coterie.now.quorums + method.now.coterie.now.voters)) }
{
    for column in 0..method.columns() {
        if method.price(column)? > 0 {
            return Ok(Some(column));
        }
    }
    Ok(None)
}

/// Returns the column with the greatest price, if one improves the solution (Dantzig's rule).
pub(crate) fn greatest_entering(method: &Method) -> Result<Option<usize>, FracFault>
    ensures { IfOk result (λ o.
        IfSome o (λ j. j < length method.now.coterie.now.quorums + method.now.coterie.now.voters)) }
{
    let mut best = None;
    let mut most = 0i128;
    for column in 0..method.columns() {
        let price = method.price(column)?;
        if price > most {
            best = Some(column);
            most = price;
        }
    }
    Ok(best)
}
