//! Wheels.
ghost use Rattle.std.specs.Prelude.{◌≡◌, ◌<◌, ◌≤◌, map, Err, IfErr, IfOk};
ghost use Rattle.std.specs.List.{range_with_len};
ghost use Rattle.construct.specs.Answers.{Gives};
ghost use Rattle.construct.specs.Wheel.{spoke, rim, wheel_quorums, wheel_at};

use crate::fault::ConstructFault;
use crate::set::coterie_of;
use quorum_set::{Coterie, QSet, set_where};
use std::alloc::{AllocError, Global};

/// Returns the hub with one voter of the rim.
fn spoke(i: u32) -> QSet
    ensures { result ≡ spoke i }
{
    set_where(|v| v == 0 || u32::from(v) == i)
}

/// Returns the rim: voters 1 to `rims`.
fn rim(rims: u32) -> QSet
    ensures { result ≡ rim rims }
{
    set_where(|v| 1 <= v && u32::from(v) <= rims)
}

/// Returns the hub with each voter of the rim.
fn spokes(alloc: Global, rims: u32) -> Result<Vec<QSet>, AllocError>
    requires { rims ≤ 63 }
    ensures { IfOk result (λ v. v.items ≡ map spoke (range_with_len 1 rims)) }
{
    (1..rims + 1).map(|i| spoke(i)).collect(alloc)
}

/// Returns each spoke, and then the rim.
fn quorums_of(alloc: Global, rims: u32) -> Result<Vec<QSet>, AllocError>
    requires { rims ≤ 63 }
    ensures { IfOk result (λ v. v.items ≡ wheel_quorums rims) }
{
    let mut quorums = spokes(alloc, rims)?;
    quorums.push(rim(rims))?;
    Ok(quorums)
}

/// Returns the wheel with `rims` voters on its rim (Naor and Wool, SIAM J. Comput. 27(2), 1998).
///
/// Voter 0 is the hub, and voters 1 to `rims` are the rim. Quorum i - 1 is the hub with voter i,
/// for i from 1 to `rims`, and the last quorum is the rim. Fails with `BadSize` if `rims` is below
/// 2, and with `TooLarge` if it is above 63.
#[tactic(auto, using(crate::proofs::WheelLemmas::wheel_is_coterie))]
pub fn wheel(alloc: Global, rims: u32) -> Result<Coterie, ConstructFault>
    ensures exact { Gives result (wheel_at rims) }
    ensures sizes { IfErr (wheel_at rims) (λ fault. result ≡ Err fault) }
{
    if rims < 2 {
        return Err(ConstructFault::BadSize);
    }
    if rims > 63 {
        return Err(ConstructFault::TooLarge);
    }
    let quorums = quorums_of(alloc, rims)?;
    coterie_of(rims as usize + 1, quorums)
}
