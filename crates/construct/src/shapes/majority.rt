//! Majorities.
ghost use Rattle.std.specs.Prelude.{◌≡◌, Err, IfErr};
ghost use Rattle.construct.specs.Answers.{Gives};
ghost use Rattle.construct.specs.Majority.{majority_at};

use crate::fault::ConstructFault;
use crate::lists::sets_of;
use crate::set::coterie_of;
use quorum_set::Coterie;
use std::alloc::Global;

/// Returns the majorities of this many voters: all sets of voters / 2 + 1 voters, rounded down
/// (Garcia-Molina and Barbara, JACM 32(4), 1985).
///
/// They are in lexicographic order of their ascending members. There are voters choose
/// voters / 2 + 1 of them, at most 3003. Fails with `BadSize` if there are no voters, and with
/// `TooLarge` if there are more than 14.
pub fn majority(alloc: Global, voters: u32) -> Result<Coterie, ConstructFault>
    ensures exact { Gives result (majority_at voters) }
    ensures sizes { IfErr (majority_at voters) (λ fault. result ≡ Err fault) }
{
    if voters == 0 {
        return Err(ConstructFault::BadSize);
    }
    if voters > 14 {
        return Err(ConstructFault::TooLarge);
    }
    let quorums = sets_of(alloc, 0, voters as u8, voters as u8 / 2 + 1)?;
    coterie_of(voters as usize, quorums)
}
