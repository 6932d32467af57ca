//! Coteries made of sets that are known to be one.
ghost use Rattle.std.specs.Prelude.{◌≡◌, Ok};
ghost use Rattle.quorum_set.specs.Coteries.{IsCoterie};

use crate::fault::ConstructFault;
use quorum_set::{Coterie, QSet};

/// Returns the coterie of n voters and these quorums, which have to be a coterie.
#[tactic(auto, using(crate::proofs::Quorums::no_fault))]
pub(crate) fn coterie_of(n: usize, quorums: Vec<QSet>) -> Result<Coterie, ConstructFault>
    requires { IsCoterie (record { voters = n; quorums = quorums.items }) }
    ensures { result ≡ Ok (record { voters = n; quorums = quorums.items }) }
{
    Ok(Coterie::of(n, quorums)?)
}
