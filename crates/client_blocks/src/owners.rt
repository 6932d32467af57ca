//! Whom a session may ask, by its stamps at all voters as bytes.
ghost use Rattle.std.specs.Prelude.{◌≡◌, OnErr};
ghost use Rattle.client_blocks.specs.OwnerSteps.{StampsShowOwners};
ghost use Rattle.blocks.specs.Numbers.{returned};

use crate::lists::load_all_stamps;
use blocks::Refusal;

/// Writes the voters at which a stamp is the session's own, as a mask.
pub fn owners(stamps: &[u8], stamp: u64, voters: &mut u64) -> Result<(), Refusal>
    ensures shows { StampsShowOwners stamps.now stamp voters.new (returned result) }
    ensures refused { OnErr result (voters.new ≡ voters.old) }
{
    let kept = load_all_stamps(stamps)?;
    *voters = own_stamps::owners(&kept, stamp);
    Ok(())
}
