//! The guard of what the lock protects as bytes, and what its calls do.
ghost use Rattle.std.specs.Prelude.{◌≡◌, OnErr};
ghost use Rattle.lock_blocks.specs.FenceSteps.{FenceAdmits, FenceIsMade};
ghost use Rattle.blocks.specs.Numbers.{returned};

use crate::saved_bytes::{FENCE_BYTES, load_fence, load_grants, store_fence};
use blocks::Refusal;
use fence::{Fence, Pass};

/// Makes a guard that saw no grant, in 520 bytes.
pub fn new(state: &mut [u8]) -> Result<(), Refusal>
    ensures made { FenceIsMade state.old state.new (returned result) }
    ensures refused { OnErr result (state.new ≡ state.old) }
{
    if state.len() != FENCE_BYTES {
        return Err(Refusal::BadState);
    }
    store_fence(&Fence::new(), state);
    Ok(())
}

/// Admits a pass, 512 bytes, unless it shows an older grant of some voter than one that was
/// admitted before, and writes its turn. Bytes that show no grant at all are no pass.
#[tactic(auto, using(crate::proofs::StateLemmas::length_grants, crate::proofs::StateLemmas::length_guard))]
pub fn admit(state: &mut [u8], pass: &[u8], turn: &mut u64) -> Result<(), Refusal>
    ensures admits { FenceAdmits state.old pass.now state.new turn.new (returned result) }
    ensures refused { OnErr result ((state.new ≡ state.old) × (turn.new ≡ turn.old)) }
{
    let mut fence = load_fence(state)?;
    let shown = load_grants(pass, Refusal::BadArgument)?;
    let Some(pass) = Pass::of(shown) else {
        return Err(Refusal::NoPass);
    };
    match fence.admit(&pass) {
        Ok(given) => *turn = given,
        Err(fault) => return Err(Refusal::of_fence(fault)),
    }
    store_fence(&fence, state);
    Ok(())
}
