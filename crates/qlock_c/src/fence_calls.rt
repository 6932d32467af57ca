//! The calls of the guard of what the lock protects.
ghost use Rattle.std.specs.Prelude.{◌≡◌, ◌≢◌};
ghost use Rattle.blocks.specs.Numbers.{done};
ghost use Rattle.lock_blocks.specs.FenceSteps.{FenceAdmits, FenceIsMade};

use blocks::number_of;
use lock_blocks::guards;

/// Makes a guard that saw no grant, in 520 bytes.
#[unsafe(no_mangle)]
pub extern "C" fn qlock_fence_new(state: &mut [u8]) -> i32
    // A call that is refused writes nothing.
    ensures refused { result ≢ done → state.new ≡ state.old }
    ensures made { FenceIsMade state.old state.new result }
{
    number_of(guards::new(state))
}

/// Admits a pass, 512 bytes as `qlock_client_pass` writes them, unless it shows an older grant of some
/// voter than one that was admitted before, and writes its turn. Bytes that show no grant at all are no pass.
#[unsafe(no_mangle)]
pub extern "C" fn qlock_fence_admit(state: &mut [u8], pass: &[u8], turn: &mut u64) -> i32
    ensures refused { result ≢ done → (state.new ≡ state.old) × (turn.new ≡ turn.old) }
    ensures admits { FenceAdmits state.old pass.now state.new turn.new result }
{
    number_of(guards::admit(state, pass, turn))
}
