//! The calls on quorums.
ghost use Rattle.std.specs.Prelude.{◌≡◌, ◌≢◌, ◌&&◌};
ghost use Rattle.blocks.specs.Numbers.{done};
ghost use Rattle.lock_blocks.specs.QuorumSteps.{SaysOfQuorums, are_quorums, has_quorum, is_bridge};

use blocks::number_of;
use lock_blocks::quorums;

/// Writes 1 if all members of some of the quorums are among these voters, and 0 if not. Bit i of a mask,
/// and of `voters`, is 1 if voter i is a member.
#[unsafe(no_mangle)]
pub extern "C" fn qlock_has_quorum(masks: &[u64], voters: u64, yes: &mut i32) -> i32
    ensures refused { result ≢ done → yes.new ≡ yes.old }
    ensures says { SaysOfQuorums (are_quorums masks.now) (has_quorum masks.now voters) yes.new result }
{
    number_of(quorums::has_quorum(masks, voters, yes))
}

/// Writes 1 if each of the first quorums has a common member with each of the second, and 0 if not.
#[unsafe(no_mangle)]
pub extern "C" fn qlock_bridge(firsts: &[u64], seconds: &[u64], yes: &mut i32) -> i32
    ensures refused { result ≢ done → yes.new ≡ yes.old }
    ensures says { SaysOfQuorums (are_quorums firsts.now && are_quorums seconds.now) (is_bridge firsts.now seconds.now)
        yes.new result }
{
    number_of(quorums::bridge(firsts, seconds, yes))
}
