//! What the calls on quorums do.
ghost use Rattle.std.specs.Prelude.{◌≡◌, ◌&&◌, OnErr, nat_lt};
ghost use Rattle.std.specs.List.{list_all, list_any};
ghost use Rattle.numbers.specs.Sets.{meet, members_of, within};
ghost use Rattle.blocks.specs.Numbers.{returned};
ghost use Rattle.lock_blocks.specs.QuorumSteps.{SaysOfQuorums, are_quorums, has_quorum, is_bridge, meets_all};

use blocks::Refusal;
use quorum_set::QSet;

/// Returns whether each mask has a member.
fn have_members(masks: &[u64]) -> bool
    ensures { result ≡ list_all (nat_lt 0) masks.now }
{
    masks.iter().all(|quorum| *quorum > 0)
}

/// Returns whether there are masks, and each has a member.
fn are_quorums(masks: &[u64]) -> bool
    ensures { result ≡ are_quorums masks.now }
{
    !masks.is_empty() && have_members(masks)
}

/// Returns whether all members of the quorum are among the voters.
fn lies_within(quorum: u64, voters: &QSet) -> bool
    ensures { result ≡ within (members_of quorum) voters.now }
{
    QSet::of_bits(quorum).within(voters)
}

/// Returns whether two quorums have a common member.
fn meet(first: u64, second: u64) -> bool
    ensures { result ≡ meet (members_of first) (members_of second) }
{
    QSet::of_bits(first).meets(&QSet::of_bits(second))
}

/// Returns whether all members of some of the quorums are among the voters.
fn lies_some_within(masks: &[u64], voters: &QSet) -> bool
    ensures { result ≡ list_any (λ q. within (members_of q) voters.now) masks.now }
{
    masks.iter().any(|quorum| lies_within(*quorum, voters))
}

/// Returns whether the quorum has a common member with each of these.
fn meets_all(quorum: u64, masks: &[u64]) -> bool
    ensures { result ≡ meets_all quorum masks.now }
{
    masks.iter().all(|other| meet(quorum, *other))
}

/// Returns whether each of the first quorums has a common member with each of the second.
fn is_bridge(firsts: &[u64], seconds: &[u64]) -> bool
    ensures { result ≡ is_bridge firsts.now seconds.now }
{
    firsts.iter().all(|quorum| meets_all(*quorum, seconds))
}

/// Writes 1 if all members of some of the quorums are among these voters, and 0 if not. Bit i of a
/// mask, and of `voters`, is 1 if voter i is a member.
pub fn has_quorum(masks: &[u64], voters: u64, yes: &mut i32) -> Result<(), Refusal>
    ensures says { SaysOfQuorums (are_quorums masks.now) (has_quorum masks.now voters) yes.new (returned result) }
    ensures refused { OnErr result (yes.new ≡ yes.old) }
{
    if !are_quorums(masks) {
        return Err(Refusal::BadArgument);
    }
    *yes = i32::from(lies_some_within(masks, &QSet::of_bits(voters)));
    Ok(())
}

/// Writes 1 if each of the first quorums has a common member with each of the second, and 0 if not.
pub fn bridge(firsts: &[u64], seconds: &[u64], yes: &mut i32) -> Result<(), Refusal>
    ensures says { SaysOfQuorums (are_quorums firsts.now && are_quorums seconds.now) (is_bridge firsts.now seconds.now)
        yes.new (returned result) }
    ensures refused { OnErr result (yes.new ≡ yes.old) }
{
    if !are_quorums(firsts) || !are_quorums(seconds) {
        return Err(Refusal::BadArgument);
    }
    *yes = i32::from(is_bridge(firsts, seconds));
    Ok(())
}
