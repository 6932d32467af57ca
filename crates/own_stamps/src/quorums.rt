//! Whom a session may ask under a stamp.
ghost use Rattle.std.specs.Prelude.{◌≡◌};
ghost use Rattle.numbers.specs.Sets.{members_of};
ghost use Rattle.quorum_set.specs.Words.{word_of};
ghost use Rattle.own_stamps.specs.Stamps.{is_owner, may_ask, owners};

use crate::stamps::OwnStamps;
use quorum_set::{QSet, set_where};

/// Returns whether a stamp is the session's own at a voter.
fn is_owner(kept: &[OwnStamps], stamp: u64, voter: u8) -> bool
    ensures { result ≡ is_owner kept.now stamp voter }
{
    match kept.get(usize::from(voter)) {
        Some(stamps) => stamps.has(stamp),
        None => false,
    }
}

/// Returns the voters at which a stamp is the session's own, where `kept[v]` is what the session keeps of voter v. Voters from 64 on are
/// left out.
pub fn owners(kept: &[OwnStamps], stamp: u64) -> u64
    ensures members { members_of result ≡ owners kept.now stamp }
    ensures word { result ≡ word_of (owners kept.now stamp) }
{
    let owners = set_where(|voter| is_owner(kept, stamp, voter));
    owners.bits()
}

/// Returns whether the session may ask a quorum under a stamp: it is the session's own at each voter of the quorum.
#[tactic(auto, using(crate::proofs::OwnerLemmas::may_ask_by_word))]
pub fn may_ask(kept: &[OwnStamps], quorum: u64, stamp: u64) -> bool
    ensures { result ≡ may_ask kept.now quorum stamp }
{
    QSet::of_bits(quorum).within(&QSet::of_bits(owners(kept, stamp)))
}
