//! Which voters are silent, and which ones a session avoids.
ghost use Rattle.std.specs.Prelude.{◌≡◌};
ghost use Rattle.numbers.specs.Sets.{members_of};
ghost use Rattle.quorum_set.specs.Words.{word_of};
ghost use Rattle.fail_over.specs.Choices.{avoided_voters, is_avoided, is_quiet, is_silent, silent_voters};

use quorum_set::set_where;

/// Returns whether a voter was heard longer ago than `most`.
fn is_silent(heard: &[u64], now: u64, most: u64, voter: u8) -> bool
    ensures { result ≡ is_silent heard.now now most voter }
{
    match heard.get(usize::from(voter)) {
        Some(time) => now.saturating_sub(*time) > most,
        None => false,
    }
}

/// Returns whether a voter's quiet time ends later.
fn is_quiet(ends: &[u64], now: u64, voter: u8) -> bool
    ensures { result ≡ is_quiet ends.now now voter }
{
    match ends.get(usize::from(voter)) {
        Some(end) => now < *end,
        None => false,
    }
}

/// Returns whether a voter is silent, or in its quiet time.
fn is_avoided(heard: &[u64], ends: &[u64], now: u64, most: u64, voter: u8) -> bool
    ensures { result ≡ is_avoided heard.now ends.now now most voter }
{
    is_silent(heard, now, most, voter) || is_quiet(ends, now, voter)
}

/// Returns the voters that were heard longer ago than `most`: voter v was heard at `heard[v]`. One of which there is no time is not among
/// them. Voters from 64 on are left out.
pub fn silent(heard: &[u64], now: u64, most: u64) -> u64
    ensures members { members_of result ≡ silent_voters heard.now now most }
    ensures word { result ≡ word_of (silent_voters heard.now now most) }
{
    let silent = set_where(|voter| is_silent(heard, now, most, voter));
    silent.bits()
}

/// Returns the voters that a session avoids: those that are silent, as above, and those whose quiet time, in which a voter gives no vote to
/// a new request, ends later. That of voter v ends at `ends[v]`.
pub fn avoided(heard: &[u64], ends: &[u64], now: u64, most: u64) -> u64
    ensures members { members_of result ≡ avoided_voters heard.now ends.now now most }
    ensures word { result ≡ word_of (avoided_voters heard.now ends.now now most) }
{
    let avoided = set_where(|voter| is_avoided(heard, ends, now, most, voter));
    avoided.bits()
}
