//! The calls of what a session keeps: leases, votes, its stamps at voters, its claims of numbers, and the calls for a lock.
ghost use Rattle.std.specs.Prelude.{◌≡◌, ◌≢◌};
ghost use Rattle.claims.specs.Claims.{given_up, saw};
ghost use Rattle.vote_leases.specs.Leases.{ended, given_back, renewed};
ghost use Rattle.session_blocks.specs.SessionSteps.{CallComes, CallGoes, CallUnlocks, CallsAreMade, CallsEnd, CallsShowEnd, CallsShowNext, CallsShowSpoiled, ClaimBecomes, ClaimIsAccepted, ClaimIsMade, ClaimShows, ClaimsNext, LeaseBecomes, LeaseHears, LeaseIsMade, LockIsHanded, LockMayBeLost, StampsAreForgotten, StampsAreMade, StampsAreOwn, StampsAreRenewed, StampsHear, TriesAreRefused, VoteAsks, VoteBecomes, VoteIsMade, VoteKeeps, VoteShowsEnd, VoteTakes};
ghost use Rattle.client_blocks.specs.OwnerSteps.{StampsShowOwners};
ghost use Rattle.blocks.specs.Numbers.{done};
ghost use Rattle.blocks.specs.RowSteps.{is_yes};

use blocks::number_of;
use client_blocks::owners;
use session_blocks::{leases, own_calls, own_claims, stamps, votes};
use vote_leases::{Incarnation, Locked};

/// Makes the lease of a voter of which nothing was heard, in 40 bytes.
#[unsafe(no_mangle)]
pub extern "C" fn qlock_lease_new(lease: &mut [u8]) -> i32
    // A call that is refused writes nothing.
    ensures refused { result ≢ done → lease.new ≡ lease.old }
    ensures made { LeaseIsMade lease.old lease.new result }
{
    number_of(leases::new(lease))
}

/// Hears the incarnation that a message of the voter says. Writes 1 if it is the latest one, and 0 if it is of an earlier one.
#[unsafe(no_mangle)]
pub extern "C" fn qlock_lease_hears(
    lease: &mut [u8],
    run: u64,
    start: u64,
    lapses: u64,
    latest: &mut u32,
) -> i32
    ensures refused { result ≢ done → (lease.new ≡ lease.old) × (latest.new ≡ latest.old) }
    ensures hears { LeaseHears (record { run = run; start = start; lapses = lapses }) lease.old lease.new latest.new result }
{
    number_of(leases::hears(lease, Incarnation { run, start, lapses }, latest))
}

/// Takes an acknowledgement of a heartbeat that left at this time. One of another incarnation changes nothing.
#[unsafe(no_mangle)]
pub extern "C" fn qlock_lease_renews(
    lease: &mut [u8],
    run: u64,
    start: u64,
    lapses: u64,
    beat: u64,
) -> i32
    ensures refused { result ≢ done → lease.new ≡ lease.old }
    ensures renews { LeaseBecomes (λ l. renewed l (record { run = run; start = start; lapses = lapses }) beat) lease.old lease.new result }
{
    number_of(leases::renews(lease, Incarnation { run, start, lapses }, beat))
}

/// Makes the vote of a lock that the session did not ask for yet, in 72 bytes. Its requests have stamps above this one.
#[unsafe(no_mangle)]
pub extern "C" fn qlock_vote_new(used: u64, vote: &mut [u8]) -> i32
    ensures refused { result ≢ done → vote.new ≡ vote.old }
    ensures made { VoteIsMade used vote.old vote.new result }
{
    number_of(votes::new(used, vote))
}

/// Asks with a request of this stamp. Writes 1 if it is above those of all requests before, and 0 if not: then nothing changes.
#[unsafe(no_mangle)]
pub extern "C" fn qlock_vote_asks(vote: &mut [u8], request: u64, yes: &mut u32) -> i32
    ensures refused { result ≢ done → (vote.new ≡ vote.old) × (yes.new ≡ yes.old) }
    ensures asks { VoteAsks request vote.old vote.new yes.new result }
{
    number_of(votes::asks(vote, request, yes))
}

/// Keeps what counts for the vote by the voter's lease, before a later incarnation is heard.
#[unsafe(no_mangle)]
pub extern "C" fn qlock_vote_keeps(vote: &mut [u8], lease: &[u8]) -> i32
    ensures refused { result ≢ done → vote.new ≡ vote.old }
    ensures keeps { VoteKeeps lease.now vote.old vote.new result }
{
    number_of(votes::keeps(vote, lease))
}

/// Takes a LOCKED. Writes 1 if the session has the vote by it, and 0 if not.
#[unsafe(no_mangle)]
pub extern "C" fn qlock_vote_takes(
    vote: &mut [u8],
    lease: &[u8],
    run: u64,
    start: u64,
    lapses: u64,
    request: u64,
    number: u64,
    renews: u32,
    span: u64,
    now: u64,
    yes: &mut u32,
) -> i32
    ensures refused { result ≢ done → (vote.new ≡ vote.old) × (yes.new ≡ yes.old) }
    ensures takes { VoteTakes
        (record { incarnation = record { run = run; start = start; lapses = lapses }; request = request; number = number; renews = is_yes renews })
        span now lease.now vote.old vote.new yes.new result }
{
    let incarnation = Incarnation { run, start, lapses };
    let locked = Locked {
        incarnation,
        request,
        number,
        renews: renews != 0,
    };
    number_of(votes::takes(vote, lease, &locked, span, now, yes))
}

/// Gives the vote back, whose grant has this number. No grant counts with it or a lower one.
#[unsafe(no_mangle)]
pub extern "C" fn qlock_vote_gives_back(vote: &mut [u8], number: u64) -> i32
    ensures refused { result ≢ done → vote.new ≡ vote.old }
    ensures gives { VoteBecomes (λ v. given_back v number) vote.old vote.new result }
{
    number_of(votes::gives_back(vote, number))
}

/// Ends the request of this stamp. One before the newest was over already.
#[unsafe(no_mangle)]
pub extern "C" fn qlock_vote_ends(vote: &mut [u8], request: u64) -> i32
    ensures refused { result ≢ done → vote.new ≡ vote.old }
    ensures ends { VoteBecomes (λ v. ended v request) vote.old vote.new result }
{
    number_of(votes::ends(vote, request))
}

/// Writes up to when the vote counts, where a heartbeat counts for `span` after it left, and 0 if it does not count at all.
#[unsafe(no_mangle)]
pub extern "C" fn qlock_vote_until(vote: &[u8], lease: &[u8], span: u64, end: &mut u64) -> i32
    ensures refused { result ≢ done → end.new ≡ end.old }
    ensures shows { VoteShowsEnd span lease.now vote.now end.new result }
{
    number_of(votes::until(vote, lease, span, end))
}

/// Makes what a session keeps of its stamps at a voter that told nothing, in 32 bytes.
#[unsafe(no_mangle)]
pub extern "C" fn qlock_stamps_new(stamps: &mut [u8]) -> i32
    ensures refused { result ≢ done → stamps.new ≡ stamps.old }
    ensures made { StampsAreMade stamps.old stamps.new result }
{
    number_of(stamps::new(stamps))
}

/// Takes a run of the voter, of which any voter says that it began.
#[unsafe(no_mangle)]
pub extern "C" fn qlock_stamps_renew(stamps: &mut [u8], run: u64) -> i32
    ensures refused { result ≢ done → stamps.new ≡ stamps.old }
    ensures renewed { StampsAreRenewed run stamps.old stamps.new result }
{
    number_of(stamps::renew(stamps, run))
}

/// Forgets what the voter told, and not its run.
#[unsafe(no_mangle)]
pub extern "C" fn qlock_stamps_forget(stamps: &mut [u8]) -> i32
    ensures refused { result ≢ done → stamps.new ≡ stamps.old }
    ensures forgotten { StampsAreForgotten stamps.old stamps.new result }
{
    number_of(stamps::forget(stamps))
}

/// Takes what the voter tells in this run: the base of the session's stamps, and up to which they are reserved.
#[unsafe(no_mangle)]
pub extern "C" fn qlock_stamps_hear(stamps: &mut [u8], run: u64, base: u64, reserved: u64) -> i32
    ensures refused { result ≢ done → stamps.new ≡ stamps.old }
    ensures hear { StampsHear run base reserved stamps.old stamps.new result }
{
    number_of(stamps::hears(stamps, run, base, reserved))
}

/// Writes 1 if the session may ask the voter under this stamp, and 0 if not.
#[unsafe(no_mangle)]
pub extern "C" fn qlock_stamps_have(stamps: &[u8], stamp: u64, yes: &mut u32) -> i32
    ensures refused { result ≢ done → yes.new ≡ yes.old }
    ensures have { StampsAreOwn stamps.now stamp yes.new result }
{
    number_of(stamps::have(stamps, stamp, yes))
}

/// Writes the voters at which a stamp is the session's own, as a mask, by its stamps at 64 voters, one after the other.
#[unsafe(no_mangle)]
pub extern "C" fn qlock_stamps_owners(stamps: &[u8], stamp: u64, voters: &mut u64) -> i32
    ensures refused { result ≢ done → voters.new ≡ voters.old }
    ensures shows { StampsShowOwners stamps.now stamp voters.new result }
{
    number_of(owners::owners(stamps, stamp, voters))
}

/// Makes what a session keeps of its claims of a number of which nothing was heard, in 40 bytes.
#[unsafe(no_mangle)]
pub extern "C" fn qlock_claim_new(claim: &mut [u8]) -> i32
    ensures refused { result ≢ done → claim.new ≡ claim.old }
    ensures made { ClaimIsMade claim.old claim.new result }
{
    number_of(own_claims::new(claim))
}

/// Hears of an epoch of the number: from a voter, late, in any order, or again.
#[unsafe(no_mangle)]
pub extern "C" fn qlock_claim_sees(claim: &mut [u8], epoch: u64) -> i32
    ensures refused { result ≢ done → claim.new ≡ claim.old }
    ensures sees { ClaimBecomes (λ c. saw c epoch) claim.old claim.new result }
{
    number_of(own_claims::sees(claim, epoch))
}

/// Claims the number under the next epoch. Writes that, and 0 if there is none, as the epochs are spent: then nothing changes.
#[unsafe(no_mangle)]
pub extern "C" fn qlock_claim_next(claim: &mut [u8], epoch: &mut u64) -> i32
    ensures refused { result ≢ done → (claim.new ≡ claim.old) × (epoch.new ≡ epoch.old) }
    ensures claims { ClaimsNext claim.old claim.new epoch.new result }
{
    number_of(own_claims::next(claim, epoch))
}

/// Takes a voter's word that it accepted the claim of an epoch, and the base of the session's stamps there. Writes 1 if that is of
/// the claim that goes on, and 0 if not: then nothing changes.
#[unsafe(no_mangle)]
pub extern "C" fn qlock_claim_accepts(
    claim: &mut [u8],
    voter: u8,
    epoch: u64,
    base: u64,
    yes: &mut u32,
) -> i32
    ensures refused { result ≢ done → (claim.new ≡ claim.old) × (yes.new ≡ yes.old) }
    ensures accepts { ClaimIsAccepted voter epoch base claim.old claim.new yes.new result }
{
    number_of(own_claims::accepts(claim, voter, epoch, base, yes))
}

/// Takes the claim back. Its epoch is never claimed again.
#[unsafe(no_mangle)]
pub extern "C" fn qlock_claim_gives_up(claim: &mut [u8]) -> i32
    ensures refused { result ≢ done → claim.new ≡ claim.old }
    ensures gives_up { ClaimBecomes (λ c. given_up c) claim.old claim.new result }
{
    number_of(own_claims::gives_up(claim))
}

/// Writes the newest epoch that was heard of or claimed, the one that is claimed, 0 if none is, the voters that accepted that, and the
/// greatest base that these told.
#[unsafe(no_mangle)]
pub extern "C" fn qlock_claim_shows(
    claim: &[u8],
    newest: &mut u64,
    epoch: &mut u64,
    accepted: &mut u64,
    base: &mut u64,
) -> i32
    ensures refused { result ≢ done → (newest.new ≡ newest.old) × (epoch.new ≡ epoch.old) × (accepted.new ≡ accepted.old) × (base.new ≡ base.old) }
    ensures shows { ClaimShows claim.now newest.new epoch.new accepted.new base.new result }
{
    number_of(own_claims::shows(claim, newest, epoch, accepted, base))
}

/// Makes the calls for a lock that nobody wants yet, in 56 bytes. The stamps of its requests are above this one.
#[unsafe(no_mangle)]
pub extern "C" fn qlock_calls_new(used: u64, calls: &mut [u8]) -> i32
    ensures refused { result ≢ done → calls.new ≡ calls.old }
    ensures made { CallsAreMade used calls.old calls.new result }
{
    number_of(own_calls::new(used, calls))
}

/// Takes a call that comes, in a phase of the client of the lock, whose request has this stamp. Writes 0 if it is taken, and else why it is
/// refused: 1 if the session is closed, 2 if the call only tries and cannot be the first, and 3 if too many wait. Then nothing changes.
#[unsafe(no_mangle)]
pub extern "C" fn qlock_calls_wants(
    calls: &mut [u8],
    phase: u32,
    stamp: u64,
    tries: u32,
    answer: &mut u32,
) -> i32
    ensures refused { result ≢ done → (calls.new ≡ calls.old) × (answer.new ≡ answer.old) }
    ensures comes { CallComes phase stamp (is_yes tries) calls.old calls.new answer.new result }
{
    number_of(own_calls::wants(calls, phase, stamp, tries != 0, answer))
}

/// Notes that a call does not wait any more, which only tried or did not.
#[unsafe(no_mangle)]
pub extern "C" fn qlock_calls_unwants(calls: &mut [u8], tries: u32) -> i32
    ensures refused { result ≢ done → calls.new ≡ calls.old }
    ensures goes { CallGoes (is_yes tries) calls.old calls.new result }
{
    number_of(own_calls::unwants(calls, tries != 0))
}

/// Notes that somebody else has the lock. Writes 1 if that ends a call that only tries, and 0 if not.
#[unsafe(no_mangle)]
pub extern "C" fn qlock_calls_refuses_tries(
    calls: &mut [u8],
    phase: u32,
    stamp: u64,
    yes: &mut u32,
) -> i32
    ensures refused { result ≢ done → (calls.new ≡ calls.old) × (yes.new ≡ yes.old) }
    ensures are { TriesAreRefused phase stamp calls.old calls.new yes.new result }
{
    number_of(own_calls::refuses_tries(calls, phase, stamp, yes))
}

/// Hands the lock to the first call that waits, if that may have it. Writes 1 if it has it now, and 0 if not: then nothing changes.
#[unsafe(no_mangle)]
pub extern "C" fn qlock_calls_hands(
    calls: &mut [u8],
    phase: u32,
    stamp: u64,
    counts: u32,
    yes: &mut u32,
) -> i32
    ensures refused { result ≢ done → (calls.new ≡ calls.old) × (yes.new ≡ yes.old) }
    ensures handed { LockIsHanded phase stamp (is_yes counts) calls.old calls.new yes.new result }
{
    number_of(own_calls::hands(calls, phase, stamp, counts != 0, yes))
}

/// Takes the lock back from the call that has it under the request of this stamp. Writes 1 if it is given back, 2 if the call was told before
/// that it may be lost, and 0 if no call has it under this request: then nothing changes.
#[unsafe(no_mangle)]
pub extern "C" fn qlock_calls_unlocks(calls: &mut [u8], stamp: u64, how: &mut u32) -> i32
    ensures refused { result ≢ done → (calls.new ≡ calls.old) × (how.new ≡ how.old) }
    ensures unlocks { CallUnlocks stamp calls.old calls.new how.new result }
{
    number_of(own_calls::unlocks(calls, stamp, how))
}

/// Notes that the lock may be lost. Writes 1 if the call that has it has to be told, as it was not told before, and 0 if not.
#[unsafe(no_mangle)]
pub extern "C" fn qlock_calls_loses(calls: &mut [u8], yes: &mut u32) -> i32
    ensures refused { result ≢ done → (calls.new ≡ calls.old) × (yes.new ≡ yes.old) }
    ensures loses { LockMayBeLost calls.old calls.new yes.new result }
{
    number_of(own_calls::loses(calls, yes))
}

/// Notes that all calls that waited failed, and, if the session closes, that none is taken from now on.
#[unsafe(no_mangle)]
pub extern "C" fn qlock_calls_end(calls: &mut [u8], closes: u32) -> i32
    ensures refused { result ≢ done → calls.new ≡ calls.old }
    ensures end { CallsEnd (is_yes closes) calls.old calls.new result }
{
    number_of(own_calls::ends(calls, closes != 0))
}

/// Writes what the session has to do next: 0 nothing, 1 ask, 2 give up, 3 leave, 4 hand the lock to the first call that waits.
#[unsafe(no_mangle)]
pub extern "C" fn qlock_calls_next(
    calls: &[u8],
    phase: u32,
    stamp: u64,
    counts: u32,
    doubtful: u32,
    next: &mut u32,
) -> i32
    ensures refused { result ≢ done → next.new ≡ next.old }
    ensures shows { CallsShowNext phase stamp (is_yes counts) (is_yes doubtful) calls.now next.new result }
{
    number_of(own_calls::next(calls, phase, stamp, counts != 0, doubtful != 0, next))
}

/// Writes what the session has to do if a vote that it has may be somebody else's: 0 nothing, 2 give up, 3 leave, 5 tell the call that has
/// the lock that it may be lost.
#[unsafe(no_mangle)]
pub extern "C" fn qlock_calls_spoiled(calls: &[u8], phase: u32, stamp: u64, next: &mut u32) -> i32
    ensures refused { result ≢ done → next.new ≡ next.old }
    ensures shows { CallsShowSpoiled phase stamp calls.now next.new result }
{
    number_of(own_calls::spoiled(calls, phase, stamp, next))
}

/// Writes 1 if the session may end its request of this stamp, as no call has the lock under it, and 0 if not.
#[unsafe(no_mangle)]
pub extern "C" fn qlock_calls_may_end(calls: &[u8], stamp: u64, yes: &mut u32) -> i32
    ensures refused { result ≢ done → yes.new ≡ yes.old }
    ensures shows { CallsShowEnd stamp calls.now yes.new result }
{
    number_of(own_calls::may_end(calls, stamp, yes))
}
