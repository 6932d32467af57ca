//! The lease of a voter as bytes, and what its calls do.
ghost use Rattle.std.specs.Prelude.{◌≡◌, IfErr, IfOk, IfSome, OnErr, Some, length};
ghost use Rattle.vote_leases.specs.Leases.{begun_lease, heard, renewed};
ghost use Rattle.vote_leases.specs.Saved.{lease_words};
ghost use Rattle.vote_leases.specs.declared.incarnation.Incarnation.{Incarnation};
ghost use Rattle.vote_leases.specs.declared.lease.VoterLease.{VoterLease};
ghost use Rattle.session_blocks.specs.Bytes.{IsLease, IsNoLease};
ghost use Rattle.session_blocks.specs.SessionSteps.{LeaseBecomes, LeaseHears, LeaseIsMade};
ghost use Rattle.blocks.specs.Numbers.{returned};

use arrayvec::ArrayVec;
use blocks::Refusal;
use vote_leases::{Incarnation, LEASE_WORDS, VoterLease};
use words::{read_words, write_words};

/// How many bytes a lease has.
pub const LEASE_BYTES: usize = 40;

/// Returns the lease that was saved as these bytes. Fails with `BadState` if there is none.
pub fn load_lease(bytes: &[u8]) -> Result<VoterLease, Refusal>
    ensures loaded { IfOk result (IsLease bytes.now) }
    // It is the only one.
    ensures only { IfOk result (λ l. (d : VoterLease) → IsLease bytes.now d → d ≡ l) }
    ensures len { IfOk result (λ _. length bytes.now ≡ 40) }
    ensures refused { IfErr result (λ r. (r ≡ Refusal.BadState) × IsNoLease bytes.now) }
{
    if bytes.len() != LEASE_BYTES {
        return Err(Refusal::BadState);
    }
    let mut words = ArrayVec::<u64, LEASE_WORDS>::new();
    read_words(bytes, &mut words);
    match lease_of(words.as_slice()) {
        Some(lease) => Ok(lease),
        None => Err(Refusal::BadState),
    }
}

/// Returns the lease with these numbers. `None` if they are not those of a lease.
pub fn lease_of(words: &[u64]) -> Option<VoterLease>
    requires { length words.now ≡ 5 }
    ensures text { IfSome result (λ l. words.now ≡ lease_words l) }
    ensures read { (l : VoterLease) → words.now ≡ lease_words l → result ≡ Some l }
{
    let mut numbers = [0; LEASE_WORDS];
    numbers.copy_from_slice(words);
    VoterLease::restore(&numbers)
}

/// Writes the bytes of a lease.
fn store_lease(lease: &VoterLease, bytes: &mut [u8])
    requires { length bytes.old ≡ 40 }
    ensures { IsLease bytes.new lease.now }
{
    write_words(&lease.save(), bytes);
}

/// Makes the lease of a voter of which nothing was heard.
pub fn new(lease: &mut [u8]) -> Result<(), Refusal>
    ensures made { LeaseIsMade lease.old lease.new (returned result) }
    ensures refused { OnErr result (lease.new ≡ lease.old) }
{
    if lease.len() != LEASE_BYTES {
        return Err(Refusal::BadState);
    }
    store_lease(&VoterLease::new(), lease);
    Ok(())
}

/// Hears the incarnation that a message of the voter says. Writes 1 if it is the latest one, and 0 if it is of an earlier one.
pub fn hears(lease: &mut [u8], incarnation: Incarnation, latest: &mut u32) -> Result<(), Refusal>
    ensures hears { LeaseHears incarnation lease.old lease.new latest.new (returned result) }
    ensures refused { OnErr result ((lease.new ≡ lease.old) × (latest.new ≡ latest.old)) }
{
    let mut it = load_lease(lease)?;
    *latest = u32::from(it.hears(incarnation));
    store_lease(&it, lease);
    Ok(())
}

/// Takes an acknowledgement of a heartbeat that left at this time.
pub fn renews(lease: &mut [u8], incarnation: Incarnation, beat: u64) -> Result<(), Refusal>
    ensures renews { LeaseBecomes (λ l. renewed l incarnation beat) lease.old lease.new (returned result) }
    ensures refused { OnErr result (lease.new ≡ lease.old) }
{
    let mut it = load_lease(lease)?;
    it.renews(incarnation, beat);
    store_lease(&it, lease);
    Ok(())
}
