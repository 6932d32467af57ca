//! What a session keeps of its claims of a number as bytes, and what its calls do.
ghost use Rattle.std.specs.Prelude.{◌≡◌, IfErr, IfOk, IfSome, OnErr, Some, length};
ghost use Rattle.claims.specs.Claims.{given_up, saw, words_of};
ghost use Rattle.claims.specs.declared.claim.Claim.{Claim};
ghost use Rattle.session_blocks.specs.Bytes.{IsClaim, IsNoClaim};
ghost use Rattle.session_blocks.specs.SessionSteps.{ClaimBecomes, ClaimIsAccepted, ClaimIsMade, ClaimShows, ClaimsNext};
ghost use Rattle.blocks.specs.Numbers.{returned};

use arrayvec::ArrayVec;
use blocks::Refusal;
use claims::{Claim, SAVED_WORDS};
use words::{read_words, write_words};

/// How many bytes a claim has.
pub const CLAIM_BYTES: usize = 40;

/// Returns the claim that was saved as these bytes. Fails with `BadState` if there is none.
fn load_claim(bytes: &[u8]) -> Result<Claim, Refusal>
    ensures loaded { IfOk result (IsClaim bytes.now) }
    // It is the only one.
    ensures only { IfOk result (λ c. (d : Claim) → IsClaim bytes.now d → d ≡ c) }
    ensures len { IfOk result (λ _. length bytes.now ≡ 40) }
    ensures refused { IfErr result (λ r. (r ≡ Refusal.BadState) × IsNoClaim bytes.now) }
{
    if bytes.len() != CLAIM_BYTES {
        return Err(Refusal::BadState);
    }
    let mut words = ArrayVec::<u64, SAVED_WORDS>::new();
    read_words(bytes, &mut words);
    match claim_of(words.as_slice()) {
        Some(claim) => Ok(claim),
        None => Err(Refusal::BadState),
    }
}

/// Returns the claim with these numbers. `None` if they are not those of any.
fn claim_of(words: &[u64]) -> Option<Claim>
    requires { length words.now ≡ 5 }
    ensures text { IfSome result (λ c. words.now ≡ words_of c) }
    ensures read { (c : Claim) → words.now ≡ words_of c → result ≡ Some c }
{
    let mut numbers = [0; SAVED_WORDS];
    numbers.copy_from_slice(words);
    Claim::restore(&numbers)
}

/// Writes the bytes of a claim.
fn store_claim(claim: &Claim, bytes: &mut [u8])
    requires { length bytes.old ≡ 40 }
    ensures { IsClaim bytes.new claim.now }
{
    write_words(&claim.save(), bytes);
}

/// Makes what is kept of a number of which nothing was heard.
pub fn new(claim: &mut [u8]) -> Result<(), Refusal>
    ensures made { ClaimIsMade claim.old claim.new (returned result) }
    ensures refused { OnErr result (claim.new ≡ claim.old) }
{
    if claim.len() != CLAIM_BYTES {
        return Err(Refusal::BadState);
    }
    store_claim(&Claim::new(), claim);
    Ok(())
}

/// Hears of an epoch of the number.
pub fn sees(claim: &mut [u8], epoch: u64) -> Result<(), Refusal>
    ensures sees { ClaimBecomes (λ c. saw c epoch) claim.old claim.new (returned result) }
    ensures refused { OnErr result (claim.new ≡ claim.old) }
{
    let mut it = load_claim(claim)?;
    it.sees(epoch);
    store_claim(&it, claim);
    Ok(())
}

/// Claims the number under the next epoch. Writes that, and 0 if there is none: then nothing changes.
pub fn next(claim: &mut [u8], epoch: &mut u64) -> Result<(), Refusal>
    ensures claims { ClaimsNext claim.old claim.new epoch.new (returned result) }
    ensures refused { OnErr result ((claim.new ≡ claim.old) × (epoch.new ≡ epoch.old)) }
{
    let mut it = load_claim(claim)?;
    *epoch = it.claims().unwrap_or(0);
    store_claim(&it, claim);
    Ok(())
}

/// Takes a voter's word that it accepted the claim of an epoch, and the base of the session's stamps there. Writes 1 if that is of the
/// claim that goes on, and 0 if not: then nothing changes.
pub fn accepts(
    claim: &mut [u8],
    voter: u8,
    epoch: u64,
    base: u64,
    yes: &mut u32,
) -> Result<(), Refusal>
    ensures accepts { ClaimIsAccepted voter epoch base claim.old claim.new yes.new (returned result) }
    ensures refused { OnErr result ((claim.new ≡ claim.old) × (yes.new ≡ yes.old)) }
{
    let mut it = load_claim(claim)?;
    *yes = u32::from(it.accepts(voter, epoch, base));
    store_claim(&it, claim);
    Ok(())
}

/// Takes the claim back.
pub fn gives_up(claim: &mut [u8]) -> Result<(), Refusal>
    ensures gives_up { ClaimBecomes (λ c. given_up c) claim.old claim.new (returned result) }
    ensures refused { OnErr result (claim.new ≡ claim.old) }
{
    let mut it = load_claim(claim)?;
    it.gives_up();
    store_claim(&it, claim);
    Ok(())
}

/// Writes what is kept: the newest epoch, the one that is claimed, 0 if none is, the voters that accepted that, and the greatest base
/// that these told.
pub fn shows(
    claim: &[u8],
    newest: &mut u64,
    epoch: &mut u64,
    accepted: &mut u64,
    base: &mut u64,
) -> Result<(), Refusal>
    ensures shows { ClaimShows claim.now newest.new epoch.new accepted.new base.new (returned result) }
    ensures refused { OnErr result ((newest.new ≡ newest.old) × (epoch.new ≡ epoch.old) × (accepted.new ≡ accepted.old) × (base.new ≡ base.old)) }
{
    let it = load_claim(claim)?;
    *newest = it.newest;
    *epoch = it.epoch.unwrap_or(0);
    *accepted = it.accepted;
    *base = it.base;
    Ok(())
}
