//! What a session keeps of its stamps at a voter as bytes, and what its calls do.
ghost use Rattle.std.specs.Prelude.{◌≡◌, IfErr, IfOk, IfSome, OnErr, Some, length};
ghost use Rattle.own_stamps.specs.Stamps.{forgotten, is_own, renewed, told, words_of};
ghost use Rattle.own_stamps.specs.declared.stamps.OwnStamps.{OwnStamps};
ghost use Rattle.session_blocks.specs.Bytes.{AreNoStamps, AreStamps};
ghost use Rattle.session_blocks.specs.SessionSteps.{StampsAreForgotten, StampsAreMade, StampsAreOwn, StampsAreRenewed, StampsHear};
ghost use Rattle.blocks.specs.Numbers.{returned};

use arrayvec::ArrayVec;
use blocks::Refusal;
use own_stamps::{OwnStamps, SAVED_WORDS};
use words::{read_words, write_words};

/// How many bytes the stamps have.
pub const STAMPS_BYTES: usize = 32;

/// Returns the stamps that were saved as these bytes. Fails with `BadState` if there are none.
fn load_stamps(bytes: &[u8]) -> Result<OwnStamps, Refusal>
    ensures loaded { IfOk result (AreStamps bytes.now) }
    // They are the only ones.
    ensures only { IfOk result (λ s. (d : OwnStamps) → AreStamps bytes.now d → d ≡ s) }
    ensures len { IfOk result (λ _. length bytes.now ≡ 32) }
    ensures refused { IfErr result (λ r. (r ≡ Refusal.BadState) × AreNoStamps bytes.now) }
{
    if bytes.len() != STAMPS_BYTES {
        return Err(Refusal::BadState);
    }
    let mut words = ArrayVec::<u64, SAVED_WORDS>::new();
    read_words(bytes, &mut words);
    match stamps_of(words.as_slice()) {
        Some(stamps) => Ok(stamps),
        None => Err(Refusal::BadState),
    }
}

/// Returns the stamps with these numbers. `None` if they are not those of any.
pub fn stamps_of(words: &[u64]) -> Option<OwnStamps>
    requires { length words.now ≡ 4 }
    ensures text { IfSome result (λ s. words.now ≡ words_of s) }
    ensures read { (s : OwnStamps) → words.now ≡ words_of s → result ≡ Some s }
{
    let mut numbers = [0; SAVED_WORDS];
    numbers.copy_from_slice(words);
    OwnStamps::restore(&numbers)
}

/// Writes the bytes of stamps.
fn store_stamps(stamps: &OwnStamps, bytes: &mut [u8])
    requires { length bytes.old ≡ 32 }
    ensures { AreStamps bytes.new stamps.now }
{
    write_words(&stamps.save(), bytes);
}

/// Makes the stamps at a voter that told nothing.
pub fn new(stamps: &mut [u8]) -> Result<(), Refusal>
    ensures made { StampsAreMade stamps.old stamps.new (returned result) }
    ensures refused { OnErr result (stamps.new ≡ stamps.old) }
{
    if stamps.len() != STAMPS_BYTES {
        return Err(Refusal::BadState);
    }
    store_stamps(&OwnStamps::new(), stamps);
    Ok(())
}

/// Takes a run of the voter, of which any voter says that it began.
pub fn renew(stamps: &mut [u8], run: u64) -> Result<(), Refusal>
    ensures renewed { StampsAreRenewed run stamps.old stamps.new (returned result) }
    ensures refused { OnErr result (stamps.new ≡ stamps.old) }
{
    let mut it = load_stamps(stamps)?;
    it.renew(run);
    store_stamps(&it, stamps);
    Ok(())
}

/// Forgets what the voter told, and not its run.
pub fn forget(stamps: &mut [u8]) -> Result<(), Refusal>
    ensures forgotten { StampsAreForgotten stamps.old stamps.new (returned result) }
    ensures refused { OnErr result (stamps.new ≡ stamps.old) }
{
    let mut it = load_stamps(stamps)?;
    it.forget();
    store_stamps(&it, stamps);
    Ok(())
}

/// Takes what the voter tells in this run: the base of the session's stamps, and up to which they are reserved.
pub fn hears(stamps: &mut [u8], run: u64, base: u64, reserved: u64) -> Result<(), Refusal>
    ensures hears { StampsHear run base reserved stamps.old stamps.new (returned result) }
    ensures refused { OnErr result (stamps.new ≡ stamps.old) }
{
    let mut it = load_stamps(stamps)?;
    it.hears(run, base, reserved);
    store_stamps(&it, stamps);
    Ok(())
}

/// Writes 1 if the session may ask the voter under this stamp, and 0 if not.
pub fn have(stamps: &[u8], stamp: u64, yes: &mut u32) -> Result<(), Refusal>
    ensures have { StampsAreOwn stamps.now stamp yes.new (returned result) }
    ensures refused { OnErr result (yes.new ≡ yes.old) }
{
    *yes = u32::from(load_stamps(stamps)?.has(stamp));
    Ok(())
}
