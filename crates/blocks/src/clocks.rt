//! The lease clock of a voter as bytes, and what its calls do.
ghost use Rattle.std.specs.Prelude.{◌≡◌, IfErr, IfOk, OnErr, length};
ghost use Rattle.lease_clock.specs.Clocks.{Clock};
ghost use Rattle.blocks.specs.Bytes.{IsClock, IsNoClock};
ghost use Rattle.blocks.specs.ClockSteps.{ClockIsMade, ClockIsSilent, ClockReturns, ClockSends, ClockShows, ClockShowsTime};
ghost use Rattle.blocks.specs.Numbers.{returned};

use crate::refusal::Refusal;
use arrayvec::ArrayVec;
use lease_clock::{LeaseClock, SAVED_WORDS};
use words::{read_words, write_words};

/// How many bytes a saved lease clock has.
pub const CLOCK_BYTES: usize = 304;

/// Returns the clock that was saved as these bytes. Fails with `BadState` if there is none.
fn load_clock(bytes: &[u8]) -> Result<LeaseClock, Refusal>
    ensures loaded { IfOk result (IsClock bytes.now) }
    // It is the only one.
    ensures only { IfOk result (λ c. (d : Clock) → IsClock bytes.now d → d ≡ c) }
    ensures len { IfOk result (λ _. length bytes.now ≡ 304) }
    ensures refused { IfErr result (λ r. (r ≡ Refusal.BadState) × IsNoClock bytes.now) }
{
    if bytes.len() != CLOCK_BYTES {
        return Err(Refusal::BadState);
    }
    let mut words = ArrayVec::<u64, SAVED_WORDS>::new();
    read_words(bytes, &mut words);
    match LeaseClock::restore(words.as_slice()) {
        Some(clock) => Ok(clock),
        None => Err(Refusal::BadState),
    }
}

/// Writes the bytes of a clock.
fn store_clock(clock: &LeaseClock, bytes: &mut [u8])
    requires { length bytes.old ≡ 304 }
    ensures { IsClock bytes.new clock.now }
{
    let mut words = ArrayVec::new();
    clock.save(&mut words);
    write_words(words.as_slice(), bytes);
}

/// Makes a clock that begins now, of which a marker leaves each period.
pub fn new(period: u64, now: u64, clock: &mut [u8]) -> Result<(), Refusal>
    ensures made { ClockIsMade period now clock.old clock.new (returned result) }
    ensures refused { OnErr result (clock.new ≡ clock.old) }
{
    if clock.len() != CLOCK_BYTES {
        return Err(Refusal::BadState);
    }
    store_clock(&LeaseClock::new(period, now), clock);
    Ok(())
}

/// Notes that a marker leaves now if one is due. Writes its number, and 0 if none is due.
pub fn send(clock: &mut [u8], now: u64, number: &mut u64) -> Result<(), Refusal>
    ensures sends { ClockSends clock.old now clock.new number.new (returned result) }
    ensures refused { OnErr result ((clock.new ≡ clock.old) × (number.new ≡ number.old)) }
{
    let mut it = load_clock(clock)?;
    *number = it.send(now).unwrap_or(0);
    store_clock(&it, clock);
    Ok(())
}

/// Notes that the marker of this number came back.
pub fn returns(clock: &mut [u8], number: u64) -> Result<(), Refusal>
    ensures returns { ClockReturns clock.old number clock.new (returned result) }
    ensures refused { OnErr result (clock.new ≡ clock.old) }
{
    let mut it = load_clock(clock)?;
    it.returns(number);
    store_clock(&it, clock);
    Ok(())
}

/// Writes the reading at which a session is heard that is heard now.
pub fn at(clock: &[u8], now: u64, reading: &mut u64) -> Result<(), Refusal>
    ensures shows { ClockShowsTime clock.now now reading.new (returned result) }
    ensures refused { OnErr result (reading.new ≡ reading.old) }
{
    *reading = load_clock(clock)?.at(now);
    Ok(())
}

/// Writes the reading up to which all that was sent was heard, and when the newest marker left that
/// came back.
pub fn shows(clock: &[u8], reading: &mut u64, left: &mut u64) -> Result<(), Refusal>
    ensures shows { ClockShows clock.now reading.new left.new (returned result) }
    ensures refused { OnErr result ((reading.new ≡ reading.old) × (left.new ≡ left.old)) }
{
    let it = load_clock(clock)?;
    *reading = it.reading();
    *left = it.newest_left();
    Ok(())
}

/// Writes 1 if a session that was heard at this reading is silent for a TTL, and 0 if not.
pub fn is_silent(clock: &[u8], heard: u64, ttl: u64, yes: &mut u32) -> Result<(), Refusal>
    ensures silent { ClockIsSilent clock.now heard ttl yes.new (returned result) }
    ensures refused { OnErr result (yes.new ≡ yes.old) }
{
    *yes = u32::from(load_clock(clock)?.is_silent(heard, ttl));
    Ok(())
}
