//! The calls of the lease clock of a voter.
ghost use Rattle.std.specs.Prelude.{◌≡◌, ◌≢◌};
ghost use Rattle.blocks.specs.ClockSteps.{ClockIsMade, ClockIsSilent, ClockReturns, ClockSends, ClockShows, ClockShowsTime};
ghost use Rattle.blocks.specs.Numbers.{done};

use blocks::{clocks, number_of};

/// Makes a clock that begins now, of which a marker leaves each period, in 304 bytes.
#[unsafe(no_mangle)]
pub extern "C" fn qlock_clock_new(period: u64, now: u64, clock: &mut [u8]) -> i32
    // A call that is refused writes nothing.
    ensures refused { result ≢ done → clock.new ≡ clock.old }
    ensures made { ClockIsMade period now clock.old clock.new result }
{
    number_of(clocks::new(period, now, clock))
}

/// Notes that a marker leaves now if one is due. Writes its number, and 0 if none is due.
#[unsafe(no_mangle)]
pub extern "C" fn qlock_clock_send(clock: &mut [u8], now: u64, number: &mut u64) -> i32
    ensures refused { result ≢ done → (clock.new ≡ clock.old) × (number.new ≡ number.old) }
    ensures sends { ClockSends clock.old now clock.new number.new result }
{
    number_of(clocks::send(clock, now, number))
}

/// Notes that the marker of this number came back. One that is not under way changes nothing.
#[unsafe(no_mangle)]
pub extern "C" fn qlock_clock_returns(clock: &mut [u8], number: u64) -> i32
    ensures refused { result ≢ done → clock.new ≡ clock.old }
    ensures returns { ClockReturns clock.old number clock.new result }
{
    number_of(clocks::returns(clock, number))
}

/// Writes the reading at which a session is heard that is heard now.
#[unsafe(no_mangle)]
pub extern "C" fn qlock_clock_at(clock: &[u8], now: u64, reading: &mut u64) -> i32
    ensures refused { result ≢ done → reading.new ≡ reading.old }
    ensures shows { ClockShowsTime clock.now now reading.new result }
{
    number_of(clocks::at(clock, now, reading))
}

/// Writes the reading up to which all that was sent was heard, and when the newest marker left that
/// came back.
#[unsafe(no_mangle)]
pub extern "C" fn qlock_clock_shows(clock: &[u8], reading: &mut u64, left: &mut u64) -> i32
    ensures refused { result ≢ done → (reading.new ≡ reading.old) × (left.new ≡ left.old) }
    ensures shows { ClockShows clock.now reading.new left.new result }
{
    number_of(clocks::shows(clock, reading, left))
}

/// Writes 1 if a session that was heard at this reading is silent for a TTL, and 0 if not.
#[unsafe(no_mangle)]
pub extern "C" fn qlock_clock_is_silent(clock: &[u8], heard: u64, ttl: u64, yes: &mut u32) -> i32
    ensures refused { result ≢ done → yes.new ≡ yes.old }
    ensures silent { ClockIsSilent clock.now heard ttl yes.new result }
{
    number_of(clocks::is_silent(clock, heard, ttl, yes))
}
