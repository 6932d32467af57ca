//! The calls of the row of a client number.
ghost use Rattle.std.specs.Prelude.{◌≡◌, ◌≢◌};
ghost use Rattle.blocks.specs.Numbers.{done};
ghost use Rattle.blocks.specs.RowSteps.{RowClaims, RowCloses, RowDrops, RowEvicts, RowIsMade, RowLearns, RowRelearns, RowReserves, RowShows, RowTakes, RowTakesBack, is_yes, named};

use blocks::{number_of, rows};
use session_rows::{Bounds, Claim, Heard, joined};

/// Makes the row of a number that nobody has, in 48 bytes. Its epochs and its stamps are above this floor.
#[unsafe(no_mangle)]
pub extern "C" fn qlock_row_new(epoch: u64, stamp: u64, row: &mut [u8]) -> i32
    // A call that is refused writes nothing.
    ensures refused { result ≢ done → row.new ≡ row.old }
    ensures made { RowIsMade epoch stamp row.old row.new result }
{
    number_of(rows::new(epoch, stamp, row))
}

/// Gives the number to a session that claims it, with its first stamps. The claim of the session that has it
/// changes nothing.
#[unsafe(no_mangle)]
pub extern "C" fn qlock_row_claim(
    row: &mut [u8],
    upper: u64,
    lower: u64,
    epoch: u64,
    stamps: u64,
    is_silent: u32,
    epochs: u64,
    most: u64,
) -> i32
    ensures refused { result ≢ done → row.new ≡ row.old }
    ensures claims { RowClaims row.old (record { session = named upper lower; epoch = epoch; stamps = stamps }) (is_yes is_silent)
        (record { epochs = epochs; stamp = most }) row.new result }
{
    let session = joined(upper, lower);
    let wanted = Claim {
        session,
        epoch,
        stamps,
    };
    let bounds = Bounds {
        epochs,
        stamp: most,
    };
    number_of(rows::claim(row, wanted, is_silent != 0, bounds))
}

/// Reserves stamps up to this one for the session that has the number, none above `most`.
#[unsafe(no_mangle)]
pub extern "C" fn qlock_row_reserve(
    row: &mut [u8],
    upper: u64,
    lower: u64,
    epoch: u64,
    stamp: u64,
    most: u64,
) -> i32
    ensures refused { result ≢ done → row.new ≡ row.old }
    ensures reserves { RowReserves row.old (named upper lower) epoch stamp most row.new result }
{
    number_of(rows::reserve(row, joined(upper, lower), epoch, stamp, most))
}

/// Frees the number, which its session gives back.
#[unsafe(no_mangle)]
pub extern "C" fn qlock_row_close(row: &mut [u8], upper: u64, lower: u64, epoch: u64) -> i32
    ensures refused { result ≢ done → row.new ≡ row.old }
    ensures closes { RowCloses row.old (named upper lower) epoch row.new result }
{
    number_of(rows::close(row, joined(upper, lower), epoch))
}

/// Frees the number, as the session takes its claim back: no quorum granted it. Another session may claim the epoch.
#[unsafe(no_mangle)]
pub extern "C" fn qlock_row_take_back(row: &mut [u8], upper: u64, lower: u64, epoch: u64) -> i32
    ensures refused { result ≢ done → row.new ≡ row.old }
    ensures back { RowTakesBack row.old (named upper lower) epoch row.new result }
{
    number_of(rows::take_back(row, joined(upper, lower), epoch))
}

/// Ends the session that has the number: the number is nobody's, under the next epoch.
#[unsafe(no_mangle)]
pub extern "C" fn qlock_row_evict(row: &mut [u8]) -> i32
    ensures refused { result ≢ done → row.new ≡ row.old }
    ensures evicts { RowEvicts row.old row.new result }
{
    number_of(rows::evict(row))
}

/// Drops the row: the number is nobody's, and its epochs and stamps are above this floor, and above what the
/// row had.
#[unsafe(no_mangle)]
pub extern "C" fn qlock_row_drop(row: &mut [u8], epoch: u64, stamp: u64) -> i32
    ensures refused { result ≢ done → row.new ≡ row.old }
    ensures drops { RowDrops row.old epoch stamp row.new result }
{
    number_of(rows::drop_to(row, epoch, stamp))
}

/// Returns whose messages were heard.
fn heard_of(here: u32, there: u32) -> Heard
    ensures { result ≡ record { here = is_yes here; there = is_yes there } }
{
    Heard {
        here: here != 0,
        there: there != 0,
    }
}

/// Learns another voter's row of the number.
#[unsafe(no_mangle)]
pub extern "C" fn qlock_row_learn(
    row: &mut [u8],
    other: &[u8],
    heard_here: u32,
    heard_there: u32,
) -> i32
    ensures refused { result ≢ done → row.new ≡ row.old }
    ensures learns { RowLearns row.old other.now (record { here = is_yes heard_here; there = is_yes heard_there }) row.new result }
{
    number_of(rows::learn(row, other, heard_of(heard_here, heard_there)))
}

/// Learns another voter's row of the number, after the state of this voter was lost.
#[unsafe(no_mangle)]
pub extern "C" fn qlock_row_relearn(
    row: &mut [u8],
    other: &[u8],
    heard_here: u32,
    heard_there: u32,
) -> i32
    ensures refused { result ≢ done → row.new ≡ row.old }
    ensures relearns { RowRelearns row.old other.now (record { here = is_yes heard_here; there = is_yes heard_there }) row.new result }
{
    number_of(rows::relearns(row, other, heard_of(heard_here, heard_there)))
}

/// Writes 1 if the voter takes a REQUEST of the session, under this epoch and stamp, and 0 if not.
#[unsafe(no_mangle)]
pub extern "C" fn qlock_row_takes(
    row: &[u8],
    upper: u64,
    lower: u64,
    epoch: u64,
    stamp: u64,
    yes: &mut u32,
) -> i32
    ensures refused { result ≢ done → yes.new ≡ yes.old }
    ensures takes { RowTakes row.now (named upper lower) epoch stamp yes.new result }
{
    number_of(rows::takes(row, joined(upper, lower), epoch, stamp, yes))
}

/// Writes the numbers of a row: its epoch, its base, its highest reserved stamp, and 1 and the halves of the
/// session's name. If nobody has the number it writes 0, or 2 if the epoch may be claimed again, and twice 0.
#[unsafe(no_mangle)]
pub extern "C" fn qlock_row_shows(
    row: &[u8],
    epoch: &mut u64,
    base: &mut u64,
    reserved: &mut u64,
    held: &mut u64,
    upper: &mut u64,
    lower: &mut u64,
) -> i32
    ensures refused { result ≢ done → (epoch.new ≡ epoch.old) × (base.new ≡ base.old) × (reserved.new ≡ reserved.old)
        × (held.new ≡ held.old) × (upper.new ≡ upper.old) × (lower.new ≡ lower.old) }
    ensures shows { RowShows row.now epoch.new base.new reserved.new held.new upper.new lower.new result }
{
    number_of(rows::shows(row, epoch, base, reserved, held, upper, lower))
}
