//! The row of a client number as bytes, and what its calls do.
ghost use Rattle.std.specs.Prelude.{◌≡◌, ℕ, IfErr, IfOk, IfSome, OnErr, Option, Some, length};
ghost use Rattle.session_rows.specs.Saved.{IsBounded, words_of};
ghost use Rattle.sessions.specs.Rows.{Row};
ghost use Rattle.blocks.specs.Bytes.{IsNoRow, IsRow};
ghost use Rattle.blocks.specs.Numbers.{returned};
ghost use Rattle.blocks.specs.Tables.{AreRows, IsReadAs, row_at};
ghost use Rattle.blocks.specs.RowSteps.{RowClaims, RowCloses, RowDrops, RowEvicts, RowIsMade, RowLearns, RowRelearns, RowReserves, RowShows, RowTakes, RowTakesBack};

use crate::refusal::Refusal;
use arrayvec::ArrayVec;
use lost_rows::relearn;
use numbers::MAX_LIMIT;
use session_rows::{Bounds, Claim, Heard, SAVED_WORDS, SessionRow};
use words::{read_words, write_words};

/// How many bytes a saved row has.
pub const ROW_BYTES: usize = 48;

/// Returns the row that was saved as these bytes. Fails with `BadState` if there is none.
fn load_row(bytes: &[u8]) -> Result<SessionRow, Refusal>
    ensures loaded { IfOk result (IsRow bytes.now) }
    // It is the only one.
    ensures only { IfOk result (λ r. (s : Row) → IsRow bytes.now s → s ≡ r) }
    ensures len { IfOk result (λ _. length bytes.now ≡ 48) }
    ensures refused { IfErr result (λ r. (r ≡ Refusal.BadState) × IsNoRow bytes.now) }
{
    if bytes.len() != ROW_BYTES {
        return Err(Refusal::BadState);
    }
    let mut words = ArrayVec::<u64, SAVED_WORDS>::new();
    read_words(bytes, &mut words);
    match row_of(words.as_slice()) {
        Some(row) => Ok(row),
        None => Err(Refusal::BadState),
    }
}

/// Returns the row with these numbers. `None` if they are not those of a row.
fn row_of(words: &[u64]) -> Option<SessionRow>
    requires { length words.now ≡ 6 }
    ensures bounded { IfSome result IsBounded }
    ensures text { IfSome result (λ r. words.now ≡ words_of r) }
    ensures read { (r : Row) → IsBounded r → words.now ≡ words_of r → result ≡ Some r }
{
    let mut numbers = [0; SAVED_WORDS];
    numbers.copy_from_slice(words);
    SessionRow::restore(&numbers)
}

/// Returns the row of a number in a table: 48 bytes for each number, one after the other. `None` if its bytes
/// are those of no row, or are not there.
pub fn row_in(table: &[u8], number: u8) -> Option<SessionRow>
    ensures read { IsReadAs (row_at table.now number) result }
    // So there is one answer, whatever the bytes of the other numbers are.
    ensures only { (rows : ℕ → Option Row) → AreRows table.now rows → result ≡ rows number }
{
    let start = ROW_BYTES * usize::from(number);
    if table.len() < start + ROW_BYTES {
        return None;
    }
    match load_row(&table[start..start + ROW_BYTES]) {
        Ok(row) => Some(row),
        Err(_) => None,
    }
}

/// Writes the bytes of a row.
fn store_row(row: &SessionRow, bytes: &mut [u8])
    requires { length bytes.old ≡ 48 }
    ensures { IsRow bytes.new row.now }
{
    write_words(&row.save(), bytes);
}

/// Makes the row of a number that nobody has. Its epochs and its stamps are above this floor.
pub fn new(epoch: u64, stamp: u64, row: &mut [u8]) -> Result<(), Refusal>
    ensures made { RowIsMade epoch stamp row.old row.new (returned result) }
    ensures refused { OnErr result (row.new ≡ row.old) }
{
    if stamp > MAX_LIMIT {
        return Err(Refusal::BadArgument);
    }
    if row.len() != ROW_BYTES {
        return Err(Refusal::BadState);
    }
    store_row(&SessionRow::new(epoch, stamp), row);
    Ok(())
}

/// Gives the number to a session that claims it, with its first stamps.
pub fn claim(row: &mut [u8], claim: Claim, is_silent: bool, bounds: Bounds) -> Result<(), Refusal>
    ensures claims { RowClaims row.old claim is_silent bounds row.new (returned result) }
    ensures refused { OnErr result (row.new ≡ row.old) }
{
    let mut it = load_row(row)?;
    it.claim(claim, is_silent, bounds)?;
    store_row(&it, row);
    Ok(())
}

/// Reserves stamps up to this one for the session that has the number, none above `most`.
pub fn reserve(
    row: &mut [u8],
    session: u128,
    epoch: u64,
    stamp: u64,
    most: u64,
) -> Result<(), Refusal>
    ensures reserves { RowReserves row.old session epoch stamp most row.new (returned result) }
    ensures refused { OnErr result (row.new ≡ row.old) }
{
    let mut it = load_row(row)?;
    it.reserve(session, epoch, stamp, most)?;
    store_row(&it, row);
    Ok(())
}

/// Frees the number, which its session gives back.
pub fn close(row: &mut [u8], session: u128, epoch: u64) -> Result<(), Refusal>
    ensures closes { RowCloses row.old session epoch row.new (returned result) }
    ensures refused { OnErr result (row.new ≡ row.old) }
{
    let mut it = load_row(row)?;
    it.close(session, epoch)?;
    store_row(&it, row);
    Ok(())
}

/// Frees the number, as the session takes its claim back.
pub fn take_back(row: &mut [u8], session: u128, epoch: u64) -> Result<(), Refusal>
    ensures back { RowTakesBack row.old session epoch row.new (returned result) }
    ensures refused { OnErr result (row.new ≡ row.old) }
{
    let mut it = load_row(row)?;
    it.take_back(session, epoch)?;
    store_row(&it, row);
    Ok(())
}

/// Ends the session that has the number: the number is nobody's, under the next epoch.
pub fn evict(row: &mut [u8]) -> Result<(), Refusal>
    ensures evicts { RowEvicts row.old row.new (returned result) }
    ensures refused { OnErr result (row.new ≡ row.old) }
{
    let mut it = load_row(row)?;
    it.evict()?;
    store_row(&it, row);
    Ok(())
}

/// Drops the row: the number is nobody's, above this floor and above what the row had.
pub fn drop_to(row: &mut [u8], epoch: u64, stamp: u64) -> Result<(), Refusal>
    ensures drops { RowDrops row.old epoch stamp row.new (returned result) }
    ensures refused { OnErr result (row.new ≡ row.old) }
{
    if stamp > MAX_LIMIT {
        return Err(Refusal::BadArgument);
    }
    let mut it = load_row(row)?;
    it.drop_to(epoch, stamp);
    store_row(&it, row);
    Ok(())
}

/// Learns another voter's row of the number.
pub fn learn(row: &mut [u8], other: &[u8], heard: Heard) -> Result<(), Refusal>
    ensures learns { RowLearns row.old other.now heard row.new (returned result) }
    ensures refused { OnErr result (row.new ≡ row.old) }
{
    let mut it = load_row(row)?;
    let there = load_row(other)?;
    it.learn(&there, heard);
    store_row(&it, row);
    Ok(())
}

/// Learns another voter's row of the number, after the state of this voter was lost.
pub fn relearns(row: &mut [u8], other: &[u8], heard: Heard) -> Result<(), Refusal>
    ensures relearns { RowRelearns row.old other.now heard row.new (returned result) }
    ensures refused { OnErr result (row.new ≡ row.old) }
{
    let mut it = load_row(row)?;
    let there = load_row(other)?;
    relearn(&mut it, &there, heard);
    store_row(&it, row);
    Ok(())
}

/// Writes 1 if the voter takes a REQUEST of the session, under this epoch and stamp, and 0 if not.
pub fn takes(
    row: &[u8],
    session: u128,
    epoch: u64,
    stamp: u64,
    yes: &mut u32,
) -> Result<(), Refusal>
    ensures takes { RowTakes row.now session epoch stamp yes.new (returned result) }
    ensures refused { OnErr result (yes.new ≡ yes.old) }
{
    let it = load_row(row)?;
    *yes = u32::from(it.takes(session, epoch, stamp));
    Ok(())
}

/// Writes the six numbers of a row.
pub fn shows(
    row: &[u8],
    epoch: &mut u64,
    base: &mut u64,
    reserved: &mut u64,
    held: &mut u64,
    upper: &mut u64,
    lower: &mut u64,
) -> Result<(), Refusal>
    ensures shows { RowShows row.now epoch.new base.new reserved.new held.new upper.new lower.new (returned result) }
    ensures refused { OnErr result ((epoch.new ≡ epoch.old) × (base.new ≡ base.old) × (reserved.new ≡ reserved.old)
        × (held.new ≡ held.old) × (upper.new ≡ upper.old) × (lower.new ≡ lower.old)) }
{
    let [a, b, c, d, e, f] = load_row(row)?.save();
    *epoch = a;
    *base = b;
    *reserved = c;
    *held = d;
    *upper = e;
    *lower = f;
    Ok(())
}
