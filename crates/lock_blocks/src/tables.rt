//! What the calls of a table of rows do: how a session stands, and whether a grant may be let go.
ghost use Rattle.std.specs.Prelude.{◌≡◌, ◌<◌, ◌≤◌, ℕ, IfErr, IfOk, IsErr, None, OnErr, Option, Some};
ghost use Rattle.blocks.specs.Numbers.{refused, returned};
ghost use Rattle.blocks.specs.Tables.{AreRows};
ghost use Rattle.numbers.specs.Bounds.{max_clients};
ghost use Rattle.sessions.specs.Rows.{Row};
ghost use Rattle.lock_blocks.specs.LockSteps.{TableJudges, TableLetsGo, number_of_standing};

use blocks::Refusal;
use blocks::rows::row_in;
use lock_node::{Standing, may_let_go, standing_of};
use numbers::MAX_CLIENTS;
use session_rows::SessionRow;

/// Returns the number of a standing.
fn number_of_standing(standing: Standing) -> u32
    ensures { result ≡ number_of_standing standing }
{
    match standing {
        Standing::Known => 0,
        Standing::Unknown => 1,
        Standing::Over => 2,
    }
}

/// Returns the row of a number in a table. Fails with `BadArgument` if there is no such number, and
/// with `BadState` if it has no row.
fn row_of(table: &[u8], number: u8) -> Result<SessionRow, Refusal>
    ensures bad_argument { max_clients ≤ number → IfErr result (λ r. r ≡ Refusal.BadArgument) × IsErr result }
    ensures read { IfOk result (λ row. (rows : ℕ → Option Row) → AreRows table.now rows → Some row ≡ rows number) }
    ensures refused { number < max_clients → IfErr result (λ r. (r ≡ Refusal.BadState)
        × ((rows : ℕ → Option Row) → AreRows table.now rows → None ≡ rows number)) }
{
    if usize::from(number) >= MAX_CLIENTS {
        return Err(Refusal::BadArgument);
    }
    match row_in(table, number) {
        Some(row) => Ok(row),
        None => Err(Refusal::BadState),
    }
}

/// Writes how a session stands at a voter, by the row of its number, 0 to 63: 0 if it is known, 1
/// if it may claim the number, and 2 if it is over.
pub fn judge(
    table: &[u8],
    number: u8,
    session: u128,
    epoch: u64,
    standing: &mut u32,
) -> Result<(), Refusal>
    ensures bad_argument { max_clients ≤ number → returned result ≡ refused Refusal.BadArgument }
    ensures judges { number < max_clients → TableJudges table.now number session epoch standing.new (returned result) }
    ensures refused { OnErr result (standing.new ≡ standing.old) }
{
    let row = row_of(table, number)?;
    *standing = number_of_standing(standing_of(&row, session, epoch));
    Ok(())
}

/// Writes 1 if the grant of a request of this stamp may be let go, by the row of its number, 0 to
/// 63, and 0 if not.
pub fn lets_go(
    table: &[u8],
    number: u8,
    stamp: u64,
    is_silent: bool,
    ended_elsewhere: bool,
    yes: &mut u32,
) -> Result<(), Refusal>
    ensures bad_argument { max_clients ≤ number → returned result ≡ refused Refusal.BadArgument }
    ensures lets_go { number < max_clients → TableLetsGo table.now number stamp is_silent ended_elsewhere yes.new (returned result) }
    ensures refused { OnErr result (yes.new ≡ yes.old) }
{
    let row = row_of(table, number)?;
    *yes = u32::from(may_let_go(&row, is_silent, ended_elsewhere, stamp));
    Ok(())
}
