//! What a voter learns whose state was lost.
ghost use Rattle.std.specs.Prelude.{◌≡◌, ◌≤◌};
ghost use Rattle.numbers.specs.Bounds.{max_limit};
ghost use Rattle.lost_rows.specs.Relearned.{is_owned_by, lifted, relearned};

use session_rows::{Heard, SessionRow};

/// Learns another voter's row of the number, after the state of this voter was lost. Whatever stamps are spent by either row are spent
/// afterwards ([`crate::what_is_relearned_is_kept`]).
///
/// The row follows a newer one whose session was heard, or if its own was not. It is nobody's if two sessions that were heard have its
/// epoch. One that has the number in both rows, under one epoch, goes on above both bases. Else all stamps of whoever has it here are
/// above what is reserved there.
pub fn relearn(row: &mut SessionRow, other: &SessionRow, heard: Heard)
    ensures { row.new ≡ relearned row.old other.now heard }
{
    if row.gives_way(other, heard) || row.is_split(other, heard) {
        row.learn(other, heard);
    } else if is_owned_by(other, row.session(), row.epoch()) {
        lift(row, other.base(), other.reserved());
    } else {
        lift(row, other.reserved(), other.reserved());
    }
}

/// Returns whether this is a session, and has the number by the row, under the epoch.
fn is_owned_by(row: &SessionRow, session: Option<u128>, epoch: u64) -> bool
    ensures { result ≡ is_owned_by row.now session epoch }
{
    match session {
        Some(session) => row.owns(session, epoch),
        None => false,
    }
}

/// All stamps of whoever has the number are above this base from now on, and up to the stamp they are reserved.
fn lift(row: &mut SessionRow, base: u64, stamp: u64)
    requires sound { base ≤ stamp }
    requires few { stamp ≤ max_limit }
    ensures { row.new ≡ lifted row.old base stamp }
{
    let [epoch, least, reserved, held, upper, lower] = row.save();
    let words = [
        epoch,
        least.max(base),
        reserved.max(stamp),
        held,
        upper,
        lower,
    ];
    if let Some(lifted) = SessionRow::restore(&words) {
        *row = lifted;
    }
}
