//! The law of rows that change by these calls alone.
ghost use Rattle.std.specs.Prelude.{List};
ghost use Rattle.sessions.specs.Rows.{AreOnce, Row, begin};
ghost use Rattle.session_rows.specs.Runs.{Turn, after_turns};

use sessions::voters_own_stamps;

/// A voter whose row changes by these calls takes the REQUESTs of a stamp from one session, under one epoch,
/// whatever comes, and whenever it saves and crashes. Of what it took this leaves out what it forgot in a crash.
pub fn rows_own_stamps()
    ensures { (row : Row) (turns : List Turn) → AreOnce (after_turns (begin row) turns).took }
{
    voters_own_stamps();
}
