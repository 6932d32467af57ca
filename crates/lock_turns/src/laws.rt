//! Laws: calls of a lock at a voter are turns of the law on who works.
ghost use Rattle.std.specs.Prelude.{◌≡◌, ◌<◌, ℕ, ℤ, Bool, List, Option, Some, true, false};
ghost use Rattle.blocks.specs.Numbers.{done};
ghost use Rattle.blocks.specs.Tables.{AreRows};
ghost use Rattle.lock_blocks.specs.Bytes.{IsVoter};
ghost use Rattle.lock_blocks.specs.Lines.{IsToVoter};
ghost use Rattle.lock_blocks.specs.LockSteps.{LockEndsQuiet, LockLetsGo, LockReminds, LockTakes};
ghost use Rattle.lock_blocks.specs.declared.locks.LockShown.{LockShown};
ghost use Rattle.lock_node.specs.Letters.{may_say};
ghost use Rattle.lock_turns.specs.Calls.{AreOf, IsSoundSince, Tells, place_of};
ghost use Rattle.message.specs.declared.message.ToVoter.{ToVoter};
ghost use Rattle.quiet_time.specs.declared.since_start.SinceStart.{SinceStart};
ghost use Rattle.quiet_time.specs.Quiet.{end_of, is_old};
ghost use Rattle.sessions.specs.Rows.{Row};
ghost use Rattle.voter.specs.declared.state.Grant.{Grant};
ghost use Rattle.voter.specs.declared.state.VoterState.{VoterState};
ghost use Rattle.voter.specs.Steps.{Outcome};
ghost use Rattle.working_votes.specs.Turns.{Evicts, Meets, Place, Reminds, is_doubtful, is_put_off, place_after, replies_by, said_by, said_in};

/// A line that a session may say is a message that comes to the voter: if the call is done, the bytes, and what was said since the start,
/// are those of the voter after that turn. If the message is not put off, the lines of what somebody hears of it were written.
pub fn what_is_taken_is_a_turn()
    ensures { (table before : List ℕ) (since : SinceStart) (quiet inside : Bool) (session epoch : ℕ) (line after : List ℕ) (since_after : SinceStart) (out out_after : List ℕ) (written : ℕ) (shown_before shown : LockShown) (result : ℤ)
        (vote : VoterState) (m : ToVoter) (rows : ℕ → Option Row) (row : Row) (voter : ℕ)
        → LockTakes table before since quiet inside session epoch line after since_after out out_after written shown_before shown result
        → IsVoter before vote → IsToVoter line vote.id m → AreRows table rows → rows m.client ≡ Some row → may_say row session epoch m.body ≡ true
        → result ≡ done
        → AreOf after since_after (place_after (place_of vote since quiet) (Meets voter m inside))
        × (is_put_off (place_of vote since quiet) m inside ≡ false
        → Tells rows (place_after (place_of vote since quiet) (Meets voter m inside)) (replies_by false (place_of vote since quiet) m) out out_after written) }
{}

/// To let a grant go is a turn: if the call is done, the bytes are those of the voter that evicted the grant of this number.
pub fn what_is_let_go_is_a_turn()
    ensures { (table before : List ℕ) (grant client : ℕ) (after out out_after : List ℕ) (written : ℕ) (shown : LockShown) (result : ℤ)
        (vote : VoterState) (since : SinceStart) (quiet : Bool) (rows : ℕ → Option Row) (voter : ℕ)
        → LockLetsGo table before grant client after out out_after written shown result
        → IsVoter before vote → AreRows table rows → result ≡ done
        → AreOf after since (place_after (place_of vote since quiet) (Evicts voter grant))
        × Tells rows (place_after (place_of vote since quiet) (Evicts voter grant)) (said_in (λ other. place_of vote since quiet) (Evicts voter grant)) out out_after written }
{}

/// To end the quiet time of a lock is a turn if its grant is doubtful: that is evicted. If not, the bytes are those of the same voter.
pub fn quiet_times_end_by_a_turn()
    ensures evicts { (table before : List ℕ) (since : SinceStart) (client : ℕ) (after out out_after : List ℕ) (written : ℕ) (shown : LockShown) (result : ℤ)
        (vote : VoterState) (g : Grant) (rows : ℕ → Option Row) (voter : ℕ)
        → LockEndsQuiet table before since client after out out_after written shown result
        → IsVoter before vote → AreRows table rows → result ≡ done → vote.held ≡ Some g → is_doubtful (place_of vote since true) ≡ true
        → AreOf after since (place_after (place_of vote since true) (Evicts voter g.grant))
        × Tells rows (place_after (place_of vote since true) (Evicts voter g.grant)) (said_in (λ other. place_of vote since true) (Evicts voter g.grant)) out out_after written }
    ensures stays { (table before : List ℕ) (since : SinceStart) (client : ℕ) (after out out_after : List ℕ) (written : ℕ) (shown : LockShown) (result : ℤ)
        (vote : VoterState) (rows : ℕ → Option Row)
        → LockEndsQuiet table before since client after out out_after written shown result
        → IsVoter before vote → AreRows table rows → result ≡ done → is_doubtful (place_of vote since true) ≡ false
        → AreOf after since (place_of vote since true) }
{}

/// After that nothing is doubtful, so the quiet time may end once it lasted for long enough.
pub fn nothing_is_doubtful_then()
    ensures { (vote : VoterState) (since : SinceStart) (o : Outcome) → IsSoundSince vote since → end_of since vote vote.held ≡ Some o
        → is_doubtful (place_of o.state since true) ≡ false }
{}

/// A reminder is a turn, if the grant is not doubtful: the lines of what somebody hears of it are written.
pub fn a_reminder_is_a_turn()
    ensures { (table state out out_after : List ℕ) (written : ℕ) (result : ℤ) (vote : VoterState) (since : SinceStart) (quiet : Bool) (rows : ℕ → Option Row) (voter : ℕ)
        → LockReminds table state out out_after written result
        → IsVoter state vote → AreRows table rows → result ≡ done → is_doubtful (place_of vote since quiet) ≡ false
        → Tells rows (place_of vote since quiet) (said_in (λ other. place_of vote since quiet) (Reminds voter)) out out_after written }
{}
