//! Laws: what holds of those that work.
ghost use Rattle.std.specs.Prelude.{◌≡◌, ◌≤◌, ◌+◌, ◌*◌, ◌∷◌, ◌++◌, ℕ, List, [], None, Some, true, false};
ghost use Rattle.std.specs.List.{AllByRecursion};
ghost use Rattle.working.specs.Events.{DoMeet, Event, HasVote, IsRated, Works, after_all, begins};
ghost use Rattle.working.specs.Example.{eight_works, is_kept, is_let_go, pairs, seven_works, start};
ghost use Rattle.working.specs.Sessions.{is_working};
ghost use Rattle.working.specs.Voters.{grant_of};

/// Who works has its votes: the grant of each voter of its quorum is its own, and current. This is so whatever messages
/// are late, lost, repeated or out of order, and whenever voters crash and restart, from what they saved or without it.
///
/// The bound is b * (lease + stop) ≤ a * ttl. By a voter's clock, `ttl` is for how long nothing came of a session when the
/// voter lets its grant go, and for how long a voter is quiet that may have lost its state. By a session's clock, `lease`
/// is for how long a heartbeat counts after it left, if it was acknowledged, and `stop` is how long the session takes to
/// stop after that. While any time passes, each voter's clock is at most b/a times as fast as any session's.
///
/// In its quiet time a voter does not know which grant is current: it is the one that was when the state was lost. The
/// voter gives its vote to a session that says that it works with it. The session takes that only if it has the vote still.
pub fn who_works_has_its_votes()
    ensures { (a b ttl lease stop : ℕ) (periods voters sessions : ℕ → ℕ) (events : List Event) (session request : ℕ) (quorum : List ℕ)
        → 1 ≤ b → AllByRecursion (IsRated a b) events → b * (lease + stop) ≤ a * ttl
        → is_working lease stop ((after_all ttl (lease + stop) (begins periods voters sessions) events).sessions session) request quorum ≡ true
        → AllByRecursion (HasVote (after_all ttl (lease + stop) (begins periods voters sessions) events) session request) quorum }
{}

/// At most one works, with no guard, if any two quorums share a voter: two that work at one time are one request of one
/// session. The bound is that of `who_works_has_its_votes`.
pub fn at_most_one_works()
    ensures { (a b ttl lease stop : ℕ) (periods voters sessions : ℕ → ℕ) (events : List Event) (quorums : List (List ℕ)) (session request other another : ℕ)
        → 1 ≤ b → AllByRecursion (IsRated a b) events → b * (lease + stop) ≤ a * ttl → DoMeet quorums
        → Works lease stop quorums (after_all ttl (lease + stop) (begins periods voters sessions) events) session request
        → Works lease stop quorums (after_all ttl (lease + stop) (begins periods voters sessions) events) other another
        → (session ≡ other) × (request ≡ another) }
{}

/// What the laws ask for can be had, with clocks of which those of sessions are slower by a tenth: session 7 works, is
/// let go while it is silent, and does not work any more. Then session 8 works, and what was said to session 7 before
/// comes late, and changes nothing.
pub fn one_works_after_another()
    ensures rates { AllByRecursion (IsRated 9 10) (seven_works ++ is_let_go ++ eight_works) }
    ensures bound { 10 * (80 + 10) ≤ 9 * 100 }
    ensures meet { DoMeet pairs }
    ensures first { Works 80 10 pairs (after_all 100 90 start seven_works) 7 1 }
    ensures stops { is_working 80 10 ((after_all 100 90 start (seven_works ++ is_let_go)).sessions 7) 1 (0 ∷ 1 ∷ []) ≡ false }
    ensures second { Works 80 10 pairs (after_all 100 90 start (seven_works ++ is_let_go ++ eight_works)) 8 1 }
    ensures stays { is_working 80 10 ((after_all 100 90 start (seven_works ++ is_let_go ++ eight_works)).sessions 7) 1 (0 ∷ 1 ∷ []) ≡ false }
{}

/// A session that works goes on while a voter of its quorum loses its state, and has its vote after the quiet time, if it
/// says that it works, and beats on.
pub fn one_works_on()
    ensures rates { AllByRecursion (IsRated 9 10) (seven_works ++ is_kept) }
    ensures works { Works 80 10 pairs (after_all 100 90 start (seven_works ++ is_kept)) 7 1 }
    ensures serves { ((after_all 100 90 start (seven_works ++ is_kept)).voters 1).quiet ≡ None }
    ensures has { ((after_all 100 90 start (seven_works ++ is_kept)).voters 1).current ≡ Some (grant_of 7 1 2) }
{}
