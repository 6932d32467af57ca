//! Laws: who is told to work, works.
ghost use Rattle.std.specs.Prelude.{◌≡◌, ◌≤◌, ◌+◌, ◌*◌, ◌∷◌, [], ◌++◌, ℕ, List, true};
ghost use Rattle.std.specs.List.{AllByRecursion};
ghost use Rattle.working.specs.Events.{DoMeet, IsRated, after_all, begins};
ghost use Rattle.working.specs.Example.{pairs, start};
ghost use Rattle.working.specs.Sessions.{is_working};
ghost use Rattle.vote_leases.specs.Example.{asks_and_works, is_followed, lapses_of, works_on};
ghost use Rattle.vote_leases.specs.Sessions.{AreTold, HasUntil, IsToldToWork, Step, all_stepped, begun, events_of};
ghost use Rattle.vote_leases.specs.declared.incarnation.Incarnation.{Incarnation};

/// Whoever is told to work, works: if the vote of each voter of a quorum counts by what a session keeps, up to a time that
/// is no longer than `stop` ago, then the session of `working` to which the same messages came has all these votes.
///
/// `lapses` says which lapses a voter says to a session under an incarnation: whatever that is, it is the same each time.
pub fn who_is_told_to_work_works()
    ensures { (lapses : ℕ → ℕ → Incarnation → ℕ) (ttl lease stop : ℕ) (periods voters sessions : ℕ → ℕ) (used : ℕ) (steps : List Step) (me request voter : ℕ) (quorum : List ℕ)
        → AreTold lapses ttl (lease + stop) (begins periods voters sessions) steps
        → AllByRecursion (HasUntil lease stop ((after_all ttl (lease + stop) (begins periods voters sessions) (events_of steps)).sessions me).time
        (all_stepped ttl lease (lease + stop) me (begins periods voters sessions) (begun used) steps) request) (voter ∷ quorum)
        → is_working lease stop ((after_all ttl (lease + stop) (begins periods voters sessions) (events_of steps)).sessions me) request (voter ∷ quorum) ≡ true }
{}

/// At most one is told to work: two requests of which that is so at one time are one request of one session, if any two
/// quorums share a voter. The bound is that of `working::who_works_has_its_votes`: b * (lease + stop) ≤ a * ttl.
pub fn at_most_one_is_told_to_work()
    ensures { (lapses : ℕ → ℕ → Incarnation → ℕ) (a b ttl lease stop : ℕ) (periods voters sessions used : ℕ → ℕ) (steps : List Step) (quorums : List (List ℕ)) (me request other another : ℕ)
        → 1 ≤ b → AllByRecursion (IsRated a b) (events_of steps) → b * (lease + stop) ≤ a * ttl → DoMeet quorums
        → AreTold lapses ttl (lease + stop) (begins periods voters sessions) steps
        → IsToldToWork lease stop ((after_all ttl (lease + stop) (begins periods voters sessions) (events_of steps)).sessions me).time quorums
        (all_stepped ttl lease (lease + stop) me (begins periods voters sessions) (begun (used me)) steps) request
        → IsToldToWork lease stop ((after_all ttl (lease + stop) (begins periods voters sessions) (events_of steps)).sessions other).time quorums
        (all_stepped ttl lease (lease + stop) other (begins periods voters sessions) (begun (used other)) steps) another
        → (me ≡ other) × (request ≡ another) }
{}

/// What the laws ask for can be had, with clocks of which those of sessions are slower by a tenth: session 7 is told to work,
/// and is told to work on after a voter of its quorum started again without its state.
pub fn a_session_is_told_to_work()
    ensures rates { AllByRecursion (IsRated 9 10) (events_of (asks_and_works ++ works_on)) }
    ensures bound { 10 * (80 + 10) ≤ 9 * 100 }
    ensures meet { DoMeet pairs }
    ensures says { AreTold lapses_of 100 90 start (asks_and_works ++ works_on) }
    ensures works { IsToldToWork 80 10 ((after_all 100 90 start (events_of asks_and_works)).sessions 7).time pairs
        (all_stepped 100 80 90 7 start (begun 0) asks_and_works) 1 }
    ensures works_on { IsToldToWork 80 10 ((after_all 100 90 start (events_of (asks_and_works ++ works_on))).sessions 7).time pairs
        (all_stepped 100 80 90 7 start (begun 0) (asks_and_works ++ works_on)) 1 }
{}

/// Another session is told to work after one that fell silent, for which the same was so before.
pub fn another_session_is_told_to_work()
    ensures rates { AllByRecursion (IsRated 9 10) (events_of (asks_and_works ++ is_followed)) }
    ensures says { AreTold lapses_of 100 90 start (asks_and_works ++ is_followed) }
    ensures works { IsToldToWork 80 10 ((after_all 100 90 start (events_of (asks_and_works ++ is_followed))).sessions 8).time pairs
        (all_stepped 100 80 90 8 start (begun 0) (asks_and_works ++ is_followed)) 1 }
{}
