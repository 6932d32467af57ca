//! Laws: which call has the lock, and that at most one works.
ghost use Rattle.std.specs.Prelude.{◌≡◌, ◌≤◌, ◌<◌, ◌+◌, ◌*◌, ◌⊎◌, ◌++◌, ℕ, Bool, List, Some, true, false};
ghost use Rattle.std.specs.List.{AllByRecursion};
ghost use Rattle.working.specs.Events.{DoMeet, IsRated, Works, after_all, begins};
ghost use Rattle.working.specs.Example.{pairs, start};
ghost use Rattle.vote_leases.specs.Example.{lapses_of};
ghost use Rattle.vote_leases.specs.Sessions.{AreTold, events_of};
ghost use Rattle.vote_leases.specs.declared.incarnation.Incarnation.{Incarnation};
ghost use Rattle.callers.specs.Calls.{ends_request, has_lock, is_new_loss, lost, lost_of, may_end, may_hand, next, spoiled};
ghost use Rattle.callers.specs.Example.{a_call_of_eight, a_call_of_seven};
ghost use Rattle.callers.specs.Steps.{CallStep, GaveBack, Hands, HasLock, KeepsLock, CallsAreServed, all_call_stepped, call_stepped};
ghost use Rattle.callers.specs.Worlds.{AllAsTold, CallWorks, CallerStep, begun_caller, caller_after, steps_of};
ghost use Rattle.callers.specs.declared.calls.Calls.{Calls};
ghost use Rattle.callers.specs.declared.calls.Next.TheVariants.{Hand, Lose, Nothing};
ghost use Rattle.callers.specs.declared.calls.Phase.{Phase};
ghost use Rattle.callers.specs.declared.calls.Phase.TheVariants.{Inside};

/// One call of a session has the lock: if it was handed to a call, and is handed to one again later, the call before gave it back
/// between. This is so whatever the session hands, and when.
pub fn one_call_has_the_lock()
    ensures { (c : Calls) (request : ℕ) (again : Phase) (counts counts_again : Bool) (steps : List CallStep)
        → may_hand c (Inside request) counts ≡ true
        → may_hand (all_call_stepped (call_stepped c (Hands (Inside request) counts)) steps) again counts_again ≡ true
        → GaveBack (call_stepped c (Hands (Inside request) counts)) steps request }
{}

/// Each call has the lock under a request of its own: one that has it later has it under a request with a greater stamp.
pub fn each_call_has_its_own_request()
    ensures { (c : Calls) (request later : ℕ) (counts counts_later : Bool) (steps : List CallStep)
        → may_hand c (Inside request) counts ≡ true
        → may_hand (all_call_stepped (call_stepped c (Hands (Inside request) counts)) steps) (Inside later) counts_later ≡ true
        → request < later }
{}

/// Votes are given back after the call: while a call has the lock, there is nothing to do for the session, whatever its votes do, but
/// to tell the call that the lock may be lost. So its request goes on, and keeps others out where votes are left: each request
/// that the session is to end may end.
pub fn votes_are_given_back_after_the_call()
    ensures next { (c : Calls) (phase : Phase) (counts doubtful : Bool) → has_lock c ≡ true → next c phase counts doubtful ≡ Nothing }
    ensures spoiled { (c : Calls) (phase : Phase) → has_lock c ≡ true → (spoiled c phase ≡ Nothing) ⊎ (spoiled c phase ≡ Lose) }
    ensures may_end { (c : Calls) (phase : Phase) (counts doubtful : Bool) (request : ℕ) → ends_request (next c phase counts doubtful) ≡ true → may_end c request ≡ true }
    ensures may_end_then { (c : Calls) (phase : Phase) (request : ℕ) → ends_request (spoiled c phase) ≡ true → may_end c request ≡ true }
{}

/// A call is told once that the lock may be lost, whatever comes until it gives the lock back, and that gives the same answer.
pub fn lost_is_said_once()
    ensures { (c : Calls) (request : ℕ) (phase : Phase) (steps : List CallStep) → HasLock c request → AllByRecursion (KeepsLock request) steps
        → (is_new_loss (all_call_stepped (lost c) steps) ≡ false)
        × (spoiled (all_call_stepped (lost c) steps) phase ≡ Nothing)
        × (lost_of (all_call_stepped (lost c) steps) request ≡ Some true) }
{}

/// Whoever waits is served: once there is nothing to do for the session, a call has the lock, or the lock is asked for, or votes are
/// waited for. If nobody wants the lock, the session does not ask for it.
pub fn who_waits_is_served()
    ensures { (c : Calls) (phase : Phase) (counts doubtful : Bool) → next c phase counts doubtful ≡ Nothing → CallsAreServed c phase counts doubtful }
{}

/// The lock may be handed to a call if and only if that is what is next.
pub fn what_is_next_may_be_handed()
    ensures may { (c : Calls) (phase : Phase) (counts doubtful : Bool) → next c phase counts doubtful ≡ Hand → may_hand c phase counts ≡ true }
    ensures is_next { (c : Calls) (phase : Phase) (counts doubtful : Bool) → may_hand c phase counts ≡ true → next c phase counts doubtful ≡ Hand }
{}

/// A call that works has its votes: from when the lock was handed to it until it gives it back, while the time up to which it was told
/// that it has the lock is no longer than `stop` ago, its session works under its request in the sense of `working`. So it is though
/// what the session keeps may have forgotten a vote.
///
/// `AllAsTold` says that the session does what its calls say: it ends no request under which a call has the lock, gives no vote back
/// while one has it, and tells a call a time only if all votes of a quorum count up to it.
pub fn a_call_that_works_has_its_votes()
    ensures { (lapses : ℕ → ℕ → Incarnation → ℕ) (ttl lease stop : ℕ) (periods voters sessions : ℕ → ℕ) (used : ℕ) (steps : List CallerStep) (quorums : List (List ℕ)) (me request : ℕ)
        → DoMeet quorums → AreTold lapses ttl (lease + stop) (begins periods voters sessions) (steps_of steps)
        → AllAsTold ttl lease (lease + stop) me quorums (begins periods voters sessions) (begun_caller used) steps
        → CallWorks stop ((after_all ttl (lease + stop) (begins periods voters sessions) (events_of (steps_of steps))).sessions me).time
        (caller_after ttl lease (lease + stop) me (begins periods voters sessions) (begun_caller used) steps) request
        → Works lease stop quorums (after_all ttl (lease + stop) (begins periods voters sessions) (events_of (steps_of steps))) me request }
{}

/// Of all calls of all processes at most one works at a time: two that do are one call of one session. The bound is that of
/// `working::who_works_has_its_votes`: b * (lease + stop) ≤ a * ttl.
pub fn at_most_one_call_works()
    ensures { (lapses : ℕ → ℕ → Incarnation → ℕ) (a b ttl lease stop : ℕ) (periods voters sessions used : ℕ → ℕ) (steps : List CallerStep) (quorums : List (List ℕ)) (me request other another : ℕ)
        → 1 ≤ b → AllByRecursion (IsRated a b) (events_of (steps_of steps)) → b * (lease + stop) ≤ a * ttl → DoMeet quorums
        → AreTold lapses ttl (lease + stop) (begins periods voters sessions) (steps_of steps)
        → AllAsTold ttl lease (lease + stop) me quorums (begins periods voters sessions) (begun_caller (used me)) steps
        → AllAsTold ttl lease (lease + stop) other quorums (begins periods voters sessions) (begun_caller (used other)) steps
        → CallWorks stop ((after_all ttl (lease + stop) (begins periods voters sessions) (events_of (steps_of steps))).sessions me).time
        (caller_after ttl lease (lease + stop) me (begins periods voters sessions) (begun_caller (used me)) steps) request
        → CallWorks stop ((after_all ttl (lease + stop) (begins periods voters sessions) (events_of (steps_of steps))).sessions other).time
        (caller_after ttl lease (lease + stop) other (begins periods voters sessions) (begun_caller (used other)) steps) another
        → (me ≡ other) × (request ≡ another) }
{}

/// The premises can be met, with clocks of which those of sessions are slower by a tenth: a call of session 7 works.
pub fn a_call_works()
    ensures rates { AllByRecursion (IsRated 9 10) (events_of (steps_of a_call_of_seven)) }
    ensures bound { 10 * (80 + 10) ≤ 9 * 100 }
    ensures meet { DoMeet pairs }
    ensures says { AreTold lapses_of 100 90 start (steps_of a_call_of_seven) }
    ensures seven { AllAsTold 100 80 90 7 pairs start (begun_caller 0) a_call_of_seven }
    ensures eight { AllAsTold 100 80 90 8 pairs start (begun_caller 0) a_call_of_seven }
    ensures works { CallWorks 10 ((after_all 100 90 start (events_of (steps_of a_call_of_seven))).sessions 7).time
        (caller_after 100 80 90 7 start (begun_caller 0) a_call_of_seven) 1 }
{}

/// After it gave the lock back, one of session 8 works.
pub fn another_call_works()
    ensures rates { AllByRecursion (IsRated 9 10) (events_of (steps_of (a_call_of_seven ++ a_call_of_eight))) }
    ensures says { AreTold lapses_of 100 90 start (steps_of (a_call_of_seven ++ a_call_of_eight)) }
    ensures seven { AllAsTold 100 80 90 7 pairs start (begun_caller 0) (a_call_of_seven ++ a_call_of_eight) }
    ensures eight { AllAsTold 100 80 90 8 pairs start (begun_caller 0) (a_call_of_seven ++ a_call_of_eight) }
    ensures works { CallWorks 10 ((after_all 100 90 start (events_of (steps_of (a_call_of_seven ++ a_call_of_eight)))).sessions 8).time
        (caller_after 100 80 90 8 start (begun_caller 0) (a_call_of_seven ++ a_call_of_eight)) 1 }
{}
