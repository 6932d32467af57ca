//! Laws: what a lock of a session does is what its calls say, so at most one call works.
ghost use Rattle.std.specs.Prelude.{◌≡◌, ◌≤◌, ◌<◌, ◌+◌, ◌*◌, ◌++◌, ℕ, List, is_ok, true};
ghost use Rattle.std.specs.List.{AllByRecursion};
ghost use Rattle.numbers.specs.Bounds.{max_clients, max_limit};
ghost use Rattle.working.specs.Events.{DoMeet, IsRated, after_all, begins};
ghost use Rattle.working.specs.Example.{pairs, start};
ghost use Rattle.vote_leases.specs.Example.{lapses_of};
ghost use Rattle.vote_leases.specs.Sessions.{AreTold, events_of};
ghost use Rattle.vote_leases.specs.declared.incarnation.Incarnation.{Incarnation};
ghost use Rattle.callers.specs.Worlds.{AllAsTold, CallWorks, begun_caller, caller_after, steps_of};
ghost use Rattle.client_node.specs.Example.{a_call, another_call, locks};
ghost use Rattle.requester.specs.Words.{is_idle};
ghost use Rattle.vote_leases.specs.declared.lease.VoterLease.{VoterLease};
ghost use Rattle.client_node.specs.Locks.{IsSound, Lock, give_up_lock, handed_until, is_before, leave_lock, next, until};
ghost use Rattle.client_node.specs.Worlds.{AllMet, MayBegin, NodeStep, all_steps, begun_locks, locks_after};

use callers::Next;

/// What a session does by these calls is what its calls say: in each list of steps of its lock, and of all else that happens,
/// it ends no request under which a call has the lock, gives no vote back while one has it, and tells a call a time only if all
/// votes of a quorum count up to it. This is the premise of `callers::at_most_one_call_works`.
///
/// `AllMet` says what is asked of the host, and of voters. The quorum that is asked is one of the quorums. The leases that are
/// passed are the session's, and times are those of its clock. A LOCKED that comes left its voter for the session.
pub fn what_the_node_does_is_as_told()
    ensures told { (ttl lease span : ℕ) (periods voters sessions ids limits used : ℕ → ℕ) (quorums : List (List ℕ)) (me : ℕ) (steps : List NodeStep)
        → MayBegin (ids me) (limits me) (used me)
        → AllMet ttl lease span me quorums (begins periods voters sessions) (begun_caller (used me)) (begun_locks ids limits used) steps
        → AllAsTold ttl lease span me quorums (begins periods voters sessions) (begun_caller (used me)) (all_steps lease (begun_locks ids limits used) steps) }
    // The calls that are spoken of are those of the lock.
    ensures calls { (ttl lease span : ℕ) (periods voters sessions ids limits used : ℕ → ℕ) (quorums : List (List ℕ)) (me : ℕ) (steps : List NodeStep)
        → MayBegin (ids me) (limits me) (used me)
        → AllMet ttl lease span me quorums (begins periods voters sessions) (begun_caller (used me)) (begun_locks ids limits used) steps
        → (caller_after ttl lease span me (begins periods voters sessions) (begun_caller (used me)) (all_steps lease (begun_locks ids limits used) steps)).calls
        ≡ (locks_after lease (begun_locks ids limits used) steps me).calls }
    // While a call has the lock, the client is inside by the request under which it has it.
    ensures inside { (ttl lease span : ℕ) (periods voters sessions ids limits used : ℕ → ℕ) (quorums : List (List ℕ)) (me : ℕ) (steps : List NodeStep)
        → MayBegin (ids me) (limits me) (used me)
        → AllMet ttl lease span me quorums (begins periods voters sessions) (begun_caller (used me)) (begun_locks ids limits used) steps
        → IsSound (locks_after lease (begun_locks ids limits used) steps me) }
{}

/// Of all calls of all processes that use these locks at most one works at a time: two that do are one call of one session. What
/// is asked is that clocks keep their rates, that any two quorums share a voter, and what `AllMet` and `AreTold` say of hosts
/// and of voters. The bound is that of `working::who_works_has_its_votes`: b * (lease + stop) ≤ a * ttl.
pub fn at_most_one_works()
    ensures { (lapses : ℕ → ℕ → Incarnation → ℕ) (a b ttl lease stop : ℕ) (periods voters sessions ids limits used : ℕ → ℕ) (quorums : List (List ℕ)) (steps : List NodeStep) (me request other another : ℕ)
        → 1 ≤ b → AllByRecursion (IsRated a b) (events_of (steps_of (all_steps lease (begun_locks ids limits used) steps))) → b * (lease + stop) ≤ a * ttl → DoMeet quorums
        → AreTold lapses ttl (lease + stop) (begins periods voters sessions) (steps_of (all_steps lease (begun_locks ids limits used) steps))
        → MayBegin (ids me) (limits me) (used me) → MayBegin (ids other) (limits other) (used other)
        → AllMet ttl lease (lease + stop) me quorums (begins periods voters sessions) (begun_caller (used me)) (begun_locks ids limits used) steps
        → AllMet ttl lease (lease + stop) other quorums (begins periods voters sessions) (begun_caller (used other)) (begun_locks ids limits used) steps
        → CallWorks stop ((after_all ttl (lease + stop) (begins periods voters sessions) (events_of (steps_of (all_steps lease (begun_locks ids limits used) steps)))).sessions me).time
        (caller_after ttl lease (lease + stop) me (begins periods voters sessions) (begun_caller (used me)) (all_steps lease (begun_locks ids limits used) steps)) request
        → CallWorks stop ((after_all ttl (lease + stop) (begins periods voters sessions) (events_of (steps_of (all_steps lease (begun_locks ids limits used) steps)))).sessions other).time
        (caller_after ttl lease (lease + stop) other (begins periods voters sessions) (begun_caller (used other)) (all_steps lease (begun_locks ids limits used) steps)) another
        → (me ≡ other) × (request ≡ another) }
{}

/// What is next can be done, as no call has the lock then: a host that does what [`LockClient::next`] says is not refused, but if no
/// stamp is left. The client is idle if it is to ask. It leaves, and gives up, if it is to. If the lock is to be handed on, a call
/// gets it, up to the first end of the votes.
///
/// [`LockClient::next`]: crate::LockClient::next
#[tactic(auto, unfolding(requester::specs::Steps::leave, requester::specs::Steps::give_up))]
pub fn what_is_next_can_be_done()
    ensures asks { (l : Lock) (leases : List VoterLease) (since : List ℕ) (span now : ℕ) → next l leases since span now ≡ Next.Ask → is_idle l.client.phase ≡ true }
    ensures gives_up { (l : Lock) (leases : List VoterLease) (since : List ℕ) (span now : ℕ) → next l leases since span now ≡ Next.GiveUp → is_ok (give_up_lock l) ≡ true }
    ensures leaves { (l : Lock) (leases : List VoterLease) (since : List ℕ) (span now : ℕ) → next l leases since span now ≡ Next.Leave → is_ok (leave_lock l) ≡ true }
    ensures hands { (l : Lock) (leases : List VoterLease) (since : List ℕ) (span now : ℕ) → next l leases since span now ≡ Next.Hand
        → (handed_until l leases span now ≡ until l leases span) × (is_before now (until l leases span) ≡ true) }
{}

/// The premises can be met, with clocks of which those of sessions are slower by a tenth: a call of session 7 works.
#[tactic(auto, unfolding(requester::specs::Steps::ask, requester::specs::Steps::take, requester::specs::Steps::take_locked))]
pub fn a_call_works()
    ensures rates { AllByRecursion (IsRated 9 10) (events_of (steps_of (all_steps 80 locks a_call))) }
    ensures bound { 10 * (80 + 10) ≤ 9 * 100 }
    ensures meet { DoMeet pairs }
    ensures says { AreTold lapses_of 100 90 start (steps_of (all_steps 80 locks a_call)) }
    ensures seven { AllMet 100 80 90 7 pairs start (begun_caller 0) locks a_call }
    ensures eight { AllMet 100 80 90 8 pairs start (begun_caller 0) locks a_call }
    ensures works { CallWorks 10 ((after_all 100 90 start (events_of (steps_of (all_steps 80 locks a_call)))).sessions 7).time
        (caller_after 100 80 90 7 start (begun_caller 0) (all_steps 80 locks a_call)) 1 }
{}

/// After it gave the lock back, and its client left, one of session 8 works.
#[tactic(auto, unfolding(requester::specs::Steps::ask, requester::specs::Steps::leave, requester::specs::Steps::take, requester::specs::Steps::take_locked))]
pub fn another_call_works()
    ensures rates { AllByRecursion (IsRated 9 10) (events_of (steps_of (all_steps 80 locks (a_call ++ another_call)))) }
    ensures says { AreTold lapses_of 100 90 start (steps_of (all_steps 80 locks (a_call ++ another_call))) }
    ensures seven { AllMet 100 80 90 7 pairs start (begun_caller 0) locks (a_call ++ another_call) }
    ensures eight { AllMet 100 80 90 8 pairs start (begun_caller 0) locks (a_call ++ another_call) }
    ensures works { CallWorks 10 ((after_all 100 90 start (events_of (steps_of (all_steps 80 locks (a_call ++ another_call))))).sessions 8).time
        (caller_after 100 80 90 8 start (begun_caller 0) (all_steps 80 locks (a_call ++ another_call))) 1 }
{}
