//! Laws: who works by the calls of its lock has the votes of a quorum, by the automata of its voters.
ghost use Rattle.std.specs.Prelude.{◌≡◌, ◌≤◌, ◌+◌, ◌*◌, ◌∷◌, [], ℕ, List, Some, false};
ghost use Rattle.std.specs.List.{AllByRecursion};
ghost use Rattle.working.specs.Events.{DoMeet, IsRated, after_all, begins};
ghost use Rattle.working.specs.Example.{start};
ghost use Rattle.vote_leases.specs.Example.{lapses_of};
ghost use Rattle.vote_leases.specs.Sessions.{AreTold, events_of};
ghost use Rattle.vote_leases.specs.declared.incarnation.Incarnation.{Incarnation};
ghost use Rattle.callers.specs.Worlds.{CallWorks, begun_caller, caller_after, steps_of};
ghost use Rattle.client_node.specs.Example.{locks};
ghost use Rattle.client_node.specs.Locks.{ask_lock};
ghost use Rattle.client_node.specs.Worlds.{AllMet, MayBegin, NodeStep, all_steps, begun_locks, locks_after};
ghost use Rattle.working_votes.specs.Example.{by_client, new_voters, request};
ghost use Rattle.working_votes.specs.Turns.{AreFree, AreTrue, Askers, Meets, Place, Turn, all_after, all_events, said_in};
ghost use Rattle.whole_lock.specs.Example.{a_call, alone, comes, is_granted, is_heard, locked, sent_by};
ghost use Rattle.whole_lock.specs.Quorums.{HasQuorum};

/// Whoever works by the calls of its lock has the votes of a quorum, by the automata of its voters: of each voter of the quorum that is
/// not quiet, the automaton's grant is to the request under which the call has the lock.
///
/// The same events are the turns of all voters (`AreTrue`), and the steps of the locks of all sessions (`AllMet`, `AreTold`). So what is
/// asked is what `working_votes::who_works_has_the_votes` asks of voters, what `client_node::at_most_one_works` asks of a session,
/// that any two quorums share a voter, and that clocks keep their rates: b * (lease + stop) ≤ a * ttl.
pub fn who_works_has_the_votes_of_a_quorum()
    ensures { (who : Askers) (lapses : ℕ → ℕ → Incarnation → ℕ) (a b ttl lease stop : ℕ) (periods times sessions : ℕ → ℕ) (places : ℕ → Place) (turns : List Turn)
        (ids limits used : ℕ → ℕ) (quorums : List (List ℕ)) (steps : List NodeStep) (me request : ℕ)
        → 1 ≤ b → AllByRecursion (IsRated a b) (all_events who places turns) → b * (lease + stop) ≤ a * ttl → DoMeet quorums
        → AreFree places → AreTrue who ttl (lease + stop) (begins periods times sessions) places turns
        → events_of (steps_of (all_steps lease (begun_locks ids limits used) steps)) ≡ all_events who places turns
        → AreTold lapses ttl (lease + stop) (begins periods times sessions) (steps_of (all_steps lease (begun_locks ids limits used) steps))
        → MayBegin (ids me) (limits me) (used me)
        → AllMet ttl lease (lease + stop) me quorums (begins periods times sessions) (begun_caller (used me)) (begun_locks ids limits used) steps
        → CallWorks stop ((after_all ttl (lease + stop) (begins periods times sessions) (all_events who places turns)).sessions me).time
        (caller_after ttl lease (lease + stop) me (begins periods times sessions) (begun_caller (used me)) (all_steps lease (begun_locks ids limits used) steps)) request
        → HasQuorum who (all_after places turns) me request quorums }
{}

/// The premises can be met together, with clocks of which those of sessions are slower by a tenth, by one voter and one session: the
/// voter's automaton takes the REQUEST that the session's client sent, the client takes the LOCKED that the automaton said, and a call
/// works.
pub fn a_call_works_by_votes()
    ensures rates { AllByRecursion (IsRated 9 10) (all_events by_client new_voters is_granted) }
    ensures bound { 10 * (80 + 10) ≤ 9 * 100 }
    ensures meet { DoMeet alone }
    ensures free { AreFree new_voters }
    ensures turns { AreTrue by_client 100 90 start new_voters is_granted }
    ensures same { events_of (steps_of (all_steps 80 locks a_call)) ≡ all_events by_client new_voters is_granted }
    ensures told { AreTold lapses_of 100 90 start (steps_of (all_steps 80 locks a_call)) }
    ensures begins { MayBegin 7 1000 0 }
    ensures met { AllMet 100 80 90 7 alone start (begun_caller 0) locks a_call }
    ensures works { CallWorks 10 ((after_all 100 90 start (all_events by_client new_voters is_granted)).sessions 7).time
        (caller_after 100 80 90 7 start (begun_caller 0) (all_steps 80 locks a_call)) 1 }
    // What the voter takes is what the client sent, and what the client takes is what the voter said.
    ensures asks { sent_by (ask_lock (locks_after 80 locks comes 7) (0 ∷ [])) ≡ request ∷ [] }
    ensures says { said_in (all_after new_voters is_heard) (Meets 0 request false) ≡ locked ∷ [] }
    // So the vote is the request's, as the law says of any such story.
    ensures has_vote { (all_after new_voters is_granted 0).lock.vote.held ≡ Some (record { client = 7; stamp = 1; grant = 1 }) }
    ensures has_quorum { HasQuorum by_client (all_after new_voters is_granted) 7 1 alone }
{}
