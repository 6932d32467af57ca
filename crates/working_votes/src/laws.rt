//! Laws: who works by the votes of automata.
ghost use Rattle.std.specs.Prelude.{◌≡◌, ◌≤◌, ◌+◌, ◌*◌, ◌∷◌, ◌++◌, [], ℕ, List, None, Some, false, true};
ghost use Rattle.std.specs.List.{AllByRecursion};
ghost use Rattle.working.specs.Events.{IsRated, after_all, begins};
ghost use Rattle.working.specs.Example.{start};
ghost use Rattle.working.specs.Sessions.{is_working};
ghost use Rattle.vote_leases.specs.Sessions.{AreTold, HasUntil, Step, all_stepped, begun, events_of};
ghost use Rattle.vote_leases.specs.declared.incarnation.Incarnation.{Incarnation};
ghost use Rattle.vote_leases.specs.Example.{lapses_of};
ghost use Rattle.working_votes.specs.Example.{by_client, gives_back, new_voters, seven_asks, seven_is_told, whole, works_on};
ghost use Rattle.working_votes.specs.Turns.{AreFree, AreTrue, Askers, HasVote, IsTrue, Place, Turn, WasTold, all_after, all_events, events_in, is_quiet_in, said_in, voter_of};

/// Who works has the vote of each voter of its quorum that is not quiet: the grant of its automaton is to this request. This is so whatever
/// messages are late, lost, repeated or out of order. Voters may end and restart from the least of what they saved. They may be killed, and
/// start from any sound state: then they are quiet for a TTL, and their automata do what `quiet_time` says. The bound is that of
/// `working::who_works_has_its_votes`.
pub fn who_works_has_the_votes()
    ensures { (who : Askers) (a b ttl lease stop : ℕ) (periods times sessions : ℕ → ℕ) (places : ℕ → Place) (turns : List Turn) (session request : ℕ) (quorum : List ℕ)
        → 1 ≤ b → AllByRecursion (IsRated a b) (all_events who places turns) → b * (lease + stop) ≤ a * ttl
        → AreFree places → AreTrue who ttl (lease + stop) (begins periods times sessions) places turns
        → is_working lease stop ((after_all ttl (lease + stop) (begins periods times sessions) (all_events who places turns)).sessions session) request quorum ≡ true
        → AllByRecursion (HasVote who (all_after places turns) session request) quorum }
{}

/// Whoever is told to work by what it keeps (`vote_leases`) has the vote of each voter of its quorum that is not quiet, by the automata. The same
/// events reach the sessions and the voters, and both begin anew. The premises are those of the law above, and of
/// `vote_leases::who_is_told_to_work_works`.
pub fn who_is_told_to_work_has_the_votes()
    ensures { (who : Askers) (lapses : ℕ → ℕ → Incarnation → ℕ) (a b ttl lease stop : ℕ) (periods times sessions : ℕ → ℕ) (places : ℕ → Place) (turns : List Turn) (used : ℕ) (steps : List Step) (me request voter : ℕ) (quorum : List ℕ)
        → 1 ≤ b → AllByRecursion (IsRated a b) (events_of steps) → b * (lease + stop) ≤ a * ttl
        → AreFree places → AreTrue who ttl (lease + stop) (begins periods times sessions) places turns
        → events_of steps ≡ all_events who places turns
        → AreTold lapses ttl (lease + stop) (begins periods times sessions) steps
        → AllByRecursion (HasUntil lease stop ((after_all ttl (lease + stop) (begins periods times sessions) (events_of steps)).sessions me).time
        (all_stepped ttl lease (lease + stop) me (begins periods times sessions) (begun used) steps) request) (voter ∷ quorum)
        → AllByRecursion (HasVote who (all_after places turns) me request) (voter ∷ quorum) }
{}

/// Each LOCKED that an automaton says in a turn left the voter in the law, for the session that asked: so what a session takes in the law
/// is what the automaton said. One that is said in a quiet time renews a vote in the law.
pub fn what_is_locked_was_told()
    ensures { (who : Askers) (ttl span : ℕ) (periods times sessions : ℕ → ℕ) (places : ℕ → Place) (turns : List Turn) (turn : Turn)
        → AreFree places → AreTrue who ttl span (begins periods times sessions) places turns
        → IsTrue who ttl (after_all ttl span (begins periods times sessions) (all_events who places turns)) (all_after places turns) turn
        → AllByRecursion (λ r. WasTold who (after_all ttl span (after_all ttl span (begins periods times sessions) (all_events who places turns)) (events_in who (all_after places turns) turn)) (voter_of turn) (is_quiet_in (all_after places turns) turn) r.client r.body) (said_in (all_after places turns) turn) }
{}

/// The premises of the law on who is told to work can be met together: the session of the example below keeps its vote, hears of the
/// voter's second start, and is told to work on over the quiet time, by the events of the voter's turns.
pub fn a_session_is_told_to_work_by_votes()
    ensures same { events_of seven_is_told ≡ all_events by_client new_voters (seven_asks ++ works_on) }
    ensures premises { AreTrue by_client 100 90 start new_voters (seven_asks ++ works_on) }
    ensures rates { AllByRecursion (IsRated 9 10) (events_of seven_is_told) }
    ensures says { AreTold lapses_of 100 90 start seven_is_told }
    ensures counts { AllByRecursion (HasUntil 80 10 ((after_all 100 90 start (events_of seven_is_told)).sessions 7).time
        (all_stepped 100 80 90 7 start (begun 0) seven_is_told) 1) (0 ∷ []) }
{}

/// The premises can be met, with clocks of which those of sessions are slower by a tenth: a voter takes a REQUEST, and its session works. The
/// voter is killed, and the session works on over the quiet time, after which it has the vote. Then it ends its request, and nobody has the
/// vote. The voter ends and starts, and may give more grants. Then it is killed, and an older copy of its state is put back, in which the
/// session has the vote: that is let go, and nobody has the vote as the quiet time ends.
pub fn a_session_works_by_votes()
    ensures free { AreFree new_voters }
    ensures premises { AreTrue by_client 100 90 start new_voters whole }
    ensures rates { AllByRecursion (IsRated 9 10) (all_events by_client new_voters whole) }
    ensures works { is_working 80 10 ((after_all 100 90 start (all_events by_client new_voters seven_asks)).sessions 7) 1 (0 ∷ []) ≡ true }
    ensures works_on { is_working 80 10 ((after_all 100 90 start (all_events by_client new_voters (seven_asks ++ works_on))).sessions 7) 1 (0 ∷ []) ≡ true }
    ensures has_vote { (all_after new_voters (seven_asks ++ works_on) 0).lock.vote.held ≡ Some (record { client = 7; stamp = 1; grant = 1 }) }
    ensures is_over { (all_after new_voters (seven_asks ++ works_on ++ gives_back) 0).lock.vote.held ≡ None }
    ensures serves { (all_after new_voters whole 0).is_quiet ≡ false }
    ensures is_free { (all_after new_voters whole 0).lock.vote.held ≡ None }
{}
