//! Laws: who is asked, and which requests are given up.
ghost use Rattle.std.specs.Prelude.{◌≡◌, ◌<◌, ◌≤◌, ◌+◌, ◌⊎◌, ℕ, IsPermutation, List, None, Some, false, length, true};
ghost use Rattle.fail_over.specs.Choices.{is_stuck, next_quorum, place_of, quorum_of, waits_for};
ghost use Rattle.fail_over.specs.Example.{first, nobody, pairs, second, waits, zeroth};
ghost use Rattle.fail_over.specs.Facts.{AllAre, AreIn, Asks, HasNoRoom, HasOne, HasRoom, HasVotesOf, IsHindered, IsIn, PassesOver, SparesThem, WaitsFor, WouldDo, asked_in_turn};
ghost use Rattle.fail_over.specs.declared.waiting.Waiting.{Waiting};

/// Who is asked answers: if some quorum has no voter that is avoided, and none that has no room, the session asks such a one, with
/// every ticket.
pub fn who_is_asked_answers()
    ensures { (cycle : List ℕ) (ticket avoided full : ℕ) → HasOne (WouldDo avoided full) cycle
        → Asks (WouldDo avoided full) cycle (next_quorum cycle ticket avoided full) }
{}

/// Who is asked has room: if all voters of some quorum have room, the session asks such a one, also if each quorum has a voter that
/// is avoided. If each quorum has a voter that has no room, it asks none.
pub fn who_is_asked_has_room()
    ensures room { (cycle : List ℕ) (ticket avoided full : ℕ) → HasOne (HasRoom full) cycle
        → Asks (HasRoom full) cycle (next_quorum cycle ticket avoided full) }
    ensures none { (cycle : List ℕ) (ticket avoided full : ℕ) → AllAre (HasNoRoom full) cycle
        → next_quorum cycle ticket avoided full ≡ None }
{}

/// The plan is kept: a ticket gets its own quorum if that would do, as each does while nobody is avoided and all have room. So with
/// the tickets of a whole cycle, from any first one on, each quorum is asked as often as it is in the cycle.
pub fn the_plan_is_kept()
    ensures own { (cycle : List ℕ) (ticket avoided full : ℕ) → 0 < length cycle → WouldDo avoided full (quorum_of cycle ticket)
        → next_quorum cycle ticket avoided full ≡ Some (place_of cycle ticket) }
    ensures all { (cycle : List ℕ) (ticket : ℕ) → 0 < length cycle
        → next_quorum cycle ticket nobody nobody ≡ Some (place_of cycle ticket) }
    ensures cycle { (cycle : List ℕ) (ticket : ℕ) → IsPermutation (asked_in_turn cycle nobody nobody ticket (length cycle)) cycle }
{}

/// None is passed over that would do: each ticket between this one and the one whose quorum is asked has a quorum with a voter that is
/// avoided or has no room. If each quorum has such a voter, each of those tickets has one with a voter that has no room. So no more
/// tickets are skipped than have to be.
pub fn none_is_passed_over()
    ensures hindered { (cycle : List ℕ) (ticket avoided full place : ℕ) → next_quorum cycle ticket avoided full ≡ Some place
        → PassesOver (IsHindered avoided full) cycle ticket place }
    ensures full { (cycle : List ℕ) (ticket avoided full place : ℕ) → AllAre (IsHindered avoided full) cycle
        → next_quorum cycle ticket avoided full ≡ Some place → PassesOver (HasNoRoom full) cycle ticket place }
{}

/// Nobody waits for the silent: if a request is not given up, it was asked no longer ago than the fail-over time, or it has the votes
/// of all voters of its quorum that are avoided, or no other quorum would do.
pub fn nobody_waits_for_the_silent()
    ensures stuck { (quorums : List ℕ) (w : Waiting) (avoided full now most : ℕ) → is_stuck quorums w avoided full now most ≡ false
        → (now ≤ w.asked + most) ⊎ (HasVotesOf w avoided ⊎ AllAre (IsHindered avoided full) quorums) }
    ensures at_once { (quorums : List ℕ) (w : Waiting) (avoided full : ℕ) → waits_for quorums w avoided full ≡ false
        → HasVotesOf w avoided ⊎ AllAre (IsHindered avoided full) quorums }
{}

/// Who fails over asks others: a request that is given up waits for a voter that is avoided, and the quorum that is asked next has none
/// of the avoided voters for which it waits. So it is given up only if others would do.
pub fn who_fails_over_asks_others()
    ensures waits { (quorums : List ℕ) (w : Waiting) (avoided full : ℕ) → waits_for quorums w avoided full ≡ true
        → (v : ℕ) × WaitsFor w v × IsIn avoided v }
    ensures asks { (quorums cycle : List ℕ) (w : Waiting) (ticket avoided full : ℕ) → AreIn quorums cycle
        → waits_for quorums w avoided full ≡ true → Asks (SparesThem w avoided full) cycle (next_quorum cycle ticket avoided full) }
    ensures stuck { (quorums : List ℕ) (w : Waiting) (avoided full now most : ℕ) → is_stuck quorums w avoided full now most ≡ true
        → (w.asked + most < now) × (waits_for quorums w avoided full ≡ true) }
{}

/// The premises can be met: with three voters of which any two are a quorum, each ticket gets a quorum without voter 1 if that is
/// avoided, and the next one that has room if that is full. If voters 0 and 1 have no room, nobody is asked.
pub fn others_are_asked()
    ensures would_do { HasOne (WouldDo first nobody) pairs }
    ensures passes { next_quorum pairs 3 first nobody ≡ Some 2 }
    ensures hindered { AllAre (IsHindered zeroth first) pairs }
    ensures room { HasOne (HasRoom first) pairs }
    ensures falls_back { next_quorum pairs 3 zeroth first ≡ Some 2 }
    ensures no_room { AllAre (HasNoRoom (zeroth + first)) pairs }
    ensures none { next_quorum pairs 3 nobody (zeroth + first) ≡ None }
{}

/// A request waits for voter 2, which is avoided. It is given up after more than 50 units of time, and goes on up to then.
pub fn a_request_fails_over()
    ensures goes_on { is_stuck pairs waits second nobody 150 50 ≡ false }
    ensures stuck { is_stuck pairs waits second nobody 151 50 ≡ true }
    ensures asks { next_quorum pairs 2 second nobody ≡ Some 0 }
    ensures no_others { waits_for pairs waits second first ≡ false }
{}
