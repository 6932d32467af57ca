//! Laws: what is proved about the definitions.
ghost use Rattle.std.specs.FinMap.{get};
ghost use Rattle.std.specs.Prelude.{◌≡◌, ◌<◌, ◌≤◌, ◌⊎◌, ◌∷◌, ℕ, Some, false, slice_index};
ghost use Rattle.numbers.specs.Bounds.{max_clients, max_limit, max_voters};
ghost use Rattle.message.specs.declared.message.ClientBody.TheVariants as to_client;
ghost use Rattle.message.specs.declared.message.ToVoter.{ToVoter};
ghost use Rattle.message.specs.declared.message.VoterBody.TheVariants as asks;
ghost use Rattle.voter.specs.declared.state.Grant.{Grant};
ghost use Rattle.voter.specs.declared.state.VoterState.{VoterState};
ghost use Rattle.voter.specs.Entries.{AsksBack, Finishes, FinishesBy, KnowsUpTo, request_of};
ghost use Rattle.voter.specs.Replies.{AllCarry, AllReportPlace, AreAnswers, CarrySeen};
ghost use Rattle.voter.specs.Saved.{IsKept, least_voter};
ghost use Rattle.voter.specs.Steps.{IsSound, Outcome, effect_of, inquiry_again, remind, reply, start, step};
ghost use Rattle.voter.specs.VoteMoves.{GrantIsNew, KeepsGrants, VoteMoves};
ghost use Rattle.voter.specs.VoterContract.{AllReport, IsEntry, MeetsContract};
ghost use Rattle.message.specs.Requests.{precedes};

/// A voter keeps its contract:
///
/// - a grant stays until a message of its holder ends it;
/// - only a request that arrived holds the vote or waits;
/// - each LOCKED of a step carries the vote as it is after the step, and each LOCKED of a reminder
///   the current vote.
pub fn voters_meet_the_contract()
    ensures steps { (v : VoterState) (m : ToVoter) (o : Outcome) → step v m ≡ Some o → MeetsContract v m o }
    ensures reminders { (v : VoterState) → AllReport v.held (remind v) }
{}

/// A message that ends the grant leaves no grant, or a new one with the next number. Any other
/// message keeps the grant and the number of grants, or grants the free vote under the next number.
pub fn grants_are_numbered()
    ensures { (v : VoterState) (m : ToVoter) (o : Outcome) → IsSound v → step v m ≡ Some o
        → VoteMoves (effect_of v m).frees v o.state }
{}

/// What holds of every voter:
///
/// - no client both holds the vote and waits;
/// - nobody waits for a free vote;
/// - a grant's number is at most the number of grants, and that is at most the limit.
pub fn voters_stay_sound()
    ensures first { (id limit : ℕ) → limit ≤ max_limit → IsSound (start id limit) }
    ensures steps { (v : VoterState) (m : ToVoter) (o : Outcome) → IsSound v → step v m ≡ Some o → IsSound o.state }
{}

/// A new voter can be saved and restored. It still can after any message of a client below 64, and
/// after all but the least of it is lost.
pub fn voters_stay_kept()
    ensures first { (id limit : ℕ) → id < max_voters → limit ≤ max_limit → IsKept (start id limit) }
    ensures steps { (v : VoterState) (m : ToVoter) (o : Outcome) → IsKept v → m.client < max_clients
        → step v m ≡ Some o → IsKept o.state }
    ensures least { (v : VoterState) → IsKept v → IsKept (least_voter v) }
{}

/// A message causes at most three replies, and at most one of them is LOCKED. Each FAIL goes to a
/// client that waits after the step, and each INQUIRE to the holder. It is outstanding then.
pub fn replies_report_the_state()
    ensures steps { (v : VoterState) (m : ToVoter) (o : Outcome) → IsSound v → step v m ≡ Some o → AreAnswers o }
    ensures reminders { (v : VoterState) → AllReportPlace v (remind v) }
{}

/// Each reply names the voter and carries the highest stamp that it saw, including that of the
/// message. The voter's number and its limit stay the same.
pub fn replies_carry_what_was_seen()
    ensures steps { (v : VoterState) (m : ToVoter) (o : Outcome) → step v m ≡ Some o → CarrySeen v m o }
    ensures reminders { (v : VoterState) → AllCarry v.id v.seen (remind v) }
{}

/// A request that has the vote or waits goes on to do so, until its client finishes it: by a REQUEST
/// with a greater stamp, or by a RELEASE with a stamp at least as great.
pub fn requests_stay()
    ensures { (v : VoterState) (m : ToVoter) (o : Outcome) (client stamp : ℕ) → IsSound v → step v m ≡ Some o
        → IsEntry v client stamp → IsEntry o.state client stamp ⊎ Finishes m.client m.body client stamp }
{}

/// The vote goes to the first: of the requests that were there before a step, none that waits after
/// it precedes a request that got the vote by it.
pub fn votes_go_to_the_first()
    ensures { (v : VoterState) (m : ToVoter) (o : Outcome) (g : Grant) (client stamp : ℕ) → IsSound v
        → step v m ≡ Some o → o.state.held ≡ Some g → v.granted < g.grant
        → IsEntry v client stamp → get o.state.waiting client ≡ Some stamp
        → precedes (record { stamp = stamp; client = client }) (request_of g) ≡ false }
{}

/// A REQUEST that is not finished has the vote or waits after it arrived, if the voter knows no
/// greater stamp of its client.
pub fn requests_are_taken_up()
    ensures { (v : VoterState) (m : ToVoter) (o : Outcome) (stamp : ℕ) → IsSound v → m.body ≡ asks.Request stamp
        → slice_index v.finished m.client < stamp → KnowsUpTo v m.client stamp → step v m ≡ Some o
        → IsEntry o.state m.client stamp }
{}

/// A RELEASE of the request that has the vote ends it: its client neither has the vote afterwards
/// nor waits.
pub fn releases_end_requests()
    ensures { (v : VoterState) (m : ToVoter) (o : Outcome) (g : Grant) (stamp : ℕ) → IsSound v → v.held ≡ Some g
        → m.client ≡ g.client → m.body ≡ asks.Release stamp → g.stamp ≤ stamp → step v m ≡ Some o
        → (s : ℕ) → IsEntry o.state g.client s → ⊥ }
{}

/// A RELINQUISH of the current grant gives the vote to the first that waits, under the next number.
pub fn votes_given_back_go_on()
    ensures { (v : VoterState) (m : ToVoter) (o : Outcome) (g : Grant) → IsSound v → v.held ≡ Some g
        → m.client ≡ g.client → m.body ≡ asks.Relinquish g.grant → step v m ≡ Some o → GrantIsNew v o.state }
{}

/// If a waiting request precedes the one that has the vote, an INQUIRE is outstanding. So it is of a
/// new voter, and so it stays.
///
/// The grant that has the vote after a message had it before, or has a greater number than all
/// before it. An INQUIRE stays outstanding as long as its grant has the vote. A new one is sent only
/// for a new request that the granted one doesn't precede.
pub fn votes_are_asked_back()
    ensures first { (id limit : ℕ) → AsksBack (start id limit) }
    ensures steps { (v : VoterState) (m : ToVoter) (o : Outcome) → AsksBack v → step v m ≡ Some o → AsksBack o.state }
    ensures grants { (v : VoterState) (m : ToVoter) (o : Outcome) → step v m ≡ Some o
        → KeepsGrants v m.client m.body o.state }
{}

/// A finished stamp stays as it was, or the message finishes the request of that stamp.
pub fn messages_finish_requests()
    ensures { (v : VoterState) (m : ToVoter) (o : Outcome) → step v m ≡ Some o
        → FinishesBy v m.client m.body o.state }
{}

/// A reminder begins with LOCKED for the request that has the vote, under its grant.
pub fn reminders_repeat_the_vote()
    ensures { (v : VoterState) (g : Grant) → v.held ≡ Some g
        → remind v ≡ reply v g.client (to_client.Locked g.stamp g.grant) ∷ inquiry_again v.inquiring v g }
{}

/// A voter that has grants left takes every message.
pub fn voters_with_grants_take_messages()
    ensures { (v : VoterState) (m : ToVoter) → IsSound v → v.granted < v.limit → (o : Outcome) × (step v m ≡ Some o) }
{}
