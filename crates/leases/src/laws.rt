//! Laws: what a guard may rely on.
ghost use Rattle.std.specs.Prelude.{◌≡◌, ◌⊎◌, ℕ, List, None, Some};
ghost use Rattle.std.specs.List.{AllByRecursion};
ghost use Rattle.leases.specs.Comeback.{AllIdle, AreLawful, unseen};
ghost use Rattle.leases.specs.Drained.{AsksNoMore, IsFinishedUpTo};
ghost use Rattle.world.specs.Incidents.{Incident, all_befall};
ghost use Rattle.leases.specs.Orderly.{AreOrderly, IsOver};
ghost use Rattle.fence.specs.Passes.{Admits};
ghost use Rattle.leases.specs.Shows.{HasSeenOnly, IsCurrent, IsShown, story_of};
ghost use Rattle.leases.specs.WorldVoters.{AreVoters};
ghost use Rattle.passes.specs.Grants.{AreApart, Pass, Voters};
ghost use Rattle.passes.specs.Guarded.{AreAdmitted, AreEntered, PassesFollow, DoNotInterleave, Entry, RequestsHaveOneTurn, TurnsTellRequests};
ghost use Rattle.world.specs.Restarts.{Happening, IsIn, IsSameRequest, all_happen, begin, pass_of, stamp_of};
ghost use Rattle.world.specs.Runs.{AreLimits};
ghost use Rattle.world_state.specs.Steps.{Dealing, voter_at};
ghost use Rattle.message.specs.declared.message.ToVoter.{ToVoter};
ghost use Rattle.voter.specs.declared.state.VoterState.{VoterState};
ghost use Rattle.voter.specs.Steps.{Outcome, step};
ghost use Rattle.world.specs.Visible.{DealsFrom, DoMeet, IsExclusive};

use voter::{messages_finish_requests, votes_are_asked_back};
use world::parts_keep_their_rules;

/// The voters of a world with incidents are voters of `passes`: each by itself, with a life. For each list
/// of incidents there are lives that lead to what the world has of its voters at the end: live, and saved
/// up to its least. (The world's saved voter is the one of the life, or the least of it.) In its life a
/// voter says what the world has sent from it, and nothing else. So what a client shows while it is inside
/// is a pass, and what `passes` says of passes holds of it.
pub fn worlds_have_voters()
    ensures { (voters clients limit : ℕ) (quorums : List (List ℕ)) (deal : Dealing) (incidents : List Incident)
        → AreLimits voters clients limit → DoMeet voters quorums → DealsFrom quorums deal
        → (lives : Voters) × AreVoters voters limit quorums (story_of deal voters clients limit incidents) lives }
{
    parts_keep_their_rules();
}

/// Of two clients that are inside, at any two times, both have a grant of some voter, and none of
/// the same number, unless it is the same client in the same request.
pub fn passes_are_apart()
    ensures { (voters clients limit : ℕ) (quorums : List (List ℕ)) (deal : Dealing) (before after : List Incident)
        (first second : ℕ)
        → AreLimits voters clients limit → DoMeet voters quorums → DealsFrom quorums deal
        → IsIn (all_befall deal before (begin voters clients limit)) first
        → IsIn (all_befall deal after (all_befall deal before (begin voters clients limit))) second
        → IsSameRequest (all_befall deal before (begin voters clients limit)) first
        (all_befall deal after (all_befall deal before (begin voters clients limit))) second
        ⊎ AreApart (pass_of (all_befall deal before (begin voters clients limit)) first)
        (pass_of (all_befall deal after (all_befall deal before (begin voters clients limit))) second) }
{
    parts_keep_their_rules();
    passes::passes_are_apart();
}

/// Of any two passes that a guard admits, the later one is of the same request, or newer: some voter
/// has a grant in both, and each voter that has one in both has a newer one in the later.
/// Clients that were inside at any time show them, at any time, in any order and again.
pub fn admitted_passes_are_in_order()
    ensures { (voters clients limit : ℕ) (quorums : List (List ℕ)) (deal : Dealing) (incidents : List Incident)
        (seen : List ℕ) (passes : List Pass)
        → AreLimits voters clients limit → DoMeet voters quorums → DealsFrom quorums deal
        → AllByRecursion (IsShown (story_of deal voters clients limit incidents)) passes
        → AreAdmitted seen passes → PassesFollow passes }
{
    worlds_have_voters();
    passes::admitted_passes_are_in_order();
}

/// The passes that a guard admits do not interleave: between two shows of one request stand only
/// those of this request.
pub fn admitted_passes_do_not_interleave()
    ensures { (voters clients limit : ℕ) (quorums : List (List ℕ)) (deal : Dealing) (incidents : List Incident)
        (seen : List ℕ) (passes : List Pass)
        → AreLimits voters clients limit → DoMeet voters quorums → DealsFrom quorums deal
        → AllByRecursion (IsShown (story_of deal voters clients limit incidents)) passes
        → AreAdmitted seen passes → DoNotInterleave passes }
{
    worlds_have_voters();
    passes::admitted_requests_do_not_interleave();
    parts_keep_their_rules();
}

/// A guard that saw only what clients held admits a pass if each grant that is shown is its voter's
/// current one. So it refuses a pass only if a voter let such a grant go, or was reborn.
pub fn current_passes_are_admitted()
    ensures { (voters clients limit : ℕ) (quorums : List (List ℕ)) (deal : Dealing) (incidents : List Incident)
        (seen pass : List ℕ)
        → AreLimits voters clients limit → DoMeet voters quorums → DealsFrom quorums deal
        → HasSeenOnly (story_of deal voters clients limit incidents) seen
        → IsCurrent (all_befall deal incidents (begin voters clients limit)) pass
        → Admits seen pass }
{
    parts_keep_their_rules();
}

/// At most one client is inside at a time, also if clients and voters lose their states:
///
/// - a client starts anew at any time, with a clock that is at least every stamp that it used. If it
///   was inside, it left by this. It may then disclaim: a voter may take a RELEASE of any request that is
///   over, but no other message that nobody sent;
/// - a voter is reborn once all clients are done with it: none has its vote, and no LOCKED of it may
///   still count, for clients as they are and as saved;
/// - a voter that has given its vote to nobody is forgotten, and begun again with a number of grants that
///   is at least the number that it gave. This may be at any time, and often.
pub fn at_most_one_is_inside_with_rebirths()
    ensures { (voters clients limit : ℕ) (quorums : List (List ℕ)) (deal : Dealing) (incidents : List Incident)
        → AreLimits voters clients limit → DoMeet voters quorums → DealsFrom quorums deal
        → AreOrderly deal (begin voters clients limit) incidents
        → IsExclusive (all_befall deal incidents (begin voters clients limit)).live.visible }
{
    parts_keep_their_rules();
}

/// Of a vote that nobody has, no client has anything that counts: as it is and as it is saved, none has
/// this voter's vote, and no LOCKED of it counts. So a free vote may be forgotten, at any time, and
/// often.
pub fn free_votes_are_over()
    ensures { (voters clients limit : ℕ) (quorums : List (List ℕ)) (deal : Dealing) (incidents : List Incident) (v : ℕ)
        → AreLimits voters clients limit → DoMeet voters quorums → DealsFrom quorums deal
        → AreOrderly deal (begin voters clients limit) incidents
        → (voter_at (all_befall deal incidents (begin voters clients limit)).live.voters v).held ≡ None
        → IsOver (all_befall deal incidents (begin voters clients limit)) v }
{
    parts_keep_their_rules();
}

/// A request has one pass: a client that is inside, at two times under one stamp, has the same pass.
pub fn requests_have_one_pass()
    ensures { (voters clients limit : ℕ) (quorums : List (List ℕ)) (deal : Dealing) (before after : List Incident) (client : ℕ)
        → AreLimits voters clients limit → DoMeet voters quorums → DealsFrom quorums deal
        → IsIn (all_befall deal before (begin voters clients limit)) client
        → IsIn (all_befall deal after (all_befall deal before (begin voters clients limit))) client
        → stamp_of (all_befall deal before (begin voters clients limit)) client
        ≡ stamp_of (all_befall deal after (all_befall deal before (begin voters clients limit))) client
        → pass_of (all_befall deal after (all_befall deal before (begin voters clients limit))) client
        ≡ pass_of (all_befall deal before (begin voters clients limit)) client }
{
    parts_keep_their_rules();
}

/// Of the clients whose grants are all their voters' current ones, at most one is inside at a time.
pub fn at_most_one_is_inside_by_current_grants()
    ensures { (voters clients limit : ℕ) (quorums : List (List ℕ)) (deal : Dealing) (incidents : List Incident) (first second : ℕ)
        → AreLimits voters clients limit → DoMeet voters quorums → DealsFrom quorums deal
        → IsIn (all_befall deal incidents (begin voters clients limit)) first
        → IsIn (all_befall deal incidents (begin voters clients limit)) second
        → IsCurrent (all_befall deal incidents (begin voters clients limit))
        (pass_of (all_befall deal incidents (begin voters clients limit)) first)
        → IsCurrent (all_befall deal incidents (begin voters clients limit))
        (pass_of (all_befall deal incidents (begin voters clients limit)) second)
        → first ≡ second }
{
    passes_are_apart();
}

/// The turns that a guard gives to the passes that it admits name their requests: of two of them the
/// later is no smaller, and they are the same if and only if both passes are of one request.
pub fn turns_name_requests()
    ensures { (voters clients limit : ℕ) (quorums : List (List ℕ)) (deal : Dealing) (incidents : List Incident)
        (seen : List ℕ) (turn : ℕ) (entries : List Entry)
        → AreLimits voters clients limit → DoMeet voters quorums → DealsFrom quorums deal
        → AllByRecursion (λ e. IsShown (story_of deal voters clients limit incidents) e.pass) entries
        → AreEntered seen turn entries → TurnsTellRequests entries × RequestsHaveOneTurn entries }
{
    worlds_have_voters();
    passes::turns_tell_requests();
    passes::requests_have_one_turn();
    parts_keep_their_rules();
}

/// Exclusion comes back: after evictions, rebirths and clients that start anew and disclaim, once all
/// clients are idle, as they are and as saved, at most one is inside at a time for as long as there are
/// steps, saves, losses, crashes and restarts alone.
pub fn exclusion_comes_back()
    ensures { (voters clients limit : ℕ) (quorums : List (List ℕ)) (deal : Dealing) (incidents : List Incident)
        (happenings : List Happening)
        → AreLimits voters clients limit → DoMeet voters quorums → DealsFrom quorums deal
        → AreLawful deal (begin voters clients limit) incidents
        → AllIdle (all_befall deal incidents (begin voters clients limit))
        → IsExclusive (all_happen deal happenings (unseen (all_befall deal incidents (begin voters clients limit)))).live.visible }
{
    messages_finish_requests();
    votes_are_asked_back();
    parts_keep_their_rules();
}

/// Requests that are finished at a voter stay out, whatever arrives there but a REQUEST of the same
/// client with a greater stamp. So a client that left is not known again, while the voter keeps its
/// state.
pub fn finished_requests_stay_out()
    ensures { (v : VoterState) (m : ToVoter) (o : Outcome) (client stamp : ℕ) → step v m ≡ Some o
        → IsFinishedUpTo v client stamp → AsksNoMore client stamp m.client m.body → IsFinishedUpTo o.state client stamp }
{
    parts_keep_their_rules();
}
