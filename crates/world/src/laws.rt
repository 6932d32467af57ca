//! Laws: what is proved about the definitions.
ghost use Rattle.std.specs.Prelude.{◌≡◌, ◌<◌, ◌⊎◌, ℕ, List, Ok, length, slice_set};
ghost use Rattle.world_state.specs.declared.step.Step.{Step};
ghost use Rattle.world.specs.Coherence.{IsCoherent};
ghost use Rattle.world.specs.Ranges.{AreInRange, IsSound};
ghost use Rattle.dealer.specs.Plans.{ArePlans, PlanPair};
ghost use Rattle.world.specs.Restarts.{Happening, HasVote, IsIn, IsNewer, IsSameRequest, OneClient, Restarts, all_happen, begin, pass_of, stamp_of};
ghost use Rattle.world.specs.Rules.{ClientLaws, VoterLaws};
ghost use Rattle.world.specs.Runs.{AreLimits, IsReached, run_of, start};
ghost use Rattle.world.specs.SavedWorlds.{IsLed, IsSavedWorld, LoseNothing, LosesNothing, PlannedSaved, begin_by, happens_by, live_of};
ghost use Rattle.world.specs.States.{IsWorld};
ghost use Rattle.world_state.specs.Steps.{Adds, Dealing, Outcome, Planned, WorldState, client_at, step};
ghost use Rattle.world.specs.Visible.{DealsFrom, DoMeet, IsExclusive};

use dealer::tickets_name_quorums;
use quorum_set::{bridges_meet, coteries_meet};
use requester::{requesters_meet_the_contract, requesters_stay_sound};
use voter::{
    grants_are_numbered, replies_carry_what_was_seen, replies_report_the_state,
    voters_meet_the_contract, voters_stay_sound,
};

/// What the steps of clients and of voters keep: all that proofs about worlds use of both.
pub fn parts_keep_their_rules()
    ensures clients { ClientLaws }
    ensures voters { VoterLaws }
{
    requesters_meet_the_contract();
    requesters_stay_sound();
    requester::messages_are_in_range();
    voters_meet_the_contract();
    voters_stay_sound();
    replies_report_the_state();
    replies_carry_what_was_seen();
    grants_are_numbered();
}

/// Every list of steps keeps a world sound, as long as any two quorums share a voter.
fn runs_are_sound()
    ensures { (voters clients limit : ℕ) (quorums : List (List ℕ)) (deal : Dealing) (steps : List Step)
        → AreLimits voters clients limit → DoMeet voters quorums → DealsFrom quorums deal
        → IsSound voters clients limit (run_of deal steps (start voters clients limit)) }
{
    parts_keep_their_rules();
}

/// Every list of steps keeps a world coherent, as long as any two quorums share a voter.
fn runs_are_coherent()
    ensures { (voters clients limit : ℕ) (quorums : List (List ℕ)) (deal : Dealing) (steps : List Step)
        → AreLimits voters clients limit → DoMeet voters quorums → DealsFrom quorums deal
        → IsCoherent (run_of deal steps (start voters clients limit)) }
{
    parts_keep_their_rules();
}

/// At most one client is inside at a time, whoever asks, leaves or gives up, and whether messages
/// arrive late, repeatedly or never.
///
/// This holds as long as any two quorums share a voter, whichever quorum each ticket stands for. If
/// there are two plans, these are the quorums of both together, and a plan may be exchanged.
pub fn at_most_one_is_inside()
    ensures { (voters clients limit : ℕ) (quorums : List (List ℕ)) (deal : Dealing) (steps : List Step)
        → AreLimits voters clients limit → DoMeet voters quorums → DealsFrom quorums deal
        → IsExclusive (run_of deal steps (start voters clients limit)).visible }
{
    runs_are_sound();
}

/// At most one client is inside at a time, also if clients and voters crash at any time and restart
/// from what they saved.
///
/// - Save, then send: a step that sends a message, or lets a client enter or leave, is saved before
///   its messages are sent. Other steps need not be saved.
/// - Of a voter's saved state only its grant and the number of its grants have to survive.
/// - Of a client's saved state only its clock and its last stamp have to survive. It is then idle. If
///   it was inside, it left by its crash.
pub fn at_most_one_is_inside_with_restarts()
    ensures { (voters clients limit : ℕ) (quorums : List (List ℕ)) (deal : Dealing) (happenings : List Happening)
        → AreLimits voters clients limit → DoMeet voters quorums → DealsFrom quorums deal
        → IsExclusive (all_happen deal happenings (begin voters clients limit)).live.visible }
{
    parts_keep_their_rules();
}

/// Of two clients that have the vote of one voter, one after the other, the later one has it by a
/// greater grant number. Only the same request of one client has it by the same number. This holds
/// also if clients and voters crash at any time and restart from what they saved.
///
/// So a client that shows its grants later shows no smaller number of any voter: grant numbers are
/// fencing tokens.
pub fn later_votes_have_greater_numbers()
    ensures { (voters clients limit : ℕ) (quorums : List (List ℕ)) (deal : Dealing) (before after : List Happening)
        (first second voter number later : ℕ)
        → AreLimits voters clients limit → DoMeet voters quorums → DealsFrom quorums deal
        → HasVote (all_happen deal before (begin voters clients limit)) first voter number
        → HasVote (all_happen deal after (all_happen deal before (begin voters clients limit))) second voter later
        → (number < later)
        ⊎ ((first ≡ second)
        × (stamp_of (all_happen deal before (begin voters clients limit)) first
        ≡ stamp_of (all_happen deal after (all_happen deal before (begin voters clients limit))) second)
        × (number ≡ later)) }
{
    parts_keep_their_rules();
}

/// Of two clients that are inside, one after the other, the later one has a greater grant number of
/// some voter of which both have the vote, unless it is the same client in the same request. This
/// holds also if clients and voters crash at any time and restart from what they saved.
pub fn later_passes_are_newer()
    ensures { (voters clients limit : ℕ) (quorums : List (List ℕ)) (deal : Dealing) (before after : List Happening)
        (first second : ℕ)
        → AreLimits voters clients limit → DoMeet voters quorums → DealsFrom quorums deal
        → IsIn (all_happen deal before (begin voters clients limit)) first
        → IsIn (all_happen deal after (all_happen deal before (begin voters clients limit))) second
        → IsSameRequest (all_happen deal before (begin voters clients limit)) first
        (all_happen deal after (all_happen deal before (begin voters clients limit))) second
        ⊎ IsNewer (pass_of (all_happen deal before (begin voters clients limit)) first)
        (pass_of (all_happen deal after (all_happen deal before (begin voters clients limit))) second) }
{
    parts_keep_their_rules();
}

/// Every message that is ever sent names a client and a voter of the world. Its stamp and its grant
/// are from 1 to the limit, and the highest stamp that its voter saw is at most the limit.
pub fn messages_are_in_range()
    ensures { (voters clients limit : ℕ) (quorums : List (List ℕ)) (deal : Dealing) (steps : List Step)
        → AreLimits voters clients limit → DoMeet voters quorums → DealsFrom quorums deal
        → AreInRange voters clients limit (run_of deal steps (start voters clients limit)).sent }
{
    runs_are_sound();
}

/// A step keeps all messages sent and all events seen before. It adds as many messages as it
/// reports, and the event, if any, of one client.
pub fn steps_add()
    ensures { (deal : Dealing) (w : WorldState) (s : Step) (o : Outcome) → step deal w s ≡ Ok o → Adds w o }
{}

/// What holds of every world that a list of steps made from a new one.
pub(crate) fn worlds_stay_sound()
    ensures { (w : Planned) → IsReached w → IsWorld w }
{
    runs_are_sound();
    coteries_meet();
    bridges_meet();
    tickets_name_quorums();
}

/// A restart takes back silent steps, and nothing else: whatever happens without the loss of a saved
/// state, steps alone lead to the same live world.
pub fn restarts_undo_silent_steps()
    ensures { (voters clients limit : ℕ) (quorums : List (List ℕ)) (deal : Dealing) (happenings : List Happening)
        → AreLimits voters clients limit → DoMeet voters quorums → DealsFrom quorums deal → LoseNothing happenings
        → IsLed deal (start voters clients limit) (all_happen deal happenings (begin voters clients limit)).live }
{
    parts_keep_their_rules();
}

/// What holds of every world whose clients and voters are saved, while no saved state is lost. A client
/// that restarts in it neither enters nor leaves.
pub(crate) fn saved_worlds_stay_sound()
    ensures first { (plans : PlanPair) (clients limit : ℕ)
        → ArePlans plans → AreLimits plans.first.system.voters clients limit
        → IsSavedWorld (record { plans = plans; saved = begin_by plans clients limit }) }
    ensures happens { (w : PlannedSaved) (h : Happening)
        → IsSavedWorld w → LosesNothing h → IsSavedWorld (happens_by w h) }
    ensures live { (w : PlannedSaved) → IsSavedWorld w → IsWorld (live_of w) }
    ensures restarts { (w : PlannedSaved) → IsSavedWorld w → (c : ℕ) → c < length w.saved.live.clients
        → record w {
          saved = record w.saved {
            live = record w.saved.live {
              clients = slice_set w.saved.live.clients c (client_at w.saved.clients c);
            };
          };
        } ≡ happens_by w (Restarts (OneClient c)) }
{
    worlds_stay_sound();
    parts_keep_their_rules();
    coteries_meet();
    bridges_meet();
    tickets_name_quorums();
}

/// What fits together in every world that a list of steps made from a new one:
///
/// - each client and each voter is sound;
/// - each vote that a client holds is granted to its request;
/// - each request that a voter knows was made by its client;
/// - a message that may still count says what is so;
/// - any two requests that run have a voter in both quorums.
pub fn worlds_stay_coherent()
    ensures { (w : Planned) → IsReached w → IsCoherent w.state }
{
    runs_are_coherent();
    coteries_meet();
    bridges_meet();
    tickets_name_quorums();
}
