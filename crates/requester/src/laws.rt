//! Laws: what is proved about the definitions.
ghost use Rattle.std.specs.List.{Contains};
ghost use Rattle.std.specs.Prelude.{◌≡◌, ◌<◌, ◌≤◌, ◌∷◌, ℕ, Err, Ok, List, [], true, false};
ghost use Rattle.numbers.specs.Bounds.{max_clients, max_limit, max_voters};
ghost use Rattle.message.specs.declared.message.ClientBody.TheVariants as to_client;
ghost use Rattle.message.specs.declared.message.ToClient.{ToClient};
ghost use Rattle.message.specs.declared.message.VoterBody.TheVariants as asks;
ghost use Rattle.requester.specs.declared.state.ClientState.{ClientState};
ghost use Rattle.requester.specs.Clocks.{KeepsTime};
ghost use Rattle.requester.specs.Held.{HoldsBesides, HoldsNothing, IsGivenBack, IsKeptOrGiven, KeepsMark};
ghost use Rattle.requester.specs.RequesterContract.{Accepts, AllInRange, AllRepeat, ComesInRange, MeetsContract, RemindersInRange};
ghost use Rattle.requester.specs.Soundness.{HoldsOfMembers, IsSound};
ghost use Rattle.requester.specs.Steps.{Cause, Outcome, ask, send_requests, give_up, leave, end_request, remind, see, start, step, take, tell, would_hold};
ghost use Rattle.requester.specs.Votes.{KeepsRequest, SendsBack, VoteFate};
ghost use Rattle.requester.specs.Words.{held_of, holds, is_asking, is_current, is_hindered, is_idle, is_inside, is_member, is_relinquished, is_spent, last_of};

use crate::fault::ClientFault;
use crate::state::Seen;

/// A client keeps its contract:
///
/// - it never goes back behind a stamp that it released or a grant that it gave back;
/// - it holds only votes that a LOCKED brought for the request that runs;
/// - each message that it sends says what is so after the step.
pub fn requesters_meet_the_contract()
    ensures steps { (x : ClientState) (cause : Cause) (o : Outcome) → IsSound x → Accepts x cause
        → step x cause ≡ Ok o → MeetsContract x cause o }
    ensures reminders { (x : ClientState) → AllRepeat x (remind x) }
{}

/// What holds of every client:
///
/// - a vote that it holds belongs to the request that runs, and the voter is in the request's
///   quorum;
/// - a client that is inside holds the vote of each member;
/// - stamps are from 1 to the limit.
pub fn requesters_stay_sound()
    ensures first { (id limit : ℕ) → id < max_clients → 1 ≤ limit → limit ≤ max_limit → IsSound (start id limit) }
    ensures steps { (x : ClientState) (cause : Cause) (o : Outcome) → IsSound x → Accepts x cause
        → step x cause ≡ Ok o → IsSound o.state }
{}

/// Messages are in range:
///
/// - they go to voters below 64: members of the quorum, or the voter whose message arrived;
/// - their stamps are from 1 to the limit, if those that arrive are;
/// - their grants are at least 1.
pub fn messages_are_in_range()
    ensures steps { (x : ClientState) (cause : Cause) (o : Outcome) → IsSound x → Accepts x cause
        → ComesInRange x.limit cause → step x cause ≡ Ok o → AllInRange cause o.state o.out }
    ensures reminders { (x : ClientState) → IsSound x → RemindersInRange x (remind x) }
{}

/// A message does one of three things to a vote:
///
/// - The vote is kept, with its last grant and its mark.
/// - The message brings it. Then the message is a LOCKED that counts.
/// - The vote goes back by RELINQUISH, and its grant is the last one given back.
///
/// The request goes on under its stamp, and the client may enter. Besides these RELINQUISHes only
/// RELEASE is sent, for a vote that came for another request.
///
/// So a message for which `would_hold` is true adds its vote to the held ones, and no other. Any
/// other message adds none, and the votes that are no longer held are exactly those that the client
/// relinquishes. A vote that was given back stays marked until it is held again, and its grant is
/// the last one given back.
pub fn messages_move_votes()
    ensures votes { (x : ClientState) (m : ToClient) (v : ℕ) → IsSound x → VoteFate m x (take x m) v }
    ensures request { (x : ClientState) (m : ToClient) → KeepsRequest x m (take x m) }
    ensures sends { (x : ClientState) (m : ToClient) → IsSound x → SendsBack m x (take x m) }
    ensures would_hold { (x : ClientState) (m : ToClient) → IsSound x → would_hold x m ≡ true
        → HoldsBesides x m.voter m.body (take x m).state }
    ensures others { (x : ClientState) (m : ToClient) → IsSound x → would_hold x m ≡ false → (v : ℕ)
        → IsKeptOrGiven x (take x m) v }
    ensures votes_given_back_are_marked { (x : ClientState) (m : ToClient) (v : ℕ) → IsSound x
        → KeepsMark x (take x m).state v }
{}

/// A client holds only votes of members of its quorum. While it is idle it holds nothing, and while
/// it is inside it holds the vote of each member.
pub fn phases_show_votes()
    ensures of_members { (x : ClientState) → IsSound x → HoldsOfMembers x }
    ensures idle { (x : ClientState) → IsSound x → is_idle x.phase ≡ true → HoldsNothing x }
    ensures inside { (x : ClientState) (v : ℕ) → IsSound x → is_inside x.phase ≡ true → is_member x v ≡ true
        → holds x v ≡ true }
    ensures asked { (x : ClientState) (quorum : List ℕ) (o : Outcome) → ask x quorum ≡ Ok o → HoldsNothing o.state }
    ensures left { (x : ClientState) (o : Outcome) → leave x ≡ Ok o → HoldsNothing o.state }
    ensures given_up { (x : ClientState) (o : Outcome) → give_up x ≡ Ok o → HoldsNothing o.state }
{}

/// The phase shows whether a call fails, and with which fault. Whether `ask` fails also depends on
/// whether the stamps are spent.
#[tactic(auto, unfolding(crate::specs::Steps::ask, crate::specs::Steps::leave, crate::specs::Steps::give_up))]
pub fn phases_show_refusals()
    ensures busy { (x : ClientState) (quorum : List ℕ) → is_idle x.phase ≡ false → ask x quorum ≡ Err ClientFault.Busy }
    ensures spent { (x : ClientState) (quorum : List ℕ) → is_idle x.phase ≡ true → is_spent x ≡ true
        → ask x quorum ≡ Err ClientFault.StampsSpent }
    ensures asked { (x : ClientState) (quorum : List ℕ) → is_idle x.phase ≡ true → is_spent x ≡ false
        → ask x quorum ≡ Ok (send_requests x quorum) }
    ensures not_inside { (x : ClientState) → is_inside x.phase ≡ false → leave x ≡ Err ClientFault.NotInside }
    ensures left { (x : ClientState) → is_inside x.phase ≡ true → leave x ≡ Ok (end_request x Seen.Left) }
    ensures not_asking { (x : ClientState) → is_asking x.phase ≡ false → give_up x ≡ Err ClientFault.NotAsking }
    ensures given_up { (x : ClientState) → is_asking x.phase ≡ true → give_up x ≡ Ok (end_request x Seen.Nothing) }
{}

/// The clock never falls, and it isn't behind the highest stamp that a message's voter saw. The stamp
/// of a new request is greater than the clock was.
pub fn clocks_never_fall()
    ensures { (x : ClientState) (cause : Cause) (o : Outcome) → IsSound x → step x cause ≡ Ok o
        → KeepsTime x cause o.state }
{}

/// A vote for a request that is over goes back by RELEASE, and nothing else changes but the clock.
pub fn old_votes_go_back()
    ensures { (x : ClientState) (m : ToClient) (stamp grant : ℕ) → m.body ≡ to_client.Locked stamp grant
        → is_current x stamp ≡ false
        → take x m ≡ record { out = tell x m.voter (asks.Release stamp) ∷ []; seen = Seen.Nothing; state = see x m.seen } }
{}

/// A FAIL of a member whose vote is not held hinders the request that runs. A client that is hindered
/// gives a vote back when its voter asks for it.
pub fn hindered_clients_give_votes_back()
    ensures hinders { (x : ClientState) (m : ToClient) → IsSound x → is_asking x.phase ≡ true
        → is_member x m.voter ≡ true → holds x m.voter ≡ false → m.body ≡ to_client.Fail x.stamp
        → is_hindered (take x m).state ≡ true }
    ensures gives { (x : ClientState) (m : ToClient) → IsSound x → is_asking x.phase ≡ true → holds x m.voter ≡ true
        → is_hindered x ≡ true → m.voter < max_voters → m.body ≡ to_client.Inquire (held_of x m.voter)
        → IsGivenBack x (take x m) m.voter × (is_relinquished (take x m).state m.voter ≡ true) }
{}

/// A reminder asks each member again whose vote is not held. If the vote was given back, it gives it
/// back again.
pub fn reminders_ask_again()
    ensures asks { (x : ClientState) (v : ℕ) → is_asking x.phase ≡ true → is_member x v ≡ true → holds x v ≡ false
        → Contains (remind x) (tell x v (asks.Request x.stamp)) }
    ensures gives { (x : ClientState) (v : ℕ) → is_asking x.phase ≡ true → is_member x v ≡ true → holds x v ≡ false
        → is_relinquished x v ≡ true → Contains (remind x) (tell x v (asks.Relinquish (last_of x v))) }
{}
