//! Laws on progress.
ghost use Rattle.std.specs.Prelude.{◌≡◌, ◌≢◌, ◌≤◌, ◌+◌, ◌*◌, ◌++◌, ℕ, List, length, true};
ghost use Rattle.progress.specs.LostVotes.{ComesBack, GoesOn, HasLostVote, HasReturnedVote};
ghost use Rattle.progress.specs.Overtaking.{IsKnownEverywhere, StillRuns};
ghost use Rattle.world.specs.Visible.{DealsFrom, DoMeet, entries_of};
ghost use Rattle.progress.specs.LiveRounds.{AreGone, AreLiveRounds, AreTimely, HasGrantsThere, Live, SparesLive, live_below};
ghost use Rattle.progress.specs.Moves.{Move, all_go, hasty_among, late_among, moved, moves_of, of_moves, steps_among};
ghost use Rattle.progress.specs.Patience.{hasty_in};
ghost use Rattle.progress.specs.Rounds.{AreFairRounds, DoesNotGiveUp, IsFairRound, IsStill, IsTimely, give_ups_in, grants_for, late_in, steps_of};
ghost use Rattle.progress.specs.Rules.{Laws};
ghost use Rattle.world.specs.WayIn.{Asks, AsksAlone, GetsIn, HasGrants, IsFree, IsWayIn};
ghost use Rattle.voter.specs.declared.state.Grant.{Grant};
ghost use Rattle.world_state.specs.declared.step.Event.{Event};
ghost use Rattle.world_state.specs.declared.step.Step.{Step};
ghost use Rattle.world.specs.Runs.{IsReached, run_of};
ghost use Rattle.world.specs.Waiting.{block, bound, live_block, patient_bound};
ghost use Rattle.world_state.specs.Steps.{Dealing, Planned, WorldState, dealing_of};

use dealer::tickets_name_quorums;
use quorum_set::{bridges_meet, coteries_meet};
use requester::{
    clocks_never_fall, hindered_clients_give_votes_back, messages_are_in_range,
    messages_move_votes, old_votes_go_back, phases_show_refusals, phases_show_votes,
    reminders_ask_again, requesters_meet_the_contract,
};
use voter::{
    grants_are_numbered, messages_finish_requests, releases_end_requests,
    reminders_repeat_the_vote, replies_carry_what_was_seen, requests_are_taken_up, requests_stay,
    voters_meet_the_contract, voters_with_grants_take_messages, votes_are_asked_back,
    votes_given_back_go_on, votes_go_to_the_first,
};
use world::{parts_keep_their_rules, worlds_stay_coherent};

/// The rules that clients, voters and worlds keep: all that proofs of progress use of them.
pub fn worlds_keep_their_rules()
    ensures { Laws }
{
    requesters_meet_the_contract();
    clocks_never_fall();
    phases_show_votes();
    phases_show_refusals();
    old_votes_go_back();
    reminders_ask_again();
    messages_are_in_range();
    messages_move_votes();
    hindered_clients_give_votes_back();
    voters_meet_the_contract();
    grants_are_numbered();
    replies_carry_what_was_seen();
    requests_stay();
    votes_go_to_the_first();
    requests_are_taken_up();
    messages_finish_requests();
    releases_end_requests();
    reminders_repeat_the_vote();
    voters_with_grants_take_messages();
    votes_given_back_go_on();
    votes_are_asked_back();
    worlds_stay_coherent();
}

/// Once every voter of its quorum knows a request, no other client enters more than twice before the
/// request ends: until its client has left, or has given up.
///
/// This holds for every list of steps, whatever is lost, late or repeated, and also while a plan is
/// exchanged.
pub fn nobody_overtakes_often()
    ensures { (w : Planned) (c d : ℕ) (steps : List Step) (more : List Event) → IsReached w
        → IsKnownEverywhere w.state c → d ≢ c → StillRuns w.state (run_of (dealing_of w.plans) steps w.state) c
        → (run_of (dealing_of w.plans) steps w.state).visible ≡ w.state.visible ++ more → entries_of d more ≤ 2 }
{
    worlds_keep_their_rules();
}

/// No vote is lost for good: if its request is over, it comes back by one reminder of its voter and two
/// messages that are sent after it. These are the LOCKED of the reminder, and the RELEASE with which the
/// client answers it.
///
/// So it does not matter which RELEASE was lost before. The voter has to have one grant left, since the
/// vote goes to the next request.
pub fn lost_votes_come_back()
    ensures { (w : Planned) (v : ℕ) (g : Grant) → IsReached w → HasLostVote w.state v g
        → ComesBack (dealing_of w.plans) w.state v g }
{
    worlds_keep_their_rules();
}

/// A vote that its client gave back while it asks goes on by one reminder of that client and one message
/// that is sent after it, the RELINQUISH of the reminder: another grant has it, under the next number.
///
/// So it does not matter whether the first RELINQUISH was lost. The voter has to have one grant left.
pub fn returned_votes_go_on()
    ensures { (w : Planned) (v : ℕ) (g : Grant) → IsReached w → HasReturnedVote w.state v g
        → GoesOn (dealing_of w.plans) w.state v g }
{
    worlds_keep_their_rules();
}

/// A client that asks while all others are idle gets in by reminders and by messages that are sent after
/// them, whatever was lost, late or repeated before. Nobody else enters meanwhile.
///
/// Each voter has to have 4 * (n + 8) grants left and one, for n clients: for n + 8 fair rounds as
/// [`fair_rounds_can_be_made`] makes them, in which one client asks. The way ends with the first entry.
pub fn who_asks_alone_gets_in()
    ensures { (w : Planned) (c : ℕ) → IsReached w → AsksAlone w.state c
        → HasGrants (grants_for 1 (length w.state.clients) 1) w.state → (steps : List Step) × IsWayIn (dealing_of w.plans) w.state c steps }
{
    worlds_keep_their_rules();
}

/// Whenever clients ask and nobody is inside, some client gets in by reminders and by messages that are
/// sent after them, whatever was lost, late or repeated before. Nobody else enters meanwhile.
///
/// So requests never block one another for good. Each voter has to have (n + 8) * (2 n + 2) grants left and
/// one, for n clients: for n + 8 fair rounds that are made.
pub fn somebody_can_enter()
    ensures { (w : Planned) (c : ℕ) → IsReached w → Asks w.state c → IsFree w.state
        → HasGrants (grants_for (length w.state.clients) (length w.state.clients) 1) w.state
        → (steps : List Step) × (d : ℕ) × IsWayIn (dealing_of w.plans) w.state d steps }
{
    worlds_keep_their_rules();
}

/// A client that asks can still get in: by reminders, by messages that are sent after them, and by
/// clients that leave. Nobody has to ask anew, and nobody has to give up.
///
/// This holds in every world that was reached, whoever asks or is inside. Other clients may get in before.
/// Each voter has to have n * (n + 8) * (2 n + 2) grants left and one, for n clients: n times as many rounds
/// as in [`somebody_can_enter`] are made.
pub fn everybody_can_enter()
    ensures { (w : Planned) (c : ℕ) → IsReached w → Asks w.state c
        → HasGrants (grants_for (length w.state.clients) (length w.state.clients) (length w.state.clients)) w.state
        → (steps : List Step) × GetsIn (dealing_of w.plans) w.state c steps }
{
    worlds_keep_their_rules();
}

/// There are any number of fair rounds in every world, one after the other, in which no REQUEST is late
/// and nobody gives up.
///
/// If steps led to the world, each of these rounds takes at most 2 n + 2 grants of a voter, for n clients, and
/// any step at most one. So all that the laws on rounds ask for can be met together.
pub fn fair_rounds_can_be_made()
    ensures made { (deal : Dealing) (w : WorldState) (k : ℕ) → (rounds : List (List Step)) × IsTimely deal 0 w k rounds }
    ensures granted { (w : Planned) (k n : ℕ) → IsReached w → HasGrants (k * (2 * length w.state.clients + 2) + n) w.state
        → (rounds : List (List Step)) × IsTimely (dealing_of w.plans) 0 w.state k rounds × HasGrants n (run_of (dealing_of w.plans) (steps_of rounds) w.state) }
    ensures left { (w : Planned) (steps : List Step) (n : ℕ) → IsReached w → HasGrants (length steps + n) w.state
        → HasGrants n (run_of (dealing_of w.plans) steps w.state) }
{
    worlds_keep_their_rules();
}

/// A fair round stays fair if steps before it and after it are counted to it.
///
/// So fair rounds need not be neighbours, and messages that are lost between them cost nothing. Withdrawals
/// and late REQUESTs between them count in the bounds.
pub fn rounds_may_be_longer()
    ensures { (w : Planned) (before round more : List Step) → IsReached w
        → IsFairRound (dealing_of w.plans) (run_of (dealing_of w.plans) before w.state) round
        → IsFairRound (dealing_of w.plans) w.state (before ++ (round ++ more)) }
{
    worlds_keep_their_rules();
}

/// Fair rounds are live rounds, if everybody is live: then nobody is stuck, and nothing is dropped.
pub fn fair_rounds_are_live_rounds()
    ensures { (live : Live) (deal : Dealing) (w : WorldState) (rounds : List (List Step)) → ((c : ℕ) → live.client c ≡ true) → ((v : ℕ) → live.voter v ≡ true)
        → AreFairRounds deal w rounds → AreLiveRounds of_moves live deal w (all_go rounds) }
{}

/// The quorums that the tickets of a world stand for meet.
fn tickets_deal_quorums_that_meet()
    ensures { (w : Planned) → IsReached w
        → (quorums : List (List ℕ)) × DoMeet w.plans.first.system.voters quorums × DealsFrom quorums (dealing_of w.plans) }
{
    coteries_meet();
    bridges_meet();
    tickets_name_quorums();
}

/// If a live client asks, somebody asks, enters or gives up within n + 9 live rounds, for n clients, while any
/// voters are down, and any clients are out or dead: nothing stands still for longer.
///
/// A live round is a fair round of the clients and of the voters that are live. Clients that wait for a voter that
/// is down end their request in it. A live voter whose grant is of a client that is not live drops that request,
/// for instance by an eviction: it lets the grant go. A client that is not live is out, if it is idle and does not
/// ask. Or it is dead: whether it asks, is inside or is idle, it does nothing. Messages that it sent before may
/// still come. No grant of a live client is let go. No REQUEST may come late, and each live voter has to have a
/// grant left at the end.
pub fn live_rounds_move_somebody()
    ensures { (live : Live) (w : Planned) (c : ℕ) (rounds : List (List Move)) → IsReached w → live.client c ≡ true → Asks w.state c
        → AreLiveRounds of_moves live (dealing_of w.plans) w.state rounds → late_among (dealing_of w.plans) 0 w.state rounds ≡ 0
        → AreGone live (dealing_of w.plans) w.state (moves_of rounds) → SparesLive live (dealing_of w.plans) w.state (moves_of rounds)
        → HasGrantsThere live 1 (moved (dealing_of w.plans) (moves_of rounds) w.state)
        → live_block (length w.state.clients) ≤ length rounds
        → IsStill w.state (moved (dealing_of w.plans) (moves_of rounds) w.state) → ⊥ }
{
    worlds_keep_their_rules();
    parts_keep_their_rules();
    tickets_deal_quorums_that_meet();
}

/// If a live client asks and does not give up, a live client enters within (n + 9) * (c + 2 g + l) live rounds,
/// for n clients, c of them live, g withdrawals of others and l arrivals of late REQUESTs, while any voters are
/// down, and any clients are out or dead. No grant of a live client is let go, and each live voter has to have a grant
/// left at the end.
pub fn live_rounds_let_somebody_in()
    ensures { (live : Live) (w : Planned) (c : ℕ) (rounds : List (List Move)) (more : List Event) → IsReached w → live.client c ≡ true → Asks w.state c
        → AreLiveRounds of_moves live (dealing_of w.plans) w.state rounds → DoesNotGiveUp c (steps_among (moves_of rounds))
        → AreGone live (dealing_of w.plans) w.state (moves_of rounds) → SparesLive live (dealing_of w.plans) w.state (moves_of rounds)
        → HasGrantsThere live 1 (moved (dealing_of w.plans) (moves_of rounds) w.state)
        → live_block (length w.state.clients)
        * (live_below live (length w.state.clients) + 2 * give_ups_in (steps_among (moves_of rounds)) + late_among (dealing_of w.plans) 0 w.state rounds)
        ≤ length rounds
        → (moved (dealing_of w.plans) (moves_of rounds) w.state).visible ≡ w.state.visible ++ more
        → (d : ℕ) × (live.client d ≡ true) × (1 ≤ entries_of d more) }
{
    worlds_keep_their_rules();
    parts_keep_their_rules();
    tickets_deal_quorums_that_meet();
}

/// Whoever is live and asks gets in, while any voters are down, and any clients are out or dead: a live client that
/// asks, and does not give up, enters within (n + 9) * (3 c + 2 h + l) live rounds, for n clients, c of them live,
/// h hasty withdrawals and l arrivals of late REQUESTs.
///
/// Who asks a voter that is down, and does not have its vote, ends that request in the round, and may ask another
/// quorum. Such a withdrawal is hasty if its request did not run for two whole rounds. Who is dead may have died
/// while it asked or was inside: it makes no step, and its grants are let go, at any time in the rounds. No grant of a
/// live client is let go, and each live voter has to have a grant left at the end.
pub fn live_rounds_let_everybody_in()
    ensures { (live : Live) (w : Planned) (c : ℕ) (rounds : List (List Move)) (more : List Event) → IsReached w → live.client c ≡ true → Asks w.state c
        → AreLiveRounds of_moves live (dealing_of w.plans) w.state rounds → DoesNotGiveUp c (steps_among (moves_of rounds))
        → AreGone live (dealing_of w.plans) w.state (moves_of rounds) → SparesLive live (dealing_of w.plans) w.state (moves_of rounds)
        → HasGrantsThere live 1 (moved (dealing_of w.plans) (moves_of rounds) w.state)
        → live_block (length w.state.clients)
        * (3 * live_below live (length w.state.clients) + 2 * hasty_among (dealing_of w.plans) w.state rounds + late_among (dealing_of w.plans) 0 w.state rounds)
        ≤ length rounds
        → (moved (dealing_of w.plans) (moves_of rounds) w.state).visible ≡ w.state.visible ++ more
        → 1 ≤ entries_of c more }
{
    worlds_keep_their_rules();
    parts_keep_their_rules();
    tickets_deal_quorums_that_meet();
}

/// There are any number of live rounds in every world that was reached, whoever is live, one after the other. No
/// REQUEST is late and no withdrawal is hasty. There are at most as many withdrawals as live clients, and a client
/// that asks live voters alone does not give up. Who is not live is dead, in whatever phase it is, and its grants are
/// let go.
///
/// Each of these rounds takes at most 2 n + 3 grants of a live voter, for n clients, and at least one has to be left.
/// So all that the laws on live rounds ask for can be met together.
pub fn live_rounds_can_be_made()
    ensures { (live : Live) (w : Planned) (k left : ℕ) → IsReached w → 1 ≤ left → HasGrantsThere live (k * (2 * length w.state.clients + 3) + left) w.state
        → (rounds : List (List Move)) × AreTimely live (dealing_of w.plans) w.state k rounds
        × HasGrantsThere live left (moved (dealing_of w.plans) (moves_of rounds) w.state) }
{
    worlds_keep_their_rules();
    parts_keep_their_rules();
    tickets_deal_quorums_that_meet();
}

/// If a client asks, somebody asks, enters or gives up within n + 8 fair rounds, for n clients: nothing
/// stands still for longer.
///
/// No REQUEST may come late, that is, later than in the round after that in which it was sent. Each voter
/// has to have a grant left at the end. All else may be lost, late, repeated or out of order.
pub fn fair_rounds_move_somebody()
    ensures { (w : Planned) (c : ℕ) (rounds : List (List Step)) → IsReached w → Asks w.state c
        → AreFairRounds (dealing_of w.plans) w.state rounds → late_in (dealing_of w.plans) 0 w.state rounds ≡ 0
        → HasGrants 1 (run_of (dealing_of w.plans) (steps_of rounds) w.state)
        → block (length w.state.clients) ≤ length rounds
        → IsStill w.state (run_of (dealing_of w.plans) (steps_of rounds) w.state) → ⊥ }
{
    worlds_keep_their_rules();
}

/// If a client asks and does not give up, somebody enters within (n + 8) * (n + 2 g + l) fair rounds, for n
/// clients, g withdrawals of others and l arrivals of late REQUESTs.
///
/// Each arrival counts, also of the same REQUEST again, and each withdrawal, also one that is refused. Each
/// voter has to have a grant left at the end.
pub fn fair_rounds_let_somebody_in()
    ensures { (w : Planned) (c : ℕ) (rounds : List (List Step)) (more : List Event) → IsReached w → Asks w.state c
        → AreFairRounds (dealing_of w.plans) w.state rounds → DoesNotGiveUp c (steps_of rounds)
        → HasGrants 1 (run_of (dealing_of w.plans) (steps_of rounds) w.state)
        → block (length w.state.clients)
        * (length w.state.clients + 2 * give_ups_in (steps_of rounds) + late_in (dealing_of w.plans) 0 w.state rounds)
        ≤ length rounds
        → (run_of (dealing_of w.plans) (steps_of rounds) w.state).visible ≡ w.state.visible ++ more
        → (d : ℕ) × (1 ≤ entries_of d more) }
{
    worlds_keep_their_rules();
}

/// Whoever asks gets in: a client that asks, and does not give up, enters within
/// (n + 8) * (3 n + 2 h + l) fair rounds, for n clients, h hasty withdrawals and l arrivals of late REQUESTs.
/// Each arrival counts, also of the same REQUEST again.
///
/// In a fair round everybody is reminded, the messages of the reminders arrive, what is sent on their arrival
/// arrives too, and who was inside when it began leaves. All else is up to an adversary: what is lost, late,
/// repeated or out of order, who asks again, and who gives up. Nobody crashes. Each voter has to have a grant
/// left at the end.
///
/// A withdrawal is hasty if its request was made in these rounds, and did not run for two whole rounds: made in
/// round i, it may be given up at no price from round i + 3 on. Without withdrawals h is 0.
pub fn fair_rounds_let_everybody_in()
    ensures { (w : Planned) (c : ℕ) (rounds : List (List Step)) (more : List Event) → IsReached w → Asks w.state c
        → AreFairRounds (dealing_of w.plans) w.state rounds → DoesNotGiveUp c (steps_of rounds)
        → HasGrants 1 (run_of (dealing_of w.plans) (steps_of rounds) w.state)
        → block (length w.state.clients)
        * (3 * length w.state.clients + 2 * hasty_in (dealing_of w.plans) w.state rounds + late_in (dealing_of w.plans) 0 w.state rounds)
        ≤ length rounds
        → (run_of (dealing_of w.plans) (steps_of rounds) w.state).visible ≡ w.state.visible ++ more
        → 1 ≤ entries_of c more }
{
    worlds_keep_their_rules();
}

/// The number of rounds that `qlock-show waiting` shows is enough: a client that asks, and does not
/// give up, has entered after them, for the world's number of clients and the withdrawals in these
/// rounds. No REQUEST comes late, and each voter has a grant left at the end.
pub fn rounds_are_enough()
    ensures { (w : Planned) (c : ℕ) (rounds : List (List Step)) (more : List Event) → IsReached w → Asks w.state c
        → AreFairRounds (dealing_of w.plans) w.state rounds → DoesNotGiveUp c (steps_of rounds)
        → HasGrants 1 (run_of (dealing_of w.plans) (steps_of rounds) w.state)
        → late_in (dealing_of w.plans) 0 w.state rounds ≡ 0
        → bound (length w.state.clients) (give_ups_in (steps_of rounds)) ≤ length rounds
        → (run_of (dealing_of w.plans) (steps_of rounds) w.state).visible ≡ w.state.visible ++ more
        → 1 ≤ entries_of c more }
{
    fair_rounds_let_everybody_in();
}

/// The same with the number of rounds for patient clients: no withdrawal is hasty. So a request that is made in
/// these rounds runs for two whole rounds before it is given up.
pub fn patient_rounds_are_enough()
    ensures { (w : Planned) (c : ℕ) (rounds : List (List Step)) (more : List Event) → IsReached w → Asks w.state c
        → AreFairRounds (dealing_of w.plans) w.state rounds → hasty_in (dealing_of w.plans) w.state rounds ≡ 0
        → DoesNotGiveUp c (steps_of rounds)
        → HasGrants 1 (run_of (dealing_of w.plans) (steps_of rounds) w.state)
        → late_in (dealing_of w.plans) 0 w.state rounds ≡ 0
        → patient_bound (length w.state.clients) ≤ length rounds
        → (run_of (dealing_of w.plans) (steps_of rounds) w.state).visible ≡ w.state.visible ++ more
        → 1 ≤ entries_of c more }
{
    fair_rounds_let_everybody_in();
}
