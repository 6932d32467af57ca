//! Laws: requests get on after incidents, once all clients were idle.
ghost use Rattle.std.specs.Prelude.{◌≡◌, ◌≢◌, ◌≤◌, ◌+◌, ◌*◌, ◌++◌, ℕ, List, length, true};
ghost use Rattle.leases.specs.Again.{IsReachedAgain, IsReachedLive};
ghost use Rattle.progress.specs.LostVotes.{ComesBack, GoesOn, HasLostVote, HasReturnedVote};
ghost use Rattle.progress.specs.LiveRounds.{AreGone, AreLiveRounds, HasGrantsThere, Live, SparesLive, live_below};
ghost use Rattle.progress.specs.Moves.{Move, hasty_among, late_among, moved, moves_of, of_moves, steps_among};
ghost use Rattle.progress.specs.Rounds.{DoesNotGiveUp, IsStill, give_ups_in, grants_for};
ghost use Rattle.progress.specs.Overtaking.{IsKnownEverywhere, StillRuns};
ghost use Rattle.world.specs.Visible.{entries_of};
ghost use Rattle.world.specs.Waiting.{live_block};
ghost use Rattle.world.specs.WayIn.{Asks, AsksAlone, GetsIn, HasGrants, IsFree, IsWayIn};
ghost use Rattle.voter.specs.declared.state.Grant.{Grant};
ghost use Rattle.world_state.specs.declared.step.Event.{Event};
ghost use Rattle.world_state.specs.declared.step.Step.{Step};
ghost use Rattle.world.specs.Runs.{run_of};
ghost use Rattle.world_state.specs.Steps.{Dealing, WorldState};

use progress::worlds_keep_their_rules;
use world::parts_keep_their_rules;

/// Progress comes back: after evictions, rebirths, crashes and clients that start anew, once all
/// clients were idle, the laws of `progress` that name no rounds hold again, whatever steps followed.
///
/// - Once every voter of its quorum knows a request, no other client enters more than twice before the
///   request ends.
/// - A vote whose request is over comes back by one reminder of its voter and two new messages.
/// - A vote that its client gave back goes on by one reminder of that client and one new message.
/// - A client that asks while all others are idle gets in by reminders and new messages.
/// - Whenever clients ask and nobody is inside, reminders and new messages let one in.
/// - A client that asks gets in by reminders, by new messages, and by clients that leave.
///
/// All but the first are for voters with grants left. The second and the third need one, as in `progress`. The
/// last three need grants for v * (n + 8) fair rounds more than in `progress`, for v voters and n clients.
pub fn progress_comes_back()
    ensures overtaken { (deal : Dealing) (w : WorldState) (client other : ℕ) (steps : List Step) (more : List Event)
        → IsReachedAgain deal w → IsKnownEverywhere w client → other ≢ client → StillRuns w (run_of deal steps w) client
        → (run_of deal steps w).visible ≡ w.visible ++ more → entries_of other more ≤ 2 }
    ensures lost { (deal : Dealing) (w : WorldState) (voter : ℕ) (grant : Grant)
        → IsReachedAgain deal w → HasLostVote w voter grant → ComesBack deal w voter grant }
    ensures returned { (deal : Dealing) (w : WorldState) (voter : ℕ) (grant : Grant)
        → IsReachedAgain deal w → HasReturnedVote w voter grant → GoesOn deal w voter grant }
    ensures alone { (deal : Dealing) (w : WorldState) (client : ℕ) → IsReachedAgain deal w → AsksAlone w client
        → HasGrants (grants_for 1 (length w.clients) (length w.voters + 1)) w → (steps : List Step) × IsWayIn deal w client steps }
    ensures somebody { (deal : Dealing) (w : WorldState) (client : ℕ) → IsReachedAgain deal w → Asks w client → IsFree w
        → HasGrants (grants_for (length w.clients) (length w.clients) (length w.voters + 1)) w → (steps : List Step) × (who : ℕ) × IsWayIn deal w who steps }
    ensures everybody { (deal : Dealing) (w : WorldState) (client : ℕ) → IsReachedAgain deal w → Asks w client
        → HasGrants (grants_for (length w.clients) (length w.clients) (length w.clients + length w.voters)) w
        → (steps : List Step) × GetsIn deal w client steps }
{
    worlds_keep_their_rules();
    parts_keep_their_rules();
}

/// Rounds count again: after evictions, rebirths, crashes and clients that start anew, once all clients were
/// idle, the laws of `progress` on live rounds hold, whatever steps followed, while any voters are down, and any
/// clients are out or dead. A client that was dead at that moment need not have been idle. Others may have died since,
/// and grants of the dead may have been let go. Clients may draw their quorums in any way, if any two meet, and each
/// voter may have a limit of its own.
///
/// For n clients, c of them live, and v voters, g withdrawals, h of them hasty, and l arrivals of late REQUESTs, if
/// a live client asks:
///
/// - Somebody asks, enters or gives up within (n + 9) * (1 + v) live rounds, if no REQUEST is late.
/// - If the client does not give up, a live client enters within (n + 9) * (c + 2 g + l + v).
/// - It enters itself within (n + 9) * (3 c + 2 h + l + v).
///
/// In the rounds grants of clients that are not live may be let go. Beside that they are without crashes and
/// incidents. Each live voter has to have a grant left at the end. The v is for the grants that were given before
/// all were idle: each of them may waste one block.
pub fn rounds_come_back()
    ensures moved { (live : Live) (deal : Dealing) (w : WorldState) (client : ℕ) (rounds : List (List Move)) → IsReachedLive live deal w (moves_of rounds) → live.client client ≡ true → Asks w client
        → AreLiveRounds of_moves live deal w rounds → late_among deal 0 w rounds ≡ 0 → AreGone live deal w (moves_of rounds) → SparesLive live deal w (moves_of rounds)
        → HasGrantsThere live 1 (moved deal (moves_of rounds) w)
        → (length w.voters + 1) * live_block (length w.clients) ≤ length rounds → IsStill w (moved deal (moves_of rounds) w) → ⊥ }
    ensures somebody { (live : Live) (deal : Dealing) (w : WorldState) (client : ℕ) (rounds : List (List Move)) (more : List Event) → IsReachedLive live deal w (moves_of rounds) → live.client client ≡ true
        → Asks w client → AreLiveRounds of_moves live deal w rounds → DoesNotGiveUp client (steps_among (moves_of rounds)) → AreGone live deal w (moves_of rounds)
        → SparesLive live deal w (moves_of rounds) → HasGrantsThere live 1 (moved deal (moves_of rounds) w)
        → live_block (length w.clients) * (live_below live (length w.clients) + 2 * give_ups_in (steps_among (moves_of rounds)) + late_among deal 0 w rounds + length w.voters) ≤ length rounds
        → (moved deal (moves_of rounds) w).visible ≡ w.visible ++ more → (who : ℕ) × (live.client who ≡ true) × (1 ≤ entries_of who more) }
    ensures everybody { (live : Live) (deal : Dealing) (w : WorldState) (client : ℕ) (rounds : List (List Move)) (more : List Event) → IsReachedLive live deal w (moves_of rounds) → live.client client ≡ true
        → Asks w client → AreLiveRounds of_moves live deal w rounds → DoesNotGiveUp client (steps_among (moves_of rounds)) → AreGone live deal w (moves_of rounds)
        → SparesLive live deal w (moves_of rounds) → HasGrantsThere live 1 (moved deal (moves_of rounds) w)
        → live_block (length w.clients) * (3 * live_below live (length w.clients) + 2 * hasty_among deal w rounds + late_among deal 0 w rounds + length w.voters) ≤ length rounds
        → (moved deal (moves_of rounds) w).visible ≡ w.visible ++ more → 1 ≤ entries_of client more }
{
    worlds_keep_their_rules();
    parts_keep_their_rules();
}
