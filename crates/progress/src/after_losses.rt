//! Laws on live rounds after losses of saved states.
ghost use Rattle.std.specs.Prelude.{◌≡◌, ◌≤◌, ◌+◌, ◌*◌, ◌++◌, ℕ, List, length, true};
ghost use Rattle.progress.specs.AfterLosses.{AskedSince, IsHeard, IsReachedAfterLosses};
ghost use Rattle.world.specs.Visible.{entries_of};
ghost use Rattle.progress.specs.LiveRounds.{AreGone, AreLiveRounds, HasGrantsThere, Live, SparesLive, live_below};
ghost use Rattle.progress.specs.Moves.{Move, hasty_among, late_among, moved, moves_of, of_moves, steps_among};
ghost use Rattle.progress.specs.Rounds.{DoesNotGiveUp, give_ups_in};
ghost use Rattle.world.specs.WayIn.{Asks};
ghost use Rattle.world_state.specs.declared.step.Event.{Event};
ghost use Rattle.world.specs.Waiting.{live_block};
ghost use Rattle.world_state.specs.Steps.{Dealing, WorldState};

use crate::laws::worlds_keep_their_rules;
use world::parts_keep_their_rules;

/// After any crashes, restarts, and losses of all but the least of a saved state: if a client asks and does
/// not give up, a live client enters within (n + 9) * (c + 2 g + l + v) live rounds, for n clients, c of them live, g
/// withdrawals of others, l arrivals of late REQUESTs, and v voters.
///
/// The rounds themselves are without crashes. A voter that lost its saved state may have forgotten that it
/// asked for its vote: each voter may waste one block of n + 9 rounds. Each voter has to have a grant left
/// at the end.
pub fn live_rounds_let_somebody_in_after_losses()
    ensures { (live : Live) (deal : Dealing) (w : WorldState) (c : ℕ) (rounds : List (List Move)) (more : List Event) → IsReachedAfterLosses deal w → live.client c ≡ true → Asks w c
        → AreLiveRounds of_moves live deal w rounds → DoesNotGiveUp c (steps_among (moves_of rounds)) → AreGone live deal w (moves_of rounds) → SparesLive live deal w (moves_of rounds)
        → HasGrantsThere live 1 (moved deal (moves_of rounds) w)
        → live_block (length w.clients) * (live_below live (length w.clients) + 2 * give_ups_in (steps_among (moves_of rounds)) + late_among deal 0 w rounds + length w.voters) ≤ length rounds
        → (moved deal (moves_of rounds) w).visible ≡ w.visible ++ more
        → (d : ℕ) × (live.client d ≡ true) × (1 ≤ entries_of d more) }
{
    worlds_keep_their_rules();
    parts_keep_their_rules();
}

/// After any crashes, restarts, and losses of all but the least of a saved state: a client whose request is
/// heard, and that does not give up, enters within (n + 9) * (3 c + 2 h + l + v) live rounds, for n clients,
/// c of them live, h hasty withdrawals, l arrivals of late REQUESTs, and v voters.
///
/// A request is heard if each voter that knows it has seen its stamp. So is each request that was made
/// after the last crash, restart and loss ([`new_requests_are_heard`]). The rounds themselves are without
/// crashes. Each voter has to have a grant left at the end.
pub fn live_rounds_let_everybody_in_after_losses()
    ensures { (live : Live) (deal : Dealing) (w : WorldState) (c : ℕ) (rounds : List (List Move)) (more : List Event) → IsReachedAfterLosses deal w → live.client c ≡ true → IsHeard w c → Asks w c
        → AreLiveRounds of_moves live deal w rounds → DoesNotGiveUp c (steps_among (moves_of rounds)) → AreGone live deal w (moves_of rounds) → SparesLive live deal w (moves_of rounds)
        → HasGrantsThere live 1 (moved deal (moves_of rounds) w)
        → live_block (length w.clients) * (3 * live_below live (length w.clients) + 2 * hasty_among deal w rounds + late_among deal 0 w rounds + length w.voters) ≤ length rounds
        → (moved deal (moves_of rounds) w).visible ≡ w.visible ++ more
        → 1 ≤ entries_of c more }
{
    worlds_keep_their_rules();
    parts_keep_their_rules();
}

/// Each request that was made after the last crash, restart and loss, and still asks, is heard: each voter
/// that knows it has seen its stamp.
pub fn new_requests_are_heard()
    ensures { (deal : Dealing) (w : WorldState) (c : ℕ) → (r : IsReachedAfterLosses deal w) → AskedSince deal w r c → Asks w c → IsHeard w c }
{
    worlds_keep_their_rules();
    parts_keep_their_rules();
}
