//! Laws: what a world with incidents keeps.
ghost use Rattle.std.specs.Prelude.{ℕ};
ghost use Rattle.std.specs.List.{AllByRecursion};
ghost use Rattle.dealer.specs.Plans.{ArePlans, PlanPair};
ghost use Rattle.incidents.specs.Calls.{IsCalm, befalls_by};
ghost use Rattle.incidents.specs.Fit.{IsFit, IsWritten};
ghost use Rattle.world.specs.Incidents.{Incident};
ghost use Rattle.message.specs.Lines.{HasLine};
ghost use Rattle.world_state.specs.Numbered.{IsNumbered};
ghost use Rattle.world.specs.Restarts.{Happening};
ghost use Rattle.world.specs.Runs.{AreLimits, IsReached};
ghost use Rattle.world.specs.SavedWorlds.{LosesNothing, PlannedSaved, begin_by, happens_by, live_of};
ghost use Rattle.world.specs.Visible.{IsExclusive};

use dealer::tickets_name_quorums;
use quorum_set::{bridges_meet, coteries_meet};
use world::parts_keep_their_rules;

/// Whatever befalls a world, its clients, its voters and all messages that were ever sent stay numbered
/// and in range. Each message has a line of text.
///
/// Of messages that are made up, this is for those with a line: with numbers below 2^64.
pub fn worlds_stay_fit()
    ensures first { (plans : PlanPair) (clients limit : ℕ)
        → ArePlans plans → AreLimits plans.first.system.voters clients limit
        → IsFit (record { plans = plans; saved = begin_by plans clients limit }) }
    ensures fit { (w : PlannedSaved) (i : Incident) → IsFit w → IsWritten i → IsFit (befalls_by w i) }
    ensures numbered { (w : PlannedSaved) → IsFit w → IsNumbered w.saved.live }
    ensures lines { (w : PlannedSaved) → IsFit w → AllByRecursion HasLine w.saved.live.sent }
{
    parts_keep_their_rules();
    coteries_meet();
    bridges_meet();
    tickets_name_quorums();
}

/// As long as nothing but steps, saves and restarts befalls a world, it is calm: at most one client is
/// inside at a time, and steps alone lead to the same live world.
pub fn worlds_stay_calm()
    ensures first { (plans : PlanPair) (clients limit : ℕ)
        → ArePlans plans → AreLimits plans.first.system.voters clients limit
        → IsCalm (record { plans = plans; saved = begin_by plans clients limit }) }
    ensures calm { (w : PlannedSaved) (h : Happening) → IsCalm w → LosesNothing h → IsCalm (happens_by w h) }
    ensures reached { (w : PlannedSaved) → IsCalm w → IsReached (live_of w) }
    ensures exclusive { (w : PlannedSaved) → IsCalm w → IsExclusive w.saved.live.visible }
{
    parts_keep_their_rules();
    coteries_meet();
    bridges_meet();
    tickets_name_quorums();
}
