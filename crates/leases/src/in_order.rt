//! Laws on worlds in which no grant is let go: who is inside, and what a guard does with their passes.
ghost use Rattle.std.specs.Prelude.{◌≡◌, ◌⊎◌, ℕ, List, replicate};
ghost use Rattle.numbers.specs.Bounds.{max_voters};
ghost use Rattle.fence.specs.Passes.{HasSeen, Refuses};
ghost use Rattle.leases.specs.Visits.{AdmitsAll, Visit, passes};
ghost use Rattle.world.specs.Restarts.{Happening, IsIn, IsSameRequest, all_happen, begin, pass_of};
ghost use Rattle.world.specs.Runs.{AreLimits};
ghost use Rattle.world_state.specs.Steps.{Dealing};
ghost use Rattle.world.specs.Visible.{DealsFrom, DoMeet};

use world::{later_passes_are_newer, later_votes_have_greater_numbers, parts_keep_their_rules};

/// Clients that are inside at one moment, by their phases, are one client.
///
/// Clients and voters may crash at any time and restart from what they saved.
pub fn clients_inside_are_one()
    ensures { (voters clients limit : ℕ) (quorums : List (List ℕ)) (deal : Dealing) (happenings : List Happening)
        (first second : ℕ)
        → AreLimits voters clients limit → DoMeet voters quorums → DealsFrom quorums deal
        → IsIn (all_happen deal happenings (begin voters clients limit)) first
        → IsIn (all_happen deal happenings (begin voters clients limit)) second
        → first ≡ second }
{
    parts_keep_their_rules();
}

/// A new guard admits every pass, if passes are shown in the order in which their clients were
/// inside.
///
/// A client may show its pass more than once. Clients and voters may crash at any time and restart
/// from what they saved.
pub fn passes_in_order_are_admitted()
    ensures { (voters clients limit : ℕ) (quorums : List (List ℕ)) (deal : Dealing) (visits : List Visit)
        → AreLimits voters clients limit → DoMeet voters quorums → DealsFrom quorums deal
        → AdmitsAll (replicate max_voters 0) (passes deal visits (begin voters clients limit)) }
{
    later_votes_have_greater_numbers();
}

/// A guard refuses a pass that comes late: after it admitted the pass of a client that was inside
/// later. It refuses it whatever else it has seen. Only the same client in the same request is no
/// later one.
///
/// Clients and voters may crash at any time and restart from what they saved. A guard that admits a
/// pass has seen it from then on (`admitted_passes_stay_seen` of `fence`).
pub fn late_passes_are_refused()
    ensures { (voters clients limit : ℕ) (quorums : List (List ℕ)) (deal : Dealing) (before after : List Happening)
        (first second : ℕ) (seen : List ℕ)
        → AreLimits voters clients limit → DoMeet voters quorums → DealsFrom quorums deal
        → IsIn (all_happen deal before (begin voters clients limit)) first
        → IsIn (all_happen deal after (all_happen deal before (begin voters clients limit))) second
        → HasSeen seen (pass_of (all_happen deal after (all_happen deal before (begin voters clients limit))) second)
        → IsSameRequest (all_happen deal before (begin voters clients limit)) first
        (all_happen deal after (all_happen deal before (begin voters clients limit))) second
        ⊎ Refuses seen (pass_of (all_happen deal before (begin voters clients limit)) first) }
{
    later_passes_are_newer();
}
