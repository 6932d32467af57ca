//! Laws about what a coterie bears.
ghost use Rattle.std.specs.Prelude.{◌≡◌, ◌↔◌, ℕ, List, true};
ghost use Rattle.failures.specs.Failures.{Bears};
ghost use Rattle.show_failures.specs.Without.{is_borne};

/// The failure of a set of voters is borne if and only if some quorum has no member in it.
pub fn borne_groups_leave_a_quorum()
    ensures { (quorums : List (List ℕ)) (failed : List ℕ) → (is_borne quorums failed ≡ true) ↔ Bears quorums failed }
{}
