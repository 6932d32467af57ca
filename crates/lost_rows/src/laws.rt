//! Laws: what holds of stamps while voters lose their states.
ghost use Rattle.std.specs.Prelude.{◌≡◌, ◌≤◌, ℕ, List, length, map};
ghost use Rattle.std.specs.List.{AllByRecursion};
ghost use Rattle.session_rows.specs.declared.claim.Heard.{Heard};
ghost use Rattle.sessions.specs.Rows.{AreOnce, IsOneOf, Row};
ghost use Rattle.sessions.specs.Tables as tables;
ghost use Rattle.sessions.specs.Tables.{row_at};
ghost use Rattle.lost_rows.specs.Example.{no_rows, other_two, pairs, two_sessions};
ghost use Rattle.lost_rows.specs.Relearned.{Learned, all_relearned, relearned};
ghost use Rattle.lost_rows.specs.SameEvents.{IsOfFirst, same_answer, same_event};
ghost use Rattle.lost_rows.specs.Spent.{Keeps};
ghost use Rattle.lost_rows.specs.Voters.{AreSound, AreQuorums, Event, MayAllCome, Meet, Recoveries, all_happen, start};

/// No stamp is used by two sessions, nor under two epochs, whatever is lost, late or repeated, and whenever voters crash, or lose their
/// states and are made again.
///
/// Each session asks only voters of which each told it that the stamp is its own. None of what they told says that another one of them has
/// a later run than that one told from. Each voter saves its row before it tells of it. One that is made again has the replies of all voters of
/// one of its recoveries; each saved before that there is a later run, and none lost its state since. Whatever was spent by their rows is
/// spent by the new one. Any two quorums share a voter, and so do quorums and recoveries, and the recoveries of two voters, unless one of
/// these has the other voter itself.
pub fn stamps_are_used_once()
    ensures { (rows : ℕ → Row) (quorums : List (List ℕ)) (recoveries : Recoveries) (events : List Event)
        → AreSound quorums recoveries → MayAllCome quorums recoveries (start rows) events
        → AreOnce (all_happen (start rows) events).uses }
{}

/// The run that a voter has, or had when it lost its state, is known in each set of voters from which a voter may be made again. So a later
/// run can be told from it. This helps if none of that set lost its state since: here one that did still counts with what it knew.
pub fn runs_are_known()
    ensures { (rows : ℕ → Row) (quorums : List (List ℕ)) (recoveries : Recoveries) (events : List Event) (v u : ℕ) (recovery : List ℕ)
        → AreSound quorums recoveries → MayAllCome quorums recoveries (start rows) events
        → IsOneOf recovery (recoveries u)
        → (z : ℕ) × IsOneOf z recovery × (((all_happen (start rows) events).voters v).run ≤ ((all_happen (start rows) events).voters z).knows v) }
{}

/// What is learned of another voter's row is kept: whatever was spent by it, or by the row before, is spent afterwards.
pub fn what_is_relearned_is_kept()
    ensures before { (r other : Row) (heard : Heard) → Keeps r (relearned r other heard) }
    ensures other { (r other : Row) (heard : Heard) → Keeps other (relearned r other heard) }
{}

/// A row that learns others, one after the other, keeps all of them: whatever was spent by it at first, or by any of these, is spent at the
/// end.
pub fn rows_that_learn_all_keep_all()
    ensures before { (r : Row) (rows : List Learned) → Keeps r (all_relearned r rows) }
    ensures each { (r : Row) (rows : List Learned) (one : Learned) → IsOneOf one rows → Keeps one.row (all_relearned r rows) }
{
    what_is_relearned_is_kept();
}

/// Voters may be made again from quorums: with sets of these as recoveries all that the laws ask for is there, if any two quorums share a
/// voter.
pub fn quorums_are_recoveries()
    ensures { (quorums : List (List ℕ)) (recoveries : Recoveries)
        → ((p q : List ℕ) → IsOneOf p quorums → IsOneOf q quorums → Meet p q) → AreQuorums quorums recoveries
        → AreSound quorums recoveries }
{}

/// Where no voter loses its state, this is the world of `sessions`. Events of that world that may come here, may come there, and lead to
/// the same answers and uses. So all laws of `sessions` hold of sessions that ask by the rule that is here.
///
/// Each event is of a voter that has a row in the list with which the world of `sessions` begins. No voter is asked to save a run of another
/// one, as that world has no such event.
pub fn events_without_losses_are_those_of_sessions()
    ensures may_come { (rows : List Row) (quorums : List (List ℕ)) (recoveries : Recoveries) (events : List tables.Event)
        → AllByRecursion (IsOfFirst (length rows)) events → MayAllCome quorums recoveries (start (row_at rows)) (map same_event events)
        → tables.MayAllCome quorums (tables.start rows) events }
    ensures answers { (rows : List Row) (events : List tables.Event) → AllByRecursion (IsOfFirst (length rows)) events
        → (tables.all_happen (tables.start rows) events).answers
        ≡ map same_answer (all_happen (start (row_at rows)) (map same_event events)).answers }
    ensures uses { (rows : List Row) (events : List tables.Event) → AllByRecursion (IsOfFirst (length rows)) events
        → (tables.all_happen (tables.start rows) events).uses ≡ (all_happen (start (row_at rows)) (map same_event events)).uses }
{}

/// What the laws ask for can be had: session 7 asks two voters, one of which then loses its state, and is made again by the other two. Then
/// session 8 asks it, under a later stamp.
pub fn a_voter_is_made_again()
    ensures { AreSound pairs other_two × MayAllCome pairs other_two (start no_rows) two_sessions
        × (length (all_happen (start no_rows) two_sessions).uses ≡ 2) }
{}
