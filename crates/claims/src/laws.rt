//! Laws: whose number it is that was claimed.
ghost use Rattle.std.specs.Prelude.{◌≡◌, ◌<◌, ◌≤◌, ℕ, List, Some};
ghost use Rattle.std.specs.List.{AllByRecursion};
ghost use Rattle.numbers.specs.Sets.{members_of};
ghost use Rattle.sessions.specs.Example.{pairs, three_rows, two_sessions};
ghost use Rattle.sessions.specs.Rows.{IsOneOf, Row, Use};
ghost use Rattle.sessions.specs.Tables.{Answer, DoMeet, Event, IsAnswered, IsBegun, MayAllCome, all_happen, start};
ghost use Rattle.claims.specs.Claims.{AreSteps, IsHeard, IsOwn, Step, all_stepped, begun, taken_back};
ghost use Rattle.claims.specs.Example.{eight, seven};

/// A number that is a session's own by what it keeps was given to it by each voter of the quorum, under this epoch, and none of
/// them told a base above the one that the session keeps. So the premises hold that `sessions` asks of those that have a number.
pub fn claimed_numbers_were_given()
    ensures { (answers : List Answer) (steps : List Step) (session epoch quorum : ℕ)
        → AllByRecursion (IsHeard answers session) steps → IsOwn (all_stepped begun steps) epoch quorum
        → IsAnswered answers session epoch (members_of quorum)
        × IsBegun answers session epoch (all_stepped begun steps).base (members_of quorum) }
{}

/// A claim that goes on is of none of the epochs of which the session took its claim back.
pub fn claims_are_made_once()
    ensures { (steps : List Step) (epoch : ℕ)
        → (all_stepped begun steps).epoch ≡ Some epoch → IsOneOf epoch (taken_back begun steps) → ⊥ }
{}

/// No two sessions have a number under one epoch, whatever is lost, late or repeated, and whenever voters crash, if any two quorums
/// share a voter.
pub fn epochs_are_claimed_by_one()
    ensures { (rows : List Row) (quorums : List (List ℕ)) (events : List Event) (steps others : List Step) (session other epoch first second : ℕ)
        → DoMeet quorums → IsOneOf (members_of first) quorums → IsOneOf (members_of second) quorums
        → AreSteps events (all_happen (start rows) events).answers session steps
        → AreSteps events (all_happen (start rows) events).answers other others
        → IsOwn (all_stepped begun steps) epoch first → IsOwn (all_stepped begun others) epoch second → session ≡ other }
{}

/// A session that has a number begins above all that was asked under it before: each stamp that was ever used under an earlier epoch
/// is at most the base that the session keeps. This is for sessions that ask only voters of which each told them that the stamp is
/// their own.
pub fn claims_begin_above()
    ensures { (rows : List Row) (quorums : List (List ℕ)) (events : List Event) (steps : List Step) (session epoch quorum : ℕ) (use_before : Use)
        → DoMeet quorums → MayAllCome quorums (start rows) events → IsOneOf (members_of quorum) quorums
        → AreSteps events (all_happen (start rows) events).answers session steps → IsOwn (all_stepped begun steps) epoch quorum
        → IsOneOf use_before (all_happen (start rows) events).uses → use_before.epoch < epoch
        → use_before.stamp ≤ (all_stepped begun steps).base }
{}

/// What the laws ask for can be had: two sessions have a number, one after the other, and a voter crashes between them.
pub fn two_sessions_claim()
    ensures meet { DoMeet pairs × MayAllCome pairs (start three_rows) two_sessions }
    ensures first { AreSteps two_sessions (all_happen (start three_rows) two_sessions).answers 7 seven × IsOwn (all_stepped begun seven) 1 3 }
    ensures second { AreSteps two_sessions (all_happen (start three_rows) two_sessions).answers 8 eight × IsOwn (all_stepped begun eight) 2 6 }
    ensures quorums { IsOneOf (members_of 3) pairs × IsOneOf (members_of 6) pairs }
    ensures above { (all_stepped begun eight).base ≡ 1 }
{}
