//! Laws: which stamps are a session's own.
ghost use Rattle.std.specs.Prelude.{bit_and, ◌≡◌, ◌==◌, ◌^◌, ◌∷◌, ◌<◌, ◌≤◌, [], ℕ, List, Some, false, length, replicate, slice_set, true};
ghost use Rattle.std.specs.Int.{bit_not, w64};
ghost use Rattle.std.specs.List.{AllByRecursion, slice_get};
ghost use Rattle.numbers.specs.Sets.{members_of};
ghost use Rattle.sessions.specs.Rows.{AreOnce, IsOneOf, Row};
ghost use Rattle.lost_rows.specs.Example.{no_rows, other_two, pairs, two_sessions};
ghost use Rattle.lost_rows.specs.Voters.{AreSound, Answer, Event, IsTold, MayAllCome, MayAsk, Recoveries, all_happen, start};
ghost use Rattle.own_stamps.specs.Asking.{IsKnown, KeepsWhatItHeard, MayAllComeByStamps};
ghost use Rattle.own_stamps.specs.Example.{eight, seven};
ghost use Rattle.own_stamps.specs.Stamps.{AreBelow, IsOf, all_told, forgotten, is_own, may_ask, owners, renewed, told, untold};
ghost use Rattle.own_stamps.specs.declared.stamps.OwnStamps.{OwnStamps};

use lost_rows::{a_voter_is_made_again, stamps_are_used_once};

/// A session that has a stamp by what it keeps of a voter was told so: one of the answers that it took, of these, gives it the
/// stamp. So it may ask that voter, as `lost_rows` asks for.
pub fn own_stamps_were_told()
    ensures { (answers taken : List Answer) (session epoch stamp voter run : ℕ)
        → AllByRecursion (IsOf answers session epoch voter run) taken → is_own (all_told run taken) stamp ≡ true
        → (a : Answer) × IsOneOf a taken × IsTold answers session epoch stamp voter a }
{}

/// What was told stays: if some answer that the session took gives it a stamp, it has the stamp, unless an answer has a base at or
/// above that.
pub fn told_stamps_are_own()
    ensures { (taken : List Answer) (session epoch stamp voter run : ℕ) (a : Answer)
        → IsTold taken session epoch stamp voter a → AllByRecursion (AreBelow stamp) taken
        → is_own (all_told run taken) stamp ≡ true }
{}

/// Once a later run of a voter is known, no stamp is the session's own there by what the voter told before. And what it tells late of an
/// earlier run changes nothing.
pub fn earlier_runs_count_no_more()
    ensures known { (s : OwnStamps) (run stamp : ℕ) → s.run < run → is_own (renewed s run) stamp ≡ false }
    ensures late { (s : OwnStamps) (run base reserved : ℕ) → run < s.run → told s run base reserved ≡ s }
{}

/// What a session keeps by the calls is what it heard of answers that left voters: so it is in the beginning, and it stays so
///
/// - if it hears that a voter has a run, whichever that is;
/// - if it hears an answer for its number and epoch, once it knows of all runs that this answer knew of;
/// - if what a voter told is forgotten, and not its run;
/// - and if more answers leave.
pub fn sessions_keep_what_they_heard()
    ensures new { (answers : List Answer) (session epoch voters : ℕ) → KeepsWhatItHeard answers session epoch (replicate voters (untold 0)) }
    ensures renews { (answers : List Answer) (kept : List OwnStamps) (session epoch voter run : ℕ) (s : OwnStamps)
        → KeepsWhatItHeard answers session epoch kept → slice_get kept voter ≡ Some s
        → KeepsWhatItHeard answers session epoch (slice_set kept voter (renewed s run)) }
    ensures hears { (answers : List Answer) (kept : List OwnStamps) (session epoch voter : ℕ) (s : OwnStamps) (a : Answer)
        → KeepsWhatItHeard answers session epoch kept → slice_get kept voter ≡ Some s → IsOf answers session epoch voter a.run a
        → IsKnown kept a → KeepsWhatItHeard answers session epoch (slice_set kept voter (told s a.run a.row.base a.row.reserved)) }
    ensures forgets { (answers : List Answer) (kept : List OwnStamps) (session epoch voter : ℕ) (s : OwnStamps)
        → KeepsWhatItHeard answers session epoch kept → slice_get kept voter ≡ Some s
        → KeepsWhatItHeard answers session epoch (slice_set kept voter (forgotten s)) }
    ensures later { (answers : List Answer) (kept : List OwnStamps) (session epoch : ℕ) (a : Answer)
        → KeepsWhatItHeard answers session epoch kept → KeepsWhatItHeard (a ∷ answers) session epoch kept }
{}

/// A quorum that a session may ask was told: by what the session keeps of answers that left voters, each voter of the quorum told it that
/// the stamp is its own, and none of what they told says that another one has a later run.
pub fn who_may_ask_was_told()
    ensures { (answers : List Answer) (kept : List OwnStamps) (session epoch quorum stamp : ℕ)
        → KeepsWhatItHeard answers session epoch kept → may_ask kept quorum stamp ≡ true
        → MayAsk answers session epoch stamp (members_of quorum) }
{}

/// The quorums that a session may ask are those of the voters at which the stamp is its own. So whoever has these voters as a word decides
/// by that which quorum it may ask: one that has no voter beside them.
pub fn quorums_of_owners_may_be_asked()
    ensures { (kept : List OwnStamps) (quorum stamp voters : ℕ) → quorum < 2 ^ 64 → voters < 2 ^ 64 → members_of voters ≡ owners kept stamp
        → (bit_and quorum (bit_not w64 voters) == 0) ≡ may_ask kept quorum stamp }
{}

/// No stamp is used by two sessions, whatever is lost, late or repeated, and whenever voters crash, or lose their states and are made again,
/// if each session asks only quorums that it may ask by what it keeps then. The premises on voters are those of `lost_rows`. The events then
/// are those of which `lost_rows` speaks: so all its laws hold of them.
pub fn own_stamps_are_used_once()
    ensures come { (rows : ℕ → Row) (quorums : List (List ℕ)) (recoveries : Recoveries) (events : List Event)
        → MayAllComeByStamps quorums recoveries (start rows) events → MayAllCome quorums recoveries (start rows) events }
    ensures once { (rows : ℕ → Row) (quorums : List (List ℕ)) (recoveries : Recoveries) (events : List Event)
        → AreSound quorums recoveries → MayAllComeByStamps quorums recoveries (start rows) events
        → AreOnce (all_happen (start rows) events).uses }
{
    stamps_are_used_once();
}

/// What the laws ask for can be had: two sessions ask by what they keep, one after the other, and a voter loses its state between them, and
/// is made again. The second session may not ask a voter that told it nothing.
pub fn two_sessions_ask()
    ensures ask { AreSound pairs other_two × MayAllComeByStamps pairs other_two (start no_rows) two_sessions
        × (length (all_happen (start no_rows) two_sessions).uses ≡ 2) }
    ensures first { owners seven 1 ≡ 0 ∷ 1 ∷ [] }
    ensures second { owners eight 2 ≡ 1 ∷ 2 ∷ [] }
    ensures other { may_ask eight 3 2 ≡ false }
{
    a_voter_is_made_again();
}
