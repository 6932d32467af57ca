//! What of a voter has to survive.
ghost use Rattle.std.specs.Prelude.{◌≡◌};
ghost use Rattle.std.specs.Bool.{OnFalse, OnTrue};
ghost use Rattle.voter_node.specs.LeftOut.{HaveSameLeast};

use arrayvec::ArrayVec;
use voter::{SavedWords, Voter};

/// The place of the number of grants among the numbers of a saved voter.
const GRANTED: usize = 3;

/// Returns how many grants the voter gave.
#[tactic(auto, unfolding(voter::specs::Saved::words_of))]
fn granted_of(voter: &Voter) -> u64
    ensures { result ≡ voter.now.granted }
{
    let mut words: SavedWords = ArrayVec::new();
    voter.save(&mut words);
    words[GRANTED]
}

/// Returns whether a voter that was saved as the first and is now the second has to be saved before
/// its messages leave, if it restarts by [`Voter::forget`].
///
/// It has to if another grant holds the vote, or if it gave more grants.
pub fn must_save(saved: &Voter, live: &Voter) -> bool
    ensures must { OnTrue result (HaveSameLeast saved.now live.now → ⊥) }
    ensures need_not { OnFalse result (HaveSameLeast saved.now live.now) }
{
    saved.id() != live.id()
        || saved.limit() != live.limit()
        || saved.held() != live.held()
        || granted_of(saved) != granted_of(live)
}
