//! Stories: what a crash undoes, and what a guard does with passes.
use dealer::Plans;
use std::alloc::{AllocError, Global};
use stories::{Happening, Moment, Story, StoryScript, read_story, story_of};
use test_plans::majority_plan;

/// Texts of stories with any two of three voters as quorums, and what their last turns do, the last one
/// first: see [`number_of`].
const STORIES: [(&str, [u64; 4]); 3] = [
    // Client 0 forgets a LOCKED in a crash.
    (
        "# a note\n\nworld 2 100\nask 0\ndeliver 0\ndeliver 1\ndeliver 2\ncrash-client 0\ndeliver 3\ncrash-voter 2\n",
        [700, 0, 701, 0],
    ),
    // A voter is reborn with its one grant, and a client starts anew with its last stamp.
    (
        "world 3 100\nask 0\nask 1\nask 2\ndeliver 0\ndeliver 3\ndeliver 4\n\
        reborn-voter 0\nreborn-voter 3\nanew-client 1\nanew-client 3\n",
        [0, 601, 0, 601],
    ),
    // Three clients are inside, each with a newer grant than another one.
    (
        "world 3 100\nask 0\nask 1\nask 2\ndeliver 0\ndeliver 3\ndeliver 4\n\
        deliver 2\ndeliver 5\ndeliver 1\nevict 0\nevict 2\nevict 1\ndeliver 6\ndeliver 14\n\
        deliver 7\ndeliver 12\ndeliver 8\ndeliver 13\nshow 0\nshow 1\nshow 2\nshow 0\n",
        [101, 111, 2, 1],
    ),
];

/// Returns what a turn did, as a number. An admitted pass is its turn. A refused one is 100, 10 for each
/// voter, and the number that was shown. A rebirth is 600 and the number of grants, a client anew 600 and
/// its clock, and a crash 700 and how many messages it undid.
fn number_of(moment: &Moment) -> u64 {
    match moment.happening {
        Happening::Admitted(turn) => turn,
        Happening::Late(late) => late
            .shown
            .saturating_add(u64::from(late.voter).saturating_mul(10))
            .saturating_add(100),
        Happening::Reborn(count) => count.saturating_add(600),
        Happening::Anew { clock, .. } => clock.saturating_add(600),
        Happening::Crashed(messages) => (messages as u64).saturating_add(700),
        _ => 0,
    }
}

/// Returns what the last four turns of a story did.
fn last_turns(story: &Story) -> [u64; 4] {
    let mut last = [0; 4];
    for (place, moment) in story.moments.as_slice().iter().rev().enumerate() {
        if place < 4 {
            last[place] = number_of(moment);
        }
    }
    last
}

/// Plays a script, and returns what its last four turns did.
fn played(alloc: Global, script: &StoryScript) -> Result<[u64; 4], AllocError> {
    let plan = majority_plan(alloc).ok_or(AllocError)?;
    let story = story_of(alloc, Plans::single(plan), script)?;
    Ok(last_turns(&story))
}

/// Returns what the last four turns of a text did, or `None` if it is no story or memory runs out.
fn told(alloc: Global, text: &str) -> Option<[u64; 4]> {
    match read_story(alloc, text.as_bytes()) {
        Ok(script) => played(alloc, &script).ok(),
        Err(_) => None,
    }
}

#[test]
fn stories_are_played(rt: HostRuntime) {
    for (text, wanted) in &STORIES {
        assert!(rt; told(rt.alloc(), text) == Some(*wanted));
    }
}
