//! A voter as numbers, to be saved and restored, and the least of it.
ghost use Rattle.std.specs.Prelude.{◌≡◌, ◌<◌, ◌≤◌, ◌+◌, ◌++◌, ◌∷◌, [], ℕ, Option, IsTrue, IfSome, Some, None, length, slice_index};
ghost use Rattle.std.specs.FinMap as map;
ghost use Rattle.arrayvec.specs.ArrayVec.{array_vec_len};
ghost use Rattle.numbers.specs.Bounds.{max_clients, max_voters};
ghost use Rattle.voter.specs.declared.state.Grant.{Grant};
ghost use Rattle.voter.specs.declared.state.VoterState.{VoterState};
ghost use Rattle.voter.specs.Waiting.{waiting_words};
ghost use Rattle.voter.specs.Saved.{IsHolder, IsKept, grant_words, head_words, least_voter, stamp_of_word, words_of};

use crate::queue::Queue;
use crate::state::{Grant, VoterState};
use arrayvec::ArrayVec;
use message::Request;
use numbers::{MAX_CLIENTS, MAX_LIMIT};

/// How many numbers a saved voter has.
pub const SAVED_WORDS: usize = 138;

/// The numbers of a saved voter.
pub type SavedWords = ArrayVec<u64, 138>;

/// The first number, as bytes: `qvoter1` and 0.
const HEADER: u64 = 13918053929547377;

impl VoterState {
    fn push_head(&self, words: &mut SavedWords)
        requires room { words.old.items ≡ [] }
        ensures head { words.new.items ≡ head_words self.now }
        ensures len { array_vec_len words.new ≡ 10 }
    {
        words.push(HEADER);
        words.push(u64::from(self.id));
        words.push(self.limit);
        words.push(self.granted);
        words.push(self.seen);
        words.push(u64::from(self.inquiring));
        match self.held {
            None => push_four(0, 0, 0, 0, words),
            Some(g) => push_four(1, u64::from(g.client), g.stamp, g.grant, words),
        }
    }

    fn push_waiting(&self, words: &mut SavedWords)
        requires room { array_vec_len words.old + max_clients ≤ 138 }
        ensures waiting { words.new.items ≡ words.old.items ++ waiting_words self.now.waiting }
        ensures len { array_vec_len words.new ≡ array_vec_len words.old + max_clients }
    {
        for client in 0..MAX_CLIENTS as u8 {
            words.push(self.waiting.stamp_of(client).unwrap_or(0));
        }
    }

    /// Writes the numbers of the voter.
    #[tactic(auto, unfolding(crate::specs::Saved::words_of))]
    pub fn save(&self, words: &mut SavedWords)
        ensures words { words.new.items ≡ words_of self.now }
        ensures len { array_vec_len words.new ≡ 138 }
    {
        words.clear();
        self.push_head(words);
        self.push_waiting(words);
        let _ = words.try_extend_from_slice(&self.finished);
    }

    /// Forgets all but the least.
    pub fn forget(&mut self)
        ensures { self.new ≡ least_voter self.old }
    {
        self.inquiring = false;
        self.waiting = Queue::new();
        self.finished = [0; MAX_CLIENTS];
        self.seen = 0;
    }

    fn is_saved_as(&self, words: &[u64]) -> bool
        ensures text { IsTrue result → words.now ≡ words_of self.now }
        ensures read { words.now ≡ words_of self.now → IsTrue result }
    {
        let mut own = ArrayVec::new();
        self.save(&mut own);
        own.as_slice() == words
    }

    /// Returns whether the grant, the number of grants and the waiting requests are those of a sound
    /// voter.
    #[tactic(auto, using(crate::proofs::SavedLemmas::nobody_waits))]
    fn has_sound_vote(&self) -> bool
        ensures holder { IsTrue result → IsHolder self.now.held }
        ensures numbered { IsTrue result → (g : Grant) → self.now.held ≡ Some g → g.grant ≤ self.now.granted }
        ensures apart { IsTrue result → (g : Grant) → self.now.held ≡ Some g → map.get self.now.waiting g.client ≡ None }
        ensures free { IsTrue result → self.now.held ≡ None → (client : ℕ) → map.get self.now.waiting client ≡ None }
        ensures read { IsKept self.now → IsTrue result }
    {
        match self.held {
            Some(g) => {
                usize::from(g.client) < MAX_CLIENTS
                    && g.stamp > 0
                    && g.grant > 0
                    && g.grant <= self.granted
                    && self.waiting.stamp_of(g.client).is_none()
            }
            None => self.waiting.front().is_none(),
        }
    }

    /// Returns the voter with these numbers, if they are those of a sound voter.
    pub fn restore(words: &[u64]) -> Option<VoterState>
        ensures kept { IfSome result IsKept }
        ensures text { IfSome result (λ v. words.now ≡ words_of v) }
        ensures read { (v : VoterState) → IsKept v → words.now ≡ words_of v → result ≡ Some v }
    {
        if words.len() != SAVED_WORDS {
            return None;
        }
        if_saved(voter_of(words), words)
    }
}

fn push_four(a: u64, b: u64, c: u64, d: u64, words: &mut SavedWords)
    requires room { array_vec_len words.old + 4 ≤ 138 }
    ensures numbers { words.new.items ≡ words.old.items ++ a ∷ b ∷ c ∷ d ∷ [] }
    ensures len { array_vec_len words.new ≡ array_vec_len words.old + 4 }
{
    words.push(a);
    words.push(b);
    words.push(c);
    words.push(d);
}

/// Returns the waiting requests from the stamp of each client's request, 0 if it doesn't wait.
fn queue_of(words: &[u64]) -> Queue
    requires { length words.now ≡ max_clients }
    ensures { (c : ℕ) → map.get result c ≡ stamp_of_word (slice_index words.now c) }
{
    let mut queue = Queue::new();
    for client in 0..MAX_CLIENTS as u8 {
        let stamp = stamp_at(words, client);
        add(&mut queue, client, stamp);
    }
    queue
}

fn stamp_at(words: &[u64], client: u8) -> u64
    requires { client < length words.now }
    ensures { result ≡ slice_index words.now client }
{
    words[client as usize]
}

/// Adds the request of a client that doesn't wait yet, unless the stamp is 0.
fn add(queue: &mut Queue, client: u8, stamp: u64)
    requires client { client < max_clients }
    requires first { map.get queue.old client ≡ None }
    ensures some { 0 < stamp → queue.new ≡ map.insert queue.old client stamp }
    ensures none { stamp ≡ 0 → queue.new ≡ queue.old }
{
    if stamp > 0 {
        queue.add(Request { stamp, client });
    }
}

/// Returns the number of a voter or a client that a word is.
fn number_of(word: u64) -> u8
    ensures below { result < max_clients }
    ensures read { word < max_clients → result ≡ word }
{
    (word % MAX_CLIENTS as u64) as u8
}

/// Returns the grant with these numbers, none if the first is 0.
fn grant_of(mark: u64, client: u64, stamp: u64, grant: u64) -> Option<Grant>
    ensures { (held : Option Grant) → IsHolder held → mark ∷ client ∷ stamp ∷ grant ∷ [] ≡ grant_words held
        → result ≡ held }
{
    if mark == 0 {
        return None;
    }
    Some(Grant {
        client: number_of(client),
        stamp,
        grant,
    })
}

/// Returns the voter with these numbers, and any voter if they are those of none.
fn voter_of(words: &[u64]) -> VoterState
    requires { length words.now ≡ 138 }
    ensures id { result.id < max_voters }
    ensures stamped { (c s : ℕ) → map.get result.waiting c ≡ Some s → 1 ≤ s }
    ensures few { (c : ℕ) → max_clients ≤ c → map.get result.waiting c ≡ None }
    ensures read { (v : VoterState) → IsKept v → words.now ≡ words_of v → result ≡ v }
{
    let mut finished = [0; MAX_CLIENTS];
    finished.copy_from_slice(&words[74..138]);
    VoterState {
        id: number_of(words[1]),
        limit: words[2],
        granted: words[3],
        seen: words[4],
        inquiring: words[5] == 1,
        held: grant_of(words[6], words[7], words[8], words[9]),
        waiting: queue_of(&words[10..74]),
        finished,
    }
}

/// Returns the voter if it is sound and has these numbers.
fn if_saved(voter: VoterState, words: &[u64]) -> Option<VoterState>
    requires id { voter.id < max_voters }
    requires stamped { (c s : ℕ) → map.get voter.waiting c ≡ Some s → 1 ≤ s }
    requires few { (c : ℕ) → max_clients ≤ c → map.get voter.waiting c ≡ None }
    ensures kept { IfSome result IsKept }
    ensures text { IfSome result (λ v. words.now ≡ words_of v) }
    ensures read { IsKept voter → words.now ≡ words_of voter → result ≡ Some voter }
{
    if voter.limit <= MAX_LIMIT
        && voter.granted <= voter.limit
        && voter.has_sound_vote()
        && voter.is_saved_as(words)
    {
        return Some(voter);
    }
    None
}
