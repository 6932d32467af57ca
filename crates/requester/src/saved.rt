//! A client as numbers, to be saved and restored, and the least of it.
ghost use Rattle.std.specs.Prelude.{◌≡◌, ◌<◌, ◌+◌, ◌||◌, not, [], ℕ, List, IsTrue, IfSome, Some, true, length};
ghost use Rattle.arrayvec.specs.ArrayVec.{array_vec_len};
ghost use Rattle.numbers.specs.Bounds.{max_clients, max_voters};
ghost use Rattle.numbers.specs.Sets.{IsSet};
ghost use Rattle.quorum_set.specs.Words.{word_of};
ghost use Rattle.requester.specs.declared.state.ClientState.{ClientState};
ghost use Rattle.requester.specs.declared.state.Phase.{Phase};
ghost use Rattle.requester.specs.Saved.{HasSets, IsKept, has_sound_numbers, head_words, is_held_well, is_vote_sound, least_client, phase_word, words_of};
ghost use Rattle.requester.specs.Soundness.{HasPlaces, IsSound};
ghost use Rattle.requester.specs.Words.{is_covered, is_inside};

use crate::state::{ClientState, Members, Phase};
use arrayvec::ArrayVec;
use numbers::{MAX_CLIENTS, MAX_LIMIT, MAX_VOTERS};
use quorum_set::QSet;

/// How many numbers a saved client has.
pub const SAVED_WORDS: usize = 138;

/// The numbers of a saved client.
pub type SavedWords = ArrayVec<u64, 138>;

/// The first number, as bytes: `qclient` and 1.
const HEADER: u64 = 104830073175827313;

impl ClientState {
    #[tactic(auto, using(crate::proofs::SavedLemmas::set_by_bits))]
    fn push_head(&self, words: &mut SavedWords)
        requires room { words.old.items ≡ [] }
        requires quorum { IsSet self.now.quorum.items }
        ensures head { words.new.items ≡ head_words self.now }
        ensures len { array_vec_len words.new ≡ 10 }
        ensures marks { HasSets self.now }
    {
        words.push(HEADER);
        words.push(u64::from(self.id));
        words.push(self.limit);
        words.push(self.clock);
        words.push(word_of_phase(self.phase));
        words.push(self.stamp);
        words.push(bits_of(self.quorum.as_slice()));
        words.push(self.failed.bits());
        words.push(self.relinquished.bits());
        words.push(self.inquired.bits());
    }

    /// Writes the numbers of the client.
    #[tactic(auto, unfolding(crate::specs::Saved::words_of))]
    pub fn save(&self, words: &mut SavedWords)
        requires quorum { IsSet self.now.quorum.items }
        ensures words { words.new.items ≡ words_of self.now }
        ensures len { array_vec_len words.new ≡ 138 }
        ensures marks { HasSets self.now }
    {
        words.clear();
        self.push_head(words);
        let _ = words.try_extend_from_slice(&self.held);
        let _ = words.try_extend_from_slice(&self.last);
    }

    /// Forgets all but the least.
    pub fn forget(&mut self)
        ensures { self.new ≡ least_client self.old }
    {
        self.phase = Phase::Idle;
        self.quorum = ArrayVec::new();
        self.held = [0; MAX_VOTERS];
        self.last = [0; MAX_VOTERS];
        self.failed = QSet::empty();
        self.relinquished = QSet::empty();
        self.inquired = QSet::empty();
    }

    fn is_saved_as(&self, words: &[u64]) -> bool
        requires quorum { IsSet self.now.quorum.items }
        ensures text { IsTrue result → words.now ≡ words_of self.now }
        ensures read { words.now ≡ words_of self.now → IsTrue result }
    {
        let mut own = ArrayVec::new();
        self.save(&mut own);
        own.as_slice() == words
    }

    fn has_sound_numbers(&self) -> bool
        ensures { result ≡ has_sound_numbers self.now }
    {
        1 <= self.limit
            && self.limit <= MAX_LIMIT
            && self.stamp <= self.limit
            && self.stamp <= self.clock
            && (self.phase == Phase::Idle || 0 < self.stamp && 0 < self.quorum.len())
    }

    fn is_covered_if_inside(&self) -> bool
        ensures { result ≡ (not (is_inside self.now.phase) || is_covered self.now) }
    {
        self.phase != Phase::Inside || self.is_covered()
    }

    fn is_held_well(&self, voter: u8) -> bool
        ensures { result ≡ is_held_well self.now voter }
    {
        !self.holds(voter)
            || self.phase != Phase::Idle
                && self.is_member(voter)
                && self.last_of(voter) < self.held_of(voter)
    }

    fn is_vote_sound(&self, voter: u8) -> bool
        ensures { result ≡ is_vote_sound self.now voter }
    {
        self.is_held_well(voter)
            && (!self.inquired.has(voter) || self.holds(voter))
            && (!self.relinquished.has(voter) || 0 < self.last_of(voter))
    }

    fn are_votes_sound(&self) -> bool
        ensures all { IsTrue result → (v : ℕ) → v < max_voters → is_vote_sound self.now v ≡ true }
        ensures read { ((v : ℕ) → v < max_voters → is_vote_sound self.now v ≡ true) → IsTrue result }
    {
        for v in 0..MAX_VOTERS as u8 {
            if !self.is_vote_sound(v) {
                return false;
            }
        }
        true
    }

    /// Returns whether the client is sound, if its number is below 64 and its sets are sets.
    fn is_sound(&self) -> bool
        requires id { self.now.id < max_clients }
        requires places { HasPlaces self.now }
        requires quorum { IsSet self.now.quorum.items }
        requires sets { HasSets self.now }
        ensures sound { IsTrue result → IsSound self.now }
        ensures read { IsSound self.now → IsTrue result }
    {
        self.has_sound_numbers() && self.is_covered_if_inside() && self.are_votes_sound()
    }

    /// Returns the client with these numbers, if they are those of a sound client.
    pub fn restore(words: &[u64]) -> Option<ClientState>
        ensures kept { IfSome result IsKept }
        ensures text { IfSome result (λ x. words.now ≡ words_of x) }
        ensures read { (x : ClientState) → IsKept x → words.now ≡ words_of x → result ≡ Some x }
    {
        if words.len() != SAVED_WORDS {
            return None;
        }
        if_saved(client_of(words), words)
    }
}

/// Returns the bits of the set with these members.
pub fn bits_of(members: &[u8]) -> u64
    requires { IsSet members.now }
    ensures { result ≡ word_of members.now }
{
    let mut bits = 0;
    for v in members {
        bits += 1u64 << *v;
    }
    bits
}

/// Returns the set with these bits.
#[tactic(auto, using(crate::proofs::SavedLemmas::set_again))]
fn set_of(bits: u64) -> QSet
    ensures set { IsSet result }
    ensures read { (s : List ℕ) → IsSet s → bits ≡ word_of s → result ≡ s }
{
    QSet::of_bits(bits)
}

fn word_of_phase(phase: Phase) -> u64
    ensures { result ≡ phase_word phase }
{
    match phase {
        Phase::Idle => 0,
        Phase::Asking => 1,
        Phase::Inside => 2,
    }
}

fn phase_of(word: u64) -> Phase
    ensures { (p : Phase) → word ≡ phase_word p → result ≡ p }
{
    match word {
        0 => Phase::Idle,
        1 => Phase::Asking,
        _ => Phase::Inside,
    }
}

/// Returns the client with these numbers, and any client if they are those of none.
fn client_of(words: &[u64]) -> ClientState
    requires { length words.now ≡ 138 }
    ensures id { result.id < max_clients }
    ensures quorum { IsSet result.quorum.items }
    ensures sets { HasSets result }
    ensures read { (x : ClientState) → IsKept x → words.now ≡ words_of x → result ≡ x }
{
    let mut held = [0; MAX_VOTERS];
    held.copy_from_slice(&words[10..74]);
    let mut last = [0; MAX_VOTERS];
    last.copy_from_slice(&words[74..138]);
    ClientState {
        id: (words[1] % MAX_CLIENTS as u64) as u8,
        limit: words[2],
        clock: words[3],
        phase: phase_of(words[4]),
        stamp: words[5],
        quorum: set_of(words[6]).members(),
        held,
        last,
        failed: set_of(words[7]),
        relinquished: set_of(words[8]),
        inquired: set_of(words[9]),
    }
}

/// Returns the client if it is sound and has these numbers.
fn if_saved(client: ClientState, words: &[u64]) -> Option<ClientState>
    requires id { client.id < max_clients }
    requires places { HasPlaces client }
    requires quorum { IsSet client.quorum.items }
    requires sets { HasSets client }
    ensures kept { IfSome result IsKept }
    ensures text { IfSome result (λ x. words.now ≡ words_of x) }
    ensures read { IsKept client → words.now ≡ words_of client → result ≡ Some client }
{
    if client.is_sound() && client.is_saved_as(words) {
        return Some(client);
    }
    None
}
