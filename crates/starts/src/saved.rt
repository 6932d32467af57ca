//! A peer and a start as numbers of 64 bits, to be saved and restored.
ghost use Rattle.std.specs.Prelude.{◌≡◌, ◌+◌, ◌*◌, ◌/◌, ◌%◌, ◌^◌, Bool, IfSome, Some};
ghost use Rattle.starts.specs.declared.peer.Peer.{Peer};
ghost use Rattle.starts.specs.declared.start.Start.{Start};
ghost use Rattle.starts.specs.Saved.{flags_of, peer_words, start_words};

use crate::peer::Peer;
use crate::start::Start;

/// How many numbers a saved peer has.
pub const PEER_WORDS: usize = 7;

/// How many numbers a saved start has.
pub const START_WORDS: usize = 10;

/// How many numbers a half of an identity may be.
const HALF: u128 = 1 << 64;

/// Returns the identity with these halves.
pub fn identity_of(upper: u64, lower: u64) -> u128
    ensures { result ≡ upper * 2 ^ 64 + lower }
{
    u128::from(upper) * HALF + u128::from(lower)
}

fn upper_half(identity: u128) -> u64
    ensures { result ≡ identity / 2 ^ 64 }
{
    (identity / HALF) as u64
}

fn lower_half(identity: u128) -> u64
    ensures { result ≡ identity % 2 ^ 64 }
{
    (identity % HALF) as u64
}

impl Peer {
    /// Returns the numbers of the peer. Restored from them, it is the same.
    pub fn save(&self) -> [u64; PEER_WORDS]
        ensures { result ≡ peer_words self.now }
    {
        [
            upper_half(self.identity),
            lower_half(self.identity),
            self.run,
            self.start,
            self.process,
            self.ceiling,
            self.ended,
        ]
    }

    /// Returns the peer that was saved as these numbers.
    #[tactic(auto, using(crate::proofs::SavedLemmas::peer_of, crate::proofs::SavedLemmas::peer_text))]
    pub fn restore(words: &[u64; PEER_WORDS]) -> Peer
        // It is saved as exactly these numbers.
        ensures text { words.now ≡ peer_words result }
        // A saved peer is restored as it was.
        ensures read { (p : Peer) → words.now ≡ peer_words p → result ≡ p }
    {
        let [upper, lower, run, start, process, ceiling, ended] = *words;
        Peer {
            identity: identity_of(upper, lower),
            run,
            start,
            process,
            ceiling,
            ended,
        }
    }
}

/// Returns two flags as a number.
fn flags_of(serves: bool, is_clean: bool) -> u64
    ensures { result ≡ flags_of serves is_clean }
{
    u64::from(serves) + if is_clean { 2 } else { 0 }
}

/// Returns the flags that are this number. `None` if there are none.
fn flags_in(flags: u64) -> Option<(bool, bool)>
    ensures text { IfSome result (λ found. flags ≡ flags_of found.0 found.1) }
    ensures read { (serves is_clean : Bool) → flags ≡ flags_of serves is_clean → result ≡ Some (serves, is_clean) }
{
    match flags {
        0 => Some((false, false)),
        1 => Some((true, false)),
        2 => Some((false, true)),
        3 => Some((true, true)),
        _ => None,
    }
}

impl Start {
    /// Returns the numbers of the start. Restored from them, it is the same.
    pub fn save(&self) -> [u64; START_WORDS]
        ensures { result ≡ start_words self.now }
    {
        [
            self.answered,
            self.counted,
            self.known,
            self.floor,
            self.asked,
            self.kept,
            self.ceiling,
            self.first,
            self.block,
            flags_of(self.serves, self.is_clean),
        ]
    }

    /// Returns the start that was saved as these numbers. `None` if they are not those of a start.
    pub fn restore(words: &[u64; START_WORDS]) -> Option<Start>
        // It is saved as exactly these numbers.
        ensures text { IfSome result (λ s. words.now ≡ start_words s) }
        // A saved start is restored as it was.
        ensures read { (s : Start) → words.now ≡ start_words s → result ≡ Some s }
    {
        let [
            answered,
            counted,
            known,
            floor,
            asked,
            kept,
            ceiling,
            first,
            block,
            flags,
        ] = *words;
        let Some((serves, is_clean)) = flags_in(flags) else {
            return None;
        };
        Some(Start {
            answered,
            counted,
            known,
            floor,
            asked,
            kept,
            ceiling,
            first,
            block,
            serves,
            is_clean,
        })
    }
}
