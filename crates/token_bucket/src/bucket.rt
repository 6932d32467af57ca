//! The token bucket.
ghost use Rattle.std.specs.Prelude.{◌≡◌, ◌≤◌, ◌<◌, ◌*◌, ◌/◌, ◌%◌, ◌^◌, ◌∷◌, [], Some, IfSome, IfErr, OnErr, OnOk, Ok, Err};
ghost use Rattle.token_bucket.specs.Buckets.{Bucket, IsSound, begun, billion, left, level_at, spend_of};
ghost use Rattle.token_bucket.specs.Saved.{words_of};

use crate::fault::BucketFault;
use std::marker::Model;

/// How many numbers a saved bucket has.
pub const SAVED_WORDS: usize = 5;

/// How many parts a token has. A bucket of one token a second gains one of them each nanosecond.
const BILLION: u128 = 1_000_000_000;

/// Half of the parts of a token.
const HALF_BILLION: u128 = 500_000_000;

/// A bucket of tokens: it gains `rate` of them a second, and has at most `most`.
///
/// Contracts see it as a `Bucket`.
#[derive(Drop)]
pub struct TokenBucket {
    rate: u64,
    most: u64,
    level: u128,
    at: u64,
}

impl Model for TokenBucket {
    ghost use Rattle.token_bucket.specs.Buckets.{Bucket, IsSound};

    ghost Value = { Bucket };

    ghost view = { λ b. record { rate = b.rate; most = b.most; level = b.level; at = b.at } };

    ghost invariant = { λ b. IsSound (record { rate = b.rate; most = b.most; level = b.level; at = b.at }) };
}

impl TokenBucket {
    /// Returns a bucket that begins now, with half of the tokens that it may have.
    pub fn new(rate: u64, most: u64, now: u64) -> Self
        ensures { result ≡ begun rate most now }
    {
        TokenBucket {
            rate,
            most,
            level: u128::from(most) * HALF_BILLION,
            at: now,
        }
    }

    /// Returns how many parts of tokens there are now.
    fn level_at(&self, now: u64) -> u128
        ensures value { result ≡ level_at self.now now }
        ensures few { result ≤ self.now.most * billion }
        ensures fits { self.now.most < 2 ^ 64 }
    {
        let gained = u128::from(self.rate) * u128::from(now.saturating_sub(self.at));
        let full = u128::from(self.most) * BILLION;
        full.min(self.level.saturating_add(gained))
    }

    /// Returns how many whole tokens there are now.
    pub fn left(&self, now: u64) -> u64
        ensures value { result ≡ left self.now now }
        ensures few { result ≤ self.now.most }
    {
        (self.level_at(now) / BILLION) as u64
    }

    /// Takes tokens. Fails with `TokensSpent` if and only if there are fewer now.
    pub fn spend(&mut self, now: u64, tokens: u64) -> Result<(), BucketFault>
        ensures spent { OnOk result (Ok self.new ≡ spend_of self.old now tokens) }
        ensures refused { IfErr result (λ fault. Err fault ≡ spend_of self.old now tokens) }
        ensures unchanged { OnErr result (self.new ≡ self.old) }
    {
        let level = self.level_at(now);
        if u128::from(tokens) > level / BILLION {
            return Err(BucketFault::TokensSpent);
        }
        self.level = level - u128::from(tokens) * BILLION;
        self.at = now.max(self.at);
        Ok(())
    }

    /// Returns the numbers of the bucket. Restored from them, it is the same bucket.
    #[tactic(auto, using(crate::proofs::BucketLemmas::left_then))]
    pub fn save(&self) -> [u64; SAVED_WORDS]
        ensures words { result ≡ words_of self.now }
        // So it can be restored, whatever calls led to it.
        ensures sound { IsSound self.now }
    {
        let parts = (self.level % BILLION) as u64;
        [self.rate, self.most, self.left(self.at), parts, self.at]
    }

    /// Returns the bucket that was saved as these numbers. `None` if they are not those of a bucket.
    pub fn restore(words: &[u64; SAVED_WORDS]) -> Option<TokenBucket>
        ensures sound { IfSome result IsSound }
        // It is saved as exactly these numbers.
        ensures text { IfSome result (λ b. words.now ≡ words_of b) }
        // A saved bucket is restored as it was.
        ensures read { (b : Bucket) → IsSound b → words.now ≡ words_of b → result ≡ Some b }
    {
        let [rate, most, tokens, parts, at] = *words;
        let level = u128::from(tokens) * BILLION + u128::from(parts);
        if u128::from(parts) >= BILLION || level > u128::from(most) * BILLION {
            return None;
        }
        Some(TokenBucket {
            rate,
            most,
            level,
            at,
        })
    }
}
