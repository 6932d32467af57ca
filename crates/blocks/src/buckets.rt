//! A token bucket as bytes, and what its calls do.
ghost use Rattle.std.specs.Prelude.{◌≡◌, IfErr, IfOk, IfSome, OnErr, Some, length};
ghost use Rattle.token_bucket.specs.Buckets.{Bucket, IsSound};
ghost use Rattle.token_bucket.specs.Saved.{words_of};
ghost use Rattle.blocks.specs.BucketSteps.{BucketIsMade, BucketShowsLeft, BucketSpends};
ghost use Rattle.blocks.specs.Bytes.{IsBucket, IsNoBucket};
ghost use Rattle.blocks.specs.Numbers.{returned};

use crate::refusal::Refusal;
use arrayvec::ArrayVec;
use token_bucket::{SAVED_WORDS, TokenBucket};
use words::{read_words, write_words};

/// How many bytes a saved bucket has.
pub const BUCKET_BYTES: usize = 40;

/// Returns the bucket that was saved as these bytes. Fails with `BadState` if there is none.
fn load_bucket(bytes: &[u8]) -> Result<TokenBucket, Refusal>
    ensures loaded { IfOk result (IsBucket bytes.now) }
    // It is the only one.
    ensures only { IfOk result (λ b. (d : Bucket) → IsBucket bytes.now d → d ≡ b) }
    ensures len { IfOk result (λ _. length bytes.now ≡ 40) }
    ensures refused { IfErr result (λ r. (r ≡ Refusal.BadState) × IsNoBucket bytes.now) }
{
    if bytes.len() != BUCKET_BYTES {
        return Err(Refusal::BadState);
    }
    let mut words = ArrayVec::<u64, SAVED_WORDS>::new();
    read_words(bytes, &mut words);
    match bucket_of(words.as_slice()) {
        Some(bucket) => Ok(bucket),
        None => Err(Refusal::BadState),
    }
}

/// Returns the bucket with these numbers. `None` if they are not those of a bucket.
fn bucket_of(words: &[u64]) -> Option<TokenBucket>
    requires { length words.now ≡ 5 }
    ensures sound { IfSome result IsSound }
    ensures text { IfSome result (λ b. words.now ≡ words_of b) }
    ensures read { (b : Bucket) → IsSound b → words.now ≡ words_of b → result ≡ Some b }
{
    let mut numbers = [0; SAVED_WORDS];
    numbers.copy_from_slice(words);
    TokenBucket::restore(&numbers)
}

/// Writes the bytes of a bucket.
fn store_bucket(bucket: &TokenBucket, bytes: &mut [u8])
    requires { length bytes.old ≡ 40 }
    ensures { IsBucket bytes.new bucket.now }
{
    write_words(&bucket.save(), bytes);
}

/// Makes a bucket that begins now, with half of the tokens that it may have.
pub fn new(rate: u64, most: u64, now: u64, bucket: &mut [u8]) -> Result<(), Refusal>
    ensures made { BucketIsMade rate most now bucket.old bucket.new (returned result) }
    ensures refused { OnErr result (bucket.new ≡ bucket.old) }
{
    if bucket.len() != BUCKET_BYTES {
        return Err(Refusal::BadState);
    }
    store_bucket(&TokenBucket::new(rate, most, now), bucket);
    Ok(())
}

/// Writes how many whole tokens there are now.
pub fn left(bucket: &[u8], now: u64, tokens: &mut u64) -> Result<(), Refusal>
    ensures shows { BucketShowsLeft bucket.now now tokens.new (returned result) }
    ensures refused { OnErr result (tokens.new ≡ tokens.old) }
{
    *tokens = load_bucket(bucket)?.left(now);
    Ok(())
}

/// Takes tokens, if there are so many now.
pub fn spend(bucket: &mut [u8], now: u64, tokens: u64) -> Result<(), Refusal>
    ensures spends { BucketSpends bucket.old now tokens bucket.new (returned result) }
    ensures refused { OnErr result (bucket.new ≡ bucket.old) }
{
    let mut it = load_bucket(bucket)?;
    it.spend(now, tokens)?;
    store_bucket(&it, bucket);
    Ok(())
}
