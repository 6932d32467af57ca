//! The calls of a token bucket.
ghost use Rattle.std.specs.Prelude.{◌≡◌, ◌≢◌};
ghost use Rattle.blocks.specs.BucketSteps.{BucketIsMade, BucketShowsLeft, BucketSpends};
ghost use Rattle.blocks.specs.Numbers.{done};

use blocks::{buckets, number_of};

/// Makes a bucket that begins now, with half of the tokens that it may have, in 40 bytes.
#[unsafe(no_mangle)]
pub extern "C" fn qlock_bucket_new(rate: u64, most: u64, now: u64, bucket: &mut [u8]) -> i32
    // A call that is refused writes nothing.
    ensures refused { result ≢ done → bucket.new ≡ bucket.old }
    ensures made { BucketIsMade rate most now bucket.old bucket.new result }
{
    number_of(buckets::new(rate, most, now, bucket))
}

/// Writes how many whole tokens there are now.
#[unsafe(no_mangle)]
pub extern "C" fn qlock_bucket_left(bucket: &[u8], now: u64, tokens: &mut u64) -> i32
    ensures refused { result ≢ done → tokens.new ≡ tokens.old }
    ensures shows { BucketShowsLeft bucket.now now tokens.new result }
{
    number_of(buckets::left(bucket, now, tokens))
}

/// Takes tokens, if there are so many now.
#[unsafe(no_mangle)]
pub extern "C" fn qlock_bucket_spend(bucket: &mut [u8], now: u64, tokens: u64) -> i32
    ensures refused { result ≢ done → bucket.new ≡ bucket.old }
    ensures spends { BucketSpends bucket.old now tokens bucket.new result }
{
    number_of(buckets::spend(bucket, now, tokens))
}
