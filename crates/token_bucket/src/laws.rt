//! The laws of token buckets.
ghost use Rattle.std.specs.Prelude.{◌≡◌, ◌≤◌, ◌+◌, ◌-◌, ◌*◌, ℕ, List, Ok};
ghost use Rattle.token_bucket.specs.Buckets.{begun, billion, left, spend_of, emptied};
ghost use Rattle.token_bucket.specs.Spendings.{Spending, after_all, spent_between};

/// From any time to any later one, at most `most` tokens are spent, and `rate` for each second between the two. This
/// holds for any calls before, within and after, with times in any order. A call counts at its time, or at that of
/// the last spending if that is later.
pub fn spending_is_bounded()
    ensures { (rate most begin from to : ℕ) (calls : List Spending)
        → spent_between from to (begun rate most begin) calls * billion ≤ most * billion + rate * (to - from) }
{}

/// A bucket of which nobody takes fills: once `most / rate` seconds have passed since the last spending, or since
/// it began, all of `most` is there,
/// whatever was spent before. So these tokens can be spent at once, and then none is left.
pub fn unused_buckets_fill()
    ensures fills { (rate most begin now : ℕ) (calls : List Spending)
        → most * billion ≤ rate * (now - (after_all (begun rate most begin) calls).at)
        → left (after_all (begun rate most begin) calls) now ≡ most }
    ensures spends { (rate most begin now : ℕ) (calls : List Spending)
        → most * billion ≤ rate * (now - (after_all (begun rate most begin) calls).at)
        → spend_of (after_all (begun rate most begin) calls) now most ≡ Ok (emptied (after_all (begun rate most begin) calls) now) }
{}
