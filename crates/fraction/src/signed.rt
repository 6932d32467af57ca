//! Numbers by sign and size, and quotients of sizes.
ghost use Rattle.std.specs.Prelude.{◌≡◌, ◌≢◌, ◌<◌, ◌^◌, ◌/◌};
ghost use Rattle.fraction.specs.Fractions.{signed_of};

/// Returns the number with this absolute value: the one that is at least 0 if `is_positive`, else
/// the one that is at most 0.
pub(crate) fn signed(is_positive: bool, size: u128) -> i128
    requires { size < 2 ^ 127 }
    ensures { result ≡ signed_of is_positive size }
{
    let number = size as i128;
    if is_positive { number } else { -number }
}

/// Returns `number / divisor`: in 64 bits if both fit, and without a division if the divisor is 1.
pub(crate) fn quotient(number: u128, divisor: u128) -> u128
    requires { divisor ≢ 0 }
    ensures { result ≡ number / divisor }
{
    if divisor == 1 {
        return number;
    }
    if let (Ok(small), Ok(by)) = (u64::try_from(number), u64::try_from(divisor)) {
        return u128::from(small / by);
    }
    number / divisor
}
