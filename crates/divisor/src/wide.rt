//! The greatest common divisor of two numbers of 128 bits.
ghost use Rattle.std.specs.Int.{IsGcd};

use crate::euclid::gcd;

/// Returns the greatest common divisor of two numbers, by Euclid's algorithm. As soon as both
/// numbers fit into 64 bits it calls `gcd`, which is several times faster. `wide_gcd(x, 0)` is `x`,
/// and `wide_gcd(0, 0)` is 0.
pub fn wide_gcd(a: u128, b: u128) -> u128
    // It divides both, and each common divisor divides it.
    ensures { IsGcd a b result }
{
    let mut greater = a;
    let mut less = b;
    'steps: while less != 0 {
        if let (Ok(greater), Ok(less)) = (u64::try_from(greater), u64::try_from(less)) {
            return u128::from(gcd(greater, less));
        }
        let rest = greater % less;
        greater = less;
        less = rest;
    }
    greater
}
