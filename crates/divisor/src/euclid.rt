//! The greatest common divisor of two numbers.
ghost use Rattle.std.specs.Prelude.{◌≡◌};
ghost use Rattle.std.specs.Int.{IsGcd};
ghost use Rattle.divisor.specs.Gcd.{gcd_of, lowest_terms};

/// Returns the greatest common divisor of two numbers, by Euclid's algorithm. `gcd(x, 0)` is `x`,
/// and `gcd(0, 0)` is 0.
pub fn gcd(a: u64, b: u64) -> u64
    ensures value { result ≡ gcd_of a b }
    // It divides both, and each common divisor divides it.
    ensures divisor { IsGcd a b result }
{
    let mut greater = a;
    let mut less = b;
    'steps: while less != 0 {
        let rest = greater % less;
        greater = less;
        less = rest;
    }
    greater
}

/// Returns a fraction in lowest terms: both numbers, divided by their greatest common divisor. A fraction
/// whose numbers are both 0 stays as it is.
pub fn lowest_terms(numerator: u64, denominator: u64) -> (u64, u64)
    ensures { result ≡ lowest_terms numerator denominator }
{
    let common = gcd(numerator, denominator).max(1);
    (numerator / common, denominator / common)
}
