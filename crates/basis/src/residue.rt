//! Numbers modulo a prime.
ghost use Rattle.std.specs.Prelude.{◌≡◌, ◌+◌, ◌*◌, ◌%◌};
ghost use Rattle.basis.specs.Primes.{prime};

/// The prime 2^61 - 1.
pub(crate) const PRIME: u64 = 0x1fff_ffff_ffff_ffff;

/// 2^61.
const POWER: u128 = 0x2000_0000_0000_0000;

/// Returns a number without its multiples of the prime. As 2^61 is 1 modulo the prime, the bits from
/// the 61st on may be added to those below it.
fn reduced(number: u128) -> u64
    ensures { result ≡ number % prime }
{
    let folded = number / POWER + number % POWER;
    let small = (folded / POWER + folded % POWER) as u64;
    if small < PRIME { small } else { small - PRIME }
}

/// Returns the product modulo the prime.
pub(crate) fn product(first: u64, second: u64) -> u64
    ensures { result ≡ (first * second) % prime }
{
    reduced(u128::from(first) * u128::from(second))
}

/// Returns the difference modulo the prime.
pub(crate) fn difference(first: u64, second: u64) -> u64
    ensures { (result + second) % prime ≡ first % prime }
{
    reduced(u128::from(first) + 9 * u128::from(PRIME) - u128::from(second))
}

/// Returns the inverse modulo the prime, by Fermat: the power with the exponent 2^61 - 3. Nothing is
/// claimed of it. The inverse of a multiple of the prime is 0.
pub(crate) fn inverse(number: u64) -> u64 {
    let mut power = 1;
    for bit in 0..61u32 {
        power = product(power, power);
        // all bits of the exponent are 1, except the second last
        if bit != 59 {
            power = product(power, number);
        }
    }
    power
}
