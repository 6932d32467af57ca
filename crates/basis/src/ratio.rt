//! Fractions that are known modulo a prime.
ghost use Rattle.std.specs.Prelude.{◌≡◌, ◌<◌, ◌≤◌, IfSome, length, vec_len, IfOk};
ghost use Rattle.std.specs.Option.{ForSome};

use crate::residue::PRIME;
use divisor::gcd;
use std::alloc::{AllocError, Global};

/// The greatest numerator, denominator and common denominator that are looked for. Two different
/// fractions within it differ modulo the prime.
const GREATEST: u64 = 1_000_000_000;

/// A fraction that is not negative.
#[derive(Clone, Copy, Drop)]
struct Ratio {
    numerator: u64,
    denominator: u64,
}

/// Returns the fraction with small numbers that is this number modulo the prime, if it is not
/// negative and there is one. This is the first half of Euclid's algorithm for the prime and the
/// number: each remainder is the number times a factor, modulo the prime.
fn ratio_of(residue: u64) -> Option<Ratio>
    ensures { IfSome result (λ r. 0 < r.denominator) }
{
    let mut before = (PRIME, 0u64);
    let mut now = (residue, 1u64);
    let mut negative = false;
    for _ in 0..100u32 {
        if now.0 <= GREATEST {
            break;
        }
        let quotient = before.0 / now.0;
        let factor = before.1.saturating_add(quotient.saturating_mul(now.1));
        let rest = before.0 % now.0;
        before = now;
        now = (rest, factor);
        negative = !negative;
    }
    if now.0 == 0 {
        return Some(Ratio {
            numerator: 0,
            denominator: 1,
        });
    }
    if negative || now.1 == 0 || now.0 > GREATEST || now.1 > GREATEST {
        return None;
    }
    Some(Ratio {
        numerator: now.0,
        denominator: now.1,
    })
}

/// Returns the fractions of all numbers, if each has one.
fn ratios_of(alloc: Global, residues: &[u64]) -> Result<Option<Vec<Ratio>>, AllocError>
    ensures { IfOk result (λ o. IfSome o (λ v. vec_len v ≡ length residues.now)) }
{
    let mut ratios = Vec::with_capacity(alloc, residues.len())?;
    for residue in residues {
        let Some(ratio) = ratio_of(*residue) else {
            return Ok(None);
        };
        ratios.push(ratio)?;
    }
    Ok(Some(ratios))
}

/// Returns a common denominator of the fractions, if it is small.
fn common_denominator(ratios: &[Ratio]) -> Option<u64> {
    let mut common = 1u64;
    for ratio in ratios {
        let shared = gcd(common, ratio.denominator).max(1);
        common = (common / shared).saturating_mul(ratio.denominator);
        if common > GREATEST {
            return None;
        }
    }
    Some(common)
}

/// Returns whole numbers in the proportions of the fractions that these numbers are modulo the prime,
/// if all of them are small.
pub(crate) fn whole(alloc: Global, residues: &[u64]) -> Result<Option<Vec<u64>>, AllocError>
    ensures { IfOk result (λ o. IfSome o (λ v. vec_len v ≡ length residues.now)) }
{
    let Some(ratios) = ratios_of(alloc, residues)? else {
        return Ok(None);
    };
    let Some(common) = common_denominator(&ratios) else {
        return Ok(None);
    };
    let mut numbers = Vec::with_capacity(alloc, ratios.len())?;
    for ratio in ratios.as_slice() {
        let units = common / ratio.denominator.max(1);
        numbers.push(ratio.numerator.saturating_mul(units))?;
    }
    Ok(Some(numbers))
}
