//! Fractions.
ghost use Rattle.std.specs.Prelude.{◌≡◌, ◌≢◌, ◌↔◌, pos, ◌+ℤ◌, ◌-ℤ◌, ◌*ℤ◌, IsOk, IfOk, IfErr};
ghost use Rattle.std.specs.Ordering.{int_cmp};
ghost use Rattle.fraction.specs.Fractions.{Checks, IsRatio, IsReduced, Fits, SumFits, DifferenceFits, ProductFits, QuotientFits, ComparisonFits};

use crate::checked::{difference, fitting, product, sum};
use crate::fault::FracFault;
use crate::signed::{quotient, signed};
use divisor::wide_gcd;
use std::cmp::Ordering;
use std::marker::Model;

/// A fraction in lowest terms: a numerator over a positive denominator, both of absolute value at
/// most 2^127 - 1. Zero is 0/1. Contracts see both numbers.
#[derive(Clone, Copy, Debug, PartialEq, Eq)]
pub struct Frac {
    num: i128,
    den: i128,
}

impl Model for Frac {
    ghost use Rattle.fraction.specs.Fractions.{Fraction, IsReduced};

    ghost Value = { Fraction };

    ghost view = { λ a. record { num = a.num; den = a.den } };

    ghost invariant = { λ a. IsReduced (record { num = a.num; den = a.den }) };

    ghost inverse = { λ f. record { num = f.num; den = f.den } };
}

/// Returns the fraction num / den in lowest terms.
pub(crate) fn reduced(num: i128, den: i128) -> Frac
    requires divisor { den ≢ pos 0 }
    requires num_fits { Fits num }
    requires den_fits { Fits den }
    ensures value { IsRatio num den result }
    ensures reduced { IsReduced result }
{
    let top = num.unsigned_abs();
    let bottom = den.unsigned_abs();
    let common = wide_gcd(top, bottom);
    Frac {
        num: signed((num < 0) == (den < 0), quotient(top, common)),
        den: quotient(bottom, common) as i128,
    }
}

/// Returns `a * d`, of the fractions `a/b` and `c/d`.
fn cross_product(left: Frac, right: Frac) -> Result<i128, FracFault>
    ensures { Checks (left.num *ℤ right.den) result }
{
    product(left.num, right.den)
}

/// Returns a number over the product of two denominators, in lowest terms.
fn over_product(num: i128, left: Frac, right: Frac) -> Result<Frac, FracFault>
    requires { Fits num }
    ensures value { IfOk result (IsRatio num (left.den *ℤ right.den)) }
    ensures reduced { IfOk result IsReduced }
    ensures fits { IsOk result ↔ Fits (left.den *ℤ right.den) }
    ensures overflow { IfErr result (λ e. e ≡ FracFault.Overflow) }
{
    Ok(reduced(num, product(left.den, right.den)?))
}

impl Frac {
    /// Returns the fraction `num / den`. Fails with `ZeroDivisor` if the denominator is 0, and
    /// otherwise with `Overflow` if either number is -2^127.
    pub fn of(num: i128, den: i128) -> Result<Frac, FracFault>
        ensures value { IfOk result (IsRatio num den) }
        ensures reduced { IfOk result IsReduced }
        ensures fits { IsOk result ↔ ((den ≢ pos 0) × Fits num × Fits den) }
        ensures zero { (result ≡ Err FracFault.ZeroDivisor) ↔ (den ≡ pos 0) }
    {
        if den == 0 {
            return Err(FracFault::ZeroDivisor);
        }
        Ok(reduced(fitting(num)?, fitting(den)?))
    }

    /// Returns the numerator, in lowest terms.
    pub fn num(self) -> i128
        ensures value { result ≡ self.num }
        ensures reduced { IsReduced self }
    {
        self.num
    }

    /// Returns the denominator, in lowest terms. It is at least 1.
    pub fn den(self) -> i128
        ensures value { result ≡ self.den }
        ensures reduced { IsReduced self }
    {
        self.den
    }

    /// Returns the sum of `a/b` and `c/d`. Fails with `Overflow` if and only if `a * d`, `c * b`,
    /// `b * d` or `a * d + c * b` does not fit.
    pub fn add(self, other: Frac) -> Result<Frac, FracFault>
        ensures value { IfOk result
            (IsRatio ((self.num *ℤ other.den) +ℤ (other.num *ℤ self.den)) (self.den *ℤ other.den)) }
        ensures reduced { IfOk result IsReduced }
        ensures fits { IsOk result ↔ SumFits self other }
        ensures overflow { IfErr result (λ e. e ≡ FracFault.Overflow) }
    {
        let num = sum(cross_product(self, other)?, cross_product(other, self)?)?;
        over_product(num, self, other)
    }

    /// Returns the difference of `a/b` and `c/d`. Fails with `Overflow` if and only if `a * d`,
    /// `c * b`, `b * d` or `a * d - c * b` does not fit.
    pub fn sub(self, other: Frac) -> Result<Frac, FracFault>
        ensures value { IfOk result
            (IsRatio ((self.num *ℤ other.den) -ℤ (other.num *ℤ self.den)) (self.den *ℤ other.den)) }
        ensures reduced { IfOk result IsReduced }
        ensures fits { IsOk result ↔ DifferenceFits self other }
        ensures overflow { IfErr result (λ e. e ≡ FracFault.Overflow) }
    {
        let num = difference(cross_product(self, other)?, cross_product(other, self)?)?;
        over_product(num, self, other)
    }

    /// Returns the product of `a/b` and `c/d`. Fails with `Overflow` if and only if `a * c` or
    /// `b * d` does not fit.
    pub fn mul(self, other: Frac) -> Result<Frac, FracFault>
        ensures value { IfOk result (IsRatio (self.num *ℤ other.num) (self.den *ℤ other.den)) }
        ensures reduced { IfOk result IsReduced }
        ensures fits { IsOk result ↔ ProductFits self other }
        ensures overflow { IfErr result (λ e. e ≡ FracFault.Overflow) }
    {
        let num = product(self.num, other.num)?;
        over_product(num, self, other)
    }

    /// Returns the quotient of `a/b` by `c/d`. Fails with `ZeroDivisor` if `c` is 0, and otherwise
    /// with `Overflow` if and only if `a * d` or `b * c` does not fit.
    pub fn div(self, other: Frac) -> Result<Frac, FracFault>
        ensures value { IfOk result (IsRatio (self.num *ℤ other.den) (self.den *ℤ other.num)) }
        ensures reduced { IfOk result IsReduced }
        ensures fits { IsOk result ↔ ((other.num ≢ pos 0) × QuotientFits self other) }
        ensures zero { (result ≡ Err FracFault.ZeroDivisor) ↔ (other.num ≡ pos 0) }
    {
        if other.num == 0 {
            return Err(FracFault::ZeroDivisor);
        }
        let num = product(self.num, other.den)?;
        Ok(reduced(num, product(self.den, other.num)?))
    }

    /// Returns how `a/b` compares with `c/d`. Fails with `Overflow` if and only if `a * d` or
    /// `c * b` does not fit.
    pub fn compare(self, other: Frac) -> Result<Ordering, FracFault>
        ensures value { IfOk result (λ order. order ≡ int_cmp (self.num *ℤ other.den) (other.num *ℤ self.den)) }
        ensures fits { IsOk result ↔ ComparisonFits self other }
        ensures overflow { IfErr result (λ e. e ≡ FracFault.Overflow) }
    {
        let left = cross_product(self, other)?;
        let right = cross_product(other, self)?;
        Ok(left.cmp(&right))
    }
}
