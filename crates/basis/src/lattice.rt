//! Reduced bases of lattices.
ghost use Rattle.std.specs.Prelude.{◌≡◌, ◌<◌, length};

use std::alloc::{AllocError, Global};
use std::num::{nearest_i64_to_f64, saturating_f64_to_i64};

/// The most steps of a reduction.
const STEPS: u32 = 200_000;

/// How much shorter a vector has to be than the one before it to come first.
const DELTA: f64 = 0.99;

/// The greatest factor that is not made smaller: somewhat more than a half.
const HALF: f64 = 0.51;

/// A square of a length that is not above this is taken for 0.
const SMALLEST: f64 = 0.000000000001;

/// A vector of whole numbers in a list of vectors.
#[derive(Drop)]
pub(crate) struct Vector {
    pub(crate) whole: Vec<i64>,
    /// Its part that is orthogonal to all vectors before it.
    part: Vec<f64>,
    /// The square of the length of that part.
    square: f64,
    /// How much of the part of each vector before it it has, and 1 of its own.
    factors: Vec<f64>,
}

/// Returns the nearest whole number.
pub(crate) fn rounded(number: f64) -> i64 {
    if number < 0.0 {
        saturating_f64_to_i64(number - 0.5)
    } else {
        saturating_f64_to_i64(number + 0.5)
    }
}

/// Returns how often a vector is subtracted of which there is this much. A factor near a half is left
/// as it is, so that no vector turns in a circle.
fn times_of(factor: f64) -> i64 {
    if factor > HALF || factor < -HALF {
        rounded(factor)
    } else {
        0
    }
}

/// Returns the sum of the products of the numbers.
fn product(whole: &[i64], part: &[f64]) -> f64 {
    let mut sum = 0.0;
    for (number, other) in whole.iter().zip(part.iter()) {
        sum += nearest_i64_to_f64(*number) * *other;
    }
    sum
}

/// Returns the square of the length.
fn square_of(part: &[f64]) -> f64 {
    let mut sum = 0.0;
    for number in part {
        sum += *number * *number;
    }
    sum
}

/// Subtracts the other numbers, times a factor.
fn lower(numbers: &mut [f64], factor: f64, others: &[f64]) {
    for (number, other) in numbers.iter_mut().zip(others.iter()) {
        *number -= factor * *other;
    }
}

/// Subtracts the other whole numbers, times a factor.
pub(crate) fn lower_whole(numbers: &mut [i64], factor: i64, others: &[i64]) {
    for (number, other) in numbers.iter_mut().zip(others.iter()) {
        *number = number.wrapping_sub(factor.wrapping_mul(*other));
    }
}

/// Copies whole numbers.
fn copy(numbers: &mut [f64], whole: &[i64]) {
    for (number, other) in numbers.iter_mut().zip(whole.iter()) {
        *number = nearest_i64_to_f64(*other);
    }
}

/// Returns how much of a vector's part whole numbers have.
fn factor_of(whole: &[i64], vector: &Vector) -> f64 {
    if vector.square > SMALLEST {
        product(whole, &vector.part) / vector.square
    } else {
        0.0
    }
}

impl Vector {
    /// Returns the vector in a list of `count`.
    pub(crate) fn of(alloc: Global, whole: Vec<i64>, count: usize) -> Result<Vector, AllocError> {
        let part = vec![in alloc; 0.0; whole.len()]?;
        let factors = vec![in alloc; 0.0; count]?;
        Ok(Vector {
            whole,
            part,
            square: 0.0,
            factors,
        })
    }

    /// Computes the part that is orthogonal to the vectors before it.
    fn project(&mut self, before: &[Vector]) {
        copy(&mut self.part, &self.whole);
        for (place, vector) in before.iter().enumerate() {
            let factor = factor_of(&self.whole, vector);
            if let Some(own) = self.factors.get_mut(place) {
                *own = factor;
            }
            lower(&mut self.part, factor, &vector.part);
        }
        if let Some(own) = self.factors.get_mut(before.len()) {
            *own = 1.0;
        }
        self.square = square_of(&self.part);
    }

    /// Returns how much of the part of the vector at a place it has.
    fn factor(&self, place: usize) -> f64 {
        match self.factors.get(place) {
            Some(factor) => *factor,
            None => 0.0,
        }
    }

    /// Subtracts multiples of the vectors before it. Returns whether there were any.
    fn subtract_all(&mut self, before: &[Vector]) -> bool {
        let mut any = false;
        for (place, vector) in before.iter().enumerate().rev() {
            let times = times_of(self.factor(place));
            if times != 0 {
                any = true;
                lower_whole(&mut self.whole, times, &vector.whole);
                lower(
                    &mut self.factors,
                    nearest_i64_to_f64(times),
                    &vector.factors,
                );
            }
        }
        any
    }

    /// Makes it short by multiples of the vectors before it.
    fn shorten(&mut self, before: &[Vector]) {
        for _ in 0..4u32 {
            self.project(before);
            if !self.subtract_all(before) {
                return;
            }
        }
    }
}

/// Shortens the vector at a place. Returns whether it may stay behind the one before it.
fn settle(vectors: &mut [Vector], place: usize) -> bool
    requires { place < length vectors.old }
    ensures { length vectors.new ≡ length vectors.old }
{
    let (before, rest) = vectors.split_at_mut(place);
    let Some(own) = rest.first_mut() else {
        return true;
    };
    own.shorten(before);
    let Some(last) = before.last() else {
        return true;
    };
    let factor = own.factor(before.len() - 1);
    own.square >= (DELTA - factor * factor) * last.square
}

/// Makes the vectors short and nearly orthogonal, by the method of Lenstra, Lenstra and Lovász (Math.
/// Ann. 261, 1982). They still have the same whole combinations. Returns whether it came to its end.
pub(crate) fn reduce(vectors: &mut [Vector]) -> bool {
    let mut place = 0usize;
    for _ in 0..STEPS {
        if place >= vectors.len() {
            return true;
        }
        if settle(vectors, place) {
            place += 1;
        } else if place > 0 {
            vectors.swap(place - 1, place);
            place -= 1;
        }
    }
    false
}

/// Subtracts from whole numbers a whole combination of reduced vectors that is near them (Babai,
/// Combinatorica 6, 1986).
pub(crate) fn bring_near(numbers: &mut [i64], vectors: &[Vector]) {
    for vector in vectors.iter().rev() {
        let times = rounded(factor_of(numbers, vector));
        lower_whole(numbers, times, &vector.whole);
    }
}
