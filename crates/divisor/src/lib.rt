//! Greatest common divisors of numbers of 64 or 128 bits, and fractions in lowest terms.
//!
//! Dividing two numbers by their greatest common divisor brings them to lowest terms. Plans give
//! their loads in lowest terms, and the simplex method keeps its fractions in lowest terms where they
//! need 128 bits. This crate depends on no other.
//!
//! ```text
//! assert_eq!(rt; gcd(6, 10), 2);
//! assert_eq!(rt; lowest_terms(6, 10), (3, 5));
//! assert_eq!(rt; wide_gcd(6 << 100, 10 << 100), 2 << 100);
//! ```
#![tactic(auto)]

mod euclid;
mod wide;

pub use euclid::{gcd, lowest_terms};
pub use wide::wide_gcd;
