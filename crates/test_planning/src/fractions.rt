//! Fractions, and tables over one denominator.
ghost use Rattle.std.specs.Prelude.{◌≡◌, ◌<◌, ℕ, ℤ, pos, ◌<ℤ◌, [], ◌∷◌, IfOk};
ghost use Rattle.fraction.specs.Fractions.{Fits};
ghost use Rattle.fraction.specs.Tables.{IsPlace, entry_at};

use fraction::{Frac, FracFault, Shared};
use std::alloc::{AllocError, Global};
use std::cmp::Ordering;

const HUGE: i128 = 1 << 126;

/// Returns the fraction's two numbers, or the fault.
fn numbers_of(answer: Result<Frac, FracFault>) -> Result<(i128, i128), FracFault> {
    match answer {
        Ok(f) => Ok((f.num(), f.den())),
        Err(fault) => Err(fault),
    }
}

/// Two numbers, and their quotient in lowest terms.
const QUOTIENTS: [(i128, i128, Result<(i128, i128), FracFault>); 2] = [
    (6, -4, Ok((-3, 2))),
    (1, 0, Err(FracFault::ZeroDivisor)),
];

#[test]
fn fractions_are_reduced(rt: HostRuntime) {
    for (num, den, wanted) in &QUOTIENTS {
        assert!(rt; numbers_of(Frac::of(*num, *den)) == *wanted);
    }
}

/// Returns whether a half and a third are added and compared, and twice 2^126 is refused.
fn are_computed(half: Frac, third: Frac, huge: Frac) -> bool {
    (numbers_of(half.add(third)) == Ok((5, 6)))
        & (half.compare(third) == Ok(Ordering::Greater))
        & (numbers_of(huge.add(huge)) == Err(FracFault::Overflow))
}

#[test]
fn fractions_are_computed(rt: HostRuntime) {
    let holds = match (Frac::of(1, 2), Frac::of(1, 3), Frac::of(HUGE, 1)) {
        (Ok(half), Ok(third), Ok(huge)) => are_computed(half, third, huge),
        _ => false,
    };
    assert!(rt; holds);
}

/// Returns the table of two rows of two numbers over 1.
fn square(alloc: Global, a: i128, b: i128, c: i128, d: i128) -> Result<Shared, AllocError>
    requires upper { Fits a × Fits b }
    requires lower { Fits c × Fits d }
    ensures { IfOk result (λ t. t.rows ≡ (a ∷ b ∷ []) ∷ (c ∷ d ∷ []) ∷ []) }
{
    let upper = Vec::from_array(alloc, [a, b])?;
    let lower = Vec::from_array(alloc, [c, d])?;
    let rows = Vec::from_array(alloc, [upper, lower])?;
    Ok(Shared::of(rows, 1))
}

/// Returns the entries of a table of two rows of two numbers, and its denominator.
fn entries_of(table: &Shared) -> ([i128; 4], i128)
    requires { (i j : ℕ) → i < 2 → j < 2 → IsPlace table.now i j }
{
    let entries = [
        table.entry(0, 0),
        table.entry(0, 1),
        table.entry(1, 0),
        table.entry(1, 1),
    ];
    (entries, table.den())
}

/// Pivots at the first place. Returns the entries and the denominator then.
fn pivoted(table: &mut Shared) -> (Result<(), FracFault>, [i128; 4], i128)
    requires places { (i j : ℕ) → i < 2 → j < 2 → IsPlace table.old i j }
    requires positive { pos 0 <ℤ entry_at table.old 0 0 }
{
    match table.pivot(0, 0) {
        Ok(()) => {
            let (entries, den) = entries_of(table);
            (Ok(()), entries, den)
        }
        Err(fault) => {
            let (entries, den) = entries_of(table);
            (Err(fault), entries, den)
        }
    }
}

/// Returns whether one table is pivoted, and another, whose numbers grow too large, stays as it was.
fn are_pivoted(alloc: Global) -> Result<bool, AllocError> {
    let mut small = square(alloc, 2, 1, 1, 3)?;
    let mut large = square(alloc, 3, HUGE, HUGE, 1)?;
    let found = pivoted(&mut small) == (Ok(()), [2, 1, 0, 5], 2);
    Ok(found & (pivoted(&mut large) == (Err(FracFault::Overflow), [3, HUGE, HUGE, 1], 1)))
}

#[test]
fn tables_are_pivoted(rt: HostRuntime) {
    assert!(rt; are_pivoted(rt.alloc()) == Ok(true));
}
