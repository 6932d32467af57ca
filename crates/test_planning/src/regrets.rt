//! Weights for when voters are down.
use crate::shapes::{Shape, built};
use losses::{regret_bound, regret_of};
use robust::{Down, weights_for_losses};
use std::alloc::Global;
use std::test::Fail;
use test_plans::unit_capacities;

/// Shapes, how many voters may be down, how many thousandths the load may be above the best, the greatest
/// regret that is wanted and the smallest bound, both in thousandths. A plan of the tree has a regret of 7/6
/// or more.
const REGRETS: [(Shape, Down, u64, u64, u128); 4] = [
    (Shape::Tree(2), Down::One, 20, 1130, 1110),
    (Shape::Tree(2), Down::One, 50, 1050, 1040),
    (Shape::Tree(2), Down::OneOrTwo, 20, 1130, 1110),
    (Shape::Majority(5), Down::One, 20, 1000, 990),
];

/// Returns whether the regret that is found for a shape is small, and the bound near it.
fn is_small(alloc: Global, row: (Shape, Down, u64, u64, u128)) -> Result<bool, Fail> {
    let (shape, down, above, most, least) = row;
    let coterie = built(alloc, shape)?;
    let capacities = unit_capacities(alloc, coterie.voters())?;
    let above = above.min(1000);
    let found = weights_for_losses(alloc, &coterie, &capacities, 1000, above, down)?;
    let regret = regret_of(&found.weights, &found.failures).unwrap_or((1, 0));
    let bound = regret_bound(
        &found.weights,
        found.limit,
        &found.multipliers,
        &found.failures,
    );
    let is_low = u128::from(regret.0) * 1000 <= u128::from(regret.1) * u128::from(most);
    Ok(is_low & (bound.unwrap_or(0) / 1000 >= least))
}

#[test]
fn regrets_of_shapes_are_small(rt: HostRuntime) -> Result<(), Fail> {
    for row in &REGRETS {
        assert!(rt; is_small(rt.alloc(), *row)?);
    }
    Ok(())
}
