//! Solutions by the simplex method.
use simplex::{SimplexFault, solve};
use std::alloc::Global;
use std::test::Fail;
use test_plans::{are_capacities, coterie_of};

/// How many weights of quorums and of voters a solution has, or the fault.
type Sizes = Result<(usize, usize), SimplexFault>;

/// Returns the sizes of the solution of the wheel with three rims by at most this many pivots.
fn sizes_of_wheel(alloc: Global, pivots: u32) -> Result<Sizes, Fail> {
    let wheel = coterie_of(alloc, 4, &[&[0, 1], &[0, 2], &[0, 3], &[1, 2, 3]])?;
    if !are_capacities(&[1; 4], wheel.voters()) {
        return Err(SimplexFault::NoRow.into());
    }
    Ok(match solve(alloc, &wheel, &[1; 4], pivots) {
        Ok(found) => Ok((found.quorum_weights.len(), found.voter_weights.len())),
        Err(fault) => Err(fault),
    })
}

#[test]
fn the_wheel_is_solved(rt: HostRuntime) -> Result<(), Fail> {
    for (pivots, wanted) in [(0, Err(SimplexFault::PivotLimit)), (10_000, Ok((4, 4)))] {
        assert!(rt; sizes_of_wheel(rt.alloc(), pivots)? == wanted);
    }
    Ok(())
}
