//! Voters that fail.
use crate::shapes::{Shape, built};
use failures::{coterie_without, transversal_of};
use quorum_set::QSet;
use std::alloc::Global;

/// Shapes, and how many members a smallest set has whose failure their coteries do not bear.
const SMALLEST: [(Shape, usize); 7] = [
    (Shape::Majority(1), 1),
    (Shape::Majority(5), 3),
    (Shape::Majority(8), 4),
    (Shape::Wheel(5), 2),
    (Shape::Grid(3, 3), 3),
    (Shape::Grid(2, 4), 2),
    (Shape::Tree(2), 3),
];

/// Returns how many members the set has that is found for the coterie of a shape, if the search comes to
/// its end.
fn smallest_found(alloc: Global, shape: Shape) -> Option<usize> {
    let found = transversal_of(&built(alloc, shape).ok()?, 100_000);
    if found.is_smallest {
        Some(found.voters.len())
    } else {
        None
    }
}

#[test]
fn searches_for_smallest_sets_end(rt: HostRuntime) {
    for (shape, wanted) in &SMALLEST {
        assert!(rt; smallest_found(rt.alloc(), *shape) == Some(*wanted));
    }
}

/// Returns how many quorums are left of the wheel of three rims without rim 1, or `None` if memory runs
/// out.
fn left_of_wheel(alloc: Global) -> Option<usize> {
    let wheel = built(alloc, Shape::Wheel(3)).ok()?;
    let left = coterie_without(alloc, &wheel, &QSet::of_bits(0b0010)).ok()?;
    Some(left?.count())
}

#[test]
fn what_is_left_is_found(rt: HostRuntime) {
    assert!(rt; left_of_wheel(rt.alloc()) == Some(2));
}
