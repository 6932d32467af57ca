//! Constructions: each shape once, and sets that are joined.
use construct::{ConstructFault, cyclic, grid, majority, tree, wheel};
use quorum_set::Coterie;
use std::alloc::Global;
use test_plans::set_of;

/// What is constructed.
#[derive(Clone, Copy)]
pub(crate) enum Shape {
    Grid(u32, u32),
    Majority(u32),
    Tree(u32),
    Wheel(u32),
    Cyclic(u32, &'static [u32]),
}

/// Constructs it.
pub(crate) fn built(alloc: Global, shape: Shape) -> Result<Coterie, ConstructFault> {
    match shape {
        Shape::Grid(rows, columns) => grid(alloc, rows, columns),
        Shape::Majority(voters) => majority(alloc, voters),
        Shape::Tree(height) => tree(alloc, height),
        Shape::Wheel(rims) => wheel(alloc, rims),
        Shape::Cyclic(voters, base) => cyclic(alloc, voters, base),
    }
}

/// Shapes, how many voters they have, and how many quorums.
const SIZES: [(Shape, (usize, usize)); 5] = [
    (Shape::Grid(2, 3), (6, 6)),
    (Shape::Majority(4), (4, 4)),
    (Shape::Tree(3), (15, 255)),
    (Shape::Wheel(3), (4, 4)),
    (Shape::Cyclic(7, &[0, 1, 3]), (7, 7)),
];

/// Returns how many voters and quorums the coterie of a shape has.
fn sizes_of(alloc: Global, shape: Shape) -> Result<(usize, usize), ConstructFault> {
    let coterie = built(alloc, shape)?;
    Ok((coterie.voters(), coterie.count()))
}

#[test]
fn shapes_are_built(rt: HostRuntime) {
    for (shape, wanted) in &SIZES {
        assert!(rt; sizes_of(rt.alloc(), *shape) == Ok(*wanted));
    }
}

/// Sets of grids and trees are joined of smaller ones.
#[test]
fn a_set_is_joined_of_two(rt: HostRuntime) {
    let set = set_of(&[0, 63]).join(&set_of(&[5]));
    assert!(rt; (set.members().as_slice() == [0u8, 5, 63].as_slice()) & (set.len() == 3));
}
