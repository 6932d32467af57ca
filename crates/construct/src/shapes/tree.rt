//! Trees.
ghost use Rattle.std.specs.Prelude.{◌≡◌, ◌==◌, ◌+◌, ◌*◌, ◌^◌, ◌<◌, ◌≤◌, ◌++◌, map, Err, IfErr, IfOk, OnOk};
ghost use Rattle.std.specs.List.{flat_map};
ghost use Rattle.numbers.specs.Sets.{set_where};
ghost use Rattle.construct.specs.Answers.{Gives};
ghost use Rattle.construct.specs.Tree.{with_node, union, node_quorums, quorums_under, tree_at};

use crate::fault::ConstructFault;
use crate::set::coterie_of;
use quorum_set::{Coterie, QSet, set_where};
use std::alloc::{AllocError, Global};

/// Returns the set of this node alone.
fn node(i: u32) -> QSet
    ensures { result ≡ set_where (λ v. v == i) }
{
    set_where(|v| u32::from(v) == i)
}

/// Returns the set with the node added.
fn with_node(i: u32, set: &QSet) -> QSet
    ensures { result ≡ with_node i set.now }
{
    node(i).join(set)
}

/// Adds each of the sets to the quorums, with the node added.
fn push_with_node(quorums: &mut Vec<QSet>, i: u32, sets: &[QSet]) -> Result<(), AllocError>
    ensures { OnOk result (quorums.new.items ≡ quorums.old.items ++ map (with_node i) sets.now) }
{
    for set in sets {
        quorums.push(with_node(i, set))?;
    }
    Ok(())
}

/// Adds the union of the set with each of the others to the quorums.
fn push_unions_with(quorums: &mut Vec<QSet>, set: &QSet, others: &[QSet]) -> Result<(), AllocError>
    ensures { OnOk result (quorums.new.items ≡ quorums.old.items ++ map (union set.now) others.now) }
{
    for other in others {
        quorums.push(set.join(other))?;
    }
    Ok(())
}

/// Adds the union of each left set with each right one to the quorums.
pub(crate) fn push_unions(
    quorums: &mut Vec<QSet>,
    left: &[QSet],
    right: &[QSet],
) -> Result<(), AllocError>
    ensures { OnOk result (quorums.new.items ≡ quorums.old.items ++ flat_map (λ p. map (union p) right.now) left.now) }
{
    for set in left {
        push_unions_with(quorums, set, right)?;
    }
    Ok(())
}

/// Returns the one quorum of a leaf.
fn quorums_of_leaf(alloc: Global, i: u32) -> Result<Vec<QSet>, AllocError>
    ensures { IfOk result (λ v. v.items ≡ quorums_under 0 i) }
{
    let mut quorums = Vec::with_capacity(alloc, 1)?;
    quorums.push(node(i))?;
    Ok(quorums)
}

/// Returns the quorums of an inner node, from those of its children.
fn node_quorums(
    alloc: Global,
    i: u32,
    left: &[QSet],
    right: &[QSet],
) -> Result<Vec<QSet>, AllocError>
    ensures { IfOk result (λ v. v.items ≡ node_quorums i left.now right.now) }
{
    let mut quorums = Vec::new(alloc);
    push_with_node(&mut quorums, i, left)?;
    push_with_node(&mut quorums, i, right)?;
    push_unions(&mut quorums, left, right)?;
    Ok(quorums)
}

/// Returns the quorums of the tree of height h under node i.
fn quorums_under(alloc: Global, h: u32, i: u32) -> Result<Vec<QSet>, AllocError>
    requires { (i + 2) * 2 ^ h ≤ 2 ^ 31 }
    ensures { IfOk result (λ v. v.items ≡ quorums_under h i) }
{
    if h == 0 {
        return quorums_of_leaf(alloc, i);
    }
    let left = quorums_under(alloc, h - 1, 2 * i + 1)?;
    let right = quorums_under(alloc, h - 1, 2 * i + 2)?;
    node_quorums(alloc, i, &left, &right)
}

/// Returns the tree of this height (Agrawal and El Abbadi, ACM TOCS 9(1), 1991).
///
/// It is a complete binary tree of 2^(height + 1) - 1 voters. The root is voter 0, and the children
/// of voter i are 2 * i + 1 and 2 * i + 2. A leaf has one quorum, itself. The quorums of an inner
/// node are, in this order:
///
/// - the node with each quorum of its left child;
/// - the node with each quorum of its right child;
/// - each quorum of the left child with each of the right child.
///
/// Fails with `TooLarge` if the height is above 3.
#[tactic(auto, using(crate::proofs::TreeLemmas::tree_is_coterie, std::proofs::lemmas::Grind::one_shifted))]
pub fn tree(alloc: Global, height: u32) -> Result<Coterie, ConstructFault>
    ensures exact { Gives result (tree_at height) }
    ensures sizes { IfErr (tree_at height) (λ fault. result ≡ Err fault) }
{
    if height > 3 {
        return Err(ConstructFault::TooLarge);
    }
    let quorums = quorums_under(alloc, height, 0)?;
    coterie_of((1 << (height + 1)) - 1, quorums)
}
