//! Which cluster a value belongs to.
use std::marker::Brand;

/// The name of one cluster, as a type. It names the cluster's board, the office of its first plan,
/// that of its second plan, if it has one, and how many tickets each client may draw at each office.
///
/// It has no value. What a lock gives and what a thread is lent have it as a type parameter, so
/// they belong to one cluster. Code that works on a cluster is generic in its name.
pub trait ClusterName {
    ghost use Rattle.node.specs.Names.{ClusterState};

    ghost cluster: { ClusterState };
}

impl ClusterName for Brand {
    ghost use Rattle.node.specs.Names.{no_cluster};

    ghost cluster = { no_cluster };
}
