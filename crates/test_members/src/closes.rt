//! Closing a cluster from which members are missing, or in which they are not idle.
ghost use Rattle.std.specs.Prelude.{◌≡◌};

use crate::scripts::{THREE, blank_of, stuck_at};
use members::{Blank, ClusterName};
use std::alloc::Global;
use std::marker::Brand;

#[test]
fn a_cluster_that_is_not_closed_goes_on_as_it_was(rt: HostRuntime) {
    for acts in 1..27usize {
        let (before, after) = THREE.split_at(acts);
        assert_eq!(rt;
            stuck_at(&rt, rt.alloc(), blank_of(rt.alloc(), 3), before, after),
            None
        );
    }
}

/// Returns the fault of a close after one of the members was dropped.
fn fault_with_one_gone<N: ClusterName>(alloc: Global, blank: Blank) -> Option<String>
    requires { blank ≡ N.cluster }
{
    let Ok((cluster, mut members)) = blank.open::<N>(alloc) else {
        return None;
    };
    drop(members.pop());
    let fault = cluster.close(alloc, members).err()?;
    fault.to_string(alloc).ok()
}

/// Returns the same of a cluster of this many clients.
fn fault_of(alloc: Global, clients: u8) -> Option<String> {
    let blank = blank_of(alloc, clients)?;
    fault_with_one_gone::<Brand>(alloc, blank)
}

#[test]
fn a_member_that_is_gone_is_missing(rt: HostRuntime) {
    for clients in [2, 3] {
        let fault = fault_of(rt.alloc(), clients).unwrap_or(String::new(rt.alloc()));
        assert!(rt; fault.as_str() == "K3 MembersOut 1");
    }
}
