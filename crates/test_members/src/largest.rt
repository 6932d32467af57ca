//! The largest cluster: 64 clients, each of which asks all 64 voters.
use crate::scripts::{Act, stuck_at};
use dealer::Plans;
use members::Blank;
use std::alloc::Global;
use test_plans::even_plan;

/// Creates the cluster. Each client may draw one ticket.
fn largest_blank(alloc: Global) -> Option<Blank> {
    let all = (0..64u8).collect::<Vec<u8>>(alloc).ok()?;
    let plans = Plans::single(even_plan(alloc, 64, &[&all])?);
    Blank::new(alloc, plans, 64, 1).ok()
}

/// Returns the script in which one client after the other gets the vote of every voter, and no message is
/// lost.
fn all_serve() -> [(usize, Act); 128] {
    let mut script = [(0, Act::Lost(0)); 128];
    for client in 0..64usize {
        script[client] = (client, Act::Serve(64));
        script[client + 64] = (client, Act::Lost(0));
    }
    script
}

#[test]
fn every_client_gets_the_vote_of_every_voter(rt: HostRuntime) {
    let blank = largest_blank(rt.alloc());
    assert_eq!(rt; stuck_at(&rt, rt.alloc(), blank, &all_serve(), &[]), None);
}
