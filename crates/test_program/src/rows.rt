//! The rows of all tables.
use crate::{capacities, coteries, dealing, plans, records, running, worlds};
use std::test::Fail;
use test_served::first_wrong;

#[test]
fn each_row_is_right(rt: HostRuntime) -> Result<(), Fail> {
    for rows in [
        coteries::REFUSED.as_slice(),
        plans::CHECKED.as_slice(),
        capacities::PLANNED.as_slice(),
        capacities::SERVED.as_slice(),
        dealing::DEALT.as_slice(),
        worlds::PLAYED.as_slice(),
        worlds::REFUSED.as_slice(),
        running::RUNS.as_slice(),
        records::REPLAYED.as_slice(),
    ] {
        assert_eq!(rt; first_wrong(&rt, rt.alloc(), rows)?, None);
    }
    Ok(())
}
