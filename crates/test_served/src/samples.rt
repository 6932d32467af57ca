//! Coteries, plans, scripts and records.

/// One voter.
pub const ONE: &str = "voters = [\"a\"]\nquorums = [[\"a\"]]\n";

pub const ONE_PLAN: &str = "quorum-plan 1\nload 1/1\ncycle 1\nquorum 1\nvoter 1\n";

/// The majorities of three voters.
pub const MAJORITY: &str =
    "voters = [\"v0\", \"v1\", \"v2\"]\nquorums = [\n  [\"v0\", \"v1\"],\n  [\"v0\", \"v2\"],\n  [\"v1\", \"v2\"],\n]\n";

pub const MAJORITY_PLAN: &str = "quorum-plan 1\nload 2/3\ncycle 3\nquorum 1 1 1\nvoter 1 1 1\n";

/// A wheel with three rims.
pub const WHEEL: &str =
    "voters = [\"v0\", \"v1\", \"v2\", \"v3\"]\nquorums = [\n  [\"v0\", \"v1\"],\n  [\"v0\", \"v2\"],\n  [\"v0\", \"v3\"],\n  [\"v1\", \"v2\", \"v3\"],\n]\n";

pub const WHEEL_PLAN: &str = "quorum-plan 1\nload 3/5\ncycle 5\nquorum 1 1 1 2\nvoter 2 1 1 1\n";

/// The wheel, whose hub has capacity 2.
pub const FAST_HUB: &str =
    "voters = [\"v0\", \"v1\", \"v2\", \"v3\"]\ncapacity = [2, 1, 1, 1]\nquorums = [\n  [\"v0\", \"v1\"],\n  [\"v0\", \"v2\"],\n  [\"v0\", \"v3\"],\n  [\"v1\", \"v2\", \"v3\"],\n]\n";

pub const FAST_HUB_PLAN: &str =
    "quorum-plan 2\nload 3/7\ncycle 7\ncapacity 2 1 1 1\nquorum 2 2 2 1\nvoter 2 1 1 1\n";

/// A plan of the wheel with the same load, and a cycle twice as long.
pub const LONGER_PLAN: &str = "quorum-plan 1\nload 3/5\ncycle 10\nquorum 2 2 2 4\nvoter 2 1 1 1\n";

/// A grid of two rows and two columns.
pub const GRID: &str =
    "voters = [\"v0\", \"v1\", \"v2\", \"v3\"]\nquorums = [\n  [\"v0\", \"v1\", \"v2\"],\n  [\"v0\", \"v1\", \"v3\"],\n  [\"v0\", \"v2\", \"v3\"],\n  [\"v1\", \"v2\", \"v3\"],\n]\n";

pub const GRID_PLAN: &str = "quorum-plan 1\nload 3/4\ncycle 4\nquorum 1 1 1 1\nvoter 1 1 1 1\n";

/// Two clients of the majorities race for the lock.
pub const RACE: &str =
    "world 2 1000\nask 0\nask 1\ndeliver 2\ndeliver 0\ndeliver 3\ndeliver 4\ndeliver 6\ndeliver 5\nleave 1\ndeliver 7\n";

pub const RACE_OUTPUT: &str =
    "m 0 request 0 0 1\nm 1 request 0 1 1\nm 2 request 1 0 1\nm 3 request 1 2 1\nm 4 locked 0 1 1 1 1\nm 5 inquire 0 1 1 1\nm 6 locked 2 1 1 1 1\nenter 1\nm 7 release 1 0 1\nm 8 release 1 2 1\nleave 1\nm 9 locked 0 0 1 2 1\n";

/// The record of a run of two clients of the majorities.
pub const RECORD: &str =
    "quorum-record 1\ndraw 0 0 0\ndraw 1 2 2\ndraw 0 1 1\npass 0 0\npass 1 1\nregister 2\n";

pub const RECORD_ACCOUNT: &str =
    "drawn 3\nvoter v0 2\nvoter v1 2\nvoter v2 2\nbusiest 2\nregister 2\n";
