//! Tests of the whole program, over a reader and a writer. This crate has nothing but tests.
//!
//! - Each command has a module with a table of command lines: `coteries` and `plans`, `dealing`, `worlds`,
//!   `records` and `running`. `capacities` has the commands for voters with capacities. `rows` runs all
//!   tables.
//! - `prefixes` cuts texts short.
//! - `devices` has devices that fail at each read and at each write, and that move few bytes at a time. It
//!   runs the commands of `tables` over them.
//!
//! Depends on `test_served`, which runs a command line, on `qlock_cli`, `coterie_file` and `test_gate`. The
//! line of every fault is in `test_texts`.
#![tactic(auto)]

/// The text of a plan: its load, its cycle, the quorums' weights and the voters' weights.
#[macro_export]
macro_rules! plan {
    ($load:literal, $cycle:literal, $quorums:literal, $voters:literal) => {
        concat!(
            "quorum-plan 1\nload ",
            $load,
            "\ncycle ",
            $cycle,
            "\nquorum ",
            $quorums,
            "\nvoter ",
            $voters,
            "\n"
        )
    };
}

#[cfg(test)]
mod capacities;
#[cfg(test)]
mod coteries;
#[cfg(test)]
mod dealing;
#[cfg(test)]
mod devices;
#[cfg(test)]
mod plans;
#[cfg(test)]
mod prefixes;
#[cfg(test)]
mod records;
#[cfg(test)]
mod rows;
#[cfg(test)]
mod running;
#[cfg(test)]
mod tables;
#[cfg(test)]
mod worlds;
