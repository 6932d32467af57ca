//! A gate at which two clients meet. Only tests use this crate.
//!
//! [`Meeting`] keeps client 0 inside until client 1, which came meanwhile, has asked. A drive of
//! two clients at this gate ends only if both run at once.
//!
//! Depends on `cluster`. `test_threads` and `test_program` depend on it.
#![tactic(auto)]

mod gate;

pub use gate::Meeting;
