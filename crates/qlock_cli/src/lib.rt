//! The commands of the program `qlock`, with the command `run`, and runs of the lock in threads.
//!
//! [`read_words`] reads the words of a command line. [`execute`] then serves a [`Command`] over a
//! reader and a writer, and [`execute_run`] serves the command `run`, whose clients work in
//! threads. All but `run` is of the crate `commands`, which says what each command writes.
//!
//! [`record_of_run`] opens a cluster of a plan's voters and of up to 64 clients. It drives the
//! members, each in a thread of its own, and closes the cluster again.
//!
//! # What is proved
//!
//! - The record of a run is sound for the plan. In it each client has a ticket and a pass number
//!   for each of its passes.
//! - No run ends because a ticket is missing: each client may draw one for each pass.
//! - There is a record of passes only if the gate lets each client pass, and if there are at least
//!   two turns for each pass.
//! - What `run` writes is the text of the record of a run by the plan that was read. A [`Fault`]
//!   comes only for an input with this fault, for a run that ended early, for a device that failed,
//!   or if memory ran out.
//!
//! The program `qlock` calls this crate, and other programs can embed it. It depends on `cluster`, whose
//! members it drives, and on `replay`, which defines sound records.
//!
//! ```
//! let command = read_words(alloc, words)?; // of `qlock plan`: Command::Plan
//! let mut reader = Watched::of(input.as_bytes());
//! let mut writer = Watched::of(&mut written);
//! execute(alloc, &command, &mut reader, &mut writer)?; // `written` is the text of a plan
//!
//! let run = record_of_run(rt, alloc, plan, 4, 100, 1_000_000, &NoGate)?; // run.register is 400
//! ```
#![tactic(auto)]

mod laws;
mod run;
mod running;

pub use cluster::{Gate, NoGate};
pub use commands::{
    Command, DeviceFault, Fault, InputFault, Planned, Shape, Usage, Watched, coterie_of, dealt,
    execute, planned_of, push_account, push_ratio, read_words, split_part, staged_of, status_of,
    usage_status,
};
pub use laws::records_of_runs_are_sound;
pub use run::record_of_run;
pub use run_outcome::RunFault;
pub use running::execute_run;
