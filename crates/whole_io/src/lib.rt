//! Reading a whole input, and writing a whole output: a reader and a writer that remember whether
//! they failed.
//!
//! [`Watched`] passes on the calls to a reader or a writer, and notes whether one has failed.
//! Through it [`read_input`] reads to the end, at most [`LONGEST`] bytes, and [`write_output`]
//! writes until all is written. Each returns the fault of its device if and only if that device
//! failed. Their contracts say in each case what was read, or how much was written.
//!
//! Contracts see a [`Watched`] as the reader or the writer inside, and whether it has failed
//! (`specs/Watching.antt`). Of a reader they see the bytes that are left, and of a writer the bytes
//! that it took, if these are known. Nothing is said about when a read or a write returns.
//!
//! This crate depends on no other. It is for programs that turn one input into one output.
//!
//! ```
//! let mut reader = Watched::of(rt.reader());
//! let mut writer = Watched::of(io::writer(&rt));
//! let input = read_input(alloc, &mut reader)?; // all of it, or `TooLong`, `ReadFault`, `OutOfMemory`
//! write_output(&mut writer, input.as_slice())?; // all of it, or `WriteFault`
//! ```
#![tactic(auto)]

mod device;
mod fault;
mod watched;

pub use device::{LONGEST, read_input, write_output};
pub use fault::DeviceFault;
pub use watched::Watched;
