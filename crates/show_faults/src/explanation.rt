//! The explanation of a fault.

/// What a fault means, how to get it, and what usually leads to it.
#[derive(Clone, Copy)]
pub struct Explanation {
    /// The code, a letter and a number, as in `E7`.
    pub code: &'static str,
    /// The name, as in `Disjoint`.
    pub name: &'static str,
    /// The names of the arguments in the fault's line, as in `j k`. It is empty if there are none.
    pub arguments: &'static str,
    /// What the fault means, in sentences.
    pub meaning: &'static str,
    /// Lines that give the fault: a command and what matters of its input.
    pub example: &'static str,
    /// What usually led to it, and what to do.
    pub mistakes: &'static str,
}
