//! A section of the page of all faults.
use crate::explanation::Explanation;

/// The faults of one kind, with their explanations.
#[derive(Clone, Copy)]
pub struct Section {
    /// What these faults are about, as a heading.
    pub title: &'static str,
    /// Their explanations, in the order in which the page has them.
    pub explanations: &'static [Explanation],
}
