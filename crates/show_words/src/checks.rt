//! What a check of weights found: their load, its bound, and their cycle.

use crate::share::push_excess;
use certificate::Weights;
use show_figures::{Loads, loads_of_weights};
use std::alloc::{AllocError, Global};

/// Appends the bound, and how far the load is above it at most, or that the load is the bound.
fn push_bound(text: &mut String, loads: Loads) -> Result<(), AllocError> {
    if loads.load == loads.bound {
        return text.push_str("optimal\n");
    }
    let (part, whole) = loads.bound;
    write!(text, "bound {part}/{whole}\ngap ")?;
    push_excess(text, loads)?;
    text.push('\n')
}

/// Returns a line with the load, one with the bound and one with how far the load is above it at most, or
/// one that says that it is optimal, and one with the length of a cycle. Fails only if memory runs out.
pub fn check_words(alloc: Global, weights: &Weights) -> Result<String, AllocError> {
    let loads = loads_of_weights(weights);
    let (part, whole) = loads.load;
    let len = weights.cycle_len();
    let mut text = String::new(alloc);
    write!(text, "load {part}/{whole}\n")?;
    push_bound(&mut text, loads)?;
    write!(text, "cycle {len}\n")?;
    Ok(text)
}
