//! Names of the voters of centres.
use crate::fault::ShapeFault;
use construct::ConstructFault;
use std::alloc::{AllocError, Global};

/// The letters of the centres.
const LETTERS: &str = "abcdefghijklmnopqrstuvwxyz";

/// Adds the names of a centre's voters: its letter and a number from 1.
fn push_centre(
    names: &mut Vec<String>,
    alloc: Global,
    letter: char,
    size: u8,
) -> Result<(), AllocError> {
    for place in 0..size {
        let number = u32::from(place) + 1;
        names.push(format!(in alloc; "{letter}{number}")?)?;
    }
    Ok(())
}

/// Returns the names of the voters of centres: `a1`, `a2` and so on in the first one, `b1` and so on
/// in the second. Fails with `TooLarge` if there are more than 26 centres.
pub(crate) fn centres_names(alloc: Global, sizes: &[u8]) -> Result<Vec<String>, ShapeFault> {
    if sizes.len() > LETTERS.len() {
        return Err(ConstructFault::TooLarge.into());
    }
    let mut names = Vec::new(alloc);
    for (size, letter) in sizes.iter().zip(LETTERS.chars()) {
        push_centre(&mut names, alloc, letter, *size)?;
    }
    Ok(names)
}
