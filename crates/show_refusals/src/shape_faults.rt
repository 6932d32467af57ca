//! What is wrong with the sizes of a shape, for `fault make`.
use crate::lines::repeated;
use crate::refused::{Page, Pushed};
use crate::text_faults::push_coterie_fault;
use command_line::Shape;
use construct::ConstructFault;
use coterie_file::NameLists;
use std::alloc::{AllocError, Global};

/// Appends what is wrong with a base.
fn push_base(text: &mut String, voters: u32, base: &[u32]) -> Pushed {
    if let Some(number) = base.iter().find(|number| **number >= voters) {
        return write!(
            text,
            "  the base has the number {number}; its numbers are below {voters}, the number of voters\n"
        );
    }
    match repeated(base) {
        Some(number) => write!(text, "  the base has the number {number} twice\n"),
        None => text.push_str("  a ring has 1 voter at least, and its base 1 number\n"),
    }
}

/// Appends which sizes of a shape are too small, or what is wrong with its base.
fn push_bad_size(text: &mut String, shape: &Shape) -> Pushed {
    match shape {
        Shape::Grid(_, _) => text.push_str("  a grid has 2 rows and 2 columns at least\n"),
        Shape::Majority(_) => text.push_str("  a majority has 1 voter at least\n"),
        Shape::Tree(_) => Ok(()),
        Shape::Wheel(_) => text.push_str("  a wheel has 2 rims at least\n"),
        Shape::Cyclic(voters, base) => push_base(text, *voters, base),
    }
}

/// Appends which sizes of a shape are too large.
fn push_too_large(text: &mut String, shape: &Shape) -> Pushed {
    match shape {
        Shape::Grid(rows, columns) => {
            let voters = u64::from(*rows).saturating_mul(u64::from(*columns));
            write!(
                text,
                "  {rows} rows of {columns} are {voters} voters; at most 64 may be\n"
            )
        }
        Shape::Majority(_) => text.push_str(
            "  a majority has 14 voters at most: 15 voters have 6435 quorums, and at most 4096 may be\n",
        ),
        Shape::Tree(_) => text.push_str(
            "  a tree has the height 3 at most: one of height 4 has 65535 quorums, and at most 4096 may be\n",
        ),
        Shape::Wheel(_) => {
            text.push_str("  a wheel has 63 rims at most: with the hub these are 64 voters\n")
        }
        Shape::Cyclic(_, _) => text.push_str("  a ring has 64 voters at most\n"),
    }
}

/// Returns the quorums of a ring, with the names of their members: quorum n has the voters of the base,
/// each moved on by n.
fn ring_lists(alloc: Global, voters: u32, base: &[u32]) -> Result<NameLists, AllocError> {
    let mut quorums = Vec::new(alloc);
    for quorum in 0..voters.min(64) {
        let mut names = Vec::new(alloc);
        for voter in 0..voters.min(64) {
            let ahead = voter.saturating_add(voters).saturating_sub(quorum);
            if base.contains(&ahead.checked_sub(voters).unwrap_or(ahead)) {
                names.push(format!(in alloc; "v{voter}")?)?;
            }
        }
        quorums.push(names)?;
    }
    Ok(NameLists {
        names: Vec::new(alloc),
        quorums,
        capacities: Vec::new(alloc),
    })
}

/// Appends what is wrong with the sizes of a shape.
pub(crate) fn push_shape_fault(page: &mut Page, shape: &Shape, fault: ConstructFault) -> Pushed {
    match (fault, shape) {
        (ConstructFault::BadSize, _) => push_bad_size(&mut page.text, shape),
        (ConstructFault::TooLarge, _) => push_too_large(&mut page.text, shape),
        (ConstructFault::Coterie(fault), Shape::Cyclic(voters, base)) => {
            let lists = ring_lists(page.alloc, *voters, base)?;
            page.text.push_str("  ")?;
            push_coterie_fault(page, &lists, fault)?;
            page.text.push('\n')
        }
        _ => Ok(()),
    }
}
