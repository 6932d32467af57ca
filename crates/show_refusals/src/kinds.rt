//! The kinds of texts that are parts of an input, and texts that are in another's place.
use crate::refused::{Page, Pushed};
use commands::{Command, parts_of};
use coterie_file::{FileFault, NameLists};
use std::alloc::{AllocError, Global};

/// The byte order mark that some editors put before a text.
const ORDER_MARK: &[u8] = b"\xef\xbb\xbf";

/// A kind of text.
#[derive(Clone, Copy, PartialEq, Eq)]
pub(crate) enum Kind {
    /// A coterie.
    Coterie,
    /// A plan.
    Plan,
    /// Weights that need not be a plan.
    Weights,
    /// A script.
    Script,
    /// A record.
    Record,
}

/// How texts begin, except coteries.
const BEGINNINGS: [(&str, Kind); 4] = [
    ("quorum-plan ", Kind::Plan),
    ("quorum-weights ", Kind::Weights),
    ("quorum-record ", Kind::Record),
    ("world ", Kind::Script),
];

impl Kind {
    /// Returns what one such text is called.
    pub fn noun(self) -> &'static str {
        match self {
            Kind::Coterie => "coterie",
            Kind::Plan => "plan",
            Kind::Weights => "text of weights",
            Kind::Script => "script",
            Kind::Record => "record",
        }
    }
}

/// Returns what a part of an input has to be.
pub(crate) fn kind_in(command: &Command, number: usize) -> Kind {
    match (number, command) {
        (1, _) => Kind::Coterie,
        (2, _) => Kind::Plan,
        (_, Command::World) => Kind::Script,
        _ => Kind::Record,
    }
}

/// Returns the lists of voters and quorums that a text describes, if it does.
pub(crate) fn lists_of(alloc: Global, text: &[u8]) -> Result<Option<NameLists>, AllocError> {
    let Ok(text) = std::str::from_utf8(text) else {
        return Ok(None);
    };
    match NameLists::of(alloc, text) {
        Ok(lists) => Ok(Some(lists)),
        Err(FileFault::OutOfMemory) => Err(AllocError),
        Err(_) => Ok(None),
    }
}

/// Returns what kind of text a text looks like, if it looks like one.
fn kind_of(alloc: Global, text: &[u8]) -> Result<Option<Kind>, AllocError> {
    let text = text.strip_prefix(ORDER_MARK).unwrap_or(text);
    for (beginning, kind) in &BEGINNINGS {
        if text.starts_with(beginning.as_bytes()) {
            return Ok(Some(*kind));
        }
    }
    Ok(lists_of(alloc, text)?.map(|_lists| Kind::Coterie))
}

/// Appends which parts the input of a command has, in their order.
fn push_order(page: &mut Page) -> Pushed {
    page.text.push_str("the input has to be a coterie")?;
    match parts_of(page.command) {
        0 | 1 => Ok(()),
        2 => page.text.push_str(" and a plan, in this order"),
        number => {
            let last = page.kind(number).noun();
            write!(page.text, ", a plan and a {last}, in this order")
        }
    }
}

/// Appends that a part looks like another kind of text, if it does.
fn push_other_kind(page: &mut Page, number: usize) -> Pushed {
    let Some(kind) = kind_of(page.alloc, page.part(number))? else {
        return Ok(());
    };
    if kind == page.kind(number) {
        return Ok(());
    }
    write!(page.text, "  this looks like a {}: ", kind.noun())?;
    push_order(page)?;
    page.text.push_str(if kind == Kind::Weights {
        "\n  qlock-show reads weights: its commands check, plan and deal show them\n"
    } else {
        "\n"
    })
}

/// Appends what is wrong with a part that has a fault in its first line: it may be another text, or
/// begin with a byte order mark.
pub(crate) fn push_wrong_beginning(page: &mut Page, number: usize) -> Pushed {
    push_other_kind(page, number)?;
    if page.part(number).starts_with(ORDER_MARK) {
        return page.text.push_str(
            "  the text begins with a byte order mark, \\xef\\xbb\\xbf: save it without this mark\n",
        );
    }
    Ok(())
}
