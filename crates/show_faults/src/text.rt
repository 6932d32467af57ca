//! The text of an explanation.
ghost use Rattle.std.specs.Prelude.{◌≡◌, IfOk, string_bytes};
ghost use Rattle.show_faults.specs.Texts.{indent, text_of, title_of};

use crate::explanation::Explanation;
use std::alloc::{AllocError, Global};

/// Returns the lines of a text, each behind four spaces and with a newline at its end.
fn indented(alloc: Global, text: &str) -> Result<String, AllocError>
    ensures { IfOk result (λ t. string_bytes t ≡ indent text.now) }
{
    let mut out = String::new(alloc);
    for line in text.lines() {
        out.push_str("    ")?;
        out.push_str(line)?;
        out.push_str("\n")?;
    }
    Ok(out)
}

/// Returns the line of the fault, with the names of its arguments in place of numbers.
pub(crate) fn title(alloc: Global, explanation: &Explanation) -> Result<String, AllocError>
    ensures { IfOk result (λ t. string_bytes t ≡ title_of explanation.now) }
{
    let code = explanation.code;
    let name = explanation.name;
    let arguments = explanation.arguments;
    if arguments.is_empty() {
        format!(in alloc; "{code} {name}")
    } else {
        format!(in alloc; "{code} {name} {arguments}")
    }
}

/// Returns the text of an explanation: the line of the fault, what it means, an example, and what
/// usually led to it. Example and mistakes are indented by four spaces.
pub fn explanation_text(alloc: Global, explanation: &Explanation) -> Result<String, AllocError>
    ensures layout { IfOk result (λ t. string_bytes t ≡ text_of explanation.now) }
{
    let title = title(alloc, explanation)?;
    let meaning = explanation.meaning;
    let example = indented(alloc, explanation.example)?;
    let mistakes = indented(alloc, explanation.mistakes)?;
    format!(in alloc;
        "{title}\n\n{meaning}\n\nFor example:\n{example}\nWhat usually led to it:\n{mistakes}"
    )
}
