//! The explanation of a code.
ghost use Rattle.std.specs.Prelude.{◌≡◌, ◌≢◌, All, IfNone, IfSome};
ghost use Rattle.show_faults.specs.Codes.{IsFaultCode, IsNoneOf, code_in, fault_codes};

use crate::all::sections;
use crate::code::code_of;
use crate::explanation::Explanation;

/// Returns the first explanation with this code.
fn row_of(rows: &'static [Explanation], code: &str) -> Option<&'static Explanation>
    ensures found { IfSome result (λ row. row.now.code.now ≡ code.now) }
    ensures none { IfNone result (All (λ row. row.code.now ≢ code.now) rows.now) }
    ensures among { IfSome result (λ row. ¬ All (λ other. other.code.now ≢ code.now) rows.now) }
{
    rows.iter().find(|row| row.code == code)
}

/// Returns the explanation of the fault with this code. A whole line of a fault may be passed: its
/// code is the text before the first space. Returns `None` if no fault has this code.
pub fn explanation_of(line: &str) -> Option<&'static Explanation>
    // The explanation is that of the line's code.
    ensures found { IfSome result (λ row. row.now.code.now ≡ code_in line.now) }
    // A fault that is found is one of those with a code.
    ensures known { IfSome result (λ row. IsFaultCode row.now.code.now) }
    // There is none only if no section has this code.
    ensures none { IfNone result (All (IsNoneOf (code_in line.now)) fault_codes) }
{
    let code = code_of(line);
    for section in sections() {
        if let Some(row) = row_of(section.explanations, code) {
            return Some(row);
        }
    }
    None
}
