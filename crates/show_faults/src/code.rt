//! The code in the line of a fault.
ghost use Rattle.std.specs.Prelude.{◌≡◌};
ghost use Rattle.show_faults.specs.Codes.{code_in};

/// Returns the code in the line of a fault: the text before its first space, and all of it if it
/// has none.
pub fn code_of(line: &str) -> &str
    ensures { result.now ≡ code_in line.now }
{
    match line.split_once(' ') {
        Some((code, _)) => code,
        None => line,
    }
}
