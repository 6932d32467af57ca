//! Writing the numbers of lines.
ghost use Rattle.std.specs.Prelude.{◌≡◌, ◌≤◌, ◌+◌, ◌++◌, ◌∷◌, OnOk, string_bytes};
ghost use Rattle.std.specs.Fmt.{decimal};
ghost use Rattle.arrayvec.specs.ArrayString.{array_string_len};

use arrayvec::ArrayString;
use itoa::Buffer;
use std::alloc::AllocError;

/// Appends a number in decimal. Fails only if it runs out of memory.
pub fn push_number(text: &mut String, number: u64) -> Result<(), AllocError>
    ensures { OnOk result (string_bytes text.new ≡ string_bytes text.old ++ decimal number) }
{
    let mut buffer = Buffer::new();
    text.push_str(buffer.format(number))
}

/// Appends a space and a number in decimal. Fails only if it runs out of memory; the text may then end
/// with the space.
pub fn push_field(text: &mut String, number: u64) -> Result<(), AllocError>
    ensures { OnOk result (string_bytes text.new ≡ string_bytes text.old ++ (32 ∷ decimal number)) }
{
    text.push(' ')?;
    push_number(text, number)
}

/// Appends a space and a number in decimal to a text of fixed room, which has to have room for 21 bytes.
pub fn push_field_in_room<const N: usize>(text: &mut ArrayString<N>, number: u64)
    requires { array_string_len text.old + 21 ≤ N }
    ensures bytes { text.new.bytes ≡ text.old.bytes ++ (32 ∷ decimal number) }
    ensures len { array_string_len text.new ≤ array_string_len text.old + 21 }
{
    let mut buffer = Buffer::new();
    text.push(' ');
    text.push_str(buffer.format(number));
}
