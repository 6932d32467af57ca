//! Writing words into the room of a line.
ghost use Rattle.std.specs.Prelude.{◌≡◌, ◌≤◌, ◌+◌, ◌++◌, ◌∷◌, length};
ghost use Rattle.std.specs.Fmt.{decimal};
ghost use Rattle.arrayvec.specs.ArrayVec.{array_vec_len};

use arrayvec::ArrayVec;
use itoa::Buffer;

/// The room that is enough for the line of any header, and for any line of control.
pub const LINE_ROOM: usize = 320;

/// A line in a room of its own.
pub type Room = ArrayVec<u8, LINE_ROOM>;

/// Appends bytes.
pub fn push(text: &mut Room, bytes: &[u8])
    requires { array_vec_len text.old + length bytes.now ≤ 320 }
    ensures bytes { text.new.items ≡ text.old.items ++ bytes.now }
    ensures len { array_vec_len text.new ≡ array_vec_len text.old + length bytes.now }
{
    let _ = text.try_extend_from_slice(bytes);
}

/// Appends a space and a word.
pub fn push_word(text: &mut Room, word: &[u8])
    requires { array_vec_len text.old + 1 + length word.now ≤ 320 }
    ensures bytes { text.new.items ≡ text.old.items ++ (32 ∷ word.now) }
    ensures len { array_vec_len text.new ≡ array_vec_len text.old + 1 + length word.now }
{
    push(text, b" ");
    push(text, word);
}

/// Appends a space and a number in decimal, at most 21 bytes.
pub fn push_number(text: &mut Room, number: u64)
    requires { array_vec_len text.old + 21 ≤ 320 }
    ensures bytes { text.new.items ≡ text.old.items ++ (32 ∷ decimal number) }
    ensures len { array_vec_len text.new ≤ array_vec_len text.old + 21 }
{
    let mut buffer = Buffer::new();
    push_word(text, buffer.format(number).as_bytes());
}
