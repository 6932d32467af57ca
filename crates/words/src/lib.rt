//! Numbers of 64 bits as bytes: eight for each, the lowest byte first. Takes no memory.
//!
//! Saved voters and clients are such numbers. What [`write_words`] wrote, [`read_words`] reads as
//! the same numbers. Depends only on the kit's `arrayvec`.
#![tactic(auto)]

ghost use Rattle.std.specs.Prelude.{◌≡◌, ◌+◌, ◌*◌, ◌^◌, ◌<◌, ◌≤◌, ℕ, List, length, take, drop};
ghost use Rattle.std.specs.Int.{w64, to_le_bytes};
ghost use Rattle.words.specs.WordBytes.{FitIn64Bits, bytes_of};

mod laws;

use arrayvec::ArrayVec;
pub use laws::bytes_have_one_reading;

fn write_word(word: u64, place: &mut [u8])
    requires { length place.old ≡ 8 }
    ensures text { place.new ≡ to_le_bytes w64 word }
    ensures fits { word < 2 ^ 64 }
{
    place.copy_from_slice(&word.to_le_bytes());
}

/// Writes each number as eight bytes.
pub fn write_words(words: &[u64], bytes: &mut [u8])
    requires { length bytes.old ≡ 8 * length words.now }
    ensures text { bytes.new ≡ bytes_of words.now }
    // So these bytes have one reading.
    ensures fit { FitIn64Bits words.now }
{
    for i in 0..words.len() {
        write_word(words[i], &mut bytes[8 * i..8 * i + 8]);
    }
}

fn word_at(bytes: &[u8], i: usize) -> u64
    requires { 8 * i + 8 ≤ length bytes.now }
    ensures text { to_le_bytes w64 result ≡ take 8 (drop (8 * i) bytes.now) }
    ensures fits { result < 2 ^ 64 }
{
    let mut word = [0; 8];
    word.copy_from_slice(&bytes[8 * i..8 * i + 8]);
    u64::from_le_bytes(word)
}

/// Reads a number from each eight bytes, in place of what was in `words`.
pub fn read_words<const N: usize>(bytes: &[u8], words: &mut ArrayVec<u64, N>)
    requires { length bytes.now ≡ 8 * N }
    ensures text { bytes.now ≡ bytes_of words.new.items }
    ensures count { length words.new.items ≡ N }
    ensures fit { FitIn64Bits words.new.items }
    // The bytes of these numbers are read as these numbers.
    ensures read { (numbers : List ℕ) → FitIn64Bits numbers → bytes.now ≡ bytes_of numbers → words.new.items ≡ numbers }
{
    words.clear();
    for i in 0..N {
        words.push(word_at(bytes, i));
    }
}
