//! A clock as numbers of 64 bits, to be saved and restored.
ghost use Rattle.std.specs.Prelude.{◌≡◌, ◌<◌, ◌≤◌, ◌+◌, ◌*◌, ◌++◌, ◌∷◌, [], ℕ, List, IsTrue, get_or, length};
ghost use Rattle.arrayvec.specs.ArrayVec.{array_vec_len};
ghost use Rattle.lease_clock.specs.Clocks.{AreInOrder, most_away};
ghost use Rattle.lease_clock.specs.Saved.{slots};
ghost use Rattle.lease_clock.specs.declared.marker.Marker.{Marker};

use crate::marker::{Marker, Markers};
use arrayvec::ArrayVec;

/// How many numbers a saved clock has.
pub const SAVED_WORDS: usize = 38;

/// The numbers of a saved clock.
pub type SavedWords = ArrayVec<u64, 38>;

/// How many numbers are before those of the markers under way.
pub const HEAD_WORDS: usize = 6;

/// How many markers there is room for.
const SLOTS: usize = 16;

/// Returns the numbers of these markers, and zeros for the empty slots.
pub fn slots_of(markers: &[Marker]) -> ArrayVec<u64, 32>
    requires { length markers.now ≤ most_away }
    ensures words { result.items ≡ slots most_away markers.now }
    ensures len { array_vec_len result ≡ 32 }
{
    let mut words = ArrayVec::new();
    for slot in 0..SLOTS {
        let marker = marker_at(markers, slot);
        words.push(marker.number);
        words.push(marker.left);
    }
    words
}

/// Returns the marker at a place, and the marker with two zeros if there is none.
fn marker_at(markers: &[Marker], slot: usize) -> Marker
    ensures { result ≡ get_or markers.now slot (record { number = 0; left = 0 }) }
{
    match markers.get(slot) {
        Some(marker) => *marker,
        None => Marker::default(),
    }
}

/// Returns the markers in these slots.
pub fn markers_in(words: &[u64]) -> Markers
    requires { length words.now ≡ 2 * most_away }
    ensures few { length result.items ≤ most_away }
    ensures read { (first last : Marker) (ms : List Marker) → AreInOrder first ms last → length ms ≤ most_away → words.now ≡ slots most_away ms
        → result.items ≡ ms }
{
    let mut markers = ArrayVec::new();
    for slot in 0..SLOTS {
        add_slot(words[2 * slot], words[2 * slot + 1], &mut markers);
    }
    markers
}

/// Adds the marker of a slot, if there is one.
fn add_slot(number: u64, left: u64, markers: &mut Markers)
    requires { length markers.old.items < most_away }
    ensures none { number ≡ 0 → markers.new ≡ markers.old }
    ensures some { 0 < number → markers.new.items ≡ markers.old.items ++ record { number = number; left = left } ∷ [] }
    ensures few { length markers.new.items ≤ length markers.old.items + 1 }
{
    if number > 0 {
        markers.push(Marker { number, left });
    }
}

/// Returns whether these markers left one after the other, between the first and the last.
pub fn are_in_order(first: Marker, markers: &[Marker], last: Marker) -> bool
    ensures yes { IsTrue result → AreInOrder first markers.now last }
    ensures read { AreInOrder first markers.now last → IsTrue result }
{
    let mut newest = first;
    for marker in markers {
        if marker.number <= newest.number || marker.left < newest.left {
            return false;
        }
        newest = *marker;
    }
    newest.number <= last.number && newest.left <= last.left
}

/// Returns whether these are the slots of the markers.
pub fn are_slots_of(words: &[u64], markers: &[Marker]) -> bool
    requires { length markers.now ≤ most_away }
    ensures text { IsTrue result → words.now ≡ slots most_away markers.now }
    ensures read { words.now ≡ slots most_away markers.now → IsTrue result }
{
    let own = slots_of(markers);
    own.as_slice() == words
}
