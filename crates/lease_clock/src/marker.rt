//! Markers that are under way.
ghost use Rattle.std.specs.Prelude.{◌≡◌, ◌≤◌, ◌+◌, ◌∷◌, [], ◌++◌, IfNone, IfSome, length};
ghost use Rattle.arrayvec.specs.ArrayVec.{array_vec_len};
ghost use Rattle.lease_clock.specs.Clocks.{from_number, make_room, most_away};

use arrayvec::ArrayVec;

/// A message of a voter to itself.
#[derive(Clone, Copy, Debug, Default, PartialEq, Eq)]
pub struct Marker {
    /// Its number. That of the first one is 1.
    pub number: u64,
    /// When it left.
    pub left: u64,
}

/// The markers that are under way, the newest last.
pub type Markers = ArrayVec<Marker, 16>;

/// Adds a marker behind the others. The oldest one is dropped if there are 16.
pub fn add(marker: Marker, markers: &mut Markers)
    ensures added { markers.new.items ≡ make_room markers.old.items ++ marker ∷ [] }
    ensures few { length markers.new.items ≤ most_away }
{
    if markers.is_full() {
        markers.remove(0);
    }
    markers.push(marker);
}

/// A marker, and those that left after it.
#[derive(Drop)]
pub struct Found {
    pub marker: Marker,
    pub later: Markers,
}

/// Returns the marker of this number. `None` if it is not among these.
pub fn find(number: u64, markers: &[Marker]) -> Option<Found>
    requires { length markers.now ≤ most_away }
    ensures found { IfSome result (λ f. from_number number markers.now ≡ f.marker ∷ f.later.items) }
    ensures none { IfNone result (from_number number markers.now ≡ []) }
{
    for i in 0..markers.len() {
        if markers[i].number == number {
            return Some(Found {
                marker: markers[i],
                later: copied(&markers[i + 1..]),
            });
        }
    }
    None
}

/// Returns a copy of these markers.
fn copied(markers: &[Marker]) -> Markers
    requires { length markers.now ≤ most_away }
    ensures { result.items ≡ markers.now }
{
    let mut copy = ArrayVec::new();
    let _ = copy.try_extend_from_slice(markers);
    copy
}
