//! Names of voters.
ghost use Rattle.std.specs.Prelude.{◌≡◌, ◌<◌, Some, codes, slice_get, slice_index_or};

use coterie_file::Named;

/// Returns the name of a voter, or `?` if no voter has this number.
pub fn name_of(named: &Named, voter: u8) -> &str
    ensures name { voter < named.now.system.voters → slice_get named.now.names voter ≡ Some result.now }
    ensures shown { result.now ≡ slice_index_or named.now.names voter (codes "?") }
{
    let number = usize::from(voter);
    if number < named.coterie().voters() {
        named.name(number)
    } else {
        "?"
    }
}
