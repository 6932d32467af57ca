//! How many members the quorums of a coterie have.
ghost use Rattle.std.specs.Prelude.{◌≡◌};
ghost use Rattle.show_figures.specs.Comparisons.{largest_size};

use quorum_set::Coterie;

/// Returns the number of members of the largest quorum.
pub(crate) fn largest_size(coterie: &Coterie) -> usize
    ensures { result ≡ largest_size coterie.now }
{
    let mut most = 0;
    for number in 0..coterie.count() {
        most = most.max(coterie.quorum(number).len());
    }
    most
}
