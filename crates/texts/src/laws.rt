//! Laws of lines, for each kind.
ghost use Rattle.std.specs.Prelude.{◌≡◌, ◌++◌, ◌∷◌, [], ℕ, List};
ghost use Rattle.texts.specs.Forms.{AreFirst, line_of};

use crate::line::Line;

/// States that a line has one value, that no line begins a longer one, and that a text begins with
/// one list of lines. So the first line that is none has one place.
pub fn lines_are_read_in_one_way<L: Line>()
    ensures value { (x y : L.Value) → L.form.fits x → L.form.fits y → line_of L.form x ≡ line_of L.form y → x ≡ y }
    ensures end { (x y : L.Value) (more : List ℕ) → L.form.fits x → L.form.fits y
        → line_of L.form x ++ 10 ∷ more ≡ line_of L.form y ++ 10 ∷ [] → more ≡ [] }
    ensures lines { (text rest other : List ℕ) (xs ys : List L.Value)
        → AreFirst L.form text xs rest → AreFirst L.form text ys other → (xs ≡ ys) × (rest ≡ other) }
{}
