//! Reading words from the front of a line.
ghost use Rattle.std.specs.Prelude.{◌≡◌, ◌≤◌, ◌++◌, ◌∷◌, ℕ, List, IfSome, IsTrue, ◌↔◌, MatchOption};
ghost use Rattle.std.specs.Fmt.{decimal};
ghost use Rattle.texts.specs.Fields.{HasNoSpace, IsBorder};

use texts::{cut, field};

/// The highest number of a client or a voter.
const HIGHEST: u64 = 63;

/// Returns whether a word is a known one.
pub fn is(word: &[u8], known: &[u8]) -> bool
    ensures { IsTrue result ↔ (word.now ≡ known.now) }
{
    word == known
}

/// Reads a space and a word from the front. Returns the word and what follows it, or `None` if the
/// bytes do not begin with a space.
pub fn word(bytes: &[u8]) -> Option<(&[u8], &[u8])>
    ensures written { IfSome result (λ x. bytes.now ≡ (32 ∷ x.0.now) ++ x.1.now) }
    ensures plain { IfSome result (λ x. HasNoSpace x.0.now) }
    ensures border { IfSome result (λ x. IsBorder x.1.now) }
    ensures read { (w rest : List ℕ) → HasNoSpace w → IsBorder rest → bytes.now ≡ (32 ∷ w) ++ rest
        → MatchOption result ⊥ (λ x. (x.0.now ≡ w) × (x.1.now ≡ rest)) }
{
    match bytes.split_first() {
        Some((b' ', after)) => Some(cut(after)),
        _ => None,
    }
}

/// Reads a space and the number of a client or a voter from the front.
pub fn id(bytes: &[u8]) -> Option<(u8, &[u8])>
    ensures written { IfSome result (λ x. bytes.now ≡ (32 ∷ decimal x.0) ++ x.1.now) }
    ensures fits { IfSome result (λ x. x.0 ≤ 63) }
    ensures border { IfSome result (λ x. IsBorder x.1.now) }
    ensures read { (n : ℕ) (rest : List ℕ) → n ≤ 63 → IsBorder rest → bytes.now ≡ (32 ∷ decimal n) ++ rest
        → MatchOption result ⊥ (λ x. (x.0 ≡ n) × (x.1.now ≡ rest)) }
{
    match field(bytes) {
        Some((number, rest)) if number <= HIGHEST => Some((number as u8, rest)),
        _ => None,
    }
}
