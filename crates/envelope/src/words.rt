//! Names, and the words of a client or a voter, from the front of a line.
ghost use Rattle.std.specs.Prelude.{◌≡◌, ◌<◌, ◌≤◌, ◌^◌, ◌++◌, ◌∷◌, [], ℕ, List, IfSome, MatchOption};
ghost use Rattle.std.specs.Fmt.{decimal};
ghost use Rattle.texts.specs.Fields.{IsBorder};
ghost use Rattle.envelope.specs.Names.{IsName};
ghost use Rattle.line_words.specs.Lines.{spaced};

use crate::names::is_name;
use line_words::{id, word};
use texts::field;

/// Reads a space and a name from the front.
#[tactic(auto, using(crate::proofs::NameLemmas::name_has_no_space))]
pub fn name(bytes: &[u8]) -> Option<(&[u8], &[u8])>
    ensures written { IfSome result (λ x. bytes.now ≡ (32 ∷ x.0.now) ++ x.1.now) }
    ensures fits { IfSome result (λ x. IsName x.0.now) }
    ensures border { IfSome result (λ x. IsBorder x.1.now) }
    ensures read { (w rest : List ℕ) → IsName w → IsBorder rest → bytes.now ≡ (32 ∷ w) ++ rest
        → MatchOption result ⊥ (λ x. (x.0.now ≡ w) × (x.1.now ≡ rest)) }
{
    let Some((name, rest)) = word(bytes) else {
        return None;
    };
    if !is_name(name) {
        return None;
    }
    Some((name, rest))
}

/// The four numbers of a client or a voter.
#[derive(Clone, Copy, Debug)]
pub struct Counts {
    pub id: u8,
    pub first: u64,
    pub second: u64,
    pub third: u64,
}

/// Reads the words of a client or a voter from the front: its number, two numbers, a name, and a
/// number. Returns the numbers, the name, and what follows.
pub fn numbers(bytes: &[u8]) -> Option<(Counts, &[u8], &[u8])>
    ensures written { IfSome result (λ x. bytes.now
        ≡ spaced (decimal x.0.id ∷ decimal x.0.first ∷ decimal x.0.second ∷ x.1.now ∷ decimal x.0.third ∷ []) x.2.now) }
    ensures id { IfSome result (λ x. x.0.id ≤ 63) }
    ensures name { IfSome result (λ x. IsName x.1.now) }
    ensures border { IfSome result (λ x. IsBorder x.2.now) }
    ensures read { (n a b d : ℕ) (w rest : List ℕ) → n ≤ 63 → a < 2 ^ 64 → b < 2 ^ 64 → d < 2 ^ 64 → IsName w → IsBorder rest
        → bytes.now ≡ spaced (decimal n ∷ decimal a ∷ decimal b ∷ w ∷ decimal d ∷ []) rest
        → MatchOption result ⊥ (λ x. (x.0.id ≡ n) × (x.0.first ≡ a) × (x.0.second ≡ b) × (x.1.now ≡ w) × (x.0.third ≡ d)
        × (x.2.now ≡ rest)) }
{
    let Some((id, rest)) = id(bytes) else {
        return None;
    };
    let Some((first, rest)) = field(rest) else {
        return None;
    };
    let Some((second, rest)) = field(rest) else {
        return None;
    };
    let Some((name, rest)) = name(rest) else {
        return None;
    };
    let Some((third, rest)) = field(rest) else {
        return None;
    };
    Some((
        Counts {
            id,
            first,
            second,
            third,
        },
        name,
        rest,
    ))
}
