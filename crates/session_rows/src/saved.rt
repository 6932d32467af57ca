//! A row as numbers of 64 bits, to be saved and restored.
ghost use Rattle.std.specs.Prelude.{◌≡◌, ◌+◌, ◌*◌, ◌/◌, ◌%◌, ◌^◌, ◌∷◌, [], ℕ, Bool, true, Option, IfSome, None, Some};
ghost use Rattle.session_rows.specs.Saved.{session_words};

/// How many numbers a saved row has.
pub const SAVED_WORDS: usize = 6;

/// How many numbers a half of a session's name may be.
const HALF: u128 = 1 << 64;

/// Returns the session with these halves.
pub fn joined(upper: u64, lower: u64) -> u128
    ensures { result ≡ upper * 2 ^ 64 + lower }
{
    u128::from(upper) * HALF + u128::from(lower)
}

fn upper_half(session: u128) -> u64
    ensures { result ≡ session / 2 ^ 64 }
{
    (session / HALF) as u64
}

fn lower_half(session: u128) -> u64
    ensures { result ≡ session % 2 ^ 64 }
{
    (session % HALF) as u64
}

/// Returns the numbers of a session, or of nobody.
pub fn words_of_session(session: Option<u128>, again: bool) -> [u64; 3]
    ensures { result ≡ session_words session again }
{
    match session {
        None => [if again { 2 } else { 0 }, 0, 0],
        Some(session) => [1, upper_half(session), lower_half(session)],
    }
}

/// Returns the session with these numbers, or nobody, and whether the epoch may be claimed again. `None` if they
/// are neither.
#[tactic(auto, using(crate::proofs::SavedLemmas::joined_words))]
pub fn session_of_words(held: u64, upper: u64, lower: u64) -> Option<(Option<u128>, bool)>
    ensures text { IfSome result (λ found. held ∷ upper ∷ lower ∷ [] ≡ session_words found.0 found.1) }
    ensures free { IfSome result (λ found. found.1 ≡ true → found.0 ≡ None) }
    ensures read { (session : Option ℕ) (again : Bool) → (again ≡ true → session ≡ None)
        → held ∷ upper ∷ lower ∷ [] ≡ session_words session again → result ≡ Some (session, again) }
{
    match held {
        0 if upper == 0 && lower == 0 => Some((None, false)),
        1 => Some((Some(joined(upper, lower)), false)),
        2 if upper == 0 && lower == 0 => Some((None, true)),
        _ => None,
    }
}
