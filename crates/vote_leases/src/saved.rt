//! What may be there or not, as two numbers.
ghost use Rattle.std.specs.Prelude.{◌≡◌, ◌∷◌, [], ℕ, Option, Some, None, IfSome};
ghost use Rattle.vote_leases.specs.Saved.{option_words};

/// Returns the two numbers of a time that may be known.
pub fn words_of(time: Option<u64>) -> [u64; 2]
    ensures { result ≡ option_words time }
{
    match time {
        None => [0, 0],
        Some(time) => [1, time],
    }
}

/// Returns the time that may be known, with these two numbers. `None` if they are not those of one.
pub fn option_of(is_known: u64, time: u64) -> Option<Option<u64>>
    ensures text { IfSome result (λ o. is_known ∷ time ∷ [] ≡ option_words o) }
    ensures read { (o : Option ℕ) → is_known ∷ time ∷ [] ≡ option_words o → result ≡ Some o }
{
    match (is_known, time) {
        (0, 0) => Some(None),
        (1, time) => Some(Some(time)),
        _ => None,
    }
}
