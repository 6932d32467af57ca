//! Words and numbers of a line, with one space between any two.
ghost use Rattle.std.specs.Prelude.{◌≡◌, ◌<◌, ◌≤◌, ◌^◌, ◌++◌, ◌∷◌, ◌==◌, ℕ, List, IfSome, MatchOption, length, position};
ghost use Rattle.std.specs.Bool.{OnFalse, OnTrue};
ghost use Rattle.std.specs.Fmt.{decimal};
ghost use Rattle.std.specs.List.{position_or_len};
ghost use Rattle.texts.specs.Fields.{HasNoSpace, IsBorder, IsPlain};

/// Returns whether there is a byte, no sign in front, and no leading zero.
fn is_plain(digits: &[u8]) -> bool
    ensures plain { OnTrue result (IsPlain digits.now) }
    ensures other { OnFalse result (¬ (IsPlain digits.now)) }
{
    match digits {
        [] | [b'+', ..] | [b'0', _, ..] => false,
        _ => true,
    }
}

/// Parses the bytes, all of them, as a number in decimal, without a sign or a leading zero. Returns
/// `None` if they are no such number below 2^64.
pub fn number(digits: &[u8]) -> Option<u64>
    // The bytes are the text of the number that is returned.
    ensures written { IfSome result (λ n. digits.now ≡ decimal n) }
    // The text of each number is read.
    ensures read { (n : ℕ) → n < 2 ^ 64 → digits.now ≡ decimal n → result ≡ Some n }
{
    if !is_plain(digits) {
        return None;
    }
    match str::from_utf8(digits) {
        Ok(text) => match text.parse::<u64>() {
            Ok(n) => Some(n),
            Err(_) => None,
        },
        Err(_) => None,
    }
}

fn first_space(bytes: &[u8]) -> Option<usize>
    ensures { result ≡ position (λ b. b == 32) bytes.now }
{
    bytes.iter().position(|b| *b == b' ')
}

fn word_len(bytes: &[u8]) -> usize
    ensures place { result ≡ position_or_len (λ b. b == 32) bytes.now }
    ensures bound { result ≤ length bytes.now }
{
    match first_space(bytes) {
        Some(place) => place,
        None => bytes.len(),
    }
}

/// Splits the bytes in front of the first space. The rest begins with the space, and is empty if
/// there is none.
pub fn cut(bytes: &[u8]) -> (&[u8], &[u8])
    ensures whole { bytes.now ≡ result.0.now ++ result.1.now }
    ensures word { HasNoSpace result.0.now }
    ensures border { IsBorder result.1.now }
    ensures read { (word rest : List ℕ) → HasNoSpace word → IsBorder rest → bytes.now ≡ word ++ rest
        → (result.0.now ≡ word) × (result.1.now ≡ rest) }
{
    bytes.split_at(word_len(bytes))
}

/// Reads a space and a number from the front. Returns the number and what follows it, or `None` if
/// the bytes begin otherwise.
pub fn field(bytes: &[u8]) -> Option<(u64, &[u8])>
    ensures written { IfSome result (λ x. bytes.now ≡ (32 ∷ decimal x.0) ++ x.1.now) }
    ensures border { IfSome result (λ x. IsBorder x.1.now) }
    ensures read { (n : ℕ) (rest : List ℕ) → n < 2 ^ 64 → IsBorder rest → bytes.now ≡ (32 ∷ decimal n) ++ rest
        → MatchOption result ⊥ (λ x. (x.0 ≡ n) × (x.1.now ≡ rest)) }
{
    match bytes.split_first() {
        Some((b' ', after)) => {
            let (digits, rest) = cut(after);
            match number(digits) {
                Some(n) => Some((n, rest)),
                None => None,
            }
        }
        _ => None,
    }
}
