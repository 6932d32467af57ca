//! The law of bytes.
ghost use Rattle.std.specs.Prelude.{◌≡◌, ℕ, List};
ghost use Rattle.words.specs.WordBytes.{FitIn64Bits, bytes_of};

/// Two lists of numbers of 64 bits have the same bytes only if they are the same list.
pub fn bytes_have_one_reading()
    ensures { (first second : List ℕ) → FitIn64Bits first → FitIn64Bits second
        → bytes_of first ≡ bytes_of second → first ≡ second }
{}
